//! A name taken out.
ghost use Rattle.std.specs.Prelude.{◌≡◌, ◌<◌, ◌≤◌, ◌+◌, ◌*◌, ◌-◌, ℕ, List, [], ◌∷◌, IfErr, IfOk, IfSome, IsTrue, None};
ghost use Rattle.std.specs.Ordering.{eq_by_cmp};
ghost use Rattle.uf_murmur.specs.Slots.{slot as slot_of};
ghost use Rattle.uf_store.specs.Among.{SavesAmong};
ghost use Rattle.uf_store.specs.Clashes.{IsSaving};
ghost use Rattle.uf_store.specs.Calls.{OnlySaves};
ghost use Rattle.uf_store.specs.Faults.{Answers, NoneIsBad, fault_in};
ghost use Rattle.uf_store.specs.Keeping.{Agrees, KeepsGood};
ghost use Rattle.uf_store.specs.Writing.{SavesOnly};
ghost use Rattle.uf_store.specs.Seen.{Finds, Seen};
ghost use Rattle.uf_tree.specs.declared.meta.Meta.{Meta as TheMeta};
ghost use Rattle.uf_tree.specs.Changes.{without};
ghost use Rattle.uf_tree.specs.Codecs.{shard_node_block};
ghost use Rattle.uf_tree.specs.Metas.{is_meta, none};
ghost use Rattle.uf_tree.specs.Names.{names_cmp};
ghost use Rattle.uf_tree.specs.Nodes.{Named};
ghost use Rattle.uf_tree.specs.ShardPlan.{shard};
ghost use Rattle.uf_tree.specs.Validity.{IsShardNode};
ghost use Rattle.uf_shard.specs.Answers.{shard_node_held};
ghost use Rattle.uf_shard.specs.Over.{AgreesRemoved, OfFirst, OfFound, RemovesOver, SavesRemoved};
ghost use Rattle.uf_shard.specs.Placed.{IsBadOnWay, IsPlaced, IsPlacedNode, way};
ghost use Rattle.uf_shard.specs.Planned.{IsPlanned};
ghost use Rattle.uf_shard.specs.Reached.{IsReached};
ghost use Rattle.uf_shard.specs.Changed.{AreItems, IsItemAt, IsSlot, below, blocks_of};
ghost use Rattle.uf_shard.specs.Taken.{AreInSlots, IsLeftOf, IsValidRest, LeafWithout, LeavesBelow};
ghost use Rattle.uf_shard.specs.Taken.{LeavesShard, SavesNothing, SavesRest, TakesSlot, TakesSlots, UnsavedBelow};
ghost use Rattle.uf_shard.specs.Taken.{UnsavedItems};
ghost use Rattle.uf_shard.specs.Taken.{UnsavedRest, collapsed};
ghost use Rattle.uf_shard.specs.declared.removed.Removed.TheVariants.{Absent};
ghost use Rattle.uf_shard.specs.declared.rest.Rest.TheVariants.{Same};

use crate::loading::{load_shard, slot_at};
use crate::nodes::save_node;
use crate::reading::is_first;
use crate::removed::Removed;
use crate::rest::Rest;
use crate::slots::{is_same, item_in, with_slot};
use std::alloc::Global;
use std::sync::ledger::Ledger;
use uf_cid::{Cid, Memory};
use uf_murmur::NameHash;
use uf_store::{Role, Steps, Store, StoreFault};
use uf_tree::{Item, Items, Meta, Name, Placed, ShardNode};

/// Takes a name out of the directory whose shard tree has this root, and answers what is left (UnixFS v1,
/// "HAMTDirectory"). The directory's metadata stays. A shard below the root that is left with one entry gives way to
/// that entry, level by level. Only the shards on the name's way are loaded and saved: at most 16 touches, and at most
/// eight where the name isn't there. Nothing is saved where the name isn't there or is the only one.
pub fn remove<S: Store, N: NameHash, L: Ledger>(
    alloc: Global,
    store: &mut S,
    root: &Cid,
    name: &Name,
    touches: &mut Steps<L>,
) -> Result<Removed, StoreFault>
    ensures value { (m : TheMeta) (l : List Named) → IsPlanned S.X.block32 N.name64 root.now m l
        → RemovesOver S.X.block32 N.name64 (S.seen store.old) (S.seen store.new) m l name.now result }
    ensures made { IfOk result (LeavesShard S.X.block32) }
    ensures nothing { IfOk result (λ left. SavesNothing left (S.seen store.old).told (S.seen store.new).told) }
    ensures after { IfOk result (λ left. (m : TheMeta) (l : List Named) → IsPlanned S.X.block32 N.name64 root.now m l
        → AgreesRemoved S.X.block32 N.name64 (S.seen store.old) (S.seen store.new) m l name.now left) }
    ensures cause { Answers S.X.block32 (IsBadOnWay N.name64 (N.name64 name.now)) result
        (S.seen store.old) (S.seen store.new) }
    ensures good { KeepsGood S.X.block32 (S.seen store.old).told (S.seen store.new).told }
    ensures saves { SavesOnly S.X.block32 (S.seen store.old).told (S.seen store.new).told }
    ensures no_other { (m : TheMeta) (l : List Named) → IsPlanned S.X.block32 N.name64 root.now m l
        → SavesRemoved S.X.block32 N.name64 (S.seen store.old) (S.seen store.new) m l name.now }
    ensures touches { touches.new ≤ touches.old + 16 }
    ensures absent { IfOk result (λ left. left ≡ Absent → touches.new ≤ touches.old + 8) }
    ensures touched { touches.old < touches.new }
{
    let node = load_shard::<S, N, L>(alloc, store, 0, root, name, touches)?;
    remove_placed::<S, N, L>(alloc, store, &node, name, touches)
}

/// The same after a load of the root: the store lends its block, which is this shard's, so it isn't loaded again. At
/// most 15 touches, and at most seven where the name isn't there.
pub fn remove_below<S: Store, N: NameHash, L: Ledger>(
    alloc: Global,
    store: &mut S,
    root: &Cid,
    node: &ShardNode,
    name: &Name,
    touches: &mut Steps<L>,
) -> Result<Removed, StoreFault>
    requires shard { IsShardNode node.now }
    requires lent { (S.seen store.old).lent ≡ shard_node_block node.now }
    ensures value { OfFound S.X.block32 N.name64 root.now (S.seen store.old) (λ before m l.
        RemovesOver S.X.block32 N.name64 before (S.seen store.new) m l name.now result) }
    ensures made { IfOk result (LeavesShard S.X.block32) }
    ensures nothing { IfOk result (λ left. SavesNothing left (S.seen store.old).told (S.seen store.new).told) }
    ensures after { IfOk result (λ left. OfFound S.X.block32 N.name64 root.now (S.seen store.old) (λ before m l.
        AgreesRemoved S.X.block32 N.name64 before (S.seen store.new) m l name.now left)) }
    ensures cause { (before : Seen) → Finds S.X.block32 root.now before (S.seen store.old)
        → Answers S.X.block32 (IsBadOnWay N.name64 (N.name64 name.now)) result before (S.seen store.new) }
    ensures good { KeepsGood S.X.block32 (S.seen store.old).told (S.seen store.new).told }
    ensures saves { SavesOnly S.X.block32 (S.seen store.old).told (S.seen store.new).told }
    ensures no_other { OfFound S.X.block32 N.name64 root.now (S.seen store.old) (λ before m l.
        SavesRemoved S.X.block32 N.name64 before (S.seen store.new) m l name.now) }
    ensures touches { touches.new ≤ touches.old + 15 }
    ensures absent { IfOk result (λ left. left ≡ Absent → touches.new ≤ touches.old + 7) }
    ensures touched { touches.old ≤ touches.new }
{
    if is_first::<N>(node) {
        remove_placed::<S, N, L>(alloc, store, node, name, touches)
    } else {
        Err(StoreFault::BadBlock(*root, Role::Shard(0)))
    }
}

// The same where the shard is canonical at the root.
fn remove_placed<S: Store, N: NameHash, L: Ledger>(
    alloc: Global,
    store: &mut S,
    node: &ShardNode,
    name: &Name,
    touches: &mut Steps<L>,
) -> Result<Removed, StoreFault>
    requires { IsPlacedNode N.name64 [] node.now }
    ensures value { OfFirst S.X.block32 N.name64 name.now node.now (S.seen store.old) (λ before m l.
        RemovesOver S.X.block32 N.name64 before (S.seen store.new) m l name.now result) }
    ensures made { IfOk result (LeavesShard S.X.block32) }
    ensures nothing { IfOk result (λ left. SavesNothing left (S.seen store.old).told (S.seen store.new).told) }
    ensures after { IfOk result (λ left. OfFirst S.X.block32 N.name64 name.now node.now (S.seen store.old) (λ before m
        l. AgreesRemoved S.X.block32 N.name64 before (S.seen store.new) m l name.now left)) }
    ensures saves { OnlySaves S.X.block32 (IsBadOnWay N.name64 (N.name64 name.now)) (fault_in result)
        (S.seen store.old) (S.seen store.new) }
    ensures no_other { OfFirst S.X.block32 N.name64 name.now node.now (S.seen store.old) (λ before m l.
        SavesRemoved S.X.block32 N.name64 before (S.seen store.new) m l name.now) }
    ensures touches { touches.new ≤ touches.old + 15 }
    ensures absent { IfOk result (λ left. left ≡ Absent → touches.new ≤ touches.old + 7) }
    ensures touched { touches.old ≤ touches.new }
{
    let left = take_from::<S, N, L>(alloc, store, 7, &node.items, name, touches)?;
    match left {
        None => Ok(Removed::Absent),
        Some(items) => left_of(alloc, store, &items, &node.meta, touches),
    }
}

// Saves the root of what is left with its metadata, where something is.
fn left_of<S: Store, L: Ledger>(
    alloc: Global,
    store: &mut S,
    items: &Items,
    meta: &Meta,
    touches: &mut Steps<L>,
) -> Result<Removed, StoreFault>
    requires items { AreInSlots items.now }
    requires meta { IsTrue (is_meta meta.now) }
    ensures left { IfOk result
        (IsLeftOf S.X.block32 (S.seen store.old).told (S.seen store.new).told meta.now items.now) }
    ensures made { IfOk result (LeavesShard S.X.block32) }
    ensures nothing { IfOk result (λ left. SavesNothing left (S.seen store.old).told (S.seen store.new).told) }
    ensures fault { IfErr result IsSaving }
    ensures saves { OnlySaves S.X.block32 NoneIsBad (fault_in result) (S.seen store.old) (S.seen store.new) }
    ensures no_other { SavesAmong S.X.block32 (shard_node_held S.X.block32 meta.now items.now ∷ [])
        (S.seen store.old).told (S.seen store.new).told }
    ensures touches { touches.new ≤ touches.old + 1 }
    ensures touched { touches.old ≤ touches.new }
{
    if items.len() == 0 {
        return Ok(Removed::Empty);
    }
    let entry = save_node(alloc, store, items, meta, touches)?;
    Ok(Removed::Left(entry))
}

// The slots of the shard under a CID, which has n levels below it and no metadata, without a name, where that is
// there.
#[cycle(takes)]
fn items_without<S: Store, N: NameHash, L: Ledger>(
    alloc: Global,
    store: &mut S,
    left: u8,
    cid: &Cid,
    name: &Name,
    touches: &mut Steps<L>,
) -> Result<Option<Items>, StoreFault>
    requires { left ≤ 7 }
    ensures takes { (l : List Named) → IsReached S.X.block32 N.name64 (N.name64 name.now) left cid.now none l
        → Agrees (S.seen store.old).told (shard S.X.block32 N.name64 left none l).blocks
        → TakesSlots S.X.block32 N.name64 (S.seen store.old).told (S.seen store.new).told
        (shard S.X.block32 N.name64 left none l).blocks left name.now l result }
    ensures valid { IfOk result (λ rest. IfSome rest AreInSlots) }
    ensures unsaved { IfOk result (λ rest. UnsavedItems rest (S.seen store.old).told (S.seen store.new).told) }
    ensures saves { OnlySaves S.X.block32 (IsBadOnWay N.name64 (N.name64 name.now)) (fault_in result)
        (S.seen store.old) (S.seen store.new) }
    ensures no_other { (l : List Named) → IsReached S.X.block32 N.name64 (N.name64 name.now) left cid.now none l
        → Agrees (S.seen store.old).told (shard S.X.block32 N.name64 left none l).blocks
        → SavesAmong S.X.block32 (below S.X.block32 N.name64 left (without name.now l))
        (S.seen store.old).told (S.seen store.new).told }
    ensures touches { touches.new ≤ touches.old + (2 * left + 1) }
    ensures absent { IfOk result (λ rest. rest ≡ None → touches.new ≤ touches.old + (left + 1)) }
    ensures touched { touches.old < touches.new }
{
    let node = load_shard::<S, N, L>(alloc, store, 7 - left, cid, name, touches)?;
    take_from::<S, N, L>(alloc, store, left, &node.items, name, touches)
}

// These slots without a name, where that is there. The shards below them are saved.
#[cycle(takes)]
fn take_from<S: Store, N: NameHash, L: Ledger>(
    alloc: Global,
    store: &mut S,
    left: u8,
    items: &Items,
    name: &Name,
    touches: &mut Steps<L>,
) -> Result<Option<Items>, StoreFault>
    requires left { left ≤ 7 }
    requires placed { IsPlaced N.name64 (way (N.name64 name.now) (7 - left)) items.now }
    ensures takes { (l : List Named)
        → AreItems S.X.block32 N.name64 (N.name64 name.now) left (S.seen store.old).told items.now l
        → TakesSlots S.X.block32 N.name64 (S.seen store.old).told (S.seen store.new).told
        (below S.X.block32 N.name64 left l) left name.now l result }
    ensures valid { IfOk result (λ rest. IfSome rest AreInSlots) }
    ensures unsaved { IfOk result (λ rest. UnsavedItems rest (S.seen store.old).told (S.seen store.new).told) }
    ensures saves { OnlySaves S.X.block32 (IsBadOnWay N.name64 (N.name64 name.now)) (fault_in result)
        (S.seen store.old) (S.seen store.new) }
    ensures no_other { (l : List Named)
        → AreItems S.X.block32 N.name64 (N.name64 name.now) left (S.seen store.old).told items.now l
        → SavesAmong S.X.block32 (below S.X.block32 N.name64 left (without name.now l))
        (S.seen store.old).told (S.seen store.new).told }
    ensures touches { touches.new ≤ touches.old + 2 * left }
    ensures absent { IfOk result (λ rest. rest ≡ None → touches.new ≤ touches.old + left) }
    ensures touched { touches.old ≤ touches.new }
{
    let slot = slot_at::<N>(name, 7 - left);
    let found = item_in(items.as_slice(), slot)?;
    let rest = item_without::<S, N, L>(alloc, store, left, found, name, touches)?;
    match rest {
        Rest::Same => Ok(None),
        Rest::Of(item) => {
            let changed = with_slot(alloc, items.as_slice(), slot, item)?;
            Ok(Some(changed))
        }
    }
}

// What a slot of a shard with n levels below it has without a name.
#[cycle(takes)]
fn item_without<S: Store, N: NameHash, L: Ledger>(
    alloc: Global,
    store: &mut S,
    left: u8,
    found: Option<Item>,
    name: &Name,
    touches: &mut Steps<L>,
) -> Result<Rest, StoreFault>
    requires left { left ≤ 7 }
    requires found { IfSome found (IsItemAt N.name64 (way (N.name64 name.now) (7 - left))
        (slot_of (N.name64 name.now) (7 - left))) }
    ensures takes { (l : List Named)
        → IsSlot S.X.block32 N.name64 (N.name64 name.now) left (S.seen store.old).told found l
        → TakesSlot S.X.block32 N.name64 (S.seen store.old).told (S.seen store.new).told
        (blocks_of S.X.block32 N.name64 left l) left name.now l result }
    ensures valid { IfOk result IsValidRest }
    ensures unsaved { IfOk result (λ rest. UnsavedRest rest (S.seen store.old).told (S.seen store.new).told) }
    ensures saves { OnlySaves S.X.block32 (IsBadOnWay N.name64 (N.name64 name.now)) (fault_in result)
        (S.seen store.old) (S.seen store.new) }
    ensures no_other { (l : List Named)
        → IsSlot S.X.block32 N.name64 (N.name64 name.now) left (S.seen store.old).told found l
        → SavesAmong S.X.block32 (blocks_of S.X.block32 N.name64 left (without name.now l))
        (S.seen store.old).told (S.seen store.new).told }
    ensures touches { touches.new ≤ touches.old + 2 * left }
    ensures absent { IfOk result (λ rest. rest ≡ Same → touches.new ≤ touches.old + left) }
    ensures touched { touches.old ≤ touches.new }
{
    match found {
        None => Ok(Rest::Same),
        Some(Item::Leaf(other, _)) => Ok(leaf_without(&other, name)),
        Some(Item::Sub(below)) => {
            let rest = items_without::<S, N, L>(alloc, store, left - 1, &below.cid, name, touches)?;
            match rest {
                None => Ok(Rest::Same),
                Some(items) => rest_of(alloc, store, &items, touches),
            }
        }
    }
}

// What the slot of an entry has without a name.
fn leaf_without(other: &Name, name: &Name) -> Rest
    ensures { LeafWithout (eq_by_cmp names_cmp name.now other.now) result }
{
    if is_same(name, other) {
        Rest::Of(None)
    } else {
        Rest::Same
    }
}

// What a slot has of these slots of the shard below it: nothing of none, a lone entry itself, and else the shard,
// which is saved.
fn rest_of<S: Store, L: Ledger>(
    alloc: Global,
    store: &mut S,
    items: &Items,
    touches: &mut Steps<L>,
) -> Result<Rest, StoreFault>
    requires { AreInSlots items.now }
    ensures unsaved { IfOk result (λ rest. UnsavedBelow items.now rest
        (S.seen store.old).told (S.seen store.new).told) }
    ensures leaves { (N : List ℕ → ℕ)
        → LeavesBelow S.X.block32 N (S.seen store.old).told (S.seen store.new).told items.now result }
    ensures valid { IfOk result IsValidRest }
    ensures saves { OnlySaves S.X.block32 NoneIsBad (fault_in result) (S.seen store.old) (S.seen store.new) }
    ensures no_other { SavesRest S.X.block32 items.now (collapsed items.now)
        (S.seen store.old).told (S.seen store.new).told }
    ensures touches { touches.new ≤ touches.old + 1 }
    ensures touched { touches.old ≤ touches.new }
{
    let rest = without_shard(items.as_slice())?;
    match rest {
        Rest::Of(item) => Ok(Rest::Of(item)),
        Rest::Same => {
            let bare = Meta::none();
            let entry = save_node(alloc, store, items, &bare, touches)?;
            Ok(Rest::Of(Some(Item::Sub(entry))))
        }
    }
}

// What a slot has of these slots of the shard below it, where that needn't stand: nothing, or a lone entry.
fn without_shard(items: &[Placed]) -> Result<Rest, Memory>
    ensures { IfOk result (λ rest. rest ≡ collapsed items.now) }
{
    match items {
        [] => Ok(Rest::Of(None)),
        [placed] => lone(&placed.item),
        _ => Ok(Rest::Same),
    }
}

// A lone entry under its name, and not a shard.
fn lone(item: &Item) -> Result<Rest, Memory>
    ensures { IfOk result (λ rest. (s : ℕ) → rest ≡ collapsed ((s, item.now) ∷ [])) }
{
    match item {
        Item::Leaf(name, entry) => {
            let name = name.copy()?;
            Ok(Rest::Of(Some(Item::Leaf(name, *entry))))
        }
        Item::Sub(_) => Ok(Rest::Same),
    }
}
