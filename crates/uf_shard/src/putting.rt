//! An entry put under a name.
ghost use Rattle.std.specs.Prelude.{◌≡◌, ◌<◌, ◌≤◌, ◌+◌, ◌*◌, ◌-◌, ℕ, List, [], ◌∷◌};
ghost use Rattle.std.specs.Prelude.{IfOk, IfSome, OnOk, Some, false};
ghost use Rattle.std.specs.Ordering.{eq_by_cmp};
ghost use Rattle.uf_murmur.specs.Slots.{slot as slot_of};
ghost use Rattle.uf_store.specs.Among.{SavesAmong};
ghost use Rattle.uf_store.specs.Calls.{OnlySaves};
ghost use Rattle.uf_store.specs.Faults.{NoneIsBad};
ghost use Rattle.uf_store.specs.Keeping.{Agrees, KeepsGood};
ghost use Rattle.uf_store.specs.Writing.{SavesOnly};
ghost use Rattle.uf_store.specs.Seen.{Finds, Seen};
ghost use Rattle.uf_tree.specs.Codecs.{shard_node_block};
ghost use Rattle.uf_tree.specs.declared.meta.Meta.{Meta as TheMeta};
ghost use Rattle.uf_tree.specs.declared.nodes.Item.TheVariants.{Leaf};
ghost use Rattle.uf_tree.specs.Changes.{with_name};
ghost use Rattle.uf_tree.specs.Metas.{none};
ghost use Rattle.uf_tree.specs.Names.{names_cmp};
ghost use Rattle.uf_tree.specs.Nodes.{Named};
ghost use Rattle.uf_tree.specs.ShardPlan.{shard};
ghost use Rattle.uf_tree.specs.Validity.{IsItem, IsNamed, IsShard, IsShardNode};
ghost use Rattle.uf_shard.specs.Answers.{AtCollision, Shown, dir_fault, shard_node_held};
ghost use Rattle.uf_shard.specs.Over.{AgreesPut, OfFirst, OfFound, PutsOver, SavesPut};
ghost use Rattle.uf_shard.specs.Placed.{IsBadOnWay, IsPlaced, IsPlacedNode, way};
ghost use Rattle.uf_shard.specs.Planned.{IsPlanned, IsShardCid};
ghost use Rattle.uf_shard.specs.Reached.{IsReached};
ghost use Rattle.uf_shard.specs.Saving.{IsCollisionOr};
ghost use Rattle.uf_shard.specs.Changed.{AreItems, IsItemAt, IsOrderedOr, IsSlot, LeafOr, PutsSlot, PutsSlots};
ghost use Rattle.uf_shard.specs.Changed.{SavesBelow, below, blocks_of};

use crate::DirFault;
use crate::building::within;
use crate::loading::{hash_of, load_shard, slot_at};
use crate::nodes::save_node;
use crate::reading::is_first;
use crate::slots::{is_same, item_in, with_slot};
use std::alloc::Global;
use std::cmp::Ordering;
use std::sync::ledger::Ledger;
use uf_cid::{Cid, Memory, cids_are_whole};
use uf_murmur::NameHash;
use uf_store::{Role, Steps, Store, StoreFault};
use uf_tree::{Entry, Item, Items, Meta, Name, Placed, ShardNode};

/// Puts an entry under a name into the directory whose shard tree has this root, in the place of an older one of that
/// name, and answers the entry of what it is then (UnixFS v1, "HAMTDirectory"). Its metadata stays. Another name of
/// its 64-bit hash is found before anything is saved. Only the shards on the name's way are loaded and saved: at most
/// 16 touches.
pub fn put<S: Store, N: NameHash, L: Ledger>(
    alloc: Global,
    store: &mut S,
    root: &Cid,
    name: &Name,
    entry: &Entry,
    touches: &mut Steps<L>,
) -> Result<Entry, DirFault>
    ensures value { (m : TheMeta) (l : List Named) → IsPlanned S.X.block32 N.name64 root.now m l
        → PutsOver S.X.block32 N.name64 (S.seen store.old) (S.seen store.new) m l name.now entry.now result }
    ensures made { IfOk result (λ e. IsShardCid S.X.block32 e.cid) }
    ensures after { OnOk result ((m : TheMeta) (l : List Named) → IsPlanned S.X.block32 N.name64 root.now m l
        → AgreesPut S.X.block32 N.name64 (S.seen store.old) (S.seen store.new) m l name.now entry.now) }
    ensures early { AtCollision result ((S.seen store.new).told ≡ (S.seen store.old).told) }
    ensures cause { Shown S.X.block32 (IsBadOnWay N.name64 (N.name64 name.now)) result
        (S.seen store.old) (S.seen store.new) }
    ensures good { KeepsGood S.X.block32 (S.seen store.old).told (S.seen store.new).told }
    ensures saves { SavesOnly S.X.block32 (S.seen store.old).told (S.seen store.new).told }
    ensures no_other { (m : TheMeta) (l : List Named) → IsPlanned S.X.block32 N.name64 root.now m l
        → SavesPut S.X.block32 N.name64 (S.seen store.old) (S.seen store.new) m l name.now entry.now }
    ensures touches { touches.new ≤ touches.old + 16 }
    ensures touched { touches.old < touches.new }
{
    let node = load_shard::<S, N, L>(alloc, store, 0, root, name, touches)?;
    put_placed::<S, N, L>(alloc, store, &node, name, entry, touches)
}

/// The same after a load of the root: the store lends its block, which is this shard's, so it isn't loaded again. At
/// most 15 touches.
pub fn put_below<S: Store, N: NameHash, L: Ledger>(
    alloc: Global,
    store: &mut S,
    root: &Cid,
    node: &ShardNode,
    name: &Name,
    entry: &Entry,
    touches: &mut Steps<L>,
) -> Result<Entry, DirFault>
    requires shard { IsShardNode node.now }
    requires lent { (S.seen store.old).lent ≡ shard_node_block node.now }
    ensures value { OfFound S.X.block32 N.name64 root.now (S.seen store.old) (λ before m l.
        PutsOver S.X.block32 N.name64 before (S.seen store.new) m l name.now entry.now result) }
    ensures made { IfOk result (λ e. IsShardCid S.X.block32 e.cid) }
    ensures after { OnOk result (OfFound S.X.block32 N.name64 root.now (S.seen store.old) (λ before m l.
        AgreesPut S.X.block32 N.name64 before (S.seen store.new) m l name.now entry.now)) }
    ensures early { AtCollision result ((S.seen store.new).told ≡ (S.seen store.old).told) }
    ensures cause { (before : Seen) → Finds S.X.block32 root.now before (S.seen store.old)
        → Shown S.X.block32 (IsBadOnWay N.name64 (N.name64 name.now)) result before (S.seen store.new) }
    ensures good { KeepsGood S.X.block32 (S.seen store.old).told (S.seen store.new).told }
    ensures saves { SavesOnly S.X.block32 (S.seen store.old).told (S.seen store.new).told }
    ensures no_other { OfFound S.X.block32 N.name64 root.now (S.seen store.old) (λ before m l.
        SavesPut S.X.block32 N.name64 before (S.seen store.new) m l name.now entry.now) }
    ensures touches { touches.new ≤ touches.old + 15 }
    ensures touched { touches.old ≤ touches.new }
{
    if is_first::<N>(node) {
        put_placed::<S, N, L>(alloc, store, node, name, entry, touches)
    } else {
        Err(DirFault::Store(StoreFault::BadBlock(*root, Role::Shard(0))))
    }
}

// The same where the shard is canonical at the root.
fn put_placed<S: Store, N: NameHash, L: Ledger>(
    alloc: Global,
    store: &mut S,
    node: &ShardNode,
    name: &Name,
    entry: &Entry,
    touches: &mut Steps<L>,
) -> Result<Entry, DirFault>
    requires { IsPlacedNode N.name64 [] node.now }
    ensures value { OfFirst S.X.block32 N.name64 name.now node.now (S.seen store.old) (λ before m l.
        PutsOver S.X.block32 N.name64 before (S.seen store.new) m l name.now entry.now result) }
    ensures made { IfOk result (λ e. IsShardCid S.X.block32 e.cid) }
    ensures after { OnOk result (OfFirst S.X.block32 N.name64 name.now node.now (S.seen store.old) (λ before m l.
        AgreesPut S.X.block32 N.name64 before (S.seen store.new) m l name.now entry.now)) }
    ensures early { AtCollision result ((S.seen store.new).told ≡ (S.seen store.old).told) }
    ensures saves { OnlySaves S.X.block32 (IsBadOnWay N.name64 (N.name64 name.now)) (dir_fault result)
        (S.seen store.old) (S.seen store.new) }
    ensures no_other { OfFirst S.X.block32 N.name64 name.now node.now (S.seen store.old) (λ before m l.
        SavesPut S.X.block32 N.name64 before (S.seen store.new) m l name.now entry.now) }
    ensures touches { touches.new ≤ touches.old + 15 }
    ensures touched { touches.old ≤ touches.new }
{
    let items = put_into::<S, N, L>(alloc, store, 7, &node.items, name, entry, touches)?;
    let entry = save_node(alloc, store, &items, &node.meta, touches)?;
    within(entry)
}

// The slots of the shard under a CID, which has n levels below it and no metadata, after an entry is put under a name.
#[cycle(puts)]
fn items_with<S: Store, N: NameHash, L: Ledger>(
    alloc: Global,
    store: &mut S,
    left: u8,
    cid: &Cid,
    name: &Name,
    entry: &Entry,
    touches: &mut Steps<L>,
) -> Result<Items, DirFault>
    requires { left ≤ 7 }
    ensures puts { (l : List Named) → IsReached S.X.block32 N.name64 (N.name64 name.now) left cid.now none l
        → Agrees (S.seen store.old).told (shard S.X.block32 N.name64 left none l).blocks
        → PutsSlots S.X.block32 N.name64 (S.seen store.old).told (S.seen store.new).told
        (shard S.X.block32 N.name64 left none l).blocks left name.now entry.now l result }
    ensures valid { IfOk result IsShard }
    ensures early { AtCollision result ((S.seen store.new).told ≡ (S.seen store.old).told) }
    ensures saves { OnlySaves S.X.block32 (IsBadOnWay N.name64 (N.name64 name.now)) (dir_fault result)
        (S.seen store.old) (S.seen store.new) }
    ensures no_other { (l : List Named) → IsReached S.X.block32 N.name64 (N.name64 name.now) left cid.now none l
        → Agrees (S.seen store.old).told (shard S.X.block32 N.name64 left none l).blocks
        → SavesAmong S.X.block32 (below S.X.block32 N.name64 left (with_name name.now entry.now l))
        (S.seen store.old).told (S.seen store.new).told }
    ensures touches { touches.new ≤ touches.old + (2 * left + 1) }
    ensures touched { touches.old < touches.new }
{
    let node = load_shard::<S, N, L>(alloc, store, 7 - left, cid, name, touches)?;
    put_into::<S, N, L>(alloc, store, left, &node.items, name, entry, touches)
}

// These slots after an entry is put under a name. The shards below them are saved.
#[cycle(puts)]
fn put_into<S: Store, N: NameHash, L: Ledger>(
    alloc: Global,
    store: &mut S,
    left: u8,
    items: &Items,
    name: &Name,
    entry: &Entry,
    touches: &mut Steps<L>,
) -> Result<Items, DirFault>
    requires left { left ≤ 7 }
    requires placed { IsPlaced N.name64 (way (N.name64 name.now) (7 - left)) items.now }
    ensures puts { (l : List Named)
        → AreItems S.X.block32 N.name64 (N.name64 name.now) left (S.seen store.old).told items.now l
        → PutsSlots S.X.block32 N.name64 (S.seen store.old).told (S.seen store.new).told
        (below S.X.block32 N.name64 left l) left name.now entry.now l result }
    ensures valid { IfOk result IsShard }
    ensures early { AtCollision result ((S.seen store.new).told ≡ (S.seen store.old).told) }
    ensures saves { OnlySaves S.X.block32 (IsBadOnWay N.name64 (N.name64 name.now)) (dir_fault result)
        (S.seen store.old) (S.seen store.new) }
    ensures no_other { (l : List Named)
        → AreItems S.X.block32 N.name64 (N.name64 name.now) left (S.seen store.old).told items.now l
        → SavesAmong S.X.block32 (below S.X.block32 N.name64 left (with_name name.now entry.now l))
        (S.seen store.old).told (S.seen store.new).told }
    ensures touches { touches.new ≤ touches.old + 2 * left }
    ensures touched { touches.old ≤ touches.new }
{
    let slot = slot_at::<N>(name, 7 - left);
    let found = item_in(items.as_slice(), slot)?;
    let item = item_with::<S, N, L>(alloc, store, left, found, name, entry, touches)?;
    let changed = with_slot(alloc, items.as_slice(), slot, Some(item))?;
    Ok(changed)
}

// What a slot of a shard with n levels below it has, after an entry is put under a name.
#[cycle(puts)]
fn item_with<S: Store, N: NameHash, L: Ledger>(
    alloc: Global,
    store: &mut S,
    left: u8,
    found: Option<Item>,
    name: &Name,
    entry: &Entry,
    touches: &mut Steps<L>,
) -> Result<Item, DirFault>
    requires left { left ≤ 7 }
    requires found { IfSome found (IsItemAt N.name64 (way (N.name64 name.now) (7 - left))
        (slot_of (N.name64 name.now) (7 - left))) }
    ensures puts { (l : List Named)
        → IsSlot S.X.block32 N.name64 (N.name64 name.now) left (S.seen store.old).told found l
        → PutsSlot S.X.block32 N.name64 (S.seen store.old).told (S.seen store.new).told
        (blocks_of S.X.block32 N.name64 left l) left name.now entry.now l result }
    ensures valid { IfOk result IsItem }
    ensures early { AtCollision result ((S.seen store.new).told ≡ (S.seen store.old).told) }
    ensures saves { OnlySaves S.X.block32 (IsBadOnWay N.name64 (N.name64 name.now)) (dir_fault result)
        (S.seen store.old) (S.seen store.new) }
    ensures no_other { (l : List Named)
        → IsSlot S.X.block32 N.name64 (N.name64 name.now) left (S.seen store.old).told found l
        → SavesAmong S.X.block32 (blocks_of S.X.block32 N.name64 left (with_name name.now entry.now l))
        (S.seen store.old).told (S.seen store.new).told }
    ensures touches { touches.new ≤ touches.old + 2 * left }
    ensures touched { touches.old ≤ touches.new }
{
    match found {
        None => leaf(name, entry),
        Some(Item::Leaf(other, kept)) => {
            let old = (other, kept);
            item_beside::<S, N, L>(alloc, store, left, old, name, entry, touches)
        }
        Some(Item::Sub(below)) => {
            let items = items_with::<S, N, L>(
                alloc,
                store,
                left - 1,
                &below.cid,
                name,
                entry,
                touches,
            )?;
            save_below(alloc, store, &items, touches)
        }
    }
}

// What the slot of an entry has, after another is put under a name: that one, where the names are the same, or the
// shard of both.
#[cycle(puts)]
fn item_beside<S: Store, N: NameHash, L: Ledger>(
    alloc: Global,
    store: &mut S,
    left: u8,
    old: (Name, Entry),
    name: &Name,
    entry: &Entry,
    touches: &mut Steps<L>,
) -> Result<Item, DirFault>
    requires left { left ≤ 7 }
    requires found { IsItemAt N.name64 (way (N.name64 name.now) (7 - left)) (slot_of (N.name64 name.now) (7 - left))
        (Leaf old.0 old.1) }
    ensures puts { (l : List Named)
        → IsSlot S.X.block32 N.name64 (N.name64 name.now) left (S.seen store.old).told (Some (Leaf old.0 old.1)) l
        → PutsSlot S.X.block32 N.name64 (S.seen store.old).told (S.seen store.new).told
        (blocks_of S.X.block32 N.name64 left l) left name.now entry.now l result }
    ensures valid { IfOk result IsItem }
    ensures early { AtCollision result ((S.seen store.new).told ≡ (S.seen store.old).told) }
    ensures saves { OnlySaves S.X.block32 (IsBadOnWay N.name64 (N.name64 name.now)) (dir_fault result)
        (S.seen store.old) (S.seen store.new) }
    ensures no_other { (l : List Named)
        → IsSlot S.X.block32 N.name64 (N.name64 name.now) left (S.seen store.old).told (Some (Leaf old.0 old.1)) l
        → SavesAmong S.X.block32 (blocks_of S.X.block32 N.name64 left (with_name name.now entry.now l))
        (S.seen store.old).told (S.seen store.new).told }
    ensures touches { touches.new ≤ touches.old + 2 * left }
    ensures touched { touches.old ≤ touches.new }
{
    if is_same(name, &old.0) {
        return leaf(name, entry);
    }
    if hash_of::<N>(name) == hash_of::<N>(&old.0) {
        return Err(collision(name, &old.0));
    }
    let slot = slot_at::<N>(&old.0, 8 - left);
    let alone = alone_in(alloc, slot, old.0, old.1)?;
    let items = put_into::<S, N, L>(alloc, store, left - 1, &alone, name, entry, touches)?;
    save_below(alloc, store, &items, touches)
}

// The fault that shows two names of one hash in byte order, or that there is no memory to show them.
fn collision(name: &Name, other: &Name) -> DirFault
    requires { eq_by_cmp names_cmp name.now other.now ≡ false }
    ensures { IsOrderedOr name.now other.now result }
{
    match name.as_str().as_bytes().cmp(other.as_str().as_bytes()) {
        Ordering::Less => shown(name, other),
        Ordering::Equal => shown(other, name),
        Ordering::Greater => shown(other, name),
    }
}

// The fault that shows these two names, or that there is no memory to show them.
fn shown(first: &Name, second: &Name) -> DirFault
    ensures { IsCollisionOr (first.now, second.now) result }
{
    match (first.copy(), second.copy()) {
        (Ok(first), Ok(second)) => DirFault::Collision(first, second),
        _ => DirFault::Store(StoreFault::Memory),
    }
}

// An entry under a name, in a slot of its own.
fn leaf(name: &Name, entry: &Entry) -> Result<Item, DirFault>
    ensures item { LeafOr name.now entry.now result }
    ensures valid { IfOk result IsItem }
{
    is_named(name, entry);
    let name = name.copy()?;
    Ok(Item::Leaf(name, *entry))
}

// The slots of a shard that has one entry.
fn alone_in(alloc: Global, slot: u8, name: Name, entry: Entry) -> Result<Items, Memory>
    ensures { IfOk result (λ items. items ≡ (slot, Leaf name entry) ∷ []) }
{
    let mut items = Items::new(alloc);
    items.push(Placed {
        slot,
        item: Item::Leaf(name, entry),
    })?;
    Ok(items)
}

// Saves the shard of these slots, and answers what the slot above has.
fn save_below<S: Store, L: Ledger>(
    alloc: Global,
    store: &mut S,
    items: &Items,
    touches: &mut Steps<L>,
) -> Result<Item, DirFault>
    requires { IsShard items.now }
    ensures gives { (N : List ℕ → ℕ)
        → SavesBelow S.X.block32 N (S.seen store.old).told (S.seen store.new).told items.now result }
    ensures valid { IfOk result IsItem }
    ensures saves { OnlySaves S.X.block32 NoneIsBad (dir_fault result) (S.seen store.old) (S.seen store.new) }
    ensures no_other { SavesAmong S.X.block32 (shard_node_held S.X.block32 none items.now ∷ [])
        (S.seen store.old).told (S.seen store.new).told }
    ensures touches { touches.new ≤ touches.old + 1 }
    ensures touched { touches.old ≤ touches.new }
{
    let bare = Meta::none();
    let entry = save_node(alloc, store, items, &bare, touches)?;
    Ok(Item::Sub(entry))
}

// A good name and an entry are a directory's pair.
fn is_named(name: &Name, entry: &Entry)
    ensures { IsNamed (name.now, entry.now) }
{
    let _name = name.as_str();
    let _tsize = entry.tsize;
    cids_are_whole(&entry.cid);
}
