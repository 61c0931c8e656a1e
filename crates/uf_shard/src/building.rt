//! Shard trees built from lists.
ghost use Rattle.std.specs.Prelude.{◌≡◌, ◌≢◌, ◌≤◌, ◌<◌, ◌+◌, ◌∷◌, ℕ, [], None, Some};
ghost use Rattle.std.specs.Prelude.{IfErr, IfOk, IsTrue, OnOk, length, slice_index_or};
ghost use Rattle.uf_store.specs.Among.{SavesAmong};
ghost use Rattle.uf_store.specs.Clashes.{IsSaving};
ghost use Rattle.uf_store.specs.Calls.{OnlySaves};
ghost use Rattle.uf_store.specs.Faults.{NoneIsBad, fault_in};
ghost use Rattle.uf_store.specs.Keeping.{Holds, KeepsGood};
ghost use Rattle.uf_store.specs.Writing.{SavesOnly};
ghost use Rattle.uf_tree.specs.Metas.{is_meta};
ghost use Rattle.uf_tree.specs.ShardPlan.{flat_tabulate, shard, slot_blocks, slot_item, tabulate};
ghost use Rattle.uf_tree.specs.TreePlan.{collision as collision_of, too_big};
ghost use Rattle.uf_tree.specs.Validity.{IsDirectory, IsShard};
ghost use Rattle.uf_shard.specs.Answers.{Gives, Shown, dir_fault, root_entry, shard_node_held, shard_refusal};
ghost use Rattle.uf_shard.specs.Buckets.{AreForShard, AreForSlot, blocks_at, deeper, item_at, pairs_of};
ghost use Rattle.uf_shard.specs.Planned.{IsShardCid};
ghost use Rattle.uf_shard.specs.Saving.{IsCollisionOr, IsMemory, IsWithin, PutsItem, leaf_of, names_of};

use crate::DirFault;
use crate::buckets::{hash_all, in_slots};
use crate::hashed::Hashed;
use crate::nodes::save_node;
use crate::twins::first_twins;
use std::alloc::Global;
use std::sync::ledger::Ledger;
use uf_cid::Seq;
use uf_murmur::NameHash;
use uf_store::{Steps, Store, StoreFault};
use uf_tree::{Entry, Item, Items, MOST_TSIZE, Meta, Pairs, Placed};

/// Saves the shard tree of these pairs, at least one, with the directory's metadata in its root, and answers its entry
/// (UnixFS v1, "HAMTDirectory"). The metadata must be good. Two names of one 64-bit hash are found before anything is
/// saved or touched. One touch for each shard.
pub fn build<S: Store, N: NameHash, L: Ledger>(
    alloc: Global,
    store: &mut S,
    pairs: &Pairs,
    meta: &Meta,
    touches: &mut Steps<L>,
) -> Result<Entry, DirFault>
    requires directory { IsDirectory pairs.now }
    requires some { 1 ≤ length pairs.now }
    requires meta { IsTrue (is_meta meta.now) }
    ensures answer { Gives (shard_refusal S.X.block32 N.name64 meta.now pairs.now)
        (shard S.X.block32 N.name64 7 meta.now pairs.now).entry result }
    ensures held { OnOk result (Holds (S.seen store.new).told
        (shard S.X.block32 N.name64 7 meta.now pairs.now).blocks) }
    ensures early { collision_of N.name64 pairs.now ≢ None
        → (S.seen store.new ≡ S.seen store.old) × (touches.new ≡ touches.old) }
    ensures cause { Shown S.X.block32 NoneIsBad result (S.seen store.old) (S.seen store.new) }
    ensures good { KeepsGood S.X.block32 (S.seen store.old).told (S.seen store.new).told }
    ensures saves { SavesOnly S.X.block32 (S.seen store.old).told (S.seen store.new).told }
    ensures no_other { SavesAmong S.X.block32 (shard S.X.block32 N.name64 7 meta.now pairs.now).blocks
        (S.seen store.old).told (S.seen store.new).told }
    ensures touches { touches.new ≤ touches.old + length (shard S.X.block32 N.name64 7 meta.now pairs.now).blocks }
    ensures touched { touches.old ≤ touches.new }
{
    let rows = hash_all::<N>(alloc, pairs.as_slice())?;
    let twins = first_twins(alloc, rows.as_slice())?;
    match twins {
        None => {}
        Some(twins) => return Err(collision(twins)),
    }
    let entry = save_shard::<S, N, L>(alloc, store, 7, rows.as_slice(), meta, touches)?;
    within(entry)
}

// The fault that shows the names of two rows, or that there is no memory to show them.
fn collision(twins: (Hashed, Hashed)) -> DirFault
    ensures { IsCollisionOr (names_of twins.entry) result }
{
    let (first, second) = (twins.0.pair, twins.1.pair);
    match (first.name.copy(), second.name.copy()) {
        (Ok(first), Ok(second)) => DirFault::Collision(first, second),
        _ => DirFault::Store(StoreFault::Memory),
    }
}

// The entry, unless its Tsize is too big.
pub fn within(entry: Entry) -> Result<Entry, DirFault>
    ensures { IsWithin entry result }
{
    if entry.tsize > MOST_TSIZE {
        return Err(DirFault::TooBig);
    }
    Ok(entry)
}

/// Saves the root of a shard tree of these slots with this metadata, which must be good, and answers its entry. The
/// shards below it stay as they are. At most one touch.
pub fn save_root<S: Store, L: Ledger>(
    alloc: Global,
    store: &mut S,
    items: &Items,
    meta: &Meta,
    touches: &mut Steps<L>,
) -> Result<Entry, DirFault>
    requires items { IsShard items.now }
    requires meta { IsTrue (is_meta meta.now) }
    ensures answer { Gives (too_big (root_entry S.X.block32 meta.now items.now).tsize)
        (root_entry S.X.block32 meta.now items.now) result }
    ensures made { IfOk result (λ e. IsShardCid S.X.block32 e.cid) }
    ensures held { OnOk result (Holds (S.seen store.new).told (shard_node_held S.X.block32 meta.now items.now ∷ [])) }
    ensures saves { OnlySaves S.X.block32 NoneIsBad (dir_fault result) (S.seen store.old) (S.seen store.new) }
    ensures no_other { SavesAmong S.X.block32 (shard_node_held S.X.block32 meta.now items.now ∷ [])
        (S.seen store.old).told (S.seen store.new).told }
    ensures touches { touches.new ≤ touches.old + 1 }
    ensures touched { touches.old ≤ touches.new }
{
    let entry = save_node(alloc, store, items, meta, touches)?;
    within(entry)
}

// Saves the shards of these rows, of which the highest has n levels below it and this metadata, and answers its entry.
#[cycle(shards)]
fn save_shard<S: Store, N: NameHash, L: Ledger>(
    alloc: Global,
    store: &mut S,
    left: u8,
    rows: &[Hashed],
    meta: &Meta,
    touches: &mut Steps<L>,
) -> Result<Entry, StoreFault>
    requires left { left ≤ 7 }
    requires meta { IsTrue (is_meta meta.now) }
    requires rows { AreForShard N.name64 left rows.now }
    ensures entry { IfOk result (λ e. e ≡ (shard S.X.block32 N.name64 left meta.now (pairs_of rows.now)).entry) }
    ensures held { OnOk result (Holds (S.seen store.new).told
        (shard S.X.block32 N.name64 left meta.now (pairs_of rows.now)).blocks) }
    ensures fault { IfErr result IsSaving }
    ensures saves { OnlySaves S.X.block32 NoneIsBad (fault_in result) (S.seen store.old) (S.seen store.new) }
    ensures no_other { SavesAmong S.X.block32 (shard S.X.block32 N.name64 left meta.now (pairs_of rows.now)).blocks
        (S.seen store.old).told (S.seen store.new).told }
    ensures touches { touches.new ≤ touches.old
        + length (shard S.X.block32 N.name64 left meta.now (pairs_of rows.now)).blocks }
    ensures touched { touches.old ≤ touches.new }
{
    let slots = in_slots(alloc, rows, 7 - left)?;
    let items = save_slots::<S, N, L>(alloc, store, left, slots.as_slice(), touches)?;
    save_node(alloc, store, &items, meta, touches)
}

// Saves the shards below each slot of a shard, and answers what the slots have.
#[cycle(shards)]
fn save_slots<S: Store, N: NameHash, L: Ledger>(
    alloc: Global,
    store: &mut S,
    left: u8,
    slots: &[Seq<Hashed>],
    touches: &mut Steps<L>,
) -> Result<Items, StoreFault>
    requires left { left ≤ 7 }
    requires count { length slots.now ≡ 256 }
    requires rows { (s : ℕ) → s < 256 → AreForSlot N.name64 left (slice_index_or slots.now s []) }
    ensures items { IfOk result (λ items. items ≡ tabulate 256 0 (item_at S.X.block32 N.name64 left slots.now)) }
    ensures held { OnOk result (Holds (S.seen store.new).told
        (flat_tabulate 256 0 (blocks_at S.X.block32 N.name64 left slots.now))) }
    ensures fault { IfErr result IsSaving }
    ensures saves { OnlySaves S.X.block32 NoneIsBad (fault_in result) (S.seen store.old) (S.seen store.new) }
    ensures no_other { SavesAmong S.X.block32 (flat_tabulate 256 0 (blocks_at S.X.block32 N.name64 left slots.now))
        (S.seen store.old).told (S.seen store.new).told }
    ensures touches { touches.new ≤ touches.old
        + length (flat_tabulate 256 0 (blocks_at S.X.block32 N.name64 left slots.now)) }
    ensures touched { touches.old ≤ touches.new }
{
    let mut items = Items::new(alloc);
    for (at, rows) in slots.iter().enumerate() {
        let slot = at as u8;
        save_slot::<S, N, L>(
            alloc,
            store,
            left,
            slot,
            rows.as_slice(),
            &mut items,
            touches,
        )?;
    }
    Ok(items)
}

// Saves the shards below a slot, and puts what the slot has after the other slots.
#[cycle(shards)]
fn save_slot<S: Store, N: NameHash, L: Ledger>(
    alloc: Global,
    store: &mut S,
    left: u8,
    slot: u8,
    rows: &[Hashed],
    items: &mut Items,
    touches: &mut Steps<L>,
) -> Result<(), StoreFault>
    requires left { left ≤ 7 }
    requires rows { AreForSlot N.name64 left rows.now }
    ensures item { OnOk result (PutsItem slot (slot_item (deeper S.X.block32 N.name64 left) (pairs_of rows.now))
        items.old items.new) }
    ensures held { OnOk result (Holds (S.seen store.new).told
        (slot_blocks (deeper S.X.block32 N.name64 left) (pairs_of rows.now))) }
    ensures fault { IfErr result IsSaving }
    ensures saves { OnlySaves S.X.block32 NoneIsBad (fault_in result) (S.seen store.old) (S.seen store.new) }
    ensures no_other { SavesAmong S.X.block32 (slot_blocks (deeper S.X.block32 N.name64 left) (pairs_of rows.now))
        (S.seen store.old).told (S.seen store.new).told }
    ensures touches { touches.new ≤ touches.old
        + length (slot_blocks (deeper S.X.block32 N.name64 left) (pairs_of rows.now)) }
    ensures touched { touches.old ≤ touches.new }
{
    match rows {
        [] => Ok(()),
        [row] => put_leaf(items, slot, row),
        _ => {
            let bare = Meta::none();
            let entry = save_shard::<S, N, L>(alloc, store, left - 1, rows, &bare, touches)?;
            put_item(items, slot, Item::Sub(entry))
        }
    }
}

// Puts the entry of a row into a slot after the others.
fn put_leaf(items: &mut Items, slot: u8, row: &Hashed) -> Result<(), StoreFault>
    ensures item { OnOk result (PutsItem slot (Some (leaf_of row.now)) items.old items.new) }
    ensures fault { IfErr result IsMemory }
{
    let pair = row.pair;
    let name = pair.name.copy()?;
    put_item(items, slot, Item::Leaf(name, pair.entry))
}

// Puts a slot after the others.
fn put_item(items: &mut Items, slot: u8, item: Item) -> Result<(), StoreFault>
    ensures item { OnOk result (PutsItem slot (Some item) items.old items.new) }
    ensures fault { IfErr result IsMemory }
{
    items.push(Placed { slot, item })?;
    Ok(())
}
