//! Shards saved.
ghost use Rattle.std.specs.Prelude.{◌≡◌, ◌+◌, ◌≤◌, ◌∷◌, [], map, IfErr, IfOk, IsTrue};
ghost use Rattle.std.specs.List.{sum_by};
ghost use Rattle.uf_store.specs.Among.{SavesAmong};
ghost use Rattle.uf_store.specs.Clashes.{IsSaving};
ghost use Rattle.uf_store.specs.Calls.{OnlySaves};
ghost use Rattle.uf_store.specs.Faults.{NoneIsBad, fault_in};
ghost use Rattle.uf_store.specs.Keeping.{Holds};
ghost use Rattle.uf_tree.specs.Metas.{is_meta};
ghost use Rattle.uf_tree.specs.Nodes.{InSlot, capped, item_entry, node_entry, shard_block};
ghost use Rattle.uf_tree.specs.Validity.{IsEntry, IsShard};
ghost use Rattle.uf_shard.specs.Answers.{shard_node_held};
ghost use Rattle.uf_shard.specs.Planned.{IsShardCid};

use std::alloc::Global;
use std::sync::ledger::Ledger;
use uf_cid::Codec;
use uf_store::{Steps, Store, StoreFault, save_block};
use uf_tree::{Entry, Item, Items, Meta, Placed, node_of_items};

// Saves the shard of these slots with this metadata, and answers its entry. At most one touch.
pub fn save_node<S: Store, L: Ledger>(
    alloc: Global,
    store: &mut S,
    items: &Items,
    meta: &Meta,
    touches: &mut Steps<L>,
) -> Result<Entry, StoreFault>
    requires items { IsShard items.now }
    requires meta { IsTrue (is_meta meta.now) }
    ensures entry { IfOk result (λ e. e ≡ node_entry S.X.block32 (shard_block meta.now items.now)
        (map (λ (p : InSlot). item_entry p.1) items.now)) }
    ensures made { IfOk result (λ e. IsShardCid S.X.block32 e.cid) }
    ensures valid { IfOk result IsEntry }
    ensures held { IfOk result (λ e. Holds (S.seen store.new).told ((e.cid, shard_block meta.now items.now) ∷ [])) }
    ensures fault { IfErr result IsSaving }
    ensures saves { OnlySaves S.X.block32 NoneIsBad (fault_in result) (S.seen store.old) (S.seen store.new) }
    ensures no_other { SavesAmong S.X.block32 (shard_node_held S.X.block32 meta.now items.now ∷ [])
        (S.seen store.old).told (S.seen store.new).told }
    ensures touches { touches.new ≤ touches.old + 1 }
    ensures touched { touches.old ≤ touches.new }
{
    let block = node_of_items(alloc, items, meta)?;
    let bytes = block.as_slice();
    let cid = save_block(alloc, store, Codec::DagPb, bytes, touches)?;
    Ok(Entry {
        cid,
        tsize: tsize_over_slots(bytes.len(), items.as_slice()),
    })
}

/// n bytes, as a shard's block has, and the Tsizes of its slots; a number past 2^64 - 1 counts as that.
pub fn tsize_over_slots(bytes: usize, items: &[Placed]) -> u64
    ensures { result ≡ capped (bytes + sum_by (λ (p : InSlot). (item_entry p.1).tsize) items.now) }
{
    let mut total = bytes as u64;
    for placed in items {
        total = total.saturating_add(tsize_of(&placed.item));
    }
    total
}

// The Tsize of what a slot links.
fn tsize_of(item: &Item) -> u64
    ensures { result ≡ (item_entry item.now).tsize }
{
    match item {
        Item::Leaf(_, entry) => entry.tsize,
        Item::Sub(entry) => entry.tsize,
    }
}
