//! Shard trees read whole.
ghost use Rattle.std.specs.Prelude.{◌≡◌, ◌<◌, ◌≤◌, ◌+◌, ℕ, List, IfOk, IfSome, None, length};
ghost use Rattle.std.specs.List.{AllByRecursion};
ghost use Rattle.uf_cid.specs.declared.cid.Cid.{Cid as TheCid};
ghost use Rattle.uf_store.specs.Calls.{OnlyReads};
ghost use Rattle.uf_store.specs.Contents.{held_at};
ghost use Rattle.uf_store.specs.Faults.{Answers, fault_in};
ghost use Rattle.uf_store.specs.Keeping.{Agrees};
ghost use Rattle.uf_store.specs.Seen.{Finds, Seen};
ghost use Rattle.uf_tree.specs.Codecs.{shard_node_block};
ghost use Rattle.uf_tree.specs.declared.meta.Meta.{Meta as TheMeta};
ghost use Rattle.uf_tree.specs.Nodes.{Named};
ghost use Rattle.uf_tree.specs.ShardPlan.{shard};
ghost use Rattle.uf_tree.specs.Validity.{IsDirectory, IsShardNode};
ghost use Rattle.uf_shard.specs.Listing.{AreRows, IsBadShard, in_order};
ghost use Rattle.uf_shard.specs.Over.{ListsOver};
ghost use Rattle.uf_shard.specs.Planned.{IsPlanned};
ghost use Rattle.uf_shard.specs.Walked.{HasItems, HasLevel};

use crate::gathering::{gather_slots, ordered};
use crate::walking::load_items;
use std::alloc::Global;
use std::sync::ledger::Ledger;
use uf_cid::Cid;
use uf_store::{Steps, Store, StoreFault};
use uf_tree::{Items, Pairs, ShardNode};

/// The names and entries of the directory whose shard tree has this root, in byte order (UnixFS v1, "HAMTDirectory").
/// Of a name that comes twice, which no plan gives, the first in the order of the slots. One touch for each shard.
pub fn entries<S: Store, L: Ledger>(
    alloc: Global,
    store: &mut S,
    root: &Cid,
    touches: &mut Steps<L>,
) -> Result<Pairs, StoreFault>
    ensures value { (N : List ℕ → ℕ) (m : TheMeta) (l : List Named) → IsPlanned S.X.block32 N root.now m l
        → ListsOver S.X.block32 N (S.seen store.old) (S.seen store.new) m l result }
    ensures listed { IfSome (S.seen store.old).told (λ t. IfOk result (λ l. (rows : List Named)
        × AreRows (held_at t) 7 root.now rows × (l ≡ in_order rows))) }
    ensures valid { IfOk result IsDirectory }
    ensures cause { Answers S.X.block32 IsBadShard result (S.seen store.old) (S.seen store.new) }
    ensures told { (S.seen store.new).told ≡ (S.seen store.old).told }
    ensures touches { (N : List ℕ → ℕ) (m : TheMeta) (l : List Named) → IsPlanned S.X.block32 N root.now m l
        → Agrees (S.seen store.old).told (shard S.X.block32 N 7 m l).blocks
        → touches.new ≤ touches.old + length (shard S.X.block32 N 7 m l).blocks }
    ensures touched { touches.old < touches.new }
{
    let items = load_items(alloc, store, 7, root, touches)?;
    entries_in(alloc, store, &items, touches)
}

/// The same after a load of the root: the store lends its block, which is this shard's, so it isn't loaded again. One
/// touch for each other shard.
pub fn entries_below<S: Store, L: Ledger>(
    alloc: Global,
    store: &mut S,
    node: &ShardNode,
    touches: &mut Steps<L>,
) -> Result<Pairs, StoreFault>
    requires shard { IsShardNode node.now }
    requires lent { (S.seen store.old).lent ≡ shard_node_block node.now }
    ensures value { (N : List ℕ → ℕ) (root : TheCid) (before : Seen) (m : TheMeta) (l : List Named)
        → Finds S.X.block32 root before (S.seen store.old) → IsPlanned S.X.block32 N root m l
        → ListsOver S.X.block32 N before (S.seen store.new) m l result }
    ensures listed { (root : TheCid) (before : Seen) → Finds S.X.block32 root before (S.seen store.old)
        → IfSome before.told (λ t. IfOk result (λ l. (rows : List Named)
        × AreRows (held_at t) 7 root rows × (l ≡ in_order rows))) }
    ensures valid { IfOk result IsDirectory }
    ensures cause { (root : TheCid) (before : Seen) → Finds S.X.block32 root before (S.seen store.old)
        → Answers S.X.block32 IsBadShard result before (S.seen store.new) }
    ensures told { (S.seen store.new).told ≡ (S.seen store.old).told }
    ensures touches { (N : List ℕ → ℕ) (root : TheCid) (before : Seen) (m : TheMeta) (l : List Named)
        → Finds S.X.block32 root before (S.seen store.old) → IsPlanned S.X.block32 N root m l
        → Agrees before.told (shard S.X.block32 N 7 m l).blocks
        → touches.new < touches.old + length (shard S.X.block32 N 7 m l).blocks }
    ensures touched { touches.old ≤ touches.new }
{
    entries_in(alloc, store, &node.items, touches)
}

// The same of the slots of the root.
fn entries_in<S: Store, L: Ledger>(
    alloc: Global,
    store: &mut S,
    items: &Items,
    touches: &mut Steps<L>,
) -> Result<Pairs, StoreFault>
    requires { AllByRecursion (HasLevel 7) items.now }
    ensures value { (N : List ℕ → ℕ) (root : TheCid) (before : Seen) (m : TheMeta) (l : List Named)
        → HasItems 7 root before items.now → OnlyReads S.X.block32 IsBadShard None before (S.seen store.old)
        → IsPlanned S.X.block32 N root m l
        → ListsOver S.X.block32 N before (S.seen store.new) m l result }
    ensures listed { (root : TheCid) (before : Seen)
        → HasItems 7 root before items.now → OnlyReads S.X.block32 IsBadShard None before (S.seen store.old)
        → IfSome before.told (λ t. IfOk result (λ l. (rows : List Named)
        × AreRows (held_at t) 7 root rows × (l ≡ in_order rows))) }
    ensures valid { IfOk result IsDirectory }
    ensures reads { OnlyReads S.X.block32 IsBadShard (fault_in result) (S.seen store.old) (S.seen store.new) }
    ensures touches { (N : List ℕ → ℕ) (root : TheCid) (before : Seen) (m : TheMeta) (l : List Named)
        → HasItems 7 root before items.now → OnlyReads S.X.block32 IsBadShard None before (S.seen store.old)
        → IsPlanned S.X.block32 N root m l
        → Agrees before.told (shard S.X.block32 N 7 m l).blocks
        → touches.new < touches.old + length (shard S.X.block32 N 7 m l).blocks }
    ensures touched { touches.old ≤ touches.new }
{
    let mut rows = Vec::new(alloc);
    gather_slots(alloc, store, 7, items.as_slice(), &mut rows, touches)?;
    let pairs = ordered(alloc, rows)?;
    Ok(pairs)
}
