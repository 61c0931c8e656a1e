//! Shard trees weighed level by level.
ghost use Rattle.std.specs.Prelude.{◌≡◌, ◌<◌, ◌≤◌, ◌+◌, ◌*◌, ◌/◌, ◌^◌, ◌++◌, ℕ, List, IfOk, IfSome, OnOk};
ghost use Rattle.std.specs.Prelude.{length, min, nat_lt};
ghost use Rattle.uf_edge.specs.Counts.{Stood};
ghost use Rattle.uf_store.specs.Calls.{OnlyReads};
ghost use Rattle.uf_store.specs.Faults.{Answers, fault_in};
ghost use Rattle.uf_store.specs.Keeping.{Agrees};
ghost use Rattle.uf_store.specs.Lost.{ReadsOver};
ghost use Rattle.uf_tree.specs.DirPlan.{weight};
ghost use Rattle.uf_tree.specs.declared.meta.Meta.{Meta as TheMeta};
ghost use Rattle.uf_tree.specs.Nodes.{Named};
ghost use Rattle.uf_tree.specs.ShardPlan.{shard};
ghost use Rattle.uf_shard.specs.Listing.{IsBadShard};
ghost use Rattle.uf_shard.specs.Planned.{IsPlanned};
ghost use Rattle.uf_shard.specs.Walked.{LosesOnly};
ghost use Rattle.uf_shard.specs.Weighed.{LeavesRoom, OverRow, least_of, least_weight, room_after, row_weight};
ghost use Rattle.uf_shard.specs.Weighed.{shard_in, shards_in};

use crate::walking::load_items;
use std::alloc::Global;
use std::sync::ledger::Ledger;
use uf_cid::{Cid, Cids, Memory};
use uf_store::{Steps, Store, StoreFault};
use uf_tree::{Item, Placed};

// What a shard below another weighs at least: two names of one byte.
const LEAST: u64 = 74;

/// Whether the names of the directory whose shard tree has this root weigh more than a limit, each its length and 36.
/// Shards are read level by level, and one that isn't read yet counts as the two lightest names: so the loads don't
/// grow with the directory. It stops as soon as it knows. One touch for each shard that it loads.
pub fn weight_over<S: Store, L: Ledger>(
    alloc: Global,
    store: &mut S,
    root: &Cid,
    limit: u64,
    touches: &mut Steps<L>,
) -> Result<bool, StoreFault>
    ensures value { (N : List ℕ → ℕ) (m : TheMeta) (l : List Named) → IsPlanned S.X.block32 N root.now m l
        → Agrees (S.seen store.old).told (shard S.X.block32 N 7 m l).blocks
        → Stood (S.seen store.old).faults (S.seen store.new).faults
        → ReadsOver (S.seen store.old).told (shard S.X.block32 N 7 m l).blocks (nat_lt limit (weight l)) result }
    ensures cause { Answers S.X.block32 IsBadShard result (S.seen store.old) (S.seen store.new) }
    ensures told { (S.seen store.new).told ≡ (S.seen store.old).told }
    ensures touches { (N : List ℕ → ℕ) (m : TheMeta) (l : List Named) → IsPlanned S.X.block32 N root.now m l
        → Agrees (S.seen store.old).told (shard S.X.block32 N 7 m l).blocks
        → touches.new ≤ touches.old + min (length (shard S.X.block32 N 7 m l).blocks) (4 * (limit / 37 + 1) + 8) }
    ensures touched { touches.old < touches.new }
    ensures few { 74 * touches.new ≤ 74 * (touches.old + 1) + 7 * limit }
{
    let items = load_items(alloc, store, 7, root, touches)?;
    let mut below = Cids::new(alloc);
    let behind = room_behind(items.as_slice(), limit, &mut below)?;
    match behind {
        Some(room) => are_over(alloc, store, 6, &below, room, touches),
        None => Ok(true),
    }
}

// Whether the shards under these CIDs, which have n levels below them, weigh more than a room that the two lightest
// names of each were taken from.
fn are_over<S: Store, L: Ledger>(
    alloc: Global,
    store: &mut S,
    left: u8,
    cids: &Cids,
    room: u64,
    touches: &mut Steps<L>,
) -> Result<bool, StoreFault>
    requires left { left ≤ 7 }
    requires fits { room + 74 * length cids.now < 2 ^ 64 }
    ensures value { OverRow S.X.block32 (S.seen store.old).told left cids.now (λ N ls blocks.
        Stood (S.seen store.old).faults (S.seen store.new).faults
        → ReadsOver (S.seen store.old).told blocks (nat_lt (room + 74 * length cids.now) (row_weight ls)) result) }
    ensures touches { OverRow S.X.block32 (S.seen store.old).told left cids.now (λ N ls blocks.
        touches.new ≤ touches.old + length blocks) }
    ensures few { 74 * touches.new ≤ 74 * (touches.old + length cids.now) + left * (room + 74 * length cids.now) }
    ensures touched { touches.old ≤ touches.new }
    ensures reads { OnlyReads S.X.block32 IsBadShard (fault_in result) (S.seen store.old) (S.seen store.new) }
{
    let mut below = Cids::new(alloc);
    let behind = weigh_row(
        alloc,
        store,
        left,
        cids.as_slice(),
        room,
        &mut below,
        touches,
    )?;
    match behind {
        None => Ok(true),
        Some(room) => {
            if left == 0 {
                return Ok(false);
            }
            are_over(alloc, store, left - 1, &below, room, touches)
        }
    }
}

// What is left of the same room after all that these shards themselves have, or `None` where they weigh more; the CIDs
// of the shards below them are put after others.
fn weigh_row<S: Store, L: Ledger>(
    alloc: Global,
    store: &mut S,
    left: u8,
    cids: &[Cid],
    room: u64,
    below: &mut Cids,
    touches: &mut Steps<L>,
) -> Result<Option<u64>, StoreFault>
    requires left { left ≤ 7 }
    requires fits { room + 74 * length cids.now < 2 ^ 64 }
    ensures weighs { OverRow S.X.block32 (S.seen store.old).told left cids.now (λ N ls blocks.
        IfOk result (LeavesRoom S.X.block32 N left ls room below.old below.new)) }
    ensures lost { OverRow S.X.block32 (S.seen store.old).told left cids.now (λ N ls blocks.
        LosesOnly blocks result (S.seen store.old) (S.seen store.new)) }
    ensures within { IfOk result (λ behind. IfSome behind (λ rest.
        rest + 74 * length below.new ≤ room + 74 * length cids.now + 74 * length below.old)) }
    ensures touches { touches.new ≤ touches.old + length cids.now }
    ensures touched { touches.old ≤ touches.new }
    ensures reads { OnlyReads S.X.block32 IsBadShard (fault_in result) (S.seen store.old) (S.seen store.new) }
{
    let mut rest = room;
    for cid in cids {
        let items = load_items(alloc, store, left, cid, touches)?;
        let behind = room_behind(items.as_slice(), rest + LEAST, below)?;
        match behind {
            Some(room) => rest = room,
            None => return Ok(None),
        }
    }
    Ok(Some(rest))
}

// What is left of a room after slots, where a shard below weighs as the two lightest names, or `None` where they weigh
// more; the CIDs of the shards below are put after others.
fn room_behind(items: &[Placed], room: u64, below: &mut Cids) -> Result<Option<u64>, Memory>
    ensures room { IfOk result (λ behind. behind ≡ room_after room (least_of items.now)) }
    ensures below { IfOk result (λ behind. IfSome behind (λ rest. below.new ≡ below.old ++ shards_in items.now)) }
{
    let mut rest = room;
    for placed in items {
        let behind = room_behind_one(placed, rest, below)?;
        match behind {
            Some(room) => rest = room,
            None => return Ok(None),
        }
    }
    Ok(Some(rest))
}

// The same after one slot.
fn room_behind_one(placed: &Placed, room: u64, below: &mut Cids) -> Result<Option<u64>, Memory>
    ensures room { IfOk result (λ behind. behind ≡ room_after room (least_weight placed.now.1)) }
    ensures below { OnOk result (below.new ≡ below.old ++ shard_in placed.now.1) }
{
    match &placed.item {
        Item::Leaf(name, _) => Ok(room.checked_sub(name.as_str().len() as u64 + 36)),
        Item::Sub(entry) => {
            below.push(entry.cid)?;
            Ok(room.checked_sub(LEAST))
        }
    }
}
