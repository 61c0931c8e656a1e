//! A name looked up, and the shards that decide it.
ghost use Rattle.std.specs.Prelude.{◌≡◌, ◌<◌, ◌≤◌, ◌+◌, ◌-◌, ◌++◌, ◌∷◌, [], List, None};
ghost use Rattle.std.specs.FinMap.Entries.{find as value_of};
ghost use Rattle.std.specs.Ordering.{nat_cmp};
ghost use Rattle.uf_cid.specs.declared.cid.Cid.{Cid as TheCid};
ghost use Rattle.uf_edge.specs.Counts.{Stood};
ghost use Rattle.uf_murmur.specs.Slots.{slot as slot_of};
ghost use Rattle.uf_store.specs.Calls.{OnlyReads};
ghost use Rattle.uf_store.specs.Faults.{Answers, fault_in};
ghost use Rattle.uf_store.specs.Keeping.{Agrees};
ghost use Rattle.uf_store.specs.Lost.{FindsOver};
ghost use Rattle.uf_store.specs.Seen.{Finds, Seen};
ghost use Rattle.uf_tree.specs.Codecs.{shard_node_block};
ghost use Rattle.uf_tree.specs.declared.meta.Meta.{Meta as TheMeta};
ghost use Rattle.uf_tree.specs.Names.{names_cmp};
ghost use Rattle.uf_tree.specs.Nodes.{Named};
ghost use Rattle.uf_tree.specs.ShardPlan.{shard_trail};
ghost use Rattle.uf_tree.specs.Validity.{IsShardNode};
ghost use Rattle.uf_shard.specs.Placed.{IsBadOnWay, IsPlacedNode, way};
ghost use Rattle.uf_shard.specs.Planned.{IsPlanned};
ghost use Rattle.uf_shard.specs.Reached.{HasFirst, HasPlaced, IsReached};
ghost use Rattle.uf_shard.specs.Spots.{HasRoom, spot_of};
ghost use Rattle.uf_shard.specs.Trails.{traced, traced_behind, trail_cids};

use crate::loading::{load_shard, slot_at};
use crate::reading::{is_first, spot_in};
use crate::spot::ShardAnswer;
use crate::traced::Traced;
use std::alloc::Global;
use std::sync::ledger::Ledger;
use uf_cid::{Cid, Cids};
use uf_murmur::NameHash;
use uf_store::{Role, Steps, Store, StoreFault};
use uf_tree::{Entry, Name, ShardNode};

/// The entry of a name in the directory whose shard tree has this root (UnixFS v1, "HAMTDirectory"), or `None` where
/// the name isn't there. At most eight touches, one for each shard on the name's way.
pub fn find<S: Store, N: NameHash, L: Ledger>(
    alloc: Global,
    store: &mut S,
    root: &Cid,
    name: &Name,
    touches: &mut Steps<L>,
) -> Result<Option<Entry>, StoreFault>
    ensures value { (m : TheMeta) (l : List Named) → IsPlanned S.X.block32 N.name64 root.now m l
        → Agrees (S.seen store.old).told (shard_trail S.X.block32 N.name64 7 m l name.now)
        → Stood (S.seen store.old).faults (S.seen store.new).faults
        → FindsOver (S.seen store.old).told (shard_trail S.X.block32 N.name64 7 m l name.now)
        (value_of names_cmp name.now l) result }
    ensures cause { Answers S.X.block32 (IsBadOnWay N.name64 (N.name64 name.now)) result
        (S.seen store.old) (S.seen store.new) }
    ensures told { (S.seen store.new).told ≡ (S.seen store.old).told }
    ensures touches { touches.new ≤ touches.old + 8 }
    ensures touched { touches.old < touches.new }
{
    let traced = trace::<S, N, L>(alloc, store, root, name, touches)?;
    Ok(traced.entry)
}

/// The CIDs of the shards that decide a name in the directory whose shard tree has this root (UnixFS v1,
/// "HAMTDirectory"), from the root down: those that `find` loads for it. At most eight touches.
pub fn trail<S: Store, N: NameHash, L: Ledger>(
    alloc: Global,
    store: &mut S,
    root: &Cid,
    name: &Name,
    touches: &mut Steps<L>,
) -> Result<Cids, StoreFault>
    ensures value { (m : TheMeta) (l : List Named) → IsPlanned S.X.block32 N.name64 root.now m l
        → Agrees (S.seen store.old).told (shard_trail S.X.block32 N.name64 7 m l name.now)
        → Stood (S.seen store.old).faults (S.seen store.new).faults
        → FindsOver (S.seen store.old).told (shard_trail S.X.block32 N.name64 7 m l name.now)
        (trail_cids (shard_trail S.X.block32 N.name64 7 m l name.now)) result }
    ensures cause { Answers S.X.block32 (IsBadOnWay N.name64 (N.name64 name.now)) result
        (S.seen store.old) (S.seen store.new) }
    ensures told { (S.seen store.new).told ≡ (S.seen store.old).told }
    ensures touches { touches.new ≤ touches.old + 8 }
    ensures touched { touches.old < touches.new }
{
    let traced = trace::<S, N, L>(alloc, store, root, name, touches)?;
    Ok(traced.trail)
}

/// What `find` and `trail` answer, by one walk: each shard on the name's way is loaded once. At most eight touches.
pub fn trace<S: Store, N: NameHash, L: Ledger>(
    alloc: Global,
    store: &mut S,
    root: &Cid,
    name: &Name,
    touches: &mut Steps<L>,
) -> Result<Traced, StoreFault>
    ensures value { (m : TheMeta) (l : List Named) → IsPlanned S.X.block32 N.name64 root.now m l
        → Agrees (S.seen store.old).told (shard_trail S.X.block32 N.name64 7 m l name.now)
        → Stood (S.seen store.old).faults (S.seen store.new).faults
        → FindsOver (S.seen store.old).told (shard_trail S.X.block32 N.name64 7 m l name.now)
        (traced (value_of names_cmp name.now l) (shard_trail S.X.block32 N.name64 7 m l name.now)) result }
    ensures cause { Answers S.X.block32 (IsBadOnWay N.name64 (N.name64 name.now)) result
        (S.seen store.old) (S.seen store.new) }
    ensures told { (S.seen store.new).told ≡ (S.seen store.old).told }
    ensures touches { touches.new ≤ touches.old + 8 }
    ensures touched { touches.old < touches.new }
{
    let node = load_shard::<S, N, L>(alloc, store, 0, root, name, touches)?;
    trace_placed::<S, N, L>(alloc, store, root, &node, name, touches)
}

/// The same after a load of the root: the store lends its block, which is this shard's, so it isn't loaded again. At
/// most seven touches.
pub fn trace_below<S: Store, N: NameHash, L: Ledger>(
    alloc: Global,
    store: &mut S,
    root: &Cid,
    node: &ShardNode,
    name: &Name,
    touches: &mut Steps<L>,
) -> Result<Traced, StoreFault>
    requires shard { IsShardNode node.now }
    requires lent { (S.seen store.old).lent ≡ shard_node_block node.now }
    ensures value { (before : Seen) (m : TheMeta) (l : List Named)
        → Finds S.X.block32 root.now before (S.seen store.old) → IsPlanned S.X.block32 N.name64 root.now m l
        → Agrees before.told (shard_trail S.X.block32 N.name64 7 m l name.now)
        → Stood before.faults (S.seen store.new).faults
        → FindsOver before.told (shard_trail S.X.block32 N.name64 7 m l name.now)
        (traced (value_of names_cmp name.now l) (shard_trail S.X.block32 N.name64 7 m l name.now)) result }
    ensures cause { (before : Seen) → Finds S.X.block32 root.now before (S.seen store.old)
        → Answers S.X.block32 (IsBadOnWay N.name64 (N.name64 name.now)) result before (S.seen store.new) }
    ensures told { (S.seen store.new).told ≡ (S.seen store.old).told }
    ensures touches { touches.new ≤ touches.old + 7 }
    ensures touched { touches.old ≤ touches.new }
{
    if is_first::<N>(node) {
        trace_placed::<S, N, L>(alloc, store, root, node, name, touches)
    } else {
        Err(StoreFault::BadBlock(*root, Role::Shard(0)))
    }
}

// The same where the shard is canonical at the root.
fn trace_placed<S: Store, N: NameHash, L: Ledger>(
    alloc: Global,
    store: &mut S,
    root: &Cid,
    node: &ShardNode,
    name: &Name,
    touches: &mut Steps<L>,
) -> Result<Traced, StoreFault>
    requires { IsPlacedNode N.name64 [] node.now }
    ensures value { (before : Seen) (m : TheMeta) (l : List Named)
        → HasFirst S.X.block32 N.name64 (N.name64 name.now) root.now node.now before (S.seen store.old)
        → IsPlanned S.X.block32 N.name64 root.now m l
        → Agrees before.told (shard_trail S.X.block32 N.name64 7 m l name.now)
        → Stood before.faults (S.seen store.new).faults
        → FindsOver before.told (shard_trail S.X.block32 N.name64 7 m l name.now)
        (traced (value_of names_cmp name.now l) (shard_trail S.X.block32 N.name64 7 m l name.now)) result }
    ensures reads { OnlyReads S.X.block32 (IsBadOnWay N.name64 (N.name64 name.now)) (fault_in result)
        (S.seen store.old) (S.seen store.new) }
    ensures touches { touches.new ≤ touches.old + 7 }
    ensures touched { touches.old ≤ touches.new }
{
    let mut cids = Cids::new(alloc);
    cids.push(*root)?;
    trace_in::<S, N, L>(alloc, store, 7, node, name, cids, touches)
}

// The same in the shard under a CID, which has n levels below it, with the CIDs after others.
#[cycle(traces)]
fn trace_from<S: Store, N: NameHash, L: Ledger>(
    alloc: Global,
    store: &mut S,
    left: u8,
    root: &Cid,
    name: &Name,
    above: Cids,
    touches: &mut Steps<L>,
) -> Result<Traced, StoreFault>
    requires { left ≤ 7 }
    ensures value { (m : TheMeta) (l : List Named)
        → IsReached S.X.block32 N.name64 (N.name64 name.now) left root.now m l
        → Agrees (S.seen store.old).told (shard_trail S.X.block32 N.name64 left m l name.now)
        → Stood (S.seen store.old).faults (S.seen store.new).faults
        → FindsOver (S.seen store.old).told (shard_trail S.X.block32 N.name64 left m l name.now)
        (traced_behind above (value_of names_cmp name.now l) (shard_trail S.X.block32 N.name64 left m l name.now))
        result }
    ensures reads { OnlyReads S.X.block32 (IsBadOnWay N.name64 (N.name64 name.now)) (fault_in result)
        (S.seen store.old) (S.seen store.new) }
    ensures touches { touches.new ≤ touches.old + left + 1 }
    ensures touched { touches.old < touches.new }
{
    let node = load_shard::<S, N, L>(alloc, store, 7 - left, root, name, touches)?;
    let mut cids = above;
    cids.push(*root)?;
    trace_in::<S, N, L>(alloc, store, left, &node, name, cids, touches)
}

// The same in this shard, whose CID is the last of those.
#[cycle(traces)]
fn trace_in<S: Store, N: NameHash, L: Ledger>(
    alloc: Global,
    store: &mut S,
    left: u8,
    node: &ShardNode,
    name: &Name,
    cids: Cids,
    touches: &mut Steps<L>,
) -> Result<Traced, StoreFault>
    requires left { left ≤ 7 }
    requires placed { IsPlacedNode N.name64 (way (N.name64 name.now) (7 - left)) node.now }
    ensures value { (root : TheCid) (above : List TheCid) (before : Seen) (m : TheMeta) (l : List Named)
        → cids ≡ above ++ root ∷ [] → HasPlaced N.name64 (N.name64 name.now) (7 - left) root before node.now
        → OnlyReads S.X.block32 (IsBadOnWay N.name64 (N.name64 name.now)) None before (S.seen store.old)
        → IsReached S.X.block32 N.name64 (N.name64 name.now) left root m l
        → Agrees before.told (shard_trail S.X.block32 N.name64 left m l name.now)
        → Stood before.faults (S.seen store.new).faults
        → FindsOver before.told (shard_trail S.X.block32 N.name64 left m l name.now)
        (traced_behind above (value_of names_cmp name.now l) (shard_trail S.X.block32 N.name64 left m l name.now))
        result }
    ensures reads { OnlyReads S.X.block32 (IsBadOnWay N.name64 (N.name64 name.now)) (fault_in result)
        (S.seen store.old) (S.seen store.new) }
    ensures touches { touches.new ≤ touches.old + left }
    ensures touched { touches.old ≤ touches.new }
{
    let spot = spot_at::<N>(node, 7 - left, name);
    match spot {
        ShardAnswer::Here(entry) => Ok(Traced { entry, trail: cids }),
        ShardAnswer::Below(cid) => {
            trace_from::<S, N, L>(alloc, store, left - 1, &cid, name, cids, touches)
        }
    }
}

// What a shard at a level says of a name.
fn spot_at<N: NameHash>(node: &ShardNode, level: u8, name: &Name) -> ShardAnswer
    requires level { level < 8 }
    requires placed { IsPlacedNode N.name64 (way (N.name64 name.now) level) node.now }
    ensures says { result ≡ spot_of name.now (value_of nat_cmp (slot_of (N.name64 name.now) level) node.now.items) }
    ensures room { HasRoom level result }
{
    let slot = slot_at::<N>(name, level);
    spot_in(node.items.as_slice(), slot, name)
}
