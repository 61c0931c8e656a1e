//! Directories changed by one name.
ghost use Rattle.std.specs.Prelude.{◌≡◌, ◌<◌, ◌≤◌, ◌+◌, ℕ, List, IfOk, IfSome, IsTrue, None, OnOk, Some};
ghost use Rattle.std.specs.Prelude.{◌∷◌, [], length};
ghost use Rattle.uf_edge.specs.Counts.{Stood};
ghost use Rattle.uf_store.specs.Among.{SavesAmong};
ghost use Rattle.uf_store.specs.Calls.{OnlySaves};
ghost use Rattle.uf_store.specs.Faults.{Answers, NoneIsBad, fault_in};
ghost use Rattle.uf_store.specs.Keeping.{Agrees, Holds, KeepsGood, StaysAgreed};
ghost use Rattle.uf_store.specs.Writing.{SavesOnly};
ghost use Rattle.uf_store.specs.Lost.{AgreesAfter, ReadsOver};
ghost use Rattle.uf_store.specs.Seen.{Finds, Seen};
ghost use Rattle.uf_tree.specs.Changes.{with_name, without};
ghost use Rattle.uf_tree.specs.Codecs.{shard_node_block};
ghost use Rattle.uf_tree.specs.DirPlan.{weight};
ghost use Rattle.uf_tree.specs.declared.meta.Meta.{Meta as TheMeta};
ghost use Rattle.uf_tree.specs.Metas.{is_meta};
ghost use Rattle.uf_tree.specs.Nodes.{Named};
ghost use Rattle.uf_tree.specs.Profiles.{is_profile};
ghost use Rattle.uf_tree.specs.ShardPlan.{shard};
ghost use Rattle.uf_tree.specs.TreePlan.{dir_refusal};
ghost use Rattle.uf_tree.specs.Validity.{IsDirNode, IsDirectory, IsShardNode};
ghost use Rattle.uf_shard.specs.Answers.{Gives, GivesOver, Shown, dir_fault};
ghost use Rattle.uf_shard.specs.Listing.{IsBadShard};
ghost use Rattle.uf_shard.specs.Planned.{IsPlanned as IsShardPlan};
ghost use Rattle.uf_shard.specs.Planned.{IsShardCid};
ghost use Rattle.uf_dir.specs.Bad.{BlamesOnly, IsBad, IsBadWeighed};
ghost use Rattle.uf_dir.specs.Bounds.{IsFree, crossing, gathering, shard_count, weighing, weighing_from};
ghost use Rattle.uf_dir.specs.Left.{AreShards, CanRise, Fits, SettlesShards};
ghost use Rattle.uf_dir.specs.Left.{SavesLeft, TakesBasic, TakesSharded, TouchesLeft, pairs_left};
ghost use Rattle.uf_dir.specs.Planned.{IsFitting, IsPlanned, dir_entry, dir_held, entry_without, own_blocks};
ghost use Rattle.uf_dir.specs.Planned.{removal_blocks};
ghost use Rattle.uf_dir.specs.Roots.{IsRootCid};

use crate::building::{build, needs_shards, save_basic};
use crate::looking::look_at_root;
use crate::pairs::{entry_of, with_pair, without_name};
use crate::root::Root;
use std::alloc::Global;
use std::sync::ledger::Ledger;
use uf_cid::{Cid, Memory};
use uf_murmur::NameHash;
use uf_shard::{DirFault, Removed, entries, put_below, remove_below, weight_over};
use uf_store::{Steps, Store, StoreFault};
use uf_tree::{DirNode, Entry, Meta, Name, Pairs, Profile, ShardNode};

/// Saves the directory with this root and with an entry put under a name, in the place of an older one of that name,
/// and answers its entry. Its metadata stays. A directory in shards is changed in place; one in one block goes into
/// shards where it gets too heavy.
pub fn put<S: Store, N: NameHash, L: Ledger>(
    alloc: Global,
    store: &mut S,
    p: &Profile,
    root: &Cid,
    name: &Name,
    entry: &Entry,
    touches: &mut Steps<L>,
) -> Result<Entry, DirFault>
    requires profile { IsTrue (is_profile p.now) }
    ensures value { (m : TheMeta) (l : List Named) → IsPlanned S.X.block32 N.name64 p.now m root.now l
        → Agrees (S.seen store.old).told (own_blocks S.X.block32 N.name64 p.now m l)
        → Stood (S.seen store.old).faults (S.seen store.new).faults
        → Stood (S.seen store.old).clashes (S.seen store.new).clashes
        → GivesOver (S.seen store.old).told (own_blocks S.X.block32 N.name64 p.now m l)
        (dir_refusal S.X.block32 N.name64 p.now m (with_name name.now entry.now l))
        (dir_entry S.X.block32 N.name64 p.now m (with_name name.now entry.now l)) result }
    ensures made { IfOk result (λ e. IsRootCid S.X.block32 (Some p.now) e.cid) }
    ensures fitting { OnOk result (IsFitting p.now root.now (S.seen store.old).told) }
    ensures after { OnOk result ((m : TheMeta) (l : List Named) → IsPlanned S.X.block32 N.name64 p.now m root.now l
        → StaysAgreed (S.seen store.old).told (S.seen store.new).told (own_blocks S.X.block32 N.name64 p.now m l)
        → AgreesAfter (S.seen store.old).told (S.seen store.new).told (own_blocks S.X.block32 N.name64 p.now m l)
        (own_blocks S.X.block32 N.name64 p.now m (with_name name.now entry.now l))) }
    ensures cause { Shown S.X.block32 (IsBad N.name64 (N.name64 name.now) (Some p.now)) result
        (S.seen store.old) (S.seen store.new) }
    ensures blames { BlamesOnly root.now (dir_fault result) }
    ensures good { KeepsGood S.X.block32 (S.seen store.old).told (S.seen store.new).told }
    ensures saves { SavesOnly S.X.block32 (S.seen store.old).told (S.seen store.new).told }
    ensures no_other { (m : TheMeta) (l : List Named) → IsPlanned S.X.block32 N.name64 p.now m root.now l
        → Agrees (S.seen store.old).told (own_blocks S.X.block32 N.name64 p.now m l)
        → SavesAmong S.X.block32 (own_blocks S.X.block32 N.name64 p.now m (with_name name.now entry.now l))
        (S.seen store.old).told (S.seen store.new).told }
    ensures touches { (m : TheMeta) (l : List Named) → IsPlanned S.X.block32 N.name64 p.now m root.now l
        → Agrees (S.seen store.old).told (own_blocks S.X.block32 N.name64 p.now m l)
        → touches.new ≤ touches.old + (17 + crossing S.X.block32 N.name64 p.now l (with_name name.now entry.now l)) }
    ensures touched { touches.old < touches.new }
{
    let found = look_at_root(alloc, store, Some(*p), root, touches)?;
    match found {
        Root::Basic(node) => put_basic::<S, N, L>(alloc, store, p, &node, name, entry, touches),
        Root::Sharded(node) => {
            put_below::<S, N, L>(alloc, store, root, &node, name, entry, touches)
        }
    }
}

// Saves the directory of this node and of an entry under a name.
fn put_basic<S: Store, N: NameHash, L: Ledger>(
    alloc: Global,
    store: &mut S,
    p: &Profile,
    node: &DirNode,
    name: &Name,
    entry: &Entry,
    touches: &mut Steps<L>,
) -> Result<Entry, DirFault>
    requires profile { IsTrue (is_profile p.now) }
    requires node { IsDirNode node.now }
    ensures answer { Gives (dir_refusal S.X.block32 N.name64 p.now node.now.meta
        (with_name name.now entry.now node.now.pairs))
        (dir_entry S.X.block32 N.name64 p.now node.now.meta (with_name name.now entry.now node.now.pairs)) result }
    ensures made { IfOk result (λ e. IsRootCid S.X.block32 (Some p.now) e.cid) }
    ensures held { OnOk result (Holds (S.seen store.new).told
        (own_blocks S.X.block32 N.name64 p.now node.now.meta (with_name name.now entry.now node.now.pairs))) }
    ensures saves { OnlySaves S.X.block32 NoneIsBad (dir_fault result) (S.seen store.old) (S.seen store.new) }
    ensures no_other { SavesAmong S.X.block32
        (own_blocks S.X.block32 N.name64 p.now node.now.meta (with_name name.now entry.now node.now.pairs))
        (S.seen store.old).told (S.seen store.new).told }
    ensures touches { touches.new ≤ touches.old
        + length (own_blocks S.X.block32 N.name64 p.now node.now.meta (with_name name.now entry.now node.now.pairs)) }
    ensures touched { touches.old ≤ touches.new }
    ensures early { IsFree N.name64 p.now (with_name name.now entry.now node.now.pairs) touches.old touches.new }
{
    let changed = with_pair(alloc, &node.pairs, name, entry)?;
    build::<S, N, L>(alloc, store, p, &changed, &node.meta, touches)
}

/// Saves the directory with this root without a name, and answers its entry; `None`, and nothing is saved, where the
/// name isn't there, by at most nine touches, since nothing is weighed then. Its metadata stays. A directory in shards
/// is changed in place, and goes into one block where it isn't too heavy any more.
pub fn remove<S: Store, N: NameHash, L: Ledger>(
    alloc: Global,
    store: &mut S,
    p: &Profile,
    root: &Cid,
    name: &Name,
    touches: &mut Steps<L>,
) -> Result<Option<Entry>, StoreFault>
    requires profile { IsTrue (is_profile p.now) }
    ensures value { (m : TheMeta) (l : List Named) → IsPlanned S.X.block32 N.name64 p.now m root.now l
        → StaysAgreed (S.seen store.old).told (S.seen store.new).told (own_blocks S.X.block32 N.name64 p.now m l)
        → Stood (S.seen store.old).faults (S.seen store.new).faults
        → Stood (S.seen store.old).clashes (S.seen store.new).clashes
        → ReadsOver (S.seen store.old).told (own_blocks S.X.block32 N.name64 p.now m l)
        (entry_without S.X.block32 N.name64 p.now m name.now l) result }
    ensures made { IfOk result (λ left. IfSome left (λ e. IsRootCid S.X.block32 (Some p.now) e.cid)) }
    ensures fitting { OnOk result (IsFitting p.now root.now (S.seen store.old).told) }
    ensures none { IfOk result (λ left. left ≡ None → (S.seen store.new).told ≡ (S.seen store.old).told) }
    ensures after { OnOk result ((m : TheMeta) (l : List Named) → IsPlanned S.X.block32 N.name64 p.now m root.now l
        → StaysAgreed (S.seen store.old).told (S.seen store.new).told (own_blocks S.X.block32 N.name64 p.now m l)
        → Stood (S.seen store.old).faults (S.seen store.new).faults
        → Stood (S.seen store.old).clashes (S.seen store.new).clashes
        → AgreesAfter (S.seen store.old).told (S.seen store.new).told (own_blocks S.X.block32 N.name64 p.now m l)
        (own_blocks S.X.block32 N.name64 p.now m (without name.now l))) }
    ensures cause { Answers S.X.block32 (IsBadWeighed N.name64 (N.name64 name.now) (Some p.now)) result
        (S.seen store.old) (S.seen store.new) }
    ensures blames { BlamesOnly root.now (fault_in result) }
    ensures good { KeepsGood S.X.block32 (S.seen store.old).told (S.seen store.new).told }
    ensures saves { SavesOnly S.X.block32 (S.seen store.old).told (S.seen store.new).told }
    ensures no_other { (m : TheMeta) (l : List Named) → IsPlanned S.X.block32 N.name64 p.now m root.now l
        → StaysAgreed (S.seen store.old).told (S.seen store.new).told (own_blocks S.X.block32 N.name64 p.now m l)
        → CanRise (S.seen store.old)
        → SavesAmong S.X.block32 (removal_blocks S.X.block32 N.name64 p.now m name.now l)
        (S.seen store.old).told (S.seen store.new).told }
    ensures touches { (m : TheMeta) (l : List Named) → IsPlanned S.X.block32 N.name64 p.now m root.now l
        → StaysAgreed (S.seen store.old).told (S.seen store.new).told (own_blocks S.X.block32 N.name64 p.now m l)
        → Stood (S.seen store.old).faults (S.seen store.new).faults
        → Stood (S.seen store.old).clashes (S.seen store.new).clashes
        → touches.new ≤ touches.old + (18 + weighing_from S.X.block32 N.name64 p.now name.now l
        + crossing S.X.block32 N.name64 p.now l (without name.now l)) }
    ensures absent { IfOk result (λ left. left ≡ None → touches.new ≤ touches.old + 9) }
    ensures touched { touches.old < touches.new }
{
    let found = look_at_root(alloc, store, Some(*p), root, touches)?;
    match found {
        Root::Basic(node) => remove_basic::<S, N, L>(alloc, store, p, &node, name, touches),
        Root::Sharded(node) => {
            remove_sharded::<S, N, L>(alloc, store, p, root, &node, name, touches)
        }
    }
}

// Saves the directory of this node, whose pairs aren't too heavy for one block, without a name, where the name is
// there.
fn remove_basic<S: Store, N: NameHash, L: Ledger>(
    alloc: Global,
    store: &mut S,
    p: &Profile,
    node: &DirNode,
    name: &Name,
    touches: &mut Steps<L>,
) -> Result<Option<Entry>, StoreFault>
    requires profile { IsTrue (is_profile p.now) }
    requires node { IsDirNode node.now }
    requires light { weight node.now.pairs ≤ p.now.threshold }
    ensures takes { TakesBasic S.X.block32 N.name64 p.now node.now.meta name.now node.now.pairs
        (S.seen store.old).told (S.seen store.new).told result }
    ensures saves { OnlySaves S.X.block32 NoneIsBad (fault_in result) (S.seen store.old) (S.seen store.new) }
    ensures no_other { SavesAmong S.X.block32
        (dir_held S.X.block32 node.now.meta (without name.now node.now.pairs) ∷ [])
        (S.seen store.old).told (S.seen store.new).told }
    ensures touches { touches.new ≤ touches.old + 1 }
    ensures absent { IfOk result (λ left. left ≡ None → touches.new ≡ touches.old) }
    ensures touched { touches.old ≤ touches.new }
{
    let rest = pairs_without(alloc, &node.pairs, name)?;
    match rest {
        None => Ok(None),
        Some(left) => {
            let entry = save_basic(alloc, store, &left, &node.meta, touches)?;
            Ok(Some(entry))
        }
    }
}

// Takes a name out of the directory whose shard tree has this root, which was loaded and is lent, and answers the
// entry of what is left.
fn remove_sharded<S: Store, N: NameHash, L: Ledger>(
    alloc: Global,
    store: &mut S,
    p: &Profile,
    root: &Cid,
    node: &ShardNode,
    name: &Name,
    touches: &mut Steps<L>,
) -> Result<Option<Entry>, StoreFault>
    requires profile { IsTrue (is_profile p.now) }
    requires shard { IsShardNode node.now }
    requires lent { (S.seen store.old).lent ≡ shard_node_block node.now }
    ensures takes { (before : Seen) → Finds S.X.block32 root.now before (S.seen store.old)
        → TakesSharded S.X.block32 N.name64 p.now node.now.meta root.now name.now before (S.seen store.new) result }
    ensures saves { (before : Seen) → Finds S.X.block32 root.now before (S.seen store.old)
        → OnlySaves S.X.block32 (IsBadWeighed N.name64 (N.name64 name.now) (Some p.now)) (fault_in result)
        before (S.seen store.new) }
    ensures no_other { SavesLeft S.X.block32 N.name64 p.now node.now.meta root.now name.now (S.seen store.old)
        (S.seen store.new) }
    ensures blames { (before : Seen) → Finds S.X.block32 root.now before (S.seen store.old)
        → BlamesOnly root.now (fault_in result) }
    ensures touches { TouchesLeft S.X.block32 N.name64 p.now node.now.meta root.now name.now (S.seen store.old)
        (S.seen store.new) touches.old touches.new }
    ensures absent { IfOk result (λ left. left ≡ None → touches.new ≤ touches.old + 7) }
    ensures touched { touches.old ≤ touches.new }
{
    let removed = remove_below::<S, N, L>(alloc, store, root, node, name, touches)?;
    match removed {
        Removed::Absent => Ok(None),
        Removed::Empty => {
            let nothing = Pairs::new(alloc);
            let entry = save_basic(alloc, store, &nothing, &node.meta, touches)?;
            Ok(Some(entry))
        }
        Removed::Left(entry) => {
            let left = entry_by_weight(alloc, store, p, entry, &node.meta, touches)?;
            Ok(Some(left))
        }
    }
}

// The entry of a directory in shards with this metadata, or of the same in one block, which is saved, where it isn't
// too heavy for that.
fn entry_by_weight<S: Store, L: Ledger>(
    alloc: Global,
    store: &mut S,
    p: &Profile,
    entry: Entry,
    meta: &Meta,
    touches: &mut Steps<L>,
) -> Result<Entry, StoreFault>
    requires profile { IsTrue (is_profile p.now) }
    requires meta { IsTrue (is_meta meta.now) }
    requires shard { IsShardCid S.X.block32 entry.cid }
    ensures settles { SettlesShards S.X.block32 p.now meta.now entry (S.seen store.old) (S.seen store.new) result }
    ensures saves { OnlySaves S.X.block32 IsBadShard (fault_in result) (S.seen store.old) (S.seen store.new) }
    ensures no_other { (N : List ℕ → ℕ) (l : List Named) → IsShardPlan S.X.block32 N entry.cid meta.now l
        → Agrees (S.seen store.old).told (shard S.X.block32 N 7 meta.now l).blocks → CanRise (S.seen store.old)
        → SavesAmong S.X.block32 (own_blocks S.X.block32 N p.now meta.now l)
        (S.seen store.old).told (S.seen store.new).told }
    ensures touches { (N : List ℕ → ℕ) (l : List Named)
        → AreShards S.X.block32 N meta.now entry (S.seen store.old) (S.seen store.new) l
        → touches.new ≤ touches.old + (weighing p.now (shard_count S.X.block32 N l)
        + gathering p.now (shard_count S.X.block32 N l) l) }
    ensures touched { touches.old < touches.new }
{
    let is_heavy = weight_over(alloc, store, &entry.cid, u64::from(p.threshold), touches)?;
    if is_heavy {
        return Ok(entry);
    }
    in_one_block(alloc, store, p, entry, meta, touches)
}

// The entry of a directory in shards with this metadata that were weighed, or of the same in one block, which is
// saved.
fn in_one_block<S: Store, L: Ledger>(
    alloc: Global,
    store: &mut S,
    p: &Profile,
    entry: Entry,
    meta: &Meta,
    touches: &mut Steps<L>,
) -> Result<Entry, StoreFault>
    requires profile { IsTrue (is_profile p.now) }
    requires meta { IsTrue (is_meta meta.now) }
    requires shard { IsShardCid S.X.block32 entry.cid }
    ensures settles { SettlesShards S.X.block32 p.now meta.now entry (S.seen store.old) (S.seen store.new) result }
    ensures saves { OnlySaves S.X.block32 IsBadShard (fault_in result) (S.seen store.old) (S.seen store.new) }
    ensures no_other { (N : List ℕ → ℕ) (l : List Named) → IsShardPlan S.X.block32 N entry.cid meta.now l
        → Agrees (S.seen store.old).told (shard S.X.block32 N 7 meta.now l).blocks → CanRise (S.seen store.old)
        → SavesAmong S.X.block32 (own_blocks S.X.block32 N p.now meta.now l)
        (S.seen store.old).told (S.seen store.new).told }
    ensures touches { (N : List ℕ → ℕ) (l : List Named)
        → AreShards S.X.block32 N meta.now entry (S.seen store.old) (S.seen store.new) l
        → touches.new ≤ touches.old + (shard_count S.X.block32 N l + 1) }
    ensures touched { touches.old < touches.new }
{
    let pairs = entries(alloc, store, &entry.cid, touches)?;
    fitted(alloc, store, p, entry, &pairs, meta, touches)
}

// Saves these pairs with this metadata in one block, unless they are too heavy for it: then the entry of their shards.
fn fitted<S: Store, L: Ledger>(
    alloc: Global,
    store: &mut S,
    p: &Profile,
    entry: Entry,
    pairs: &Pairs,
    meta: &Meta,
    touches: &mut Steps<L>,
) -> Result<Entry, StoreFault>
    requires profile { IsTrue (is_profile p.now) }
    requires meta { IsTrue (is_meta meta.now) }
    requires directory { IsDirectory pairs.now }
    ensures fits { (N : List ℕ → ℕ) → Fits S.X.block32 N p.now meta.now entry pairs.now
        (S.seen store.old).told (S.seen store.new).told result }
    ensures saves { OnlySaves S.X.block32 NoneIsBad (fault_in result) (S.seen store.old) (S.seen store.new) }
    ensures no_other { (N : List ℕ → ℕ) → SavesAmong S.X.block32 (own_blocks S.X.block32 N p.now meta.now pairs.now)
        (S.seen store.old).told (S.seen store.new).told }
    ensures touches { touches.new ≤ touches.old + 1 }
    ensures touched { touches.old ≤ touches.new }
{
    if needs_shards(p, pairs.as_slice()) {
        return Ok(entry);
    }
    save_basic(alloc, store, pairs, meta, touches)
}

// The pairs without a name, where the name is there.
fn pairs_without(alloc: Global, pairs: &Pairs, name: &Name) -> Result<Option<Pairs>, Memory>
    requires { IsDirectory pairs.now }
    ensures pairs { IfOk result (λ left. left ≡ pairs_left name.now pairs.now) }
    ensures directory { IfOk result (λ left. IfSome left IsDirectory) }
{
    if entry_of(pairs.as_slice(), name).is_none() {
        return Ok(None);
    }
    Ok(Some(without_name(alloc, pairs, name)?))
}
