//! `files cp` from a DAG: trees of others, copied into the tree that the Head names.
ghost use Rattle.std.specs.Prelude.{◌≡◌, ◌<◌, ◌^◌, ℕ, Ok, Some, length};
ghost use Rattle.uf_adopt.specs.Feeding.{HoldsGoodMap};
ghost use Rattle.uf_cid.specs.Blocks.{Lookup};
ghost use Rattle.uf_edge.specs.Counts.{Stood};
ghost use Rattle.uf_lenient.specs.Reading.{denotes};
ghost use Rattle.uf_mfs.specs.Bad.{IsBadInTree};
ghost use Rattle.uf_mfs.specs.Missing.{put_needs};
ghost use Rattle.uf_mfs.specs.Standing.{IsMfs, StandsOver};
ghost use Rattle.uf_mfs.specs.Touches.{CountsUp};
ghost use Rattle.uf_plain.specs.Moves.{spot_names, spotted};
ghost use Rattle.uf_command.specs.Dags.{IsToldAs, adopted_name as name_adopted, usual_limits};
ghost use Rattle.uf_command.specs.Kinds.{IsOf, refusal_fault};
ghost use Rattle.uf_top.specs.Lent.{OverStore};
ghost use Rattle.uf_top.specs.Reply.{adopted, by_rule};
ghost use Rattle.uf_command.specs.declared.types.Command.TheVariants as commands;
ghost use Rattle.uf_store.specs.Among.{SavesAmong};
ghost use Rattle.uf_store.specs.Calls.{OnlyReads, OnlySaves};
ghost use Rattle.uf_store.specs.Faults.{NoneIsBad};
ghost use Rattle.uf_tree.specs.Tree.{Dir, Entries, Tree};
ghost use Rattle.uf_tree.specs.TreePlan.{blocks};
ghost use Rattle.uf_tree.specs.declared.profile.Profile.{Profile as TheProfile};
ghost use Rattle.uf_top.specs.Grafts.{BuildsPlanned, FollowsOr, GraftsIn, IsLostBy, LeavesUnplaced, PutsTree};
ghost use Rattle.uf_top.specs.Grafts.{SavesAdopted, SavesAtSpot, TouchesUp};
ghost use Rattle.uf_top.specs.Losing.{placing_needs};
ghost use Rattle.uf_top.specs.Grafts.{adopt_refusal, graft_kinds, put_tree};
ghost use Rattle.uf_top.specs.Naming.{TellsBlocks};
ghost use Rattle.uf_top.specs.Working.{Does};

use crate::commands::cat::{USUAL, tree_in};
use crate::commands::files::{opened, refusal};
use std::alloc::Global;
use std::sync::ledger::Ledger;
use uf_adopt::{AdoptFault, adopt_surveyed};
use uf_cid::Cid;
use uf_command::{Refusal, adopted_name, dag_refusal};
use uf_mfs::Mfs;
use uf_murmur::NameHash;
use uf_path::{DagPath, Path};
use uf_plain::{Rule, Spot};
use uf_store::{Steps, Store};
use uf_tree::Entry;

// Copies what is at a path in a DAG to where a path of the tree leads, and writes the Head.
pub fn graft<S: Store, N: NameHash, L: Ledger>(
    alloc: Global,
    source: &DagPath,
    dest: &Path,
    store: &mut S,
    touches: &mut Steps<L>,
) -> Result<(), Refusal>
    requires { length source.now.names < 2 ^ 32 }
    ensures { OverStore (Does S.X.block32 N.name64 (commands.Adopt source.now dest.now) result)
        (S.seen store.old) touches.old (S.seen store.new) touches.new }
{
    let tree = opened::<S, N, L>(alloc, store, touches)?;
    graft_in::<S, N, L>(alloc, tree, source, dest, store, touches)
}

// The same in an opened tree.
fn graft_in<S: Store, N: NameHash, L: Ledger>(
    alloc: Global,
    tree: Mfs,
    source: &DagPath,
    dest: &Path,
    store: &mut S,
    touches: &mut Steps<L>,
) -> Result<(), Refusal>
    requires few { length source.now.names < 2 ^ 32 }
    requires mfs { IsMfs tree }
    ensures { GraftsIn S.X.block32 N.name64 tree source.now dest.now result (S.seen store.old) (S.seen store.new)
        touches.old touches.new }
{
    let mut tree = tree;
    grafted::<S, N, L>(alloc, &mut tree, source, dest, store, touches)?;
    tree.commit::<S, N, L>(alloc, store, touches)
        .map_err(refusal)
}

// The same in memory.
fn grafted<S: Store, N: NameHash, L: Ledger>(
    alloc: Global,
    tree: &mut Mfs,
    source: &DagPath,
    dest: &Path,
    store: &mut S,
    touches: &mut Steps<L>,
) -> Result<(), Refusal>
    requires few { length source.now.names < 2 ^ 32 }
    requires mfs { IsMfs tree.old }
    ensures puts { (held : Lookup) → TellsBlocks (S.seen store.old).told held
        → PutsTree S.X.block32 N.name64 tree.old tree.new
        (placing_needs S.X.block32 N.name64 dest.now (Some (name_adopted source.now)))
        (adopted S.X.block32 N.name64 held source.now dest.now) result (S.seen store.old) (S.seen store.new) }
    ensures unplaced { LeavesUnplaced S.X.block32 N.name64 tree.old source.now dest.now result (S.seen store.old)
        (S.seen store.new) }
    ensures no_other { SavesAdopted S.X.block32 N.name64 tree.old source.now dest.now (S.seen store.old)
        (S.seen store.new) }
    ensures saves { OnlySaves S.X.block32
        (IsBadInTree S.X.block32 N.name64 (Some tree.old.profile) tree.old.root.cid) (refusal_fault result)
        (S.seen store.old) (S.seen store.new) }
    ensures kinds { IsOf graft_kinds result }
    ensures mfs { IsMfs tree.new }
    ensures profile { tree.new.profile ≡ tree.old.profile }
    ensures touched { TouchesUp result touches.old touches.new }
{
    let cid = tree_in(alloc, source, store, touches)?;
    let spot = spot_for::<S, N, L>(alloc, tree, source, dest, store, touches)?;
    put_at::<S, N, L>(alloc, tree, source, &cid, &spot, store, touches)
}

// Where what is at a path in a DAG is put that goes to `dest`.
fn spot_for<S: Store, N: NameHash, L: Ledger>(
    alloc: Global,
    tree: &Mfs,
    source: &DagPath,
    dest: &Path,
    store: &mut S,
    touches: &mut Steps<L>,
) -> Result<Spot, Refusal>
    ensures finds { (p : TheProfile) (es : Entries)
        → StandsOver S.X.block32 N.name64 (S.seen store.old).told tree.now p es
        → Stood (S.seen store.old).faults (S.seen store.new).faults
        → FollowsOr (IsLostBy (S.seen store.old).told
        (placing_needs S.X.block32 N.name64 dest.now (Some (name_adopted source.now)) p es))
        (λ spot given. given ≡ spot) (by_rule (spotted dest.now (Some (name_adopted source.now)) es)) result }
    ensures reads { OnlyReads S.X.block32
        (IsBadInTree S.X.block32 N.name64 (Some tree.now.profile) tree.now.root.cid) (refusal_fault result)
        (S.seen store.old) (S.seen store.new) }
    ensures kinds { IsOf graft_kinds result }
    ensures touched { CountsUp (refusal_fault result) touches.old touches.new }
{
    let name = adopted_name(alloc, source)?;
    tree.spot::<S, N, L>(alloc, store, dest, Some(&name), touches)
        .map_err(refusal)
}

// Puts the tree that a CID denotes, which was surveyed, at a spot, in memory.
fn put_at<S: Store, N: NameHash, L: Ledger>(
    alloc: Global,
    tree: &mut Mfs,
    source: &DagPath,
    cid: &Cid,
    spot: &Spot,
    store: &mut S,
    touches: &mut Steps<L>,
) -> Result<(), Refusal>
    requires mfs { IsMfs tree.old }
    ensures puts { (held : Lookup) (t : Tree) → HoldsGoodMap S.X.block32 held (S.seen store.old).told
        → denotes held usual_limits cid.now ≡ Ok t
        → PutsTree S.X.block32 N.name64 tree.old tree.new
        (λ p es. put_needs S.X.block32 N.name64 p (spot_names spot.now) (Dir es))
        (put_tree S.X.block32 N.name64 spot.now t) result (S.seen store.old) (S.seen store.new) }
    ensures no_other { (held : Lookup) (t : Tree) → HoldsGoodMap S.X.block32 held (S.seen store.old).told
        → denotes held usual_limits cid.now ≡ Ok t
        → SavesAtSpot S.X.block32 N.name64 tree.old spot.now t (S.seen store.old) (S.seen store.new) }
    ensures saves { OnlySaves S.X.block32
        (IsBadInTree S.X.block32 N.name64 (Some tree.old.profile) tree.old.root.cid) (refusal_fault result)
        (S.seen store.old) (S.seen store.new) }
    ensures kinds { IsOf graft_kinds result }
    ensures mfs { IsMfs tree.new }
    ensures profile { tree.new.profile ≡ tree.old.profile }
    ensures touched { TouchesUp result touches.old touches.new }
{
    let entry = built::<S, N, L>(alloc, tree, source, cid, store, touches)?;
    tree.place::<S, N, L>(alloc, store, spot, &entry, touches)
        .map_err(refusal)
}

// The entry of the tree that a CID denotes, by the profile of the tree.
fn built<S: Store, N: NameHash, L: Ledger>(
    alloc: Global,
    tree: &Mfs,
    source: &DagPath,
    cid: &Cid,
    store: &mut S,
    touches: &mut Steps<L>,
) -> Result<Entry, Refusal>
    requires mfs { IsMfs tree.now }
    ensures builds { (held : Lookup) (t : Tree) → HoldsGoodMap S.X.block32 held (S.seen store.old).told
        → denotes held usual_limits cid.now ≡ Ok t
        → BuildsPlanned S.X.block32 N.name64 tree.now.profile (S.seen store.new).told t result }
    ensures no_other { (held : Lookup) (t : Tree) → HoldsGoodMap S.X.block32 held (S.seen store.old).told
        → denotes held usual_limits cid.now ≡ Ok t → SavesAmong S.X.block32
        (blocks S.X.block32 N.name64 tree.now.profile t) (S.seen store.old).told (S.seen store.new).told }
    ensures saves { OnlySaves S.X.block32 NoneIsBad (refusal_fault result) (S.seen store.old) (S.seen store.new) }
    ensures kinds { IsOf graft_kinds result }
    ensures touched { TouchesUp result touches.old touches.new }
{
    match adopt_surveyed::<S, N, L>(alloc, store, &tree.profile, cid, &USUAL, touches) {
        Ok(entry) => Ok(entry),
        Err(fault) => Err(adopting(alloc, source, fault)),
    }
}

// The fault of an adoption along a path as a refusal.
fn adopting(alloc: Global, source: &DagPath, fault: AdoptFault) -> Refusal
    ensures { IsToldAs (adopt_refusal source.now fault) result }
{
    match fault {
        AdoptFault::Dag(fault) => dag_refusal(alloc, source, fault),
        AdoptFault::FileTooLong(_) => Refusal::Rule(Rule::FileTooLong),
        AdoptFault::Collision(first, second) => Refusal::Rule(Rule::Collision(first, second)),
        AdoptFault::TooBig => Refusal::Rule(Rule::TooBig),
        AdoptFault::Store(fault) => Refusal::Store(fault),
    }
}
