//! What a CID denotes adopted.
ghost use Rattle.std.specs.Prelude.{◌≡◌, ◌≤◌, IsTrue, Ok, OnOk};
ghost use Rattle.uf_cid.specs.Blocks.{Lookup};
ghost use Rattle.uf_lenient.specs.Good.{ByGoodBlocks};
ghost use Rattle.uf_lenient.specs.Reading.{denotes};
ghost use Rattle.uf_store.specs.Among.{SavesAmong};
ghost use Rattle.uf_store.specs.Faults.{NoneIsBad, Shown};
ghost use Rattle.uf_store.specs.Keeping.{KeepsGood};
ghost use Rattle.uf_store.specs.Writing.{SavesOnly};
ghost use Rattle.uf_tree.specs.Profiles.{is_profile};
ghost use Rattle.uf_tree.specs.Tree.{Tree};
ghost use Rattle.uf_tree.specs.TreePlan.{blocks as blocks_of};
ghost use Rattle.uf_adopt.specs.Adopting.{Adopts, BuildsTree, SavesOfTree};
ghost use Rattle.uf_adopt.specs.Feeding.{HoldsGoodMap};
ghost use Rattle.uf_adopt.specs.Faults.{SavesNone, TellsStoreApart, adopt_fault};

use crate::AdoptFault;
use crate::folders::adopt_within;
use std::alloc::Global;
use std::sync::ledger::Ledger;
use uf_cid::Cid;
use uf_lenient::{Limits, survey};
use uf_murmur::NameHash;
use uf_store::{Steps, Store};
use uf_tree::{Entry, Profile};

/// Builds what a CID denotes by a profile, and answers its entry. All of it is read first, so that nothing is saved of
/// what denotes no tree. Then the files and directories are built in byte order of their names, each directory after
/// its members. Depth and visits are counted anew in each call. A held block that hasn't its CID's digest is never
/// read: what it denotes makes no difference.
pub fn adopt<S: Store, N: NameHash, L: Ledger>(
    alloc: Global,
    store: &mut S,
    p: &Profile,
    cid: &Cid,
    limits: &Limits,
    touches: &mut Steps<L>,
) -> Result<Entry, AdoptFault>
    requires profile { IsTrue (is_profile p.now) }
    ensures says { ByGoodBlocks S.X.block32 (S.seen store.old).told (λ held. Adopts S.X.block32 N.name64 p.now held
        limits.now (S.seen store.new).told cid.now result) }
    ensures apart { TellsStoreApart result }
    ensures refused { SavesNone result (S.seen store.old).told (S.seen store.new).told }
    ensures cause { Shown S.X.block32 NoneIsBad (adopt_fault result) (S.seen store.old) (S.seen store.new) }
    ensures good { KeepsGood S.X.block32 (S.seen store.old).told (S.seen store.new).told }
    ensures saves { SavesOnly S.X.block32 (S.seen store.old).told (S.seen store.new).told }
    ensures no_other { ByGoodBlocks S.X.block32 (S.seen store.old).told (λ held. SavesOfTree S.X.block32 N.name64 p.now
        (denotes held limits.now cid.now) (S.seen store.old).told (S.seen store.new).told) }
    ensures touched { OnOk result (touches.old ≤ touches.new) }
{
    survey(alloc, store, cid, limits, touches)?;
    adopt_surveyed::<S, N, L>(alloc, store, p, cid, limits, touches)
}

/// The same of a CID that `survey` was called for, which isn't done again.
pub fn adopt_surveyed<S: Store, N: NameHash, L: Ledger>(
    alloc: Global,
    store: &mut S,
    p: &Profile,
    cid: &Cid,
    limits: &Limits,
    touches: &mut Steps<L>,
) -> Result<Entry, AdoptFault>
    requires profile { IsTrue (is_profile p.now) }
    ensures builds { (held : Lookup) (t : Tree) → HoldsGoodMap S.X.block32 held (S.seen store.old).told
        → denotes held limits.now cid.now ≡ Ok t
        → BuildsTree S.X.block32 N.name64 p.now held limits.now (S.seen store.new).told cid.now t result }
    ensures apart { TellsStoreApart result }
    ensures cause { Shown S.X.block32 NoneIsBad (adopt_fault result) (S.seen store.old) (S.seen store.new) }
    ensures good { KeepsGood S.X.block32 (S.seen store.old).told (S.seen store.new).told }
    ensures saves { SavesOnly S.X.block32 (S.seen store.old).told (S.seen store.new).told }
    ensures no_other { (held : Lookup) (t : Tree) → HoldsGoodMap S.X.block32 held (S.seen store.old).told
        → denotes held limits.now cid.now ≡ Ok t → SavesAmong S.X.block32 (blocks_of S.X.block32 N.name64 p.now t)
        (S.seen store.old).told (S.seen store.new).told }
    ensures touched { OnOk result (touches.old ≤ touches.new) }
{
    let room = u64::from(limits.depth) + 1;
    adopt_within::<S, N, L>(alloc, store, p, cid, limits, room, touches)
}
