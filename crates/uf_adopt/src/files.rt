//! One file adopted.
ghost use Rattle.std.specs.Prelude.{◌≡◌, ◌≤◌, ◌+◌, ◌++◌, List, ℕ, [], false, IsTrue, Ok, OnOk};
ghost use Rattle.uf_build.specs.Building.{HasFed, SavesForFront, saved_by};
ghost use Rattle.uf_cid.specs.Blocks.{Lookup};
ghost use Rattle.uf_cid.specs.declared.cid.Cid.{Cid as TheCid};
ghost use Rattle.uf_lenient.specs.declared.shapes.Limits.{Limits as TheLimits};
ghost use Rattle.uf_lenient.specs.Reading.{file_of};
ghost use Rattle.uf_lenient.specs.Steps.{start_of};
ghost use Rattle.uf_store.specs.Among.{SavesAmong};
ghost use Rattle.uf_tree.specs.FilePlan.{file_plan};
ghost use Rattle.uf_tree.specs.Metas.{is_meta};
ghost use Rattle.uf_tree.specs.Profiles.{is_profile};
ghost use Rattle.uf_adopt.specs.Faults.{OnlyAdopts};
ghost use Rattle.uf_adopt.specs.Feeding.{AdoptsFile, FeedsAll, FeedsOne, HasFront, HoldsGoodMap, WasFed};

use crate::AdoptFault;
use std::alloc::Global;
use std::sync::ledger::Ledger;
use uf_build::{BuildFault, Builder};
use uf_cid::{Cid, slices_hold_bytes};
use uf_lenient::{Limits, Pieces};
use uf_store::{Steps, Store};
use uf_tree::{Entry, Meta, Profile};

// Builds the file that a CID denotes, with its metadata; one node of it is in memory at a time.
pub fn adopt_file<S: Store, L: Ledger>(
    alloc: Global,
    store: &mut S,
    p: &Profile,
    cid: &Cid,
    limits: &Limits,
    meta: &Meta,
    touches: &mut Steps<L>,
) -> Result<Entry, AdoptFault>
    requires profile { IsTrue (is_profile p.now) }
    requires meta { IsTrue (is_meta meta.now) }
    ensures file { (held : Lookup) (bytes : List ℕ) → HoldsGoodMap S.X.block32 held (S.seen store.old).told
        → file_of held limits.now cid.now ≡ Ok bytes
        → AdoptsFile S.X.block32 p.now meta.now cid.now bytes (S.seen store.new).told result }
    ensures adopts { OnlyAdopts S.X.block32 result (S.seen store.old) (S.seen store.new) }
    ensures no_other { (held : Lookup) (bytes : List ℕ) → HoldsGoodMap S.X.block32 held (S.seen store.old).told
        → file_of held limits.now cid.now ≡ Ok bytes
        → SavesAmong S.X.block32 (file_plan S.X.block32 p.now meta.now bytes).blocks
        (S.seen store.old).told (S.seen store.new).told }
    ensures touched { OnOk result (touches.old ≤ touches.new) }
{
    let mut builder = Builder::new(alloc, *p);
    let mut pieces = Pieces::new(alloc, cid, limits)?;
    feed_all(store, cid, &mut pieces, &mut builder, touches)?;
    close(store, builder, meta, touches)
}

// Feeds the builder all pieces of the file whose first node has this CID.
fn feed_all<S: Store, L: Ledger>(
    store: &mut S,
    cid: &Cid,
    pieces: &mut Pieces,
    builder: &mut Builder,
    touches: &mut Steps<L>,
) -> Result<(), AdoptFault>
    requires not_spent { builder.old.is_spent ≡ false }
    ensures feeds { (held : Lookup) (limits : TheLimits) (bytes : List ℕ)
        → HoldsGoodMap S.X.block32 held (S.seen store.old).told → pieces.old ≡ start_of limits cid.now
        → file_of held limits cid.now ≡ Ok bytes → HasFront S.X.block32 (S.seen store.old).told [] builder.old
        → FeedsAll S.X.block32 cid.now bytes (S.seen store.new).told builder.new result }
    ensures profile { builder.new.profile ≡ builder.old.profile }
    ensures not_spent { OnOk result (builder.new.is_spent ≡ false) }
    ensures fed { OnOk result (WasFed S.X.block32 builder.old → WasFed S.X.block32 builder.new) }
    ensures adopts { OnlyAdopts S.X.block32 result (S.seen store.old) (S.seen store.new) }
    ensures no_other { (held : Lookup) (limits : TheLimits) (bytes : List ℕ)
        → HoldsGoodMap S.X.block32 held (S.seen store.old).told → pieces.old ≡ start_of limits cid.now
        → file_of held limits cid.now ≡ Ok bytes → HasFront S.X.block32 (S.seen store.old).told [] builder.old
        → SavesForFront S.X.block32 builder.old.profile bytes (S.seen store.old).told (S.seen store.new).told }
    ensures touched { OnOk result (touches.old + saved_by builder.new ≤ touches.new + saved_by builder.old) }
{
    while let Some(piece) = pieces.next(store, touches)? {
        feed_one(store, cid, builder, piece.as_slice(), touches)?;
    }
    Ok(())
}

// Feeds the builder one piece of the file whose first node has this CID.
fn feed_one<S: Store, L: Ledger>(
    store: &mut S,
    cid: &Cid,
    builder: &mut Builder,
    piece: &[u8],
    touches: &mut Steps<L>,
) -> Result<(), AdoptFault>
    requires not_spent { builder.old.is_spent ≡ false }
    ensures feeds { FeedsOne S.X.block32 cid.now piece.now (S.seen store.old).told (S.seen store.new).told
        builder.old builder.new result }
    ensures profile { builder.new.profile ≡ builder.old.profile }
    ensures not_spent { OnOk result (builder.new.is_spent ≡ false) }
    ensures fed { OnOk result (WasFed S.X.block32 builder.old → WasFed S.X.block32 builder.new) }
    ensures adopts { OnlyAdopts S.X.block32 result (S.seen store.old) (S.seen store.new) }
    ensures no_other { (front : List ℕ) → HasFed S.X.block32 front builder.old → SavesForFront S.X.block32
        builder.old.profile (front ++ piece.now) (S.seen store.old).told (S.seen store.new).told }
    ensures touches { OnOk result (touches.new + saved_by builder.old ≡ touches.old + saved_by builder.new) }
{
    slices_hold_bytes(piece);
    match builder.feed(store, piece, touches) {
        Ok(()) => Ok(()),
        Err(BuildFault::FileTooLong) => Err(AdoptFault::FileTooLong(*cid)),
        Err(BuildFault::Spent) => unreachable!(),
        Err(BuildFault::Store(fault)) => Err(AdoptFault::Store(fault)),
    }
}

// Saves what is left of the file that the builder was fed, with this metadata.
fn close<S: Store, L: Ledger>(
    store: &mut S,
    builder: Builder,
    meta: &Meta,
    touches: &mut Steps<L>,
) -> Result<Entry, AdoptFault>
    requires not_spent { builder.is_spent ≡ false }
    requires meta { IsTrue (is_meta meta.now) }
    ensures file { (c : TheCid) (bytes : List ℕ) → HasFront S.X.block32 (S.seen store.old).told bytes builder
        → AdoptsFile S.X.block32 builder.profile meta.now c bytes (S.seen store.new).told result }
    ensures adopts { OnlyAdopts S.X.block32 result (S.seen store.old) (S.seen store.new) }
    ensures no_other { (bytes : List ℕ) → HasFed S.X.block32 bytes builder → SavesAmong S.X.block32
        (file_plan S.X.block32 builder.profile meta.now bytes).blocks (S.seen store.old).told (S.seen store.new).told }
    ensures touched { OnOk result (WasFed S.X.block32 builder → touches.old ≤ touches.new + saved_by builder) }
{
    match builder.finish_with(meta, store, touches) {
        Ok(entry) => Ok(entry),
        Err(BuildFault::FileTooLong) => unreachable!(),
        Err(BuildFault::Spent) => unreachable!(),
        Err(BuildFault::Store(fault)) => Err(AdoptFault::Store(fault)),
    }
}
