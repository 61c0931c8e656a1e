//! A source that is read as a file.
ghost use Rattle.std.specs.Prelude.{◌≡◌, ◌<◌, ◌++◌, List, ℕ, length, false, true, IfErr, IfOk, IsTrue, Ok, OnOk};
ghost use Rattle.uf_edge.specs.Counts.{Counts};
ghost use Rattle.uf_store.specs.Calls.{OnlySaves};
ghost use Rattle.uf_store.specs.Clashes.{IsSaving};
ghost use Rattle.uf_store.specs.Faults.{NoneIsBad, Shown, fault_in};
ghost use Rattle.uf_store.specs.Keeping.{KeepsGood};
ghost use Rattle.uf_store.specs.Writing.{SavesOnly};
ghost use Rattle.uf_store.specs.Among.{SavesAmong};
ghost use Rattle.uf_build.specs.Faults.{fails_reading, intake_fault};
ghost use Rattle.uf_build.specs.FeedingAll.{FeedsNext, FeedsPiece, FeedsRest, GrowsBy, IsClosed};
ghost use Rattle.uf_build.specs.Intake.{IsFileOf, SavesOfFile};
ghost use Rattle.uf_build.specs.Building.{HasFed, SavesForFront};
ghost use Rattle.uf_tree.specs.FilePlan.{file_plan};
ghost use Rattle.uf_tree.specs.Metas.{none};
ghost use Rattle.uf_tree.specs.Profiles.{is_profile};
ghost use Rattle.uf_tree.specs.declared.profile.Profile.{Profile as TheProfile};

use crate::{BuildFault, Builder, IntakeFault};
use std::alloc::Global;
use std::sync::ledger::Ledger;
use uf_cid::{slices_hold_bytes, zeros};
use uf_edge::{Filled, Source, fill};
use uf_store::{Steps, Store, StoreFault};
use uf_tree::{Entry, Profile};

// The bytes of a piece of a file by the usual profile.
const PIECE: usize = 262144;

// How many pieces are read at once: as many as are hashed side by side.
const GROUP: usize = 8;

/// The entry of the file that the source has, whose blocks are saved.
pub fn file_of<S: Store, I: Source, L: Ledger>(
    alloc: Global,
    profile: Profile,
    store: &mut S,
    input: &mut I,
    touches: &mut Steps<L>,
) -> Result<Entry, IntakeFault>
    requires { IsTrue (is_profile profile) }
    ensures file { IsFileOf S.X.block32 profile (S.seen store.new).told result (I.left input.old) (I.left input.new) }
    ensures counts { Counts (fails_reading result) (I.faults input.old) (I.faults input.new) }
    ensures cause { Shown S.X.block32 NoneIsBad (intake_fault result) (S.seen store.old) (S.seen store.new) }
    ensures good { KeepsGood S.X.block32 (S.seen store.old).told (S.seen store.new).told }
    ensures saves { SavesOnly S.X.block32 (S.seen store.old).told (S.seen store.new).told }
    ensures no_other { SavesOfFile S.X.block32 profile result (S.seen store.old).told (S.seen store.new).told
        (I.left input.old) (I.left input.new) }
{
    let mut builder = Builder::new(alloc, profile);
    feed_all(alloc, &mut builder, store, input, touches)?;
    Ok(close(builder, store, touches)?)
}

// The entry of what a builder was fed.
fn close<S: Store, L: Ledger>(
    builder: Builder,
    store: &mut S,
    touches: &mut Steps<L>,
) -> Result<Entry, StoreFault>
    requires { builder.is_spent ≡ false }
    ensures closes { IfOk result (λ entry.
        IsClosed S.X.block32 entry (S.seen store.old).told (S.seen store.new).told builder) }
    ensures fault { IfErr result IsSaving }
    ensures no_other { (bytes : List ℕ) → HasFed S.X.block32 bytes builder → SavesAmong S.X.block32
        (file_plan S.X.block32 builder.profile none bytes).blocks (S.seen store.old).told (S.seen store.new).told }
    ensures saves { OnlySaves S.X.block32 NoneIsBad (fault_in result) (S.seen store.old) (S.seen store.new) }
{
    match builder.finish(store, touches) {
        Ok(entry) => Ok(entry),
        Err(BuildFault::Store(fault)) => Err(fault),
        Err(BuildFault::FileTooLong | BuildFault::Spent) => unreachable!(),
    }
}

// Feeds a builder all that is left: one piece, so that a short input costs no more than that, and then groups of
// pieces.
fn feed_all<S: Store, I: Source, L: Ledger>(
    alloc: Global,
    builder: &mut Builder,
    store: &mut S,
    input: &mut I,
    touches: &mut Steps<L>,
) -> Result<(), IntakeFault>
    requires { builder.old.is_spent ≡ false }
    ensures feeds { (p : TheProfile) → FeedsRest S.X.block32 p result (S.seen store.old).told (S.seen store.new).told
        builder.old builder.new (I.left input.old) (I.left input.new) }
    ensures counts { Counts (fails_reading result) (I.faults input.old) (I.faults input.new) }
    ensures saves { OnlySaves S.X.block32 NoneIsBad (intake_fault result) (S.seen store.old) (S.seen store.new) }
{
    let mut piece = zeros(alloc, PIECE)?;
    if !feed_next(builder, store, input, &mut piece, touches)? {
        return Ok(());
    }
    let mut pieces = zeros(alloc, GROUP * PIECE)?;
    feed_rest(builder, store, input, &mut pieces, touches)
}

// Feeds a builder all that is left, as much at once as the buffer has room for.
fn feed_rest<S: Store, I: Source, L: Ledger>(
    builder: &mut Builder,
    store: &mut S,
    input: &mut I,
    buffer: &mut [u8],
    touches: &mut Steps<L>,
) -> Result<(), IntakeFault>
    requires some { 0 < length buffer.old }
    requires ready { builder.old.is_spent ≡ false }
    ensures feeds { (p : TheProfile) → FeedsRest S.X.block32 p result (S.seen store.old).told (S.seen store.new).told
        builder.old builder.new (I.left input.old) (I.left input.new) }
    ensures counts { Counts (fails_reading result) (I.faults input.old) (I.faults input.new) }
    ensures saves { OnlySaves S.X.block32 NoneIsBad (intake_fault result) (S.seen store.old) (S.seen store.new) }
{
    'pieces: loop {
        if !feed_next(builder, store, input, buffer, touches)? {
            return Ok(());
        }
    }
}

// Fills the buffer and feeds a builder what it has then: whether more may follow.
fn feed_next<S: Store, I: Source, L: Ledger>(
    builder: &mut Builder,
    store: &mut S,
    input: &mut I,
    buffer: &mut [u8],
    touches: &mut Steps<L>,
) -> Result<bool, IntakeFault>
    requires some { 0 < length buffer.old }
    requires ready { builder.old.is_spent ≡ false }
    ensures feeds { (p : TheProfile) → FeedsNext S.X.block32 p result (S.seen store.old).told (S.seen store.new).told
        builder.old builder.new (I.left input.old) (I.left input.new) }
    ensures grows { result ≡ Ok true → GrowsBy (length buffer.new) builder.old builder.new }
    ensures counts { Counts (fails_reading result) (I.faults input.old) (I.faults input.new) }
    ensures saves { OnlySaves S.X.block32 NoneIsBad (intake_fault result) (S.seen store.old) (S.seen store.new) }
{
    match fill(input, buffer) {
        Filled::Full => {
            feed_piece(builder, store, buffer, touches)?;
            Ok(true)
        }
        Filled::Ended(count) => {
            feed_piece(builder, store, &buffer[..count], touches)?;
            Ok(false)
        }
        Filled::Failed => Err(IntakeFault::Read),
    }
}

// Feeds a builder a piece.
fn feed_piece<S: Store, L: Ledger>(
    builder: &mut Builder,
    store: &mut S,
    piece: &[u8],
    touches: &mut Steps<L>,
) -> Result<(), IntakeFault>
    requires { builder.old.is_spent ≡ false }
    ensures feeds { (p : TheProfile) → FeedsPiece S.X.block32 p piece.now result (S.seen store.old).told
        (S.seen store.new).told builder.old builder.new }
    ensures count { OnOk result (GrowsBy (length piece.now) builder.old builder.new) }
    ensures reads { fails_reading result ≡ false }
    ensures no_other { (front : List ℕ) → HasFed S.X.block32 front builder.old → SavesForFront S.X.block32
        builder.old.profile (front ++ piece.now) (S.seen store.old).told (S.seen store.new).told }
    ensures saves { OnlySaves S.X.block32 NoneIsBad (intake_fault result) (S.seen store.old) (S.seen store.new) }
{
    slices_hold_bytes(piece);
    match builder.feed(store, piece, touches) {
        Ok(()) => Ok(()),
        Err(BuildFault::FileTooLong) => Err(IntakeFault::FileTooLong),
        Err(BuildFault::Spent) => unreachable!(),
        Err(BuildFault::Store(fault)) => Err(IntakeFault::Store(fault)),
    }
}
