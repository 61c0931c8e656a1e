//! `add`: the input as a file.
ghost use Rattle.std.specs.Prelude.{◌≡◌, ◌<◌, List, ℕ, false, true, None, IfOk, IfSome, IsTrue, OnErr, OnOk};
ghost use Rattle.uf_edge.specs.Counts.{Counts};
ghost use Rattle.uf_mfs.specs.Standing.{LeavesHead};
ghost use Rattle.uf_store.specs.Contents.{changed, with_sync};
ghost use Rattle.uf_store.specs.Keeping.{KeepsGood};
ghost use Rattle.uf_tree.specs.Profiles.{is_profile};
ghost use Rattle.uf_command.specs.Natures.{SyncsBlocks};
ghost use Rattle.uf_top.specs.Causes.{IsProfileRead, OnlyWants, ReadsProfile, Stops, is_read, or_usual as usual_or};
ghost use Rattle.uf_top.specs.Intake.{AddsFile, GivesEntry, IsRowOf, ShownIn};
ghost use Rattle.uf_top.specs.Lent.{OverInput};
ghost use Rattle.uf_top.specs.Shapes.{WritesAs, is_ok};
ghost use Rattle.uf_top.specs.Working.{Makes};
ghost use Rattle.uf_command.specs.declared.types.Command.TheVariants as commands;
ghost use Rattle.uf_command.specs.declared.types.Adding.TheVariants as adding;

use crate::given::Given;
use std::alloc::Global;
use std::sync::ledger::Ledger;
use uf_build::{IntakeFault, file_of, hash_of};
use uf_cid::{Block, BlockHash};
use uf_command::{Refusal, added_row};
use uf_edge::{Put, Source};
use uf_mfs::Ready;
use uf_plain::Rule;
use uf_store::{Note, NoteRead, Steps, Store, StoreFault};
use uf_tree::{Entry, HeadFault, Profile, read_head};

// Adds the input, and makes its blocks durable.
pub fn add<S: Store, I: Source, L: Ledger>(
    alloc: Global,
    store: &mut S,
    input: &mut I,
    touches: &mut Steps<L>,
) -> Result<Block, Refusal>
    ensures { (N : List ℕ → ℕ) → OverInput I.Source (Makes S.X.block32 N (commands.Add (adding.Input false)) result)
        (S.seen store.old) input.old touches.old (S.seen store.new) input.new touches.new }
{
    match head_profile(alloc, store)? {
        None => Err(Refusal::Ready(Ready::NoHead)),
        Some(profile) => add_by(alloc, profile, store, input, touches),
    }
}

// The row of the input as a file, with nothing kept and no touch counted.
pub fn add_only_hash<S: Store, I: Source>(
    alloc: Global,
    store: &mut S,
    input: &mut I,
) -> Result<Block, Refusal>
    ensures { (N : List ℕ → ℕ) (touches : ℕ) → OverInput I.Source
        (Makes S.X.block32 N (commands.Add (adding.Input true)) result)
        (S.seen store.old) input.old touches (S.seen store.new) input.new touches }
{
    let found = head_profile(alloc, store)?;
    hash_by::<S::X, I>(alloc, or_usual(found), input)
}

// The profile that the Head says; none where there is no Head.
pub fn head_profile<S: Store>(alloc: Global, store: &mut S) -> Result<Option<Profile>, Refusal>
    ensures read { IsProfileRead result (S.seen store.old).told }
    ensures accepted { IfOk result (λ found. IfSome found (λ p. IsTrue (is_profile p))) }
    ensures cause { ShownIn S.X.block32 result (S.seen store.old) (S.seen store.new) }
    ensures told { (S.seen store.new).told ≡ (S.seen store.old).told }
{
    match store.read_note(Note::Head) {
        NoteRead::Text(text) => profile_of(alloc, text.as_slice()),
        NoteRead::Absent => Ok(None),
        NoteRead::Failed => Err(Refusal::Store(StoreFault::Failed)),
        NoteRead::Memory => Err(Refusal::Store(StoreFault::Memory)),
    }
}

// The profile that the text of a Head says.
fn profile_of(alloc: Global, text: &[u8]) -> Result<Option<Profile>, Refusal>
    ensures read { ReadsProfile result text.now }
    ensures accepted { IfOk result (λ found. IfSome found (λ p. IsTrue (is_profile p))) }
{
    match read_head(alloc, text) {
        Ok(head) => Ok(Some(head.profile)),
        Err(HeadFault::Memory) => Err(Refusal::Store(StoreFault::Memory)),
        Err(_) => Err(Refusal::Ready(Ready::BadHead)),
    }
}

// The profile that was found, or the usual one.
pub fn or_usual(found: Option<Profile>) -> Profile
    ensures { result ≡ usual_or found }
{
    match found {
        Some(profile) => profile,
        None => Profile::usual(),
    }
}

// Adds the input by a profile.
fn add_by<S: Store, I: Source, L: Ledger>(
    alloc: Global,
    profile: Profile,
    store: &mut S,
    input: &mut I,
    touches: &mut Steps<L>,
) -> Result<Block, Refusal>
    requires { IsTrue (is_profile profile) }
    ensures row { IsRowOf S.X.block32 profile (S.seen store.new).told result (I.left input.old) (I.left input.new) }
    ensures counts { Counts (is_read result) (I.faults input.old) (I.faults input.new) }
    ensures cause { ShownIn S.X.block32 result (S.seen store.old) (S.seen store.new) }
    ensures good { KeepsGood S.X.block32 (S.seen store.old).told (S.seen store.new).told }
    ensures writes { WritesAs S.X.block32 SyncsBlocks (is_ok result) (S.seen store.old).told (S.seen store.new).told }
    ensures no_other { AddsFile S.X.block32 profile (S.seen store.old).told (S.seen store.new).told
        (I.left input.old) }
{
    let given = file_given(alloc, file_of(alloc, profile, store, input, touches))?;
    synced(store, given.text)
}

// The entry of a file that was read and its row, or why there is none.
pub fn file_given(alloc: Global, answer: Result<Entry, IntakeFault>) -> Result<Given, Refusal>
    ensures { GivesEntry answer result }
{
    match answer {
        Ok(entry) => Ok(Given {
            entry,
            text: added_row(alloc, &entry.cid)?,
        }),
        Err(IntakeFault::Read) => Err(Refusal::Read),
        Err(IntakeFault::FileTooLong) => Err(Refusal::Rule(Rule::FileTooLong)),
        Err(IntakeFault::Store(fault)) => Err(Refusal::Store(fault)),
    }
}

// The row, once all that was saved is durable.
pub fn synced<S: Store>(store: &mut S, row: Block) -> Result<Block, Refusal>
    ensures row { IfOk result (λ text. text ≡ row) }
    ensures stopped { Stops result }
    ensures synced { OnOk result ((S.seen store.new).told ≡ changed with_sync (S.seen store.old).told) }
    ensures failed { OnErr result (LeavesHead (S.seen store.old).told (S.seen store.new).told) }
    ensures cause { ShownIn S.X.block32 result (S.seen store.old) (S.seen store.new) }
{
    match store.sync() {
        Put::Done => Ok(row),
        Put::Failed => Err(Refusal::Store(StoreFault::Failed)),
        Put::Memory => Err(Refusal::Store(StoreFault::Memory)),
    }
}

// The row of the input as a file by a profile, with nothing kept.
fn hash_by<X: BlockHash, I: Source>(
    alloc: Global,
    profile: Profile,
    input: &mut I,
) -> Result<Block, Refusal>
    requires { IsTrue (is_profile profile) }
    ensures row { IsRowOf X.block32 profile None result (I.left input.old) (I.left input.new) }
    ensures wants { OnlyWants result }
    ensures counts { Counts (is_read result) (I.faults input.old) (I.faults input.new) }
{
    let given = file_given(alloc, hash_of::<X, I>(alloc, profile, input))?;
    Ok(given.text)
}
