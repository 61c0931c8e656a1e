//! Files of the tree written into and cut.
ghost use Rattle.std.specs.Prelude.{◌≡◌, ◌≢◌, ◌+◌, ◌<◌, ◌≤◌, ◌^◌, [], ℕ, Err};
ghost use Rattle.std.specs.Prelude.{IsTrue, length};
ghost use Rattle.uf_build.specs.declared.fault.BuildFault.TheVariants as built;
ghost use Rattle.uf_cid.specs.declared.cid.Cid.{Cid as TheCid};
ghost use Rattle.uf_plain.specs.declared.file.FileEdit.TheVariants.{Truncate, Write};
ghost use Rattle.uf_plain.specs.Edits.{edited};
ghost use Rattle.uf_plain.specs.Files.{begun, truncated};
ghost use Rattle.uf_plain.specs.Files.{written};
ghost use Rattle.uf_store.specs.Calls.{OnlySaves};
ghost use Rattle.uf_store.specs.Keeping.{KeepsGood};
ghost use Rattle.uf_store.specs.Writing.{SavesOnly};
ghost use Rattle.uf_tree.specs.Metas.{is_meta};
ghost use Rattle.uf_tree.specs.Profiles.{is_profile};
ghost use Rattle.uf_mfs.specs.Answers.{Decides};
ghost use Rattle.uf_mfs.specs.Reading.{AreHeights};
ghost use Rattle.uf_mfs.specs.Standing.{IsMfs};
ghost use Rattle.uf_mfs.specs.Steps.{EditsAgreed, EditsWhole, stop_fault};
ghost use Rattle.uf_mfs.specs.Writes.{CreatesFile, IsBadInSome, IsStart, IsStepOf, MakesMember};
ghost use Rattle.uf_mfs.specs.Writes.{RewritesFile, SavesEdited, TouchesFile, TouchesMember, TouchesWriting};
ghost use Rattle.uf_mfs.specs.Writes.{leaves_found};
ghost use Rattle.uf_mfs.specs.Writes.{rewriting_touches};
ghost use Rattle.uf_mfs.specs.Over.{OfMember, WritesNoByte};
ghost use Rattle.uf_mfs.specs.Showing.{CallCounts, KeepsMfs, ShowsWriting, StepCounts};
ghost use Rattle.uf_mfs.specs.Saving.{SavesCreated, SavesForEdit, SavesNewFile, SavesRewritten, next_blocks};
ghost use Rattle.uf_mfs.specs.Writes.{fitting_edit};

use crate::editing::{Act, EditSite};
use crate::{Mfs, MfsFault, Stop, Thing};
use std::alloc::Global;
use std::sync::ledger::Ledger;
use uf_build::BuildFault;
use uf_cid::slices_hold_bytes;
use uf_fileedit::{create, truncate, write_at};
use uf_murmur::NameHash;
use uf_path::Path;
use uf_plain::{FileEdit, Refused, WriteHow};
use uf_store::{Steps, Store};
use uf_tree::{Entry, Meta};

/// What an edit of a file begins with: a file that is there, or no bytes, the metadata that stays, and a write.
#[derive(Clone, Copy, PartialEq, Eq)]
pub(crate) enum Start {
    There(Entry),
    Empty(Meta, WriteHow),
}

impl Mfs {
    /// Lays a piece over the bytes of a file from an offset on. A file that isn't there is created, and one that is
    /// there is emptied first, where that is asked for. A piece of no bytes leaves the bytes of a file as they are.
    pub fn write<S: Store, N: NameHash, L: Ledger>(
        &mut self,
        alloc: Global,
        store: &mut S,
        path: &Path,
        how: &WriteHow,
        piece: &[u8],
        touches: &mut Steps<L>,
    ) -> Result<(), MfsFault>
        requires mfs { IsMfs self.old }
        ensures answer { EditsWhole S.X.block32 N.name64 (S.seen store.old) (S.seen store.new) self.old self.new
            path.now.names (written how.now piece.now) result }
        ensures lost { EditsAgreed S.X.block32 N.name64 (S.seen store.old) (S.seen store.new) self.old self.new
            path.now.names (written how.now piece.now) result }
        ensures idle { WritesNoByte S.X.block32 N.name64 (S.seen store.old) (S.seen store.new) self.old self.new
            how.now piece.now path.now.names }
        ensures stays { KeepsMfs self.old self.new result }
        ensures cause { ShowsWriting S.X.block32 N.name64 self.old result (S.seen store.old) (S.seen store.new) }
        ensures good { KeepsGood S.X.block32 (S.seen store.old).told (S.seen store.new).told }
        ensures saves { SavesOnly S.X.block32 (S.seen store.old).told (S.seen store.new).told }
        ensures no_other { SavesForEdit S.X.block32 N.name64 (S.seen store.old) (S.seen store.new) self.old
            (λ p es. next_blocks S.X.block32 N.name64 p (fitting_edit p (Write how.now) piece.now path.now.names es)) }
        ensures touches { TouchesWriting S.X.block32 N.name64 (S.seen store.old) (S.seen store.new) self.old
            (Write how.now) piece.now path.now.names touches.old touches.new }
        ensures touched { CallCounts result touches.old touches.new }
    {
        let names = path.names.as_slice();
        let what = Act::Rewrite(FileEdit::Write(*how));
        let edited = self.edited_root::<S, N, L>(alloc, store, what, piece, names, touches);
        self.take_over(alloc, names, edited)
    }

    /// Cuts a file to a length, or fills it with zeros up to it.
    pub fn truncate<S: Store, N: NameHash, L: Ledger>(
        &mut self,
        alloc: Global,
        store: &mut S,
        path: &Path,
        length: u64,
        touches: &mut Steps<L>,
    ) -> Result<(), MfsFault>
        requires mfs { IsMfs self.old }
        ensures answer { EditsWhole S.X.block32 N.name64 (S.seen store.old) (S.seen store.new) self.old self.new
            path.now.names (truncated length) result }
        ensures lost { EditsAgreed S.X.block32 N.name64 (S.seen store.old) (S.seen store.new) self.old self.new
            path.now.names (truncated length) result }
        ensures stays { KeepsMfs self.old self.new result }
        ensures cause { ShowsWriting S.X.block32 N.name64 self.old result (S.seen store.old) (S.seen store.new) }
        ensures good { KeepsGood S.X.block32 (S.seen store.old).told (S.seen store.new).told }
        ensures saves { SavesOnly S.X.block32 (S.seen store.old).told (S.seen store.new).told }
        ensures no_other { SavesForEdit S.X.block32 N.name64 (S.seen store.old) (S.seen store.new) self.old
            (λ p es. next_blocks S.X.block32 N.name64 p (fitting_edit p (Truncate length) [] path.now.names es)) }
        ensures touches { TouchesWriting S.X.block32 N.name64 (S.seen store.old) (S.seen store.new) self.old
            (Truncate length) [] path.now.names touches.old touches.new }
        ensures touched { CallCounts result touches.old touches.new }
    {
        let names = path.names.as_slice();
        let what = Act::Rewrite(FileEdit::Truncate(length));
        let edited = self.edited_root::<S, N, L>(alloc, store, what, &[], names, touches);
        self.take_over(alloc, names, edited)
    }
}

/// Whether an edit leaves the bytes of what was found under its name.
pub(crate) fn leaves(what: FileEdit, piece: &[u8], found: Option<Thing>) -> bool
    ensures { result ≡ leaves_found what piece.now found }
{
    match (what, found) {
        (FileEdit::Write(how), Some(Thing::File(_, _))) => piece.is_empty() && !how.cut,
        _ => false,
    }
}

/// The entry of the file that an edit makes of what was found under its name.
pub(crate) fn new_file<S: Store, L: Ledger>(
    alloc: Global,
    store: &mut S,
    site: &EditSite,
    what: FileEdit,
    found: Option<Thing>,
    touches: &mut Steps<L>,
) -> Result<Entry, Stop>
    requires profile { IsTrue (is_profile site.now.profile) }
    requires few { site.now.led + 1 < 2 ^ 64 }
    ensures gives { MakesMember S.X.block32 (S.seen store.old) (S.seen store.new) site.now what found result }
    ensures saves { OnlySaves S.X.block32 (IsBadInSome S.X.block32 site.now.profile (S.seen store.new).told)
        (stop_fault result) (S.seen store.old) (S.seen store.new) }
    ensures no_other { SavesNewFile S.X.block32 (S.seen store.old) (S.seen store.new) site.now what found }
    ensures touches { TouchesMember S.X.block32 (S.seen store.old) (S.seen store.new) site.now what found touches.old
        touches.new }
    ensures touched { StepCounts result touches.old touches.new }
{
    let start = start_of(what, site.led + 1, found)?;
    match start {
        Start::There(old) => rewritten_file(alloc, store, site, what, &old, touches),
        Start::Empty(meta, how) => created_file(alloc, store, site, how, &good(meta), touches),
    }
}

/// This metadata, where it is good: that of a file or a folder is.
pub(crate) fn good(meta: Meta) -> Meta
    ensures good { IsTrue (is_meta result) }
    ensures same { IsTrue (is_meta meta) → result ≡ meta }
{
    if meta.is_good() { meta } else { Meta::none() }
}

// What an edit of a file begins with, by what was found under its name.
fn start_of(what: FileEdit, led: usize, found: Option<Thing>) -> Result<Start, Refused>
    ensures { OfMember found (λ X N told p o. Decides (λ bytes start. IsStart X N told p what o bytes start)
        (begun what led o) result) }
{
    match (what, found) {
        (FileEdit::Write(how), None) if how.create => Ok(Start::Empty(Meta::none(), how)),
        (_, None) => Err(Refused::NotFound(led)),
        (_, Some(Thing::Folder(_, _))) => Err(Refused::IsADirectory(led)),
        (FileEdit::Write(how), Some(Thing::File(_, it))) if how.cut => {
            Ok(Start::Empty(it.meta, how))
        }
        (_, Some(Thing::File(entry, _))) => Ok(Start::There(entry)),
    }
}

// The entry of the file of this metadata that a write makes of no bytes.
fn created_file<S: Store, L: Ledger>(
    alloc: Global,
    store: &mut S,
    site: &EditSite,
    how: WriteHow,
    meta: &Meta,
    touches: &mut Steps<L>,
) -> Result<Entry, Stop>
    requires profile { IsTrue (is_profile site.now.profile) }
    requires good { IsTrue (is_meta meta.now) }
    ensures gives { CreatesFile S.X.block32 (S.seen store.old) (S.seen store.new) site.now how meta.now result }
    ensures saves { (root : TheCid) → SavesEdited S.X.block32 site.now.profile root result (S.seen store.old)
        (S.seen store.new) }
    ensures no_other { SavesCreated S.X.block32 (S.seen store.old).told (S.seen store.new).told site.now how meta.now }
    ensures touches { (rows : ℕ → ℕ) → AreHeights site.now.profile rows → touches.new ≤ touches.old
        + rewriting_touches site.now.profile rows (Write how) site.now.piece.now meta.now [] }
    ensures touched { StepCounts result touches.old touches.new }
{
    slices_hold_bytes(site.piece);
    let p = &site.profile;
    as_step(create(alloc, store, p, meta, how.offset, site.piece, touches))
}

// The entry of the file that an edit makes of this one.
fn rewritten_file<S: Store, L: Ledger>(
    alloc: Global,
    store: &mut S,
    site: &EditSite,
    what: FileEdit,
    old: &Entry,
    touches: &mut Steps<L>,
) -> Result<Entry, Stop>
    requires profile { IsTrue (is_profile site.now.profile) }
    ensures gives { RewritesFile S.X.block32 (S.seen store.old) (S.seen store.new) site.now what old.now result }
    ensures saves { SavesEdited S.X.block32 site.now.profile old.now.cid result (S.seen store.old) (S.seen store.new) }
    ensures no_other { SavesRewritten S.X.block32 (S.seen store.old) (S.seen store.new) site.now what old.now }
    ensures touches { TouchesFile S.X.block32 (S.seen store.old) (S.seen store.new) site.now what old.now touches.old
        touches.new }
    ensures touched { StepCounts result touches.old touches.new }
{
    slices_hold_bytes(site.piece);
    let p = &site.profile;
    match what {
        FileEdit::Write(how) => {
            as_step(write_at(alloc, store, p, old, how.offset, site.piece, touches))
        }
        FileEdit::Truncate(size) => as_step(truncate(alloc, store, p, old, size, touches)),
    }
}

// The answer of an edit of a file as that of a step.
fn as_step(edited: Result<Entry, BuildFault>) -> Result<Entry, Stop>
    requires spent { edited ≢ Err built.Spent }
    ensures { IsStepOf edited result }
{
    match edited {
        Ok(entry) => Ok(entry),
        Err(BuildFault::FileTooLong) => Err(Stop::Refused(Refused::FileTooLong)),
        Err(BuildFault::Spent) => unreachable!(),
        Err(BuildFault::Store(fault)) => Err(Stop::Store(fault)),
    }
}
