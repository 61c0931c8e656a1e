//! Edits of the tree.
ghost use Rattle.std.specs.Prelude.{◌≡◌, ◌+◌, ◌≤◌, [], List, IfOk, IsTrue, None};
ghost use Rattle.uf_store.specs.Keeping.{KeepsGood};
ghost use Rattle.uf_store.specs.Writing.{SavesOnly};
ghost use Rattle.uf_tree.specs.Profiles.{is_profile};
ghost use Rattle.uf_cid.specs.Blocks.{Held};
ghost use Rattle.uf_mfs.specs.Acts.{ActsOnRoot, LeavesThere, LeavesTree, MissesRoot};
ghost use Rattle.uf_mfs.specs.Acts.{SavesActed, SavesActing, TouchesRoot};
ghost use Rattle.uf_mfs.specs.Acts.{acted_root, is_act, root_touches};
ghost use Rattle.uf_mfs.specs.Answers.{Settles};
ghost use Rattle.uf_mfs.specs.Bad.{RequiresDirectory};
ghost use Rattle.uf_mfs.specs.Missing.{IsPut};
ghost use Rattle.uf_plain.specs.Edits.{made, removed};
ghost use Rattle.uf_mfs.specs.Standing.{IsMfs};
ghost use Rattle.uf_mfs.specs.Steps.{ChangesFolder, EditsAgreed, EditsFolder, EditsWhole};
ghost use Rattle.uf_mfs.specs.Steps.{MovesTree, MovesWhole, entry_or, stop_fault};
ghost use Rattle.uf_mfs.specs.Over.{LeavesRoot, MakesNothing};
ghost use Rattle.uf_mfs.specs.Showing.{CallCounts, KeepsMfs, MakesRootCid};
ghost use Rattle.uf_mfs.specs.Showing.{SavesInTree, ShowsEdit, StepCounts};
ghost use Rattle.uf_mfs.specs.Touches.{TouchesBy, TouchesEdit, TouchesMaking, removal_bound};
ghost use Rattle.uf_mfs.specs.Saving.{SavesFolder, SavesForEdit, SavesOnRoot, next_blocks, removed_blocks};

use crate::editing::{Act, EditSite, edit, fill};
use crate::remaking::change_meta;
use crate::telling::fault_of;
use crate::{Mfs, MfsFault, Stop, Thing};
use std::alloc::Global;
use std::sync::ledger::Ledger;
use uf_murmur::NameHash;
use uf_path::Path;
use uf_plain::{Change, Refused};
use uf_store::{Steps, Store};
use uf_tree::{Entry, Name};

impl Mfs {
    /// Makes an empty directory: at the last name of the path, or with `parents` at each name that is missing.
    pub fn mkdir<S: Store, N: NameHash, L: Ledger>(
        &mut self,
        alloc: Global,
        store: &mut S,
        path: &Path,
        parents: bool,
        touches: &mut Steps<L>,
    ) -> Result<(), MfsFault>
        requires mfs { IsMfs self.old }
        ensures answer { EditsWhole S.X.block32 N.name64 (S.seen store.old) (S.seen store.new) self.old self.new
            path.now.names (made parents) result }
        ensures lost { EditsAgreed S.X.block32 N.name64 (S.seen store.old) (S.seen store.new) self.old self.new
            path.now.names (made parents) result }
        ensures there { MakesNothing S.X.block32 N.name64 (S.seen store.old) (S.seen store.new) self.old parents
            path.now.names (self.new ≡ self.old) }
        ensures stays { KeepsMfs self.old self.new result }
        ensures cause { ShowsEdit S.X.block32 N.name64 self.old result (S.seen store.old) (S.seen store.new) }
        ensures good { KeepsGood S.X.block32 (S.seen store.old).told (S.seen store.new).told }
        ensures saves { SavesOnly S.X.block32 (S.seen store.old).told (S.seen store.new).told }
        ensures no_other { SavesForEdit S.X.block32 N.name64 (S.seen store.old) (S.seen store.new) self.old
            (λ p es. next_blocks S.X.block32 N.name64 p (made parents path.now.names es)) }
        ensures touches { TouchesEdit S.X.block32 N.name64 (S.seen store.old) (S.seen store.new) self.old
            path.now.names (made parents) touches.old touches.new }
        ensures touched { CallCounts result touches.old touches.new }
    {
        let names = path.names.as_slice();
        let edited = self.root_with_dirs::<S, N, L>(alloc, store, names, parents, touches);
        self.take_over(alloc, names, edited)
    }

    /// Takes away what the path leads to; a directory only where that is recursive.
    pub fn rm<S: Store, N: NameHash, L: Ledger>(
        &mut self,
        alloc: Global,
        store: &mut S,
        path: &Path,
        recursive: bool,
        touches: &mut Steps<L>,
    ) -> Result<(), MfsFault>
        requires mfs { IsMfs self.old }
        ensures answer { MovesWhole S.X.block32 N.name64 (S.seen store.old) (S.seen store.new) self.old self.new
            path.now.names (λ p es. removed recursive path.now.names es) result }
        ensures lost { MovesTree S.X.block32 N.name64 (S.seen store.old) (S.seen store.new) [] self.old self.new
            path.now.names (λ p es. removed recursive path.now.names es) result }
        ensures stays { KeepsMfs self.old self.new result }
        ensures cause { ShowsEdit S.X.block32 N.name64 self.old result (S.seen store.old) (S.seen store.new) }
        ensures good { KeepsGood S.X.block32 (S.seen store.old).told (S.seen store.new).told }
        ensures saves { SavesOnly S.X.block32 (S.seen store.old).told (S.seen store.new).told }
        ensures no_other { SavesForEdit S.X.block32 N.name64 (S.seen store.old) (S.seen store.new) self.old
            (λ p es. removed_blocks S.X.block32 N.name64 p recursive path.now.names es) }
        ensures touches { TouchesBy S.X.block32 N.name64 (S.seen store.old) (S.seen store.new) self.old
            (λ p es. removal_bound S.X.block32 N.name64 p path.now.names es (removed recursive path.now.names es))
            touches.old touches.new }
        ensures touched { CallCounts result touches.old touches.new }
    {
        let names = path.names.as_slice();
        let what = Act::Change(Change::Remove(recursive));
        let edited = self.edited_root::<S, N, L>(alloc, store, what, &[], names, touches);
        self.take_over(alloc, names, edited)
    }

    // Takes over the root that an edit answers; where it stopped, the root stays, and the fault is reported with these
    // names.
    pub(crate) fn take_over(
        &mut self,
        alloc: Global,
        names: &[Name],
        edited: Result<Entry, Stop>,
    ) -> Result<(), MfsFault>
        requires mfs { IsMfs self.old }
        ensures settles { Settles names.now edited self.old self.new result }
        ensures stays { KeepsMfs self.old self.new result }
    {
        match edited {
            Err(stop) => Err(fault_of(alloc, names, stop)),
            Ok(root) => {
                self.root = root;
                Ok(())
            }
        }
    }

    // The root with an empty folder at the names, or with `parents` at each name that is missing.
    fn root_with_dirs<S: Store, N: NameHash, L: Ledger>(
        &self,
        alloc: Global,
        store: &mut S,
        names: &[Name],
        parents: bool,
        touches: &mut Steps<L>,
    ) -> Result<Entry, Stop>
        requires mfs { IsMfs self.now }
        ensures edits { EditsFolder S.X.block32 N.name64 self.now.profile (S.seen store.old) (S.seen store.new) []
            self.now.root (made parents names.now) result }
        ensures there { MakesNothing S.X.block32 N.name64 (S.seen store.old) (S.seen store.new) self.now parents
            names.now (IfOk result (λ e. e ≡ self.now.root)) }
        ensures saves { SavesInTree S.X.block32 N.name64 self.now.profile self.now.root.cid result (S.seen store.old)
            (S.seen store.new) }
        ensures no_other { SavesFolder S.X.block32 N.name64 (S.seen store.old) (S.seen store.new) self.now.profile []
            self.now.root (λ es. next_blocks S.X.block32 N.name64 self.now.profile (made parents names.now es)) }
        ensures touches { TouchesMaking S.X.block32 N.name64 self.now.profile (S.seen store.old) (S.seen store.new)
            self.now.root names.now (made parents) touches.old touches.new }
        ensures touched { StepCounts result touches.old touches.new }
    {
        if parents {
            let root = &self.root;
            or_same(
                root,
                fill::<S, N, L>(alloc, store, &self.profile, 0, names, root, touches),
            )
        } else {
            let what = Act::Change(Change::Make);
            self.edited_root::<S, N, L>(alloc, store, what, &[], names, touches)
        }
    }

    /// The root after an edit at the names; it is the same where nothing changes.
    pub(crate) fn edited_root<S: Store, N: NameHash, L: Ledger>(
        &self,
        alloc: Global,
        store: &mut S,
        what: Act,
        piece: &[u8],
        names: &[Name],
        touches: &mut Steps<L>,
    ) -> Result<Entry, Stop>
        requires mfs { IsMfs self.now }
        requires act { IsTrue (is_act what) }
        ensures edits { ActsOnRoot S.X.block32 N.name64 (S.seen store.old) (S.seen store.new) self.now what piece.now
            names.now result }
        ensures idle { LeavesThere S.X.block32 N.name64 (S.seen store.old) (S.seen store.new) self.now.root 0 names.now
            what piece.now (IfOk result (λ e. e ≡ self.now.root)) }
        ensures made { IfOk result (λ e. RequiresDirectory S.X.block32 self.now.root.cid e.cid.digest) }
        ensures saves { SavesActed S.X.block32 N.name64 self.now.profile (S.seen store.old) (S.seen store.new) what
            self.now.root.cid result }
        ensures no_other { SavesOnRoot S.X.block32 N.name64 (S.seen store.old) (S.seen store.new) self.now what
            piece.now names.now }
        ensures touches { TouchesRoot S.X.block32 N.name64 (S.seen store.old) (S.seen store.new) self.now what
            piece.now names.now touches.old touches.new }
        ensures missing { MissesRoot S.X.block32 N.name64 (S.seen store.old) (S.seen store.new) self.now what names.now
            result }
        ensures touched { StepCounts result touches.old touches.new }
    {
        let site = EditSite {
            profile: self.profile,
            what,
            piece,
            led: 0,
        };
        let root = &self.root;
        match names {
            [] => or_same(
                root,
                edit_root::<S, N, L>(alloc, store, &site, root, touches),
            ),
            [name, rest @ ..] => {
                or_same(
                    root,
                    edit::<S, N, L>(alloc, store, &site, name, rest, root, touches),
                )
            }
        }
    }
}

// Edits the root itself, of which only the metadata can be changed; none where it stays as it is.
fn edit_root<S: Store, N: NameHash, L: Ledger>(
    alloc: Global,
    store: &mut S,
    site: &EditSite,
    root: &Entry,
    touches: &mut Steps<L>,
) -> Result<Option<Entry>, Stop>
    requires profile { IsTrue (is_profile site.now.profile) }
    requires act { IsTrue (is_act site.now.what) }
    ensures edits { (more : List Held)
        → ChangesFolder S.X.block32 N.name64 site.now.profile (S.seen store.old) (S.seen store.new) more root.now
        (acted_root site.now.what) result }
    ensures idle { LeavesRoot S.X.block32 N.name64 (S.seen store.old) (S.seen store.new) root.now
        (LeavesTree site.now.what site.now.piece.now) result }
    ensures made { MakesRootCid S.X.block32 site.now.profile result }
    ensures saves { SavesActing S.X.block32 N.name64 (S.seen store.old) (S.seen store.new) site.now root.now result }
    ensures no_other { SavesFolder S.X.block32 N.name64 (S.seen store.old) (S.seen store.new) site.now.profile []
        root.now (λ es. next_blocks S.X.block32 N.name64 site.now.profile (acted_root site.now.what es)) }
    ensures touches { touches.new ≤ touches.old + root_touches site.now.what }
    ensures missing { IsPut site.now.what → stop_fault result ≡ None }
    ensures touched { StepCounts result touches.old touches.new }
{
    match site.what {
        Act::Change(Change::Make) => Err(Stop::Refused(Refused::Exists(0))),
        Act::Change(Change::Put(_)) => Err(Stop::Refused(Refused::RootRefused)),
        Act::Change(Change::Remove(_)) => Err(Stop::Refused(Refused::RootRefused)),
        Act::Rewrite(_) => Err(Stop::Refused(Refused::IsADirectory(0))),
        Act::Remake(what) => {
            let thing = Thing::Folder(*root, None);
            change_meta::<S, N, L>(alloc, store, &site.profile, what, thing, touches)
        }
    }
}

// The root after an edit that answers none where it stays as it is.
fn or_same(root: &Entry, new: Result<Option<Entry>, Stop>) -> Result<Entry, Stop>
    ensures { result ≡ entry_or root.now new }
{
    Ok(new?.unwrap_or(*root))
}
