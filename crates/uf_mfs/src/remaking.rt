//! The metadata of what is in the tree set.
ghost use Rattle.std.specs.Prelude.{◌≡◌, ◌+◌, ◌<◌, ◌≤◌, ◌^◌, IfOk, IfSome, IsTrue, Some};
ghost use Rattle.std.specs.declared.option.Option.{Option as TheOption};
ghost use Rattle.uf_cid.specs.declared.cid.Cid.{Cid as TheCid};
ghost use Rattle.uf_dir.specs.Roots.{IsRootCid};
ghost use Rattle.uf_plain.specs.Metas.{is_meta_edit, meta_edited, remade as remade_tree};
ghost use Rattle.uf_plain.specs.declared.meta_edit.MetaEdit.TheVariants.{Mode, Modified, Strip};
ghost use Rattle.uf_store.specs.Calls.{OnlySaves};
ghost use Rattle.uf_store.specs.Keeping.{KeepsGood};
ghost use Rattle.uf_store.specs.Writing.{SavesOnly};
ghost use Rattle.uf_tree.specs.Metas.{is_meta, is_mtime};
ghost use Rattle.uf_tree.specs.Profiles.{is_profile};
ghost use Rattle.uf_tree.specs.declared.nodes.Entry.{Entry as TheEntry};
ghost use Rattle.uf_mfs.specs.Bad.{IsRequired};
ghost use Rattle.uf_mfs.specs.Remade.{CalmMember, CalmThing, ChangesMember, ChangesMeta, GivesRemade, IsBadRemadeIn};
ghost use Rattle.uf_mfs.specs.Standing.{IsMfs};
ghost use Rattle.uf_mfs.specs.Steps.{EditsAgreed, EditsWhole, stop_fault};
ghost use Rattle.uf_mfs.specs.declared.thing.FolderRoot.{FolderRoot};
ghost use Rattle.uf_mfs.specs.declared.thing.Thing.TheVariants.{Folder};
ghost use Rattle.uf_mfs.specs.Over.{LeavesMember, LeavesThing, StaysWhere};
ghost use Rattle.uf_mfs.specs.Showing.{CallCounts, KeepsMfs, MakesRootCid};
ghost use Rattle.uf_mfs.specs.Showing.{SavesRemade, ShowsRemake, StepCounts};
ghost use Rattle.uf_mfs.specs.Touches.{TouchesNames};
ghost use Rattle.uf_mfs.specs.Saving.{SavesForEdit, SavesMember, SavesThing, next_blocks, remade_blocks};
ghost use Rattle.uf_plain.specs.Metas.{with_meta};
ghost use Rattle.uf_tree.specs.TreePlan.{blocks};

use crate::editing::{Act, EditSite};
use crate::measuring::stat_of;
use crate::writing::good;
use crate::{Mfs, MfsFault, Stop, Thing};
use std::alloc::Global;
use std::sync::ledger::Ledger;
use uf_message::Mtime;
use uf_murmur::NameHash;
use uf_path::Path;
use uf_plain::{MetaEdit, Refused, meta_after};
use uf_store::{Steps, Store};
use uf_tree::{Entry, Meta, Profile};

impl Mfs {
    /// Gives what is at a path these permissions, the low twelve bits of its mode; its other bits stay.
    pub fn set_mode<S: Store, N: NameHash, L: Ledger>(
        &mut self,
        alloc: Global,
        store: &mut S,
        path: &Path,
        mode: u32,
        touches: &mut Steps<L>,
    ) -> Result<(), MfsFault>
        requires mfs { IsMfs self.old }
        requires mode { mode < 4096 }
        ensures answer { EditsWhole S.X.block32 N.name64 (S.seen store.old) (S.seen store.new) self.old self.new
            path.now.names (meta_edited (Mode mode)) result }
        ensures lost { EditsAgreed S.X.block32 N.name64 (S.seen store.old) (S.seen store.new) self.old self.new
            path.now.names (meta_edited (Mode mode)) result }
        ensures idle { StaysWhere S.X.block32 N.name64 (S.seen store.old) (S.seen store.new) self.old self.new
            path.now.names (λ t. remade_tree (Mode mode) t ≡ t) }
        ensures stays { KeepsMfs self.old self.new result }
        ensures cause { ShowsRemake S.X.block32 N.name64 self.old result (S.seen store.old) (S.seen store.new) }
        ensures good { KeepsGood S.X.block32 (S.seen store.old).told (S.seen store.new).told }
        ensures saves { SavesOnly S.X.block32 (S.seen store.old).told (S.seen store.new).told }
        ensures no_other { SavesForEdit S.X.block32 N.name64 (S.seen store.old) (S.seen store.new) self.old
            (λ p es. next_blocks S.X.block32 N.name64 p (meta_edited (Mode mode) path.now.names es)) }
        ensures touches { TouchesNames S.X.block32 N.name64 (S.seen store.old) (S.seen store.new) self.old
            path.now.names touches.old touches.new }
        ensures touched { CallCounts result touches.old touches.new }
    {
        self.remake::<S, N, L>(alloc, store, path, MetaEdit::Mode(mode), touches)
    }

    /// Gives what is at a path this mtime.
    pub fn set_mtime<S: Store, N: NameHash, L: Ledger>(
        &mut self,
        alloc: Global,
        store: &mut S,
        path: &Path,
        mtime: &Mtime,
        touches: &mut Steps<L>,
    ) -> Result<(), MfsFault>
        requires mfs { IsMfs self.old }
        requires mtime { IsTrue (is_mtime (Some mtime.now)) }
        ensures answer { EditsWhole S.X.block32 N.name64 (S.seen store.old) (S.seen store.new) self.old self.new
            path.now.names (meta_edited (Modified mtime.now)) result }
        ensures lost { EditsAgreed S.X.block32 N.name64 (S.seen store.old) (S.seen store.new) self.old self.new
            path.now.names (meta_edited (Modified mtime.now)) result }
        ensures idle { StaysWhere S.X.block32 N.name64 (S.seen store.old) (S.seen store.new) self.old self.new
            path.now.names (λ t. remade_tree (Modified mtime.now) t ≡ t) }
        ensures stays { KeepsMfs self.old self.new result }
        ensures cause { ShowsRemake S.X.block32 N.name64 self.old result (S.seen store.old) (S.seen store.new) }
        ensures good { KeepsGood S.X.block32 (S.seen store.old).told (S.seen store.new).told }
        ensures saves { SavesOnly S.X.block32 (S.seen store.old).told (S.seen store.new).told }
        ensures no_other { SavesForEdit S.X.block32 N.name64 (S.seen store.old) (S.seen store.new) self.old
            (λ p es. next_blocks S.X.block32 N.name64 p (meta_edited (Modified mtime.now) path.now.names es)) }
        ensures touches { TouchesNames S.X.block32 N.name64 (S.seen store.old) (S.seen store.new) self.old
            path.now.names touches.old touches.new }
        ensures touched { CallCounts result touches.old touches.new }
    {
        self.remake::<S, N, L>(alloc, store, path, MetaEdit::Modified(*mtime), touches)
    }

    /// Takes the mode and the mtime away from what is at a path.
    pub fn strip<S: Store, N: NameHash, L: Ledger>(
        &mut self,
        alloc: Global,
        store: &mut S,
        path: &Path,
        touches: &mut Steps<L>,
    ) -> Result<(), MfsFault>
        requires mfs { IsMfs self.old }
        ensures answer { EditsWhole S.X.block32 N.name64 (S.seen store.old) (S.seen store.new) self.old self.new
            path.now.names (meta_edited Strip) result }
        ensures lost { EditsAgreed S.X.block32 N.name64 (S.seen store.old) (S.seen store.new) self.old self.new
            path.now.names (meta_edited Strip) result }
        ensures idle { StaysWhere S.X.block32 N.name64 (S.seen store.old) (S.seen store.new) self.old self.new
            path.now.names (λ t. remade_tree Strip t ≡ t) }
        ensures stays { KeepsMfs self.old self.new result }
        ensures cause { ShowsRemake S.X.block32 N.name64 self.old result (S.seen store.old) (S.seen store.new) }
        ensures good { KeepsGood S.X.block32 (S.seen store.old).told (S.seen store.new).told }
        ensures saves { SavesOnly S.X.block32 (S.seen store.old).told (S.seen store.new).told }
        ensures no_other { SavesForEdit S.X.block32 N.name64 (S.seen store.old) (S.seen store.new) self.old
            (λ p es. next_blocks S.X.block32 N.name64 p (meta_edited Strip path.now.names es)) }
        ensures touches { TouchesNames S.X.block32 N.name64 (S.seen store.old) (S.seen store.new) self.old
            path.now.names touches.old touches.new }
        ensures touched { CallCounts result touches.old touches.new }
    {
        self.remake::<S, N, L>(alloc, store, path, MetaEdit::Strip, touches)
    }

    // Changes the metadata of what is at a path; where nothing changes, nothing is written.
    fn remake<S: Store, N: NameHash, L: Ledger>(
        &mut self,
        alloc: Global,
        store: &mut S,
        path: &Path,
        what: MetaEdit,
        touches: &mut Steps<L>,
    ) -> Result<(), MfsFault>
        requires mfs { IsMfs self.old }
        requires edit { IsTrue (is_meta_edit what) }
        ensures answer { EditsWhole S.X.block32 N.name64 (S.seen store.old) (S.seen store.new) self.old self.new
            path.now.names (meta_edited what) result }
        ensures lost { EditsAgreed S.X.block32 N.name64 (S.seen store.old) (S.seen store.new) self.old self.new
            path.now.names (meta_edited what) result }
        ensures idle { StaysWhere S.X.block32 N.name64 (S.seen store.old) (S.seen store.new) self.old self.new
            path.now.names (λ t. remade_tree what t ≡ t) }
        ensures stays { KeepsMfs self.old self.new result }
        ensures cause { ShowsRemake S.X.block32 N.name64 self.old result (S.seen store.old) (S.seen store.new) }
        ensures good { KeepsGood S.X.block32 (S.seen store.old).told (S.seen store.new).told }
        ensures saves { SavesOnly S.X.block32 (S.seen store.old).told (S.seen store.new).told }
        ensures no_other { SavesForEdit S.X.block32 N.name64 (S.seen store.old) (S.seen store.new) self.old
            (λ p es. next_blocks S.X.block32 N.name64 p (meta_edited what path.now.names es)) }
        ensures touches { TouchesNames S.X.block32 N.name64 (S.seen store.old) (S.seen store.new) self.old
            path.now.names touches.old touches.new }
        ensures touched { CallCounts result touches.old touches.new }
    {
        let names = path.names.as_slice();
        let what = Act::Remake(what);
        let edited = self.edited_root::<S, N, L>(alloc, store, what, &[], names, touches);
        self.take_over(alloc, names, edited)
    }
}

// The entry of what was found under a name, with its metadata changed; none where nothing changes.
pub(crate) fn change_member_meta<S: Store, N: NameHash, L: Ledger>(
    alloc: Global,
    store: &mut S,
    site: &EditSite,
    what: MetaEdit,
    found: Option<Thing>,
    touches: &mut Steps<L>,
) -> Result<Option<Entry>, Stop>
    requires profile { IsTrue (is_profile site.now.profile) }
    requires few { site.now.led + 1 < 2 ^ 64 }
    requires edit { IsTrue (is_meta_edit what) }
    ensures gives { CalmMember S.X.block32 N.name64 site.now.profile (S.seen store.old) (S.seen store.new) found
        (λ was is o. ChangesMember S.X.block32 N.name64 site.now.profile was is what (site.now.led + 1) o result) }
    ensures idle { LeavesMember S.X.block32 N.name64 (S.seen store.old) (S.seen store.new) found
        (λ t. remade_tree what t ≡ t) result }
    ensures saves { (root : TheCid) → IfSome found (IsRequired S.X.block32 root) → OnlySaves S.X.block32
        (IsBadRemadeIn S.X.block32 N.name64 site.now.profile root) (stop_fault result)
        (S.seen store.old) (S.seen store.new) }
    ensures no_other { SavesMember S.X.block32 N.name64 (S.seen store.old) (S.seen store.new) site.now.profile found
        (remade_blocks S.X.block32 N.name64 site.now.profile what) }
    ensures touches { touches.new ≤ touches.old + 3 }
    ensures touched { StepCounts result touches.old touches.new }
{
    match found {
        None => Err(Stop::Refused(Refused::NotFound(site.led + 1))),
        Some(thing) => change_meta::<S, N, L>(alloc, store, &site.profile, what, thing, touches),
    }
}

/// The entry of this thing with its metadata changed; none where nothing changes.
pub(crate) fn change_meta<S: Store, N: NameHash, L: Ledger>(
    alloc: Global,
    store: &mut S,
    p: &Profile,
    what: MetaEdit,
    thing: Thing,
    touches: &mut Steps<L>,
) -> Result<Option<Entry>, Stop>
    requires profile { IsTrue (is_profile p.now) }
    requires edit { IsTrue (is_meta_edit what) }
    ensures gives { CalmThing S.X.block32 N.name64 p.now (S.seen store.old) (S.seen store.new) thing
        (λ was is t. ChangesMeta S.X.block32 N.name64 p.now was is what t result) }
    ensures idle { LeavesThing S.X.block32 N.name64 (S.seen store.old) (S.seen store.new) thing
        (λ t. remade_tree what t ≡ t) result }
    ensures made { (e : TheEntry) (seen : TheOption FolderRoot) → thing ≡ Folder e seen → MakesRootCid S.X.block32
        p.now result }
    ensures saves { SavesRemade S.X.block32 N.name64 p.now thing result (S.seen store.old) (S.seen store.new) }
    ensures no_other { SavesThing S.X.block32 N.name64 (S.seen store.old) (S.seen store.new) p.now thing
        (λ t. blocks S.X.block32 N.name64 p.now (remade_tree what t)) }
    ensures touches { touches.new ≤ touches.old + 3 }
    ensures touched { StepCounts result touches.old touches.new }
{
    let stat = stat_of::<S, N, L>(alloc, store, thing, touches)?;
    let meta = meta_after(what, &good(stat.meta));
    if stat.meta == meta {
        return Ok(None);
    }
    let new = set_thing_meta::<S, N, L>(alloc, store, p, thing, &meta, touches)?;
    Ok(Some(new))
}

// The entry of this thing with this metadata.
fn set_thing_meta<S: Store, N: NameHash, L: Ledger>(
    alloc: Global,
    store: &mut S,
    p: &Profile,
    thing: Thing,
    meta: &Meta,
    touches: &mut Steps<L>,
) -> Result<Entry, Stop>
    requires profile { IsTrue (is_profile p.now) }
    requires meta { IsTrue (is_meta meta.now) }
    ensures gives { CalmThing S.X.block32 N.name64 p.now (S.seen store.old) (S.seen store.new) thing
        (λ was is t. GivesRemade S.X.block32 N.name64 p.now was is meta.now t result) }
    ensures saves { SavesRemade S.X.block32 N.name64 p.now thing result (S.seen store.old) (S.seen store.new) }
    ensures no_other { SavesThing S.X.block32 N.name64 (S.seen store.old) (S.seen store.new) p.now thing
        (λ t. blocks S.X.block32 N.name64 p.now (with_meta meta.now t)) }
    ensures made { (e : TheEntry) (seen : TheOption FolderRoot) → thing ≡ Folder e seen
        → IfOk result (λ new. IsRootCid S.X.block32 (Some p.now) new.cid) }
    ensures touches { touches.new ≤ touches.old + 2 }
    ensures touched { StepCounts result touches.old touches.new }
{
    match thing {
        Thing::File(entry, _) => {
            let new = uf_fileedit::set_meta(alloc, store, &entry, meta, touches)?;
            Ok(new)
        }
        Thing::Folder(entry, _) => {
            let new = uf_dir::set_meta(alloc, store, p, &entry, meta, touches)?;
            Ok(new)
        }
    }
}
