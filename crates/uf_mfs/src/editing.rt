//! An edit along a path: each folder on it gets the new entry of the one below.
ghost use Rattle.std.specs.Prelude.{◌≡◌, ◌≢◌, ◌+◌, ◌<◌, ◌≤◌, ◌^◌, [], ◌∷◌, IfOk, IfSome};
ghost use Rattle.std.specs.Prelude.{IsTrue, None, Ok, Some, length};
ghost use Rattle.uf_tree.specs.declared.profile.Profile.{Profile as TheProfile};
ghost use Rattle.uf_tree.specs.Metas.{none};
ghost use Rattle.uf_tree.specs.Names.{is_name};
ghost use Rattle.uf_tree.specs.Profiles.{is_profile};
ghost use Rattle.uf_tree.specs.Tree.{Dir, Nothing};
ghost use Rattle.uf_mfs.specs.Acts.{ActsAlong, ActsHere, LeavesThere, LeavesTree, MissesAlong};
ghost use Rattle.uf_mfs.specs.Acts.{MissesHere, SavesActing, TouchesAlong, TouchesActing};
ghost use Rattle.uf_mfs.specs.Acts.{is_act, may_act};
ghost use Rattle.uf_mfs.specs.Answers.{Decides};
ghost use Rattle.uf_mfs.specs.Bad.{IsBadInTree, IsRequired, RequiresDirectory};
ghost use Rattle.uf_mfs.specs.Missing.{FolderMisses};
ghost use Rattle.uf_mfs.specs.Moving.{folder_there};
ghost use Rattle.uf_store.specs.Calls.{OnlySaves};
ghost use Rattle.uf_plain.specs.Edits.{as_folder, child, made_all};
ghost use Rattle.uf_plain.specs.Edits.{or_new, with_child};
ghost use Rattle.uf_plain.specs.Needs.{own_needs};
ghost use Rattle.uf_mfs.specs.Standing.{IsAgreed};
ghost use Rattle.uf_mfs.specs.Steps.{ChangesFolder, ChangesPut, GivesFolder, TakesMember};
ghost use Rattle.uf_mfs.specs.Steps.{IsOpened, changed_below, opened, stop_fault};
ghost use Rattle.uf_mfs.specs.Touches.{TouchesFolder, TouchesMaking, TouchesPut, putting_bound, taking_bound};
ghost use Rattle.uf_mfs.specs.Over.{FillsNothing, LeavesMember, OfMember, OverFolder};
ghost use Rattle.uf_mfs.specs.Showing.{MakesRootCid, SavesInTree, StepCounts};
ghost use Rattle.uf_mfs.specs.Saving.{SavesAlong, SavesFolder, SavesHere, SavesPut, next_blocks, opened_blocks};
ghost use Rattle.uf_mfs.specs.Saving.{taken_blocks};
ghost use Rattle.uf_tree.specs.TreePlan.{blocks};

use crate::looking::member;
use crate::remaking::change_member_meta;
use crate::writing::{leaves, new_file};
use crate::{Stop, Thing};
use std::alloc::Global;
use std::sync::ledger::Ledger;
use uf_dir::{empty, put, remove};
use uf_murmur::NameHash;
use uf_plain::{Change, FileEdit, MetaEdit, Refused};
use uf_store::{Steps, Store};
use uf_tree::{Entry, Name, Profile};

/// What is done in the folder that all names but the last lead to: a member is changed, or the bytes of a file, or the
/// metadata of a file or a directory.
#[derive(Clone, Copy, PartialEq, Eq)]
pub(crate) enum Act {
    Change(Change),
    Rewrite(FileEdit),
    Remake(MetaEdit),
}

/// An edit on its way: how blocks are made, what is done, with which piece, and how many names led here.
#[derive(Clone, Copy, PartialEq, Eq)]
pub(crate) struct EditSite<'a> {
    pub profile: Profile,
    pub what: Act,
    pub piece: &'a [u8],
    pub led: usize,
}

/// Edits the folder that all names but the last lead to from this one, and answers the entry of this folder then, or
/// none where the folder stays as it is. It calls itself once a name, and a path has at most 2048 names
/// (`Path::parse`).
pub(crate) fn edit<S: Store, N: NameHash, L: Ledger>(
    alloc: Global,
    store: &mut S,
    site: &EditSite,
    name: &Name,
    rest: &[Name],
    folder: &Entry,
    touches: &mut Steps<L>,
) -> Result<Option<Entry>, Stop>
    requires profile { IsTrue (is_profile site.now.profile) }
    requires few { site.now.led + length rest.now + 1 < 2 ^ 64 }
    requires act { IsTrue (is_act site.now.what) }
    ensures edits { ActsAlong S.X.block32 N.name64 (S.seen store.old) (S.seen store.new) site.now folder.now name.now
        rest.now result }
    ensures idle { LeavesThere S.X.block32 N.name64 (S.seen store.old) (S.seen store.new) folder.now site.now.led
        (name.now ∷ rest.now) site.now.what site.now.piece.now (IfOk result (λ new. new ≡ None)) }
    ensures made { MakesRootCid S.X.block32 site.now.profile result }
    ensures saves { SavesActing S.X.block32 N.name64 (S.seen store.old) (S.seen store.new) site.now folder.now result }
    ensures no_other { SavesAlong S.X.block32 N.name64 (S.seen store.old) (S.seen store.new) site.now folder.now
        name.now rest.now }
    ensures touches { TouchesAlong S.X.block32 N.name64 (S.seen store.old) (S.seen store.new) site.now folder.now
        name.now rest.now touches.old touches.new }
    ensures missing { MissesAlong S.X.block32 N.name64 (S.seen store.old) (S.seen store.new) site.now folder.now
        (name.now ∷ rest.now) result }
    ensures touched { StepCounts result touches.old touches.new }
{
    let found = member::<S, N, L>(alloc, store, folder, name, touches)?;
    let [next, more @ ..] = rest else {
        return edit_here::<S, N, L>(alloc, store, site, name, folder, found, touches);
    };
    let below = folder_of(site.led + 1, found)?;
    let under = EditSite {
        led: site.led + 1,
        ..*site
    };
    let Some(entry) = edit::<S, N, L>(alloc, store, &under, next, more, &below, touches)? else {
        return Ok(None);
    };
    put_in::<S, N, L>(alloc, store, &site.profile, folder, name, &entry, touches)
}

/// Makes each folder that is missing along the names from this folder, and answers the entry of this folder then, or
/// none where each is there. It calls itself once a name, as `edit`.
pub(crate) fn fill<S: Store, N: NameHash, L: Ledger>(
    alloc: Global,
    store: &mut S,
    profile: &Profile,
    led: usize,
    names: &[Name],
    folder: &Entry,
    touches: &mut Steps<L>,
) -> Result<Option<Entry>, Stop>
    requires profile { IsTrue (is_profile profile.now) }
    requires few { led + length names.now < 2 ^ 64 }
    ensures fills { ChangesFolder S.X.block32 N.name64 profile.now (S.seen store.old) (S.seen store.new) [] folder.now
        (made_all led names.now) result }
    ensures there { FillsNothing S.X.block32 N.name64 (S.seen store.old) (S.seen store.new) profile.now folder.now led
        names.now result }
    ensures saves { SavesInTree S.X.block32 N.name64 profile.now folder.now.cid result (S.seen store.old)
        (S.seen store.new) }
    ensures no_other { SavesFolder S.X.block32 N.name64 (S.seen store.old) (S.seen store.new) profile.now [] folder.now
        (λ es. next_blocks S.X.block32 N.name64 profile.now (made_all led names.now es)) }
    ensures touches { TouchesMaking S.X.block32 N.name64 profile.now (S.seen store.old) (S.seen store.new) folder.now
        names.now (made_all led) touches.old touches.new }
    ensures touched { StepCounts result touches.old touches.new }
{
    let [name, rest @ ..] = names else {
        return Ok(None);
    };
    let start = open_or_make::<S, N, L>(alloc, store, led + 1, name, folder, touches)?;
    let filled = fill::<S, N, L>(alloc, store, profile, led + 1, rest, &start.0, touches)?;
    let Some(below) = below_of(start, filled) else {
        return Ok(None);
    };
    put_in::<S, N, L>(alloc, store, profile, folder, name, &below, touches)
}

// The folder below, where it is new or was changed.
fn below_of(start: (Entry, bool), filled: Option<Entry>) -> Option<Entry>
    ensures { result ≡ changed_below start filled }
{
    match filled {
        Some(below) => Some(below),
        None => { if start.1 { Some(start.0) } else { None } }
    }
}

// The folder of a name, and a new one where the name isn't there; says whether it is new.
fn open_or_make<S: Store, N: NameHash, L: Ledger>(
    alloc: Global,
    store: &mut S,
    led: usize,
    name: &Name,
    folder: &Entry,
    touches: &mut Steps<L>,
) -> Result<(Entry, bool), Stop>
    ensures opens { (p : TheProfile)
        → GivesFolder S.X.block32 N.name64 p (S.seen store.old) (S.seen store.new) [] folder.now
        (λ es. or_new led (child name.now es)) (opened result) }
    ensures found { OverFolder S.X.block32 N.name64 (S.seen store.old) (S.seen store.new) folder.now
        (λ p es. IfOk result (λ found. IsOpened S.X.block32 N.name64 (S.seen store.new).told p (child name.now es)
        found)) }
    ensures there { OverFolder S.X.block32 N.name64 (S.seen store.old) (S.seen store.new) folder.now
        (λ p es. child name.now es ≢ None → (S.seen store.new).told ≡ (S.seen store.old).told) }
    ensures saves { OnlySaves S.X.block32 (IsBadInTree S.X.block32 N.name64 None folder.now.cid)
        (stop_fault result) (S.seen store.old) (S.seen store.new) }
    ensures no_other { (p : TheProfile) → SavesFolder S.X.block32 N.name64 (S.seen store.old) (S.seen store.new) p []
        folder.now (λ es. opened_blocks S.X.block32 N.name64 p (child name.now es)) }
    ensures required { IfOk result (λ found. RequiresDirectory S.X.block32 folder.now.cid found.0.cid.digest) }
    ensures touches { touches.new ≤ touches.old + 12 }
    ensures touched { StepCounts result touches.old touches.new }
{
    match member::<S, N, L>(alloc, store, folder, name, touches)? {
        None => {
            let new = empty(alloc, store, touches)?;
            Ok((new, true))
        }
        Some(Thing::File(_, _)) => Err(Stop::Refused(Refused::NotADirectory(led))),
        Some(Thing::Folder(entry, _)) => Ok((entry, false)),
    }
}

/// The entry of a member that has to be a folder.
pub(crate) fn folder_of(led: usize, found: Option<Thing>) -> Result<Entry, Refused>
    ensures decides { OfMember found (λ X N told p o. Decides (λ es e. IsAgreed X N told p e (Dir es))
        (as_folder led o) result) }
    ensures folder { IfOk result (λ e. folder_there found ≡ Some e) }
{
    match found {
        None => Err(Refused::NotFound(led)),
        Some(Thing::File(_, _)) => Err(Refused::NotADirectory(led)),
        Some(Thing::Folder(entry, _)) => Ok(entry),
    }
}

// Edits this folder, whose member of the name was found; none where the folder stays as it is.
fn edit_here<S: Store, N: NameHash, L: Ledger>(
    alloc: Global,
    store: &mut S,
    site: &EditSite,
    name: &Name,
    folder: &Entry,
    found: Option<Thing>,
    touches: &mut Steps<L>,
) -> Result<Option<Entry>, Stop>
    requires profile { IsTrue (is_profile site.now.profile) }
    requires few { site.now.led + 1 < 2 ^ 64 }
    requires act { IsTrue (is_act site.now.what) }
    requires required { IfSome found (IsRequired S.X.block32 folder.now.cid) }
    ensures edits { ActsHere S.X.block32 N.name64 (S.seen store.old) (S.seen store.new) site.now folder.now name.now
        found result }
    ensures idle { LeavesMember S.X.block32 N.name64 (S.seen store.old) (S.seen store.new) found
        (LeavesTree site.now.what site.now.piece.now) result }
    ensures made { MakesRootCid S.X.block32 site.now.profile result }
    ensures saves { SavesActing S.X.block32 N.name64 (S.seen store.old) (S.seen store.new) site.now folder.now result }
    ensures no_other { SavesHere S.X.block32 N.name64 (S.seen store.old) (S.seen store.new) site.now folder.now name.now
        found }
    ensures touches { TouchesActing S.X.block32 N.name64 (S.seen store.old) (S.seen store.new) site.now folder.now
        name.now found touches.old touches.new }
    ensures missing { MissesHere S.X.block32 N.name64 (S.seen store.old) (S.seen store.new) site.now folder.now
        result }
    ensures touched { StepCounts result touches.old touches.new }
{
    let led = site.led + 1;
    let p = &site.profile;
    may(site.what, led, found)?;
    match site.what {
        Act::Change(Change::Make) => { make_in::<S, N, L>(alloc, store, p, folder, name, touches) }
        Act::Change(Change::Put(new)) => {
            put_in::<S, N, L>(alloc, store, p, folder, name, &new, touches)
        }
        Act::Change(Change::Remove(_)) => {
            take_out::<S, N, L>(alloc, store, p, led, folder, name, touches)
        }
        Act::Rewrite(what) => {
            if leaves(what, site.piece, found) {
                return Ok(None);
            }
            let new = new_file::<S, L>(alloc, store, site, what, found, touches)?;
            put_in::<S, N, L>(alloc, store, p, folder, name, &new, touches)
        }
        Act::Remake(what) => {
            let Some(new) = change_member_meta::<S, N, L>(alloc, store, site, what, found, touches)?
            else {
                return Ok(None);
            };
            put_in::<S, N, L>(alloc, store, p, folder, name, &new, touches)
        }
    }
}

// Whether an edit may be done, by what was found under its name.
fn may(what: Act, led: usize, found: Option<Thing>) -> Result<(), Refused>
    ensures { OfMember found (λ X N told p o. Decides (λ a b. Unit {0}) (may_act what led o) result) }
{
    match (what, found) {
        (Act::Change(Change::Make), Some(_)) => Err(Refused::Exists(led)),
        (Act::Change(Change::Remove(_)), None) => Err(Refused::NotFound(led)),
        (Act::Change(Change::Remove(false)), Some(Thing::Folder(_, _))) => {
            Err(Refused::NeedsRecursive(led))
        }
        _ => Ok(()),
    }
}

// Makes an empty folder in this one.
fn make_in<S: Store, N: NameHash, L: Ledger>(
    alloc: Global,
    store: &mut S,
    profile: &Profile,
    folder: &Entry,
    name: &Name,
    touches: &mut Steps<L>,
) -> Result<Option<Entry>, Stop>
    requires profile { IsTrue (is_profile profile.now) }
    ensures edits { ChangesFolder S.X.block32 N.name64 profile.now (S.seen store.old) (S.seen store.new) [] folder.now
        (λ es. Ok (with_child name.now (Dir (Nothing none)) es)) result }
    ensures made { MakesRootCid S.X.block32 profile.now result }
    ensures saves { SavesInTree S.X.block32 N.name64 profile.now folder.now.cid result (S.seen store.old)
        (S.seen store.new) }
    ensures no_other { SavesFolder S.X.block32 N.name64 (S.seen store.old) (S.seen store.new) profile.now [] folder.now
        (λ es. blocks S.X.block32 N.name64 profile.now (Dir (with_child name.now (Dir (Nothing none)) es))) }
    ensures touches { TouchesFolder S.X.block32 N.name64 profile.now (S.seen store.old) (S.seen store.new) []
        folder.now (putting_bound S.X.block32 N.name64 profile.now 18 name.now (Dir (Nothing none))) touches.old
        touches.new }
    ensures touched { StepCounts result touches.old touches.new }
{
    let new = empty(alloc, store, touches)?;
    put_in::<S, N, L>(alloc, store, profile, folder, name, &new, touches)
}

// Puts an entry into this folder.
fn put_in<S: Store, N: NameHash, L: Ledger>(
    alloc: Global,
    store: &mut S,
    profile: &Profile,
    folder: &Entry,
    name: &Name,
    entry: &Entry,
    touches: &mut Steps<L>,
) -> Result<Option<Entry>, Stop>
    requires profile { IsTrue (is_profile profile.now) }
    ensures edits { ChangesPut S.X.block32 N.name64 profile.now (S.seen store.old) (S.seen store.new) entry.now
        folder.now (λ t es. Ok (with_child name.now t es)) result }
    ensures made { MakesRootCid S.X.block32 profile.now result }
    ensures saves { SavesInTree S.X.block32 N.name64 profile.now folder.now.cid result (S.seen store.old)
        (S.seen store.new) }
    ensures no_other { SavesPut S.X.block32 N.name64 (S.seen store.old) (S.seen store.new) profile.now entry.now
        folder.now (λ t es. blocks S.X.block32 N.name64 profile.now (Dir (with_child name.now t es))) }
    ensures touches { TouchesPut S.X.block32 N.name64 profile.now (S.seen store.old) (S.seen store.new) entry.now
        folder.now (putting_bound S.X.block32 N.name64 profile.now 17 name.now) touches.old touches.new }
    ensures missing { FolderMisses S.X.block32 N.name64 profile.now (S.seen store.old) (S.seen store.new) folder.now
        (own_needs S.X.block32 N.name64 profile.now) (stop_fault result) }
    ensures touched { StepCounts result touches.old touches.new }
{
    names_are_good(name);
    let new = put::<S, N, L>(alloc, store, profile, &folder.cid, name, entry, touches)?;
    Ok(Some(new))
}

// Takes a member out of this folder.
fn take_out<S: Store, N: NameHash, L: Ledger>(
    alloc: Global,
    store: &mut S,
    profile: &Profile,
    led: usize,
    folder: &Entry,
    name: &Name,
    touches: &mut Steps<L>,
) -> Result<Option<Entry>, Stop>
    requires profile { IsTrue (is_profile profile.now) }
    ensures edits { TakesMember S.X.block32 N.name64 profile.now (S.seen store.old) (S.seen store.new) folder.now
        name.now result }
    ensures made { MakesRootCid S.X.block32 profile.now result }
    ensures saves { SavesInTree S.X.block32 N.name64 profile.now folder.now.cid result (S.seen store.old)
        (S.seen store.new) }
    ensures no_other { SavesFolder S.X.block32 N.name64 (S.seen store.old) (S.seen store.new) profile.now [] folder.now
        (taken_blocks S.X.block32 N.name64 profile.now (name.now ∷ [])) }
    ensures touches { TouchesFolder S.X.block32 N.name64 profile.now (S.seen store.old) (S.seen store.new) []
        folder.now (taking_bound S.X.block32 N.name64 profile.now name.now) touches.old touches.new }
    ensures touched { StepCounts result touches.old touches.new }
{
    let taken = remove::<S, N, L>(alloc, store, profile, &folder.cid, name, touches)?;
    match taken {
        None => Err(Stop::Refused(Refused::NotFound(led))),
        Some(new) => Ok(Some(new)),
    }
}

// A name is good, and text.
fn names_are_good(name: &Name)
    ensures { IsTrue (is_name name.now) }
{
    name.as_str();
}
