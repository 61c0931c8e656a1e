//! Copies and moves in the tree.
ghost use Rattle.std.specs.Prelude.{◌≡◌, ◌+◌, ◌*◌, [], IfOk, length};
ghost use Rattle.uf_store.specs.Keeping.{KeepsGood};
ghost use Rattle.uf_store.specs.Writing.{SavesOnly};
ghost use Rattle.uf_plain.specs.Moves.{carried, copied, edited_at, lie_of as lie_at};
ghost use Rattle.uf_plain.specs.Moves.{put_over, spot_names};
ghost use Rattle.uf_mfs.specs.Moving.{CarriesHeld, CarriesOver, CarriesRoot, IsInside, IsOntoItself, MovesFound};
ghost use Rattle.uf_mfs.specs.Moving.{MovesToSpot, TouchesCopy, TouchesFound, TouchesMove, TouchesToSpot};
ghost use Rattle.uf_mfs.specs.Moving.{entry_in};
ghost use Rattle.uf_mfs.specs.Moving.{put_crossings, replaces};
ghost use Rattle.uf_plain.specs.declared.spot.Lie.TheVariants.{Itself};
ghost use Rattle.uf_mfs.specs.Standing.{IsMfs};
ghost use Rattle.uf_mfs.specs.Steps.{EditsPut, PlacesAgreed, PlacesWhole, stop_fault, tree_fault};
ghost use Rattle.uf_mfs.specs.Missing.{PutMisses};
ghost use Rattle.uf_mfs.specs.Over.{StaysOver};
ghost use Rattle.uf_mfs.specs.Showing.{CallCounts, KeepsMfs, SavesInTree};
ghost use Rattle.uf_mfs.specs.Showing.{SavesMoving, ShowsEdit, StepCounts};
ghost use Rattle.uf_mfs.specs.Touches.{TouchesPut, edit_bound};
ghost use Rattle.uf_mfs.specs.Saving.{SavesFolder, SavesForEdit, SavesForPut, SavesFound, SavesPut, SavesToSpot};
ghost use Rattle.uf_mfs.specs.Saving.{moved_blocks, next_blocks};

use crate::editing::Act;
use crate::looking::look;
use crate::spotting::{exists_at, target_of};
use crate::target::MoveTarget;
use crate::telling::fault_of;
use crate::{Mfs, MfsFault, Stop, Thing};
use std::alloc::Global;
use std::sync::ledger::Ledger;
use uf_murmur::NameHash;
use uf_path::Path;
use uf_plain::{Change, Lie, Rule, Spot, inside_rule, joined_names, lie_of};
use uf_store::{Steps, Store};
use uf_tree::{Entry, Name};

impl Mfs {
    /// Puts an entry at a spot, in the place of what is there.
    pub fn place<S: Store, N: NameHash, L: Ledger>(
        &mut self,
        alloc: Global,
        store: &mut S,
        spot: &Spot,
        entry: &Entry,
        touches: &mut Steps<L>,
    ) -> Result<(), MfsFault>
        requires mfs { IsMfs self.old }
        ensures answer { PlacesWhole S.X.block32 N.name64 (S.seen store.old) (S.seen store.new) self.old self.new
            entry.now spot.now result }
        ensures lost { PlacesAgreed S.X.block32 N.name64 (S.seen store.old) (S.seen store.new) self.old self.new
            entry.now spot.now result }
        ensures missing { PutMisses S.X.block32 N.name64 self.old.profile (S.seen store.old) (S.seen store.new)
            self.old.root (spot_names spot.now) (tree_fault result) }
        ensures stays { KeepsMfs self.old self.new result }
        ensures cause { ShowsEdit S.X.block32 N.name64 self.old result (S.seen store.old) (S.seen store.new) }
        ensures good { KeepsGood S.X.block32 (S.seen store.old).told (S.seen store.new).told }
        ensures saves { SavesOnly S.X.block32 (S.seen store.old).told (S.seen store.new).told }
        ensures no_other { SavesForPut S.X.block32 N.name64 (S.seen store.old) (S.seen store.new) self.old entry.now
            spot.now }
        ensures touches { TouchesPut S.X.block32 N.name64 self.old.profile (S.seen store.old) (S.seen store.new)
            entry.now self.old.root (λ t es. 40 * length (spot_names spot.now) + put_crossings S.X.block32 N.name64
            self.old.profile spot.now t es) touches.old touches.new }
        ensures touched { CallCounts result touches.old touches.new }
    {
        let list = joined_names(alloc, spot.folder.as_slice(), &spot.name)?;
        let names = list.as_slice();
        let edited = put_root::<S, N, L>(alloc, store, self, names, entry, touches);
        self.take_over(alloc, names, edited)
    }

    /// Copies what is at `source` to where `dest` says: its entry alone is put there, no block below it is copied.
    pub fn cp<S: Store, N: NameHash, L: Ledger>(
        &mut self,
        alloc: Global,
        store: &mut S,
        source: &Path,
        dest: &Path,
        touches: &mut Steps<L>,
    ) -> Result<(), MfsFault>
        requires mfs { IsMfs self.old }
        ensures answer { CarriesHeld S.X.block32 N.name64 (S.seen store.old) (S.seen store.new) self.old self.new
            (copied source.now.names dest.now) result }
        ensures lost { CarriesOver S.X.block32 N.name64 (S.seen store.old) (S.seen store.new) self.old self.new
            (copied source.now.names dest.now) result }
        ensures stays { KeepsMfs self.old self.new result }
        ensures cause { ShowsEdit S.X.block32 N.name64 self.old result (S.seen store.old) (S.seen store.new) }
        ensures good { KeepsGood S.X.block32 (S.seen store.old).told (S.seen store.new).told }
        ensures saves { SavesOnly S.X.block32 (S.seen store.old).told (S.seen store.new).told }
        ensures no_other { SavesForEdit S.X.block32 N.name64 (S.seen store.old) (S.seen store.new) self.old
            (λ p es. next_blocks S.X.block32 N.name64 p (copied source.now.names dest.now es)) }
        ensures touches { TouchesCopy S.X.block32 N.name64 (S.seen store.old) (S.seen store.new) self.old
            source.now.names dest.now touches.old touches.new }
        ensures touched { CallCounts result touches.old touches.new }
    {
        let names = source.names.as_slice();
        let root = Thing::Folder(self.root, None);
        match look::<S, N, L>(alloc, store, 0, names, root, touches) {
            Err(stop) => Err(fault_of(alloc, names, stop)),
            Ok(thing) => {
                let spot = self.spot::<S, N, L>(alloc, store, dest, names.last(), touches)?;
                self.place::<S, N, L>(alloc, store, &spot, &entry_of(thing), touches)
            }
        }
    }

    /// Moves what is at `source` to where `dest` says; a directory that is there is entered, and a file takes the
    /// place of a file. A move onto itself changes nothing.
    pub fn mv<S: Store, N: NameHash, L: Ledger>(
        &mut self,
        alloc: Global,
        store: &mut S,
        source: &Path,
        dest: &Path,
        touches: &mut Steps<L>,
    ) -> Result<(), MfsFault>
        requires mfs { IsMfs self.old }
        ensures answer { CarriesHeld S.X.block32 N.name64 (S.seen store.old) (S.seen store.new) self.old self.new
            (carried source.now.names dest.now) result }
        ensures lost { CarriesOver S.X.block32 N.name64 (S.seen store.old) (S.seen store.new) self.old self.new
            (carried source.now.names dest.now) result }
        ensures itself { StaysOver S.X.block32 N.name64 (S.seen store.old) (S.seen store.new) self.old
            (IsOntoItself source.now.names dest.now) (self.new ≡ self.old) }
        ensures stays { KeepsMfs self.old self.new result }
        ensures cause { ShowsEdit S.X.block32 N.name64 self.old result (S.seen store.old) (S.seen store.new) }
        ensures good { KeepsGood S.X.block32 (S.seen store.old).told (S.seen store.new).told }
        ensures saves { SavesOnly S.X.block32 (S.seen store.old).told (S.seen store.new).told }
        ensures no_other { SavesForEdit S.X.block32 N.name64 (S.seen store.old) (S.seen store.new) self.old
            (λ p es. moved_blocks S.X.block32 N.name64 p source.now.names es (carried source.now.names dest.now es)) }
        ensures touches { TouchesMove S.X.block32 N.name64 (S.seen store.old) (S.seen store.new) self.old
            source.now.names dest.now touches.old touches.new }
        ensures touched { CallCounts result touches.old touches.new }
    {
        let names = source.names.as_slice();
        let moved = moved_root::<S, N, L>(alloc, store, self, names, dest, touches)?;
        self.root = moved;
        Ok(())
    }
}

// The root after a move of what these names lead to.
fn moved_root<S: Store, N: NameHash, L: Ledger>(
    alloc: Global,
    store: &mut S,
    tree: &Mfs,
    source: &[Name],
    dest: &Path,
    touches: &mut Steps<L>,
) -> Result<Entry, MfsFault>
    requires mfs { IsMfs tree.now }
    ensures moves { CarriesRoot S.X.block32 N.name64 (S.seen store.old) (S.seen store.new) tree.now
        (carried source.now dest.now) result }
    ensures itself { StaysOver S.X.block32 N.name64 (S.seen store.old) (S.seen store.new) tree.now
        (IsOntoItself source.now dest.now) (IfOk result (λ e. e ≡ tree.now.root)) }
    ensures saves { SavesMoving S.X.block32 N.name64 tree.now result (S.seen store.old) (S.seen store.new) }
    ensures no_other { SavesFolder S.X.block32 N.name64 (S.seen store.old) (S.seen store.new) tree.now.profile []
        tree.now.root (λ es. moved_blocks S.X.block32 N.name64 tree.now.profile source.now es
        (carried source.now dest.now es)) }
    ensures touches { TouchesMove S.X.block32 N.name64 (S.seen store.old) (S.seen store.new) tree.now source.now
        dest.now touches.old touches.new }
    ensures touched { CallCounts result touches.old touches.new }
{
    let [.., name] = source else {
        return Err(MfsFault::Rule(Rule::RootRefused));
    };
    let root = Thing::Folder(tree.root, None);
    match look::<S, N, L>(alloc, store, 0, source, root, touches) {
        Err(stop) => Err(fault_of(alloc, source, stop)),
        Ok(thing) => {
            let target = target_of::<S, N, L>(alloc, store, dest, name, &tree.root, touches)?;
            moved_to::<S, N, L>(alloc, store, tree, source, thing, &target, touches)
        }
    }
}

// The root after a move of this thing to what was found as its target.
fn moved_to<S: Store, N: NameHash, L: Ledger>(
    alloc: Global,
    store: &mut S,
    tree: &Mfs,
    source: &[Name],
    thing: Thing,
    target: &MoveTarget,
    touches: &mut Steps<L>,
) -> Result<Entry, MfsFault>
    requires mfs { IsMfs tree.now }
    ensures moves { MovesFound S.X.block32 N.name64 (S.seen store.old) (S.seen store.new) tree.now source.now thing
        target.now result }
    ensures itself { lie_at source.now target.now.names ≡ Itself
        → ((S.seen store.new).told ≡ (S.seen store.old).told) × IfOk result (λ e. e ≡ tree.now.root) }
    ensures saves { SavesMoving S.X.block32 N.name64 tree.now result (S.seen store.old) (S.seen store.new) }
    ensures no_other { SavesFound S.X.block32 N.name64 (S.seen store.old) (S.seen store.new) tree.now source.now thing
        target.now }
    ensures touches { TouchesFound S.X.block32 N.name64 (S.seen store.old) (S.seen store.new) tree.now source.now thing
        target.now touches.old touches.new }
    ensures touched { CallCounts result touches.old touches.new }
{
    let names = target.names.as_slice();
    match lie_of(source, names) {
        Lie::Itself => Ok(tree.root),
        Lie::Below => Err(inside(alloc, source, names)),
        Lie::Apart => {
            if is_replaceable(thing, target.there) {
                shifted_root::<S, N, L>(alloc, store, tree, source, names, thing, touches)
            } else {
                Err(exists_at(alloc, names))
            }
        }
    }
}

// The root after something was taken away at its names and put at others.
fn shifted_root<S: Store, N: NameHash, L: Ledger>(
    alloc: Global,
    store: &mut S,
    tree: &Mfs,
    source: &[Name],
    names: &[Name],
    thing: Thing,
    touches: &mut Steps<L>,
) -> Result<Entry, MfsFault>
    requires mfs { IsMfs tree.now }
    ensures moves { MovesToSpot S.X.block32 N.name64 (S.seen store.old) (S.seen store.new) tree.now source.now thing
        names.now result }
    ensures saves { SavesMoving S.X.block32 N.name64 tree.now result (S.seen store.old) (S.seen store.new) }
    ensures no_other { SavesToSpot S.X.block32 N.name64 (S.seen store.old) (S.seen store.new) tree.now source.now thing
        names.now }
    ensures touches { TouchesToSpot S.X.block32 N.name64 (S.seen store.old) (S.seen store.new) tree.now source.now
        thing names.now touches.old touches.new }
    ensures touched { CallCounts result touches.old touches.new }
{
    let what = Act::Change(Change::Remove(true));
    let left = match tree.edited_root::<S, N, L>(alloc, store, what, &[], source, touches) {
        Err(stop) => return Err(fault_of(alloc, source, stop)),
        Ok(left) => left,
    };
    let rest = Mfs {
        profile: tree.profile,
        root: left,
    };
    let entry = entry_of(thing);
    match put_root::<S, N, L>(alloc, store, &rest, names, &entry, touches) {
        Err(stop) => Err(fault_of(alloc, names, stop)),
        Ok(root) => Ok(root),
    }
}

// The root with an entry put at the names.
fn put_root<S: Store, N: NameHash, L: Ledger>(
    alloc: Global,
    store: &mut S,
    tree: &Mfs,
    names: &[Name],
    entry: &Entry,
    touches: &mut Steps<L>,
) -> Result<Entry, Stop>
    requires mfs { IsMfs tree.now }
    ensures edits { EditsPut S.X.block32 N.name64 tree.now.profile (S.seen store.old) (S.seen store.new) entry.now
        tree.now.root (λ t es. edited_at (put_over t) names.now es) result }
    ensures saves { SavesInTree S.X.block32 N.name64 tree.now.profile tree.now.root.cid result (S.seen store.old)
        (S.seen store.new) }
    ensures no_other { SavesPut S.X.block32 N.name64 (S.seen store.old) (S.seen store.new) tree.now.profile entry.now
        tree.now.root (λ t es.
        next_blocks S.X.block32 N.name64 tree.now.profile (edited_at (put_over t) names.now es)) }
    ensures touches { TouchesPut S.X.block32 N.name64 tree.now.profile (S.seen store.old) (S.seen store.new) entry.now
        tree.now.root (λ t. edit_bound S.X.block32 N.name64 tree.now.profile names.now
        (edited_at (put_over t) names.now)) touches.old touches.new }
    ensures missing { PutMisses S.X.block32 N.name64 tree.now.profile (S.seen store.old) (S.seen store.new)
        tree.now.root names.now (stop_fault result) }
    ensures touched { StepCounts result touches.old touches.new }
{
    let what = Act::Change(Change::Put(*entry));
    tree.edited_root::<S, N, L>(alloc, store, what, &[], names, touches)
}

// The entry of what is at a path.
fn entry_of(thing: Thing) -> Entry
    ensures { result ≡ entry_in thing }
{
    match thing {
        Thing::File(entry, _) => entry,
        Thing::Folder(entry, _) => entry,
    }
}

// Whether this may be put where that is: a file over a file, and anything where nothing is.
fn is_replaceable(thing: Thing, there: Option<Thing>) -> bool
    ensures { result ≡ replaces thing there }
{
    match (thing, there) {
        (_, None) => true,
        (Thing::File(_, _), Some(Thing::File(_, _))) => true,
        (_, Some(_)) => false,
    }
}

// That a move goes into what it moves.
fn inside(alloc: Global, source: &[Name], target: &[Name]) -> MfsFault
    ensures { IsInside source.now target.now result }
{
    match inside_rule(alloc, source, target) {
        Err(fault) => fault.into(),
        Ok(rule) => MfsFault::Rule(rule),
    }
}
