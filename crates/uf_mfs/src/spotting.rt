//! Where something is put in the tree.
ghost use Rattle.std.specs.Prelude.{◌≡◌, ◌+◌, ◌*◌, ◌≤◌, IfOk, IfSome, Ok, Some, length, option_copied};
ghost use Rattle.std.specs.Prelude.{◌++◌, ◌∷◌, [], true};
ghost use Rattle.uf_tree.specs.Tree.{Dir};
ghost use Rattle.uf_plain.specs.Moves.{folder_at, spotted, target, told_of};
ghost use Rattle.uf_plain.specs.declared.rule.Refused.TheVariants as why;
ghost use Rattle.uf_mfs.specs.Answers.{Tells};
ghost use Rattle.uf_mfs.specs.Bad.{IsRequired, RequiresDirectory};
ghost use Rattle.uf_mfs.specs.Missing.{MemberMisses, SpotMisses, SpotMissesIn, put_names};
ghost use Rattle.uf_mfs.specs.Moving.{FindsTarget, Gives, GivesSpot, SpotsOver, folder_there, lands, vacant_at};
ghost use Rattle.uf_mfs.specs.Steps.{stop_fault, tree_fault};
ghost use Rattle.uf_mfs.specs.declared.fault.Stop.TheVariants as stop;
ghost use Rattle.uf_mfs.specs.Over.{LooksAlong, WholeTree};
ghost use Rattle.uf_mfs.specs.Showing.{CallCounts, ReadsBelow, ReadsInTree, ShowsReading, StepCounts};

use crate::looking::{look, member};
use crate::target::MoveTarget;
use crate::telling::fault_of;
use crate::{Mfs, MfsFault, Stop, Thing};
use std::alloc::Global;
use std::sync::ledger::Ledger;
use uf_murmur::NameHash;
use uf_path::Path;
use uf_plain::{Refused, Rule, Spot, joined_names, spot_of};
use uf_store::{Steps, Store};
use uf_tree::{Entry, Name, Names};

impl Mfs {
    /// Where something of this name is put that goes to `dest`: under the name in the directory at `dest` where that
    /// ends with `/`, else under the last name of `dest`. Nothing may be there.
    pub fn spot<S: Store, N: NameHash, L: Ledger>(
        &self,
        alloc: Global,
        store: &mut S,
        dest: &Path,
        name: Option<&Name>,
        touches: &mut Steps<L>,
    ) -> Result<Spot, MfsFault>
        ensures answer { WholeTree S.X.block32 N.name64 (S.seen store.old) (S.seen store.new) self.now
            (λ p es. Gives (λ spot given. given ≡ spot) (spotted dest.now (option_copied name.entry) es) result) }
        ensures lost { SpotsOver S.X.block32 N.name64 (S.seen store.old) (S.seen store.new) self.now
            (spotted dest.now (option_copied name.entry)) result }
        ensures missing { SpotMisses S.X.block32 N.name64 (S.seen store.old) (S.seen store.new) self.now
            (put_names dest.now (option_copied name.entry)) (tree_fault result) }
        ensures cause { ShowsReading S.X.block32 N.name64 self.now result (S.seen store.old) (S.seen store.new) }
        ensures told { (S.seen store.new).told ≡ (S.seen store.old).told }
        ensures touches { touches.new ≤ touches.old + 11 * (length dest.now.names + 1) }
        ensures touched { CallCounts result touches.old touches.new }
    {
        let names = dest.names.as_slice();
        if dest.into {
            return spot_in::<S, N, L>(alloc, store, names, name, &self.root, touches);
        }
        match names {
            [] => Err(MfsFault::Rule(Rule::RootRefused)),
            [folder @ .., last] => {
                vacant::<S, N, L>(alloc, store, names, folder, last, &self.root, touches)
            }
        }
    }
}

// The spot of a name in the folder that the names lead to; the root has no name.
fn spot_in<S: Store, N: NameHash, L: Ledger>(
    alloc: Global,
    store: &mut S,
    names: &[Name],
    name: Option<&Name>,
    root: &Entry,
    touches: &mut Steps<L>,
) -> Result<Spot, MfsFault>
    ensures spots { GivesSpot S.X.block32 N.name64 (S.seen store.old) (S.seen store.new) root.now
        (spotted (record { names = names.now; into = true }) (option_copied name.entry)) result }
    ensures missing { SpotMissesIn S.X.block32 N.name64 (S.seen store.old) (S.seen store.new) root.now
        (put_names (record { names = names.now; into = true }) (option_copied name.entry)) (tree_fault result) }
    ensures reads { ReadsInTree S.X.block32 N.name64 root.now.cid result (S.seen store.old) (S.seen store.new) }
    ensures touches { touches.new ≤ touches.old + 11 * (length names.now + 1) }
    ensures touched { CallCounts result touches.old touches.new }
{
    match name {
        Some(name) => vacant::<S, N, L>(alloc, store, names, names, name, root, touches),
        None => match look_at_folder::<S, N, L>(alloc, store, names, root, touches) {
            Err(stop) => Err(fault_of(alloc, names, stop)),
            Ok(_) => Err(MfsFault::Rule(Rule::RootRefused)),
        },
    }
}

// The spot of a name in a folder, where nothing is under the name.
fn vacant<S: Store, N: NameHash, L: Ledger>(
    alloc: Global,
    store: &mut S,
    told: &[Name],
    folder: &[Name],
    name: &Name,
    root: &Entry,
    touches: &mut Steps<L>,
) -> Result<Spot, MfsFault>
    ensures spots { GivesSpot S.X.block32 N.name64 (S.seen store.old) (S.seen store.new) root.now
        (vacant_at told.now folder.now name.now) result }
    ensures missing { SpotMissesIn S.X.block32 N.name64 (S.seen store.old) (S.seen store.new) root.now
        (folder.now ++ name.now ∷ []) (tree_fault result) }
    ensures reads { ReadsInTree S.X.block32 N.name64 root.now.cid result (S.seen store.old) (S.seen store.new) }
    ensures touches { touches.new ≤ touches.old + 11 * (length folder.now + 1) }
    ensures touched { CallCounts result touches.old touches.new }
{
    let target = landing::<S, N, L>(alloc, store, told, folder, name, root, touches)?;
    match target.there {
        Some(_) => Err(exists_at(alloc, target.names.as_slice())),
        None => Ok(spot_of(alloc, folder, name)?),
    }
}

/// Where a move of something of this name goes: a directory that is there is entered.
pub(crate) fn target_of<S: Store, N: NameHash, L: Ledger>(
    alloc: Global,
    store: &mut S,
    dest: &Path,
    name: &Name,
    root: &Entry,
    touches: &mut Steps<L>,
) -> Result<MoveTarget, MfsFault>
    ensures found { FindsTarget S.X.block32 N.name64 (S.seen store.old) (S.seen store.new) root.now
        (target dest.now (Some name.now)) result }
    ensures reads { ReadsInTree S.X.block32 N.name64 root.now.cid result (S.seen store.old) (S.seen store.new) }
    ensures touches { touches.new ≤ touches.old + 11 * (length dest.now.names + 1) }
    ensures touched { CallCounts result touches.old touches.new }
{
    let names = dest.names.as_slice();
    if dest.into {
        return landing::<S, N, L>(alloc, store, names, names, name, root, touches);
    }
    match names {
        [] => landing::<S, N, L>(alloc, store, names, names, name, root, touches),
        [folder @ .., last] => {
            let found = landing::<S, N, L>(alloc, store, names, folder, last, root, touches)?;
            match folder_in(found.there) {
                Some(entry) => under::<S, N, L>(alloc, store, names, name, &entry, touches),
                None => Ok(found),
            }
        }
    }
}

// The entry of what is there, where that is a folder.
fn folder_in(there: Option<Thing>) -> Option<Entry>
    ensures { result ≡ folder_there there }
{
    match there {
        None => None,
        Some(Thing::File(_, _)) => None,
        Some(Thing::Folder(entry, _)) => Some(entry),
    }
}

// What is under a name in the folder that the names lead to; a refusal is reported with these names.
fn landing<S: Store, N: NameHash, L: Ledger>(
    alloc: Global,
    store: &mut S,
    told: &[Name],
    folder: &[Name],
    name: &Name,
    root: &Entry,
    touches: &mut Steps<L>,
) -> Result<MoveTarget, MfsFault>
    ensures found { FindsTarget S.X.block32 N.name64 (S.seen store.old) (S.seen store.new) root.now
        (λ es. told_of told.now (lands folder.now name.now es)) result }
    ensures missing { SpotMissesIn S.X.block32 N.name64 (S.seen store.old) (S.seen store.new) root.now
        (folder.now ++ name.now ∷ []) (tree_fault result) }
    ensures reads { ReadsInTree S.X.block32 N.name64 root.now.cid result (S.seen store.old) (S.seen store.new) }
    ensures required { IfOk result (λ target. IfSome target.there (IsRequired S.X.block32 root.now.cid)) }
    ensures touches { touches.new ≤ touches.old + 11 * (length folder.now + 1) }
    ensures touched { CallCounts result touches.old touches.new }
{
    match look_at_folder::<S, N, L>(alloc, store, folder, root, touches) {
        Err(stop) => Err(fault_of(alloc, told, stop)),
        Ok(entry) => under::<S, N, L>(alloc, store, folder, name, &entry, touches),
    }
}

// What is under a name in a folder, to which these names lead.
fn under<S: Store, N: NameHash, L: Ledger>(
    alloc: Global,
    store: &mut S,
    folder: &[Name],
    name: &Name,
    entry: &Entry,
    touches: &mut Steps<L>,
) -> Result<MoveTarget, MfsFault>
    ensures found { FindsTarget S.X.block32 N.name64 (S.seen store.old) (S.seen store.new) entry.now
        (λ es. Ok (record { folder = folder.now; name = name.now }, es)) result }
    ensures missing { MemberMisses S.X.block32 N.name64 (S.seen store.old) (S.seen store.new) entry.now name.now
        (tree_fault result) }
    ensures reads { ReadsInTree S.X.block32 N.name64 entry.now.cid result (S.seen store.old) (S.seen store.new) }
    ensures required { IfOk result (λ target. IfSome target.there (IsRequired S.X.block32 entry.now.cid)) }
    ensures touches { touches.new ≤ touches.old + 11 }
    ensures touched { CallCounts result touches.old touches.new }
{
    match member::<S, N, L>(alloc, store, entry, name, touches) {
        Err(stop) => Err(fault_of(alloc, folder, stop)),
        Ok(there) => {
            let names = joined_names(alloc, folder, name)?;
            Ok(MoveTarget { names, there })
        }
    }
}

// The entry of the folder that the names lead to.
fn look_at_folder<S: Store, N: NameHash, L: Ledger>(
    alloc: Global,
    store: &mut S,
    names: &[Name],
    root: &Entry,
    touches: &mut Steps<L>,
) -> Result<Entry, Stop>
    ensures looks { LooksAlong S.X.block32 N.name64 (S.seen store.old) (S.seen store.new) root.now names.now
        (λ es. Dir es) (folder_at names.now) result }
    ensures reads { ReadsBelow S.X.block32 N.name64 root.now.cid (stop_fault result) (S.seen store.old)
        (S.seen store.new) }
    ensures required { IfOk result (λ e. RequiresDirectory S.X.block32 root.now.cid e.cid.digest) }
    ensures touches { touches.new ≤ touches.old + 11 * length names.now }
    ensures touched { StepCounts result touches.old touches.new }
{
    match look::<S, N, L>(alloc, store, 0, names, Thing::Folder(*root, None), touches)? {
        Thing::Folder(entry, _) => Ok(entry),
        Thing::File(_, _) => Err(Stop::Refused(Refused::NotADirectory(names.len()))),
    }
}

/// That something is at these names.
pub(crate) fn exists_at(alloc: Global, names: &[Name]) -> MfsFault
    ensures { Tells names.now (stop.Refused (why.Exists (length names.now))) result }
{
    fault_of(alloc, names, Stop::Refused(Refused::Exists(names.len())))
}
