//! What is at a path, looked up from its root.
ghost use Rattle.std.specs.Prelude.{◌≡◌, ◌+◌, ◌*◌, ◌<◌, ◌≤◌, ◌^◌, IfOk, IfSome, length};
ghost use Rattle.uf_cid.specs.declared.cid.Cid.{Cid as TheCid};
ghost use Rattle.uf_dir.specs.Bad.{IsBadRoot};
ghost use Rattle.uf_mfs.specs.Bad.{IsRequired};
ghost use Rattle.uf_store.specs.Calls.{OnlyReads};
ghost use Rattle.uf_store.specs.Faults.{fault_in};
ghost use Rattle.uf_mfs.specs.Standing.{ReadsThing};
ghost use Rattle.uf_mfs.specs.Steps.{stop_fault};
ghost use Rattle.uf_mfs.specs.Touches.{unseen, unseen_after};
ghost use Rattle.uf_mfs.specs.Over.{FindsMember, LooksFrom, OverEntry};
ghost use Rattle.uf_mfs.specs.Showing.{ReadCounts, ReadsBelow, ReadsUnder, StepCounts};

use crate::{FolderRoot, Stop, Thing};
use std::alloc::Global;
use std::sync::ledger::Ledger;
use uf_dir::{EntryKind, find, kind_of};
use uf_murmur::NameHash;
use uf_plain::Refused;
use uf_store::{Steps, Store, StoreFault};
use uf_tree::{Entry, Name};

/// What the names lead to from this thing, to which n names led. It calls itself once a name, and a path has at most
/// 2048 names (`Path::parse`).
pub(crate) fn look<S: Store, N: NameHash, L: Ledger>(
    alloc: Global,
    store: &mut S,
    led: usize,
    names: &[Name],
    thing: Thing,
    touches: &mut Steps<L>,
) -> Result<Thing, Stop>
    requires { led + length names.now < 2 ^ 64 }
    ensures looks { LooksFrom S.X.block32 N.name64 (S.seen store.old) (S.seen store.new) thing led names.now result }
    ensures reads { ReadsUnder S.X.block32 N.name64 thing (stop_fault result) (S.seen store.old) (S.seen store.new) }
    ensures required { (root : TheCid) → IsRequired S.X.block32 root thing
        → IfOk result (IsRequired S.X.block32 root) }
    ensures touches { touches.new ≤ touches.old + 11 * length names.now }
    ensures touched { StepCounts result touches.old touches.new }
    ensures seen { IfOk result (λ found. unseen found ≡ unseen_after names.now thing) }
{
    let [name, rest @ ..] = names else {
        return Ok(thing);
    };
    let Thing::Folder(folder, _) = thing else {
        return Err(Stop::Refused(Refused::NotADirectory(led)));
    };
    match member::<S, N, L>(alloc, store, &folder, name, touches)? {
        None => Err(Stop::Refused(Refused::NotFound(led + 1))),
        Some(below) => look::<S, N, L>(alloc, store, led + 1, rest, below, touches),
    }
}

/// What this folder has under a name.
pub(crate) fn member<S: Store, N: NameHash, L: Ledger>(
    alloc: Global,
    store: &mut S,
    folder: &Entry,
    name: &Name,
    touches: &mut Steps<L>,
) -> Result<Option<Thing>, Stop>
    ensures member { FindsMember S.X.block32 N.name64 (S.seen store.old) (S.seen store.new) folder.now name.now
        result }
    ensures reads { ReadsBelow S.X.block32 N.name64 folder.now.cid (stop_fault result) (S.seen store.old)
        (S.seen store.new) }
    ensures required { IfOk result (λ found. IfSome found (IsRequired S.X.block32 folder.now.cid)) }
    ensures touches { touches.new ≤ touches.old + 11 }
    ensures touched { StepCounts result touches.old touches.new }
    ensures seen { IfOk result (λ found. IfSome found (λ thing. unseen thing ≡ 0)) }
{
    let Some(entry) = find::<S, N, L>(alloc, store, &folder.cid, name, touches)? else {
        return Ok(None);
    };
    let thing = thing_of::<S, N, L>(alloc, store, &entry, touches)?;
    Ok(Some(thing))
}

/// Whether an entry is a file's or a folder's, by one load. A raw block is a file, and isn't loaded.
pub(crate) fn thing_of<S: Store, N: NameHash, L: Ledger>(
    alloc: Global,
    store: &mut S,
    entry: &Entry,
    touches: &mut Steps<L>,
) -> Result<Thing, StoreFault>
    ensures thing { OverEntry S.X.block32 N.name64 (S.seen store.old) (S.seen store.new) entry.now
        (λ p t. ReadsThing S.X.block32 N.name64 (S.seen store.old).told p t result) }
    ensures reads { OnlyReads S.X.block32 IsBadRoot (fault_in result) (S.seen store.old) (S.seen store.new) }
    ensures required { (root : TheCid) → IfOk result (IsRequired S.X.block32 root) }
    ensures touches { touches.new ≤ touches.old + 1 }
    ensures touched { ReadCounts result touches.old touches.new }
    ensures seen { IfOk result (λ thing. unseen thing ≡ 0) }
{
    match kind_of(alloc, store, entry, touches)? {
        EntryKind::Folder(links, meta) => Ok(Thing::Folder(
            *entry,
            Some(FolderRoot { links, meta }),
        )),
        EntryKind::File(size) => Ok(Thing::File(*entry, size)),
    }
}
