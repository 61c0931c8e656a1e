//! What a path leads to, looked up from its root.
ghost use Rattle.std.specs.Prelude.{◌+◌, ◌<◌, ◌≤◌, ◌^◌, IfOk, IfSome, Ok, length};
ghost use Rattle.uf_cid.specs.declared.cid.Cid.{Cid as TheCid};
ghost use Rattle.uf_dir.specs.Bad.{IsBadRoot};
ghost use Rattle.uf_store.specs.Calls.{OnlyReads};
ghost use Rattle.uf_store.specs.Faults.{fault_in};
ghost use Rattle.uf_light.specs.Bad.{IsBadOnPath, IsBadUnder, IsRequired};
ghost use Rattle.uf_light.specs.Below.{IsSeenAs, MayEnd};
ghost use Rattle.uf_light.specs.Touches.{CountsUp};
ghost use Rattle.uf_light.specs.Along.{FindsUnder, FindsMet, LooksOn};

use crate::met::PathEnd;
use crate::thing::TypedEntry;
use std::alloc::Global;
use std::sync::ledger::Ledger;
use uf_dir::{EntryKind, find, kind_of};
use uf_murmur::NameHash;
use uf_store::{Steps, Store, StoreFault};
use uf_tree::{Entry, Name};

// What the names lead to from this thing, to which n names led.
pub fn look<S: Store, N: NameHash, L: Ledger>(
    alloc: Global,
    store: &mut S,
    led: u32,
    names: &[Name],
    thing: TypedEntry,
    touches: &mut Steps<L>,
) -> Result<PathEnd, StoreFault>
    requires { led + length names.now < 2 ^ 32 }
    ensures looks { LooksOn S.X.block32 N.name64 led names.now thing (S.seen store.old) (S.seen store.new) result }
    ensures reads { OnlyReads S.X.block32 (IsBadUnder S.X.block32 N.name64 thing) (fault_in result)
        (S.seen store.old) (S.seen store.new) }
    ensures ends { IfOk result (MayEnd thing names.now) }
{
    let [name, rest @ ..] = names else {
        return Ok(PathEnd::There(thing));
    };
    let TypedEntry::Folder(folder) = thing else {
        return Ok(PathEnd::Behind(led));
    };
    match member::<S, N, L>(alloc, store, &folder, name, touches)? {
        None => Ok(PathEnd::Nothing(led)),
        Some(below) => look::<S, N, L>(alloc, store, led + 1, rest, below, touches),
    }
}

// What this directory has under a name.
pub fn member<S: Store, N: NameHash, L: Ledger>(
    alloc: Global,
    store: &mut S,
    folder: &Entry,
    name: &Name,
    touches: &mut Steps<L>,
) -> Result<Option<TypedEntry>, StoreFault>
    ensures member { FindsUnder S.X.block32 N.name64 folder.now.cid name.now (S.seen store.old) (S.seen store.new)
        result }
    ensures reads { OnlyReads S.X.block32 (IsBadOnPath S.X.block32 N.name64 folder.now.cid) (fault_in result)
        (S.seen store.old) (S.seen store.new) }
    ensures required { IfOk result (λ found. IfSome found (IsRequired S.X.block32 folder.now.cid)) }
    ensures touched { CountsUp (fault_in result) touches.old touches.new }
{
    let Some(entry) = find::<S, N, L>(alloc, store, &folder.cid, name, touches)? else {
        return Ok(None);
    };
    let thing = thing_of::<S, N, L>(alloc, store, &entry, touches)?;
    Ok(Some(thing))
}

// Whether an entry is a file's or a directory's. At most one touch.
pub fn thing_of<S: Store, N: NameHash, L: Ledger>(
    alloc: Global,
    store: &mut S,
    entry: &Entry,
    touches: &mut Steps<L>,
) -> Result<TypedEntry, StoreFault>
    ensures thing { FindsMet S.X.block32 N.name64 entry.now.cid (S.seen store.old) (S.seen store.new) result }
    ensures reads { OnlyReads S.X.block32 IsBadRoot (fault_in result) (S.seen store.old) (S.seen store.new) }
    ensures required { (root : TheCid) → IfOk result (IsRequired S.X.block32 root) }
    ensures seen { IfOk result (IsSeenAs S.X.block32 (S.seen store.old).told entry.now.cid) }
    ensures touched { CountsUp (fault_in result) touches.old touches.new }
    ensures few { touches.new ≤ touches.old + 1 }
{
    let kind = kind_of(alloc, store, entry, touches)?;
    match kind {
        EntryKind::Folder(_, _) => Ok(TypedEntry::Folder(*entry)),
        EntryKind::File(_) => Ok(TypedEntry::File(*entry)),
    }
}
