//! The CIDs of the blocks that decide a path.
ghost use Rattle.std.specs.Prelude.{◌≡◌, ◌+◌, ◌*◌, ◌<◌, ◌≤◌, ◌^◌, ◌++◌, IfOk, IfSome, length, OnOk};
ghost use Rattle.uf_store.specs.Calls.{OnlyReads};
ghost use Rattle.uf_store.specs.Faults.{fault_in};
ghost use Rattle.uf_light.specs.Bad.{IsBadOnPath, IsBadUnder, IsRequired};
ghost use Rattle.uf_light.specs.Touches.{CountsUp};
ghost use Rattle.uf_light.specs.Along.{GathersAlong, GathersUnder};

use crate::looking::thing_of;
use crate::met::PathEnd;
use crate::thing::TypedEntry;
use std::alloc::Global;
use std::sync::ledger::Ledger;
use uf_cid::{Cid, Cids, Memory};
use uf_dir::trace;
use uf_murmur::NameHash;
use uf_store::{Steps, Store, StoreFault};
use uf_tree::{Entry, Name};

// What the names lead to from this thing, to which n names led. The CIDs of the blocks that decide each name go to the
// end of the list.
pub fn gather<S: Store, N: NameHash, L: Ledger>(
    alloc: Global,
    store: &mut S,
    led: u32,
    names: &[Name],
    thing: TypedEntry,
    cids: &mut Cids,
    touches: &mut Steps<L>,
) -> Result<PathEnd, StoreFault>
    requires { led + length names.now < 2 ^ 32 }
    ensures gathers { GathersAlong S.X.block32 N.name64 led names.now thing cids.old cids.new (S.seen store.old)
        (S.seen store.new) result }
    ensures reads { OnlyReads S.X.block32 (IsBadUnder S.X.block32 N.name64 thing) (fault_in result)
        (S.seen store.old) (S.seen store.new) }
    ensures touched { CountsUp (fault_in result) touches.old touches.new }
    ensures few { touches.new ≤ touches.old + 9 * length names.now }
{
    let [name, rest @ ..] = names else {
        return Ok(PathEnd::There(thing));
    };
    let TypedEntry::Folder(folder) = thing else {
        return Ok(PathEnd::Behind(led));
    };
    match gather_member::<S, N, L>(alloc, store, &folder, name, cids, touches)? {
        None => Ok(PathEnd::Nothing(led)),
        Some(below) => gather::<S, N, L>(alloc, store, led + 1, rest, below, cids, touches),
    }
}

// What this directory has under a name, by one walk. The CIDs of the blocks that decide it go to the end of the list.
fn gather_member<S: Store, N: NameHash, L: Ledger>(
    alloc: Global,
    store: &mut S,
    folder: &Entry,
    name: &Name,
    cids: &mut Cids,
    touches: &mut Steps<L>,
) -> Result<Option<TypedEntry>, StoreFault>
    ensures gathers { GathersUnder S.X.block32 N.name64 folder.now.cid name.now cids.old cids.new (S.seen store.old)
        (S.seen store.new) result }
    ensures reads { OnlyReads S.X.block32 (IsBadOnPath S.X.block32 N.name64 folder.now.cid) (fault_in result)
        (S.seen store.old) (S.seen store.new) }
    ensures required { IfOk result (λ found. IfSome found (IsRequired S.X.block32 folder.now.cid)) }
    ensures touched { CountsUp (fault_in result) touches.old touches.new }
    ensures few { touches.new ≤ touches.old + 9 }
{
    let traced = trace::<S, N, L>(alloc, store, &folder.cid, name, touches)?;
    append(cids, traced.trail.as_slice())?;
    let Some(entry) = traced.entry else {
        return Ok(None);
    };
    let thing = thing_of::<S, N, L>(alloc, store, &entry, touches)?;
    Ok(Some(thing))
}

// Puts CIDs at the end of a list.
pub fn append(cids: &mut Cids, more: &[Cid]) -> Result<(), Memory>
    ensures ok { OnOk result (cids.new ≡ cids.old ++ more.now) }
{
    for cid in more {
        cids.push(*cid)?;
    }
    Ok(())
}
