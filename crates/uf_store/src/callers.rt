//! Calls that the layers above make over any store.
ghost use Rattle.std.specs.Prelude.{◌≡◌, ◌≤◌, ◌+◌, [], ◌∷◌, length, OnOk, OnErr, IfOk, IfErr};
ghost use Rattle.uf_cid.specs.Cid.{cid_of};
ghost use Rattle.uf_store.specs.Seen.{Finds, IsThere, Keeps};
ghost use Rattle.uf_store.specs.Calls.{LoadsNothing};
ghost use Rattle.uf_store.specs.Faults.{Answers, NoneIsBad, fault_in};
ghost use Rattle.uf_store.specs.Keeping.{Holds, KeepsGood};
ghost use Rattle.uf_store.specs.Writing.{SavesOnly};
ghost use Rattle.uf_store.specs.Clashes.{IsClashOr, IsLoadFault, IsSaveFault};

use crate::{Load, Presence, Save, Steps, Store, StoreFault};
use std::alloc::Global;
use std::sync::ledger::Ledger;
use uf_cid::{Block, Cid, Codec};

/// Loads a block that has to be there. The store then lends it. One touch.
pub fn need<S: Store, L: Ledger>(
    store: &mut S,
    cid: &Cid,
    touches: &mut Steps<L>,
) -> Result<(), StoreFault>
    ensures found { OnOk result (Finds S.X.block32 cid.now (S.seen store.old) (S.seen store.new)) }
    ensures cause { Answers S.X.block32 NoneIsBad result (S.seen store.old) (S.seen store.new) }
    ensures fault { IfErr result (IsLoadFault cid.now) }
    ensures told { (S.seen store.new).told ≡ (S.seen store.old).told }
    ensures touches { touches.new ≡ touches.old + 1 }
{
    match store.load(cid, touches) {
        Load::Found => Ok(()),
        Load::Missing => Err(StoreFault::Missing(*cid)),
        Load::Damaged => Err(StoreFault::Damaged(*cid)),
        Load::Failed => Err(StoreFault::Failed),
        Load::Memory => Err(StoreFault::Memory),
    }
}

/// Asks for a block that has to be there, of which nothing is read or hashed. One touch.
pub fn need_there<S: Store, L: Ledger>(
    store: &mut S,
    cid: &Cid,
    touches: &mut Steps<L>,
) -> Result<(), StoreFault>
    ensures there { OnOk result (IsThere cid.now (S.seen store.old) (S.seen store.new)) }
    ensures cause { Answers S.X.block32 NoneIsBad result (S.seen store.old) (S.seen store.new) }
    ensures fault { IfErr result (IsLoadFault cid.now) }
    ensures told { (S.seen store.new).told ≡ (S.seen store.old).told }
    ensures touches { touches.new ≡ touches.old + 1 }
{
    match store.holds(cid, touches) {
        Presence::There => Ok(()),
        Presence::Missing => Err(StoreFault::Missing(*cid)),
        Presence::Failed => Err(StoreFault::Failed),
        Presence::Memory => Err(StoreFault::Memory),
    }
}

/// Saves a block under its own CID, and hands out both blocks where another one of its digest is there. One touch.
pub fn save_under<S: Store, L: Ledger>(
    alloc: Global,
    store: &mut S,
    cid: &Cid,
    bytes: &[u8],
    touches: &mut Steps<L>,
) -> Result<(), StoreFault>
    requires digest { S.X.block32 bytes.now ≡ cid.now.digest }
    requires size { length bytes.now ≤ 2097152 }
    ensures kept { OnOk result (Keeps S.X.block32 cid.now bytes.now (S.seen store.old) (S.seen store.new)) }
    ensures held { OnOk result (Holds (S.seen store.new).told ((cid.now, bytes.now) ∷ [])) }
    ensures cause { Answers S.X.block32 NoneIsBad result (S.seen store.old) (S.seen store.new) }
    ensures fault { IfErr result (IsSaveFault cid.now bytes.now) }

    // What was good stays, nothing but this save was written, and nothing was loaded.
    ensures err { OnErr result ((S.seen store.new).told ≡ (S.seen store.old).told) }
    ensures good { KeepsGood S.X.block32 (S.seen store.old).told (S.seen store.new).told }
    ensures saves { SavesOnly S.X.block32 (S.seen store.old).told (S.seen store.new).told }
    ensures unread { LoadsNothing (fault_in result) (S.seen store.old) (S.seen store.new) }
    ensures touches { touches.new ≡ touches.old + 1 }
{
    match store.save(cid, bytes, touches) {
        Save::Done => Ok(()),
        Save::Clash => Err(clash(alloc, cid, store.block(), bytes)),
        Save::Failed => Err(StoreFault::Failed),
        Save::Memory => Err(StoreFault::Memory),
    }
}

/// Saves a block under the CID that its bytes have, and answers that CID. One touch.
pub fn save_block<S: Store, L: Ledger>(
    alloc: Global,
    store: &mut S,
    codec: Codec,
    bytes: &[u8],
    touches: &mut Steps<L>,
) -> Result<Cid, StoreFault>
    requires size { length bytes.now ≤ 2097152 }
    ensures cid { IfOk result (λ cid. cid ≡ cid_of S.X.block32 codec bytes.now) }
    ensures kept { OnOk result (Keeps S.X.block32 (cid_of S.X.block32 codec bytes.now) bytes.now
        (S.seen store.old) (S.seen store.new)) }
    ensures held { OnOk result (Holds (S.seen store.new).told ((cid_of S.X.block32 codec bytes.now, bytes.now) ∷ [])) }
    ensures cause { Answers S.X.block32 NoneIsBad result (S.seen store.old) (S.seen store.new) }
    ensures fault { IfErr result (IsSaveFault (cid_of S.X.block32 codec bytes.now) bytes.now) }
    ensures err { OnErr result ((S.seen store.new).told ≡ (S.seen store.old).told) }
    ensures good { KeepsGood S.X.block32 (S.seen store.old).told (S.seen store.new).told }
    ensures saves { SavesOnly S.X.block32 (S.seen store.old).told (S.seen store.new).told }
    ensures unread { LoadsNothing (fault_in result) (S.seen store.old) (S.seen store.new) }
    ensures touches { touches.new ≡ touches.old + 1 }
{
    let cid = Cid::of::<S::X>(codec, bytes);
    save_under(alloc, store, &cid, bytes, touches)?;
    Ok(cid)
}

// The fault that shows two blocks of one digest, or that there is no memory to show them.
fn clash(alloc: Global, cid: &Cid, held: &[u8], bytes: &[u8]) -> StoreFault
    ensures { IsClashOr cid.now held.now bytes.now result }
{
    match (
        Block::from_slice(alloc, held),
        Block::from_slice(alloc, bytes),
    ) {
        (Ok(first), Ok(second)) => StoreFault::Clash(*cid, first, second),
        _ => StoreFault::Memory,
    }
}
