//! The CIDs of a file's blocks.
ghost use Rattle.std.specs.Prelude.{◌≡◌, ◌+◌, ◌++◌, None, OnOk};
ghost use Rattle.uf_store.specs.Calls.{OnlyReads};
ghost use Rattle.uf_store.specs.Faults.{Answers, fault_in};
ghost use Rattle.uf_tree.specs.Codecs.{Reads};
ghost use Rattle.uf_fileread.specs.Bad.{IsBadInFile};
ghost use Rattle.uf_fileread.specs.Parts.{parts_block};
ghost use Rattle.uf_fileread.specs.Sending.{LoadsParts, MayStand};
ghost use Rattle.uf_light.specs.FileCids.{IsBadInSome, cids_in};
ghost use Rattle.uf_light.specs.Touches.{CountsUp};
ghost use Rattle.uf_light.specs.Along.{FindsFileCids, FindsPartsBelow, TouchesFile};

use crate::due::CidStack;
use std::alloc::Global;
use std::sync::ledger::Ledger;
use uf_cid::{Cid, Cids, Codec, Memory, StrictFault};
use uf_fileread::{NodeParts, read_parts};
use uf_store::{Role, Steps, Store, StoreFault, need};
use uf_tree::{Entry, Part, Parts};

// The CIDs of the blocks of a file: each node before the blocks below it, these from left to right, and each as
// often as the file has it (UnixFS v1, "File"). Each block is found. As many as a CAR can't have are more than there
// is memory for.
pub fn file_cids<S: Store, L: Ledger>(
    alloc: Global,
    store: &mut S,
    entry: &Entry,
    touches: &mut Steps<L>,
) -> Result<Cids, StoreFault>
    ensures value { FindsFileCids S.X.block32 entry.now.cid (S.seen store.old) (S.seen store.new) result }
    ensures reads { OnlyReads S.X.block32 (IsBadInSome (S.seen store.old).told) (fault_in result)
        (S.seen store.old) (S.seen store.new) }
    ensures touched { CountsUp (fault_in result) touches.old touches.new }
    ensures few { TouchesFile S.X.block32 entry.now.cid (S.seen store.old) (S.seen store.new) touches.old touches.new }
{
    let mut cids = Cids::new(alloc);
    let mut due = CidStack::new(alloc);
    due.push(entry.cid)?;
    for _ in 0..u32::MAX {
        let Some(cid) = due.pop() else {
            return Ok(cids);
        };
        let parts = parts_below(alloc, store, &cid, touches)?;
        cids.push(cid)?;
        put_parts(&mut due, parts.as_slice())?;
    }
    Err(StoreFault::Memory)
}

// Puts the CIDs of some parts before what is due, the first part's first.
fn put_parts(due: &mut CidStack, parts: &[Part]) -> Result<(), Memory>
    ensures ok { OnOk result (due.new ≡ cids_in parts.now ++ due.old) }
{
    let count = parts.len();
    for i in 0..count {
        let place = count - 1 - i;
        let part = &parts[place];
        due.push(part.entry.cid)?;
    }
    Ok(())
}

// The parts right below a block of a file, which is found. A raw block has none. One touch.
fn parts_below<S: Store, L: Ledger>(
    alloc: Global,
    store: &mut S,
    cid: &Cid,
    touches: &mut Steps<L>,
) -> Result<Parts, StoreFault>
    ensures parts { FindsPartsBelow S.X.block32 cid.now (S.seen store.old) (S.seen store.new) result }
    ensures reads { OnlyReads S.X.block32 (IsBadInFile (S.seen store.old).told cid.now) (fault_in result)
        (S.seen store.old) (S.seen store.new) }
    ensures touches { touches.new ≡ touches.old + 1 }
{
    match cid.codec {
        Codec::Raw => {
            need(store, cid, touches)?;
            Ok(Parts::new(alloc))
        }
        Codec::DagPb => {
            let node = load_node(alloc, store, cid, touches)?;
            Ok(node.parts)
        }
    }
}

// Loads a node of a file. One touch.
fn load_node<S: Store, L: Ledger>(
    alloc: Global,
    store: &mut S,
    cid: &Cid,
    touches: &mut Steps<L>,
) -> Result<NodeParts, StoreFault>
    ensures loads { LoadsParts 22 None cid.now (S.seen store.old) (S.seen store.new) result }
    ensures cause { Answers S.X.block32 (IsBadInFile (S.seen store.old).told cid.now) result
        (S.seen store.old) (S.seen store.new) }
    ensures told { (S.seen store.new).told ≡ (S.seen store.old).told }
    ensures touches { touches.new ≡ touches.old + 1 }
{
    need(store, cid, touches)?;
    match read_node(alloc, store.block()) {
        Ok(node) => Ok(node),
        Err(StrictFault::NotCanonical) => Err(StoreFault::BadBlock(*cid, Role::FileNode)),
        Err(StrictFault::Memory) => Err(StoreFault::Memory),
    }
}

// What a node links that may stand at the root of a file, where each node may.
fn read_node(alloc: Global, bytes: &[u8]) -> Result<NodeParts, StrictFault>
    ensures { Reads (MayStand 22 None) parts_block bytes.now result }
{
    read_parts(alloc, bytes)
}
