//! Light proofs checked.
ghost use Rattle.std.specs.Prelude.{◌≡◌, ◌<◌, ◌^◌, length};
ghost use Rattle.uf_store.specs.InMemory.{memory_seen, new_seen};
ghost use Rattle.uf_light.specs.Checked.{Checks};
ghost use Rattle.uf_light.specs.Checking.{keeping_fault as fault_of_keeping, reading_fault as fault_of_reading};

use crate::opening::open;
use crate::sending::show;
use crate::{Asked, LightFault};
use std::alloc::Global;
use std::sync::ledger::Ledger;
use uf_cid::BlockHash;
use uf_edge::{Sink, Source};
use uf_murmur::NameHash;
use uf_store::{MemStore, Steps, StoreFault};

/// Reads a CAR of at most `limit` bytes as the proof of what is at a path below a root, and writes that: the bytes of
/// a file, or, with `absent`, a line that says that nothing is there. It answers how many bytes it wrote. No store is
/// asked, and sections that aren't needed are accepted. A file is read whole before its first byte is written.
pub fn check<X: BlockHash, N: NameHash, I: Source, O: Sink, L: Ledger>(
    alloc: Global,
    asked: &Asked,
    input: &mut I,
    limit: u64,
    out: &mut O,
    touches: &mut Steps<L>,
) -> Result<u64, LightFault>
    requires { length asked.now.names < 2 ^ 32 }
    ensures { Checks X.block32 N.name64 asked.now limit (I.left input.old) result (I.faults input.old)
        (I.faults input.new) (O.holds out.old) (O.holds out.new) (O.faults out.old) (O.faults out.new) }
{
    let mut store = MemStore::<X>::new(alloc);
    check_in::<X, N, I, O, L>(alloc, &mut store, asked, input, limit, out, touches)
}

// The same, with an empty store for the CAR's blocks.
fn check_in<X: BlockHash, N: NameHash, I: Source, O: Sink, L: Ledger>(
    alloc: Global,
    store: &mut MemStore<X>,
    asked: &Asked,
    input: &mut I,
    limit: u64,
    out: &mut O,
    touches: &mut Steps<L>,
) -> Result<u64, LightFault>
    requires empty { memory_seen store.old ≡ new_seen }
    requires few { length asked.now.names < 2 ^ 32 }
    ensures { Checks X.block32 N.name64 asked.now limit (I.left input.old) result (I.faults input.old)
        (I.faults input.new) (O.holds out.old) (O.holds out.new) (O.faults out.old) (O.faults out.new) }
{
    match open(alloc, store, &asked.root, input, limit, touches) {
        Err(fault) => Err(keeping_fault(fault)),
        Ok(()) => {
            let names = asked.names.as_slice();
            match show::<MemStore<X>, N, O, L>(
                alloc,
                store,
                &asked.root,
                names,
                asked.absent,
                out,
                touches,
            ) {
                Err(fault) => Err(reading_fault(fault)),
                Ok(count) => Ok(count),
            }
        }
    }
}

// A fault of the store where the sections are kept: two of them clash. Such a store holds what it was given and
// doesn't fail, so all else is out of memory.
fn keeping_fault(fault: LightFault) -> LightFault
    ensures { result ≡ fault_of_keeping fault }
{
    match fault {
        LightFault::Store(StoreFault::Clash(cid, first, second)) => {
            LightFault::Store(StoreFault::Clash(cid, first, second))
        }
        LightFault::Store(_) => LightFault::Store(StoreFault::Memory),
        fault => fault,
    }
}

// And where they are read: a block isn't there, or is bad.
fn reading_fault(fault: LightFault) -> LightFault
    ensures { result ≡ fault_of_reading fault }
{
    match fault {
        LightFault::Store(StoreFault::Missing(cid)) => LightFault::Store(StoreFault::Missing(cid)),
        LightFault::Store(StoreFault::BadBlock(cid, role)) => {
            LightFault::Store(StoreFault::BadBlock(cid, role))
        }
        LightFault::Store(_) => LightFault::Store(StoreFault::Memory),
        fault => fault,
    }
}
