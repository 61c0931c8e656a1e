//! Calls that build files and say how long they are.
ghost use Rattle.std.specs.Prelude.{◌≡◌, IsTrue};
ghost use Rattle.uf_tree.specs.Profiles.{is_profile};

use std::alloc::Global;
use std::sync::ledger::Ledger;
use uf_build::{BuildFault, Builder, IntakeFault, file_apart, file_of, hash_of};
use uf_cid::{Block, BlockHash, Memory};
use uf_edge::MemSource;
use uf_fileread::measure;
use uf_playing::{Call, cid_in, say_amount, say_cid, say_fault, size_of, small, source_of};
use uf_store::{Steps, Store};
use uf_testing::{number_of, say, tell_count, two_numbers_and_rest};
use uf_tree::{Entry, Profile};

/// A profile of pieces and nodes of these sizes.
pub fn profile(chunk: u64, width: u64) -> Profile
    ensures { IsTrue (is_profile result) }
{
    Profile {
        chunk: small(chunk).max(1).min(1048576),
        width: small(width).max(2).min(1024),
        threshold: 0,
    }
}

/// Says an entry.
pub fn say_entry(alloc: Global, entry: &Entry, told: &mut Block) -> Result<(), Memory> {
    say_cid(told, &entry.cid)?;
    say_amount(alloc, told, entry.tsize, "bytes of blocks")
}

/// Says why a file can't be built or changed.
pub fn say_build_fault(alloc: Global, fault: &BuildFault, told: &mut Block) -> Result<(), Memory> {
    match fault {
        BuildFault::FileTooLong => say(told, "file too long"),
        BuildFault::Spent => say(told, "spent"),
        BuildFault::Store(fault) => say_fault(alloc, fault, told),
    }
}

/// The entry of a file that is built or changed, or why there is none.
pub type Built = Result<Entry, BuildFault>;

/// Says the entry of a file that is built or changed, or why there is none.
pub fn say_built(alloc: Global, answer: &Built, told: &mut Block) -> Result<(), Memory> {
    match answer {
        Ok(entry) => say_entry(alloc, entry, told),
        Err(fault) => say_build_fault(alloc, fault, told),
    }
}

/// The entry of some bytes that are fed in pieces of n bytes.
pub fn fed<S: Store, L: Ledger>(
    mut builder: Builder,
    store: &mut S,
    bytes: &[u8],
    by: usize,
    touches: &mut Steps<L>,
) -> Built {
    for piece in bytes.chunks(by.max(1)) {
        builder.feed(store, piece, touches)?;
    }
    builder.finish(store, touches)
}

/// Builds a file over the store: `build CHUNK WIDTH BY` on the input.
pub fn build<X: BlockHash, L: Ledger>(call: &mut Call<X, L>, rest: &str) -> Result<(), Memory> {
    let (chunk, width, rest) = two_numbers_and_rest(rest);
    let by = size_of(number_of(rest));
    let builder = Builder::new(call.alloc, profile(chunk, width));
    let answer = fed(builder, call.store, call.input.as_slice(), by, call.touches);
    say_built(call.alloc, &answer, call.told)
}

fn say_fed(alloc: Global, answer: Result<(), BuildFault>, told: &mut Block) -> Result<(), Memory> {
    match answer {
        Ok(()) => say(told, "fed"),
        Err(fault) => say_build_fault(alloc, &fault, told),
    }
}

/// Feeds the input to a builder of pieces of one byte, then one byte more, and ends it: `overfeed`.
pub fn overfeed<X: BlockHash, L: Ledger>(call: &mut Call<X, L>) -> Result<(), Memory> {
    let mut builder = Builder::new(call.alloc, profile(1, 2));
    let first = builder.feed(call.store, call.input.as_slice(), call.touches);
    let second = builder.feed(call.store, b"a", call.touches);
    let ended = builder.finish(call.store, call.touches).map(|_| ());
    say_fed(call.alloc, first, call.told)?;
    say_fed(call.alloc, second, call.told)?;
    say_fed(call.alloc, ended, call.told)
}

/// Makes a file of the input, of which a call may fail, with touches that are counted or counted apart, or hashes it
/// and keeps nothing: `intake CALL`, `intake-apart`, `hash`.
pub fn take_in<X: BlockHash, L: Ledger>(
    call: &mut Call<X, L>,
    word: &str,
    rest: &str,
) -> Result<(), Memory> {
    let (alloc, usual) = (call.alloc, Profile::usual());
    let mut source = source_of(alloc, call.input.as_slice(), 4, number_of(rest))?;
    let answer = match word {
        "intake" => file_of(alloc, usual, call.store, &mut source, call.touches),
        "intake-apart" => file_apart(alloc, usual, call.store, &mut source),
        _ => hash_of::<X, MemSource>(alloc, usual, &mut source),
    };
    match answer {
        Ok(entry) => say_entry(alloc, &entry, call.told),
        Err(IntakeFault::Read) => say(call.told, "read"),
        Err(IntakeFault::FileTooLong) => say(call.told, "file too long"),
        Err(IntakeFault::Store(fault)) => say_fault(alloc, &fault, call.told),
    }
}

/// How long the file of a root is, and how many links it has: `length CODEC BYTES`.
pub fn length<X: BlockHash, L: Ledger>(call: &mut Call<X, L>, rest: &str) -> Result<(), Memory> {
    let alloc = call.alloc;
    let cid = cid_in::<X>(alloc, rest)?;
    let entry = Entry { cid, tsize: 251 };
    match uf_fileread::length(alloc, call.store, &entry, call.touches) {
        Ok(size) => tell_count(call.told, alloc, size_of(size))?,
        Err(fault) => say_fault(alloc, &fault, call.told)?,
    }
    match measure(alloc, call.store, &entry, call.touches) {
        Ok(size) => {
            let line = format!(in alloc; "{} bytes, {} links", size.length, size.links)?;
            say(call.told, line.as_str())
        }
        Err(fault) => say_fault(alloc, &fault, call.told),
    }
}
