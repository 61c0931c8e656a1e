//! Calls on CARs, comparisons of two stores, pulls and answers.

use std::alloc::Global;
use std::sync::ledger::Ledger;
use uf_car::{CarFault, ExportFault};
use uf_cid::{Block, BlockHash, Memory};
use uf_edge::{MemSink, MemSource};
use uf_playing::{Call, cid_in, cid_of, say_fault, say_number, small, source_of};
use uf_pull::{PullFault, ServeFault};
use uf_same::{Compared, SameFault};
use uf_store::StoreFault;
use uf_testing::{number_and_rest, number_of, say, sink, tell_bytes, two_numbers_and_rest};

fn say_car_fault(alloc: Global, fault: &CarFault, told: &mut Block) -> Result<(), Memory> {
    match fault {
        CarFault::Truncated(place) => say_number(alloc, told, "truncated at", *place),
        CarFault::Header => say(told, "header"),
        CarFault::Version(version) => say_number(alloc, told, "version", u64::from(*version)),
        CarFault::BadCid(place) => say_number(alloc, told, "bad CID at", *place),
        CarFault::WrongDigest(place, _) => say_number(alloc, told, "wrong digest at", *place),
        CarFault::TooBigBlock(_, size) => say_number(alloc, told, "too big block of", *size),
        CarFault::TooManyRoots(count) => say_number(alloc, told, "too many roots:", *count),
        CarFault::BadLength(place) => say_number(alloc, told, "bad length at", *place),
        CarFault::TooLong => say(told, "too long"),
        CarFault::Read => say(told, "failed"),
        CarFault::Store(fault) => say_fault(alloc, fault, told),
    }
}

/// Reads a CAR of at most n bytes: `import STEP LIMIT` on the input.
pub fn import<X: BlockHash, L: Ledger>(call: &mut Call<X, L>, rest: &str) -> Result<(), Memory> {
    let (step, limit, _) = two_numbers_and_rest(rest);
    let mut source = source_of(call.alloc, call.input.as_slice(), step, 0)?;
    match uf_car::import(call.alloc, call.store, &mut source, limit, call.touches) {
        Ok(imported) => {
            let count = imported.roots.len();
            let line = format!(in call.alloc; "{count} roots, {} blocks", imported.blocks)?;
            say(call.told, line.as_str())
        }
        Err(fault) => say_car_fault(call.alloc, &fault, call.told),
    }
}

fn say_export_fault(alloc: Global, fault: &ExportFault, told: &mut Block) -> Result<(), Memory> {
    match fault {
        ExportFault::Sink => say(told, "output"),
        ExportFault::NotDagPb(_, why) => say_number(alloc, told, "no node:", u64::from(*why)),
        ExportFault::TooMany => say(told, "too many"),
        ExportFault::Store(fault) => say_fault(alloc, fault, told),
    }
}

/// Writes the CAR below a CID of at most MOST CIDs, into ROOM bytes of room: `export MOST ROOM CID`.
pub fn export<X: BlockHash, L: Ledger>(call: &mut Call<X, L>, rest: &str) -> Result<(), Memory> {
    let (most, room, text) = two_numbers_and_rest(rest);
    let (alloc, cid, most) = (call.alloc, cid_of(text), small(most));
    let mut output = sink(alloc, room.min(1048576) as usize, None)?;
    match uf_car::export(alloc, call.store, &cid, most, &mut output, call.touches) {
        Ok(count) => say_number(alloc, call.told, "bytes:", count)?,
        Err(fault) => say_export_fault(alloc, &fault, call.told)?,
    }
    tell_bytes(call.told, alloc, b"> ", output.bytes())
}

fn say_pull_fault(alloc: Global, fault: &PullFault, told: &mut Block) -> Result<(), Memory> {
    match fault {
        PullFault::Lacks(_) => say(told, "the peer lacks it"),
        PullFault::Ended(_) => say(told, "ended"),
        PullFault::Bad(place) => say_number(alloc, told, "bad frame at", *place),
        PullFault::Noise => say(told, "noise"),
        PullFault::NotDagPb(_, why) => say_number(alloc, told, "no node:", u64::from(*why)),
        PullFault::TooMany => say(told, "too many"),
        PullFault::Read => say(told, "failed"),
        PullFault::Sink => say(told, "output"),
        PullFault::Store(fault) => say_fault(alloc, fault, told),
    }
}

// The input as a source that gives 13 bytes in a call, and an output.
fn ends_of(alloc: Global, input: &[u8]) -> Result<(MemSource, MemSink), Memory> {
    let source = source_of(alloc, input, 13, 0)?;
    let output = sink(alloc, 9999, None)?;
    Ok((source, output))
}

/// Pulls what is below a CID of what the input answers: `pull MOST CID`.
pub fn pull<X: BlockHash, L: Ledger>(call: &mut Call<X, L>, rest: &str) -> Result<(), Memory> {
    let (most, text) = number_and_rest(rest);
    let (alloc, cid, most) = (call.alloc, cid_of(text), small(most));
    let (mut peer, mut sent) = ends_of(alloc, call.input.as_slice())?;
    let (store, touches) = (&mut *call.store, &mut *call.touches);
    match uf_pull::pull(alloc, store, &cid, most, &mut peer, &mut sent, touches) {
        Ok(count) => say_number(alloc, call.told, "blocks:", count)?,
        Err(fault) => say_pull_fault(alloc, &fault, call.told)?,
    }
    tell_bytes(call.told, alloc, b"> ", sent.bytes())
}

fn say_serve_fault(alloc: Global, fault: &ServeFault, told: &mut Block) -> Result<(), Memory> {
    match fault {
        ServeFault::BadWant(line) => say_number(alloc, told, "bad want at", *line),
        ServeFault::TooLong => say(told, "too long"),
        ServeFault::Read => say(told, "failed"),
        ServeFault::Sink => say(told, "output"),
        ServeFault::Store(fault) => say_fault(alloc, fault, told),
    }
}

/// Answers the lines of the input, of at most n bytes: `serve LIMIT`. The answers are the next input.
pub fn serve<X: BlockHash, L: Ledger>(call: &mut Call<X, L>, rest: &str) -> Result<(), Memory> {
    let (alloc, limit) = (call.alloc, number_of(rest));
    let (mut peer, mut sent) = ends_of(alloc, call.input.as_slice())?;
    match uf_pull::serve(alloc, call.store, limit, &mut peer, &mut sent, call.touches) {
        Ok(count) => say_number(alloc, call.told, "lines:", count)?,
        Err(fault) => say_serve_fault(alloc, &fault, call.told)?,
    }
    *call.input = Block::from_slice(alloc, sent.bytes())?;
    tell_bytes(call.told, alloc, b"> ", sent.bytes())
}

fn say_compared(alloc: Global, found: &Compared, told: &mut Block) -> Result<(), Memory> {
    match found {
        Compared::Equal => say(told, "equal"),
        Compared::Differ => say(told, "differ"),
        Compared::Clash(_, first, second) => {
            say(told, "clash")?;
            tell_bytes(told, alloc, b"> ", first.as_slice())?;
            tell_bytes(told, alloc, b"> ", second.as_slice())
        }
    }
}

fn say_same_fault(alloc: Global, fault: &SameFault, told: &mut Block) -> Result<(), Memory> {
    match fault {
        SameFault::NotDagPb(_, why) => say_number(alloc, told, "no node:", u64::from(*why)),
        SameFault::TooMany => say(told, "too many"),
        SameFault::Left(StoreFault::Missing(_)) => say(told, "missing in this one"),
        SameFault::Right(StoreFault::Missing(_)) => say(told, "missing in the other"),
        SameFault::Left(fault) => say_fault(alloc, fault, told),
        SameFault::Right(fault) => say_fault(alloc, fault, told),
        SameFault::Memory => Err(Memory),
    }
}

/// Compares the two stores below two CIDs, of at most MOST CIDs: `same MOST CODEC BYTES and CODEC BYTES`.
pub fn same<X: BlockHash, L: Ledger>(call: &mut Call<X, L>, rest: &str) -> Result<(), Memory> {
    let (most, rest) = number_and_rest(rest);
    let (first, second) = rest.split_once(" and ").unwrap_or((rest, rest));
    let (alloc, most) = (call.alloc, small(most));
    let left = cid_in::<X>(alloc, first)?;
    let right = cid_in::<X>(alloc, second)?;
    let (store, other) = (&mut *call.store, &mut *call.other);
    match uf_same::same(alloc, store, other, &left, &right, most, call.touches) {
        Ok(found) => say_compared(alloc, &found, call.told),
        Err(fault) => say_same_fault(alloc, &fault, call.told),
    }
}
