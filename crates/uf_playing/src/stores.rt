//! Calls of stores.
ghost use Rattle.std.specs.Prelude.{◌≤◌, length};

use crate::saying::{say_about, say_cid, say_debug};
use crate::scene::{Call, Said};
use crate::values::{codec_of, size_of};
use std::alloc::Global;
use std::sync::ledger::Ledger;
use uf_cid::{Block, BlockHash, Cid, Cids, Codec, Memory};
use uf_edge::{Calls, Put};
use uf_store::{
    CallKind, Discard, MOST_BYTES, MemStore, Note, NoteRead, Steps, Store, StoreFault, Sweep, need,
    save_block,
};
use uf_testing::{
    bytes_of, number_and_rest, number_of, say, tell_bytes, tell_count, word_and_rest,
};

/// The CID of a block, by its codec and its bytes.
pub fn cid_in<X: BlockHash>(alloc: Global, rest: &str) -> Result<Cid, Memory> {
    let (codec, digits) = word_and_rest(rest);
    let bytes = bytes_of(alloc, digits)?;
    Ok(Cid::of::<X>(codec_of(codec), bytes.as_slice()))
}

/// Says a fault of a store.
pub fn say_fault(alloc: Global, fault: &StoreFault, told: &mut Block) -> Result<(), Memory> {
    match fault {
        StoreFault::Failed => say(told, "the store failed"),
        StoreFault::Damaged(cid) => say_about(told, "damaged", cid),
        StoreFault::Missing(cid) => say_about(told, "missing", cid),
        StoreFault::BadBlock(cid, role) => {
            let line = format!(in alloc; "bad {role:?}")?;
            say_about(told, line.as_str(), cid)
        }
        StoreFault::Clash(cid, held, bytes) => {
            say_about(told, "clash", cid)?;
            tell_bytes(told, alloc, b"> ", held.as_slice())?;
            tell_bytes(told, alloc, b"> ", bytes.as_slice())
        }
        StoreFault::Memory => Err(Memory),
    }
}

/// Says why a call wasn't made: the line names none, or the store has a fault.
pub fn say_made(
    alloc: Global,
    answer: &Result<bool, StoreFault>,
    told: &mut Block,
) -> Result<(), Memory> {
    match answer {
        Ok(true) => Ok(()),
        Ok(false) => say(told, "no such call"),
        Err(fault) => say_fault(alloc, fault, told),
    }
}

fn note_of(word: &str) -> Note {
    if word == "head" {
        Note::Head
    } else {
        Note::Pins
    }
}

/// Says whether a call that writes is done.
pub fn say_put(told: &mut Block, put: Put) -> Result<(), Memory> {
    match put {
        Put::Done => say(told, "done"),
        Put::Failed => say(told, "failed"),
        Put::Memory => Err(Memory),
    }
}

// Keeps a block: `save CODEC BYTES`.
fn save<S: Store, L: Ledger>(
    alloc: Global,
    store: &mut S,
    rest: &str,
    told: &mut Block,
    touches: &mut Steps<L>,
) -> Said {
    let (codec, digits) = word_and_rest(rest);
    let bytes = bytes_of(alloc, digits)?;
    if bytes.as_slice().len() > MOST_BYTES {
        return Err(StoreFault::Memory);
    }
    let cid = save_block(alloc, store, codec_of(codec), bytes.as_slice(), touches)?;
    Ok(say_cid(told, &cid)?)
}

// Reads a note: `read-note head` or `read-note pins`.
fn read_note<S: Store>(
    alloc: Global,
    store: &mut S,
    rest: &str,
    told: &mut Block,
) -> Result<(), Memory> {
    match store.read_note(note_of(rest)) {
        NoteRead::Text(text) => tell_bytes(told, alloc, b"> ", text.as_slice()),
        NoteRead::Absent => say(told, "absent"),
        NoteRead::Failed => say(told, "failed"),
        NoteRead::Memory => Err(Memory),
    }
}

// Writes a note: `write-note head TEXT`.
fn write_note<S: Store>(store: &mut S, rest: &str, told: &mut Block) -> Result<(), Memory> {
    let (which, text) = word_and_rest(rest);
    say_put(told, store.write_note(note_of(which), text.as_bytes()))
}

/// Makes a call of any store; whether the line names one.
pub fn call_store<S: Store, L: Ledger>(
    alloc: Global,
    store: &mut S,
    line: &str,
    told: &mut Block,
    touches: &mut Steps<L>,
) -> Result<bool, StoreFault> {
    let (word, rest) = word_and_rest(line);
    match word {
        "load" => {
            let cid = cid_in::<S::X>(alloc, rest)?;
            say_debug(alloc, told, &store.load(&cid, touches))?;
        }
        "need" => {
            need(store, &cid_in::<S::X>(alloc, rest)?, touches)?;
            tell_bytes(told, alloc, b"> ", store.block())?;
        }
        "save" => save(alloc, store, rest, told, touches)?,
        "lent" => tell_bytes(told, alloc, b"> ", store.block())?,
        "sync" => say_put(told, store.sync())?,
        "read-note" => read_note(alloc, store, rest, told)?,
        "write-note" => write_note(store, rest, told)?,
        _ => return Ok(false),
    }
    Ok(true)
}

// The CIDs of nodes of these bytes.
fn nodes_of<X: BlockHash>(alloc: Global, rest: &str) -> Result<Cids, Memory> {
    let mut cids = Cids::new(alloc);
    for digits in rest.split_ascii_whitespace() {
        let bytes = bytes_of(alloc, digits)?;
        cids.push(Cid::of::<X>(Codec::DagPb, bytes.as_slice()))?;
    }
    Ok(cids)
}

/// Lets go of all but these nodes: `sweep BYTES ..`.
pub fn sweep<S: Sweep>(
    alloc: Global,
    store: &mut S,
    rest: &str,
    told: &mut Block,
) -> Result<(), Memory> {
    let kept = nodes_of::<S::X>(alloc, rest)?;
    say_debug(alloc, told, &store.sweep(&kept))
}

/// Makes a call of the store; whether the line names one.
pub fn call_memory<X: BlockHash, L: Ledger>(
    call: &mut Call<X, L>,
    line: &str,
) -> Result<bool, StoreFault> {
    let (word, rest) = word_and_rest(line);
    let (alloc, told) = (call.alloc, &mut *call.told);
    match word {
        "count" => tell_count(told, alloc, call.store.count())?,
        "writes" => tell_count(told, alloc, call.store.writes())?,
        "sweep" => sweep(alloc, call.store, rest, told)?,
        "nothing" => {
            return call_store(alloc, &mut Discard::<X>::new(), rest, told, call.touches);
        }
        _ => return call_store(alloc, call.store, line, told, call.touches),
    }
    Ok(true)
}

// The calls that a line has fail, from now on.
fn kind_of(word: &str) -> Option<CallKind> {
    match word {
        "load-fails" => Some(CallKind::Load),
        "save-fails" => Some(CallKind::Save),
        "sync-fails" => Some(CallKind::Sync),
        "read-note-fails" => Some(CallKind::ReadNote),
        "write-note-fails" => Some(CallKind::WriteNote),
        "sweep-fails" => Some(CallKind::Sweep),
        _ => None,
    }
}

// Has a store hold a block, under the CID of these bytes: `hold CODEC BYTES`, or other bytes in their place.
fn hold<X: BlockHash>(
    alloc: Global,
    store: &mut MemStore<X>,
    rest: &str,
    other: Option<&[u8]>,
) -> Result<(), Memory> {
    let (codec, digits) = word_and_rest(rest);
    let bytes = bytes_of(alloc, digits)?;
    let cid = Cid::of::<X>(codec_of(codec), bytes.as_slice());
    let held = Block::from_slice(alloc, other.unwrap_or(bytes.as_slice()))?;
    store.plant(&cid, held)
}

// Has a store hold a raw block of N zeros: `hold-zeros N`.
fn hold_zeros<X: BlockHash>(
    alloc: Global,
    store: &mut MemStore<X>,
    count: u64,
) -> Result<(), Memory> {
    let bytes = uf_cid::zeros(alloc, count.min(65536) as usize)?;
    let held = Block::from_slice(alloc, &bytes)?;
    store.plant(&Cid::of::<X>(Codec::Raw, &bytes), held)
}

// The numbers that are listed.
fn numbers_of(alloc: Global, rest: &str) -> Result<Calls, Memory> {
    let mut numbers = Calls::new(alloc);
    for word in rest.split_ascii_whitespace() {
        numbers.push(number_of(word))?;
    }
    Ok(numbers)
}

// What a stop after AT writes leaves, where the saves at these places are lost: `stop AT PLACE ..`.
fn stopped<X: BlockHash>(
    alloc: Global,
    store: &MemStore<X>,
    rest: &str,
) -> Result<MemStore<X>, Memory> {
    let (at, rest) = number_and_rest(rest);
    let lost = numbers_of(alloc, rest)?;
    store.after_stop(size_of(at).min(store.writes()), &lost)
}

// A note of pins of this one line: `note LINE`.
fn note<X: BlockHash>(alloc: Global, store: &mut MemStore<X>, line: &str) -> Result<(), Memory> {
    let mut text = Block::from_slice(alloc, line.as_bytes())?;
    text.extend(b"\n")?;
    match store.write_note(Note::Pins, text.as_slice()) {
        Put::Done => Ok(()),
        _ => Err(Memory),
    }
}

/// Changes a store; whether the word asks for that.
pub fn set<X: BlockHash>(
    alloc: Global,
    store: &mut MemStore<X>,
    word: &str,
    rest: &str,
) -> Result<bool, Memory> {
    if let Some(kind) = kind_of(word) {
        store.fail_at(kind, number_of(rest))?;
        return Ok(true);
    }
    match word {
        "hold" => hold(alloc, store, rest, None)?,
        "hold-zeros" => hold_zeros(alloc, store, number_of(rest))?,
        "spoil" => hold(alloc, store, rest, Some(b"x"))?,
        "lose" => store.forget(&cid_in::<X>(alloc, rest)?),
        "note" => note(alloc, store, rest)?,
        "stop" => *store = stopped(alloc, store, rest)?,
        "empty" => *store = MemStore::new(alloc),
        _ => return Ok(false),
    }
    Ok(true)
}
