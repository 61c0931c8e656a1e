//! Calls that change files, and read them.

use crate::bounds::{FileEdit, most_touches};
use crate::files::{Built, fed, profile, say_build_fault, say_built, say_entry};
use crate::foreign::say_meta;
use crate::watched::Watched;
use std::alloc::Global;
use std::sync::ledger::Ledger;
use uf_build::{BuildFault, Builder};
use uf_cid::{Block, BlockHash, Memory};
use uf_fileedit::{meta_of, set_meta, truncate, write_at};
use uf_fileread::{RangeFault, read_range};
use uf_message::Mtime;
use uf_playing::{Call, Said, cid_of, say_amount, say_cid, say_fault, size_of};
use uf_store::{Steps, Store};
use uf_testing::{
    bytes_of, number_and_rest, number_of, say, sink, tell_bytes, two_numbers_and_rest,
    word_and_rest,
};
use uf_tree::{Entry, Meta};

// A file in pieces and nodes of these sizes.
#[derive(Clone, Copy)]
struct FileIn {
    chunk: u64,
    width: u64,
    size: u64,
    entry: Entry,
}

// The front of some bytes, of at most n.
fn front(bytes: &[u8], count: u64) -> &[u8] {
    &bytes[..bytes.len().min(size_of(count))]
}

// The file of some bytes, imported afresh.
fn imported<S: Store, L: Ledger>(
    alloc: Global,
    store: &mut S,
    chunk: u64,
    width: u64,
    bytes: &[u8],
    touches: &mut Steps<L>,
) -> Result<FileIn, BuildFault> {
    let builder = Builder::new(alloc, profile(chunk, width));
    let entry = fed(builder, store, bytes, bytes.len(), touches)?;
    Ok(FileIn {
        chunk,
        width,
        size: bytes.len() as u64,
        entry,
    })
}

// The entry after an edit, how often that touched the store, and the bound of that.
fn counted<X: BlockHash, L: Ledger>(
    store: &mut Watched<X>,
    file: &FileIn,
    edit: FileEdit<'_>,
    touches: &mut Steps<L>,
) -> (Built, u64, u64) {
    let (alloc, before) = (store.alloc, store.touches);
    let (sizes, entry) = (profile(file.chunk, file.width), &file.entry);
    let answer = match edit {
        (place, Some(piece)) => write_at(alloc, store, &sizes, entry, place, piece, touches),
        (place, None) => truncate(alloc, store, &sizes, entry, place, touches),
    };
    let most = most_touches((file.chunk, file.width), file.size, edit);
    (answer, store.touches.saturating_sub(before), most)
}

// Says the entry after an edit, and whether that kept within its bound.
fn say_counted<X: BlockHash, L: Ledger>(
    store: &mut Watched<X>,
    file: &FileIn,
    edit: FileEdit<'_>,
    told: &mut Block,
    touches: &mut Steps<L>,
) -> Result<(), Memory> {
    let (answer, taken, most) = counted(store, file, edit, touches);
    say_built(store.alloc, &answer, told)?;
    let end = if taken > most { "exceeded" } else { "kept" };
    let line = format!(in store.alloc; "bound of {most} touches {end}")?;
    say(told, line.as_str())
}

// Puts a line after others: the entry after an edit that kept within its bound.
fn list<X: BlockHash, L: Ledger>(
    store: &mut Watched<X>,
    file: &FileIn,
    edit: FileEdit<'_>,
    lines: &mut Block,
    touches: &mut Steps<L>,
) -> Result<(), Memory> {
    match counted(store, file, edit, touches) {
        (Ok(entry), taken, most) if taken <= most => {
            let end = format!(in store.alloc; " {}\n", entry.tsize)?;
            lines.extend(&entry.cid.text())?;
            lines.extend(end.as_bytes())
        }
        _ => lines.extend(b"wrong\n"),
    }
}

// Says all edits of a file at places up to the number of these bytes: it is cut there, and their fronts are written.
fn say_all<X: BlockHash, L: Ledger>(
    store: &mut Watched<X>,
    file: &FileIn,
    bytes: &[u8],
    told: &mut Block,
    touches: &mut Steps<L>,
) -> Result<(), Memory> {
    let ends = bytes.len().saturating_add(1);
    let mut lines = Block::new(store.alloc);
    for place in 0..ends {
        list(store, file, (place as u64, None), &mut lines, touches)?;
        for count in 0..ends {
            let write = (place as u64, Some(&bytes[..count]));
            list(store, file, write, &mut lines, touches)?;
        }
    }
    tell_bytes(told, store.alloc, b"> ", lines.as_slice())
}

/// An edit of a file of the first bytes of the input, over a store of its own into which it is imported:
/// `cut CHUNK WIDTH LENGTH PLACE`, `write CHUNK WIDTH LENGTH PLACE COUNT`; or all edits at places up to MOST:
/// `edits CHUNK WIDTH LENGTH MOST`.
pub fn edit_front<X: BlockHash, L: Ledger>(
    call: &mut Call<X, L>,
    word: &str,
    rest: &str,
) -> Result<(), Memory> {
    let (chunk, width, rest) = two_numbers_and_rest(rest);
    let (length, place, rest) = two_numbers_and_rest(rest);
    let (bytes, told, touches) = (call.input.as_slice(), &mut *call.told, &mut *call.touches);
    let mut store = Watched::<X>::new(call.alloc);
    let start = front(bytes, length);
    let file = match imported(call.alloc, &mut store, chunk, width, start, touches) {
        Ok(file) => file,
        Err(fault) => return say_build_fault(call.alloc, &fault, told),
    };
    let edit = match word {
        "edits" => return say_all(&mut store, &file, front(bytes, place), told, touches),
        "cut" => (place, None),
        _ => (place, Some(front(bytes, number_of(rest)))),
    };
    say_counted(&mut store, &file, edit, told, touches)
}

// The entry that two words name: `CID TSIZE`.
fn entry_of(text: &str) -> Entry {
    let (cid, rest) = word_and_rest(text);
    Entry {
        cid: cid_of(cid),
        tsize: number_of(rest),
    }
}

/// Writes into a file: `write-in CHUNK WIDTH PLACE PIECE CID TSIZE`.
pub fn write_in<X: BlockHash, L: Ledger>(call: &mut Call<X, L>, rest: &str) -> Result<(), Memory> {
    let (chunk, width, rest) = two_numbers_and_rest(rest);
    let (place, rest) = number_and_rest(rest);
    let (digits, rest) = word_and_rest(rest);
    let (alloc, sizes, file) = (call.alloc, profile(chunk, width), entry_of(rest));
    let block = bytes_of(alloc, digits)?;
    let piece = block.as_slice();
    let answer = write_at(alloc, call.store, &sizes, &file, place, piece, call.touches);
    say_built(alloc, &answer, call.told)
}

/// Cuts a file: `cut-in CHUNK WIDTH PLACE CID TSIZE`.
pub fn cut_in<X: BlockHash, L: Ledger>(call: &mut Call<X, L>, rest: &str) -> Result<(), Memory> {
    let (chunk, width, rest) = two_numbers_and_rest(rest);
    let (place, rest) = number_and_rest(rest);
    let (sizes, file) = (profile(chunk, width), entry_of(rest));
    let answer = truncate(call.alloc, call.store, &sizes, &file, place, call.touches);
    say_built(call.alloc, &answer, call.told)
}

// The metadata that three words name, each of which is `-` where it isn't known: `MODE SECONDS NANOS`.
fn meta_in(line: &str) -> (Meta, &str) {
    let (mode, rest) = word_and_rest(line);
    let (seconds, rest) = word_and_rest(rest);
    let (nanos, rest) = word_and_rest(rest);
    let nanos = nanos.parse::<u32>().ok();
    let meta = Meta {
        mode: mode.parse::<u32>().ok(),
        mtime: match seconds.parse::<i64>() {
            Ok(seconds) => Some(Mtime { seconds, nanos }),
            Err(_) => None,
        },
    };
    (meta, rest)
}

/// Sets the metadata of a file: `set-meta MODE SECONDS NANOS CID TSIZE`.
pub fn set<X: BlockHash, L: Ledger>(call: &mut Call<X, L>, rest: &str) -> Said {
    let (meta, rest) = meta_in(rest);
    if !meta.is_good() {
        return Ok(say(call.told, "no metadata")?);
    }
    let entry = set_meta(call.alloc, call.store, &entry_of(rest), &meta, call.touches)?;
    Ok(say_entry(call.alloc, &entry, call.told)?)
}

// Reads a range of a file, of at most a thousand bytes.
fn read_some<S: Store, L: Ledger>(
    alloc: Global,
    store: &mut S,
    entry: &Entry,
    range: (u64, u64),
    told: &mut Block,
    touches: &mut Steps<L>,
) -> Result<(), Memory> {
    let mut output = sink(alloc, 1024, None)?;
    match read_range(alloc, store, entry, range.0, range.1, &mut output, touches) {
        Ok(count) => say_amount(alloc, told, count, "bytes")?,
        Err(RangeFault::Sink) => say(told, "output")?,
        Err(RangeFault::Store(fault)) => say_fault(alloc, &fault, told)?,
    }
    tell_bytes(told, alloc, b"> ", output.bytes())
}

/// Says the metadata of a file, and some of its bytes: `look PLACE COUNT CID TSIZE`.
pub fn look<X: BlockHash, L: Ledger>(call: &mut Call<X, L>, rest: &str) -> Result<(), Memory> {
    let (place, count, rest) = two_numbers_and_rest(rest);
    let (alloc, file, range) = (call.alloc, entry_of(rest), (place, count));
    match meta_of(alloc, call.store, &file, call.touches) {
        Ok(meta) => say_meta(alloc, &meta, call.told)?,
        Err(fault) => say_fault(alloc, &fault, call.told)?,
    }
    read_some(alloc, call.store, &file, range, call.told, call.touches)
}

/// Reads a range of the input as a file in pieces of one byte, over a store of its own, and says which leaves the store
/// was told of before: `ahead PLACE COUNT`.
pub fn ahead<X: BlockHash, L: Ledger>(call: &mut Call<X, L>, rest: &str) -> Result<(), Memory> {
    let (place, count, _) = two_numbers_and_rest(rest);
    let (bytes, told, touches) = (call.input.as_slice(), &mut *call.told, &mut *call.touches);
    let mut store = Watched::<X>::new(call.alloc);
    match imported(call.alloc, &mut store, 1, 174, bytes, touches) {
        Ok(file) => {
            let (entry, range) = (file.entry, (place, count));
            read_some(call.alloc, &mut store, &entry, range, told, touches)?;
        }
        Err(fault) => say_build_fault(call.alloc, &fault, told)?,
    }
    for cid in store.told.as_slice() {
        say_cid(told, cid)?;
    }
    Ok(())
}
