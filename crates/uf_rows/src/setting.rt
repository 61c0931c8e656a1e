//! What is done with a store, a host and streams but by commands.
ghost use Rattle.std.specs.Prelude.{◌<◌};

use crate::words::Word;
use crate::world::World;
use std::alloc::Global;
use std::mem;
use uf_cid::{Block, BlockHash, Cid, Codec, Memory};
use uf_edge::Put;
use uf_store::{CallKind, MemStore, Note, Store};
use uf_testing::{
    ROOMY, block_of, bytes_of, feed, number_and_rest, number_of, plant_node, tell_count,
};

/// Sets the input of the next command, or puts more after it; whether the line asks for that.
pub fn feed_world<X: BlockHash>(world: &mut World<X>, line: &str) -> Result<bool, Memory> {
    if line == "pipe" {
        world.input = mem::replace(&mut world.output, Block::new(world.alloc));
        return Ok(true);
    }
    feed(world.alloc, &mut world.input, line)
}

// A change of the streams; whether the word asks for one.
fn set_streams<X: BlockHash>(world: &mut World<X>, word: Word, rest: &str) -> bool {
    match word {
        Word::Room => world.streams.room = number_of(rest).min(1048576) as usize,
        Word::InputFails => world.streams.input_fails = Some(number_of(rest).saturating_sub(1)),
        Word::OutputFails => world.streams.output_fails = Some(number_of(rest).saturating_sub(1)),
        Word::ErrorsFail => world.streams.errors_fail = Some(number_of(rest).saturating_sub(1)),
        Word::Fine => world.streams = ROOMY,
        _ => return false,
    }
    true
}

// Has a call of the store fail; whether the word asks for that.
fn set_failure<X: BlockHash>(world: &mut World<X>, word: Word, rest: &str) -> Result<bool, Memory> {
    let kind = match word {
        Word::Load => CallKind::Load,
        Word::Save => CallKind::Save,
        Word::Sync => CallKind::Sync,
        Word::ReadNote => CallKind::ReadNote,
        Word::WriteNote => CallKind::WriteNote,
        Word::Sweep => CallKind::Sweep,
        _ => return Ok(false),
    };
    world.store.fail_at(kind, number_of(rest))?;
    Ok(true)
}

// Puts links of these letters to a CID after the bytes of a node.
fn add_links(node: &mut Block, letters: &str, cid: &Cid) -> Result<(), Memory> {
    for letter in letters.as_bytes() {
        node.extend(b"\x12\x2b\x0a\x24")?;
        node.extend(&cid.to_binary())?;
        node.extend(&[0x12, 1, *letter, 0x18, 0])?;
    }
    Ok(())
}

// A directory with links of these letters to a CID.
fn directory(alloc: Global, letters: &str, cid: &Cid) -> Result<Block, Memory> {
    let mut node = Block::new(alloc);
    add_links(&mut node, letters, cid)?;
    node.extend(b"\x0a\x02\x08\x01")?;
    Ok(node)
}

// Holds a node, and then is the directory with links of these letters to it.
fn nest_once<X: BlockHash>(
    alloc: Global,
    store: &mut MemStore<X>,
    letters: &str,
    node: &mut Block,
) -> Result<(), Memory> {
    plant_node(alloc, store, node.as_slice(), node.as_slice())?;
    let cid = Cid::of::<X>(Codec::DagPb, node.as_slice());
    *node = directory(alloc, letters, &cid)?;
    Ok(())
}

// Holds nested directories, each with links of these letters to the next one; the last one is empty.
fn nest<X: BlockHash>(alloc: Global, store: &mut MemStore<X>, rest: &str) -> Result<(), Memory> {
    let (count, letters) = number_and_rest(rest);
    let mut node = block_of(alloc, b"\x0a\x02\x08\x01")?;
    for _ in 1..count {
        nest_once(alloc, store, letters, &mut node)?;
    }
    plant_node(alloc, store, node.as_slice(), node.as_slice())
}

// A letter for four bits of a number, from this one on.
fn letter(number: u64, bits: u32) -> u8
    requires { bits < 64 }
{
    b'a' + ((number >> bits) % 16) as u8
}

// The line of a CID that has the number in five of its letters.
fn add_pin_line(note: &mut Block, number: u64) -> Result<(), Memory> {
    note.extend(b"bafkreihdwdcefgh4dqkjv67uzcmw7ojee6xedzdetojuzjev")?;
    note.extend(&[
        letter(number, 16),
        letter(number, 12),
        letter(number, 8),
        letter(number, 4),
        letter(number, 0),
    ])?;
    note.extend(b"uvyku\n")
}

// A note of this many pins.
fn many_pins(alloc: Global, count: u64) -> Result<Block, Memory> {
    let mut note = block_of(alloc, b"unixfs-pins 1\n")?;
    for number in 0..count.min(1048576) {
        add_pin_line(&mut note, number)?;
    }
    Ok(note)
}

// Has the store hold other bytes under a CID.
fn spoil<X: BlockHash>(world: &mut World<X>, cid: &Cid) -> Result<(), Memory> {
    let bytes = block_of(world.alloc, b"other")?;
    world.store.plant(cid, bytes)
}

// A change of what the store holds; whether the word asks for one that can be done.
fn set_block<X: BlockHash>(world: &mut World<X>, word: Word, node: &[u8]) -> Result<bool, Memory> {
    match word {
        Word::Forget => world.store.forget(&Cid::of::<X>(Codec::DagPb, node)),
        Word::ForgetLeaf => world.store.forget(&Cid::of::<X>(Codec::Raw, node)),
        Word::Spoil => spoil(world, &Cid::of::<X>(Codec::DagPb, node))?,
        Word::SpoilLeaf => spoil(world, &Cid::of::<X>(Codec::Raw, node))?,
        Word::Keep => plant_node(world.alloc, &mut world.store, node, node)?,
        Word::Head => return Ok(world.store.write_note(Note::Head, node) == Put::Done),
        Word::Pins => return Ok(world.store.write_note(Note::Pins, node) == Put::Done),
        _ => return Ok(false),
    }
    Ok(true)
}

// A change of the store; whether the word asks for one.
fn set_store<X: BlockHash>(world: &mut World<X>, word: Word, rest: &str) -> Result<bool, Memory> {
    match word {
        Word::Mend => world.store = world.store_copied()?,
        Word::Nest => nest(world.alloc, &mut world.store, rest)?,
        Word::ManyPins => {
            let note = many_pins(world.alloc, number_of(rest))?;
            return Ok(world.store.write_note(Note::Pins, note.as_slice()) == Put::Done);
        }
        Word::Other => mem::swap(&mut world.store, &mut world.other),
        _ => {
            let node = bytes_of(world.alloc, rest)?;
            return set_block(world, word, node.as_slice());
        }
    }
    Ok(true)
}

// Notes what is in the host.
fn note_planted<X: BlockHash>(world: &mut World<X>, line: &str) -> Result<(), Memory> {
    world.planted.push_str(line)?;
    world.planted.push_str("\n")?;
    world.renew_host(None)
}

// A change of the host; whether the word asks for one.
fn set_host<X: BlockHash>(
    world: &mut World<X>,
    word: Word,
    line: &str,
    rest: &str,
) -> Result<bool, Memory> {
    match word {
        Word::File | Word::Folder | Word::Folders => note_planted(world, line)?,
        Word::HostFails => world.renew_host(Some(number_of(rest).saturating_sub(1)))?,
        _ => return Ok(false),
    }
    Ok(true)
}

/// Does what a line asks for that tells nothing; whether it could be done.
pub fn set<X: BlockHash>(
    world: &mut World<X>,
    word: Word,
    line: &str,
    rest: &str,
) -> Result<bool, Memory> {
    if set_streams(world, word, rest)
        || set_failure(world, word, rest)?
        || set_host(world, word, line, rest)?
    {
        return Ok(true);
    }
    set_store(world, word, rest)
}

/// Reports how many blocks are held.
pub fn tell_blocks<X: BlockHash>(world: &World<X>, told: &mut Block) -> Result<(), Memory> {
    tell_count(told, world.alloc, world.store.count())
}
