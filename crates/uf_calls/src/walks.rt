//! Walks by hand, over blocks that are made here.
ghost use Rattle.std.specs.Prelude.{◌≡◌, None};

use std::alloc::Global;
use uf_cid::{Block, Cid, Codec, Memory, Seq};
use uf_playing::{say_debug, say_number, small};
use uf_testing::{number_and_rest, number_of, say};
use uf_walk::{Turn, Walk, WalkFault};

// How a walk ended.
#[derive(Clone, Copy)]
enum Ending {
    Whole,
    TooMany,
    Missing(u8),
    NoNode(u8, u8),
}

type Numbers = Seq<u8>;

fn leaf(n: u8) -> Cid {
    Cid {
        codec: Codec::Raw,
        digest: [n; 32],
    }
}

fn node(n: u8) -> Cid {
    Cid {
        codec: Codec::DagPb,
        digest: [n; 32],
    }
}

// A node that links these, without names.
fn linking(alloc: Global, cids: &[Cid]) -> Result<Block, Memory> {
    let mut bytes = Block::new(alloc);
    for cid in cids {
        bytes.extend(&[0x12, 0x2a, 0x0a, 0x24])?;
        bytes.extend(&cid.to_binary())?;
        bytes.extend(&[0x12, 0, 0x18, 0])?;
    }
    Ok(bytes)
}

// The block of a small DAG: a root over two nodes that share leaves, and a node that is none.
fn block_of(alloc: Global, cid: &Cid) -> Result<Option<Block>, Memory> {
    let found = if *cid == node(1) {
        linking(alloc, &[node(3), node(2), leaf(9), leaf(9)])?
    } else if *cid == node(2) {
        linking(alloc, &[leaf(8), node(3)])?
    } else if *cid == node(3) {
        linking(alloc, &[leaf(9), leaf(7)])?
    } else if *cid == node(4) {
        let mut bytes = Block::new(alloc);
        bytes.extend(&[0x0a, 2, 8])?;
        bytes
    } else if cid.codec == Codec::Raw && cid.digest[0] > 6 {
        Block::new(alloc)
    } else {
        return Ok(None);
    };
    Ok(Some(found))
}

// Goes on with a walk until it ends.
fn finish(alloc: Global, walk: &mut Walk, numbers: &mut Numbers) -> Result<Ending, Memory>
    requires { walk.old.due ≡ None }
{
    for _ in 0..100 {
        match walk.advance()? {
            Turn::End => return Ok(Ending::Whole),
            Turn::TooMany => return Ok(Ending::TooMany),
            Turn::At(cid) => {
                numbers.push(cid.digest[0])?;
                let Some(block) = block_of(alloc, &cid)? else {
                    return Ok(Ending::Missing(cid.digest[0]));
                };
                match walk.take(block.as_slice()) {
                    Ok(()) => {}
                    Err(WalkFault::Memory) => return Err(Memory),
                    Err(WalkFault::NotDagPb(c, why)) => return Ok(Ending::NoNode(c.digest[0], why)),
                }
            }
        }
    }
    Err(Memory)
}

// The CID that a word names: `leaf-8` or `node-1`.
fn cid_of(word: &str) -> Cid {
    let (kind, number) = word.split_once('-').unwrap_or((word, ""));
    let number = number_of(number).min(255) as u8;
    if kind == "leaf" {
        leaf(number)
    } else {
        node(number)
    }
}

fn say_ending(alloc: Global, ending: Ending, told: &mut Block) -> Result<(), Memory> {
    match ending {
        Ending::Whole => say(told, "whole"),
        Ending::TooMany => say(told, "too many"),
        Ending::Missing(number) => say_number(alloc, told, "missing", u64::from(number)),
        Ending::NoNode(number, why) => {
            let line = format!(in alloc; "no node {number}: {why}")?;
            say(told, line.as_str())
        }
    }
}

// Says the place of a CID that was handed out.
fn say_met(alloc: Global, walk: &Walk, place: u32, told: &mut Block) -> Result<(), Memory> {
    match walk.met(place) {
        Some(cid) => {
            let first = cid.digest[0];
            let line = format!(in alloc; "{place}: {:?} {first}", cid.codec)?;
            say(told, line.as_str())
        }
        None => say(told, "no more"),
    }
}

// Goes on with a walk, and says what it handed out, by the first bytes of the digests and by its places, and how it
// ended.
fn follow(alloc: Global, walk: &mut Walk, told: &mut Block) -> Result<(), Memory>
    requires { walk.old.due ≡ None }
{
    let mut numbers = Numbers::new(alloc);
    let ending = finish(alloc, walk, &mut numbers)?;
    say_debug(alloc, told, &numbers.as_slice())?;
    for place in 0..small(numbers.len() as u64).saturating_add(1) {
        say_met(alloc, walk, place, told)?;
    }
    say_ending(alloc, ending, told)
}

/// A walk of at most MOST CIDs from some roots: `walk MOST ROOT ..`.
pub fn walk(alloc: Global, rest: &str, told: &mut Block) -> Result<(), Memory> {
    let (most, roots) = number_and_rest(rest);
    let mut walk = Walk::new(alloc, small(most));
    for root in roots.split(' ') {
        walk.add_root(&cid_of(root))?;
    }
    follow(alloc, &mut walk, told)
}
