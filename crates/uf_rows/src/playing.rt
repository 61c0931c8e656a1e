//! The parts of a transcript, and their lines.

use crate::caching::play_cached;
use crate::host_calls::{add_by, get_within};
use crate::setting::{feed_world, set, tell_blocks};
use crate::trying::{Tries, fail_all, repeat, stop_all, try_prefixes, try_within};
use crate::words::{Word, word_of};
use crate::world::{Way, World, act_and_tell};
use std::alloc::Global;
use std::sync::ledger::Ledger;
use uf_cid::{Block, BlockHash, Memory, Sha256Hash, Sum8Hash, Text};
use uf_murmur::{FirstEight, Murmur3, NameHash};
use uf_store::{MemStore, Steps};
use uf_testing::{Parts, Sheet, Stage, number_of, play_lines};

// Asks this of what is left from now on: in the place of all, or after them. Nothing asks nothing.
fn set_asks<X: BlockHash>(world: &mut World<X>, word: Word, rest: &str) -> Result<(), Memory> {
    if word == Word::Asks {
        world.asks = Text::new(world.alloc);
    }
    if rest.is_empty() {
        return Ok(());
    }
    world.asks.push_str(rest)?;
    world.asks.push_str("\n")
}

// Does what a word asks for, where it is done again and again.
fn try_word<X: BlockHash, N: NameHash, L: Ledger>(
    world: &mut World<X>,
    word: Word,
    rest: &str,
    tries: &mut Tries,
    told: &mut Block,
    touches: &mut Steps<L>,
) -> Result<bool, Memory> {
    match word {
        Word::Repeat => repeat::<X, N, L>(world, rest, tries, told, touches)?,
        Word::Within => try_within::<X, N, L>(world, rest, tries, told, touches)?,
        Word::Fails => fail_all::<X, N, L>(world, rest, tries, told, touches)?,
        Word::Stops => stop_all::<X, N, L>(world, rest, tries, told, touches)?,
        Word::Rooms | Word::Fronts => {
            try_prefixes::<X, N, L>(world, (word, rest), tries, told, touches)?
        }
        _ => return Ok(false),
    }
    Ok(true)
}

// Does what a word asks for once.
fn do_word<X: BlockHash, N: NameHash, L: Ledger>(
    world: &mut World<X>,
    word: Word,
    rest: &str,
    told: &mut Block,
    touches: &mut Steps<L>,
) -> Result<bool, Memory> {
    match word {
        Word::Asks | Word::And => set_asks(world, word, rest)?,
        Word::Blocks => tell_blocks(world, told)?,
        Word::Batch => {
            act_and_tell::<X, N, L>(world, Way::Batch(number_of(rest)), "", told, touches)?
        }
        Word::Devices => act_and_tell::<X, N, L>(world, Way::Devices, rest, told, touches)?,
        Word::AddBy => add_by::<X, N, L>(world, rest, told, touches)?,
        Word::GetWithin => get_within(world, rest, told, touches)?,
        _ => {
            let mut tries = Tries::new(world.alloc);
            return try_word::<X, N, L>(world, word, rest, &mut tries, told, touches);
        }
    }
    Ok(true)
}

// Does what a line after a `!` asks for.
fn change<X: BlockHash, N: NameHash, L: Ledger>(
    world: &mut World<X>,
    line: &str,
    told: &mut Block,
    touches: &mut Steps<L>,
) -> Result<(), Memory> {
    let (word, rest) = word_of(line);
    let is_done = match word {
        Some(word) => {
            do_word::<X, N, L>(world, word, rest, told, touches)? || set(world, word, line, rest)?
        }
        None => feed_world(world, line)?,
    };
    if is_done {
        return Ok(());
    }
    told.extend(b"> no such line\n")
}

impl<X: BlockHash, N: NameHash> Stage<N> for World<X> {
    fn step<L: Ledger>(
        &mut self,
        line: &str,
        told: &mut Block,
        touches: &mut Steps<L>,
    ) -> Result<(), Memory> {
        let (mark, rest) = line.split_once(' ').unwrap_or((line, ""));
        match mark {
            "$" => act_and_tell::<X, N, L>(self, Way::Command, rest, told, touches),
            "!" => change::<X, N, L>(self, rest, told, touches),
            _ => Ok(()),
        }
    }
}

// Does the lines of a part: those after a line `cache N` over a cache.
fn play_over<X: BlockHash, N: NameHash, L: Ledger>(
    world: &mut World<X>,
    title: &str,
    lines: &str,
    sheet: &mut Sheet,
    touches: &mut Steps<L>,
) -> Result<(), Memory> {
    match lines.split_once("\n! cache ") {
        None => play_lines::<N, World<X>, L>(world, title, lines, sheet, touches),
        Some((first, second)) => {
            play_lines::<N, World<X>, L>(world, title, first, sheet, touches)?;
            play_cached::<X, N, L>(world, title, second, sheet, touches)
        }
    }
}

fn play<X: BlockHash, N: NameHash, L: Ledger>(
    alloc: Global,
    title: &str,
    lines: &str,
    sheet: &mut Sheet,
    touches: &mut Steps<L>,
) -> Result<(), Memory> {
    let mut world = World::<X>::over(alloc, MemStore::new(alloc));
    play_over::<X, N, L>(&mut world, title, lines, sheet, touches)
}

/// How parts are played by commands: over a world, of which the first line says by which hashes its store names blocks
/// and places members.
pub struct ByCommands;

impl Parts for ByCommands {
    fn play<L: Ledger>(
        alloc: Global,
        title: &str,
        part: &str,
        sheet: &mut Sheet,
        touches: &mut Steps<L>,
    ) -> Result<(), Memory> {
        let (kind, _) = title.split_once(':').unwrap_or((title, ""));
        match kind {
            "@ sha256 letters" | "@ sha256 letters cached" => {
                play::<Sha256Hash, FirstEight, L>(alloc, title, part, sheet, touches)
            }
            "@ sum8 murmur3" => play::<Sum8Hash, Murmur3, L>(alloc, title, part, sheet, touches),
            _ => play::<Sha256Hash, Murmur3, L>(alloc, title, part, sheet, touches),
        }
    }
}
