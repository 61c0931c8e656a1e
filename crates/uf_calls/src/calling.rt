//! The calls of this program, and parts that put a cache over the store.

use crate::nodes::say_again;
use crate::{cids, edges, hosts, nodes, numbers, paths, pins, walks};
use std::alloc::Global;
use std::sync::ledger::Ledger;
use uf_cache::Cached;
use uf_cid::{Block, BlockHash, Memory};
use uf_murmur::{FirstEight, Murmur3};
use uf_playing::{Call, Caller, Player, Scene, call_store, say_made, sweep};
use uf_store::{MemStore, Steps, Store, StoreFault, Sweep};
use uf_testing::{Sheet, Stage, bytes_of, number_of, play_lines, tell_count, word_and_rest};

/// The calls of this program, and how it plays the parts.
pub struct BaseCalls;

impl Caller for BaseCalls {
    fn call<X: BlockHash, L: Ledger>(
        call: &mut Call<X, L>,
        word: &str,
        rest: &str,
    ) -> Result<bool, StoreFault> {
        let alloc = call.alloc;
        match word {
            "pin" => pins::pin(call, rest)?,
            "unpin" => pins::unpin(call, rest)?,
            "list-pins" => pins::list(call)?,
            "collect" => pins::collect(call, rest)?,
            "make" => hosts::make(call.host, rest, call.told)?,
            "grow" => hosts::grow(alloc, call.host, rest, call.told)?,
            "kind" => hosts::say_kind(call.host, rest, call.told)?,
            "meet" => hosts::say_met(call.host, rest, call.told)?,
            "read-at" => hosts::read_at(alloc, call.host, rest, call.told)?,
            _ => {
                let input = call.input.as_slice();
                return Ok(
                    call_on_input(alloc, input, word, rest, call.told)?
                        || call_on_words(alloc, word, rest, call.told)?
                        || call_on_bytes(alloc, input, word, rest, call.told)?,
                );
            }
        }
        Ok(true)
    }
}

impl Player for BaseCalls {
    // What is after a line `! cache N` is played over a cache.
    fn play<X: BlockHash, L: Ledger>(
        scene: &mut Scene<X>,
        title: &str,
        part: &str,
        sheet: &mut Sheet,
        touches: &mut Steps<L>,
    ) -> Result<(), Memory> {
        let Some((first, second)) = part.split_once("\n! cache ") else {
            return play_lines::<BaseCalls, Scene<X>, L>(scene, title, part, sheet, touches);
        };
        let (entries, rest) = second.split_once('\n').unwrap_or((second, ""));
        play_lines::<BaseCalls, Scene<X>, L>(scene, title, first, sheet, touches)?;
        sheet.count_line();
        let line = format!(in scene.alloc; "! cache {entries}")?;
        sheet.tell(line.as_str())?;
        play_over(scene, number_of(entries), (title, rest), sheet, touches)
    }
}

// Calls on the bytes of the input.
fn call_on_input(
    alloc: Global,
    input: &[u8],
    word: &str,
    rest: &str,
    told: &mut Block,
) -> Result<bool, Memory> {
    let text = str::from_utf8(input).unwrap_or("");
    match word {
        "pins" => pins::read(alloc, input, told)?,
        "read-all" => edges::read_all(alloc, input, rest, told)?,
        "fill" => edges::fill(alloc, input, rest, told)?,
        "write-twice" => edges::send_twice(alloc, input, rest, told)?,
        "lines" => edges::lines(alloc, input, rest, told)?,
        "path" => paths::read_path(alloc, text, told)?,
        "dag-path" => paths::read_dag_path(alloc, text, told)?,
        "target" => paths::read_target(alloc, text, told)?,
        "profile" => nodes::read_profile(rest, told)?,
        "group" => nodes::hash_group(input, rest, told)?,
        "apart" => nodes::hash_apart(input, rest, told)?,
        _ => return Ok(false),
    }
    Ok(true)
}

// Calls on what follows their word.
fn call_on_words(alloc: Global, word: &str, rest: &str, told: &mut Block) -> Result<bool, Memory> {
    match word {
        "walk" => walks::walk(alloc, rest, told)?,
        "cid" => cids::parse(alloc, rest, told)?,
        "block" => cids::grow_block(alloc, rest, told)?,
        "text" => cids::grow_text(alloc, rest, told)?,
        "sizes" => cids::list_numbers(alloc, rest, told)?,
        "murmur3" => numbers::hash::<Murmur3>(alloc, rest, told)?,
        "first-eight" => numbers::hash::<FirstEight>(alloc, rest, told)?,
        "slots" => numbers::say_slots(alloc, rest, told)?,
        "number" => numbers::write_number(alloc, number_of(rest), told)?,
        "field" => numbers::write_field(rest, told)?,
        "skip" => numbers::skip(alloc, rest, told)?,
        _ => return Ok(false),
    }
    Ok(true)
}

// Calls on the bytes of the input, with those that the line spells after them.
fn call_on_bytes(
    alloc: Global,
    input: &[u8],
    word: &str,
    rest: &str,
    told: &mut Block,
) -> Result<bool, Memory> {
    let mut block = Block::from_slice(alloc, input)?;
    block.extend(bytes_of(alloc, rest)?.as_slice())?;
    let bytes = block.as_slice();
    match word {
        "varint" => numbers::read_both(alloc, bytes, told)?,
        "cid-bytes" => cids::read_bytes(alloc, bytes, told)?,
        "sum8" => cids::list_cid(alloc, bytes, told)?,
        "raw" | "dag-pb" => cids::spell(word, bytes, told)?,
        "node" | "links" => nodes::read_node(alloc, word, bytes, told)?,
        "node-changed" => nodes::say_sound(alloc, bytes, told)?,
        "message" => nodes::read_message(alloc, bytes, told)?,
        "name" => nodes::read_name(alloc, bytes, told)?,
        "head" => nodes::read_head(alloc, bytes, told)?,
        "node-again" => say_again(told, nodes::node_again(alloc, bytes))?,
        "message-again" => say_again(told, nodes::message_again(alloc, bytes))?,
        "file-again" => say_again(told, nodes::file_again(alloc, bytes))?,
        "directory-again" => say_again(told, nodes::dir_again(alloc, bytes))?,
        "shard-again" => say_again(told, nodes::shard_again(alloc, bytes))?,
        _ => return Ok(false),
    }
    Ok(true)
}

// A cache over the store of a scene.
#[derive(Drop)]
struct OverCache<S: Store> {
    alloc: Global,
    store: Cached<S>,
}

impl<S: Sweep> Stage<BaseCalls> for OverCache<S> {
    fn step<L: Ledger>(
        &mut self,
        line: &str,
        told: &mut Block,
        touches: &mut Steps<L>,
    ) -> Result<(), Memory> {
        let (_, line) = word_and_rest(line);
        let (word, rest) = word_and_rest(line);
        match word {
            "" => Ok(()),
            "kept" => tell_count(told, self.alloc, self.store.count()),
            "sweep" => sweep(self.alloc, &mut self.store, rest, told),
            _ => {
                let answer = call_store(self.alloc, &mut self.store, line, told, touches);
                say_made(self.alloc, &answer, told)
            }
        }
    }
}

// Puts a cache over the store of a scene, and plays the lines after it.
fn play_over<X: BlockHash, L: Ledger>(
    scene: &mut Scene<X>,
    entries: u64,
    part: (&str, &str),
    sheet: &mut Sheet,
    touches: &mut Steps<L>,
) -> Result<(), Memory> {
    let below = scene.take_store();
    let entries = entries.min(1024).max(1) as usize;
    let store = Cached::new(scene.alloc, below, entries)?;
    let mut stage = OverCache {
        alloc: scene.alloc,
        store,
    };
    play_lines::<BaseCalls, OverCache<MemStore<X>>, L>(&mut stage, part.0, part.1, sheet, touches)
}
