//! Commands over a store with a cache.

use crate::setting::feed_world;
use crate::world::{Ends, World, words_in};
use std::mem;
use std::sync::ledger::Ledger;
use uf_cache::Cached;
use uf_cid::{Block, BlockHash, Memory};
use uf_edge::{MemHost, MemSink, MemSource};
use uf_murmur::NameHash;
use uf_store::{MemStore, Steps, Store, Sweep};
use uf_testing::{Sheet, Stage, number_of, play_lines};
use uf_top::run;

fn act_over<X: BlockHash, S: Sweep, N: NameHash, L: Ledger>(
    world: &mut World<X>,
    store: &mut Cached<S>,
    words: &[String],
    ends: &mut Ends,
    touches: &mut Steps<L>,
) -> Result<(), Memory> {
    let status = run::<Cached<S>, N, MemHost, MemSource, MemSink, MemSink, L>(
        world.alloc,
        words,
        store,
        &mut world.host,
        &mut ends.input,
        &mut ends.output,
        &mut ends.errors,
        touches,
    );
    world.note(ends, status, false)
}

// Does a command over the cache, and reports what came of it, but not whether it wrote.
fn act_cached<X: BlockHash, S: Sweep, N: NameHash, L: Ledger>(
    world: &mut World<X>,
    store: &mut Cached<S>,
    line: &str,
    told: &mut Block,
    touches: &mut Steps<L>,
) -> Result<(), Memory> {
    let words = words_in(world.alloc, line)?;
    let mut ends = world.take_ends()?;
    act_over::<X, S, N, L>(world, store, &words, &mut ends, touches)?;
    world.tell(b"", told)
}

// Sets the input.
fn change<X: BlockHash>(world: &mut World<X>, line: &str, told: &mut Block) -> Result<(), Memory> {
    if feed_world(world, line)? {
        return Ok(());
    }
    told.extend(b"> no such line\n")
}

// A world, and a cache over its store.
#[derive(Drop)]
struct OverCache<X: BlockHash, S: Store> {
    world: World<X>,
    store: Cached<S>,
}

impl<X: BlockHash, S: Sweep, N: NameHash> Stage<N> for OverCache<X, S> {
    fn step<L: Ledger>(
        &mut self,
        line: &str,
        told: &mut Block,
        touches: &mut Steps<L>,
    ) -> Result<(), Memory> {
        let (mark, rest) = line.split_once(' ').unwrap_or((line, ""));
        match mark {
            "$" => {
                act_cached::<X, S, N, L>(&mut self.world, &mut self.store, rest, told, touches)
            }
            "!" => change(&mut self.world, rest, told),
            _ => Ok(()),
        }
    }
}

// Puts a cache of this size over the store of a world, and does lines over it.
fn play_over<X: BlockHash, N: NameHash, L: Ledger>(
    world: &mut World<X>,
    entries: usize,
    part: (&str, &str),
    sheet: &mut Sheet,
    touches: &mut Steps<L>,
) -> Result<(), Memory> {
    let below = mem::replace(&mut world.store, MemStore::new(world.alloc));
    let store = Cached::new(world.alloc, below, entries.max(1))?;
    let nothing = World::over(world.alloc, MemStore::new(world.alloc));
    let world = mem::replace(world, nothing);
    let mut stage = OverCache { world, store };
    play_lines::<N, OverCache<X, MemStore<X>>, L>(&mut stage, part.0, part.1, sheet, touches)
}

/// Does the lines after a line `cache N` over a cache of N entries; the number comes first.
pub fn play_cached<X: BlockHash, N: NameHash, L: Ledger>(
    world: &mut World<X>,
    title: &str,
    second: &str,
    sheet: &mut Sheet,
    touches: &mut Steps<L>,
) -> Result<(), Memory> {
    let (entries, rest) = second.split_once('\n').unwrap_or((second, ""));
    sheet.count_line();
    let line = format!(in world.alloc; "! cache {entries}")?;
    sheet.tell(line.as_str())?;
    let entries = number_of(entries).min(1024) as usize;
    play_over::<X, N, L>(world, entries, (title, rest), sheet, touches)
}
