//! A store, a host and streams in memory, and commands over them. What owns several of them leaves at one place, since
//! each way out of it has to be proved.

use crate::devices::act_on_devices;
use crate::hosting::host_with;
use crate::outcome::tell_status;
use std::alloc::Global;
use std::mem;
use std::sync::ledger::Ledger;
use uf_cid::{Block, BlockHash, Memory, Text};
use uf_edge::{Calls, MemHost, MemSink, MemSource};
use uf_murmur::NameHash;
use uf_store::{MemStore, Steps};
use uf_testing::{ROOMY, Streams, block_of, calls, number_and_rest, sink, tell_bytes, words_of};
use uf_top::{Status, batch, run};

/// What commands are done over, and what came of the last one.
#[derive(Drop)]
pub struct World<X: BlockHash> {
    pub alloc: Global,
    pub store: MemStore<X>,
    pub other: MemStore<X>,
    pub host: MemHost,
    // The lines that say what was put into the host.
    pub planted: Text,
    pub input: Block,
    pub streams: Streams,
    // The commands that are asked what is left.
    pub asks: Text,
    pub output: Block,
    errors: Block,
    status: u8,
    wrote: bool,
}

/// The streams of one command.
#[derive(Drop)]
pub struct Ends {
    pub input: MemSource,
    pub output: MemSink,
    pub errors: MemSink,
}

impl<X: BlockHash> World<X> {
    /// One over this store, with nothing else in it.
    pub fn over(alloc: Global, store: MemStore<X>) -> Self {
        World {
            alloc,
            store,
            other: MemStore::new(alloc),
            host: MemHost::new(alloc, Calls::new(alloc)),
            planted: Text::new(alloc),
            input: Block::new(alloc),
            streams: ROOMY,
            asks: Text::new(alloc),
            output: Block::new(alloc),
            errors: Block::new(alloc),
            status: 0,
            wrote: false,
        }
    }

    /// A store that holds the same, and of which no call is to fail.
    pub fn store_copied(&self) -> Result<MemStore<X>, Memory> {
        self.store_after(self.store.writes(), false)
    }

    /// What a stop after this many writes leaves, where all saves survived it or all that could be lost are lost.
    pub fn store_after(&self, at: usize, is_lossy: bool) -> Result<MemStore<X>, Memory> {
        let lost = places(self.alloc, if is_lossy { at as u64 } else { 0 })?;
        self.store.after_stop(at.min(self.store.writes()), &lost)
    }

    /// A host anew that has what was put into it, and of which a call may fail.
    pub fn renew_host(&mut self, fails: Option<u64>) -> Result<(), Memory> {
        self.host = host_with(self.alloc, self.planted.as_str(), fails)?;
        Ok(())
    }

    /// The streams of the next command. They take the input.
    pub fn take_ends(&mut self) -> Result<Ends, Memory> {
        let input = mem::replace(&mut self.input, Block::new(self.alloc));
        ends_of(self.alloc, &self.streams, input)
    }

    /// Notes what came of a command.
    pub fn note(&mut self, ends: &Ends, status: Status, wrote: bool) -> Result<(), Memory> {
        self.output = block_of(self.alloc, ends.output.bytes())?;
        self.errors = block_of(self.alloc, ends.errors.bytes())?;
        self.status = status.number();
        self.wrote = wrote;
        Ok(())
    }

    /// Reports what came of the last command. Nothing is reported of what it printed where that is a prefix of this.
    pub fn tell(&self, whole: &[u8], told: &mut Block) -> Result<(), Memory> {
        let printed = self.output.as_slice();
        if whole.len() <= printed.len() || !whole.starts_with(printed) {
            tell_bytes(told, self.alloc, b"> ", printed)?;
        }
        tell_bytes(told, self.alloc, b"? ", self.errors.as_slice())?;
        tell_status(told, self.alloc, self.status, self.wrote)
    }
}

// The streams of a command that has this input.
fn ends_of(alloc: Global, streams: &Streams, input: Block) -> Result<Ends, Memory> {
    let fails = calls(alloc, streams.input_fails)?;
    let input = MemSource::new(input, 65536, fails);
    let output = sink(alloc, streams.room, streams.output_fails)?;
    let errors = sink(alloc, 65536, streams.errors_fail)?;
    Ok(Ends {
        input,
        output,
        errors,
    })
}

// The places below this one.
fn places(alloc: Global, end: u64) -> Result<Calls, Memory> {
    let mut places = Calls::new(alloc);
    for place in 0..end {
        places.push(place)?;
    }
    Ok(places)
}

// Puts a text after another one, n times.
fn push_times(whole: &mut Text, text: &str, count: u64) -> Result<(), Memory> {
    for _ in 0..count {
        whole.push_str(text)?;
    }
    Ok(())
}

// Puts a line after a text, in which `{N TEXT}` stands for N times that text.
fn push_expanded(whole: &mut Text, line: &str) -> Result<(), Memory> {
    let (front, rest) = line.split_once('{').unwrap_or((line, ""));
    let (inner, behind) = rest.split_once('}').unwrap_or((rest, ""));
    let (count, text) = number_and_rest(inner);
    whole.push_str(front)?;
    push_times(whole, text, count)?;
    whole.push_str(behind)
}

/// The words of a line, in which `{N TEXT}` stands for N times that text.
pub fn words_in(alloc: Global, line: &str) -> Result<Vec<String>, Memory> {
    let mut whole = Text::new(alloc);
    push_expanded(&mut whole, line)?;
    words_of(alloc, whole.as_str())
}

/// How words are done: as a command, over a host of devices alone, or not at all, but the lines of the input as a
/// batch of at most this many bytes.
#[derive(Clone, Copy)]
pub enum Way {
    Command,
    Devices,
    Batch(u64),
}

/// Does a line in a way.
pub fn act<X: BlockHash, N: NameHash, L: Ledger>(
    world: &mut World<X>,
    way: Way,
    line: &str,
    touches: &mut Steps<L>,
) -> Result<(), Memory> {
    let words = words_in(world.alloc, line)?;
    let mut ends = world.take_ends()?;
    act_by::<X, N, L>(world, way, &words, &mut ends, touches)
}

fn act_by<X: BlockHash, N: NameHash, L: Ledger>(
    world: &mut World<X>,
    way: Way,
    words: &[String],
    ends: &mut Ends,
    touches: &mut Steps<L>,
) -> Result<(), Memory> {
    match way {
        Way::Command => act_over::<X, N, L>(world, words, ends, touches),
        Way::Devices => act_on_devices::<X, N, L>(world, words, ends, touches),
        Way::Batch(limit) => batch_over::<X, N, L>(world, limit, ends, touches),
    }
}

fn act_over<X: BlockHash, N: NameHash, L: Ledger>(
    world: &mut World<X>,
    words: &[String],
    ends: &mut Ends,
    touches: &mut Steps<L>,
) -> Result<(), Memory> {
    let before = world.store.writes();
    let status = run::<MemStore<X>, N, MemHost, MemSource, MemSink, MemSink, L>(
        world.alloc,
        words,
        &mut world.store,
        &mut world.host,
        &mut ends.input,
        &mut ends.output,
        &mut ends.errors,
        touches,
    );
    let wrote = before != world.store.writes();
    world.note(ends, status, wrote)
}

/// Does a line in a way, and reports what came of it.
pub fn act_and_tell<X: BlockHash, N: NameHash, L: Ledger>(
    world: &mut World<X>,
    way: Way,
    line: &str,
    told: &mut Block,
    touches: &mut Steps<L>,
) -> Result<(), Memory> {
    act::<X, N, L>(world, way, line, touches)?;
    world.tell(b"", told)
}

fn batch_over<X: BlockHash, N: NameHash, L: Ledger>(
    world: &mut World<X>,
    limit: u64,
    ends: &mut Ends,
    touches: &mut Steps<L>,
) -> Result<(), Memory> {
    let before = world.store.writes();
    let status = batch::<MemStore<X>, N, MemHost, MemSource, MemSink, MemSink, L>(
        world.alloc,
        limit,
        &mut world.store,
        &mut world.host,
        &mut ends.input,
        &mut ends.output,
        &mut ends.errors,
        touches,
    );
    let wrote = before < world.store.writes();
    world.note(ends, status, wrote)
}
