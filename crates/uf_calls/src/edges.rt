//! Calls on sources, sinks and lines in memory. A number of a call that is to fail is counted from 1; 0 is none.

use std::alloc::Global;
use uf_cid::{Block, Memory};
use uf_edge::{Filled, Intake, MemSource, Sent, write_all};
use uf_lines::{Line, Lines};
use uf_playing::{failing, say_debug, size_of, source_of};
use uf_testing::{
    number_and_rest, number_of, say, sink, tell_bytes, tell_count, two_numbers_and_rest,
};

/// Reads all of a source of at most n bytes: `read-all STEP LIMIT CALL`.
pub fn read_all(alloc: Global, bytes: &[u8], rest: &str, told: &mut Block) -> Result<(), Memory> {
    let (step, limit, rest) = two_numbers_and_rest(rest);
    let mut input = source_of(alloc, bytes, step, number_of(rest))?;
    match uf_edge::read_all(alloc, &mut input, limit) {
        Ok(got) => tell_bytes(told, alloc, b"> ", got.as_slice()),
        Err(Intake::TooLong) => say(told, "too long"),
        Err(Intake::Failed) => say(told, "failed"),
        Err(Intake::Memory) => Err(Memory),
    }
}

/// Fills a buffer: `fill STEP SIZE CALL`.
pub fn fill(alloc: Global, bytes: &[u8], rest: &str, told: &mut Block) -> Result<(), Memory> {
    let (step, size, rest) = two_numbers_and_rest(rest);
    let mut input = source_of(alloc, bytes, step, number_of(rest))?;
    let mut buffer = uf_cid::zeros(alloc, size.min(65536) as usize)?;
    match uf_edge::fill(&mut input, &mut buffer) {
        Filled::Full => tell_bytes(told, alloc, b"> full of ", &buffer),
        Filled::Ended(count) => {
            tell_count(told, alloc, count)?;
            tell_bytes(told, alloc, b"> ", &buffer[..count.min(buffer.len())])
        }
        Filled::Failed => say(told, "failed"),
    }
}

/// Writes bytes twice into a sink with ROOM bytes of room: `write-twice ROOM CALL`.
pub fn send_twice(alloc: Global, bytes: &[u8], rest: &str, told: &mut Block) -> Result<(), Memory> {
    let (room, rest) = number_and_rest(rest);
    let mut output = sink(alloc, room.min(65536) as usize, failing(number_of(rest)))?;
    let _ = write_all(&mut output, bytes);
    let sent = write_all(&mut output, bytes);
    say(told, if sent == Sent::Done { "done" } else { "failed" })?;
    tell_bytes(told, alloc, b"> ", output.bytes())
}

// Says a line that was given.
fn say_given(alloc: Global, bytes: &[u8], told: &mut Block) -> Result<(), Memory> {
    let mut line = Block::from_slice(alloc, bytes)?;
    line.extend(b"\n")?;
    tell_bytes(told, alloc, b"> line ", line.as_slice())
}

// Takes the lines of a source, at most a thousand.
fn take_lines(
    alloc: Global,
    most: usize,
    limit: u64,
    input: &mut MemSource,
    told: &mut Block,
) -> Result<(), Memory> {
    let mut lines = Lines::new(alloc, most, limit);
    for _ in 0..1000 {
        let line = lines.next(input);
        if line != Line::Given {
            return say_debug(alloc, told, &line);
        }
        say_given(alloc, lines.line(), told)?;
    }
    Ok(())
}

/// The lines of a source: `lines STEP MOST LIMIT CALL`.
pub fn lines(alloc: Global, bytes: &[u8], rest: &str, told: &mut Block) -> Result<(), Memory> {
    let (step, most, rest) = two_numbers_and_rest(rest);
    let (limit, rest) = number_and_rest(rest);
    let mut input = source_of(alloc, bytes, step, number_of(rest))?;
    take_lines(alloc, size_of(most), limit, &mut input, told)
}
