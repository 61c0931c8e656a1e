//! Bytes that lines spell.

use crate::streams::block_of;
use crate::words::{number_and_rest, number_of, word_and_rest};
use hex::decode;
use std::alloc::Global;
use uf_cid::{Block, Memory};

// The bytes of a piece in which zeros are made.
const PIECE: usize = 65536;

/// The bytes that hexadecimal digits spell; none where they are wrong.
pub fn bytes_of(alloc: Global, digits: &str) -> Result<Block, Memory> {
    match decode(alloc, digits) {
        Ok(bytes) => block_of(alloc, &bytes),
        Err(_) => Ok(Block::new(alloc)),
    }
}

// n bytes, each of which says its place, but a `z` at one.
fn add_various(input: &mut Block, rest: &str) -> Result<(), Memory> {
    let (count, changed) = number_and_rest(rest);
    let changed = changed.parse::<u64>().unwrap_or(u64::MAX);
    for place in 0..count {
        let byte = if place == changed {
            b'z'
        } else {
            (place % 251) as u8
        };
        input.extend(&[byte])?;
    }
    Ok(())
}

// n zero bytes.
fn zeros(alloc: Global, rest: &str) -> Result<Block, Memory> {
    let count = number_of(rest).min(268435457) as usize;
    let mut zeros = Block::with_capacity(alloc, count)?;
    let piece = vec![in alloc; 0u8; PIECE]?;
    for _ in 0..count / PIECE {
        zeros.extend(&piece)?;
    }
    zeros.extend(&piece[..count % PIECE])?;
    Ok(zeros)
}

fn add_spaces(input: &mut Block, rest: &str) -> Result<(), Memory> {
    for _ in 0..number_of(rest) {
        input.extend(b" ")?;
    }
    Ok(())
}

// A line, with this number for its `#`.
fn add_numbered(
    alloc: Global,
    input: &mut Block,
    words: (&str, &str),
    number: u64,
) -> Result<(), Memory> {
    let line = format!(in alloc; "{}{number}{}\n", words.0, words.1)?;
    input.extend(line.as_bytes())
}

// A line for each number from the first to the last.
fn add_lines(alloc: Global, input: &mut Block, rest: &str) -> Result<(), Memory> {
    let (first, rest) = number_and_rest(rest);
    let (last, words) = number_and_rest(rest);
    let words = words.split_once('#').unwrap_or((words, ""));
    for number in first..last.saturating_add(1) {
        add_numbered(alloc, input, words, number)?;
    }
    Ok(())
}

fn add_line(input: &mut Block, rest: &str) -> Result<(), Memory> {
    input.extend(rest.as_bytes())?;
    input.extend(b"\n")
}

fn add_hex(alloc: Global, input: &mut Block, rest: &str) -> Result<(), Memory> {
    let bytes = bytes_of(alloc, rest)?;
    input.extend(bytes.as_slice())
}

// The input so far, repeated.
fn add_times(alloc: Global, input: &mut Block, rest: &str) -> Result<(), Memory> {
    let once = block_of(alloc, input.as_slice())?;
    for _ in 1..number_of(rest) {
        input.extend(once.as_slice())?;
    }
    Ok(())
}

// n zeros after the input so far.
fn add_zeros(alloc: Global, input: &mut Block, rest: &str) -> Result<(), Memory> {
    let more = zeros(alloc, rest)?;
    input.extend(more.as_slice())
}

// Another input in the place of this one; whether the word asks for it.
fn set_input(alloc: Global, input: &mut Block, word: &str, rest: &str) -> Result<bool, Memory> {
    match word {
        "input" => *input = block_of(alloc, rest.as_bytes())?,
        "zeros" => *input = zeros(alloc, rest)?,
        _ => return Ok(false),
    }
    Ok(true)
}

/// Sets the input, or puts more after it; whether the line asks for that.
pub fn feed(alloc: Global, input: &mut Block, line: &str) -> Result<bool, Memory> {
    let (word, rest) = word_and_rest(line);
    match word {
        "text" => input.extend(rest.as_bytes())?,
        "line" => add_line(input, rest)?,
        "lines" => add_lines(alloc, input, rest)?,
        "pad" => add_zeros(alloc, input, rest)?,
        "spaces" => add_spaces(input, rest)?,
        "hex" => add_hex(alloc, input, rest)?,
        "various" => add_various(input, rest)?,
        "times" => add_times(alloc, input, rest)?,
        _ => return set_input(alloc, input, word, rest),
    }
    Ok(true)
}
