//! What came of rows, as lines.

use std::alloc::Global;
use uf_cid::{Block, BlockHash, Memory, Sha256Hash};

const DIGITS: &[u8; 16] = b"0123456789abcdef";

// Of more bytes their number and their hash is reported.
const MOST: usize = 4096;

// A byte in hexadecimal digits.
fn tell_digits(told: &mut Block, byte: u8) -> Result<(), Memory> {
    let high = DIGITS[(byte / 16) as usize];
    let low = DIGITS[(byte % 16) as usize];
    told.extend(&[high, low])
}

// A byte of a line: as it is where it can be read, and else in hexadecimal digits.
fn tell_byte(told: &mut Block, byte: u8) -> Result<(), Memory> {
    match byte {
        b'\\' => told.extend(b"\\\\"),
        b' '..=b'~' => told.extend(&[byte]),
        _ => {
            told.extend(b"\\x")?;
            tell_digits(told, byte)
        }
    }
}

// A line after its mark.
fn tell_line(told: &mut Block, mark: &[u8], line: &[u8]) -> Result<(), Memory> {
    told.extend(mark)?;
    for byte in line {
        tell_byte(told, *byte)?;
    }
    Ok(())
}

// Bytes as lines after a mark. A backslash ends the last one where it has no end.
fn tell_lines(told: &mut Block, mark: &[u8], bytes: &[u8]) -> Result<(), Memory> {
    for line in bytes.split_inclusive(|byte| *byte == b'\n') {
        match line.strip_suffix(b"\n") {
            Some(whole) => {
                tell_line(told, mark, whole)?;
                told.extend(b"\n")?;
            }
            None => {
                tell_line(told, mark, line)?;
                told.extend(b"\\\n")?;
            }
        }
    }
    Ok(())
}

// The number of bytes and their hash.
fn tell_hash(told: &mut Block, alloc: Global, mark: &[u8], bytes: &[u8]) -> Result<(), Memory> {
    let number = format!(in alloc; "{} bytes of sha256 ", bytes.len())?;
    told.extend(mark)?;
    told.extend(number.as_bytes())?;
    for byte in Sha256Hash::block32(bytes) {
        tell_digits(told, byte)?;
    }
    told.extend(b"\n")
}

/// Bytes after a mark: as lines, or where they are many by their hash.
pub fn tell_bytes(
    told: &mut Block,
    alloc: Global,
    mark: &[u8],
    bytes: &[u8],
) -> Result<(), Memory> {
    if bytes.len() > MOST {
        tell_hash(told, alloc, mark, bytes)
    } else {
        tell_lines(told, mark, bytes)
    }
}

/// How many of something there are.
pub fn tell_count(told: &mut Block, alloc: Global, count: usize) -> Result<(), Memory> {
    let line = format!(in alloc; "> {count}\n")?;
    told.extend(line.as_bytes())
}

/// A line that says this.
pub fn say(told: &mut Block, text: &str) -> Result<(), Memory> {
    told.extend(b"> ")?;
    told.extend(text.as_bytes())?;
    told.extend(b"\n")
}

/// A line of bytes in hexadecimal digits.
pub fn say_digits(told: &mut Block, bytes: &[u8]) -> Result<(), Memory> {
    told.extend(b"> ")?;
    for byte in bytes {
        tell_digits(told, *byte)?;
    }
    told.extend(b"\n")
}
