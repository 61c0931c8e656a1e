//! Calls on varints and on hashes of names.

use std::alloc::Global;
use uf_cid::{Block, Memory};
use uf_murmur::{Murmur3, NameHash, slot};
use uf_playing::say_debug;
use uf_testing::{bytes_of, number_and_rest, number_of, say, say_digits, tell_count};
use uf_varint::{NumberField, read_multi, read_proto, skip_content, width, write};

/// What both readers say of some bytes: the shortest spelling alone, and any spelling.
pub fn read_both(alloc: Global, bytes: &[u8], told: &mut Block) -> Result<(), Memory> {
    say_debug(alloc, told, &read_multi(bytes))?;
    say_debug(alloc, told, &read_proto(bytes))
}

/// What is written of a number into ten bytes that are 9, and its length.
pub fn write_number(alloc: Global, number: u64, told: &mut Block) -> Result<(), Memory> {
    let mut out = [9u8; 10];
    tell_count(told, alloc, write(number, &mut out))?;
    tell_count(told, alloc, width(number))?;
    say_digits(told, &out)
}

/// How many bytes are left after a content of a wire type, or why it can't be cut: `skip WIRE BYTES`.
pub fn skip(alloc: Global, rest: &str, told: &mut Block) -> Result<(), Memory> {
    let (wire, digits) = number_and_rest(rest);
    let bytes = bytes_of(alloc, digits)?;
    match skip_content(wire, bytes.as_slice()) {
        Ok(left) => tell_count(told, alloc, left.len()),
        Err(fault) => say_debug(alloc, told, &fault),
    }
}

/// The bytes of a field that is a number: `field KEY N`.
pub fn write_field(rest: &str, told: &mut Block) -> Result<(), Memory> {
    let (key, number) = number_and_rest(rest);
    let key = key.min(255) as u8;
    say_digits(told, NumberField::new(key, number_of(number)).as_slice())
}

/// A hash of a name.
pub fn hash<N: NameHash>(alloc: Global, text: &str, told: &mut Block) -> Result<(), Memory> {
    let line = format!(in alloc; "{:016x}", N::name64(text.as_bytes()))?;
    say(told, line.as_str())
}

/// The slots of the hash of a name, from level to level.
pub fn say_slots(alloc: Global, text: &str, told: &mut Block) -> Result<(), Memory> {
    let hash = Murmur3::name64(text.as_bytes());
    for level in 0..8u8 {
        tell_count(told, alloc, usize::from(slot(hash, level)))?;
    }
    Ok(())
}
