//! Calls on the bytes of nodes, messages, names and Heads, and on groups of pieces.
ghost use Rattle.std.specs.Prelude.{◌≡◌, ◌*◌, ◌<◌, ◌≤◌, ℕ, length, slice_index};

use sha2::{Digest, Sha256};
use std::alloc::Global;
use uf_cid::{Block, BlockHash, Memory, Sha256Hash, StrictFault};
use uf_dagpb::{Node, PbFault};
use uf_message::Message;
use uf_playing::{say_amount, say_cid, say_debug, size_of, small};
use uf_testing::{number_and_rest, number_of, say, tell_bytes, tell_count, two_numbers_and_rest};
use uf_tree::{
    BadProfile, Head, Name, NameFault, Profile, dir_node, file_node, head_text, read_dir_node,
    read_file_node, read_shard_node, shard_node,
};

fn say_content(alloc: Global, content: &Option<Block>, told: &mut Block) -> Result<(), Memory> {
    match content {
        Some(content) => tell_bytes(told, alloc, b"> content ", content.as_slice()),
        None => say(told, "no content"),
    }
}

// Says how many links a node has, and of the last one what it is, and what the content is.
fn say_node(alloc: Global, node: &Node, told: &mut Block) -> Result<(), Memory> {
    tell_count(told, alloc, node.links.len())?;
    if let Some(last) = node.links.as_slice().last() {
        say_cid(told, &last.cid)?;
        say_amount(alloc, told, last.tsize, last.name.as_str())?;
    }
    say_content(alloc, &node.content, told)
}

/// Reads a node as others may have written it: says what it has, or at `links` only how many links.
pub fn read_node(alloc: Global, word: &str, bytes: &[u8], told: &mut Block) -> Result<(), Memory> {
    match uf_dagpb::decode_lenient(alloc, bytes) {
        Ok(node) if word == "links" => tell_count(told, alloc, node.links.len()),
        Ok(node) => say_node(alloc, &node, told),
        Err(fault) => say_debug(alloc, told, &fault),
    }
}

/// Reads a node strictly, and writes it again: whether the bytes and their number are the same.
pub fn node_again(alloc: Global, bytes: &[u8]) -> Result<bool, StrictFault> {
    let node = uf_dagpb::decode_strict(alloc, bytes)?;
    let spelled = uf_dagpb::encode(alloc, &node)?;
    Ok(uf_dagpb::encoded_len(&node) == bytes.len() && spelled.as_slice() == bytes)
}

/// The same of a message.
pub fn message_again(alloc: Global, bytes: &[u8]) -> Result<bool, StrictFault> {
    let message = uf_message::decode_strict(alloc, bytes)?;
    let spelled = uf_message::encode(alloc, &message)?;
    Ok(spelled.as_slice() == bytes)
}

/// The same of the node of a file.
pub fn file_again(alloc: Global, bytes: &[u8]) -> Result<bool, StrictFault> {
    let node = read_file_node(alloc, bytes)?;
    let spelled = file_node(alloc, &node)?;
    Ok(spelled.as_slice() == bytes)
}

/// The same of the node of a directory.
pub fn dir_again(alloc: Global, bytes: &[u8]) -> Result<bool, StrictFault> {
    let node = read_dir_node(alloc, bytes)?;
    let spelled = dir_node(alloc, &node)?;
    Ok(spelled.as_slice() == bytes)
}

/// The same of the node of a directory in shards.
pub fn shard_again(alloc: Global, bytes: &[u8]) -> Result<bool, StrictFault> {
    let node = read_shard_node(alloc, bytes)?;
    let spelled = shard_node(alloc, &node)?;
    Ok(spelled.as_slice() == bytes)
}

/// Says whether a block is written again as it was read.
pub fn say_again(told: &mut Block, again: Result<bool, StrictFault>) -> Result<(), Memory> {
    match again {
        Ok(true) => say(told, "the same"),
        Ok(false) => say(told, "another"),
        Err(StrictFault::NotCanonical) => say(told, "not canonical"),
        Err(StrictFault::Memory) => Err(Memory),
    }
}

// Whether a block with this byte changed is read as one that is written so, or as none, and leniently without running
// out of memory.
fn is_sound(alloc: Global, bytes: &[u8]) -> bool {
    let is_strict = matches!(
        node_again(alloc, bytes),
        Ok(true) | Err(StrictFault::NotCanonical)
    );
    match uf_dagpb::decode_lenient(alloc, bytes) {
        Ok(_) => is_strict,
        Err(fault) => is_strict && fault != PbFault::Memory,
    }
}

// Whether that holds of each byte changed by each of three masks.
fn are_sound(alloc: Global, bytes: &[u8]) -> Result<bool, Memory> {
    let mut changed = Block::from_slice(alloc, bytes)?;
    let mut sound = true;
    for place in 0..bytes.len() {
        for mask in [1u8, 0x80, 0xff] {
            changed = Block::from_slice(alloc, &bytes[..place])?;
            changed.extend(&[bytes[place] ^ mask])?;
            changed.extend(&bytes[place + 1..])?;
            sound = sound && is_sound(alloc, changed.as_slice());
        }
    }
    Ok(sound)
}

/// Says whether that holds.
pub fn say_sound(alloc: Global, bytes: &[u8], told: &mut Block) -> Result<(), Memory> {
    let sound = are_sound(alloc, bytes)?;
    say(told, if sound { "sound" } else { "not sound" })
}

// Says all that a message has.
fn say_message(alloc: Global, message: &Message, told: &mut Block) -> Result<(), Memory> {
    let head = format!(in alloc;
        "{:?} {:?} {:?} {:?} {:?} {:?}",
        message.kind,
        message.filesize,
        message.hash_type,
        message.fanout,
        message.mode,
        message.mtime
    )?;
    say(told, head.as_str())?;
    for size in message.blocksizes.as_slice() {
        tell_count(told, alloc, size_of(*size))?;
    }
    say_content(alloc, &message.content, told)
}

/// Reads a message as others may have written it.
pub fn read_message(alloc: Global, bytes: &[u8], told: &mut Block) -> Result<(), Memory> {
    match uf_message::decode_lenient(alloc, bytes) {
        Ok(message) => say_message(alloc, &message, told),
        Err(fault) => say_debug(alloc, told, &fault),
    }
}

// Whether a text is a name, and copied is the same.
fn is_name(alloc: Global, text: &str) -> Result<bool, NameFault> {
    let name = Name::parse(alloc, text)?;
    match name.copy() {
        Ok(copy) => Ok(copy.as_str() == text && name.as_str() == text),
        Err(_) => Err(NameFault::Memory),
    }
}

/// Reads bytes as a name.
pub fn read_name(alloc: Global, bytes: &[u8], told: &mut Block) -> Result<(), Memory> {
    let text = str::from_utf8(bytes).unwrap_or("");
    match is_name(alloc, text) {
        Ok(true) => say(told, "a name"),
        Ok(false) => say(told, "another"),
        Err(NameFault::Bad) => say(told, "no name"),
        Err(NameFault::Memory) => Err(Memory),
    }
}

// The profile of three numbers.
fn profile_of(rest: &str) -> Result<Profile, BadProfile> {
    let (chunk, width, rest) = two_numbers_and_rest(rest);
    Profile::new(small(chunk), small(width), small(number_of(rest)))
}

/// Reads a profile: `profile CHUNK WIDTH THRESHOLD`.
pub fn read_profile(rest: &str, told: &mut Block) -> Result<(), Memory> {
    match profile_of(rest) {
        Ok(p) if p == Profile::usual() => say(told, "the usual profile"),
        Ok(_) => say(told, "a profile"),
        Err(BadProfile) => say(told, "no profile"),
    }
}

/// Reads a Head, and writes it as the newest version has it.
pub fn read_head(alloc: Global, bytes: &[u8], told: &mut Block) -> Result<(), Memory> {
    let Head { profile: p, root } = match uf_tree::read_head(alloc, bytes) {
        Ok(head) => head,
        Err(fault) => return say_debug(alloc, told, &fault),
    };
    let Ok(profile) = Profile::new(p.chunk, p.width, p.threshold) else {
        return say(told, "no profile");
    };
    let text = head_text(alloc, &Head { profile, root })?;
    tell_bytes(told, alloc, b"> ", text.as_slice())
}

// Whether n pieces that are hashed as one group have the digests of each by itself.
fn agree(bytes: &[u8], size: usize, out: &mut [[u8; 32]]) -> bool
    requires { length bytes.now ≡ length out.old * size }
{
    Sha256Hash::block32_group(bytes, size, out);
    for place in 0..out.len() {
        let piece = &bytes[place * size..place * size + size];
        if out[place] != Sha256::digest(piece) {
            return false;
        }
    }
    true
}

/// Hashes pieces of the input of one size, of which there may be seventeen: `group SIZE COUNT`.
pub fn hash_group(bytes: &[u8], rest: &str, told: &mut Block) -> Result<(), Memory> {
    let (size, count) = number_and_rest(rest);
    let (size, count) = (size_of(size), size_of(number_of(count)));
    let mut digests = [[0u8; 32]; 17];
    if count > 17 || size > 1048576 || bytes.len() < count * size {
        return say(told, "too few bytes");
    }
    let is_so = agree(&bytes[..count * size], size, &mut digests[..count]);
    say(told, if is_so { "agree" } else { "differ" })
}

// Seventeen lengths, each so much more than the one before it, up to 184 and then from 0 on.
fn lengths_from(first: usize, step: usize) -> [usize; 17]
    ensures { (k : ℕ) → k < 17 → slice_index result k ≤ 184 }
{
    let mut lengths = [0; 17];
    let mut next = first % 185;
    for k in 0..17 {
        lengths[k] = next;
        next = (next + step % 185) % 185;
    }
    lengths
}

// Whether blocks that are hashed where they lie, each at the head of a piece of 256 bytes, have the digests of each by
// itself.
fn agree_apart(bytes: &mut [u8], lengths: &[usize], out: &mut [[u8; 32]]) -> bool
    requires pieces { length bytes.old ≡ length out.old * 256 }
    requires lengths { length lengths.now ≡ length out.old }
    requires short { (k : ℕ) → k < length out.old → slice_index lengths.now k ≤ 184 }
{
    Sha256Hash::block32_apart(bytes, 256, lengths, out);
    for place in 0..out.len() {
        let block = &bytes[place * 256..place * 256 + lengths[place]];
        if out[place] != Sha256::digest(block) {
            return false;
        }
    }
    true
}

/// Hashes blocks of the input of unlike lengths, of which there may be seventeen: `apart FIRST STEP COUNT`.
pub fn hash_apart(input: &[u8], rest: &str, told: &mut Block) -> Result<(), Memory> {
    let (first, step, rest) = two_numbers_and_rest(rest);
    let count = size_of(number_of(rest));
    if count > 17 || input.len() < 4352 {
        return say(told, "too few bytes");
    }
    let mut bytes = [0u8; 4352];
    bytes.copy_from_slice(&input[..4352]);
    let mut digests = [[0u8; 32]; 17];
    let lengths = lengths_from(size_of(first), size_of(step));
    let (pieces, out) = (&mut bytes[..count * 256], &mut digests[..count]);
    let is_so = agree_apart(pieces, &lengths[..count], out);
    say(told, if is_so { "agree" } else { "differ" })
}
