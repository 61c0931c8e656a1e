//! Calls on CIDs and on small types.

use std::alloc::Global;
use uf_cid::{Block, Cid, Cids, Codec, Memory, Sha256Hash, Sizes, Sum8Hash, Text, Texts};
use uf_playing::{codec_of, say_cid, say_debug, size_of};
use uf_testing::{number_of, say, say_digits, tell_bytes, tell_count};

// Says what a CID is made of.
fn say_parts(told: &mut Block, cid: &Cid) -> Result<(), Memory> {
    say(
        told,
        if cid.codec == Codec::Raw {
            "raw"
        } else {
            "dag-pb"
        },
    )?;
    say_digits(told, &cid.digest)
}

/// Reads the text of a CID.
pub fn parse(alloc: Global, text: &str, told: &mut Block) -> Result<(), Memory> {
    match Cid::parse(text) {
        Ok(cid) => say_parts(told, &cid),
        Err(fault) => say_debug(alloc, told, &fault),
    }
}

/// Reads the bytes of a CID, which others may follow.
pub fn read_bytes(alloc: Global, bytes: &[u8], told: &mut Block) -> Result<(), Memory> {
    match Cid::read_binary(bytes) {
        Ok((cid, used)) => {
            say_parts(told, &cid)?;
            tell_count(told, alloc, used)
        }
        Err(fault) => say_debug(alloc, told, &fault),
    }
}

/// The text and the bytes of the CID of a block.
pub fn spell(word: &str, bytes: &[u8], told: &mut Block) -> Result<(), Memory> {
    let cid = Cid::of::<Sha256Hash>(codec_of(word), bytes);
    say_cid(told, &cid)?;
    say_digits(told, &cid.to_binary())
}

/// A block that grows by the bytes of each word, copied.
pub fn grow_block(alloc: Global, words: &str, told: &mut Block) -> Result<(), Memory> {
    let mut block = Block::with_capacity(alloc, 4)?;
    for word in words.split(' ') {
        block.extend(word.as_bytes())?;
    }
    let copy = block.copy()?;
    tell_bytes(told, alloc, b"> ", copy.as_slice())
}

/// A text that grows by each word, copied; and the same as the one item of a list, copied.
pub fn grow_text(alloc: Global, words: &str, told: &mut Block) -> Result<(), Memory> {
    let mut text = Text::new(alloc);
    for word in words.split(' ') {
        text.push_str(word)?;
    }
    let copy = text.copy()?;
    say(told, copy.as_str())?;
    let mut texts = Texts::new(alloc);
    texts.push(text)?;
    let copies = texts.copy()?;
    for copy in copies.as_slice() {
        say(told, copy.as_str())?;
    }
    Ok(())
}

/// A list of numbers, copied.
pub fn list_numbers(alloc: Global, words: &str, told: &mut Block) -> Result<(), Memory> {
    let mut sizes = Sizes::new(alloc);
    for word in words.split(' ') {
        sizes.push(number_of(word))?;
    }
    let copy = sizes.copy()?;
    for size in copy.as_slice() {
        tell_count(told, alloc, size_of(*size))?;
    }
    tell_count(told, alloc, sizes.len())
}

/// A list of the CID by sums of these bytes, copied.
pub fn list_cid(alloc: Global, bytes: &[u8], told: &mut Block) -> Result<(), Memory> {
    let mut cids = Cids::new(alloc);
    cids.push(Cid::of::<Sum8Hash>(Codec::Raw, bytes))?;
    let copy = cids.copy()?;
    for cid in copy.as_slice() {
        say_digits(told, &cid.digest)?;
    }
    Ok(())
}
