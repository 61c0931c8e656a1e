//! Numbers, CIDs and sources that lines name. A number of a call that is to fail is counted from 1; 0 is none.

use std::alloc::Global;
use uf_cid::{Cid, Codec, Memory, Sha256Hash};
use uf_edge::MemSource;
use uf_testing::{block_of, calls};

/// The codec that a word names.
pub fn codec_of(word: &str) -> Codec {
    if word == "raw" {
        Codec::Raw
    } else {
        Codec::DagPb
    }
}

/// A number that fits 32 bits.
pub fn small(number: u64) -> u32 {
    number.min(4294967295) as u32
}

/// A number of bytes.
pub fn size_of(number: u64) -> usize {
    number.min(268435456) as usize
}

/// The CID of a text; that of nothing where it has none.
pub fn cid_of(text: &str) -> Cid {
    match Cid::parse(text) {
        Ok(cid) => cid,
        Err(_) => Cid::of::<Sha256Hash>(Codec::Raw, b""),
    }
}

/// The call that is to fail, as streams count it.
pub fn failing(number: u64) -> Option<u64> {
    number.checked_sub(1)
}

/// A source of these bytes that gives n in a call, of which one may fail.
pub fn source_of(alloc: Global, bytes: &[u8], step: u64, fails: u64) -> Result<MemSource, Memory> {
    let block = block_of(alloc, bytes)?;
    let fails = calls(alloc, failing(fails))?;
    Ok(MemSource::new(block, size_of(step).max(1), fails))
}
