//! Lines that say what came of calls.

use std::alloc::Global;
use std::fmt::Debug;
use uf_cid::{Block, Cid, Cids, Memory};
use uf_testing::say;

/// Says a word, and the number that it is about.
pub fn say_number(alloc: Global, told: &mut Block, word: &str, number: u64) -> Result<(), Memory> {
    let line = format!(in alloc; "{word} {number}")?;
    say(told, line.as_str())
}

/// Says how many there are of what a word names.
pub fn say_amount(alloc: Global, told: &mut Block, number: u64, word: &str) -> Result<(), Memory> {
    let line = format!(in alloc; "{number} {word}")?;
    say(told, line.as_str())
}

/// Says a value as its `Debug` writes it.
pub fn say_debug<D: Debug>(alloc: Global, told: &mut Block, value: &D) -> Result<(), Memory> {
    let line = format!(in alloc; "{value:?}")?;
    say(told, line.as_str())
}

/// Says a CID.
pub fn say_cid(told: &mut Block, cid: &Cid) -> Result<(), Memory> {
    say(told, str::from_utf8(&cid.text()).unwrap_or("?"))
}

/// Says a word, and the CID that it is about.
pub fn say_about(told: &mut Block, word: &str, cid: &Cid) -> Result<(), Memory> {
    say(told, word)?;
    say_cid(told, cid)
}

/// Says all CIDs of a list, and that there are no more.
pub fn say_cids(told: &mut Block, cids: &Cids) -> Result<(), Memory> {
    for cid in cids.as_slice() {
        say_cid(told, cid)?;
    }
    say(told, "no more")
}
