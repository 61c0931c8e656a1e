//! The note Pins, version 1, read.
ghost use Rattle.std.specs.Prelude.{◌≡◌, ◌↔◌, IsTrue};
ghost use Rattle.std.specs.Option.{option_map};
ghost use Rattle.uf_tree.specs.HeadReading.{line_at};
ghost use Rattle.uf_pins.specs.Reading.{BeginsLine, ReadsPins, Spells};
ghost use Rattle.uf_pins.specs.Texts.{AreAscending, IsAbove, IsBefore};

use crate::PinsFault;
use std::alloc::Global;
use std::cmp::Ordering;
use uf_cid::{Cid, Cids, cids_are_whole};

/// The CIDs that a note lists, or its first fault from left to right. The texts that are read are those that
/// `pins_text` writes, and no other.
pub fn read_pins(alloc: Global, bytes: &[u8]) -> Result<Cids, PinsFault>
    ensures { ReadsPins bytes.now result }
{
    let Some(behind) = bytes.strip_prefix(b"unixfs-pins 1\n") else {
        return Err(PinsFault::Version);
    };
    let mut pins = Cids::new(alloc);
    let mut rest = behind;
    while !rest.is_empty() {
        let number = pins.len() as u64 + 2;
        let Some((cid, after)) = first_cid(rest) else {
            return Err(PinsFault::Line(number));
        };
        if !is_above(&pins, &cid) {
            return Err(PinsFault::Order(number));
        }
        pins.push(cid)?;
        rest = after;
    }
    Ok(pins)
}

// The CID of the line with which bytes begin, and those after it.
fn first_cid(bytes: &[u8]) -> Option<(Cid, &[u8])>
    ensures { BeginsLine bytes.now (option_map (λ x. (x.0, x.1.now)) result) }
{
    let Some((text, after)) = line(bytes) else {
        return None;
    };
    match cid_of_text(text) {
        None => None,
        Some(cid) => Some((cid, after)),
    }
}

// The bytes up to the first line feed, and those after it.
fn line(bytes: &[u8]) -> Option<(&[u8], &[u8])>
    ensures { option_map (λ x. (x.0.now, x.1.now)) result ≡ line_at bytes.now }
{
    for i in 0..bytes.len() {
        if bytes[i] == b'\n' {
            return Some((bytes.split_at(i).0, bytes.split_at(i + 1).1));
        }
    }
    None
}

// The CID of which this is the text in lower case.
fn cid_of_text(text: &[u8]) -> Option<Cid>
    ensures { Spells text.now result }
{
    let Ok(spelled) = str::from_utf8(text) else {
        return None;
    };
    let Ok(cid) = Cid::parse(spelled) else {
        return None;
    };
    cids_are_whole(&cid);
    if cid.text().as_slice() == text {
        Some(cid)
    } else {
        None
    }
}

// Whether a CID is after the last of some.
pub(crate) fn is_above(pins: &Cids, cid: &Cid) -> bool
    requires { AreAscending pins.now }
    ensures { IsTrue result ↔ IsAbove pins.now cid.now }
{
    match pins.as_slice().last() {
        None => true,
        Some(last) => is_before(last, cid),
    }
}

// Whether the text of one CID is before that of another.
pub(crate) fn is_before(a: &Cid, b: &Cid) -> bool
    ensures { IsTrue result ↔ IsBefore a.now b.now }
{
    a.text().as_slice().cmp(b.text().as_slice()) == Ordering::Less
}
