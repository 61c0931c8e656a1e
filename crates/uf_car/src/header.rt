//! The header of a CAR.
ghost use Rattle.std.specs.Prelude.{◌≡◌, ◌∷◌, [], IfErr};
ghost use Rattle.std.specs.Option.{option_map};
ghost use Rattle.uf_cid.specs.Read.{cid_at};
ghost use Rattle.uf_car.specs.Headers.{HeaderSays, HeaderSaysOrMemory, IsOfBytes, few_roots, first_version, header_of};
ghost use Rattle.uf_car.specs.Headers.{mark_of, past_front, root_of, root_with, roots_counted, roots_from, versioned};
ghost use Rattle.uf_car.specs.Text.{version_key};

use crate::CarFault;
use crate::section::cid_in;
use std::alloc::Global;
use uf_cid::{Cid, Cids};

// The roots that a header names.
#[tactic(auto, unfolding(crate::specs::Headers::header_of))]
pub fn roots_in(alloc: Global, bytes: &[u8]) -> Result<Cids, CarFault>
    ensures says { HeaderSaysOrMemory (λ x. x) result (header_of bytes.now) }
    ensures of_bytes { IfErr result IsOfBytes }
{
    match mark_in(bytes) {
        Some(version) => Err(CarFault::Version(version)),
        None => unmarked(alloc, bytes),
    }
}

// The version that a header of a later version is marked with.
fn mark_in(bytes: &[u8]) -> Option<u8>
    ensures { result ≡ mark_of (past_front (0xa1 ∷ version_key) bytes.now) }
{
    match rest_behind(b"\xa1\x67version", bytes) {
        None => None,
        Some(rest) => match rest {
            [version] => { if *version < 24 { Some(*version) } else { None } }
            _ => None,
        },
    }
}

// The roots of a header that isn't marked.
fn unmarked(alloc: Global, bytes: &[u8]) -> Result<Cids, CarFault>
    ensures says { HeaderSaysOrMemory (λ x. x) result (first_version bytes.now) }
    ensures of_bytes { IfErr result IsOfBytes }
{
    let Some(array) = rest_behind(b"\xa2\x65roots", bytes) else {
        return Err(CarFault::Header);
    };
    let (count, rest) = count_in(array)?;
    let (roots, rest) = roots_behind(alloc, count, rest)?;
    version_behind(roots, rest)
}

// How many roots there are, from the head of their array.
fn count_in(bytes: &[u8]) -> Result<(usize, &[u8]), CarFault>
    ensures says { HeaderSays (λ x. (x.0, x.1.now)) result (roots_counted bytes.now) }
    ensures of_bytes { IfErr result IsOfBytes }
{
    match bytes {
        [0x98, count, rest @ ..] => {
            if *count < 24 {
                Err(CarFault::Header)
            } else {
                few(*count, rest)
            }
        }
        [head, rest @ ..] => {
            if *head >= 0x80 && *head <= 0x97 {
                few(*head - 0x80, rest)
            } else {
                Err(CarFault::Header)
            }
        }
        [] => Err(CarFault::Header),
    }
}

// A number of roots that isn't too great.
fn few(count: u8, rest: &[u8]) -> Result<(usize, &[u8]), CarFault>
    ensures says { HeaderSays (λ x. (x.0, x.1.now)) result (few_roots (count, rest.now)) }
    ensures of_bytes { IfErr result IsOfBytes }
{
    if count > 64 {
        Err(CarFault::TooManyRoots(u64::from(count)))
    } else {
        Ok((usize::from(count), rest))
    }
}

// n roots.
fn roots_behind(alloc: Global, count: usize, bytes: &[u8]) -> Result<(Cids, &[u8]), CarFault>
    ensures says { HeaderSaysOrMemory (λ x. (x.0, x.1.now)) result (roots_from [] count bytes.now) }
    ensures of_bytes { IfErr result IsOfBytes }
{
    let mut roots = Cids::new(alloc);
    let mut rest = bytes;
    let mut left = count;
    while left > 0 {
        left -= 1;
        let (root, after) = root_in(rest)?;
        roots.push(root)?;
        rest = after;
    }
    Ok((roots, rest))
}

// One root: a link to a CIDv1 or to a CIDv0.
#[tactic(auto, unfolding(crate::specs::Headers::root_of))]
fn root_in(bytes: &[u8]) -> Result<(Cid, &[u8]), CarFault>
    ensures says { HeaderSays (λ x. (x.0, x.1.now)) result (root_of bytes.now) }
    ensures of_bytes { IfErr result IsOfBytes }
{
    match rest_behind(&[0xd8, 0x2a, 0x58, 0x25, 0x00], bytes) {
        Some(rest) => cid_of_length(36, rest),
        None => match rest_behind(&[0xd8, 0x2a, 0x58, 0x23, 0x00], bytes) {
            Some(rest) => cid_of_length(34, rest),
            None => Err(CarFault::Header),
        },
    }
}

// The CID at the start, of n bytes.
fn cid_of_length(size: usize, bytes: &[u8]) -> Result<(Cid, &[u8]), CarFault>
    ensures says { HeaderSays (λ x. (x.0, x.1.now)) result (root_with size bytes.now (cid_at bytes.now)) }
    ensures of_bytes { IfErr result IsOfBytes }
{
    match cid_in(bytes) {
        Err(_) => Err(CarFault::Header),
        Ok((cid, used)) => {
            if used == size {
                Ok((cid, &bytes[used..]))
            } else {
                Err(CarFault::Header)
            }
        }
    }
}

// The roots, where the version is 1 and nothing stands after it.
fn version_behind(roots: Cids, bytes: &[u8]) -> Result<Cids, CarFault>
    ensures says { HeaderSays (λ x. x) result (versioned roots bytes.now) }
    ensures of_bytes { IfErr result IsOfBytes }
{
    match rest_behind(b"\x67version", bytes) {
        None => Err(CarFault::Header),
        Some(rest) => match rest {
            [version] => {
                if *version == 1 {
                    Ok(roots)
                } else if *version < 24 {
                    Err(CarFault::Version(*version))
                } else {
                    Err(CarFault::Header)
                }
            }
            _ => Err(CarFault::Header),
        },
    }
}

// The bytes after a prefix, where they start with it.
fn rest_behind<'a>(front: &[u8], bytes: &'a [u8]) -> Option<&'a [u8]>
    ensures { option_map (λ x. x.now) result ≡ past_front front.now bytes.now }
{
    if bytes.starts_with(front) {
        Some(&bytes[front.len()..])
    } else {
        None
    }
}
