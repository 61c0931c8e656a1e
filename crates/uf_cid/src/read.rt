//! CIDs read from bytes and from text.
ghost use Rattle.std.specs.Prelude.{◌≡◌, ◌<◌, ◌≤◌, ◌==◌, ◌&&◌, nat_lt, Ok, length, take, IfSome};
ghost use Rattle.std.specs.Option.{option_map};
ghost use Rattle.uf_cid.specs.Read.{alone, cid_at, codec_at, multihash_at, cid_of_text, cid_spelled, unbase32};
ghost use Rattle.uf_cid.specs.Read.{value_of};

use crate::{Cid, CidFault, Codec};

impl Cid {
    /// The CID before some bytes, and how many of them it has: 36 for a CIDv1, 34 for a CIDv0, which is read as
    /// `dag-pb`.
    #[tactic(auto, unfolding(crate::specs::Read::cid_at))]
    pub fn read_binary(bytes: &[u8]) -> Result<(Cid, usize), CidFault>
        ensures { result ≡ cid_at bytes.now }
    {
        match bytes {
            [] => Err(CidFault::Short),
            [1, rest @ ..] => after_version(rest),
            [0x12, ..] => after_codec(Codec::DagPb, 0, bytes),
            [_, ..] => Err(CidFault::Version),
        }
    }

    /// The CID that a text spells: `b` or `B` and the base32 of the 36 bytes of a CIDv1, in lower or in upper case.
    #[tactic(auto, unfolding(crate::specs::Read::cid_of_text))]
    pub fn parse(text: &str) -> Result<Cid, CidFault>
        ensures { result ≡ cid_of_text text.now }
    {
        match text.as_bytes() {
            [] => Err(CidFault::Short),
            [b'b', letters @ ..] => spelled(b'a', letters),
            [b'B', letters @ ..] => spelled(b'A', letters),
            [_, ..] => Err(CidFault::Base),
        }
    }
}

// What follows the version of a CIDv1.
fn after_version(bytes: &[u8]) -> Result<(Cid, usize), CidFault>
    ensures { result ≡ codec_at bytes.now }
{
    match bytes {
        [] => Err(CidFault::Short),
        [0x55, rest @ ..] => after_codec(Codec::Raw, 2, rest),
        [0x70, rest @ ..] => after_codec(Codec::DagPb, 2, rest),
        [_, ..] => Err(CidFault::Codec),
    }
}

// The multihash after n bytes.
fn after_codec(codec: Codec, before: usize, bytes: &[u8]) -> Result<(Cid, usize), CidFault>
    requires { before ≤ 2 }
    ensures { result ≡ multihash_at codec before bytes.now }
{
    match bytes {
        [] => Err(CidFault::Short),
        [0x12] => Err(CidFault::Short),
        [0x12, 0x20, rest @ ..] => {
            if rest.len() < 32 {
                return Err(CidFault::Short);
            }
            let mut digest = [0u8; 32];
            digest.copy_from_slice(&rest[..32]);
            Ok((Cid { codec, digest }, before + 34))
        }
        [_, ..] => Err(CidFault::Hash),
    }
}

// The CID that letters spell in the alphabet that begins with the letter `first`.
fn spelled(first: u8, letters: &[u8]) -> Result<Cid, CidFault>
    requires { first ≤ 97 }
    ensures { result ≡ cid_spelled (unbase32 first letters.now) }
{
    let Some(front) = front_bytes(first, letters) else {
        return Err(CidFault::Base);
    };
    let (cid, used) = Cid::read_binary(&front.bytes[..front.len])?;
    all_of(cid, used, front.len)
}

// The CID of `used` bytes where it is all of the bytes, and no CIDv0.
fn all_of(cid: Cid, used: usize, all: usize) -> Result<Cid, CidFault>
    ensures { result ≡ alone all (Ok (cid, used)) }
{
    if used == 34 {
        Err(CidFault::Version)
    } else if used == all {
        Ok(cid)
    } else {
        Err(CidFault::Trailing)
    }
}

// The first bytes that letters spell: as many as there are, but no more than tell that a CID is followed by another
// byte.
#[derive(Clone, Copy)]
struct FirstBytes {
    bytes: [u8; 37],
    len: usize,
}

// The first bytes that letters spell; None where one of them is none of the alphabet, or bits are left over.
fn front_bytes(first: u8, letters: &[u8]) -> Option<FirstBytes>
    requires { first ≤ 97 }
    ensures size { IfSome result (λ front. (front.len ≤ 37) × (length (take front.len front.bytes) ≡ front.len)) }
    ensures bytes { option_map (λ front. take front.len front.bytes) result
        ≡ option_map (take 37) (unbase32 first letters.now) }
{
    let mut bytes = [0u8; 37];
    let mut len = 0;
    let mut bits = 0u16;
    let mut held = 0u32;
    for letter in letters {
        let value = value_in(first, *letter)?;
        let joined = bits * 32 + u16::from(value);
        if held < 3 {
            bits = joined;
            held += 5;
        } else {
            held -= 3;
            bits = joined % (1 << held);
            if len < 37 {
                bytes[len] = (joined >> held) as u8;
                len += 1;
            }
        }
    }
    if is_padding(held, bits) {
        Some(FirstBytes { bytes, len })
    } else {
        None
    }
}

// Whether n bits, and this number, fill up the last letter alone.
fn is_padding(held: u32, bits: u16) -> bool
    ensures { result ≡ (nat_lt held 5 && (bits == 0)) }
{
    held < 5 && bits == 0
}

// The number of a letter of the alphabet that begins with the letter `first`.
fn value_in(first: u8, letter: u8) -> Option<u8>
    requires { first ≤ 97 }
    ensures value { result ≡ value_of first letter }
    ensures below { IfSome result (λ v. v < 32) }
{
    if first <= letter && letter < first + 26 {
        Some(letter - first)
    } else if b'2' <= letter && letter < b'8' {
        Some(letter - 24)
    } else {
        None
    }
}
