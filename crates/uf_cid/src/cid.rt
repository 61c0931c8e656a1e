//! CIDs, version 1, of sha2-256 digests.
ghost use Rattle.std.specs.Prelude.{◌≡◌, ◌<◌, ◌∷◌, ◌++◌, ◌+◌, ◌≤◌, List, ℕ, length, take};
ghost use Rattle.uf_cid.specs.Base32.{base32, letter as base_letter};
ghost use Rattle.uf_cid.specs.Cid.{cid_cmp};

use crate::BlockHash;

/// What a block's bytes are (multicodec `raw`, 0x55, and `dag-pb`, 0x70).
#[derive(Clone, Copy, Debug, PartialEq, Eq, PartialOrd, Ord)]
pub enum Codec {
    Raw,
    DagPb,
}

/// The name of a block: a CIDv1 with a sha2-256 multihash (multiformats CID).
#[derive(Clone, Copy, Debug, PartialEq, Eq, PartialOrd, Ord)]
pub struct Cid {
    pub codec: Codec,
    pub digest: [u8; 32],
}

/// Why bytes or a text are no CID.
#[derive(Clone, Copy, Debug, PartialEq, Eq)]
pub enum CidFault {
    /// It ends too early.
    Short,
    /// The version is none that is read here.
    Version,
    /// The codec is neither `raw` nor `dag-pb`.
    Codec,
    /// The multihash is none of sha2-256 with 32 bytes.
    Hash,
    /// The text is no base32, or has bits left over.
    Base,
    /// More bytes follow the CID.
    Trailing,
}

impl Cid {
    ghost use Rattle.uf_cid.specs.Cid.{cid_of, cid_bytes, cid_text};

    /// The CID of a block by the block hash `X`.
    pub fn of<X: BlockHash>(codec: Codec, bytes: &[u8]) -> Cid
        ensures { result ≡ cid_of X.block32 codec bytes.now }
    {
        Cid {
            codec,
            digest: X::block32(bytes),
        }
    }

    /// The 36 bytes of the CID: 1, the codec, 0x12, 0x20 and the digest.
    pub fn to_binary(&self) -> [u8; 36]
        ensures { result ≡ cid_bytes self.now }
    {
        let mut out = [0u8; 36];
        out[0] = 1;
        out[1] = match self.codec {
            Codec::Raw => 0x55,
            Codec::DagPb => 0x70,
        };
        out[2] = 0x12;
        out[3] = 0x20;
        out[4..].copy_from_slice(&self.digest);
        out
    }

    /// The text of the CID: `b`, and the base32 of its bytes in lower case without padding (multibase, RFC 4648
    /// section 6).
    pub fn text(&self) -> [u8; 59]
        ensures { result ≡ cid_text self.now }
    {
        let bytes = self.to_binary();
        let mut out = [b'b'; 59];
        for i in 0..7 {
            let at = 5 * i;
            let letters = eight_letters(
                bytes[at],
                bytes[at + 1],
                bytes[at + 2],
                bytes[at + 3],
                bytes[at + 4],
            );
            put(&mut out, 8 * i + 1, &letters);
        }
        let last = bytes[35];
        put(&mut out, 57, &[letter(last / 8), letter(last % 8 * 4)]);
        out
    }
}

/// CIDs are in the order of their bytes.
pub fn order_is_that_of_bytes(a: &Cid, b: &Cid)
    ensures { ⟦<Cid as Ord>⟧.cmp a.now b.now ≡ cid_cmp a.now b.now }
{}

// Writes a piece over the bytes from a place on.
fn put(out: &mut [u8], at: usize, piece: &[u8])
    requires { at + length piece.now ≤ length out.old }
    ensures { take (at + length piece.now) out.new ≡ take at out.old ++ piece.now }
{
    out[at..at + piece.len()].copy_from_slice(piece);
}

// The letters of five bytes.
fn eight_letters(a: u8, b: u8, c: u8, d: u8, e: u8) -> [u8; 8]
    ensures { (rest : List ℕ) → result ++ base32 rest ≡ base32 (a ∷ b ∷ c ∷ d ∷ e ∷ rest) }
{
    [
        letter(a / 8),
        letter(a % 8 * 4 + b / 64),
        letter(b / 2 % 32),
        letter(b % 2 * 16 + c / 16),
        letter(c % 16 * 2 + d / 128),
        letter(d / 4 % 32),
        letter(d % 4 * 8 + e / 32),
        letter(e % 32),
    ]
}

// The letter of a number below 32.
fn letter(n: u8) -> u8
    requires { n < 32 }
    ensures { result ≡ base_letter n }
{
    if n < 26 { b'a' + n } else { b'2' + (n - 26) }
}
