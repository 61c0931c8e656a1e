//! The hash of a name.
ghost use Rattle.std.specs.Prelude.{◌≡◌, ◌<◌, ◌^◌, ℕ, List};
ghost use Rattle.uf_murmur.specs.Murmur.{murmur3};
ghost use Rattle.uf_murmur.specs.Slots.{first_eight};

use crate::murmur::{filled, hash_of};

/// A function from the bytes of a name to its 64-bit hash.
pub trait NameHash {
    // The hash of a name.
    ghost name64: { List ℕ → ℕ };

    /// The hash of a name.
    fn name64(name: &[u8]) -> u64
        ensures { result ≡ name64 name.now };

    // A hash has 64 bits.
    ghost fits: { (name : List ℕ) → name64 name < 2 ^ 64 };
}

/// MurmurHash3 x64 128 with seed 0, the first half (multicodec `murmur3-x64-64`, 0x22): the hash of UnixFS's sharded
/// directories.
pub struct Murmur3;

impl NameHash for Murmur3 {
    ghost use Rattle.uf_murmur.specs.Murmur.{murmur3-fits};

    ghost name64 = { murmur3 };

    ghost fits = { murmur3-fits };

    fn name64(name: &[u8]) -> u64 {
        hash_of(name)
    }
}

/// The first eight bytes of a name, filled up with zero bytes: its slots are the name's own bytes. It is for tests.
pub struct FirstEight;

impl NameHash for FirstEight {
    ghost use Rattle.uf_murmur.specs.Slots.{first_eight-fits};

    ghost name64 = { first_eight };

    ghost fits = { first_eight-fits };

    fn name64(name: &[u8]) -> u64 {
        u64::from_be_bytes(filled::<8>(&name[..name.len().min(8)]))
    }
}
