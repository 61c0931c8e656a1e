//! The hash that names a block.
ghost use Rattle.std.specs.Prelude.{◌≡◌, ◌+◌, ◌*◌, ◌%◌, ◌<◌, ◌≤◌, ℕ, List, [], length, sum};
ghost use Rattle.std.specs.Prelude.{slice_index, slice_index_or};
ghost use Rattle.sha2.specs.Sha256.{sha256};
ghost use Rattle.sha2.proofs.Facts256.{length-sha256};
ghost use Rattle.uf_cid.specs.Bytes.{IsBytes, block_in, piece, sha256_is_bytes};

use crate::lanes::{sha256_apart, sha256_pieces};
use sha2::{Digest, Sha256};

/// A function from a block to its digest of 32 bytes.
pub trait BlockHash {
    // The digest of a block.
    ghost block32: { List ℕ → List ℕ };

    /// The digest of a block.
    fn block32(bytes: &[u8]) -> [u8; 32]
        ensures { result ≡ block32 bytes.now };

    /// Writes the digest of each piece of `size` bytes of a buffer to its place in `out`.
    fn block32_group(bytes: &[u8], size: usize, out: &mut [[u8; 32]])
        requires { length bytes.now ≡ length out.old * size }
        ensures length { length out.new ≡ length out.old }
        ensures digests { (k : ℕ) → k < length out.old
            → slice_index_or out.new k [] ≡ block32 (piece bytes.now size k) }
    {
        for i in 0..out.len() {
            out[i] = Self::block32(&bytes[i * size..i * size + size]);
        }
    }

    /// Writes the digest of the block at the head of each piece of `size` bytes of a buffer to its place in `out`.
    /// What follows a block in its piece may be overwritten.
    fn block32_apart(bytes: &mut [u8], size: usize, lengths: &[usize], out: &mut [[u8; 32]])
        requires pieces { length bytes.old ≡ length out.old * size }
        requires lengths { length lengths.now ≡ length out.old }
        requires room { (k : ℕ) → k < length out.old → slice_index lengths.now k + 72 ≤ size }
        ensures length { length out.new ≡ length out.old }
        ensures digests { (k : ℕ) → k < length out.old
            → slice_index_or out.new k [] ≡ block32 (block_in bytes.old size lengths.now k) }
        ensures kept { (k : ℕ) → k < length out.old
            → block_in bytes.new size lengths.now k ≡ block_in bytes.old size lengths.now k }
    {
        for i in 0..out.len() {
            out[i] = Self::block32(&bytes[i * size..i * size + lengths[i]]);
        }
    }

    // A digest has 32 bytes.
    ghost size: { (block : List ℕ) → length (block32 block) ≡ 32 };

    ghost are_bytes: { (block : List ℕ) → IsBytes (block32 block) };
}

/// The digests of n pieces of one size, one after another in a buffer.
pub fn digests_of<X: BlockHash>(bytes: &[u8], size: usize, count: usize) -> [[u8; 32]; 8]
    requires count { length bytes.now ≡ count * size }
    requires few { count ≤ 8 }
    ensures digests { (k : ℕ) → k < count → slice_index_or result k [] ≡ X.block32 (piece bytes.now size k) }
    ensures len { length result ≡ 8 }
{
    let mut digests = [[0u8; 32]; 8];
    X::block32_group(bytes, size, &mut digests[..count]);
    digests
}

/// SHA-256 (FIPS 180-4), as the crate `sha2` promises it. Pieces of one size, and blocks that lie in such pieces, are
/// hashed eight at a time, side by side.
pub struct Sha256Hash;

impl BlockHash for Sha256Hash {
    ghost block32 = { sha256 };

    ghost size = { length-sha256 };

    ghost are_bytes = { sha256_is_bytes };

    fn block32(bytes: &[u8]) -> [u8; 32] {
        Sha256::digest(bytes)
    }

    fn block32_group(bytes: &[u8], size: usize, out: &mut [[u8; 32]]) {
        sha256_pieces(bytes, size, out)
    }

    fn block32_apart(bytes: &mut [u8], size: usize, lengths: &[usize], out: &mut [[u8; 32]]) {
        sha256_apart(bytes, size, lengths, out)
    }
}

/// The sum of the bytes modulo 256 after 31 zero bytes. Blocks that clash are easily made with it: it is for tests.
pub struct Sum8Hash;

impl BlockHash for Sum8Hash {
    ghost use Rattle.uf_cid.specs.Sums.{sum_digest, length-sum_digest, sum_digest_is_bytes};

    ghost block32 = { sum_digest };

    ghost size = { length-sum_digest };

    ghost are_bytes = { sum_digest_is_bytes };

    fn block32(bytes: &[u8]) -> [u8; 32] {
        let mut digest = [0u8; 32];
        digest[31] = sum_of(bytes);
        digest
    }
}

// The sum of the bytes, modulo 256.
fn sum_of(bytes: &[u8]) -> u8
    ensures { result ≡ sum bytes.now % 256 }
{
    let mut total = 0u8;
    for byte in bytes {
        total = total.wrapping_add(*byte);
    }
    total
}
