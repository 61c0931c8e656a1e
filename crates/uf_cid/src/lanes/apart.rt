//! SHA-256 (FIPS 180-4) of messages of unlike lengths, eight side by side. Each lies at the head of a piece of one
//! size, which has room for its padding.

ghost use Rattle.std.specs.Prelude.{◌≡◌, ℕ, ◌+◌, ◌*◌, ◌/◌, ◌^◌, ◌<◌, ◌≤◌, ◌==◌, [], length, take, if◌then◌else◌};
ghost use Rattle.std.specs.Prelude.{slice_index, slice_index_or};
ghost use Rattle.sha2.specs.Sha256.{digest_bytes, sha256};
ghost use Rattle.uf_cid.specs.Bytes.{block_in, piece};
ghost use Rattle.uf_cid.specs.Lanes.{IsPadded, blocks_of, lane};

use super::block::compress;
use super::{PADDING, digest, hash_value, initial_state};
use sha2::{Digest, Sha256};
use std::simd::u32x8;

// Writes its padding after the message that ends at byte `end` of its piece (section 5.1.1).
fn pad(piece: &mut [u8], end: usize)
    requires { end + 72 ≤ length piece.old }
    ensures padded { IsPadded end piece.new }
    ensures kept { take end piece.new ≡ take end piece.old }
{
    let marked = (119 - end % 64) % 64 + 1;
    let bit_len = (end as u64).wrapping_mul(8);
    piece[end..end + marked].copy_from_slice(&PADDING[..marked]);
    piece[end + marked..end + marked + 8].copy_from_slice(&bit_len.to_be_bytes());
}

// Writes the padding of each message after it.
fn pad_all(bytes: &mut [u8], size: usize, lengths: &[usize])
    requires pieces { length bytes.old ≡ length lengths.now * size }
    requires room { (k : ℕ) → k < length lengths.now → slice_index lengths.now k + 72 ≤ size }
    ensures padded { (k : ℕ) → k < length lengths.now
        → IsPadded (slice_index lengths.now k) (piece bytes.new size k) }
    ensures kept { (k : ℕ) → k < length lengths.now
        → block_in bytes.new size lengths.now k ≡ block_in bytes.old size lengths.now k }
{
    'pieces: for i in 0..lengths.len() {
        pad(&mut bytes[i * size..i * size + size], lengths[i]);
    }
}

// How many blocks of 64 bytes the longest of some messages has, its padding included.
fn most_blocks(lengths: &[usize], size: usize) -> usize
    requires some { 72 ≤ size }
    requires room { (k : ℕ) → k < length lengths.now → slice_index lengths.now k + 72 ≤ size }
    ensures inside { 64 * result ≤ size }
    ensures enough { (k : ℕ) → k < length lengths.now → blocks_of (slice_index lengths.now k) ≤ result }
{
    let mut longest = 0;
    for end in lengths {
        longest = longest.max(*end);
    }
    (longest + 8) / 64 + 1
}

// Notes the digests of the messages that have `count` blocks of 64 bytes, their padding included.
fn note_ended(state: &[u32x8; 8], lengths: &[usize], count: usize, out: &mut [[u8; 32]; 8])
    requires lengths { length lengths.now ≡ 8 }
    requires small { (j : ℕ) → j < 8 → slice_index lengths.now j + 8 < 2 ^ 64 }
    ensures { (j : ℕ) → j < 8 → slice_index_or out.new j []
        ≡ (if blocks_of (slice_index lengths.now j) == count then digest_bytes (lane j state.now) 8
        else slice_index_or out.old j []) }
{
    'places: for j in 0..8 {
        if (lengths[j] + 8) / 64 + 1 == count {
            out[j] = digest(hash_value(state, j));
        }
    }
}

// The digests of eight messages, of which each has its padding after it.
fn sha256_group(bytes: &[u8], size: usize, lengths: &[usize]) -> [[u8; 32]; 8]
    requires pieces { length bytes.now ≡ 8 * size }
    requires lengths { length lengths.now ≡ 8 }
    requires room { (j : ℕ) → j < 8 → slice_index lengths.now j + 72 ≤ size }
    requires padded { (j : ℕ) → j < 8 → IsPadded (slice_index lengths.now j) (piece bytes.now size j) }
    ensures { (j : ℕ) → j < 8 → slice_index_or result j [] ≡ sha256 (block_in bytes.now size lengths.now j) }
{
    let mut state = initial_state();
    let mut out = [[0u8; 32]; 8];
    let count = most_blocks(lengths, size);
    for i in 0..count {
        compress(&mut state, bytes, size, 64 * i);
        note_ended(&state, lengths, i + 1, &mut out);
    }
    out
}

// Writes the digests of the eight messages from number `k` on to their places in `out`.
fn write_group(bytes: &[u8], size: usize, lengths: &[usize], k: usize, out: &mut [[u8; 32]])
    requires inside { k * size + 8 * size ≤ length bytes.now }
    requires lengths { length lengths.now ≡ length out.old }
    requires place { k + 8 ≤ length out.old }
    requires room { (i : ℕ) → i < length out.old → slice_index lengths.now i + 72 ≤ size }
    requires padded { (i : ℕ) → i < length out.old
        → IsPadded (slice_index lengths.now i) (piece bytes.now size i) }
    ensures length { length out.new ≡ length out.old }
    ensures before { (i : ℕ) → i < k → slice_index_or out.new i [] ≡ slice_index_or out.old i [] }
    ensures written { (i : ℕ) → k ≤ i → i < k + 8
        → slice_index_or out.new i [] ≡ sha256 (block_in bytes.now size lengths.now i) }
{
    let at = k * size;
    let digests = sha256_group(&bytes[at..at + 8 * size], size, &lengths[k..k + 8]);
    'places: for j in 0..8 {
        out[k + j] = digests[j];
    }
}

// Writes the digests of the messages to their places in `out`, as far as there are eight more.
fn write_groups(bytes: &[u8], size: usize, lengths: &[usize], out: &mut [[u8; 32]])
    requires pieces { length bytes.now ≡ length out.old * size }
    requires lengths { length lengths.now ≡ length out.old }
    requires room { (k : ℕ) → k < length out.old → slice_index lengths.now k + 72 ≤ size }
    requires padded { (k : ℕ) → k < length out.old
        → IsPadded (slice_index lengths.now k) (piece bytes.now size k) }
    ensures length { length out.new ≡ length out.old }
    ensures written { (k : ℕ) → k < length out.old / 8 * 8
        → slice_index_or out.new k [] ≡ sha256 (block_in bytes.now size lengths.now k) }
{
    'groups: for g in 0..out.len() / 8 {
        write_group(bytes, size, lengths, 8 * g, out);
    }
}

// Writes the digest of the message at the head of each piece of `size` bytes to its place in `out`: eight messages
// side by side, and those that are left over one by one.
pub(crate) fn sha256_apart(bytes: &mut [u8], size: usize, lengths: &[usize], out: &mut [[u8; 32]])
    requires pieces { length bytes.old ≡ length out.old * size }
    requires lengths { length lengths.now ≡ length out.old }
    requires room { (k : ℕ) → k < length out.old → slice_index lengths.now k + 72 ≤ size }
    ensures length { length out.new ≡ length out.old }
    ensures digests { (k : ℕ) → k < length out.old
        → slice_index_or out.new k [] ≡ sha256 (block_in bytes.old size lengths.now k) }
    ensures kept { (k : ℕ) → k < length out.old
        → block_in bytes.new size lengths.now k ≡ block_in bytes.old size lengths.now k }
{
    pad_all(bytes, size, lengths);
    write_groups(bytes, size, lengths, out);
    'rest: for i in out.len() / 8 * 8..out.len() {
        out[i] = Sha256::digest(&bytes[i * size..i * size + lengths[i]]);
    }
}
