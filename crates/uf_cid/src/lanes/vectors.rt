//! The operations of SHA-256 (FIPS 180-4, sections 3.2 and 4.1.2) on vectors of eight words, each lane by itself.

ghost use Rattle.std.specs.Prelude.{◌≡◌, ℕ, ◌/◌, ◌^◌, ◌<◌, slice_index, bit_and, bit_xor};
ghost use Rattle.std.specs.Int.{rotate_right, w32};
ghost use Rattle.sha2.specs.Sha256.{add32, big_sigma0, big_sigma1, ch, maj, small_sigma0, small_sigma1};

use std::simd::u32x8;

// The sum modulo 2 ^ 32.
#[inline(always)]
pub(crate) fn add(a: u32x8, b: u32x8) -> u32x8
    ensures { (j : ℕ) → j < 8 → slice_index result j ≡ add32 (slice_index a j) (slice_index b j) }
{
    a + b
}

#[inline(always)]
fn xor(a: u32x8, b: u32x8) -> u32x8
    ensures { (j : ℕ) → j < 8 → slice_index result j ≡ bit_xor (slice_index a j) (slice_index b j) }
{
    a ^ b
}

// A shift to the right by `k` bits.
#[inline(always)]
fn shift(x: u32x8, k: u32) -> u32x8
    requires { k < 32 }
    ensures { (j : ℕ) → j < 8 → slice_index result j ≡ slice_index x j / 2 ^ k }
{
    x >> u32x8::splat(k)
}

// A rotation to the right by `k` bits.
#[inline(always)]
fn rotate(x: u32x8, k: u32) -> u32x8
    requires { (0 < k) × (k < 32) }
    ensures { (j : ℕ) → j < 8 → slice_index result j ≡ rotate_right w32 (slice_index x j) k }
{
    (x >> u32x8::splat(k)) | (x << u32x8::splat(32 - k))
}

// Choose, by one operation fewer than the standard's form.
#[inline(always)]
pub(crate) fn ch(x: u32x8, y: u32x8, z: u32x8) -> u32x8
    ensures { (j : ℕ) → j < 8 → slice_index result j ≡ ch (slice_index x j) (slice_index y j) (slice_index z j) }
{
    z ^ (x & (y ^ z))
}

// Majority, by one operation fewer than the standard's form.
#[inline(always)]
pub(crate) fn maj(x: u32x8, y: u32x8, z: u32x8) -> u32x8
    ensures { (j : ℕ) → j < 8 → slice_index result j ≡ maj (slice_index x j) (slice_index y j) (slice_index z j) }
{
    y ^ ((x ^ y) & (y ^ z))
}

#[inline(always)]
pub(crate) fn big_sigma0(x: u32x8) -> u32x8
    ensures { (j : ℕ) → j < 8 → slice_index result j ≡ big_sigma0 (slice_index x j) }
{
    xor(xor(rotate(x, 2), rotate(x, 13)), rotate(x, 22))
}

#[inline(always)]
pub(crate) fn big_sigma1(x: u32x8) -> u32x8
    ensures { (j : ℕ) → j < 8 → slice_index result j ≡ big_sigma1 (slice_index x j) }
{
    xor(xor(rotate(x, 6), rotate(x, 11)), rotate(x, 25))
}

#[inline(always)]
pub(crate) fn small_sigma0(x: u32x8) -> u32x8
    ensures { (j : ℕ) → j < 8 → slice_index result j ≡ small_sigma0 (slice_index x j) }
{
    xor(xor(rotate(x, 7), rotate(x, 18)), shift(x, 3))
}

#[inline(always)]
pub(crate) fn small_sigma1(x: u32x8) -> u32x8
    ensures { (j : ℕ) → j < 8 → slice_index result j ≡ small_sigma1 (slice_index x j) }
{
    xor(xor(rotate(x, 17), rotate(x, 19)), shift(x, 10))
}
