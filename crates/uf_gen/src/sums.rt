//! How many files are left, and how many bytes they have.
ghost use Rattle.std.specs.Prelude.{◌≡◌, ◌≤◌, ℕ, length};
ghost use Rattle.uf_gen.specs.Grown.{left_files, left_size as size_left};
ghost use Rattle.uf_gen.specs.Rules.{last_bytes as bytes_last};

use crate::rules::{first_length, late_offset};

/// How many files are left of the first `n`, whatever the seed.
pub fn left_count(n: u64) -> u64
    ensures { (seed : ℕ) → result ≡ length (left_files seed n) }
{
    let mut count: u64 = 0;
    for i in 0..n {
        if i % 3 != 0 {
            count += 1;
        }
    }
    count
}

/// How many bytes the files have that are left of the first `n`.
pub fn left_size(seed: u64, n: u64) -> u64
    requires { n ≤ 100000000 }
    ensures { result ≡ size_left seed n }
{
    let mut size: u64 = 0;
    for i in 0..n {
        if i % 3 != 0 {
            size += last_length(seed, i);
        }
    }
    size
}

// How many bytes a file has in the end.
fn last_length(seed: u64, i: u64) -> u64
    ensures is { result ≡ length (bytes_last seed i) }
    ensures few { result ≤ 16384 }
{
    let first = first_length(seed, i);
    if i % 3 == 1 {
        first.max(late_offset(seed, i) + 1)
    } else {
        first
    }
}
