//! MurmurHash3 x64 128, first half, seed 0.
ghost use Rattle.std.specs.Prelude.{◌≡◌, ◌+◌, ◌≤◌, ℕ, length, slice_index};
ghost use Rattle.uf_murmur.specs.Murmur.{murmur3, word_at as eight_bytes_at, first_part as first_of};
ghost use Rattle.uf_murmur.specs.Murmur.{second_part as second_of, next_first, next_second, mix as mixed, finished};

const FIRST: u64 = 0x87c3_7b91_1142_53d5;

const SECOND: u64 = 0x4cf5_ad43_2745_937f;

/// The hash of a name.
pub fn hash_of(name: &[u8]) -> u64
    ensures { result ≡ murmur3 name.now }
{
    let mut h1 = 0;
    let mut h2 = 0;
    let whole = name.len() / 16;
    for block in 0..whole {
        h1 = first_half(h1, h2, word_at(name, 16 * block));
        h2 = second_half(h1, h2, word_at(name, 16 * block + 8));
    }
    let last = filled::<16>(&name[16 * whole..]);
    h1 ^= first_part(word_at(&last, 0));
    h2 ^= second_part(word_at(&last, 8));
    finish(h1, h2, name.len() as u64)
}

/// Bytes, filled up with zeros.
pub fn filled<const N: usize>(bytes: &[u8]) -> [u8; N]
    requires { length bytes.now ≤ N }
    ensures { (i : ℕ) → slice_index result i ≡ slice_index bytes.now i }
{
    let mut whole = [0u8; N];
    whole[..bytes.len()].copy_from_slice(bytes);
    whole
}

// The eight bytes from a place on, the lowest first.
fn word_at(bytes: &[u8], at: usize) -> u64
    requires { at + 8 ≤ length bytes.now }
    ensures { result ≡ eight_bytes_at bytes.now at }
{
    u64::from_le_bytes([
        bytes[at],
        bytes[at + 1],
        bytes[at + 2],
        bytes[at + 3],
        bytes[at + 4],
        bytes[at + 5],
        bytes[at + 6],
        bytes[at + 7],
    ])
}

// What a block's first word adds to the first half.
fn first_part(k: u64) -> u64
    ensures { result ≡ first_of k }
{
    k.wrapping_mul(FIRST).rotate_left(31).wrapping_mul(SECOND)
}

// What a block's second word adds to the second half.
fn second_part(k: u64) -> u64
    ensures { result ≡ second_of k }
{
    k.wrapping_mul(SECOND).rotate_left(33).wrapping_mul(FIRST)
}

// The first half after a block.
fn first_half(h1: u64, h2: u64, k: u64) -> u64
    ensures { result ≡ next_first h1 h2 k }
{
    let turned = (h1 ^ first_part(k)).rotate_left(27);
    turned
        .wrapping_add(h2)
        .wrapping_mul(5)
        .wrapping_add(0x52dc_e729)
}

// The second half after a block, beside the new first half.
fn second_half(h1: u64, h2: u64, k: u64) -> u64
    ensures { result ≡ next_second h1 h2 k }
{
    let turned = (h2 ^ second_part(k)).rotate_left(31);
    turned
        .wrapping_add(h1)
        .wrapping_mul(5)
        .wrapping_add(0x3849_5ab5)
}

// The first half of the hash, from both halves and the number of bytes.
fn finish(h1: u64, h2: u64, count: u64) -> u64
    ensures { result ≡ finished h1 h2 count }
{
    let first = (h1 ^ count).wrapping_add(h2 ^ count);
    let second = (h2 ^ count).wrapping_add(first);
    mix(first).wrapping_add(mix(second))
}

// The finalizer of a half.
fn mix(k: u64) -> u64
    ensures { result ≡ mixed k }
{
    let once = (k ^ (k >> 33)).wrapping_mul(0xff51_afd7_ed55_8ccd);
    let twice = (once ^ (once >> 33)).wrapping_mul(0xc4ce_b9fe_1a85_ec53);
    twice ^ (twice >> 33)
}
