//! The bitfield of a shard.
ghost use Rattle.std.specs.Prelude.{◌≡◌, ◌==◌, ◌<◌, ◌≤◌, ◌*◌, ◌-◌, ℕ, IfOk, false, if◌then◌else◌, length, map};
ghost use Rattle.std.specs.Prelude.{slice_index_or};
ghost use Rattle.std.specs.List.{list_any, range_with_len};
ghost use Rattle.uf_tree.specs.Bits.{byte_from};
ghost use Rattle.uf_tree.specs.Nodes.{InSlot, bitfield as the_bitfield, without_zeros};

use crate::Placed;
use std::alloc::Global;
use uf_cid::{Block, Memory};

// The bitfield of the slots of items: of each slot one bit, without leading zero bytes.
pub fn bitfield(alloc: Global, items: &[Placed]) -> Result<Block, Memory>
    ensures { IfOk result (λ b. b ≡ the_bitfield (map (λ (p : InSlot). p.0) items.now)) }
{
    let bytes = bytes_of(&slots_there(items));
    let mut field = Block::with_capacity(alloc, 32)?;
    field.extend(from_first(&bytes))?;
    Ok(field)
}

// Which slots the items have.
fn slots_there(items: &[Placed]) -> [bool; 256]
    ensures { (i : ℕ) → i < 256 → slice_index_or result i false
        ≡ list_any (λ s. s == i) (map (λ (p : InSlot). p.0) items.now) }
{
    let mut there = [false; 256];
    for placed in items {
        there[placed.slot as usize] = true;
    }
    there
}

// The 32 bytes of which slots are there, the last one first.
fn bytes_of(there: &[bool; 256]) -> [u8; 32]
    ensures { result ≡ map (λ k. byte_from there.now (31 - k)) (range_with_len 0 32) }
{
    let mut bytes = [0u8; 32];
    for k in 0..32 {
        bytes[k] = byte_of(there, 31 - k);
    }
    bytes
}

// The byte of eight slots.
fn byte_of(there: &[bool; 256], n: usize) -> u8
    requires { n < 32 }
    ensures { result ≡ byte_from there.now n }
{
    let at = 8 * n;
    bit(there[at], 1)
        + bit(there[at + 1], 2)
        + bit(there[at + 2], 4)
        + bit(there[at + 3], 8)
        + bit(there[at + 4], 16)
        + bit(there[at + 5], 32)
        + bit(there[at + 6], 64)
        + bit(there[at + 7], 128)
}

// What a slot adds to its byte.
fn bit(is_there: bool, weight: u8) -> u8
    ensures exact { result ≡ (if is_there then weight else 0) }
    ensures most { result ≤ weight }
{
    if is_there { weight } else { 0 }
}

// The bytes from the first on that is not zero.
fn from_first(bytes: &[u8]) -> &[u8]
    ensures { result.now ≡ without_zeros bytes.now }
{
    for i in 0..bytes.len() {
        if bytes[i] != 0 {
            return bytes.split_at(i).1;
        }
    }
    &[]
}
