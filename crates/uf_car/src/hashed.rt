//! Blocks of one length that follow each other in a CAR, hashed side by side.
ghost use Rattle.std.specs.Prelude.{◌≡◌, ◌<◌, ◌≤◌, ◌*◌, ℕ, [], IfSome, length, slice_index_or, vec_len};
ghost use Rattle.uf_cid.specs.Bytes.{piece};

use crate::section::{Opening, opening_at};
use std::alloc::Global;
use std::marker::PhantomData;
use uf_cid::BlockHash;

// How many blocks are hashed side by side at most.
const GROUP: usize = 8;

// Shorter blocks are hashed one by one.
const FEWEST_BYTES: usize = 1024;

// Blocks of one length, one after another, and their digests: those that were asked for first.
#[derive(Drop)]
pub struct DigestsAhead<X: BlockHash> {
    hash: PhantomData<X>,
    pub alloc: Global,
    bytes: Vec<u8>,
    size: usize,
    count: usize,
    asked: usize,
    digests: [[u8; 32]; 8],
    ghost inside: { length bytes.items ≡ count * size },
    ghost few: { count ≤ 8 },
    ghost small: { size ≤ 2097152 },
    ghost hashed: { (k : ℕ) → k < count → slice_index_or digests k [] ≡ X.block32 (piece bytes.items size k) },
}

impl<X: BlockHash> DigestsAhead<X> {
    // No blocks.
    pub fn new(alloc: Global) -> Self {
        DigestsAhead {
            hash: PhantomData,
            alloc,
            bytes: Vec::new(alloc),
            size: 0,
            count: 0,
            asked: 0,
            digests: [[0u8; 32]; 8],
        }
    }

    // The digest of a block. The bytes from its section on say which blocks come next.
    pub fn digest(&mut self, block: &[u8], ahead: &[u8]) -> [u8; 32]
        requires { length block.now ≤ 2097152 }
        ensures { result ≡ X.block32 block.now }
    {
        if block.len() < FEWEST_BYTES {
            return X::block32(block);
        }
        if let Some(digest) = self.next(block) {
            return digest;
        }
        self.hash_ahead(ahead, block.len());
        match self.next(block) {
            Some(digest) => digest,
            None => X::block32(block),
        }
    }

    // The digest of a block, where it is the next one here.
    fn next(&mut self, block: &[u8]) -> Option<[u8; 32]>
        ensures { IfSome result (λ digest. digest ≡ X.block32 block.now) }
    {
        let place = self.asked;
        if place >= self.count || block.len() != self.size {
            return None;
        }
        let at = place * self.size;
        if &self.bytes[at..at + self.size] != block {
            return None;
        }
        self.asked = place + 1;
        Some(self.digests[place])
    }

    // Hashes the blocks of the first sections of some bytes, as far as they have this length, in the place of those
    // that are here. Those stay where there are fewer bytes than two such blocks have.
    fn hash_ahead(&mut self, ahead: &[u8], size: usize)
        requires { size ≤ 2097152 }
    {
        if ahead.len() < 2 * size {
            return;
        }
        let count = gather(ahead, size, &mut self.bytes);
        let mut digests = [[0u8; 32]; GROUP];
        X::block32_group(&self.bytes, size, &mut digests[..count]);
        self.digests = digests;
        self.count = count;
        self.size = size;
        self.asked = 0;
    }
}

// Copies the blocks of the first sections of some bytes, one after another, as far as they have this length and are
// whole: how many.
fn gather(ahead: &[u8], size: usize, bytes: &mut Vec<u8>) -> usize
    requires { size ≤ 2097152 }
    ensures inside { vec_len bytes.new ≡ result * size }
    ensures few { result ≤ 8 }
{
    bytes.clear();
    let mut rest = ahead;
    for count in 0..GROUP {
        let Some(end) = block_end(rest, size) else {
            return count;
        };
        if bytes.extend_from_slice(&rest[end - size..end]).is_err() {
            return count;
        }
        rest = &rest[end..];
    }
    GROUP
}

// Where the block of the first section ends, where it has this length and is whole.
fn block_end(bytes: &[u8], size: usize) -> Option<usize>
    requires { size ≤ 2097152 }
    ensures block { IfSome result (λ end. size ≤ end) }
    ensures whole { IfSome result (λ end. end ≤ length bytes.now) }
{
    match opening_at(0, bytes) {
        Opening::Found(_, front, found) => {
            let end = front + size;
            if found == size && end <= bytes.len() {
                Some(end)
            } else {
                None
            }
        }
        _ => None,
    }
}
