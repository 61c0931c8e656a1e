//! Blocks that are read before they are loaded.
ghost use Rattle.std.specs.Prelude.{◌≡◌, ◌<◌, ◌≤◌, ◌+◌, ◌*◌, ℕ, [], IfSome, OnOk, length, vec_len};
ghost use Rattle.std.specs.Prelude.{slice_index, slice_index_or};
ghost use Rattle.uf_cid.specs.Bytes.{block_in};
ghost use Rattle.uf_disk.specs.Ahead.{IsInside, IsWholeFor, bytes_at};

use crate::folder::{Folder, PADDING};
use std::alloc::{AllocError, Global};
use std::fs::Files;
use std::marker::PhantomData;
use std::random::RandomSource;
use uf_cid::{BlockHash, Cid, Codec};

/// How many blocks are read ahead at most, which are hashed side by side.
const GROUP: usize = 8;

/// From how many on they are hashed side by side with empty ones: eight take as long as four by themselves.
const MANY: usize = 5;

/// How many bytes their pieces have at most: eight blocks of 1 MiB, and an eighth more.
const MOST_AHEAD: usize = 9438272;

// Which blocks lie in a buffer, each at the head of a piece of `size` bytes, and how long they are.
#[derive(Clone, Copy)]
struct Pieces {
    cids: [Cid; 8],
    lengths: [usize; 8],
    size: usize,
    count: usize,
    ghost few: { count ≤ 8 },
    ghost room: { (k : ℕ) → k < 8 → slice_index lengths k + 72 ≤ size },
    ghost short: { (k : ℕ) → k < count → slice_index lengths k ≤ 2097152 },
}

impl Pieces {
    // No blocks.
    fn new(size: usize) -> Self
        requires { 72 ≤ size }
        ensures none { result.count ≡ 0 }
        ensures size { result.size ≡ size }
    {
        Pieces {
            cids: [Cid {
                codec: Codec::Raw,
                digest: [0u8; 32],
            }; 8],
            lengths: [0; 8],
            size,
            count: 0,
        }
    }

    // Notes one block more.
    fn push(&mut self, cid: &Cid, count: usize)
        requires few { self.old.count < 8 }
        requires room { count + 72 ≤ self.old.size }
        requires short { count ≤ 2097152 }
        ensures more { self.new.count ≡ self.old.count + 1 }
        ensures size { self.new.size ≡ self.old.size }
    {
        self.cids[self.count] = *cid;
        self.lengths[self.count] = count;
        self.count += 1;
    }
}

/// Where some bytes lie in a buffer.
#[derive(Clone, Copy)]
pub struct Span {
    pub at: usize,
    pub count: usize,
}

/// The bytes of the files of some blocks, and their digests. The buffer never gets shorter, so that few zeros are
/// written to it: what stands behind a block in its piece, and behind the pieces, is of no account.
#[derive(Drop)]
pub struct Ahead<X: BlockHash> {
    hash: PhantomData<X>,
    pieces: Pieces,
    bytes: Vec<u8>,
    digests: [[u8; 32]; 8],
    ghost inside: { pieces.count * pieces.size ≤ length bytes.items },
    ghost hashed: { (k : ℕ) → k < pieces.count
        → slice_index_or digests k [] ≡ X.block32 (block_in bytes.items pieces.size pieces.lengths k) },
}

impl<X: BlockHash> Ahead<X> {
    /// No blocks.
    pub fn new(alloc: Global) -> Self {
        Ahead {
            hash: PhantomData,
            pieces: Pieces::new(PADDING),
            bytes: Vec::new(alloc),
            digests: [[0u8; 32]; 8],
        }
    }

    /// The bytes of a span of the buffer.
    pub fn bytes_at(&self, span: Span) -> &[u8]
        requires { IsInside span self.now.bytes.items }
        ensures { result.now ≡ bytes_at span self.now.bytes.items }
    {
        &self.bytes[span.at..span.at + span.count]
    }

    /// Reads the files of the first of these blocks in the place of those that are here. A file that is less than half
    /// as long as the first one's, or longer by more than an eighth, or one that can't be read, is left out with those
    /// after it.
    pub fn read<R: Files + RandomSource>(&mut self, folder: &Folder<R>, cids: &[Cid]) {
        let Some(first) = cids.first() else {
            return;
        };
        let length = folder.length_of_block(first);
        let pieces = gather(folder, cids, length, &mut self.bytes);
        let lanes = lanes_for(&mut self.bytes, &pieces);
        self.digests = digests_in::<X>(&mut self.bytes, &pieces, lanes);
        self.pieces = pieces;
    }

    /// Lets go of the blocks that are here.
    pub fn forget(&mut self)
        ensures { self.new.pieces.count ≡ 0 }
    {
        self.pieces = Pieces::new(PADDING);
    }

    /// Where in the buffer a block lies that is here and has its CID's digest.
    pub fn find(&self, cid: &Cid) -> Option<Span>
        ensures inside { IfSome result (λ span. IsInside span self.now.bytes.items) }
        ensures whole { IfSome result (λ span. IsWholeFor X.block32 cid.now (bytes_at span self.now.bytes.items)) }
    {
        let place = self.place_of(cid)?;
        Some(Span {
            at: place * self.pieces.size,
            count: self.pieces.lengths[place],
        })
    }

    // The place of a block that has its CID's digest.
    fn place_of(&self, cid: &Cid) -> Option<usize>
        ensures inside { IfSome result (λ k. k < self.now.pieces.count) }
        ensures digest { IfSome result (λ k. slice_index_or self.now.digests k [] ≡ cid.now.digest) }
    {
        for place in 0..self.pieces.count {
            if self.pieces.cids[place] == *cid && self.digests[place] == cid.digest {
                return Some(place);
            }
        }
        None
    }
}

// How many pieces are to be hashed: all eight, for which there is room then, or those that have blocks.
fn lanes_for(bytes: &mut Vec<u8>, pieces: &Pieces) -> usize
    requires { pieces.now.count * pieces.now.size ≤ vec_len bytes.old }
    ensures all { pieces.now.count ≤ result }
    ensures most { result ≤ 8 }
    ensures inside { result * pieces.now.size ≤ vec_len bytes.new }
{
    if pieces.count >= MANY
        && pieces.size <= MOST_AHEAD / GROUP
        && grow(bytes, GROUP * pieces.size).is_ok()
    {
        GROUP
    } else {
        pieces.count
    }
}

// The digests of the blocks at the heads of n pieces, with which a buffer begins.
fn digests_in<X: BlockHash>(bytes: &mut [u8], pieces: &Pieces, lanes: usize) -> [[u8; 32]; 8]
    requires all { pieces.now.count ≤ lanes }
    requires most { lanes ≤ 8 }
    requires inside { lanes * pieces.now.size ≤ length bytes.old }
    ensures digests { (k : ℕ) → k < pieces.now.count
        → slice_index_or result k [] ≡ X.block32 (block_in bytes.new pieces.now.size pieces.now.lengths k) }
{
    let mut digests = [[0u8; 32]; 8];
    let lengths = &pieces.lengths[..lanes];
    let front = &mut bytes[..lanes * pieces.size];
    X::block32_apart(front, pieces.size, lengths, &mut digests[..lanes]);
    digests
}

// How long the pieces of blocks are, of which the first one has this length: with room for an eighth more.
fn size_of_piece(first: usize) -> usize
    requires { first ≤ 2097152 }
    ensures least { 72 ≤ result }
    ensures most { result ≤ 4194304 }
{
    (first + first / 8 + PADDING).div_ceil(64) * 64
}

// Makes a buffer as long as this, unless it is longer.
fn grow(bytes: &mut Vec<u8>, length: usize) -> Result<(), AllocError>
    ensures ok { OnOk result (length ≤ vec_len bytes.new) }
    ensures more { vec_len bytes.old ≤ vec_len bytes.new }
{
    if bytes.len() < length {
        bytes.resize(length, 0)?;
    }
    Ok(())
}

// Reads the files of at most eight blocks, each to the head of a piece, as far as they are about as long as the first
// one, which has this length.
fn gather<R: Files + RandomSource>(
    folder: &Folder<R>,
    cids: &[Cid],
    first: usize,
    bytes: &mut Vec<u8>,
) -> Pieces
    requires { first ≤ 2097152 }
    ensures { result.count * result.size ≤ vec_len bytes.new }
{
    let size = size_of_piece(first);
    let mut pieces = Pieces::new(size);
    for at in 0..cids.len().min(GROUP) {
        let end = (at + 1) * size;
        if end > MOST_AHEAD || grow(bytes, end).is_err() {
            break;
        }
        let piece = &mut bytes[at * size..end];
        let Some(count) = folder.read_piece(&cids[at], first / 2, piece) else {
            break;
        };
        pieces.push(&cids[at], count);
    }
    pieces
}
