//! The store of blocks and notes.
ghost use Rattle.std.specs.Prelude.{◌≡◌, ◌≤◌, ◌+◌, List, ℕ, length};
ghost use Rattle.uf_store.specs.Seen.{Seen, Loads, Looks, Saves, Syncs, ReadsNote, WritesNote};

use crate::Steps;
use std::sync::ledger::Ledger;
use uf_cid::{Block, BlockHash, Cid, Memory};
use uf_edge::Put;

/// The answer of a load.
#[derive(Clone, Copy, Debug, PartialEq, Eq)]
pub enum Load {
    /// The block is there and has its CID's digest; `block` lends it.
    Found,
    /// No block is held under the CID.
    Missing,
    /// What is held under the CID hasn't its digest, or is longer than a block may be.
    Damaged,
    /// The store failed.
    Failed,
    /// Out of memory.
    Memory,
}

/// Whether a block is there.
#[derive(Clone, Copy, PartialEq, Eq)]
pub enum Presence {
    /// A block is held under the CID, whole or damaged.
    There,
    /// None is.
    Missing,
    /// The store failed.
    Failed,
    /// Out of memory.
    Memory,
}

/// The answer of a save.
#[derive(Clone, Copy, PartialEq, Eq)]
pub enum Save {
    /// The block is held under its CID.
    Done,
    /// Other bytes of the same digest are held there, which `block` lends.
    Clash,
    /// The store failed.
    Failed,
    /// Out of memory.
    Memory,
}

/// The answer of a reading of a note: its bytes, or that there is no such note.
#[derive(Drop)]
pub enum NoteRead {
    /// The bytes of the note.
    Text(Block),
    /// There is no such note.
    Absent,
    /// The store failed.
    Failed,
    /// Out of memory.
    Memory,
}

/// The notes of a store: `Head` names the tree's root.
#[derive(Clone, Copy, PartialEq, Eq)]
pub enum Note {
    /// The tree: its profile and its root.
    Head,
    /// The CIDs that are pinned.
    Pins,
}

/// One write of the past: a block under its CID, a sync, or the text of a note.
#[derive(Drop)]
pub enum Write {
    /// A block was saved under its CID.
    Saved(Cid, Block),
    /// All saves before were made durable.
    Synced,
    /// A note was written with this text.
    Noted(Note, Block),
}

/// What a block is read as.
#[derive(Clone, Copy, Debug, PartialEq, Eq)]
pub enum Role {
    /// The root of a directory: its one block, or its first shard.
    Directory,
    /// A shard of a directory, at this level below its first.
    Shard(u8),
    /// A node of a file.
    FileNode,
    /// A piece of a file.
    Leaf,
}

/// Why a call over a store gave up. A clash has the block that is held, and then the one that was to be saved.
#[derive(Drop)]
pub enum StoreFault {
    /// The store failed (`error: store`).
    Failed,
    /// What is held under this CID isn't its block (`error: store`).
    Damaged(Cid),
    /// No block is held under this CID (`error: missing`).
    Missing(Cid),
    /// The block of this CID isn't canonical in this role (`error: bad block`).
    BadBlock(Cid, Role),
    /// Two blocks of one digest (`error: clash`).
    Clash(Cid, Block, Block),
    /// Out of memory (`error: memory`).
    Memory,
}

impl From<Memory> for StoreFault {
    ghost use Rattle.std.specs.Prelude.{◌≡◌};
    ghost use Rattle.uf_store.specs.declared.store.StoreFault.TheVariants as faults;

    ghost from_gives = { λ memory fault. fault ≡ faults.Memory };

    fn from(_memory: Memory) -> Self {
        StoreFault::Memory
    }
}

/// The most bytes of a block.
pub const MOST_BYTES: usize = 2097152;

/// Blocks under their CIDs, and two notes. A store may tell what it holds; whether it does never changes.
///
/// It counts the blocks that it found and those that were missing, failures and damaged blocks, and saves that met
/// other bytes under their CID. A count never falls, and stands still at 2^64 - 1.
pub trait Store {
    /// The hash that names the blocks.
    type X: BlockHash;

    // What a contract sees of the store.
    ghost seen: { Self → Seen };

    /// Looks for a block, which `block` then lends. One touch.
    fn load<L: Ledger>(&mut self, cid: &Cid, touches: &mut Steps<L>) -> Load
        ensures seen { Loads Self.X.block32 cid.now result (seen self.old) (seen self.new) }
        ensures touch { touches.new ≡ touches.old + 1 };

    /// Says whether a block is there, without reading it: one that is damaged is there too. No other block is lent.
    /// One touch.
    fn holds<L: Ledger>(&mut self, cid: &Cid, touches: &mut Steps<L>) -> Presence
        ensures seen { Looks cid.now result (seen self.old) (seen self.new) }
        ensures touch { touches.new ≡ touches.old + 1 };

    /// The last block that was found, or that a save met as a clash; no bytes before any.
    fn block(&self) -> &[u8]
        ensures { result.now ≡ (seen self.now).lent };

    /// Keeps a block under its CID. Other bytes of the same digest that are held there are a clash. One touch.
    fn save<L: Ledger>(&mut self, cid: &Cid, bytes: &[u8], touches: &mut Steps<L>) -> Save
        requires digest { Self.X.block32 bytes.now ≡ cid.now.digest }
        requires size { length bytes.now ≤ 2097152 }
        ensures seen { Saves Self.X.block32 cid.now bytes.now result (seen self.old) (seen self.new) }
        ensures touch { touches.new ≡ touches.old + 1 };

    /// Makes earlier saves durable.
    fn sync(&mut self) -> Put
        ensures seen { Syncs result (seen self.old) (seen self.new) };

    /// Reads a note.
    fn read_note(&mut self, which: Note) -> NoteRead
        ensures seen { ReadsNote which result (seen self.old) (seen self.new) };

    /// Writes a note, as one act that is durable.
    fn write_note(&mut self, which: Note, bytes: &[u8]) -> Put
        ensures seen { WritesNote which bytes.now result (seen self.old) (seen self.new) };

    /// Says which blocks will probably be loaded next, so that a store may read them ahead. It changes nothing that is
    /// seen.
    fn foresee(&mut self, cids: &[Cid])
        ensures seen { seen self.new ≡ seen self.old }
    {
        let _ = cids;
    }
}
