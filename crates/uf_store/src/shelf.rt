//! Blocks by their CIDs, in memory.
ghost use Rattle.std.specs.Prelude.{◌≡◌, ◌↔◌, ◌∷◌, ◌++◌, [], IfOk, IsTrue, OnErr, OnOk, Some, false, true};
ghost use Rattle.std.specs.FinMap.{empty, from_entries, get, insert, len, remove};
ghost use Rattle.std.specs.Option.{option_copied};
ghost use Rattle.uf_cid.specs.Cid.{cid_cmp};
ghost use Rattle.uf_store.specs.Sweeping.{is_among, part_of, with_block_of};
ghost use Rattle.uf_store.specs.Whole.{AreWhole, IsDamaged, IsWhole};

use crate::{MOST_BYTES, Write};
use std::alloc::Global;
use std::collections::BTreeMap;
use std::marker::PhantomData;
use uf_cid::{Block, BlockHash, Cid, Cids, Memory};

/// Blocks by their CIDs. It knows whether a damaged one may be among them; else none is hashed when it is lent.
#[derive(Drop)]
pub(crate) struct Shelf<X: BlockHash> {
    hash: PhantomData<X>,
    blocks: BTreeMap<Cid, Block>,
    is_whole: bool,
    ghost whole: { is_whole ≡ true → AreWhole X.block32 blocks.entries },
}

impl<X: BlockHash> Shelf<X> {
    /// No blocks.
    pub(crate) fn new(alloc: Global) -> Self
        ensures { from_entries {R = cid_cmp} result.blocks.entries ≡ empty }
    {
        Shelf {
            hash: PhantomData,
            blocks: BTreeMap::new(alloc),
            is_whole: true,
        }
    }

    /// The block under a CID.
    pub(crate) fn get(&self, cid: &Cid) -> Option<&Block>
        ensures { option_copied result ≡ get (from_entries {R = cid_cmp} self.now.blocks.entries) cid.now }
    {
        self.blocks.get(cid)
    }

    /// Whether a block that is here is damaged. It is hashed only where one may be.
    pub(crate) fn is_damaged(&self, cid: &Cid, block: &Block) -> bool
        requires { get (from_entries {R = cid_cmp} self.now.blocks.entries) cid.now ≡ Some block.now }
        ensures damaged { IsTrue result ↔ IsDamaged X.block32 cid.now block.now }
        ensures whole { result ≡ false → IsWhole X.block32 cid.now block.now }
    {
        if self.is_whole {
            return false;
        }
        is_damaged::<X>(cid, block)
    }

    /// Puts a block under a CID; says whether it is known to be whole.
    pub(crate) fn insert(&mut self, cid: Cid, block: Block, is_whole: bool) -> Result<(), Memory>
        requires { IsTrue is_whole → IsWhole X.block32 cid block }
        ensures held { OnOk result (from_entries {R = cid_cmp} self.new.blocks.entries
            ≡ insert (from_entries {R = cid_cmp} self.old.blocks.entries) cid block) }
        ensures same { OnErr result (from_entries {R = cid_cmp} self.new.blocks.entries
            ≡ from_entries {R = cid_cmp} self.old.blocks.entries) }
    {
        self.is_whole = self.is_whole && is_whole;
        self.blocks.insert(cid, block)?;
        Ok(())
    }

    /// Takes the block under a CID away.
    pub(crate) fn remove(&mut self, cid: &Cid)
        ensures { from_entries {R = cid_cmp} self.new.blocks.entries
            ≡ remove (from_entries {R = cid_cmp} self.old.blocks.entries) cid.now }
    {
        let _ = self.blocks.remove(cid);
    }

    /// The same blocks, of these CIDs alone.
    pub(crate) fn only(&self, alloc: Global, kept: &Cids) -> Result<Self, Memory>
        ensures { IfOk result (λ shelf. from_entries {R = cid_cmp} shelf.blocks.entries ≡
            part_of (from_entries {R = cid_cmp} self.now.blocks.entries) (is_among kept.now)) }
    {
        let cids = kept.as_slice();
        let mut shelf = Shelf::new(alloc);
        for place in 0..cids.len() {
            self.hand(&mut shelf, &cids[place])?;
        }
        Ok(shelf)
    }

    // Puts a copy of the block under a CID into another shelf, where it is here.
    fn hand(&self, other: &mut Shelf<X>, cid: &Cid) -> Result<(), Memory>
        ensures { OnOk result (from_entries {R = cid_cmp} other.new.blocks.entries ≡
            with_block_of (from_entries {R = cid_cmp} self.now.blocks.entries) cid.now
            (from_entries {R = cid_cmp} other.old.blocks.entries)) }
    {
        if let Some(block) = self.blocks.get(cid) {
            other.insert(*cid, block.copy()?, self.is_whole)?;
        }
        Ok(())
    }

    /// How many blocks there are.
    pub(crate) fn len(&self) -> usize
        ensures { result ≡ len (from_entries {R = cid_cmp} self.now.blocks.entries) }
    {
        self.blocks.len()
    }
}

/// Keeps a block, and notes that it was saved; says whether it is known to be whole.
pub(crate) fn keep<X: BlockHash>(
    alloc: Global,
    blocks: &mut Shelf<X>,
    writes: &mut Vec<Write>,
    cid: &Cid,
    bytes: &[u8],
    is_good: bool,
) -> Result<(), Memory>
    requires { IsTrue is_good → IsWhole X.block32 cid.now bytes.now }
    ensures held { OnOk result (from_entries {R = cid_cmp} blocks.new.blocks.entries
        ≡ insert (from_entries {R = cid_cmp} blocks.old.blocks.entries) cid.now bytes.now) }
    ensures written { OnOk result (writes.new.items ≡ writes.old.items ++ Write.Saved cid.now bytes.now ∷ []) }
    ensures same_held { OnErr result (from_entries {R = cid_cmp} blocks.new.blocks.entries
        ≡ from_entries {R = cid_cmp} blocks.old.blocks.entries) }
    ensures same_written { OnErr result (writes.new.items ≡ writes.old.items) }
{
    let block = Block::from_slice(alloc, bytes)?;
    let copy = Block::from_slice(alloc, bytes)?;
    writes.push(Write::Saved(*cid, copy))?;
    match blocks.insert(*cid, block, is_good) {
        Ok(()) => Ok(()),
        Err(_) => {
            let _ = writes.pop();
            Err(Memory)
        }
    }
}

/// Whether a block is no longer than one may be and has its CID's digest.
pub(crate) fn is_whole<X: BlockHash>(cid: &Cid, block: &Block) -> bool
    ensures { IsTrue result ↔ IsWhole X.block32 cid.now block.now }
{
    block.as_slice().len() <= MOST_BYTES && X::block32(block.as_slice()) == cid.digest
}

// Whether a block is longer than one may be, or its hash isn't the CID's digest.
fn is_damaged<X: BlockHash>(cid: &Cid, block: &Block) -> bool
    ensures damaged { IsTrue result ↔ IsDamaged X.block32 cid.now block.now }
    ensures whole { result ≡ false → IsWhole X.block32 cid.now block.now }
{
    block.as_slice().len() > MOST_BYTES || X::block32(block.as_slice()) != cid.digest
}
