//! Some CIDs, of which the one that was put last is taken first.
ghost use Rattle.std.specs.Prelude.{◌≡◌, ◌≤◌, ◌↔◌, [], ◌∷◌, length, IfOk, IsTrue, MatchOption, OnErr, OnOk, slice_get};
ghost use Rattle.std.specs.Option.{option_copied};

use std::alloc::Global;
use std::marker::Model;
use uf_cid::{Cid, Memory};

// How many CIDs a chunk has room for.
const ROOM: usize = 64;

/// At most some CIDs. Contracts see them from the one that was put last on.
#[derive(Drop)]
pub struct Chunk {
    items: Vec<Cid>,
}

impl Model for Chunk {
    ghost use Rattle.std.specs.Prelude.{List};
    ghost use Rattle.std.proofs.Common.{reverse};
    ghost use Rattle.uf_cid.specs.declared.cid.Cid.{Cid};

    ghost Value = { List Cid };

    ghost view = { λ c. reverse c.items.items };
}

impl Chunk {
    /// No CIDs, and no room for them yet.
    pub fn new(alloc: Global) -> Self
        ensures { result ≡ [] }
    {
        Chunk {
            items: Vec::new(alloc),
        }
    }

    /// One CID, with room for all that a chunk may hold.
    pub fn of(alloc: Global, cid: Cid) -> Result<Self, Memory>
        ensures { IfOk result (λ chunk. chunk ≡ cid ∷ []) }
    {
        let mut items = Vec::with_capacity(alloc, ROOM)?;
        items.push(cid)?;
        Ok(Chunk { items })
    }

    /// Whether another chunk is to be begun.
    pub fn is_full(&self) -> bool
        ensures { IsTrue result → 1 ≤ length self.now }
    {
        ROOM <= self.items.len()
    }

    /// Whether there is none.
    pub fn is_empty(&self) -> bool
        ensures { IsTrue result ↔ (self.now ≡ []) }
    {
        self.items.is_empty()
    }

    /// Puts a CID first.
    pub fn push(&mut self, cid: Cid) -> Result<(), Memory>
        ensures ok { OnOk result (self.new ≡ cid ∷ self.old) }
        ensures err { OnErr result (self.new ≡ self.old) }
    {
        self.items.push(cid)?;
        Ok(())
    }

    /// Takes the first one.
    pub fn pop(&mut self) -> Option<Cid>
        ensures { MatchOption result ((self.old ≡ []) × (self.new ≡ [])) (λ cid. self.old ≡ cid ∷ self.new) }
    {
        self.items.pop()
    }

    /// The first one.
    pub fn first(&self) -> Option<&Cid>
        ensures { option_copied result ≡ slice_get self.now 0 }
    {
        self.items.last()
    }
}
