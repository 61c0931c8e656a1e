//! The CIDs that are still to be gone through.
ghost use Rattle.std.specs.Prelude.{◌≡◌, [], ◌∷◌, MatchOption, OnOk};

use std::alloc::Global;
use std::marker::Model;
use uf_cid::{Cid, Memory};

// CIDs, the next one first.
#[derive(Drop)]
pub struct CidStack {
    items: Vec<Cid>,
}

impl Model for CidStack {
    ghost use Rattle.std.specs.Prelude.{List};
    ghost use Rattle.std.proofs.Common.{reverse};
    ghost use Rattle.uf_cid.specs.declared.cid.Cid.{Cid};

    ghost Value = { List Cid };

    ghost view = { λ d. reverse d.items.items };
}

impl CidStack {
    // None.
    pub fn new(alloc: Global) -> CidStack
        ensures { result ≡ [] }
    {
        CidStack {
            items: Vec::new(alloc),
        }
    }

    // Puts a CID first.
    pub fn push(&mut self, cid: Cid) -> Result<(), Memory>
        ensures ok { OnOk result (self.new ≡ cid ∷ self.old) }
    {
        self.items.push(cid)?;
        Ok(())
    }

    // Takes the first one.
    pub fn pop(&mut self) -> Option<Cid>
        ensures { MatchOption result ((self.old ≡ []) × (self.new ≡ [])) (λ cid. self.old ≡ cid ∷ self.new) }
    {
        self.items.pop()
    }
}
