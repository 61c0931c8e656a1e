//! Walks.
ghost use Rattle.std.specs.Prelude.{◌≡◌, ◌<◌, ◌≤◌, ◌++◌, ◌∷◌, [], None, Some, map, slice_get};
ghost use Rattle.std.specs.Prelude.{OnOk, OnErr, IsSome};
ghost use Rattle.uf_walk.specs.Order.{Follow, Whole};

use crate::ahead::Frontier;
use crate::key::Key;
use crate::links::{links_ahead, pass_over};
use crate::{Turn, WalkFault};
use indexmap::IndexSet;
use std::alloc::Global;
use std::marker::Model;
use uf_cid::{Cid, Memory};

/// A walk over links from roots in turn. It hands out each CID once, at its first visit, depth first and the links of
/// a node from left to right; the caller hands in the block of each. It holds the CIDs that it met, and the links
/// still ahead.
#[derive(Drop)]
pub struct Walk {
    alloc: Global,
    most: u32,
    met: IndexSet<Key>,
    ahead: Frontier,
    due: Option<Cid>,
}

impl Model for Walk {
    ghost use Rattle.std.specs.Prelude.{◌≤◌, length, map};
    ghost use Rattle.uf_walk.specs.Walked.{Walked, walked};

    ghost Value = { Walked };

    ghost view = { λ w. walked w.most (map (λ k. k.cid) w.met.keys) w.ahead w.due };

    ghost invariant = { λ w. length w.met.keys ≤ w.most };
}

impl Walk {
    ghost use Rattle.uf_walk.specs.Turns.{AddsRoot, AdvancesWalk, TakesBlock};
    ghost use Rattle.uf_walk.specs.Walked.{course};

    /// A walk that may hand out n CIDs, with no root.
    pub fn new(alloc: Global, most: u32) -> Walk
        ensures most { result.most ≡ most }
        ensures handed { result.handed ≡ [] }
        ensures due { result.due ≡ None }
        ensures course { (follow : Follow) → course follow result ≡ Whole [] }
    {
        Walk {
            alloc,
            most,
            met: IndexSet::new(alloc),
            ahead: Frontier::new(alloc),
            due: None,
        }
    }

    /// Adds a root after all that is ahead. No block may be due.
    pub fn add_root(&mut self, cid: &Cid) -> Result<(), Memory>
        requires { self.old.due ≡ None }
        ensures ok { OnOk result (AddsRoot cid.now self.old self.new) }
        ensures err { OnErr result (self.new ≡ self.old) }
    {
        self.ahead.push_back(*cid)?;
        Ok(())
    }

    /// Goes on to the next new CID, whose block is due then. No block may be due before.
    pub fn advance(&mut self) -> Result<Turn, Memory>
        requires { self.old.due ≡ None }
        ensures { AdvancesWalk result self.old self.new }
    {
        self.met.reserve(1)?;
        pass_over(&self.met, &mut self.ahead);
        let Some(cid) = self.ahead.first() else {
            return Ok(Turn::End);
        };
        if self.met.len() == self.most as usize {
            return Ok(Turn::TooMany);
        }
        let _ = self.ahead.pop_front();
        match self.met.insert(Key { cid }) {
            Ok(_) => {
                self.due = Some(cid);
                Ok(Turn::At(cid))
            }
            Err(_) => unreachable!(),
        }
    }

    /// Takes the block that is due, and puts its links ahead of all others; a raw block has none.
    pub fn take(&mut self, bytes: &[u8]) -> Result<(), WalkFault>
        requires { IsSome self.old.due }
        ensures { TakesBlock bytes.now result self.old self.new }
    {
        let Some(cid) = self.due else { unreachable!() };
        links_ahead(self.alloc, &cid, bytes, &mut self.ahead)?;
        self.due = None;
        Ok(())
    }

    /// The CID of this place among those that were handed out, counted from 0.
    pub fn met(&self, place: u32) -> Option<Cid>
        ensures { result ≡ slice_get self.now.handed place }
    {
        match self.met.get_index(place as usize) {
            Some(key) => Some(key.cid),
            None => None,
        }
    }
}
