//! What is still ahead of a walk, in chunks: beside the CIDs there is room for no more than a chunk of others.
ghost use Rattle.std.specs.Prelude.{◌≡◌, [], ◌∷◌, ◌++◌, drop, MatchOption, OnErr, OnOk, slice_get};
ghost use Rattle.uf_walk.specs.Piled.{AreSome, IsPiled, piled, whole_pile};

use crate::chunk::Chunk;
use std::alloc::Global;
use std::collections::VecDeque;
use std::marker::Model;
use std::mem;
use uf_cid::{Cid, Memory};

/// The links that are ahead, and after them the roots. Contracts see them as one list.
#[derive(Drop)]
pub struct Frontier {
    alloc: Global,
    below: Vec<Chunk>,
    top: Chunk,
    roots: VecDeque<Cid>,
}

impl Model for Frontier {
    ghost use Rattle.std.specs.Prelude.{List, ◌++◌};
    ghost use Rattle.uf_cid.specs.declared.cid.Cid.{Cid};
    ghost use Rattle.uf_walk.specs.Piled.{IsPiled, whole_pile};

    ghost Value = { List Cid };

    ghost view = { λ a. whole_pile a.top a.below.items ++ a.roots.items };

    ghost invariant = { λ a. IsPiled a.top a.below.items };
}

impl Frontier {
    /// Nothing is ahead.
    pub fn new(alloc: Global) -> Self
        ensures { result ≡ [] }
    {
        Frontier {
            alloc,
            below: Vec::new(alloc),
            top: Chunk::new(alloc),
            roots: VecDeque::new(alloc),
        }
    }

    /// Puts a CID after all others.
    pub fn push_back(&mut self, cid: Cid) -> Result<(), Memory>
        ensures ok { OnOk result (self.new ≡ self.old ++ cid ∷ []) }
        ensures err { OnErr result (self.new ≡ self.old) }
    {
        self.roots.push_back(cid)?;
        Ok(())
    }

    /// Puts a CID before all others.
    pub fn push_front(&mut self, cid: Cid) -> Result<(), Memory>
        ensures ok { OnOk result (self.new ≡ cid ∷ self.old) }
        ensures err { OnErr result (self.new ≡ self.old) }
    {
        put_on_top(self.alloc, &mut self.below, &mut self.top, cid)
    }

    /// Takes the first CID.
    pub fn pop_front(&mut self) -> Option<Cid>
        ensures { MatchOption result ((self.old ≡ []) × (self.new ≡ [])) (λ cid. self.old ≡ cid ∷ self.new) }
    {
        match take_from_top(&mut self.below, &mut self.top) {
            Some(cid) => Some(cid),
            None => self.roots.pop_front(),
        }
    }

    /// The first CID.
    pub fn first(&self) -> Option<Cid>
        ensures { result ≡ slice_get self.now 0 }
    {
        match self.top.first() {
            Some(cid) => Some(*cid),
            None => front_of(&self.roots),
        }
    }

    /// Takes the first n CIDs away.
    pub fn take_away(&mut self, count: usize)
        ensures { self.new ≡ drop count self.old }
    {
        for _ in 0..count {
            let _ = self.pop_front();
        }
    }
}

// Puts a CID on top of a pile of chunks.
fn put_on_top(
    alloc: Global,
    below: &mut Vec<Chunk>,
    top: &mut Chunk,
    cid: Cid,
) -> Result<(), Memory>
    requires { IsPiled top.old below.old.items }
    ensures ok { OnOk result (whole_pile top.new below.new.items ≡ cid ∷ whole_pile top.old below.old.items) }
    ensures err { OnErr result ((top.new ≡ top.old) × (below.new.items ≡ below.old.items)) }
    ensures piled { IsPiled top.new below.new.items }
{
    if !top.is_full() {
        return top.push(cid);
    }
    let fresh = Chunk::of(alloc, cid)?;
    below.reserve(1)?;
    below.push_reserved(mem::replace(top, fresh));
    Ok(())
}

// Takes the CID on top of a pile of chunks.
fn take_from_top(below: &mut Vec<Chunk>, top: &mut Chunk) -> Option<Cid>
    requires { IsPiled top.old below.old.items }
    ensures gives { MatchOption result
        ((whole_pile top.old below.old.items ≡ []) × (whole_pile top.new below.new.items ≡ []))
        (λ cid. whole_pile top.old below.old.items ≡ cid ∷ whole_pile top.new below.new.items) }
    ensures piled { IsPiled top.new below.new.items }
{
    let taken = top.pop();
    if top.is_empty() {
        refill(below, top);
    }
    taken
}

// Puts the uppermost chunk below in place of one that is empty.
fn refill(below: &mut Vec<Chunk>, top: &mut Chunk)
    requires empty { top.old ≡ [] }
    requires some { AreSome below.old.items }
    ensures same { whole_pile top.new below.new.items ≡ piled below.old.items }
    ensures piled { IsPiled top.new below.new.items }
{
    if let Some(chunk) = below.pop() {
        *top = chunk;
    }
}

// The first of some roots.
fn front_of(roots: &VecDeque<Cid>) -> Option<Cid>
    ensures { result ≡ slice_get roots.now.items 0 }
{
    roots.front().copied()
}
