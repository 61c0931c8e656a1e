//! A file read node by node.
ghost use Rattle.std.specs.Prelude.{◌≡◌, ◌≤◌, ◌+◌, ◌↔◌, [], ◌++◌, drop, length, IfOk, IfSome, Ok, OnErr, OnOk, None};
ghost use Rattle.std.specs.Prelude.{Some, slice_get, ℕ};
ghost use Rattle.uf_cid.specs.Blocks.{Lookup as Held};
ghost use Rattle.uf_store.specs.Contents.{held_at};
ghost use Rattle.uf_lenient.specs.Good.{ByGoodBlocks};
ghost use Rattle.uf_lenient.specs.Pending.{parts_due};
ghost use Rattle.uf_lenient.specs.Reading.{file_of};
ghost use Rattle.uf_lenient.specs.Steps.{IsNextPiece, IsPiece, start_of, to_come};
ghost use Rattle.uf_lenient.specs.Visited.{VisitsNext};
ghost use Rattle.uf_lenient.specs.Calls.{ReadsDag, ShowsDag};

use crate::ahead::read_ahead;
use crate::due::{Due, Visited};
use crate::parts::put_parts;
use crate::pile::Pile;
use crate::{DagFault, Limits};
use std::alloc::Global;
use std::marker::Model;
use std::sync::ledger::Ledger;
use uf_cid::{Block, Cid, Memory};
use uf_dagpb::Links;
use uf_store::{Steps, Store};

/// The bytes of one file, node by node (UnixFS v1, "File"). Contracts see the nodes that are still to be visited, the
/// next one first, and how many visits are left.
#[derive(Drop)]
pub struct Pieces {
    alloc: Global,
    due: Pile<Due>,
    visits: u32,
}

impl Model for Pieces {
    ghost use Rattle.std.specs.Prelude.{List, ℕ};
    ghost use Rattle.uf_lenient.specs.declared.due.Due.{Due};

    ghost Value = { List Due × ℕ };

    ghost view = { λ p. (p.due, p.visits) };
}

impl Pieces {
    /// Before the first visit. Depth and visits are counted from here on, over all calls.
    pub fn new(alloc: Global, cid: &Cid, limits: &Limits) -> Result<Pieces, Memory>
        ensures start { IfOk result (λ p. p ≡ start_of limits.now cid.now) }
        ensures bytes { (held : Held) → IfOk result (λ p. to_come held p ≡ file_of held limits.now cid.now) }
    {
        let mut due = Pile::new(alloc);
        due.push(Due {
            cid: *cid,
            left: u64::from(limits.depth) + 1,
            visited: Visited::File,
        })?;
        Ok(Pieces {
            alloc,
            due,
            visits: limits.visits,
        })
    }

    /// Visits the next node and answers its own bytes, which may be none; `None` where every visit was made. After a
    /// fault all is as before. One touch for the visit.
    pub fn next<S: Store, L: Ledger>(
        &mut self,
        store: &mut S,
        touches: &mut Steps<L>,
    ) -> Result<Option<Block>, DagFault>
        ensures says { IfSome (S.seen store.old).told (λ t. IsNextPiece (held_at t) self.old self.new result) }
        ensures good { ByGoodBlocks S.X.block32 (S.seen store.old).told (λ held.
            IsNextPiece held self.old self.new result) }
        ensures visits { IfSome (S.seen store.old).told (λ t. IfOk result (λ piece. IfSome piece
            (λ _. VisitsNext (held_at t) self.old self.new))) }
        ensures none { (result ≡ Ok None) ↔ (self.old.0 ≡ []) }
        ensures unvisited { (result ≡ Ok None) → self.new ≡ self.old }
        ensures same { OnErr result (self.new ≡ self.old) }
        ensures fewer { IfOk result (λ piece. IfSome piece (λ _. self.new.1 + 1 ≡ self.old.1)) }
        ensures cause { ShowsDag S.X.block32 (S.seen store.old) (S.seen store.new) result }
        ensures told { (S.seen store.new).told ≡ (S.seen store.old).told }
        ensures touches { touches.new ≤ touches.old + 1 }
        ensures within { touches.new ≤ touches.old + self.old.1 }
        ensures touched { touches.old ≤ touches.new }
    {
        match self.due.top() {
            None => Ok(None),
            Some(next) => {
                let next = *next;
                Ok(Some(self.read(store, &next, touches)?))
            }
        }
    }

    // Visits the block on top of the pile, and puts the parts that it links in its place.
    fn read<S: Store, L: Ledger>(
        &mut self,
        store: &mut S,
        next: &Due,
        touches: &mut Steps<L>,
    ) -> Result<Block, DagFault>
        requires top { slice_get self.old.0 0 ≡ Some next.now }
        ensures says { ByGoodBlocks S.X.block32 (S.seen store.old).told (λ held.
            IsPiece held self.old self.new result) }
        ensures visits { ByGoodBlocks S.X.block32 (S.seen store.old).told (λ held.
            OnOk result (VisitsNext held self.old self.new)) }
        ensures same { OnErr result (self.new ≡ self.old) }
        ensures fewer { OnOk result (self.new.1 + 1 ≡ self.old.1) }
        ensures reads { ReadsDag S.X.block32 (S.seen store.old) (S.seen store.new) result }
        ensures touches { touches.new ≤ touches.old + 1 }
        ensures within { touches.new ≤ touches.old + self.old.1 }
        ensures touched { touches.old ≤ touches.new }
    {
        let mut visits = self.visits;
        let rest = self.rest();
        let (bytes, links) = read_ahead(self.alloc, store, next, rest, &mut visits, touches)?;
        self.replace(&links, next.left - 1)?;
        self.visits = visits;
        Ok(bytes)
    }

    // What comes after the block on top, which is the last of it.
    fn rest(&self) -> &[Due] {
        match self.due.as_slice() {
            [rest @ .., _] => rest,
            [] => &[],
        }
    }

    // Puts the parts that the node on top links in its place.
    fn replace(&mut self, links: &Links, left: u64) -> Result<(), Memory>
        requires { 1 ≤ length self.old.0 }
        ensures ok { OnOk result (self.new.0 ≡ parts_due left links.now ++ drop 1 self.old.0) }
        ensures visits { self.new.1 ≡ self.old.1 }
        ensures err { OnErr result (self.new ≡ self.old) }
    {
        let mut below = Pile::new(self.alloc);
        put_parts(&mut below, links.as_slice(), left)?;
        self.due.replace_top(&below)
    }
}
