//! Leaves of a file that a store is told of before they are visited.
ghost use Rattle.std.specs.Prelude.{◌≡◌, ◌≤◌, ◌+◌, OnOk, length};
ghost use Rattle.uf_lenient.specs.Pending.{own_part};
ghost use Rattle.uf_lenient.specs.Calls.{LendsVisited, ReadsDag, SaysVisits, TouchesByVisit};

use crate::DagFault;
use crate::due::{Due, Visited};
use crate::parts::read_node;
use crate::visiting::enter;
use std::alloc::Global;
use std::sync::ledger::Ledger;
use uf_cid::{Block, Cid, Codec};
use uf_dagpb::Links;
use uf_store::{Steps, Store};

// How many leaves a store is told of at most, the next one among them.
const MOST_AHEAD: usize = 8;

/// Visits a raw block, as `enter` does. The store is told of it and of the leaves that come after it, of which the
/// next one is the last of `rest`.
pub fn enter_ahead<S: Store, L: Ledger>(
    store: &mut S,
    next: &Due,
    rest: &[Due],
    visits: &mut u32,
    touches: &mut Steps<L>,
) -> Result<(), DagFault>
    ensures says { LendsVisited S.X.block32 next.now.left next.now.cid (S.seen store.old) (S.seen store.new) visits.old
        visits.new result }
    ensures reads { ReadsDag S.X.block32 (S.seen store.old) (S.seen store.new) result }
    ensures depth { OnOk result (1 ≤ next.now.left) }
    ensures fewer { OnOk result (visits.new + 1 ≡ visits.old) }
    ensures touches { TouchesByVisit visits.old visits.new touches.old touches.new }
{
    foresee_leaves(store, next, rest);
    enter(store, &next.cid, next.left, visits, touches)
}

/// Visits a node of a file, as `read_node` does, and tells the store in the same way.
pub fn read_ahead<S: Store, L: Ledger>(
    alloc: Global,
    store: &mut S,
    next: &Due,
    rest: &[Due],
    visits: &mut u32,
    touches: &mut Steps<L>,
) -> Result<(Block, Links), DagFault>
    ensures says { SaysVisits S.X.block32 (S.seen store.old) visits.new (λ held. own_part held next.now visits.old)
        result }
    ensures reads { ReadsDag S.X.block32 (S.seen store.old) (S.seen store.new) result }
    ensures depth { OnOk result (1 ≤ next.now.left) }
    ensures fewer { OnOk result (visits.new + 1 ≡ visits.old) }
    ensures most { visits.old ≤ visits.new + 1 }
    ensures touches { TouchesByVisit visits.old visits.new touches.old touches.new }
{
    foresee_leaves(store, next, rest);
    read_node(alloc, store, next, visits, touches)
}

// Tells a store of a leaf that is visited next, and of those that come right after it.
fn foresee_leaves<S: Store>(store: &mut S, next: &Due, rest: &[Due])
    ensures { S.seen store.new ≡ S.seen store.old }
{
    if !is_leaf(next) {
        return;
    }
    let mut leaves = [next.cid; MOST_AHEAD];
    let count = 1 + copy_leaves(rest, &mut leaves[1..]);
    if count > 1 {
        store.foresee(&leaves[..count]);
    }
}

// Copies the CIDs of the leaves with which some visits end, the last one first: how many.
fn copy_leaves(rest: &[Due], leaves: &mut [Cid]) -> usize
    ensures { result ≤ length leaves.old }
{
    let most = rest.len().min(leaves.len());
    for count in 0..most {
        let due = &rest[rest.len() - 1 - count];
        if !is_leaf(due) {
            return count;
        }
        leaves[count] = due.cid;
    }
    most
}

// Whether a visit is that of a part of a file which links nothing.
fn is_leaf(due: &Due) -> bool {
    due.visited == Visited::Part && due.cid.codec == Codec::Raw
}
