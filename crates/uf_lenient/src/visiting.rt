//! One visit.
ghost use Rattle.std.specs.Prelude.{◌≡◌, ◌≤◌, ◌+◌, IfOk, OnOk};
ghost use Rattle.uf_lenient.specs.Metas.{IsGoodUnixfs};
ghost use Rattle.uf_lenient.specs.Reading.{visit_of};
ghost use Rattle.uf_lenient.specs.declared.due.LeafVisit.TheVariants.{Asked};
ghost use Rattle.uf_lenient.specs.Calls.{LendsVisited, MeetsLeaf, ReadsDag, SaysVisits, TouchesByVisit};

use crate::DagFault;
use crate::nodes::read_unixfs;
use crate::unixfs::Unixfs;
use std::alloc::Global;
use std::sync::ledger::Ledger;
use uf_cid::Cid;
use uf_store::{Steps, Store, need, need_there};

/// Visits a block, which the store then lends, where a depth and a visit are left for it. One touch for the visit.
pub fn enter<S: Store, L: Ledger>(
    store: &mut S,
    cid: &Cid,
    left: u64,
    visits: &mut u32,
    touches: &mut Steps<L>,
) -> Result<(), DagFault>
    ensures says { LendsVisited S.X.block32 left cid.now (S.seen store.old) (S.seen store.new) visits.old visits.new
        result }
    ensures reads { ReadsDag S.X.block32 (S.seen store.old) (S.seen store.new) result }
    ensures depth { OnOk result (1 ≤ left) }
    ensures fewer { OnOk result (visits.new + 1 ≡ visits.old) }
    ensures most { visits.old ≤ visits.new + 1 }
    ensures touches { TouchesByVisit visits.old visits.new touches.old touches.new }
{
    if left == 0 {
        return Err(DagFault::TooDeep(*cid));
    }
    if *visits == 0 {
        return Err(DagFault::TooMany);
    }
    *visits -= 1;
    need(store, cid, touches)?;
    Ok(())
}

/// Visits a block, as `enter` does, but only asks the store for it: its bytes are neither loaded nor hashed.
pub fn ask<S: Store, L: Ledger>(
    store: &mut S,
    cid: &Cid,
    left: u64,
    visits: &mut u32,
    touches: &mut Steps<L>,
) -> Result<(), DagFault>
    ensures says { MeetsLeaf Asked S.X.block32 left cid.now (S.seen store.old) visits.old visits.new result }
    ensures reads { ReadsDag S.X.block32 (S.seen store.old) (S.seen store.new) result }
    ensures depth { OnOk result (1 ≤ left) }
    ensures fewer { OnOk result (visits.new + 1 ≡ visits.old) }
    ensures touches { TouchesByVisit visits.old visits.new touches.old touches.new }
{
    if left == 0 {
        return Err(DagFault::TooDeep(*cid));
    }
    if *visits == 0 {
        return Err(DagFault::TooMany);
    }
    *visits -= 1;
    need_there(store, cid, touches)?;
    Ok(())
}

/// Visits a block and answers what it is. One touch for the visit.
pub fn visit<S: Store, L: Ledger>(
    alloc: Global,
    store: &mut S,
    cid: &Cid,
    left: u64,
    visits: &mut u32,
    touches: &mut Steps<L>,
) -> Result<Unixfs, DagFault>
    ensures says { SaysVisits S.X.block32 (S.seen store.old) visits.new (λ held. visit_of held left cid.now visits.old)
        result }
    ensures good { IfOk result IsGoodUnixfs }
    ensures reads { ReadsDag S.X.block32 (S.seen store.old) (S.seen store.new) result }
    ensures depth { OnOk result (1 ≤ left) }
    ensures fewer { OnOk result (visits.new + 1 ≡ visits.old) }
    ensures most { visits.old ≤ visits.new + 1 }
    ensures touches { TouchesByVisit visits.old visits.new touches.old touches.new }
{
    enter(store, cid, left, visits, touches)?;
    read_unixfs(alloc, cid, store.block())
}
