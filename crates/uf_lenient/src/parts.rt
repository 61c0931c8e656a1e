//! Nodes of files visited.
ghost use Rattle.std.specs.Prelude.{◌≡◌, ◌≤◌, ◌+◌, ◌++◌, OnOk};
ghost use Rattle.uf_lenient.specs.Pending.{own_part, parts_due};
ghost use Rattle.uf_lenient.specs.Calls.{ReadsDag, SaysVisits, TouchesByVisit};

use crate::DagFault;
use crate::due::{Due, Visited};
use crate::nodes::{first_of, part_of};
use crate::pile::Pile;
use crate::visiting::visit;
use std::alloc::Global;
use std::sync::ledger::Ledger;
use uf_cid::{Block, Memory};
use uf_dagpb::{Link, Links};
use uf_store::{Steps, Store};

/// Visits a node of a file, and answers its own bytes and its links. One touch for the visit.
pub fn read_node<S: Store, L: Ledger>(
    alloc: Global,
    store: &mut S,
    next: &Due,
    visits: &mut u32,
    touches: &mut Steps<L>,
) -> Result<(Block, Links), DagFault>
    ensures says { SaysVisits S.X.block32 (S.seen store.old) visits.new (λ held. own_part held next.now visits.old)
        result }
    ensures reads { ReadsDag S.X.block32 (S.seen store.old) (S.seen store.new) result }
    ensures depth { OnOk result (1 ≤ next.now.left) }
    ensures fewer { OnOk result (visits.new + 1 ≡ visits.old) }
    ensures most { visits.old ≤ visits.new + 1 }
    ensures touches { TouchesByVisit visits.old visits.new touches.old touches.new }
{
    let node = visit(alloc, store, &next.cid, next.left, visits, touches)?;
    match next.visited {
        Visited::Part => part_of(&next.cid, node),
        Visited::Whole => first_of(&next.cid, node),
        Visited::File => first_of(&next.cid, node),
    }
}

/// Puts the parts that a file's node links on the pile, the first one on top.
pub fn put_parts(due: &mut Pile<Due>, links: &[Link], left: u64) -> Result<(), Memory>
    ensures { OnOk result (due.new ≡ parts_due left links.now ++ due.old) }
{
    for at in (0..links.len()).rev() {
        due.push(Due {
            cid: links[at].cid,
            left,
            visited: Visited::Part,
        })?;
    }
    Ok(())
}
