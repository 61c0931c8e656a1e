//! Everything below a CID read.
ghost use Rattle.std.specs.Prelude.{◌≡◌, ◌≢◌, ◌≤◌, ◌<◌, ◌+◌, ◌∷◌, ◌++◌, IfOk, IfSome, OnOk, map};
ghost use Rattle.uf_lenient.specs.declared.due.LeafVisit.TheVariants.{Asked, Loaded};
ghost use Rattle.uf_lenient.specs.declared.due.Visited.TheVariants.{Whole};
ghost use Rattle.uf_store.specs.Contents.{held_at};
ghost use Rattle.uf_lenient.specs.Good.{ByGoodBlocks, ByLeaves};
ghost use Rattle.uf_lenient.specs.Metas.{IsGoodGathered, IsGoodShape};
ghost use Rattle.uf_lenient.specs.Pending.{gathered_due, way_due};
ghost use Rattle.uf_lenient.specs.Reading.{shape_of as shape_is};
ghost use Rattle.uf_lenient.specs.Steps.{IsInOrder, Surveys};
ghost use Rattle.uf_lenient.specs.Calls.{MeetsLeaf, ReadsAllDue, ReadsDag, ReadsOneDue, ShowsDag, TouchesByVisit};

use crate::ahead::enter_ahead;
use crate::due::{Due, LeafVisit, Visited};
use crate::gathered::Gathered;
use crate::gathering::gather;
use crate::looking::shape_of;
use crate::met::MetWays;
use crate::parts::{put_parts, read_node};
use crate::pile::Pile;
use crate::visiting::ask;
use crate::{DagFault, Limits, Shape};
use std::alloc::Global;
use std::sync::ledger::Ledger;
use uf_cid::{Cid, Codec, Memory};
use uf_store::{Steps, Store};

/// Reads everything below a CID without keeping it: after `Ok` the CID denotes a tree, whose root has this shape. One
/// touch for each visit.
pub fn survey<S: Store, L: Ledger>(
    alloc: Global,
    store: &mut S,
    cid: &Cid,
    limits: &Limits,
    touches: &mut Steps<L>,
) -> Result<Shape, DagFault>
    ensures says { IfSome (S.seen store.old).told (λ t. Surveys (held_at t) limits.now cid.now result) }
    ensures good { ByGoodBlocks S.X.block32 (S.seen store.old).told (λ held. Surveys held limits.now cid.now result) }
    ensures order { IfOk result IsInOrder }
    ensures good_meta { IfOk result IsGoodShape }
    ensures cause { ShowsDag S.X.block32 (S.seen store.old) (S.seen store.new) result }
    ensures told { (S.seen store.new).told ≡ (S.seen store.old).told }
    ensures touches { touches.new ≤ touches.old + limits.now.visits }
    ensures touched { touches.old ≤ touches.new }
{
    survey_by(alloc, store, cid, limits, LeafVisit::Loaded, touches)
}

/// The same, but of a leaf that is a raw block it is only asked whether it is there, and its bytes are not loaded. So
/// one that is damaged shows only when it is loaded. The block of the CID itself is loaded, whatever it is.
pub fn survey_nodes<S: Store, L: Ledger>(
    alloc: Global,
    store: &mut S,
    cid: &Cid,
    limits: &Limits,
    touches: &mut Steps<L>,
) -> Result<Shape, DagFault>
    ensures says { IfSome (S.seen store.old).told (λ t. Surveys (held_at t) limits.now cid.now result) }
    ensures order { IfOk result IsInOrder }
    ensures good_meta { IfOk result IsGoodShape }
    ensures cause { ShowsDag S.X.block32 (S.seen store.old) (S.seen store.new) result }
    ensures told { (S.seen store.new).told ≡ (S.seen store.old).told }
    ensures touches { touches.new ≤ touches.old + limits.now.visits }
    ensures touched { touches.old ≤ touches.new }
{
    survey_by(alloc, store, cid, limits, LeafVisit::Asked, touches)
}

// Reads everything below a CID, whose leaves are visited in this way.
fn survey_by<S: Store, L: Ledger>(
    alloc: Global,
    store: &mut S,
    cid: &Cid,
    limits: &Limits,
    leaf: LeafVisit,
    touches: &mut Steps<L>,
) -> Result<Shape, DagFault>
    ensures says { ByLeaves leaf S.X.block32 (S.seen store.old).told (λ held.
        Surveys held limits.now cid.now result) }
    ensures order { IfOk result IsInOrder }
    ensures good_meta { IfOk result IsGoodShape }
    ensures reads { ReadsDag S.X.block32 (S.seen store.old) (S.seen store.new) result }
    ensures touches { touches.new ≤ touches.old + limits.now.visits }
    ensures touched { touches.old ≤ touches.new }
{
    let mut visits = limits.visits;
    let left = u64::from(limits.depth) + 1;
    let gathered = gather(alloc, store, cid, left, &mut visits, touches)?;
    complete(alloc, store, gathered, leaf, left - 1, &mut visits, touches)
}

// The shape of what was gathered, after everything below it was read.
fn complete<S: Store, L: Ledger>(
    alloc: Global,
    store: &mut S,
    gathered: Gathered,
    leaf: LeafVisit,
    left: u64,
    visits: &mut u32,
    touches: &mut Steps<L>,
) -> Result<Shape, DagFault>
    requires good { IsGoodGathered gathered }
    ensures says { ReadsAllDue leaf S.X.block32 (S.seen store.old) (gathered_due left gathered) visits.old visits.new
        result }
    ensures reads { ReadsDag S.X.block32 (S.seen store.old) (S.seen store.new) result }
    ensures shape { IfOk result (λ s. s ≡ shape_is gathered) }
    ensures order { IfOk result IsInOrder }
    ensures good_meta { IfOk result IsGoodShape }
    ensures touches { TouchesByVisit visits.old visits.new touches.old touches.new }
{
    let shape = shape_of(alloc, &gathered)?;
    read_gathered(alloc, store, gathered, leaf, left, visits, touches)?;
    Ok(shape)
}

// Reads everything below what was gathered.
fn read_gathered<S: Store, L: Ledger>(
    alloc: Global,
    store: &mut S,
    gathered: Gathered,
    leaf: LeafVisit,
    left: u64,
    visits: &mut u32,
    touches: &mut Steps<L>,
) -> Result<(), DagFault>
    ensures says { ReadsAllDue leaf S.X.block32 (S.seen store.old) (gathered_due left gathered) visits.old visits.new
        result }
    ensures reads { ReadsDag S.X.block32 (S.seen store.old) (S.seen store.new) result }
    ensures touches { TouchesByVisit visits.old visits.new touches.old touches.new }
{
    let mut due = Pile::new(alloc);
    put_gathered(&mut due, gathered, left)?;
    read_due(alloc, store, &mut due, leaf, visits, touches)
}

// Reads what is in a pile, from its top down, and everything below it.
fn read_due<S: Store, L: Ledger>(
    alloc: Global,
    store: &mut S,
    due: &mut Pile<Due>,
    leaf: LeafVisit,
    visits: &mut u32,
    touches: &mut Steps<L>,
) -> Result<(), DagFault>
    ensures says { ReadsAllDue leaf S.X.block32 (S.seen store.old) due.old visits.old visits.new result }
    ensures reads { ReadsDag S.X.block32 (S.seen store.old) (S.seen store.new) result }
    ensures touches { TouchesByVisit visits.old visits.new touches.old touches.new }
{
    while let Some(next) = due.pop() {
        read_one(alloc, store, &next, due, leaf, visits, touches)?;
    }
    Ok(())
}

// Visits one block, and puts what is below it on the pile.
fn read_one<S: Store, L: Ledger>(
    alloc: Global,
    store: &mut S,
    next: &Due,
    due: &mut Pile<Due>,
    leaf: LeafVisit,
    visits: &mut u32,
    touches: &mut Steps<L>,
) -> Result<(), DagFault>
    ensures says { ReadsOneDue leaf S.X.block32 (S.seen store.old) (next.now ∷ due.old) due.new visits.old visits.new
        result }
    ensures reads { ReadsDag S.X.block32 (S.seen store.old) (S.seen store.new) result }
    ensures fewer { OnOk result (visits.new < visits.old) }
    ensures touches { TouchesByVisit visits.old visits.new touches.old touches.new }
{
    match next.cid.codec {
        Codec::Raw => meet_leaf(store, next, due.as_slice(), leaf, visits, touches),
        Codec::DagPb => match next.visited {
            Visited::Whole => read_whole(alloc, store, next, due, visits, touches),
            Visited::File => read_part(alloc, store, next, due, visits, touches),
            Visited::Part => read_part(alloc, store, next, due, visits, touches),
        },
    }
}

// Visits a raw block. Where it is loaded, the store is told of it and of the leaves that come after it.
fn meet_leaf<S: Store, L: Ledger>(
    store: &mut S,
    next: &Due,
    rest: &[Due],
    leaf: LeafVisit,
    visits: &mut u32,
    touches: &mut Steps<L>,
) -> Result<(), DagFault>
    ensures says { MeetsLeaf leaf S.X.block32 next.now.left next.now.cid (S.seen store.old) visits.old visits.new
        result }
    ensures reads { ReadsDag S.X.block32 (S.seen store.old) (S.seen store.new) result }
    ensures depth { OnOk result (1 ≤ next.now.left) }
    ensures fewer { OnOk result (visits.new + 1 ≡ visits.old) }
    ensures touches { TouchesByVisit visits.old visits.new touches.old touches.new }
{
    match leaf {
        LeafVisit::Loaded => enter_ahead(store, next, rest, visits, touches),
        LeafVisit::Asked => ask(store, &next.cid, next.left, visits, touches),
    }
}

// Visits a member of a directory, and puts what is below it on the pile.
fn read_whole<S: Store, L: Ledger>(
    alloc: Global,
    store: &mut S,
    next: &Due,
    due: &mut Pile<Due>,
    visits: &mut u32,
    touches: &mut Steps<L>,
) -> Result<(), DagFault>
    ensures says { next.now.visited ≡ Whole → ReadsOneDue Loaded S.X.block32 (S.seen store.old) (next.now ∷ due.old)
        due.new visits.old visits.new result }
    ensures reads { ReadsDag S.X.block32 (S.seen store.old) (S.seen store.new) result }
    ensures fewer { OnOk result (visits.new < visits.old) }
    ensures touches { TouchesByVisit visits.old visits.new touches.old touches.new }
{
    let gathered = gather(alloc, store, &next.cid, next.left, visits, touches)?;
    put_gathered(due, gathered, next.left - 1)?;
    Ok(())
}

// Visits a part of a file, and puts the parts that it links on the pile.
fn read_part<S: Store, L: Ledger>(
    alloc: Global,
    store: &mut S,
    next: &Due,
    due: &mut Pile<Due>,
    visits: &mut u32,
    touches: &mut Steps<L>,
) -> Result<(), DagFault>
    ensures says { next.now.visited ≢ Whole → ReadsOneDue Loaded S.X.block32 (S.seen store.old) (next.now ∷ due.old)
        due.new visits.old visits.new result }
    ensures reads { ReadsDag S.X.block32 (S.seen store.old) (S.seen store.new) result }
    ensures fewer { OnOk result (visits.new < visits.old) }
    ensures touches { TouchesByVisit visits.old visits.new touches.old touches.new }
{
    let (_, links) = read_node(alloc, store, next, visits, touches)?;
    put_parts(due, links.as_slice(), next.left - 1)?;
    Ok(())
}

// Puts what is below the first node of a file, or the members of a directory, on the pile.
fn put_gathered(due: &mut Pile<Due>, gathered: Gathered, left: u64) -> Result<(), Memory>
    ensures { OnOk result (due.new ≡ gathered_due left gathered ++ due.old) }
{
    match gathered {
        Gathered::File(_, _, links) => put_parts(due, links.as_slice(), left),
        Gathered::Folder(_, met) => put_members(due, met),
    }
}

// Puts the members of a directory on the pile, the first one on top.
fn put_members(due: &mut Pile<Due>, mut met: MetWays) -> Result<(), Memory>
    ensures { OnOk result (due.new ≡ map way_due met ++ due.old) }
{
    while let Some(found) = met.pop_last() {
        due.push(Due {
            cid: found.cid,
            left: found.left,
            visited: Visited::Whole,
        })?;
    }
    Ok(())
}
