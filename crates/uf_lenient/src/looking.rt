//! One directory read.
ghost use Rattle.std.specs.Prelude.{◌≡◌, ◌≤◌, ◌+◌, IfOk, Ok};
ghost use Rattle.uf_lenient.specs.Metas.{IsGoodGathered, IsGoodShape};
ghost use Rattle.uf_lenient.specs.Reading.{shallow_of, shape_of as shape_is};
ghost use Rattle.uf_lenient.specs.Steps.{IsInOrder};
ghost use Rattle.uf_lenient.specs.Calls.{SaysGoodReading, SaysReading, ShowsDag};

use crate::gathered::Gathered;
use crate::gathering::gather;
use crate::{DagFault, Limits, Shape};
use std::alloc::Global;
use std::sync::ledger::Ledger;
use uf_cid::{Cid, Memory};
use uf_store::{Steps, Store};

/// What a CID names: a file, of which the first node is read, or a directory, which is read with its sub-shards. Depth
/// and visits are counted from this CID on. One touch for each visit.
pub fn shallow<S: Store, L: Ledger>(
    alloc: Global,
    store: &mut S,
    cid: &Cid,
    limits: &Limits,
    touches: &mut Steps<L>,
) -> Result<Shape, DagFault>
    ensures says { SaysReading (S.seen store.old) (λ held. shallow_of held limits.now cid.now) result }
    ensures good { SaysGoodReading S.X.block32 (S.seen store.old) (λ held. shallow_of held limits.now cid.now) result }
    ensures order { IfOk result IsInOrder }
    ensures good_meta { IfOk result IsGoodShape }
    ensures cause { ShowsDag S.X.block32 (S.seen store.old) (S.seen store.new) result }
    ensures told { (S.seen store.new).told ≡ (S.seen store.old).told }
    ensures touches { touches.new ≤ touches.old + limits.now.visits }
    ensures touched { touches.old ≤ touches.new }
{
    let mut visits = limits.visits;
    let left = u64::from(limits.depth) + 1;
    let gathered = gather(alloc, store, cid, left, &mut visits, touches)?;
    let shape = shape_of(alloc, &gathered)?;
    Ok(shape)
}

/// The shape of what was gathered.
pub fn shape_of(alloc: Global, gathered: &Gathered) -> Result<Shape, Memory>
    requires good { IsGoodGathered gathered.now }
    ensures shape { IfOk result (λ s. s ≡ shape_is gathered.now) }
    ensures order { IfOk result IsInOrder }
    ensures good_meta { IfOk result IsGoodShape }
{
    match gathered {
        Gathered::File(meta, _, _) => Ok(Shape::File(*meta)),
        Gathered::Folder(meta, met) => Ok(Shape::Folder(*meta, met.ways(alloc)?)),
    }
}
