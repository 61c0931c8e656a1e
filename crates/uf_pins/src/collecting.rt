//! Blocks that nothing keeps, let go.
ghost use Rattle.std.specs.Prelude.{◌≡◌, ◌≤◌, ◌+◌, ◌++◌, List, IfOk, Some, length};
ghost use Rattle.uf_cid.specs.declared.cid.Cid.{Cid as TheCid};
ghost use Rattle.uf_store.specs.Contents.{Contents, held_at};
ghost use Rattle.uf_store.specs.Faults.{NoneIsBad, Shown};
ghost use Rattle.uf_pins.specs.Calls.{pin_fault};
ghost use Rattle.uf_pins.specs.Collecting.{CollectsAll, KeepsReach};
ghost use Rattle.uf_pins.specs.Notes.{Lists};
ghost use Rattle.uf_pins.specs.Reach.{reach};

use crate::below::reach_all;
use crate::writing::sync;
use crate::{PinFault, list_pins};
use std::alloc::Global;
use std::sync::ledger::Ledger;
use uf_cid::Cids;
use uf_store::{Steps, StoreFault, Sweep, Swept};

/// Lets go of each block that no chain of links leads to from one of these roots or of the pins, and answers how many
/// went. Nothing goes where the pins aren't read, or where something below them or the roots isn't there. One touch
/// for each CID that is kept, of which there may be n.
pub fn collect<S: Sweep, L: Ledger>(
    alloc: Global,
    store: &mut S,
    roots: &Cids,
    most: u32,
    touches: &mut Steps<L>,
) -> Result<u64, PinFault>
    ensures collected { (t : Contents) → (S.seen store.old).told ≡ Some t
        → CollectsAll t most roots.now result (S.seen store.new).told }
    ensures kept { (t : Contents) → (S.seen store.old).told ≡ Some t
        → KeepsReach t most roots.now (S.seen store.new).told }
    ensures touches { touches.new ≤ touches.old + most }
    ensures each { (t : Contents) (pins : List TheCid) → (S.seen store.old).told ≡ Some t → Lists t.notes.pins pins
        → IfOk (reach (held_at t) most (roots.now ++ pins)) (λ list. touches.new ≤ touches.old + length list) }
    ensures cause { Shown S.X.block32 NoneIsBad (pin_fault result) (S.seen store.old) (S.seen store.new) }
{
    let pins = list_pins(alloc, store)?;
    let kept = reach_all(alloc, store, roots, &pins, most, touches)?;
    sync(store)?;
    match store.sweep(&kept) {
        Swept::Done(count) => Ok(count),
        Swept::Failed => Err(PinFault::Store(StoreFault::Failed)),
        Swept::Memory => Err(PinFault::Store(StoreFault::Memory)),
    }
}
