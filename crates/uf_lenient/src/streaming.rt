//! A file written out.
ghost use Rattle.std.specs.Prelude.{◌≡◌, ◌≤◌, ◌+◌, IfSome};
ghost use Rattle.uf_edge.specs.Counts.{Counts};
ghost use Rattle.uf_store.specs.Calls.{OnlyReads};
ghost use Rattle.uf_store.specs.Contents.{held_at};
ghost use Rattle.uf_store.specs.Faults.{NoneIsBad, Shown};
ghost use Rattle.uf_lenient.specs.Reading.{file_of};
ghost use Rattle.uf_lenient.specs.Steps.{to_come};
ghost use Rattle.uf_lenient.specs.Streams.{SendsFront, Streams, sink_failed, stream_fault};

use crate::{Limits, Pieces, StreamFault};
use std::alloc::Global;
use std::sync::ledger::Ledger;
use uf_cid::Cid;
use uf_edge::{Sent, Sink, write_all};
use uf_store::{Steps, Store};

/// Writes the bytes of the file that a CID names, and answers how many; the count stands still at 2^64 - 1. One touch
/// for each visit.
pub fn stream<S: Store, O: Sink, L: Ledger>(
    alloc: Global,
    store: &mut S,
    cid: &Cid,
    limits: &Limits,
    out: &mut O,
    touches: &mut Steps<L>,
) -> Result<u64, StreamFault>
    ensures says { IfSome (S.seen store.old).told (λ t. Streams (file_of (held_at t) limits.now cid.now)
        (O.holds out.old) (O.holds out.new) result) }
    ensures front { SendsFront (S.seen store.old).told (λ held. file_of held limits.now cid.now)
        (O.holds out.old) (O.holds out.new) }
    ensures sink { Counts (sink_failed result) (O.faults out.old) (O.faults out.new) }
    ensures cause { Shown S.X.block32 NoneIsBad (stream_fault result) (S.seen store.old) (S.seen store.new) }
    ensures told { (S.seen store.new).told ≡ (S.seen store.old).told }
    ensures touches { touches.new ≤ touches.old + limits.now.visits }
    ensures touched { touches.old ≤ touches.new }
{
    let mut pieces = Pieces::new(alloc, cid, limits)?;
    write_pieces(store, &mut pieces, out, touches)
}

// Writes the pieces that are left, and answers how many bytes they have.
fn write_pieces<S: Store, O: Sink, L: Ledger>(
    store: &mut S,
    pieces: &mut Pieces,
    out: &mut O,
    touches: &mut Steps<L>,
) -> Result<u64, StreamFault>
    ensures says { IfSome (S.seen store.old).told (λ t. Streams (to_come (held_at t) pieces.old) (O.holds out.old)
        (O.holds out.new) result) }
    ensures front { SendsFront (S.seen store.old).told (λ held. to_come held pieces.old) (O.holds out.old)
        (O.holds out.new) }
    ensures sink { Counts (sink_failed result) (O.faults out.old) (O.faults out.new) }
    ensures reads { OnlyReads S.X.block32 NoneIsBad (stream_fault result) (S.seen store.old) (S.seen store.new) }
    ensures touches { touches.new ≤ touches.old + pieces.old.1 }
    ensures touched { touches.old ≤ touches.new }
{
    let mut count: u64 = 0;
    while let Some(piece) = pieces.next(store, touches)? {
        match write_all(out, piece.as_slice()) {
            Sent::Failed => return Err(StreamFault::Sink),
            Sent::Done => count = count.saturating_add(piece.as_slice().len() as u64),
        }
    }
    Ok(count)
}
