//! CARs written from a store.
ghost use Rattle.std.specs.Prelude.{◌≡◌, ◌≤◌, ◌<◌, false, None, Some, OnOk, IfOk, length};
ghost use Rattle.uf_edge.specs.Counts.{Counts};
ghost use Rattle.uf_store.specs.Calls.{OnlyReads};
ghost use Rattle.uf_store.specs.Contents.{Contents, held_at};
ghost use Rattle.uf_store.specs.Faults.{NoneIsBad, Shown};
ghost use Rattle.uf_walk.specs.Order.{follow_held, order, ordered};
ghost use Rattle.uf_walk.specs.Turns.{HasTaken};
ghost use Rattle.uf_walk.specs.Walked.{course};
ghost use Rattle.uf_car.specs.Exporting.{EndsOrder, Exports, FollowsOrder, IsAfterWalk, WalksAll, WritesBlock};
ghost use Rattle.uf_car.specs.Exporting.{WritesCar, WritesSome};
ghost use Rattle.uf_car.specs.Exporting.{export_fault, is_sink_fault};
ghost use Rattle.uf_car.specs.Text.{car_text, section_bytes};

use crate::ExportFault;
use crate::foreseeing::foresee_met;
use crate::parts::{car_head, car_section};
use std::alloc::Global;
use std::sync::ledger::Ledger;
use uf_cid::{Cid, Codec, cids_are_whole};
use uf_edge::{Sent, Sink};
use uf_store::{Steps, Store, need, need_there};
use uf_varint::width;
use uf_walk::{Turn, Walk};

/// Writes the CAR of a root: the header, and a section for each block that links lead to from the root, in first-visit
/// depth-first order (CARv1). All is walked before anything is written. Of a raw block it is only asked then whether
/// it is there, and it is loaded once, as it is written: so one that is damaged ends the export within the text. It
/// answers the number of bytes. Two touches for each block.
pub fn export<S: Store, O: Sink, L: Ledger>(
    alloc: Global,
    store: &mut S,
    root: &Cid,
    most: u32,
    out: &mut O,
    touches: &mut Steps<L>,
) -> Result<u64, ExportFault>
    // Over a store that tells: the text of the order, or its first fault and nothing written; a failure leaves a
    // prefix.
    ensures text { (t : Contents) → (S.seen store.old).told ≡ Some t
        → Exports (held_at t) most root.now result (O.holds out.old) (O.holds out.new) }
    ensures some { WritesSome (O.holds out.old) (O.holds out.new) }
    ensures cause { Shown S.X.block32 NoneIsBad (export_fault result) (S.seen store.old) (S.seen store.new) }
    ensures told { (S.seen store.new).told ≡ (S.seen store.old).told }
    ensures counts { Counts (is_sink_fault result) (O.faults out.old) (O.faults out.new) }
{
    let walk = walk_from(alloc, store, root, most, touches)?;
    write_car(store, root, &walk, most, out, touches)
}

// Walks all that is below a root.
fn walk_from<S: Store, L: Ledger>(
    alloc: Global,
    store: &mut S,
    root: &Cid,
    most: u32,
    touches: &mut Steps<L>,
) -> Result<Walk, ExportFault>
    ensures walked { (t : Contents) → (S.seen store.old).told ≡ Some t
        → WalksAll (order (held_at t) most root.now) result }
    ensures reads { OnlyReads S.X.block32 NoneIsBad (export_fault result) (S.seen store.old) (S.seen store.new) }
    ensures no_sink { is_sink_fault result ≡ false }
{
    let mut walk = Walk::new(alloc, most);
    walk.add_root(root)?;
    walk_all(store, &mut walk, touches)?;
    Ok(walk)
}

// Goes along a walk to its end.
fn walk_all<S: Store, L: Ledger>(
    store: &mut S,
    walk: &mut Walk,
    touches: &mut Steps<L>,
) -> Result<(), ExportFault>
    requires { walk.old.due ≡ None }
    ensures walked { (t : Contents) → (S.seen store.old).told ≡ Some t
        → EndsOrder (ordered (held_at t) (course (follow_held (held_at t)) walk.old)) result walk.new }
    ensures reads { OnlyReads S.X.block32 NoneIsBad (export_fault result) (S.seen store.old) (S.seen store.new) }
    ensures no_sink { is_sink_fault result ≡ false }
{
    loop {
        match walk.advance()? {
            Turn::End => return Ok(()),
            Turn::TooMany => return Err(ExportFault::TooMany),
            Turn::At(cid) => take_block(walk, store, &cid, touches)?,
        }
    }
}

// Hands the block that is due to a walk, or tells it of a raw one that is there.
fn take_block<S: Store, L: Ledger>(
    walk: &mut Walk,
    store: &mut S,
    cid: &Cid,
    touches: &mut Steps<L>,
) -> Result<(), ExportFault>
    requires { walk.old.due ≡ Some cid.now }
    ensures order { (t : Contents) → (S.seen store.old).told ≡ Some t
        → FollowsOrder (held_at t) result walk.old walk.new }
    ensures taken { OnOk result (HasTaken walk.old walk.new) }
    ensures reads { OnlyReads S.X.block32 NoneIsBad (export_fault result) (S.seen store.old) (S.seen store.new) }
    ensures no_sink { is_sink_fault result ≡ false }
{
    match cid.codec {
        Codec::Raw => take_leaf(walk, store, cid, touches),
        Codec::DagPb => take_node(walk, store, cid, touches),
    }
}

// Tells a walk that the raw block that is due is there. Whatever its bytes are, it links none.
fn take_leaf<S: Store, L: Ledger>(
    walk: &mut Walk,
    store: &mut S,
    cid: &Cid,
    touches: &mut Steps<L>,
) -> Result<(), ExportFault>
    requires due { walk.old.due ≡ Some cid.now }
    requires raw { cid.now.codec ≡ Codec.Raw }
    ensures order { (t : Contents) → (S.seen store.old).told ≡ Some t
        → FollowsOrder (held_at t) result walk.old walk.new }
    ensures taken { OnOk result (HasTaken walk.old walk.new) }
    ensures reads { OnlyReads S.X.block32 NoneIsBad (export_fault result) (S.seen store.old) (S.seen store.new) }
    ensures no_sink { is_sink_fault result ≡ false }
{
    need_there(store, cid, touches)?;
    walk.take(&[])?;
    Ok(())
}

// Hands the node that is due to a walk.
fn take_node<S: Store, L: Ledger>(
    walk: &mut Walk,
    store: &mut S,
    cid: &Cid,
    touches: &mut Steps<L>,
) -> Result<(), ExportFault>
    requires { walk.old.due ≡ Some cid.now }
    ensures order { (t : Contents) → (S.seen store.old).told ≡ Some t
        → FollowsOrder (held_at t) result walk.old walk.new }
    ensures taken { OnOk result (HasTaken walk.old walk.new) }
    ensures reads { OnlyReads S.X.block32 NoneIsBad (export_fault result) (S.seen store.old) (S.seen store.new) }
    ensures no_sink { is_sink_fault result ≡ false }
{
    need(store, cid, touches)?;
    walk.take(store.block())?;
    Ok(())
}

// Writes the header and the blocks that a walk has handed out, at most n.
fn write_car<S: Store, O: Sink, L: Ledger>(
    store: &mut S,
    root: &Cid,
    walk: &Walk,
    most: u32,
    out: &mut O,
    touches: &mut Steps<L>,
) -> Result<u64, ExportFault>
    ensures text { (t : Contents) → (S.seen store.old).told ≡ Some t
        → IsAfterWalk (held_at t) most root.now walk.now.handed
        → WritesCar (car_text (held_at t) root.now walk.now.handed) result (O.holds out.old) (O.holds out.new) }
    ensures some { WritesSome (O.holds out.old) (O.holds out.new) }
    ensures reads { OnlyReads S.X.block32 NoneIsBad (export_fault result) (S.seen store.old) (S.seen store.new) }
    ensures counts { Counts (is_sink_fault result) (O.faults out.old) (O.faults out.new) }
{
    cids_are_whole(root);
    match car_head(root, out) {
        Sent::Failed => return Err(ExportFault::Sink),
        Sent::Done => {}
    }
    let mut written = 59;
    for place in 0..most {
        match walk.met(place) {
            None => return Ok(written),
            Some(cid) => {
                let count = write_block(store, walk, place, &cid, out, touches)?;
                written += count;
            }
        }
    }
    Ok(written)
}

// Loads the block that a walk has handed out at a place, writes it as a section, and says how many bytes that has.
fn write_block<S: Store, O: Sink, L: Ledger>(
    store: &mut S,
    walk: &Walk,
    place: u32,
    cid: &Cid,
    out: &mut O,
    touches: &mut Steps<L>,
) -> Result<u64, ExportFault>
    ensures block { WritesBlock cid.now result (S.seen store.old) (S.seen store.new)
        (O.holds out.old) (O.holds out.new) }
    ensures some { WritesSome (O.holds out.old) (O.holds out.new) }
    ensures few { IfOk result (λ n. n ≤ 2097198) }
    ensures reads { OnlyReads S.X.block32 NoneIsBad (export_fault result) (S.seen store.old) (S.seen store.new) }
    ensures counts { Counts (is_sink_fault result) (O.faults out.old) (O.faults out.new) }
{
    foresee_met(store, walk, place);
    need(store, cid, touches)?;
    let block = store.block();
    match car_section(cid, block, out) {
        Sent::Failed => Err(ExportFault::Sink),
        Sent::Done => Ok(section_len(cid, block)),
    }
}

// How many bytes the section of a block has.
fn section_len(cid: &Cid, bytes: &[u8]) -> u64
    requires { length bytes.now ≤ 2097152 }
    ensures exact { result ≡ length (section_bytes (cid.now, bytes.now)) }
    ensures few { result ≤ 2097198 }
{
    cids_are_whole(cid);
    let size = bytes.len() as u64 + 36;
    width(size) as u64 + size
}
