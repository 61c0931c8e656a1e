//! Blocks handed out of a store to a peer that asks for them.
ghost use Rattle.std.specs.Prelude.{◌≡◌, ◌≤◌, ◌<◌, ◌+◌, ◌-◌, ◌^◌, ℕ, List, Some, OnOk, IfSome, false};
ghost use Rattle.std.specs.Prelude.{length, nat_lt, if◌then◌else◌};
ghost use Rattle.uf_edge.specs.Counts.{Counts};
ghost use Rattle.uf_store.specs.Calls.{OnlyReads};
ghost use Rattle.uf_store.specs.Contents.{Contents, held_at};
ghost use Rattle.uf_store.specs.Faults.{NoneIsBad, Shown};
ghost use Rattle.uf_pull.specs.Frames.{Giving, Lacking, answer_bytes, frame_bytes};
ghost use Rattle.uf_pull.specs.Serving.{IsServing, SendsFrame, ServesLines, WritesBytes};
ghost use Rattle.uf_pull.specs.Serving.{is_serve_read, is_serve_sink, serve_fault};
ghost use Rattle.uf_pull.specs.Wants.{asked_in};
ghost use Rattle.uf_pull.specs.declared.fault.ServeFault.TheVariants.{BadWant, TooLong};

use crate::ServeFault;
use crate::want::{PeerAsk, ask_in};
use std::alloc::Global;
use std::sync::ledger::Ledger;
use uf_cid::{Cid, Memory};
use uf_edge::{Sent, Sink, Source, write_all};
use uf_lines::{Line, Lines};
use uf_store::{Load, Steps, Store, StoreFault};
use uf_varint::write;

// A line has at most n bytes.
const MOST_OF_LINE: usize = 4096;

/// Answers each line of an input that asks for a block by one frame, as soon as it has come, until `done` or the end:
/// the block, or that it isn't held. More than `limit` bytes are too many. It answers the number of
/// frames.
pub fn serve<S: Store, I: Source, O: Sink, L: Ledger>(
    alloc: Global,
    store: &mut S,
    limit: u64,
    input: &mut I,
    out: &mut O,
    touches: &mut Steps<L>,
) -> Result<u64, ServeFault>
    // Over a store and an input that tell: a frame for each block that is asked for; a failure leaves a prefix.
    ensures frames { (t : Contents) (bytes : List ℕ) → (S.seen store.old).told ≡ Some t → I.left input.old ≡ Some bytes
        → ServesLines (held_at t) (asked_in limit bytes) result (O.holds out.old) (O.holds out.new) }
    ensures some { WritesBytes (O.holds out.old) (O.holds out.new) }
    ensures cause { Shown S.X.block32 NoneIsBad (serve_fault result) (S.seen store.old) (S.seen store.new) }
    ensures fault { IfSome (serve_fault result) IsServing }
    ensures told { (S.seen store.new).told ≡ (S.seen store.old).told }
    ensures reads { Counts (is_serve_read result) (I.faults input.old) (I.faults input.new) }
    ensures writes { Counts (is_serve_sink result) (O.faults out.old) (O.faults out.new) }
{
    let mut lines = Lines::new(alloc, MOST_OF_LINE, limit);
    let mut frame = Vec::new(alloc);
    let mut room = limit;
    let mut served = 0;
    'rest: loop {
        match lines.next(input) {
            Line::Given => {}
            Line::End => return Ok(served),
            Line::TooLong => return Err(overrun(room, served)),
            Line::Failed => return Err(ServeFault::Read),
            Line::Memory => return Err(ServeFault::Store(StoreFault::Memory)),
        }
        let line = lines.line();
        match ask_in(line) {
            PeerAsk::Want(cid) => send(store, &cid, &mut frame, out, touches)?,
            PeerAsk::Done => return Ok(served),
            PeerAsk::Neither => return Err(ServeFault::BadWant(served + 1)),
        }
        served += 1;
        room = room.saturating_sub(line.len() as u64 + 1);
    }
}

// What is too long after n lines: the next one, where the limit has room for it, or else the input.
fn overrun(room: u64, served: u64) -> ServeFault
    requires { 0 < room → served < 2 ^ 64 - 1 }
    ensures { result ≡ (if nat_lt 4096 room then BadWant (served + 1) else TooLong) }
{
    if room > MOST_OF_LINE as u64 {
        ServeFault::BadWant(served + 1)
    } else {
        ServeFault::TooLong
    }
}

// Writes the frame that answers for a CID.
fn send<S: Store, O: Sink, L: Ledger>(
    store: &mut S,
    cid: &Cid,
    frame: &mut Vec<u8>,
    out: &mut O,
    touches: &mut Steps<L>,
) -> Result<(), ServeFault>
    ensures frame { (t : Contents) → (S.seen store.old).told ≡ Some t
        → SendsFrame (answer_bytes (held_at t) cid.now) result (O.holds out.old) (O.holds out.new) }
    ensures some { WritesBytes (O.holds out.old) (O.holds out.new) }
    ensures fault { IfSome (serve_fault result) IsServing }
    ensures reads { OnlyReads S.X.block32 NoneIsBad (serve_fault result) (S.seen store.old) (S.seen store.new) }
    ensures no_read { is_serve_read result ≡ false }
    ensures writes { Counts (is_serve_sink result) (O.faults out.old) (O.faults out.new) }
{
    match store.load(cid, touches) {
        Load::Found => put_block(frame, cid, store.block())?,
        Load::Missing => put_lack(frame, cid)?,
        Load::Damaged => return Err(ServeFault::Store(StoreFault::Damaged(*cid))),
        Load::Failed => return Err(ServeFault::Store(StoreFault::Failed)),
        Load::Memory => return Err(ServeFault::Store(StoreFault::Memory)),
    }
    match write_all(out, frame) {
        Sent::Done => Ok(()),
        Sent::Failed => Err(ServeFault::Sink),
    }
}

// Makes the frame that gives a block.
fn put_block(frame: &mut Vec<u8>, cid: &Cid, bytes: &[u8]) -> Result<(), Memory>
    requires { length bytes.now ≤ 2097152 }
    ensures { OnOk result (frame.new.items ≡ frame_bytes (Giving cid.now bytes.now)) }
{
    let mut number = [0u8; 10];
    let used = write(bytes.len() as u64 + 36, &mut number);
    frame.clear();
    frame.push(1)?;
    frame.extend_from_slice(&number[..used])?;
    frame.extend_from_slice(&cid.to_binary())?;
    frame.extend_from_slice(bytes)?;
    Ok(())
}

// Makes the frame that says that a block isn't held.
fn put_lack(frame: &mut Vec<u8>, cid: &Cid) -> Result<(), Memory>
    ensures { OnOk result (frame.new.items ≡ frame_bytes (Lacking cid.now)) }
{
    frame.clear();
    frame.push(0)?;
    frame.extend_from_slice(&cid.to_binary())?;
    Ok(())
}
