//! A CAR of the blocks of some CIDs, written from a store.
ghost use Rattle.std.specs.Prelude.{◌≡◌, ◌+◌, ◌<◌, ◌≤◌, ◌^◌, IfErr, IfOk, Some, length};
ghost use Rattle.uf_edge.specs.Counts.{Counts};
ghost use Rattle.uf_store.specs.Calls.{OnlyReads};
ghost use Rattle.uf_store.specs.Faults.{NoneIsBad};
ghost use Rattle.uf_store.specs.Contents.{Contents, held_at};
ghost use Rattle.uf_car.specs.Exporting.{WritesSome};
ghost use Rattle.uf_car.specs.Text.{car_text, section_bytes};
ghost use Rattle.uf_light.specs.Answers.{is_light_sink, light_fault};
ghost use Rattle.uf_light.specs.Sending.{IsNoCar};
ghost use Rattle.uf_light.specs.Writing.{AreThere, WritesCar, WritesSectionOf};

use crate::LightFault;
use crate::order::Order;
use std::sync::ledger::Ledger;
use uf_car::{car_head, car_section};
use uf_cid::{Cid, cids_are_whole};
use uf_edge::{Sent, Sink};
use uf_store::{Steps, Store, need};
use uf_varint::width;

// Writes the CAR of a root and of the blocks of these CIDs, and says how many bytes it has.
pub fn write_light<S: Store, O: Sink, L: Ledger>(
    store: &mut S,
    root: &Cid,
    order: &Order,
    out: &mut O,
    touches: &mut Steps<L>,
) -> Result<u64, LightFault>
    requires { length order.now < 2 ^ 32 }
    ensures text { (t : Contents) → (S.seen store.old).told ≡ Some t → AreThere (held_at t) order.now
        → WritesCar (car_text (held_at t) root.now order.now) result (O.holds out.old) (O.holds out.new) }
    ensures some { WritesSome (O.holds out.old) (O.holds out.new) }
    ensures form { IfErr result IsNoCar }
    ensures reads { OnlyReads S.X.block32 NoneIsBad (light_fault result) (S.seen store.old) (S.seen store.new) }
    ensures counts { Counts (is_light_sink result) (O.faults out.old) (O.faults out.new) }
    ensures few { touches.new ≤ touches.old + length order.now }
{
    cids_are_whole(root);
    match car_head(root, out) {
        Sent::Failed => return Err(LightFault::Sink),
        Sent::Done => {}
    }
    let mut written = 59;
    for place in 0..order.len() {
        match order.get(place) {
            None => return Ok(written),
            Some(cid) => {
                let count = write_block(store, &cid, out, touches)?;
                written += count;
            }
        }
    }
    Ok(written)
}

// Loads a block, writes it as a section, and says how many bytes that has. One touch.
fn write_block<S: Store, O: Sink, L: Ledger>(
    store: &mut S,
    cid: &Cid,
    out: &mut O,
    touches: &mut Steps<L>,
) -> Result<u64, LightFault>
    ensures block { WritesSectionOf cid.now result (S.seen store.old) (S.seen store.new)
        (O.holds out.old) (O.holds out.new) }
    ensures some { WritesSome (O.holds out.old) (O.holds out.new) }
    ensures form { IfErr result IsNoCar }
    ensures few { IfOk result (λ n. n ≤ 2097198) }
    ensures reads { OnlyReads S.X.block32 NoneIsBad (light_fault result) (S.seen store.old) (S.seen store.new) }
    ensures counts { Counts (is_light_sink result) (O.faults out.old) (O.faults out.new) }
    ensures touches { touches.new ≡ touches.old + 1 }
{
    need(store, cid, touches)?;
    let block = store.block();
    match car_section(cid, block, out) {
        Sent::Failed => Err(LightFault::Sink),
        Sent::Done => Ok(section_len(cid, block)),
    }
}

// How many bytes the section of a block has.
fn section_len(cid: &Cid, bytes: &[u8]) -> u64
    requires { length bytes.now ≤ 2097152 }
    ensures exact { result ≡ length (section_bytes (cid.now, bytes.now)) }
    ensures few { result ≤ 2097198 }
{
    cids_are_whole(cid);
    let size = bytes.len() as u64 + 36;
    width(size) as u64 + size
}
