//! Calls on pins, and collections.

use std::alloc::Global;
use std::sync::ledger::Ledger;
use uf_cid::{Block, BlockHash, Cids, Memory};
use uf_pins::{PinFault, add_pin, list_pins, read_pins, remove_pin};
use uf_playing::{Call, cid_in, say_about, say_amount, say_cids, say_debug, say_fault, small};
use uf_testing::{number_and_rest, say};

// The most CIDs of a collection.
const MOST: u32 = 16777216;

fn say_pin_fault(alloc: Global, fault: &PinFault, told: &mut Block) -> Result<(), Memory> {
    match fault {
        PinFault::BadPins => say(told, "bad pins"),
        PinFault::TooManyPins => say(told, "too many pins"),
        PinFault::NotPinned(cid) => say_about(told, "not pinned", cid),
        PinFault::NotDagPb(cid, why) => {
            let line = format!(in alloc; "not dag-pb {why}")?;
            say_about(told, line.as_str(), cid)
        }
        PinFault::TooMany => say(told, "too many"),
        PinFault::Store(fault) => say_fault(alloc, fault, told),
    }
}

// Says that a call is done, or why not.
fn say_done(alloc: Global, answer: &Result<(), PinFault>, told: &mut Block) -> Result<(), Memory> {
    match answer {
        Ok(()) => say(told, "done"),
        Err(fault) => say_pin_fault(alloc, fault, told),
    }
}

/// Pins a block: `pin MOST CODEC BYTES`.
pub fn pin<X: BlockHash, L: Ledger>(call: &mut Call<X, L>, rest: &str) -> Result<(), Memory> {
    let (most, rest) = number_and_rest(rest);
    let cid = cid_in::<X>(call.alloc, rest)?;
    let answer = add_pin(call.alloc, call.store, &cid, small(most), call.touches);
    say_done(call.alloc, &answer, call.told)
}

/// Pins a block no more: `unpin CODEC BYTES`.
pub fn unpin<X: BlockHash, L: Ledger>(call: &mut Call<X, L>, rest: &str) -> Result<(), Memory> {
    let cid = cid_in::<X>(call.alloc, rest)?;
    let answer = remove_pin(call.alloc, call.store, &cid);
    say_done(call.alloc, &answer, call.told)
}

/// All pins: `list-pins`.
pub fn list<X: BlockHash, L: Ledger>(call: &mut Call<X, L>) -> Result<(), Memory> {
    match list_pins(call.alloc, call.store) {
        Ok(cids) => say_cids(call.told, &cids),
        Err(fault) => say_pin_fault(call.alloc, &fault, call.told),
    }
}

/// Lets go of what neither a root nor a pin leads to: `collect`, or `collect CODEC BYTES`.
pub fn collect<X: BlockHash, L: Ledger>(call: &mut Call<X, L>, rest: &str) -> Result<(), Memory> {
    let mut roots = Cids::new(call.alloc);
    if !rest.is_empty() {
        roots.push(cid_in::<X>(call.alloc, rest)?)?;
    }
    match uf_pins::collect(call.alloc, call.store, &roots, MOST, call.touches) {
        Ok(count) => say_amount(call.alloc, call.told, count, "went"),
        Err(fault) => say_pin_fault(call.alloc, &fault, call.told),
    }
}

/// Reads the bytes of a note of pins: `pins` on the input.
pub fn read(alloc: Global, bytes: &[u8], told: &mut Block) -> Result<(), Memory> {
    match read_pins(alloc, bytes) {
        Ok(cids) => say_cids(told, &cids),
        Err(fault) => say_debug(alloc, told, &fault),
    }
}
