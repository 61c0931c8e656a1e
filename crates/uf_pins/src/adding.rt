//! A CID pinned.
ghost use Rattle.std.specs.Prelude.{◌≡◌, ◌≤◌, ◌+◌, ◌∷◌, [], Err, IfOk, Some, length};
ghost use Rattle.uf_store.specs.Contents.{Contents, held_at};
ghost use Rattle.uf_store.specs.Faults.{NoneIsBad, Shown};
ghost use Rattle.uf_pins.specs.Calls.{AddsPin, GivesText, WritesMore, pin_fault};
ghost use Rattle.uf_pins.specs.Reach.{reach};
ghost use Rattle.uf_pins.specs.Texts.{ArePins};
ghost use Rattle.uf_pins.specs.declared.fault.PinFault.TheVariants as fault;

use crate::below::reach_one;
use crate::lists::{place_of, with_pin};
use crate::writing::{sync, write_pins};
use crate::{PinFault, list_pins, pins_text};
use std::alloc::Global;
use std::sync::ledger::Ledger;
use uf_cid::{Block, Cid, Cids};
use uf_store::{Steps, Store};

/// How many CIDs may be pinned.
const MOST_PINS: usize = 65536;

/// Pins a CID: all that is below it has to be there, is synced, and is kept by collections from then on. The note of
/// one that was pinned stays as it is. One touch for each CID below it and itself, of which there may be n.
pub fn add_pin<S: Store, L: Ledger>(
    alloc: Global,
    store: &mut S,
    cid: &Cid,
    most: u32,
    touches: &mut Steps<L>,
) -> Result<(), PinFault>
    ensures added { (t : Contents) → (S.seen store.old).told ≡ Some t
        → AddsPin t most cid.now result (S.seen store.new).told }
    ensures unread { result ≡ Err fault.BadPins → (S.seen store.new).told ≡ (S.seen store.old).told }
    ensures writes { WritesMore result (S.seen store.old).told (S.seen store.new).told }
    ensures touches { touches.new ≤ touches.old + most }
    ensures each { (t : Contents) → (S.seen store.old).told ≡ Some t
        → IfOk (reach (held_at t) most (cid.now ∷ [])) (λ list. touches.new ≤ touches.old + length list) }
    ensures cause { Shown S.X.block32 NoneIsBad (pin_fault result) (S.seen store.old) (S.seen store.new) }
{
    let pins = list_pins(alloc, store)?;
    reach_one(alloc, store, cid, most, touches)?;
    let text = text_with(alloc, &pins, cid)?;
    sync(store)?;
    match text {
        None => Ok(()),
        Some(text) => write_pins(store, &text),
    }
}

// The text of pins and one CID more; none where it is among them.
fn text_with(alloc: Global, pins: &Cids, cid: &Cid) -> Result<Option<Block>, PinFault>
    requires { ArePins pins.now }
    ensures { GivesText cid.now pins.now result }
{
    let is_there = place_of(pins, cid).is_some();
    if MOST_PINS + is_there as usize <= pins.len() {
        return Err(PinFault::TooManyPins);
    }
    if is_there {
        return Ok(None);
    }
    let now = with_pin(alloc, pins, cid)?;
    Ok(Some(pins_text(alloc, &now)?))
}
