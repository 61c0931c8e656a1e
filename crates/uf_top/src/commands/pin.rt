//! `pin add`, `pin rm` and `pin ls`: CIDs pinned, pinned no more, and listed.
ghost use Rattle.std.specs.Prelude.{◌≡◌, List, ℕ};
ghost use Rattle.uf_command.specs.declared.types.Command.TheVariants as commands;
ghost use Rattle.uf_command.specs.declared.types.PinAsk.TheVariants as asks;
ghost use Rattle.uf_top.specs.Lent.{OverOutput};
ghost use Rattle.uf_top.specs.Working.{Does};

use crate::commands::dag::MOST_BLOCKS;
use std::alloc::Global;
use std::sync::ledger::Ledger;
use uf_command::{PinAsk, Refusal, cid_lines, print};
use uf_edge::Sink;
use uf_pins::{add_pin, list_pins, remove_pin};
use uf_store::{Steps, Store};

// Does what is asked of the pins. A CID is pinned once all that is below it was found and synced.
pub fn pin<S: Store, O: Sink, L: Ledger>(
    alloc: Global,
    ask: &PinAsk,
    store: &mut S,
    output: &mut O,
    touches: &mut Steps<L>,
) -> Result<(), Refusal>
    ensures does { (N : List ℕ → ℕ) → OverOutput O.Sink (Does S.X.block32 N (commands.Pin ask.now) result)
        (S.seen store.old) output.old touches.old (S.seen store.new) output.new touches.new }
    ensures untouched { ask.now ≡ asks.List → touches.new ≡ touches.old }
{
    match ask {
        PinAsk::Add { cid } => Ok(add_pin(alloc, store, cid, MOST_BLOCKS, touches)?),
        PinAsk::Remove { cid } => Ok(remove_pin(alloc, store, cid)?),
        PinAsk::List => {
            let pins = list_pins(alloc, store)?;
            let text = cid_lines(alloc, &pins)?;
            print(&text, output)
        }
    }
}
