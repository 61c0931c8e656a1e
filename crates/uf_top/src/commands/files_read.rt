//! `files read`: a file of the tree that the Head names, sent to the output while its blocks are read.
ghost use Rattle.std.specs.Prelude.{ℕ};
ghost use Rattle.uf_top.specs.Lent.{OverOutput};
ghost use Rattle.uf_top.specs.Working.{Does};
ghost use Rattle.uf_command.specs.declared.types.Command.TheVariants as commands;

use crate::commands::files::{opened, sending};
use std::alloc::Global;
use std::sync::ledger::Ledger;
use uf_command::Refusal;
use uf_edge::Sink;
use uf_murmur::NameHash;
use uf_path::Path;
use uf_store::{Steps, Store};

// Writes at most `count` bytes of a file from an offset on.
pub fn send_part<S: Store, N: NameHash, O: Sink, L: Ledger>(
    alloc: Global,
    offset: u64,
    count: u64,
    path: &Path,
    store: &mut S,
    output: &mut O,
    touches: &mut Steps<L>,
) -> Result<(), Refusal>
    ensures { OverOutput O.Sink (Does S.X.block32 N.name64 (commands.Read offset count path.now) result)
        (S.seen store.old) output.old touches.old (S.seen store.new) output.new touches.new }
{
    let tree = opened::<S, N, L>(alloc, store, touches)?;
    tree.read::<S, N, O, L>(alloc, store, path, offset, count, output, touches)
        .map_err(sending)?;
    Ok(())
}
