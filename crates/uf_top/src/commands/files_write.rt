//! `files write`: the input written into a file of the tree that the Head names.
ghost use Rattle.std.specs.Prelude.{ℕ};
ghost use Rattle.uf_edge.specs.Counts.{Counts};
ghost use Rattle.uf_top.specs.Causes.{TakesAll, is_read};
ghost use Rattle.uf_top.specs.Lent.{OverInput};
ghost use Rattle.uf_top.specs.Working.{Makes};
ghost use Rattle.uf_command.specs.declared.types.Command.TheVariants as commands;

use crate::commands::files::{edit_at, opened};
use std::alloc::Global;
use std::sync::ledger::Ledger;
use uf_cid::Block;
use uf_command::{Edit, Refusal};
use uf_edge::{Intake, Source, read_all};
use uf_murmur::NameHash;
use uf_path::Path;
use uf_plain::WriteHow;
use uf_store::{Steps, Store, StoreFault};

// The most bytes of an input that is written into a file.
const MOST: u64 = 268435456;

// Writes the input into a file of the tree that the Head names.
pub fn write_input<S: Store, N: NameHash, I: Source, L: Ledger>(
    alloc: Global,
    how: WriteHow,
    path: &Path,
    store: &mut S,
    input: &mut I,
    touches: &mut Steps<L>,
) -> Result<Block, Refusal>
    ensures { OverInput I.Source (Makes S.X.block32 N.name64 (commands.WriteInput how path.now) result)
        (S.seen store.old) input.old touches.old (S.seen store.new) input.new touches.new }
{
    let tree = opened::<S, N, L>(alloc, store, touches)?;
    let piece = taken(alloc, input)?;
    let edit = Edit::Write { how, piece };
    edit_at::<S, N, L>(alloc, tree, &edit, path, store, touches)
}

// All of the input.
fn taken<I: Source>(alloc: Global, input: &mut I) -> Result<Block, Refusal>
    ensures takes { TakesAll result (I.left input.old) (I.left input.new) }
    ensures counts { Counts (is_read result) (I.faults input.old) (I.faults input.new) }
{
    match read_all(alloc, input, MOST) {
        Ok(piece) => Ok(piece),
        Err(Intake::Failed) => Err(Refusal::Read),
        Err(Intake::TooLong) => Err(Refusal::InputTooLong),
        Err(Intake::Memory) => Err(Refusal::Store(StoreFault::Memory)),
    }
}
