//! `gen`: a large tree is generated, changed and built afresh, and what is said of it printed.
ghost use Rattle.std.specs.Prelude.{◌≡◌, ◌≤◌, ◌<◌, ℕ, IfErr};
ghost use Rattle.uf_edge.specs.Streams.{Told as Left};
ghost use Rattle.uf_edits.specs.Generated.{IsGenerated};
ghost use Rattle.uf_store.specs.Seen.{Seen as TheSeen};
ghost use Rattle.uf_command.specs.Natures.{OfTree};
ghost use Rattle.uf_command.specs.declared.types.Command.TheVariants as commands;
ghost use Rattle.uf_top.specs.Cars.{ByOwnStore};
ghost use Rattle.uf_top.specs.Lent.{OverOutput};
ghost use Rattle.uf_top.specs.Working.{Does};

use std::alloc::Global;
use std::marker::Brand;
use std::sync::ledger::{Blank, Ledger};
use uf_cid::{Block, BlockHash};
use uf_command::{Refusal, print};
use uf_edge::Sink;
use uf_edits::generated;
use uf_murmur::NameHash;
use uf_store::Steps;

// Prints what is said of the tree that the generator's steps make of `n` files, on a store in memory, and of the same
// tree built afresh on another one: the first rule that refuses a step, else five lines. A clash of two blocks is
// shown.
pub fn print_generated<X: BlockHash, N: NameHash, O: Sink>(
    alloc: Global,
    n: u64,
    seed: u64,
    output: &mut O,
) -> Result<(), Refusal>
    requires { n ≤ 20000 }
    ensures does { (seen : TheSeen) (touches : ℕ)
        → OverOutput O.Sink (Does X.block32 N.name64 (commands.Gen n seed) result) seen output.old touches
        seen output.new touches }
    ensures own { (seen : TheSeen) (left : Left) → IfErr result (ByOwnStore X.block32 OfTree left seen seen) }
{
    let text = counted::<X, N, Brand>(alloc, n, seed, Blank::new(1))?;
    print(&text, output)
}

// What is printed, with a count of its own for the touches of the stores.
fn counted<X: BlockHash, N: NameHash, L: Ledger>(
    alloc: Global,
    n: u64,
    seed: u64,
    blank: Blank,
) -> Result<Block, Refusal>
    requires few { n ≤ 20000 }
    requires name { blank.name ≡ L.name }
    requires parts { blank.parts ≡ L.parts }
    requires some { 0 < blank.parts }
    ensures { IsGenerated X.block32 N.name64 n seed result }
{
    let mut touches = Steps::<L>::new(blank);
    generated::<X, N, L>(alloc, n, seed, &mut touches)
}
