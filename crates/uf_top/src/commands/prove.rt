//! `prove` and `check`: what is at a path, shown by the blocks that decide it.
ghost use Rattle.std.specs.Prelude.{◌≡◌, ◌⊎◌, ◌<◌, ◌^◌, Bool, List, ℕ, length};
ghost use Rattle.uf_plain.specs.Rules.{rule_of};
ghost use Rattle.uf_command.specs.Statuses.{no_memory};
ghost use Rattle.uf_command.specs.declared.types.Command.TheVariants as commands;
ghost use Rattle.uf_command.specs.declared.types.Refusal.TheVariants as refusals;
ghost use Rattle.uf_top.specs.Checking.{ChecksAndEnds};
ghost use Rattle.uf_top.specs.Lent.{OverOutput};
ghost use Rattle.uf_top.specs.Light.{EndsLight, IsLightTold};
ghost use Rattle.uf_top.specs.Working.{Does};

use crate::commands::files::opened;
use std::alloc::Global;
use std::sync::ledger::Ledger;
use uf_cid::{BlockHash, Cid};
use uf_command::{DagRule, Refusal};
use uf_edge::{Sink, Source};
use uf_light::{Asked, LightFault, check, prove};
use uf_murmur::NameHash;
use uf_path::Path;
use uf_plain::{Refused, rule_at};
use uf_store::{Steps, Store};
use uf_tree::Name;

// The most bytes of a light proof that is read.
const MOST_OF_PROOF: u64 = 1073741824;

// Writes a CAR of the blocks that decide what is at a path of the tree that the Head names, and of a file its own;
// with `absent` nothing is to be there.
pub fn prove_at<S: Store, N: NameHash, O: Sink, L: Ledger>(
    alloc: Global,
    absent: bool,
    path: &Path,
    store: &mut S,
    output: &mut O,
    touches: &mut Steps<L>,
) -> Result<(), Refusal>
    requires { length path.now.names < 2 ^ 32 }
    ensures { OverOutput O.Sink (Does S.X.block32 N.name64 (commands.Prove absent path.now) result)
        (S.seen store.old) output.old touches.old (S.seen store.new) output.new touches.new }
{
    let tree = opened::<S, N, L>(alloc, store, touches)?;
    let names = &path.names;
    let done = prove::<S, N, O, L>(alloc, store, &tree.root, names, absent, output, touches);
    end(alloc, names.as_slice(), done)
}

// Reads the input as the proof of what is at a path below a root, and writes that.
pub fn check_input<X: BlockHash, N: NameHash, I: Source, O: Sink, L: Ledger>(
    alloc: Global,
    absent: bool,
    cid: Cid,
    path: Path,
    input: &mut I,
    output: &mut O,
    touches: &mut Steps<L>,
) -> Result<(), Refusal>
    requires { length path.names < 2 ^ 32 }
    ensures { ChecksAndEnds X.block32 N.name64 absent cid path.names result (I.left input.old) (I.faults input.old)
        (I.faults input.new) (O.holds output.old) (O.holds output.new) (O.faults output.old) (O.faults output.new) }
{
    let asked = Asked {
        root: cid,
        names: path.names,
        absent,
    };
    let done = check::<X, N, I, O, L>(alloc, &asked, input, MOST_OF_PROOF, output, touches);
    end(alloc, asked.names.as_slice(), done)
}

// How a call on light proofs ended: done, or refused.
fn end(alloc: Global, names: &[Name], done: Result<u64, LightFault>) -> Result<(), Refusal>
    ensures { EndsLight names.now done result }
{
    match done {
        Ok(_) => Ok(()),
        Err(fault) => Err(refusal(alloc, names, fault)),
    }
}

// Why a light proof isn't made, or isn't accepted, as a refusal.
fn refusal(alloc: Global, names: &[Name], fault: LightFault) -> Refusal
    ensures { IsLightTold names.now fault result }
{
    match fault {
        LightFault::NotFound(place) => {
            by_rule(alloc, names, Refused::NotFound(place as usize + 1))
        }
        LightFault::NotADirectory(place) => {
            by_rule(alloc, names, Refused::NotADirectory(place as usize))
        }
        LightFault::IsADirectory => by_rule(alloc, names, Refused::IsADirectory(names.len())),
        LightFault::Exists => by_rule(alloc, names, Refused::Exists(names.len())),
        LightFault::OtherRoot(cid) => Refusal::Dag(DagRule::OtherRoot(cid)),
        LightFault::Car(fault) => Refusal::from(fault),
        LightFault::Sink => Refusal::Write,
        LightFault::Store(fault) => Refusal::Store(fault),
    }
}

// The refusal by a rule that is reported with the path up to the name that decides, or out of memory.
fn by_rule(alloc: Global, names: &[Name], why: Refused) -> Refusal
    ensures { (result ≡ no_memory) ⊎ (result ≡ refusals.Rule (rule_of names.now why)) }
{
    match rule_at(alloc, names, why) {
        Ok(rule) => Refusal::Rule(rule),
        Err(why) => Refusal::from(why),
    }
}
