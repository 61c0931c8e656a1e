//! `cat`, and what is found in DAGs of others. Files are sent to the output while their blocks are read.
ghost use Rattle.std.specs.Prelude.{◌<◌, ◌≤◌, ◌^◌, IfErr, IfSome, List, ℕ, length};
ghost use Rattle.uf_lenient.specs.Good.{ByGoodBlocks};
ghost use Rattle.uf_command.specs.Kinds.{refusal_fault};
ghost use Rattle.uf_command.specs.declared.types.Command.TheVariants as commands;
ghost use Rattle.uf_store.specs.Calls.{OnlyReads};
ghost use Rattle.uf_store.specs.Contents.{held_at};
ghost use Rattle.uf_store.specs.Faults.{NoneIsBad};
ghost use Rattle.uf_top.specs.Foreign.{FindsFile, FindsTree, FindsWay, IsOfReading};
ghost use Rattle.uf_top.specs.Lent.{OverOutput};
ghost use Rattle.uf_top.specs.Working.{Does};

use std::alloc::Global;
use std::sync::ledger::Ledger;
use uf_cid::Cid;
use uf_command::{Refusal, dag_refusal, no_file};
use uf_edge::Sink;
use uf_lenient::{Limits, Shape, StreamFault, resolve, stream, survey, survey_nodes};
use uf_path::DagPath;
use uf_store::{Steps, Store};

// How far DAGs of others are read.
pub const USUAL: Limits = Limits {
    depth: 256,
    visits: 1048576,
};

// Writes the bytes of the file to which a path leads, once its nodes were read and its leaves asked for. Each leaf is
// loaded once, as it is written.
pub fn cat<S: Store, O: Sink, L: Ledger>(
    alloc: Global,
    path: &DagPath,
    store: &mut S,
    output: &mut O,
    touches: &mut Steps<L>,
) -> Result<(), Refusal>
    requires { length path.now.names < 2 ^ 32 }
    ensures { (N : List ℕ → ℕ) → OverOutput O.Sink (Does S.X.block32 N (commands.Cat path.now) result)
        (S.seen store.old) output.old touches.old (S.seen store.new) output.new touches.new }
{
    let cid = file_in(alloc, path, store, touches)?;
    match stream(alloc, store, &cid, &USUAL, output, touches) {
        Ok(_) => Ok(()),
        Err(StreamFault::Sink) => Err(Refusal::Write),
        Err(StreamFault::Dag(fault)) => Err(dag_refusal(alloc, path, fault)),
    }
}

// The CID of the file to which a path leads. Its nodes are read, and its leaves are asked for.
fn file_in<S: Store, L: Ledger>(
    alloc: Global,
    path: &DagPath,
    store: &mut S,
    touches: &mut Steps<L>,
) -> Result<Cid, Refusal>
    requires { length path.now.names < 2 ^ 32 }
    ensures finds { IfSome (S.seen store.old).told (λ t. FindsFile (held_at t) path.now result) }
    ensures refuses { IfErr result IsOfReading }
    ensures reads { OnlyReads S.X.block32 NoneIsBad (refusal_fault result) (S.seen store.old) (S.seen store.new) }
{
    let cid = led_to(alloc, path, store, touches)?;
    match survey_nodes(alloc, store, &cid, &USUAL, touches) {
        Err(fault) => Err(dag_refusal(alloc, path, fault)),
        Ok(Shape::File(_)) => Ok(cid),
        Ok(Shape::Folder(_, _)) => Err(no_file(alloc, path)),
    }
}

// The CID of the tree to which a path leads. Everything below it is read.
pub fn tree_in<S: Store, L: Ledger>(
    alloc: Global,
    path: &DagPath,
    store: &mut S,
    touches: &mut Steps<L>,
) -> Result<Cid, Refusal>
    requires { length path.now.names < 2 ^ 32 }
    ensures finds { ByGoodBlocks S.X.block32 (S.seen store.old).told (λ held. FindsTree held path.now result) }
    ensures refuses { IfErr result IsOfReading }
    ensures reads { OnlyReads S.X.block32 NoneIsBad (refusal_fault result) (S.seen store.old) (S.seen store.new) }
    ensures touched { touches.old ≤ touches.new }
{
    let cid = led_to(alloc, path, store, touches)?;
    match survey(alloc, store, &cid, &USUAL, touches) {
        Err(fault) => Err(dag_refusal(alloc, path, fault)),
        Ok(_) => Ok(cid),
    }
}

// The CID to which a path leads.
fn led_to<S: Store, L: Ledger>(
    alloc: Global,
    path: &DagPath,
    store: &mut S,
    touches: &mut Steps<L>,
) -> Result<Cid, Refusal>
    requires { length path.now.names < 2 ^ 32 }
    ensures leads { ByGoodBlocks S.X.block32 (S.seen store.old).told (λ held. FindsWay held path.now result) }
    ensures refuses { IfErr result IsOfReading }
    ensures reads { OnlyReads S.X.block32 NoneIsBad (refusal_fault result) (S.seen store.old) (S.seen store.new) }
    ensures touched { touches.old ≤ touches.new }
{
    match resolve(alloc, store, path, &USUAL, touches) {
        Err(fault) => Err(dag_refusal(alloc, path, fault)),
        Ok(cid) => Ok(cid),
    }
}
