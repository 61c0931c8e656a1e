//! `get`: what is found in DAGs of others, written to the host.
ghost use Rattle.std.specs.Prelude.{◌<◌, ◌^◌, IfErr, IfSome, List, ℕ, length};
ghost use Rattle.uf_edge.specs.Counts.{Counts};
ghost use Rattle.uf_host.specs.Paths.{trimmed};
ghost use Rattle.uf_host.specs.Places.{ChangesAt};
ghost use Rattle.uf_command.specs.Kinds.{refusal_fault};
ghost use Rattle.uf_command.specs.declared.types.Command.TheVariants as commands;
ghost use Rattle.uf_store.specs.Calls.{OnlyReads};
ghost use Rattle.uf_store.specs.Contents.{held_at};
ghost use Rattle.uf_store.specs.Faults.{NoneIsBad};
ghost use Rattle.uf_top.specs.Lent.{OverHost};
ghost use Rattle.uf_top.specs.Causes.{is_read, is_write};
ghost use Rattle.uf_top.specs.Foreign.{LeadsTo};
ghost use Rattle.uf_top.specs.Getting.{Gets, IsOfGetting, IsUnwritten};
ghost use Rattle.uf_top.specs.Working.{Does};

use crate::commands::add_from::refused;
use crate::commands::cat::USUAL;
use std::alloc::Global;
use std::sync::ledger::Ledger;
use uf_cid::{Cid, Text};
use uf_command::{Refusal, dag_refusal};
use uf_edge::Host;
use uf_host::HostFault;
use uf_lenient::resolve;
use uf_path::DagPath;
use uf_store::{Steps, Store};

// Writes what is at a path in a DAG to a path of the host, once its nodes were read and its leaves asked for.
pub fn get<S: Store, W: Host, L: Ledger>(
    alloc: Global,
    path: &DagPath,
    host_path: &Text,
    store: &mut S,
    host: &mut W,
    touches: &mut Steps<L>,
) -> Result<(), Refusal>
    requires { length path.now.names < 2 ^ 32 }
    ensures { (N : List ℕ → ℕ) → OverHost W.Host (Does S.X.block32 N (commands.Get path.now host_path.now) result)
        (S.seen store.old) touches.old host.old (S.seen store.new) touches.new host.new }
{
    match resolve(alloc, store, path, &USUAL, touches) {
        Err(fault) => Err(dag_refusal(alloc, path, fault)),
        Ok(cid) => get_under(alloc, path, &cid, host_path, store, host, touches),
    }
}

// Writes what a CID denotes, to which a path leads.
fn get_under<S: Store, W: Host, L: Ledger>(
    alloc: Global,
    path: &DagPath,
    cid: &Cid,
    host_path: &Text,
    store: &mut S,
    host: &mut W,
    touches: &mut Steps<L>,
) -> Result<(), Refusal>
    ensures gets { IfSome (S.seen store.old).told (λ t. LeadsTo (held_at t) path.now cid.now
        → Gets (held_at t) path.now host_path.now (W.tree host.old) (W.tree host.new) result) }
    ensures below { ChangesAt (trimmed host_path.now) (W.tree host.old) (W.tree host.new) }
    ensures refuses { IfErr result IsOfGetting }
    ensures host_reads { Counts (is_read result) (W.read_faults host.old) (W.read_faults host.new) }
    ensures host_writes { Counts (is_write result) (W.write_faults host.old) (W.write_faults host.new) }
    ensures reads { OnlyReads S.X.block32 NoneIsBad (refusal_fault result) (S.seen store.old) (S.seen store.new) }
{
    let given = host_path.copy()?;
    match uf_host::get(alloc, store, cid, host, host_path.as_str(), &USUAL, touches) {
        Ok(()) => Ok(()),
        Err(fault) => Err(unwritten(alloc, path, given, fault)),
    }
}

// Why what is at a path in a DAG isn't written to a path of the host.
fn unwritten(alloc: Global, path: &DagPath, host_path: Text, fault: HostFault) -> Refusal
    ensures { IsUnwritten path.now host_path fault result }
{
    match fault {
        HostFault::Dag(fault) => dag_refusal(alloc, path, fault),
        fault => refused(host_path, fault),
    }
}
