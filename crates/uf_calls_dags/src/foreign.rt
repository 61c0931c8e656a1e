//! Calls that read what others wrote, within limits.

use std::alloc::Global;
use std::sync::ledger::Ledger;
use uf_cid::{Block, BlockHash, Cid, Memory};
use uf_lenient::{DagFault, Limits, Shape, StreamFault};
use uf_playing::{Call, cid_of, say_about, say_fault, say_number, small};
use uf_testing::{say, sink, tell_bytes, two_numbers_and_rest};
use uf_tree::Meta;

// Says why a DAG can't be read.
fn say_dag_fault(alloc: Global, fault: &DagFault, told: &mut Block) -> Result<(), Memory> {
    match fault {
        DagFault::NotUnixfs(cid, why) => {
            let line = format!(in alloc; "not unixfs: {why}")?;
            say_about(told, line.as_str(), cid)
        }
        DagFault::DuplicateName(cid, _) => say_about(told, "duplicate name", cid),
        DagFault::BadName(cid) => say_about(told, "bad name", cid),
        DagFault::Unsupported(cid) => say_about(told, "unsupported", cid),
        DagFault::TooDeep(cid) => say_about(told, "too deep", cid),
        DagFault::TooMany => say(told, "too many"),
        DagFault::NotFound(_) => say(told, "not found"),
        DagFault::NotADirectory(_) => say(told, "not a directory"),
        DagFault::Store(fault) => say_fault(alloc, fault, told),
    }
}

/// Says the metadata of a file or a directory.
pub fn say_meta(alloc: Global, meta: &Meta, told: &mut Block) -> Result<(), Memory> {
    let line = format!(in alloc; "{:?} {:?}", meta.mode, meta.mtime)?;
    say(told, line.as_str())
}

// Says what a DAG is: a file, or a directory and how many ways it has; and its metadata.
fn say_dag(alloc: Global, dag: &Result<Shape, DagFault>, told: &mut Block) -> Result<(), Memory> {
    match dag {
        Ok(Shape::File(meta)) => {
            say(told, "a file")?;
            say_meta(alloc, meta, told)
        }
        Ok(Shape::Folder(meta, ways)) => {
            say_number(alloc, told, "a directory of", ways.len() as u64)?;
            say_meta(alloc, meta, told)
        }
        Err(fault) => say_dag_fault(alloc, fault, told),
    }
}

// Limits, and the CID that is read within them: `DEPTH VISITS CID`.
fn limits_and_cid(rest: &str) -> (Limits, Cid) {
    let (depth, visits, text) = two_numbers_and_rest(rest);
    let limits = Limits {
        depth: small(depth),
        visits: small(visits),
    };
    (limits, cid_of(text))
}

/// Reads all that is below a CID: `survey DEPTH VISITS CID`.
pub fn survey<X: BlockHash, L: Ledger>(call: &mut Call<X, L>, rest: &str) -> Result<(), Memory> {
    let (limits, cid) = limits_and_cid(rest);
    let dag = uf_lenient::survey(call.alloc, call.store, &cid, &limits, call.touches);
    say_dag(call.alloc, &dag, call.told)
}

/// Reads the nodes below a CID, and asks for its leaves: `survey-nodes DEPTH VISITS CID`.
pub fn survey_nodes<X: BlockHash, L: Ledger>(
    call: &mut Call<X, L>,
    rest: &str,
) -> Result<(), Memory> {
    let (limits, cid) = limits_and_cid(rest);
    let dag = uf_lenient::survey_nodes(call.alloc, call.store, &cid, &limits, call.touches);
    say_dag(call.alloc, &dag, call.told)
}

/// Reads one directory: `shallow DEPTH VISITS CID`.
pub fn shallow<X: BlockHash, L: Ledger>(call: &mut Call<X, L>, rest: &str) -> Result<(), Memory> {
    let (limits, cid) = limits_and_cid(rest);
    let dag = uf_lenient::shallow(call.alloc, call.store, &cid, &limits, call.touches);
    say_dag(call.alloc, &dag, call.told)
}

/// Reads the bytes of a file, into room for a thousand: `stream DEPTH VISITS CID`.
pub fn stream<X: BlockHash, L: Ledger>(call: &mut Call<X, L>, rest: &str) -> Result<(), Memory> {
    let alloc = call.alloc;
    let (limits, cid) = limits_and_cid(rest);
    let mut output = sink(alloc, 1000, None)?;
    match uf_lenient::stream(alloc, call.store, &cid, &limits, &mut output, call.touches) {
        Ok(_) => tell_bytes(call.told, alloc, b"> ", output.bytes()),
        Err(StreamFault::Sink) => say(call.told, "output"),
        Err(StreamFault::Dag(fault)) => say_dag_fault(alloc, &fault, call.told),
    }
}
