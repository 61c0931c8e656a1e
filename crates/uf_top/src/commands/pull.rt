//! `pull` and `serve`: talks with a peer over the input and the output.
ghost use Rattle.std.specs.Prelude.{List, ℕ};
ghost use Rattle.uf_top.specs.Lent.{OverTalk};
ghost use Rattle.uf_top.specs.Talking.{RunsPull, RunsServe};

use std::alloc::Global;
use std::sync::ledger::Ledger;
use uf_cid::Cid;
use uf_command::{Status, pull_end, serve_end, tell_talk};
use uf_edge::{Sink, Source};
use uf_pull::{pull, serve};
use uf_store::{Steps, Store};

// The most CIDs of a DAG that is pulled.
const MOST_PULLED: u32 = 16777216;

// The most bytes of a peer's lines that are read.
const MOST_OF_WANTS: u64 = 1073741824;

// Fetches what is below a CID from the peer, and reports how that ended.
pub fn pull_from<S: Store, I: Source, O: Sink, E: Sink, L: Ledger>(
    alloc: Global,
    cid: &Cid,
    store: &mut S,
    input: &mut I,
    output: &mut O,
    errors: &mut E,
    touches: &mut Steps<L>,
) -> Status
    ensures { (N : List ℕ → ℕ) → OverTalk I.Source O.Sink E.Sink (RunsPull S.X.block32 N cid.now result)
        (S.seen store.old) input.old output.old errors.old touches.old
        (S.seen store.new) input.new output.new errors.new touches.new }
{
    let done = pull(alloc, store, cid, MOST_PULLED, input, output, touches);
    tell_talk(alloc, pull_end(done), errors)
}

// Answers the lines of the peer, and reports how that ended.
pub fn serve_wants<S: Store, I: Source, O: Sink, E: Sink, L: Ledger>(
    alloc: Global,
    store: &mut S,
    input: &mut I,
    output: &mut O,
    errors: &mut E,
    touches: &mut Steps<L>,
) -> Status
    ensures { (N : List ℕ → ℕ) → OverTalk I.Source O.Sink E.Sink (RunsServe S.X.block32 N result)
        (S.seen store.old) input.old output.old errors.old touches.old
        (S.seen store.new) input.new output.new errors.new touches.new }
{
    let done = serve(alloc, store, MOST_OF_WANTS, input, output, touches);
    tell_talk(alloc, serve_end(done), errors)
}
