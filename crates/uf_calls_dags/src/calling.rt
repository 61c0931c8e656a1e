//! The calls of this program.

use crate::{cars, dirs, edits, files, foreign, lookups, plain};
use std::sync::ledger::Ledger;
use uf_cid::BlockHash;
use uf_playing::{Call, Caller, Player};
use uf_store::StoreFault;

/// The calls of this program, and how it plays the parts.
pub struct DagCalls;

impl Caller for DagCalls {
    fn call<X: BlockHash, L: Ledger>(
        call: &mut Call<X, L>,
        word: &str,
        rest: &str,
    ) -> Result<bool, StoreFault> {
        match word {
            "import" => cars::import(call, rest)?,
            "export" => cars::export(call, rest)?,
            "pull" => cars::pull(call, rest)?,
            "serve" => cars::serve(call, rest)?,
            "same" => cars::same(call, rest)?,
            "build" => files::build(call, rest)?,
            "overfeed" => files::overfeed(call)?,
            "intake" | "intake-apart" | "hash" => files::take_in(call, word, rest)?,
            "length" => files::length(call, rest)?,
            "edits" | "cut" | "write" => edits::edit_front(call, word, rest)?,
            "cut-in" => edits::cut_in(call, rest)?,
            "write-in" => edits::write_in(call, rest)?,
            "set-meta" => edits::set(call, rest)?,
            "look" => edits::look(call, rest)?,
            "ahead" => edits::ahead(call, rest)?,
            "survey" => foreign::survey(call, rest)?,
            "survey-nodes" => foreign::survey_nodes(call, rest)?,
            "shallow" => foreign::shallow(call, rest)?,
            "stream" => foreign::stream(call, rest)?,
            _ => return call_directory(call, word, rest),
        }
        Ok(true)
    }
}

impl Player for DagCalls {}

// The calls on directories, and on what is said of the tree with no store.
fn call_directory<X: BlockHash, L: Ledger>(
    call: &mut Call<X, L>,
    word: &str,
    rest: &str,
) -> Result<bool, StoreFault> {
    match word {
        "shard-two" => dirs::build_two(call, rest)?,
        "shard-files" => dirs::build_numbered(call, rest)?,
        "find-files" => dirs::find_numbered(call, rest)?,
        "weight-over" => dirs::weigh(call, rest)?,
        "entries" => dirs::entries(call, rest)?,
        "adopt" => dirs::adopt(call, rest)?,
        "find" | "trail" => lookups::ask_shards(call, word, rest)?,
        "find-in" => lookups::ask_any(call, "find", rest)?,
        "trail-in" => lookups::ask_any(call, "trail", rest)?,
        "ask-files" | "ask-lossy" => lookups::ask_files(call, word, rest)?,
        "remove" => lookups::remove(call, rest)?,
        "rule" => plain::rule(call.alloc, rest, call.told)?,
        "rows" => plain::rows(call.alloc, rest, call.told)?,
        _ => return Ok(false),
    }
    Ok(true)
}
