//! Plays a transcript of calls on DAGs over stores and streams in memory: CARs, pulls and comparisons, files that are
//! built, changed and read, directories in shards, and what others wrote. It prints the transcript again. Under each
//! call stands what is to come of it: where that comes of all of them, what is printed is the transcript itself, and
//! the status is 0.
#![tactic(auto)]

mod bounds;
mod calling;
mod cars;
mod dirs;
mod edits;
mod files;
mod foreign;
mod lookups;
mod plain;
mod watched;

use crate::calling::DagCalls;
use std::io;
use std::process::ExitCode;
use uf_playing::ByCalls;
use uf_testing::play_input;

fn main(rt: HostRuntime) -> io::Result<ExitCode> {
    play_input::<ByCalls<DagCalls>, _>(&rt)
}
