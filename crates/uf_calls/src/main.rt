//! Plays a transcript of calls of the library crates over stores, hosts and streams in memory, and prints it again.
//! Under each call stands what is to come of it: where that comes of all of them, what is printed is the transcript
//! itself, and the status is 0.
#![tactic(auto)]

mod calling;
mod cids;
mod edges;
mod hosts;
mod nodes;
mod numbers;
mod paths;
mod pins;
mod walks;

use crate::calling::BaseCalls;
use std::io;
use std::process::ExitCode;
use uf_playing::ByCalls;
use uf_testing::play_input;

fn main(rt: HostRuntime) -> io::Result<ExitCode> {
    play_input::<ByCalls<BaseCalls>, _>(&rt)
}
