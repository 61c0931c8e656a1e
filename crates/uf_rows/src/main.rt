//! Plays a transcript of commands over a store, a host and streams in memory, and prints it again. Under each command
//! stands what is to come of it: where that comes of all of them, what is printed is the transcript itself, and the
//! status is 0.
#![tactic(auto)]

mod caching;
mod devices;
mod host_calls;
mod hosting;
mod outcome;
mod playing;
mod setting;
mod trying;
mod words;
mod world;

use crate::playing::ByCommands;
use std::io;
use std::process::ExitCode;
use uf_testing::play_input;

fn main(rt: HostRuntime) -> io::Result<ExitCode> {
    play_input::<ByCommands, _>(&rt)
}
