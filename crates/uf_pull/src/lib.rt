//! Blocks asked for and answered over two streams: a DAG pulled from a peer that may lie, repeat or stop, and the
//! peer.
#![tactic(auto)]

mod fault;
mod frame;
mod laws;
mod peer;
mod pulling;
mod receiving;
mod serving;
mod vectors;
mod want;

pub use fault::{PullFault, ServeFault};
pub use laws::{
    an_honest_peer_is_enough, frames_are_read_again, lines_are_read_again,
    long_lines_are_told_from_long_inputs, missing_blocks_are_asked_for_once,
    pulled_blocks_are_good, whole_pulls_ask_for_what_was_lacking,
};
pub use pulling::pull;
pub use serving::serve;
pub use vectors::{hello_world_is_pulled, pulls_are_refused, wants_are_answered};
