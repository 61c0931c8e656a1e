//! The program that plays rows, and what its rows are made of: words, bytes that lines spell, streams in memory, hosts
//! and stores that are set up, and the sheet on which rows are reported. Only the programs of rows stand on it.
#![tactic(auto)]

mod feeding;
mod hosts;
mod parts;
mod program;
mod sheet;
mod streams;
mod telling;
mod words;

pub use feeding::{bytes_of, feed};
pub use hosts::{is_member, path_of, plant};
pub use parts::{Parts, Stage, play_lines};
pub use program::play_input;
pub use sheet::Sheet;
pub use streams::{ROOMY, Streams, block_of, calls, plant_node, sink, source};
pub use telling::{say, say_digits, tell_bytes, tell_count};
pub use words::{number_and_rest, number_of, two_numbers_and_rest, word_and_rest, words_of};
