//! A store over another one, whose nodes that were found last are kept in memory.
#![tactic(auto)]

mod cached;
mod keep;

pub use cached::Cached;
