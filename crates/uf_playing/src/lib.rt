//! The program that plays rows of calls: the scene that calls are made over, calls of stores, and lines that say what
//! came of a call. Only the programs of rows of calls stand on it.
#![tactic(auto)]

mod playing;
mod saying;
mod scene;
mod stores;
mod values;

pub use playing::{ByCalls, Caller, Player};
pub use saying::{say_about, say_amount, say_cid, say_cids, say_debug, say_number};
pub use scene::{Call, Said, Scene};
pub use stores::{call_store, cid_in, say_fault, say_made, say_put, sweep};
pub use values::{cid_of, codec_of, failing, size_of, small, source_of};
