//! Directories as trees of shards (UnixFS v1, "HAMTDirectory", with a fanout of 256): built, listed, weighed, a name
//! looked up, put and taken out in place.
#![tactic(auto)]

mod buckets;
mod building;
mod fault;
mod gathering;
mod hashed;
mod listing;
mod loading;
mod lookup;
mod nodes;
mod putting;
mod reading;
mod removed;
mod removing;
mod rest;
mod slots;
mod spot;
mod traced;
mod twins;
mod walking;
mod weighing;

pub use building::{build, save_root};
pub use fault::DirFault;
pub use listing::{entries, entries_below};
pub use lookup::{find, trace, trace_below, trail};
pub use nodes::tsize_over_slots;
pub use putting::{put, put_below};
pub use removed::Removed;
pub use removing::{remove, remove_below};
pub use traced::Traced;
pub use weighing::weight_over;
