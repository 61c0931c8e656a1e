//! Where bytes come from and where they go, with counts of faults, and forms of them in memory.
#![tactic(auto)]

mod host;
mod meeting;
mod mem_host;
mod memory;
mod places;
mod streams;

pub use host::{Fetched, Host, Kind, Listing, Place, Put};
pub use meeting::{Met, meet};
pub use mem_host::MemHost;
pub use memory::{Calls, MemSink, MemSource};
pub use streams::{Filled, Intake, Read, Sent, Sink, Source, Wrote, fill, read_all, write_all};
