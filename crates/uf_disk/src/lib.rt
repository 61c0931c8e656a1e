//! The machine's own files and streams: a store in the folder `.unixfs`, the host's files and folders, and the
//! standard streams. They count what fails, and tell nothing of what they hold.
#![tactic(auto)]

mod ahead;
mod files;
mod folder;
mod host;
mod lending;
mod place;
mod store;
mod streams;
mod sweeping;

pub use host::DiskHost;
pub use store::DiskStore;
pub use streams::{StdSink, StdSource};
