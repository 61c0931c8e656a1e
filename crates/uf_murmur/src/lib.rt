//! The hash of a name that places it in a sharded directory, and the slots that a hash chooses.
#![tactic(auto)]

mod hash;
pub mod laws;
mod murmur;
mod slots;

pub use hash::{FirstEight, Murmur3, NameHash};
pub use slots::slot;
