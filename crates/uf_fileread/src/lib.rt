//! Files read (UnixFS v1, "File"): how long one is, and ranges of its bytes.
#![tactic(auto)]

mod fault;
mod laws;
mod lengths;
mod node_parts;
mod parts;
mod ranges;
mod size;

pub use fault::RangeFault;
pub use laws::a_range_needs_few_blocks;
pub use lengths::{length, measure};
pub use node_parts::NodeParts;
pub use parts::read_parts;
pub use ranges::read_range;
pub use size::FileSize;
