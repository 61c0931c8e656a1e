//! Paths in the tree, paths in a DAG by its CID, and what a word of a command names by one of them.
#![tactic(auto)]

mod faults;
mod path;
mod reading;

pub use faults::PathFault;
pub use path::{DagPath, Path, Target};
