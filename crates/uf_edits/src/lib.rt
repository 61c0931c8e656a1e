//! Edits of a tree in memory as words ask for them, and the tree that `gen` makes by such edits.
#![tactic(auto)]

mod editing;
mod generating;

pub use editing::edited;
pub use generating::generated;
