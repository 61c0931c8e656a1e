//! The generated tree: many files by a few rules, to try and to measure a tree with.
#![tactic(auto)]

mod fresh;
mod laws;
mod rules;
mod step;
mod sums;

pub use fresh::fresh_root;
pub use laws::{a_grown_tree_is_its_files, files_are_named_and_changed_by_the_rules};
pub use rules::{file_name, file_path, first_bytes, late_offset, late_piece};
pub use step::Step;
pub use sums::{left_count, left_size};
