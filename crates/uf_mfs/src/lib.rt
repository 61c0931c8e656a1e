//! The mutable tree: a profile and a root, whose edits make new roots, and the Head that names one of them.
#![tactic(auto)]

mod changing;
mod contents;
mod editing;
mod fault;
mod from;
mod listing;
mod looking;
mod measuring;
mod mfs;
mod opening;
mod placing;
mod reading;
mod remaking;
mod spotting;
mod target;
mod telling;
mod thing;
mod writing;

pub use fault::{MfsFault, Stop};
pub use mfs::Mfs;
pub use thing::{FolderRoot, Thing};
pub use uf_plain::{Ready, Row, Rows, Rule, Spot, Stat, WriteHow};
