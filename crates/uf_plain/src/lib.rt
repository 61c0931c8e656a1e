//! The plain tree, of files and directories and no store: what its edits make of it, the rules that refuse them, and
//! what is said of it at a path.
#![tactic(auto)]

mod change;
mod file;
pub mod laws;
mod lies;
mod meta_edit;
mod metas;
mod ready;
mod reply;
pub mod rows;
mod rule;
mod spot;
mod spots;
mod telling;

pub use change::Change;
pub use file::{FileEdit, WriteHow};
pub use lies::lie_of;
pub use meta_edit::MetaEdit;
pub use metas::meta_after;
pub use ready::Ready;
pub use reply::{Row, Rows, Stat};
pub use rule::{Refused, Rule};
pub use spot::{Lie, Spot};
pub use spots::{joined_names, spot_of};
pub use telling::{inside_rule, path_text, rule_at};
