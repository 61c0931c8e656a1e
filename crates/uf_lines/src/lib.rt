//! The lines of an input, each given as soon as it came, within limits.
#![tactic(auto)]

mod laws;
mod lines;
mod window;

pub use laws::{a_run_goes_on, lines_of_nothing, what_was_written_is_read};
pub use lines::{Line, Lines};
