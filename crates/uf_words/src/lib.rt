//! The words of a command line, and names as they are printed.
#![tactic(auto)]

mod command;
mod options;
mod printing;
mod reading;
mod splitting;
mod table;

pub use command::{Cmd, WordFault};
pub use printing::{a_shown_text_is_one_word, shown};
pub use reading::read_words;
pub use splitting::split_line;
