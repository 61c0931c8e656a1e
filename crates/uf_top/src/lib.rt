//! The commands: from words, input and store to output, error line and status.
#![tactic(auto)]

mod command;
mod commands;
mod given;

pub use command::run;
pub use commands::batch::batch;
pub use uf_command::Status;
