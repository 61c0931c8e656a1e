//! Each command, in the file of its name (`gen` in `generate`); the first line of a file says what else it has.

pub mod add;
pub mod add_from;
pub mod add_to_files;
pub mod adding;
pub mod batch;
pub mod cat;
pub mod dag;
pub mod files;
pub mod files_cp;
pub mod files_read;
pub mod files_write;
pub mod gc;
pub mod generate;
pub mod get;
pub mod pin;
pub mod prove;
pub mod pull;
