//! Commands and what is said of them, with no store: words read as a command, refusals, statuses, and the texts that
//! are printed.
#![tactic(auto)]

mod asking;
mod batches;
mod cars;
mod dags;
mod from;
mod lines;
mod natures;
mod peers;
mod pins;
mod requests;
mod rows;
mod status;
mod telling;
mod types;

pub use batches::read_line;
pub use cars::{own_refusal, root_lines, section_refusal};
pub use dags::{adopted_name, dag_refusal, no_file};
pub use lines::{line, plain, refusal_status, two_blocks};
pub use peers::{pull_end, serve_end, tell_talk};
pub use pins::{cid_lines, removed_row};
pub use requests::{Request, read_request};
pub use rows::{added_row, name_lines, put_added, put_line, put_number, row_lines, stat_text};
pub use status::Status;
pub use telling::{print, tell, tell_end};
pub use types::{
    Adding, Ask, Command, DagRule, Edit, HostRule, PeerRefusal, PeerRule, PinAsk, Refusal,
};
