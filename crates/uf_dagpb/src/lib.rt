//! DAG-PB nodes: their canonical bytes, read strictly, and any spelling of them, read leniently (IPLD DAG-PB).
#![tactic(auto)]

mod fault;
mod laws;
mod links;
mod node;
mod parts;
mod reading;
mod strict;
mod writing;

pub use fault::PbFault;
pub use laws::{spellings_are_of_one_node, what_was_written_is_read};
pub use node::{Link, Links, Node};
pub use reading::decode_lenient;
pub use strict::{decode_strict, links_are_valid};
pub use writing::{encode, encoded_len};
