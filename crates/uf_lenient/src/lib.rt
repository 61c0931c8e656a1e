//! DAGs of UnixFS that others wrote, read leniently within limits (UnixFS v1, "Data Format").
#![tactic(auto)]

mod ahead;
mod due;
mod fault;
mod found;
mod gathered;
mod gathering;
mod laws;
mod looking;
mod meeting;
mod met;
mod nodes;
mod parts;
mod pieces;
mod pile;
mod resolving;
mod rows;
mod shapes;
mod streaming;
mod surveying;
mod unixfs;
mod visiting;

pub use fault::{DagFault, StreamFault};
pub use laws::{
    a_plan_denotes_its_tree, a_plan_is_where_links_lead, a_reading_follows_links_alone,
    a_reading_of_good_blocks_stays, a_reading_stays_in_a_greater_map, canonical_nodes_are_read,
    pieces_are_of_one_file,
};
pub use looking::shallow;
pub use pieces::Pieces;
pub use resolving::resolve;
pub use rows::{
    bytes_in_a_node_are_read, deep_chains_are_refused, files_are_of_files,
    metadata_is_of_the_first_node, names_come_first, other_blocks_are_refused, paths_are_followed,
    repeats_count, shards_are_read_in_place,
};
pub use shapes::{Limits, Shape, Way, Ways};
pub use streaming::stream;
pub use surveying::{survey, survey_nodes};
