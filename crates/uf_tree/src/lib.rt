//! The plain tree of files and directories, and the canonical blocks that stand for it: profile, names, entries, and
//! what files, directories and shards are made of (UnixFS v1 over IPLD DAG-PB).
#![tactic(auto)]

mod bits;
mod checks;
mod copies;
mod dir_codec;
mod file_codec;
mod head_fault;
mod heads;
mod limits;
mod meta;
mod metas;
mod name;
mod nodes;
mod profile;
mod shard_codec;
mod shard_read;
mod spelling;

pub use checks::{is_dir_node, is_directory, is_file_node, is_shard, is_shard_node};
pub use dir_codec::{dir_node, dir_node_of, node_of_pairs, read_dir_node};
pub use file_codec::{file_node, file_node_of, read_file_node};
pub use head_fault::HeadFault;
pub use heads::{head_text, heads_are_read_again, heads_are_their_texts, read_head};
pub use limits::{BadProfile, MOST_TSIZE};
pub use meta::Meta;
pub use name::{Name, NameFault, Names};
pub use nodes::{
    DirNode, Entry, FileNode, Item, Items, Pair, Pairs, Part, Parts, Placed, ShardNode,
};
pub use profile::{Head, Profile};
pub use shard_codec::{node_of_items, shard_node};
pub use shard_read::{read_shard_node, shard_node_of};

pub mod laying;
