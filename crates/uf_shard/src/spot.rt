//! What a shard says of a name.
use uf_cid::Cid;
use uf_tree::Entry;

/// What a shard says of a name: its entry or that it isn't there, or the CID of the shard below that decides it.
#[derive(Clone, Copy, PartialEq, Eq)]
pub enum ShardAnswer {
    Here(Option<Entry>),
    Below(Cid),
}
