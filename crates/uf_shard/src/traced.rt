//! What decides a name.
use uf_cid::Cids;
use uf_tree::Entry;

/// The entry of a name, or that it isn't there, and the CIDs of the blocks that decide it, from the root down.
#[derive(Drop)]
pub struct Traced {
    pub entry: Option<Entry>,
    pub trail: Cids,
}
