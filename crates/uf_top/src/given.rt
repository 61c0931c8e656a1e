//! What is put into the tree that the Head names, and where.
use uf_cid::Block;
use uf_mfs::Mfs;
use uf_plain::Spot;
use uf_tree::Entry;

/// An opened tree and a spot in it.
#[derive(Drop)]
pub struct OpenSpot {
    pub tree: Mfs,
    pub spot: Spot,
}

/// What was read: the entry of its tree, and the rows that are printed once it is in place.
#[derive(Drop)]
pub struct Given {
    pub entry: Entry,
    pub text: Block,
}
