//! What the root block of a file says of it.
use uf_tree::Meta;

/// How many bytes a file has, how many links its root block, and its metadata: no links and no metadata where that is
/// a raw block.
#[derive(Clone, Copy, PartialEq, Eq, Drop)]
pub struct FileSize {
    pub length: u64,
    pub links: u64,
    pub meta: Meta,
}
