//! What the node of a file has.
use uf_tree::{Meta, Parts};

/// What the node of a file links, and the metadata that it carries.
#[derive(Drop)]
pub struct NodeParts {
    pub parts: Parts,
    pub meta: Meta,
}
