//! Paths as they are read.
use uf_cid::Cid;
use uf_tree::Names;

/// A path in the tree: the names from the root down, and whether the text ends with `/`, as the path of a destination
/// does that leads into a directory.
#[derive(Drop)]
pub struct Path {
    pub names: Names,
    pub into: bool,
}

/// A path in a DAG: the CID of its root, and the names from there down.
#[derive(Drop)]
pub struct DagPath {
    pub cid: Cid,
    pub names: Names,
}

/// What a word names: something in the tree, or something in a DAG.
#[derive(Drop)]
pub enum Target {
    Tree(Path),
    Dag(DagPath),
}
