//! The tree in memory.
use uf_tree::{Entry, Profile};

/// The mutable tree: how its blocks are made, and its root. Edits move the root; `commit` writes it to the Head.
#[derive(Clone, Copy, PartialEq, Eq)]
pub struct Mfs {
    pub profile: Profile,
    pub root: Entry,
}
