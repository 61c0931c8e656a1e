//! Where something is put in the tree.

use uf_tree::{Name, Names};

/// Where something is put: under a name in the directory that these names lead to.
#[derive(Drop)]
pub struct Spot {
    pub folder: Names,
    pub name: Name,
}

/// How a target lies to the source of a move: it is the source, it is below it, or it is elsewhere.
#[derive(Clone, Copy, Debug, PartialEq, Eq)]
pub enum Lie {
    Itself,
    Below,
    Apart,
}
