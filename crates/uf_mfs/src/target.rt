//! Where a move goes.
use crate::Thing;
use uf_tree::Names;

/// Where a move goes: the names that lead there, and what is there.
#[derive(Drop)]
pub struct MoveTarget {
    pub names: Names,
    pub there: Option<Thing>,
}
