//! The open groups of a file's rows.
use uf_tree::{Part, Parts};

/// The last part that came, and the open groups of the rows over the parts before it, the lowest row first, after the
/// full groups of each row, whose nodes are saved. The last part comes into its group only when another one comes
/// after it: so the last node of a file, which carries its metadata, is never saved before the end.
#[derive(Drop)]
pub struct Open {
    pub last: Option<Part>,
    pub rows: Vec<Parts>,
}
