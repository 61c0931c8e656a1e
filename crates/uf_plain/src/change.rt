//! What an edit does in the directory that it is made in.
use uf_tree::Entry;

/// What an edit does in the directory that all names but the last lead to. It makes an empty directory where the last
/// name is free, puts an entry in the place of what is there, or takes the last name away, a directory only where that
/// is recursive.
#[derive(Clone, Copy, Debug, PartialEq, Eq)]
pub enum Change {
    Make,
    Put(Entry),
    Remove(bool),
}
