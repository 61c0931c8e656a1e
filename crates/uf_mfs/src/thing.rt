//! What a path leads to.
use uf_fileread::FileSize;
use uf_tree::{Entry, Meta};

/// What the root block of a folder says of it: how many links that block has, and its metadata.
#[derive(Clone, Copy, PartialEq, Eq)]
pub struct FolderRoot {
    pub links: u64,
    pub meta: Meta,
}

/// What a path leads to, by its entry, and what its root block says of it: of a folder only where the block was
/// loaded.
#[derive(Clone, Copy, PartialEq, Eq)]
pub enum Thing {
    File(Entry, FileSize),
    Folder(Entry, Option<FolderRoot>),
}
