//! What an entry is.
use uf_fileread::FileSize;
use uf_tree::Meta;

/// What an entry is: a directory with the number of links of its root block and its metadata, or a file with its
/// length, that number and its metadata.
#[derive(Clone, Copy, PartialEq, Eq)]
pub enum EntryKind {
    Folder(u64, Meta),
    File(FileSize),
}
