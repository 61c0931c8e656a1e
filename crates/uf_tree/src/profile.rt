//! How files are cut and directories are sharded.
use uf_cid::Cid;

/// How the blocks of a tree are made. A piece of a file has at most `chunk` bytes (1 to 1048576), and a file's node at
/// most `width` links (2 to 1024). `threshold` is the greatest weight of a directory that stands in one block (at most
/// 1048576).
#[derive(Clone, Copy, Debug, PartialEq, Eq)]
pub struct Profile {
    pub chunk: u32,
    pub width: u32,
    pub threshold: u32,
}

/// What the note Head says: the profile of the tree, and the CID of its root.
#[derive(Clone, Copy, Debug, PartialEq, Eq)]
pub struct Head {
    pub profile: Profile,
    pub root: Cid,
}
