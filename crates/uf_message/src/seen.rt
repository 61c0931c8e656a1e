//! What a reader of a message has seen.
use uf_cid::Sizes;

/// The last of each field that was met so far, and all sizes of blocks.
#[derive(Drop)]
pub struct Seen<'a> {
    pub kind: Option<u64>,
    pub content: Option<&'a [u8]>,
    pub filesize: Option<u64>,
    pub sizes: Sizes,
    pub hash_type: Option<u64>,
    pub fanout: Option<u64>,
    pub mode: Option<u64>,
    pub mtime: Option<&'a [u8]>,
}

/// The last of each field of a time that was met so far.
#[derive(Clone, Copy)]
pub struct SeenTime {
    pub seconds: Option<u64>,
    pub nanos: Option<u32>,
}
