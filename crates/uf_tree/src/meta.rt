//! Metadata of files and directories.
use uf_message::Mtime;

/// A mode and an mtime, each where it is known (UnixFS v1, "Data Format").
#[derive(Clone, Copy, Debug, PartialEq, Eq)]
pub struct Meta {
    pub mode: Option<u32>,
    pub mtime: Option<Mtime>,
}
