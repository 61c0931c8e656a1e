//! What is done to the metadata of a file or a directory.
use uf_message::Mtime;

/// What is done to the metadata of a file or a directory: its mode gets these permissions, which are the low twelve
/// bits (POSIX, "File Permission Bits"), it gets this mtime, or both are taken away.
#[derive(Clone, Copy, Debug, PartialEq, Eq)]
pub enum MetaEdit {
    Mode(u32),
    Modified(Mtime),
    Strip,
}
