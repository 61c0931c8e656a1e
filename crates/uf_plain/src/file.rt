//! What is done to the bytes of a file.

/// How a piece is written into a file: at which offset, whether a missing file is created, and whether one that is
/// there is emptied first.
#[derive(Clone, Copy, Debug, PartialEq, Eq)]
pub struct WriteHow {
    pub offset: u64,
    pub create: bool,
    pub cut: bool,
}

/// What is done to the bytes of a file: a piece is written into it, or it gets this length.
#[derive(Clone, Copy, Debug, PartialEq, Eq)]
pub enum FileEdit {
    Write(WriteHow),
    Truncate(u64),
}
