//! Messages and their parts.
ghost use Rattle.std.specs.Prelude.{◌≡◌};
ghost use Rattle.uf_message.specs.declared.message.MsgFault.TheVariants.{Memory as no_memory};

use uf_cid::{Block, Memory, Sizes};

/// What a node is (`DataType`), in the order of their numbers from 0 on.
#[derive(Clone, Copy, Debug, PartialEq, Eq)]
pub enum MsgKind {
    Raw,
    Directory,
    File,
    Metadata,
    Symlink,
    /// A directory in shards (`HAMTShard`).
    Shard,
}

/// When a file was changed (`UnixTime`): seconds since 1970, and the nanoseconds of the second begun.
#[derive(Clone, Copy, Debug, PartialEq, Eq)]
pub struct Mtime {
    pub seconds: i64,
    pub nanos: Option<u32>,
}

/// A message (`Data`): what a node of UnixFS says of itself.
#[derive(Drop)]
pub struct Message {
    pub kind: MsgKind,
    pub content: Option<Block>,
    pub filesize: Option<u64>,
    pub blocksizes: Sizes,
    pub hash_type: Option<u64>,
    pub fanout: Option<u64>,
    pub mode: Option<u32>,
    pub mtime: Option<Mtime>,
}

/// Why bytes are no message, even leniently read.
#[derive(Clone, Copy, Debug, PartialEq, Eq)]
pub enum MsgFault {
    /// The bytes end inside a field.
    Truncated,
    /// A number is not spelled as a varint.
    Varint,
    /// A field has a wire type that it may not have, or the number 0.
    Wire,
    /// There is no kind.
    NoType,
    /// The kind has a number above 5.
    UnknownType,
    /// The time can't be read, or has no seconds.
    BadTime,
    /// There was no memory for the message.
    Memory,
}

impl From<Memory> for MsgFault {
    ghost from_gives = { λ _ fault. fault ≡ no_memory };

    fn from(_: Memory) -> Self {
        MsgFault::Memory
    }
}
