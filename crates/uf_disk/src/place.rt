//! Where the file of a block is.
use crate::files::Trouble;
use std::str;
use uf_cid::{Cid, Codec};

/// A block's file stands among those of late, or in the folder of the last two characters of its CID's text.
#[derive(Clone, Copy, PartialEq, Eq)]
pub enum BlockPlace {
    Late,
    Filed,
}

/// The path of a block's file, for which no memory is taken.
#[derive(Clone, Copy)]
pub struct BlockPath {
    pub place: BlockPlace,
    bytes: [u8; 77],
}

impl BlockPath {
    /// The path of the file of a block at a place.
    pub fn new(cid: &Cid, place: BlockPlace) -> Self {
        let text = cid.text();
        let mut bytes = [b'/'; 77];
        bytes[..14].copy_from_slice(b".unixfs/blocks");
        match place {
            BlockPlace::Late => bytes[15..74].copy_from_slice(&text),
            BlockPlace::Filed => {
                bytes[15..17].copy_from_slice(&text[57..]);
                bytes[18..].copy_from_slice(&text);
            }
        }
        BlockPath { place, bytes }
    }

    /// The path.
    pub fn text(&self) -> Result<&str, Trouble> {
        match self.place {
            BlockPlace::Late => text_of(&self.bytes[..74]),
            BlockPlace::Filed => text_of(&self.bytes),
        }
    }

    /// The path of the folder that the file is in.
    pub fn folder(&self) -> Result<&str, Trouble> {
        match self.place {
            BlockPlace::Late => text_of(&self.bytes[..14]),
            BlockPlace::Filed => text_of(&self.bytes[..17]),
        }
    }
}

/// A path in the folder of the blocks whose digests end with a byte, which alone decides the last two characters of a
/// CID's text.
pub fn folder_of(last: u8) -> BlockPath {
    let cid = Cid {
        codec: Codec::Raw,
        digest: [last; 32],
    };
    BlockPath::new(&cid, BlockPlace::Filed)
}

/// The CID of the block of which this is the file's name.
pub fn cid_named(name: &str) -> Option<Cid> {
    let Ok(cid) = Cid::parse(name) else {
        return None;
    };
    if cid.text().as_slice() == name.as_bytes() {
        Some(cid)
    } else {
        None
    }
}

// The text of bytes that spell a path.
fn text_of(path: &[u8]) -> Result<&str, Trouble> {
    match str::from_utf8(path) {
        Ok(path) => Ok(path),
        Err(_) => Err(Trouble::Failed),
    }
}
