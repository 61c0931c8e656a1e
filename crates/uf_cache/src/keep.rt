//! Blocks put among the entries of a cache.
ghost use Rattle.std.specs.Prelude.{◌≡◌, ◌≤◌, ◌+◌, ◌⊎◌, length};
ghost use Rattle.uf_cache.specs.Entries.{HasRoom, MayKeep, MayPut, emptied};

use lru::LruCache;
use std::alloc::Global;
use uf_cid::{Block, Cid, Codec};

/// The most bytes of a leaf that is kept.
const MOST_OF_LEAF: usize = 16384;

/// The most bytes of all blocks that are kept.
pub(crate) const MOST_OF_ALL: usize = 67108864;

/// Puts a block first among the entries, all of which go first where there isn't room for its bytes. A longer leaf of
/// raw bytes isn't kept: a file's are read one after the other, and a copy of each would cost more than it saves.
pub(crate) fn keep(
    alloc: Global,
    entries: &mut LruCache<[u8; 36], Block>,
    room: &mut usize,
    cid: &Cid,
    bytes: &[u8],
)
    requires size { length bytes.now ≤ 2097152 }
    requires room { HasRoom room.old entries.old }
    ensures kept { MayKeep cid.now bytes.now entries.old entries.new }
    ensures room { HasRoom room.new entries.new }
{
    if cid.codec == Codec::DagPb || bytes.len() <= MOST_OF_LEAF {
        make_room(entries, room, bytes.len());
        put(alloc, entries, cid, bytes);
    }
}

// Takes room for bytes, for which all entries go where there isn't enough.
fn make_room(entries: &mut LruCache<[u8; 36], Block>, room: &mut usize, length: usize)
    requires size { length ≤ 2097152 }
    requires room { HasRoom room.old entries.old }
    ensures entries { (entries.new ≡ entries.old) ⊎ (entries.new ≡ emptied entries.old) }
    ensures room { HasRoom (room.new + length) entries.new }
{
    if length > *room {
        let_go(entries, room);
    }
    *room -= length;
}

/// Lets all entries go.
pub(crate) fn let_go(entries: &mut LruCache<[u8; 36], Block>, room: &mut usize)
    ensures entries { entries.new ≡ emptied entries.old }
    ensures room { room.new ≡ 67108864 }
{
    entries.clear();
    *room = MOST_OF_ALL;
}

// Puts a block first among the entries, and the last one goes where there are too many. Without memory they stay.
fn put(alloc: Global, entries: &mut LruCache<[u8; 36], Block>, cid: &Cid, bytes: &[u8])
    ensures { MayPut cid.now bytes.now entries.old entries.new }
{
    let mut block = Block::new(alloc);
    if block.extend(bytes).is_ok() {
        let _ = entries.put(cid.to_binary(), block);
    }
}
