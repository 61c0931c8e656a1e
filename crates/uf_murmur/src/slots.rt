//! The slots of a hash.
ghost use Rattle.std.specs.Prelude.{◌≡◌, ◌<◌};
ghost use Rattle.uf_murmur.specs.Slots.{slot as slot_of};

/// The slot of a hash at a level of a shard tree, 0 to 7: byte `level` of the hash, the highest byte first (UnixFS v1,
/// "HAMTShard", with a fanout of 256).
pub fn slot(hash: u64, level: u8) -> u8
    requires { level < 8 }
    ensures { result ≡ slot_of hash level }
{
    ((hash >> (8 * (7 - level))) % 256) as u8
}
