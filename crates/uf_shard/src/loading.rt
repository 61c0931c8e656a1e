//! Shards loaded on the way of a name.
ghost use Rattle.std.specs.Prelude.{◌≡◌, ◌<◌, ◌+◌};
ghost use Rattle.uf_murmur.specs.Slots.{slot as slot_of};
ghost use Rattle.uf_store.specs.Calls.{OnlyReads};
ghost use Rattle.uf_store.specs.Faults.{fault_in};
ghost use Rattle.uf_shard.specs.Placed.{IsBadOnWay};
ghost use Rattle.uf_shard.specs.Reached.{LoadsPlaced};

use crate::reading::read_shard;
use std::alloc::Global;
use std::sync::ledger::Ledger;
use uf_cid::{Cid, StrictFault};
use uf_murmur::{NameHash, slot};
use uf_store::{Role, Steps, Store, StoreFault, need};
use uf_tree::{Name, ShardNode};

// The shard under a CID, at a level on the way of a name. One touch.
pub fn load_shard<S: Store, N: NameHash, L: Ledger>(
    alloc: Global,
    store: &mut S,
    level: u8,
    cid: &Cid,
    name: &Name,
    touches: &mut Steps<L>,
) -> Result<ShardNode, StoreFault>
    requires { level < 8 }
    ensures loads { LoadsPlaced N.name64 (N.name64 name.now) level cid.now
        (S.seen store.old) (S.seen store.new) result }
    ensures reads { OnlyReads S.X.block32 (IsBadOnWay N.name64 (N.name64 name.now)) (fault_in result)
        (S.seen store.old) (S.seen store.new) }
    ensures touches { touches.new ≡ touches.old + 1 }
{
    need(store, cid, touches)?;
    let hash = hash_of::<N>(name);
    match read_shard::<N>(alloc, store.block(), hash, level) {
        Ok(node) => Ok(node),
        Err(StrictFault::NotCanonical) => Err(StoreFault::BadBlock(*cid, Role::Shard(level))),
        Err(StrictFault::Memory) => Err(StoreFault::Memory),
    }
}

// The hash of a name.
pub fn hash_of<N: NameHash>(name: &Name) -> u64
    ensures { result ≡ N.name64 name.now }
{
    N::name64(name.as_str().as_bytes())
}

// The slot of a name at a level.
pub fn slot_at<N: NameHash>(name: &Name, level: u8) -> u8
    requires { level < 8 }
    ensures { result ≡ slot_of (N.name64 name.now) level }
{
    slot(hash_of::<N>(name), level)
}
