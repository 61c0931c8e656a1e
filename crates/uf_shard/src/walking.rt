//! Shards loaded one by one, whatever names are below them.
ghost use Rattle.std.specs.Prelude.{◌≡◌, ◌≤◌, ◌+◌, ◌-◌, ◌↔◌, IsTrue};
ghost use Rattle.std.specs.List.{AllByRecursion};
ghost use Rattle.uf_store.specs.Calls.{OnlyReads};
ghost use Rattle.uf_store.specs.Faults.{fault_in};
ghost use Rattle.uf_tree.specs.Codecs.{Reads, shard_node_block};
ghost use Rattle.uf_shard.specs.Listing.{IsBadShard};
ghost use Rattle.uf_shard.specs.Walked.{HasLevel, IsAbove, LoadsItems, MayCarryAt};

use std::alloc::Global;
use std::sync::ledger::Ledger;
use uf_cid::{Cid, StrictFault};
use uf_store::{Role, Steps, Store, StoreFault, need};
use uf_tree::{Item, Items, Meta, Placed, ShardNode, read_shard_node};

// The slots of the shard under a CID, which has n levels below it.
pub fn load_items<S: Store, L: Ledger>(
    alloc: Global,
    store: &mut S,
    left: u8,
    cid: &Cid,
    touches: &mut Steps<L>,
) -> Result<Items, StoreFault>
    requires { left ≤ 7 }
    ensures loads { LoadsItems left cid.now (S.seen store.old) (S.seen store.new) result }
    ensures reads { OnlyReads S.X.block32 IsBadShard (fault_in result) (S.seen store.old) (S.seen store.new) }
    ensures touches { touches.new ≡ touches.old + 1 }
{
    need(store, cid, touches)?;
    match read_node(alloc, store.block(), left) {
        Ok(node) => Ok(node.items),
        Err(StrictFault::NotCanonical) => Err(StoreFault::BadBlock(*cid, Role::Shard(7 - left))),
        Err(StrictFault::Memory) => Err(StoreFault::Memory),
    }
}

// The shard of these bytes with n levels below it.
fn read_node(alloc: Global, bytes: &[u8], left: u8) -> Result<ShardNode, StrictFault>
    requires { left ≤ 7 }
    ensures { Reads (IsAbove left) shard_node_block bytes.now result }
{
    let node = read_shard_node(alloc, bytes)?;
    if is_above(&node, left) {
        Ok(node)
    } else {
        Err(StrictFault::NotCanonical)
    }
}

// Whether the shard carries no more than it may, and a level is left for each shard below it.
fn is_above(node: &ShardNode, left: u8) -> bool
    requires { left ≤ 7 }
    ensures { IsTrue result ↔ (MayCarryAt (7 - left) node.now.meta × AllByRecursion (HasLevel left) node.now.items) }
{
    may_carry(&node.meta, 7 - left) && have_levels(node.items.as_slice(), left)
}

// Whether the shard of a level may carry this metadata.
pub fn may_carry(meta: &Meta, level: u8) -> bool
    ensures { IsTrue result ↔ MayCarryAt level meta.now }
{
    level == 0 || meta.is_bare()
}

// Whether a level is left for each shard among the items.
fn have_levels(items: &[Placed], left: u8) -> bool
    ensures { IsTrue result ↔ AllByRecursion (HasLevel left) items.now }
{
    for placed in items {
        if !has_level(placed, left) {
            return false;
        }
    }
    true
}

// Whether a level is left for the shard, where the item is one.
fn has_level(placed: &Placed, left: u8) -> bool
    ensures { IsTrue result ↔ HasLevel left placed.now }
{
    match &placed.item {
        Item::Leaf(_, _) => true,
        Item::Sub(_) => left > 0,
    }
}
