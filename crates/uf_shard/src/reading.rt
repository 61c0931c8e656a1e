//! Shards read where they stand.
ghost use Rattle.std.specs.Prelude.{◌≡◌, ◌<◌, ◌↔◌, ◌==◌, [], IsTrue, Some, None, cond};
ghost use Rattle.std.specs.FinMap.Entries.{find};
ghost use Rattle.std.specs.List.{AllByRecursion};
ghost use Rattle.std.specs.Ordering.{eq_by_cmp, nat_cmp};
ghost use Rattle.uf_tree.specs.Codecs.{Reads, shard_node_block};
ghost use Rattle.uf_tree.specs.Names.{names_cmp};
ghost use Rattle.uf_tree.specs.Roles.{IsOnWay, MayCarry};
ghost use Rattle.uf_tree.specs.Validity.{IsShardNode};
ghost use Rattle.uf_shard.specs.Placed.{IsPlacedNode, way};
ghost use Rattle.uf_shard.specs.Spots.{spot_of};

use crate::spot::ShardAnswer;
use crate::walking::may_carry;
use std::alloc::Global;
use std::cmp::Ordering;
use uf_cid::StrictFault;
use uf_murmur::{NameHash, slot};
use uf_tree::{Entry, Item, Name, Placed, ShardNode, read_shard_node};

// The shard of these bytes at a level on the way of a hash.
pub fn read_shard<N: NameHash>(
    alloc: Global,
    bytes: &[u8],
    hash: u64,
    level: u8,
) -> Result<ShardNode, StrictFault>
    requires { level < 8 }
    ensures { Reads (IsPlacedNode N.name64 (way hash level)) shard_node_block bytes.now result }
{
    let node = read_shard_node(alloc, bytes)?;
    if is_placed::<N>(&node, hash, level) {
        Ok(node)
    } else {
        Err(StrictFault::NotCanonical)
    }
}

// Whether the shard carries no more than it may, and each of its items stands on the way of the hash.
fn is_placed<N: NameHash>(node: &ShardNode, hash: u64, level: u8) -> bool
    requires { level < 8 }
    ensures { IsTrue result ↔ (MayCarry (way hash level) node.now.meta
        × AllByRecursion (IsOnWay N.name64 (way hash level)) node.now.items) }
{
    may_carry(&node.meta, level) && are_on_way::<N>(node.items.as_slice(), hash, level)
}

// Whether the shard is canonical at level 0, where no slot is above it.
pub fn is_first<N: NameHash>(node: &ShardNode) -> bool
    requires { IsShardNode node.now }
    ensures { IsTrue result ↔ IsPlacedNode N.name64 [] node.now }
{
    is_placed::<N>(node, 0, 0)
}

// Whether each item stands on the way of the hash.
fn are_on_way<N: NameHash>(items: &[Placed], hash: u64, level: u8) -> bool
    requires { level < 8 }
    ensures { IsTrue result ↔ AllByRecursion (IsOnWay N.name64 (way hash level)) items.now }
{
    for placed in items {
        if !is_on_way::<N>(placed, hash, level) {
            return false;
        }
    }
    true
}

// Whether the item's name has the slots of the hash above this level and its own slot there, or a shard may stand
// below.
fn is_on_way<N: NameHash>(placed: &Placed, hash: u64, level: u8) -> bool
    requires { level < 8 }
    ensures { IsTrue result ↔ IsOnWay N.name64 (way hash level) placed.now }
{
    match &placed.item {
        Item::Leaf(name, _) => {
            let other = N::name64(name.as_str().as_bytes());
            shares_way(other, hash, level) && slot(other, level) == placed.slot
        }
        Item::Sub(_) => level < 7,
    }
}

// Whether two hashes have the same slots above a level.
fn shares_way(other: u64, hash: u64, level: u8) -> bool
    requires { level < 8 }
    ensures { IsTrue result ↔ (way other level ≡ way hash level) }
{
    for above in 0..level {
        if slot(other, above) != slot(hash, above) {
            return false;
        }
    }
    true
}

// What the items say of a name in its slot.
pub fn spot_in(items: &[Placed], slot: u8, name: &Name) -> ShardAnswer
    ensures { result ≡ spot_of name.now (find nat_cmp slot items.now) }
{
    for placed in items {
        if placed.slot == slot {
            return spot(&placed.item, name);
        }
    }
    ShardAnswer::Here(None)
}

// What an item says of a name in its slot.
fn spot(item: &Item, name: &Name) -> ShardAnswer
    ensures { result ≡ spot_of name.now (Some item.now) }
{
    match item {
        Item::Leaf(other, entry) => ShardAnswer::Here(if_same(name, other, entry)),
        Item::Sub(entry) => ShardAnswer::Below(entry.cid),
    }
}

// The entry, where two names are the same.
fn if_same(name: &Name, other: &Name, entry: &Entry) -> Option<Entry>
    ensures { result ≡ cond (eq_by_cmp names_cmp name.now other.now) (Some entry.now) None }
{
    match name.as_str().as_bytes().cmp(other.as_str().as_bytes()) {
        Ordering::Less => None,
        Ordering::Equal => Some(*entry),
        Ordering::Greater => None,
    }
}
