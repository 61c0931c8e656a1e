//! What blocks can spell, as tests.
ghost use Rattle.std.specs.Prelude.{◌≡◌, ◌↔◌, ◌+◌, ◌<◌, ◌^◌, ◌≤◌, IsTrue, MatchOption, length, sum};
ghost use Rattle.std.specs.List.{AllByRecursion};
ghost use Rattle.std.specs.Ordering.{is_lt, nat_cmp};
ghost use Rattle.uf_tree.specs.Names.{names_cmp};
ghost use Rattle.uf_tree.specs.Rising.{rises};
ghost use Rattle.uf_tree.specs.Validity.{IsDirNode, IsDirectory, IsFileNode, IsInSlot, IsNamed, IsPartLink, IsShard};
ghost use Rattle.uf_tree.specs.Validity.{IsShardNode};

use crate::{DirNode, FileNode, Item, Items, Pair, Pairs, Placed, ShardNode};
use std::cmp::Ordering;
use uf_cid::cids_are_whole;
use uf_dagpb::{Link, links_are_valid};

/// Whether the pairs are those of a directory: no name twice, in byte order. The rest holds of all pairs.
pub fn is_directory(pairs: &Pairs) -> bool
    ensures { IsTrue result ↔ IsDirectory pairs.now }
{
    let entries = pairs.as_slice();
    pairs_are_named(entries);
    names_rise(entries)
}

/// Whether the node is a basic directory's: its pairs are a directory's, and its metadata is good.
pub fn is_dir_node(node: &DirNode) -> bool
    ensures { IsTrue result ↔ IsDirNode node.now }
{
    is_directory(&node.pairs) && node.meta.is_good()
}

// Each pair has a good name and an entry.
fn pairs_are_named(pairs: &[Pair])
    ensures { AllByRecursion IsNamed pairs.now }
{
    for pair in pairs {
        pair_is_named(pair);
    }
}

// A pair has a good name and an entry.
fn pair_is_named(pair: &Pair)
    ensures { IsNamed pair.now }
{
    let _name = pair.name.as_str();
    let _tsize = pair.entry.tsize;
    cids_are_whole(&pair.entry.cid);
}

// Whether each name is below the next one.
fn names_rise(pairs: &[Pair]) -> bool
    ensures { result ≡ rises names_cmp pairs.now }
{
    for i in 1..pairs.len() {
        if !is_before(&pairs[i - 1], &pairs[i]) {
            return false;
        }
    }
    true
}

fn is_before(a: &Pair, b: &Pair) -> bool
    ensures { result ≡ is_lt (names_cmp a.now.0 b.now.0) }
{
    match a.name.as_str().as_bytes().cmp(b.name.as_str().as_bytes()) {
        Ordering::Less => true,
        Ordering::Equal => false,
        Ordering::Greater => false,
    }
}

/// Whether the items are those of a shard: one or more, in strictly ascending order of their slots. The rest holds of
/// all items.
pub fn is_shard(items: &Items) -> bool
    ensures { IsTrue result ↔ IsShard items.now }
{
    let slots = items.as_slice();
    items_are_placed(slots);
    !slots.is_empty() && slots_rise(slots)
}

/// Whether the node is a shard's: its items are a shard's, and its metadata is good.
pub fn is_shard_node(node: &ShardNode) -> bool
    ensures { IsTrue result ↔ IsShardNode node.now }
{
    is_shard(&node.items) && node.meta.is_good()
}

// Each item has a slot, and what stands there.
fn items_are_placed(items: &[Placed])
    ensures { AllByRecursion IsInSlot items.now }
{
    for item in items {
        item_is_placed(item);
    }
}

// An item has a slot, and a good name and an entry or an entry alone.
fn item_is_placed(placed: &Placed)
    ensures { IsInSlot placed.now }
{
    let _slot = placed.slot;
    match &placed.item {
        Item::Leaf(name, entry) => {
            let _name = name.as_str();
            let _tsize = entry.tsize;
            cids_are_whole(&entry.cid);
        }
        Item::Sub(entry) => {
            let _tsize = entry.tsize;
            cids_are_whole(&entry.cid);
        }
    }
}

// Whether each slot is below the next one.
fn slots_rise(items: &[Placed]) -> bool
    ensures { result ≡ rises nat_cmp items.now }
{
    for i in 1..items.len() {
        if !is_below(&items[i - 1], &items[i]) {
            return false;
        }
    }
    true
}

fn is_below(a: &Placed, b: &Placed) -> bool
    ensures { result ≡ is_lt (nat_cmp a.now.0 b.now.0) }
{
    a.slot < b.slot
}

/// Whether the node is a file's: 1 to 1024 links without names, a size for each, together less than 2^63 bytes, and
/// good metadata.
pub fn is_file_node(node: &FileNode) -> bool
    ensures { IsTrue result ↔ IsFileNode node.now }
{
    let links = node.parts.as_slice();
    let sizes = node.sizes.as_slice();
    1 <= links.len()
        && links.len() <= 1024
        && sizes.len() == links.len()
        && total(sizes).is_some()
        && are_parts(links)
        && node.meta.is_good()
}

// The sum of the sizes, where it is below 2 ^ 63.
pub fn total(sizes: &[u64]) -> Option<u64>
    ensures { MatchOption result (2 ^ 63 ≤ sum sizes.now) (λ n. (n ≡ sum sizes.now) × (n < 2 ^ 63)) }
{
    let mut sum = 0u64;
    for size in sizes {
        match add(sum, *size) {
            None => return None,
            Some(more) => sum = more,
        }
    }
    Some(sum)
}

// The sum of two sizes, where it is below 2 ^ 63.
fn add(sum: u64, size: u64) -> Option<u64>
    requires { sum < 2 ^ 63 }
    ensures { MatchOption result (2 ^ 63 ≤ sum + size) (λ n. (n ≡ sum + size) × (n < 2 ^ 63)) }
{
    if size < (1 << 63) - sum {
        Some(sum + size)
    } else {
        None
    }
}

// Whether no link has a name.
fn are_parts(links: &[Link]) -> bool
    ensures { IsTrue result ↔ AllByRecursion IsPartLink links.now }
{
    for link in links {
        if !is_part(link) {
            return false;
        }
    }
    true
}

// Whether the link has no name.
fn is_part(link: &Link) -> bool
    ensures { IsTrue result ↔ IsPartLink link.now }
{
    links_are_valid(link);
    link.name.as_str().is_empty()
}
