//! Shards read.
ghost use Rattle.std.specs.Prelude.{◌≡◌, ◌≢◌, ◌⊎◌, ◌↔◌, ◌<◌, ◌∷◌, [], IfOk, IsTrue, List, MatchOption, MatchResult};
ghost use Rattle.std.specs.Prelude.{Some, ℕ, map};
ghost use Rattle.std.specs.List.{AllByRecursion};
ghost use Rattle.uf_cid.specs.declared.bytes.StrictFault.TheVariants as strict;
ghost use Rattle.uf_tree.specs.Codecs.{MetaOf, Reads, shard_dag, shard_node_block, shard_spelling};
ghost use Rattle.uf_tree.specs.Nodes.{hex_digit, item_entry, item_name, slot_digits, slot_link};
ghost use Rattle.uf_tree.specs.Validity.{IsEntry, IsInSlot, IsItem, IsShardNode};
ghost use Rattle.uf_tree.specs.declared.nodes.Item.{Item as TheItem};

use crate::checks::is_shard_node;
use crate::metas::metadata;
use crate::shard_codec::shard_content;
use crate::{Entry, Item, Items, Meta, Name, Placed, ShardNode};
use std::alloc::Global;
use uf_cid::{Block, Memory, StrictFault};
use uf_dagpb::{Link, Node, decode_strict, links_are_valid};
use uf_message::decode_strict as decode_message;

/// The node of which the bytes are the shard's block.
pub fn read_shard_node(alloc: Global, bytes: &[u8]) -> Result<ShardNode, StrictFault>
    ensures { Reads IsShardNode shard_node_block bytes.now result }
{
    let node = decode_strict(alloc, bytes)?;
    shard_node_of(alloc, &node)
}

/// The shard of which this is the node.
pub fn shard_node_of(alloc: Global, node: &Node) -> Result<ShardNode, StrictFault>
    ensures { Reads IsShardNode shard_dag node.now result }
{
    match &node.content {
        None => Err(StrictFault::NotCanonical),
        Some(content) => {
            let meta = meta_of(alloc, content.as_slice())?;
            let items = items_of_links(alloc, node.links.as_slice())?;
            whole(alloc, ShardNode { items, meta }, content.as_slice())
        }
    }
}

// The metadata that the bytes have, where they are the message of some shard.
fn meta_of(alloc: Global, content: &[u8]) -> Result<Meta, StrictFault>
    ensures { MetaOf content.now result }
{
    let message = decode_message(alloc, content)?;
    Ok(metadata(&message))
}

// The node, where it is one and this is its content.
fn whole(alloc: Global, node: ShardNode, content: &[u8]) -> Result<ShardNode, StrictFault>
    ensures { MatchResult result
        (λ v. (v ≡ node) × IsShardNode node × (content.now ≡ shard_spelling node.meta node.items))
        (λ f. (f ≡ strict.Memory) ⊎ (IsShardNode node → content.now ≢ shard_spelling node.meta node.items)) }
{
    if !is_shard_node(&node) {
        return Err(StrictFault::NotCanonical);
    }
    let spelled = shard_content(alloc, node.items.as_slice(), &node.meta)?;
    if content == spelled.as_slice() {
        Ok(node)
    } else {
        Err(StrictFault::NotCanonical)
    }
}

// The items whose links these are.
fn items_of_links(alloc: Global, links: &[Link]) -> Result<Items, StrictFault>
    ensures { Reads (AllByRecursion IsInSlot) (map slot_link) links.now result }
{
    let mut items = Items::new(alloc);
    for link in links {
        let placed = placed_of(alloc, link)?;
        items.push(placed)?;
    }
    Ok(items)
}

// The slot and its item whose link this is.
fn placed_of(alloc: Global, link: &Link) -> Result<Placed, StrictFault>
    ensures { Reads IsInSlot slot_link link.now result }
{
    links_are_valid(link);
    let entry = Entry {
        cid: link.cid,
        tsize: link.tsize,
    };
    match link.name.as_str().as_bytes() {
        [a, b, rest @ ..] => match slot_of(*a, *b) {
            None => Err(StrictFault::NotCanonical),
            Some(slot) => {
                let item = item_of(alloc, rest, entry)?;
                Ok(Placed { slot, item })
            }
        },
        _ => Err(StrictFault::NotCanonical),
    }
}

// What stands in a slot under a name: without a name a shard below.
fn item_of(alloc: Global, name: &[u8], entry: Entry) -> Result<Item, StrictFault>
    requires { IsEntry entry }
    ensures { MatchResult result
        (λ item. IsItem item × (item_name item ≡ name.now) × (item_entry item ≡ entry))
        (λ f. (f ≡ strict.Memory) ⊎ ((item : TheItem) → IsItem item → item_name item ≢ name.now)) }
{
    if name.is_empty() {
        return Ok(Item::Sub(entry));
    }
    match str::from_utf8(name) {
        Err(_) => Err(StrictFault::NotCanonical),
        Ok(text) => {
            let name = Name::parse(alloc, text)?;
            Ok(Item::Leaf(name, entry))
        }
    }
}

// The slot of two digits.
fn slot_of(a: u8, b: u8) -> Option<u8>
    ensures { MatchOption result
        ((s : ℕ) → s < 256 → slot_digits s ≢ a ∷ b ∷ [])
        (λ s. (s < 256) × (slot_digits s ≡ a ∷ b ∷ [])) }
{
    match value_of(a) {
        None => None,
        Some(high) => match value_of(b) {
            None => None,
            Some(low) => Some(16 * high + low),
        },
    }
}

// The number of a digit in upper case.
fn value_of(digit: u8) -> Option<u8>
    ensures { MatchOption result ((n : ℕ) → n < 16 → hex_digit n ≢ digit) (λ n. (n < 16) × (hex_digit n ≡ digit)) }
{
    match digit {
        b'0'..=b'9' => Some(digit - b'0'),
        b'A'..=b'F' => Some(digit - b'A' + 10),
        _ => None,
    }
}
