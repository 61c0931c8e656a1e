//! Shards written.
ghost use Rattle.std.specs.Prelude.{◌≡◌, ◌<◌, ◌≤◌, ◌++◌, [], ◌∷◌, IfOk, IsTrue, OnOk, Some, length, map};
ghost use Rattle.uf_dagpb.specs.Spelling.{link_bytes, links_bytes, node_bytes};
ghost use Rattle.uf_tree.specs.Codecs.{shard_spelling};
ghost use Rattle.uf_tree.specs.Metas.{is_meta};
ghost use Rattle.uf_tree.specs.Nodes.{hex_digit, shard_block, slot_digits, slot_link};
ghost use Rattle.uf_tree.specs.Validity.{IsShard, IsShardNode};
ghost use Rattle.uf_varint.specs.Fields.{content_field};

use crate::bits::bitfield;
use crate::spelling::{put_bytes, put_link};
use crate::{Item, Items, Meta, Placed, ShardNode};
use std::alloc::Global;
use uf_cid::{Block, Memory, Sizes};
use uf_message::{Message, MsgKind, encode};

/// The block of a shard (UnixFS v1, "HAMTDirectory"). Its condition is that the node is one, which `is_shard_node`
/// tests.
pub fn shard_node(alloc: Global, node: &ShardNode) -> Result<Block, Memory>
    requires { IsShardNode node.now }
    ensures block { IfOk result (λ b. b ≡ shard_block node.now.meta node.now.items) }
    ensures small { IfOk result (λ b. length b ≤ 2097152) }
{
    node_of_items(alloc, &node.items, &node.meta)
}

/// The same of items and metadata apart.
pub fn node_of_items(alloc: Global, items: &Items, meta: &Meta) -> Result<Block, Memory>
    requires items { IsShard items.now }
    requires meta { IsTrue (is_meta meta.now) }
    ensures block { IfOk result (λ b. b ≡ shard_block meta.now items.now) }
    ensures small { IfOk result (λ b. length b ≤ 2097152) }
{
    let content = shard_content(alloc, items.as_slice(), meta)?;
    node_of(alloc, items.as_slice(), content.as_slice())
}

// The message of a shard.
pub fn shard_content(alloc: Global, items: &[Placed], meta: &Meta) -> Result<Block, Memory>
    ensures { IfOk result (λ b. b ≡ shard_spelling meta.now items.now) }
{
    let message = Message {
        kind: MsgKind::Shard,
        content: Some(bitfield(alloc, items)?),
        filesize: None,
        blocksizes: Sizes::new(alloc),
        hash_type: Some(0x22),
        fanout: Some(256),
        mode: meta.mode,
        mtime: meta.mtime,
    };
    encode(alloc, &message)
}

// The node of the items' links and a content.
#[tactic(auto, unfolding(uf_dagpb::specs::Spelling::node_bytes))]
fn node_of(alloc: Global, items: &[Placed], content: &[u8]) -> Result<Block, Memory>
    ensures { IfOk result
        (λ b. b ≡ node_bytes (record { links = map slot_link items.now; content = Some content.now })) }
{
    let mut out = Block::with_capacity(alloc, room(items))?;
    put_items(&mut out, items)?;
    put_bytes(&mut out, 0x0a, content)?;
    Ok(out)
}

// As many bytes as the block has, or a few more.
fn room(items: &[Placed]) -> usize {
    let mut room = 96usize;
    for placed in items {
        room = room.saturating_add(item_room(&placed.item));
    }
    room
}

fn item_room(item: &Item) -> usize
    ensures { result ≤ 312 }
{
    match item {
        Item::Leaf(name, _) => 57 + name.as_str().len(),
        Item::Sub(_) => 57,
    }
}

// The links of items.
fn put_items(out: &mut Block, items: &[Placed]) -> Result<(), Memory>
    ensures { OnOk result (out.new ≡ out.old ++ links_bytes (map slot_link items.now)) }
{
    for placed in items {
        put_item(out, placed)?;
    }
    Ok(())
}

// The link of a slot.
fn put_item(out: &mut Block, placed: &Placed) -> Result<(), Memory>
    ensures { OnOk result (out.new ≡ out.old ++ content_field 0x12 (link_bytes (slot_link placed.now))) }
{
    let digits = digits_of(placed.slot);
    match &placed.item {
        Item::Leaf(name, entry) => put_link(out, &digits, name.as_str().as_bytes(), entry),
        Item::Sub(entry) => put_link(out, &digits, &[], entry),
    }
}

// The two digits of a slot.
fn digits_of(slot: u8) -> [u8; 2]
    ensures { result ≡ slot_digits slot }
{
    [digit(slot / 16), digit(slot % 16)]
}

// A digit in upper case.
pub fn digit(n: u8) -> u8
    requires { n < 16 }
    ensures { result ≡ hex_digit n }
{
    if n < 10 { b'0' + n } else { b'A' + (n - 10) }
}
