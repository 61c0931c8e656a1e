//! Nodes written.
ghost use Rattle.std.specs.Prelude.{◌≡◌, ◌+◌, ◌-◌, ◌^◌, ◌++◌, IfOk, OnOk, IsTrue, length, min};
ghost use Rattle.uf_varint.specs.Varint.{varint};
ghost use Rattle.uf_varint.specs.Fields.{content_field, optional};
ghost use Rattle.uf_dagpb.specs.Spelling.{are_sorted, link_bytes, links_bytes, node_bytes};

use crate::{Link, Node};
use std::alloc::Global;
use uf_cid::{Block, Memory};
use uf_varint::{NumberField, width};

/// The canonical bytes of a node whose links are sorted by the bytes of their names; equal names stand in any order.
#[tactic(auto, unfolding(crate::specs::Spelling::node_bytes))]
pub fn encode(alloc: Global, node: &Node) -> Result<Block, Memory>
    requires { IsTrue (are_sorted node.now.links) }
    ensures { IfOk result (λ b. b ≡ node_bytes node.now) }
{
    let mut out = Block::with_capacity(alloc, encoded_len(node))?;
    put_links(&mut out, node.links.as_slice())?;
    match &node.content {
        None => Ok(out),
        Some(content) => {
            put_bytes(&mut out, 0x0a, content.as_slice())?;
            Ok(out)
        }
    }
}

/// How many bytes the node's canonical spelling has, or the greatest number where it has more.
#[tactic(auto, unfolding(crate::specs::Spelling::node_bytes))]
pub fn encoded_len(node: &Node) -> usize
    ensures { result ≡ min (length (node_bytes node.now)) (2 ^ 64 - 1) }
{
    links_len(node.links.as_slice()).saturating_add(content_len(&node.content))
}

fn links_len(links: &[Link]) -> usize
    ensures { result ≡ min (length (links_bytes links.now)) (2 ^ 64 - 1) }
{
    let mut len = 0usize;
    for link in links {
        len = len.saturating_add(field_len(link_len(link)));
    }
    len
}

fn content_len(content: &Option<Block>) -> usize
    ensures { result ≡ min (length (optional (content_field 0x0a) content.now)) (2 ^ 64 - 1) }
{
    match content {
        None => 0,
        Some(block) => field_len(block.as_slice().len()),
    }
}

// The length of a field with n bytes.
fn field_len(len: usize) -> usize
    ensures { result ≡ min (1 + length (varint len) + len) (2 ^ 64 - 1) }
{
    len.saturating_add(1 + width(len as u64))
}

// The length of a link's spelling.
pub fn link_len(link: &Link) -> usize
    ensures { result ≡ length (link_bytes link.now) }
{
    let hash = link.cid.to_binary().len();
    let name = link.name.as_str().len();
    2 + hash + 1 + width(name as u64) + name + 1 + width(link.tsize)
}

fn put_links(out: &mut Block, links: &[Link]) -> Result<(), Memory>
    ensures { OnOk result (out.new ≡ out.old ++ links_bytes links.now) }
{
    for link in links {
        put_link(out, link)?;
    }
    Ok(())
}

// A link, with its key and its length.
fn put_link(out: &mut Block, link: &Link) -> Result<(), Memory>
    ensures { OnOk result (out.new ≡ out.old ++ content_field 0x12 (link_bytes link.now)) }
{
    out.extend(NumberField::new(0x12, link_len(link) as u64).as_slice())?;
    put_bytes(out, 0x0a, &link.cid.to_binary())?;
    put_bytes(out, 0x12, link.name.as_str().as_bytes())?;
    out.extend(NumberField::new(0x18, link.tsize).as_slice())?;
    Ok(())
}

// A field with bytes.
fn put_bytes(out: &mut Block, key: u8, bytes: &[u8]) -> Result<(), Memory>
    ensures { OnOk result (out.new ≡ out.old ++ content_field key bytes.now) }
{
    out.extend(NumberField::new(key, bytes.len() as u64).as_slice())?;
    out.extend(bytes)?;
    Ok(())
}
