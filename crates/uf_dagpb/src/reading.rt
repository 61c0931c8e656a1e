//! Nodes read leniently.
ghost use Rattle.std.specs.Prelude.{◌≡◌, ◌<◌, ◌≤◌, IfOk, length};
ghost use Rattle.uf_dagpb.specs.Reading.{Gives, node_reads};
ghost use Rattle.uf_dagpb.specs.Steps.{links_next, content_next, node_next};

use crate::fault::PbFault;
use crate::links::decode_link;
use crate::node::{Links, Node};
use std::alloc::Global;
use uf_cid::Block;
use uf_varint::{read_bytes, read_number};

/// The node that the bytes spell in any way, or their first fault. A missing name is empty, and a missing Tsize is 0.
pub fn decode_lenient(alloc: Global, bytes: &[u8]) -> Result<Node, PbFault>
    ensures { Gives (λ n. n) result (node_reads bytes.now) }
{
    let mut node = Node {
        links: Links::new(alloc),
        content: None,
    };
    let mut rest = bytes;
    while !rest.is_empty() {
        let (next, after) = node_field(alloc, node, rest)?;
        node = next;
        rest = after;
    }
    Ok(node)
}

// The node after one more field.
#[tactic(auto, unfolding(crate::specs::Steps::node_next))]
fn node_field(alloc: Global, node: Node, bytes: &[u8]) -> Result<(Node, &[u8]), PbFault>
    ensures exact { Gives (λ x. (x.0, x.1.now)) result (node_next node bytes.now) }
    ensures shorter { IfOk result (λ x. length x.1.now < length bytes.now) }
{
    let (key, rest) = read_number(bytes)?;
    match key {
        0x12 => link_more(alloc, node, rest),
        0x0a => content_more(alloc, node, rest),
        _ => Err(PbFault::Field),
    }
}

fn link_more(alloc: Global, mut node: Node, bytes: &[u8]) -> Result<(Node, &[u8]), PbFault>
    ensures exact { Gives (λ x. (x.0, x.1.now)) result (links_next node bytes.now) }
    ensures shorter { IfOk result (λ x. length x.1.now < length bytes.now) }
{
    let (spelled, rest) = read_bytes(bytes)?;
    node.links.push(decode_link(alloc, spelled)?)?;
    Ok((node, rest))
}

fn content_more(alloc: Global, node: Node, bytes: &[u8]) -> Result<(Node, &[u8]), PbFault>
    ensures exact { Gives (λ x. (x.0, x.1.now)) result (content_next node bytes.now) }
    ensures shorter { IfOk result (λ x. length x.1.now < length bytes.now) }
{
    if node.content.is_some() {
        return Err(PbFault::Twice);
    }
    let (content, rest) = read_bytes(bytes)?;
    let content = Some(Block::from_slice(alloc, content)?);
    let Node { links, content: _ } = node;
    Ok((Node { links, content }, rest))
}
