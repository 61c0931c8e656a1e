//! Nodes of files, written and read.
ghost use Rattle.std.specs.Prelude.{◌≡◌, ◌<◌, ◌≤◌, ◌^◌, ◌++◌, ◌↔◌, ◌*◌, ◌+◌, Some, IfOk, IsTrue, MatchOption};
ghost use Rattle.std.specs.Prelude.{MatchResult, OnOk, length, sum};
ghost use Rattle.uf_cid.specs.declared.bytes.StrictFault.TheVariants as strict;
ghost use Rattle.std.specs.List.{AllByRecursion};
ghost use Rattle.uf_dagpb.specs.Spelling.{link_bytes, links_bytes, node_bytes};
ghost use Rattle.uf_message.specs.Spelling.{message_bytes};
ghost use Rattle.uf_tree.specs.Codecs.{FitSizes, IsContent, Reads, content_spelling, file_dag, meta_in};
ghost use Rattle.uf_tree.specs.Nodes.{file_block, file_message};
ghost use Rattle.uf_tree.specs.Validity.{IsFileNode, IsPartLink};
ghost use Rattle.uf_varint.specs.Fields.{content_field};

use crate::checks::{is_file_node, total};
use crate::metas::metadata;
use crate::spelling::{put_bytes, put_link};
use crate::{Entry, FileNode, Meta};
use std::alloc::Global;
use uf_cid::{Block, Memory, Sizes, StrictFault};
use uf_dagpb::{Link, Node, decode_strict};
use uf_message::{Message, MsgKind, decode_strict as decode_message, encode};

/// The block of a file's node (UnixFS v1, "File"). Its condition is that the node is one, which `is_file_node` tests.
#[tactic(auto, unfolding(crate::specs::Nodes::file_block))]
pub fn file_node(alloc: Global, node: &FileNode) -> Result<Block, Memory>
    requires { IsFileNode node.now }
    ensures block { IfOk result (λ b. b ≡ file_block node.now) }
    ensures small { IfOk result (λ b. length b ≤ 131072) }
{
    let content = file_content(alloc, &node.sizes, &node.meta)?;
    node_of_parts(alloc, node.parts.as_slice(), content.as_slice())
}

// The node of links without names and a content.
#[tactic(auto, unfolding(uf_dagpb::specs::Spelling::node_bytes))]
fn node_of_parts(alloc: Global, links: &[Link], content: &[u8]) -> Result<Block, Memory>
    requires few { length links.now ≤ 1024 }
    requires each { AllByRecursion IsPartLink links.now }
    ensures { IfOk result (λ b. b ≡ node_bytes (record { links = links.now; content = Some content.now })) }
{
    let room = 64 * links.len() + content.len().min(65536) + 16;
    let mut out = Block::with_capacity(alloc, room)?;
    put_parts(&mut out, links)?;
    put_bytes(&mut out, 0x0a, content)?;
    Ok(out)
}

// The message of a file's node.
fn file_content(alloc: Global, sizes: &Sizes, meta: &Meta) -> Result<Block, Memory>
    requires { sum sizes.now < 2 ^ 63 }
    ensures { IfOk result (λ b. b ≡ message_bytes (file_message meta.now sizes.now)) }
{
    let message = Message {
        kind: MsgKind::File,
        content: None,
        filesize: Some(sizes.as_slice().iter().sum()),
        blocksizes: sizes.copy()?,
        hash_type: None,
        fanout: None,
        mode: meta.mode,
        mtime: meta.mtime,
    };
    encode(alloc, &message)
}

// The links of a file's node, which have no names.
fn put_parts(out: &mut Block, links: &[Link]) -> Result<(), Memory>
    requires { AllByRecursion IsPartLink links.now }
    ensures { OnOk result (out.new ≡ out.old ++ links_bytes links.now) }
{
    for link in links {
        put_part(out, link)?;
    }
    Ok(())
}

// A link without a name.
fn put_part(out: &mut Block, link: &Link) -> Result<(), Memory>
    requires { IsPartLink link.now }
    ensures { OnOk result (out.new ≡ out.old ++ content_field 0x12 (link_bytes link.now)) }
{
    let entry = Entry {
        cid: link.cid,
        tsize: link.tsize,
    };
    put_link(out, &[], link.name.as_str().as_bytes(), &entry)
}

/// The node of which the bytes are the block.
pub fn read_file_node(alloc: Global, bytes: &[u8]) -> Result<FileNode, StrictFault>
    ensures { Reads IsFileNode file_block bytes.now result }
{
    file_node_of(alloc, decode_strict(alloc, bytes)?)
}

/// The file's node of which this is the node.
pub fn file_node_of(alloc: Global, node: Node) -> Result<FileNode, StrictFault>
    ensures { Reads IsFileNode file_dag node result }
{
    let Node { links, content } = node;
    match content {
        None => Err(StrictFault::NotCanonical),
        Some(content) => {
            let (sizes, meta) = content_of(alloc, content.as_slice())?;
            whole(FileNode {
                parts: links,
                sizes,
                meta,
            })
        }
    }
}

// The node, where it is one.
fn whole(node: FileNode) -> Result<FileNode, StrictFault>
    ensures { MatchResult result (λ v. (v ≡ node) × IsFileNode node)
        (λ f. (f ≡ strict.NotCanonical) × (IsFileNode node → ⊥)) }
{
    if is_file_node(&node) {
        Ok(node)
    } else {
        Err(StrictFault::NotCanonical)
    }
}

// The sizes and the metadata of which the bytes are the message of a file's node.
fn content_of(alloc: Global, content: &[u8]) -> Result<(Sizes, Meta), StrictFault>
    ensures { Reads IsContent content_spelling content.now result }
{
    let message = decode_message(alloc, content)?;
    let meta = metadata(&message);
    if is_file_message(&message) {
        let Message { blocksizes, .. } = message;
        Ok((blocksizes, meta))
    } else {
        Err(StrictFault::NotCanonical)
    }
}

// Whether the message is that of a file's node.
fn is_file_message(message: &Message) -> bool
    ensures { IsTrue result ↔ ((message.now ≡ file_message (meta_in message.now) message.now.blocksizes)
        × FitSizes message.now.blocksizes) }
{
    is_bare_file(message) && is_total(message.filesize, message.blocksizes.as_slice())
}

// Whether the message is a file's, and has no part that a file's node hasn't.
fn is_bare_file(message: &Message) -> bool
    ensures { IsTrue result ↔ (message.now
        ≡ record (file_message (meta_in message.now) message.now.blocksizes) { filesize = message.now.filesize }) }
{
    message.kind == MsgKind::File
        && message.content.is_none()
        && message.hash_type.is_none()
        && message.fanout.is_none()
}

// Whether the number is the sum of the sizes, and below 2 ^ 63.
fn is_total(number: Option<u64>, sizes: &[u64]) -> bool
    ensures { IsTrue result ↔ ((number ≡ Some (sum sizes.now)) × FitSizes sizes.now) }
{
    match total(sizes) {
        None => false,
        Some(total) => number == Some(total),
    }
}
