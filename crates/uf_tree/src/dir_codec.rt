//! Basic directories, written and read.
ghost use Rattle.std.specs.Prelude.{◌≡◌, ◌≤◌, ◌++◌, ◌↔◌, IfOk, IsTrue, MatchResult, Some, OnOk, length, map};
ghost use Rattle.std.specs.List.{AllByRecursion};
ghost use Rattle.uf_cid.specs.declared.bytes.StrictFault.TheVariants as strict;
ghost use Rattle.uf_dagpb.specs.Spelling.{link_bytes, links_bytes, node_bytes};
ghost use Rattle.uf_tree.specs.Codecs.{Reads, dir_dag, dir_node_block, dir_spelling, meta_in, pair_link};
ghost use Rattle.uf_tree.specs.DirPlan.{weight};
ghost use Rattle.uf_tree.specs.Metas.{is_meta};
ghost use Rattle.uf_tree.specs.Nodes.{dir_block, dir_message};
ghost use Rattle.uf_tree.specs.Validity.{IsDirNode, IsDirectory, IsNamed};
ghost use Rattle.uf_varint.specs.Fields.{content_field};

use crate::checks::is_dir_node;
use crate::metas::metadata;
use crate::spelling::{put_bytes, put_link};
use crate::{DirNode, Entry, Meta, Name, Pair, Pairs};
use std::alloc::Global;
use uf_cid::{Block, Memory, Sizes, StrictFault};
use uf_dagpb::{Link, Node, decode_strict, links_are_valid};
use uf_message::{Message, MsgKind, decode_strict as decode_message, encode};

/// The block of a basic directory (UnixFS v1, "Directory"). Its condition is that the node is one, which `is_dir_node`
/// tests.
pub fn dir_node(alloc: Global, node: &DirNode) -> Result<Block, Memory>
    requires { IsDirNode node.now }
    ensures block { IfOk result (λ b. b ≡ dir_block node.now.meta node.now.pairs) }
    ensures small { weight node.now.pairs ≤ 1048576 → IfOk result (λ b. length b ≤ 2097152) }
{
    node_of_pairs(alloc, &node.pairs, &node.meta)
}

/// The same of pairs and metadata apart.
pub fn node_of_pairs(alloc: Global, pairs: &Pairs, meta: &Meta) -> Result<Block, Memory>
    requires pairs { IsDirectory pairs.now }
    requires meta { IsTrue (is_meta meta.now) }
    ensures block { IfOk result (λ b. b ≡ dir_block meta.now pairs.now) }
    ensures small { weight pairs.now ≤ 1048576 → IfOk result (λ b. length b ≤ 2097152) }
{
    let content = dir_content(alloc, meta)?;
    node_of(alloc, pairs.as_slice(), content.as_slice())
}

// The message of a basic directory.
fn dir_content(alloc: Global, meta: &Meta) -> Result<Block, Memory>
    ensures { IfOk result (λ b. b ≡ dir_spelling meta.now) }
{
    let message = Message {
        kind: MsgKind::Directory,
        content: None,
        filesize: None,
        blocksizes: Sizes::new(alloc),
        hash_type: None,
        fanout: None,
        mode: meta.mode,
        mtime: meta.mtime,
    };
    encode(alloc, &message)
}

// The node of the pairs' links and a content.
#[tactic(auto, unfolding(uf_dagpb::specs::Spelling::node_bytes))]
fn node_of(alloc: Global, pairs: &[Pair], content: &[u8]) -> Result<Block, Memory>
    ensures { IfOk result
        (λ b. b ≡ node_bytes (record { links = map pair_link pairs.now; content = Some content.now })) }
{
    let mut out = Block::with_capacity(alloc, room(pairs))?;
    put_pairs(&mut out, pairs)?;
    put_bytes(&mut out, 0x0a, content)?;
    Ok(out)
}

// As many bytes as the block has, or a few more.
fn room(pairs: &[Pair]) -> usize {
    let mut room = 48usize;
    for pair in pairs {
        room = room
            .saturating_add(pair.name.as_str().len())
            .saturating_add(55);
    }
    room
}

// The links of pairs.
fn put_pairs(out: &mut Block, pairs: &[Pair]) -> Result<(), Memory>
    ensures { OnOk result (out.new ≡ out.old ++ links_bytes (map pair_link pairs.now)) }
{
    for pair in pairs {
        put_pair(out, pair)?;
    }
    Ok(())
}

// The link of a pair.
fn put_pair(out: &mut Block, pair: &Pair) -> Result<(), Memory>
    ensures { OnOk result (out.new ≡ out.old ++ content_field 0x12 (link_bytes (pair_link pair.now))) }
{
    put_link(out, &[], pair.name.as_str().as_bytes(), &pair.entry)
}

/// The node of which the bytes are the basic directory's block.
pub fn read_dir_node(alloc: Global, bytes: &[u8]) -> Result<DirNode, StrictFault>
    ensures { Reads IsDirNode dir_node_block bytes.now result }
{
    let node = decode_strict(alloc, bytes)?;
    dir_node_of(alloc, &node)
}

/// The directory of which this is the node.
pub fn dir_node_of(alloc: Global, node: &Node) -> Result<DirNode, StrictFault>
    ensures { Reads IsDirNode dir_dag node.now result }
{
    match &node.content {
        None => Err(StrictFault::NotCanonical),
        Some(content) => {
            let meta = meta_of(alloc, content.as_slice())?;
            let pairs = pairs_of_links(alloc, node.links.as_slice())?;
            whole(DirNode { pairs, meta })
        }
    }
}

// The node, where it is one.
fn whole(node: DirNode) -> Result<DirNode, StrictFault>
    ensures { MatchResult result (λ v. (v ≡ node) × IsDirNode node)
        (λ f. (f ≡ strict.NotCanonical) × (IsDirNode node → ⊥)) }
{
    if is_dir_node(&node) {
        Ok(node)
    } else {
        Err(StrictFault::NotCanonical)
    }
}

// The metadata of which the bytes are a directory's message.
fn meta_of(alloc: Global, content: &[u8]) -> Result<Meta, StrictFault>
    ensures { Reads (λ m. IsTrue (is_meta m)) dir_spelling content.now result }
{
    let message = decode_message(alloc, content)?;
    let meta = metadata(&message);
    if is_dir_message(&message) && meta.is_good() {
        Ok(meta)
    } else {
        Err(StrictFault::NotCanonical)
    }
}

// Whether the message is a directory's, and has no part that a basic directory hasn't.
fn is_dir_message(message: &Message) -> bool
    ensures { IsTrue result ↔ (message.now ≡ dir_message (meta_in message.now)) }
{
    message.kind == MsgKind::Directory
        && message.content.is_none()
        && message.filesize.is_none()
        && message.blocksizes.len() == 0
        && message.hash_type.is_none()
        && message.fanout.is_none()
}

// The pairs whose links these are.
fn pairs_of_links(alloc: Global, links: &[Link]) -> Result<Pairs, StrictFault>
    ensures { Reads (AllByRecursion IsNamed) (map pair_link) links.now result }
{
    let mut pairs = Pairs::new(alloc);
    for link in links {
        let pair = pair_of(alloc, link)?;
        pairs.push(pair)?;
    }
    Ok(pairs)
}

// The pair whose link this is.
fn pair_of(alloc: Global, link: &Link) -> Result<Pair, StrictFault>
    ensures { Reads IsNamed pair_link link.now result }
{
    links_are_valid(link);
    let name = Name::parse(alloc, link.name.as_str())?;
    Ok(Pair {
        name,
        entry: Entry {
            cid: link.cid,
            tsize: link.tsize,
        },
    })
}
