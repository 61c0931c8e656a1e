//! Nodes read strictly: what was read leniently is written nowhere else than in the bytes.
ghost use Rattle.std.specs.Prelude.{◌≡◌, ◌≢◌, ◌⊎◌, ◌↔◌, ◌++◌, IsTrue, List, ℕ, MatchOption, MatchResult, Option};
ghost use Rattle.std.specs.Cmp.Lexicographic.{slice_cmp};
ghost use Rattle.std.specs.Ordering.{is_le, nat_cmp};
ghost use Rattle.uf_varint.specs.Fields.{content_field, optional};
ghost use Rattle.uf_cid.specs.Cid.{cid_bytes};
ghost use Rattle.uf_cid.specs.declared.bytes.StrictFault.TheVariants as strict;
ghost use Rattle.uf_dagpb.specs.declared.fault.PbFault.TheVariants as pb;
ghost use Rattle.uf_dagpb.specs.declared.node.Node.{Node as TheNode};
ghost use Rattle.uf_dagpb.specs.Spelling.{are_sorted, link_bytes, links_bytes, node_bytes, AreLinks, IsLink, IsNode};
ghost use Rattle.uf_dagpb.specs.Fronts.{IsFront};

use crate::fault::PbFault;
use crate::node::{Link, Node};
use crate::reading::decode_lenient;
use crate::writing::link_len;
use std::alloc::Global;
use std::cmp::Ordering;
use uf_cid::{Block, StrictFault, cids_are_whole};
use uf_varint::NumberField;

/// The node whose canonical spelling the bytes are: its links are sorted by the bytes of their names.
pub fn decode_strict(alloc: Global, bytes: &[u8]) -> Result<Node, StrictFault>
    ensures { MatchResult result
        (λ n. IsNode n × (bytes.now ≡ node_bytes n))
        (λ f. (f ≡ strict.Memory) ⊎ ((n : TheNode) → IsNode n → bytes.now ≢ node_bytes n)) }
{
    match decode_lenient(alloc, bytes) {
        Err(fault) => Err(strictly(fault)),
        Ok(node) => {
            if is_canonical(&node, bytes) {
                Ok(node)
            } else {
                Err(StrictFault::NotCanonical)
            }
        }
    }
}

// What a fault of the lenient reader means here.
fn strictly(fault: PbFault) -> StrictFault
    ensures { (result ≡ strict.Memory) ⊎ (fault ≢ pb.Memory) }
{
    match fault {
        PbFault::Memory => StrictFault::Memory,
        _ => StrictFault::NotCanonical,
    }
}

// Whether the bytes are the canonical spelling of the node.
fn is_canonical(node: &Node, bytes: &[u8]) -> bool
    ensures { IsTrue result ↔ (IsNode node.now × (bytes.now ≡ node_bytes node.now)) }
{
    if !names_rise(node.links.as_slice()) {
        return false;
    }
    match behind_links(node.links.as_slice(), bytes) {
        None => false,
        Some(rest) => is_content(&node.content, rest),
    }
}

// Whether no name stands after a greater one.
fn names_rise(links: &[Link]) -> bool
    ensures { result ≡ are_sorted links.now }
{
    for i in 1..links.len() {
        if !in_order(&links[i - 1], &links[i]) {
            return false;
        }
    }
    true
}

fn in_order(a: &Link, b: &Link) -> bool
    ensures { result ≡ is_le (slice_cmp nat_cmp a.now.name b.now.name) }
{
    match a.name.as_str().as_bytes().cmp(b.name.as_str().as_bytes()) {
        Ordering::Less => true,
        Ordering::Equal => true,
        Ordering::Greater => false,
    }
}

// Whether the bytes are the content's field, or nothing where there is none.
fn is_content(content: &Option<Block>, bytes: &[u8]) -> bool
    ensures { IsTrue result ↔ (bytes.now ≡ optional (content_field 0x0a) content.now) }
{
    match content {
        None => bytes.is_empty(),
        Some(block) => match behind_field(0x0a, block.as_slice(), bytes) {
            None => false,
            Some(rest) => rest.is_empty(),
        },
    }
}

// The bytes after the links, where they come first.
fn behind_links<'a>(links: &[Link], bytes: &'a [u8]) -> Option<&'a [u8]>
    ensures valid { MatchOption result (Unit {0}) (λ rest. AreLinks links.now) }
    ensures front { IsFront (links_bytes links.now) bytes.now result }
{
    let mut rest = bytes;
    for link in links {
        match behind_link(link, rest) {
            None => return None,
            Some(after) => rest = after,
        }
    }
    Some(rest)
}

// The bytes after a link with its key and its length, where these come first.
fn behind_link<'a>(link: &Link, bytes: &'a [u8]) -> Option<&'a [u8]>
    ensures valid { IsLink link.now }
    ensures front { IsFront (content_field 0x12 (link_bytes link.now)) bytes.now result }
{
    links_are_valid(link);
    match behind(
        NumberField::new(0x12, link_len(link) as u64).as_slice(),
        bytes,
    ) {
        None => None,
        Some(rest) => behind_parts(link, rest),
    }
}

fn behind_parts<'a>(link: &Link, bytes: &'a [u8]) -> Option<&'a [u8]>
    ensures { IsFront (link_bytes link.now) bytes.now result }
{
    match behind_names(link, bytes) {
        None => None,
        Some(rest) => behind(NumberField::new(0x18, link.tsize).as_slice(), rest),
    }
}

fn behind_names<'a>(link: &Link, bytes: &'a [u8]) -> Option<&'a [u8]>
    ensures { IsFront (content_field 0x0a (cid_bytes link.now.cid)
        ++ content_field 0x12 link.now.name) bytes.now result }
{
    match behind_field(0x0a, &link.cid.to_binary(), bytes) {
        None => None,
        Some(rest) => behind_field(0x12, link.name.as_str().as_bytes(), rest),
    }
}

// The bytes after a field with bytes, where it comes first.
fn behind_field<'a>(key: u8, content: &[u8], bytes: &'a [u8]) -> Option<&'a [u8]>
    ensures { IsFront (content_field key content.now) bytes.now result }
{
    match behind(
        NumberField::new(key, content.len() as u64).as_slice(),
        bytes,
    ) {
        None => None,
        Some(rest) => behind(content, rest),
    }
}

// The bytes after a prefix, where it stands there.
fn behind<'a>(front: &[u8], bytes: &'a [u8]) -> Option<&'a [u8]>
    ensures { IsFront front.now bytes.now result }
{
    if bytes.len() < front.len() {
        return None;
    }
    let (head, rest) = bytes.split_at(front.len());
    if head == front { Some(rest) } else { None }
}

/// What links can be: 32 bytes of digest, a name in UTF-8, and a Tsize of 64 bits.
pub fn links_are_valid(link: &Link)
    ensures { IsLink link.now }
{
    let _name = link.name.as_str();
    let _tsize = link.tsize;
    cids_are_whole(&link.cid);
}
