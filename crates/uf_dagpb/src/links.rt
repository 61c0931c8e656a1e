//! Links read from bytes.
ghost use Rattle.std.specs.Prelude.{◌≡◌, ◌<◌, ◌≤◌, ◌==◌, IfOk, length, MatchOption, MatchResult, Ok, Err, Some, None};
ghost use Rattle.uf_dagpb.specs.Reading.{Gives, hash_of};
ghost use Rattle.uf_dagpb.specs.Steps.{text_of, hash_next, name_next, tsize_next, keyed_next, link_next, link_end};
ghost use Rattle.uf_dagpb.specs.Steps.{link_reads};

use crate::fault::PbFault;
use crate::node::Link;
use crate::parts::LinkParts;
use std::alloc::Global;
use uf_cid::{Cid, Text};
use uf_varint::{read_bytes, read_number};

// The CID that all of the bytes are.
fn hash_in(bytes: &[u8]) -> Option<Cid>
    ensures { result ≡ hash_of bytes.now }
{
    match Cid::read_binary(bytes) {
        Ok((cid, used)) => { if used == bytes.len() { Some(cid) } else { None } }
        Err(_) => None,
    }
}

// The text that the bytes are.
fn text_in(alloc: Global, bytes: &[u8]) -> Result<Text, PbFault>
    ensures { Gives (λ t. t) result (text_of bytes.now) }
{
    match str::from_utf8(bytes) {
        Ok(found) => {
            let mut text = Text::new(alloc);
            text.push_str(found)?;
            Ok(text)
        }
        Err(_) => Err(PbFault::NotText),
    }
}

fn hash_field(parts: LinkParts, bytes: &[u8]) -> Result<(LinkParts, &[u8]), PbFault>
    ensures exact { Gives (λ x. (x.0, x.1.now)) result (hash_next parts bytes.now) }
    ensures shorter { IfOk result (λ x. length x.1.now < length bytes.now) }
{
    if parts.cid.is_some() {
        return Err(PbFault::Twice);
    }
    let (hash, rest) = read_bytes(bytes)?;
    match hash_in(hash) {
        None => Err(PbFault::BadCid),
        cid => {
            let LinkParts {
                cid: _,
                name,
                tsize,
            } = parts;
            Ok((LinkParts { cid, name, tsize }, rest))
        }
    }
}

fn name_field(alloc: Global, parts: LinkParts, bytes: &[u8]) -> Result<(LinkParts, &[u8]), PbFault>
    ensures exact { Gives (λ x. (x.0, x.1.now)) result (name_next parts bytes.now) }
    ensures shorter { IfOk result (λ x. length x.1.now < length bytes.now) }
{
    if parts.name.is_some() {
        return Err(PbFault::Twice);
    }
    let (name, rest) = read_bytes(bytes)?;
    let name = Some(text_in(alloc, name)?);
    let LinkParts {
        cid,
        name: _,
        tsize,
    } = parts;
    Ok((LinkParts { cid, name, tsize }, rest))
}

fn tsize_field(parts: LinkParts, bytes: &[u8]) -> Result<(LinkParts, &[u8]), PbFault>
    ensures exact { Gives (λ x. (x.0, x.1.now)) result (tsize_next parts bytes.now) }
    ensures shorter { IfOk result (λ x. length x.1.now < length bytes.now) }
{
    if parts.tsize.is_some() {
        return Err(PbFault::Twice);
    }
    let (number, rest) = read_number(bytes)?;
    let tsize = Some(number);
    let LinkParts {
        cid,
        name,
        tsize: _,
    } = parts;
    Ok((LinkParts { cid, name, tsize }, rest))
}

fn keyed_field(
    alloc: Global,
    parts: LinkParts,
    key: u64,
    bytes: &[u8],
) -> Result<(LinkParts, &[u8]), PbFault>
    ensures exact { Gives (λ x. (x.0, x.1.now)) result (keyed_next parts key bytes.now) }
    ensures shorter { IfOk result (λ x. length x.1.now < length bytes.now) }
{
    match key {
        0x0a => hash_field(parts, bytes),
        0x12 => name_field(alloc, parts, bytes),
        0x18 => tsize_field(parts, bytes),
        _ => Err(PbFault::Field),
    }
}

// The parts after one more field.
#[tactic(auto, unfolding(crate::specs::Steps::link_next))]
fn link_field(alloc: Global, parts: LinkParts, bytes: &[u8]) -> Result<(LinkParts, &[u8]), PbFault>
    ensures exact { Gives (λ x. (x.0, x.1.now)) result (link_next parts bytes.now) }
    ensures shorter { IfOk result (λ x. length x.1.now < length bytes.now) }
{
    let (key, rest) = read_number(bytes)?;
    keyed_field(alloc, parts, key, rest)
}

// The link of all its parts.
#[tactic(auto, unfolding(crate::specs::Steps::link_end))]
fn whole(alloc: Global, parts: LinkParts) -> Result<Link, PbFault>
    ensures { Gives (λ l. l) result (link_end parts) }
{
    let LinkParts { cid, name, tsize } = parts;
    match cid {
        None => Err(PbFault::NoHash),
        Some(cid) => Ok(Link {
            cid,
            name: name.unwrap_or(Text::new(alloc)),
            tsize: tsize.unwrap_or(0),
        }),
    }
}

/// The link that the bytes spell.
pub fn decode_link(alloc: Global, bytes: &[u8]) -> Result<Link, PbFault>
    ensures { Gives (λ l. l) result (link_reads bytes.now) }
{
    let mut parts = LinkParts {
        cid: None,
        name: None,
        tsize: None,
    };
    let mut rest = bytes;
    while !rest.is_empty() {
        let (next, after) = link_field(alloc, parts, rest)?;
        parts = next;
        rest = after;
    }
    whole(alloc, parts)
}
