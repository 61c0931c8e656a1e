//! The links of a block, put before what is still ahead.
ghost use Rattle.uf_cid.specs.declared.cid.Codec.TheVariants.{DagPb};
ghost use Rattle.uf_dagpb.specs.Reading.{node_reads};
ghost use Rattle.std.specs.Prelude.{◌≡◌, ◌++◌, map, OnOk, OnErr};
ghost use Rattle.uf_walk.specs.Order.{is_met, linked, block_links, pb_number};
ghost use Rattle.uf_walk.specs.Ahead.{LinksAhead, PassesOver};

use crate::WalkFault;
use crate::ahead::Frontier;
use crate::key::Key;
use indexmap::IndexSet;
use std::alloc::Global;
use uf_cid::{Cid, Codec, Memory};
use uf_dagpb::{Link, PbFault, decode_lenient};

// Puts the CIDs of links before the others, the first link first.
pub fn put_in_front(ahead: &mut Frontier, links: &[Link]) -> Result<(), Memory>
    ensures ok { OnOk result (ahead.new ≡ map (λ l. l.cid) links.now ++ ahead.old) }
    ensures err { OnErr result (ahead.new ≡ ahead.old) }
{
    for i in 0..links.len() {
        let at = links.len() - 1 - i;
        match ahead.push_front(links[at].cid) {
            Ok(()) => {}
            Err(memory) => {
                ahead.take_away(i);
                return Err(memory);
            }
        }
    }
    Ok(())
}

// The number of a fault of the lenient reading, from 1.
pub fn number_of(fault: PbFault) -> u8
    ensures { result ≡ pb_number fault }
{
    match fault {
        PbFault::Truncated => 1,
        PbFault::Varint => 2,
        PbFault::Field => 3,
        PbFault::Twice => 4,
        PbFault::NoHash => 5,
        PbFault::BadCid => 6,
        PbFault::NotText => 7,
        PbFault::Memory => 8,
    }
}

// Puts the links of a block before the others: none where it is raw.
pub fn links_ahead(
    alloc: Global,
    cid: &Cid,
    bytes: &[u8],
    ahead: &mut Frontier,
) -> Result<(), WalkFault>
    ensures { LinksAhead cid.now (block_links cid.now.codec bytes.now) result ahead.old ahead.new }
{
    match cid.codec {
        Codec::Raw => Ok(()),
        Codec::DagPb => node_ahead(alloc, cid, bytes, ahead),
    }
}

// Puts the links of a node before the others.
fn node_ahead(alloc: Global, cid: &Cid, bytes: &[u8], ahead: &mut Frontier) -> Result<(), WalkFault>
    ensures { LinksAhead cid.now (linked (node_reads bytes.now)) result ahead.old ahead.new }
{
    match decode_lenient(alloc, bytes) {
        Ok(node) => Ok(put_in_front(ahead, node.links.as_slice())?),
        Err(PbFault::Memory) => Err(WalkFault::Memory),
        Err(fault) => Err(WalkFault::NotDagPb(*cid, number_of(fault))),
    }
}

// Whether a CID was met.
pub fn has(met: &IndexSet<Key>, cid: &Cid) -> bool
    ensures { result ≡ is_met (map (λ k. k.cid) met.now.keys) cid.now }
{
    met.contains(&Key { cid: *cid })
}

// Takes away what was met, up to the first CID that wasn't.
pub fn pass_over(met: &IndexSet<Key>, ahead: &mut Frontier)
    ensures { PassesOver (map (λ k. k.cid) met.now.keys) ahead.old ahead.new }
{
    while let Some(next) = ahead.first() {
        if !has(met, &next) {
            return;
        }
        let _ = ahead.pop_front();
    }
}
