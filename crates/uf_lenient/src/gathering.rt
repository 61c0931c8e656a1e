//! The ways of a directory gathered, with those of its sub-shards in their place.
ghost use Rattle.std.specs.Prelude.{◌≡◌, ◌≤◌, ◌<◌, ◌+◌, ◌-◌, ◌*◌, [], ◌∷◌, ℕ, IfErr, IfOk, IsTrue, OnOk, length};
ghost use Rattle.std.specs.Option.{option_map};
ghost use Rattle.uf_cid.specs.declared.cid.Cid.{Cid as TheCid};
ghost use Rattle.uf_lenient.specs.Answers.{FollowsReading, IsBare};
ghost use Rattle.uf_tree.specs.Metas.{is_meta};
ghost use Rattle.uf_lenient.specs.Metas.{IsGoodGathered};
ghost use Rattle.uf_lenient.specs.Pending.{frame_ways, own_shard};
ghost use Rattle.uf_lenient.specs.Reading.{Visits, Ways, behind_slot, gathered, is_digit, meet, meet_all};
ghost use Rattle.uf_lenient.specs.Steps.{AddsEntries, gathered_folder, gathered_folder_behind};
ghost use Rattle.uf_lenient.specs.Calls.{AddsFrames, AddsOneFrame, ReadsDag, SaysVisits, TouchesByVisit};

use crate::DagFault;
use crate::due::Frame;
use crate::gathered::Gathered;
use crate::met::MetWays;
use crate::nodes::shard_of;
use crate::pile::Pile;
use crate::unixfs::Unixfs;
use crate::visiting::visit;
use std::alloc::Global;
use std::sync::ledger::Ledger;
use uf_cid::{Cid, Memory};
use uf_dagpb::Links;
use uf_store::{Steps, Store};
use uf_tree::Meta;

/// Visits what a CID names: the first node of a file, or a directory with all its sub-shards. One touch for each
/// visit.
pub fn gather<S: Store, L: Ledger>(
    alloc: Global,
    store: &mut S,
    cid: &Cid,
    left: u64,
    visits: &mut u32,
    touches: &mut Steps<L>,
) -> Result<Gathered, DagFault>
    ensures says { SaysVisits S.X.block32 (S.seen store.old) visits.new (λ held. gathered held left cid.now visits.old)
        result }
    ensures good { IfOk result IsGoodGathered }
    ensures reads { ReadsDag S.X.block32 (S.seen store.old) (S.seen store.new) result }
    ensures depth { OnOk result (1 ≤ left) }
    ensures fewer { OnOk result (visits.new < visits.old) }
    ensures touches { TouchesByVisit visits.old visits.new touches.old touches.new }
{
    match visit(alloc, store, cid, left, visits, touches)? {
        Unixfs::File(meta, bytes, links) => Ok(Gathered::File(meta, bytes, links)),
        Unixfs::Directory(meta, links) => gather_block(alloc, cid, left - 1, meta, links),
        Unixfs::Shard(meta, links) => {
            let first = Frame {
                by: *cid,
                left: left - 1,
                links,
                at: 0,
            };
            gather_shards(alloc, store, meta, first, visits, touches)
        }
        Unixfs::OtherShard => Err(DagFault::Unsupported(*cid)),
        Unixfs::Other => Err(DagFault::Unsupported(*cid)),
    }
}

// The ways of a directory in one block, which has this metadata.
fn gather_block(
    alloc: Global,
    by: &Cid,
    left: u64,
    meta: Meta,
    links: Links,
) -> Result<Gathered, DagFault>
    requires good { IsTrue (is_meta meta) }
    ensures says { FollowsReading (λ g. g) (gathered_folder meta (meet_all by.now left links [])) result }
    ensures good { IfOk result IsGoodGathered }
    ensures bare { IfErr result IsBare }
{
    let mut met = MetWays::new(alloc);
    let items = links.as_slice();
    for link in items {
        met.add(alloc, by, left, link.name.as_str(), &link.cid)?;
    }
    Ok(Gathered::Folder(meta, met))
}

// The ways of a directory in shards, the first of which has this metadata.
fn gather_shards<S: Store, L: Ledger>(
    alloc: Global,
    store: &mut S,
    meta: Meta,
    first: Frame,
    visits: &mut u32,
    touches: &mut Steps<L>,
) -> Result<Gathered, DagFault>
    requires good { IsTrue (is_meta meta) }
    ensures good { IfOk result IsGoodGathered }
    ensures says { SaysVisits S.X.block32 (S.seen store.old) visits.new (λ held.
        gathered_folder_behind meta (frame_ways held first [] visits.old)) result }
    ensures reads { ReadsDag S.X.block32 (S.seen store.old) (S.seen store.new) result }
    ensures fewer { OnOk result (visits.new ≤ visits.old) }
    ensures touches { TouchesByVisit visits.old visits.new touches.old touches.new }
{
    let mut met = MetWays::new(alloc);
    let mut frames = Pile::new(alloc);
    frames.push(first)?;
    gather_frames(alloc, store, &mut frames, &mut met, visits, touches)?;
    Ok(Gathered::Folder(meta, met))
}

// Adds the ways of the shards in a pile, from its top down.
fn gather_frames<S: Store, L: Ledger>(
    alloc: Global,
    store: &mut S,
    frames: &mut Pile<Frame>,
    met: &mut MetWays,
    visits: &mut u32,
    touches: &mut Steps<L>,
) -> Result<(), DagFault>
    ensures says { AddsFrames S.X.block32 (S.seen store.old) frames.old met.old met.new visits.old visits.new result }
    ensures reads { ReadsDag S.X.block32 (S.seen store.old) (S.seen store.new) result }
    ensures fewer { OnOk result (visits.new ≤ visits.old) }
    ensures touches { TouchesByVisit visits.old visits.new touches.old touches.new }
{
    while let Some(frame) = frames.pop() {
        gather_frame(alloc, store, frame, frames, met, visits, touches)?;
    }
    Ok(())
}

// Adds the ways of one shard up to the next shard that it links, and puts that one on the pile.
fn gather_frame<S: Store, L: Ledger>(
    alloc: Global,
    store: &mut S,
    frame: Frame,
    frames: &mut Pile<Frame>,
    met: &mut MetWays,
    visits: &mut u32,
    touches: &mut Steps<L>,
) -> Result<(), DagFault>
    ensures says { AddsOneFrame S.X.block32 (S.seen store.old) (frame ∷ frames.old) frames.new met.old met.new
        visits.old visits.new result }
    ensures reads { ReadsDag S.X.block32 (S.seen store.old) (S.seen store.new) result }
    ensures fewer { OnOk result (visits.new ≤ visits.old) }
    ensures smaller { OnOk result (2 * visits.new + length frames.new < 2 * visits.old + length frames.old + 1) }
    ensures touches { TouchesByVisit visits.old visits.new touches.old touches.new }
{
    match add_entries(alloc, &frame, met)? {
        None => Ok(()),
        Some((at, cid)) => {
            let links = enter_shard(alloc, store, &cid, frame.left, visits, touches)?;
            put_below(frames, frame, at, cid, links)?;
            Ok(())
        }
    }
}

// Visits a shard that a shard links.
fn enter_shard<S: Store, L: Ledger>(
    alloc: Global,
    store: &mut S,
    cid: &Cid,
    left: u64,
    visits: &mut u32,
    touches: &mut Steps<L>,
) -> Result<Links, DagFault>
    ensures says { SaysVisits S.X.block32 (S.seen store.old) visits.new
        (λ held. own_shard held left cid.now visits.old) result }
    ensures reads { ReadsDag S.X.block32 (S.seen store.old) (S.seen store.new) result }
    ensures depth { OnOk result (1 ≤ left) }
    ensures fewer { OnOk result (visits.new + 1 ≡ visits.old) }
    ensures touches { TouchesByVisit visits.old visits.new touches.old touches.new }
{
    let node = visit(alloc, store, cid, left, visits, touches)?;
    shard_of(cid, node)
}

// Puts what is left of a shard back on the pile, and on top of it the links of the shard below.
fn put_below(
    frames: &mut Pile<Frame>,
    frame: Frame,
    at: usize,
    cid: Cid,
    links: Links,
) -> Result<(), Memory>
    requires { 1 ≤ frame.left }
    ensures { OnOk result (frames.new ≡ record { by = cid; left = frame.left - 1; links = links; at = 0 }
        ∷ record { by = frame.by; left = frame.left; links = frame.links; at = at } ∷ frames.old) }
{
    let below = Frame {
        by: cid,
        left: frame.left - 1,
        links,
        at: 0,
    };
    let Frame {
        by,
        left,
        links,
        at: _,
    } = frame;
    frames.push(Frame {
        by,
        left,
        links,
        at,
    })?;
    frames.push(below)
}

// Adds the entries of a shard up to the next link to a shard; answers the place after that link, and its CID.
fn add_entries(
    alloc: Global,
    frame: &Frame,
    met: &mut MetWays,
) -> Result<Option<(usize, Cid)>, DagFault>
    ensures says { (deeper : TheCid → Ways → ℕ → Visits Ways) (n : ℕ)
        → AddsEntries frame.now met.old met.new deeper n result }
    ensures bare { IfErr result IsBare }
{
    let links = frame.links.as_slice();
    for at in frame.at..links.len() {
        let link = &links[at];
        match behind_digits(link.name.as_str()) {
            None => return Err(DagFault::NotUnixfs(frame.by, 21)),
            Some([]) => return Ok(Some((at + 1, link.cid))),
            Some(name) => add_entry(alloc, frame, name, &link.cid, met)?,
        }
    }
    Ok(None)
}

// Adds an entry of a shard under these bytes.
fn add_entry(
    alloc: Global,
    frame: &Frame,
    name: &[u8],
    cid: &Cid,
    met: &mut MetWays,
) -> Result<(), DagFault>
    ensures says { FollowsReading (λ _. met.new)
        (meet frame.now.by frame.now.left name.now cid.now met.old) result }
    ensures bare { IfErr result IsBare }
{
    match str::from_utf8(name) {
        Err(_) => Err(DagFault::BadName(frame.by)),
        Ok(text) => met.add(alloc, &frame.by, frame.left, text, cid),
    }
}

// What stands after the two digits of a slot in the name of a shard's link.
fn behind_digits(name: &str) -> Option<&[u8]>
    ensures { option_map (λ rest. rest.now) result ≡ behind_slot name.now }
{
    match name.as_bytes() {
        [a, b, rest @ ..] => {
            if is_hex(*a) && is_hex(*b) {
                Some(rest)
            } else {
                None
            }
        }
        _ => None,
    }
}

// Whether a byte is a digit in upper case.
fn is_hex(byte: u8) -> bool
    ensures { result ≡ is_digit byte }
{
    (b'0' <= byte && byte <= b'9') || (b'A' <= byte && byte <= b'F')
}
