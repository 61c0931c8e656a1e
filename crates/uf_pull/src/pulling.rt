//! A DAG pulled from a peer into a store.
ghost use Rattle.std.specs.Prelude.{◌≡◌, ◌≤◌, ◌<◌, ◌-◌, ◌^◌, ℕ, List, [], Some, None, OnOk, IfSome, false};
ghost use Rattle.uf_edge.specs.Counts.{Counts};
ghost use Rattle.uf_edge.specs.Streams.{Told, after};
ghost use Rattle.uf_store.specs.Calls.{OnlySaves};
ghost use Rattle.uf_store.specs.Contents.{Contents, held_at};
ghost use Rattle.uf_store.specs.Faults.{NoneIsBad, Shown};
ghost use Rattle.uf_store.specs.Keeping.{KeepsGood};
ghost use Rattle.uf_store.specs.Writing.{Wrote};
ghost use Rattle.uf_cid.specs.declared.cid.Cid.{Cid as TheCid};
ghost use Rattle.uf_pull.specs.Due.{due};
ghost use Rattle.uf_pull.specs.Pulling.{Closes, IsDoneLast, IsOnCourse, IsPulling, IsSaveOrSync, LooksFor};
ghost use Rattle.uf_pull.specs.Pulling.{OnlyPulls, Pulls, SendsLine, StepsWalk, VisitsCid, at_first, stand};
ghost use Rattle.uf_pull.specs.Reading.{IsInPlace, is_pull_read, is_pull_sink, pull_fault};
ghost use Rattle.uf_pull.specs.Serving.{WritesBytes};
ghost use Rattle.uf_pull.specs.Wants.{done_line, want_line};
ghost use Rattle.uf_pull.specs.Wholes.{AsksForUnheld};

use crate::PullFault;
use crate::peer::Peer;
use crate::want::want_bytes;
use std::alloc::Global;
use std::sync::ledger::Ledger;
use uf_cid::Cid;
use uf_edge::{Put, Sent, Sink, Source, write_all};
use uf_store::{Load, Steps, Store, StoreFault, save_under};
use uf_walk::{Turn, Walk};

/// Fetches all that is below a CID into a store: what isn't held is asked for, one CID in a line, and the frames that
/// come are read until one answers. At most `most` CIDs are met. It answers the number of blocks that were added.
pub fn pull<S: Store, I: Source, O: Sink, L: Ledger>(
    alloc: Global,
    store: &mut S,
    cid: &Cid,
    most: u32,
    input: &mut I,
    out: &mut O,
    touches: &mut Steps<L>,
) -> Result<u64, PullFault>
    // Over a store and an input that tell: what is due is answered, asked for and kept; a failure leaves a prefix.
    ensures pulls { (t : Contents) (bytes : List ℕ) → (S.seen store.old).told ≡ Some t → I.left input.old ≡ Some bytes
        → Pulls (due S.X.block32 most cid.now (held_at t) bytes) bytes result t (S.seen store.new).told
        (O.holds out.old) (O.holds out.new) (I.left input.new) }
    ensures some { WritesBytes (O.holds out.old) (O.holds out.new) }

    // Whatever it answers, no byte of `done` is written unless all blocks were kept and then synced.
    ensures last { (t : Contents) (bytes : List ℕ) → (S.seen store.old).told ≡ Some t → I.left input.old ≡ Some bytes
        → IsDoneLast (due S.X.block32 most cid.now (held_at t) bytes) t (S.seen store.new).told
        (O.holds out.old) (O.holds out.new) }

    // After Ok all below the CID is held, and exactly what of it wasn't held was asked for.
    ensures wants { (t u : Contents) (bytes : List ℕ) → (S.seen store.old).told ≡ Some t
        → I.left input.old ≡ Some bytes
        → (S.seen store.new).told ≡ Some u → OnOk result (AsksForUnheld most cid.now (held_at t) (held_at u)
        (due S.X.block32 most cid.now (held_at t) bytes).wants) }

    // Each fault has its cause; blocks that were good stay, and nothing but blocks and syncs is written.
    ensures cause { Shown S.X.block32 NoneIsBad (pull_fault result) (S.seen store.old) (S.seen store.new) }
    ensures fault { IfSome (pull_fault result) IsPulling }
    ensures good { KeepsGood S.X.block32 (S.seen store.old).told (S.seen store.new).told }
    ensures saves { Wrote S.X.block32 IsSaveOrSync (S.seen store.old).told (S.seen store.new).told }
    ensures reads { Counts (is_pull_read result) (I.faults input.old) (I.faults input.new) }
    ensures writes { Counts (is_pull_sink result) (O.faults out.old) (O.faults out.new) }
{
    let mut walk = Walk::new(alloc, most);
    walk.add_root(cid)?;
    let mut peer = Peer::new(alloc)?;
    pull_all(store, &mut walk, &mut peer, input, out, touches)
}

// Visits all CIDs that a walk hands out, and closes. It answers the number of blocks that were added.
fn pull_all<S: Store, I: Source, O: Sink, L: Ledger>(
    store: &mut S,
    walk: &mut Walk,
    peer: &mut Peer,
    input: &mut I,
    out: &mut O,
    touches: &mut Steps<L>,
) -> Result<u64, PullFault>
    requires due { walk.old.due ≡ None }
    requires most { walk.old.most < 2 ^ 32 }
    requires handed { walk.old.handed ≡ [] }
    requires first { stand peer.old ≡ at_first }
    ensures pulls { (t : Contents) (bytes : List ℕ) (root : TheCid) → (S.seen store.old).told ≡ Some t
        → I.left input.old ≡ Some bytes → IsOnCourse root (held_at t) walk.old
        → Pulls (due S.X.block32 walk.old.most root (held_at t) bytes) bytes result t (S.seen store.new).told
        (O.holds out.old) (O.holds out.new) (I.left input.new) }
    ensures some { WritesBytes (O.holds out.old) (O.holds out.new) }
    ensures fault { IfSome (pull_fault result) IsPulling }
    ensures keeps { OnlyPulls S.X.block32 (pull_fault result) (S.seen store.old) (S.seen store.new) }
    ensures reads { Counts (is_pull_read result) (I.faults input.old) (I.faults input.new) }
    ensures writes { Counts (is_pull_sink result) (O.faults out.old) (O.faults out.new) }
{
    'rest: loop {
        match walk.advance()? {
            Turn::End => {
                close(store, out)?;
                return Ok(peer.added as u64);
            }
            Turn::TooMany => return Err(PullFault::TooMany),
            Turn::At(next) => visit(store, &next, walk, peer, input, out, touches)?,
        }
    }
}

// Hands the block that is due to a walk. Where it isn't held, it is asked for and kept.
fn visit<S: Store, I: Source, O: Sink, L: Ledger>(
    store: &mut S,
    cid: &Cid,
    walk: &mut Walk,
    peer: &mut Peer,
    input: &mut I,
    out: &mut O,
    touches: &mut Steps<L>,
) -> Result<(), PullFault>
    requires due { walk.old.due ≡ Some cid.now }
    requires place { IsInPlace peer.old }
    requires few { peer.old.added < 2 ^ 32 - 1 }
    ensures visits { (t : Contents) (bytes : List ℕ) (root : TheCid) → (S.seen store.old).told ≡ Some t
        → I.left input.old ≡ Some bytes → IsOnCourse root (held_at t) walk.old
        → VisitsCid S.X.block32 walk.old.most root result (stand peer.old) t bytes (O.holds out.old)
        (stand peer.new) walk.new (S.seen store.new).told (I.left input.new) (O.holds out.new) }
    ensures steps { OnOk result (StepsWalk walk.old walk.new peer.old peer.new) }
    ensures place { OnOk result (IsInPlace peer.new) }
    ensures some { WritesBytes (O.holds out.old) (O.holds out.new) }
    ensures fault { IfSome (pull_fault result) IsPulling }
    ensures pulls { OnlyPulls S.X.block32 (pull_fault result) (S.seen store.old) (S.seen store.new) }
    ensures reads { Counts (is_pull_read result) (I.faults input.old) (I.faults input.new) }
    ensures writes { Counts (is_pull_sink result) (O.faults out.old) (O.faults out.new) }
{
    if is_held(store, cid, touches)? {
        walk.take(store.block())?;
        return Ok(());
    }
    ask(cid, out)?;
    fetch(store, cid, walk, peer, input, touches)
}

// Whether a block is held, which is lent then.
fn is_held<S: Store, L: Ledger>(
    store: &mut S,
    cid: &Cid,
    touches: &mut Steps<L>,
) -> Result<bool, PullFault>
    ensures looks { LooksFor S.X.block32 cid.now result (S.seen store.old) (S.seen store.new) }
    ensures fault { IfSome (pull_fault result) IsPulling }
    ensures cause { Shown S.X.block32 NoneIsBad (pull_fault result) (S.seen store.old) (S.seen store.new) }
    ensures no_read { is_pull_read result ≡ false }
    ensures no_sink { is_pull_sink result ≡ false }
{
    match store.load(cid, touches) {
        Load::Found => Ok(true),
        Load::Missing => Ok(false),
        Load::Damaged => Err(PullFault::Store(StoreFault::Damaged(*cid))),
        Load::Failed => Err(PullFault::Store(StoreFault::Failed)),
        Load::Memory => Err(PullFault::Store(StoreFault::Memory)),
    }
}

// Asks for a block.
fn ask<O: Sink>(cid: &Cid, out: &mut O) -> Result<(), PullFault>
    ensures asks { SendsLine (want_line cid.now) result (O.holds out.old) (O.holds out.new) }
    ensures counts { Counts (is_pull_sink result) (O.faults out.old) (O.faults out.new) }
{
    match write_all(out, &want_bytes(cid)) {
        Sent::Done => Ok(()),
        Sent::Failed => Err(PullFault::Sink),
    }
}

// Keeps the block that a peer gives for a CID, and hands it to the walk.
fn fetch<S: Store, I: Source, L: Ledger>(
    store: &mut S,
    cid: &Cid,
    walk: &mut Walk,
    peer: &mut Peer,
    input: &mut I,
    touches: &mut Steps<L>,
) -> Result<(), PullFault>
    requires due { walk.old.due ≡ Some cid.now }
    requires place { IsInPlace peer.old }
    requires few { peer.old.added < 2 ^ 32 - 1 }
    ensures visits { (t : Contents) (bytes : List ℕ) (root : TheCid) (given : Told) → (S.seen store.old).told ≡ Some t
        → I.left input.old ≡ Some bytes → IsOnCourse root (held_at t) walk.old → held_at t cid.now ≡ None
        → VisitsCid S.X.block32 walk.old.most root result (stand peer.old) t bytes given
        (stand peer.new) walk.new (S.seen store.new).told (I.left input.new) (after given (want_line cid.now)) }
    ensures steps { OnOk result (StepsWalk walk.old walk.new peer.old peer.new) }
    ensures place { OnOk result (IsInPlace peer.new) }
    ensures fault { IfSome (pull_fault result) IsPulling }
    ensures saves { OnlySaves S.X.block32 NoneIsBad (pull_fault result) (S.seen store.old) (S.seen store.new) }
    ensures no_sink { is_pull_sink result ≡ false }
    ensures reads { Counts (is_pull_read result) (I.faults input.old) (I.faults input.new) }
{
    let found = peer.answer::<S::X, I>(input, cid)?;
    let block = peer.bytes(found);
    save_under(peer.alloc, store, cid, block, touches)?;
    walk.take(block)?;
    Ok(())
}

// Makes all that was kept durable, and then tells the peer that no more is wanted.
fn close<S: Store, O: Sink>(store: &mut S, out: &mut O) -> Result<(), PullFault>
    ensures closes { (t : Contents) → (S.seen store.old).told ≡ Some t
        → Closes result t (S.seen store.new).told (O.holds out.old) (O.holds out.new) }
    ensures some { WritesBytes (O.holds out.old) (O.holds out.new) }
    ensures fault { IfSome (pull_fault result) IsPulling }
    ensures pulls { OnlyPulls S.X.block32 (pull_fault result) (S.seen store.old) (S.seen store.new) }
    ensures no_read { is_pull_read result ≡ false }
    ensures writes { Counts (is_pull_sink result) (O.faults out.old) (O.faults out.new) }
{
    match store.sync() {
        Put::Done => tell_done(out),
        Put::Failed => Err(PullFault::Store(StoreFault::Failed)),
        Put::Memory => Err(PullFault::Store(StoreFault::Memory)),
    }
}

// Tells the peer that no more is wanted.
fn tell_done<O: Sink>(out: &mut O) -> Result<(), PullFault>
    ensures tells { SendsLine done_line result (O.holds out.old) (O.holds out.new) }
    ensures counts { Counts (is_pull_sink result) (O.faults out.old) (O.faults out.new) }
{
    match write_all(out, b"done\n") {
        Sent::Done => Ok(()),
        Sent::Failed => Err(PullFault::Sink),
    }
}
