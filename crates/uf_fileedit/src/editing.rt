//! Files written into and cut.
ghost use Rattle.std.specs.Prelude.{◌≡◌, ◌↔◌, ◌+◌, ◌-◌, ◌<◌, ◌^◌, ◌*◌, ◌&&◌, max, [], length, nat_lt, IfSome, IsTrue};
ghost use Rattle.std.specs.Prelude.{Ok};
ghost use Rattle.uf_store.specs.Keeping.{KeepsGood};
ghost use Rattle.uf_store.specs.Writing.{SavesOnly};
ghost use Rattle.uf_tree.specs.Profiles.{is_profile, most_bytes};
ghost use Rattle.uf_fileedit.specs.Answers.{RefusesTooLong};
ghost use Rattle.uf_fileedit.specs.Changes.{LiesWithin, size_after as after_size};
ghost use Rattle.uf_fileedit.specs.Edits.{cut_to, laid};
ghost use Rattle.uf_fileedit.specs.Touches.{Climbs, TouchedFirst};
ghost use Rattle.uf_fileedit.specs.Files.{AgreesWithEdited, CostsCut, CostsEdit, CostsWrite, EditsFile, GivesEdited};
ghost use Rattle.uf_fileedit.specs.Files.{HoldsEdited, LeavesSame, OfAgreed, RefusesLongWrite, SavesInFile};
ghost use Rattle.uf_fileedit.specs.Files.{ShowsInEdited, bytes_edited};
ghost use Rattle.uf_fileedit.specs.Saving.{SavesOfEdited};

use crate::changing::PartEdit;
use crate::growing::remade;
use crate::layout::{Layer, heights_of};
use crate::root::{root_of, save_over, size_over};
use std::alloc::Global;
use std::sync::ledger::Ledger;
use uf_build::BuildFault;
use uf_store::{Steps, Store, StoreFault};
use uf_tree::{Entry, Part, Profile};

/// Lays a piece over the bytes of a file from `offset` on, and answers the entry of the new file. Zeros stand between
/// the end of the old bytes and an offset after it. With an empty piece the entry is as it was, and nothing is saved.
pub fn write_at<S: Store, L: Ledger>(
    alloc: Global,
    store: &mut S,
    p: &Profile,
    entry: &Entry,
    offset: u64,
    piece: &[u8],
    touches: &mut Steps<L>,
) -> Result<Entry, BuildFault>
    requires profile { IsTrue (is_profile p.now) }
    ensures long { RefusesLongWrite p.now offset piece.now result }
    ensures value { EditsFile S.X.block32 p.now entry.now (λ b. laid b offset piece.now) (S.seen store.old)
        (S.seen store.new) result }
    ensures after { AgreesWithEdited S.X.block32 p.now entry.now (λ b. laid b offset piece.now) (S.seen store.old)
        (S.seen store.new) result }
    ensures held { HoldsEdited S.X.block32 p.now entry.now (λ b. laid b offset piece.now) (S.seen store.old)
        (S.seen store.new) result }
    ensures cause { ShowsInEdited S.X.block32 p.now entry.now.cid (S.seen store.old) (S.seen store.new) result }
    ensures good { KeepsGood S.X.block32 (S.seen store.old).told (S.seen store.new).told }
    ensures saves { SavesOnly S.X.block32 (S.seen store.old).told (S.seen store.new).told }
    ensures no_other { SavesOfEdited S.X.block32 p.now entry.now (λ b. laid b offset piece.now) (S.seen store.old)
        (S.seen store.new) }
    ensures touched { TouchedFirst result touches.old touches.new }
    ensures touches { CostsWrite S.X.block32 p.now entry.now (S.seen store.old) offset piece.now touches.old
        touches.new }
    ensures empty { piece.now ≡ [] → (result ≡ Ok entry.now) × (S.seen store.new ≡ S.seen store.old)
        × (touches.new ≡ touches.old) }
{
    if piece.is_empty() {
        return Ok(*entry);
    }
    let most = p.most_bytes();
    let more = piece.len() as u64;
    if more > most || offset > most - more {
        return Err(BuildFault::FileTooLong);
    }
    let extent = Extent {
        wanted: None,
        offset,
    };
    Ok(edit(alloc, store, p, entry, extent, piece, touches)?)
}

/// Cuts a file to a length, or fills it with zeros up to it, and answers the entry of the new file.
pub fn truncate<S: Store, L: Ledger>(
    alloc: Global,
    store: &mut S,
    p: &Profile,
    entry: &Entry,
    size: u64,
    touches: &mut Steps<L>,
) -> Result<Entry, BuildFault>
    requires profile { IsTrue (is_profile p.now) }
    ensures long { RefusesTooLong (nat_lt (most_bytes p.now) size) result }
    ensures value { EditsFile S.X.block32 p.now entry.now (λ b. cut_to b size) (S.seen store.old) (S.seen store.new)
        result }
    ensures after { AgreesWithEdited S.X.block32 p.now entry.now (λ b. cut_to b size) (S.seen store.old)
        (S.seen store.new) result }
    ensures held { HoldsEdited S.X.block32 p.now entry.now (λ b. cut_to b size) (S.seen store.old) (S.seen store.new)
        result }
    ensures cause { ShowsInEdited S.X.block32 p.now entry.now.cid (S.seen store.old) (S.seen store.new) result }
    ensures good { KeepsGood S.X.block32 (S.seen store.old).told (S.seen store.new).told }
    ensures saves { SavesOnly S.X.block32 (S.seen store.old).told (S.seen store.new).told }
    ensures no_other { SavesOfEdited S.X.block32 p.now entry.now (λ b. cut_to b size) (S.seen store.old)
        (S.seen store.new) }
    ensures touched { TouchedFirst result touches.old touches.new }
    ensures touches { CostsCut S.X.block32 p.now entry.now (S.seen store.old) size touches.old touches.new }
    ensures same { OfAgreed S.X.block32 p.now entry.now (S.seen store.old) (λ m b. length b ≡ size
        → (S.seen store.new).told ≡ (S.seen store.old).told) }
{
    let most = p.most_bytes();
    if size > most {
        return Err(BuildFault::FileTooLong);
    }
    let extent = Extent {
        wanted: Some(size),
        offset: 0,
    };
    Ok(edit(alloc, store, p, entry, extent, &[], touches)?)
}

// The length that is wanted of a file, where one is, and where a piece is laid over it.
#[derive(Clone, Copy)]
struct Extent {
    wanted: Option<u64>,
    offset: u64,
}

// Cuts or fills a file to a length, or else to no less than the end of a piece, and lays the piece over it. The root
// is loaded once, and the new one carries its metadata.
fn edit<S: Store, L: Ledger>(
    alloc: Global,
    store: &mut S,
    p: &Profile,
    entry: &Entry,
    extent: Extent,
    piece: &[u8],
    touches: &mut Steps<L>,
) -> Result<Entry, StoreFault>
    requires profile { IsTrue (is_profile p.now) }
    requires within { IfSome extent.wanted (λ n. LiesWithin n extent.offset piece.now) }
    requires small { IfSome extent.wanted (λ n. n < 2 ^ 63) }
    requires end { extent.offset + length piece.now < 2 ^ 63 }
    ensures gives { GivesEdited S.X.block32 p.now entry.now (bytes_edited extent.wanted extent.offset piece.now)
        (S.seen store.old) (S.seen store.new) result }
    ensures saves { SavesInFile S.X.block32 p.now entry.now.cid (S.seen store.old) (S.seen store.new) result }
    ensures no_other { SavesOfEdited S.X.block32 p.now entry.now (bytes_edited extent.wanted extent.offset piece.now)
        (S.seen store.old) (S.seen store.new) }
    ensures touched { Climbs result touches.old touches.new }
    ensures touches { CostsEdit S.X.block32 p.now entry.now (S.seen store.old) extent.wanted extent.offset piece.now
        touches.old touches.new }
    ensures same { LeavesSame S.X.block32 p.now entry.now extent.wanted extent.offset piece.now (S.seen store.old)
        (S.seen store.new) }
{
    let root = root_of(alloc, store, p, entry, touches)?;
    let old = size_over(root.parts.as_slice());
    let size = size_after(old, extent, piece.len() as u64);
    if is_same(old, size, piece) {
        return Ok(*entry);
    }
    let at = heights_of(p, old, size);
    let layer = Layer {
        p: *p,
        rows: at.rows,
        top: at.top,
        height: at.height,
        zeros: None,
    };
    let whole = Part {
        entry: *entry,
        size: at.first,
    };
    let target = PartEdit {
        old: Some(whole),
        size,
        offset: extent.offset,
    };
    let meta = root.meta;
    let news = remade(alloc, store, layer, target, root.parts, piece, touches)?;
    let part = save_over(alloc, store, news.as_slice(), &meta, touches)?;
    Ok(part.entry)
}

// Whether nothing changes.
fn is_same(old: u64, size: u64, piece: &[u8]) -> bool
    ensures { IsTrue result ↔ (old ≡ size) × (length piece.now ≡ 0) }
{
    old == size && piece.len() == 0
}

// How many bytes a file of `old` bytes has afterwards.
fn size_after(old: u64, extent: Extent, more: u64) -> u64
    requires { extent.offset + more < 2 ^ 63 }
    ensures { result ≡ after_size old extent.wanted extent.offset more }
{
    match extent.wanted {
        Some(size) => size,
        None => old.max(extent.offset + more),
    }
}
