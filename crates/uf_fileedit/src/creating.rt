//! Files made anew.
ghost use Rattle.std.specs.Prelude.{◌≡◌, ◌+◌, ◌-◌, ◌*◌, ◌<◌, ◌≤◌, ◌^◌, [], length, min, IfOk, IsTrue, None};
ghost use Rattle.std.specs.List.{sum_by};
ghost use Rattle.uf_cid.specs.declared.cid.Cid.{Cid as TheCid};
ghost use Rattle.uf_store.specs.Among.{SavesAmong};
ghost use Rattle.uf_store.specs.Keeping.{KeepsGood};
ghost use Rattle.uf_store.specs.Writing.{SavesOnly};
ghost use Rattle.uf_tree.specs.FilePlan.{file_plan};
ghost use Rattle.uf_tree.specs.Metas.{is_meta};
ghost use Rattle.uf_tree.specs.Profiles.{is_profile, most_bytes};
ghost use Rattle.uf_fileedit.specs.Changes.{LiesWithin, overlaid};
ghost use Rattle.uf_fileedit.specs.Edits.{laid};
ghost use Rattle.uf_fileedit.specs.Touches.{Climbs, TouchedFirst};
ghost use Rattle.uf_fileedit.specs.Files.{CostsCreate, CostsNewFile, GivesNewFile, HoldsNewFile, MakesNewFile};
ghost use Rattle.uf_fileedit.specs.Files.{RefusesLongWrite, SavesNewFile, ShowsInEdited};
ghost use Rattle.uf_fileedit.specs.Layers.{CostsNewParts, MakesNewParts, SavesAmongOld, room_at};
ghost use Rattle.uf_fileedit.specs.Saving.{blocks_changed};

use crate::changing::{PartEdit, change_parts};
use crate::layout::{Layer, heights_of};
use crate::leaves::{change_leaf, save_zeros};
use crate::nodes::just;
use crate::root::save_over;
use std::alloc::Global;
use std::sync::ledger::Ledger;
use uf_build::BuildFault;
use uf_store::{Steps, Store, StoreFault};
use uf_tree::{Entry, Meta, Parts, Profile};

/// Makes a file of this metadata, of a piece with zeros before it up to `offset`, and answers its entry. Of an
/// empty piece it is the file of no bytes. Nothing is loaded, and a whole part of zeros is made once.
pub fn create<S: Store, L: Ledger>(
    alloc: Global,
    store: &mut S,
    p: &Profile,
    meta: &Meta,
    offset: u64,
    piece: &[u8],
    touches: &mut Steps<L>,
) -> Result<Entry, BuildFault>
    requires profile { IsTrue (is_profile p.now) }
    requires good { IsTrue (is_meta meta.now) }
    ensures long { RefusesLongWrite p.now offset piece.now result }
    ensures value { MakesNewFile S.X.block32 p.now meta.now (laid [] offset piece.now) (S.seen store.old)
        (S.seen store.new) result }
    ensures held { HoldsNewFile S.X.block32 p.now meta.now (laid [] offset piece.now) (S.seen store.old)
        (S.seen store.new) result }
    ensures cause { (root : TheCid) → ShowsInEdited S.X.block32 p.now root (S.seen store.old) (S.seen store.new)
        result }
    ensures good { KeepsGood S.X.block32 (S.seen store.old).told (S.seen store.new).told }
    ensures saves { SavesOnly S.X.block32 (S.seen store.old).told (S.seen store.new).told }
    ensures no_other { SavesAmong S.X.block32
        (file_plan S.X.block32 p.now meta.now (laid [] offset piece.now)).blocks
        (S.seen store.old).told (S.seen store.new).told }
    ensures touched { TouchedFirst result touches.old touches.new }
    ensures touches { CostsCreate p.now meta.now offset piece.now touches.old touches.new }
{
    if piece.is_empty() {
        let nothing = PartEdit {
            old: None,
            size: 0,
            offset,
        };
        return Ok(save_new(alloc, store, p, meta, nothing, piece, touches)?);
    }
    let most = p.most_bytes();
    let more = piece.len() as u64;
    if more > most || offset > most - more {
        return Err(BuildFault::FileTooLong);
    }
    let target = PartEdit {
        old: None,
        size: offset + more,
        offset,
    };
    Ok(save_new(alloc, store, p, meta, target, piece, touches)?)
}

// Saves a file of n bytes, zeros with a piece laid over them, and answers its entry.
fn save_new<S: Store, L: Ledger>(
    alloc: Global,
    store: &mut S,
    p: &Profile,
    meta: &Meta,
    target: PartEdit,
    piece: &[u8],
    touches: &mut Steps<L>,
) -> Result<Entry, StoreFault>
    requires profile { IsTrue (is_profile p.now) }
    requires good { IsTrue (is_meta meta.now) }
    requires old { target.old ≡ None }
    requires early { 1 ≤ target.size → target.offset ≤ target.size }
    requires small { target.size < 2 ^ 63 }
    requires within { LiesWithin target.size target.offset piece.now }
    ensures gives { GivesNewFile S.X.block32 p.now meta.now target piece.now (S.seen store.old) (S.seen store.new)
        result }
    ensures saves { SavesNewFile S.X.block32 p.now (S.seen store.old) (S.seen store.new) result }
    ensures no_other { SavesAmong S.X.block32
        (file_plan S.X.block32 p.now meta.now (overlaid target.size [] target.offset piece.now)).blocks
        (S.seen store.old).told (S.seen store.new).told }
    ensures rises { Climbs result touches.old touches.new }
    ensures touches { CostsNewFile p.now target piece.now touches.old touches.new }
{
    let at = heights_of(p, 0, target.size);
    let layer = Layer {
        p: *p,
        rows: at.rows,
        top: at.top,
        height: at.height,
        zeros: None,
    };
    let parts = new_parts(alloc, store, layer, target, piece, touches)?;
    let part = save_over(alloc, store, parts.as_slice(), meta, touches)?;
    Ok(part.entry)
}

// Saves the parts of a layer below the root of such a file.
fn new_parts<S: Store, L: Ledger>(
    alloc: Global,
    store: &mut S,
    layer: Layer,
    target: PartEdit,
    piece: &[u8],
    touches: &mut Steps<L>,
) -> Result<Parts, StoreFault>
    requires profile { IsTrue (is_profile layer.p) }
    requires old { target.old ≡ None }
    requires early { 1 ≤ target.size → target.offset ≤ target.size }
    requires fits { target.size ≤ room_at layer.p (layer.height + 1) }
    requires small { target.size < 2 ^ 63 }
    requires low { target.size ≡ 0 → layer.height ≡ 0 }
    requires within { LiesWithin target.size target.offset piece.now }
    ensures some { IfOk result (λ parts. 1 ≤ length parts) }
    ensures few { IfOk result (λ parts. length parts ≤ 1024) }
    ensures size { IfOk result (λ parts. sum_by (λ m. m.size) parts ≡ target.size) }
    ensures gives { MakesNewParts S.X.block32 layer target piece.now (S.seen store.old) (S.seen store.new) result }
    ensures saves { SavesAmongOld S.X.block32 layer.p layer.rows (min layer.top layer.height) [] (S.seen store.old)
        (S.seen store.new) result }
    ensures no_other { SavesAmong S.X.block32 (blocks_changed S.X.block32 layer target [] piece.now)
        (S.seen store.old).told (S.seen store.new).told }
    ensures rises { Climbs result touches.old touches.new }
    ensures touches { CostsNewParts layer target piece.now touches.old touches.new }
{
    if target.size == 0 {
        let leaf = change_leaf(alloc, store, None, 0, 0, &[], touches)?;
        return Ok(just(alloc, leaf)?);
    }
    let zeros = save_zeros(alloc, store, layer.p.chunk, 0, target.offset, touches)?;
    let filled = Layer {
        p: layer.p,
        rows: layer.rows,
        top: layer.top,
        height: layer.height,
        zeros,
    };
    change_parts(alloc, store, filled, target, &[], piece, touches)
}
