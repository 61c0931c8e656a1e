//! The parts below the root of a changed file, made of those below the old root.
ghost use Rattle.std.specs.Prelude.{◌≡◌, ◌+◌, ◌-◌, ◌*◌, ◌<◌, ◌≤◌, ◌^◌, [], ◌∷◌, length, min, IfOk, IsTrue, Some};
ghost use Rattle.std.specs.List.{sum_by};
ghost use Rattle.uf_tree.specs.Profiles.{is_profile};
ghost use Rattle.uf_fileedit.specs.Changes.{HasSize, LiesWithin};
ghost use Rattle.uf_fileedit.specs.Ways.{StandAmong};
ghost use Rattle.uf_fileedit.specs.Layers.{AreNoMore, CostsGrown, CostsRemade, FindsFirst, ReadsAmong, RemakesGrown};
ghost use Rattle.uf_fileedit.specs.Layers.{RemakesRoot, SavesAmongOld, StandBelowFirst, room_at};
ghost use Rattle.uf_fileedit.specs.Saving.{SavesOfGrown, SavesOfRoot};
ghost use Rattle.uf_fileedit.specs.Touches.{old_size};

use crate::changing::{PartEdit, change_parts, front_of};
use crate::layout::{Layer, span_of};
use crate::leaves::{change_leaf, save_zeros};
use crate::nodes::{just, load_parts};
use std::alloc::Global;
use std::sync::ledger::Ledger;
use uf_build::save_node;
use uf_cid::Memory;
use uf_store::{Steps, Store, StoreFault};
use uf_tree::{Part, Parts};

// The parts of a layer, which stand below the root of a changed file, made of those below the old root, which has
// `layer.top` rows of nodes with the root.
pub fn remade<S: Store, L: Ledger>(
    alloc: Global,
    store: &mut S,
    layer: Layer,
    target: PartEdit,
    olds: Parts,
    piece: &[u8],
    touches: &mut Steps<L>,
) -> Result<Parts, StoreFault>
    requires profile { IsTrue (is_profile layer.p) }
    requires rows { 1 ≤ layer.top }
    requires olds { 1 ≤ length olds }
    requires fits { target.size ≤ room_at layer.p (layer.height + 1) }
    requires small { target.size < 2 ^ 63 }
    requires low { target.size ≡ 0 → layer.height ≡ 0 }
    requires more { layer.top ≤ layer.height → room_at layer.p layer.height < target.size }
    requires within { LiesWithin target.size target.offset piece.now }
    ensures some { IfOk result (λ parts. 1 ≤ length parts) }
    ensures few { IfOk result (λ parts. length parts ≤ 1024) }
    ensures size { IfOk result (λ parts. sum_by (λ m. m.size) parts ≡ target.size) }
    ensures gives { RemakesRoot S.X.block32 layer olds target piece.now (S.seen store.old) (S.seen store.new) result }
    ensures saves { SavesAmongOld S.X.block32 layer.p layer.rows (layer.top - 1) olds (S.seen store.old)
        (S.seen store.new) result }
    ensures no_other { SavesOfRoot S.X.block32 layer olds target piece.now (S.seen store.old) (S.seen store.new) }
    ensures rises { touches.old ≤ touches.new }
    ensures touches { CostsRemade layer target olds piece.now touches.old touches.new }
{
    if target.size == 0 {
        let leaf = change_leaf(alloc, store, None, 0, 0, &[], touches)?;
        return Ok(just(alloc, leaf)?);
    }
    let fronts = front_parts(alloc, store, layer, olds, touches)?;
    let end = gap_end(target, piece);
    let zeros = save_zeros(alloc, store, layer.p.chunk, gap_start(target), end, touches)?;
    let filled = Layer {
        p: layer.p,
        rows: layer.rows,
        top: layer.top,
        height: layer.height,
        zeros,
    };
    grown(
        alloc,
        store,
        filled,
        target,
        fronts.as_slice(),
        piece,
        touches,
    )
}

// Where zeros begin that fill a file: at the end of the old bytes.
fn gap_start(target: PartEdit) -> u64
    ensures { result ≡ min (old_size target.old) target.size }
{
    match target.old {
        Some(part) => part.size.min(target.size),
        None => 0,
    }
}

// Where zeros end that fill a file: before a piece, or at its end.
fn gap_end(target: PartEdit, piece: &[u8]) -> u64
    ensures filled { length piece.now ≡ 0 → result ≡ target.size }
    ensures laid { 1 ≤ length piece.now → result ≡ target.offset }
{
    if piece.is_empty() {
        target.size
    } else {
        target.offset
    }
}

// The old parts that are to be changed: those below the old root, or where the new file is lower, those of the height
// of the new ones below the first of them. At most one touch for each height between.
fn front_parts<S: Store, L: Ledger>(
    alloc: Global,
    store: &mut S,
    layer: Layer,
    olds: Parts,
    touches: &mut Steps<L>,
) -> Result<Parts, StoreFault>
    requires profile { IsTrue (is_profile layer.p) }
    requires olds { 1 ≤ length olds }
    ensures gives { FindsFirst S.X.block32 layer olds (S.seen store.old) (S.seen store.new) result }
    ensures stand { IfOk result (StandAmong S.X.block32 layer.p (S.seen store.old).told layer.rows (layer.top - 1) olds
        (min (layer.top - 1) layer.height)) }
    ensures reads { ReadsAmong S.X.block32 layer.p layer.rows (layer.top - 1) olds (S.seen store.old)
        (S.seen store.new) result }
    ensures below { StandBelowFirst layer olds result }
    ensures rises { touches.old ≤ touches.new }
    ensures touches { touches.new ≤ touches.old + (layer.top - 1 - layer.height) }
{
    if layer.height >= layer.top.saturating_sub(1) {
        return Ok(olds);
    }
    let first = olds.as_slice()[0];
    let upper = Layer {
        p: layer.p,
        rows: layer.rows,
        top: layer.top - 1,
        height: layer.height + 1,
        zeros: None,
    };
    let front = front_of(alloc, store, upper, first, touches)?;
    load_parts(
        alloc,
        store,
        &layer.p,
        layer.rows,
        layer.height,
        &front,
        touches,
    )
}

// The parts of a layer that is no lower than the old parts. Where it is higher, the first of them stands over those of
// the layer below it, and the others are new.
fn grown<S: Store, L: Ledger>(
    alloc: Global,
    store: &mut S,
    layer: Layer,
    target: PartEdit,
    olds: &[Part],
    piece: &[u8],
    touches: &mut Steps<L>,
) -> Result<Parts, StoreFault>
    requires profile { IsTrue (is_profile layer.p) }
    requires rows { 1 ≤ layer.top }
    requires size { HasSize layer.p (layer.height + 1) target.size }
    requires more { layer.top ≤ layer.height → room_at layer.p layer.height < target.size }
    requires within { LiesWithin target.size target.offset piece.now }
    ensures some { IfOk result (λ parts. 1 ≤ length parts) }
    ensures room { IfOk result (AreNoMore layer.p layer.height target.size) }
    ensures size { IfOk result (λ parts. sum_by (λ m. m.size) parts ≡ target.size) }
    ensures gives { RemakesGrown S.X.block32 layer olds.now target piece.now (S.seen store.old) (S.seen store.new)
        result }
    ensures saves { SavesAmongOld S.X.block32 layer.p layer.rows (min (layer.top - 1) layer.height) olds.now
        (S.seen store.old) (S.seen store.new) result }
    ensures no_other { SavesOfGrown S.X.block32 layer olds.now target piece.now (S.seen store.old)
        (S.seen store.new) }
    ensures rises { touches.old ≤ touches.new }
    ensures touches { CostsGrown layer target olds.now piece.now touches.old touches.new }
{
    if layer.height < layer.top {
        return change_parts(alloc, store, layer, target, olds, piece, touches);
    }
    let below = Layer {
        p: layer.p,
        rows: layer.rows,
        top: layer.top,
        height: layer.height - 1,
        zeros: layer.zeros,
    };
    let count = span_of(&layer.p, layer.height);
    let cut = (piece.len() as u64).min(count.saturating_sub(target.offset)) as usize;
    let one = PartEdit {
        old: target.old,
        size: count,
        offset: target.offset,
    };
    let firsts = grown(alloc, store, below, one, olds, &piece[..cut], touches)?;
    let first = save_node(alloc, store, firsts.as_slice(), touches)?;
    let others = PartEdit {
        old: None,
        size: target.size - count,
        offset: target.offset.saturating_sub(count),
    };
    let news = change_parts(alloc, store, layer, others, &[], &piece[cut..], touches)?;
    Ok(behind(alloc, first, news.as_slice())?)
}

// A part, and others after it.
fn behind(alloc: Global, first: Part, rest: &[Part]) -> Result<Parts, Memory>
    ensures { IfOk result (λ parts. parts ≡ first ∷ rest.now) }
{
    let mut parts = just(alloc, first)?;
    for part in rest {
        parts.push(*part)?;
    }
    Ok(parts)
}
