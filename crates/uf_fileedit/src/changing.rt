//! Parts of a file changed, from the root down.
ghost use Rattle.std.specs.Prelude.{◌≡◌, ◌⊎◌, ◌+◌, ◌-◌, ◌*◌, ◌<◌, ◌≤◌, length, min, slice_get, IfNone, IfOk, IfSome};
ghost use Rattle.std.specs.Prelude.{IsTrue, None, Some};
ghost use Rattle.std.specs.List.{sum_by};
ghost use Rattle.uf_tree.specs.Profiles.{is_profile};
ghost use Rattle.uf_fileedit.specs.Changes.{HasSize, LiesWithin};
ghost use Rattle.uf_fileedit.specs.Touches.{Climbs, IsLeft};
ghost use Rattle.uf_fileedit.specs.Layers.{AreNoMore, CostsChange, CostsParts, FindsFront, OfChange, ReadsOld};
ghost use Rattle.uf_fileedit.specs.Layers.{RemakesBeside, RemakesPart, RemakesParts, SavesAmongOld, SavesIn};
ghost use Rattle.uf_fileedit.specs.Layers.{StandsIn, room_at};
ghost use Rattle.uf_fileedit.specs.Saving.{SavesOfPart, SavesOfParts};

use crate::layout::{Layer, span_of};
use crate::leaves::change_leaf;
use crate::nodes::{load_parts, parts_below};
use std::alloc::Global;
use std::sync::ledger::Ledger;
use uf_build::save_node;
use uf_store::{Steps, Store, StoreFault};
use uf_tree::{Part, Parts, Profile};

// What is made of an old part, where there is one: n bytes, and a piece is laid over them from a place on.
#[derive(Clone, Copy)]
pub struct PartEdit {
    pub old: Option<Part>,
    pub size: u64,
    pub offset: u64,
}

// The first part of a height of a file whose root has a greater one, or the root. At most one touch for each height
// between.
pub fn front_of<S: Store, L: Ledger>(
    alloc: Global,
    store: &mut S,
    layer: Layer,
    root: Part,
    touches: &mut Steps<L>,
) -> Result<Part, StoreFault>
    requires profile { IsTrue (is_profile layer.p) }
    ensures gives { FindsFront S.X.block32 layer root (S.seen store.old) (S.seen store.new) result }
    ensures stand { StandsIn S.X.block32 layer layer.top (Some root) (S.seen store.old) result }
    ensures reads { ReadsOld S.X.block32 layer.p layer.rows layer.top (Some root) (S.seen store.old) (S.seen store.new)
        result }
    ensures size { root.size ≤ room_at layer.p layer.top → IfOk result (λ m. m.size ≡ min root.size
        (room_at layer.p (min layer.top layer.height))) }
    ensures rises { touches.old ≤ touches.new }
    ensures touches { touches.new ≤ touches.old + (layer.top - layer.height) }
{
    if layer.top <= layer.height {
        return Ok(root);
    }
    let below = Layer {
        p: layer.p,
        rows: layer.rows,
        top: layer.top - 1,
        height: layer.height,
        zeros: None,
    };
    let parts = load_parts(
        alloc, store, &layer.p, layer.rows, below.top, &root, touches,
    )?;
    let first = parts.as_slice()[0];
    front_of(alloc, store, below, first, touches)
}

// Saves a part of a layer: the bytes of the old part, where there is one, cut or filled with zeros, with a piece laid
// over them. Where that is the old part it is left alone. At most two touches for each row and each chunk that is
// changed.
#[cycle(changes)]
pub fn change<S: Store, L: Ledger>(
    alloc: Global,
    store: &mut S,
    layer: Layer,
    target: PartEdit,
    piece: &[u8],
    touches: &mut Steps<L>,
) -> Result<Part, StoreFault>
    requires profile { IsTrue (is_profile layer.p) }
    requires size { HasSize layer.p layer.height target.size }
    requires within { LiesWithin target.size target.offset piece.now }
    ensures size { IfOk result (λ m. m.size ≡ target.size) }
    ensures gives { RemakesPart S.X.block32 layer layer.height target piece.now (S.seen store.old) (S.seen store.new)
        result }
    ensures left { IsLeft layer.top layer.height target.size target.old → length piece.now ≡ 0
        → (S.seen store.new).told ≡ (S.seen store.old).told }
    ensures saves { SavesIn S.X.block32 layer layer.height target.old (S.seen store.old) (S.seen store.new) result }
    ensures no_other { SavesOfPart S.X.block32 layer layer.height target piece.now (S.seen store.old)
        (S.seen store.new) }
    ensures rises { Climbs result touches.old touches.new }
    ensures touches { CostsChange layer layer.height target piece.now touches.old touches.new }
{
    if let Some(part) = same_part(layer, target, piece) {
        return Ok(part);
    }
    if layer.height == 0 {
        let size = target.size;
        let at = target.offset.min(size) as usize;
        return change_leaf(alloc, store, target.old, size as usize, at, piece, touches);
    }
    let below = Layer {
        p: layer.p,
        rows: layer.rows,
        top: layer.top,
        height: layer.height - 1,
        zeros: layer.zeros,
    };
    change_node(alloc, store, below, target, piece, touches)
}

// The old part, where it has this size already, stands as high as it has to, and nothing is written.
fn same_part(layer: Layer, target: PartEdit, piece: &[u8]) -> Option<Part>
    ensures old { IfSome result (λ part. target.old ≡ Some part) }
    ensures left { IfSome result (λ part. (layer.height ≤ layer.top) × (part.size ≡ target.size)
        × (length piece.now ≡ 0)) }
    ensures changed { IfNone result ((IsLeft layer.top layer.height target.size target.old → ⊥)
        ⊎ (1 ≤ length piece.now)) }
{
    match target.old {
        Some(part) if layer.height <= layer.top && part.size == target.size && piece.len() == 0 => {
            Some(part)
        }
        _ => None,
    }
}

// Saves a node over parts of a layer.
#[cycle(changes)]
fn change_node<S: Store, L: Ledger>(
    alloc: Global,
    store: &mut S,
    layer: Layer,
    target: PartEdit,
    piece: &[u8],
    touches: &mut Steps<L>,
) -> Result<Part, StoreFault>
    requires profile { IsTrue (is_profile layer.p) }
    requires size { HasSize layer.p (layer.height + 1) target.size }
    requires within { LiesWithin target.size target.offset piece.now }
    ensures size { IfOk result (λ m. m.size ≡ target.size) }
    ensures gives { RemakesPart S.X.block32 layer (layer.height + 1) target piece.now (S.seen store.old)
        (S.seen store.new) result }
    ensures saves { SavesIn S.X.block32 layer (layer.height + 1) target.old (S.seen store.old) (S.seen store.new)
        result }
    ensures no_other { SavesOfPart S.X.block32 layer (layer.height + 1) target piece.now (S.seen store.old)
        (S.seen store.new) }
    ensures rises { Climbs result touches.old touches.new }
    ensures touches { OfChange layer (layer.height + 1) target piece.now (λ a z. a < z
        → touches.new ≤ touches.old + 2 * (layer.height + 1 + 1) * (z - a)) }
{
    let olds = parts_below(alloc, store, layer, target.old, touches)?;
    let news = change_parts(alloc, store, layer, target, olds.as_slice(), piece, touches)?;
    save_node(alloc, store, news.as_slice(), touches)
}

// The parts of a layer below a node. Whole parts of zeros are made once, and a piece of zeros that is saved isn't
// saved again.
#[cycle(changes)]
pub fn change_parts<S: Store, L: Ledger>(
    alloc: Global,
    store: &mut S,
    layer: Layer,
    target: PartEdit,
    olds: &[Part],
    piece: &[u8],
    touches: &mut Steps<L>,
) -> Result<Parts, StoreFault>
    requires profile { IsTrue (is_profile layer.p) }
    requires size { HasSize layer.p (layer.height + 1) target.size }
    requires within { LiesWithin target.size target.offset piece.now }
    ensures some { IfOk result (λ parts. 1 ≤ length parts) }
    ensures few { IfOk result (λ parts. length parts ≤ 1024) }
    ensures room { IfOk result (AreNoMore layer.p layer.height target.size) }
    ensures size { IfOk result (λ parts. sum_by (λ m. m.size) parts ≡ target.size) }
    ensures gives { RemakesParts S.X.block32 layer olds.now target piece.now (S.seen store.old) (S.seen store.new)
        result }
    ensures saves { SavesAmongOld S.X.block32 layer.p layer.rows (min layer.top layer.height) olds.now
        (S.seen store.old) (S.seen store.new) result }
    ensures no_other { SavesOfParts S.X.block32 layer olds.now target piece.now (S.seen store.old)
        (S.seen store.new) }
    ensures rises { Climbs result touches.old touches.new }
    ensures touches { CostsParts layer target olds.now piece.now touches.old touches.new }
{
    let most = span_of(&layer.p, layer.height);
    let mut news = Parts::new(alloc);
    let mut blank = first_blank(layer);
    let mut left = target.size;
    let mut place = target.offset;
    let mut rest = piece;
    let mut at = 0;
    'parts: while left > 0 {
        let count = left.min(most);
        let cut = (rest.len() as u64).min(count.saturating_sub(place)) as usize;
        let old = part_at(olds, at);
        let one = PartEdit {
            old,
            size: count,
            offset: place,
        };
        let part = change_one(alloc, store, layer, one, blank, &rest[..cut], touches)?;
        news.push(part)?;
        blank = blank_of(blank, old, part, cut, most);
        rest = &rest[cut..];
        place = place.saturating_sub(count);
        left -= count;
        at += 1;
    }
    Ok(news)
}

// The same part again where a whole part of zeros was made before and is wanted, else the changed part.
#[cycle(changes)]
fn change_one<S: Store, L: Ledger>(
    alloc: Global,
    store: &mut S,
    layer: Layer,
    target: PartEdit,
    blank: Option<Part>,
    piece: &[u8],
    touches: &mut Steps<L>,
) -> Result<Part, StoreFault>
    requires profile { IsTrue (is_profile layer.p) }
    requires size { HasSize layer.p layer.height target.size }
    requires within { LiesWithin target.size target.offset piece.now }
    ensures size { IfOk result (λ m. m.size ≡ target.size) }
    ensures gives { RemakesBeside S.X.block32 layer blank target piece.now (S.seen store.old) (S.seen store.new)
        result }
    ensures saves { SavesIn S.X.block32 layer layer.height target.old (S.seen store.old) (S.seen store.new) result }
    ensures no_other { SavesOfPart S.X.block32 layer layer.height target piece.now (S.seen store.old)
        (S.seen store.new) }
    ensures rises { Climbs result touches.old touches.new }
    ensures touches { CostsChange layer layer.height target piece.now touches.old touches.new }
{
    match blank {
        Some(part) if is_nothing(target.old, piece) && part.size == target.size => Ok(part),
        _ => change(alloc, store, layer, target, piece, touches),
    }
}

// Whether there is neither an old part nor anything to write.
fn is_nothing(old: Option<Part>, piece: &[u8]) -> bool
    ensures old { IsTrue result → old ≡ None }
    ensures piece { IsTrue result → length piece.now ≡ 0 }
{
    match old {
        None => piece.len() == 0,
        Some(_) => false,
    }
}

// The part at a place, where there is one.
fn part_at(parts: &[Part], at: usize) -> Option<Part>
    ensures { result ≡ slice_get parts.now at }
{
    parts.get(at).copied()
}

// The whole part of zeros that is known from the start.
fn first_blank(layer: Layer) -> Option<Part>
    ensures { (result ≡ None) ⊎ ((layer.height ≡ 0) × (result ≡ layer.zeros)) }
{
    if layer.height == 0 { layer.zeros } else { None }
}

// The whole part of zeros that is known after one more part.
fn blank_of(
    blank: Option<Part>,
    old: Option<Part>,
    part: Part,
    cut: usize,
    most: u64,
) -> Option<Part>
    ensures { (result ≡ blank) ⊎ ((result ≡ Some part) × (old ≡ None) × (cut ≡ 0)) }
{
    if old.is_none() && cut == 0 && part.size == most {
        Some(part)
    } else {
        blank
    }
}
