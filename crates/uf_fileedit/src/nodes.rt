//! Old nodes of a file below its root.
ghost use Rattle.std.specs.Prelude.{◌≡◌, ◌↔◌, ◌+◌, ◌≤◌, [], ◌∷◌, length, min, IfOk, IsTrue, Some};
ghost use Rattle.uf_fileread.specs.Parts.{parts_block};
ghost use Rattle.uf_tree.specs.Codecs.{Reads};
ghost use Rattle.uf_tree.specs.Metas.{none};
ghost use Rattle.uf_tree.specs.Profiles.{is_profile};
ghost use Rattle.uf_fileedit.specs.Planned.{IsPlannedNode, are_planned as planned_of};
ghost use Rattle.uf_fileedit.specs.Touches.{Climbs};
ghost use Rattle.uf_fileedit.specs.Layers.{AreBelowOld, FindsBelow, FindsNode, ReadsIn, ReadsOld, StandsFrom};
ghost use Rattle.uf_fileedit.specs.Layers.{room_at};

use crate::layout::{Layer, are_planned};
use std::alloc::Global;
use std::sync::ledger::Ledger;
use uf_cid::{Memory, StrictFault};
use uf_fileread::{NodeParts, read_parts};
use uf_store::{Role, Steps, Store, StoreFault, need};
use uf_tree::{Meta, Part, Parts, Profile};

// How many nodes of a file may stand one above the other.
const MOST_ROWS: u8 = 22;

// Loads the parts, each of this height, of a node of a file of n rows of nodes. One touch.
pub fn load_parts<S: Store, L: Ledger>(
    alloc: Global,
    store: &mut S,
    p: &Profile,
    rows: u8,
    height: u8,
    part: &Part,
    touches: &mut Steps<L>,
) -> Result<Parts, StoreFault>
    requires profile { IsTrue (is_profile p.now) }
    ensures some { IfOk result (λ parts. 1 ≤ length parts) }
    ensures planned { IfOk result (λ parts. IsTrue (planned_of (room_at p.now height) height part.now.size parts)) }
    ensures gives { FindsNode S.X.block32 p.now rows height part.now (S.seen store.old) (S.seen store.new) result }
    ensures stand { StandsFrom S.X.block32 p.now rows (height + 1) (Some part.now) height (S.seen store.old) result }
    ensures reads { ReadsOld S.X.block32 p.now rows (height + 1) (Some part.now) (S.seen store.old) (S.seen store.new)
        result }
    ensures touches { touches.new ≡ touches.old + 1 }
{
    let cid = part.entry.cid;
    need(store, &cid, touches)?;
    match read_planned(alloc, store.block(), p, rows, height, part.size) {
        Ok(node) => Ok(node.parts),
        Err(StrictFault::NotCanonical) => Err(StoreFault::BadBlock(cid, Role::FileNode)),
        Err(StrictFault::Memory) => Err(StoreFault::Memory),
    }
}

// The parts, each of this height, of a node over n bytes, in a file of this many rows of nodes.
fn read_planned(
    alloc: Global,
    bytes: &[u8],
    p: &Profile,
    rows: u8,
    height: u8,
    size: u64,
) -> Result<NodeParts, StrictFault>
    requires profile { IsTrue (is_profile p.now) }
    ensures { Reads (IsPlannedNode p.now rows height size) parts_block bytes.now result }
{
    let node = read_parts(alloc, bytes)?;
    if !has_none(&node.meta) {
        return Err(StrictFault::NotCanonical);
    }
    let above = rows.saturating_sub(height);
    if above <= MOST_ROWS && are_planned(p, height, size, node.parts.as_slice()) {
        Ok(node)
    } else {
        Err(StrictFault::NotCanonical)
    }
}

// Whether a node carries no metadata.
fn has_none(meta: &Meta) -> bool
    ensures { IsTrue result ↔ meta.now ≡ none }
{
    *meta == Meta::none()
}

// The parts of a layer below an old part, or none where there is no old part. A part that is no higher itself is the
// only one. At most one touch.
pub fn parts_below<S: Store, L: Ledger>(
    alloc: Global,
    store: &mut S,
    layer: Layer,
    old: Option<Part>,
    touches: &mut Steps<L>,
) -> Result<Parts, StoreFault>
    requires profile { IsTrue (is_profile layer.p) }
    ensures gives { FindsBelow S.X.block32 layer old (S.seen store.old) (S.seen store.new) result }
    ensures stand { StandsFrom S.X.block32 layer.p layer.rows (min layer.top (layer.height + 1)) old
        (min layer.top layer.height) (S.seen store.old) result }
    ensures reads { ReadsIn S.X.block32 layer (layer.height + 1) old (S.seen store.old) (S.seen store.new) result }
    ensures below { AreBelowOld layer old result }
    ensures rises { Climbs result touches.old touches.new }
    ensures touches { touches.new ≤ touches.old + 1 }
{
    match old {
        None => Ok(Parts::new(alloc)),
        Some(part) => {
            if layer.height < layer.top {
                load_parts(
                    alloc,
                    store,
                    &layer.p,
                    layer.rows,
                    layer.height,
                    &part,
                    touches,
                )
            } else {
                Ok(just(alloc, part)?)
            }
        }
    }
}

// A list of one part.
pub fn just(alloc: Global, part: Part) -> Result<Parts, Memory>
    ensures { IfOk result (λ parts. parts ≡ part ∷ []) }
{
    let mut parts = Parts::new(alloc);
    parts.push(part)?;
    Ok(parts)
}
