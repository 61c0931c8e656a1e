//! The root of a file, and what stands below it.
ghost use Rattle.std.specs.Prelude.{◌≡◌, ◌↔◌, ◌+◌, ◌<◌, ◌≤◌, ◌^◌, ◌&&◌, length, sum, IfOk, IsTrue, OnErr, OnOk};
ghost use Rattle.std.specs.List.{sum_by};
ghost use Rattle.uf_cid.specs.declared.cid.Codec.TheVariants.{DagPb};
ghost use Rattle.uf_fileread.specs.Bad.{IsBadRoot};
ghost use Rattle.uf_store.specs.Among.{SavesAmong};
ghost use Rattle.uf_store.specs.Faults.{Answers};
ghost use Rattle.uf_store.specs.Keeping.{Holds};
ghost use Rattle.uf_tree.specs.FilePlan.{top_held, top_part};
ghost use Rattle.uf_tree.specs.FileSub.{span};
ghost use Rattle.uf_tree.specs.Metas.{is_meta};
ghost use Rattle.uf_tree.specs.Profiles.{is_profile};
ghost use Rattle.uf_fileedit.specs.Planned.{IsLaidOut, are_planned as planned_of, bytes_over};
ghost use Rattle.uf_fileedit.specs.Planned.{is_of_height as height_of_codec, leaf_alone, role_at, single_root};
ghost use Rattle.uf_fileedit.specs.Roots.{IsBase, SaysRoot, whole_leaf};
ghost use Rattle.uf_fileedit.specs.Ways.{StandUnderRoot};
ghost use Rattle.uf_fileedit.specs.Files.{FindsRoot, FindsSomeRoot, ReadsInFile};
ghost use Rattle.uf_fileedit.specs.Layers.{SavesBlocks};

use crate::layout::{are_planned, height_of, is_of_height};
use std::alloc::Global;
use std::sync::ledger::Ledger;
use uf_build::save_root;
use uf_cid::{Cid, Codec, Memory, StrictFault};
use uf_fileread::{NodeParts, read_parts};
use uf_store::{Role, Steps, Store, StoreFault, need};
use uf_tree::{Entry, Meta, Part, Parts, Profile};

// The parts below the root of a file of this profile, and its metadata; a raw block is its own only part. One touch.
pub fn root_of<S: Store, L: Ledger>(
    alloc: Global,
    store: &mut S,
    p: &Profile,
    entry: &Entry,
    touches: &mut Steps<L>,
) -> Result<NodeParts, StoreFault>
    requires profile { IsTrue (is_profile p.now) }
    ensures base { IfOk result IsBase }
    ensures good { IfOk result (λ root. IsTrue (is_meta root.meta)) }
    ensures laid { IfOk result (IsLaidOut p.now entry.now.cid.codec) }
    ensures gives { FindsRoot S.X.block32 p.now entry.now (S.seen store.old) (S.seen store.new) result }
    ensures stand { IfOk result (StandUnderRoot S.X.block32 p.now (S.seen store.old).told entry.now.cid) }
    ensures reads { ReadsInFile S.X.block32 p.now entry.now.cid (S.seen store.old) (S.seen store.new) result }
    ensures touches { touches.new ≡ touches.old + 1 }
{
    let cid = entry.cid;
    need(store, &cid, touches)?;
    let root = root_in(alloc, &cid, store.block())?;
    if is_laid_out(p, cid.codec, &root) {
        Ok(root)
    } else {
        Err(StoreFault::BadBlock(cid, role_of(cid.codec)))
    }
}

// Whether parts are those below the root of a file, as the layout has them.
fn is_laid_out(p: &Profile, codec: Codec, root: &NodeParts) -> bool
    requires profile { IsTrue (is_profile p.now) }
    requires base { IsBase root.now }
    ensures { IsTrue result ↔ IsLaidOut p.now codec root.now }
{
    let parts = root.parts.as_slice();
    let size = size_over(parts);
    if size <= u64::from(p.chunk) {
        return is_single_root(codec, &root.meta, parts);
    }
    let below = height_of(p, size).saturating_sub(1);
    is_many_root(p, codec, below, size, parts)
}

// Whether a piece stands alone: as the raw block that is the root, or as the only leaf under a node with metadata.
fn is_single_root(codec: Codec, meta: &Meta, parts: &[Part]) -> bool
    ensures { result ≡ single_root codec meta.now parts.now }
{
    match codec {
        Codec::Raw => is_leaf_alone(parts),
        Codec::DagPb => {
            let is_bare = meta.is_bare();
            if is_bare {
                return false;
            }
            is_leaf_alone(parts)
        }
    }
}

// Whether there is one part, a leaf.
fn is_leaf_alone(parts: &[Part]) -> bool
    ensures { result ≡ leaf_alone parts.now }
{
    if parts.len() != 1 {
        return false;
    }
    is_of_height(0, parts[0].entry.cid.codec)
}

// Whether parts of this height stand under a node as the layout has them.
fn is_many_root(p: &Profile, codec: Codec, below: u8, size: u64, parts: &[Part]) -> bool
    requires { IsTrue (is_profile p.now) }
    ensures { result ≡ (height_of_codec 1 codec && planned_of (span p.now.chunk p.now.width below) below size
        parts.now) }
{
    if !is_of_height(1, codec) {
        return false;
    }
    are_planned(p, below, size, parts)
}

// How many bytes are below these parts.
pub fn size_over(parts: &[Part]) -> u64
    requires { bytes_over parts.now < 2 ^ 63 }
    ensures { result ≡ bytes_over parts.now }
{
    parts.iter().map(|part| part.size).sum()
}

// What a block of this codec is in a file.
fn role_of(codec: Codec) -> Role
    ensures { result ≡ role_at codec }
{
    match codec {
        Codec::Raw => Role::Leaf,
        Codec::DagPb => Role::FileNode,
    }
}

// The same of a file of whatever profile. One touch.
pub fn load_root<S: Store, L: Ledger>(
    alloc: Global,
    store: &mut S,
    entry: &Entry,
    touches: &mut Steps<L>,
) -> Result<NodeParts, StoreFault>
    ensures base { IfOk result IsBase }
    ensures gives { FindsSomeRoot S.X.block32 entry.now (S.seen store.old) (S.seen store.new) result }
    ensures cause { Answers S.X.block32 IsBadRoot result (S.seen store.old) (S.seen store.new) }
    ensures told { (S.seen store.new).told ≡ (S.seen store.old).told }
    ensures touches { touches.new ≡ touches.old + 1 }
{
    need(store, &entry.cid, touches)?;
    root_in(alloc, &entry.cid, store.block())
}

// What a root block has below it.
fn root_in(alloc: Global, cid: &Cid, block: &[u8]) -> Result<NodeParts, StoreFault>
    requires { length block.now ≤ 2097152 }
    ensures says { SaysRoot cid.now block.now result }
    ensures base { IfOk result IsBase }
{
    match cid.codec {
        Codec::Raw => Ok(leaf_in(alloc, cid, block)?),
        Codec::DagPb => node_in(alloc, cid, block),
    }
}

// A raw block as the only part of its file, without metadata.
fn leaf_in(alloc: Global, cid: &Cid, block: &[u8]) -> Result<NodeParts, Memory>
    ensures { IfOk result (λ root. root ≡ whole_leaf cid.now block.now) }
{
    let size = block.len() as u64;
    let mut parts = Parts::new(alloc);
    parts.push(Part {
        entry: Entry {
            cid: *cid,
            tsize: size,
        },
        size,
    })?;
    Ok(NodeParts {
        parts,
        meta: Meta::none(),
    })
}

// What a node at the root of a file links.
fn node_in(alloc: Global, cid: &Cid, block: &[u8]) -> Result<NodeParts, StoreFault>
    ensures says { cid.now.codec ≡ DagPb → SaysRoot cid.now block.now result }
    ensures base { IfOk result IsBase }
{
    match read_parts(alloc, block) {
        Ok(node) => Ok(node),
        Err(StrictFault::NotCanonical) => Err(StoreFault::BadBlock(*cid, Role::FileNode)),
        Err(StrictFault::Memory) => Err(StoreFault::Memory),
    }
}

// Saves what stands over the parts below a file's root: the root with this metadata, or nothing where it is a single
// piece without metadata. At most one touch.
pub fn save_over<S: Store, L: Ledger>(
    alloc: Global,
    store: &mut S,
    parts: &[Part],
    meta: &Meta,
    touches: &mut Steps<L>,
) -> Result<Part, StoreFault>
    requires some { 1 ≤ length parts.now }
    requires few { length parts.now ≤ 1024 }
    requires size { sum_by (λ m. m.size) parts.now < 2 ^ 63 }
    requires good { IsTrue (is_meta meta.now) }
    ensures part { IfOk result (λ part. part ≡ top_part S.X.block32 meta.now parts.now) }
    ensures held { OnOk result (Holds (S.seen store.new).told (top_held S.X.block32 meta.now parts.now)) }
    ensures err { OnErr result ((S.seen store.new).told ≡ (S.seen store.old).told) }
    ensures saves { SavesBlocks S.X.block32 (S.seen store.old) (S.seen store.new) result }
    ensures no_other { SavesAmong S.X.block32 (top_held S.X.block32 meta.now parts.now) (S.seen store.old).told
        (S.seen store.new).told }
    ensures touches { touches.new ≤ touches.old + 1 }
    ensures rises { touches.old ≤ touches.new }
{
    if parts.len() > 1 {
        return save_root(alloc, store, parts, meta, touches);
    }
    if meta.is_bare() {
        return Ok(parts[0]);
    }
    save_root(alloc, store, parts, meta, touches)
}
