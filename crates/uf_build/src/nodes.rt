//! The node over a group of parts.
ghost use Rattle.std.specs.Prelude.{◌≡◌, ◌+◌, ◌<◌, ◌≤◌, ◌^◌, ◌∷◌, [], length, IfOk, IsTrue, OnOk, IfErr, OnErr};
ghost use Rattle.std.specs.List.{AllByRecursion, sum_by};
ghost use Rattle.uf_store.specs.Calls.{LoadsNothing};
ghost use Rattle.uf_store.specs.Clashes.{IsSaving};
ghost use Rattle.uf_store.specs.Faults.{Answers, NoneIsBad, fault_in};
ghost use Rattle.uf_store.specs.Seen.{KeepsHeld};
ghost use Rattle.uf_store.specs.Keeping.{Holds, KeepsGood};
ghost use Rattle.uf_store.specs.Writing.{SavesOnly};
ghost use Rattle.uf_store.specs.Among.{SavesAmong};
ghost use Rattle.uf_tree.specs.FilePlan.{node_part, node_held, root_node, root_part, root_held, top_part, top_held};
ghost use Rattle.uf_build.specs.Answers.{OnlyBuilds};
ghost use Rattle.uf_tree.specs.Metas.{is_meta};
ghost use Rattle.uf_tree.specs.Nodes.{capped, file_block, link_of};
ghost use Rattle.uf_tree.specs.Validity.{IsPartLink};

use std::alloc::Global;
use std::sync::ledger::Ledger;
use uf_cid::{Block, Cid, Codec, Memory, Seq, Text, cids_are_whole};
use uf_dagpb::Link;
use uf_store::{Steps, Store, StoreFault, save_under};
use uf_tree::{Entry, FileNode, Meta, Part, file_node};

/// Saves the node over a group of parts, and answers it as a part of the row above. At most one touch.
pub fn save_node<S: Store, L: Ledger>(
    alloc: Global,
    store: &mut S,
    parts: &[Part],
    touches: &mut Steps<L>,
) -> Result<Part, StoreFault>
    requires some { 1 ≤ length parts.now }
    requires few { length parts.now ≤ 1024 }
    requires size { sum_by (λ m. m.size) parts.now < 2 ^ 63 }
    ensures part { IfOk result (λ part. part ≡ node_part S.X.block32 parts.now) }
    ensures kept { OnOk result (KeepsHeld S.X.block32 (node_held S.X.block32 parts.now) (S.seen store.old)
        (S.seen store.new)) }
    ensures held { OnOk result (Holds (S.seen store.new).told (node_held S.X.block32 parts.now ∷ [])) }
    ensures cause { Answers S.X.block32 NoneIsBad result (S.seen store.old) (S.seen store.new) }
    ensures fault { IfErr result IsSaving }
    ensures err { OnErr result ((S.seen store.new).told ≡ (S.seen store.old).told) }
    ensures good { KeepsGood S.X.block32 (S.seen store.old).told (S.seen store.new).told }
    ensures saves { SavesOnly S.X.block32 (S.seen store.old).told (S.seen store.new).told }
    ensures unread { LoadsNothing (fault_in result) (S.seen store.old) (S.seen store.new) }
    ensures touches { touches.new ≤ touches.old + 1 }
    ensures touch { OnOk result (touches.new ≡ touches.old + 1) }
    ensures rises { touches.old ≤ touches.new }
{
    save_root(alloc, store, parts, &Meta::none(), touches)
}

/// The same of the node at a file's root, which carries the file's metadata.
pub fn save_root<S: Store, L: Ledger>(
    alloc: Global,
    store: &mut S,
    parts: &[Part],
    meta: &Meta,
    touches: &mut Steps<L>,
) -> Result<Part, StoreFault>
    requires some { 1 ≤ length parts.now }
    requires few { length parts.now ≤ 1024 }
    requires size { sum_by (λ m. m.size) parts.now < 2 ^ 63 }
    requires good { IsTrue (is_meta meta.now) }
    ensures part { IfOk result (λ part. part ≡ root_part S.X.block32 meta.now parts.now) }
    ensures kept { OnOk result (KeepsHeld S.X.block32 (root_held S.X.block32 meta.now parts.now) (S.seen store.old)
        (S.seen store.new)) }
    ensures held { OnOk result (Holds (S.seen store.new).told (root_held S.X.block32 meta.now parts.now ∷ [])) }
    ensures cause { Answers S.X.block32 NoneIsBad result (S.seen store.old) (S.seen store.new) }
    ensures fault { IfErr result IsSaving }
    ensures err { OnErr result ((S.seen store.new).told ≡ (S.seen store.old).told) }
    ensures good { KeepsGood S.X.block32 (S.seen store.old).told (S.seen store.new).told }
    ensures saves { SavesOnly S.X.block32 (S.seen store.old).told (S.seen store.new).told }
    ensures unread { LoadsNothing (fault_in result) (S.seen store.old) (S.seen store.new) }
    ensures touches { touches.new ≤ touches.old + 1 }
    ensures touch { OnOk result (touches.new ≡ touches.old + 1) }
    ensures rises { touches.old ≤ touches.new }
{
    let block = node_block(alloc, parts, meta)?;
    let bytes = block.as_slice();
    let cid = Cid::of::<S::X>(Codec::DagPb, bytes);
    save_under(alloc, store, &cid, bytes, touches)?;
    Ok(Part {
        entry: Entry {
            cid,
            tsize: tsize_over(bytes, parts),
        },
        size: size_over(parts),
    })
}

// Saves what stands over the topmost row: the root over its parts, or nothing where it is a single piece without
// metadata.
pub fn save_top<S: Store, L: Ledger>(
    alloc: Global,
    store: &mut S,
    parts: &[Part],
    meta: &Meta,
    touches: &mut Steps<L>,
) -> Result<Part, StoreFault>
    requires some { 1 ≤ length parts.now }
    requires few { length parts.now ≤ 1024 }
    requires size { sum_by (λ m. m.size) parts.now < 2 ^ 63 }
    requires good { IsTrue (is_meta meta.now) }
    ensures part { IfOk result (λ part. part ≡ top_part S.X.block32 meta.now parts.now) }
    ensures held { OnOk result (Holds (S.seen store.new).told (top_held S.X.block32 meta.now parts.now)) }
    ensures builds { OnlyBuilds S.X.block32 (fault_in result) (S.seen store.old) (S.seen store.new) }
    ensures no_other { SavesAmong S.X.block32 (top_held S.X.block32 meta.now parts.now)
        (S.seen store.old).told (S.seen store.new).told }
    ensures touches { touches.new ≤ touches.old + length (top_held S.X.block32 meta.now parts.now) }
    ensures touch { OnOk result (touches.new ≡ touches.old + length (top_held S.X.block32 meta.now parts.now)) }
{
    if parts.len() > 1 {
        return save_root(alloc, store, parts, meta, touches);
    }
    if meta.is_bare() {
        return Ok(parts[0]);
    }
    save_root(alloc, store, parts, meta, touches)
}

// The block of the node over a group.
fn node_block(alloc: Global, parts: &[Part], meta: &Meta) -> Result<Block, Memory>
    requires some { 1 ≤ length parts.now }
    requires few { length parts.now ≤ 1024 }
    requires size { sum_by (λ m. m.size) parts.now < 2 ^ 63 }
    requires good { IsTrue (is_meta meta.now) }
    ensures block { IfOk result (λ block. block ≡ file_block (root_node meta.now parts.now)) }
    ensures small { IfOk result (λ block. length block ≤ 131072) }
{
    let node = node_of(alloc, parts, meta)?;
    file_node(alloc, &node)
}

// The links of a group's node, and the sizes.
fn node_of(alloc: Global, parts: &[Part], meta: &Meta) -> Result<FileNode, Memory>
    ensures node { IfOk result (λ node. node ≡ root_node meta.now parts.now) }
    ensures valid { IfOk result (λ node. AllByRecursion IsPartLink node.parts) }
{
    let mut links = Seq::new(alloc);
    let mut sizes = Seq::new(alloc);
    for part in parts {
        links.push(link_to(alloc, part.entry.cid, part.entry.tsize))?;
        sizes.push(part.size)?;
    }
    Ok(FileNode {
        parts: links,
        sizes,
        meta: *meta,
    })
}

// The link to a part: it has no name.
fn link_to(alloc: Global, cid: Cid, tsize: u64) -> Link
    ensures link { result ≡ link_of [] (record { cid = cid; tsize = tsize }) }
    ensures valid { IsPartLink result }
{
    cids_are_whole(&cid);
    let name = Text::new(alloc);
    Link { cid, name, tsize }
}

// The length of a node's block and the Tsizes of its links; a greater number counts as the greatest.
fn tsize_over(bytes: &[u8], parts: &[Part]) -> u64
    ensures { result ≡ capped (length bytes.now + sum_by (λ m. m.entry.tsize) parts.now) }
{
    let mut total = bytes.len() as u64;
    for part in parts {
        total = total.saturating_add(part.entry.tsize);
    }
    total
}

// How many bytes of the file are below a group.
fn size_over(parts: &[Part]) -> u64
    requires { sum_by (λ m. m.size) parts.now < 2 ^ 63 }
    ensures { result ≡ sum_by (λ m. m.size) parts.now }
{
    parts.iter().map(|part| part.size).sum()
}
