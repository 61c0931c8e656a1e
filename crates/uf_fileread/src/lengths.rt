//! The length of a file, and the links of its root.
ghost use Rattle.std.specs.Prelude.{◌≡◌, ◌∷◌, [], ◌+◌, ℕ, List, length as len};
ghost use Rattle.uf_cid.specs.Blocks.{Held};
ghost use Rattle.uf_cid.specs.declared.cid.Codec.TheVariants.{DagPb};
ghost use Rattle.uf_edge.specs.Counts.{Stood};
ghost use Rattle.uf_store.specs.Faults.{Answers};
ghost use Rattle.uf_store.specs.Keeping.{Agrees};
ghost use Rattle.uf_store.specs.Lost.{FindsOver};
ghost use Rattle.uf_tree.specs.declared.meta.Meta.{Meta as TheMeta};
ghost use Rattle.uf_tree.specs.declared.profile.Profile.{Profile};
ghost use Rattle.uf_tree.specs.Roots.{IsFileRoot};
ghost use Rattle.uf_fileread.specs.Bad.{IsBadRoot};
ghost use Rattle.uf_fileread.specs.Sizes.{SaysSize, links_of};

use crate::FileSize;
use std::alloc::Global;
use std::sync::ledger::Ledger;
use uf_cid::{Cid, Codec, StrictFault};
use uf_store::{Role, Steps, Store, StoreFault, need};
use uf_tree::{Entry, Meta, read_file_node};

/// How many bytes the file of this entry has: those of its raw block, or the sum of the sizes that its root node
/// declares (UnixFS v1, "filesize"). One touch.
pub fn length<S: Store, L: Ledger>(
    alloc: Global,
    store: &mut S,
    entry: &Entry,
    touches: &mut Steps<L>,
) -> Result<u64, StoreFault>
    ensures value { (p : Profile) (m : TheMeta) (bytes : List ℕ) (root : Held)
        → IsFileRoot S.X.block32 p m bytes entry.now.cid root
        → Agrees (S.seen store.old).told (root ∷ [])
        → Stood (S.seen store.old).faults (S.seen store.new).faults
        → FindsOver (S.seen store.old).told (root ∷ []) (len bytes) result }
    ensures cause { Answers S.X.block32 IsBadRoot result (S.seen store.old) (S.seen store.new) }
    ensures told { (S.seen store.new).told ≡ (S.seen store.old).told }
    ensures touches { touches.new ≡ touches.old + 1 }
{
    let size = measure(alloc, store, entry, touches)?;
    Ok(size.length)
}

/// The length of the file of this entry, the number of links of its root block and its metadata, by one load. One
/// touch.
pub fn measure<S: Store, L: Ledger>(
    alloc: Global,
    store: &mut S,
    entry: &Entry,
    touches: &mut Steps<L>,
) -> Result<FileSize, StoreFault>
    ensures value { (p : Profile) (m : TheMeta) (bytes : List ℕ) (root : Held)
        (is : IsFileRoot S.X.block32 p m bytes entry.now.cid root) → Agrees (S.seen store.old).told (root ∷ [])
        → Stood (S.seen store.old).faults (S.seen store.new).faults
        → FindsOver (S.seen store.old).told (root ∷ []) (record
        { length = len bytes; links = links_of p is.height bytes; meta = m }) result }
    ensures cause { Answers S.X.block32 IsBadRoot result (S.seen store.old) (S.seen store.new) }
    ensures told { (S.seen store.new).told ≡ (S.seen store.old).told }
    ensures touches { touches.new ≡ touches.old + 1 }
{
    need(store, &entry.cid, touches)?;
    size_of(alloc, &entry.cid, store.block())
}

// What a root block says of its file.
fn size_of(alloc: Global, cid: &Cid, block: &[u8]) -> Result<FileSize, StoreFault>
    ensures { SaysSize cid.now block.now result }
{
    match cid.codec {
        Codec::Raw => Ok(FileSize {
            length: block.len() as u64,
            links: 0,
            meta: Meta::none(),
        }),
        Codec::DagPb => node_size(alloc, cid, block),
    }
}

// What a node at the root of a file says of it.
fn node_size(alloc: Global, cid: &Cid, block: &[u8]) -> Result<FileSize, StoreFault>
    ensures { cid.now.codec ≡ DagPb → SaysSize cid.now block.now result }
{
    match read_file_node(alloc, block) {
        Ok(node) => Ok(FileSize {
            length: node.sizes.as_slice().iter().sum(),
            links: node.parts.as_slice().len() as u64,
            meta: node.meta,
        }),
        Err(StrictFault::NotCanonical) => Err(StoreFault::BadBlock(*cid, Role::FileNode)),
        Err(StrictFault::Memory) => Err(StoreFault::Memory),
    }
}
