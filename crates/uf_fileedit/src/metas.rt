//! The metadata of files.
ghost use Rattle.std.specs.Prelude.{◌≡◌, ◌+◌, ◌≤◌, ℕ, List, [], ◌∷◌, IsTrue};
ghost use Rattle.uf_cid.specs.Blocks.{Held};
ghost use Rattle.uf_edge.specs.Counts.{Stood};
ghost use Rattle.uf_fileread.specs.Bad.{IsBadRoot};
ghost use Rattle.uf_store.specs.Faults.{Answers};
ghost use Rattle.uf_store.specs.Keeping.{Agrees, KeepsGood};
ghost use Rattle.uf_store.specs.Lost.{FindsOver};
ghost use Rattle.uf_store.specs.Writing.{SavesOnly};
ghost use Rattle.uf_tree.specs.Metas.{is_meta};
ghost use Rattle.uf_tree.specs.Roots.{IsFileRoot};
ghost use Rattle.uf_tree.specs.declared.meta.Meta.{Meta as TheMeta};
ghost use Rattle.uf_tree.specs.declared.profile.Profile.{Profile};
ghost use Rattle.uf_fileedit.specs.Touches.{Climbs};
ghost use Rattle.uf_fileedit.specs.Files.{AgreesWithMeta, HoldsWithMeta, LeavesWithMeta, SetsMeta};
ghost use Rattle.uf_fileedit.specs.Saving.{SavesOfMeta};

use crate::root::{load_root, save_over};
use std::alloc::Global;
use std::sync::ledger::Ledger;
use uf_fileread::measure;
use uf_store::{Steps, Store, StoreFault};
use uf_tree::{Entry, Meta};

/// The metadata of the file of this entry. One touch.
pub fn meta_of<S: Store, L: Ledger>(
    alloc: Global,
    store: &mut S,
    entry: &Entry,
    touches: &mut Steps<L>,
) -> Result<Meta, StoreFault>
    ensures value { (p : Profile) (m : TheMeta) (b : List ℕ) (root : Held)
        → IsFileRoot S.X.block32 p m b entry.now.cid root
        → Agrees (S.seen store.old).told (root ∷ [])
        → Stood (S.seen store.old).faults (S.seen store.new).faults
        → FindsOver (S.seen store.old).told (root ∷ []) m result }
    ensures cause { Answers S.X.block32 IsBadRoot result (S.seen store.old) (S.seen store.new) }
    ensures told { (S.seen store.new).told ≡ (S.seen store.old).told }
    ensures touches { touches.new ≡ touches.old + 1 }
{
    let size = measure(alloc, store, entry, touches)?;
    Ok(size.meta)
}

/// Gives a file this metadata, and answers the entry of the new file. Only its root is loaded and saved; where nothing
/// changes, nothing is saved. At most two touches.
pub fn set_meta<S: Store, L: Ledger>(
    alloc: Global,
    store: &mut S,
    entry: &Entry,
    meta: &Meta,
    touches: &mut Steps<L>,
) -> Result<Entry, StoreFault>
    requires good { IsTrue (is_meta meta.now) }
    ensures value { SetsMeta S.X.block32 entry.now meta.now (S.seen store.old) (S.seen store.new) result }
    ensures after { AgreesWithMeta S.X.block32 entry.now meta.now (S.seen store.old) (S.seen store.new) result }
    ensures held { HoldsWithMeta S.X.block32 entry.now meta.now (S.seen store.old) (S.seen store.new) result }
    ensures cause { Answers S.X.block32 IsBadRoot result (S.seen store.old) (S.seen store.new) }
    ensures good { KeepsGood S.X.block32 (S.seen store.old).told (S.seen store.new).told }
    ensures saves { SavesOnly S.X.block32 (S.seen store.old).told (S.seen store.new).told }
    ensures no_other { SavesOfMeta S.X.block32 entry.now meta.now (S.seen store.old) (S.seen store.new) }
    ensures touched { Climbs result touches.old touches.new }
    ensures touches { touches.new ≤ touches.old + 2 }
    ensures same { LeavesWithMeta S.X.block32 entry.now meta.now (S.seen store.old) (S.seen store.new) }
{
    let root = load_root(alloc, store, entry, touches)?;
    if root.meta == *meta {
        return Ok(*entry);
    }
    let part = save_over(alloc, store, root.parts.as_slice(), meta, touches)?;
    Ok(part.entry)
}
