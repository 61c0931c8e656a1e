//! What is said of a file or a folder.
ghost use Rattle.std.specs.Prelude.{◌≡◌, ◌≤◌, ◌+◌, false, true};
ghost use Rattle.uf_store.specs.Calls.{OnlyReads};
ghost use Rattle.uf_store.specs.Faults.{fault_in};
ghost use Rattle.uf_plain.specs.Replies.{stat_of as stat_at};
ghost use Rattle.uf_dir.specs.Bad.{IsBadRoot};
ghost use Rattle.uf_plain.specs.Needs.{root_of};
ghost use Rattle.uf_mfs.specs.Touches.{unseen};
ghost use Rattle.uf_mfs.specs.Over.{TellsOfEntry, TellsOfThing};
ghost use Rattle.uf_mfs.specs.Showing.{ReadCounts};

use crate::{FolderRoot, Thing};
use std::alloc::Global;
use std::sync::ledger::Ledger;
use uf_dir::{EntryKind, kind_of};
use uf_fileread::FileSize;
use uf_murmur::NameHash;
use uf_plain::Stat;
use uf_store::{Steps, Store, StoreFault};
use uf_tree::Entry;

/// What is said of a file or a folder. Nothing is loaded where the lookup has loaded its root block.
pub(crate) fn stat_of<S: Store, N: NameHash, L: Ledger>(
    alloc: Global,
    store: &mut S,
    thing: Thing,
    touches: &mut Steps<L>,
) -> Result<Stat, StoreFault>
    ensures stat { TellsOfThing S.X.block32 N.name64 (S.seen store.old) (S.seen store.new) thing
        (root_of S.X.block32 N.name64) (stat_at S.X.block32 N.name64) result }
    ensures reads { OnlyReads S.X.block32 IsBadRoot (fault_in result) (S.seen store.old) (S.seen store.new) }
    ensures touches { touches.new ≤ touches.old + unseen thing }
    ensures touched { ReadCounts result touches.old touches.new }
{
    match thing {
        Thing::File(entry, size) => Ok(file_stat(&entry, size)),
        Thing::Folder(entry, Some(root)) => Ok(folder_stat(&entry, root)),
        Thing::Folder(entry, None) => stat_at_root::<S, N, L>(alloc, store, &entry, touches),
    }
}

// What is said of a file or a folder, by one load of its root block.
fn stat_at_root<S: Store, N: NameHash, L: Ledger>(
    alloc: Global,
    store: &mut S,
    entry: &Entry,
    touches: &mut Steps<L>,
) -> Result<Stat, StoreFault>
    ensures stat { TellsOfEntry S.X.block32 N.name64 (S.seen store.old) (S.seen store.new) entry.now
        (stat_at S.X.block32 N.name64) result }
    ensures reads { OnlyReads S.X.block32 IsBadRoot (fault_in result) (S.seen store.old) (S.seen store.new) }
    ensures touches { touches.new ≤ touches.old + 1 }
    ensures touched { ReadCounts result touches.old touches.new }
{
    match kind_of(alloc, store, entry, touches)? {
        EntryKind::File(size) => Ok(file_stat(entry, size)),
        EntryKind::Folder(links, meta) => Ok(folder_stat(entry, FolderRoot { links, meta })),
    }
}

// What is said of a file.
fn file_stat(entry: &Entry, size: FileSize) -> Stat
    ensures { result ≡ record {
      cid = entry.now.cid;
      size = size.length;
      cumulative = entry.now.tsize;
      children = size.links;
      is_folder = false;
      meta = size.meta;
    } }
{
    Stat {
        cid: entry.cid,
        size: size.length,
        cumulative: entry.tsize,
        children: size.links,
        is_folder: false,
        meta: size.meta,
    }
}

// What is said of a folder with this root block.
fn folder_stat(entry: &Entry, root: FolderRoot) -> Stat
    ensures { result ≡ record {
      cid = entry.now.cid;
      size = 0;
      cumulative = entry.now.tsize;
      children = root.links;
      is_folder = true;
      meta = root.meta;
    } }
{
    Stat {
        cid: entry.cid,
        size: 0,
        cumulative: entry.tsize,
        children: root.links,
        is_folder: true,
        meta: root.meta,
    }
}
