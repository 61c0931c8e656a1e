//! What the tree has at a path.
ghost use Rattle.std.specs.Prelude.{◌≡◌, ◌≤◌, ◌+◌, ◌*◌, IfOk, None, length, max};
ghost use Rattle.uf_mfs.specs.Bad.{IsRequired};
ghost use Rattle.uf_plain.specs.Needs.{own_needs, root_of, rows_need};
ghost use Rattle.uf_plain.specs.Replies.{names_at, rows_at, stat_of as stat_at};
ghost use Rattle.uf_mfs.specs.declared.thing.Thing.TheVariants.{Folder};
ghost use Rattle.uf_mfs.specs.Touches.{names_touches, rows_touches, unseen, unseen_after};
ghost use Rattle.uf_mfs.specs.Over.{FindsThing, TellsAt, TellsOver, TouchesAt};
ghost use Rattle.uf_mfs.specs.Showing.{CallCounts, ShowsReading};

use crate::listing::{names_of, rows_of};
use crate::looking::look;
use crate::measuring::stat_of;
use crate::telling::fault_of;
use crate::{Mfs, MfsFault, Thing};
use std::alloc::Global;
use std::sync::ledger::Ledger;
use uf_murmur::NameHash;
use uf_path::Path;
use uf_plain::{Rows, Stat};
use uf_store::{Steps, Store};
use uf_tree::{Name, Names};

impl Mfs {
    /// The rows of a directory in byte order of the names, or the one row of a file.
    pub fn ls<S: Store, N: NameHash, L: Ledger>(
        &self,
        alloc: Global,
        store: &mut S,
        path: &Path,
        touches: &mut Steps<L>,
    ) -> Result<Rows, MfsFault>
        ensures answer { TellsAt S.X.block32 N.name64 (S.seen store.old) (S.seen store.new) self.now path.now.names
            (λ p t. rows_at S.X.block32 N.name64 p path.now.names t) result }
        ensures lost { TellsOver S.X.block32 N.name64 (S.seen store.old) (S.seen store.new) self.now path.now.names
            (rows_need S.X.block32 N.name64) (λ p t. rows_at S.X.block32 N.name64 p path.now.names t) result }
        ensures cause { ShowsReading S.X.block32 N.name64 self.now result (S.seen store.old) (S.seen store.new) }
        ensures told { (S.seen store.new).told ≡ (S.seen store.old).told }
        ensures touches { TouchesAt S.X.block32 N.name64 (S.seen store.old) (S.seen store.new) self.now path.now.names
            (rows_touches S.X.block32 N.name64) touches.old touches.new }
        ensures touched { CallCounts result touches.old touches.new }
    {
        let names = path.names.as_slice();
        let thing = self.thing_at::<S, N, L>(alloc, store, names, touches)?;
        let rows = rows_of::<S, N, L>(alloc, store, names, thing, touches)?;
        Ok(rows)
    }

    /// The names of a directory in byte order, or a file's own. No member is loaded.
    pub fn names<S: Store, N: NameHash, L: Ledger>(
        &self,
        alloc: Global,
        store: &mut S,
        path: &Path,
        touches: &mut Steps<L>,
    ) -> Result<Names, MfsFault>
        ensures answer { TellsAt S.X.block32 N.name64 (S.seen store.old) (S.seen store.new) self.now path.now.names
            (λ p t. names_at path.now.names t) result }
        ensures lost { TellsOver S.X.block32 N.name64 (S.seen store.old) (S.seen store.new) self.now path.now.names
            (own_needs S.X.block32 N.name64) (λ p t. names_at path.now.names t) result }
        ensures cause { ShowsReading S.X.block32 N.name64 self.now result (S.seen store.old) (S.seen store.new) }
        ensures told { (S.seen store.new).told ≡ (S.seen store.old).told }
        ensures touches { TouchesAt S.X.block32 N.name64 (S.seen store.old) (S.seen store.new) self.now path.now.names
            (names_touches S.X.block32 N.name64) touches.old touches.new }
        ensures touched { CallCounts result touches.old touches.new }
    {
        let names = path.names.as_slice();
        let thing = self.thing_at::<S, N, L>(alloc, store, names, touches)?;
        let found = names_of::<S, N, L>(alloc, store, names, thing, touches)?;
        Ok(found)
    }

    /// What is said of the file or the directory at a path.
    pub fn stat<S: Store, N: NameHash, L: Ledger>(
        &self,
        alloc: Global,
        store: &mut S,
        path: &Path,
        touches: &mut Steps<L>,
    ) -> Result<Stat, MfsFault>
        ensures answer { TellsAt S.X.block32 N.name64 (S.seen store.old) (S.seen store.new) self.now path.now.names
            (stat_at S.X.block32 N.name64) result }
        ensures lost { TellsOver S.X.block32 N.name64 (S.seen store.old) (S.seen store.new) self.now path.now.names
            (root_of S.X.block32 N.name64) (stat_at S.X.block32 N.name64) result }
        ensures cause { ShowsReading S.X.block32 N.name64 self.now result (S.seen store.old) (S.seen store.new) }
        ensures told { (S.seen store.new).told ≡ (S.seen store.old).told }
        ensures touches { touches.new ≤ touches.old + max (11 * length path.now.names) 1 }
        ensures touched { CallCounts result touches.old touches.new }
    {
        let names = path.names.as_slice();
        let thing = self.thing_at::<S, N, L>(alloc, store, names, touches)?;
        let stat = stat_of::<S, N, L>(alloc, store, thing, touches)?;
        Ok(stat)
    }

    // What the names lead to.
    fn thing_at<S: Store, N: NameHash, L: Ledger>(
        &self,
        alloc: Global,
        store: &mut S,
        names: &[Name],
        touches: &mut Steps<L>,
    ) -> Result<Thing, MfsFault>
        ensures finds { FindsThing S.X.block32 N.name64 (S.seen store.old) (S.seen store.new) self.now names.now
            result }
        ensures cause { ShowsReading S.X.block32 N.name64 self.now result (S.seen store.old) (S.seen store.new) }
        ensures told { (S.seen store.new).told ≡ (S.seen store.old).told }
        ensures touches { touches.new ≤ touches.old + 11 * length names.now }
        ensures touched { CallCounts result touches.old touches.new }
        ensures seen { IfOk result (λ found. unseen found ≡ unseen_after names.now (Folder self.now.root None)) }
        ensures required { IfOk result (IsRequired S.X.block32 self.now.root.cid) }
    {
        let root = Thing::Folder(self.root, None);
        match look::<S, N, L>(alloc, store, 0, names, root, touches) {
            Err(stop) => Err(fault_of(alloc, names, stop)),
            Ok(thing) => Ok(thing),
        }
    }
}
