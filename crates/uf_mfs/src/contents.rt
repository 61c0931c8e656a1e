//! Files of the tree read.
ghost use Rattle.std.specs.Prelude.{◌≡◌, ◌+◌, ◌*◌, ◌≤◌, IfErr, length};
ghost use Rattle.uf_edge.specs.Streams.{AppendsPrefix};
ghost use Rattle.uf_tree.specs.declared.profile.Profile.{Profile as TheProfile};
ghost use Rattle.uf_tree.specs.Tree.{Entries};
ghost use Rattle.uf_plain.specs.Files.{file_at, read as range_at};
ghost use Rattle.uf_fileread.specs.Ranges.{AppendsAtMost};
ghost use Rattle.uf_mfs.specs.Reading.{CanRise, IsBadRead, SendsHeld, SendsOver, ShownSending, TouchesRange};
ghost use Rattle.uf_mfs.specs.Reading.{to_read};
ghost use Rattle.uf_mfs.specs.Standing.{StandsOver};
ghost use Rattle.uf_mfs.specs.Steps.{stop_fault};
ghost use Rattle.uf_mfs.specs.declared.fault.MfsFault.TheVariants as faults;
ghost use Rattle.uf_mfs.specs.Over.{LooksAlong};
ghost use Rattle.uf_mfs.specs.Showing.{CallCounts, ReadsBelow, StepCounts};

use crate::looking::look;
use crate::telling::fault_of;
use crate::{Mfs, MfsFault, Stop, Thing};
use std::alloc::Global;
use std::sync::ledger::Ledger;
use uf_edge::Sink;
use uf_fileread::read_range;
use uf_murmur::NameHash;
use uf_path::Path;
use uf_plain::Refused;
use uf_store::{Steps, Store};
use uf_tree::{Entry, Name};

impl Mfs {
    /// Writes the bytes of a file from `offset` on, at most `count`, and answers how many. After a fault the sink has
    /// a prefix of them.
    pub fn read<S: Store, N: NameHash, O: Sink, L: Ledger>(
        &self,
        alloc: Global,
        store: &mut S,
        path: &Path,
        offset: u64,
        count: u64,
        out: &mut O,
        touches: &mut Steps<L>,
    ) -> Result<u64, MfsFault>
        ensures answer { SendsHeld S.X.block32 N.name64 (S.seen store.old) (S.seen store.new) self.now offset count
            path.now.names (O.holds out.old) (O.holds out.new) result }
        ensures lost { SendsOver S.X.block32 N.name64 (S.seen store.old) (S.seen store.new) self.now offset count
            path.now.names (O.holds out.old) (O.holds out.new) result }
        ensures prefix { (p : TheProfile) (es : Entries)
            → StandsOver S.X.block32 N.name64 (S.seen store.old).told self.now p es
            → CanRise (S.seen store.old).faults
            → IfErr result (λ _. AppendsPrefix (to_read (range_at offset count path.now.names es)) (O.holds out.old)
            (O.holds out.new)) }
        ensures sends { AppendsAtMost count (O.holds out.old) (O.holds out.new) }
        ensures cause { ShownSending S.X.block32
            (IsBadRead S.X.block32 N.name64 (S.seen store.old).told self.now.root.cid) result
            (S.seen store.old) (S.seen store.new) (O.faults out.old) (O.faults out.new) }
        ensures told { (S.seen store.new).told ≡ (S.seen store.old).told }
        ensures touches { TouchesRange S.X.block32 N.name64 (S.seen store.old) (S.seen store.new) self.now offset count
            path.now.names touches.old touches.new }
        ensures touched { CallCounts result touches.old touches.new }
    {
        let names = path.names.as_slice();
        match look_at_file::<S, N, L>(alloc, store, names, &self.root, touches) {
            Err(stop) => Err(fault_of(alloc, names, stop)),
            Ok(entry) => {
                let sent = read_range(alloc, store, &entry, offset, count, out, touches)?;
                Ok(sent)
            }
        }
    }
}

/// The entry of the file that the names lead to.
pub(crate) fn look_at_file<S: Store, N: NameHash, L: Ledger>(
    alloc: Global,
    store: &mut S,
    names: &[Name],
    root: &Entry,
    touches: &mut Steps<L>,
) -> Result<Entry, Stop>
    ensures looks { LooksAlong S.X.block32 N.name64 (S.seen store.old) (S.seen store.new) root.now names.now (λ t. t)
        (file_at names.now) result }
    ensures touches { touches.new ≤ touches.old + 11 * length names.now }
    ensures reads { ReadsBelow S.X.block32 N.name64 root.now.cid (stop_fault result) (S.seen store.old)
        (S.seen store.new) }
    ensures touched { StepCounts result touches.old touches.new }
{
    match look::<S, N, L>(alloc, store, 0, names, Thing::Folder(*root, None), touches)? {
        Thing::File(entry, _) => Ok(entry),
        Thing::Folder(_, _) => Err(Stop::Refused(Refused::IsADirectory(names.len()))),
    }
}
