//! What a CID denotes written to a host.
ghost use Rattle.std.specs.Prelude.{◌≡◌, IfErr, Some};
ghost use Rattle.uf_edge.specs.Counts.{Counts};
ghost use Rattle.uf_store.specs.Contents.{Contents, held_at};
ghost use Rattle.uf_store.specs.Faults.{NoneIsBad, Shown};
ghost use Rattle.uf_host.specs.Faults.{IsGetFault, edge_fault, is_read_fault, is_write_fault};
ghost use Rattle.uf_host.specs.Getting.{FindsFolder, FindsRoom, Gets};
ghost use Rattle.uf_host.specs.Paths.{trimmed};
ghost use Rattle.uf_host.specs.Places.{ChangesAt, IsFolderThere};

use crate::HostFault;
use crate::paths::{named, or_root, split_last, trim};
use crate::putting::{Export, put_tree};
use crate::site::text_of;
use std::alloc::Global;
use std::sync::ledger::Ledger;
use uf_cid::Cid;
use uf_edge::{Host, Kind};
use uf_lenient::{Limits, survey_nodes};
use uf_store::{Steps, Store, StoreFault};

/// Writes the file or the directory that a CID denotes to a path of a host, where nothing is there and the path's
/// folder is. That of the empty path is the working folder, and the writing then fails. Slashes at the end of the path
/// are taken off. All nodes are read first, and of each leaf it is asked whether it is there, so that nothing is
/// written of what denotes no tree. Then each folder is made before its members, which are written in byte order of
/// their names, a file piece by piece. After a failed write, or a leaf that is damaged, all that was written stays.
/// Depth and visits are counted anew for each file and directory.
pub fn get<S: Store, W: Host, L: Ledger>(
    alloc: Global,
    store: &mut S,
    cid: &Cid,
    host: &mut W,
    path: &str,
    limits: &Limits,
    touches: &mut Steps<L>,
) -> Result<(), HostFault>
    // Over a store that tells: the denoted tree stands at the path, or a prefix of it where the host or the store
    // failed, or nothing was written and this is why.
    ensures gets { (t : Contents) → (S.seen store.old).told ≡ Some t
        → Gets (held_at t) limits.now cid.now (trimmed path.now) (W.tree host.old) (W.tree host.new) result }

    // Over every store nothing but what is at the path and below it has changed.
    ensures below { ChangesAt (trimmed path.now) (W.tree host.old) (W.tree host.new) }
    ensures reads { Counts (is_read_fault result) (W.read_faults host.old) (W.read_faults host.new) }
    ensures writes { Counts (is_write_fault result) (W.write_faults host.old) (W.write_faults host.new) }
    ensures faults { IfErr result IsGetFault }
    ensures cause { Shown S.X.block32 NoneIsBad (edge_fault result) (S.seen store.old) (S.seen store.new) }
    ensures told { (S.seen store.new).told ≡ (S.seen store.old).told }
{
    survey_nodes(alloc, store, cid, limits, touches)?;
    let path = trim(path);
    find_room(host, path)?;
    let export = Export {
        alloc,
        limits: *limits,
    };
    let path = text_of(alloc, path)?;
    let room = u64::from(limits.depth) + 1;
    put_tree(&export, store, host, cid, &path, room, touches)
}

// Says whether a tree may be written at a path: nothing is there, and the path's folder is.
fn find_room<W: Host>(host: &mut W, path: &str) -> Result<(), HostFault>
    ensures room { FindsRoom (W.tree host.old) path.now result }
    ensures told { W.tree host.new ≡ W.tree host.old }
    ensures reads { Counts (is_read_fault result) (W.read_faults host.old) (W.read_faults host.new) }
    ensures writes { W.write_faults host.new ≡ W.write_faults host.old }
{
    match host.kind(path) {
        Kind::Absent => find_folder(host, path),
        Kind::Failed => Err(HostFault::Read),
        Kind::Memory => Err(HostFault::Store(StoreFault::Memory)),
        Kind::File | Kind::Folder | Kind::Other => Err(HostFault::Exists),
    }
}

// Says whether the folder of a path is there.
fn find_folder<W: Host>(host: &mut W, path: &str) -> Result<(), HostFault>
    ensures folder { FindsFolder (W.tree host.old) path.now result }
    ensures told { W.tree host.new ≡ W.tree host.old }
    ensures reads { Counts (is_read_fault result) (W.read_faults host.old) (W.read_faults host.new) }
    ensures writes { W.write_faults host.new ≡ W.write_faults host.old }
{
    match split_last(path) {
        None => Ok(()),
        Some((folder, name)) => {
            named(name)?;
            if folder == "/" {
                return Err(HostFault::Absent);
            }
            meet_folder(host, or_root(folder))
        }
    }
}

// Says whether a folder is there; what is neither a file nor a folder may lead to one.
fn meet_folder<W: Host>(host: &mut W, folder: &str) -> Result<(), HostFault>
    ensures folder { IsFolderThere (W.tree host.old) folder.now result }
    ensures told { W.tree host.new ≡ W.tree host.old }
    ensures reads { Counts (is_read_fault result) (W.read_faults host.old) (W.read_faults host.new) }
    ensures writes { W.write_faults host.new ≡ W.write_faults host.old }
{
    match host.kind(folder) {
        Kind::Folder | Kind::Other => Ok(()),
        Kind::Failed => Err(HostFault::Read),
        Kind::Memory => Err(HostFault::Store(StoreFault::Memory)),
        Kind::File | Kind::Absent => Err(HostFault::Absent),
    }
}
