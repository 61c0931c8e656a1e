//! Trees written to a host, files and folders.
ghost use Rattle.std.specs.Prelude.{◌≡◌, ◌≢◌, List, ℕ, [], IfErr, IsTrue, Ok, OnOk, Some};
ghost use Rattle.std.specs.FinMap.Entries.{is_sorted};
ghost use Rattle.uf_edge.specs.Counts.{Counts};
ghost use Rattle.uf_edge.specs.Host.{TakesFile, TakesFolder};
ghost use Rattle.uf_lenient.specs.Denoted.{AreDenoted, denotes_within};
ghost use Rattle.uf_lenient.specs.Reading.{file_of};
ghost use Rattle.uf_lenient.specs.Steps.{to_come};
ghost use Rattle.uf_store.specs.Calls.{OnlyReads};
ghost use Rattle.uf_store.specs.Contents.{Contents, held_at};
ghost use Rattle.uf_store.specs.Faults.{NoneIsBad};
ghost use Rattle.uf_tree.specs.Names.{names_cmp};
ghost use Rattle.uf_tree.specs.Tree.{Entries, Tree};
ghost use Rattle.uf_host.specs.Faults.{IsPutFault, edge_fault, is_write_fault};
ghost use Rattle.uf_host.specs.Places.{AppendsPiece, ChangesAt, ChangesIn, MakesFolderAt, Puts, PutsFile};
ghost use Rattle.uf_host.specs.Places.{TakesMembers, places_in, places_of};

use crate::HostFault;
use crate::foreseeing::foresee_files;
use crate::site::path_of;
use std::alloc::Global;
use std::sync::ledger::Ledger;
use uf_cid::{Cid, Text};
use uf_edge::{Host, Put};
use uf_lenient::{DagFault, Limits, Pieces, Shape, Way, shallow};
use uf_store::{Steps, Store, StoreFault};

// What stays the same while a tree is written.
#[derive(Drop)]
pub struct Export {
    pub alloc: Global,
    pub limits: Limits,
}

// Writes the tree that a CID denotes, where directories nest less deep than `room`.
#[cycle(putting)]
pub fn put_tree<S: Store, W: Host, L: Ledger>(
    export: &Export,
    store: &mut S,
    host: &mut W,
    cid: &Cid,
    path: &Text,
    room: u64,
    touches: &mut Steps<L>,
) -> Result<(), HostFault>
    requires { TakesFolder (W.tree host.old) path.now }
    ensures puts { (t : Contents) (tree : Tree) → (S.seen store.old).told ≡ Some t
        → denotes_within (held_at t) export.now.limits room cid.now ≡ Ok tree
        → Puts (places_of path.now tree) (W.tree host.old) (W.tree host.new) result }
    ensures named { OnOk result (path.now ≢ []) }
    ensures below { ChangesAt path.now (W.tree host.old) (W.tree host.new) }
    ensures reads { W.read_faults host.new ≡ W.read_faults host.old }
    ensures writes { Counts (is_write_fault result) (W.write_faults host.old) (W.write_faults host.new) }
    ensures stops { IfErr result IsPutFault }
    ensures shown { OnlyReads S.X.block32 NoneIsBad (edge_fault result) (S.seen store.old) (S.seen store.new) }
{
    if room == 0 {
        return Err(HostFault::Dag(DagFault::TooDeep(*cid)));
    }
    match shallow(export.alloc, store, cid, &export.limits, touches)? {
        Shape::File(_) => put_file(export, store, host, cid, path, touches),
        Shape::Folder(_, ways) => {
            make_folder(host, path)?;
            put_members(
                export,
                store,
                host,
                ways.as_slice(),
                path,
                room - 1,
                touches,
            )
        }
    }
}

// Writes what each of these ways leads to into a folder, in their order. The store is told of the files that come
// next.
#[cycle(putting)]
fn put_members<S: Store, W: Host, L: Ledger>(
    export: &Export,
    store: &mut S,
    host: &mut W,
    ways: &[Way],
    folder: &Text,
    room: u64,
    touches: &mut Steps<L>,
) -> Result<(), HostFault>
    requires sorted { IsTrue (is_sorted names_cmp ways.now) }
    requires folder { TakesMembers (W.tree host.old) folder.now }
    ensures puts { (t : Contents) (es : Entries) → (S.seen store.old).told ≡ Some t
        → AreDenoted (held_at t) export.now.limits room ways.now es
        → Puts (places_in folder.now es) (W.tree host.old) (W.tree host.new) result }
    ensures below { ChangesIn folder.now (W.tree host.old) (W.tree host.new) }
    ensures reads { W.read_faults host.new ≡ W.read_faults host.old }
    ensures writes { Counts (is_write_fault result) (W.write_faults host.old) (W.write_faults host.new) }
    ensures stops { IfErr result IsPutFault }
    ensures shown { OnlyReads S.X.block32 NoneIsBad (edge_fault result) (S.seen store.old) (S.seen store.new) }
{
    for (at, way) in ways.iter().enumerate() {
        let path = path_of(export.alloc, folder.as_str(), way.name.as_str())?;
        foresee_files(store, ways, at);
        put_tree(export, store, host, &way.cid, &path, room, touches)?;
    }
    Ok(())
}

// Makes the folder at a path.
fn make_folder<W: Host>(host: &mut W, path: &Text) -> Result<(), HostFault>
    requires { TakesFolder (W.tree host.old) path.now }
    ensures makes { MakesFolderAt path.now (W.tree host.old) (W.tree host.new) result }
    ensures named { OnOk result (path.now ≢ []) }
    ensures reads { W.read_faults host.new ≡ W.read_faults host.old }
    ensures writes { Counts (is_write_fault result) (W.write_faults host.old) (W.write_faults host.new) }
    ensures stops { IfErr result IsPutFault }
{
    match host.make_folder(path.as_str()) {
        Put::Done => Ok(()),
        Put::Failed => Err(HostFault::Write),
        Put::Memory => Err(HostFault::Store(StoreFault::Memory)),
    }
}

// Writes the file that a CID denotes, of which one node is in memory at a time.
fn put_file<S: Store, W: Host, L: Ledger>(
    export: &Export,
    store: &mut S,
    host: &mut W,
    cid: &Cid,
    path: &Text,
    touches: &mut Steps<L>,
) -> Result<(), HostFault>
    requires { TakesFolder (W.tree host.old) path.now }
    ensures puts { (t : Contents) (bytes : List ℕ) → (S.seen store.old).told ≡ Some t
        → file_of (held_at t) export.now.limits cid.now ≡ Ok bytes
        → PutsFile path.now bytes (W.tree host.old) (W.tree host.new) result }
    ensures named { OnOk result (path.now ≢ []) }
    ensures below { ChangesAt path.now (W.tree host.old) (W.tree host.new) }
    ensures reads { W.read_faults host.new ≡ W.read_faults host.old }
    ensures writes { Counts (is_write_fault result) (W.write_faults host.old) (W.write_faults host.new) }
    ensures stops { IfErr result IsPutFault }
    ensures shown { OnlyReads S.X.block32 NoneIsBad (edge_fault result) (S.seen store.old) (S.seen store.new) }
{
    let mut pieces = Pieces::new(export.alloc, cid, &export.limits)?;
    put_pieces(store, host, &mut pieces, path, touches)
}

// Writes all pieces of a file that isn't there yet.
fn put_pieces<S: Store, W: Host, L: Ledger>(
    store: &mut S,
    host: &mut W,
    pieces: &mut Pieces,
    path: &Text,
    touches: &mut Steps<L>,
) -> Result<(), HostFault>
    requires absent { TakesFolder (W.tree host.old) path.now }
    requires due { pieces.old.0 ≢ [] }
    ensures puts { (t : Contents) (bytes : List ℕ) → (S.seen store.old).told ≡ Some t
        → to_come (held_at t) pieces.old ≡ Ok bytes
        → PutsFile path.now bytes (W.tree host.old) (W.tree host.new) result }
    ensures named { OnOk result (path.now ≢ []) }
    ensures below { ChangesAt path.now (W.tree host.old) (W.tree host.new) }
    ensures reads { W.read_faults host.new ≡ W.read_faults host.old }
    ensures writes { Counts (is_write_fault result) (W.write_faults host.old) (W.write_faults host.new) }
    ensures stops { IfErr result IsPutFault }
    ensures shown { OnlyReads S.X.block32 NoneIsBad (edge_fault result) (S.seen store.old) (S.seen store.new) }
{
    while let Some(piece) = pieces.next(store, touches)? {
        put_piece(host, path, piece.as_slice())?;
    }
    Ok(())
}

// Puts a piece after the bytes of a file, which it makes where nothing is there.
fn put_piece<W: Host>(host: &mut W, path: &Text, piece: &[u8]) -> Result<(), HostFault>
    requires { TakesFile (W.tree host.old) path.now }
    ensures appends { AppendsPiece path.now piece.now (W.tree host.old) (W.tree host.new) result }
    ensures named { OnOk result (path.now ≢ []) }
    ensures reads { W.read_faults host.new ≡ W.read_faults host.old }
    ensures writes { Counts (is_write_fault result) (W.write_faults host.old) (W.write_faults host.new) }
    ensures stops { IfErr result IsPutFault }
{
    match host.append(path.as_str(), piece) {
        Put::Done => Ok(()),
        Put::Failed => Err(HostFault::Write),
        Put::Memory => Err(HostFault::Store(StoreFault::Memory)),
    }
}
