//! Files and folders of a host added.
ghost use Rattle.std.specs.Prelude.{◌≡◌, IfOk, IsTrue, OnErr};
ghost use Rattle.uf_edge.specs.Counts.{Counts};
ghost use Rattle.uf_store.specs.Calls.{OnlySaves};
ghost use Rattle.uf_store.specs.Faults.{NoneIsBad, Shown};
ghost use Rattle.uf_store.specs.Keeping.{KeepsGood};
ghost use Rattle.uf_store.specs.Writing.{SavesOnly};
ghost use Rattle.uf_tree.specs.Profiles.{is_profile};
ghost use Rattle.uf_host.specs.Adding.{AddsAs, AddsFromHost, SavesFromHost, SavesReadAt};
ghost use Rattle.uf_host.specs.Faults.{edge_fault, for_one as of_one, is_read_fault};
ghost use Rattle.uf_host.specs.HostTree.{rows_of, walk_of};
ghost use Rattle.uf_host.specs.Paths.{first_row};
ghost use Rattle.uf_host.specs.Stopping.{levels_of};

use crate::HostFault;
use crate::import::{AddedRows, Import};
use crate::paths::{row_of, trim};
use crate::site::{Site, text_of};
use crate::walking::add_at;
use std::alloc::Global;
use std::sync::ledger::Ledger;
use uf_cid::{Memory, zeros};
use uf_edge::Host;
use uf_murmur::NameHash;
use uf_store::{Steps, Store};
use uf_tree::{Entry, Profile};

// The bytes of eight pieces of a file by the usual profile: they are hashed side by side.
const BUFFER: usize = 8 * 262144;

/// Adds the file at a path, or where `recursive` says so the folder, with everything in it: saves the blocks of its
/// plan by the profile and answers its rows. Slashes at the end of the path are taken off. A row's path begins with
/// the last name of the path, or with `/` where there is none; what is in a folder comes before it, in the byte order
/// of names. A file is read piece by piece, and is never held as a whole.
pub fn add<S: Store, N: NameHash, W: Host, L: Ledger>(
    alloc: Global,
    store: &mut S,
    p: &Profile,
    host: &mut W,
    path: &str,
    recursive: bool,
    touches: &mut Steps<L>,
) -> Result<AddedRows, HostFault>
    requires { IsTrue (is_profile p.now) }

    // Over every store and every host: Ok is the rows of a tree that has a plan, whose blocks are held where the store
    // tells. Where the host tells, it is the tree that it has at the path, and a refusal is the first of its walk.
    ensures adds { AddsFromHost S.X.block32 N.name64 p.now (S.seen store.new).told (W.tree host.old) recursive path.now
        result }
    ensures reads { Counts (is_read_fault result) (W.read_faults host.old) (W.read_faults host.new) }
    ensures writes { W.write_faults host.new ≡ W.write_faults host.old }
    ensures told { W.tree host.new ≡ W.tree host.old }
    ensures cause { Shown S.X.block32 NoneIsBad (edge_fault result) (S.seen store.old) (S.seen store.new) }
    ensures good { KeepsGood S.X.block32 (S.seen store.old).told (S.seen store.new).told }
    ensures saves { SavesOnly S.X.block32 (S.seen store.old).told (S.seen store.new).told }
    ensures no_other { SavesFromHost S.X.block32 N.name64 p.now (S.seen store.old).told (S.seen store.new).told
        (W.tree host.old) recursive path.now result }
{
    let site = site_of(alloc, trim(path))?;
    let mut import = Import {
        alloc,
        profile: *p,
        buffer: zeros(alloc, BUFFER)?,
        rows: AddedRows::new(alloc),
    };
    add_from::<S, N, W, L>(&mut import, store, host, &site, recursive, touches)?;
    Ok(import.rows)
}

// Adds what is at a site: a folder only where that is asked for.
fn add_from<S: Store, N: NameHash, W: Host, L: Ledger>(
    import: &mut Import,
    store: &mut S,
    host: &mut W,
    site: &Site,
    recursive: bool,
    touches: &mut Steps<L>,
) -> Result<Entry, HostFault>
    ensures adds { AddsAs S.X.block32 N.name64 import.old.profile
        (rows_of S.X.block32 N.name64 import.old.profile site.now.row)
        (S.seen store.old).told (S.seen store.new).told (W.tree host.old)
        (λ tree. walk_of S.X.block32 N.name64 import.old.profile tree recursive site.now.path)
        import.old.rows import.new.rows result }
    ensures no_other { OnErr result (SavesReadAt S.X.block32 N.name64 import.old.profile
        (S.seen store.old).told (S.seen store.new).told (W.tree host.old) (levels_of recursive) site.now.path) }
    ensures saves { OnlySaves S.X.block32 NoneIsBad (edge_fault result) (S.seen store.old) (S.seen store.new) }
    ensures told { W.tree host.new ≡ W.tree host.old }
    ensures reads { Counts (is_read_fault result) (W.read_faults host.old) (W.read_faults host.new) }
    ensures writes { W.write_faults host.new ≡ W.write_faults host.old }
{
    if recursive {
        return add_at::<S, N, W, L>(import, store, host, site, 257, touches);
    }
    match add_at::<S, N, W, L>(import, store, host, site, 0, touches) {
        Ok(entry) => Ok(entry),
        Err(fault) => Err(for_one(fault)),
    }
}

// The fault where folders weren't asked for.
fn for_one(fault: HostFault) -> HostFault
    ensures { result ≡ of_one fault }
{
    match fault {
        HostFault::TooDeep(_) => HostFault::NeedsRecursive,
        other => other,
    }
}

// The site of a path.
fn site_of(alloc: Global, path: &str) -> Result<Site, Memory>
    ensures path { IfOk result (λ s. s.path ≡ path.now) }
    ensures row { IfOk result (λ s. s.row ≡ first_row path.now) }
{
    Ok(Site {
        path: text_of(alloc, path)?,
        row: text_of(alloc, row_of(path))?,
    })
}
