//! Files and folders of a host added, with touches that are counted apart from the caller's.
ghost use Rattle.std.specs.Prelude.{◌≡◌, ◌<◌, IfSome, IsTrue, None};
ghost use Rattle.uf_edge.specs.Counts.{Counts};
ghost use Rattle.uf_store.specs.Faults.{NoneIsBad, Shown};
ghost use Rattle.uf_store.specs.Keeping.{KeepsGood};
ghost use Rattle.uf_store.specs.Writing.{SavesOnly};
ghost use Rattle.uf_store.specs.declared.store.StoreFault.TheVariants as stops;
ghost use Rattle.uf_tree.specs.Profiles.{is_profile};
ghost use Rattle.uf_host.specs.Adding.{AddsFromHost, SavesFromHost};
ghost use Rattle.uf_host.specs.Faults.{edge_fault, is_read_fault};

use crate::import::AddedRows;
use crate::{HostFault, add};
use std::alloc::Global;
use std::marker::Brand;
use std::sync::ledger::{Blank, Ledger};
use uf_cid::{BlockHash, Text};
use uf_edge::Host;
use uf_murmur::NameHash;
use uf_store::{Discard, Steps, Store, StoreFault};
use uf_tree::Profile;

/// The same as `add`, with a count of its own for the touches.
pub fn add_apart<S: Store, N: NameHash, W: Host>(
    alloc: Global,
    store: &mut S,
    p: &Profile,
    host: &mut W,
    path: &Text,
    recursive: bool,
) -> Result<AddedRows, HostFault>
    requires { IsTrue (is_profile p.now) }
    ensures adds { AddsFromHost S.X.block32 N.name64 p.now (S.seen store.new).told (W.tree host.old) recursive path.now
        result }
    ensures reads { Counts (is_read_fault result) (W.read_faults host.old) (W.read_faults host.new) }
    ensures writes { W.write_faults host.new ≡ W.write_faults host.old }
    ensures told { W.tree host.new ≡ W.tree host.old }
    ensures cause { Shown S.X.block32 NoneIsBad (edge_fault result) (S.seen store.old) (S.seen store.new) }
    ensures good { KeepsGood S.X.block32 (S.seen store.old).told (S.seen store.new).told }
    ensures saves { SavesOnly S.X.block32 (S.seen store.old).told (S.seen store.new).told }
    ensures no_other { SavesFromHost S.X.block32 N.name64 p.now (S.seen store.old).told (S.seen store.new).told
        (W.tree host.old) recursive path.now result }
{
    counted_add::<S, N, W, Brand>(alloc, store, p, host, path, recursive, Blank::new(1))
}

// The same, over the blank of that count.
fn counted_add<S: Store, N: NameHash, W: Host, L: Ledger>(
    alloc: Global,
    store: &mut S,
    p: &Profile,
    host: &mut W,
    path: &Text,
    recursive: bool,
    blank: Blank,
) -> Result<AddedRows, HostFault>
    requires profile { IsTrue (is_profile p.now) }
    requires name { blank.name ≡ L.name }
    requires parts { blank.parts ≡ L.parts }
    requires some { 0 < blank.parts }
    ensures adds { AddsFromHost S.X.block32 N.name64 p.now (S.seen store.new).told (W.tree host.old) recursive path.now
        result }
    ensures reads { Counts (is_read_fault result) (W.read_faults host.old) (W.read_faults host.new) }
    ensures writes { W.write_faults host.new ≡ W.write_faults host.old }
    ensures told { W.tree host.new ≡ W.tree host.old }
    ensures cause { Shown S.X.block32 NoneIsBad (edge_fault result) (S.seen store.old) (S.seen store.new) }
    ensures good { KeepsGood S.X.block32 (S.seen store.old).told (S.seen store.new).told }
    ensures saves { SavesOnly S.X.block32 (S.seen store.old).told (S.seen store.new).told }
    ensures no_other { SavesFromHost S.X.block32 N.name64 p.now (S.seen store.old).told (S.seen store.new).told
        (W.tree host.old) recursive path.now result }
{
    let mut touches = Steps::<L>::new(blank);
    add::<S, N, W, L>(
        alloc,
        store,
        p,
        host,
        path.as_str(),
        recursive,
        &mut touches,
    )
}

/// The rows of what `add` adds, with nothing kept.
pub fn hash_rows<X: BlockHash, N: NameHash, W: Host>(
    alloc: Global,
    p: &Profile,
    host: &mut W,
    path: &Text,
    recursive: bool,
) -> Result<AddedRows, HostFault>
    requires { IsTrue (is_profile p.now) }
    ensures adds { AddsFromHost X.block32 N.name64 p.now None (W.tree host.old) recursive path.now result }
    ensures reads { Counts (is_read_fault result) (W.read_faults host.old) (W.read_faults host.new) }
    ensures writes { W.write_faults host.new ≡ W.write_faults host.old }
    ensures told { W.tree host.new ≡ W.tree host.old }
    ensures wants { IfSome (edge_fault result) (λ fault. fault ≡ stops.Memory) }
{
    let mut store = Discard::<X>::new();
    match add_apart::<Discard<X>, N, W>(alloc, &mut store, p, host, path, recursive) {
        Err(HostFault::Store(_)) => Err(HostFault::Store(StoreFault::Memory)),
        answer => answer,
    }
}
