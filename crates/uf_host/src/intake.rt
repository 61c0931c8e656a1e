//! Files of a host read into a store.
ghost use Rattle.std.specs.Prelude.{◌≡◌, ◌<◌, ◌≤◌, ◌++◌, ℕ, List, [], false, length, IfErr, IfOk, IsTrue, OnErr, OnOk};
ghost use Rattle.uf_build.specs.Building.{HasFed, SavesForFront};
ghost use Rattle.uf_edge.specs.Counts.{Counts};
ghost use Rattle.uf_edge.specs.Host.{IsFileAt};
ghost use Rattle.uf_store.specs.Among.{SavesAmong};
ghost use Rattle.uf_store.specs.Calls.{OnlySaves};
ghost use Rattle.uf_store.specs.Clashes.{IsSaving};
ghost use Rattle.uf_store.specs.Faults.{NoneIsBad, fault_in};
ghost use Rattle.uf_tree.specs.FilePlan.{file_plan};
ghost use Rattle.uf_tree.specs.Metas.{none};
ghost use Rattle.uf_tree.specs.Profiles.{is_profile, most_bytes};
ghost use Rattle.uf_tree.specs.declared.profile.Profile.{Profile as TheProfile};
ghost use Rattle.uf_host.specs.Faults.{edge_fault, is_read_fault};
ghost use Rattle.uf_host.specs.Reading.{AddsFile, ClosesHostFile, ReadsAll, ReadsNext, SavesFileAt, StopsNext};
ghost use Rattle.uf_host.specs.Reading.{TakesPiece, TookBytes};

use crate::HostFault;
use crate::import::Import;
use std::sync::ledger::Ledger;
use uf_build::{BuildFault, Builder};
use uf_cid::{Text, slices_hold_bytes};
use uf_edge::{Fetched, Host};
use uf_store::{Steps, Store, StoreFault};
use uf_tree::Entry;

// The entry of the file at a path, whose blocks are saved.
pub fn add_file<S: Store, W: Host, L: Ledger>(
    import: &mut Import,
    store: &mut S,
    host: &mut W,
    path: &Text,
    touches: &mut Steps<L>,
) -> Result<Entry, HostFault>
    requires { IsFileAt (W.tree host.old) path.now }
    ensures file { AddsFile S.X.block32 import.old.profile (S.seen store.old).told (S.seen store.new).told
        (W.tree host.old) path.now result }
    ensures no_other { OnErr result (SavesFileAt S.X.block32 import.old.profile
        (S.seen store.old).told (S.seen store.new).told (W.tree host.old) path.now) }
    ensures saves { OnlySaves S.X.block32 NoneIsBad (edge_fault result) (S.seen store.old) (S.seen store.new) }
    ensures told { W.tree host.new ≡ W.tree host.old }
    ensures reads { Counts (is_read_fault result) (W.read_faults host.old) (W.read_faults host.new) }
    ensures writes { W.write_faults host.new ≡ W.write_faults host.old }
    ensures profile { import.new.profile ≡ import.old.profile }
    ensures rows { import.new.rows ≡ import.old.rows }
{
    let mut builder = Builder::new(import.alloc, import.profile);
    feed_all(&mut builder, store, host, path, &mut import.buffer, touches)?;
    Ok(close(builder, store, touches)?)
}

// The entry of what a builder has taken.
fn close<S: Store, L: Ledger>(
    builder: Builder,
    store: &mut S,
    touches: &mut Steps<L>,
) -> Result<Entry, StoreFault>
    requires { builder.is_spent ≡ false }
    ensures closes { IfOk result (λ e.
        ClosesHostFile S.X.block32 (S.seen store.old).told (S.seen store.new).told builder e) }
    ensures no_other { (bytes : List ℕ) → HasFed S.X.block32 bytes builder → SavesAmong S.X.block32
        (file_plan S.X.block32 builder.profile none bytes).blocks (S.seen store.old).told (S.seen store.new).told }
    ensures fault { IfErr result IsSaving }
    ensures saves { OnlySaves S.X.block32 NoneIsBad (fault_in result) (S.seen store.old) (S.seen store.new) }
{
    match builder.finish(store, touches) {
        Ok(entry) => Ok(entry),
        Err(BuildFault::Store(fault)) => Err(fault),
        Err(BuildFault::FileTooLong | BuildFault::Spent) => unreachable!(),
    }
}

// Gives a builder that has taken nothing the whole file, as much at once as the buffer has room for.
fn feed_all<S: Store, W: Host, L: Ledger>(
    builder: &mut Builder,
    store: &mut S,
    host: &mut W,
    path: &Text,
    buffer: &mut [u8],
    touches: &mut Steps<L>,
) -> Result<(), HostFault>
    requires some { 0 < length buffer.old }
    requires file { IsFileAt (W.tree host.old) path.now }
    requires profile { IsTrue (is_profile builder.old.profile) }
    requires fresh { TookBytes S.X.block32 builder.old.profile (S.seen store.old).told [] builder.old }
    ensures reads_all { ReadsAll S.X.block32 builder.old.profile (S.seen store.old).told (S.seen store.new).told
        (W.tree host.old) path.now builder.new result }
    ensures no_other { OnErr result (SavesFileAt S.X.block32 builder.old.profile
        (S.seen store.old).told (S.seen store.new).told (W.tree host.old) path.now) }
    ensures saves { OnlySaves S.X.block32 NoneIsBad (edge_fault result) (S.seen store.old) (S.seen store.new) }
    ensures told { W.tree host.new ≡ W.tree host.old }
    ensures reads { Counts (is_read_fault result) (W.read_faults host.old) (W.read_faults host.new) }
    ensures writes { W.write_faults host.new ≡ W.write_faults host.old }
{
    let mut offset: u64 = 0;
    'pieces: loop {
        let count = feed_next(builder, store, host, path, offset, buffer, touches)?;
        if count == 0 {
            return Ok(());
        }
        offset += count as u64;
    }
}

// Gives a builder that has taken the first bytes of a file the next ones: how many, and none at the end.
fn feed_next<S: Store, W: Host, L: Ledger>(
    builder: &mut Builder,
    store: &mut S,
    host: &mut W,
    path: &Text,
    offset: u64,
    buffer: &mut [u8],
    touches: &mut Steps<L>,
) -> Result<usize, HostFault>
    requires some { 0 < length buffer.old }
    requires file { IsFileAt (W.tree host.old) path.now }
    requires ready { builder.old.is_spent ≡ false }
    ensures reads_next { (p : TheProfile) (bytes : List ℕ)
        → TookBytes S.X.block32 p (S.seen store.old).told bytes builder.old → offset ≡ length bytes
        → ReadsNext S.X.block32 p (S.seen store.old).told (S.seen store.new).told (W.tree host.old) path.now bytes
        builder.new result }
    ensures no_other { OnErr result ((p : TheProfile) (bytes : List ℕ)
        → TookBytes S.X.block32 p (S.seen store.old).told bytes builder.old → offset ≡ length bytes
        → StopsNext S.X.block32 p (S.seen store.old).told (S.seen store.new).told (W.tree host.old) path.now bytes) }
    ensures saves { OnlySaves S.X.block32 NoneIsBad (edge_fault result) (S.seen store.old) (S.seen store.new) }
    ensures told { W.tree host.new ≡ W.tree host.old }
    ensures reads { Counts (is_read_fault result) (W.read_faults host.old) (W.read_faults host.new) }
    ensures writes { W.write_faults host.new ≡ W.write_faults host.old }
{
    match host.read_at(path.as_str(), offset, buffer) {
        Fetched::Got(count) => {
            feed_piece(builder, store, path, &buffer[..count], touches)?;
            Ok(count)
        }
        Fetched::End => Ok(0),
        Fetched::Failed => Err(HostFault::Read),
        Fetched::Memory => Err(HostFault::Store(StoreFault::Memory)),
    }
}

// Gives a builder a piece of the file at a path.
fn feed_piece<S: Store, L: Ledger>(
    builder: &mut Builder,
    store: &mut S,
    path: &Text,
    piece: &[u8],
    touches: &mut Steps<L>,
) -> Result<(), HostFault>
    requires { builder.old.is_spent ≡ false }
    ensures takes { (p : TheProfile) (bytes : List ℕ)
        → TookBytes S.X.block32 p (S.seen store.old).told bytes builder.old
        → TakesPiece S.X.block32 p (S.seen store.new).told path.now bytes piece.now builder.new result }
    ensures no_other { (bytes : List ℕ) → HasFed S.X.block32 bytes builder.old → SavesForFront S.X.block32
        builder.old.profile (bytes ++ piece.now) (S.seen store.old).told (S.seen store.new).told }
    ensures saves { OnlySaves S.X.block32 NoneIsBad (edge_fault result) (S.seen store.old) (S.seen store.new) }
    ensures reads { is_read_fault result ≡ false }
{
    slices_hold_bytes(piece);
    match builder.feed(store, piece, touches) {
        Ok(()) => Ok(()),
        Err(BuildFault::FileTooLong) => Err(HostFault::FileTooLong(path.copy()?)),
        Err(BuildFault::Spent) => unreachable!(),
        Err(BuildFault::Store(fault)) => Err(HostFault::Store(fault)),
    }
}
