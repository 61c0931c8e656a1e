//! The generated tree built afresh.
ghost use Rattle.std.specs.Prelude.{◌≡◌, ◌≤◌, ◌++◌, IfErr, IfOk, IsTrue, List, OnOk, [], ℕ, false, length};
ghost use Rattle.uf_build.specs.Building.{HasFed};
ghost use Rattle.uf_shard.specs.Answers.{Gives, dir_fault};
ghost use Rattle.uf_store.specs.Among.{SavesAmong};
ghost use Rattle.uf_store.specs.Calls.{OnlySaves};
ghost use Rattle.uf_store.specs.Clashes.{IsSaving};
ghost use Rattle.uf_store.specs.Faults.{NoneIsBad, fault_in};
ghost use Rattle.uf_tree.specs.FilePlan.{file_plan};
ghost use Rattle.uf_tree.specs.Metas.{none};
ghost use Rattle.uf_tree.specs.Profiles.{is_profile};
ghost use Rattle.uf_tree.specs.TreePlan.{blocks as blocks_of, entry as entry_of, refusal as refusal_of};
ghost use Rattle.uf_gen.specs.Fresh.{left_blocks, left_entry, left_tree};
ghost use Rattle.uf_gen.specs.Rules.{last_bytes as bytes_last};

use crate::rules::{file_name, last_bytes};
use std::alloc::Global;
use std::sync::ledger::Ledger;
use uf_build::{BuildFault, Builder};
use uf_murmur::NameHash;
use uf_shard::DirFault;
use uf_store::{Steps, Store, StoreFault};
use uf_tree::{Entry, Meta, Pair, Pairs, Profile};

/// Builds the files that are left of the first `n`, as they are in the end, and the directory of them: its entry, or
/// why it has none. Nothing is read of what the generator's commands made.
pub fn fresh_root<S: Store, N: NameHash, L: Ledger>(
    alloc: Global,
    p: &Profile,
    n: u64,
    seed: u64,
    store: &mut S,
    touches: &mut Steps<L>,
) -> Result<Entry, DirFault>
    requires profile { IsTrue (is_profile p.now) }
    requires few { n ≤ 100000000 }
    ensures answer { Gives (refusal_of S.X.block32 N.name64 p.now (left_tree seed n))
        (entry_of S.X.block32 N.name64 p.now (left_tree seed n)) result }
    ensures saves { OnlySaves S.X.block32 NoneIsBad (dir_fault result) (S.seen store.old) (S.seen store.new) }
    ensures no_other { SavesAmong S.X.block32 (blocks_of S.X.block32 N.name64 p.now (left_tree seed n))
        (S.seen store.old).told (S.seen store.new).told }
{
    let mut pairs = Pairs::new(alloc);
    for i in 0..n {
        add_left(alloc, p, seed, i, &mut pairs, store, touches)?;
    }
    uf_dir::build::<S, N, L>(alloc, store, p, &pairs, &Meta::none(), touches)
}

// Builds a file as it is in the end, where it is left, and puts its entry after those of the files before it.
fn add_left<S: Store, L: Ledger>(
    alloc: Global,
    p: &Profile,
    seed: u64,
    i: u64,
    pairs: &mut Pairs,
    store: &mut S,
    touches: &mut Steps<L>,
) -> Result<(), StoreFault>
    requires { IsTrue (is_profile p.now) }
    ensures adds { OnOk result (pairs.new ≡ pairs.old ++ left_entry S.X.block32 p.now seed i) }
    ensures fault { IfErr result IsSaving }
    ensures saves { OnlySaves S.X.block32 NoneIsBad (fault_in result) (S.seen store.old) (S.seen store.new) }
    ensures no_other { SavesAmong S.X.block32 (left_blocks S.X.block32 p.now seed i)
        (S.seen store.old).told (S.seen store.new).told }
{
    if i % 3 == 0 {
        return Ok(());
    }
    let name = file_name(alloc, i)?;
    let bytes = last_bytes(alloc, seed, i)?;
    let entry = file_entry(alloc, p, bytes.as_slice(), store, touches)?;
    pairs.push(Pair { name, entry })?;
    Ok(())
}

// Builds a file of few bytes.
fn file_entry<S: Store, L: Ledger>(
    alloc: Global,
    p: &Profile,
    bytes: &[u8],
    store: &mut S,
    touches: &mut Steps<L>,
) -> Result<Entry, StoreFault>
    requires profile { IsTrue (is_profile p.now) }
    requires few { length bytes.now ≤ 4194304 }
    ensures entry { IfOk result (λ e. e ≡ (file_plan S.X.block32 p.now none bytes.now).entry) }
    ensures fault { IfErr result IsSaving }
    ensures saves { OnlySaves S.X.block32 NoneIsBad (fault_in result) (S.seen store.old) (S.seen store.new) }
    ensures no_other { SavesAmong S.X.block32 (file_plan S.X.block32 p.now none bytes.now).blocks
        (S.seen store.old).told (S.seen store.new).told }
{
    let mut builder = Builder::new(alloc, *p);
    feed(&mut builder, bytes, store, touches)?;
    Ok(close(builder, store, touches)?)
}

// Gives a builder that has taken nothing the few bytes of a file.
fn feed<S: Store, L: Ledger>(
    builder: &mut Builder,
    bytes: &[u8],
    store: &mut S,
    touches: &mut Steps<L>,
) -> Result<(), StoreFault>
    requires profile { IsTrue (is_profile builder.old.profile) }
    requires ready { builder.old.is_spent ≡ false }
    requires unfed { builder.old.fed ≡ 0 }
    requires few { length bytes.now ≤ 4194304 }
    ensures fed { OnOk result (HasFed S.X.block32 [] builder.old → HasFed S.X.block32 bytes.now builder.new) }
    ensures profile { builder.new.profile ≡ builder.old.profile }
    ensures ready { OnOk result (builder.new.is_spent ≡ false) }
    ensures fault { IfErr result IsSaving }
    ensures saves { OnlySaves S.X.block32 NoneIsBad (fault_in result) (S.seen store.old) (S.seen store.new) }
    ensures no_other { HasFed S.X.block32 [] builder.old
        → SavesAmong S.X.block32 (file_plan S.X.block32 builder.old.profile none bytes.now).blocks
        (S.seen store.old).told (S.seen store.new).told }
{
    match builder.feed(store, bytes, touches) {
        Ok(()) => Ok(()),
        Err(BuildFault::Store(fault)) => Err(fault),
        Err(BuildFault::FileTooLong | BuildFault::Spent) => unreachable!(),
    }
}

// The entry of what a builder has taken.
fn close<S: Store, L: Ledger>(
    builder: Builder,
    store: &mut S,
    touches: &mut Steps<L>,
) -> Result<Entry, StoreFault>
    requires { builder.is_spent ≡ false }
    ensures entry { IfOk result (λ e. (bytes : List ℕ) → HasFed S.X.block32 bytes builder
        → e ≡ (file_plan S.X.block32 builder.profile none bytes).entry) }
    ensures fault { IfErr result IsSaving }
    ensures saves { OnlySaves S.X.block32 NoneIsBad (fault_in result) (S.seen store.old) (S.seen store.new) }
    ensures no_other { (bytes : List ℕ) → HasFed S.X.block32 bytes builder
        → SavesAmong S.X.block32 (file_plan S.X.block32 builder.profile none bytes).blocks
        (S.seen store.old).told (S.seen store.new).told }
{
    match builder.finish(store, touches) {
        Ok(entry) => Ok(entry),
        Err(BuildFault::Store(fault)) => Err(fault),
        Err(BuildFault::FileTooLong | BuildFault::Spent) => unreachable!(),
    }
}
