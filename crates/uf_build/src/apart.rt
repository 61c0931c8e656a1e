//! Sources that are read as files, with touches that are counted apart from the caller's.
ghost use Rattle.std.specs.Prelude.{◌≡◌, ◌<◌, ℕ, List, IfSome, IsTrue, None};
ghost use Rattle.uf_edge.specs.Counts.{Counts};
ghost use Rattle.uf_edge.specs.Streams.{Told};
ghost use Rattle.uf_store.specs.Faults.{NoneIsBad, Shown};
ghost use Rattle.uf_store.specs.Keeping.{KeepsGood};
ghost use Rattle.uf_store.specs.Writing.{SavesOnly};
ghost use Rattle.uf_store.specs.declared.store.StoreFault.TheVariants as stops;
ghost use Rattle.uf_build.specs.Faults.{fails_reading, intake_fault};
ghost use Rattle.uf_build.specs.Intake.{IsFileOf, SavesOfFile};
ghost use Rattle.uf_tree.specs.Profiles.{is_profile};
ghost use Rattle.uf_tree.specs.declared.profile.Profile.{Profile as TheProfile};

use crate::{IntakeFault, file_of};
use std::alloc::Global;
use std::marker::Brand;
use std::sync::ledger::{Blank, Ledger};
use uf_cid::BlockHash;
use uf_edge::Source;
use uf_store::{Discard, Steps, Store, StoreFault};
use uf_tree::{Entry, Profile};

/// The same as `file_of`, with a count of its own for the touches.
pub fn file_apart<S: Store, I: Source>(
    alloc: Global,
    profile: Profile,
    store: &mut S,
    input: &mut I,
) -> Result<Entry, IntakeFault>
    requires { IsTrue (is_profile profile) }
    ensures file { IsFileOf S.X.block32 profile (S.seen store.new).told result (I.left input.old) (I.left input.new) }
    ensures counts { Counts (fails_reading result) (I.faults input.old) (I.faults input.new) }
    ensures cause { Shown S.X.block32 NoneIsBad (intake_fault result) (S.seen store.old) (S.seen store.new) }
    ensures good { KeepsGood S.X.block32 (S.seen store.old).told (S.seen store.new).told }
    ensures saves { SavesOnly S.X.block32 (S.seen store.old).told (S.seen store.new).told }
    ensures no_other { SavesOfFile S.X.block32 profile result (S.seen store.old).told (S.seen store.new).told
        (I.left input.old) (I.left input.new) }
{
    counted_file::<S, I, Brand>(alloc, profile, store, input, Blank::new(1))
}

// The same, over the blank of that count.
fn counted_file<S: Store, I: Source, L: Ledger>(
    alloc: Global,
    profile: Profile,
    store: &mut S,
    input: &mut I,
    blank: Blank,
) -> Result<Entry, IntakeFault>
    requires profile { IsTrue (is_profile profile) }
    requires name { blank.name ≡ L.name }
    requires parts { blank.parts ≡ L.parts }
    requires some { 0 < blank.parts }
    ensures file { IsFileOf S.X.block32 profile (S.seen store.new).told result (I.left input.old) (I.left input.new) }
    ensures counts { Counts (fails_reading result) (I.faults input.old) (I.faults input.new) }
    ensures cause { Shown S.X.block32 NoneIsBad (intake_fault result) (S.seen store.old) (S.seen store.new) }
    ensures good { KeepsGood S.X.block32 (S.seen store.old).told (S.seen store.new).told }
    ensures saves { SavesOnly S.X.block32 (S.seen store.old).told (S.seen store.new).told }
    ensures no_other { SavesOfFile S.X.block32 profile result (S.seen store.old).told (S.seen store.new).told
        (I.left input.old) (I.left input.new) }
{
    let mut touches = Steps::<L>::new(blank);
    file_of(alloc, profile, store, input, &mut touches)
}

/// The entry of the file that the source has, with nothing kept.
pub fn hash_of<X: BlockHash, I: Source>(
    alloc: Global,
    profile: Profile,
    input: &mut I,
) -> Result<Entry, IntakeFault>
    requires { IsTrue (is_profile profile) }
    ensures file { IsFileOf X.block32 profile None result (I.left input.old) (I.left input.new) }
    ensures counts { Counts (fails_reading result) (I.faults input.old) (I.faults input.new) }
    ensures wants { IfSome (intake_fault result) (λ fault. fault ≡ stops.Memory) }
{
    let mut store = Discard::<X>::new();
    without_store_faults(file_apart(alloc, profile, &mut store, input))
}

// The same answer, with out of memory in the place of each other fault of the store.
fn without_store_faults(answer: Result<Entry, IntakeFault>) -> Result<Entry, IntakeFault>
    ensures file { (hash : List ℕ → List ℕ) (p : TheProfile) (left left_now : Told)
        → IsFileOf hash p None answer left left_now → IsFileOf hash p None result left left_now }
    ensures reading { fails_reading result ≡ fails_reading answer }
    ensures wants { IfSome (intake_fault result) (λ fault. fault ≡ stops.Memory) }
{
    match answer {
        Ok(entry) => Ok(entry),
        Err(IntakeFault::Read) => Err(IntakeFault::Read),
        Err(IntakeFault::FileTooLong) => Err(IntakeFault::FileTooLong),
        Err(IntakeFault::Store(_)) => Err(IntakeFault::Store(StoreFault::Memory)),
    }
}
