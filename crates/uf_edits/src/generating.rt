//! A large tree is generated, changed and built afresh, each on a store of its own.
ghost use Rattle.std.specs.Prelude.{◌≡◌, ◌≤◌, false, IfOk, IfSome, Ok};
ghost use Rattle.std.specs.declared.result.Result.{Result as TheResult};
ghost use Rattle.uf_command.specs.Commands.{IsGoodAsk};
ghost use Rattle.uf_command.specs.declared.types.Ask.TheVariants as asks;
ghost use Rattle.uf_command.specs.declared.types.Edit.TheVariants as edits;
ghost use Rattle.uf_edits.specs.Edits.{IsTreeFault, edited_by};
ghost use Rattle.uf_edits.specs.Generated.{Grows, GrowsRoot, IsGenerated, IsOfStore, RefusesFresh, RefusesOwn};
ghost use Rattle.uf_edits.specs.Generated.{StandsFor, generated_lines as generated_lines_of, small_profile, step_edit};
ghost use Rattle.uf_gen.specs.Grown.{after_step, file_path as path_of, stepped};
ghost use Rattle.uf_mfs.specs.Standing.{IsMfs};
ghost use Rattle.uf_plain.specs.Moves.{then_go};
ghost use Rattle.uf_plain.specs.declared.rule.Rule.{Rule as TheRule};
ghost use Rattle.uf_store.specs.InMemory.{new_seen};
ghost use Rattle.uf_tree.specs.Tree.{Entries};

use crate::editing::edited;
use std::alloc::Global;
use std::sync::ledger::Ledger;
use uf_cid::{Block, BlockHash, Cid, Memory};
use uf_command::{Edit, Refusal, own_refusal, put_line, put_number};
use uf_gen::{
    Step, file_path, first_bytes, fresh_root, late_offset, late_piece, left_count, left_size,
};
use uf_mfs::{Mfs, MfsFault};
use uf_murmur::NameHash;
use uf_plain::WriteHow;
use uf_shard::DirFault;
use uf_store::{MemStore, Steps, Store};
use uf_tree::{Entry, Profile};

// The profile of the generated tree.
const SMALL: Profile = Profile {
    chunk: 4096,
    width: 174,
    threshold: 4096,
};

/// What is said of the tree that the generator's steps make of `n` files, on a store in memory, and of the same tree
/// built afresh on another one: five lines, or the first rule that refuses a step. A clash of two blocks is shown. The
/// touches of both stores are counted.
pub fn generated<X: BlockHash, N: NameHash, L: Ledger>(
    alloc: Global,
    n: u64,
    seed: u64,
    touches: &mut Steps<L>,
) -> Result<Block, Refusal>
    requires { n ≤ 20000 }
    ensures { IsGenerated X.block32 N.name64 n seed result }
{
    let mut store = MemStore::<X>::new(alloc);
    match grown_root::<MemStore<X>, N, L>(alloc, n, seed, &mut store, touches) {
        Err(fault) => Err(grown_refusal(fault)),
        Ok(root) => generated_beside::<X, N, L>(alloc, n, seed, &root, touches),
    }
}

// What is printed where the steps made this root: it is built afresh beside it.
fn generated_beside<X: BlockHash, N: NameHash, L: Ledger>(
    alloc: Global,
    n: u64,
    seed: u64,
    root: &Entry,
    touches: &mut Steps<L>,
) -> Result<Block, Refusal>
    requires few { n ≤ 20000 }
    requires grown { GrowsRoot X.block32 N.name64 n seed (Ok root.now) }
    ensures { IsGenerated X.block32 N.name64 n seed result }
{
    let mut store = MemStore::<X>::new(alloc);
    match fresh_root::<MemStore<X>, N, L>(alloc, &SMALL, n, seed, &mut store, touches) {
        Err(fault) => Err(fresh_refusal(fault)),
        Ok(fresh) => Ok(generated_lines(alloc, n, seed, root, &fresh.cid)?),
    }
}

// The five lines of a root and of the root that was built afresh.
fn generated_lines(
    alloc: Global,
    n: u64,
    seed: u64,
    root: &Entry,
    fresh: &Cid,
) -> Result<Block, Memory>
    requires { n ≤ 20000 }
    ensures { IfOk result (λ text. text ≡ generated_lines_of n seed root.now fresh.now) }
{
    let mut out = Block::new(alloc);
    put_number(alloc, &mut out, b"names ", left_count(n))?;
    put_number(alloc, &mut out, b"bytes ", left_size(seed, n))?;
    put_number(alloc, &mut out, b"cumulative ", root.tsize)?;
    put_line(&mut out, b"root ", &root.cid.text())?;
    put_line(&mut out, b"fresh ", &fresh.text())?;
    Ok(out)
}

// The fault of a call over a store of the generator's own, as a refusal.
fn grown_refusal(fault: MfsFault) -> Refusal
    requires { IsTreeFault fault }
    ensures { RefusesOwn fault result }
{
    match fault {
        MfsFault::Rule(rule) => Refusal::Rule(rule),
        MfsFault::Store(fault) => own_refusal(fault),
        MfsFault::Ready(_) | MfsFault::Sink => unreachable!(),
    }
}

// Why a tree isn't built afresh that the steps made: its plan is there, so no rule refuses it.
fn fresh_refusal(fault: DirFault) -> Refusal
    requires { IsOfStore fault }
    ensures { RefusesFresh fault result }
{
    match fault {
        DirFault::Store(fault) => own_refusal(fault),
        DirFault::Collision(..) | DirFault::TooBig => unreachable!(),
    }
}

// The root of the tree that the generator's steps make on a new store.
fn grown_root<S: Store, N: NameHash, L: Ledger>(
    alloc: Global,
    n: u64,
    seed: u64,
    store: &mut S,
    touches: &mut Steps<L>,
) -> Result<Entry, MfsFault>
    ensures { S.seen store.old ≡ new_seen → GrowsRoot S.X.block32 N.name64 n seed result }
{
    let mut tree = Mfs::init::<S, N, L>(alloc, store, SMALL, touches)?;
    step_all::<S, N, L>(alloc, Step::Make, n, seed, &mut tree, store, touches)?;
    step_all::<S, N, L>(alloc, Step::Change, n, seed, &mut tree, store, touches)?;
    Ok(tree.root)
}

// Does a step to the first n files.
fn step_all<S: Store, N: NameHash, L: Ledger>(
    alloc: Global,
    step: Step,
    n: u64,
    seed: u64,
    tree: &mut Mfs,
    store: &mut S,
    touches: &mut Steps<L>,
) -> Result<(), MfsFault>
    requires { IsMfs tree.old }
    ensures grows { StandsFor S.X.block32 N.name64 (stepped S.X.block32 N.name64 small_profile seed step n 0)
        (S.seen store.old) tree.old
        → Grows S.X.block32 N.name64 (stepped S.X.block32 N.name64 small_profile seed step n n) (S.seen store.new)
        tree.new result }
    ensures mfs { IsMfs tree.new }
{
    for i in 0..n {
        step_one::<S, N, L>(alloc, step, seed, i, tree, store, touches)?;
    }
    Ok(())
}

// Does a step to a file.
fn step_one<S: Store, N: NameHash, L: Ledger>(
    alloc: Global,
    step: Step,
    seed: u64,
    i: u64,
    tree: &mut Mfs,
    store: &mut S,
    touches: &mut Steps<L>,
) -> Result<(), MfsFault>
    requires { IsMfs tree.old }
    ensures grows { (made : TheResult Entries TheRule)
        → StandsFor S.X.block32 N.name64 made (S.seen store.old) tree.old
        → Grows S.X.block32 N.name64 (then_go made (after_step S.X.block32 N.name64 small_profile seed step i))
        (S.seen store.new) tree.new result }
    ensures mfs { IsMfs tree.new }
{
    match edit_of(alloc, step, seed, i)? {
        None => Ok(()),
        Some(edit) => edit_file::<S, N, L>(alloc, i, &edit, tree, store, touches),
    }
}

// Edits a file of the generated tree.
fn edit_file<S: Store, N: NameHash, L: Ledger>(
    alloc: Global,
    i: u64,
    edit: &Edit,
    tree: &mut Mfs,
    store: &mut S,
    touches: &mut Steps<L>,
) -> Result<(), MfsFault>
    requires mfs { IsMfs tree.old }
    requires good { IsGoodAsk (asks.Edit edit.now) }
    ensures grows { (made : TheResult Entries TheRule)
        → StandsFor S.X.block32 N.name64 made (S.seen store.old) tree.old
        → Grows S.X.block32 N.name64
        (then_go made (edited_by S.X.block32 N.name64 edit.now (path_of i) small_profile))
        (S.seen store.new) tree.new result }
    ensures mfs { IsMfs tree.new }
{
    let path = file_path(alloc, i)?;
    edited::<S, N, L>(alloc, tree, edit, &path, store, touches)
}

// The edit of a step to a file, if there is any.
fn edit_of(alloc: Global, step: Step, seed: u64, i: u64) -> Result<Option<Edit>, Memory>
    ensures edit { IfOk result (λ edit. edit ≡ step_edit step seed i) }
    ensures good { IfOk result (λ edit. IfSome edit (λ edit. IsGoodAsk (asks.Edit edit))) }
{
    match step {
        Step::Make => Ok(Some(write_at(0, true, first_bytes(alloc, seed, i)?))),
        Step::Change if i % 3 == 0 => Ok(Some(Edit::Rm { recursive: false })),
        Step::Change if i % 3 == 1 => {
            Ok(Some(write_at(late_offset(seed, i), false, late_piece(alloc)?)))
        }
        Step::Change => Ok(None),
    }
}

// A write of a piece into a file.
fn write_at(offset: u64, create: bool, piece: Block) -> Edit
    ensures { result ≡ edits.Write (record { offset = offset; create = create; cut = false }) piece }
{
    let how = WriteHow {
        offset,
        create,
        cut: false,
    };
    Edit::Write { how, piece }
}
