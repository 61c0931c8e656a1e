//! `init`, and what `files` does at one path of the tree that the Head names.
ghost use Rattle.std.specs.Prelude.{ℕ, false, true, IsTrue};
ghost use Rattle.uf_mfs.specs.Standing.{IsMfs};
ghost use Rattle.uf_tree.specs.Profiles.{is_profile};
ghost use Rattle.uf_command.specs.Commands.{IsGoodAsk};
ghost use Rattle.uf_top.specs.Causes.{IsMade, IsOpeningFault, IsSendingFault};
ghost use Rattle.uf_edits.specs.Edits.{IsTreeFault};
ghost use Rattle.uf_top.specs.Causes.{RefusesInTree, RefusesOpening, RefusesSending};
ghost use Rattle.uf_top.specs.Lent.{OverStore};
ghost use Rattle.uf_top.specs.Opening.{OpensTree};
ghost use Rattle.uf_top.specs.Working.{Makes, WorksAt};
ghost use Rattle.uf_command.specs.declared.types.Ask.TheVariants as asks;
ghost use Rattle.uf_command.specs.declared.types.Command.TheVariants as commands;

use std::alloc::Global;
use std::sync::ledger::Ledger;
use uf_cid::{Block, Memory};
use uf_command::{Ask, Edit, Refusal, name_lines, row_lines, stat_text};
use uf_edits::edited;
use uf_mfs::{Mfs, MfsFault};
use uf_murmur::NameHash;
use uf_path::Path;
use uf_store::{Steps, Store};
use uf_tree::Profile;

// Makes the store ready.
pub fn init<S: Store, N: NameHash, L: Ledger>(
    alloc: Global,
    profile: Profile,
    store: &mut S,
    touches: &mut Steps<L>,
) -> Result<Block, Refusal>
    requires { IsTrue (is_profile profile) }
    ensures { OverStore (Makes S.X.block32 N.name64 (commands.Init profile) result)
        (S.seen store.old) touches.old (S.seen store.new) touches.new }
{
    let _ = Mfs::init::<S, N, L>(alloc, store, profile, touches).map_err(opening)?;
    Ok(Block::new(alloc))
}

// Does what is asked at a path of the tree that the Head names.
pub fn at<S: Store, N: NameHash, L: Ledger>(
    alloc: Global,
    ask: &Ask,
    path: &Path,
    store: &mut S,
    touches: &mut Steps<L>,
) -> Result<Block, Refusal>
    requires { IsGoodAsk ask.now }
    ensures { OverStore (Makes S.X.block32 N.name64 (commands.At ask.now path.now) result)
        (S.seen store.old) touches.old (S.seen store.new) touches.new }
{
    let tree = opened::<S, N, L>(alloc, store, touches)?;
    in_tree::<S, N, L>(alloc, tree, ask, path, store, touches)
}

// The tree that the Head names.
pub fn opened<S: Store, N: NameHash, L: Ledger>(
    alloc: Global,
    store: &mut S,
    touches: &mut Steps<L>,
) -> Result<Mfs, Refusal>
    ensures { OpensTree S.X.block32 N.name64 result (S.seen store.old) (S.seen store.new) touches.old touches.new }
{
    Mfs::from_store::<S, N, L>(alloc, store, touches).map_err(opening)
}

// Does what is asked at a path of an opened tree.
fn in_tree<S: Store, N: NameHash, L: Ledger>(
    alloc: Global,
    tree: Mfs,
    ask: &Ask,
    path: &Path,
    store: &mut S,
    touches: &mut Steps<L>,
) -> Result<Block, Refusal>
    requires mfs { IsMfs tree }
    requires good { IsGoodAsk ask.now }
    ensures { WorksAt S.X.block32 N.name64 tree ask.now path.now result (S.seen store.old) (S.seen store.new)
        touches.old touches.new }
{
    match ask {
        Ask::Ls { long: false } => names_at::<S, N, L>(alloc, &tree, path, store, touches),
        Ask::Ls { long: true } => rows_at::<S, N, L>(alloc, &tree, path, store, touches),
        Ask::Stat => stat_at::<S, N, L>(alloc, &tree, path, store, touches),
        Ask::Edit { edit } => edit_at::<S, N, L>(alloc, tree, edit, path, store, touches),
    }
}

// The names of what is at a path.
fn names_at<S: Store, N: NameHash, L: Ledger>(
    alloc: Global,
    tree: &Mfs,
    path: &Path,
    store: &mut S,
    touches: &mut Steps<L>,
) -> Result<Block, Refusal>
    ensures { WorksAt S.X.block32 N.name64 tree.now (asks.Ls false) path.now result (S.seen store.old)
        (S.seen store.new) touches.old touches.new }
{
    let found = tree.names::<S, N, L>(alloc, store, path, touches);
    made(name_lines(alloc, &found.map_err(refusal)?))
}

// The rows of what is at a path.
fn rows_at<S: Store, N: NameHash, L: Ledger>(
    alloc: Global,
    tree: &Mfs,
    path: &Path,
    store: &mut S,
    touches: &mut Steps<L>,
) -> Result<Block, Refusal>
    ensures { WorksAt S.X.block32 N.name64 tree.now (asks.Ls true) path.now result (S.seen store.old)
        (S.seen store.new) touches.old touches.new }
{
    let found = tree.ls::<S, N, L>(alloc, store, path, touches);
    made(row_lines(alloc, &found.map_err(refusal)?))
}

// What is said of what is at a path.
fn stat_at<S: Store, N: NameHash, L: Ledger>(
    alloc: Global,
    tree: &Mfs,
    path: &Path,
    store: &mut S,
    touches: &mut Steps<L>,
) -> Result<Block, Refusal>
    ensures { WorksAt S.X.block32 N.name64 tree.now asks.Stat path.now result (S.seen store.old) (S.seen store.new)
        touches.old touches.new }
{
    let found = tree.stat::<S, N, L>(alloc, store, path, touches);
    made(stat_text(alloc, &found.map_err(refusal)?))
}

// Edits the tree at a path, and writes its Head. Nothing is printed.
pub fn edit_at<S: Store, N: NameHash, L: Ledger>(
    alloc: Global,
    tree: Mfs,
    edit: &Edit,
    path: &Path,
    store: &mut S,
    touches: &mut Steps<L>,
) -> Result<Block, Refusal>
    requires mfs { IsMfs tree }
    requires good { IsGoodAsk (asks.Edit edit.now) }
    ensures { WorksAt S.X.block32 N.name64 tree (asks.Edit edit.now) path.now result (S.seen store.old)
        (S.seen store.new) touches.old touches.new }
{
    let mut tree = tree;
    edited::<S, N, L>(alloc, &mut tree, edit, path, store, touches).map_err(refusal)?;
    tree.commit::<S, N, L>(alloc, store, touches)
        .map_err(refusal)?;
    Ok(Block::new(alloc))
}

// The fault of a call that opens a tree as a refusal. No rule refuses that, and nothing is printed there.
fn opening(fault: MfsFault) -> Refusal
    requires { IsOpeningFault fault }
    ensures { RefusesOpening fault result }
{
    match fault {
        MfsFault::Ready(why) => Refusal::Ready(why),
        MfsFault::Store(fault) => Refusal::Store(fault),
        MfsFault::Rule(_) | MfsFault::Sink => unreachable!(),
    }
}

// The fault of a call that sends a file of an opened tree, as a refusal. Such a tree is ready.
pub fn sending(fault: MfsFault) -> Refusal
    requires { IsSendingFault fault }
    ensures { RefusesSending fault result }
{
    match fault {
        MfsFault::Rule(rule) => Refusal::Rule(rule),
        MfsFault::Store(fault) => Refusal::Store(fault),
        MfsFault::Sink => Refusal::Write,
        MfsFault::Ready(_) => unreachable!(),
    }
}

// The fault of a call on an opened tree as a refusal. Such a tree is ready, and nothing is printed there.
pub fn refusal(fault: MfsFault) -> Refusal
    requires { IsTreeFault fault }
    ensures { RefusesInTree fault result }
{
    match fault {
        MfsFault::Rule(rule) => Refusal::Rule(rule),
        MfsFault::Store(fault) => Refusal::Store(fault),
        MfsFault::Ready(_) | MfsFault::Sink => unreachable!(),
    }
}

// What was made to be printed, or out of memory.
fn made(text: Result<Block, Memory>) -> Result<Block, Refusal>
    ensures { IsMade text result }
{
    Ok(text?)
}
