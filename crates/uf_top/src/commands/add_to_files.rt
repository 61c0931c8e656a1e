//! `add --to-files`: the input, or what the host has at a path, put into the tree that the Head names.
ghost use Rattle.std.specs.Prelude.{◌≡◌, ◌<◌, ℕ, List, IsTrue, option_copied};
ghost use Rattle.uf_edge.specs.Counts.{Counts};
ghost use Rattle.uf_mfs.specs.Standing.{IsMfs};
ghost use Rattle.uf_command.specs.Statuses.{ended, no_memory};
ghost use Rattle.uf_command.specs.declared.types.Command.TheVariants as commands;
ghost use Rattle.uf_command.specs.declared.types.Adding.TheVariants as adding;
ghost use Rattle.uf_store.specs.Calls.{OnlySaves};
ghost use Rattle.uf_store.specs.Faults.{NoneIsBad};
ghost use Rattle.uf_tree.specs.Profiles.{is_profile};
ghost use Rattle.uf_command.specs.Kinds.{refusal_fault};
ghost use Rattle.uf_top.specs.Around.{OnlyReadsHost};
ghost use Rattle.uf_top.specs.Lent.{OverHost, OverInput, side_at};
ghost use Rattle.uf_top.specs.Causes.{is_read};
ghost use Rattle.uf_top.specs.Grafts.{FollowsOr};
ghost use Rattle.uf_top.specs.HostTexts.{host_text};
ghost use Rattle.uf_top.specs.Hosted.{AddsTrees};
ghost use Rattle.uf_top.specs.Intake.{AddsFile};
ghost use Rattle.uf_top.specs.Placing.{FindsSpot, GivesFor, PutsGiven};
ghost use Rattle.uf_top.specs.Placing.{SaysHost, SaysInput};
ghost use Rattle.uf_top.specs.Reply.{added_name as name_added, input_row};
ghost use Rattle.uf_top.specs.Working.{Makes};

use crate::commands::add::file_given;
use crate::commands::add_from::rows_given;
use crate::commands::files::{opened, refusal};
use crate::given::{Given, OpenSpot};
use std::alloc::Global;
use std::sync::ledger::Ledger;
use uf_build::file_apart;
use uf_cid::{Block, Text};
use uf_command::{HostRule, Refusal};
use uf_edge::{Host, Source};
use uf_host::{add_apart, last_name};
use uf_murmur::NameHash;
use uf_path::Path;
use uf_store::{Steps, Store, StoreFault};
use uf_tree::{Name, NameFault, Profile};

// Puts the input as a file where a path of the tree leads, writes the Head, and gives its row.
pub fn add_to<S: Store, N: NameHash, I: Source, L: Ledger>(
    alloc: Global,
    dest: &Path,
    store: &mut S,
    input: &mut I,
    touches: &mut Steps<L>,
) -> Result<Block, Refusal>
    ensures { OverInput I.Source (Makes S.X.block32 N.name64 (commands.Add (adding.InputTo dest.now)) result)
        (S.seen store.old) input.old touches.old (S.seen store.new) input.new touches.new }
{
    let found = find::<S, N, L>(alloc, dest, None, store, touches)?;
    let given = read_input::<S, I>(alloc, found.tree.profile, store, input)?;
    put::<S, N, L>(alloc, found, given, store, touches)
}

// Puts what the host has at a path where a path of the tree leads, writes the Head, and gives its rows.
pub fn add_from_to<S: Store, N: NameHash, W: Host, L: Ledger>(
    alloc: Global,
    recursive: bool,
    path: &Text,
    dest: &Path,
    store: &mut S,
    host: &mut W,
    touches: &mut Steps<L>,
) -> Result<Block, Refusal>
    ensures { OverHost W.Host
        (Makes S.X.block32 N.name64 (commands.Add (adding.HostTo recursive path.now dest.now)) result)
        (S.seen store.old) touches.old host.old (S.seen store.new) touches.new host.new }
{
    let found = find::<S, N, L>(alloc, dest, Some(path), store, touches)?;
    let given = read_host::<S, N, W>(alloc, found.tree.profile, recursive, path, store, host)?;
    put::<S, N, L>(alloc, found, given, store, touches)
}

// The tree that the Head names, and the spot in it of what is added.
fn find<S: Store, N: NameHash, L: Ledger>(
    alloc: Global,
    dest: &Path,
    path: Option<&Text>,
    store: &mut S,
    touches: &mut Steps<L>,
) -> Result<OpenSpot, Refusal>
    ensures { FindsSpot S.X.block32 N.name64 dest.now (option_copied path.entry) result (S.seen store.old)
        (S.seen store.new) touches.old touches.new }
{
    let tree = opened::<S, N, L>(alloc, store, touches)?;
    let name = added_name(alloc, dest, path)?;
    let found = tree.spot::<S, N, L>(alloc, store, dest, name.as_ref(), touches);
    let spot = found.map_err(refusal)?;
    Ok(OpenSpot { tree, spot })
}

// The name of what is added, where the destination is entered.
fn added_name(alloc: Global, dest: &Path, path: Option<&Text>) -> Result<Option<Name>, Refusal>
    ensures { FollowsOr (λ why. why ≡ no_memory) (λ name given. given ≡ name)
        (name_added dest.now (option_copied path.entry)) result }
{
    match path {
        Some(path) if dest.into => match Name::parse(alloc, last_name(path.as_str())) {
            Ok(name) => Ok(Some(name)),
            Err(NameFault::Bad) => Err(Refusal::Host(HostRule::Name(path.copy()?))),
            Err(NameFault::Memory) => Err(Refusal::Store(StoreFault::Memory)),
        },
        _ => Ok(None),
    }
}

// Puts what was given at its spot, writes the Head, and gives its rows.
fn put<S: Store, N: NameHash, L: Ledger>(
    alloc: Global,
    found: OpenSpot,
    given: Given,
    store: &mut S,
    touches: &mut Steps<L>,
) -> Result<Block, Refusal>
    requires { IsMfs found.tree }
    ensures { PutsGiven S.X.block32 N.name64 found given result (S.seen store.old) (S.seen store.new) touches.old
        touches.new }
{
    let OpenSpot { mut tree, spot } = found;
    tree.place::<S, N, L>(alloc, store, &spot, &given.entry, touches)
        .map_err(refusal)?;
    tree.commit::<S, N, L>(alloc, store, touches)
        .map_err(refusal)?;
    Ok(given.text)
}

// The input as a file, whose blocks are saved; they are counted apart.
fn read_input<S: Store, I: Source>(
    alloc: Global,
    profile: Profile,
    store: &mut S,
    input: &mut I,
) -> Result<Given, Refusal>
    requires { IsTrue (is_profile profile) }
    ensures gives { (N : List ℕ → ℕ) → GivesFor S.X.block32 N profile (S.seen store.new).told
        (SaysInput profile (I.left input.old)) (input_row S.X.block32 N profile) result }
    ensures no_other { AddsFile S.X.block32 profile (S.seen store.old).told (S.seen store.new).told
        (I.left input.old) }
    ensures counts { Counts (is_read result) (I.faults input.old) (I.faults input.new) }
    ensures saves { OnlySaves S.X.block32 NoneIsBad (refusal_fault result) (S.seen store.old) (S.seen store.new) }
{
    file_given(alloc, file_apart(alloc, profile, store, input))
}

// What the host has at a path, whose blocks are saved; they are counted apart.
fn read_host<S: Store, N: NameHash, W: Host>(
    alloc: Global,
    profile: Profile,
    recursive: bool,
    path: &Text,
    store: &mut S,
    host: &mut W,
) -> Result<Given, Refusal>
    requires { IsTrue (is_profile profile) }
    ensures gives { GivesFor S.X.block32 N.name64 profile (S.seen store.new).told
        (SaysHost S.X.block32 N.name64 profile (W.tree host.old) recursive path.now)
        (host_text S.X.block32 N.name64 profile path.now) result }
    ensures no_other { AddsTrees S.X.block32 N.name64 (ended result) profile (S.seen store.old).told
        (S.seen store.new).told (W.tree host.old) recursive path.now }
    ensures host { OnlyReadsHost (is_read result)
        (side_at W.Host host.old)
        (side_at W.Host host.new) }
    ensures saves { OnlySaves S.X.block32 NoneIsBad (refusal_fault result) (S.seen store.old) (S.seen store.new) }
{
    let own = path.copy()?;
    let answer = add_apart::<S, N, W>(alloc, store, &profile, host, path, recursive);
    rows_given(alloc, own, answer)
}
