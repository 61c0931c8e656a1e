//! `add` of a path of the host: its files and folders.
ghost use Rattle.std.specs.Prelude.{◌≡◌, ℕ, false, true, None, IfErr, IfOk, IsTrue};
ghost use Rattle.std.specs.List.{flat_map};
ghost use Rattle.uf_command.specs.Natures.{SyncsBlocks};
ghost use Rattle.uf_command.specs.Statuses.{ended};
ghost use Rattle.uf_command.specs.declared.types.Command.TheVariants as commands;
ghost use Rattle.uf_command.specs.declared.types.Adding.TheVariants as adding;
ghost use Rattle.uf_store.specs.Keeping.{KeepsGood};
ghost use Rattle.uf_top.specs.Around.{OnlyReadsHost};
ghost use Rattle.uf_top.specs.Lent.{OverHost, side_at};
ghost use Rattle.uf_top.specs.Causes.{OnlyWants, is_read};
ghost use Rattle.uf_top.specs.Hosted.{AddsTrees, IsNoReading, MakesHostText};
ghost use Rattle.uf_top.specs.HostTexts.{host_refusal, host_row};
ghost use Rattle.uf_top.specs.Intake.{ShownIn};
ghost use Rattle.uf_top.specs.Placing.{GivesHost, HasLast, IsLastEntry};
ghost use Rattle.uf_top.specs.Shapes.{WritesAs, is_ok};
ghost use Rattle.uf_top.specs.Working.{Makes};
ghost use Rattle.uf_tree.specs.Profiles.{is_profile};

use crate::commands::add::{head_profile, or_usual, synced};
use crate::given::Given;
use std::alloc::Global;
use std::sync::ledger::Ledger;
use uf_cid::{Block, BlockHash, Memory, Text};
use uf_command::{HostRule, Refusal, put_added};
use uf_edge::Host;
use uf_host::{AddedRows, HostFault, add, hash_rows};
use uf_mfs::Ready;
use uf_murmur::NameHash;
use uf_plain::Rule;
use uf_store::{Steps, Store};
use uf_tree::{Entry, Profile};

// Adds what the host has at a path, and makes its blocks durable.
pub fn keep_from<S: Store, N: NameHash, W: Host, L: Ledger>(
    alloc: Global,
    recursive: bool,
    path: &Text,
    store: &mut S,
    host: &mut W,
    touches: &mut Steps<L>,
) -> Result<Block, Refusal>
    ensures { OverHost W.Host (Makes S.X.block32 N.name64 (commands.Add (adding.Host recursive false path.now)) result)
        (S.seen store.old) touches.old host.old (S.seen store.new) touches.new host.new }
{
    match head_profile(alloc, store)? {
        None => Err(Refusal::Ready(Ready::NoHead)),
        Some(profile) => {
            keep_by::<S, N, W, L>(alloc, profile, recursive, path, store, host, touches)
        }
    }
}

// The rows of what the host has at a path, with nothing kept and no touch counted.
pub fn hash_from<S: Store, N: NameHash, W: Host>(
    alloc: Global,
    recursive: bool,
    path: &Text,
    store: &mut S,
    host: &mut W,
) -> Result<Block, Refusal>
    ensures { (touches : ℕ) → OverHost W.Host (Makes S.X.block32 N.name64
        (commands.Add (adding.Host recursive true path.now)) result)
        (S.seen store.old) touches host.old (S.seen store.new) touches host.new }
{
    let found = head_profile(alloc, store)?;
    hash_by::<S::X, N, W>(alloc, or_usual(found), recursive, path, host)
}

// Adds what the host has at a path by a profile, and makes its blocks durable.
fn keep_by<S: Store, N: NameHash, W: Host, L: Ledger>(
    alloc: Global,
    profile: Profile,
    recursive: bool,
    path: &Text,
    store: &mut S,
    host: &mut W,
    touches: &mut Steps<L>,
) -> Result<Block, Refusal>
    requires { IsTrue (is_profile profile) }
    ensures text { MakesHostText S.X.block32 N.name64 profile (S.seen store.new).told (W.tree host.old) recursive
        path.now result }
    ensures host { OnlyReadsHost (is_read result)
        (side_at W.Host host.old)
        (side_at W.Host host.new) }
    ensures cause { ShownIn S.X.block32 result (S.seen store.old) (S.seen store.new) }
    ensures good { KeepsGood S.X.block32 (S.seen store.old).told (S.seen store.new).told }
    ensures writes { WritesAs S.X.block32 SyncsBlocks (is_ok result) (S.seen store.old).told (S.seen store.new).told }
    ensures no_other { AddsTrees S.X.block32 N.name64 (ended result) profile (S.seen store.old).told
        (S.seen store.new).told (W.tree host.old) recursive path.now }
{
    let own = path.copy()?;
    let text = path.as_str();
    let answer = add::<S, N, W, L>(alloc, store, &profile, host, text, recursive, touches);
    let given = rows_given(alloc, own, answer)?;
    synced(store, given.text)
}

// What is given by the rows that were added: the entry of the last one, and the text of all.
pub fn rows_given(
    alloc: Global,
    path: Text,
    answer: Result<AddedRows, HostFault>,
) -> Result<Given, Refusal>
    requires last { IfOk answer HasLast }
    requires walked { IfErr answer IsNoReading }
    ensures { GivesHost path answer result }
{
    match answer {
        Err(fault) => Err(refused(path, fault)),
        Ok(rows) => Ok(Given {
            entry: last_entry(&rows),
            text: row_lines(alloc, &rows)?,
        }),
    }
}

// The entry of the last row.
fn last_entry(rows: &AddedRows) -> Entry
    requires { HasLast rows.now }
    ensures { IsLastEntry rows.now result }
{
    match rows.as_slice().last() {
        Some(row) => row.entry,
        None => unreachable!(),
    }
}

// The rows, each in a line.
fn row_lines(alloc: Global, rows: &AddedRows) -> Result<Block, Memory>
    ensures { IfOk result (λ out. out ≡ flat_map host_row rows.now) }
{
    let mut out = Block::new(alloc);
    for row in rows.as_slice() {
        put_added(alloc, &mut out, &row.entry.cid, row.path.as_str())?;
    }
    Ok(out)
}

// A fault at a path of the host, as a refusal.
pub fn refused(path: Text, fault: HostFault) -> Refusal
    requires { IsNoReading fault }
    ensures { result ≡ host_refusal path fault }
{
    match fault {
        HostFault::Absent => Refusal::Host(HostRule::Absent(path)),
        HostFault::Exists => Refusal::Host(HostRule::Exists(path)),
        HostFault::NeedsRecursive => Refusal::Rule(Rule::NeedsRecursive(path)),
        HostFault::Other(there) => Refusal::Host(HostRule::Other(there)),
        HostFault::Name(_) => Refusal::Host(HostRule::Name(path)),
        HostFault::TooDeep(there) => Refusal::Host(HostRule::Deep(there)),
        HostFault::FileTooLong(_) => Refusal::Rule(Rule::FileTooLong),
        HostFault::Collision(first, second) => Refusal::Rule(Rule::Collision(first, second)),
        HostFault::TooBig => Refusal::Rule(Rule::TooBig),
        HostFault::Read => Refusal::Read,
        HostFault::Write => Refusal::Write,
        HostFault::Store(fault) => Refusal::Store(fault),
        HostFault::Dag(_) => unreachable!(),
    }
}

// The rows of what the host has at a path by a profile, with nothing kept.
fn hash_by<X: BlockHash, N: NameHash, W: Host>(
    alloc: Global,
    profile: Profile,
    recursive: bool,
    path: &Text,
    host: &mut W,
) -> Result<Block, Refusal>
    requires { IsTrue (is_profile profile) }
    ensures text { MakesHostText X.block32 N.name64 profile None (W.tree host.old) recursive path.now result }
    ensures wants { OnlyWants result }
    ensures host { OnlyReadsHost (is_read result)
        (side_at W.Host host.old)
        (side_at W.Host host.new) }
{
    let own = path.copy()?;
    let answer = hash_rows::<X, N, W>(alloc, &profile, host, path, recursive);
    let given = rows_given(alloc, own, answer)?;
    Ok(given.text)
}
