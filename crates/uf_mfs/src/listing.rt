//! The names and the rows of what a path leads to.
ghost use Rattle.std.specs.Prelude.{◌≡◌, ◌≤◌, ◌+◌, [], IfOk, List, length, map, ℕ};
ghost use Rattle.uf_tree.specs.declared.profile.Profile.{Profile};
ghost use Rattle.uf_tree.specs.Nodes.{Named};
ghost use Rattle.uf_tree.specs.Tree.{Dir, Entries, Tree, pairs as pairs_in};
ghost use Rattle.uf_mfs.specs.Answers.{Pushes};
ghost use Rattle.uf_dir.specs.Bad.{IsBadRoot};
ghost use Rattle.uf_store.specs.Calls.{OnlyReads};
ghost use Rattle.uf_store.specs.Faults.{fault_in};
ghost use Rattle.uf_plain.specs.Replies.{last_name, names_at, row_of as row_at, rows_at, size as size_at};
ghost use Rattle.uf_plain.specs.Needs.{own_needs, root_of, rows_need};
ghost use Rattle.uf_mfs.specs.Standing.{IsAgreed, IsAgreedThing};
ghost use Rattle.uf_mfs.specs.Touches.{members_in};
ghost use Rattle.uf_mfs.specs.Over.{OverEntry, OverFolder, OverThing, TellsOfEntry};
ghost use Rattle.uf_mfs.specs.Over.{TellsOfFolder, TellsOfPairs, TellsOfThing};
ghost use Rattle.uf_mfs.specs.Showing.{ReadCounts, ReadsBelow, ReadsUnder};

use crate::Thing;
use crate::looking::thing_of;
use std::alloc::Global;
use std::sync::ledger::Ledger;
use uf_cid::{Cid, Memory};
use uf_dir::entries;
use uf_murmur::NameHash;
use uf_plain::{Row, Rows};
use uf_store::{Steps, Store, StoreFault};
use uf_tree::{Entry, Name, Names, Pair};

/// The names of a folder, or the file's own.
pub(crate) fn names_of<S: Store, N: NameHash, L: Ledger>(
    alloc: Global,
    store: &mut S,
    path: &[Name],
    thing: Thing,
    touches: &mut Steps<L>,
) -> Result<Names, StoreFault>
    ensures names { TellsOfThing S.X.block32 N.name64 (S.seen store.old) (S.seen store.new) thing
        (own_needs S.X.block32 N.name64) (λ p t. names_at path.now t) result }
    ensures reads { ReadsUnder S.X.block32 N.name64 thing (fault_in result) (S.seen store.old) (S.seen store.new) }
    ensures touches { (p : Profile) (t : Tree) → IsAgreedThing S.X.block32 N.name64 (S.seen store.old).told p t thing
        → touches.new ≤ touches.old + (length (own_needs S.X.block32 N.name64 p t) + 1) }
    ensures touched { ReadCounts result touches.old touches.new }
{
    match thing {
        Thing::File(_, _) => Ok(own_name(alloc, path)?),
        Thing::Folder(folder, _) => names_in::<S, N, L>(alloc, store, &folder, touches),
    }
}

// The last name of a path, in a list.
fn own_name(alloc: Global, path: &[Name]) -> Result<Names, Memory>
    ensures { IfOk result (λ names. names ≡ last_name path.now) }
{
    let mut names = Names::new(alloc);
    if let Some(name) = path.last() {
        names.push(name.copy()?)?;
    }
    Ok(names)
}

// The names of a folder.
fn names_in<S: Store, N: NameHash, L: Ledger>(
    alloc: Global,
    store: &mut S,
    folder: &Entry,
    touches: &mut Steps<L>,
) -> Result<Names, StoreFault>
    ensures names { TellsOfFolder S.X.block32 N.name64 (S.seen store.old) (S.seen store.new) folder.now
        (own_needs S.X.block32 N.name64) (λ p t. names_at [] t) result }
    ensures reads { ReadsBelow S.X.block32 N.name64 folder.now.cid (fault_in result) (S.seen store.old)
        (S.seen store.new) }
    ensures touches { (p : Profile) (es : Entries)
        → IsAgreed S.X.block32 N.name64 (S.seen store.old).told p folder.now (Dir es)
        → touches.new ≤ touches.old + (length (own_needs S.X.block32 N.name64 p (Dir es)) + 1) }
    ensures touched { ReadCounts result touches.old touches.new }
{
    let pairs = entries(alloc, store, &folder.cid, touches)?;
    let names = names_in_pairs(alloc, pairs.as_slice())?;
    Ok(names)
}

// The names of pairs.
fn names_in_pairs(alloc: Global, pairs: &[Pair]) -> Result<Names, Memory>
    ensures { IfOk result (λ names. names ≡ map (λ (m : Named). m.0) pairs.now) }
{
    let mut names = Names::new(alloc);
    for pair in pairs {
        names.push(pair.name.copy()?)?;
    }
    Ok(names)
}

/// The rows of a folder, or that of a file by its own name.
pub(crate) fn rows_of<S: Store, N: NameHash, L: Ledger>(
    alloc: Global,
    store: &mut S,
    path: &[Name],
    thing: Thing,
    touches: &mut Steps<L>,
) -> Result<Rows, StoreFault>
    ensures rows { TellsOfThing S.X.block32 N.name64 (S.seen store.old) (S.seen store.new) thing
        (rows_need S.X.block32 N.name64) (λ p t. rows_at S.X.block32 N.name64 p path.now t) result }
    ensures reads { ReadsUnder S.X.block32 N.name64 thing (fault_in result) (S.seen store.old) (S.seen store.new) }
    ensures touches { OverThing S.X.block32 N.name64 (S.seen store.old) (S.seen store.new) thing
        (λ p t. touches.new ≤ touches.old + (length (own_needs S.X.block32 N.name64 p t) + 1 + length
        (members_in t))) }
    ensures touched { ReadCounts result touches.old touches.new }
{
    match thing {
        Thing::File(entry, size) => Ok(own_row(alloc, path, entry.cid, size.length)?),
        Thing::Folder(folder, _) => rows_in::<S, N, L>(alloc, store, &folder, touches),
    }
}

// The row of a file by the last name of its path.
fn own_row(alloc: Global, path: &[Name], cid: Cid, size: u64) -> Result<Rows, Memory>
    ensures { IfOk result
        (λ rows. rows ≡ map (λ (name : List ℕ). record { name = name; cid = cid; size = size }) (last_name path.now)) }
{
    let mut rows = Rows::new(alloc);
    if let Some(name) = path.last() {
        let name = name.copy()?;
        rows.push(Row { name, cid, size })?;
    }
    Ok(rows)
}

// The rows of a folder.
fn rows_in<S: Store, N: NameHash, L: Ledger>(
    alloc: Global,
    store: &mut S,
    folder: &Entry,
    touches: &mut Steps<L>,
) -> Result<Rows, StoreFault>
    ensures rows { TellsOfFolder S.X.block32 N.name64 (S.seen store.old) (S.seen store.new) folder.now
        (rows_need S.X.block32 N.name64) (λ p t. rows_at S.X.block32 N.name64 p [] t) result }
    ensures reads { ReadsBelow S.X.block32 N.name64 folder.now.cid (fault_in result) (S.seen store.old)
        (S.seen store.new) }
    ensures touches { OverFolder S.X.block32 N.name64 (S.seen store.old) (S.seen store.new) folder.now
        (λ p es. touches.new ≤ touches.old + (length (own_needs S.X.block32 N.name64 p (Dir es)) + 1 + length
        (pairs_in es))) }
    ensures touched { ReadCounts result touches.old touches.new }
{
    let pairs = entries(alloc, store, &folder.cid, touches)?;
    rows_from::<S, N, L>(alloc, store, pairs.as_slice(), touches)
}

// The rows of these pairs.
fn rows_from<S: Store, N: NameHash, L: Ledger>(
    alloc: Global,
    store: &mut S,
    pairs: &[Pair],
    touches: &mut Steps<L>,
) -> Result<Rows, StoreFault>
    ensures rows { TellsOfPairs S.X.block32 N.name64 (S.seen store.old) (S.seen store.new) pairs.now
        (root_of S.X.block32 N.name64) (row_at S.X.block32 N.name64) result }
    ensures reads { OnlyReads S.X.block32 IsBadRoot (fault_in result) (S.seen store.old) (S.seen store.new) }
    ensures touches { touches.new ≤ touches.old + length pairs.now }
    ensures touched { ReadCounts result touches.old touches.new }
{
    let mut rows = Rows::new(alloc);
    for pair in pairs {
        push_row::<S, N, L>(alloc, store, &mut rows, pair, touches)?;
    }
    Ok(rows)
}

// Puts the row of a pair at the end.
fn push_row<S: Store, N: NameHash, L: Ledger>(
    alloc: Global,
    store: &mut S,
    rows: &mut Rows,
    pair: &Pair,
    touches: &mut Steps<L>,
) -> Result<(), StoreFault>
    ensures pushed { OverEntry S.X.block32 N.name64 (S.seen store.old) (S.seen store.new) pair.now.1
        (λ p t. Pushes (S.seen store.old).told (root_of S.X.block32 N.name64 p t) rows.old rows.new
        (row_at S.X.block32 N.name64 p pair.now.0 t) result) }
    ensures reads { OnlyReads S.X.block32 IsBadRoot (fault_in result) (S.seen store.old) (S.seen store.new) }
    ensures touches { touches.new ≤ touches.old + 1 }
    ensures touched { ReadCounts result touches.old touches.new }
{
    let row = row_of::<S, N, L>(alloc, store, pair, touches)?;
    match rows.push(row) {
        Err(_) => Err(StoreFault::Memory),
        Ok(()) => Ok(()),
    }
}

// The row of a pair.
fn row_of<S: Store, N: NameHash, L: Ledger>(
    alloc: Global,
    store: &mut S,
    pair: &Pair,
    touches: &mut Steps<L>,
) -> Result<Row, StoreFault>
    ensures row { TellsOfEntry S.X.block32 N.name64 (S.seen store.old) (S.seen store.new) pair.now.1
        (λ p t. row_at S.X.block32 N.name64 p pair.now.0 t) result }
    ensures reads { OnlyReads S.X.block32 IsBadRoot (fault_in result) (S.seen store.old) (S.seen store.new) }
    ensures touches { touches.new ≤ touches.old + 1 }
    ensures touched { ReadCounts result touches.old touches.new }
{
    let size = entry_size::<S, N, L>(alloc, store, &pair.entry, touches)?;
    let name = pair.name.copy()?;
    let cid = pair.entry.cid;
    Ok(Row { name, cid, size })
}

// How many bytes the file of an entry has; a folder counts as 0.
fn entry_size<S: Store, N: NameHash, L: Ledger>(
    alloc: Global,
    store: &mut S,
    entry: &Entry,
    touches: &mut Steps<L>,
) -> Result<u64, StoreFault>
    ensures sizes { TellsOfEntry S.X.block32 N.name64 (S.seen store.old) (S.seen store.new) entry.now
        (λ p t. size_at t) result }
    ensures reads { OnlyReads S.X.block32 IsBadRoot (fault_in result) (S.seen store.old) (S.seen store.new) }
    ensures touches { touches.new ≤ touches.old + 1 }
    ensures touched { ReadCounts result touches.old touches.new }
{
    match thing_of::<S, N, L>(alloc, store, entry, touches)? {
        Thing::File(_, size) => Ok(size.length),
        Thing::Folder(_, _) => Ok(0),
    }
}
