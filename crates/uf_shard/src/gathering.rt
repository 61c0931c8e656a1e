//! The names of a shard tree gathered in the order of its slots, and put in byte order.
ghost use Rattle.std.specs.Prelude.{◌≡◌, ◌<◌, ◌≤◌, ◌+◌, ◌∷◌, ◌++◌, [], IfOk, IfSome, OnOk, length};
ghost use Rattle.std.specs.List.{AllByRecursion};
ghost use Rattle.uf_store.specs.Calls.{OnlyReads};
ghost use Rattle.uf_store.specs.Contents.{held_at};
ghost use Rattle.uf_store.specs.Faults.{fault_in};
ghost use Rattle.uf_tree.specs.Names.{names_cmp};
ghost use Rattle.uf_tree.specs.Validity.{IsDirectory, IsNamed};
ghost use Rattle.uf_shard.specs.Listing.{AddsShard, AddsSlot, AddsSlots, IsBadShard, in_order};
ghost use Rattle.uf_shard.specs.Sorting.{ends_with, with_other, without_repeats};
ghost use Rattle.uf_shard.specs.Walked.{HasLevel, LosesOnly, OverShard, OverSlot, OverSlots};

use crate::slots::is_same;
use crate::walking::load_items;
use std::alloc::Global;
use std::cmp::Ordering;
use std::sync::ledger::Ledger;
use uf_cid::{Cid, Memory, cids_are_whole};
use uf_store::{Steps, Store, StoreFault};
use uf_tree::{Entry, Item, Name, Pair, Pairs, Placed};

// Puts the names of the shard under a CID, which has n levels below it, after the rows.
#[cycle(gathering)]
fn gather<S: Store, L: Ledger>(
    alloc: Global,
    store: &mut S,
    left: u8,
    cid: &Cid,
    rows: &mut Vec<Pair>,
    touches: &mut Steps<L>,
) -> Result<(), StoreFault>
    requires left { left ≤ 7 }
    ensures adds { OnOk result (IfSome (S.seen store.old).told
        (λ t. AddsShard (held_at t) left cid.now rows.old.items rows.new.items)) }
    ensures lost { OverShard S.X.block32 (S.seen store.old).told left cid.now (λ l blocks.
        LosesOnly blocks result (S.seen store.old) (S.seen store.new)) }
    ensures touches { OverShard S.X.block32 (S.seen store.old).told left cid.now (λ l blocks.
        touches.new ≤ touches.old + length blocks) }
    ensures touched { touches.old < touches.new }
    ensures reads { OnlyReads S.X.block32 IsBadShard (fault_in result) (S.seen store.old) (S.seen store.new) }
{
    let items = load_items(alloc, store, left, cid, touches)?;
    gather_slots(alloc, store, left, items.as_slice(), rows, touches)
}

// Puts the names of slots after the rows.
#[cycle(gathering)]
pub fn gather_slots<S: Store, L: Ledger>(
    alloc: Global,
    store: &mut S,
    left: u8,
    items: &[Placed],
    rows: &mut Vec<Pair>,
    touches: &mut Steps<L>,
) -> Result<(), StoreFault>
    requires left { left ≤ 7 }
    requires levels { AllByRecursion (HasLevel left) items.now }
    ensures adds { OnOk result (IfSome (S.seen store.old).told
        (λ t. AddsSlots (held_at t) left items.now rows.old.items rows.new.items)) }
    ensures lost { OverSlots S.X.block32 (S.seen store.old).told left items.now (λ over blocks.
        LosesOnly blocks result (S.seen store.old) (S.seen store.new)) }
    ensures touches { OverSlots S.X.block32 (S.seen store.old).told left items.now (λ over blocks.
        touches.new ≤ touches.old + length blocks) }
    ensures touched { touches.old ≤ touches.new }
    ensures reads { OnlyReads S.X.block32 IsBadShard (fault_in result) (S.seen store.old) (S.seen store.new) }
{
    for placed in items {
        gather_slot(alloc, store, left, placed, rows, touches)?;
    }
    Ok(())
}

// Puts the names of one slot after the rows.
#[cycle(gathering)]
fn gather_slot<S: Store, L: Ledger>(
    alloc: Global,
    store: &mut S,
    left: u8,
    placed: &Placed,
    rows: &mut Vec<Pair>,
    touches: &mut Steps<L>,
) -> Result<(), StoreFault>
    requires left { left ≤ 7 }
    requires level { HasLevel left placed.now }
    ensures adds { OnOk result (IfSome (S.seen store.old).told
        (λ t. AddsSlot (held_at t) left placed.now.1 rows.old.items rows.new.items)) }
    ensures lost { OverSlot S.X.block32 (S.seen store.old).told left placed.now.1 (λ l blocks.
        LosesOnly blocks result (S.seen store.old) (S.seen store.new)) }
    ensures touches { OverSlot S.X.block32 (S.seen store.old).told left placed.now.1 (λ l blocks.
        touches.new ≤ touches.old + length blocks) }
    ensures touched { touches.old ≤ touches.new }
    ensures reads { OnlyReads S.X.block32 IsBadShard (fault_in result) (S.seen store.old) (S.seen store.new) }
{
    match &placed.item {
        Item::Leaf(name, entry) => {
            add_row(rows, name, entry)?;
            Ok(())
        }
        Item::Sub(entry) => gather(alloc, store, left - 1, &entry.cid, rows, touches),
    }
}

// Puts a name and its entry after the rows.
fn add_row(rows: &mut Vec<Pair>, name: &Name, entry: &Entry) -> Result<(), Memory>
    ensures { OnOk result (rows.new.items ≡ rows.old.items ++ (name.now, entry.now) ∷ []) }
{
    let name = name.copy()?;
    rows.push(Pair {
        name,
        entry: *entry,
    })?;
    Ok(())
}

// The rows in byte order, and of a name that comes twice the first row.
pub fn ordered(alloc: Global, mut rows: Vec<Pair>) -> Result<Pairs, Memory>
    ensures order { IfOk result (λ l. l ≡ in_order rows.items) }
    ensures valid { IfOk result IsDirectory }
{
    rows.sort_by(by_name)?;
    first_of_each(alloc, rows)
}

// How two pairs stand in byte order of their names.
fn by_name(a: &Pair, b: &Pair) -> Ordering
    ensures { result ≡ names_cmp a.now.0 b.now.0 }
{
    a.name.as_str().as_bytes().cmp(b.name.as_str().as_bytes())
}

// Of pairs of one name that stand side by side the first one.
fn first_of_each(alloc: Global, rows: Vec<Pair>) -> Result<Pairs, Memory>
    ensures pairs { IfOk result (λ l. l ≡ without_repeats rows.items) }
    ensures named { IfOk result (AllByRecursion IsNamed) }
{
    let mut pairs = Pairs::new(alloc);
    for pair in rows {
        add_new(&mut pairs, pair)?;
    }
    Ok(pairs)
}

// Puts a pair after others, unless the last of them has its name.
fn add_new(pairs: &mut Pairs, pair: Pair) -> Result<(), Memory>
    ensures pairs { OnOk result (pairs.new ≡ with_other pairs.old pair) }
    ensures named { AllByRecursion IsNamed pairs.old → OnOk result (AllByRecursion IsNamed pairs.new) }
{
    if is_last(pairs.as_slice(), &pair.name) {
        return Ok(());
    }
    pair_is_named(&pair);
    pairs.push(pair)
}

// Whether the last pair has this name.
fn is_last(pairs: &[Pair], name: &Name) -> bool
    ensures { result ≡ ends_with name.now pairs.now }
{
    match pairs {
        [] => false,
        [.., last] => is_same(&last.name, name),
    }
}

// A pair has a good name and an entry.
fn pair_is_named(pair: &Pair)
    ensures { IsNamed pair.now }
{
    let _name = pair.name.as_str();
    let _tsize = pair.entry.tsize;
    cids_are_whole(&pair.entry.cid);
}
