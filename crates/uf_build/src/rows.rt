//! The open groups of a file's rows, the lowest row first.
ghost use Rattle.std.specs.Prelude.{◌≡◌, ◌+◌, ◌<◌, ◌≤◌, ◌^◌, ◌++◌, ◌∷◌, [], length, IfOk, IsTrue, OnOk};
ghost use Rattle.uf_store.specs.Faults.{fault_in};
ghost use Rattle.uf_store.specs.Among.{SavesAmong};
ghost use Rattle.uf_tree.specs.Metas.{is_meta};
ghost use Rattle.uf_build.specs.Answers.{OnlyBuilds};
ghost use Rattle.uf_build.specs.Rows.{AddsPart, PushesPart, ClosesRows, EndsRow, add_held, groups_in, held_up};
ghost use Rattle.uf_build.specs.Rows.{close_held, close_held_up, carry_held, size_of, sizes_of, some_row, AreOpen};
ghost use Rattle.uf_build.specs.Rows.{IsWidth, AreShort};

use crate::nodes::{save_node, save_top};
use crate::open::Open;
use std::alloc::Global;
use std::mem;
use std::sync::ledger::Ledger;
use uf_cid::{Memory, Seq};
use uf_store::{Steps, Store, StoreFault};
use uf_tree::{Meta, Part, Parts};

// Makes a part the last one. The part that was the last comes into the lowest row.
pub fn add<S: Store, L: Ledger>(
    alloc: Global,
    width: usize,
    opened: &mut Open,
    part: Part,
    store: &mut S,
    touches: &mut Steps<L>,
) -> Result<(), StoreFault>
    requires width { IsWidth width }
    requires opened { AreOpen width (groups_in opened.old) }
    requires size { sizes_of (groups_in opened.old) < 2 ^ 63 }
    ensures added { OnOk result (AddsPart S.X.block32 width part (groups_in opened.old) (groups_in opened.new)
        (S.seen store.new).told touches.old touches.new) }
    ensures touches { touches.new ≤ touches.old + length (add_held S.X.block32 width part (groups_in opened.old)) }
    ensures builds { OnlyBuilds S.X.block32 (fault_in result) (S.seen store.old) (S.seen store.new) }
    ensures no_other { SavesAmong S.X.block32 (add_held S.X.block32 width part (groups_in opened.old))
        (S.seen store.old).told (S.seen store.new).told }
{
    match mem::replace(&mut opened.last, Some(part)) {
        Some(before) => push(alloc, width, &mut opened.rows, 0, before, store, touches),
        None => Ok(()),
    }
}

// Puts a part into the open group of a row, and the node of each group that this fills into the row above.
pub fn push<S: Store, L: Ledger>(
    alloc: Global,
    width: usize,
    rows: &mut Vec<Parts>,
    level: usize,
    part: Part,
    store: &mut S,
    touches: &mut Steps<L>,
) -> Result<(), StoreFault>
    requires width { IsWidth width }
    requires level { level ≤ length rows.old.items }
    requires short { AreShort width rows.old.items }
    requires size { sizes_of rows.old.items + part.size < 2 ^ 63 }
    ensures pushed { OnOk result (PushesPart S.X.block32 width level part rows.old.items rows.new.items
        (S.seen store.new).told touches.old touches.new) }
    ensures touches { touches.new ≤ touches.old + length (held_up S.X.block32 width level part rows.old.items) }
    ensures builds { OnlyBuilds S.X.block32 (fault_in result) (S.seen store.old) (S.seen store.new) }
    ensures no_other { SavesAmong S.X.block32 (held_up S.X.block32 width level part rows.old.items)
        (S.seen store.old).told (S.seen store.new).told }
{
    if level == rows.len() {
        push_first(alloc, rows, part)?;
        return Ok(());
    }
    let row = &mut rows[level];
    row.push(part)?;
    if row.len() < width {
        return Ok(());
    }
    let node = save_node(alloc, store, row.as_slice(), touches)?;
    *row = Seq::new(alloc);
    push(alloc, width, rows, level + 1, node, store, touches)
}

// A row above all others, with one part.
fn push_first(alloc: Global, rows: &mut Vec<Parts>, part: Part) -> Result<(), Memory>
    ensures { OnOk result (rows.new.items ≡ rows.old.items ++ (part ∷ []) ∷ []) }
{
    let mut row = Seq::new(alloc);
    row.push(part)?;
    rows.push(row)?;
    Ok(())
}

// Closes all open groups after this last part. Answers the part that stands over all rows, with the file's metadata.
pub fn close_all<S: Store, L: Ledger>(
    alloc: Global,
    rows: &mut Vec<Parts>,
    last: Part,
    meta: &Meta,
    store: &mut S,
    touches: &mut Steps<L>,
) -> Result<Part, StoreFault>
    requires short { AreShort 1024 rows.old.items }
    requires size { sizes_of rows.old.items + last.size < 2 ^ 63 }
    requires good { IsTrue (is_meta meta.now) }
    ensures closed { IfOk result (λ part. ClosesRows S.X.block32 meta.now 0 (some_row rows.old.items) last part
        (S.seen store.new).told touches.old touches.new) }
    ensures touches { touches.new ≤ touches.old + length (close_held S.X.block32 meta.now
        (some_row rows.old.items) last) }
    ensures builds { OnlyBuilds S.X.block32 (fault_in result) (S.seen store.old) (S.seen store.new) }
    ensures no_other { SavesAmong S.X.block32 (close_held S.X.block32 meta.now (some_row rows.old.items) last)
        (S.seen store.old).told (S.seen store.new).told }
{
    with_row(alloc, rows)?;
    close(alloc, rows, 0, last, meta, store, touches)
}

// At least one row.
fn with_row(alloc: Global, rows: &mut Vec<Parts>) -> Result<(), Memory>
    ensures { OnOk result (rows.new.items ≡ some_row rows.old.items) }
{
    if rows.is_empty() {
        rows.push(Seq::new(alloc))?;
    }
    Ok(())
}

// Closes the open groups from a row on, the lowest first, where a part is carried into that row. Answers the part that
// stands over all rows in the end, with the file's metadata.
fn close<S: Store, L: Ledger>(
    alloc: Global,
    rows: &mut Vec<Parts>,
    level: usize,
    carried: Part,
    meta: &Meta,
    store: &mut S,
    touches: &mut Steps<L>,
) -> Result<Part, StoreFault>
    requires level { level ≤ length rows.old.items }
    requires short { AreShort 1024 rows.old.items }
    requires size { sizes_of rows.old.items + carried.size < 2 ^ 63 }
    requires good { IsTrue (is_meta meta.now) }
    ensures closed { IfOk result (λ part. ClosesRows S.X.block32 meta.now level rows.old.items carried part
        (S.seen store.new).told touches.old touches.new) }
    ensures touches { touches.new
        ≤ touches.old + length (close_held_up S.X.block32 meta.now level rows.old.items carried) }
    ensures builds { OnlyBuilds S.X.block32 (fault_in result) (S.seen store.old) (S.seen store.new) }
    ensures no_other { SavesAmong S.X.block32 (close_held_up S.X.block32 meta.now level rows.old.items carried)
        (S.seen store.old).told (S.seen store.new).told }
{
    if level == rows.len() {
        return Ok(carried);
    }
    let is_top = level + 1 == rows.len();
    let row = mem::replace(&mut rows[level], Seq::new(alloc));
    let up = close_row(alloc, row, carried, is_top, meta, store, touches)?;
    close(alloc, rows, level + 1, up, meta, store, touches)
}

// What a row hands up as it ends.
fn close_row<S: Store, L: Ledger>(
    alloc: Global,
    mut row: Parts,
    carried: Part,
    is_top: bool,
    meta: &Meta,
    store: &mut S,
    touches: &mut Steps<L>,
) -> Result<Part, StoreFault>
    requires few { length row < 1024 }
    requires size { size_of row + carried.size < 2 ^ 63 }
    requires good { IsTrue (is_meta meta.now) }
    ensures ends { IfOk result (λ up. EndsRow S.X.block32 meta.now is_top (row ++ carried ∷ []) up
        (S.seen store.new).told touches.old touches.new) }
    ensures touches { touches.new ≤ touches.old + length (carry_held S.X.block32 meta.now is_top
        (row ++ carried ∷ [])) }
    ensures builds { OnlyBuilds S.X.block32 (fault_in result) (S.seen store.old) (S.seen store.new) }
    ensures no_other { SavesAmong S.X.block32 (carry_held S.X.block32 meta.now is_top (row ++ carried ∷ []))
        (S.seen store.old).told (S.seen store.new).told }
{
    row.push(carried)?;
    if is_top {
        return save_top(alloc, store, row.as_slice(), meta, touches);
    }
    save_node(alloc, store, row.as_slice(), touches)
}
