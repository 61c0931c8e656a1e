//! Two stores compared.
ghost use Rattle.std.specs.Prelude.{◌≡◌, ◌≢◌, ◌∷◌, [], None, Some, IfErr, IfOk, IfSome};
ghost use Rattle.uf_store.specs.Calls.{OnlyReads};
ghost use Rattle.uf_store.specs.Contents.{Contents, held_at};
ghost use Rattle.uf_store.specs.Faults.{NoneIsBad, Shown};
ghost use Rattle.uf_walk.specs.Order.{goes};
ghost use Rattle.uf_walk.specs.Walked.{course};
ghost use Rattle.uf_same.specs.Comparing.{ComparesAt, IsClashOf, IsOfLoads, Judges, MissesNone, ShowsTwoBlocks};
ghost use Rattle.uf_same.specs.Comparing.{StepsOn, left_fault, right_fault};
ghost use Rattle.uf_same.specs.Verdict.{follow_both, verdict, verdict_of};

use crate::{Compared, SameFault};
use std::alloc::Global;
use std::sync::ledger::Ledger;
use uf_cid::{Block, Cid};
use uf_store::{Steps, Store, need};
use uf_walk::{Turn, Walk};

/// Whether two stores have the same blocks below two CIDs: Differ where the CIDs differ, and then nothing is loaded;
/// Clash with the first CID, in first-visit depth-first order, whose two blocks differ; else Equal.
pub fn same<A: Store, B: Store<X = A::X>, L: Ledger>(
    alloc: Global,
    left: &mut A,
    right: &mut B,
    a: &Cid,
    b: &Cid,
    most: u32,
    touches: &mut Steps<L>,
) -> Result<Compared, SameFault>
    ensures verdict { (t u : Contents) → (A.seen left.old).told ≡ Some t → (B.seen right.old).told ≡ Some u
        → Judges (verdict (held_at t) (held_at u) most a.now b.now) result }
    ensures clash { IfOk result (ShowsTwoBlocks A.X.block32) }
    ensures differ { a.now ≢ b.now → touches.new ≡ touches.old }

    // A fault of either side is one of loads and has its cause, where it isn't the left one's no block is missing
    // there, and both tell what they told.
    ensures loads { IfErr result IsOfLoads }
    ensures left { Shown A.X.block32 NoneIsBad (left_fault result) (A.seen left.old) (A.seen left.new) }
    ensures right { Shown A.X.block32 NoneIsBad (right_fault result) (B.seen right.old) (B.seen right.new) }
    ensures left_misses { MissesNone (left_fault result) (A.seen left.old) (A.seen left.new) }
    ensures left_told { (A.seen left.new).told ≡ (A.seen left.old).told }
    ensures right_told { (B.seen right.new).told ≡ (B.seen right.old).told }
{
    if a != b {
        return Ok(Compared::Differ);
    }
    compare_from(alloc, left, right, a, most, touches)
}

// Compares two stores below one CID.
fn compare_from<A: Store, B: Store<X = A::X>, L: Ledger>(
    alloc: Global,
    left: &mut A,
    right: &mut B,
    root: &Cid,
    most: u32,
    touches: &mut Steps<L>,
) -> Result<Compared, SameFault>
    ensures verdict { (t u : Contents) → (A.seen left.old).told ≡ Some t → (B.seen right.old).told ≡ Some u
        → Judges (verdict_of (held_at t) (held_at u)
        (goes (follow_both (held_at t) (held_at u)) most (root.now ∷ []))) result }
    ensures clash { IfOk result (ShowsTwoBlocks A.X.block32) }
    ensures loads { IfErr result IsOfLoads }
    ensures left { OnlyReads A.X.block32 NoneIsBad (left_fault result) (A.seen left.old) (A.seen left.new) }
    ensures left_misses { MissesNone (left_fault result) (A.seen left.old) (A.seen left.new) }
    ensures right { OnlyReads A.X.block32 NoneIsBad (right_fault result) (B.seen right.old) (B.seen right.new) }
{
    let mut walk = Walk::new(alloc, most);
    walk.add_root(root)?;
    compare_along(alloc, left, right, &mut walk, touches)
}

// Compares two stores along a walk, from its first CID on.
fn compare_along<A: Store, B: Store<X = A::X>, L: Ledger>(
    alloc: Global,
    left: &mut A,
    right: &mut B,
    walk: &mut Walk,
    touches: &mut Steps<L>,
) -> Result<Compared, SameFault>
    requires { walk.old.due ≡ None }
    ensures verdict { (t u : Contents) → (A.seen left.old).told ≡ Some t → (B.seen right.old).told ≡ Some u
        → Judges (verdict_of (held_at t) (held_at u) (course (follow_both (held_at t) (held_at u)) walk.old)) result }
    ensures clash { IfOk result (ShowsTwoBlocks A.X.block32) }
    ensures loads { IfErr result IsOfLoads }
    ensures left { OnlyReads A.X.block32 NoneIsBad (left_fault result) (A.seen left.old) (A.seen left.new) }
    ensures left_misses { MissesNone (left_fault result) (A.seen left.old) (A.seen left.new) }
    ensures right { OnlyReads A.X.block32 NoneIsBad (right_fault result) (B.seen right.old) (B.seen right.new) }
{
    loop {
        match walk.advance()? {
            Turn::End => return Ok(Compared::Equal),
            Turn::TooMany => return Err(SameFault::TooMany),
            Turn::At(cid) => {
                if let Some(clash) = compare_at(alloc, left, right, &cid, walk, touches)? {
                    return Ok(clash);
                }
            }
        }
    }
}

// Compares the blocks of one CID, and hands them to the walk where they are one.
fn compare_at<A: Store, B: Store<X = A::X>, L: Ledger>(
    alloc: Global,
    left: &mut A,
    right: &mut B,
    cid: &Cid,
    walk: &mut Walk,
    touches: &mut Steps<L>,
) -> Result<Option<Compared>, SameFault>
    requires { walk.old.due ≡ Some cid.now }
    ensures compares { (t u : Contents) → (A.seen left.old).told ≡ Some t → (B.seen right.old).told ≡ Some u
        → ComparesAt (held_at t) (held_at u) result walk.old walk.new }
    ensures steps { StepsOn result walk.old walk.new }
    ensures clash { IfOk result (λ c. IfSome c (ShowsTwoBlocks A.X.block32)) }
    ensures loads { IfErr result IsOfLoads }
    ensures left { OnlyReads A.X.block32 NoneIsBad (left_fault result) (A.seen left.old) (A.seen left.new) }
    ensures left_misses { MissesNone (left_fault result) (A.seen left.old) (A.seen left.new) }
    ensures right { OnlyReads A.X.block32 NoneIsBad (right_fault result) (B.seen right.old) (B.seen right.new) }
{
    if let Err(fault) = need(left, cid, touches) {
        return Err(SameFault::Left(fault));
    }
    if let Err(fault) = need(right, cid, touches) {
        return Err(SameFault::Right(fault));
    }
    let block = left.block();
    if block != right.block() {
        return clash_of(alloc, cid, block, right.block());
    }
    walk.take(block)?;
    Ok(None)
}

// The clash of two blocks.
fn clash_of(
    alloc: Global,
    cid: &Cid,
    left: &[u8],
    right: &[u8],
) -> Result<Option<Compared>, SameFault>
    ensures { IsClashOf cid.now left.now right.now result }
{
    let first = Block::from_slice(alloc, left)?;
    let second = Block::from_slice(alloc, right)?;
    Ok(Some(Compared::Clash(*cid, first, second)))
}
