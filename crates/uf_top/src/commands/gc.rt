//! `repo gc`: what neither the tree nor a pin leads to, let go.
ghost use Rattle.std.specs.Prelude.{◌≡◌};
ghost use Rattle.uf_top.specs.Collecting.{LetsGo, LetsGoAndPrints, ReadsRoots, RootsIn, TouchesKept};
ghost use Rattle.uf_top.specs.Intake.{ShownIn};

use crate::commands::dag::MOST_BLOCKS;
use std::alloc::Global;
use std::sync::ledger::Ledger;
use uf_cid::Cids;
use uf_command::{Refusal, print, removed_row};
use uf_edge::Sink;
use uf_mfs::Ready;
use uf_pins::collect;
use uf_store::{Note, NoteRead, Steps, Store, StoreFault, Sweep};
use uf_tree::{HeadFault, read_head};

// Lets go of each block that neither the root of the Head nor a pin leads to, and prints how many these were.
pub fn collect_rest<S: Sweep, O: Sink, L: Ledger>(
    alloc: Global,
    store: &mut S,
    output: &mut O,
    touches: &mut Steps<L>,
) -> Result<(), Refusal>
    ensures prints { LetsGoAndPrints S.X.block32 result (S.seen store.old) (S.seen store.new) (O.holds output.old)
        (O.holds output.new) (O.faults output.old) (O.faults output.new) }
    ensures touches { TouchesKept (S.seen store.old).told touches.old touches.new }
{
    let count = let_go(alloc, store, touches)?;
    let row = removed_row(alloc, count)?;
    print(&row, output)
}

// Lets go of these blocks, and answers how many they were.
fn let_go<S: Sweep, L: Ledger>(
    alloc: Global,
    store: &mut S,
    touches: &mut Steps<L>,
) -> Result<u64, Refusal>
    ensures goes { LetsGo S.X.block32 result (S.seen store.old) (S.seen store.new) }
    ensures touches { TouchesKept (S.seen store.old).told touches.old touches.new }
{
    let roots = tree_roots(alloc, store)?;
    Ok(collect(alloc, store, &roots, MOST_BLOCKS, touches)?)
}

// The root that the Head names; none where there is no Head.
fn tree_roots<S: Store>(alloc: Global, store: &mut S) -> Result<Cids, Refusal>
    ensures read { ReadsRoots result (S.seen store.old).told }
    ensures cause { ShownIn S.X.block32 result (S.seen store.old) (S.seen store.new) }
    ensures told { (S.seen store.new).told ≡ (S.seen store.old).told }
{
    match store.read_note(Note::Head) {
        NoteRead::Text(text) => root_in(alloc, text.as_slice()),
        NoteRead::Absent => Ok(Cids::new(alloc)),
        NoteRead::Failed => Err(Refusal::Store(StoreFault::Failed)),
        NoteRead::Memory => Err(Refusal::Store(StoreFault::Memory)),
    }
}

// The root that the text of a Head names.
fn root_in(alloc: Global, text: &[u8]) -> Result<Cids, Refusal>
    ensures { RootsIn result text.now }
{
    match read_head(alloc, text) {
        Ok(head) => {
            let mut roots = Cids::new(alloc);
            roots.push(head.root)?;
            Ok(roots)
        }
        Err(HeadFault::Memory) => Err(Refusal::Store(StoreFault::Memory)),
        Err(_) => Err(Refusal::Ready(Ready::BadHead)),
    }
}
