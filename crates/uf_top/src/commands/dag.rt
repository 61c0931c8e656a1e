//! `dag export`, `dag import` and `dag same`: CARs written from what is held, read into the store, and compared.
ghost use Rattle.std.specs.Prelude.{◌≡◌, IfErr, IfOk, List, OnErr, OnOk, flat_map, ℕ};
ghost use Rattle.uf_edge.specs.Streams.{Told as Left};
ghost use Rattle.uf_command.specs.Natures.{OfCarSections};
ghost use Rattle.uf_command.specs.declared.types.Command.TheVariants as commands;
ghost use Rattle.uf_mfs.specs.Standing.{LeavesHead};
ghost use Rattle.uf_command.specs.Cars.{root_line};
ghost use Rattle.uf_store.specs.Contents.{changed, with_sync};
ghost use Rattle.uf_top.specs.Causes.{Stops};
ghost use Rattle.uf_top.specs.Cars.{ByOwnStore, ComparesCar, ComparesStores, KeepsCar, TakesRoot, root_alone};
ghost use Rattle.uf_top.specs.Cars.{kept_refusal as refusal_of_kept};
ghost use Rattle.uf_top.specs.Intake.{ShownIn};
ghost use Rattle.uf_top.specs.Lent.{OverOutput, OverStreams};
ghost use Rattle.uf_top.specs.Reply.{compared_text as text_of_compared, same_refusal as refusal_of_same};
ghost use Rattle.uf_top.specs.Working.{Does};

use crate::commands::add::synced;
use std::alloc::Global;
use std::sync::ledger::Ledger;
use uf_car::{CarFault, export, import};
use uf_cid::{Block, Cid, Cids, Memory};
use uf_command::{DagRule, Refusal, plain, print, root_lines, section_refusal, two_blocks};
use uf_edge::{Sink, Source};
use uf_same::{Compared, SameFault, same};
use uf_store::{MemStore, Steps, Store, StoreFault};

// The most blocks that are walked, whether written as a CAR, compared with one or pinned.
pub const MOST_BLOCKS: u32 = 16777216;

// The most bytes of a CAR that are read.
const MOST_BYTES: u64 = 1099511627776;

// Writes the CAR of what is below a CID, once all of that was walked.
pub fn export_car<S: Store, O: Sink, L: Ledger>(
    alloc: Global,
    cid: &Cid,
    store: &mut S,
    output: &mut O,
    touches: &mut Steps<L>,
) -> Result<(), Refusal>
    ensures { (N : List ℕ → ℕ) → OverOutput O.Sink (Does S.X.block32 N (commands.Export cid.now) result)
        (S.seen store.old) output.old touches.old (S.seen store.new) output.new touches.new }
{
    export(alloc, store, cid, MOST_BLOCKS, output, touches)?;
    Ok(())
}

// Keeps the blocks of the CAR that the input has, and then prints its roots.
pub fn import_car<S: Store, I: Source, O: Sink, L: Ledger>(
    alloc: Global,
    store: &mut S,
    input: &mut I,
    output: &mut O,
    touches: &mut Steps<L>,
) -> Result<(), Refusal>
    ensures { (N : List ℕ → ℕ) → OverStreams I.Source O.Sink (Does S.X.block32 N commands.Import result)
        (S.seen store.old) input.old output.old touches.old (S.seen store.new) input.new output.new touches.new }
{
    let text = roots_of(alloc, store, input, touches)?;
    print(&text, output)
}

// The roots of the CAR that the input has, each in a line, once its blocks are kept and durable.
fn roots_of<S: Store, I: Source, L: Ledger>(
    alloc: Global,
    store: &mut S,
    input: &mut I,
    touches: &mut Steps<L>,
) -> Result<Block, Refusal>
    ensures { KeepsCar S.X.block32 result (S.seen store.old) (S.seen store.new) (I.left input.old)
        (I.faults input.old) (I.faults input.new) }
{
    let imported = import(alloc, store, input, MOST_BYTES, touches)?;
    firm_lines(alloc, &imported.roots, store)
}

// The roots of a CAR, each in a line, once what was kept of it is durable.
fn firm_lines<S: Store>(alloc: Global, roots: &Cids, store: &mut S) -> Result<Block, Refusal>
    ensures lines { IfOk result (λ text. text ≡ flat_map root_line roots.now) }
    ensures stopped { Stops result }
    ensures synced { OnOk result ((S.seen store.new).told ≡ changed with_sync (S.seen store.old).told) }
    ensures failed { OnErr result (LeavesHead (S.seen store.old).told (S.seen store.new).told) }
    ensures cause { ShownIn S.X.block32 result (S.seen store.old) (S.seen store.new) }
{
    let text = root_lines(alloc, roots)?;
    synced(store, text)
}

// Compares what is below a CID with the CAR that the input has, and prints how they compare.
pub fn compare_car<S: Store, I: Source, O: Sink, L: Ledger>(
    alloc: Global,
    cid: &Cid,
    store: &mut S,
    input: &mut I,
    output: &mut O,
    touches: &mut Steps<L>,
) -> Result<(), Refusal>
    ensures does { (N : List ℕ → ℕ) → OverStreams I.Source O.Sink (Does S.X.block32 N (commands.Same cid.now) result)
        (S.seen store.old) input.old output.old touches.old (S.seen store.new) input.new output.new touches.new }
    ensures own { IfErr result (ByOwnStore S.X.block32 OfCarSections (I.left input.old) (S.seen store.old)
        (S.seen store.new)) }
{
    let text = comparison(alloc, cid, store, input, touches)?;
    print(&text, output)
}

// How what is below a CID compares with the CAR that the input has, which is read whole into a store of its own.
fn comparison<S: Store, I: Source, L: Ledger>(
    alloc: Global,
    cid: &Cid,
    store: &mut S,
    input: &mut I,
    touches: &mut Steps<L>,
) -> Result<Block, Refusal>
    ensures { ComparesCar S.X.block32 cid.now result (S.seen store.old) (S.seen store.new) (I.left input.old)
        (I.faults input.old) (I.faults input.new) }
{
    let mut right = MemStore::<S::X>::new(alloc);
    let root = one_root(alloc, &mut right, input, touches)?;
    compare_stores(alloc, cid, &root, store, &mut right, touches)
}

// The root of the CAR that the input has, once its blocks are kept: there has to be one.
fn one_root<S: Store, I: Source, L: Ledger>(
    alloc: Global,
    store: &mut S,
    input: &mut I,
    touches: &mut Steps<L>,
) -> Result<Cid, Refusal>
    ensures { TakesRoot S.X.block32 result (S.seen store.old).told (S.seen store.new).told (I.left input.old)
        (I.faults input.old) (I.faults input.new) }
{
    let imported = import(alloc, store, input, MOST_BYTES, touches).map_err(kept_refusal)?;
    only_root(&imported.roots)
}

// A fault of a CAR that is read into a store of its own, as a refusal.
fn kept_refusal(fault: CarFault) -> Refusal
    ensures { result ≡ refusal_of_kept fault }
{
    match fault {
        CarFault::Store(fault) => section_refusal(fault),
        fault => Refusal::from(fault),
    }
}

// The one root of a CAR.
fn only_root(roots: &Cids) -> Result<Cid, Refusal>
    ensures { result ≡ root_alone roots.now }
{
    match roots.as_slice() {
        [root] => Ok(*root),
        [..] => Err(Refusal::Car {
            number: 7,
            place: 0,
        }),
    }
}

// How two stores compare below a CID and the root of a CAR.
fn compare_stores<S: Store, R: Store<X = S::X>, L: Ledger>(
    alloc: Global,
    cid: &Cid,
    root: &Cid,
    left: &mut S,
    right: &mut R,
    touches: &mut Steps<L>,
) -> Result<Block, Refusal>
    ensures { ComparesStores S.X.block32 cid.now root.now result (S.seen left.old) (S.seen left.new)
        (R.seen right.old).told }
{
    let found = same(alloc, left, right, cid, root, MOST_BLOCKS, touches).map_err(same_refusal)?;
    Ok(compared_text(alloc, &found)?)
}

// Why two stores weren't compared, as a refusal.
fn same_refusal(fault: SameFault) -> Refusal
    ensures { result ≡ refusal_of_same fault }
{
    match fault {
        SameFault::NotDagPb(cid, why) => Refusal::Dag(DagRule::NotUnixfs(cid, why)),
        SameFault::TooMany => Refusal::Dag(DagRule::TooMany),
        SameFault::Left(fault) => Refusal::Store(fault),
        SameFault::Right(fault) => section_refusal(fault),
        SameFault::Memory => Refusal::Store(StoreFault::Memory),
    }
}

// How two stores compare, as it is printed.
fn compared_text(alloc: Global, found: &Compared) -> Result<Block, Memory>
    ensures { IfOk result (λ text. text ≡ text_of_compared found.now) }
{
    match found {
        Compared::Equal => plain(alloc, b"equal\n"),
        Compared::Differ => plain(alloc, b"differ\n"),
        Compared::Clash(cid, first, second) => two_blocks(
            alloc,
            b"clash ",
            cid,
            first.as_slice(),
            second.as_slice(),
        ),
    }
}
