//! Light proofs made.
ghost use Rattle.std.specs.Prelude.{◌≡◌, ◌-◌, ◌<◌, ◌^◌, [], IfErr, IfOk, None, Some, false, length};
ghost use Rattle.uf_car.specs.Exporting.{WritesSome};
ghost use Rattle.uf_edge.specs.Counts.{Counts};
ghost use Rattle.uf_store.specs.Calls.{OnlyReads};
ghost use Rattle.uf_store.specs.Faults.{Shown};
ghost use Rattle.uf_light.specs.Gathered.{AddsBlocks};
ghost use Rattle.uf_light.specs.Answers.{is_light_sink, light_fault};
ghost use Rattle.uf_light.specs.Bad.{IsBadLight};
ghost use Rattle.uf_light.specs.FileCids.{IsBadInSome};
ghost use Rattle.uf_light.specs.Sending.{IsNoCar};
ghost use Rattle.uf_light.specs.Touches.{CountsUp, IsBlaming};
ghost use Rattle.uf_light.specs.Along.{AddsFileCids, FindsProof, ProvesPath, TouchesFileCids, TouchesFinding};
ghost use Rattle.uf_light.specs.Along.{TouchesProof, WritesPrefixOfProof};

use crate::LightFault;
use crate::deciding::wanted;
use crate::gathering::{append, gather};
use crate::listing::file_cids;
use crate::looking::thing_of;
use crate::order::{Order, each_once};
use crate::writing::write_light;
use std::alloc::Global;
use std::sync::ledger::Ledger;
use uf_cid::Cids;
use uf_edge::Sink;
use uf_murmur::NameHash;
use uf_store::{Steps, Store};
use uf_tree::{Entry, Name, Names};

/// Writes a CAR of the blocks that decide what is at a path below a root, and of all blocks of the file there; with
/// `absent`, of those that show that nothing is there. It answers the number of bytes. All blocks are found before
/// anything is written. Its check needs the root's CID alone.
pub fn prove<S: Store, N: NameHash, O: Sink, L: Ledger>(
    alloc: Global,
    store: &mut S,
    root: &Entry,
    names: &Names,
    absent: bool,
    out: &mut O,
    touches: &mut Steps<L>,
) -> Result<u64, LightFault>
    requires { length names.now < 2 ^ 32 }

    // Over a store that tells and agrees with the blocks of a tree: the proof, the refusal, or one of those that are
    // needed is lost, which are the blocks that decide the path and those of the file that is shown.
    ensures proves { ProvesPath S.X.block32 N.name64 root.now.cid names.now absent (S.seen store.old)
        (S.seen store.new) result (O.holds out.old) (O.holds out.new) }

    // Whatever fails, a prefix of the proof was written and nothing else; where the tree refuses, nothing.
    ensures prefix { WritesPrefixOfProof S.X.block32 N.name64 root.now.cid names.now absent (S.seen store.old)
        (O.holds out.old) (O.holds out.new) }
    ensures some { WritesSome (O.holds out.old) (O.holds out.new) }
    ensures form { IfErr result IsNoCar }
    ensures cause { Shown S.X.block32 (IsBadLight S.X.block32 N.name64 (S.seen store.old).told root.now.cid)
        (light_fault result) (S.seen store.old) (S.seen store.new) }
    ensures told { (S.seen store.new).told ≡ (S.seen store.old).told }
    ensures counts { Counts (is_light_sink result) (O.faults out.old) (O.faults out.new) }
    ensures touched { IsBlaming (light_fault result) → touches.old < touches.new }

    // Where the store doesn't fail so many touches are enough, also where the tree refuses or a block is lost.
    ensures few { TouchesProof S.X.block32 N.name64 root.now.cid names.now absent (S.seen store.old)
        (S.seen store.new) touches.old touches.new }
{
    let order = find_blocks::<S, N, L>(alloc, store, root, names.as_slice(), absent, touches)?;
    write_light(store, &root.cid, &order, out, touches)
}

// The CIDs of the blocks that show what is at a path.
fn find_blocks<S: Store, N: NameHash, L: Ledger>(
    alloc: Global,
    store: &mut S,
    root: &Entry,
    names: &[Name],
    absent: bool,
    touches: &mut Steps<L>,
) -> Result<Order, LightFault>
    requires { length names.now < 2 ^ 32 }
    ensures finds { FindsProof S.X.block32 N.name64 root.now.cid names.now absent (S.seen store.old) (S.seen store.new)
        result }
    ensures few { IfOk result (λ order. length order < 2 ^ 32) }
    ensures reads { OnlyReads S.X.block32 (IsBadLight S.X.block32 N.name64 (S.seen store.old).told root.now.cid)
        (light_fault result) (S.seen store.old) (S.seen store.new) }
    ensures quiet { is_light_sink result ≡ false }
    ensures form { IfErr result IsNoCar }
    ensures touched { CountsUp (light_fault result) touches.old touches.new }
    ensures most { TouchesFinding S.X.block32 N.name64 root.now.cid names.now absent (S.seen store.old)
        (S.seen store.new) touches.old touches.new }
{
    let thing = thing_of::<S, N, L>(alloc, store, root, touches)?;
    let mut cids = Cids::new(alloc);
    let met = gather::<S, N, L>(alloc, store, 0, names, thing, &mut cids, touches)?;
    let file = wanted(absent, met)?;
    add_file(alloc, store, file, &mut cids, touches)?;
    let order = each_once(alloc, cids.as_slice())?;
    Ok(order)
}

// Puts the CIDs of a file's blocks at the end of a list, where there is a file.
fn add_file<S: Store, L: Ledger>(
    alloc: Global,
    store: &mut S,
    file: Option<Entry>,
    cids: &mut Cids,
    touches: &mut Steps<L>,
) -> Result<(), LightFault>
    ensures none { file ≡ None → AddsBlocks (S.seen store.old).told [] cids.old cids.new result }
    ensures some { AddsFileCids S.X.block32 file cids.old cids.new (S.seen store.old) (S.seen store.new) result }
    ensures reads { OnlyReads S.X.block32 (IsBadInSome (S.seen store.old).told) (light_fault result)
        (S.seen store.old) (S.seen store.new) }
    ensures quiet { is_light_sink result ≡ false }
    ensures form { IfErr result IsNoCar }
    ensures touched { CountsUp (light_fault result) touches.old touches.new }
    ensures untouched { file ≡ None → touches.new ≡ touches.old }
    ensures few { TouchesFileCids S.X.block32 file (S.seen store.old) (S.seen store.new) touches.old touches.new }
{
    let Some(entry) = file else {
        return Ok(());
    };
    let blocks = file_cids(alloc, store, &entry, touches)?;
    append(cids, blocks.as_slice())?;
    Ok(())
}
