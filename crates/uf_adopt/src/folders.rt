//! Trees adopted, files and directories.
ghost use Rattle.std.specs.Prelude.{◌≡◌, ◌≤◌, ℕ, List, IfOk, IsTrue, Ok, OnOk};
ghost use Rattle.std.specs.FinMap.Entries.{is_sorted};
ghost use Rattle.uf_cid.specs.Blocks.{Lookup};
ghost use Rattle.uf_store.specs.Among.{SavesAmong};
ghost use Rattle.uf_tree.specs.Names.{names_cmp};
ghost use Rattle.uf_tree.specs.Profiles.{is_profile};
ghost use Rattle.uf_tree.specs.Tree.{Entries, Tree};
ghost use Rattle.uf_tree.specs.TreePlan.{blocks as blocks_of};
ghost use Rattle.uf_tree.specs.Validity.{IsDirectory, IsNamed};
ghost use Rattle.uf_adopt.specs.Adopting.{BuildsEach, BuildsTree, each_blocks};
ghost use Rattle.uf_lenient.specs.Denoted.{AreDenoted, denotes_within};
ghost use Rattle.uf_adopt.specs.Faults.{OnlyAdopts};
ghost use Rattle.uf_adopt.specs.Feeding.{HoldsGoodMap};

use crate::AdoptFault;
use crate::files::adopt_file;
use std::alloc::Global;
use std::sync::ledger::Ledger;
use uf_cid::{Cid, Memory, cids_are_whole};
use uf_lenient::{DagFault, Limits, Shape, Way, shallow};
use uf_murmur::NameHash;
use uf_store::{Steps, Store};
use uf_tree::{Entry, Pair, Pairs, Profile};

// Builds the tree that a CID denotes, where directories nest less deep than `room`.
#[cycle(adopting)]
pub fn adopt_within<S: Store, N: NameHash, L: Ledger>(
    alloc: Global,
    store: &mut S,
    p: &Profile,
    cid: &Cid,
    limits: &Limits,
    room: u64,
    touches: &mut Steps<L>,
) -> Result<Entry, AdoptFault>
    requires profile { IsTrue (is_profile p.now) }
    ensures builds { (held : Lookup) (t : Tree) → HoldsGoodMap S.X.block32 held (S.seen store.old).told
        → denotes_within held limits.now room cid.now ≡ Ok t
        → BuildsTree S.X.block32 N.name64 p.now held limits.now (S.seen store.new).told cid.now t result }
    ensures adopts { OnlyAdopts S.X.block32 result (S.seen store.old) (S.seen store.new) }
    ensures no_other { (held : Lookup) (t : Tree) → HoldsGoodMap S.X.block32 held (S.seen store.old).told
        → denotes_within held limits.now room cid.now ≡ Ok t
        → SavesAmong S.X.block32 (blocks_of S.X.block32 N.name64 p.now t)
        (S.seen store.old).told (S.seen store.new).told }
    ensures touched { OnOk result (touches.old ≤ touches.new) }
{
    if room == 0 {
        return Err(AdoptFault::Dag(DagFault::TooDeep(*cid)));
    }
    match shallow(alloc, store, cid, limits, touches)? {
        Shape::File(meta) => adopt_file(alloc, store, p, cid, limits, &meta, touches),
        Shape::Folder(meta, ways) => {
            let ways = ways.as_slice();
            let pairs = adopt_each::<S, N, L>(alloc, store, p, ways, limits, room - 1, touches)?;
            Ok(uf_dir::build::<S, N, L>(alloc, store, p, &pairs, &meta, touches)?)
        }
    }
}

// Builds what each of these ways leads to, in their order.
#[cycle(adopting)]
fn adopt_each<S: Store, N: NameHash, L: Ledger>(
    alloc: Global,
    store: &mut S,
    p: &Profile,
    ways: &[Way],
    limits: &Limits,
    room: u64,
    touches: &mut Steps<L>,
) -> Result<Pairs, AdoptFault>
    requires profile { IsTrue (is_profile p.now) }
    ensures builds { (held : Lookup) (es : Entries) → HoldsGoodMap S.X.block32 held (S.seen store.old).told
        → AreDenoted held limits.now room ways.now es
        → BuildsEach S.X.block32 N.name64 p.now held limits.now (S.seen store.new).told ways.now es result }
    ensures directory { IsTrue (is_sorted names_cmp ways.now) → IfOk result IsDirectory }
    ensures adopts { OnlyAdopts S.X.block32 result (S.seen store.old) (S.seen store.new) }
    ensures no_other { (held : Lookup) (es : Entries) → HoldsGoodMap S.X.block32 held (S.seen store.old).told
        → AreDenoted held limits.now room ways.now es
        → SavesAmong S.X.block32 (each_blocks S.X.block32 N.name64 p.now es)
        (S.seen store.old).told (S.seen store.new).told }
    ensures touched { OnOk result (touches.old ≤ touches.new) }
{
    let mut pairs = Pairs::new(alloc);
    for way in ways {
        let entry = adopt_within::<S, N, L>(alloc, store, p, &way.cid, limits, room, touches)?;
        pairs.push(pair_of(way, entry)?)?;
    }
    Ok(pairs)
}

// The name of a way and the entry of what it leads to.
fn pair_of(way: &Way, entry: Entry) -> Result<Pair, Memory>
    ensures pair { IfOk result (λ pair. pair ≡ (way.now.0, entry)) }
    ensures named { IfOk result IsNamed }
{
    let _name = way.name.as_str();
    let _tsize = entry.tsize;
    cids_are_whole(&entry.cid);
    let name = way.name.copy()?;
    Ok(Pair { name, entry })
}
