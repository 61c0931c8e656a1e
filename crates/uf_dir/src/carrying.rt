//! The metadata of a directory set.
ghost use Rattle.std.specs.Prelude.{◌<◌, ◌≤◌, ◌+◌, ◌∷◌, ℕ, List, [], IfOk, IsTrue, OnOk, Some, true};
ghost use Rattle.uf_edge.specs.Counts.{Stood};
ghost use Rattle.uf_store.specs.Among.{SavesAmong};
ghost use Rattle.uf_store.specs.Keeping.{Agrees, KeepsGood, StaysAgreed};
ghost use Rattle.uf_store.specs.Lost.{AgreesAfter};
ghost use Rattle.uf_store.specs.Writing.{SavesOnly};
ghost use Rattle.uf_tree.specs.declared.meta.Meta.{Meta as TheMeta};
ghost use Rattle.uf_tree.specs.Metas.{is_meta};
ghost use Rattle.uf_tree.specs.Nodes.{Named};
ghost use Rattle.uf_tree.specs.Profiles.{is_profile};
ghost use Rattle.uf_tree.specs.Roots.{dir_root};
ghost use Rattle.uf_tree.specs.TreePlan.{too_big};
ghost use Rattle.uf_shard.specs.Answers.{AtCollision, GivesOver, Shown, dir_fault};
ghost use Rattle.uf_dir.specs.Bad.{BlamesOnly};
ghost use Rattle.uf_dir.specs.Planned.{IsPlanned, dir_entry, own_blocks};
ghost use Rattle.uf_dir.specs.Roots.{IsNoRoot, IsRootCid};

use crate::building::build_basic;
use crate::looking::look_at_root;
use crate::root::Root;
use std::alloc::Global;
use std::sync::ledger::Ledger;
use uf_shard::{DirFault, save_root};
use uf_store::{Steps, Store};
use uf_tree::{Entry, Meta, Profile};

/// Saves the directory of this entry with other metadata, which must be good, and answers its entry. Its root alone is
/// loaded and saved; the names, and the shards below the root, stay. Never `Collision`. At most two touches.
pub fn set_meta<S: Store, L: Ledger>(
    alloc: Global,
    store: &mut S,
    p: &Profile,
    entry: &Entry,
    meta: &Meta,
    touches: &mut Steps<L>,
) -> Result<Entry, DirFault>
    requires profile { IsTrue (is_profile p.now) }
    requires meta { IsTrue (is_meta meta.now) }
    ensures value { (N : List ℕ → ℕ) (m : TheMeta) (l : List Named) → IsPlanned S.X.block32 N p.now m entry.now.cid l
        → Agrees (S.seen store.old).told (dir_root S.X.block32 N p.now m l ∷ [])
        → Stood (S.seen store.old).faults (S.seen store.new).faults
        → Stood (S.seen store.old).clashes (S.seen store.new).clashes
        → GivesOver (S.seen store.old).told (dir_root S.X.block32 N p.now m l ∷ [])
        (too_big (dir_entry S.X.block32 N p.now meta.now l).tsize)
        (dir_entry S.X.block32 N p.now meta.now l) result }
    ensures apart { AtCollision result ⊥ }
    ensures made { IfOk result (λ e. IsRootCid S.X.block32 (Some p.now) e.cid) }
    ensures after { OnOk result ((N : List ℕ → ℕ) (m : TheMeta) (l : List Named)
        → IsPlanned S.X.block32 N p.now m entry.now.cid l
        → StaysAgreed (S.seen store.old).told (S.seen store.new).told (own_blocks S.X.block32 N p.now m l)
        → AgreesAfter (S.seen store.old).told (S.seen store.new).told (own_blocks S.X.block32 N p.now m l)
        (own_blocks S.X.block32 N p.now meta.now l)) }
    ensures cause { Shown S.X.block32 (IsNoRoot (Some p.now) true) result (S.seen store.old) (S.seen store.new) }
    ensures blames { BlamesOnly entry.now.cid (dir_fault result) }
    ensures good { KeepsGood S.X.block32 (S.seen store.old).told (S.seen store.new).told }
    ensures saves { SavesOnly S.X.block32 (S.seen store.old).told (S.seen store.new).told }
    ensures no_other { (N : List ℕ → ℕ) (m : TheMeta) (l : List Named)
        → IsPlanned S.X.block32 N p.now m entry.now.cid l
        → Agrees (S.seen store.old).told (dir_root S.X.block32 N p.now m l ∷ [])
        → SavesAmong S.X.block32 (dir_root S.X.block32 N p.now meta.now l ∷ [])
        (S.seen store.old).told (S.seen store.new).told }
    ensures touches { touches.new ≤ touches.old + 2 }
    ensures touched { touches.old < touches.new }
{
    let found = look_at_root(alloc, store, Some(*p), &entry.cid, touches)?;
    match found {
        Root::Basic(node) => build_basic(alloc, store, &node.pairs, meta, touches),
        Root::Sharded(node) => save_root(alloc, store, &node.items, meta, touches),
    }
}
