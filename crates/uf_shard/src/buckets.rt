//! The slots that take the pairs of a directory (UnixFS v1, "HAMTDirectory").
ghost use Rattle.std.specs.Prelude.{◌≡◌, ◌<◌, ◌++◌, ◌∷◌, ℕ, [], IfOk, OnOk, length, slice_index_or, slice_set};
ghost use Rattle.uf_shard.specs.Buckets.{AreHashed, pairs_of, rows_at};

use crate::hashed::Hashed;
use std::alloc::Global;
use uf_cid::{Memory, Seq};
use uf_murmur::{NameHash, slot};
use uf_tree::Pair;

// How many slots a shard has.
const SLOTS: usize = 256;

// The pairs in their order, each with the hash of its name.
pub fn hash_all<'a, N: NameHash>(
    alloc: Global,
    pairs: &'a [Pair],
) -> Result<Seq<Hashed<'a>>, Memory>
    ensures pairs { IfOk result (λ rows. pairs_of rows ≡ pairs.now) }
    ensures hashed { IfOk result (AreHashed N.name64) }
{
    let mut rows = Seq::new(alloc);
    for pair in pairs {
        let hash = N::name64(pair.name.as_str().as_bytes());
        rows.push(Hashed { hash, pair })?;
    }
    Ok(rows)
}

// The rows of each slot of a level, in their order.
pub fn in_slots<'a>(
    alloc: Global,
    rows: &[Hashed<'a>],
    level: u8,
) -> Result<Vec<Seq<Hashed<'a>>>, Memory>
    requires { level < 8 }
    ensures count { IfOk result (λ slots. length slots.items ≡ 256) }
    ensures rows { IfOk result (λ slots. (s : ℕ) → s < 256
        → slice_index_or slots.items s [] ≡ rows_at level s rows.now) }
{
    let mut slots = empty_slots(alloc)?;
    for row in rows {
        put(&mut slots, slot(row.hash, level), *row)?;
    }
    Ok(slots)
}

// No row in any slot.
fn empty_slots<'a>(alloc: Global) -> Result<Vec<Seq<Hashed<'a>>>, Memory>
    ensures count { IfOk result (λ slots. length slots.items ≡ 256) }
    ensures empty { IfOk result (λ slots. (s : ℕ) → slice_index_or slots.items s [] ≡ []) }
{
    let mut slots = Vec::with_capacity(alloc, SLOTS)?;
    for _ in 0..SLOTS {
        slots.push(Seq::new(alloc))?;
    }
    Ok(slots)
}

// Puts a row after the others of its slot.
fn put<'a>(slots: &mut Vec<Seq<Hashed<'a>>>, slot: u8, row: Hashed<'a>) -> Result<(), Memory>
    requires { length slots.old.items ≡ 256 }
    ensures { OnOk result (slots.new.items
        ≡ slice_set slots.old.items slot (slice_index_or slots.old.items slot [] ++ row.entry ∷ [])) }
{
    let here = &mut slots[usize::from(slot)];
    here.push(row)
}
