//! Two names of one hash.
ghost use Rattle.std.specs.Prelude.{◌≡◌, ℕ, List, IfOk};
ghost use Rattle.std.specs.Option.{option_map, option_or};
ghost use Rattle.uf_tree.specs.ShardPlan.{same_hash, twins};
ghost use Rattle.uf_shard.specs.Buckets.{AreHashed, pairs_of};
ghost use Rattle.uf_shard.specs.Saving.{names_of};

use crate::hashed::Hashed;
use std::alloc::Global;
use std::collections::BTreeMap;
use uf_cid::Memory;

// The first row whose hash stands after it again, and the first such row.
pub fn first_twins<'a>(
    alloc: Global,
    rows: &[Hashed<'a>],
) -> Result<Option<(Hashed<'a>, Hashed<'a>)>, Memory>
    ensures { (N : List ℕ → ℕ) → AreHashed N rows.now
        → IfOk result (λ found. option_map names_of found ≡ twins (same_hash N) (pairs_of rows.now)) }
{
    // From the last row to the first: a hash that comes again is replaced by the place before it.
    let mut first_behind = BTreeMap::new(alloc);
    let mut found = None;
    for at in (0..rows.len()).rev() {
        let row = rows[at];
        let twin = first_behind.insert(row.hash, row)?;
        found = twins_from(row, twin, found);
    }
    Ok(found)
}

// A row and its first twin after it, where it has one, or the twins after it.
fn twins_from<'a>(
    row: Hashed<'a>,
    twin: Option<Hashed<'a>>,
    behind: Option<(Hashed<'a>, Hashed<'a>)>,
) -> Option<(Hashed<'a>, Hashed<'a>)>
    ensures { result ≡ option_or (option_map (λ t. (row.entry, t)) twin.entry) behind.entry }
{
    match twin {
        Some(twin) => Some((row, twin)),
        None => behind,
    }
}
