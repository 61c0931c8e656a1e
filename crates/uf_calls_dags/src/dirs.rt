//! Calls on directories in shards, and on what is built anew.

use crate::files::say_entry;
use std::alloc::Global;
use std::sync::ledger::Ledger;
use uf_cid::{BlockHash, Cid, Codec, Memory, Sha256Hash};
use uf_lenient::Limits;
use uf_murmur::{FirstEight, Murmur3, NameHash};
use uf_playing::{Call, Said, cid_of, say_fault};
use uf_shard::{DirFault, build, find, weight_over};
use uf_store::MemStore;
use uf_testing::{number_and_rest, say, tell_count, two_numbers_and_rest};
use uf_tree::{Entry, Meta, Name, Pair, Pairs, Profile, is_directory};

// The usual limits of a reading.
const USUAL: Limits = Limits {
    depth: 256,
    visits: 1048576,
};

/// The name that a text is.
pub fn name_of(alloc: Global, text: &str) -> Result<Name, Memory> {
    match Name::parse(alloc, text) {
        Ok(name) => Ok(name),
        Err(_) => Err(Memory),
    }
}

/// The name of a number: `f` and five digits.
pub fn numbered_name(alloc: Global, number: u64) -> Result<Name, Memory> {
    let text = format!(in alloc; "f{number:05}")?;
    name_of(alloc, text.as_str())
}

// Puts a name after others, with the CID of an empty file.
fn add(pairs: &mut Pairs, name: Name, tsize: u64) -> Result<(), Memory> {
    let cid = Cid::of::<Sha256Hash>(Codec::Raw, b"");
    let entry = Entry { cid, tsize };
    pairs.push(Pair { name, entry })
}

// Builds a directory in shards of these pairs, and says its root.
fn build_pairs<X: BlockHash, N: NameHash, L: Ledger>(
    call: &mut Call<X, L>,
    pairs: &Pairs,
) -> Result<(), Memory> {
    if pairs.len() == 0 || !is_directory(pairs) {
        return say(call.told, "no directory");
    }
    let (alloc, meta) = (call.alloc, Meta::none());
    match build::<MemStore<X>, N, L>(alloc, call.store, pairs, &meta, call.touches) {
        Ok(root) => say_entry(alloc, &root, call.told),
        Err(DirFault::TooBig) => say(call.told, "too big"),
        Err(DirFault::Store(fault)) => say_fault(alloc, &fault, call.told),
        Err(DirFault::Collision(_, _)) => say(call.told, "collision"),
    }
}

/// Two empty files `a` and `b` that have these Tsizes, under the hash by letters: `shard-two TSIZE TSIZE`.
pub fn build_two<X: BlockHash, L: Ledger>(call: &mut Call<X, L>, rest: &str) -> Result<(), Memory> {
    let (first, second, _) = two_numbers_and_rest(rest);
    let mut pairs = Pairs::new(call.alloc);
    add(&mut pairs, name_of(call.alloc, "a")?, first)?;
    add(&mut pairs, name_of(call.alloc, "b")?, second)?;
    build_pairs::<X, FirstEight, L>(call, &pairs)
}

// n empty files, named by `f` and five digits. The Tsize of each is its number times this one.
fn numbered(alloc: Global, count: u64, times: u64) -> Result<Pairs, Memory> {
    let mut pairs = Pairs::new(alloc);
    for number in 0..count {
        let name = numbered_name(alloc, number)?;
        add(&mut pairs, name, number.saturating_mul(times))?;
    }
    Ok(pairs)
}

/// A directory of numbered files under the hash of UnixFS: `shard-files COUNT TIMES`.
pub fn build_numbered<X: BlockHash, L: Ledger>(
    call: &mut Call<X, L>,
    rest: &str,
) -> Result<(), Memory> {
    let (count, times, _) = two_numbers_and_rest(rest);
    let pairs = numbered(call.alloc, count, times)?;
    build_pairs::<X, Murmur3, L>(call, &pairs)
}

/// How many of COUNT numbered files are found below a root: `find-files COUNT CID`.
pub fn find_numbered<X: BlockHash, L: Ledger>(
    call: &mut Call<X, L>,
    rest: &str,
) -> Result<(), Memory> {
    let (count, text) = number_and_rest(rest);
    let (alloc, root) = (call.alloc, cid_of(text));
    let pairs = numbered(alloc, count, 0)?;
    let mut hits = 0usize;
    for pair in pairs.as_slice() {
        let found = find::<_, Murmur3, L>(alloc, call.store, &root, &pair.name, call.touches);
        if matches!(found, Ok(Some(entry)) if entry == pair.entry) {
            hits = hits.saturating_add(1);
        }
    }
    tell_count(call.told, alloc, hits)
}

/// Whether a directory weighs more than a limit: `weight-over LIMIT CID`.
pub fn weigh<X: BlockHash, L: Ledger>(call: &mut Call<X, L>, rest: &str) -> Said {
    let (limit, text) = number_and_rest(rest);
    let is_over = weight_over(call.alloc, call.store, &cid_of(text), limit, call.touches)?;
    Ok(say(call.told, if is_over { "over" } else { "not over" })?)
}

/// How many entries a directory has: `entries CID`.
pub fn entries<X: BlockHash, L: Ledger>(call: &mut Call<X, L>, rest: &str) -> Said {
    let pairs = uf_shard::entries(call.alloc, call.store, &cid_of(rest), call.touches)?;
    Ok(tell_count(call.told, call.alloc, pairs.len())?)
}

/// Builds anew what a CID denotes: `adopt CID`.
pub fn adopt<X: BlockHash, L: Ledger>(call: &mut Call<X, L>, rest: &str) -> Result<(), Memory> {
    let (alloc, usual, cid) = (call.alloc, Profile::usual(), cid_of(rest));
    match uf_adopt::adopt::<_, Murmur3, L>(alloc, call.store, &usual, &cid, &USUAL, call.touches) {
        Ok(entry) => say_entry(alloc, &entry, call.told),
        Err(_) => say(call.told, "refused"),
    }
}
