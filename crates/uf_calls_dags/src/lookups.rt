//! Calls that ask directories for names: for one, or for each of many with all blocks and without each of those that
//! decide it; and that take a name out.

use crate::dirs::{name_of, numbered_name};
use crate::files::say_entry;
use std::alloc::Global;
use std::mem;
use std::sync::ledger::Ledger;
use uf_cid::{Block, BlockHash, Cid, Memory};
use uf_dir::{find, trace, trail};
use uf_murmur::{FirstEight, Murmur3, NameHash};
use uf_playing::{Call, Said, cid_of, say_cids, say_fault};
use uf_store::{Load, MemStore, Store};
use uf_testing::{number_and_rest, say, tell_bytes, word_and_rest};
use uf_tree::{Entry, Name, Profile};

// Says the entry of a name, or that there is none.
fn say_found(alloc: Global, found: &Option<Entry>, told: &mut Block) -> Result<(), Memory> {
    match found {
        Some(entry) => say_entry(alloc, entry, told),
        None => say(told, "absent"),
    }
}

// Asks a directory of any form for a name: by a search, for the blocks that decide it, or for both in one walk.
fn ask<X: BlockHash, N: NameHash, L: Ledger>(
    call: &mut Call<X, L>,
    how: &str,
    root: &Cid,
    name: &Name,
) -> Said {
    let (alloc, store, touches) = (call.alloc, &mut *call.store, &mut *call.touches);
    match how {
        "trace" => {
            let traced = trace::<MemStore<X>, N, L>(alloc, store, root, name, touches)?;
            say_found(alloc, &traced.entry, call.told)?;
            say_cids(call.told, &traced.trail)?;
        }
        "trail" => {
            let cids = trail::<MemStore<X>, N, L>(alloc, store, root, name, touches)?;
            say_cids(call.told, &cids)?;
        }
        _ => {
            let found = find::<MemStore<X>, N, L>(alloc, store, root, name, touches)?;
            say_found(alloc, &found, call.told)?;
        }
    }
    Ok(())
}

/// Asks a directory in shards for a name that is placed by its letters: `find NAME CID`, `trail NAME CID`.
pub fn ask_shards<X: BlockHash, L: Ledger>(call: &mut Call<X, L>, word: &str, rest: &str) -> Said {
    let (text, rest) = word_and_rest(rest);
    let (alloc, root) = (call.alloc, cid_of(rest));
    let name = name_of(alloc, text)?;
    let (store, touches) = (&mut *call.store, &mut *call.touches);
    if word == "trail" {
        let cids = uf_shard::trail::<_, FirstEight, L>(alloc, store, &root, &name, touches)?;
        return Ok(say_cids(call.told, &cids)?);
    }
    let found = uf_shard::find::<_, FirstEight, L>(alloc, store, &root, &name, touches)?;
    Ok(say_found(alloc, &found, call.told)?)
}

/// Asks a directory of any form for a name that is placed by its letters: `find-in NAME CID`, `trail-in NAME CID`.
pub fn ask_any<X: BlockHash, L: Ledger>(call: &mut Call<X, L>, how: &str, rest: &str) -> Said {
    let (text, rest) = word_and_rest(rest);
    let name = name_of(call.alloc, text)?;
    ask::<X, FirstEight, L>(call, how, &cid_of(rest), &name)
}

// Asks for a name that is placed as UnixFS has it, and says what comes of it.
fn ask_usual<X: BlockHash, L: Ledger>(
    call: &mut Call<X, L>,
    how: &str,
    root: &Cid,
    name: &Name,
) -> Result<(), Memory> {
    match ask::<X, Murmur3, L>(call, how, root, name) {
        Ok(()) => Ok(()),
        Err(fault) => say_fault(call.alloc, &fault, call.told),
    }
}

// Asks while a block is lost, which is there again after that.
fn ask_without<X: BlockHash, L: Ledger>(
    call: &mut Call<X, L>,
    lost: &Cid,
    how: &str,
    root: &Cid,
    name: &Name,
) -> Result<(), Memory> {
    if call.store.load(lost, call.touches) != Load::Found {
        return say(call.told, "not held");
    }
    let block = Block::from_slice(call.alloc, call.store.block())?;
    call.store.forget(lost);
    ask_usual(call, how, root, name)?;
    call.store.plant(lost, block)
}

// Asks without each block that decides the name.
fn ask_lossy<X: BlockHash, L: Ledger>(
    call: &mut Call<X, L>,
    how: &str,
    root: &Cid,
    name: &Name,
) -> Result<(), Memory> {
    match trail::<_, Murmur3, L>(call.alloc, call.store, root, name, call.touches) {
        Ok(cids) => {
            for lost in cids.as_slice() {
                ask_without(call, lost, how, root, name)?;
            }
            Ok(())
        }
        Err(fault) => say_fault(call.alloc, &fault, call.told),
    }
}

/// Asks for the first numbered names, as they are, or without each block that decides one: `ask-files HOW COUNT CID`,
/// `ask-lossy HOW COUNT CID`.
pub fn ask_files<X: BlockHash, L: Ledger>(
    call: &mut Call<X, L>,
    word: &str,
    rest: &str,
) -> Result<(), Memory> {
    let (how, rest) = word_and_rest(rest);
    let (count, text) = number_and_rest(rest);
    let (alloc, root) = (call.alloc, cid_of(text));
    let before = mem::replace(call.told, Block::new(alloc));
    for number in 0..count {
        let name = numbered_name(alloc, number)?;
        match word {
            "ask-files" => ask_usual(call, how, &root, &name)?,
            _ => ask_lossy(call, how, &root, &name)?,
        }
    }
    let lines = mem::replace(call.told, before);
    tell_bytes(call.told, alloc, b"> ", lines.as_slice())
}

/// Takes a name out of a directory: `remove NAME CID`.
pub fn remove<X: BlockHash, L: Ledger>(call: &mut Call<X, L>, rest: &str) -> Said {
    let (text, rest) = word_and_rest(rest);
    let (alloc, usual, root) = (call.alloc, Profile::usual(), cid_of(rest));
    let name = name_of(alloc, text)?;
    let (store, touches) = (&mut *call.store, &mut *call.touches);
    match uf_dir::remove::<_, Murmur3, L>(alloc, store, &usual, &root, &name, touches)? {
        Some(entry) => say_entry(alloc, &entry, call.told)?,
        None => say(call.told, "no such name")?,
    }
    Ok(())
}
