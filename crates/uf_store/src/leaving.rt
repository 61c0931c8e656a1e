//! The list of writes that makes what is left in a store.
ghost use Rattle.std.specs.Prelude.{◌≡◌, ◌++◌, List, IfOk, OnOk};
ghost use Rattle.std.specs.FinMap.{from_entries, get};
ghost use Rattle.uf_cid.specs.Cid.{cid_cmp};
ghost use Rattle.uf_store.specs.declared.store.Write.{Write as TheWrite};
ghost use Rattle.uf_store.specs.Sweeping.{AreSaved, PutsSave, is_synced as are_synced, last_saves as saves_left};
ghost use Rattle.uf_store.specs.Sweeping.{note_of, synced_after, writes_of};

use crate::shelf::Shelf;
use crate::{Note, Write};
use std::alloc::Global;
use std::collections::BTreeSet;
use uf_cid::{Block, BlockHash, Cid, Memory};

/// The writes that make the blocks of a shelf, each where its CID was saved last, and the notes, with one sync where
/// they were durable.
pub(crate) fn writes_again<X: BlockHash>(
    alloc: Global,
    blocks: &Shelf<X>,
    head: &Option<Block>,
    pins: &Option<Block>,
    writes: &[Write],
) -> Result<Vec<Write>, Memory>
    ensures { IfOk result (λ again. again.items ≡
        writes_of (λ cid. get (from_entries {R = cid_cmp} blocks.now.blocks.entries) cid)
        (record { head = head.now; pins = pins.now }) writes.now) }
{
    let mut again = last_saves(alloc, blocks, writes)?;
    put_note(&mut again, Note::Head, head)?;
    put_note(&mut again, Note::Pins, pins)?;
    if is_synced(writes) {
        again.push(Write::Synced)?;
    }
    Ok(again)
}

// The saves of the blocks of a shelf, each where its CID was saved last.
fn last_saves<X: BlockHash>(
    alloc: Global,
    blocks: &Shelf<X>,
    writes: &[Write],
) -> Result<Vec<Write>, Memory>
    ensures { IfOk result (λ saves. saves.items ≡
        saves_left (λ cid. get (from_entries {R = cid_cmp} blocks.now.blocks.entries) cid) writes.now) }
{
    let mut seen = BTreeSet::new(alloc);
    let mut saves = Vec::new(alloc);
    for behind in 0..writes.len() {
        let at = writes.len() - 1 - behind;
        put_save(&mut seen, &mut saves, blocks, &writes[at])?;
    }
    saves.as_mut_slice().reverse();
    Ok(saves)
}

// Puts the save that is left of a write after those of the later ones, whose CIDs were seen.
fn put_save<X: BlockHash>(
    seen: &mut BTreeSet<Cid>,
    saves: &mut Vec<Write>,
    blocks: &Shelf<X>,
    write: &Write,
) -> Result<(), Memory>
    ensures { (ws : List TheWrite) → AreSaved seen.old.keys ws → OnOk result
        (PutsSave (λ cid. get (from_entries {R = cid_cmp} blocks.now.blocks.entries) cid)
        write.now ws saves.old.items saves.new.items seen.new.keys) }
{
    if let Write::Saved(cid, _) = write {
        if seen.insert(*cid)? {
            if let Some(block) = blocks.get(cid) {
                saves.push(Write::Saved(*cid, block.copy()?))?;
            }
        }
    }
    Ok(())
}

// Puts the writing of a note after writes, where it is there.
fn put_note(writes: &mut Vec<Write>, which: Note, note: &Option<Block>) -> Result<(), Memory>
    ensures { OnOk result (writes.new.items ≡ writes.old.items ++ note_of which note.now) }
{
    if let Some(text) = note {
        writes.push(Write::Noted(which, text.copy()?))?;
    }
    Ok(())
}

// Whether a sync stands after the last save.
fn is_synced(writes: &[Write]) -> bool
    ensures { result ≡ are_synced writes.now }
{
    let mut is_synced = false;
    for place in 0..writes.len() {
        is_synced = synced_with(is_synced, &writes[place]);
    }
    is_synced
}

// The same with one write more.
fn synced_with(is_synced: bool, write: &Write) -> bool
    ensures { result ≡ synced_after is_synced write.now }
{
    match write {
        Write::Saved(_, _) => false,
        Write::Synced => true,
        Write::Noted(_, _) => is_synced,
    }
}
