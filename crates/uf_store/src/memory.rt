//! A store in memory. It tells, and it can be made to fail, to lose blocks and to hold wrong ones.
ghost use Rattle.std.specs.Prelude.{◌≡◌, ◌≢◌, ◌≤◌, ◌<◌, ◌+◌, ◌^◌, ◌==◌, ◌↔◌, ◌⊎◌, ℕ, List, ◌∷◌, [], ◌++◌, length};
ghost use Rattle.std.specs.Prelude.{take, Some, None, IsSome, Contains, OnOk, OnErr, IfOk, IsTrue, true};
ghost use Rattle.std.specs.FinMap.{from_entries, insert, len};
ghost use Rattle.uf_store.specs.Whole.{IsWhole};
ghost use Rattle.uf_cid.specs.Cid.{cid_cmp};
ghost use Rattle.uf_store.specs.Contents.{changed, held_at, with_text};
ghost use Rattle.uf_store.specs.Failing.{IsDue, failures_with, ticked, with_failure, no_failures};
ghost use Rattle.uf_store.specs.Sweeping.{Sweeps, is_among, part_of, swept};
ghost use Rattle.uf_store.specs.Seen.{Loads, Looks, NoOther, ReadsNote, Saves, Seen, Syncs, WritesNote};

use crate::failing::Failures;
use crate::leaving::writes_again;
use crate::outliving::{behind_sync, survives};
use crate::shelf::{Shelf, is_whole, keep};
use crate::{CallKind, Load, Note, NoteRead, Presence, Save, Steps, Store, Sweep, Swept, Write};
use std::alloc::Global;
use std::marker::PhantomData;
use std::sync::ledger::Ledger;
use uf_cid::{Block, BlockHash, Cid, Cids, Memory};
use uf_edge::{Calls, Put};

/// Keeps blocks and notes in memory, and the list of what was written.
#[derive(Drop)]
pub struct MemStore<X: BlockHash> {
    alloc: Global,
    hash: PhantomData<X>,
    blocks: Shelf<X>,
    head: Option<Block>,
    pins: Option<Block>,
    writes: Vec<Write>,
    lent: Block,
    finds: u64,
    misses: u64,
    faults: u64,
    clashes: u64,
    failures: Failures,
}

impl<X: BlockHash> MemStore<X> {
    ghost use Rattle.uf_store.specs.InMemory.{HoldsDamaged, contents_of, failures_of, memory_seen, new_seen};
    ghost use Rattle.uf_store.specs.InMemory.{with_block, without_block};
    ghost use Rattle.uf_store.specs.Stops.{IsPlain, after_stop, with_write, written};

    /// A store that holds nothing.
    pub fn new(alloc: Global) -> Self
        ensures seen { memory_seen result ≡ new_seen }
        ensures failures { failures_of result ≡ no_failures }
    {
        MemStore {
            alloc,
            hash: PhantomData,
            blocks: Shelf::new(alloc),
            head: None,
            pins: None,
            writes: Vec::new(alloc),
            lent: Block::new(alloc),
            finds: 0,
            misses: 0,
            faults: 0,
            clashes: 0,
            failures: Failures::new(alloc),
        }
    }

    /// Makes one call fail: the one of this kind with this number, counted from 1 from now on.
    pub fn fail_at(&mut self, what: CallKind, number: u64) -> Result<(), Memory>
        ensures ok { OnOk result (failures_of self.new ≡ with_failure what number (failures_of self.old)) }
        ensures err { OnErr result (failures_of self.new ≡ failures_of self.old) }
        ensures seen { memory_seen self.new ≡ memory_seen self.old }
    {
        self.failures.add(what, number)
    }

    /// Takes the block under a CID away. That is no write.
    pub fn forget(&mut self, cid: &Cid)
        ensures seen { memory_seen self.new
            ≡ record (memory_seen self.old) { told = Some (without_block cid.now (contents_of self.old)) } }
        ensures failures { failures_of self.new ≡ failures_of self.old }
    {
        self.blocks.remove(cid);
    }

    /// Puts a block under a CID, unchecked. That is no write.
    pub fn plant(&mut self, cid: &Cid, bytes: Block) -> Result<(), Memory>
        ensures ok { OnOk result (memory_seen self.new
            ≡ record (memory_seen self.old) { told = Some (with_block cid.now bytes (contents_of self.old)) }) }
        ensures err { OnErr result (memory_seen self.new ≡ memory_seen self.old) }
        ensures failures { failures_of self.new ≡ failures_of self.old }
    {
        let is_good = is_whole::<X>(cid, &bytes);
        self.blocks.insert(*cid, bytes, is_good)
    }

    /// What a stop after the first `at` writes leaves, where the saves at the places in `lost` didn't survive it.
    /// Places are those in the list of writes, counted from 0; a save before the last sync is there whatever
    /// `lost` says. The new store's past writes are the notes and the saves that are left, in their order, and one
    /// sync.
    pub fn after_stop(&self, at: usize, lost: &Calls) -> Result<MemStore<X>, Memory>
        requires { at ≤ length (contents_of self.now).writes }
        ensures seen { IfOk result (λ s. memory_seen s ≡ record new_seen
            { told = Some (written (after_stop lost.now (take at (contents_of self.now).writes))) }) }
        ensures plain { IfOk result (λ s. IsPlain (contents_of s)) }
        ensures failures { IfOk result (λ s. failures_of s ≡ no_failures) }
    {
        let mut store = MemStore::new(self.alloc);
        store.redo_survivors(&self.writes[..at], lost)?;
        Ok(store)
    }

    // Makes again, in a new store, those of these writes that survive a stop after them, and one sync.
    fn redo_survivors(&mut self, writes: &[Write], lost: &Calls) -> Result<(), Memory>
        requires { memory_seen self.old ≡ new_seen }
        ensures ok { OnOk result (memory_seen self.new
            ≡ record new_seen { told = Some (written (after_stop lost.now writes.now)) }) }
        ensures failures { failures_of self.new ≡ failures_of self.old }
    {
        let firm = behind_sync(writes);
        for (place, write) in writes.iter().enumerate() {
            if survives(lost, firm, place, write) {
                self.redo(write)?;
            }
        }
        self.redo(&Write::Synced)
    }

    // Makes a past write again.
    fn redo(&mut self, write: &Write) -> Result<(), Memory>
        ensures ok { OnOk result (memory_seen self.new
            ≡ record (memory_seen self.old) { told = Some (with_write write.now (contents_of self.old)) }) }
        ensures failures { failures_of self.new ≡ failures_of self.old }
    {
        match write {
            Write::Saved(cid, block) => {
                let is_good = is_whole::<X>(cid, block);
                keep(
                    self.alloc,
                    &mut self.blocks,
                    &mut self.writes,
                    cid,
                    block.as_slice(),
                    is_good,
                )
            }
            Write::Synced => {
                self.writes.push(Write::Synced)?;
                Ok(())
            }
            Write::Noted(which, text) => self.note(*which, text.as_slice()),
        }
    }

    // Sets the text of a note, and notes that it was written.
    fn note(&mut self, which: Note, bytes: &[u8]) -> Result<(), Memory>
        ensures ok { OnOk result (memory_seen self.new
            ≡ record (memory_seen self.old) { told = Some (with_text which bytes.now (contents_of self.old)) }) }
        ensures err { OnErr result (memory_seen self.new ≡ memory_seen self.old) }
        ensures failures { failures_of self.new ≡ failures_of self.old }
    {
        let text = Block::from_slice(self.alloc, bytes)?;
        let copy = Block::from_slice(self.alloc, bytes)?;
        self.writes.push(Write::Noted(which, copy))?;
        match which {
            Note::Head => self.head = Some(text),
            Note::Pins => self.pins = Some(text),
        }
        Ok(())
    }

    // Lends the block under a CID, where it is there and whole.
    fn lend(&mut self, cid: &Cid) -> Load
        ensures seen { Loads X.block32 cid.now result (memory_seen self.old) (memory_seen self.new) }
        ensures runs { result ≢ Load.Failed }
        ensures missing { held_at (contents_of self.old) cid.now ≡ None → result ≡ Load.Missing }
        ensures damaged { (result ≡ Load.Damaged) ↔ HoldsDamaged X.block32 cid.now (contents_of self.old) }
        ensures failures { failures_of self.new ≡ failures_of self.old }
    {
        let Some(block) = self.blocks.get(cid) else {
            self.misses = self.misses.saturating_add(1);
            return Load::Missing;
        };
        if self.blocks.is_damaged(cid, block) {
            self.faults = self.faults.saturating_add(1);
            return Load::Damaged;
        }
        match block.copy() {
            Ok(copy) => {
                self.lent = copy;
                self.finds = self.finds.saturating_add(1);
                Load::Found
            }
            Err(_) => Load::Memory,
        }
    }

    // Keeps a block under its CID, or lends the other one of its digest that is held there.
    fn keep_or_lend(&mut self, cid: &Cid, bytes: &[u8]) -> Save
        requires { IsWhole X.block32 cid.now bytes.now }
        ensures seen { Saves X.block32 cid.now bytes.now result (memory_seen self.old) (memory_seen self.new) }
        ensures runs { result ≢ Save.Failed }
        ensures clash { result ≡ Save.Clash → ¬ NoOther X.block32 cid.now bytes.now (contents_of self.old) }
        ensures failures { failures_of self.new ≡ failures_of self.old }
    {
        if let Some(held) = self.blocks.get(cid) {
            if held.as_slice() != bytes && X::block32(held.as_slice()) == cid.digest {
                return match held.copy() {
                    Ok(copy) => {
                        self.lent = copy;
                        self.clashes = self.clashes.saturating_add(1);
                        Save::Clash
                    }
                    Err(_) => Save::Memory,
                };
            }
        }
        match keep(
            self.alloc,
            &mut self.blocks,
            &mut self.writes,
            cid,
            bytes,
            true,
        ) {
            Ok(()) => Save::Done,
            Err(_) => Save::Memory,
        }
    }

    // Lets go of the blocks whose CIDs aren't among these, and makes the list of writes anew: how many went.
    fn leave(&mut self, kept: &Cids) -> Result<u64, Memory>
        ensures ok { OnOk result (memory_seen self.new ≡
            record (memory_seen self.old) { told = Some (swept (is_among kept.now) (contents_of self.old)) }) }
        ensures count { IfOk result (λ n.
            len (part_of (contents_of self.old).held (is_among kept.now)) + n ≡ len (contents_of self.old).held) }
        ensures err { OnErr result (memory_seen self.new ≡ memory_seen self.old) }
        ensures failures { failures_of self.new ≡ failures_of self.old }
    {
        let blocks = self.blocks.only(self.alloc, kept)?;
        let writes = writes_again(self.alloc, &blocks, &self.head, &self.pins, &self.writes)?;
        let dropped = self.blocks.len() - blocks.len();
        self.blocks = blocks;
        self.writes = writes;
        Ok(dropped as u64)
    }

    // Makes the list of writes anew, of all blocks.
    fn relist(&mut self) -> Result<(), Memory>
        ensures ok { OnOk result (memory_seen self.new ≡
            record (memory_seen self.old) { told = Some (swept (λ cid. true) (contents_of self.old)) }) }
        ensures err { OnErr result (memory_seen self.new ≡ memory_seen self.old) }
        ensures failures { failures_of self.new ≡ failures_of self.old }
    {
        let writes = writes_again(
            self.alloc,
            &self.blocks,
            &self.head,
            &self.pins,
            &self.writes,
        )?;
        self.writes = writes;
        Ok(())
    }

    /// How many blocks are held.
    pub fn count(&self) -> usize
        ensures { result ≡ len (contents_of self.now).held }
    {
        self.blocks.len()
    }

    /// How many writes were made.
    pub fn writes(&self) -> usize
        ensures { result ≡ length (contents_of self.now).writes }
    {
        self.writes.len()
    }
}

impl<X: BlockHash> Store for MemStore<X> {
    ghost use Rattle.uf_store.specs.InMemory.{HoldsDamaged, contents_of, failures_of, memory_seen};

    type X = X;

    ghost seen = { λ s. memory_seen s };

    fn load<L: Ledger>(&mut self, cid: &Cid, touches: &mut Steps<L>) -> Load
        ensures seen { Loads X.block32 cid.now result (memory_seen self.old) (memory_seen self.new) }
        ensures touch { touches.new ≡ touches.old + 1 }

        // It fails exactly where it is to fail; else a block that isn't held is missing, and a damaged one is damaged.
        ensures fails { (result ≡ Load.Failed) ↔ IsDue (failures_of self.old).load }
        ensures missing { ¬ IsDue (failures_of self.old).load → held_at (contents_of self.old) cid.now ≡ None
            → result ≡ Load.Missing }
        ensures damaged { ¬ IsDue (failures_of self.old).load → HoldsDamaged X.block32 cid.now (contents_of self.old)
            → result ≡ Load.Damaged }
        ensures only_damaged { result ≡ Load.Damaged → HoldsDamaged X.block32 cid.now (contents_of self.old) }
        ensures counted { failures_of self.new ≡ failures_with CallKind.Load ticked (failures_of self.old) }
    {
        touches.tick();
        if self.failures.load.tick() {
            self.faults = self.faults.saturating_add(1);
            return Load::Failed;
        }
        self.lend(cid)
    }

    fn holds<L: Ledger>(&mut self, cid: &Cid, touches: &mut Steps<L>) -> Presence
        ensures seen { Looks cid.now result (memory_seen self.old) (memory_seen self.new) }
        ensures touch { touches.new ≡ touches.old + 1 }

        // It counts as a load, and fails exactly where one is to fail; else a block that is held is there, and no
        // other.
        ensures fails { (result ≡ Presence.Failed) ↔ IsDue (failures_of self.old).load }
        ensures there { ¬ IsDue (failures_of self.old).load → IsSome (held_at (contents_of self.old) cid.now)
            → result ≡ Presence.There }
        ensures missing { ¬ IsDue (failures_of self.old).load → held_at (contents_of self.old) cid.now ≡ None
            → result ≡ Presence.Missing }
        ensures counted { failures_of self.new ≡ failures_with CallKind.Load ticked (failures_of self.old) }
    {
        touches.tick();
        if self.failures.load.tick() {
            self.faults = self.faults.saturating_add(1);
            return Presence::Failed;
        }
        match self.blocks.get(cid) {
            Some(_) => Presence::There,
            None => {
                self.misses = self.misses.saturating_add(1);
                Presence::Missing
            }
        }
    }

    fn block(&self) -> &[u8] {
        self.lent.as_slice()
    }

    fn save<L: Ledger>(&mut self, cid: &Cid, bytes: &[u8], touches: &mut Steps<L>) -> Save
        requires digest { X.block32 bytes.now ≡ cid.now.digest }
        requires size { length bytes.now ≤ 2097152 }
        ensures seen { Saves X.block32 cid.now bytes.now result (memory_seen self.old) (memory_seen self.new) }
        ensures touch { touches.new ≡ touches.old + 1 }

        // It fails exactly where it is to fail.
        ensures fails { (result ≡ Save.Failed) ↔ IsDue (failures_of self.old).save }
        ensures clash { result ≡ Save.Clash → ¬ NoOther X.block32 cid.now bytes.now (contents_of self.old) }
        ensures counted { failures_of self.new ≡ failures_with CallKind.Save ticked (failures_of self.old) }
    {
        touches.tick();
        if self.failures.save.tick() {
            self.faults = self.faults.saturating_add(1);
            return Save::Failed;
        }
        self.keep_or_lend(cid, bytes)
    }

    fn sync(&mut self) -> Put
        ensures seen { Syncs result (memory_seen self.old) (memory_seen self.new) }
        ensures fails { (result ≡ Put.Failed) ↔ IsDue (failures_of self.old).sync }
        ensures counted { failures_of self.new ≡ failures_with CallKind.Sync ticked (failures_of self.old) }
    {
        if self.failures.sync.tick() {
            self.faults = self.faults.saturating_add(1);
            return Put::Failed;
        }
        match self.writes.push(Write::Synced) {
            Ok(()) => Put::Done,
            Err(_) => Put::Memory,
        }
    }

    fn read_note(&mut self, which: Note) -> NoteRead
        ensures seen { ReadsNote which result (memory_seen self.old) (memory_seen self.new) }
        ensures fails { (result ≡ NoteRead.Failed) ↔ IsDue (failures_of self.old).read_note }
        ensures counted { failures_of self.new ≡ failures_with CallKind.ReadNote ticked (failures_of self.old) }
    {
        if self.failures.read_note.tick() {
            self.faults = self.faults.saturating_add(1);
            return NoteRead::Failed;
        }
        let note = match which {
            Note::Head => &self.head,
            Note::Pins => &self.pins,
        };
        match note {
            Some(text) => match text.copy() {
                Ok(copy) => NoteRead::Text(copy),
                Err(_) => NoteRead::Memory,
            },
            None => NoteRead::Absent,
        }
    }

    fn write_note(&mut self, which: Note, bytes: &[u8]) -> Put
        ensures seen { WritesNote which bytes.now result (memory_seen self.old) (memory_seen self.new) }
        ensures fails { (result ≡ Put.Failed) ↔ IsDue (failures_of self.old).write_note }
        ensures counted { failures_of self.new ≡ failures_with CallKind.WriteNote ticked (failures_of self.old) }
    {
        if self.failures.write_note.tick() {
            self.faults = self.faults.saturating_add(1);
            return Put::Failed;
        }
        match self.note(which, bytes) {
            Ok(()) => Put::Done,
            Err(_) => Put::Memory,
        }
    }
}

impl<X: BlockHash> Sweep for MemStore<X> {
    ghost use Rattle.uf_store.specs.InMemory.{failures_of, memory_seen};

    fn sweep(&mut self, kept: &Cids) -> Swept
        ensures swept { Sweeps kept.now result (memory_seen self.old) (memory_seen self.new) }

        // It fails only where it is to fail, with all blocks there, and then doesn't come to its end.
        ensures fails { result ≡ Swept.Failed → IsDue (failures_of self.old).sweep }
        ensures due { IsDue (failures_of self.old).sweep → (result ≡ Swept.Failed) ⊎ (result ≡ Swept.Memory) }
        ensures counted { failures_of self.new ≡ failures_with CallKind.Sweep ticked (failures_of self.old) }
    {
        self.lent = Block::new(self.alloc);
        if self.failures.sweep.tick() {
            return match self.relist() {
                Ok(()) => {
                    self.faults = self.faults.saturating_add(1);
                    Swept::Failed
                }
                Err(_) => Swept::Memory,
            };
        }
        match self.leave(kept) {
            Ok(count) => Swept::Done(count),
            Err(_) => Swept::Memory,
        }
    }
}
