//! A store of blocks and notes in files.
ghost use Rattle.std.specs.Prelude.{◌≡◌, ◌≤◌, ◌+◌, length, IfOk, OnErr};
ghost use Rattle.uf_store.specs.Contents.{Contents};
ghost use Rattle.uf_store.specs.Seen.{Loads, Looks, ReadsNote, Saves, Syncs, Writes, WritesNote};

use crate::files::Trouble;
use crate::folder::{Folder, Held};
use crate::lending::Lending;
use std::alloc::Global;
use std::fs::Files;
use std::marker::PhantomData;
use std::random::RandomSource;
use std::sync::ledger::Ledger;
use uf_cid::{Block, BlockHash, Cid, Cids};
use uf_edge::Put;
use uf_store::{Load, Note, NoteRead, Presence, Save, Steps, Store, Sweep, Swept};

/// Keeps blocks and notes in the folder `.unixfs` of the working folder, which it makes at the first write. It tells
/// nothing of what is there.
///
/// A block is the file `blocks/CID`, where it came of late, or `blocks/XY/CID`, where XY are the last two characters
/// of the CID's text; a note is the file `head` or `pins`. A file gets its name when it is whole and durable, so none
/// is ever seen half written. Two processes at once are not supported: the later one may make the earlier one fail,
/// but no file is torn.
#[derive(Drop)]
pub struct DiskStore<X: BlockHash, R> {
    hash: PhantomData<X>,
    folder: Folder<R>,
    alloc: Global,
    lending: Lending<X>,
    read: Vec<u8>,
    finds: u64,
    misses: u64,
    faults: u64,
    clashes: u64,
}

impl<X: BlockHash, R> DiskStore<X, R> {
    ghost use Rattle.uf_disk.specs.Disk.{disk_seen};
    ghost use Rattle.uf_store.specs.Discarded.{nothing_seen};

    /// The store in the working folder. Nothing is read or made yet.
    pub fn new(alloc: Global, runtime: R) -> Self
        ensures { disk_seen result ≡ nothing_seen }
    {
        DiskStore {
            hash: PhantomData,
            folder: Folder::new(alloc, runtime),
            alloc,
            lending: Lending::new(alloc),
            read: Vec::new(alloc),
            finds: 0,
            misses: 0,
            faults: 0,
            clashes: 0,
        }
    }
}

impl<X: BlockHash, R> DiskStore<X, R> {
    ghost use Rattle.uf_disk.specs.Disk.{disk_seen};

    // The answer of a change, which is counted where it failed.
    fn answer(&mut self, done: Result<(), Trouble>) -> Put
        ensures { (f : Contents → Contents) → Writes f result (disk_seen self.old) (disk_seen self.new) }
    {
        match done {
            Ok(()) => Put::Done,
            Err(Trouble::Failed) => {
                self.faults = self.faults.saturating_add(1);
                Put::Failed
            }
            Err(Trouble::Memory) => Put::Memory,
        }
    }
}

impl<X: BlockHash, R: Files + RandomSource> DiskStore<X, R> {
    ghost use Rattle.uf_disk.specs.Disk.{disk_seen};

    // Keeps a block, or lends another one of its digest that is there.
    fn keep(&mut self, cid: &Cid, bytes: &[u8]) -> Result<Save, Trouble>
        ensures ok { IfOk result (λ answer.
            Saves X.block32 cid.now bytes.now answer (disk_seen self.old) (disk_seen self.new)) }
        ensures err { OnErr result (disk_seen self.new ≡ disk_seen self.old) }
    {
        let kept = match self.folder.read_block(cid, &mut self.read)? {
            Held::Nothing => self.folder.put_block(cid, bytes),
            Held::Bytes if self.read.as_slice() == bytes => self.folder.keep_block(cid),
            Held::Bytes if X::block32(&self.read) == cid.digest => {
                self.lending.lend(&mut self.read);
                self.clashes = self.clashes.saturating_add(1);
                return Ok(Save::Clash);
            }
            _ => self.folder.replace_block(cid, bytes),
        };
        kept?;
        Ok(Save::Done)
    }

    // The text of a note, if it is there.
    fn text_of(&mut self, which: Note) -> Result<Option<Block>, Trouble>
        ensures { disk_seen self.new ≡ disk_seen self.old }
    {
        if !self.folder.read_note(which, &mut self.read)? {
            return Ok(None);
        }
        let mut text = Block::new(self.alloc);
        text.extend(&self.read)?;
        Ok(Some(text))
    }
}

impl<X: BlockHash, R: Files + RandomSource> Store for DiskStore<X, R> {
    ghost use Rattle.uf_disk.specs.Disk.{disk_seen};

    type X = X;

    ghost seen = { λ s. disk_seen s };

    fn load<L: Ledger>(&mut self, cid: &Cid, touches: &mut Steps<L>) -> Load {
        touches.tick();
        if self.lending.lend_ahead(cid) {
            self.finds = self.finds.saturating_add(1);
            return Load::Found;
        }
        match self.folder.read_block(cid, &mut self.read) {
            Ok(Held::Nothing) => {
                self.misses = self.misses.saturating_add(1);
                Load::Missing
            }
            Ok(Held::Bytes) if X::block32(&self.read) == cid.digest => {
                self.lending.lend(&mut self.read);
                self.finds = self.finds.saturating_add(1);
                Load::Found
            }
            Ok(_) => {
                self.faults = self.faults.saturating_add(1);
                Load::Damaged
            }
            Err(Trouble::Failed) => {
                self.faults = self.faults.saturating_add(1);
                Load::Failed
            }
            Err(Trouble::Memory) => Load::Memory,
        }
    }

    fn holds<L: Ledger>(&mut self, cid: &Cid, touches: &mut Steps<L>) -> Presence {
        touches.tick();
        match self.folder.has_block(cid) {
            Ok(true) => Presence::There,
            Ok(false) => {
                self.misses = self.misses.saturating_add(1);
                Presence::Missing
            }
            Err(Trouble::Failed) => {
                self.faults = self.faults.saturating_add(1);
                Presence::Failed
            }
            Err(Trouble::Memory) => Presence::Memory,
        }
    }

    fn block(&self) -> &[u8] {
        self.lending.block()
    }

    fn save<L: Ledger>(&mut self, cid: &Cid, bytes: &[u8], touches: &mut Steps<L>) -> Save {
        touches.tick();
        match self.keep(cid, bytes) {
            Ok(answer) => answer,
            Err(Trouble::Failed) => {
                self.faults = self.faults.saturating_add(1);
                Save::Failed
            }
            Err(Trouble::Memory) => Save::Memory,
        }
    }

    fn sync(&mut self) -> Put {
        let synced = self.folder.sync();
        self.answer(synced)
    }

    fn read_note(&mut self, which: Note) -> NoteRead {
        match self.text_of(which) {
            Ok(Some(text)) => NoteRead::Text(text),
            Ok(None) => NoteRead::Absent,
            Err(Trouble::Failed) => {
                self.faults = self.faults.saturating_add(1);
                NoteRead::Failed
            }
            Err(Trouble::Memory) => NoteRead::Memory,
        }
    }

    fn write_note(&mut self, which: Note, bytes: &[u8]) -> Put {
        let put = self.folder.put_note(which, bytes);
        self.answer(put)
    }

    fn foresee(&mut self, cids: &[Cid]) {
        self.lending.foresee(&self.folder, cids);
    }
}

impl<X: BlockHash, R: Files + RandomSource> Sweep for DiskStore<X, R> {
    fn sweep(&mut self, kept: &Cids) -> Swept {
        self.lending.forget();
        match self.folder.sweep(kept) {
            Ok(count) => Swept::Done(count),
            Err(Trouble::Failed) => {
                self.faults = self.faults.saturating_add(1);
                Swept::Failed
            }
            Err(Trouble::Memory) => Swept::Memory,
        }
    }
}
