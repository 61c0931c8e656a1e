//! A store in memory that counts its touches, and notes which blocks it is told of before they are loaded.
ghost use Rattle.std.specs.Prelude.{◌≡◌};
ghost use Rattle.uf_store.specs.InMemory.{memory_seen};

use std::alloc::Global;
use std::sync::ledger::Ledger;
use uf_cid::{Block, BlockHash, Cid, Cids, Memory};
use uf_edge::Put;
use uf_store::{Load, MemStore, Note, NoteRead, Presence, Save, Steps, Store};

/// A store in memory, how often it was touched, and what it was told of.
#[derive(Drop)]
pub struct Watched<X: BlockHash> {
    pub alloc: Global,
    inner: MemStore<X>,
    pub touches: u64,
    pub told: Cids,
}

impl<X: BlockHash> Watched<X> {
    /// A store that holds nothing.
    pub fn new(alloc: Global) -> Self {
        Watched::<X> {
            alloc,
            inner: MemStore::new(alloc),
            touches: 0,
            told: Cids::new(alloc),
        }
    }
}

// One touch more.
fn tick(count: &mut u64) {
    *count = count.saturating_add(1);
}

// Puts CIDs after others.
fn note(told: &mut Cids, cids: &[Cid]) {
    for cid in cids {
        let _ = told.push(*cid);
    }
}

impl<X: BlockHash> Store for Watched<X> {
    type X = X;

    ghost seen = { λ s. memory_seen s.inner };

    fn load<L: Ledger>(&mut self, cid: &Cid, touches: &mut Steps<L>) -> Load {
        tick(&mut self.touches);
        self.inner.load(cid, touches)
    }

    fn holds<L: Ledger>(&mut self, cid: &Cid, touches: &mut Steps<L>) -> Presence {
        tick(&mut self.touches);
        self.inner.holds(cid, touches)
    }

    fn block(&self) -> &[u8] {
        self.inner.block()
    }

    fn save<L: Ledger>(&mut self, cid: &Cid, bytes: &[u8], touches: &mut Steps<L>) -> Save {
        tick(&mut self.touches);
        self.inner.save(cid, bytes, touches)
    }

    fn sync(&mut self) -> Put {
        self.inner.sync()
    }

    fn read_note(&mut self, which: Note) -> NoteRead {
        self.inner.read_note(which)
    }

    fn write_note(&mut self, which: Note, bytes: &[u8]) -> Put {
        self.inner.write_note(which, bytes)
    }

    fn foresee(&mut self, cids: &[Cid]) {
        note(&mut self.told, cids);
    }
}
