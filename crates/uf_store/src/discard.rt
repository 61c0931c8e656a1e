//! A store that keeps nothing.
ghost use Rattle.std.specs.Prelude.{◌≡◌, ◌≤◌, ◌+◌, [], None, length};
ghost use Rattle.uf_store.specs.Seen.{Loads, Looks, ReadsNote, Saves, Syncs, WritesNote};
ghost use Rattle.uf_store.specs.Sweeping.{Sweeps};

use crate::{Load, Note, NoteRead, Presence, Save, Steps, Store, Sweep, Swept};
use std::marker::PhantomData;
use std::sync::ledger::Ledger;
use uf_cid::{BlockHash, Cid, Cids};
use uf_edge::Put;

/// Takes every block and keeps none. It has no note, and it tells nothing.
#[derive(Drop)]
pub struct Discard<X: BlockHash> {
    hash: PhantomData<X>,
    misses: u64,
}

impl<X: BlockHash> Discard<X> {
    ghost use Rattle.uf_store.specs.Discarded.{discard_seen, nothing_seen};

    /// A store to which nothing has happened.
    pub fn new() -> Self
        ensures { discard_seen result ≡ nothing_seen }
    {
        Discard {
            hash: PhantomData,
            misses: 0,
        }
    }
}

impl<X: BlockHash> Store for Discard<X> {
    ghost use Rattle.uf_store.specs.Discarded.{discard_seen};

    type X = X;

    ghost seen = { λ s. discard_seen s };

    fn load<L: Ledger>(&mut self, cid: &Cid, touches: &mut Steps<L>) -> Load
        ensures missing { result ≡ Load.Missing }
        ensures seen { Loads X.block32 cid.now result (discard_seen self.old) (discard_seen self.new) }
        ensures touch { touches.new ≡ touches.old + 1 }
    {
        let _ = cid;
        touches.tick();
        self.misses = self.misses.saturating_add(1);
        Load::Missing
    }

    fn holds<L: Ledger>(&mut self, cid: &Cid, touches: &mut Steps<L>) -> Presence
        ensures missing { result ≡ Presence.Missing }
        ensures seen { Looks cid.now result (discard_seen self.old) (discard_seen self.new) }
        ensures touch { touches.new ≡ touches.old + 1 }
    {
        let _ = cid;
        touches.tick();
        self.misses = self.misses.saturating_add(1);
        Presence::Missing
    }

    fn block(&self) -> &[u8] {
        &[]
    }

    fn save<L: Ledger>(&mut self, cid: &Cid, bytes: &[u8], touches: &mut Steps<L>) -> Save
        requires digest { X.block32 bytes.now ≡ cid.now.digest }
        requires size { length bytes.now ≤ 2097152 }
        ensures done { result ≡ Save.Done }
        ensures seen { Saves X.block32 cid.now bytes.now result (discard_seen self.old) (discard_seen self.new) }
        ensures touch { touches.new ≡ touches.old + 1 }
    {
        let _ = cid;
        let _ = bytes;
        touches.tick();
        Save::Done
    }

    fn sync(&mut self) -> Put
        ensures done { result ≡ Put.Done }
        ensures seen { Syncs result (discard_seen self.old) (discard_seen self.new) }
    {
        Put::Done
    }

    fn read_note(&mut self, which: Note) -> NoteRead
        ensures absent { result ≡ NoteRead.Absent }
        ensures seen { ReadsNote which result (discard_seen self.old) (discard_seen self.new) }
    {
        let _ = which;
        NoteRead::Absent
    }

    fn write_note(&mut self, which: Note, bytes: &[u8]) -> Put
        ensures done { result ≡ Put.Done }
        ensures seen { WritesNote which bytes.now result (discard_seen self.old) (discard_seen self.new) }
    {
        let _ = which;
        let _ = bytes;
        Put::Done
    }
}

impl<X: BlockHash> Sweep for Discard<X> {
    ghost use Rattle.uf_store.specs.Discarded.{discard_seen};

    fn sweep(&mut self, kept: &Cids) -> Swept
        ensures done { result ≡ Swept.Done 0 }
        ensures swept { Sweeps kept.now result (discard_seen self.old) (discard_seen self.new) }
    {
        let _ = kept;
        Swept::Done(0)
    }
}
