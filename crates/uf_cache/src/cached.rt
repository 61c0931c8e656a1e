//! A store over another one, with entries in memory.
ghost use Rattle.std.specs.Prelude.{◌≡◌, ◌≢◌, ◌≤◌, ◌<◌, ◌+◌, [], None, Some, IfOk, IfSome, length};
ghost use Rattle.std.proofs.Props.{props};
ghost use Rattle.lru.specs.LruCache.{lru_cache};
ghost use Rattle.uf_cache.specs.Entries.{AreKept, HasRoom, IsKept, lent_by};
ghost use Rattle.uf_store.specs.Seen.{Loads, Looks, ReadsNote, Saves, Syncs, WritesNote};
ghost use Rattle.uf_store.specs.Sweeping.{Sweeps};

use crate::keep::{MOST_OF_ALL, keep, let_go};
use lru::LruCache;
use std::alloc::Global;
use std::num::NonZeroUsize;
use std::sync::ledger::Ledger;
use uf_cid::{Block, Cid, Cids, Codec, Memory};
use uf_edge::Put;
use uf_store::{Load, Note, NoteRead, Presence, Save, Steps, Store, Sweep, Swept};

/// How many CIDs of blocks that will probably be loaded next are handed on at most.
const MOST_AHEAD: usize = 8;

/// A store that keeps the blocks which it found last in memory, and hands all else to another store. Where they would
/// have more than 64 MiB together, all go, and it begins anew.
///
/// An entry is whole, and the other store holds it under its CID, where that one tells. A block that is found is lent
/// by the store that found it: after a hit that is the first entry. While it is lent, it is found again without that
/// store, whether it was kept or not.
#[derive(Drop)]
pub struct Cached<S: Store> {
    alloc: Global,
    inner: S,
    entries: LruCache<[u8; 36], Block>,
    // How many bytes may be kept before all entries go.
    room: usize,
    lends_first: bool,
    // The CID of the block that is lent, where it was found and nothing else was asked for since.
    lent: Option<Cid>,
    finds: u64,
    ghost small: { HasRoom room entries },
    ghost kept: { AreKept S.X.block32 (S.seen inner).told entries } by { Prim.hlevel props },
    ghost rests: { IfSome lent (λ cid. IsKept S.X.block32 (S.seen inner).told cid
        (lent_by lends_first entries (S.seen inner).lent)) } by { Prim.hlevel props },
}

impl<S: Store + Drop> Cached<S> {
    ghost use Rattle.uf_cache.specs.Cached.{cached_seen, entries_of, with_finds};

    /// A cache of at most n entries, of 64 MiB together, over a store. It has none yet.
    pub fn new(alloc: Global, inner: S, entries: usize) -> Result<Self, Memory>
        requires some { 0 < entries }
        ensures seen { IfOk result (λ cached. cached_seen cached ≡ with_finds 0 (S.seen inner)) }
        ensures entries { IfOk result (λ cached. entries_of cached ≡ lru_cache [] entries) }
    {
        let most = NonZeroUsize::new(entries).unwrap();
        Ok(Cached {
            alloc,
            inner,
            entries: LruCache::sparse(alloc, most)?,
            room: MOST_OF_ALL,
            lends_first: false,
            lent: None,
            finds: 0,
        })
    }
}

impl<S: Store> Cached<S> {
    ghost use Rattle.uf_cache.specs.Cached.{entries_of, inner_seen};
    ghost use Rattle.uf_cache.specs.Entries.{bytes_of};

    /// How many blocks are in memory: no more than there may be, and each of them whole and held by the other store.
    pub fn count(&self) -> usize
        ensures count { result ≡ length (entries_of self.now).entries }
        ensures most { result ≤ (entries_of self.now).cap }
        ensures bytes { bytes_of (entries_of self.now) ≤ 67108864 }
        ensures kept { AreKept S.X.block32 (inner_seen self.now).told (entries_of self.now) }
    {
        self.entries.len()
    }
}

impl<S: Store> Store for Cached<S> {
    ghost use Rattle.uf_cache.specs.Cached.{AsksBelow, Hits, PassesOn, Rests, cached_seen, entry_of, lent_cid};

    type X = S::X;

    ghost seen = { λ c. cached_seen c };

    fn load<L: Ledger>(&mut self, cid: &Cid, touches: &mut Steps<L>) -> Load
        ensures seen { Loads S.X.block32 cid.now result (cached_seen self.old) (cached_seen self.new) }
        ensures touch { touches.new ≡ touches.old + 1 }

        // A block among the entries is lent from there, the one that is lent is lent on, and nothing is asked of the
        // other store. All else it answers.
        ensures hit { IfSome (entry_of self.old cid.now) (λ bytes. Hits cid.now bytes result self.old self.new) }
        ensures again { entry_of self.old cid.now ≡ None → lent_cid self.old ≡ Some cid.now →
            Rests result self.old self.new }
        ensures miss { entry_of self.old cid.now ≡ None → lent_cid self.old ≢ Some cid.now →
            AsksBelow S.X.block32 cid.now result self.old self.new }

        // A block that is found is the one that is lent.
        ensures lends { result ≡ Load.Found → lent_cid self.new ≡ Some cid.now }
    {
        if self.entries.promote(&cid.to_binary()) {
            touches.tick();
            self.lends_first = true;
            self.lent = Some(*cid);
            self.finds = self.finds.saturating_add(1);
            return Load::Found;
        }
        if self.lent == Some(*cid) {
            touches.tick();
            self.finds = self.finds.saturating_add(1);
            return Load::Found;
        }
        self.lent = None;
        let answer = self.inner.load(cid, touches);
        if answer == Load::Found {
            self.lends_first = false;
            self.lent = Some(*cid);
            self.finds = self.finds.saturating_add(1);
            keep(
                self.alloc,
                &mut self.entries,
                &mut self.room,
                cid,
                self.inner.block(),
            );
        }
        answer
    }

    fn holds<L: Ledger>(&mut self, cid: &Cid, touches: &mut Steps<L>) -> Presence
        ensures seen { Looks cid.now result (cached_seen self.old) (cached_seen self.new) }
        ensures touch { touches.new ≡ touches.old + 1 }
        ensures below { PassesOn (Looks cid.now result) self.old self.new }
    {
        self.inner.holds(cid, touches)
    }

    fn block(&self) -> &[u8] {
        match self.entries.peek_mru() {
            Some((_, block)) if self.lends_first => block.as_slice(),
            _ => self.inner.block(),
        }
    }

    fn save<L: Ledger>(&mut self, cid: &Cid, bytes: &[u8], touches: &mut Steps<L>) -> Save
        requires digest { S.X.block32 bytes.now ≡ cid.now.digest }
        requires size { length bytes.now ≤ 2097152 }
        ensures seen { Saves S.X.block32 cid.now bytes.now result (cached_seen self.old) (cached_seen self.new) }
        ensures touch { touches.new ≡ touches.old + 1 }
        ensures below { PassesOn (Saves S.X.block32 cid.now bytes.now result) self.old self.new }
    {
        self.lent = None;
        let answer = self.inner.save(cid, bytes, touches);
        if answer == Save::Clash {
            self.lends_first = false;
        }
        answer
    }

    fn sync(&mut self) -> Put
        ensures seen { Syncs result (cached_seen self.old) (cached_seen self.new) }
        ensures below { PassesOn (Syncs result) self.old self.new }
    {
        self.lent = None;
        self.inner.sync()
    }

    fn read_note(&mut self, which: Note) -> NoteRead
        ensures seen { ReadsNote which result (cached_seen self.old) (cached_seen self.new) }
        ensures below { PassesOn (ReadsNote which result) self.old self.new }
    {
        self.lent = None;
        self.inner.read_note(which)
    }

    fn write_note(&mut self, which: Note, bytes: &[u8]) -> Put
        ensures seen { WritesNote which bytes.now result (cached_seen self.old) (cached_seen self.new) }
        ensures below { PassesOn (WritesNote which bytes.now result) self.old self.new }
    {
        self.lent = None;
        self.inner.write_note(which, bytes)
    }

    fn foresee(&mut self, cids: &[Cid])
        ensures seen { cached_seen self.new ≡ cached_seen self.old }
        ensures below { PassesOn (λ before now. now ≡ before) self.old self.new }
    {
        let mut next = [Cid {
            codec: Codec::Raw,
            digest: [0u8; 32],
        }; MOST_AHEAD];
        let mut count = 0;
        for cid in cids {
            if count < MOST_AHEAD && !self.entries.contains(&cid.to_binary()) {
                next[count] = *cid;
                count += 1;
            }
        }
        self.inner.foresee(&next[..count]);
    }
}

impl<S: Sweep> Sweep for Cached<S> {
    ghost use Rattle.uf_cache.specs.Cached.{cached_seen, entries_of, inner_seen};

    fn sweep(&mut self, kept: &Cids) -> Swept
        ensures swept { Sweeps kept.now result (cached_seen self.old) (cached_seen self.new) }

        // The other store is swept, and whatever it answers, no block is among the entries.
        ensures below { Sweeps kept.now result (inner_seen self.old) (inner_seen self.new) }
        ensures entries { (entries_of self.new).entries ≡ [] }
    {
        let_go(&mut self.entries, &mut self.room);
        self.lends_first = false;
        self.lent = None;
        self.inner.sweep(kept)
    }
}
