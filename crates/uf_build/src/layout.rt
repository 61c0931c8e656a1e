//! Pieces of a file, and the open groups over them.
ghost use Rattle.std.specs.Prelude.{◌≡◌, ◌+◌, ◌<◌, ◌≤◌, ◌*◌, ◌^◌, ◌++◌, ◌∷◌, ◌⊎◌, ℕ, [], length, IfOk, OnOk, OnErr};
ghost use Rattle.std.specs.Prelude.{IsTrue};
ghost use Rattle.uf_cid.specs.Cid.{cid_of};
ghost use Rattle.uf_cid.specs.declared.cid.Codec.TheVariants.{Raw};
ghost use Rattle.uf_store.specs.Faults.{fault_in};
ghost use Rattle.uf_store.specs.Among.{SavesAmong};
ghost use Rattle.uf_tree.specs.FilePlan.{leaf_held, leaf_part};
ghost use Rattle.uf_tree.specs.Metas.{is_meta};
ghost use Rattle.uf_tree.specs.Profiles.{is_profile};
ghost use Rattle.uf_tree.specs.declared.meta.Meta.{Meta};
ghost use Rattle.uf_build.specs.Answers.{OnlyBuilds};
ghost use Rattle.uf_build.specs.Building.{Adds};
ghost use Rattle.uf_build.specs.Rows.{AreOpen, add_held, add_row, groups_in, saved_all, sizes_of};

use crate::open::Open;
use crate::rows;
use std::alloc::Global;
use std::sync::ledger::Ledger;
use uf_cid::{Cid, Codec, Memory, digests_of};
use uf_store::{Steps, Store, StoreFault, save_under};
use uf_tree::{Entry, Meta, Part, Profile};

// How many pieces are hashed side by side.
const GROUP: usize = 8;

// The piece that was begun, and the open groups of the rows over the pieces before it.
#[derive(Drop)]
pub struct Layout {
    pub alloc: Global,
    pub profile: Profile,
    pub begun: Vec<u8>,
    pub opened: Open,
}

impl Layout {
    ghost use Rattle.uf_build.specs.Layouts.{CanEnd, CanTake, ClosesFile, EndsAmong, EndsLast, EndsPiece, EndsUpTo};
    ghost use Rattle.uf_build.specs.Layouts.{StaysWithin, StopsTaking, Takes, TakesFront, TakesPieces};

    // Takes bytes after those that it took before.
    pub fn take<S: Store, L: Ledger>(
        &mut self,
        store: &mut S,
        bytes: &[u8],
        touches: &mut Steps<L>,
    ) -> Result<(), StoreFault>
        requires can { CanTake (length bytes.now) self.old }
        ensures took { OnOk result (Takes S.X.block32 bytes.now self.old self.new
            (S.seen store.old).told (S.seen store.new).told touches.old touches.new) }
        ensures stops { OnErr result (StopsTaking S.X.block32 bytes.now self.old self.new
            (S.seen store.old).told (S.seen store.new).told touches.old touches.new) }
        ensures builds { OnlyBuilds S.X.block32 (fault_in result) (S.seen store.old) (S.seen store.new) }
    {
        let chunk = self.profile.chunk as usize;
        let front = self.fill(store, bytes, touches)?;
        let rest = &bytes[front..];
        let count = rest.len() / chunk;
        let (whole, behind) = rest.split_at(count * chunk);
        self.save_pieces(store, count, whole, touches)?;
        append(&mut self.begun, behind)?;
        Ok(())
    }

    // Fills the piece that was begun, where one was, from the prefix of some bytes, and answers how many it took.
    // Either that was all, or no piece is begun then.
    fn fill<S: Store, L: Ledger>(
        &mut self,
        store: &mut S,
        bytes: &[u8],
        touches: &mut Steps<L>,
    ) -> Result<usize, StoreFault>
        requires can { CanTake (length bytes.now) self.old }
        ensures took { IfOk result (λ front. TakesFront S.X.block32 bytes.now front self.old self.new
            (S.seen store.old).told (S.seen store.new).told touches.old touches.new) }
        ensures stops { OnErr result (StopsTaking S.X.block32 bytes.now self.old self.new
            (S.seen store.old).told (S.seen store.new).told touches.old touches.new) }
        ensures builds { OnlyBuilds S.X.block32 (fault_in result) (S.seen store.old) (S.seen store.new) }
    {
        if self.begun.is_empty() {
            return Ok(0);
        }
        let chunk = self.profile.chunk as usize;
        let front = bytes.len().min(chunk - self.begun.len());
        append(&mut self.begun, &bytes[..front])?;
        if self.begun.len() < chunk {
            return Ok(front);
        }
        self.end_piece(store, touches)?;
        Ok(front)
    }

    // Saves the last piece, which an empty file has too, and closes the rows. Answers the file's entry.
    pub fn close<S: Store, L: Ledger>(
        mut self,
        meta: &Meta,
        store: &mut S,
        touches: &mut Steps<L>,
    ) -> Result<Entry, StoreFault>
        requires can { CanTake 0 self }
        requires good { IsTrue (is_meta meta.now) }
        ensures closed { IfOk result (λ e. ClosesFile S.X.block32 meta.now self e
            (S.seen store.old).told (S.seen store.new).told touches.old touches.new) }
        ensures most { EndsUpTo S.X.block32 meta.now self touches.old touches.new }
        ensures builds { OnlyBuilds S.X.block32 (fault_in result) (S.seen store.old) (S.seen store.new) }
        ensures no_other { EndsAmong S.X.block32 meta.now self (S.seen store.old).told (S.seen store.new).told }
    {
        self.end_last(store, touches)?;
        match self.opened.last {
            Some(last) => {
                let part = rows::close_all(
                    self.alloc,
                    &mut self.opened.rows,
                    last,
                    meta,
                    store,
                    touches,
                )?;
                Ok(part.entry)
            }
            None => unreachable!(),
        }
    }

    // Saves the last piece where it was begun, or where there is no other.
    fn end_last<S: Store, L: Ledger>(
        &mut self,
        store: &mut S,
        touches: &mut Steps<L>,
    ) -> Result<(), StoreFault>
        requires can { CanTake 0 self.old }
        ensures ends { OnOk result (EndsLast S.X.block32 self.old self.new
            (S.seen store.old).told (S.seen store.new).told touches.old touches.new) }
        ensures most { OnErr result ((m : Meta) → EndsUpTo S.X.block32 m self.old touches.old touches.new) }
        ensures builds { OnlyBuilds S.X.block32 (fault_in result) (S.seen store.old) (S.seen store.new) }
        ensures no_other { (m : Meta)
            → EndsAmong S.X.block32 m self.old (S.seen store.old).told (S.seen store.new).told }
    {
        if self.opened.last.is_none() {
            return self.end_piece(store, touches);
        }
        if self.begun.is_empty() {
            return Ok(());
        }
        self.end_piece(store, touches)
    }

    // Saves the piece that was begun.
    fn end_piece<S: Store, L: Ledger>(
        &mut self,
        store: &mut S,
        touches: &mut Steps<L>,
    ) -> Result<(), StoreFault>
        requires can { CanEnd self.old }
        ensures ends { OnOk result (EndsPiece S.X.block32 self.old self.new
            (S.seen store.old).told (S.seen store.new).told touches.old touches.new) }
        ensures within { StaysWithin S.X.block32 self.old self.new
            (S.seen store.old).told (S.seen store.new).told touches.old touches.new }
        ensures builds { OnlyBuilds S.X.block32 (fault_in result) (S.seen store.old) (S.seen store.new) }
    {
        let cid = Cid::of::<S::X>(Codec::Raw, self.begun.as_slice());
        save_leaf(
            self.alloc,
            self.profile,
            &mut self.opened,
            cid,
            self.begun.as_slice(),
            store,
            touches,
        )?;
        self.begun.clear();
        Ok(())
    }

    // Saves n whole pieces, of which some are hashed side by side.
    fn save_pieces<S: Store, L: Ledger>(
        &mut self,
        store: &mut S,
        count: usize,
        bytes: &[u8],
        touches: &mut Steps<L>,
    ) -> Result<(), StoreFault>
        requires can { CanTake (length bytes.now) self.old }
        requires begun { (length bytes.now ≡ 0) ⊎ (self.old.begun.items ≡ []) }
        requires count { length bytes.now ≡ count * self.old.profile.chunk }
        ensures took { OnOk result (TakesPieces S.X.block32 bytes.now self.old self.new
            (S.seen store.old).told (S.seen store.new).told touches.old touches.new) }
        ensures stops { OnErr result (StopsTaking S.X.block32 bytes.now self.old self.new
            (S.seen store.old).told (S.seen store.new).told touches.old touches.new) }
        ensures builds { OnlyBuilds S.X.block32 (fault_in result) (S.seen store.old) (S.seen store.new) }
    {
        let chunk = self.profile.chunk as usize;
        let mut rest = bytes;
        let mut left = count;
        while left > 0 {
            let few = left.min(GROUP);
            let (group, behind) = rest.split_at(few * chunk);
            self.save_group(store, few, group, touches)?;
            rest = behind;
            left -= few;
        }
        Ok(())
    }

    // Saves n whole pieces, which are hashed side by side.
    fn save_group<S: Store, L: Ledger>(
        &mut self,
        store: &mut S,
        count: usize,
        bytes: &[u8],
        touches: &mut Steps<L>,
    ) -> Result<(), StoreFault>
        requires can { CanTake (length bytes.now) self.old }
        requires begun { self.old.begun.items ≡ [] }
        requires count { length bytes.now ≡ count * self.old.profile.chunk }
        requires few { count ≤ 8 }
        ensures took { OnOk result (TakesPieces S.X.block32 bytes.now self.old self.new
            (S.seen store.old).told (S.seen store.new).told touches.old touches.new) }
        ensures stops { OnErr result (StopsTaking S.X.block32 bytes.now self.old self.new
            (S.seen store.old).told (S.seen store.new).told touches.old touches.new) }
        ensures builds { OnlyBuilds S.X.block32 (fault_in result) (S.seen store.old) (S.seen store.new) }
    {
        let chunk = self.profile.chunk as usize;
        let digests = digests_of::<S::X>(bytes, chunk, count);
        for i in 0..count {
            let cid = Cid {
                codec: Codec::Raw,
                digest: digests[i],
            };
            let piece = &bytes[i * chunk..i * chunk + chunk];
            save_leaf(
                self.alloc,
                self.profile,
                &mut self.opened,
                cid,
                piece,
                store,
                touches,
            )?;
        }
        Ok(())
    }
}

// Appends bytes to the piece that was begun.
fn append(begun: &mut Vec<u8>, bytes: &[u8]) -> Result<(), Memory>
    ensures { OnOk result (begun.new.items ≡ begun.old.items ++ bytes.now) }
{
    begun.extend_from_slice(bytes)?;
    Ok(())
}

// Saves a piece, and puts it into the lowest row.
fn save_leaf<S: Store, L: Ledger>(
    alloc: Global,
    profile: Profile,
    opened: &mut Open,
    cid: Cid,
    piece: &[u8],
    store: &mut S,
    touches: &mut Steps<L>,
) -> Result<(), StoreFault>
    requires profile { IsTrue (is_profile profile) }
    requires cid { cid ≡ cid_of S.X.block32 Raw piece.now }
    requires size { length piece.now ≤ profile.chunk }
    requires opened { AreOpen profile.width (groups_in opened.old) }
    requires most { sizes_of (groups_in opened.old) + length piece.now < 2 ^ 63 }
    ensures adds { OnOk result (Adds S.X.block32 profile piece.now (groups_in opened.old) (groups_in opened.new)
        (S.seen store.old).told (S.seen store.new).told touches.old touches.new) }
    ensures most { touches.new + saved_all profile.width (groups_in opened.old) ≤ touches.old + saved_all profile.width
        (add_row S.X.block32 profile.width (leaf_part S.X.block32 piece.now) (groups_in opened.old)) }
    ensures builds { OnlyBuilds S.X.block32 (fault_in result) (S.seen store.old) (S.seen store.new) }
    ensures no_other { SavesAmong S.X.block32 (leaf_held S.X.block32 piece.now
        ∷ add_held S.X.block32 profile.width (leaf_part S.X.block32 piece.now) (groups_in opened.old))
        (S.seen store.old).told (S.seen store.new).told }
{
    save_under(alloc, store, &cid, piece, touches)?;
    let size = piece.len() as u64;
    let part = Part {
        entry: Entry { cid, tsize: size },
        size,
    };
    rows::add(alloc, profile.width as usize, opened, part, store, touches)
}
