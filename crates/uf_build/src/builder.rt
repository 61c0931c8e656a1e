//! The builder of a file.
ghost use Rattle.std.specs.Prelude.{◌≡◌, ◌+◌, ◌≤◌, ◌++◌, List, ℕ, [], length, false, IfOk, OnOk, IsTrue};
ghost use Rattle.uf_store.specs.Calls.{LoadsNothing};
ghost use Rattle.uf_store.specs.Contents.{Told};
ghost use Rattle.uf_store.specs.Faults.{NoneIsBad, Shown};
ghost use Rattle.uf_store.specs.Keeping.{Holds, KeepsGood};
ghost use Rattle.uf_store.specs.Writing.{SavesOnly};
ghost use Rattle.uf_store.specs.Among.{SavesAmong};
ghost use Rattle.uf_tree.specs.FilePlan.{file_plan};
ghost use Rattle.uf_tree.specs.Metas.{is_meta, none};
ghost use Rattle.uf_tree.specs.Profiles.{is_profile};
ghost use Rattle.uf_build.specs.Answers.{IsFeedAnswer, IsFinishAnswer, LeavesAlone, build_fault};
ghost use Rattle.uf_build.specs.Building.{HasFed, HoldsFed, SavesForFront, saved_by};

use crate::BuildFault;
use crate::layout::Layout;
use crate::open::Open;
use std::alloc::Global;
use std::marker::Model;
use std::sync::ledger::Ledger;
use uf_store::{Steps, Store};
use uf_tree::{Entry, Meta, Profile};

/// Builds a file of the bytes that it is fed, in pieces of any sizes. It keeps one piece of the file and one group of
/// links for each row, however long the file is. Contracts see its profile, how many bytes it was fed, and whether it
/// gave up.
#[derive(Drop)]
pub struct Builder {
    layout: Layout,
    fed: u64,
    is_spent: bool,
}

impl Model for Builder {
    ghost use Rattle.uf_build.specs.Building.{Building};

    ghost Value = { Building };

    ghost use Rattle.uf_build.specs.Inside.{building_of, IsSound};

    ghost view = { building_of };

    ghost invariant = { IsSound };
}

impl Builder {
    /// A builder that was fed nothing.
    pub fn new(alloc: Global, p: Profile) -> Builder
        requires { IsTrue (is_profile p) }
        ensures profile { result.profile ≡ p }
        ensures count { result.fed ≡ 0 }
        ensures spent { result.is_spent ≡ false }
        ensures fed { (X : List ℕ → List ℕ) → HasFed X [] result }
        ensures held { (X : List ℕ → List ℕ) (told : Told) → HoldsFed X [] told result }
        ensures saved { saved_by result ≡ 0 }
    {
        let layout = Layout {
            alloc,
            profile: p,
            begun: Vec::new(alloc),
            opened: Open {
                last: None,
                rows: Vec::new(alloc),
            },
        };
        Builder {
            layout,
            fed: 0,
            is_spent: false,
        }
    }

    /// Takes the next bytes of the file, and saves the blocks that they make whole. After a fault every call of this
    /// builder answers `Spent`.
    pub fn feed<S: Store, L: Ledger>(
        &mut self,
        store: &mut S,
        piece: &[u8],
        touches: &mut Steps<L>,
    ) -> Result<(), BuildFault>
        ensures answer { IsFeedAnswer self.old (length piece.now) self.new result }
        ensures profile { self.new.profile ≡ self.old.profile }
        ensures fed { OnOk result ((bytes : List ℕ) → HasFed S.X.block32 bytes self.old
            → HasFed S.X.block32 (bytes ++ piece.now) self.new) }
        ensures held { OnOk result ((bytes : List ℕ) → HoldsFed S.X.block32 bytes (S.seen store.old).told self.old
            → HoldsFed S.X.block32 (bytes ++ piece.now) (S.seen store.new).told self.new) }

        // No fault was passed over, what was good stays, nothing but blocks was written, and nothing was loaded.
        ensures cause { Shown S.X.block32 NoneIsBad (build_fault result) (S.seen store.old) (S.seen store.new) }
        ensures good { KeepsGood S.X.block32 (S.seen store.old).told (S.seen store.new).told }
        ensures saves { SavesOnly S.X.block32 (S.seen store.old).told (S.seen store.new).told }
        ensures no_other { (bytes : List ℕ) → HasFed S.X.block32 bytes self.old
            → SavesForFront S.X.block32 self.old.profile (bytes ++ piece.now)
            (S.seen store.old).told (S.seen store.new).told }
        ensures unread { LoadsNothing (build_fault result) (S.seen store.old) (S.seen store.new) }

        // One touch for each block that is saved, and whatever came, no more than the plan of all bytes has blocks.
        ensures saved { OnOk result (touches.new + saved_by self.old ≡ touches.old + saved_by self.new) }
        ensures most { (bytes : List ℕ) → HasFed S.X.block32 bytes self.old
            → touches.new + saved_by self.old ≤ touches.old + length
            (file_plan S.X.block32 self.old.profile none (bytes ++ piece.now)).blocks }
        ensures alone { LeavesAlone result (S.seen store.old) (S.seen store.new) touches.old touches.new }
    {
        if self.is_spent {
            return Err(BuildFault::Spent);
        }
        let most = self.layout.profile.most_bytes();
        let more = piece.len() as u64;
        self.is_spent = true;
        if more > most - self.fed {
            return Err(BuildFault::FileTooLong);
        }
        self.layout.take(store, piece, touches)?;
        self.fed += more;
        self.is_spent = false;
        Ok(())
    }

    /// Saves what is left of the file's blocks, and answers the entry of the file without metadata.
    pub fn finish<S: Store, L: Ledger>(
        self,
        store: &mut S,
        touches: &mut Steps<L>,
    ) -> Result<Entry, BuildFault>
        ensures answer { IsFinishAnswer self result }
        ensures entry { IfOk result (λ e. (bytes : List ℕ) → HasFed S.X.block32 bytes self
            → e ≡ (file_plan S.X.block32 self.profile none bytes).entry) }
        ensures held { OnOk result ((bytes : List ℕ) → HoldsFed S.X.block32 bytes (S.seen store.old).told self
            → Holds (S.seen store.new).told (file_plan S.X.block32 self.profile none bytes).blocks) }
        ensures cause { Shown S.X.block32 NoneIsBad (build_fault result) (S.seen store.old) (S.seen store.new) }
        ensures good { KeepsGood S.X.block32 (S.seen store.old).told (S.seen store.new).told }
        ensures saves { SavesOnly S.X.block32 (S.seen store.old).told (S.seen store.new).told }
        ensures no_other { (bytes : List ℕ) → HasFed S.X.block32 bytes self
            → SavesAmong S.X.block32 (file_plan S.X.block32 self.profile none bytes).blocks
            (S.seen store.old).told (S.seen store.new).told }
        ensures unread { LoadsNothing (build_fault result) (S.seen store.old) (S.seen store.new) }
        ensures saved { OnOk result ((bytes : List ℕ) → HasFed S.X.block32 bytes self
            → touches.new + saved_by self ≡ touches.old + length
            (file_plan S.X.block32 self.profile none bytes).blocks) }
        ensures most { (bytes : List ℕ) → HasFed S.X.block32 bytes self
            → touches.new + saved_by self ≤ touches.old + length
            (file_plan S.X.block32 self.profile none bytes).blocks }
        ensures alone { LeavesAlone result (S.seen store.old) (S.seen store.new) touches.old touches.new }
    {
        self.finish_with(&Meta::none(), store, touches)
    }

    /// Saves what is left of the blocks of the file with this metadata, and answers its entry. The condition on the
    /// metadata is `is_good`.
    pub fn finish_with<S: Store, L: Ledger>(
        self,
        meta: &Meta,
        store: &mut S,
        touches: &mut Steps<L>,
    ) -> Result<Entry, BuildFault>
        requires { IsTrue (is_meta meta.now) }
        ensures answer { IsFinishAnswer self result }
        ensures entry { IfOk result (λ e. (bytes : List ℕ) → HasFed S.X.block32 bytes self
            → e ≡ (file_plan S.X.block32 self.profile meta.now bytes).entry) }
        ensures held { OnOk result ((bytes : List ℕ) → HoldsFed S.X.block32 bytes (S.seen store.old).told self
            → Holds (S.seen store.new).told (file_plan S.X.block32 self.profile meta.now bytes).blocks) }
        ensures cause { Shown S.X.block32 NoneIsBad (build_fault result) (S.seen store.old) (S.seen store.new) }
        ensures good { KeepsGood S.X.block32 (S.seen store.old).told (S.seen store.new).told }
        ensures saves { SavesOnly S.X.block32 (S.seen store.old).told (S.seen store.new).told }
        ensures no_other { (bytes : List ℕ) → HasFed S.X.block32 bytes self
            → SavesAmong S.X.block32 (file_plan S.X.block32 self.profile meta.now bytes).blocks
            (S.seen store.old).told (S.seen store.new).told }
        ensures unread { LoadsNothing (build_fault result) (S.seen store.old) (S.seen store.new) }
        ensures saved { OnOk result ((bytes : List ℕ) → HasFed S.X.block32 bytes self
            → touches.new + saved_by self ≡ touches.old + length
            (file_plan S.X.block32 self.profile meta.now bytes).blocks) }
        ensures most { (bytes : List ℕ) → HasFed S.X.block32 bytes self
            → touches.new + saved_by self ≤ touches.old + length
            (file_plan S.X.block32 self.profile meta.now bytes).blocks }
        ensures alone { LeavesAlone result (S.seen store.old) (S.seen store.new) touches.old touches.new }
    {
        let Builder {
            layout,
            fed: _,
            is_spent,
        } = self;
        if is_spent {
            return Err(BuildFault::Spent);
        }
        let entry = layout.close(meta, store, touches)?;
        Ok(entry)
    }
}
