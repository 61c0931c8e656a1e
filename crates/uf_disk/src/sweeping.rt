//! What a sweep takes away.
use crate::files::{Trouble, entries_of, if_there, remove_file};
use crate::folder::{BLOCKS, Folder};
use crate::place::{BlockPath, BlockPlace, cid_named, folder_of};
use std::alloc::{Allocator, Global};
use std::collections::BTreeSet;
use std::fs::{Files, ReadDir};
use std::random::RandomSource;
use uf_cid::{Cid, Cids};

impl<R: Files + RandomSource> Folder<R> {
    /// Takes away each block whose CID isn't one of these, and answers how many went. All that takes memory comes
    /// before the first one goes, and a stop at any moment leaves those that are kept. What has no block's name stays,
    /// and so does what is no file. Where one can't be taken away, those that would have come after it stay too.
    pub fn sweep(&mut self, kept: &Cids) -> Result<u64, Trouble> {
        let others = self.others(kept)?;
        match self.take_away(others.as_slice()) {
            Ok(count) => Ok(count),
            Err(_) => Err(Trouble::Failed),
        }
    }

    // Takes these blocks away and makes that durable: how many there were.
    fn take_away(&mut self, cids: &[Cid]) -> Result<u64, Trouble> {
        let mut count: u64 = 0;
        for cid in cids {
            let was_filed = self.remove_at(BlockPlace::Filed, cid)?;
            let was_late = self.remove_at(BlockPlace::Late, cid)?;
            if was_filed || was_late {
                count = count.saturating_add(1);
            }
        }
        self.sync_blocks()?;
        Ok(count)
    }

    // Takes a block's file at a place away: whether one was there.
    fn remove_at(&mut self, place: BlockPlace, cid: &Cid) -> Result<bool, Trouble> {
        let path = BlockPath::new(cid, place);
        let was_there = remove_file(&self.files, path.text()?)?;
        if was_there {
            self.name_changed(place, cid);
        }
        Ok(was_there)
    }

    // The CIDs of the blocks that are here and aren't among these.
    fn others(&self, kept: &Cids) -> Result<Cids, Trouble> {
        let kept = set_of(self.alloc, kept)?;
        let mut others = Cids::new(self.alloc);
        self.put_others(BLOCKS, &kept, &mut others)?;
        for at in 0..256usize {
            let path = folder_of(at as u8);
            self.put_others(path.folder()?, &kept, &mut others)?;
        }
        Ok(others)
    }

    // Puts those of one folder after them.
    fn put_others(
        &self,
        folder: &str,
        kept: &BTreeSet<Cid>,
        others: &mut Cids,
    ) -> Result<(), Trouble> {
        let mut found = Cids::new(self.alloc);
        self.put_names(folder, &mut found)?;
        for cid in found.as_slice() {
            if !kept.contains(cid) {
                others.push(*cid)?;
            }
        }
        Ok(())
    }

    /// Puts the CIDs of the blocks that have their files in a folder after others.
    pub fn put_names(&self, folder: &str, cids: &mut Cids) -> Result<(), Trouble> {
        match if_there(entries_of(&self.files, self.alloc, folder))? {
            Some(entries) => put_cids(entries, cids),
            None => Ok(()),
        }
    }
}

// Puts the CIDs of the blocks whose files these are after others.
fn put_cids<F: Files + Clone + Drop, A: Allocator + Clone>(
    entries: ReadDir<F, A>,
    cids: &mut Cids,
) -> Result<(), Trouble> {
    for entry in entries {
        if let Some(cid) = cid_named(entry?.file_name()) {
            cids.push(cid)?;
        }
    }
    Ok(())
}

// CIDs as a set.
fn set_of(alloc: Global, cids: &Cids) -> Result<BTreeSet<Cid>, Trouble> {
    let mut set = BTreeSet::new(alloc);
    for cid in cids.as_slice() {
        set.insert(*cid)?;
    }
    Ok(set)
}
