//! What an import keeps while it walks.
ghost use Rattle.std.specs.Prelude.{◌≡◌, ◌<◌, IfOk, IsTrue, vec_len};
ghost use Rattle.uf_tree.specs.Profiles.{is_profile};

use std::alloc::Global;
use uf_cid::{Copied, Memory, Seq, Text};
use uf_tree::{Entry, Profile};

/// A file or a folder that was added: its path from the last name of the given path on, and its entry.
#[derive(Drop)]
pub struct AddedRow {
    pub path: Text,
    pub entry: Entry,
}

impl AddedRow {
    /// The same row again.
    pub fn copy(&self) -> Result<Self, Memory>
        ensures { IfOk result (λ row. row ≡ self.now) }
    {
        let path = self.path.copy()?;
        Ok(AddedRow {
            path,
            entry: self.entry,
        })
    }
}

impl Copied for AddedRow {
    fn copied(&self) -> Result<Self, Memory> {
        self.copy()
    }
}

/// A list of rows: what is in a folder comes before the folder.
pub type AddedRows = Seq<AddedRow>;

// What an import keeps while it walks: the buffer into which every file is read, and the rows of what was added so
// far.
#[derive(Drop)]
pub struct Import {
    pub alloc: Global,
    pub profile: Profile,
    pub buffer: Vec<u8>,
    pub rows: AddedRows,
    ghost room: { 0 < vec_len buffer },
    ghost cut: { IsTrue (is_profile profile) },
}
