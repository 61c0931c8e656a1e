//! What is said of files and directories.
ghost use Rattle.std.specs.Prelude.{◌≡◌, IfOk};

use uf_cid::{Cid, Copied, Memory, Seq};
use uf_tree::{Meta, Name};

/// One member of a directory, or a file by its own name. A directory's size is 0.
#[derive(Drop)]
pub struct Row {
    pub name: Name,
    pub cid: Cid,
    pub size: u64,
}

/// A list of rows: of a directory, in byte order of the names.
pub type Rows = Seq<Row>;

impl Row {
    /// The same row again.
    pub fn copy(&self) -> Result<Self, Memory>
        ensures { IfOk result (λ row. row ≡ self.now) }
    {
        let name = self.name.copy()?;
        Ok(Row {
            name,
            cid: self.cid,
            size: self.size,
        })
    }
}

impl Copied for Row {
    fn copied(&self) -> Result<Self, Memory> {
        self.copy()
    }
}

/// What is said of a file or a directory: its CID, the bytes of a file (0 of a directory) and its Tsize. Then the
/// number of links of its root block (0 of a raw block), whether it is a directory, and its metadata.
#[derive(Clone, Copy, Debug, PartialEq, Eq)]
pub struct Stat {
    pub cid: Cid,
    pub size: u64,
    pub cumulative: u64,
    pub children: u64,
    pub is_folder: bool,
    pub meta: Meta,
}
