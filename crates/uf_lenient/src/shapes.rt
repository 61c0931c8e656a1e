//! What the reading of a foreign DAG is given, and what it answers.
ghost use Rattle.std.specs.Prelude.{◌≡◌, IfOk};

use std::marker::Model;
use uf_cid::{Cid, Copied, Memory, Seq};
use uf_tree::{Meta, Name};

/// How far a reading goes: the most links below its start, and the most visits, where a block that is linked twice
/// counts twice.
#[derive(Clone, Copy, PartialEq, Eq)]
pub struct Limits {
    pub depth: u32,
    pub visits: u32,
}

/// A name of a directory and what it leads to. Contracts see the pair of both.
#[derive(Drop)]
pub struct Way {
    pub name: Name,
    pub cid: Cid,
}

impl Model for Way {
    ghost use Rattle.std.specs.Prelude.{List, ℕ};
    ghost use Rattle.uf_cid.specs.declared.cid.Cid.{Cid};

    ghost Value = { List ℕ × Cid };

    ghost view = { λ w. (w.name, w.cid) };
}

impl Way {
    /// The same name and CID again.
    pub fn copy(&self) -> Result<Self, Memory>
        ensures { IfOk result (λ way. way ≡ self.now) }
    {
        let name = self.name.copy()?;
        Ok(Way {
            name,
            cid: self.cid,
        })
    }
}

impl Copied for Way {
    fn copied(&self) -> Result<Self, Memory> {
        self.copy()
    }
}

/// The ways of a directory, in byte order of their names.
pub type Ways = Seq<Way>;

/// What a CID names: a file, or a directory with its ways; each with its metadata.
#[derive(Drop)]
pub enum Shape {
    File(Meta),
    Folder(Meta, Ways),
}
