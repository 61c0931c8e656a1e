//! Copies of what directories and shards are made of.
ghost use Rattle.std.specs.Prelude.{◌≡◌, IfOk};

use crate::{Item, Pair, Placed};
use uf_cid::{Copied, Memory};

impl Pair {
    /// The same name and entry again.
    pub fn copy(&self) -> Result<Self, Memory>
        ensures { IfOk result (λ pair. pair ≡ self.now) }
    {
        let name = self.name.copy()?;
        Ok(Pair {
            name,
            entry: self.entry,
        })
    }
}

impl Item {
    /// The same entry again, with its name where it has one.
    pub fn copy(&self) -> Result<Self, Memory>
        ensures { IfOk result (λ item. item ≡ self.now) }
    {
        match self {
            Item::Leaf(name, entry) => {
                let name = name.copy()?;
                Ok(Item::Leaf(name, *entry))
            }
            Item::Sub(entry) => Ok(Item::Sub(*entry)),
        }
    }
}

impl Placed {
    /// The same slot and item again.
    pub fn copy(&self) -> Result<Self, Memory>
        ensures { IfOk result (λ placed. placed ≡ self.now) }
    {
        let item = self.item.copy()?;
        Ok(Placed {
            slot: self.slot,
            item,
        })
    }
}

impl Copied for Pair {
    fn copied(&self) -> Result<Self, Memory> {
        self.copy()
    }
}

impl Copied for Placed {
    fn copied(&self) -> Result<Self, Memory> {
        self.copy()
    }
}
