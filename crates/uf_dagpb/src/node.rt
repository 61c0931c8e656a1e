//! Nodes and their links.
ghost use Rattle.std.specs.Prelude.{◌≡◌, IfOk};

use uf_cid::{Block, Cid, Copied, Memory, Seq, Text};

/// A link of a node (`PBLink`): the CID of a block, a name, and the number of bytes of the tree below.
#[derive(Drop)]
pub struct Link {
    pub cid: Cid,
    pub name: Text,
    pub tsize: u64,
}

impl Link {
    /// The same link again.
    pub fn copy(&self) -> Result<Self, Memory>
        ensures { IfOk result (λ link. link ≡ self.now) }
    {
        let name = self.name.copy()?;
        Ok(Link {
            cid: self.cid,
            name,
            tsize: self.tsize,
        })
    }
}

impl Copied for Link {
    fn copied(&self) -> Result<Self, Memory> {
        self.copy()
    }
}

/// A list of links.
pub type Links = Seq<Link>;

/// A node (`PBNode`): its links in order, and its content where it has one.
#[derive(Drop)]
pub struct Node {
    pub links: Links,
    pub content: Option<Block>,
}
