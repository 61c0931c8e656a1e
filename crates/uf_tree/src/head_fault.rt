//! Why a text is no Head.
use uf_cid::Memory;

/// Why a text is no Head: the first fault from left to right, or there was no memory.
#[derive(Clone, Copy, Debug, PartialEq, Eq)]
pub enum HeadFault {
    /// The first line isn't that of version 2 or 1.
    Version,
    /// The line of this number, counted from 1, is absent or has not its word; line 6 is there.
    Line(u8),
    /// The number of the line of this number isn't spelled so, or is outside its range.
    Number(u8),
    /// The CID isn't spelled so, or is none of a node.
    Root,
    Memory,
}

impl From<Memory> for HeadFault {
    ghost use Rattle.std.specs.Prelude.{◌≡◌};
    ghost use Rattle.uf_tree.specs.declared.head_fault.HeadFault.TheVariants as faults;

    ghost from_gives = { λ _ fault. fault ≡ faults.Memory };

    fn from(_: Memory) -> Self {
        HeadFault::Memory
    }
}
