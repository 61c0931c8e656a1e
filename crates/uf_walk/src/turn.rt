//! What the calls of a walk answer.
use uf_cid::{Cid, Memory};

/// What comes next in a walk.
#[derive(Clone, Copy, PartialEq, Eq)]
pub enum Turn {
    /// The next CID. Its block is to be taken before the walk goes on.
    At(Cid),
    /// All CIDs were handed out.
    End,
    /// The next CID would be one too many.
    TooMany,
}

/// Why a block was not taken: it is no node, with the number of its fault (its place among the faults of
/// `uf_dagpb::PbFault`, from 1), or there was no memory.
#[derive(Clone, Copy, PartialEq, Eq)]
pub enum WalkFault {
    NotDagPb(Cid, u8),
    Memory,
}

impl From<Memory> for WalkFault {
    ghost use Rattle.std.specs.Prelude.{◌≡◌};
    ghost use Rattle.uf_walk.specs.declared.turn.WalkFault.TheVariants as faults;

    ghost from_gives = { λ memory fault. fault ≡ faults.Memory };

    fn from(_memory: Memory) -> Self {
        WalkFault::Memory
    }
}
