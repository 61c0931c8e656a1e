//! What a comparison answers.
use uf_cid::{Block, Cid, Memory};
use uf_store::StoreFault;
use uf_walk::WalkFault;

/// How two stores compare below two CIDs. A clash has the first CID whose two blocks differ, and then the left block
/// and the right.
#[derive(Drop)]
pub enum Compared {
    Equal,
    Differ,
    Clash(Cid, Block, Block),
}

/// Why two stores weren't compared: a block is no node, with the number of its fault, there are too many CIDs, or a
/// fault of the left or the right store.
#[derive(Drop)]
pub enum SameFault {
    NotDagPb(Cid, u8),
    TooMany,
    Left(StoreFault),
    Right(StoreFault),
    Memory,
}

impl From<Memory> for SameFault {
    ghost use Rattle.std.specs.Prelude.{◌≡◌};
    ghost use Rattle.uf_same.specs.declared.answer.SameFault.TheVariants as faults;

    ghost from_gives = { λ memory given. given ≡ faults.Memory };

    fn from(_memory: Memory) -> Self {
        SameFault::Memory
    }
}

impl From<WalkFault> for SameFault {
    ghost use Rattle.std.specs.Prelude.{◌≡◌};
    ghost use Rattle.uf_same.specs.Stopped.{not_compared};

    ghost from_gives = { λ fault given. given ≡ not_compared fault };

    fn from(fault: WalkFault) -> Self {
        match fault {
            WalkFault::NotDagPb(cid, why) => SameFault::NotDagPb(cid, why),
            WalkFault::Memory => SameFault::Memory,
        }
    }
}
