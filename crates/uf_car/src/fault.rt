//! What the calls on CARs answer.
use uf_cid::{Cid, Cids, Memory};
use uf_store::StoreFault;
use uf_walk::WalkFault;

/// What was read of a CAR: its roots, and how many blocks its sections had.
#[derive(Drop)]
pub struct Imported {
    pub roots: Cids,
    pub blocks: u64,
}

/// Why a CAR wasn't read. A place is the number of the byte with which the header (0) or the section begins.
#[derive(Drop)]
pub enum CarFault {
    /// The bytes end inside the header or a section.
    Truncated(u64),
    /// The header isn't one of CARv1.
    Header,
    /// The header is one of this version.
    Version(u8),
    /// A section doesn't begin with a CID.
    BadCid(u64),
    /// A block isn't that of its CID.
    WrongDigest(u64, Cid),
    /// A block has n bytes.
    TooBigBlock(u64, u64),
    /// There are more than 64 roots: this many.
    TooManyRoots(u64),
    /// A length isn't the shortest varint of a number below 2^63.
    BadLength(u64),
    /// There are more bytes than were to be read.
    TooLong,
    /// The source failed.
    Read,
    Store(StoreFault),
}

/// Why a CAR wasn't written.
#[derive(Drop)]
pub enum ExportFault {
    /// The sink failed.
    Sink,
    /// A block is no node, with the number of its fault.
    NotDagPb(Cid, u8),
    /// There are more CIDs than were to be written.
    TooMany,
    Store(StoreFault),
}

impl From<StoreFault> for CarFault {
    ghost use Rattle.std.specs.Prelude.{◌≡◌};
    ghost use Rattle.uf_car.specs.declared.fault.CarFault.TheVariants as faults;

    ghost from_gives = { λ fault given. given ≡ faults.Store fault };

    fn from(fault: StoreFault) -> Self {
        CarFault::Store(fault)
    }
}

impl From<Memory> for CarFault {
    ghost use Rattle.std.specs.Prelude.{◌≡◌};
    ghost use Rattle.uf_store.specs.declared.store.StoreFault.TheVariants as stores;
    ghost use Rattle.uf_car.specs.declared.fault.CarFault.TheVariants as faults;

    ghost from_gives = { λ memory given. given ≡ faults.Store stores.Memory };

    fn from(_memory: Memory) -> Self {
        CarFault::Store(StoreFault::Memory)
    }
}

impl From<StoreFault> for ExportFault {
    ghost use Rattle.std.specs.Prelude.{◌≡◌};
    ghost use Rattle.uf_car.specs.declared.fault.ExportFault.TheVariants as faults;

    ghost from_gives = { λ fault given. given ≡ faults.Store fault };

    fn from(fault: StoreFault) -> Self {
        ExportFault::Store(fault)
    }
}

impl From<Memory> for ExportFault {
    ghost use Rattle.std.specs.Prelude.{◌≡◌};
    ghost use Rattle.uf_store.specs.declared.store.StoreFault.TheVariants as stores;
    ghost use Rattle.uf_car.specs.declared.fault.ExportFault.TheVariants as faults;

    ghost from_gives = { λ memory given. given ≡ faults.Store stores.Memory };

    fn from(_memory: Memory) -> Self {
        ExportFault::Store(StoreFault::Memory)
    }
}

impl From<WalkFault> for ExportFault {
    ghost use Rattle.std.specs.Prelude.{◌≡◌};
    ghost use Rattle.uf_car.specs.Taken.{untaken};

    ghost from_gives = { λ fault given. given ≡ untaken fault };

    fn from(fault: WalkFault) -> Self {
        match fault {
            WalkFault::NotDagPb(cid, why) => ExportFault::NotDagPb(cid, why),
            WalkFault::Memory => ExportFault::Store(StoreFault::Memory),
        }
    }
}
