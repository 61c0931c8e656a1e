//! Why a foreign DAG can't be adopted.
use uf_build::BuildFault;
use uf_cid::{Cid, Memory};
use uf_dir::DirFault;
use uf_lenient::DagFault;
use uf_store::StoreFault;
use uf_tree::Name;

/// Why what a CID names can't be adopted.
#[derive(Drop)]
pub enum AdoptFault {
    /// The CID denotes no tree. A fault of the store is never reported in here, but as `Store`.
    Dag(DagFault),
    /// A file would have more bytes than the profile allows; the CID is that of its first node.
    FileTooLong(Cid),
    /// Two names of a directory have one 64-bit hash, and it would be in shards.
    Collision(Name, Name),
    /// The Tsize of a directory would be more than 2^62.
    TooBig,
    /// The store's own fault, also while what others wrote is read: so a block that is missing is reported here.
    Store(StoreFault),
}

impl From<DagFault> for AdoptFault {
    ghost use Rattle.std.specs.Prelude.{◌≡◌};
    ghost use Rattle.uf_adopt.specs.Faults.{of_reading};

    ghost from_gives = { λ fault given. given ≡ of_reading fault };

    fn from(fault: DagFault) -> Self {
        match fault {
            DagFault::Store(fault) => AdoptFault::Store(fault),
            other => AdoptFault::Dag(other),
        }
    }
}

impl From<DirFault> for AdoptFault {
    ghost use Rattle.std.specs.Prelude.{◌≡◌};
    ghost use Rattle.uf_adopt.specs.Faults.{of_directory};

    ghost from_gives = { λ fault given. given ≡ of_directory fault };

    fn from(fault: DirFault) -> Self {
        match fault {
            DirFault::Collision(first, second) => AdoptFault::Collision(first, second),
            DirFault::TooBig => AdoptFault::TooBig,
            DirFault::Store(fault) => AdoptFault::Store(fault),
        }
    }
}

impl From<Memory> for AdoptFault {
    ghost use Rattle.std.specs.Prelude.{◌≡◌};
    ghost use Rattle.uf_store.specs.declared.store.StoreFault.TheVariants as store_faults;
    ghost use Rattle.uf_adopt.specs.declared.fault.AdoptFault.TheVariants as faults;

    ghost from_gives = { λ memory given. given ≡ faults.Store store_faults.Memory };

    fn from(_memory: Memory) -> Self {
        AdoptFault::Store(StoreFault::Memory)
    }
}
