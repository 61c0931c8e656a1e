//! Why files and folders of a host can't be added or written.
use uf_cid::{Memory, Text};
use uf_lenient::DagFault;
use uf_shard::DirFault;
use uf_store::StoreFault;
use uf_tree::Name;

/// Why files and folders of a host can't be added or written.
#[derive(Drop)]
pub enum HostFault {
    /// Nothing is at a path, or at the parent of the path that is to be written.
    Absent,
    /// A folder is to be added, and folders were not asked for.
    NeedsRecursive,
    /// What is at this path is neither a file nor a folder.
    Other(Text),
    /// Something is at the path that is to be written.
    Exists,
    /// The last name of this path isn't good.
    Name(Text),
    /// The folder at this path is more than 256 folders below the one that is added.
    TooDeep(Text),
    /// The file at this path has more bytes than its profile allows.
    FileTooLong(Text),
    /// Two names of a folder that would be sharded have one 64-bit hash: the least such name, and the least of its
    /// twins.
    Collision(Name, Name),
    /// A folder's Tsize would be more than 2^62.
    TooBig,
    /// The host failed at reading.
    Read,
    /// The host failed at writing.
    Write,
    /// What is to be written can't be read.
    Dag(DagFault),
    Store(StoreFault),
}

impl From<StoreFault> for HostFault {
    ghost use Rattle.std.specs.Prelude.{◌≡◌};
    ghost use Rattle.uf_host.specs.declared.fault.HostFault.TheVariants as faults;

    ghost from_gives = { λ fault given. given ≡ faults.Store fault };

    fn from(fault: StoreFault) -> Self {
        HostFault::Store(fault)
    }
}

impl From<Memory> for HostFault {
    ghost use Rattle.std.specs.Prelude.{◌≡◌};
    ghost use Rattle.uf_store.specs.declared.store.StoreFault.TheVariants as stops;
    ghost use Rattle.uf_host.specs.declared.fault.HostFault.TheVariants as faults;

    ghost from_gives = { λ memory given. given ≡ faults.Store stops.Memory };

    fn from(_memory: Memory) -> Self {
        HostFault::Store(StoreFault::Memory)
    }
}

impl From<DirFault> for HostFault {
    ghost use Rattle.std.specs.Prelude.{◌≡◌};
    ghost use Rattle.uf_host.specs.Faults.{of_directory};

    ghost from_gives = { λ fault given. given ≡ of_directory fault };

    fn from(fault: DirFault) -> Self {
        match fault {
            DirFault::Collision(first, second) => HostFault::Collision(first, second),
            DirFault::TooBig => HostFault::TooBig,
            DirFault::Store(fault) => HostFault::Store(fault),
        }
    }
}

impl From<DagFault> for HostFault {
    ghost use Rattle.std.specs.Prelude.{◌≡◌};
    ghost use Rattle.uf_host.specs.Faults.{fault_of_reading};

    ghost from_gives = { λ fault given. given ≡ fault_of_reading fault };

    fn from(fault: DagFault) -> Self {
        match fault {
            DagFault::Store(fault) => HostFault::Store(fault),
            other => HostFault::Dag(other),
        }
    }
}
