//! Why a foreign DAG can't be read.
use uf_cid::{Cid, Memory};
use uf_store::StoreFault;
use uf_tree::Name;

/// Why what a CID names can't be read.
#[derive(Drop)]
pub enum DagFault {
    /// The block is none of UnixFS. 1 to 7: it is no DAG-PB node (the number of the `PbFault`). 9: it has no content.
    /// 11 to 16: the content is no message (10 more than the number of the `MsgFault`). 20: it is of a kind that may
    /// not stand where it is linked. 21: a link of a shard is not named by a slot.
    NotUnixfs(Cid, u8),
    /// A directory has a name twice; the block links the later one.
    DuplicateName(Cid, Name),
    /// The block of a directory links something under a name that is not good.
    BadName(Cid),
    /// A symlink, metadata, or a shard of another fanout or hash.
    Unsupported(Cid),
    /// The block is more links away than the limit.
    TooDeep(Cid),
    /// More visits than the limit.
    TooMany,
    /// The name at this place of the path, counted from 0, is not there.
    NotFound(u32),
    /// The name at this place of the path stands after a file.
    NotADirectory(u32),
    Store(StoreFault),
}

impl From<StoreFault> for DagFault {
    ghost use Rattle.std.specs.Prelude.{◌≡◌};
    ghost use Rattle.uf_lenient.specs.declared.fault.DagFault.TheVariants as faults;

    ghost from_gives = { λ fault given. given ≡ faults.Store fault };

    fn from(fault: StoreFault) -> Self {
        DagFault::Store(fault)
    }
}

impl From<Memory> for DagFault {
    ghost use Rattle.std.specs.Prelude.{◌≡◌};
    ghost use Rattle.uf_store.specs.declared.store.StoreFault.TheVariants as store_faults;
    ghost use Rattle.uf_lenient.specs.declared.fault.DagFault.TheVariants as faults;

    ghost from_gives = { λ memory given. given ≡ faults.Store store_faults.Memory };

    fn from(_memory: Memory) -> Self {
        DagFault::Store(StoreFault::Memory)
    }
}

/// Why a file of a foreign DAG can't be written out.
#[derive(Drop)]
pub enum StreamFault {
    Sink,
    Dag(DagFault),
}

impl From<DagFault> for StreamFault {
    ghost use Rattle.std.specs.Prelude.{◌≡◌};
    ghost use Rattle.uf_lenient.specs.declared.fault.StreamFault.TheVariants as faults;

    ghost from_gives = { λ fault given. given ≡ faults.Dag fault };

    fn from(fault: DagFault) -> Self {
        StreamFault::Dag(fault)
    }
}

impl From<Memory> for StreamFault {
    ghost use Rattle.std.specs.Prelude.{◌≡◌};
    ghost use Rattle.uf_store.specs.declared.store.StoreFault.TheVariants as store_faults;
    ghost use Rattle.uf_lenient.specs.declared.fault.DagFault.TheVariants as dag_faults;
    ghost use Rattle.uf_lenient.specs.declared.fault.StreamFault.TheVariants as faults;

    ghost from_gives = { λ memory given. given ≡ faults.Dag (dag_faults.Store store_faults.Memory) };

    fn from(_memory: Memory) -> Self {
        StreamFault::Dag(DagFault::Store(StoreFault::Memory))
    }
}
