//! Why a directory can't be built or changed.
use uf_cid::Memory;
use uf_store::StoreFault;
use uf_tree::Name;

/// Why a directory can't be built or changed. Either two names of it have one 64-bit hash and it would be sharded: the
/// least such name and the least of its twins. Or its Tsize would be more than 2^62, or it is the store's own fault.
#[derive(Drop)]
pub enum DirFault {
    Collision(Name, Name),
    TooBig,
    Store(StoreFault),
}

impl From<StoreFault> for DirFault {
    ghost use Rattle.std.specs.Prelude.{◌≡◌};
    ghost use Rattle.uf_shard.specs.declared.fault.DirFault.TheVariants as faults;

    ghost from_gives = { λ fault given. given ≡ faults.Store fault };

    fn from(fault: StoreFault) -> Self {
        DirFault::Store(fault)
    }
}

impl From<Memory> for DirFault {
    ghost use Rattle.std.specs.Prelude.{◌≡◌};
    ghost use Rattle.uf_shard.specs.declared.fault.DirFault.TheVariants as faults;
    ghost use Rattle.uf_store.specs.declared.store.StoreFault.TheVariants as stops;

    ghost from_gives = { λ memory given. given ≡ faults.Store stops.Memory };

    fn from(_memory: Memory) -> Self {
        DirFault::Store(StoreFault::Memory)
    }
}
