//! Why no file is made of what a source gives.
use uf_cid::Memory;
use uf_store::StoreFault;

/// Why no file is made of what a source gives.
#[derive(Drop)]
pub enum IntakeFault {
    /// The source failed.
    Read,
    /// The source has more bytes than a file of the profile may have.
    FileTooLong,
    /// The store gave up, or there was no memory.
    Store(StoreFault),
}

impl From<StoreFault> for IntakeFault {
    ghost use Rattle.std.specs.Prelude.{◌≡◌};
    ghost use Rattle.uf_build.specs.declared.intake_fault.IntakeFault.TheVariants as faults;

    ghost from_gives = { λ fault given. given ≡ faults.Store fault };

    fn from(fault: StoreFault) -> Self {
        IntakeFault::Store(fault)
    }
}

impl From<Memory> for IntakeFault {
    ghost use Rattle.std.specs.Prelude.{◌≡◌};
    ghost use Rattle.uf_build.specs.declared.intake_fault.IntakeFault.TheVariants as faults;
    ghost use Rattle.uf_store.specs.declared.store.StoreFault.TheVariants as stops;

    ghost from_gives = { λ _ given. given ≡ faults.Store stops.Memory };

    fn from(_: Memory) -> Self {
        IntakeFault::Store(StoreFault::Memory)
    }
}
