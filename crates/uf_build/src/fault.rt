//! Why a file is not built.
use uf_store::StoreFault;

/// Why a builder gave up.
#[derive(Drop)]
pub enum BuildFault {
    /// The file would have more bytes than its profile allows: 4194304 times those of a piece.
    FileTooLong,
    /// An earlier call of this builder gave up.
    Spent,
    /// The store gave up, or there was no memory.
    Store(StoreFault),
}

impl From<StoreFault> for BuildFault {
    ghost use Rattle.std.specs.Prelude.{◌≡◌};
    ghost use Rattle.uf_build.specs.declared.fault.BuildFault.TheVariants as faults;

    ghost from_gives = { λ fault given. given ≡ faults.Store fault };

    fn from(fault: StoreFault) -> Self {
        BuildFault::Store(fault)
    }
}
