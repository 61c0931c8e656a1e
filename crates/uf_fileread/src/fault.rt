//! Why a range of a file is not written.
ghost use Rattle.std.specs.Prelude.{◌≡◌};

use uf_store::StoreFault;

/// Why a reading of a range gave up.
#[derive(Drop)]
pub enum RangeFault {
    /// The sink failed.
    Sink,
    /// The store gave up, a block was bad, or there was no memory.
    Store(StoreFault),
}

impl From<StoreFault> for RangeFault {
    ghost use Rattle.uf_fileread.specs.declared.fault.RangeFault.TheVariants as faults;

    ghost from_gives = { λ fault range. range ≡ faults.Store fault };

    fn from(fault: StoreFault) -> Self {
        RangeFault::Store(fault)
    }
}
