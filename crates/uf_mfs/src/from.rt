//! How a fault below becomes that of a step, where `?` passes it on.
ghost use Rattle.std.specs.Prelude.{◌≡◌};
ghost use Rattle.uf_mfs.specs.declared.fault.MfsFault.TheVariants as mfs;
ghost use Rattle.uf_mfs.specs.declared.fault.Stop.TheVariants as stop;
ghost use Rattle.uf_store.specs.declared.store.StoreFault.TheVariants as faults;
ghost use Rattle.uf_mfs.specs.Answers.{stop_of};
ghost use Rattle.uf_mfs.specs.Opening.{IsHeadFault};
ghost use Rattle.uf_mfs.specs.Reading.{IsRangeFault};

use crate::{MfsFault, Ready, Stop};
use uf_cid::Memory;
use uf_dir::DirFault;
use uf_fileread::RangeFault;
use uf_plain::Refused;
use uf_store::StoreFault;
use uf_tree::HeadFault;

impl From<StoreFault> for Stop {
    ghost from_gives = { λ fault given. given ≡ stop.Store fault };

    fn from(fault: StoreFault) -> Stop {
        Stop::Store(fault)
    }
}

impl From<Refused> for Stop {
    ghost from_gives = { λ why given. given ≡ stop.Refused why };

    fn from(why: Refused) -> Stop {
        Stop::Refused(why)
    }
}

impl From<DirFault> for Stop {
    ghost from_gives = { λ fault given. given ≡ stop_of fault };

    fn from(fault: DirFault) -> Stop {
        match fault {
            DirFault::Collision(first, second) => Stop::Refused(Refused::Collision(first, second)),
            DirFault::TooBig => Stop::Refused(Refused::TooBig),
            DirFault::Store(fault) => Stop::Store(fault),
        }
    }
}

impl From<StoreFault> for MfsFault {
    ghost from_gives = { λ fault given. given ≡ mfs.Store fault };

    fn from(fault: StoreFault) -> MfsFault {
        MfsFault::Store(fault)
    }
}

impl From<Memory> for MfsFault {
    ghost from_gives = { λ memory given. given ≡ mfs.Store faults.Memory };

    fn from(_memory: Memory) -> MfsFault {
        MfsFault::Store(StoreFault::Memory)
    }
}

impl From<HeadFault> for MfsFault {
    ghost from_gives = { IsHeadFault };

    fn from(fault: HeadFault) -> MfsFault {
        match fault {
            HeadFault::Memory => MfsFault::Store(StoreFault::Memory),
            _ => MfsFault::Ready(Ready::BadHead),
        }
    }
}

impl From<RangeFault> for MfsFault {
    ghost from_gives = { IsRangeFault };

    fn from(fault: RangeFault) -> MfsFault {
        match fault {
            RangeFault::Sink => MfsFault::Sink,
            RangeFault::Store(fault) => MfsFault::Store(fault),
        }
    }
}
