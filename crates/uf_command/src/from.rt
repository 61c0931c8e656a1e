//! How faults of calls become refusals, where `?` passes them on.
ghost use Rattle.std.specs.Prelude.{◌≡◌};
ghost use Rattle.uf_command.specs.Cars.{car_refusal, export_refusal};
ghost use Rattle.uf_command.specs.Commands.{path_refusal};
ghost use Rattle.uf_command.specs.Peers.{pull_refusal, serve_refusal};
ghost use Rattle.uf_command.specs.Pins.{pin_refusal};
ghost use Rattle.uf_command.specs.Statuses.{no_memory};

use crate::{DagRule, PeerRefusal, PeerRule, Refusal};
use uf_car::{CarFault, ExportFault};
use uf_cid::Memory;
use uf_path::PathFault;
use uf_pins::PinFault;
use uf_pull::{PullFault, ServeFault};
use uf_store::StoreFault;

impl From<Memory> for Refusal {
    ghost from_gives = { λ memory given. given ≡ no_memory };

    fn from(_: Memory) -> Refusal {
        Refusal::Store(StoreFault::Memory)
    }
}

impl From<PathFault> for Refusal {
    ghost from_gives = { λ why given. given ≡ path_refusal why };

    fn from(why: PathFault) -> Refusal {
        match why {
            PathFault::Memory => Refusal::Store(StoreFault::Memory),
            why => Refusal::BadPath(why),
        }
    }
}

impl From<CarFault> for Refusal {
    ghost from_gives = { λ fault given. given ≡ car_refusal fault };

    fn from(fault: CarFault) -> Refusal {
        let (number, place) = match fault {
            CarFault::Truncated(place) => (1, place),
            CarFault::Header => (2, 0),
            CarFault::Version(_) => (3, 0),
            CarFault::BadCid(place) => (4, place),
            CarFault::WrongDigest(place, _) => (5, place),
            CarFault::TooBigBlock(place, _) => (6, place),
            CarFault::TooManyRoots(_) => (7, 0),
            CarFault::BadLength(place) => (8, place),
            CarFault::TooLong => (9, 0),
            CarFault::Read => return Refusal::Read,
            CarFault::Store(fault) => return Refusal::Store(fault),
        };
        Refusal::Car { number, place }
    }
}

impl From<ExportFault> for Refusal {
    ghost from_gives = { λ fault given. given ≡ export_refusal fault };

    fn from(fault: ExportFault) -> Refusal {
        match fault {
            ExportFault::Sink => Refusal::Write,
            ExportFault::NotDagPb(cid, why) => Refusal::Dag(DagRule::NotUnixfs(cid, why)),
            ExportFault::TooMany => Refusal::Dag(DagRule::TooMany),
            ExportFault::Store(fault) => Refusal::Store(fault),
        }
    }
}

impl From<PinFault> for Refusal {
    ghost from_gives = { λ fault given. given ≡ pin_refusal fault };

    fn from(fault: PinFault) -> Refusal {
        match fault {
            PinFault::BadPins => Refusal::BadPins,
            PinFault::TooManyPins => Refusal::Dag(DagRule::TooManyPins),
            PinFault::NotPinned(cid) => Refusal::Dag(DagRule::NotPinned(cid)),
            PinFault::NotDagPb(cid, why) => Refusal::Dag(DagRule::NotUnixfs(cid, why)),
            PinFault::TooMany => Refusal::Dag(DagRule::TooMany),
            PinFault::Store(fault) => Refusal::Store(fault),
        }
    }
}

impl From<PullFault> for PeerRefusal {
    ghost from_gives = { λ fault given. given ≡ pull_refusal fault };

    fn from(fault: PullFault) -> PeerRefusal {
        match fault {
            PullFault::Lacks(cid) => PeerRefusal::Peer(PeerRule::Lacks(cid)),
            PullFault::Ended(cid) => PeerRefusal::Peer(PeerRule::Ended(cid)),
            PullFault::Bad(place) => PeerRefusal::Peer(PeerRule::Bad(place)),
            PullFault::Noise => PeerRefusal::Peer(PeerRule::Noise),
            PullFault::NotDagPb(cid, why) => {
                PeerRefusal::Other(Refusal::Dag(DagRule::NotUnixfs(cid, why)))
            }
            PullFault::TooMany => PeerRefusal::Other(Refusal::Dag(DagRule::TooMany)),
            PullFault::Read => PeerRefusal::Other(Refusal::Read),
            PullFault::Sink => PeerRefusal::Other(Refusal::Write),
            PullFault::Store(fault) => PeerRefusal::Other(Refusal::Store(fault)),
        }
    }
}

impl From<ServeFault> for PeerRefusal {
    ghost from_gives = { λ fault given. given ≡ serve_refusal fault };

    fn from(fault: ServeFault) -> PeerRefusal {
        match fault {
            ServeFault::BadWant(number) => PeerRefusal::Peer(PeerRule::BadWant(number)),
            ServeFault::TooLong => PeerRefusal::Other(Refusal::InputTooLong),
            ServeFault::Read => PeerRefusal::Other(Refusal::Read),
            ServeFault::Sink => PeerRefusal::Other(Refusal::Write),
            ServeFault::Store(fault) => PeerRefusal::Other(Refusal::Store(fault)),
        }
    }
}
