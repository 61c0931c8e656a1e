//! A host of devices alone, and commands over it.
ghost use Rattle.std.specs.Prelude.{◌≡◌, true};
ghost use Rattle.uf_edge.specs.Counts.{Counts};

use crate::world::{Ends, World};
use std::sync::ledger::Ledger;
use uf_cid::{BlockHash, Memory};
use uf_edge::{Fetched, Host, Kind, Listing, MemSink, MemSource, Put};
use uf_murmur::NameHash;
use uf_store::{MemStore, Steps};
use uf_top::run;

// A host that tells nothing, has neither a file nor a folder anywhere, and takes none.
#[derive(Drop)]
struct Devices {
    refused: u64,
}

impl Devices {
    // Fails, which is counted.
    fn refuse(&mut self) -> Put
        ensures failed { result ≡ Put.Failed }
        ensures writes { Counts true self.old.refused self.new.refused }
    {
        self.refused = self.refused.saturating_add(1);
        Put::Failed
    }
}

impl Host for Devices {
    ghost use Rattle.std.specs.Prelude.{None};

    ghost tree = { λ h. None };

    ghost read_faults = { λ h. 0 };

    ghost write_faults = { λ h. h.refused };

    fn kind(&mut self, path: &str) -> Kind {
        let _ = path;
        Kind::Other
    }

    fn list(&mut self, path: &str) -> Listing {
        let _ = path;
        Listing::Memory
    }

    fn read_at(&mut self, path: &str, offset: u64, buf: &mut [u8]) -> Fetched {
        let _ = path;
        let _ = offset;
        let _ = buf.len();
        Fetched::Memory
    }

    fn make_folder(&mut self, path: &str) -> Put {
        let _ = path;
        self.refuse()
    }

    fn append(&mut self, path: &str, piece: &[u8]) -> Put {
        let _ = path;
        let _ = piece;
        self.refuse()
    }

    ghost rooted = { λ h. tt };
}

/// Does a command over a host of devices alone.
pub fn act_on_devices<X: BlockHash, N: NameHash, L: Ledger>(
    world: &mut World<X>,
    words: &[String],
    ends: &mut Ends,
    touches: &mut Steps<L>,
) -> Result<(), Memory> {
    let before = world.store.writes();
    let mut devices = Devices { refused: 0 };
    let status = run::<MemStore<X>, N, Devices, MemSource, MemSink, MemSink, L>(
        world.alloc,
        words,
        &mut world.store,
        &mut devices,
        &mut ends.input,
        &mut ends.output,
        &mut ends.errors,
        touches,
    );
    let wrote = before != world.store.writes();
    world.note(ends, status, wrote)
}
