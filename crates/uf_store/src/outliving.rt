//! Which writes be durable.
ghost use Rattle.std.specs.Prelude.{◌≡◌, ◌<◌, ◌+◌, ◌^◌, ◌==◌};
ghost use Rattle.std.specs.List.{list_any};
ghost use Rattle.uf_store.specs.Stops.{behind_sync as place_behind_sync, behind_with as place_behind};
ghost use Rattle.uf_store.specs.Stops.{survives as write_survives};

use crate::Write;
use uf_edge::Calls;

/// The place after the last sync.
pub(crate) fn behind_sync(writes: &[Write]) -> usize
    ensures { result ≡ place_behind_sync 0 writes.now }
{
    let mut behind = 0;
    for (place, write) in writes.iter().enumerate() {
        behind = behind_with(behind, place, write);
    }
    behind
}

// The place after the last sync, with one write more at this place.
fn behind_with(behind: usize, place: usize, write: &Write) -> usize
    requires { place + 1 < 2 ^ 64 }
    ensures { result ≡ place_behind behind place write.now }
{
    match write {
        Write::Synced => place + 1,
        _ => behind,
    }
}

/// Whether a write at a place survives a stop.
pub(crate) fn survives(lost: &Calls, firm: usize, place: usize, write: &Write) -> bool
    ensures { result ≡ write_survives lost.now firm place write.now }
{
    match write {
        Write::Saved(_, _) => place < firm || !is_among(lost, place),
        Write::Synced => false,
        Write::Noted(_, _) => true,
    }
}

// Whether a place is one of these.
fn is_among(places: &Calls, place: usize) -> bool
    ensures { result ≡ list_any (λ n. n == place) places.now }
{
    places.as_slice().iter().any(|n| *n == place as u64)
}
