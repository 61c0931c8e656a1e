//! Raw blocks that a store is told of before they are loaded: the leaves of a file lie side by side in a walk.
ghost use Rattle.std.specs.Prelude.{◌≡◌, ◌≤◌};

use uf_cid::{Cid, Codec};
use uf_store::Store;
use uf_walk::Walk;

// How many blocks a store is told of at most.
const MOST_AHEAD: usize = 8;

/// Tells a store of the raw blocks that a walk has handed out from a place on.
pub(crate) fn foresee_met<S: Store>(store: &mut S, walk: &Walk, place: u32)
    ensures { S.seen store.new ≡ S.seen store.old }
{
    let mut cids = [NO_CID; MOST_AHEAD];
    let count = copy_met(walk, place, &mut cids);
    if count > 1 {
        store.foresee(&cids[..count]);
    }
}

// Copies the CIDs of raw blocks that a walk has handed out from a place on: how many.
fn copy_met(walk: &Walk, place: u32, cids: &mut [Cid; MOST_AHEAD]) -> usize
    ensures { result ≤ 8 }
{
    for at in 0..MOST_AHEAD {
        match walk.met(place.saturating_add(at as u32)) {
            Some(cid) if cid.codec == Codec::Raw => cids[at] = cid,
            _ => return at,
        }
    }
    MOST_AHEAD
}

// What stands where there is none.
const NO_CID: Cid = Cid {
    codec: Codec::Raw,
    digest: [0u8; 32],
};
