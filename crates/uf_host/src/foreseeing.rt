//! Files that a store is told of before they are loaded: those of one folder that are one raw block.
ghost use Rattle.std.specs.Prelude.{◌≡◌, ◌≤◌};

use uf_cid::{Cid, Codec};
use uf_lenient::Way;
use uf_store::Store;

// How many blocks a store is told of at most.
const MOST_AHEAD: usize = 8;

/// Tells a store of the raw blocks to which ways lead from a place on.
pub fn foresee_files<S: Store>(store: &mut S, ways: &[Way], place: usize)
    ensures { S.seen store.new ≡ S.seen store.old }
{
    let mut cids = [NO_CID; MOST_AHEAD];
    let count = copy_files(ways, place, &mut cids);
    if count > 1 {
        store.foresee(&cids[..count]);
    }
}

// Copies the CIDs of raw blocks to which ways lead from a place on: how many.
fn copy_files(ways: &[Way], place: usize, cids: &mut [Cid; MOST_AHEAD]) -> usize
    ensures { result ≤ 8 }
{
    for at in 0..MOST_AHEAD {
        match ways.get(place.saturating_add(at)) {
            Some(way) if way.cid.codec == Codec::Raw => cids[at] = way.cid,
            _ => return at,
        }
    }
    MOST_AHEAD
}

// What stands where there is none.
const NO_CID: Cid = Cid {
    codec: Codec::Raw,
    digest: [0u8; 32],
};
