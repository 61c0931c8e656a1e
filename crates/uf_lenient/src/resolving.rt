//! Paths in a DAG followed.
ghost use Rattle.std.specs.Prelude.{◌≡◌, ◌≤◌, ◌<◌, ◌+◌, ◌*◌, ◌^◌, length};
ghost use Rattle.std.specs.FinMap.Entries.{find};
ghost use Rattle.std.specs.Ordering.{eq_by_cmp};
ghost use Rattle.uf_tree.specs.Names.{names_cmp};
ghost use Rattle.uf_lenient.specs.Reading.{resolve_from, step_of};
ghost use Rattle.uf_lenient.specs.Calls.{ReadsDag, SaysGoodReading, SaysReading, ShowsDag};

use crate::{DagFault, Limits, Shape, Way, shallow};
use std::alloc::Global;
use std::cmp::Ordering;
use std::sync::ledger::Ledger;
use uf_cid::Cid;
use uf_path::DagPath;
use uf_store::{Steps, Store};
use uf_tree::Name;

/// The CID to which a path leads. Each directory on it is read by `shallow`, with its own count of visits.
pub fn resolve<S: Store, L: Ledger>(
    alloc: Global,
    store: &mut S,
    path: &DagPath,
    limits: &Limits,
    touches: &mut Steps<L>,
) -> Result<Cid, DagFault>
    requires few { length path.now.names < 2 ^ 32 }
    ensures says { SaysReading (S.seen store.old) (λ held. resolve_from held limits.now 0 path.now.names path.now.cid)
        result }
    ensures good { SaysGoodReading S.X.block32 (S.seen store.old)
        (λ held. resolve_from held limits.now 0 path.now.names path.now.cid) result }
    ensures cause { ShowsDag S.X.block32 (S.seen store.old) (S.seen store.new) result }
    ensures told { (S.seen store.new).told ≡ (S.seen store.old).told }
    ensures touches { touches.new ≤ touches.old + length path.now.names * limits.now.visits }
    ensures touched { touches.old ≤ touches.new }
{
    let mut cid = path.cid;
    let names = path.names.as_slice();
    for at in 0..names.len() {
        cid = step(alloc, store, &cid, &names[at], at as u32, limits, touches)?;
    }
    Ok(cid)
}

// Where a name, which has this place in its path, leads from a directory.
fn step<S: Store, L: Ledger>(
    alloc: Global,
    store: &mut S,
    cid: &Cid,
    name: &Name,
    place: u32,
    limits: &Limits,
    touches: &mut Steps<L>,
) -> Result<Cid, DagFault>
    ensures says { SaysGoodReading S.X.block32 (S.seen store.old)
        (λ held. step_of held limits.now place name.now cid.now) result }
    ensures reads { ReadsDag S.X.block32 (S.seen store.old) (S.seen store.new) result }
    ensures touches { touches.new ≤ touches.old + limits.now.visits }
    ensures touched { touches.old ≤ touches.new }
{
    match shallow(alloc, store, cid, limits, touches)? {
        Shape::File(_) => Err(DagFault::NotADirectory(place)),
        Shape::Folder(_, ways) => match way_of(ways.as_slice(), name) {
            None => Err(DagFault::NotFound(place)),
            Some(cid) => Ok(cid),
        },
    }
}

// Where a name leads.
fn way_of(ways: &[Way], name: &Name) -> Option<Cid>
    ensures { result ≡ find names_cmp name.now ways.now }
{
    for way in ways {
        if is_same(name, &way.name) {
            return Some(way.cid);
        }
    }
    None
}

// Whether two names are one.
fn is_same(a: &Name, b: &Name) -> bool
    ensures { result ≡ eq_by_cmp names_cmp a.now b.now }
{
    match a.as_str().as_bytes().cmp(b.as_str().as_bytes()) {
        Ordering::Less => false,
        Ordering::Equal => true,
        Ordering::Greater => false,
    }
}
