//! A CAR of one root read into a store.
ghost use Rattle.std.specs.Prelude.{◌≡◌, IfErr, List, Some, ℕ};
ghost use Rattle.uf_edge.specs.Counts.{Counts};
ghost use Rattle.uf_store.specs.Faults.{NoneIsBad, Shown};
ghost use Rattle.uf_store.specs.Writing.{SavesOnly};
ghost use Rattle.uf_car.specs.Reading.{car_read};
ghost use Rattle.uf_light.specs.Answers.{is_light_read, light_fault, one_root};
ghost use Rattle.uf_light.specs.Opening.{IsOfCar, OpensCar};

use crate::LightFault;
use std::alloc::Global;
use std::sync::ledger::Ledger;
use uf_car::{CarFault, import};
use uf_cid::{Cid, Cids};
use uf_edge::Source;
use uf_store::{Steps, Store};

// Reads a CAR of this root alone into a store that holds nothing.
pub fn open<S: Store, I: Source, L: Ledger>(
    alloc: Global,
    store: &mut S,
    root: &Cid,
    input: &mut I,
    limit: u64,
    touches: &mut Steps<L>,
) -> Result<(), LightFault>
    ensures opens { (bytes : List ℕ) → I.left input.old ≡ Some bytes
        → OpensCar S.X.block32 root.now (car_read S.X.block32 limit bytes) result
        (S.seen store.old) (S.seen store.new) }
    ensures cause { Shown S.X.block32 NoneIsBad (light_fault result) (S.seen store.old) (S.seen store.new) }
    ensures saves { SavesOnly S.X.block32 (S.seen store.old).told (S.seen store.new).told }
    ensures form { IfErr result IsOfCar }
    ensures counts { Counts (is_light_read result) (I.faults input.old) (I.faults input.new) }
{
    let imported = import(alloc, store, input, limit, touches)?;
    let found = only_root(&imported.roots)?;
    if found == *root {
        Ok(())
    } else {
        Err(LightFault::OtherRoot(found))
    }
}

// The one root of a CAR.
fn only_root(roots: &Cids) -> Result<Cid, LightFault>
    ensures { result ≡ one_root roots.now }
{
    match roots.as_slice() {
        [root] => Ok(*root),
        others => Err(LightFault::Car(CarFault::TooManyRoots(others.len() as u64))),
    }
}
