//! What holds of the answers of an adoption.
ghost use Rattle.std.specs.Prelude.{◌≡◌, List, ℕ, Some};
ghost use Rattle.uf_store.specs.Calls.{Calm};
ghost use Rattle.uf_store.specs.Faults.{NoneIsBad, Shown};
ghost use Rattle.uf_store.specs.Seen.{Seen};
ghost use Rattle.uf_store.specs.declared.store.StoreFault.TheVariants.{Memory};
ghost use Rattle.uf_store.specs.declared.store.StoreFault.{StoreFault};
ghost use Rattle.uf_adopt.specs.Faults.{IsStoreFailing};

/// Where the store has not failed and no clash was met, what `adopt` answers besides what it says of the denoted tree
/// is out of memory.
pub fn a_calm_store_lacks_memory_alone()
    ensures { (X : List ℕ → List ℕ) (fault : StoreFault) (before now : Seen) → IsStoreFailing fault
        → Shown X NoneIsBad (Some fault) before now → Calm before now → fault ≡ Memory }
{}
