//! What holds of pins, of what is below roots, and of what a collection leaves.
ghost use Rattle.std.specs.Prelude.{◌≡◌, ◌∷◌, ◌++◌, ◌⊎◌, Bool, ℕ, List, Contains, Ok, Err, Some, true};
ghost use Rattle.std.specs.FinMap.{get};
ghost use Rattle.uf_cid.specs.Blocks.{Held, Holds, Lookup};
ghost use Rattle.uf_cid.specs.declared.cid.Cid.{Cid};
ghost use Rattle.uf_store.specs.Contents.{Contents, HeldMap, Notes, held_at, with_sync, with_text};
ghost use Rattle.uf_store.specs.Stops.{IsOutcome, IsPlain, IsSafe};
ghost use Rattle.uf_store.specs.declared.store.Note.TheVariants.{Pins};
ghost use Rattle.uf_store.specs.Sweeping.{is_among, swept};
ghost use Rattle.uf_tree.specs.Standing.{StandsFor};
ghost use Rattle.uf_tree.specs.Tree.{Dir, Entries};
ghost use Rattle.uf_tree.specs.TreePlan.{blocks as blocks_of};
ghost use Rattle.uf_tree.specs.declared.profile.Profile.{Profile};
ghost use Rattle.uf_walk.specs.Order.{follow_held, order};
ghost use Rattle.uf_walk.specs.Reaching.{AreDistinct};
ghost use Rattle.uf_pins.specs.Collecting.{AreAmong, IsSweepOutcome};
ghost use Rattle.uf_pins.specs.Reach.{IsReach, reach};
ghost use Rattle.uf_pins.specs.Reading.{IsNoText, IsTextOf, ReadsPins};
ghost use Rattle.uf_pins.specs.declared.fault.PinsFault.{PinsFault};
ghost use Rattle.uf_pins.specs.declared.fault.PinsFault.TheVariants as notes;

/// Where there is no fault, a CID is in the reach exactly where a chain of held blocks, each of which links the next,
/// leads to it from one of the roots. No CID comes twice.
pub fn the_reach_is_what_is_reached()
    ensures reached { (held : Lookup) (most : ℕ) (roots list : List Cid) → reach held most roots ≡ Ok list
        → IsReach (follow_held held) roots list }
    ensures distinct { (held : Lookup) (most : ℕ) (roots list : List Cid) → reach held most roots ≡ Ok list
        → AreDistinct list }
{}

/// The order below the first root is the prefix of the reach.
pub fn the_first_root_comes_first()
    ensures { (held : Lookup) (most : ℕ) (root : Cid) (roots list : List Cid)
        → reach held most (root ∷ roots) ≡ Ok list
        → (front : List Cid) × (rest : List Cid) × (order held most root ≡ Ok front) × (list ≡ front ++ rest) }
{}

/// What is safe and kept stays safe: where a store tells what was written, a note Head and some blocks survive every
/// stop, and these are among the CIDs that a sweep keeps, then every stop in its course leaves the Head and the
/// blocks, and so does every stop after it.
pub fn what_is_kept_survives_a_sweep()
    ensures during { (t : Contents) (head : List ℕ) (blocks : List Held) (kept : List Cid) (held : HeldMap)
        (notes : Notes)
        → IsSafe t head blocks → AreAmong kept blocks → IsSweepOutcome (with_sync t).writes kept held notes
        → Holds (λ cid. get held cid) blocks × (notes.head ≡ Some head) }
    ensures after { (t : Contents) (head : List ℕ) (blocks : List Held) (stays : Cid → Bool) (kept : List Cid)
        → IsSafe t head blocks → AreAmong kept blocks → ((c : Cid) → is_among kept c ≡ true → stays c ≡ true)
        → IsSafe (swept stays (with_sync t)) head blocks }
{}

/// A tree whose blocks are kept stands after a sweep as before, and after every stop in its course.
pub fn a_tree_that_is_kept_stands()
    ensures after { (X : List ℕ → List ℕ) (N : List ℕ → ℕ) (p : Profile) (es : Entries) (t : Contents)
        (stays : Cid → Bool) (kept : List Cid)
        → StandsFor X N (held_at t) t.notes.head p es → AreAmong kept (blocks_of X N p (Dir es))
        → ((c : Cid) → is_among kept c ≡ true → stays c ≡ true)
        → StandsFor X N (held_at (swept stays (with_sync t))) t.notes.head p es }
    ensures during { (X : List ℕ → List ℕ) (N : List ℕ → ℕ) (p : Profile) (es : Entries) (t : Contents)
        (head : List ℕ) (kept : List Cid) (held : HeldMap) (notes : Notes)
        → StandsFor X N (held_at t) t.notes.head p es → IsSafe t head (blocks_of X N p (Dir es))
        → AreAmong kept (blocks_of X N p (Dir es)) → IsSweepOutcome (with_sync t).writes kept held notes
        → StandsFor X N (λ cid. get held cid) notes.head p es }
{}

/// What is below a CID that was pinned survives every crash: after a sync of what a store tells and what was written,
/// each outcome holds all that was held.
pub fn what_a_pin_keeps_survives_stops()
    ensures synced { (t : Contents) (held : HeldMap) (notes : Notes) → IsPlain t
        → IsOutcome (with_sync t).writes held notes → held ≡ t.held }
    ensures noted { (t : Contents) (text : List ℕ) (held : HeldMap) (notes : Notes) → IsPlain t
        → IsOutcome (with_text Pins text (with_sync t)).writes held notes → held ≡ t.held }
{}

/// A text is that of at most one list of pins, and one that isn't read is that of none.
pub fn a_note_lists_one_list_of_pins()
    ensures refused { (bytes : List ℕ) (fault : PinsFault) → ReadsPins bytes (Err fault)
        → (fault ≡ notes.Memory) ⊎ IsNoText bytes }
    ensures one { (bytes : List ℕ) (a b : List Cid) → IsTextOf bytes a → IsTextOf bytes b → a ≡ b }
{}
