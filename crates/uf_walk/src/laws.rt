//! What holds of the order of a walk.
ghost use Rattle.std.specs.Prelude.{◌≡◌, ◌≤◌, ◌++◌, ℕ, List, Ok, length};
ghost use Rattle.uf_cid.specs.Blocks.{Lookup};
ghost use Rattle.uf_cid.specs.declared.cid.Cid.{Cid};
ghost use Rattle.uf_walk.specs.Order.{Follow, Whole, follow_held, order};
ghost use Rattle.uf_walk.specs.Reaching.{AreDistinct, IsWhatIsReached};
ghost use Rattle.uf_walk.specs.Walked.{Walked, course};

/// Where there is no fault, a CID is in the order exactly where a chain of held blocks, each of which links the next,
/// leads to it from the root. No CID comes twice, and there are at most as many as may be.
pub fn the_order_is_what_is_reached()
    ensures reached { (held : Lookup) (most : ℕ) (root : Cid) (list : List Cid) → order held most root ≡ Ok list
        → IsWhatIsReached (follow_held held) root list }
    ensures distinct { (held : Lookup) (most : ℕ) (root : Cid) (list : List Cid) → order held most root ≡ Ok list
        → AreDistinct list }
    ensures few { (held : Lookup) (most : ℕ) (root : Cid) (list : List Cid) → order held most root ≡ Ok list
        → length list ≤ most }
{}

/// What a walk has handed out is the prefix of the whole order.
pub fn what_was_handed_out_comes_first()
    ensures { (follow : Follow) (w : Walked) (list : List Cid) → course follow w ≡ Whole list
        → (rest : List Cid) × (list ≡ w.handed ++ rest) }
{}
