//! Rows of the order that the definitions decide.
ghost use Rattle.std.specs.Prelude.{◌≡◌, [], ◌∷◌, Ok, Err};
ghost use Rattle.uf_walk.specs.Order.{Missing, NotDagPb, OverMost, order};
ghost use Rattle.uf_walk.specs.Vectors.{broken, falling, leaf_named, node_named, only_raw, shared};

/// A block below two others comes once, at its first visit.
pub fn shared_blocks_come_once()
    ensures whole { order shared 6 (node_named 1)
        ≡ Ok (node_named 1 ∷ node_named 3 ∷ leaf_named 9 ∷ leaf_named 7 ∷ node_named 2 ∷ leaf_named 8 ∷ []) }
    ensures few { order shared 5 (node_named 1) ≡ Err OverMost }
    ensures below { order shared 6 (node_named 2)
        ≡ Ok (node_named 2 ∷ leaf_named 8 ∷ node_named 3 ∷ leaf_named 9 ∷ leaf_named 7 ∷ []) }
{}

/// Links are followed in the order in which they stand; a raw block has none.
pub fn links_are_followed_from_left_to_right()
    ensures right { order falling 9 (node_named 1) ≡ Ok (node_named 1 ∷ leaf_named 3 ∷ leaf_named 2 ∷ []) }
    ensures raw { order only_raw 9 (leaf_named 1) ≡ Ok (leaf_named 1 ∷ []) }
{}

/// The first fault in the order decides: a CID too many, before a block that isn't held, before one that is no node.
pub fn faults_come_in_order()
    ensures missing { order broken 9 (node_named 1) ≡ Err (Missing (leaf_named 9)) }
    ensures no_node { order broken 9 (node_named 3) ≡ Err (NotDagPb (node_named 3) 1) }
    ensures many { order broken 2 (node_named 1) ≡ Err OverMost }
    ensures none { order broken 0 (node_named 7) ≡ Err OverMost }
    ensures root { order broken 1 (node_named 7) ≡ Err (Missing (node_named 7)) }
{}
