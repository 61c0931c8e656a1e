//! What holds of what compares as equal.
ghost use Rattle.std.specs.Prelude.{◌≡◌, ◌≢◌, ◌<◌, ◌^◌, ℕ, Err, IsTrue, List, None, Ok};
ghost use Rattle.uf_cid.specs.Blocks.{Holds, Lookup};
ghost use Rattle.uf_cid.specs.declared.cid.Cid.{Cid};
ghost use Rattle.uf_tree.specs.declared.profile.Profile.{Profile};
ghost use Rattle.uf_tree.specs.Profiles.{is_profile};
ghost use Rattle.uf_tree.specs.Tree.{Tree, is_tree};
ghost use Rattle.uf_tree.specs.TreePlan.{blocks, entry, refusal};
ghost use Rattle.uf_tree.specs.Validity.{IsHash};
ghost use Rattle.uf_lenient.specs.declared.shapes.Limits.{Limits};
ghost use Rattle.uf_lenient.specs.Leading.{block_cids};
ghost use Rattle.uf_lenient.specs.Reading.{denotes, file_of, resolve_from, shallow_of};
ghost use Rattle.uf_walk.specs.Order.{OverMost, order};
ghost use Rattle.uf_same.specs.Alike.{AreAlike};
ghost use Rattle.uf_same.specs.OneTree.{FindsOneTree};
ghost use Rattle.uf_same.specs.PlanOrder.{OrdersJust};
ghost use Rattle.uf_same.specs.Verdict.{verdict};
ghost use Rattle.uf_same.specs.declared.answer.Compared.TheVariants as compared;

/// What is held in two places and compares as equal below two CIDs has one first-visit order in both, and one block
/// under each CID of it.
pub fn equal_means_the_same_blocks()
    ensures { (left right : Lookup) (most : ℕ) (a b : Cid) → verdict left right most a b ≡ Ok compared.Equal
        → AreAlike left right most a }
{}

/// What is held in two places and compares as equal below two CIDs is read alike: it denotes one tree in both, or each
/// reading has one fault, within whatever limits.
pub fn equal_means_the_same_readings()
    ensures tree { (left right : Lookup) (most : ℕ) (a b : Cid) (limits : Limits)
        → verdict left right most a b ≡ Ok compared.Equal → denotes left limits a ≡ denotes right limits a }
    ensures shape { (left right : Lookup) (most : ℕ) (a b : Cid) (limits : Limits)
        → verdict left right most a b ≡ Ok compared.Equal → shallow_of left limits a ≡ shallow_of right limits a }
    ensures file { (left right : Lookup) (most : ℕ) (a b : Cid) (limits : Limits)
        → verdict left right most a b ≡ Ok compared.Equal → file_of left limits a ≡ file_of right limits a }
    ensures path { (left right : Lookup) (most : ℕ) (a b : Cid) (limits : Limits) (place : ℕ) (names : List (List ℕ))
        → verdict left right most a b ≡ Ok compared.Equal
        → resolve_from left limits place names a ≡ resolve_from right limits place names a }
{}

/// One place holds the plan of a tree and another one that of a tree, even if by another profile, and both roots have
/// one CID. Then the comparison finds that the trees are one, or shows two blocks that clash. Nothing is missing, and
/// each block is read. The order below the root is no longer than it may be.
pub fn equal_roots_compare_as_one_tree()
    ensures { (X : List ℕ → List ℕ) (N : List ℕ → ℕ) (p q : Profile) (t u : Tree) (left right : Lookup) (most : ℕ)
        → IsHash X → ((name : List ℕ) → N name < 2 ^ 64) → IsTrue (is_profile p) → IsTrue (is_profile q)
        → IsTrue (is_tree t) → IsTrue (is_tree u) → refusal X N p t ≡ None → refusal X N q u ≡ None
        → Holds left (blocks X N p t) → Holds right (blocks X N q u) → (entry X N p t).cid ≡ (entry X N q u).cid
        → order left most (entry X N p t).cid ≢ Err OverMost
        → FindsOneTree X t u (verdict left right most (entry X N p t).cid (entry X N q u).cid) }
{}

/// Where the blocks of a tree's plan are held, the order below its root is of just their CIDs, unless it is longer
/// than it may be: nothing is missing, and each block is read.
pub fn the_order_of_a_plan_is_its_blocks()
    ensures { (X : List ℕ → List ℕ) (N : List ℕ → ℕ) (p : Profile) (t : Tree) (held : Lookup) (most : ℕ)
        → IsHash X → ((name : List ℕ) → N name < 2 ^ 64) → IsTrue (is_profile p) → IsTrue (is_tree t)
        → refusal X N p t ≡ None → Holds held (blocks X N p t)
        → OrdersJust (block_cids (blocks X N p t)) (order held most (entry X N p t).cid) }
{}
