//! Laws by which equal roots mean equal trees.
ghost use Rattle.std.specs.Prelude.{◌≡◌, ◌<◌, ◌^◌, ◌++◌, ◌⊎◌, ℕ, List, Option, None, IsTrue};
ghost use Rattle.uf_cid.specs.Blocks.{Lookup, Holds};
ghost use Rattle.uf_laws.specs.Clashes.{HasClash};
ghost use Rattle.uf_tree.specs.declared.profile.Profile.{Profile};
ghost use Rattle.uf_tree.specs.Profiles.{is_profile};
ghost use Rattle.uf_tree.specs.Standing.{Standing, StandsFor, StandsAs};
ghost use Rattle.uf_tree.specs.Tree.{Tree, Entries, is_tree};
ghost use Rattle.uf_tree.specs.TreePlan.{entry, blocks, refusal};
ghost use Rattle.uf_tree.specs.Validity.{IsHash};

/// Two trees that have plans, even if by two profiles, and whose blocks are all held in one place are one tree where
/// their roots have one CID. Blocks that clash elsewhere don't matter: one CID has one block there.
pub fn equal_roots_mean_equal_trees()
    ensures { (X : List ℕ → List ℕ) (N : List ℕ → ℕ) (p q : Profile) (held : Lookup) (t u : Tree) → IsHash X
        → ((name : List ℕ) → N name < 2 ^ 64) → IsTrue (is_profile p) → IsTrue (is_profile q)
        → IsTrue (is_tree t) → IsTrue (is_tree u) → refusal X N p t ≡ None → refusal X N q u ≡ None
        → Holds held (blocks X N p t) → Holds held (blocks X N q u)
        → (entry X N p t).cid ≡ (entry X N q u).cid → t ≡ u }
{}

/// Two trees that have plans, even if by two profiles, and whose roots have one CID are one tree, or two of their
/// blocks are different and have one digest.
pub fn equal_roots_mean_equal_trees_or_a_clash()
    ensures { (X : List ℕ → List ℕ) (N : List ℕ → ℕ) (p q : Profile) (t u : Tree) → IsHash X
        → ((name : List ℕ) → N name < 2 ^ 64) → IsTrue (is_profile p) → IsTrue (is_profile q)
        → IsTrue (is_tree t) → IsTrue (is_tree u) → refusal X N p t ≡ None → refusal X N q u ≡ None
        → (entry X N p t).cid ≡ (entry X N q u).cid
        → (t ≡ u) ⊎ HasClash X (blocks X N p t ++ blocks X N q u) }
{}

/// What is held and the Head stand for at most one profile and tree, and in at most one of the three ways: with no
/// Head, with one that isn't read, or for a tree.
pub fn a_store_stands_for_one_tree()
    ensures tree { (X : List ℕ → List ℕ) (N : List ℕ → ℕ) (held : Lookup) (head : Option (List ℕ)) (p q : Profile)
        (es fs : Entries) → IsHash X → ((name : List ℕ) → N name < 2 ^ 64)
        → StandsFor X N held head p es → StandsFor X N held head q fs → (p ≡ q) × (es ≡ fs) }
    ensures standing { (X : List ℕ → List ℕ) (N : List ℕ → ℕ) (held : Lookup) (head : Option (List ℕ)) (s r : Standing)
        → IsHash X → ((name : List ℕ) → N name < 2 ^ 64)
        → StandsAs X N held head s → StandsAs X N held head r → s ≡ r }
{}
