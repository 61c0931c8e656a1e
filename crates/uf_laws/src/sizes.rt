//! Laws of the Tsizes of directories.
ghost use Rattle.std.specs.Prelude.{◌≡◌, ◌<◌, ◌≤◌, ◌^◌, ℕ, List, Option, Some, None};
ghost use Rattle.std.specs.FinMap.Entries.{find};
ghost use Rattle.uf_tree.specs.declared.meta.Meta.{Meta};
ghost use Rattle.uf_tree.specs.declared.nodes.Entry.{Entry};
ghost use Rattle.uf_tree.specs.declared.profile.Profile.{Profile};
ghost use Rattle.uf_tree.specs.Changes.{with_name, without};
ghost use Rattle.uf_tree.specs.DirPlan.{own_plan};
ghost use Rattle.uf_tree.specs.Names.{names_cmp};
ghost use Rattle.uf_tree.specs.Nodes.{Named};
ghost use Rattle.uf_tree.specs.TreePlan.{dir_refusal};
ghost use Rattle.uf_tree.specs.Validity.{IsHash, IsEntry, IsDirectory};

/// A directory that has a plan still has one after a name is taken away, and its Tsize is then less.
pub fn a_removal_leaves_a_plan()
    ensures plan { (X : List ℕ → List ℕ) (N : List ℕ → ℕ) (p : Profile) (m : Meta) (name : List ℕ) (old : Entry)
        (l : List Named) → IsHash X → ((name : List ℕ) → N name < 2 ^ 64) → IsDirectory l
        → find names_cmp name l ≡ Some old → dir_refusal X N p m l ≡ None
        → dir_refusal X N p m (without name l) ≡ None }
    ensures smaller { (X : List ℕ → List ℕ) (N : List ℕ → ℕ) (p : Profile) (m : Meta) (name : List ℕ) (old : Entry)
        (l : List Named) → IsHash X → ((name : List ℕ) → N name < 2 ^ 64) → IsDirectory l
        → find names_cmp name l ≡ Some old → dir_refusal X N p m l ≡ None
        → (own_plan X N p m (without name l)).entry.tsize < (own_plan X N p m l).entry.tsize }
{}

/// A directory that has a plan still has one after what a name names is replaced by an entry of no greater Tsize, and
/// its Tsize is then no greater.
pub fn a_replacement_leaves_a_plan()
    ensures plan { (X : List ℕ → List ℕ) (N : List ℕ → ℕ) (p : Profile) (m : Meta) (name : List ℕ) (old e : Entry)
        (l : List Named) → IsHash X → IsDirectory l → find names_cmp name l ≡ Some old
        → IsEntry e → e.tsize ≤ old.tsize → dir_refusal X N p m l ≡ None
        → dir_refusal X N p m (with_name name e l) ≡ None }
    ensures no_greater { (X : List ℕ → List ℕ) (N : List ℕ → ℕ) (p : Profile) (m : Meta) (name : List ℕ)
        (old e : Entry) (l : List Named) → IsHash X → IsDirectory l → find names_cmp name l ≡ Some old
        → IsEntry e → e.tsize ≤ old.tsize → (own_plan X N p m (with_name name e l)).entry.tsize
        ≤ (own_plan X N p m l).entry.tsize }
{}
