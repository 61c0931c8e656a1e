//! The CID of each file and directory after a history.
ghost use Rattle.std.specs.Prelude.{◌≡◌, ℕ, List, Ok};
ghost use Rattle.uf_cid.specs.declared.cid.Cid.{Cid};
ghost use Rattle.uf_path.specs.declared.path.Path.{Path as ThePath};
ghost use Rattle.uf_plain.specs.Edits.{at};
ghost use Rattle.uf_store.specs.Contents.{Told};
ghost use Rattle.uf_tree.specs.Standing.{Standing, Stands};
ghost use Rattle.uf_tree.specs.Tree.{Dir, Entries, Tree};
ghost use Rattle.uf_tree.specs.TreePlan.{entry};
ghost use Rattle.uf_tree.specs.declared.profile.Profile.{Profile};
ghost use Rattle.uf_headline.specs.History.{AddsAfresh, Makes, PrintsFirst, PrintsLast, StatsAt, Step};

/// After a history, `files stat` of a path prints first the CID of importing what is below it afresh: that of the plan
/// of the file or folder that the same commands make at this path of the plain tree. `add -n` of a host's file or
/// folder with the same names and bytes prints it last, by the same profile.
pub fn each_path_has_the_cid_of_its_tree()
    ensures plan { (X : List ℕ → List ℕ) (N : List ℕ → ℕ) (steps : List Step) (a b : Told) (first : Standing)
        (p : Profile) (es : Entries) (stat : Step) (path : ThePath) (t : Tree)
        → Makes X N steps a b first (Stands p es) → at 0 path.names (Dir es) ≡ Ok t → StatsAt X N b stat path
        → PrintsFirst stat (entry X N p t).cid }
    ensures afresh { (X : List ℕ → List ℕ) (N : List ℕ → ℕ) (steps : List Step) (a b : Told) (first : Standing)
        (p : Profile) (es : Entries) (stat : Step) (path : ThePath) (t : Tree) (fresh : Step) (standing : Standing)
        (host_path : List ℕ)
        → Makes X N steps a b first (Stands p es) → at 0 path.names (Dir es) ≡ Ok t → StatsAt X N b stat path
        → AddsAfresh X N fresh standing host_path p t
        → (cid : Cid) × PrintsFirst stat cid × PrintsLast fresh host_path cid }
{}
