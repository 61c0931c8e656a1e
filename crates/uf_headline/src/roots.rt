//! The root CID as a function of the tree alone.
ghost use Rattle.std.specs.Prelude.{◌≡◌, ℕ, List};
ghost use Rattle.std.specs.declared.result.Result.{Result as TheResult};
ghost use Rattle.uf_cid.specs.Blocks.{Lookup};
ghost use Rattle.uf_cid.specs.declared.cid.Cid.{Cid};
ghost use Rattle.uf_command.specs.Dags.{tree_at};
ghost use Rattle.uf_lenient.specs.declared.fault.DagFault.{DagFault};
ghost use Rattle.uf_path.specs.declared.path.DagPath.{DagPath};
ghost use Rattle.uf_store.specs.Contents.{Told};
ghost use Rattle.uf_tree.specs.Tree.{Tree};
ghost use Rattle.uf_tree.specs.TreePlan.{entry};
ghost use Rattle.uf_tree.specs.declared.profile.Profile.{Profile};
ghost use Rattle.uf_headline.specs.History.{History, InTurn, Step};
ghost use Rattle.uf_headline.specs.Roots.{RanWell, RootsBy};

/// The root CID is a function of the tree alone: of its names, its bytes and its metadata. There is a function that
/// gives the CID of every tree, by a profile. Take any list of commands over a store that had no Head at first, each
/// as `run` says, where nothing failed, no clash was met and none was out of memory. Between them may come pulls,
/// serves, collections and checks, however these ended. After it the Head names the CID of the tree that they make,
/// byte for byte; `files stat` of a path prints first the CID of what is there. `add -n` of a host's file or folder
/// prints last the CID of the same names and bytes. A copy from a DAG of others finds a tree that is a function of the
/// blocks alone.
pub fn roots_are_of_trees_alone()
    ensures { (X : List ℕ → List ℕ) (N : List ℕ → ℕ)
        → (root : Profile → Tree → Cid) × (found : Lookup → DagPath → TheResult Tree DagFault)
        × RootsBy X N root found }
{}

/// These two functions are the CID of the tree's plan, and the tree that the blocks denote.
pub fn roots_are_those_of_plans()
    ensures { (X : List ℕ → List ℕ) (N : List ℕ → ℕ) → RootsBy X N (λ p t. (entry X N p t).cid) tree_at }
{}

/// Steps of a history, those of a batch too, are such commands.
pub fn a_history_ran_well()
    ensures { (X : List ℕ → List ℕ) (N : List ℕ → ℕ) (steps : List Step) (before now : Told)
        → History X N steps before now → InTurn X N (RanWell X N) steps before now }
{}
