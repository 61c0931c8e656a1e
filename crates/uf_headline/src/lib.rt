//! The headline: after any list of commands in which nothing fails, the root CID is that of adding the same names and
//! bytes afresh; and what calls and batches leave that fail, are stopped or meet lost blocks.
#![tactic(auto)]

pub mod batch_lines;
mod batches;
mod between;
mod failing;
mod paths;
mod replies;
mod roots;
pub mod standing;
mod steps;
pub mod stops;

ghost use Rattle.std.specs.Prelude.{◌≡◌, ◌⊎◌, ℕ, List, IsTrue};
ghost use Rattle.uf_cid.specs.declared.cid.Cid.{Cid};
ghost use Rattle.uf_mfs.specs.Standing.{TellsAs, head_in};
ghost use Rattle.uf_command.specs.Dags.{tree_at};
ghost use Rattle.uf_store.specs.Contents.{Told};
ghost use Rattle.uf_tree.specs.Standing.{IsHeadNote, Standing, Stands};
ghost use Rattle.uf_tree.specs.Tree.{Dir, Entries, is_tree};
ghost use Rattle.uf_tree.specs.TreePlan.{entry};
ghost use Rattle.uf_tree.specs.declared.profile.Profile.{Profile};
ghost use Rattle.uf_headline.specs.History.{AddsAfresh, History, IsOfVersion1, Makes, PrintsLast, Step};
ghost use Rattle.uf_headline.specs.History.{standing_after};
ghost use Rattle.uf_headline.specs.Places.{place_at};

pub use batches::{a_batch_is_a_history, a_batch_is_a_list_of_calls};
pub use between::{
    pulls_and_collections_come_between, pulls_and_collections_come_between_losses,
    pulls_and_collections_leave_a_tree_safe,
};
pub use failing::{
    what_fails_leaves_the_tree, what_is_lost_leaves_the_tree_named, what_is_stopped_is_done_or_not,
};
pub use paths::each_path_has_the_cid_of_its_tree;
pub use replies::a_history_makes_what_its_replies_say;
pub use roots::{a_history_ran_well, roots_are_of_trees_alone, roots_are_those_of_plans};
pub use steps::run_a_step;

/// Commands given in turn, each answered as `run` says, over a store that stands for a tree, or has no Head or a bad
/// one, where nothing failed, no clash was met and it wasn't out of memory. Between them may come pulls, serves,
/// collections and checks. The store then stands for what those that were done make of the plain tree.
pub fn a_history_gives_its_tree()
    ensures { (X : List ℕ → List ℕ) (N : List ℕ → ℕ) (steps : List Step) (before now : Told) (standing : Standing)
        → TellsAs X N before standing → History X N steps before now
        → TellsAs X N now (standing_after tree_at steps standing) }
{}

/// Two histories that make one tree by one profile, wherever they began and whatever came between, end with one Head,
/// byte for byte: the text of the profile and of the CID of the tree's plan. Only where one began with a Head of
/// version 1 that names this root does that Head stay.
pub fn same_names_and_bytes_have_one_root()
    ensures same { (X : List ℕ → List ℕ) (N : List ℕ → ℕ) (steps others : List Step) (a b c d : Told)
        (first other : Standing) (p : Profile) (es : Entries)
        → Makes X N steps a b first (Stands p es) → Makes X N others c d other (Stands p es)
        → (head_in b ≡ head_in d) ⊎ (IsOfVersion1 (head_in b) ⊎ IsOfVersion1 (head_in d)) }
    ensures is { (X : List ℕ → List ℕ) (N : List ℕ → ℕ) (steps : List Step) (a b : Told) (first : Standing)
        (p : Profile) (es : Entries) → Makes X N steps a b first (Stands p es)
        → IsHeadNote (head_in b) p (entry X N p (Dir es)).cid }
{}

/// A history makes a tree, and a folder of a host has the same names and bytes. Then `add -r -n` of that folder prints
/// last the CID that is in the history's Head. The store's Head has the same profile, or there is none and that
/// profile is the usual one.
pub fn a_tree_added_afresh_has_its_root()
    ensures { (X : List ℕ → List ℕ) (N : List ℕ → ℕ) (steps : List Step) (a b : Told) (first : Standing) (p : Profile)
        (es : Entries) (fresh : Step) (standing : Standing) (path : List ℕ)
        → Makes X N steps a b first (Stands p es) → AddsAfresh X N fresh standing path p (Dir es)
        → (cid : Cid) × IsHeadNote (head_in b) p cid × PrintsLast fresh path cid }
{}

/// The names, bytes and metadata at all paths determine the tree: two trees with the same folders, and the same files
/// of the same bytes, all with the same metadata, are one.
pub fn names_and_bytes_are_one_tree()
    ensures { (es fs : Entries) → IsTrue (is_tree (Dir es)) → IsTrue (is_tree (Dir fs))
        → ((names : List (List ℕ)) → place_at names es ≡ place_at names fs) → es ≡ fs }
{}
