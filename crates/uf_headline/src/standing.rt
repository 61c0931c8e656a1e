//! Laws of stores that stand for a tree, and of the heights of its files.
ghost use Rattle.std.specs.Prelude.{◌≡◌, ℕ, IsTrue, List, true};
ghost use Rattle.std.specs.declared.result.Result.{Result};
ghost use Rattle.std.specs.declared.result.Result.TheVariants.{Ok};
ghost use Rattle.uf_mfs.specs.Reading.{AreHeights};
ghost use Rattle.uf_mfs.specs.Standing.{NamesOver, TellsAs, head_in};
ghost use Rattle.uf_command.specs.Natures.{only_reads};
ghost use Rattle.uf_command.specs.declared.status.Status.{Status as TheStatus};
ghost use Rattle.uf_command.specs.declared.types.Command.{Command};
ghost use Rattle.uf_command.specs.declared.types.Refusal.{Refusal};
ghost use Rattle.uf_store.specs.Contents.{Told};
ghost use Rattle.uf_store.specs.Keeping.{KeepsGood};
ghost use Rattle.uf_tree.specs.Profiles.{is_profile};
ghost use Rattle.uf_tree.specs.Standing.{Standing, Stands};
ghost use Rattle.uf_tree.specs.Tree.{Entries};
ghost use Rattle.uf_tree.specs.declared.profile.Profile.{Profile};
ghost use Rattle.uf_top.specs.Around.{Around};
ghost use Rattle.uf_top.specs.Naming.{StaysNamed};
ghost use Rattle.uf_top.specs.Running.{Runs};

/// Every command keeps each good block, whatever it answers and whatever fails, and one whose row says that it writes
/// nothing leaves all that the store tells as it was. Both follow from what it may write (`left.writes`).
pub fn a_command_keeps_good_blocks()
    ensures good { (X : List ℕ → List ℕ) (N : List ℕ → ℕ) (asked : Result Command Refusal) (given : TheStatus)
        (before now : Around) → Runs X N asked given before now → KeepsGood X before.store.told now.store.told }
    ensures told { (X : List ℕ → List ℕ) (N : List ℕ → ℕ) (command : Command) (given : TheStatus)
        (before now : Around) → Runs X N (Ok command) given before now → only_reads command ≡ true
        → now.store.told ≡ before.store.told }
{}

/// A store that stands for a tree names it, and does so throughout a call that keeps good blocks, as each command
/// does.
pub fn what_stands_is_named()
    ensures first { (X : List ℕ → List ℕ) (N : List ℕ → ℕ) (told : Told) (p : Profile) (es : Entries)
        → TellsAs X N told (Stands p es) → NamesOver X N told p es }
    ensures throughout { (X : List ℕ → List ℕ) (N : List ℕ → ℕ) (a b : Told) (p : Profile) (es : Entries)
        → TellsAs X N a (Stands p es) → KeepsGood X a b → StaysNamed X N a b p es }
{}

/// Files of every length have a height, so what `run` says by heights of files is said of some.
pub fn files_have_heights()
    ensures { (p : Profile) → IsTrue (is_profile p) → (rows : ℕ → ℕ) × AreHeights p rows }
{}

/// What a store stands for stays where good blocks are kept and the Head is as before: so of each command that is
/// refused, whatever failed, but for `add --to-files` of which only the output failed, which leaves the new tree.
pub fn what_stands_stays()
    ensures { (X : List ℕ → List ℕ) (N : List ℕ → ℕ) (a b : Told) (standing : Standing) → TellsAs X N a standing
        → KeepsGood X a b → head_in b ≡ head_in a → TellsAs X N b standing }
{}
