//! A history by the replies to its commands.
ghost use Rattle.std.specs.Prelude.{ℕ, List};
ghost use Rattle.uf_mfs.specs.Standing.{TellsAs};
ghost use Rattle.uf_store.specs.Contents.{Told};
ghost use Rattle.uf_tree.specs.Standing.{Standing};
ghost use Rattle.uf_headline.specs.History.{History, Step};
ghost use Rattle.uf_headline.specs.Replies.{standing_replied};

/// A history whose commands are judged by the plain tree alone, those that a rule refuses among them. Over a store
/// that stands for a tree, or has no Head or a bad one, it leaves what the plain tree's replies to the same commands
/// make.
pub fn a_history_makes_what_its_replies_say()
    ensures { (X : List ℕ → List ℕ) (N : List ℕ → ℕ) (steps : List Step) (before now : Told) (standing : Standing)
        → TellsAs X N before standing → History X N steps before now
        → TellsAs X N now (standing_replied X N steps standing) }
{}
