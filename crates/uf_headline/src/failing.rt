//! Histories in which calls fail or are stopped, and in which blocks are lost.
ghost use Rattle.std.specs.Prelude.{◌≡◌, ◌<◌, ◌^◌, ℕ, List, Some};
ghost use Rattle.uf_mfs.specs.Standing.{TellsAs};
ghost use Rattle.uf_store.specs.Contents.{Contents, Told};
ghost use Rattle.uf_store.specs.Stops.{after_stop, written};
ghost use Rattle.uf_store.specs.declared.store.Write.{Write as TheWrite};
ghost use Rattle.uf_tree.specs.Standing.{Standing, Stands};
ghost use Rattle.uf_tree.specs.Tree.{Entries};
ghost use Rattle.uf_tree.specs.Validity.{IsHash};
ghost use Rattle.uf_tree.specs.declared.profile.Profile.{Profile};
ghost use Rattle.uf_headline.specs.Calls.{AllCallOver, AllHappen, AreDone, Calls, Event, IsReopened, IsSafeAs};
ghost use Rattle.uf_headline.specs.Calls.{NamesTree, SavesAgree, done_in};
ghost use Rattle.uf_headline.specs.History.{Step};
ghost use Rattle.uf_headline.specs.Replies.{standing_replied};

/// Calls one after the other, whatever they answer and whatever fails, over a store that stands for a tree, or has no
/// Head or a bad one. Between them may come pulls, serves, collections and checks. It then stands for what those of the
/// calls that were done make of the plain tree. No count of failures is at its last value before a call, since it
/// would hide one there, and a failed call could pass for one that was done.
pub fn what_fails_leaves_the_tree()
    ensures { (X : List ℕ → List ℕ) (N : List ℕ → ℕ) (steps : List Step) (before now : Told) (standing : Standing)
        → TellsAs X N before standing → Calls X N steps before now
        → TellsAs X N now (standing_replied X N (done_in steps) standing) }
{}

/// The same where blocks are lost before calls, with pulls, serves, collections and checks between them: the Head then
/// names what the calls that were done make of the tree, and what is held of its blocks is right. Nothing gives a CID
/// of the tree's blocks other bytes: these would have the digest of the block that was lost, and no store could see
/// that.
pub fn what_is_lost_leaves_the_tree_named()
    ensures { (X : List ℕ → List ℕ) (N : List ℕ → ℕ) (steps : List Step) (before now : Contents) (p : Profile)
        (es : Entries) → NamesTree X N (Some before) (Stands p es)
        → AllCallOver X N steps (Stands p es) before now
        → NamesTree X N (Some now) (standing_replied X N (done_in steps) (Stands p es)) }
{}

/// Calls one after the other, of which any may fail, or be stopped after any of its writes, over a store that is
/// safe for a tree, as it is after `init`. Between them may come pulls, serves, collections and checks. It is then safe
/// for what those that were done make of the tree. One that was stopped was done, or has left the tree as it was. The
/// store tells what was written to it: a stop may take any block that was saved after the last sync, so of a tree whose
/// blocks no sync has made durable nothing can be said.
pub fn what_is_stopped_is_done_or_not()
    ensures { (X : List ℕ → List ℕ) (N : List ℕ → ℕ) (events : List Event) (before now : Contents) (p : Profile)
        (es : Entries) → IsHash X → ((name : List ℕ) → N name < 2 ^ 64) → IsSafeAs X N before (Stands p es)
        → AllHappen X N events before now
        → (steps : List Step) × AreDone events steps × IsSafeAs X N now (standing_replied X N steps (Stands p es)) }
{}

/// What the store's own words say that a stop leaves is the writes that survive and one sync. That is a store that is
/// opened again as the law above has it, where the saves of one CID gave it the same bytes.
pub fn what_a_stop_leaves_is_opened()
    ensures { (lost : List ℕ) (writes : List TheWrite) → SavesAgree writes
        → IsReopened writes (written (after_stop lost writes)) }
{}
