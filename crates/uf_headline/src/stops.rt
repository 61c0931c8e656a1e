//! Laws of what a stop during a command leaves, by what the command writes.
ghost use Rattle.std.specs.Prelude.{◌≡◌, ◌<◌, ◌^◌, ℕ, Bool, List, None, Ok, Some, false};
ghost use Rattle.std.specs.declared.option.Option.{Option};
ghost use Rattle.std.specs.declared.result.Result.{Result};
ghost use Rattle.uf_car.specs.Reading.{car_read};
ghost use Rattle.uf_cid.specs.declared.cid.Cid.{Cid};
ghost use Rattle.uf_mfs.specs.Reading.{CanRise};
ghost use Rattle.uf_mfs.specs.Standing.{Commits};
ghost use Rattle.uf_store.specs.Contents.{Contents};
ghost use Rattle.uf_store.specs.Stops.{IsPlain};
ghost use Rattle.uf_tree.specs.Tree.{Entries};
ghost use Rattle.uf_tree.specs.Validity.{IsHash};
ghost use Rattle.uf_tree.specs.declared.profile.Profile.{Profile};
ghost use Rattle.uf_command.specs.Cars.{most_car};
ghost use Rattle.uf_command.specs.Natures.{MakesHead};
ghost use Rattle.uf_command.specs.declared.status.Status.{Status as TheStatus};
ghost use Rattle.uf_command.specs.declared.status.Status.TheVariants as status;
ghost use Rattle.uf_command.specs.declared.types.Command.{Command};
ghost use Rattle.uf_command.specs.declared.types.Command.TheVariants as commands;
ghost use Rattle.uf_command.specs.declared.types.Adding.TheVariants as adding;
ghost use Rattle.uf_command.specs.declared.types.Refusal.{Refusal};
ghost use Rattle.uf_headline.specs.Added.{EachHolds, KeepsHosted, KeepsInput};
ghost use Rattle.uf_headline.specs.Spared.{KeepsAgain, LeavesBelow, LeavesKept};
ghost use Rattle.uf_top.specs.Around.{Around, CountsCanRise};
ghost use Rattle.uf_top.specs.Collecting.{EachSweepOutcome, kept_in};
ghost use Rattle.uf_top.specs.Outcomes.{EachOutcome, EachStop, IsSafeFor, LeavesEither, LeavesNoneOr, LeavesTree};
ghost use Rattle.uf_top.specs.Running.{Runs};
ghost use Rattle.uf_top.specs.Shapes.{HeadAfter, WritesAs, WritesFor};
ghost use Rattle.uf_top.specs.Talking.{RunsPull};

/// What any stop leaves of a store that is safe for a tree stands for that tree.
pub fn what_is_safe_survives_stops()
    ensures { (X : List ℕ → List ℕ) (N : List ℕ → ℕ) (t : Contents) (p : Profile) (es : Entries) → IsSafeFor X N t p es
        → EachOutcome (LeavesTree X N p es) t.writes }
{}

/// A store is safe for a tree, a command has written what `run` says that it writes, and the store then stands for a
/// tree, even if that is the same. So it does where only the output of an `add --to-files` failed. Then the store is
/// safe for the tree after, and a stop after any of these writes leaves the tree before or the tree after. The same of
/// a `commit` alone.
pub fn a_stop_leaves_the_tree_before_or_after()
    ensures commit { (X : List ℕ → List ℕ) (N : List ℕ → ℕ) (r : Profile) (root : Cid) (a b : Contents) (p q : Profile)
        (es fs : Entries) → IsHash X → ((name : List ℕ) → N name < 2 ^ 64)
        → IsSafeFor X N a p es → Commits r root (Some a) (Some b) → LeavesTree X N q fs b.held b.notes
        → IsSafeFor X N b q fs × EachStop (LeavesEither X N p es q fs) a b }
    ensures command { (X : List ℕ → List ℕ) (N : List ℕ → ℕ) (asked : Result Command Refusal) (done : Bool)
        (a b : Contents) (p q : Profile) (es fs : Entries) → IsHash X → ((name : List ℕ) → N name < 2 ^ 64)
        → IsSafeFor X N a p es → WritesFor X asked done (Some a) (Some b) → LeavesTree X N q fs b.held b.notes
        → IsSafeFor X N b q fs × EachStop (LeavesEither X N p es q fs) a b }
{}

/// Where a store tells what was written and has no Head, a stop after any write of an `init` leaves no Head or the
/// tree for which the store stands after it. Where the Head was written, the store is safe for that tree.
pub fn a_stop_of_init_leaves_no_head_or_its_tree()
    ensures stops { (X : List ℕ → List ℕ) (N : List ℕ → ℕ) (done : Bool) (a b : Contents) (p : Profile) (es : Entries)
        → IsPlain a → a.notes.head ≡ None → WritesAs X MakesHead done (Some a) (Some b)
        → LeavesNoneOr X N p es b.held b.notes → EachStop (LeavesNoneOr X N p es) a b }
    ensures safe { (X : List ℕ → List ℕ) (N : List ℕ → ℕ) (a b : Contents) (p : Profile) (es : Entries)
        → IsPlain a → a.notes.head ≡ None → HeadAfter X (Some a) (Some b)
        → LeavesTree X N p es b.held b.notes → IsSafeFor X N b p es }
{}

/// Where a store tells what was written, whatever its Head, each block of what an `add` that was done says in its rows
/// is held whatever a stop leaves. These are the blocks of the file of its input, and of the tree that the host has.
pub fn a_stop_after_add_leaves_its_blocks()
    ensures input { (X : List ℕ → List ℕ) (N : List ℕ → ℕ) (before now : Around) (a b : Contents)
        → Runs X N (Ok (commands.Add (adding.Input false))) status.Ok before now
        → before.store.told ≡ Some a → now.store.told ≡ Some b → IsPlain a → KeepsInput X before now a b }
    ensures host { (X : List ℕ → List ℕ) (N : List ℕ → ℕ) (recursive : Bool) (path : List ℕ) (before now : Around)
        (a b : Contents) → Runs X N (Ok (commands.Add (adding.Host recursive false path))) status.Ok before now
        → before.store.told ≡ Some a → now.store.told ≡ Some b → IsPlain a
        → KeepsHosted X N recursive path before now a b }
{}

/// Where a store tells what was written, whatever its Head, each block of the sections of a CAR that `dag import` has
/// read to its end is held whatever a stop leaves. No count may be at its last value.
pub fn a_stop_after_an_import_leaves_its_blocks()
    ensures { (X : List ℕ → List ℕ) (N : List ℕ → ℕ) (before now : Around) (a b : Contents) (bytes : List ℕ)
        → Runs X N (Ok commands.Import) status.Ok before now
        → before.store.told ≡ Some a → now.store.told ≡ Some b → IsPlain a → before.left ≡ Some bytes
        → CountsCanRise before.store → CanRise before.reads → CanRise before.writes
        → EachHolds (car_read X most_car bytes).sections b.writes }
{}

/// Where a store is safe for a tree, each stop in the course of a collection's sweep, which keeps what the notes lead
/// to, leaves the tree. Each stop before the sweep does so too, and after the sweep the store is safe for it again.
pub fn a_stop_of_a_collection_leaves_the_tree()
    ensures { (X : List ℕ → List ℕ) (N : List ℕ → ℕ) (t : Contents) (listed : Option (List Cid)) (list : List Cid)
        (p : Profile) (es : Entries) → IsHash X → ((name : List ℕ) → N name < 2 ^ 64)
        → IsSafeFor X N t p es → kept_in t listed ≡ Ok list → EachSweepOutcome (LeavesTree X N p es) list t }
{}

/// Where a store tells what was written, whatever its Head and whether its tree is whole, each stop in the course of a
/// sweep that keeps some CIDs leaves both notes, and under each of these CIDs what was held there: a collection syncs
/// first. So where a collection keeps what the notes lead to, all that is below a pin was held, and is held after such
/// a stop; and the next collection keeps the same.
pub fn a_stop_of_a_collection_leaves_what_is_kept()
    ensures kept { (t : Contents) (kept : List Cid) → IsPlain t → EachSweepOutcome (LeavesKept t kept) kept t }
    ensures pins { (t : Contents) (pins list : List Cid) → IsPlain t → kept_in t (Some pins) ≡ Ok list
        → EachSweepOutcome (LeavesBelow t pins) list t }
    ensures again { (t : Contents) (pins list : List Cid) → IsPlain t → kept_in t (Some pins) ≡ Ok list
        → EachSweepOutcome (KeepsAgain pins list) list t }
{}

/// Where a store is safe for a tree, each stop after any of the writes of a pull leaves the tree, and after the pull
/// the store is safe for it again, however it ended.
pub fn a_stop_of_a_pull_leaves_the_tree()
    ensures safe { (X : List ℕ → List ℕ) (N : List ℕ → ℕ) (cid : Cid) (given : TheStatus) (before now : Around)
        (a b : Contents) (p : Profile) (es : Entries) → RunsPull X N cid given before now
        → before.store.told ≡ Some a → now.store.told ≡ Some b → IsSafeFor X N a p es → IsSafeFor X N b p es }
    ensures stops { (X : List ℕ → List ℕ) (N : List ℕ → ℕ) (cid : Cid) (given : TheStatus) (before now : Around)
        (a b : Contents) (p : Profile) (es : Entries) → RunsPull X N cid given before now
        → before.store.told ≡ Some a → now.store.told ≡ Some b → IsSafeFor X N a p es
        → EachStop (LeavesTree X N p es) a b }
{}
