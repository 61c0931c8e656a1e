//! Laws of batches, line by line.
ghost use Rattle.std.specs.Prelude.{◌≡◌, ◌≢◌, ◌⊎◌, ◌+◌, ◌<◌, ◌≤◌, ◌^◌, ◌++◌, ℕ, IfSome, List, Some};
ghost use Rattle.uf_edge.specs.Counts.{Stood};
ghost use Rattle.uf_edge.specs.Host.{HostTree};
ghost use Rattle.uf_edge.specs.Streams.{after};
ghost use Rattle.uf_mfs.specs.Reading.{CanRise};
ghost use Rattle.uf_mfs.specs.Standing.{TellsAs, head_in};
ghost use Rattle.uf_command.specs.declared.status.Status.{Status as TheStatus};
ghost use Rattle.uf_command.specs.declared.status.Status.TheVariants as status;
ghost use Rattle.uf_store.specs.Contents.{Contents};
ghost use Rattle.uf_store.specs.Keeping.{KeepsGood};
ghost use Rattle.uf_store.specs.declared.store.Write.{Write as TheWrite};
ghost use Rattle.uf_tree.specs.Standing.{Standing};
ghost use Rattle.uf_tree.specs.Tree.{Entries};
ghost use Rattle.uf_tree.specs.Validity.{IsHash};
ghost use Rattle.uf_tree.specs.declared.profile.Profile.{Profile};
ghost use Rattle.uf_top.specs.Around.{Around};
ghost use Rattle.uf_top.specs.Batch.{Batches, Ending, without_input};
ghost use Rattle.uf_headline.specs.BatchLines.{BeginsSafe, MovesByLine, PassesNoneOver, StopsAtFirst, StopsInLine};
ghost use Rattle.uf_headline.specs.BatchReplies.{BatchReplied, HasHeights, NothingFails, batch_bound, batch_printed};
ghost use Rattle.uf_headline.specs.BatchReplies.{lines_printed};
ghost use Rattle.uf_headline.specs.BatchTexts.{FailsAtMostPrinting, PrintsUntil, SaidInTurn, batch_said};
ghost use Rattle.uf_top.specs.Outcomes.{IsSafeFor};

/// A batch keeps each good block, whatever its lines do and however it ends.
pub fn a_batch_keeps_good_blocks()
    ensures { (X : List ℕ → List ℕ) (N : List ℕ → ℕ) (most limit : ℕ) (given : TheStatus) (before now : Around)
        → Batches X N most limit given before now → KeepsGood X before.store.told now.store.told }
{}

/// No line of a batch changes what the host tells.
pub fn a_batch_leaves_the_host()
    ensures { (X : List ℕ → List ℕ) (N : List ℕ → ℕ) (most limit : ℕ) (given : TheStatus) (before now : Around)
        → Batches X N most limit given before now → now.host.told ≡ before.host.told }
{}

/// The Head is as before a batch, or one of its lines, whose status says that it may have moved it, left it as it is.
pub fn a_batch_moves_the_head_by_its_lines()
    ensures { (X : List ℕ → List ℕ) (N : List ℕ → ℕ) (most limit : ℕ) (given : TheStatus) (before now : Around)
        → (did : Batches X N most limit given before now)
        → (head_in now.store.told ≡ head_in before.store.told)
        ⊎ MovesByLine X N did.lines did.ending (without_input before) now.store.told }
{}

/// A batch passes no failure over: a call of the store that failed, a clash that was met, a failed reading of its
/// input or of the host, and a failed writing are its status. One exception: a line that ends the batch keeps its
/// status where that couldn't be printed.
pub fn a_batch_passes_no_failure_over()
    ensures { (X : List ℕ → List ℕ) (N : List ℕ → ℕ) (most limit : ℕ) (given : TheStatus) (before now : Around)
        → (did : Batches X N most limit given before now)
        → PassesNoneOver X N did.ending given before now }
{}

/// Over a store that stands for a tree (or has no Head, or one that isn't read), and a host that tells, a batch where
/// nothing failed and no clash was met is answered line by line. Each line that has a word is answered with the reply
/// to what it asks for, over what the line before it left, or is out of memory. Its status is printed after its text.
/// The batch ends with its input, at a line with such a status, at what is too long, or is out of memory.
pub fn a_batch_answers_line_by_line()
    ensures { (X : List ℕ → List ℕ) (N : List ℕ → ℕ) (host : HostTree) (most limit : ℕ) (given : TheStatus)
        (before now : Around) (standing : Standing)
        → (did : Batches X N most limit given before now)
        → before.host.told ≡ Some host → TellsAs X N before.store.told standing → NothingFails before now
        → Stood before.reads now.reads
        → BatchReplied X N host did.lines did.ending given standing (without_input before) did.between
        (without_input now) }
{}

/// Where a batch whose lines are answered so doesn't end for out of memory, the output has got of each line that has a
/// word the text of its reply and its status, in order, and nothing else.
pub fn a_batch_prints_its_replies()
    ensures { (X : List ℕ → List ℕ) (N : List ℕ → ℕ) (host : HostTree) (lines : List (List ℕ))
        (ending : Ending X N) (given : TheStatus) (standing : Standing) (before between now : Around)
        → (did : BatchReplied X N host lines ending given standing before between now) → given ≢ status.Memory
        → now.held ≡ after before.held (batch_printed X N host lines ending given standing before between now did) }
{}

/// Whatever becomes of the output of a batch: over a store that stands for a tree (or has no Head, or one that isn't
/// read), and a host that tells, where nothing of the store or of the host failed, no clash was met and the output's
/// count isn't at its last value, each line but the last was answered, and its text and its status were printed. Of
/// the last line the output has got a prefix of the reply's text and status, unless the batch is out of memory.
pub fn a_batch_prints_until_its_output_fails()
    ensures until { (X : List ℕ → List ℕ) (N : List ℕ → ℕ) (host : HostTree) (most limit : ℕ) (given : TheStatus)
        (before now : Around) (standing : Standing)
        → (did : Batches X N most limit given before now)
        → before.host.told ≡ Some host → TellsAs X N before.store.told standing
        → FailsAtMostPrinting before now → CanRise before.writes → given ≢ status.Memory
        → PrintsUntil X N host did.lines did.ending standing (without_input before) did.between (without_input now) }
    ensures lines { (X : List ℕ → List ℕ) (N : List ℕ → ℕ) (host : HostTree) (lines : List (List ℕ))
        (ending : Ending X N) (standing : Standing) (before between now : Around)
        → (did : PrintsUntil X N host lines ending standing before between now)
        → between.held ≡ after before.held (lines_printed X N host lines standing did.stood before between did.each) }
{}

/// Where a batch whose lines are answered so doesn't end for out of memory, `errors` has got of each line that has a
/// word the error line of its reply, which is empty at Ok, and then that the input is too long, where it is. Each went
/// whole, or in part where writing it failed.
pub fn a_batch_reports_its_refusals()
    ensures { (X : List ℕ → List ℕ) (N : List ℕ → ℕ) (host : HostTree) (lines : List (List ℕ))
        (ending : Ending X N) (given : TheStatus) (standing : Standing) (before between now : Around)
        → (did : BatchReplied X N host lines ending given standing before between now) → given ≢ status.Memory
        → SaidInTurn (batch_said X N host lines ending given standing before between now did) before.errors
        now.errors }
{}

/// A batch whose lines are answered so makes no more touches than the bounds of its lines together, each over what
/// stood where the line began, if each has one.
pub fn a_batch_keeps_within_the_sum_of_its_bounds()
    ensures { (X : List ℕ → List ℕ) (N : List ℕ → ℕ) (host : HostTree) (rows : Profile → ℕ → ℕ)
        (lines : List (List ℕ)) (ending : Ending X N) (given : TheStatus) (standing : Standing)
        (before between now : Around)
        → HasHeights rows → (did : BatchReplied X N host lines ending given standing before between now)
        → IfSome (batch_bound X N host rows lines ending given standing before between now did)
        (λ most. now.touches ≤ before.touches + most) }
{}

/// Where a batch begins over contents that are safe for a tree, the host tells, and no count is at its last value,
/// it may be stopped, whatever fails. A prefix of what was written that isn't empty ends during one of the lines. What
/// a stop after it leaves stands for the tree before that line or the tree after it; and at the end the store is safe
/// for the tree for which it then stands.
pub fn a_stop_of_a_batch_leaves_the_tree_before_or_after_a_line()
    ensures stops { (X : List ℕ → List ℕ) (N : List ℕ → ℕ) (host : HostTree) (most limit : ℕ) (given : TheStatus)
        (before now : Around) (a b : Contents) (p : Profile) (es : Entries)
        → IsHash X → ((name : List ℕ) → N name < 2 ^ 64)
        → (did : Batches X N most limit given before now)
        → BeginsSafe X N host before a p es → now.store.told ≡ Some b
        → (done rest : List TheWrite) → b.writes ≡ a.writes ++ done ++ rest
        → StopsAtFirst X N a p es (a.writes ++ done)
        ⊎ StopsInLine X N did.lines did.ending (without_input before) (a.writes ++ done) }
    ensures safe { (X : List ℕ → List ℕ) (N : List ℕ → ℕ) (host : HostTree) (most limit : ℕ) (given : TheStatus)
        (before now : Around) (a b : Contents) (p : Profile) (es : Entries)
        → IsHash X → ((name : List ℕ) → N name < 2 ^ 64)
        → (did : Batches X N most limit given before now)
        → BeginsSafe X N host before a p es → now.store.told ≡ Some b
        → (q : Profile) × (fs : Entries) × IsSafeFor X N b q fs }
{}
