//! A batch as steps of a history.
ghost use Rattle.std.specs.Prelude.{◌≡◌, ◌≢◌, ℕ, List, Some, true};
ghost use Rattle.uf_edge.specs.Host.{HostTree};
ghost use Rattle.uf_mfs.specs.Standing.{TellsAs};
ghost use Rattle.uf_command.specs.declared.status.Status.{Status as TheStatus};
ghost use Rattle.uf_command.specs.declared.status.Status.TheVariants as status;
ghost use Rattle.uf_store.specs.Keeping.{tells};
ghost use Rattle.uf_top.specs.Around.{Around};
ghost use Rattle.uf_top.specs.Batch.{Batches};
ghost use Rattle.uf_headline.specs.BatchLines.{AllCanRise};
ghost use Rattle.uf_headline.specs.BatchReplies.{NothingFails};
ghost use Rattle.uf_tree.specs.Standing.{Standing};
ghost use Rattle.uf_headline.specs.Batched.{AreCallsOf, AreOfLines, with_last};
ghost use Rattle.uf_headline.specs.Calls.{Calls};
ghost use Rattle.uf_headline.specs.History.{History, Step};

/// Take a batch over a store that stands for a tree (or has no Head, or one that isn't read) and a host that tells. It
/// is a history, where nothing of the store, the output or the host failed, no clash was met, and it doesn't run out
/// of memory. The history has a step for each line that has a word, that of the line which ended it too, each with no
/// input.
pub fn a_batch_is_a_history()
    ensures { (X : List ℕ → List ℕ) (N : List ℕ → ℕ) (host : HostTree) (most limit : ℕ) (given : TheStatus)
        (before now : Around) (standing : Standing) → (did : Batches X N most limit given before now)
        → before.host.told ≡ Some host → TellsAs X N before.store.told standing
        → NothingFails before now → given ≢ status.Memory
        → (steps : List Step) × History X N steps before.store.told now.store.told
        × AreOfLines host (with_last X N did.lines did.ending) steps }
{}

/// A batch, whatever its lines do and however it ends, over a store and a host that tell and with no count of
/// failures at its last value, is a list of calls. There is one for each line that has a word, that of the line which
/// ended it too, each with no input.
pub fn a_batch_is_a_list_of_calls()
    ensures { (X : List ℕ → List ℕ) (N : List ℕ → ℕ) (host : HostTree) (most limit : ℕ) (given : TheStatus)
        (before now : Around) → (did : Batches X N most limit given before now)
        → tells before.store.told ≡ true → before.host.told ≡ Some host → AllCanRise before
        → (steps : List Step) × Calls X N steps before.store.told now.store.told
        × AreCallsOf host (with_last X N did.lines did.ending) steps }
{}
