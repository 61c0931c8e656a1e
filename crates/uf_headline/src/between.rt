//! What may come between the commands of a list.
ghost use Rattle.std.specs.Prelude.{◌≡◌, ◌++◌, ℕ, Bool, List, Some};
ghost use Rattle.uf_cid.specs.declared.cid.Cid.{Cid};
ghost use Rattle.uf_command.specs.declared.status.Status.{Status as TheStatus};
ghost use Rattle.uf_store.specs.Contents.{Contents, Told};
ghost use Rattle.uf_store.specs.Keeping.{Agrees};
ghost use Rattle.uf_store.specs.declared.store.Write.{Write as TheWrite};
ghost use Rattle.uf_top.specs.Around.{Around};
ghost use Rattle.uf_top.specs.Checking.{RunsCheck};
ghost use Rattle.uf_top.specs.Collecting.{RunsGc};
ghost use Rattle.uf_top.specs.Talking.{RunsPull, RunsServe};
ghost use Rattle.uf_headline.specs.Calls.{IsReopened, MeanwhileOver, NamesTree, SafelyBetween, blocks_of};
ghost use Rattle.uf_headline.specs.History.{Between};
ghost use Rattle.uf_tree.specs.Standing.{Standing};

/// Between two commands of a list, before the first and after the last there may come pulls, serves, collections and
/// checks, as `run` says of them, and so any number of these: however each ended and whatever failed, the store stands
/// for what it stood for, with the same Head.
pub fn pulls_and_collections_come_between()
    ensures none { (X : List ℕ → List ℕ) (N : List ℕ → ℕ) (before now : Told) → now ≡ before → Between X N before now }
    ensures more { (X : List ℕ → List ℕ) (N : List ℕ → ℕ) (before between now : Told)
        → Between X N before between → Between X N between now → Between X N before now }
    ensures pull { (X : List ℕ → List ℕ) (N : List ℕ → ℕ) (cid : Cid) (given : TheStatus) (before now : Around)
        → RunsPull X N cid given before now → Between X N before.store.told now.store.told }
    ensures serve { (X : List ℕ → List ℕ) (N : List ℕ → ℕ) (given : TheStatus) (before now : Around)
        → RunsServe X N given before now → Between X N before.store.told now.store.told }
    ensures collect { (X : List ℕ → List ℕ) (N : List ℕ → ℕ) (given : TheStatus) (before now : Around)
        → RunsGc X N given before now → Between X N before.store.told now.store.told }
    ensures check { (X : List ℕ → List ℕ) (N : List ℕ → ℕ) (absent : Bool) (root : Cid) (names : List (List ℕ))
        (given : TheStatus) (before now : Around)
        → RunsCheck X N absent root names given before now → Between X N before.store.told now.store.told }
{}

/// The same where a call may be stopped after any of its writes. A store that is safe for a tree stays so over these,
/// and over a pull that was stopped, once the store is opened again.
pub fn pulls_and_collections_leave_a_tree_safe()
    ensures none { (X : List ℕ → List ℕ) (N : List ℕ → ℕ) (a b : Contents) → b ≡ a → SafelyBetween X N a b }
    ensures more { (X : List ℕ → List ℕ) (N : List ℕ → ℕ) (a b c : Contents)
        → SafelyBetween X N a b → SafelyBetween X N b c → SafelyBetween X N a c }
    ensures pull { (X : List ℕ → List ℕ) (N : List ℕ → ℕ) (cid : Cid) (given : TheStatus) (before now : Around)
        (a b : Contents) → RunsPull X N cid given before now → before.store.told ≡ Some a → now.store.told ≡ Some b
        → SafelyBetween X N a b }
    ensures stopped { (X : List ℕ → List ℕ) (N : List ℕ → ℕ) (cid : Cid) (given : TheStatus) (before now : Around)
        (a b c : Contents) (made rest : List TheWrite) → RunsPull X N cid given before now
        → before.store.told ≡ Some a → now.store.told ≡ Some b → b.writes ≡ a.writes ++ made ++ rest
        → IsReopened (a.writes ++ made) c → SafelyBetween X N a c }
    ensures serve { (X : List ℕ → List ℕ) (N : List ℕ → ℕ) (given : TheStatus) (before now : Around) (a b : Contents)
        → RunsServe X N given before now → before.store.told ≡ Some a → now.store.told ≡ Some b
        → SafelyBetween X N a b }
    ensures collect { (X : List ℕ → List ℕ) (N : List ℕ → ℕ) (given : TheStatus) (before now : Around) (a b : Contents)
        → RunsGc X N given before now → before.store.told ≡ Some a → now.store.told ≡ Some b
        → SafelyBetween X N a b }
    ensures check { (X : List ℕ → List ℕ) (N : List ℕ → ℕ) (absent : Bool) (root : Cid) (names : List (List ℕ))
        (given : TheStatus) (before now : Around) (a b : Contents) → RunsCheck X N absent root names given before now
        → before.store.told ≡ Some a → now.store.told ≡ Some b → SafelyBetween X N a b }
{}

/// The same where blocks are lost: what the Head names stays named, and what is held of its blocks stays right, where
/// no CID of them gets other bytes, which would have their digest.
pub fn pulls_and_collections_come_between_losses()
    ensures none { (X : List ℕ → List ℕ) (N : List ℕ → ℕ) (standing : Standing) (a b : Contents) → b ≡ a
        → MeanwhileOver X N standing a b }
    ensures more { (X : List ℕ → List ℕ) (N : List ℕ → ℕ) (standing : Standing) (a b c : Contents)
        → MeanwhileOver X N standing a b → MeanwhileOver X N standing b c → MeanwhileOver X N standing a c }
    ensures names { (X : List ℕ → List ℕ) (N : List ℕ → ℕ) (standing : Standing) (a b : Contents)
        → MeanwhileOver X N standing a b → NamesTree X N (Some a) standing → NamesTree X N (Some b) standing }
    ensures pull { (X : List ℕ → List ℕ) (N : List ℕ → ℕ) (standing : Standing) (cid : Cid) (given : TheStatus)
        (before now : Around) (a b : Contents) → RunsPull X N cid given before now → before.store.told ≡ Some a
        → now.store.told ≡ Some b → Agrees (Some b) (blocks_of X N standing) → MeanwhileOver X N standing a b }
    ensures serve { (X : List ℕ → List ℕ) (N : List ℕ → ℕ) (standing : Standing) (given : TheStatus)
        (before now : Around) (a b : Contents) → RunsServe X N given before now → before.store.told ≡ Some a
        → now.store.told ≡ Some b → MeanwhileOver X N standing a b }
    ensures collect { (X : List ℕ → List ℕ) (N : List ℕ → ℕ) (standing : Standing) (given : TheStatus)
        (before now : Around) (a b : Contents) → RunsGc X N given before now → before.store.told ≡ Some a
        → now.store.told ≡ Some b → Agrees (Some b) (blocks_of X N standing) → MeanwhileOver X N standing a b }
    ensures check { (X : List ℕ → List ℕ) (N : List ℕ → ℕ) (standing : Standing) (absent : Bool) (root : Cid)
        (names : List (List ℕ)) (given : TheStatus) (before now : Around) (a b : Contents)
        → RunsCheck X N absent root names given before now → before.store.told ≡ Some a
        → now.store.told ≡ Some b → MeanwhileOver X N standing a b }
{}
