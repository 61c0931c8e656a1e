//! Laws of what calls over a store leave, on which the layers above stand.
ghost use Rattle.std.specs.Prelude.{◌≡◌, ℕ, List, [], ◌∷◌, ◌++◌};
ghost use Rattle.std.specs.declared.result.Result.{Result};
ghost use Rattle.uf_cid.specs.Blocks.{Held};
ghost use Rattle.uf_store.specs.declared.store.StoreFault.{StoreFault};
ghost use Rattle.uf_store.specs.Among.{AreAmong, SavesAmong};
ghost use Rattle.uf_store.specs.CallsWrite.{CallsWrite};
ghost use Rattle.uf_store.specs.Contents.{Told};
ghost use Rattle.uf_store.specs.Faults.{Answers, NoneIsBad, StaysCalm};
ghost use Rattle.uf_store.specs.InMemory.{new_seen};
ghost use Rattle.uf_store.specs.Keeping.{Agrees, AreGood, Holds, KeepsGood, StaysAgreed};
ghost use Rattle.uf_store.specs.Seen.{KeepsHeld, Seen};
ghost use Rattle.uf_store.specs.Stops.{TellsPlain};
ghost use Rattle.uf_store.specs.Writing.{SavesOnly, WritesOnly};

/// What a new store in memory tells is what was written, and whatever is written keeps that.
pub fn what_is_told_was_written()
    ensures at_first { TellsPlain new_seen.told }
    ensures kept { (hash : List ℕ → List ℕ) (a b : Told) → TellsPlain a → WritesOnly hash a b → TellsPlain b }
{}

/// What each call of a store writes.
pub fn calls_write_what_they_say()
    ensures { (hash : List ℕ → List ℕ) (before now : Seen) → CallsWrite hash before now }
{}

/// What calls in a row write is what each of them writes, and one that changes nothing writes nothing.
pub fn what_is_written_goes_on()
    ensures nothing { (hash : List ℕ → List ℕ) (a : Told) → SavesOnly hash a a }
    ensures saves { (hash : List ℕ → List ℕ) (a b c : Told) → SavesOnly hash a b → SavesOnly hash b c
        → SavesOnly hash a c }
    ensures writes { (hash : List ℕ → List ℕ) (a b c : Told) → WritesOnly hash a b → WritesOnly hash b c
        → WritesOnly hash a c }
    ensures wider { (hash : List ℕ → List ℕ) (a b : Told) → SavesOnly hash a b → WritesOnly hash a b }
{}

/// What calls in a row save is among the blocks of them all, and what is among some blocks is among more; a call that
/// keeps a block saves that one alone, and a call that changes nothing saves none.
pub fn saves_go_on_among_blocks()
    ensures nothing { (hash : List ℕ → List ℕ) (blocks : List Held) (a : Told) → SavesAmong hash blocks a a }
    ensures one { (hash : List ℕ → List ℕ) (block : Held) (before now : Seen) → hash block.1 ≡ block.0.digest
        → KeepsHeld hash block before now → SavesAmong hash (block ∷ []) before.told now.told }
    ensures in_a_row { (hash : List ℕ → List ℕ) (few more : List Held) (a b c : Told)
        → SavesAmong hash few a b → SavesAmong hash more b c → SavesAmong hash (few ++ more) a c }
    ensures more { (hash : List ℕ → List ℕ) (few many : List Held) (a b : Told)
        → AreAmong few many → SavesAmong hash few a b → SavesAmong hash many a b }
    ensures only { (hash : List ℕ → List ℕ) (blocks : List Held) (a b : Told)
        → SavesAmong hash blocks a b → SavesOnly hash a b }
{}

/// No save replaces a block that has its CID's digest, so good blocks that are held stay held.
pub fn good_blocks_stay_held()
    ensures kept { (hash : List ℕ → List ℕ) (a b : Told) → WritesOnly hash a b → KeepsGood hash a b }
    ensures goes_on { (hash : List ℕ → List ℕ) (a b c : Told) → KeepsGood hash a b → KeepsGood hash b c
        → KeepsGood hash a c }
    ensures held { (hash : List ℕ → List ℕ) (a b : Told) (blocks : List Held) → AreGood hash blocks
        → KeepsGood hash a b → Holds a blocks → Holds b blocks }
{}

/// A store that agrees with blocks before calls and after them does so between the calls too: none of them gave one of
/// their CIDs other bytes.
pub fn agreement_lasts()
    ensures { (hash : List ℕ → List ℕ) (a b c : Told) (blocks : List Held) → WritesOnly hash a b → WritesOnly hash b c
        → StaysAgreed a c blocks → Agrees b blocks }
{}

/// A fault shows its cause from an earlier moment on too, where the store has stayed calm until then.
pub fn causes_go_back()
    ensures { (hash : List ℕ → List ℕ) (answer : Result ℕ StoreFault) (a b c : Seen)
        → StaysCalm a b → Answers hash NoneIsBad answer b c → Answers hash NoneIsBad answer a c }
{}
