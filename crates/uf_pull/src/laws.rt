//! What holds of pulls and of the peers that answer them.
ghost use Rattle.std.specs.Prelude.{◌≡◌, ◌≤◌, ◌<◌, ◌++◌, ℕ, List, [], Ok, Err, codes, length};
ghost use Rattle.std.specs.List.{AllByRecursion};
ghost use Rattle.uf_cid.specs.Blocks.{Lookup};
ghost use Rattle.uf_cid.specs.Cid.{cid_text};
ghost use Rattle.uf_cid.specs.Read.{IsCid};
ghost use Rattle.uf_cid.specs.declared.cid.Cid.{Cid};
ghost use Rattle.uf_lines.specs.LinesIn.{HasNoFeed};
ghost use Rattle.uf_store.specs.Keeping.{AreGood};
ghost use Rattle.uf_walk.specs.Reaching.{AreDistinct};
ghost use Rattle.uf_pull.specs.Due.{due};
ghost use Rattle.uf_pull.specs.Frames.{Giving, Lacking, Stands, begins, frame_bytes, frames_by, frames_from};
ghost use Rattle.uf_pull.specs.Frames.{serve_text};
ghost use Rattle.uf_pull.specs.Laws.{AreNextAsked, NoneHeld};
ghost use Rattle.uf_pull.specs.Wants.{ask_of, asked_in, done_line, wants_text};
ghost use Rattle.uf_pull.specs.Wholes.{AsksForUnheld, EndsWell, IsHonest, holding_all, unheld};
ghost use Rattle.uf_pull.specs.declared.fault.ServeFault.TheVariants.{BadWant, TooLong};
ghost use Rattle.uf_pull.specs.declared.want.PeerAsk.TheVariants.{Want, Done};

/// Each block that is kept has its CID's digest, whatever the peer sends.
pub fn pulled_blocks_are_good()
    ensures { (hash : List ℕ → List ℕ) (most : ℕ) (root : Cid) (held : Lookup) (bytes : List ℕ)
        → AreGood hash (due hash most root held bytes).blocks }
{}

/// Each block that is asked for isn't held then, and is the root or linked by a block that is; those that were
/// answered are held from then on. So no block is asked for that was held at first, and none is asked for twice.
pub fn missing_blocks_are_asked_for_once()
    ensures linked { (hash : List ℕ → List ℕ) (most : ℕ) (root : Cid) (held : Lookup) (bytes : List ℕ)
        → AreNextAsked root held (due hash most root held bytes).wants (due hash most root held bytes).blocks }
    ensures none_held { (hash : List ℕ → List ℕ) (most : ℕ) (root : Cid) (held : Lookup) (bytes : List ℕ)
        → NoneHeld held (due hash most root held bytes).wants }
    ensures once { (hash : List ℕ → List ℕ) (most : ℕ) (root : Cid) (held : Lookup) (bytes : List ℕ)
        → AreDistinct (due hash most root held bytes).wants }
{}

/// Where a pull is whole, the order over what is held then has no fault, and exactly those of its CIDs were asked for
/// that weren't held at first, in its order.
pub fn whole_pulls_ask_for_what_was_lacking()
    ensures { (hash : List ℕ → List ℕ) (most : ℕ) (root : Cid) (held : Lookup) (bytes : List ℕ)
        → (due hash most root held bytes).ends ≡ Ok tt
        → AsksForUnheld most root held (holding_all (due hash most root held bytes).blocks held)
        (due hash most root held bytes).wants }
{}

/// Over what a peer serves that holds all blocks below the root, a pull is whole: it asks for what isn't held, in the
/// order, and uses what was served and no byte after it.
pub fn an_honest_peer_is_enough()
    ensures { (hash : List ℕ → List ℕ) (most : ℕ) (root : Cid) (held peer : Lookup) (list : List Cid) (rest : List ℕ)
        → IsHonest hash most root held peer list
        → EndsWell (due hash most root held (serve_text peer (unheld held list) ++ rest)) peer (unheld held list) }
{}

/// Frames that were written are read, whatever follows, and the others after them.
pub fn frames_are_read_again()
    ensures lacking { (c : Cid) (rest : List ℕ) → IsCid c
        → begins (frame_bytes (Lacking c) ++ rest) ≡ Stands (Lacking c) 37 }
    ensures giving { (c : Cid) (block rest : List ℕ) → IsCid c → length block ≤ 2097152
        → begins (frame_bytes (Giving c block) ++ rest)
        ≡ Stands (Giving c block) (length (frame_bytes (Giving c block))) }
    ensures next { (place : ℕ) (bytes : List ℕ)
        → frames_from place bytes ≡ frames_by frames_from place bytes (begins bytes) }
{}

/// Lines that were written are read: what a pull asks for, a peer is asked for.
pub fn lines_are_read_again()
    ensures want { (c : Cid) → IsCid c → ask_of (codes "want " ++ cid_text c) ≡ Want c }
    ensures done { ask_of (codes "done") ≡ Done }
    ensures all { (limit : ℕ) (cids : List Cid) → AllByRecursion IsCid cids
        → length (wants_text cids ++ done_line) ≤ limit
        → asked_in limit (wants_text cids ++ done_line) ≡ record { wants = cids; ends = Ok tt } }
{}

/// A line that is too long is none, where the limit has room for it; else the input is too long.
pub fn long_lines_are_told_from_long_inputs()
    ensures line { (limit : ℕ) (line rest : List ℕ) → HasNoFeed line → 4096 < length line → 4096 < limit
        → asked_in limit (line ++ rest) ≡ record { wants = []; ends = Err (BadWant 1) } }
    ensures input { (limit : ℕ) (line rest : List ℕ) → HasNoFeed line → limit < length line → limit ≤ 4096
        → asked_in limit (line ++ rest) ≡ record { wants = []; ends = Err TooLong } }
{}
