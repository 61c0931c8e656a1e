//! The parts of a transcript, and their lines.

use crate::scene::{Call, Scene, change};
use crate::stores::{call_memory, say_made};
use std::alloc::Global;
use std::marker::PhantomData;
use std::mem;
use std::sync::ledger::Ledger;
use uf_cid::{Block, BlockHash, Memory, Sha256Hash, Sum8Hash};
use uf_store::{MemStore, Steps, StoreFault};
use uf_testing::{Parts, Sheet, Stage, play_lines, say, word_and_rest};

/// The calls that a program makes beside those of a store.
pub trait Caller {
    /// Makes the call that a word names, with what follows the word, and says what comes of it; whether the word names
    /// one of these calls.
    fn call<X: BlockHash, L: Ledger>(
        call: &mut Call<X, L>,
        word: &str,
        rest: &str,
    ) -> Result<bool, StoreFault>;
}

/// How a program plays the parts of a transcript.
pub trait Player: Caller + Sized {
    /// Plays a part over a scene in which there is nothing: each line over what the one before left.
    fn play<X: BlockHash, L: Ledger>(
        scene: &mut Scene<X>,
        title: &str,
        part: &str,
        sheet: &mut Sheet,
        touches: &mut Steps<L>,
    ) -> Result<(), Memory> {
        play_lines::<Self, Scene<X>, L>(scene, title, part, sheet, touches)
    }
}

// Makes the call of a line, of the store or of the program, and says what comes of it.
fn make<C: Caller, X: BlockHash, L: Ledger>(
    call: &mut Call<X, L>,
    line: &str,
) -> Result<(), Memory> {
    let (word, rest) = word_and_rest(line);
    let answer = match call_memory(call, line) {
        Ok(false) => C::call::<X, L>(call, word, rest),
        answer => answer,
    };
    say_made(call.alloc, &answer, call.told)
}

// What comes of several calls, one after the other: `CALL then CALL`.
fn told_of<C: Caller, X: BlockHash, L: Ledger>(
    call: &mut Call<X, L>,
    line: &str,
) -> Result<Block, Memory> {
    let before = mem::replace(call.told, Block::new(call.alloc));
    for one in line.split(" then ") {
        make::<C, X, L>(call, one)?;
    }
    Ok(mem::replace(call.told, before))
}

// Makes calls on each prefix of the input over an empty store, and reports what came of them where that isn't what
// came of the prefix before: `! fronts CALL then CALL`.
fn make_on_fronts<C: Caller, X: BlockHash, L: Ledger>(
    call: &mut Call<X, L>,
    line: &str,
) -> Result<(), Memory> {
    let alloc = call.alloc;
    let whole = call.input.copy()?;
    let mut last = Block::new(alloc);
    for end in 0..whole.as_slice().len().saturating_add(1) {
        *call.store = MemStore::new(alloc);
        *call.input = Block::from_slice(alloc, &whole.as_slice()[..end])?;
        let now = told_of::<C, X, L>(call, line)?;
        if now.as_slice() != last.as_slice() {
            let head = format!(in alloc; "> front {end}\n")?;
            call.told.extend(head.as_bytes())?;
            call.told.extend(now.as_slice())?;
        }
        last = now;
    }
    Ok(())
}

impl<C: Caller, X: BlockHash> Stage<C> for Scene<X> {
    fn step<L: Ledger>(
        &mut self,
        line: &str,
        told: &mut Block,
        touches: &mut Steps<L>,
    ) -> Result<(), Memory> {
        let (mark, rest) = word_and_rest(line);
        let (word, more) = word_and_rest(rest);
        let mut call = Call {
            alloc: self.alloc,
            store: &mut self.store,
            other: &mut self.other,
            host: &mut self.host,
            input: &mut self.input,
            told,
            touches,
        };
        match (mark, word) {
            ("$", _) => make::<C, X, L>(&mut call, rest),
            ("!", "fronts") => make_on_fronts::<C, X, L>(&mut call, more),
            ("!", _) if change(&mut call, rest)? => Ok(()),
            ("!", _) => say(call.told, "no such line"),
            _ => Ok(()),
        }
    }
}

fn play<P: Player, X: BlockHash, L: Ledger>(
    alloc: Global,
    title: &str,
    part: &str,
    sheet: &mut Sheet,
    touches: &mut Steps<L>,
) -> Result<(), Memory> {
    let mut scene = Scene::<X>::new(alloc);
    P::play::<X, L>(&mut scene, title, part, sheet, touches)
}

/// How parts are played by calls: over a scene, in which the hash of the first line names blocks.
pub struct ByCalls<P>(PhantomData<P>);

impl<P: Player> Parts for ByCalls<P> {
    fn play<L: Ledger>(
        alloc: Global,
        title: &str,
        part: &str,
        sheet: &mut Sheet,
        touches: &mut Steps<L>,
    ) -> Result<(), Memory> {
        if title.starts_with("@ sum8") {
            return play::<P, Sum8Hash, L>(alloc, title, part, sheet, touches);
        }
        play::<P, Sha256Hash, L>(alloc, title, part, sheet, touches)
    }
}
