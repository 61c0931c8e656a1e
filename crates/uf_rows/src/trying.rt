//! Commands that are done again and again: with each call that may fail, after each stop, over each output and input.

use crate::words::Word;
use crate::world::{Way, World, act, act_and_tell};
use std::alloc::Global;
use std::sync::ledger::Ledger;
use uf_cid::{Block, BlockHash, Memory};
use uf_murmur::NameHash;
use uf_store::{CallKind, MemStore, Steps};
use uf_testing::{ROOMY, block_of, number_and_rest};

/// The answers of a command that is done again and again: that of now, the one before, and the one where nothing was
/// in its way.
#[derive(Drop)]
pub struct Tries {
    alloc: Global,
    now: Block,
    last: Block,
    whole: Block,
    // What it prints where nothing is in its way.
    output: Block,
}

impl Tries {
    pub fn new(alloc: Global) -> Self {
        Tries {
            alloc,
            now: Block::new(alloc),
            last: Block::new(alloc),
            whole: Block::new(alloc),
            output: Block::new(alloc),
        }
    }

    // The answer of now begins.
    fn begin(&mut self) {
        self.now = Block::new(self.alloc);
    }

    // Answers of another kind begin.
    fn begin_kind(&mut self) {
        self.last = Block::new(self.alloc);
    }

    // Whether nothing was in the way of the command.
    fn is_whole(&self) -> bool {
        self.now.as_slice() == self.whole.as_slice()
    }

    // Reports the answer of now after a line, where it isn't the one before.
    fn tell_new(&mut self, head: &str, told: &mut Block) -> Result<(), Memory> {
        if self.now.as_slice() != self.last.as_slice() {
            told.extend(head.as_bytes())?;
            told.extend(self.now.as_slice())?;
        }
        self.last = self.now.copy()?;
        Ok(())
    }

    // The same, but the line stands before the first answer alone.
    fn tell_next(&mut self, head: &str, told: &mut Block) -> Result<(), Memory> {
        let is_first = self.last.as_slice().is_empty();
        self.tell_new(if is_first { head } else { "" }, told)
    }
}

// A call that fails.
#[derive(Clone, Copy)]
enum Call {
    Store(CallKind),
    Host,
    Input,
    Output,
}

const CALLS: [(Call, &str); 9] = [
    (Call::Store(CallKind::Load), "> load fails\n"),
    (Call::Store(CallKind::Save), "> save fails\n"),
    (Call::Store(CallKind::Sync), "> sync fails\n"),
    (Call::Store(CallKind::ReadNote), "> read-note fails\n"),
    (Call::Store(CallKind::WriteNote), "> write-note fails\n"),
    (Call::Store(CallKind::Sweep), "> sweep fails\n"),
    (Call::Host, "> host fails\n"),
    (Call::Input, "> input fails\n"),
    (Call::Output, "> output fails\n"),
];

// What is in the way of a command.
#[derive(Clone, Copy)]
enum Bar {
    Nothing,
    // The call with this number fails, counted from 1.
    Fails(Call, u64),
    // No load and no save after this many.
    Within(u64),
    // The bytes for which the output has room.
    Room(usize),
    // The input ends after this many bytes.
    Front(usize),
}

// Has a call fail.
fn set_call<X: BlockHash>(world: &mut World<X>, call: Call, number: u64) -> Result<(), Memory> {
    let before = number.saturating_sub(1);
    match call {
        Call::Store(kind) => world.store.fail_at(kind, number)?,
        Call::Host => world.renew_host(Some(before))?,
        Call::Input => world.streams.input_fails = Some(before),
        Call::Output => world.streams.output_fails = Some(before),
    }
    Ok(())
}

// Puts something in the way of the next command.
fn set_bar<X: BlockHash>(world: &mut World<X>, bar: Bar) -> Result<(), Memory> {
    match bar {
        Bar::Nothing => {}
        Bar::Fails(call, number) => set_call(world, call, number)?,
        Bar::Within(most) => {
            world.store.fail_at(CallKind::Load, most.saturating_add(1))?;
            world.store.fail_at(CallKind::Save, most.saturating_add(1))?;
        }
        Bar::Room(room) => world.streams.room = room,
        Bar::Front(_) => {}
    }
    Ok(())
}

// The input of a command with this in its way.
fn input_under<X: BlockHash>(world: &World<X>, bar: Bar) -> Result<Block, Memory> {
    let input = world.input.as_slice();
    match bar {
        Bar::Front(end) => block_of(world.alloc, &input[..end.min(input.len())]),
        _ => world.input.copy(),
    }
}

// Gives a world the input, the host and the questions of another one.
fn prepare<X: BlockHash>(world: &World<X>, copy: &mut World<X>, bar: Bar) -> Result<(), Memory> {
    copy.input = input_under(world, bar)?;
    copy.planted = world.planted.copy()?;
    copy.asks = world.asks.copy()?;
    copy.renew_host(None)?;
    set_bar(copy, bar)
}

// Asks what is left, and reports the answers.
fn ask<X: BlockHash, N: NameHash, L: Ledger>(
    world: &mut World<X>,
    told: &mut Block,
    touches: &mut Steps<L>,
) -> Result<(), Memory> {
    let asks = world.asks.copy()?;
    for line in asks.as_str().lines() {
        act_and_tell::<X, N, L>(world, Way::Command, line, told, touches)?;
    }
    Ok(())
}

// Asks what a command that failed left of a copy, does it once more, and asks that again.
fn follow<X: BlockHash, N: NameHash, L: Ledger>(
    world: &World<X>,
    copy: &mut World<X>,
    words: &str,
    told: &mut Block,
    touches: &mut Steps<L>,
) -> Result<(), Memory> {
    copy.streams = ROOMY;
    ask::<X, N, L>(copy, told, touches)?;
    copy.input = world.input.copy()?;
    act_and_tell::<X, N, L>(copy, Way::Command, words, told, touches)?;
    ask::<X, N, L>(copy, told, touches)
}

fn try_over<X: BlockHash, N: NameHash, L: Ledger>(
    world: &World<X>,
    copy: &mut World<X>,
    bar: Bar,
    words: &str,
    tries: &mut Tries,
    touches: &mut Steps<L>,
) -> Result<(), Memory> {
    prepare(world, copy, bar)?;
    tries.begin();
    act::<X, N, L>(copy, Way::Command, words, touches)?;
    copy.tell(tries.output.as_slice(), &mut tries.now)?;
    match bar {
        Bar::Fails(_, _) if !tries.is_whole() => {
            follow::<X, N, L>(world, copy, words, &mut tries.now, touches)
        }
        Bar::Room(_) | Bar::Front(_) => {
            copy.streams = ROOMY;
            ask::<X, N, L>(copy, &mut tries.now, touches)
        }
        Bar::Nothing => {
            tries.whole = tries.now.copy()?;
            tries.output = block_of(world.alloc, copy.output.as_slice())?;
            Ok(())
        }
        _ => Ok(()),
    }
}

// What is done over a copy of a world: a command with this in its way, or nothing but asking.
#[derive(Clone, Copy)]
enum Doing<'a> {
    Command(Bar, &'a str),
    Asking,
}

fn do_over<X: BlockHash, N: NameHash, L: Ledger>(
    world: &World<X>,
    copy: &mut World<X>,
    doing: Doing<'_>,
    tries: &mut Tries,
    touches: &mut Steps<L>,
) -> Result<(), Memory> {
    match doing {
        Doing::Command(bar, words) => {
            try_over::<X, N, L>(world, copy, bar, words, tries, touches)
        }
        Doing::Asking => stop_over::<X, N, L>(world, copy, tries, touches),
    }
}

// Does something over a copy with this store.
fn do_with<X: BlockHash, N: NameHash, L: Ledger>(
    world: &World<X>,
    store: MemStore<X>,
    doing: Doing<'_>,
    tries: &mut Tries,
    touches: &mut Steps<L>,
) -> Result<(), Memory> {
    let mut copy = World::over(world.alloc, store);
    do_over::<X, N, L>(world, &mut copy, doing, tries, touches)
}

// Does a command with this in its way over a store that holds the same.
fn try_once<X: BlockHash, N: NameHash, L: Ledger>(
    world: &World<X>,
    bar: Bar,
    words: &str,
    tries: &mut Tries,
    touches: &mut Steps<L>,
) -> Result<(), Memory> {
    let store = world.store_copied()?;
    do_with::<X, N, L>(world, store, Doing::Command(bar, words), tries, touches)
}

// Has each call of a kind fail, until the command is done: each answer once.
fn fail_each<X: BlockHash, N: NameHash, L: Ledger>(
    world: &World<X>,
    call: (Call, &str),
    words: &str,
    tries: &mut Tries,
    told: &mut Block,
    touches: &mut Steps<L>,
) -> Result<(), Memory> {
    tries.begin_kind();
    for number in 1u64..10000 {
        try_once::<X, N, L>(world, Bar::Fails(call.0, number), words, tries, touches)?;
        if tries.is_whole() {
            return Ok(());
        }
        tries.tell_next(call.1, told)?;
    }
    told.extend(b"> and so on\n")
}

/// Has each call of each kind fail.
pub fn fail_all<X: BlockHash, N: NameHash, L: Ledger>(
    world: &World<X>,
    words: &str,
    tries: &mut Tries,
    told: &mut Block,
    touches: &mut Steps<L>,
) -> Result<(), Memory> {
    try_once::<X, N, L>(world, Bar::Nothing, words, tries, touches)?;
    tries.output = Block::new(world.alloc);
    for call in CALLS {
        fail_each::<X, N, L>(world, call, words, tries, told, touches)?;
    }
    Ok(())
}

// Reports what a command does with a number in its way, where that isn't what the number before it did.
fn try_at<X: BlockHash, N: NameHash, L: Ledger>(
    world: &World<X>,
    bar: (Bar, &str, usize),
    words: &str,
    tries: &mut Tries,
    told: &mut Block,
    touches: &mut Steps<L>,
) -> Result<(), Memory> {
    let head = format!(in world.alloc; "> {} {}\n", bar.1, bar.2)?;
    try_once::<X, N, L>(world, bar.0, words, tries, touches)?;
    tries.tell_new(head.as_str(), told)
}

// What is in the way of a command for a prefix of this length.
fn bar_of(word: Word, end: usize) -> (Bar, &'static str, usize) {
    if word == Word::Rooms {
        (Bar::Room(end), "room", end)
    } else {
        (Bar::Front(end), "front", end)
    }
}

/// Does a command over outputs with room for each prefix of what it prints, or on each prefix of its input.
pub fn try_prefixes<X: BlockHash, N: NameHash, L: Ledger>(
    world: &World<X>,
    what: (Word, &str),
    tries: &mut Tries,
    told: &mut Block,
    touches: &mut Steps<L>,
) -> Result<(), Memory> {
    let (word, words) = what;
    let mut length = world.input.as_slice().len();
    if word == Word::Rooms {
        try_once::<X, N, L>(world, Bar::Nothing, words, tries, touches)?;
        length = tries.output.as_slice().len();
    }
    for end in 0..length.saturating_add(1) {
        try_at::<X, N, L>(world, bar_of(word, end), words, tries, told, touches)?;
    }
    Ok(())
}

/// Does a command with this many loads and saves, and leaves the store as it was.
pub fn try_within<X: BlockHash, N: NameHash, L: Ledger>(
    world: &World<X>,
    rest: &str,
    tries: &mut Tries,
    told: &mut Block,
    touches: &mut Steps<L>,
) -> Result<(), Memory> {
    let (most, words) = number_and_rest(rest);
    try_once::<X, N, L>(world, Bar::Within(most), words, tries, touches)?;
    tries.tell_new("", told)
}

// What is left by a stop after this many writes.
fn stop_once<X: BlockHash, N: NameHash, L: Ledger>(
    world: &World<X>,
    at: usize,
    is_lossy: bool,
    tries: &mut Tries,
    touches: &mut Steps<L>,
) -> Result<(), Memory> {
    let store = world.store_after(at, is_lossy)?;
    do_with::<X, N, L>(world, store, Doing::Asking, tries, touches)
}

fn stop_over<X: BlockHash, N: NameHash, L: Ledger>(
    world: &World<X>,
    left: &mut World<X>,
    tries: &mut Tries,
    touches: &mut Steps<L>,
) -> Result<(), Memory> {
    left.asks = world.asks.copy()?;
    tries.begin();
    ask::<X, N, L>(left, &mut tries.now, touches)
}

/// Does a command, and reports what a stop at each of its writes leaves: each answer once.
pub fn stop_all<X: BlockHash, N: NameHash, L: Ledger>(
    world: &mut World<X>,
    words: &str,
    tries: &mut Tries,
    told: &mut Block,
    touches: &mut Steps<L>,
) -> Result<(), Memory> {
    let before = world.store.writes();
    act_and_tell::<X, N, L>(world, Way::Command, words, told, touches)?;
    tries.begin_kind();
    let first = before.min(world.store.writes());
    for at in first..world.store.writes().saturating_add(1) {
        for is_lossy in [false, true] {
            stop_once::<X, N, L>(world, at, is_lossy, tries, touches)?;
            tries.tell_new("", told)?;
        }
    }
    Ok(())
}

fn act_numbered<X: BlockHash, N: NameHash, L: Ledger>(
    world: &mut World<X>,
    words: &str,
    number: u64,
    tries: &mut Tries,
    touches: &mut Steps<L>,
) -> Result<(), Memory> {
    let line = format!(in world.alloc; "{words}{number:02}")?;
    tries.begin();
    act_and_tell::<X, N, L>(world, Way::Command, line.as_str(), &mut tries.now, touches)
}

/// Does a command with each number up to this one after it, in two digits where it has fewer: each answer once.
pub fn repeat<X: BlockHash, N: NameHash, L: Ledger>(
    world: &mut World<X>,
    rest: &str,
    tries: &mut Tries,
    told: &mut Block,
    touches: &mut Steps<L>,
) -> Result<(), Memory> {
    let (last, words) = number_and_rest(rest);
    for number in 1..last.saturating_add(1) {
        act_numbered::<X, N, L>(world, words, number, tries, touches)?;
        tries.tell_new("", told)?;
    }
    Ok(())
}
