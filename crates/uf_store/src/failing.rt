//! Which calls of a store in memory are to fail.
ghost use Rattle.std.specs.Prelude.{◌≡◌, ◌↔◌, [], IsTrue, OnOk, OnErr};
ghost use Rattle.uf_store.specs.Failing.{IsDue, no_failures, ticked, with_failure, with_number};

use std::alloc::Global;
use uf_cid::Memory;
use uf_edge::Calls;

/// A kind of call of a store.
#[derive(Clone, Copy, PartialEq, Eq)]
pub enum CallKind {
    Load,
    Save,
    Sync,
    ReadNote,
    WriteNote,
    Sweep,
}

/// How many calls of one kind were made, and the numbers of those that are to fail, counted from 1.
#[derive(Drop)]
pub struct Failing {
    pub made: u64,
    pub numbers: Calls,
}

impl Failing {
    fn new(alloc: Global) -> Self
        ensures made { result.made ≡ 0 }
        ensures numbers { result.numbers ≡ [] }
    {
        Failing {
            made: 0,
            numbers: Calls::new(alloc),
        }
    }

    // Makes the call that comes as this number from now on fail too.
    fn add(&mut self, number: u64) -> Result<(), Memory>
        ensures ok { OnOk result (self.new ≡ with_number number self.old) }
        ensures err { OnErr result (self.new ≡ self.old) }
    {
        let at = self.made.saturating_add(number);
        self.numbers.push(at)?;
        Ok(())
    }

    /// Counts one call more: whether it is to fail.
    pub fn tick(&mut self) -> bool
        ensures due { IsTrue result ↔ IsDue self.old }
        ensures counted { self.new ≡ ticked self.old }
    {
        self.made = self.made.saturating_add(1);
        self.numbers.as_slice().contains(&self.made)
    }
}

/// The same for each kind of call.
#[derive(Drop)]
pub struct Failures {
    pub load: Failing,
    pub save: Failing,
    pub sync: Failing,
    pub read_note: Failing,
    pub write_note: Failing,
    pub sweep: Failing,
}

impl Failures {
    /// No call was made, and none is to fail.
    pub fn new(alloc: Global) -> Self
        ensures { result ≡ no_failures }
    {
        Failures {
            load: Failing::new(alloc),
            save: Failing::new(alloc),
            sync: Failing::new(alloc),
            read_note: Failing::new(alloc),
            write_note: Failing::new(alloc),
            sweep: Failing::new(alloc),
        }
    }

    /// Makes the call of this kind with this number, counted from 1 from now on, fail.
    pub fn add(&mut self, what: CallKind, number: u64) -> Result<(), Memory>
        ensures ok { OnOk result (self.new ≡ with_failure what number self.old) }
        ensures err { OnErr result (self.new ≡ self.old) }
    {
        match what {
            CallKind::Load => self.load.add(number),
            CallKind::Save => self.save.add(number),
            CallKind::Sync => self.sync.add(number),
            CallKind::ReadNote => self.read_note.add(number),
            CallKind::WriteNote => self.write_note.add(number),
            CallKind::Sweep => self.sweep.add(number),
        }
    }
}
