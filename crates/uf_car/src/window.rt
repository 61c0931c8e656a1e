//! Bytes of a source in a buffer, no more than a limit in all.
ghost use Rattle.std.specs.Prelude.{◌≡◌, ◌<◌, ◌≤◌, ◌+◌, [], drop, length, take, vec_len, IfOk, IfErr, OnOk};
ghost use Rattle.uf_edge.specs.Counts.{Counts};
ghost use Rattle.uf_edge.specs.Streams.{Reads, is_read_fault};

use crate::CarFault;
use std::alloc::Global;
use uf_cid::{Memory, zeros};
use uf_edge::{Read, Source};

// How many bytes of a source are kept where a section is longer than the first buffer: the longest section, and 64
// KiB.
const MOST_BUFFERED: usize = 2162733;

// Whether a source may give more.
#[derive(Clone, Copy, PartialEq, Eq)]
pub enum Supply {
    Open,
    // It has ended.
    Ended,
    // It has given more than the limit.
    Over,
}

// Whether as many bytes are there as were wanted.
#[derive(Clone, Copy)]
pub enum Fill {
    Enough,
    Short,
}

// The bytes of a source that were read and not yet used, and how many more may be read. The buffer grows once, where a
// section wants more than it has, and then takes any section.
#[derive(Drop)]
pub struct Window {
    buffer: Vec<u8>,
    from: usize,
    to: usize,
    room: u64,
    supply: Supply,
    ghost in_order: { from ≤ to },
    ghost in_range: { to ≤ vec_len buffer },
}

impl Window {
    ghost use Rattle.uf_car.specs.Importing.{IsStop, is_source_fault};
    ghost use Rattle.uf_car.specs.Windows.{ComesTo, FillsTo, HasEnough, KeepsAhead, KeepsBytes, Progress, TakesIn};
    ghost use Rattle.uf_car.specs.Windows.{is_over_at, window_bytes};
    ghost use Rattle.uf_car.specs.declared.window.Supply.TheVariants as supply;

    // No bytes yet, of at most `limit`.
    pub fn new(alloc: Global, limit: u64) -> Result<Window, Memory>
        ensures bytes { IfOk result (λ w. window_bytes w ≡ []) }
        ensures room { IfOk result (λ w. w.room ≡ limit) }
        ensures supply { IfOk result (λ w. w.supply ≡ supply.Open) }
    {
        let buffer = zeros(alloc, 65536)?;
        Ok(Window {
            buffer,
            from: 0,
            to: 0,
            room: limit,
            supply: Supply::Open,
        })
    }

    // The bytes that were read and not yet used.
    pub fn bytes(&self) -> &[u8]
        ensures { result.now ≡ window_bytes self.now }
    {
        &self.buffer[self.from..self.to]
    }

    // Whether there were more bytes than may be read.
    pub fn is_over(&self) -> bool
        ensures { result ≡ is_over_at self.now.supply }
    {
        self.supply == Supply::Over
    }

    // Uses the first bytes.
    pub fn consume(&mut self, count: usize)
        requires { count ≤ length (window_bytes self.old) }
        ensures bytes { window_bytes self.new ≡ drop count (window_bytes self.old) }
        ensures room { self.new.room ≡ self.old.room }
        ensures supply { self.new.supply ≡ self.old.supply }
    {
        self.from += count;
    }

    // Reads until n bytes are there, or the source has ended or given more than it may.
    pub fn fill_to<I: Source>(&mut self, input: &mut I, count: usize) -> Result<Fill, CarFault>
        requires few { count ≤ 2097197 }
        requires ended { ComesTo self.old.supply (I.left input.old) }
        ensures answer { IfOk result (λ fill. FillsTo fill count self.new) }
        ensures stop { IfErr result IsStop }
        ensures ended { ComesTo self.new.supply (I.left input.new) }
        ensures ahead { KeepsAhead self.old self.new (I.left input.old) (I.left input.new) }
        ensures counts { Counts (is_source_fault result) (I.faults input.old) (I.faults input.new) }
    {
        self.make_room(count)?;
        while self.to - self.from < count {
            if self.supply != Supply::Open {
                return Ok(Fill::Short);
            }
            self.read_more(input)?;
        }
        Ok(Fill::Enough)
    }

    // Reads until n bytes are there or no more come.
    pub fn look_ahead<I: Source>(&mut self, input: &mut I, count: usize) -> Result<(), CarFault>
        requires few { count ≤ 2097197 }
        requires ended { ComesTo self.old.supply (I.left input.old) }
        ensures settled { OnOk result (HasEnough count self.new) }
        ensures stop { IfErr result IsStop }
        ensures ended { ComesTo self.new.supply (I.left input.new) }
        ensures ahead { KeepsAhead self.old self.new (I.left input.old) (I.left input.new) }
        ensures counts { Counts (is_source_fault result) (I.faults input.old) (I.faults input.new) }
    {
        match self.fill_to(input, count)? {
            Fill::Enough => Ok(()),
            Fill::Short => Ok(()),
        }
    }

    // Reads once after the bytes that are there.
    fn read_more<I: Source>(&mut self, input: &mut I) -> Result<(), CarFault>
        requires open { self.old.supply ≡ supply.Open }
        requires place { self.old.to < vec_len self.old.buffer }
        ensures from { self.new.from ≡ self.old.from }
        ensures size { vec_len self.new.buffer ≡ vec_len self.old.buffer }
        ensures ended { ComesTo self.new.supply (I.left input.new) }
        ensures ahead { KeepsAhead self.old self.new (I.left input.old) (I.left input.new) }
        ensures progress { OnOk result (Progress self.old self.new) }
        ensures stop { IfErr result IsStop }
        ensures counts { Counts (is_source_fault result) (I.faults input.old) (I.faults input.new) }
    {
        match read_behind(input, &mut self.buffer, self.to) {
            Read::Got(got) => {
                self.take(got);
                Ok(())
            }
            Read::End => {
                self.supply = Supply::Ended;
                Ok(())
            }
            Read::Failed => Err(CarFault::Read),
        }
    }

    // Takes bytes that were read after those that are there, as many as may be.
    fn take(&mut self, got: usize)
        requires fits { self.old.to + got ≤ vec_len self.old.buffer }
        requires some { 0 < got }
        ensures { TakesIn got self.old self.new }
    {
        if got as u64 > self.room {
            self.to += self.room as usize;
            self.room = 0;
            self.supply = Supply::Over;
        } else {
            self.to += got;
            self.room -= got as u64;
        }
    }

    // Makes room for n bytes, and for more after them.
    fn make_room(&mut self, count: usize) -> Result<(), Memory>
        requires { count ≤ 2097197 }
        ensures keeps { KeepsBytes self.old self.new }
        ensures fits { OnOk result (self.new.from + count < vec_len self.new.buffer) }
    {
        if self.from + count < self.buffer.len() {
            return Ok(());
        }
        self.to_front();
        if count < self.buffer.len() {
            return Ok(());
        }
        self.grow(MOST_BUFFERED)
    }

    // Moves the bytes to the start.
    fn to_front(&mut self)
        ensures keeps { KeepsBytes self.old self.new }
        ensures front { self.new.from ≡ 0 }
        ensures size { vec_len self.new.buffer ≡ vec_len self.old.buffer }
    {
        let length = self.to - self.from;
        self.buffer.copy_within(self.from..self.to, 0);
        self.from = 0;
        self.to = length;
    }

    // Gives the buffer n bytes, where it has fewer.
    fn grow(&mut self, size: usize) -> Result<(), Memory>
        requires { vec_len self.old.buffer ≤ size }
        ensures keeps { KeepsBytes self.old self.new }
        ensures from { self.new.from ≡ self.old.from }
        ensures size { OnOk result (vec_len self.new.buffer ≡ size) }
    {
        self.buffer.resize(size, 0)?;
        Ok(())
    }
}

// Reads once after the first bytes of a buffer.
fn read_behind<I: Source>(input: &mut I, buffer: &mut Vec<u8>, front: usize) -> Read
    requires { front < vec_len buffer.old }
    ensures len { vec_len buffer.new ≡ vec_len buffer.old }
    ensures front { take front buffer.new.items ≡ take front buffer.old.items }
    ensures bytes { Reads result (drop front buffer.new.items) (I.left input.old) (I.left input.new) }
    ensures counts { Counts (is_read_fault result) (I.faults input.old) (I.faults input.new) }
{
    input.read(&mut buffer[front..])
}
