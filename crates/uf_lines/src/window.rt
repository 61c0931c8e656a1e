//! Bytes of a source in a buffer.
ghost use Rattle.std.specs.Prelude.{◌≡◌, ◌<◌, ◌≤◌, ◌+◌, ◌-◌, [], drop, length, take, vec_len, IfOk, OnOk};
ghost use Rattle.uf_edge.specs.Counts.{Counts};
ghost use Rattle.uf_edge.specs.Streams.{Reads, is_read_fault};

use std::alloc::Global;
use uf_cid::Memory;
use uf_edge::{Read, Source};

// The bytes of a source that were read and not yet used. The buffer grows as far as the bytes want it.
#[derive(Drop)]
pub struct SourceBuffer {
    buffer: Vec<u8>,
    from: usize,
    to: usize,
    ghost in_order: { from ≤ to },
    ghost in_range: { to ≤ vec_len buffer },
}

impl SourceBuffer {
    ghost use Rattle.uf_lines.specs.Windows.{ReadsBehind, in_window, is_failed};

    // No bytes yet.
    pub fn new(alloc: Global) -> SourceBuffer
        ensures { in_window result ≡ [] }
    {
        SourceBuffer {
            buffer: Vec::new(alloc),
            from: 0,
            to: 0,
        }
    }

    // The bytes that were read and not yet used.
    pub fn bytes(&self) -> &[u8]
        ensures { result.now ≡ in_window self.now }
    {
        &self.buffer[self.from..self.to]
    }

    // Uses the first bytes.
    pub fn consume(&mut self, count: usize)
        requires { count ≤ length (in_window self.old) }
        ensures { in_window self.new ≡ drop count (in_window self.old) }
    {
        self.from += count;
    }

    // Reads once at most `count` bytes, after those that are there, which are at most `most`.
    pub fn read<I: Source>(
        &mut self,
        input: &mut I,
        count: u64,
        most: usize,
    ) -> Result<Read, Memory>
        requires some { 0 < count }
        requires few { length (in_window self.old) ≤ most }
        ensures bytes { ReadsBehind count result (in_window self.old) (in_window self.new) (I.left input.old)
            (I.left input.new) }
        ensures counts { Counts (is_failed result) (I.faults input.old) (I.faults input.new) }
    {
        self.make_room(most)?;
        let room = (self.buffer.len() - self.to) as u64;
        let end = self.to + room.min(count) as usize;
        match read_between(input, &mut self.buffer, self.to, end) {
            Read::Got(got) => {
                self.to += got;
                Ok(Read::Got(got))
            }
            Read::End => Ok(Read::End),
            Read::Failed => Ok(Read::Failed),
        }
    }

    // Makes room for one more byte at least, after at most `most` that are there.
    fn make_room(&mut self, most: usize) -> Result<(), Memory>
        requires { length (in_window self.old) ≤ most }
        ensures keeps { in_window self.new ≡ in_window self.old }
        ensures room { OnOk result (self.new.to < vec_len self.new.buffer) }
    {
        if self.to < self.buffer.len() {
            return Ok(());
        }
        self.to_front();
        if self.to < self.buffer.len() {
            return Ok(());
        }
        let size = (self.buffer.len() * 2).max(65536);
        self.grow(size.min(most.saturating_add(65536)))
    }

    // Moves the bytes to the start.
    fn to_front(&mut self)
        ensures keeps { in_window self.new ≡ in_window self.old }
        ensures front { self.new.from ≡ 0 }
        ensures size { vec_len self.new.buffer ≡ vec_len self.old.buffer }
    {
        let length = self.to - self.from;
        self.buffer.copy_within(self.from..self.to, 0);
        self.from = 0;
        self.to = length;
    }

    // Gives the buffer n bytes, where it has fewer.
    fn grow(&mut self, size: usize) -> Result<(), Memory>
        requires { vec_len self.old.buffer ≤ size }
        ensures keeps { in_window self.new ≡ in_window self.old }
        ensures to { self.new.to ≡ self.old.to }
        ensures size { OnOk result (vec_len self.new.buffer ≡ size) }
    {
        self.buffer.resize(size, 0)?;
        Ok(())
    }
}

// Reads once into a part of a buffer.
fn read_between<I: Source>(input: &mut I, buffer: &mut Vec<u8>, from: usize, to: usize) -> Read
    requires some { from < to }
    requires fits { to ≤ vec_len buffer.old }
    ensures len { vec_len buffer.new ≡ vec_len buffer.old }
    ensures front { take from buffer.new.items ≡ take from buffer.old.items }
    ensures bytes { Reads result (take (to - from) (drop from buffer.new.items)) (I.left input.old)
        (I.left input.new) }
    ensures counts { Counts (is_read_fault result) (I.faults input.old) (I.faults input.new) }
{
    input.read(&mut buffer[from..to])
}
