//! The lines of a source.
ghost use Rattle.std.specs.Prelude.{◌≡◌, ◌≤◌, ◌+◌, [], Contains, Some, drop, length, take};
ghost use Rattle.uf_edge.specs.Counts.{Counts};
ghost use Rattle.uf_lines.specs.LinesIn.{HasNoFeed};
ghost use Rattle.uf_lines.specs.Windows.{in_window};

use crate::window::SourceBuffer;
use memchr::memchr;
use std::alloc::Global;
use uf_edge::{Read, Source};

/// The answer of `next`.
#[derive(Clone, Copy, Debug, PartialEq, Eq)]
pub enum Line {
    /// A line came, or what stood after the last one where the source ended.
    Given,
    /// The source has ended, and all of its lines were given.
    End,
    /// The next line, or the whole input, is too long.
    TooLong,
    /// The source failed.
    Failed,
    Memory,
}

/// The lines of a source, each of at most n bytes, within its first bytes up to a limit.
#[derive(Drop)]
pub struct Lines {
    window: SourceBuffer,
    // The line that was given last is at the prefix of the window, and with its LF it is n bytes.
    given: usize,
    used: usize,
    // After it n bytes have no LF.
    seen: usize,
    room: u64,
    most: usize,
    ended: bool,
    ghost in_front: { given ≤ used },
    ghost in_range: { used + seen ≤ length (in_window window) },
    ghost searched: { HasNoFeed (take seen (drop used (in_window window))) },
}

impl Lines {
    ghost use Rattle.uf_edge.specs.Streams.{Told};
    ghost use Rattle.uf_lines.specs.Reading.{AnswersNext, HasEnded, IsShorter, TakesFew, bytes_ahead, is_failed_line};
    ghost use Rattle.uf_lines.specs.Reading.{line_given, line_most, line_room};
    ghost use Rattle.uf_lines.specs.Seeking.{Goes, IsAsBefore, IsPassed, Leads, Looks, NeedsMore, StandsAtFeed, Stops};
    ghost use Rattle.uf_lines.specs.Seeking.{is_fault};

    /// The lines of a source that nothing was read of.
    pub fn new(alloc: Global, most: usize, limit: u64) -> Lines
        ensures bytes { bytes_ahead result ≡ [] }
        ensures room { line_room result ≡ limit }
        ensures most { line_most result ≡ most }
        ensures ended { (left : Told) → HasEnded result left }
    {
        Lines {
            window: SourceBuffer::new(alloc),
            given: 0,
            used: 0,
            seen: 0,
            room: limit,
            most,
            ended: false,
        }
    }

    /// The line that was given last, without its LF.
    pub fn line(&self) -> &[u8]
        ensures { result.now ≡ line_given self.now }
    {
        &self.window.bytes()[..self.given]
    }

    /// Gives the next line. No byte is read where it is there already.
    pub fn next<I: Source>(&mut self, input: &mut I) -> Line
        requires { HasEnded self.old (I.left input.old) }
        ensures answer { AnswersNext result self.old self.new (I.left input.old) (I.left input.new) }
        ensures most { line_most self.new ≡ line_most self.old }
        ensures ended { HasEnded self.new (I.left input.new) }
        ensures few { TakesFew self.old self.new (I.left input.old) (I.left input.new) }
        ensures waits { Contains (bytes_ahead self.old) 10 → input.new ≡ input.old }
        ensures shorter { IsShorter result self.old self.new }
        ensures counts { Counts (is_failed_line result) (I.faults input.old) (I.faults input.new) }
    {
        self.pass();
        loop {
            if let Some(line) = self.look() {
                return line;
            }
            if let Some(line) = self.read_more(input) {
                return line;
            }
        }
    }

    // Passes over the line that was given last.
    fn pass(&mut self)
        ensures { IsPassed self.old self.new }
    {
        self.window.consume(self.used);
        self.given = 0;
        self.used = 0;
    }

    // What the bytes that are there say, if they do.
    fn look(&mut self) -> Option<Line>
        requires { self.old.used ≡ 0 }
        ensures { Looks result self.old self.new }
    {
        if self.seek() {
            Some(self.at_feed())
        } else {
            self.at_rest()
        }
    }

    // What LF after the bytes that were searched says.
    fn at_feed(&mut self) -> Line
        requires passed { self.old.used ≡ 0 }
        requires stands { StandsAtFeed self.old }
        ensures { Looks (Some result) self.old self.new }
    {
        if self.seen > self.most || self.seen as u64 >= self.room {
            return Line::TooLong;
        }
        self.give(self.seen + 1);
        Line::Given
    }

    // What bytes without LF say, if they do.
    fn at_rest(&mut self) -> Option<Line>
        requires passed { self.old.used ≡ 0 }
        requires stands { self.old.seen ≡ length (bytes_ahead self.old) }
        ensures { Looks result self.old self.new }
    {
        if self.seen > self.most || self.seen as u64 > self.room {
            return Some(Line::TooLong);
        }
        if !self.ended {
            return None;
        }
        if self.seen == 0 {
            return Some(Line::End);
        }
        self.give(self.seen);
        Some(Line::Given)
    }

    // Searches on for LF, and says whether it has come.
    fn seek(&mut self) -> bool
        requires { self.old.used ≡ 0 }
        ensures same { IsAsBefore self.old self.new }
        ensures stops { Stops result self.new }
    {
        let bytes = self.window.bytes();
        match memchr(b'\n', &bytes[self.seen..]) {
            Some(count) => {
                self.seen += count;
                true
            }
            None => {
                self.seen = bytes.len();
                false
            }
        }
    }

    // Gives the bytes that were searched as a line. With its LF it is n bytes.
    fn give(&mut self, used: usize)
        requires front { self.old.seen ≤ used }
        requires fits { used ≤ length (bytes_ahead self.old) }
        requires few { used ≤ self.old.room }
        requires passed { self.old.used ≡ 0 }
        ensures { Goes used self.old self.new }
    {
        self.given = self.seen;
        self.used = used;
        self.seen = 0;
        self.room -= used as u64;
    }

    // Reads once after the bytes that are there. The answer comes where that failed.
    fn read_more<I: Source>(&mut self, input: &mut I) -> Option<Line>
        requires { NeedsMore self.old }
        ensures reads { Leads result self.old self.new (I.left input.old) (I.left input.new) }
        ensures counts { Counts (is_fault result) (I.faults input.old) (I.faults input.new) }
    {
        let there = self.window.bytes().len() as u64;
        let count = (self.room - there).saturating_add(1);
        match self.window.read(input, count, self.most) {
            Ok(Read::Got(_)) => None,
            Ok(Read::End) => {
                self.ended = true;
                None
            }
            Ok(Read::Failed) => Some(Line::Failed),
            Err(_) => Some(Line::Memory),
        }
    }
}
