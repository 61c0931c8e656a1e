//! Frames received from a peer.
ghost use Rattle.std.specs.Prelude.{◌≡◌, ◌≤◌, ◌<◌, ◌+◌, ◌-◌, ◌^◌, ◌++◌, ℕ, List, Some, length, take, vec_len};
ghost use Rattle.std.specs.Prelude.{IfOk, IfErr, IfSome, OnOk};
ghost use Rattle.uf_edge.specs.Counts.{Counts};
ghost use Rattle.uf_edge.specs.Streams.{Fills, is_fill_fault};
ghost use Rattle.uf_pull.specs.Reading.{bytes_between};

use crate::PullFault;
use crate::frame::{FrameFront, LEAST, front_at, size_at};
use crate::peer::Peer;
use std::alloc::Global;
use uf_cid::{BlockHash, Cid, Memory, zeros};
use uf_edge::{Filled, Source, fill};

// The most frames that may be dropped.
const MOST_DROPPED: u32 = 1024;

impl Peer {
    ghost use Rattle.uf_pull.specs.Due.{answer_to};
    ghost use Rattle.uf_pull.specs.Frames.{frames_from};
    ghost use Rattle.uf_pull.specs.Reading.{AnswersBy, CountsFrame, DropsFrame, FindsBlock, FitsFront, IsInPlace};
    ghost use Rattle.uf_pull.specs.Reading.{IsOfPeer};
    ghost use Rattle.uf_pull.specs.Reading.{KeepsCounts, ReadsFront, StepsBy, StopsReading, is_pull_read};

    // A peer that gave nothing yet.
    pub fn new(alloc: Global) -> Result<Peer, Memory>
        ensures place { IfOk result (λ p. p.place ≡ 0) }
        ensures more { IfOk result (λ p. p.more ≡ 1024) }
        ensures added { IfOk result (λ p. p.added ≡ 0) }
    {
        let buffer = zeros(alloc, 65536)?;
        Ok(Peer {
            alloc,
            buffer,
            place: 0,
            more: MOST_DROPPED,
            added: 0,
        })
    }

    // The bytes in the buffer from one place up to another.
    pub fn bytes(&self, found: (usize, usize)) -> &[u8]
        requires order { found.0 ≤ found.1 }
        requires fits { found.1 ≤ vec_len self.now.buffer }
        ensures { result.now ≡ bytes_between found.0 found.1 self.now.buffer.items }
    {
        &self.buffer[found.0..found.1]
    }

    // Reads frames until one gives the block of a CID, and says where it stands in the buffer. No byte after that
    // frame is read.
    pub fn answer<X: BlockHash, I: Source>(
        &mut self,
        input: &mut I,
        cid: &Cid,
    ) -> Result<(usize, usize), PullFault>
        requires place { IsInPlace self.old }
        requires few { self.old.added < 2 ^ 32 - 1 }
        ensures answers { (bytes : List ℕ) → I.left input.old ≡ Some bytes
            → AnswersBy (answer_to X.block32 cid.now self.old.more (frames_from self.old.place bytes)) result
            self.old.place bytes self.new (I.left input.new) }
        ensures finds { IfOk result (λ found. FindsBlock X.block32 cid.now found self.new) }
        ensures added { OnOk result (self.new.added ≡ self.old.added + 1) }
        ensures place { OnOk result (IsInPlace self.new) }
        ensures fault { IfErr result IsOfPeer }
        ensures counts { Counts (is_pull_read result) (I.faults input.old) (I.faults input.new) }
    {
        'rest: loop {
            if let Some(found) = self.step::<X, I>(input, cid)? {
                self.added += 1;
                return Ok(found);
            }
        }
    }

    // Reads one frame: the block of a CID, or None where it is dropped.
    fn step<X: BlockHash, I: Source>(
        &mut self,
        input: &mut I,
        cid: &Cid,
    ) -> Result<Option<(usize, usize)>, PullFault>
        requires place { IsInPlace self.old }
        requires few { self.old.added < 2 ^ 32 - 1 }
        ensures steps { (bytes : List ℕ) → I.left input.old ≡ Some bytes
            → StepsBy X.block32 cid.now (answer_to X.block32 cid.now self.old.more (frames_from self.old.place bytes))
            result self.old.place bytes self.new (I.left input.new) }
        ensures finds { IfOk result (λ f. IfSome f (λ found. FindsBlock X.block32 cid.now found self.new)) }
        ensures counted { IfOk result (λ f. CountsFrame f self.old self.new) }
        ensures fault { IfErr result IsOfPeer }
        ensures counts { Counts (is_pull_read result) (I.faults input.old) (I.faults input.new) }
    {
        match self.read_front(input)? {
            FrameFront::Cut => Err(PullFault::Ended(*cid)),
            FrameFront::Wrong => Err(PullFault::Bad(self.place)),
            FrameFront::Lacks(lacked) => {
                if lacked == *cid {
                    return Err(PullFault::Lacks(*cid));
                }
                self.drop_frame(LEAST)
            }
            FrameFront::Gives(given, from, to) => {
                if given == *cid && X::block32(self.bytes((from, to))) == cid.digest {
                    self.place += to as u64;
                    return Ok(Some((from, to)));
                }
                self.drop_frame(to)
            }
        }
    }

    // Passes over a frame of n bytes, where one more may be dropped.
    fn drop_frame(&mut self, size: usize) -> Result<Option<(usize, usize)>, PullFault>
        requires place { IsInPlace self.old }
        requires few { self.old.added < 2 ^ 32 - 1 }
        requires size { size ≤ 2097198 }
        ensures { DropsFrame size result self.old self.new }
    {
        if self.more == 0 {
            return Err(PullFault::Noise);
        }
        self.more -= 1;
        self.place += size as u64;
        Ok(None)
    }

    // Reads what the bytes of a source start with, and no byte after it.
    fn read_front<I: Source>(&mut self, input: &mut I) -> Result<FrameFront, PullFault>
        ensures reads { (bytes : List ℕ) → I.left input.old ≡ Some bytes
            → IfOk result (λ front. ReadsFront self.new.buffer.items bytes front (I.left input.new)) }
        ensures fits { IfOk result (FitsFront (vec_len self.new.buffer)) }
        ensures same { KeepsCounts self.old self.new }
        ensures fault { IfErr result StopsReading }
        ensures counts { Counts (is_pull_read result) (I.faults input.old) (I.faults input.new) }
    {
        match fill_part(input, &mut self.buffer, 0, LEAST) {
            Filled::Failed => Err(PullFault::Read),
            Filled::Ended(got) => Ok(front_at(&self.buffer[..got])),
            Filled::Full => self.read_rest(input),
        }
    }

    // Reads the rest of what begins with the bytes that a frame has at least.
    fn read_rest<I: Source>(&mut self, input: &mut I) -> Result<FrameFront, PullFault>
        ensures reads { (bytes : List ℕ) → I.left input.old ≡ Some bytes
            → IfOk result (λ front. ReadsFront self.new.buffer.items (take 37 self.old.buffer.items ++ bytes) front
            (I.left input.new)) }
        ensures fits { IfOk result (FitsFront (vec_len self.new.buffer)) }
        ensures same { KeepsCounts self.old self.new }
        ensures fault { IfErr result StopsReading }
        ensures counts { Counts (is_pull_read result) (I.faults input.old) (I.faults input.new) }
    {
        let size = size_at(&self.buffer[..LEAST]);
        self.grow(size)?;
        match fill_part(input, &mut self.buffer, LEAST, size) {
            Filled::Failed => Err(PullFault::Read),
            Filled::Ended(got) => Ok(front_at(&self.buffer[..LEAST + got])),
            Filled::Full => Ok(front_at(&self.buffer[..size])),
        }
    }

    // Gives the buffer room for n bytes.
    fn grow(&mut self, size: usize) -> Result<(), Memory>
        ensures fits { OnOk result (size ≤ vec_len self.new.buffer) }
        ensures keeps { take 37 self.new.buffer.items ≡ take 37 self.old.buffer.items }
        ensures same { KeepsCounts self.old self.new }
    {
        if self.buffer.len() < size {
            self.buffer.resize(size, 0)?;
        }
        Ok(())
    }
}

// Reads until a part of a buffer is full or the source ends.
fn fill_part<I: Source>(input: &mut I, buffer: &mut Vec<u8>, from: usize, to: usize) -> Filled
    requires order { from ≤ to }
    requires fits { to ≤ vec_len buffer.old }
    ensures len { vec_len buffer.new ≡ vec_len buffer.old }
    ensures front { take from buffer.new.items ≡ take from buffer.old.items }
    ensures bytes { Fills result (bytes_between from to buffer.new.items) (I.left input.old) (I.left input.new) }
    ensures counts { Counts (is_fill_fault result) (I.faults input.old) (I.faults input.new) }
{
    fill(input, &mut buffer[from..to])
}
