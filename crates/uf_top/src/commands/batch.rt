//! `batch`: the commands that the lines of an input ask for.
ghost use Rattle.std.specs.Prelude.{◌<◌, [], length, None, Some};
ghost use Rattle.uf_command.specs.Batches.{line_in};
ghost use Rattle.uf_top.specs.Lent.{OverLine, lent, lent_line, sink_at};
ghost use Rattle.uf_top.specs.Batch.{Batches, ClosesLine, DoesLine, LineServed};

use crate::command::work;
use std::alloc::Global;
use std::sync::ledger::Ledger;
use uf_command::{Refusal, Status, read_line, tell, tell_end};
use uf_edge::{Host, Read, Sent, Sink, Source, write_all};
use uf_lines::{Line, Lines};
use uf_murmur::NameHash;
use uf_store::{Steps, Store, StoreFault};

// The most bytes of a line.
pub const MOST_OF_LINE: usize = 1048576;

// The most bytes of an input that are read.
pub const MOST_OF_BATCH: u64 = 1073741824;

// An input that is at its end: what the commands of a batch find in place of the lines that follow.
#[derive(Drop)]
struct NoInput {}

impl Source for NoInput {
    ghost use Rattle.uf_edge.specs.Counts.{Counts};
    ghost use Rattle.uf_edge.specs.Streams.{Reads, is_read_fault};

    ghost left = { λ s. Some [] };

    ghost faults = { λ s. 0 };

    fn read(&mut self, buf: &mut [u8]) -> Read
        requires { 0 < length buf.old }
        ensures bytes { Reads result buf.new (Some []) (Some []) }
        ensures counts { Counts (is_read_fault result) 0 0 }
    {
        Read::End
    }
}

/// Does the commands that the lines of an input ask for, one after the other: what each prints is followed by its
/// status. It ends with the input, at a line that fails, and at one, or an input, that is too long.
pub fn batch<S: Store, N: NameHash, W: Host, I: Source, O: Sink, E: Sink, L: Ledger>(
    alloc: Global,
    limit: u64,
    store: &mut S,
    host: &mut W,
    input: &mut I,
    output: &mut O,
    errors: &mut E,
    touches: &mut Steps<L>,
) -> Status
    ensures { Batches S.X.block32 N.name64 MOST_OF_LINE limit result
        (lent I.Source O.Sink W.Host E.Sink (S.seen store.old) input.old output.old touches.old host.old errors.old)
        (lent I.Source O.Sink W.Host E.Sink (S.seen store.new) input.new output.new touches.new host.new errors.new) }
{
    let mut lines = Lines::new(alloc, MOST_OF_LINE, limit);
    'rest: loop {
        match lines.next(input) {
            Line::Given => {}
            Line::End => return Status::Ok,
            Line::TooLong => return tell(alloc, &Refusal::InputTooLong, errors),
            Line::Failed => return tell(alloc, &Refusal::Read, errors),
            Line::Memory => return tell(alloc, &Refusal::Store(StoreFault::Memory), errors),
        }
        let line = lines.line();
        let done = do_line::<S, N, W, O, E, L>(alloc, line, store, host, output, errors, touches);
        if let Some(status) = done {
            return status;
        }
    }
}

// Does what a line asks for, where it has a word, and prints its status. The answer comes where the batch ends with
// it.
fn do_line<S: Store, N: NameHash, W: Host, O: Sink, E: Sink, L: Ledger>(
    alloc: Global,
    line: &[u8],
    store: &mut S,
    host: &mut W,
    output: &mut O,
    errors: &mut E,
    touches: &mut Steps<L>,
) -> Option<Status>
    ensures { DoesLine S.X.block32 N.name64 line.now result
        (lent_line O.Sink W.Host E.Sink (S.seen store.old) output.old touches.old host.old errors.old)
        (lent_line O.Sink W.Host E.Sink (S.seen store.new) output.new touches.new host.new errors.new) }
{
    match serve_line::<S, N, W, O, L>(alloc, line, store, host, output, touches) {
        None => None,
        Some(done) => close_line(alloc, done, output, errors),
    }
}

// Does what a line asks for, where it has a word.
fn serve_line<S: Store, N: NameHash, W: Host, O: Sink, L: Ledger>(
    alloc: Global,
    line: &[u8],
    store: &mut S,
    host: &mut W,
    output: &mut O,
    touches: &mut Steps<L>,
) -> Option<Result<(), Refusal>>
    ensures { OverLine O.Sink W.Host (LineServed S.X.block32 N.name64 (line_in line.now) result)
        (S.seen store.old) output.old touches.old host.old (S.seen store.new) output.new touches.new host.new }
{
    match read_line(alloc, line) {
        None => None,
        Some(Err(why)) => Some(Err(why)),
        Some(Ok(command)) => {
            let mut nothing = NoInput {};
            Some(work::<S, N, W, NoInput, O, L>(
                alloc,
                &command,
                store,
                host,
                &mut nothing,
                output,
                touches,
            ))
        }
    }
}

// Reports how a line's command ended, and prints its status. The answer comes where the batch ends with it.
fn close_line<O: Sink, E: Sink>(
    alloc: Global,
    done: Result<(), Refusal>,
    output: &mut O,
    errors: &mut E,
) -> Option<Status>
    ensures { ClosesLine done result (sink_at O.Sink output.old) (sink_at O.Sink output.new)
        (sink_at E.Sink errors.old) (sink_at E.Sink errors.new) }
{
    let status = tell_end(alloc, done, errors);
    if status == Status::WriteFault {
        return Some(status);
    }
    let sent = write_all(output, status.mark());
    if status.ends_batch() {
        return Some(status);
    }
    match sent {
        Sent::Done => None,
        Sent::Failed => Some(tell(alloc, &Refusal::Write, errors)),
    }
}
