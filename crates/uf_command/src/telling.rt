//! What a command prints, and how its end is reported.
ghost use Rattle.std.specs.Prelude.{◌≡◌};
ghost use Rattle.uf_command.specs.Telling.{IsSent, Prints, TellsEnd, TellsWhy, has_details};

use crate::lines::{line, refusal_status};
use crate::{Refusal, Status};
use std::alloc::Global;
use uf_cid::Block;
use uf_edge::{Sent, Sink, write_all};

/// Prints a text; of nothing, nothing is written.
pub fn print<O: Sink>(text: &Block, output: &mut O) -> Result<(), Refusal>
    ensures { Prints text.now result (O.holds output.old) (O.holds output.new) (O.faults output.old)
        (O.faults output.new) }
{
    if text.as_slice().is_empty() {
        return Ok(());
    }
    match write_all(output, text.as_slice()) {
        Sent::Done => Ok(()),
        Sent::Failed => Err(Refusal::Write),
    }
}

/// The status with which a command ends, whose line goes to `errors`.
pub fn tell_end<E: Sink>(alloc: Global, done: Result<(), Refusal>, errors: &mut E) -> Status
    ensures { TellsEnd (λ line. IsSent line (E.holds errors.old) (E.holds errors.new) (E.faults errors.old)
        (E.faults errors.new))
        done result }
{
    match done {
        Ok(()) => said(Status::Ok, b"", errors),
        Err(why) => tell(alloc, &why, errors),
    }
}

/// The status of a refusal, whose line goes to `errors`. A line without details takes no memory.
pub fn tell<E: Sink>(alloc: Global, why: &Refusal, errors: &mut E) -> Status
    ensures { TellsWhy (λ line. IsSent line (E.holds errors.old) (E.holds errors.new) (E.faults errors.old)
        (E.faults errors.new))
        why.now result }
{
    let status = refusal_status(why);
    if !is_detailed(status) {
        return said(status, status.plain_line(), errors);
    }
    match line(alloc, why) {
        Ok(text) => said(status, text.as_slice(), errors),
        Err(_) => said(Status::Memory, Status::Memory.plain_line(), errors),
    }
}

// Whether the error line of a status has details.
fn is_detailed(status: Status) -> bool
    ensures { result ≡ has_details status }
{
    matches!(
        status,
        Status::Rule | Status::Missing | Status::BadBlock | Status::Clash | Status::NotReady
    )
}

// The status, once a line went to `errors`.
pub fn said<E: Sink>(status: Status, line: &[u8], errors: &mut E) -> Status
    ensures status { result ≡ status }
    ensures sent { IsSent line.now (E.holds errors.old) (E.holds errors.new) (E.faults errors.old)
        (E.faults errors.new) }
{
    let _ = write_all(errors, line);
    status
}
