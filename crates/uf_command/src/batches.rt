//! What the lines of a batch ask for.
ghost use Rattle.std.specs.Prelude.{◌≡◌, map, string_bytes, IfOk, IfSome};
ghost use Rattle.uf_command.specs.Batches.{IsAskedBy, asked_in_batch, is_for_batch, line_in};
ghost use Rattle.uf_command.specs.Commands.{IsAccepted, IsAsked};
ghost use Rattle.uf_words.specs.Commands.{command_of};

use crate::asking::read_path;
use crate::{Command, Refusal};
use std::alloc::Global;
use uf_store::StoreFault;
use uf_words::{Cmd, WordFault, read_words, split_line};

/// What a line of a batch asks for; nothing where it has no word. Refused are commands that read the input or write to
/// the host, and those that have a store of their own.
pub fn read_line(alloc: Global, line: &[u8]) -> Option<Result<Command, Refusal>>
    ensures asked { IsAskedBy result (line_in line.now) }
    ensures profile { IfSome result (λ asked. IfOk asked IsAccepted) }
{
    match split_line(alloc, line) {
        Ok(words) if words.is_empty() => None,
        Ok(words) => Some(read_in_batch(alloc, &words)),
        Err(WordFault::Usage) => Some(Err(Refusal::Usage)),
        Err(WordFault::Memory) => Some(Err(Refusal::Store(StoreFault::Memory))),
    }
}

// What words ask for in a batch.
fn read_in_batch(alloc: Global, words: &[String]) -> Result<Command, Refusal>
    ensures asked { IsAsked result (asked_in_batch (command_of (map string_bytes words.now))) }
    ensures profile { IfOk result IsAccepted }
{
    match read_words(alloc, words) {
        Ok(cmd) if !suits_batch(&cmd) => Err(Refusal::Usage),
        Ok(cmd) => read_path(alloc, cmd),
        Err(WordFault::Usage) => Err(Refusal::Usage),
        Err(WordFault::Memory) => Err(Refusal::Store(StoreFault::Memory)),
    }
}

// Whether a command may stand in a batch.
fn suits_batch(cmd: &Cmd) -> bool
    ensures { result ≡ is_for_batch cmd.now }
{
    match cmd {
        Cmd::Add { host_path, .. } => host_path.is_some(),
        Cmd::Write { hex, .. } => hex.is_some(),
        Cmd::Init { .. }
        | Cmd::Cat { .. }
        | Cmd::Mkdir { .. }
        | Cmd::Ls { .. }
        | Cmd::Stat { .. }
        | Cmd::Read { .. }
        | Cmd::Truncate { .. }
        | Cmd::Cp { .. }
        | Cmd::Mv { .. }
        | Cmd::Rm { .. }
        | Cmd::Chmod { .. }
        | Cmd::Touch { .. }
        | Cmd::Strip { .. }
        | Cmd::Export { .. }
        | Cmd::PinAdd { .. }
        | Cmd::PinRm { .. }
        | Cmd::PinLs
        | Cmd::Prove { .. } => true,
        Cmd::Get { .. }
        | Cmd::Same { .. }
        | Cmd::Import
        | Cmd::Gc
        | Cmd::Check { .. }
        | Cmd::Pull { .. }
        | Cmd::Serve
        | Cmd::Batch
        | Cmd::Gen { .. } => false,
    }
}
