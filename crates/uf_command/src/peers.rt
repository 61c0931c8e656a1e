//! How talks with peers end, and how that is reported.
ghost use Rattle.std.specs.Prelude.{◌≡◌, ◌++◌, IfOk};
ghost use Rattle.std.specs.Fmt.{decimal};
ghost use Rattle.uf_command.specs.Peers.{TellsRule, TellsTalk, peer_line as line_of_peer, peer_words as words_of_peer};
ghost use Rattle.uf_command.specs.Peers.{pull_end as end_of_pull, serve_end as end_of_serve};
ghost use Rattle.uf_command.specs.Telling.{IsSent};

use crate::dags::with_cid;
use crate::lines::{plain, wrapped};
use crate::telling::{said, tell, tell_end};
use crate::{PeerRefusal, PeerRule, Status};
use std::alloc::Global;
use uf_cid::{Block, Memory};
use uf_edge::Sink;
use uf_pull::{PullFault, ServeFault};

/// How a pull ended: done, or refused.
pub fn pull_end(done: Result<u64, PullFault>) -> Result<(), PeerRefusal>
    ensures { result ≡ end_of_pull done }
{
    done?;
    Ok(())
}

/// How the lines of a peer were answered: to their end, or refused.
pub fn serve_end(done: Result<u64, ServeFault>) -> Result<(), PeerRefusal>
    ensures { result ≡ end_of_serve done }
{
    done?;
    Ok(())
}

/// The status with which a talk ends, whose line goes to `errors`.
pub fn tell_talk<E: Sink>(alloc: Global, done: Result<(), PeerRefusal>, errors: &mut E) -> Status
    ensures { TellsTalk (λ line. IsSent line (E.holds errors.old) (E.holds errors.new) (E.faults errors.old)
        (E.faults errors.new))
        done result }
{
    match done {
        Ok(()) => tell_end(alloc, Ok(()), errors),
        Err(PeerRefusal::Other(why)) => tell(alloc, &why, errors),
        Err(PeerRefusal::Peer(rule)) => tell_rule(alloc, &rule, errors),
    }
}

// The status of a rule for peers, whose line goes to `errors`.
fn tell_rule<E: Sink>(alloc: Global, rule: &PeerRule, errors: &mut E) -> Status
    ensures { TellsRule (λ line. IsSent line (E.holds errors.old) (E.holds errors.new) (E.faults errors.old)
        (E.faults errors.new))
        rule.now result }
{
    match peer_line(alloc, rule) {
        Ok(text) => said(Status::Rule, text.as_slice(), errors),
        Err(_) => said(Status::Memory, Status::Memory.plain_line(), errors),
    }
}

// The error line of a rule for peers, with its end.
fn peer_line(alloc: Global, rule: &PeerRule) -> Result<Block, Memory>
    ensures { IfOk result (λ b. b ≡ line_of_peer rule.now) }
{
    let words = peer_words(alloc, rule)?;
    wrapped(alloc, b"error: rule ", words.as_slice())
}

// The name of a rule for peers and its details.
fn peer_words(alloc: Global, rule: &PeerRule) -> Result<Block, Memory>
    ensures { IfOk result (λ b. b ≡ words_of_peer rule.now) }
{
    match rule {
        PeerRule::Lacks(cid) => with_cid(alloc, b"PeerLacks ", cid),
        PeerRule::Ended(cid) => with_cid(alloc, b"PeerEnded ", cid),
        PeerRule::Bad(place) => with_number(alloc, b"PeerBad ", *place),
        PeerRule::Noise => plain(alloc, b"PeerNoise"),
        PeerRule::BadWant(number) => with_number(alloc, b"BadWant ", *number),
    }
}

// A word and a number.
fn with_number(alloc: Global, word: &[u8], number: u64) -> Result<Block, Memory>
    ensures { IfOk result (λ b. b ≡ word.now ++ decimal number) }
{
    let text = format!(in alloc; "{number}")?;
    let mut out = plain(alloc, word)?;
    out.extend(text.as_bytes())?;
    Ok(out)
}
