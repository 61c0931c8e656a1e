//! What words ask for.
ghost use Rattle.std.specs.Prelude.{map, string_bytes};
ghost use Rattle.uf_command.specs.Cids.{cid_reads};
ghost use Rattle.uf_path.specs.Paths.{path_reads};
ghost use Rattle.uf_command.specs.Requests.{IsAcceptedAlone, IsRequested, check_asked, pull_asked, request_in};

use crate::asking::{read_cid, read_path};
use crate::{Command, Refusal};
use std::alloc::Global;
use uf_cid::{Cid, Text};
use uf_path::Path;
use uf_store::StoreFault;
use uf_words::{Cmd, WordFault, read_words};

/// What words ask for: the commands that the lines of the input ask for, a talk with a peer, a collection, the check
/// of a proof, or one command, where it can be read.
#[derive(Drop)]
pub enum Request {
    /// `batch`
    Batch,
    /// `pull`: what is below a CID is fetched from a peer.
    Pull { cid: Cid },
    /// `serve`: a peer is answered.
    Serve,
    /// `repo gc`: what neither the tree nor a pin leads to is let go.
    Gc,
    /// `check`: the input is read as the proof of what is at a path below a root; with `absent` nothing is there.
    Check { absent: bool, cid: Cid, path: Path },
    /// Any other words: their command, or why they ask for none.
    One { asked: Result<Command, Refusal> },
}

/// What words ask for: their words are read first, and then the paths of a command.
pub fn read_request(alloc: Global, words: &[String]) -> Request
    ensures asked { IsRequested result (request_in (map string_bytes words.now)) }
    ensures profile { IsAcceptedAlone result }
{
    match read_words(alloc, words) {
        Ok(Cmd::Batch) => Request::Batch,
        Ok(Cmd::Pull { cid }) => read_pull(alloc, &cid),
        Ok(Cmd::Serve) => Request::Serve,
        Ok(Cmd::Gc) => Request::Gc,
        Ok(Cmd::Check { absent, cid, path }) => read_check(alloc, absent, &cid, &path),
        Ok(cmd) => Request::One {
            asked: read_path(alloc, cmd),
        },
        Err(WordFault::Usage) => Request::One {
            asked: Err(Refusal::Usage),
        },
        Err(WordFault::Memory) => Request::One {
            asked: Err(Refusal::Store(StoreFault::Memory)),
        },
    }
}

// `pull` of what is below a CID.
fn read_pull(alloc: Global, cid: &Text) -> Request
    ensures asked { IsRequested result (pull_asked (cid_reads cid.now)) }
    ensures profile { IsAcceptedAlone result }
{
    match read_cid(alloc, cid.as_str()) {
        Ok(cid) => Request::Pull { cid },
        Err(why) => Request::One {
            asked: Err(Refusal::from(why)),
        },
    }
}

// `check` of what is at a path below a root, or of its absence.
fn read_check(alloc: Global, absent: bool, cid: &Text, path: &Text) -> Request
    ensures asked { IsRequested result (check_asked absent (cid_reads cid.now) (path_reads path.now)) }
    ensures profile { IsAcceptedAlone result }
{
    match read_cid(alloc, cid.as_str()) {
        Err(why) => Request::One {
            asked: Err(Refusal::from(why)),
        },
        Ok(cid) => match Path::parse(alloc, path.as_str()) {
            Ok(path) => Request::Check { absent, cid, path },
            Err(why) => Request::One {
                asked: Err(Refusal::from(why)),
            },
        },
    }
}
