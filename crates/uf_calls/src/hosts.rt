//! Calls of a host in memory.
use std::alloc::Global;
use uf_cid::{Block, Memory, Texts};
use uf_edge::{Fetched, Host, Kind, MemHost, Met, meet};
use uf_playing::say_put;
use uf_testing::{is_member, number_of, path_of, say, tell_bytes, word_and_rest};

fn word_of(kind: Kind) -> &'static str {
    match kind {
        Kind::Absent => "absent",
        Kind::File => "a file",
        Kind::Folder => "a folder",
        Kind::Other => "another",
        Kind::Failed => "failed",
        Kind::Memory => "memory",
    }
}

fn say_names(told: &mut Block, names: &Texts) -> Result<(), Memory> {
    for name in names.as_slice() {
        say(told, name.as_str())?;
    }
    say(told, "no more")
}

/// Says what is at a path: `kind PATH`.
pub fn say_kind(host: &mut MemHost, path: &str, told: &mut Block) -> Result<(), Memory> {
    say(told, word_of(host.kind(path)))
}

/// Says what is at a path, and the names where it is a folder: `meet PATH`.
pub fn say_met(host: &mut MemHost, path: &str, told: &mut Block) -> Result<(), Memory> {
    match meet(host, path) {
        Met::File => say(told, "a file"),
        Met::Folder(names) => say_names(told, &names),
        Met::Other => say(told, "another"),
        Met::Absent => say(told, "absent"),
        Met::Failed => say(told, "failed"),
        Met::Memory => Err(Memory),
    }
}

/// Reads at most four bytes of a file: `read-at PATH OFFSET`.
pub fn read_at(
    alloc: Global,
    host: &mut MemHost,
    rest: &str,
    told: &mut Block,
) -> Result<(), Memory> {
    let (path, offset) = word_and_rest(rest);
    let mut buf = [0u8; 4];
    match host.kind(path) {
        Kind::File => match host.read_at(path, number_of(offset), &mut buf) {
            Fetched::Got(count) => tell_bytes(told, alloc, b"> ", &buf[..count]),
            Fetched::End => say(told, "the end"),
            Fetched::Failed => say(told, "failed"),
            Fetched::Memory => Err(Memory),
        },
        kind => say(told, word_of(kind)),
    }
}

/// Makes a folder in the working folder: `make NAME`.
pub fn make(host: &mut MemHost, name: &str, told: &mut Block) -> Result<(), Memory> {
    if !is_member(name.as_bytes()) {
        return say(told, "no name");
    }
    match host.kind(name) {
        Kind::Absent => say_put(told, host.make_folder(name)),
        kind => say(told, word_of(kind)),
    }
}

/// Puts a piece after the bytes of a file in a folder: `grow FOLDER NAME PIECE`.
pub fn grow(alloc: Global, host: &mut MemHost, rest: &str, told: &mut Block) -> Result<(), Memory> {
    let (folder, rest) = word_and_rest(rest);
    let (name, piece) = word_and_rest(rest);
    if !is_member(name.as_bytes()) {
        return say(told, "no name");
    }
    let path = path_of(alloc, folder, name)?;
    match (host.kind(folder), host.kind(path.as_str())) {
        (Kind::Folder, Kind::Absent | Kind::File) => {
            say_put(told, host.append(path.as_str(), piece.as_bytes()))
        }
        (_, kind) => say(told, word_of(kind)),
    }
}
