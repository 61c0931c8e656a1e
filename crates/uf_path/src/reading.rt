//! Paths read from texts.
ghost use Rattle.std.specs.Prelude.{◌≡◌, ◌+◌, ◌<◌, ◌≤◌, ◌++◌, ◌⊎◌, ◌==◌, Ok, Err, List, ℕ, length, ◌-◌, ◌^◌};
ghost use Rattle.std.specs.Prelude.{slice_index, MatchResult};
ghost use Rattle.std.specs.List.{after_first, before_first};
ghost use Rattle.uf_path.specs.Paths.{ReadsAs, dag_at, dag_path_reads, is_slash, names_in, part_read, parts};
ghost use Rattle.uf_path.specs.Paths.{path_reads, target_reads};
ghost use Rattle.uf_path.specs.declared.faults.PathFault.TheVariants as faults;

use crate::{DagPath, Path, PathFault, Target};
use std::alloc::Global;
use uf_cid::Cid;
use uf_tree::{Name, NameFault, Names};

// The greatest number of bytes of a path.
const LIMIT: usize = 4096;

// What a path in a DAG may start with.
const DAG_FRONT: &str = "/ipfs/";

impl Path {
    /// The path in the tree that a text is: it starts with `/`, and empty parts between slashes are dropped.
    #[tactic(auto, unfolding(crate::specs::Paths::path_reads))]
    pub fn parse(alloc: Global, text: &str) -> Result<Path, PathFault>
        ensures { ReadsAs result (path_reads text.now) }
    {
        match text.as_bytes() {
            bytes if bytes.len() > LIMIT => Err(PathFault::TooLong),
            [b'/', ..] => Ok(Path {
                names: read_names(alloc, text, 0)?,
                into: ends_in_slash(text),
            }),
            _ => Err(PathFault::NotAbsolute),
        }
    }
}

impl DagPath {
    /// The path in a DAG that a text is: `/ipfs/` where it comes first, the text of a CID, and the names after it.
    #[tactic(auto, unfolding(crate::specs::Paths::dag_path_reads))]
    pub fn parse(alloc: Global, text: &str) -> Result<DagPath, PathFault>
        ensures { ReadsAs result (dag_path_reads text.now) }
    {
        if text.len() > LIMIT {
            return Err(PathFault::TooLong);
        }
        match text.strip_prefix(DAG_FRONT) {
            Some(rest) => read_dag(alloc, rest, DAG_FRONT.len()),
            None => read_dag(alloc, text, 0),
        }
    }
}

impl Target {
    /// What a text names: a path in a DAG where it starts with `/ipfs/`, and else a path in the tree.
    #[tactic(auto, unfolding(crate::specs::Paths::target_reads))]
    pub fn parse(alloc: Global, text: &str) -> Result<Target, PathFault>
        ensures { ReadsAs result (target_reads text.now) }
    {
        if text.starts_with(DAG_FRONT) {
            Ok(Target::Dag(DagPath::parse(alloc, text)?))
        } else {
            Ok(Target::Tree(Path::parse(alloc, text)?))
        }
    }
}

// Whether the last byte is a slash.
fn ends_in_slash(text: &str) -> bool
    ensures { result ≡ is_slash (slice_index text.now (length text.now - 1)) }
{
    matches!(text.as_bytes(), [.., b'/'])
}

// The CID and the names of a text that starts at this byte of the whole.
fn read_dag(alloc: Global, text: &str, at: usize) -> Result<DagPath, PathFault>
    requires { at + length text.now < 2 ^ 32 }
    ensures { ReadsAs result (dag_at at text.now) }
{
    let (front, names) = cut(text);
    match Cid::parse(front) {
        Err(why) => Err(PathFault::BadCid(why)),
        Ok(cid) => {
            let names = read_names(alloc, names, at + front.len() + 1)?;
            Ok(DagPath { cid, names })
        }
    }
}

// What stands before the first slash, and what stands after it; without one, the text and nothing.
fn cut(text: &str) -> (&str, &str)
    ensures before { result.0.now ≡ before_first (λ b. b == 47) text.now }
    ensures after { result.1.now ≡ after_first (λ b. b == 47) text.now }
    ensures size { length result.0.now + length result.1.now ≤ length text.now }
{
    match text.split_once('/') {
        Some(halves) => halves,
        None => (text, ""),
    }
}

// The names of a text whose first byte is at this place of the whole.
fn read_names(alloc: Global, text: &str, start: usize) -> Result<Names, PathFault>
    requires { start + length text.now < 2 ^ 33 }
    ensures { ReadsAs result (names_in start (parts text.now)) }
{
    let mut names = Names::new(alloc);
    let mut rest = text;
    let mut at = start;
    while let Some((part, after)) = rest.split_once('/') {
        put_part(alloc, &mut names, part, at)?;
        at += part.len() + 1;
        rest = after;
    }
    put_part(alloc, &mut names, rest, at)?;
    Ok(names)
}

// Puts the name that a part is after the names before it, unless the part is empty.
fn put_part(alloc: Global, names: &mut Names, part: &str, at: usize) -> Result<(), PathFault>
    ensures { MatchResult result
        (λ _. (found : List (List ℕ)) × (part_read at part.now ≡ Ok found) × (names.new ≡ names.old ++ found))
        (λ fault. (fault ≡ faults.Memory) ⊎ (part_read at part.now ≡ Err fault)) }
{
    if part.is_empty() {
        return Ok(());
    }
    match Name::parse(alloc, part) {
        Ok(name) => Ok(names.push(name)?),
        Err(NameFault::Bad) => Err(PathFault::BadName(at)),
        Err(NameFault::Memory) => Err(PathFault::Memory),
    }
}
