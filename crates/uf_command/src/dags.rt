//! What is said of DAGs of others.
ghost use Rattle.std.specs.Prelude.{◌≡◌, ◌++◌, ◌∷◌, IfOk, OnOk};
ghost use Rattle.std.specs.Fmt.{decimal};
ghost use Rattle.std.specs.List.{flat_map};
ghost use Rattle.uf_cid.specs.Cid.{cid_text};
ghost use Rattle.uf_words.specs.Shown.{shown_bytes};
ghost use Rattle.uf_command.specs.Dags.{IsToldAs, dag_refusal as refusal_of_dag, dag_words as words_of_dag};
ghost use Rattle.uf_command.specs.Dags.{adopted_name as name_adopted, front_of, shown_path};
ghost use Rattle.uf_command.specs.declared.types.DagRule.TheVariants as rules;
ghost use Rattle.uf_command.specs.declared.types.Refusal.TheVariants as refusals;

use crate::lines::plain;
use crate::{DagRule, Refusal};
use std::alloc::Global;
use uf_cid::{Block, Cid, Memory, cids_are_whole};
use uf_lenient::DagFault;
use uf_path::DagPath;
use uf_tree::{Name, NameFault, Names};
use uf_words::shown;

/// A fault of a reading along a path, as a refusal: paths in it go up to the name that isn't there, or to what is no
/// directory.
pub fn dag_refusal(alloc: Global, path: &DagPath, fault: DagFault) -> Refusal
    ensures { IsToldAs (refusal_of_dag path.now fault) result }
{
    match fault {
        DagFault::NotUnixfs(cid, why) => Refusal::Dag(DagRule::NotUnixfs(cid, why)),
        DagFault::DuplicateName(cid, name) => Refusal::Dag(DagRule::DuplicateName(cid, name)),
        DagFault::BadName(cid) => Refusal::Dag(DagRule::BadName(cid)),
        DagFault::Unsupported(cid) => Refusal::Dag(DagRule::Unsupported(cid)),
        DagFault::TooDeep(cid) => Refusal::Dag(DagRule::TooDeep(cid)),
        DagFault::TooMany => Refusal::Dag(DagRule::TooMany),
        DagFault::NotFound(place) => match front(alloc, path, place as usize + 1) {
            Ok(front) => Refusal::Dag(DagRule::NotFound(front)),
            Err(why) => Refusal::from(why),
        },
        DagFault::NotADirectory(place) => match front(alloc, path, place as usize) {
            Ok(front) => Refusal::Dag(DagRule::NotADirectory(front)),
            Err(why) => Refusal::from(why),
        },
        DagFault::Store(fault) => Refusal::Store(fault),
    }
}

/// The refusal of a path that leads to a directory where a file is wanted.
pub fn no_file(alloc: Global, path: &DagPath) -> Refusal
    ensures { IsToldAs (refusals.Dag (rules.IsADirectory path.now)) result }
{
    match front(alloc, path, path.names.len()) {
        Ok(whole) => Refusal::Dag(DagRule::IsADirectory(whole)),
        Err(why) => Refusal::from(why),
    }
}

/// The name under which what is at a path is put in a directory: the last one of the path, or else the text of its
/// CID.
pub fn adopted_name(alloc: Global, path: &DagPath) -> Result<Name, Memory>
    ensures { IfOk result (λ name. name ≡ name_adopted path.now) }
{
    match path.names.as_slice().last() {
        Some(name) => name.copy(),
        None => text_name(alloc, &path.cid),
    }
}

// The text of a CID as a name.
fn text_name(alloc: Global, cid: &Cid) -> Result<Name, Memory>
    ensures { IfOk result (λ name. name ≡ cid_text cid.now) }
{
    cids_are_whole(cid);
    let bytes = cid.text();
    match str::from_utf8(&bytes) {
        Err(_) => unreachable!(),
        Ok(text) => match Name::parse(alloc, text) {
            Ok(name) => Ok(name),
            Err(NameFault::Memory) => Err(Memory),
            Err(NameFault::Bad) => unreachable!(),
        },
    }
}

// The first n names of a path.
fn front(alloc: Global, path: &DagPath, count: usize) -> Result<DagPath, Memory>
    ensures { IfOk result (λ front. front ≡ front_of count path.now) }
{
    let mut names = Names::new(alloc);
    let count = count.min(path.names.len());
    for name in &path.names.as_slice()[..count] {
        names.push(name.copy()?)?;
    }
    Ok(DagPath {
        cid: path.cid,
        names,
    })
}

/// The name of a rule by which a DAG of others is refused, and its details.
pub(crate) fn dag_words(alloc: Global, rule: &DagRule) -> Result<Block, Memory>
    ensures { IfOk result (λ b. b ≡ words_of_dag rule.now) }
{
    match rule {
        DagRule::NotFound(path) => with_path(alloc, b"NotFound ", path),
        DagRule::NotADirectory(path) => with_path(alloc, b"NotADirectory ", path),
        DagRule::IsADirectory(path) => with_path(alloc, b"IsADirectory ", path),
        DagRule::NotUnixfs(cid, why) => {
            let why = *why;
            let number = format!(in alloc; "{why}")?;
            with_cid_and(alloc, b"NotUnixfs ", cid, number.as_bytes())
        }
        DagRule::DuplicateName(cid, name) => {
            let name = shown(alloc, name.as_str())?;
            with_cid_and(alloc, b"DuplicateName ", cid, name.as_str().as_bytes())
        }
        DagRule::BadName(cid) => with_cid(alloc, b"BadName ", cid),
        DagRule::Unsupported(cid) => with_cid(alloc, b"Unsupported ", cid),
        DagRule::TooDeep(cid) => with_cid(alloc, b"TooDeep ", cid),
        DagRule::TooMany => plain(alloc, b"TooMany"),
        DagRule::TooManyPins => plain(alloc, b"TooManyPins"),
        DagRule::NotPinned(cid) => with_cid(alloc, b"NotPinned ", cid),
        DagRule::OtherRoot(cid) => with_cid(alloc, b"OtherRoot ", cid),
    }
}

// A word and a CID.
pub fn with_cid(alloc: Global, word: &[u8], cid: &Cid) -> Result<Block, Memory>
    ensures { IfOk result (λ b. b ≡ word.now ++ cid_text cid.now) }
{
    let mut out = plain(alloc, word)?;
    out.extend(&cid.text())?;
    Ok(out)
}

// A word, a CID, and what stands after it.
fn with_cid_and(alloc: Global, word: &[u8], cid: &Cid, rest: &[u8]) -> Result<Block, Memory>
    ensures { IfOk result (λ b. b ≡ word.now ++ cid_text cid.now ++ 32 ∷ rest.now) }
{
    let mut out = with_cid(alloc, word, cid)?;
    out.extend(b" ")?;
    out.extend(rest)?;
    Ok(out)
}

// A word and a path in a DAG as it is shown.
fn with_path(alloc: Global, word: &[u8], path: &DagPath) -> Result<Block, Memory>
    ensures { IfOk result (λ b. b ≡ word.now ++ shown_path path.now) }
{
    let mut out = plain(alloc, word)?;
    out.extend(b"/ipfs/")?;
    out.extend(&path.cid.text())?;
    for name in path.names.as_slice() {
        put_part(alloc, &mut out, name.as_str())?;
    }
    Ok(out)
}

// A slash and a name as it is shown.
fn put_part(alloc: Global, out: &mut Block, name: &str) -> Result<(), Memory>
    ensures { OnOk result (out.new ≡ out.old ++ 47 ∷ shown_bytes name.now) }
{
    out.extend(b"/")?;
    out.extend(shown(alloc, name)?.as_str().as_bytes())?;
    Ok(())
}
