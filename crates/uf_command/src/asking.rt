//! What words ask for.
ghost use Rattle.std.specs.Prelude.{◌≡◌, ◌<◌, ◌≤◌, ◌^◌, length, IfOk, IsTrue, Some};
ghost use Rattle.std.specs.List.{after_first};
ghost use Rattle.uf_plain.specs.Metas.{is_meta_edit};
ghost use Rattle.uf_path.specs.Paths.{ReadsAs, dag_path_reads, is_slash, path_reads};
ghost use Rattle.uf_command.specs.Cids.{cid_reads, first_name_at as first_name_in, slashes_before as slashes_in_front};
ghost use Rattle.uf_command.specs.Commands.{IsAccepted, IsAsked, IsGoodAsk, add_asked, add_to_asked, asked, at_path};
ghost use Rattle.uf_command.specs.Commands.{both_paths, is_of_files, mtime_of};
ghost use Rattle.uf_command.specs.Commands.{adopt_asked, below_asked, cat_asked, cp_asked, get_asked, mv_asked};
ghost use Rattle.uf_command.specs.Commands.{pin_asked, prove_asked, read_asked, set_meta_asked, write_asked};
ghost use Rattle.uf_command.specs.declared.types.Ask.TheVariants as asks;
ghost use Rattle.uf_tree.specs.Metas.{is_mtime};
ghost use Rattle.uf_words.specs.Commands.{IsWithinLimits};

use crate::{Adding, Ask, Command, Edit, PinAsk, Refusal};
use std::alloc::Global;
use uf_cid::{Block, Cid, Text};
use uf_message::Mtime;
use uf_path::{DagPath, Path, PathFault};
use uf_plain::{MetaEdit, WriteHow};
use uf_words::Cmd;

// What a path in a DAG starts with.
const DAG_FRONT: &str = "/ipfs/";

// The command that words were read as, with its paths read.
pub fn read_path(alloc: Global, cmd: Cmd) -> Result<Command, Refusal>
    requires { IsWithinLimits cmd }
    ensures asked { IsAsked result (asked cmd) }
    ensures profile { IfOk result IsAccepted }
{
    match cmd {
        Cmd::Init { profile } => Ok(Command::Init { profile }),
        Cmd::Add {
            recursive,
            only_hash,
            to_files,
            host_path,
        } => read_add(alloc, recursive, only_hash, to_files, host_path),
        Cmd::Cat { target } => read_cat(alloc, &target),
        Cmd::Get { target, host_path } => read_get(alloc, &target, host_path),
        Cmd::Export { cid } => read_below(alloc, &cid, false),
        Cmd::Import => Ok(Command::Import),
        Cmd::Same { cid } => read_below(alloc, &cid, true),
        Cmd::Gen { n, seed } => Ok(Command::Gen { n, seed }),
        Cmd::PinAdd { cid } => read_pin(alloc, &cid, true),
        Cmd::PinRm { cid } => read_pin(alloc, &cid, false),
        Cmd::PinLs => Ok(Command::Pin { ask: PinAsk::List }),
        Cmd::Prove { absent, path } => read_prove(alloc, absent, &path),
        Cmd::Batch | Cmd::Pull { .. } | Cmd::Serve | Cmd::Gc | Cmd::Check { .. } => {
            Err(Refusal::Usage)
        }
        files => read_files(alloc, files),
    }
}

// A command of the group `files`.
fn read_files(alloc: Global, cmd: Cmd) -> Result<Command, Refusal>
    requires limits { IsWithinLimits cmd }
    requires files { IsTrue (is_of_files cmd) }
    ensures asked { IsAsked result (asked cmd) }
    ensures profile { IfOk result IsAccepted }
{
    match cmd {
        Cmd::Mkdir { parents, path } => edit_at(alloc, Edit::Mkdir { parents }, &path),
        Cmd::Ls { long, path } => ask_at(alloc, Ask::Ls { long }, &path),
        Cmd::Stat { path } => ask_at(alloc, Ask::Stat, &path),
        Cmd::Read {
            offset,
            count,
            path,
        } => read_read(alloc, offset, count, &path),
        Cmd::Write {
            offset,
            create,
            cut,
            hex,
            path,
        } => read_write(alloc, offset, create, cut, hex, &path),
        Cmd::Truncate { path, length } => edit_at(alloc, Edit::Truncate { length }, &path),
        Cmd::Cp { source, dest } => read_cp(alloc, &source, &dest),
        Cmd::Mv { source, dest } => read_mv(alloc, &source, &dest),
        Cmd::Rm { recursive, path } => edit_at(alloc, Edit::Rm { recursive }, &path),
        Cmd::Chmod { mode, path } => set_meta_at(alloc, MetaEdit::Mode(mode as u32), &path),
        Cmd::Touch {
            nanos,
            seconds,
            path,
        } => set_meta_at(alloc, MetaEdit::Modified(mtime(nanos, seconds)), &path),
        Cmd::Strip { path } => set_meta_at(alloc, MetaEdit::Strip, &path),
        _ => unreachable!(),
    }
}

// The mtime of these seconds and nanoseconds; 0 nanoseconds stand for none.
fn mtime(nanos: u64, seconds: u64) -> Mtime
    requires nanos { nanos ≤ 999999999 }
    requires seconds { seconds < 2 ^ 63 }
    ensures same { result ≡ mtime_of nanos seconds }
    ensures good { IsTrue (is_mtime (Some result)) }
{
    Mtime {
        seconds: seconds as i64,
        nanos: match nanos {
            0 => None,
            some => Some(some as u32),
        },
    }
}

// `add` of the input, or of what the host has at a path, also to where a path of the tree leads.
fn read_add(
    alloc: Global,
    recursive: bool,
    only_hash: bool,
    to_files: Option<Text>,
    host_path: Option<Text>,
) -> Result<Command, Refusal>
    ensures asked { IsAsked result (add_asked recursive only_hash to_files host_path) }
    ensures profile { IfOk result IsAccepted }
{
    let adding = match (to_files, host_path) {
        (None, None) => Adding::Input { only_hash },
        (None, Some(path)) => Adding::Host {
            recursive,
            only_hash,
            path,
        },
        (Some(dest), host_path) => return read_add_to(alloc, recursive, &dest, host_path),
    };
    Ok(Command::Add { adding })
}

// `add --to-files`.
fn read_add_to(
    alloc: Global,
    recursive: bool,
    dest: &Text,
    host_path: Option<Text>,
) -> Result<Command, Refusal>
    ensures asked { IsAsked result (add_to_asked recursive host_path (path_reads dest.now)) }
    ensures profile { IfOk result IsAccepted }
{
    let dest = Path::parse(alloc, dest.as_str())?;
    let adding = match host_path {
        None => Adding::InputTo { dest },
        Some(path) => Adding::HostTo {
            recursive,
            path,
            dest,
        },
    };
    Ok(Command::Add { adding })
}

// `files write` of bytes that stand in the words, or else of the input.
fn read_write(
    alloc: Global,
    offset: u64,
    create: bool,
    cut: bool,
    hex: Option<Block>,
    path: &Text,
) -> Result<Command, Refusal>
    ensures asked { IsAsked result (write_asked (record { offset = offset; create = create; cut = cut }) hex
        (path_reads path.now)) }
    ensures profile { IfOk result IsAccepted }
{
    let how = WriteHow {
        offset,
        create,
        cut,
    };
    match hex {
        Some(piece) => edit_at(alloc, Edit::Write { how, piece }, path),
        None => {
            let path = Path::parse(alloc, path.as_str())?;
            Ok(Command::WriteInput { how, path })
        }
    }
}

// `cat` of a path in a DAG.
fn read_cat(alloc: Global, target: &Text) -> Result<Command, Refusal>
    ensures asked { IsAsked result (cat_asked (dag_path_reads target.now)) }
    ensures profile { IfOk result IsAccepted }
{
    let path = DagPath::parse(alloc, target.as_str())?;
    Ok(Command::Cat { path })
}

// `get` of a path in a DAG.
fn read_get(alloc: Global, target: &Text, host_path: Text) -> Result<Command, Refusal>
    ensures asked { IsAsked result (get_asked (dag_path_reads target.now) host_path) }
    ensures profile { IfOk result IsAccepted }
{
    let path = DagPath::parse(alloc, target.as_str())?;
    Ok(Command::Get { path, host_path })
}

// `dag same`, or else `dag export`, of what is below a CID.
fn read_below(alloc: Global, cid: &Text, compared: bool) -> Result<Command, Refusal>
    ensures asked { IsAsked result (below_asked compared (cid_reads cid.now)) }
    ensures profile { IfOk result IsAccepted }
{
    let cid = read_cid(alloc, cid.as_str())?;
    Ok(if compared {
        Command::Same { cid }
    } else {
        Command::Export { cid }
    })
}

// `pin add`, or else `pin rm`, of a CID.
fn read_pin(alloc: Global, cid: &Text, added: bool) -> Result<Command, Refusal>
    ensures asked { IsAsked result (pin_asked added (cid_reads cid.now)) }
    ensures profile { IfOk result IsAccepted }
{
    let cid = read_cid(alloc, cid.as_str())?;
    let ask = if added {
        PinAsk::Add { cid }
    } else {
        PinAsk::Remove { cid }
    };
    Ok(Command::Pin { ask })
}

// `prove` of what is at a path, or of its absence.
fn read_prove(alloc: Global, absent: bool, path: &Text) -> Result<Command, Refusal>
    ensures asked { IsAsked result (prove_asked absent (path_reads path.now)) }
    ensures profile { IfOk result IsAccepted }
{
    let path = Path::parse(alloc, path.as_str())?;
    Ok(Command::Prove { absent, path })
}

// The CID that a text is: a path in a DAG without names.
pub fn read_cid(alloc: Global, text: &str) -> Result<Cid, PathFault>
    ensures { ReadsAs result (cid_reads text.now) }
{
    let path = DagPath::parse(alloc, text)?;
    match path.names.as_slice() {
        [] => Ok(path.cid),
        [..] => Err(PathFault::BadName(first_name_at(text))),
    }
}

// The byte at which the first name after the CID starts.
fn first_name_at(text: &str) -> usize
    ensures { result ≡ first_name_in text.now }
{
    let names = match text.strip_prefix(DAG_FRONT) {
        Some(rest) => behind_slash(rest),
        None => behind_slash(text),
    };
    text.len() - names.len() + slashes_before(names.as_bytes())
}

// What stands after the first slash; without one, nothing.
fn behind_slash(text: &str) -> &str
    ensures behind { result.now ≡ after_first is_slash text.now }
    ensures size { length result.now ≤ length text.now }
{
    match text.split_once('/') {
        Some((_, names)) => names,
        None => "",
    }
}

// How many slashes stand before a text.
fn slashes_before(text: &[u8]) -> usize
    ensures count { result ≡ slashes_in_front text.now }
    ensures size { result ≤ length text.now }
{
    let mut count = 0;
    'slashes: while count < text.len() && text[count] == b'/' {
        count += 1;
    }
    count
}

// `files read`.
fn read_read(alloc: Global, offset: u64, count: u64, path: &Text) -> Result<Command, Refusal>
    ensures asked { IsAsked result (read_asked offset count (path_reads path.now)) }
    ensures profile { IfOk result IsAccepted }
{
    let path = Path::parse(alloc, path.as_str())?;
    Ok(Command::Read {
        offset,
        count,
        path,
    })
}

// `files cp` from the tree, or from a DAG.
fn read_cp(alloc: Global, source: &Text, dest: &Text) -> Result<Command, Refusal>
    ensures asked { IsAsked result (cp_asked source.now dest.now) }
    ensures profile { IfOk result IsAccepted }
{
    if source.as_str().starts_with(DAG_FRONT) {
        return read_adopt(alloc, source, dest);
    }
    let (path, dest) = read_both(alloc, source, dest)?;
    Ok(Command::At {
        ask: Ask::Edit {
            edit: Edit::Cp { dest },
        },
        path,
    })
}

// `files cp` from a DAG.
fn read_adopt(alloc: Global, source: &Text, dest: &Text) -> Result<Command, Refusal>
    ensures asked { IsAsked result (adopt_asked (dag_path_reads source.now) (path_reads dest.now)) }
    ensures profile { IfOk result IsAccepted }
{
    let source = DagPath::parse(alloc, source.as_str())?;
    let dest = Path::parse(alloc, dest.as_str())?;
    Ok(Command::Adopt { source, dest })
}

// `files mv`.
fn read_mv(alloc: Global, source: &Text, dest: &Text) -> Result<Command, Refusal>
    ensures asked { IsAsked result (mv_asked source.now dest.now) }
    ensures profile { IfOk result IsAccepted }
{
    let (path, dest) = read_both(alloc, source, dest)?;
    Ok(Command::At {
        ask: Ask::Edit {
            edit: Edit::Mv { dest },
        },
        path,
    })
}

// A source and a destination.
fn read_both(alloc: Global, source: &Text, dest: &Text) -> Result<(Path, Path), Refusal>
    ensures { IsAsked result (both_paths (path_reads source.now) (path_reads dest.now)) }
{
    let source = Path::parse(alloc, source.as_str())?;
    let dest = Path::parse(alloc, dest.as_str())?;
    Ok((source, dest))
}

// A change of the metadata of what is at a path.
fn set_meta_at(alloc: Global, what: MetaEdit, path: &Text) -> Result<Command, Refusal>
    requires { IsTrue (is_meta_edit what) }
    ensures asked { IsAsked result (set_meta_asked what (path_reads path.now)) }
    ensures profile { IfOk result IsAccepted }
{
    edit_at(alloc, Edit::SetMeta { what }, path)
}

// An edit at a path.
fn edit_at(alloc: Global, edit: Edit, path: &Text) -> Result<Command, Refusal>
    requires { IsGoodAsk (asks.Edit edit) }
    ensures asked { IsAsked result (at_path (asks.Edit edit) (path_reads path.now)) }
    ensures profile { IfOk result IsAccepted }
{
    ask_at(alloc, Ask::Edit { edit }, path)
}

// What is asked at a path.
fn ask_at(alloc: Global, ask: Ask, path: &Text) -> Result<Command, Refusal>
    requires { IsGoodAsk ask }
    ensures asked { IsAsked result (at_path ask (path_reads path.now)) }
    ensures profile { IfOk result IsAccepted }
{
    let path = Path::parse(alloc, path.as_str())?;
    Ok(Command::At { ask, path })
}
