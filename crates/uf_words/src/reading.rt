//! Commands read from words.
ghost use Rattle.std.specs.Prelude.{◌≡◌, [], map, string_bytes, IfOk};
ghost use Rattle.clap.specs.Matches.{found_of};
ghost use Rattle.clap.specs.Walk.{rows_of, first_of};
ghost use Rattle.uf_words.specs.Commands.{IsWithinLimits, ReadsWords, add_of, add_words, bare, bytes_or_none};
ghost use Rattle.uf_words.specs.Commands.{check_words, chmod_words, command_of, contents_words, dag_words};
ghost use Rattle.uf_words.specs.Commands.{decoded_hex, ends_with_slash, files_words, flag_and_argument, gen_words};
ghost use Rattle.uf_words.specs.Commands.{group_words, init_of, init_words, ls_words, names_words, one_argument};
ghost use Rattle.uf_words.specs.Commands.{other_words, pin_words, places_well, prove_words, read_words_of};
ghost use Rattle.uf_words.specs.Commands.{repo_words, touch_words, truncate_words};
ghost use Rattle.uf_words.specs.Commands.{two_arguments, write_words_of};
ghost use Rattle.uf_words.specs.Options.{found_in};

use crate::options::{
    bare_command, find, is_given, mode, number, number_in, number_of, owned, text_of, text_or_none,
    value_of,
};
use crate::table::{
    add_command, check_command, flagged_command, init_command, ls_command, one_argument_command,
    prove_command, read_command, touch_command, two_arguments_command, write_command,
};
use crate::{Cmd, WordFault};
use clap::ArgMatches;
use hex::{FromHexError, decode};
use std::alloc::Global;
use uf_cid::{Block, Text};
use uf_tree::Profile;

/// The command that words are: the first words are compared exactly, and `clap` reads the options and arguments after
/// them.
#[tactic(auto, unfolding(crate::specs::Commands::command_of))]
pub fn read_words(alloc: Global, words: &[String]) -> Result<Cmd, WordFault>
    ensures exact { ReadsWords result (command_of (map string_bytes words.now)) }
    ensures limits { IfOk result IsWithinLimits }
{
    let [first, rest @ ..] = words else {
        return Err(WordFault::Usage);
    };
    let name = first.as_str();
    if name == "init" {
        read_init(alloc, rest)
    } else if name == "add" {
        read_add(alloc, rest)
    } else if name == "cat" {
        let target = read_argument(alloc, "TARGET", rest)?;
        Ok(Cmd::Cat { target })
    } else if name == "get" {
        let (target, host_path) = read_arguments(alloc, "TARGET", "HOSTPATH", rest)?;
        Ok(Cmd::Get { target, host_path })
    } else if name == "batch" {
        read_bare(alloc, rest)?;
        Ok(Cmd::Batch)
    } else if name == "gen" {
        read_gen(alloc, rest)
    } else {
        read_group(alloc, name, rest)
    }
}

// A command of a group, or one of the others.
#[tactic(auto, unfolding(crate::specs::Commands::group_words))]
fn read_group(alloc: Global, name: &str, words: &[String]) -> Result<Cmd, WordFault>
    ensures exact { ReadsWords result (group_words name.now (map string_bytes words.now)) }
    ensures limits { IfOk result IsWithinLimits }
{
    if name == "files" {
        read_files(alloc, words)
    } else if name == "dag" {
        read_dag(alloc, words)
    } else if name == "pin" {
        read_pin(alloc, words)
    } else if name == "repo" {
        read_repo(alloc, words)
    } else {
        read_other(alloc, name, words)
    }
}

// A command of the group `files`.
#[tactic(auto, unfolding(crate::specs::Commands::files_words))]
fn read_files(alloc: Global, words: &[String]) -> Result<Cmd, WordFault>
    ensures exact { ReadsWords result (files_words (map string_bytes words.now)) }
    ensures limits { IfOk result IsWithinLimits }
{
    let [first, rest @ ..] = words else {
        return Err(WordFault::Usage);
    };
    let name = first.as_str();
    if name == "ls" {
        read_ls(alloc, rest)
    } else if name == "stat" {
        let path = read_argument(alloc, "PATH", rest)?;
        Ok(Cmd::Stat { path })
    } else if name == "read" {
        read_read(alloc, rest)
    } else {
        read_names(alloc, name, rest)
    }
}

// A command of the group `files` that changes which names are where, or one that changes a file.
#[tactic(auto, unfolding(crate::specs::Commands::names_words))]
fn read_names(alloc: Global, name: &str, words: &[String]) -> Result<Cmd, WordFault>
    ensures exact { ReadsWords result (names_words name.now (map string_bytes words.now)) }
    ensures limits { IfOk result IsWithinLimits }
{
    if name == "mkdir" {
        let (parents, path) = read_flagged(alloc, "parents", 'p', "PATH", words)?;
        Ok(Cmd::Mkdir { parents, path })
    } else if name == "cp" {
        let (source, dest) = read_arguments(alloc, "SOURCE", "DEST", words)?;
        Ok(Cmd::Cp { source, dest })
    } else if name == "mv" {
        let (source, dest) = read_arguments(alloc, "SOURCE", "DEST", words)?;
        Ok(Cmd::Mv { source, dest })
    } else if name == "rm" {
        let (recursive, path) = read_flagged(alloc, "recursive", 'r', "PATH", words)?;
        Ok(Cmd::Rm { recursive, path })
    } else {
        read_contents(alloc, name, words)
    }
}

// A command of the group `files` that changes the bytes of a file, or a mode or an mtime.
#[tactic(auto, unfolding(crate::specs::Commands::contents_words))]
fn read_contents(alloc: Global, name: &str, words: &[String]) -> Result<Cmd, WordFault>
    ensures exact { ReadsWords result (contents_words name.now (map string_bytes words.now)) }
    ensures limits { IfOk result IsWithinLimits }
{
    if name == "write" {
        read_write(alloc, words)
    } else if name == "truncate" {
        read_truncate(alloc, words)
    } else if name == "chmod" {
        read_chmod(alloc, words)
    } else if name == "touch" {
        read_touch(alloc, words)
    } else if name == "strip" {
        let path = read_argument(alloc, "PATH", words)?;
        Ok(Cmd::Strip { path })
    } else {
        Err(WordFault::Usage)
    }
}

// A command of the group `dag`.
#[tactic(auto, unfolding(crate::specs::Commands::dag_words))]
fn read_dag(alloc: Global, words: &[String]) -> Result<Cmd, WordFault>
    ensures exact { ReadsWords result (dag_words (map string_bytes words.now)) }
    ensures limits { IfOk result IsWithinLimits }
{
    let [first, rest @ ..] = words else {
        return Err(WordFault::Usage);
    };
    let name = first.as_str();
    if name == "export" {
        let cid = read_argument(alloc, "CID", rest)?;
        Ok(Cmd::Export { cid })
    } else if name == "import" {
        read_bare(alloc, rest)?;
        Ok(Cmd::Import)
    } else if name == "same" {
        let cid = read_argument(alloc, "CID", rest)?;
        Ok(Cmd::Same { cid })
    } else {
        Err(WordFault::Usage)
    }
}

// A command of the group `pin`.
#[tactic(auto, unfolding(crate::specs::Commands::pin_words))]
fn read_pin(alloc: Global, words: &[String]) -> Result<Cmd, WordFault>
    ensures exact { ReadsWords result (pin_words (map string_bytes words.now)) }
    ensures limits { IfOk result IsWithinLimits }
{
    let [first, rest @ ..] = words else {
        return Err(WordFault::Usage);
    };
    let name = first.as_str();
    if name == "add" {
        let cid = read_argument(alloc, "CID", rest)?;
        Ok(Cmd::PinAdd { cid })
    } else if name == "rm" {
        let cid = read_argument(alloc, "CID", rest)?;
        Ok(Cmd::PinRm { cid })
    } else if name == "ls" {
        read_bare(alloc, rest)?;
        Ok(Cmd::PinLs)
    } else {
        Err(WordFault::Usage)
    }
}

// A command of the group `repo`.
#[tactic(auto, unfolding(crate::specs::Commands::repo_words))]
fn read_repo(alloc: Global, words: &[String]) -> Result<Cmd, WordFault>
    ensures exact { ReadsWords result (repo_words (map string_bytes words.now)) }
    ensures limits { IfOk result IsWithinLimits }
{
    let [first, rest @ ..] = words else {
        return Err(WordFault::Usage);
    };
    if first.as_str() == "gc" {
        read_bare(alloc, rest)?;
        Ok(Cmd::Gc)
    } else {
        Err(WordFault::Usage)
    }
}

// A command that proves or checks what a path has, or one that speaks with a peer.
#[tactic(auto, unfolding(crate::specs::Commands::other_words))]
fn read_other(alloc: Global, name: &str, words: &[String]) -> Result<Cmd, WordFault>
    ensures exact { ReadsWords result (other_words name.now (map string_bytes words.now)) }
    ensures limits { IfOk result IsWithinLimits }
{
    if name == "prove" {
        read_prove(alloc, words)
    } else if name == "check" {
        read_check(alloc, words)
    } else if name == "pull" {
        let cid = read_argument(alloc, "CID", words)?;
        Ok(Cmd::Pull { cid })
    } else if name == "serve" {
        read_bare(alloc, words)?;
        Ok(Cmd::Serve)
    } else {
        Err(WordFault::Usage)
    }
}

// `init [--chunk N] [--width N] [--threshold N]`
#[tactic(auto, unfolding(crate::specs::Commands::init_words))]
fn read_init(alloc: Global, words: &[String]) -> Result<Cmd, WordFault>
    ensures exact { ReadsWords result (init_words (map string_bytes words.now)) }
    ensures limits { IfOk result IsWithinLimits }
{
    let found = find(init_command(alloc)?, words)?;
    let chunk = number_in(&found, "chunk", 262144)?;
    let width = number_in(&found, "width", 174)?;
    let threshold = number_in(&found, "threshold", 262144)?;
    init(chunk, width, threshold)
}

// `init` with these numbers, where they are a profile.
fn init(chunk: u64, width: u64, threshold: u64) -> Result<Cmd, WordFault>
    ensures exact { ReadsWords result (init_of (record { chunk = chunk; width = width; threshold = threshold })) }
    ensures limits { IfOk result IsWithinLimits }
{
    let (Ok(chunk), Ok(width), Ok(threshold)) = (
        u32::try_from(chunk),
        u32::try_from(width),
        u32::try_from(threshold),
    ) else {
        return Err(WordFault::Usage);
    };
    match Profile::new(chunk, width, threshold) {
        Ok(profile) => Ok(Cmd::Init { profile }),
        Err(_) => Err(WordFault::Usage),
    }
}

// `add [-r] [-n] [--to-files PATH] [HOSTPATH]`
#[tactic(auto, unfolding(crate::specs::Commands::add_words))]
fn read_add(alloc: Global, words: &[String]) -> Result<Cmd, WordFault>
    ensures exact { ReadsWords result (add_words (map string_bytes words.now)) }
    ensures limits { IfOk result IsWithinLimits }
{
    let found = find(add_command(alloc)?, words)?;
    let to_files = text_or_none(alloc, &found, "to-files")?;
    let host_path = text_or_none(alloc, &found, "HOSTPATH")?;
    add(
        is_given(&found, "recursive"),
        is_given(&found, "only-hash"),
        to_files,
        host_path,
    )
}

// `add` with these options, where they go together.
fn add(
    recursive: bool,
    only_hash: bool,
    to_files: Option<Text>,
    host_path: Option<Text>,
) -> Result<Cmd, WordFault>
    ensures exact { ReadsWords result (add_of recursive only_hash to_files host_path) }
    ensures limits { IfOk result IsWithinLimits }
{
    if is_placed_well(only_hash, &to_files, host_path.is_some()) {
        Ok(Cmd::Add {
            recursive,
            only_hash,
            to_files,
            host_path,
        })
    } else {
        Err(WordFault::Usage)
    }
}

// Whether there is a place in the tree for what is added, where one is asked for.
fn is_placed_well(only_hash: bool, to_files: &Option<Text>, is_named: bool) -> bool
    ensures { result ≡ places_well only_hash to_files.now is_named }
{
    match to_files {
        None => true,
        Some(dest) => !only_hash && (is_named || !ends_in_slash(dest.as_str())),
    }
}

// Whether the last byte is a slash.
fn ends_in_slash(text: &str) -> bool
    ensures { result ≡ ends_with_slash text.now }
{
    matches!(text.as_bytes(), [.., b'/'])
}

// `files ls [-l] [PATH]`
#[tactic(auto, unfolding(crate::specs::Commands::ls_words))]
fn read_ls(alloc: Global, words: &[String]) -> Result<Cmd, WordFault>
    ensures exact { ReadsWords result (ls_words (map string_bytes words.now)) }
    ensures limits { IfOk result IsWithinLimits }
{
    let found = find(ls_command(alloc)?, words)?;
    let path = owned(alloc, value_of(&found, "PATH").unwrap_or("/"))?;
    Ok(Cmd::Ls {
        long: is_given(&found, "long"),
        path,
    })
}

// `files read [-o N] [-n N] PATH`
#[tactic(auto, unfolding(crate::specs::Commands::read_words_of))]
fn read_read(alloc: Global, words: &[String]) -> Result<Cmd, WordFault>
    ensures exact { ReadsWords result (read_words_of (map string_bytes words.now)) }
    ensures limits { IfOk result IsWithinLimits }
{
    let found = find(read_command(alloc)?, words)?;
    let offset = number_in(&found, "offset", 0)?;
    let count = number_in(&found, "count", u64::MAX)?;
    let path = text_of(alloc, &found, "PATH")?;
    Ok(Cmd::Read {
        offset,
        count,
        path,
    })
}

// `files write [-o N] [-e] [-t] [-x HEX] PATH`
#[tactic(auto, unfolding(crate::specs::Commands::write_words_of))]
fn read_write(alloc: Global, words: &[String]) -> Result<Cmd, WordFault>
    ensures exact { ReadsWords result (write_words_of (map string_bytes words.now)) }
    ensures limits { IfOk result IsWithinLimits }
{
    let found = find(write_command(alloc)?, words)?;
    let offset = number_in(&found, "offset", 0)?;
    let hex = bytes_in(alloc, &found, "hex")?;
    let path = text_of(alloc, &found, "PATH")?;
    Ok(Cmd::Write {
        offset,
        create: is_given(&found, "create"),
        cut: is_given(&found, "truncate"),
        hex,
        path,
    })
}

// The bytes of hexadecimal digits, where the option is given.
fn bytes_in(alloc: Global, found: &ArgMatches<'_>, name: &str) -> Result<Option<Block>, WordFault>
    ensures { ReadsWords result (bytes_or_none (first_of name.now (rows_of (found_of found.now)))) }
{
    match value_of(found, name) {
        Some(digits) => Ok(Some(bytes_of(alloc, digits)?)),
        None => Ok(None),
    }
}

// The bytes of hexadecimal digits, two for each.
fn bytes_of(alloc: Global, digits: &str) -> Result<Block, WordFault>
    ensures { ReadsWords result (decoded_hex digits.now) }
{
    match decode(alloc, digits.as_bytes()) {
        Ok(bytes) => {
            let mut own = Block::new(alloc);
            own.extend(&bytes)?;
            Ok(own)
        }
        Err(FromHexError::OutOfMemory) => Err(WordFault::Memory),
        Err(_) => Err(WordFault::Usage),
    }
}

// `files truncate PATH LENGTH`
#[tactic(auto, unfolding(crate::specs::Commands::truncate_words))]
fn read_truncate(alloc: Global, words: &[String]) -> Result<Cmd, WordFault>
    ensures exact { ReadsWords result (truncate_words (map string_bytes words.now)) }
    ensures limits { IfOk result IsWithinLimits }
{
    let (path, length) = read_arguments(alloc, "PATH", "LENGTH", words)?;
    let length = number(length.as_str())?;
    Ok(Cmd::Truncate { path, length })
}

// `files chmod MODE PATH`
#[tactic(auto, unfolding(crate::specs::Commands::chmod_words))]
fn read_chmod(alloc: Global, words: &[String]) -> Result<Cmd, WordFault>
    ensures exact { ReadsWords result (chmod_words (map string_bytes words.now)) }
    ensures limits { IfOk result IsWithinLimits }
{
    let (digits, path) = read_arguments(alloc, "MODE", "PATH", words)?;
    let mode = mode(digits.as_str())?;
    Ok(Cmd::Chmod { mode, path })
}

// `files touch [--nanos N] SECONDS PATH`
#[tactic(auto, unfolding(crate::specs::Commands::touch_words))]
fn read_touch(alloc: Global, words: &[String]) -> Result<Cmd, WordFault>
    ensures exact { ReadsWords result (touch_words (map string_bytes words.now)) }
    ensures limits { IfOk result IsWithinLimits }
{
    let found = find(touch_command(alloc)?, words)?;
    let nanos = number_in(&found, "nanos", 0)?;
    let seconds = number_of(&found, "SECONDS")?;
    let path = text_of(alloc, &found, "PATH")?;
    if nanos > 999999999 || seconds >= 1 << 63 {
        return Err(WordFault::Usage);
    }
    Ok(Cmd::Touch {
        nanos,
        seconds,
        path,
    })
}

// `prove [--absent] PATH`
#[tactic(auto, unfolding(crate::specs::Commands::prove_words))]
fn read_prove(alloc: Global, words: &[String]) -> Result<Cmd, WordFault>
    ensures exact { ReadsWords result (prove_words (map string_bytes words.now)) }
    ensures limits { IfOk result IsWithinLimits }
{
    let found = find(prove_command(alloc)?, words)?;
    let path = text_of(alloc, &found, "PATH")?;
    Ok(Cmd::Prove {
        absent: is_given(&found, "absent"),
        path,
    })
}

// `check [--absent] CID PATH`
#[tactic(auto, unfolding(crate::specs::Commands::check_words))]
fn read_check(alloc: Global, words: &[String]) -> Result<Cmd, WordFault>
    ensures exact { ReadsWords result (check_words (map string_bytes words.now)) }
    ensures limits { IfOk result IsWithinLimits }
{
    let found = find(check_command(alloc)?, words)?;
    let cid = text_of(alloc, &found, "CID")?;
    let path = text_of(alloc, &found, "PATH")?;
    Ok(Cmd::Check {
        absent: is_given(&found, "absent"),
        cid,
        path,
    })
}

// `gen N SEED`
#[tactic(auto, unfolding(crate::specs::Commands::gen_words))]
fn read_gen(alloc: Global, words: &[String]) -> Result<Cmd, WordFault>
    ensures exact { ReadsWords result (gen_words (map string_bytes words.now)) }
    ensures limits { IfOk result IsWithinLimits }
{
    let (n, seed) = read_arguments(alloc, "N", "SEED", words)?;
    let n = number(n.as_str())?;
    let seed = number(seed.as_str())?;
    if n > 20000 {
        return Err(WordFault::Usage);
    }
    Ok(Cmd::Gen { n, seed })
}

// No options and no arguments.
#[tactic(auto, unfolding(crate::specs::Commands::bare))]
fn read_bare(alloc: Global, words: &[String]) -> Result<(), WordFault>
    ensures { ReadsWords result (bare (map string_bytes words.now)) }
{
    find(bare_command(alloc), words)?;
    Ok(())
}

// One argument.
#[tactic(auto, unfolding(crate::specs::Commands::one_argument))]
fn read_argument(alloc: Global, name: &str, words: &[String]) -> Result<Text, WordFault>
    ensures { ReadsWords result (one_argument name.now (map string_bytes words.now)) }
{
    let found = find(one_argument_command(alloc, name)?, words)?;
    text_of(alloc, &found, name)
}

// Two arguments.
#[tactic(auto, unfolding(crate::specs::Commands::two_arguments))]
fn read_arguments(
    alloc: Global,
    first: &str,
    second: &str,
    words: &[String],
) -> Result<(Text, Text), WordFault>
    ensures { ReadsWords result (two_arguments first.now second.now (map string_bytes words.now)) }
{
    let found = find(two_arguments_command(alloc, first, second)?, words)?;
    let one = text_of(alloc, &found, first)?;
    let other = text_of(alloc, &found, second)?;
    Ok((one, other))
}

// A flag and one argument.
#[tactic(auto, unfolding(crate::specs::Commands::flag_and_argument))]
fn read_flagged(
    alloc: Global,
    name: &str,
    letter: char,
    value: &str,
    words: &[String],
) -> Result<(bool, Text), WordFault>
    ensures { ReadsWords result (flag_and_argument name.now letter value.now (map string_bytes words.now)) }
{
    let found = find(flagged_command(alloc, name, letter, value)?, words)?;
    let text = text_of(alloc, &found, value)?;
    Ok((is_given(&found, name), text))
}
