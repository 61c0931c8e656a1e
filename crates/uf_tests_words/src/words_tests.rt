use std::alloc::{AllocError, Global};
use std::test::*;
use uf_cid::{Block, Text};
use uf_words::*;

mod generated;
mod rows;

use generated::GENERATED;
use rows::{LINES, REFUSED, ROWS};

// The words of a line, cut at each space.
fn words_of(alloc: Global, line: &str) -> Result<Vec<String>, AllocError> {
    let mut words = Vec::new(alloc);
    for word in line.split(' ') {
        words.push(String::from_str(alloc, word)?)?;
    }
    Ok(words)
}

// What a text says, or `.` where there is none.
fn or_dot(text: &Option<Text>) -> &str {
    match text {
        Some(text) => text.as_str(),
        None => ".",
    }
}

// How many bytes are given, or `.` where none are.
fn size(alloc: Global, bytes: &Option<Block>) -> Result<String, AllocError> {
    match bytes {
        Some(bytes) => hex::encode(alloc, bytes.as_slice()),
        None => format!(in alloc; "."),
    }
}

// A command with its options and arguments, each after one `|`.
fn spelled(alloc: Global, cmd: &Cmd) -> Result<String, AllocError> {
    match cmd {
        Cmd::Init { profile } => {
            let (chunk, width, threshold) = (profile.chunk, profile.width, profile.threshold);
            format!(in alloc; "init|{chunk}|{width}|{threshold}")
        }
        Cmd::Add {
            recursive,
            only_hash,
            to_files,
            host_path,
        } => {
            let (dest, path) = (or_dot(to_files), or_dot(host_path));
            format!(in alloc; "add|{recursive}|{only_hash}|{dest}|{path}")
        }
        Cmd::Cat { target } => with_text(alloc, "cat", target),
        Cmd::Get { target, host_path } => with_texts(alloc, "get", target, host_path),
        Cmd::Import => format!(in alloc; "import"),
        Cmd::Batch => format!(in alloc; "batch"),
        Cmd::Gen { n, seed } => format!(in alloc; "gen|{n}|{seed}"),
        Cmd::Export { cid } => with_text(alloc, "export", cid),
        Cmd::Same { cid } => with_text(alloc, "same", cid),
        Cmd::PinAdd { cid } => with_text(alloc, "pin-add", cid),
        Cmd::PinRm { cid } => with_text(alloc, "pin-rm", cid),
        Cmd::PinLs => format!(in alloc; "pin-ls"),
        Cmd::Gc => format!(in alloc; "gc"),
        Cmd::Prove { absent, path } => with_flag(alloc, "prove", *absent, path),
        Cmd::Check { absent, cid, path } => {
            let (cid, path) = (cid.as_str(), path.as_str());
            format!(in alloc; "check|{absent}|{cid}|{path}")
        }
        Cmd::Pull { cid } => with_text(alloc, "pull", cid),
        Cmd::Serve => format!(in alloc; "serve"),
        cmd => spelled_of_files(alloc, cmd),
    }
}

// The same of a command of the group `files`.
fn spelled_of_files(alloc: Global, cmd: &Cmd) -> Result<String, AllocError> {
    match cmd {
        Cmd::Mkdir { parents, path } => with_flag(alloc, "mkdir", *parents, path),
        Cmd::Ls { long, path } => with_flag(alloc, "ls", *long, path),
        Cmd::Stat { path } => with_text(alloc, "stat", path),
        Cmd::Read {
            offset,
            count,
            path,
        } => {
            let path = path.as_str();
            format!(in alloc; "read|{offset}|{count}|{path}")
        }
        Cmd::Write {
            offset,
            create,
            cut,
            hex,
            path,
        } => {
            let (bytes, path) = (size(alloc, hex)?, path.as_str());
            format!(in alloc; "write|{offset}|{create}|{cut}|{bytes}|{path}")
        }
        Cmd::Truncate { path, length } => {
            let path = path.as_str();
            format!(in alloc; "truncate|{path}|{length}")
        }
        Cmd::Cp { source, dest } => with_texts(alloc, "cp", source, dest),
        Cmd::Mv { source, dest } => with_texts(alloc, "mv", source, dest),
        Cmd::Rm { recursive, path } => with_flag(alloc, "rm", *recursive, path),
        Cmd::Chmod { mode, path } => {
            let path = path.as_str();
            format!(in alloc; "chmod|{mode}|{path}")
        }
        Cmd::Touch {
            nanos,
            seconds,
            path,
        } => {
            let path = path.as_str();
            format!(in alloc; "touch|{nanos}|{seconds}|{path}")
        }
        Cmd::Strip { path } => with_text(alloc, "strip", path),
        _ => format!(in alloc; "another"),
    }
}

// A command with one text.
fn with_text(alloc: Global, name: &str, text: &Text) -> Result<String, AllocError> {
    let text = text.as_str();
    format!(in alloc; "{name}|{text}")
}

// A command with two texts.
fn with_texts(alloc: Global, name: &str, one: &Text, other: &Text) -> Result<String, AllocError> {
    let (one, other) = (one.as_str(), other.as_str());
    format!(in alloc; "{name}|{one}|{other}")
}

// A command with one flag and one text.
fn with_flag(alloc: Global, name: &str, flag: bool, text: &Text) -> Result<String, AllocError> {
    let text = text.as_str();
    format!(in alloc; "{name}|{flag}|{text}")
}

// What reading the words of a line says.
fn answer(alloc: Global, line: &str) -> Result<String, AllocError> {
    match read_words(alloc, &words_of(alloc, line)?) {
        Ok(cmd) => spelled(alloc, &cmd),
        Err(WordFault::Usage) => format!(in alloc; "usage"),
        Err(WordFault::Memory) => format!(in alloc; "memory"),
    }
}

// The first row of a table whose words are not what it says.
fn first_wrong<'a>(alloc: Global, rows: &'a str) -> Result<Option<&'a str>, AllocError> {
    for row in rows.lines() {
        let (line, expected) = row.split_once(" => ").unwrap_or((row, ""));
        if answer(alloc, line)?.as_str() != expected {
            return Ok(Some(row));
        }
    }
    Ok(None)
}

// Each command, each option in both spellings, alone, together and in another order.
#[test]
fn commands(rt: HostRuntime) -> Result<(), Fail> {
    assert_eq!(rt; first_wrong(rt.alloc(), ROWS)?, None);
    Ok(())
}

// Words that are no command.
#[test]
fn words_of_no_command(rt: HostRuntime) -> Result<(), Fail> {
    assert_eq!(rt; first_wrong(rt.alloc(), REFUSED)?, None);
    Ok(())
}

// Word lists made at random, with what they are by a model of the table of commands.
#[test]
fn generated_word_lists(rt: HostRuntime) -> Result<(), Fail> {
    assert_eq!(rt; first_wrong(rt.alloc(), GENERATED)?, None);
    Ok(())
}

// The words of a line, each after `|`, or `usage`.
fn told_of_line(alloc: Global, line: &str) -> Result<String, AllocError> {
    let words = match split_line(alloc, line.as_bytes()) {
        Ok(words) => words,
        Err(_) => return format!(in alloc; "usage"),
    };
    let mut told = String::new(alloc);
    for word in &words {
        told.push('|')?;
        told.push_str(word)?;
    }
    Ok(told)
}

// The first row of lines whose words are not what it says.
fn first_wrong_line<'a>(alloc: Global, rows: &'a str) -> Result<Option<&'a str>, AllocError> {
    for row in rows.lines() {
        let (line, expected) = row.split_once(" => ").unwrap_or((row, ""));
        if told_of_line(alloc, line)?.as_str() != expected {
            return Ok(Some(row));
        }
    }
    Ok(None)
}

// Lines and their words.
#[test]
fn lines(rt: HostRuntime) -> Result<(), Fail> {
    assert_eq!(rt; first_wrong_line(rt.alloc(), LINES)?, None);
    assert_eq!(rt;
        split_line(rt.alloc(), b"a \xff").err(),
        Some(WordFault::Usage)
    );
    Ok(())
}

// Texts and how they are printed.
#[test]
fn printed_texts(rt: HostRuntime) -> Result<(), Fail> {
    for (text, printed) in [
        ("", ""),
        ("a b%", "a%20b%25"),
        ("/a/b c", "/a/b%20c"),
        ("%20", "%2520"),
        ("\t\n\u{7f}~!", "%09%0A%7F~!"),
        ("ä/日", "%C3%A4/%E6%97%A5"),
        ("😀\0", "%F0%9F%98%80%00"),
    ] {
        assert_eq!(rt; shown(rt.alloc(), text)?.as_str(), printed, "at {text}");
    }
    Ok(())
}

// How the bytes of a text are printed, one by one.
fn printed_bytes(alloc: Global, bytes: &[u8]) -> Result<String, AllocError> {
    let digits = b"0123456789ABCDEF";
    let mut all = String::new(alloc);
    for byte in bytes {
        if matches!(*byte, b'!'..=b'$' | b'&'..=b'~') {
            all.push(char::from(*byte))?;
        } else {
            all.push('%')?;
            all.push(char::from(digits[(*byte / 16) as usize]))?;
            all.push(char::from(digits[(*byte % 16) as usize]))?;
        }
    }
    Ok(all)
}

// Whether the character is printed byte by byte.
fn is_printed(alloc: Global, code: u32) -> Result<bool, Fail> {
    let mut name = String::new(alloc);
    name.push(char::from_u32(code).ok_or("a character")?)?;
    let expected = printed_bytes(alloc, name.as_bytes())?;
    Ok(shown(alloc, &name)?.as_str() == expected.as_str())
}

// Names with every byte from 1 to 255 that UTF-8 allows.
#[test]
fn names_of_every_byte(rt: HostRuntime) -> Result<(), Fail> {
    for code in 1..0x800 {
        assert!(rt; is_printed(rt.alloc(), code)?, "at {code}");
    }
    for code in [
        0x800, 0x1000, 0x2000, 0x3000, 0x4000, 0x5000, 0x6000, 0x7000, 0x8000, 0x9000, 0xa000,
        0xb000, 0xc000, 0xd000, 0xe000, 0xf000, 0x1_0000, 0x4_0000, 0x8_0000, 0xc_0000, 0x10_0000,
    ] {
        assert!(rt; is_printed(rt.alloc(), code)?, "at {code}");
    }
    Ok(())
}
