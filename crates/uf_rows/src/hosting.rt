//! Hosts that have what lines say.

use crate::words::{Word, word_of};
use std::alloc::Global;
use uf_cid::{Memory, Text};
use uf_edge::MemHost;
use uf_testing::{calls, number_and_rest, plant};

// Puts a folder there, and another name after its path.
fn plant_next(
    alloc: Global,
    host: &mut MemHost,
    path: &mut Text,
    name: &str,
) -> Result<(), Memory> {
    plant(alloc, host, path.as_str(), None)?;
    path.push_str("/")?;
    path.push_str(name)
}

// Puts folders of one name into each other, this many.
fn plant_folders(alloc: Global, host: &mut MemHost, rest: &str) -> Result<(), Memory> {
    let (count, name) = number_and_rest(rest);
    let mut path = Text::new(alloc);
    path.push_str(name)?;
    for _ in 0..count {
        plant_next(alloc, host, &mut path, name)?;
    }
    Ok(())
}

// Puts a file there. A tab ends its path where the line has one, and else a space.
fn plant_file(alloc: Global, host: &mut MemHost, rest: &str) -> Result<(), Memory> {
    let end = if rest.contains('\t') { '\t' } else { ' ' };
    let (path, text) = rest.split_once(end).unwrap_or((rest, ""));
    plant(alloc, host, path, Some(text.as_bytes()))
}

// Puts there what a line says.
fn plant_line(alloc: Global, host: &mut MemHost, line: &str) -> Result<(), Memory> {
    let (word, rest) = word_of(line);
    match word {
        Some(Word::File) => plant_file(alloc, host, rest),
        Some(Word::Folders) => plant_folders(alloc, host, rest),
        _ => plant(alloc, host, rest, None),
    }
}

// How many calls that takes.
fn calls_of(line: &str) -> u64 {
    let (word, rest) = word_of(line);
    let (path, _) = rest.split_once(' ').unwrap_or((rest, ""));
    match word {
        Some(Word::Folders) => number_and_rest(rest).0.saturating_mul(2).saturating_sub(1),
        _ if path.contains('/') => 2,
        _ => 1,
    }
}

fn calls_of_all(lines: &str) -> u64 {
    let mut calls = 0u64;
    for line in lines.lines() {
        calls = calls.saturating_add(calls_of(line));
    }
    calls
}

fn plant_all(alloc: Global, host: &mut MemHost, lines: &str) -> Result<(), Memory> {
    for line in lines.lines() {
        plant_line(alloc, host, line)?;
    }
    Ok(())
}

/// A host that has what these lines say. The call after this many may fail.
pub fn host_with(alloc: Global, lines: &str, fails: Option<u64>) -> Result<MemHost, Memory> {
    let planting = calls_of_all(lines);
    let call = fails.map(|number| planting.saturating_add(number));
    let mut host = MemHost::new(alloc, calls(alloc, call)?);
    plant_all(alloc, &mut host, lines)?;
    Ok(host)
}
