//! Calls on what is said of the tree with no store.

use crate::dirs::name_of;
use std::alloc::Global;
use uf_cid::{Block, Cid, Codec, Memory, Sha256Hash};
use uf_path::Path;
use uf_plain::{Refused, Row, Rows, Rule, rule_at};
use uf_testing::{number_and_rest, say, word_and_rest};

// The text of a rule about a path.
fn text_of(rule: &Rule) -> &str {
    match rule {
        Rule::NotFound(text) => text.as_str(),
        _ => "none",
    }
}

/// What a rule says that is decided by the first names of a path: `rule LED PATH`.
pub fn rule(alloc: Global, rest: &str, told: &mut Block) -> Result<(), Memory> {
    let (led, text) = number_and_rest(rest);
    let led = led.min(255) as usize;
    let Ok(path) = Path::parse(alloc, text) else {
        return Err(Memory);
    };
    let rule = rule_at(alloc, path.names.as_slice(), Refused::NotFound(led))?;
    say(told, text_of(&rule))
}

// Puts a row after others.
fn add_row(alloc: Global, rows: &mut Rows, text: &str, size: u64) -> Result<(), Memory> {
    let cid = Cid::of::<Sha256Hash>(Codec::Raw, b"hello world");
    let name = name_of(alloc, text)?;
    rows.push(Row { name, cid, size })
}

fn tell_row(alloc: Global, row: &Row, told: &mut Block) -> Result<(), Memory> {
    let cid = row.cid.text();
    let text = str::from_utf8(&cid).unwrap_or("?");
    let line = format!(in alloc; "{} {text} {}", row.name.as_str(), row.size)?;
    say(told, line.as_str())
}

/// Two rows, copied: `rows NAME SIZE NAME SIZE`.
pub fn rows(alloc: Global, rest: &str, told: &mut Block) -> Result<(), Memory> {
    let (first, rest) = word_and_rest(rest);
    let (first_size, rest) = number_and_rest(rest);
    let (second, rest) = word_and_rest(rest);
    let (second_size, _) = number_and_rest(rest);
    let mut rows = Rows::new(alloc);
    add_row(alloc, &mut rows, first, first_size)?;
    add_row(alloc, &mut rows, second, second_size)?;
    let copy = rows.copy()?;
    for row in copy.as_slice() {
        tell_row(alloc, row, told)?;
    }
    Ok(())
}
