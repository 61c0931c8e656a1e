//! What commands print.
ghost use Rattle.std.specs.Prelude.{◌≡◌, ◌++◌, IfOk, OnOk, string_bytes};
ghost use Rattle.std.specs.Fmt.{decimal};
ghost use Rattle.std.specs.List.{flat_map};
ghost use Rattle.uf_command.specs.Lines.{added_line, from_line, line, mode_line, mtime_line, mtime_text, name_line};
ghost use Rattle.uf_command.specs.Lines.{row_line, stat_text as text_of_stat, type_word};

use crate::lines::wrapped;
use std::alloc::Global;
use uf_cid::{Block, Cid, Memory};
use uf_message::Mtime;
use uf_plain::{Row, Rows, Stat};
use uf_tree::Names;
use uf_words::shown;

/// The row of a file that was added from the input: its CID stands for its name.
pub fn added_row(alloc: Global, cid: &Cid) -> Result<Block, Memory>
    ensures { IfOk result (λ row. row ≡ added_line cid.now) }
{
    let text = cid.text();
    let mut row = Block::new(alloc);
    row.extend(b"added ")?;
    row.extend(&text)?;
    row.extend(b" ")?;
    row.extend(&text)?;
    row.extend(b"\n")?;
    Ok(row)
}

/// Puts the row of what was added from the host after others: its CID, and its path as it is shown.
pub fn put_added(alloc: Global, out: &mut Block, cid: &Cid, path: &str) -> Result<(), Memory>
    ensures { OnOk result (out.new ≡ out.old ++ from_line cid.now path.now) }
{
    let text = shown(alloc, path)?;
    out.extend(b"added ")?;
    out.extend(&cid.text())?;
    out.extend(b" ")?;
    out.extend(text.as_str().as_bytes())?;
    out.extend(b"\n")?;
    Ok(())
}

/// Names as they are shown, each in a line.
pub fn name_lines(alloc: Global, names: &Names) -> Result<Block, Memory>
    ensures { IfOk result (λ out. out ≡ flat_map name_line names.now) }
{
    let mut out = Block::new(alloc);
    for name in names.as_slice() {
        put_name(alloc, &mut out, name.as_str())?;
    }
    Ok(out)
}

fn put_name(alloc: Global, out: &mut Block, name: &str) -> Result<(), Memory>
    ensures { OnOk result (out.new ≡ out.old ++ name_line name.now) }
{
    let text = shown(alloc, name)?;
    out.extend(text.as_str().as_bytes())?;
    out.extend(b"\n")?;
    Ok(())
}

/// Rows, each in a line, with tabs between name, CID and size.
pub fn row_lines(alloc: Global, rows: &Rows) -> Result<Block, Memory>
    ensures { IfOk result (λ out. out ≡ flat_map row_line rows.now) }
{
    let mut out = Block::new(alloc);
    for row in rows.as_slice() {
        put_row(alloc, &mut out, row)?;
    }
    Ok(out)
}

fn put_row(alloc: Global, out: &mut Block, row: &Row) -> Result<(), Memory>
    ensures { OnOk result (out.new ≡ out.old ++ row_line row.now) }
{
    let size = row.size;
    let digits = format!(in alloc; "{size}")?;
    let text = shown(alloc, row.name.as_str())?;
    out.extend(text.as_str().as_bytes())?;
    out.extend(b"\t")?;
    out.extend(&row.cid.text())?;
    out.extend(b"\t")?;
    out.extend(digits.as_bytes())?;
    out.extend(b"\n")?;
    Ok(())
}

/// What is said of a file or a directory: five lines, and one for its mode and its mtime where there are such.
pub fn stat_text(alloc: Global, stat: &Stat) -> Result<Block, Memory>
    ensures { IfOk result (λ out. out ≡ text_of_stat stat.now) }
{
    let mut out = wrapped(alloc, &stat.cid.text(), b"")?;
    put_number(alloc, &mut out, b"Size: ", stat.size)?;
    put_number(alloc, &mut out, b"CumulativeSize: ", stat.cumulative)?;
    put_number(alloc, &mut out, b"ChildBlocks: ", stat.children)?;
    put_line(&mut out, b"Type: ", word_of_type(stat.is_folder))?;
    put_mode(alloc, &mut out, stat.meta.mode)?;
    put_mtime(alloc, &mut out, stat.meta.mtime)?;
    Ok(out)
}

// Puts the line of a mode after the text, where there is one: four octal digits at least.
#[tactic(auto, using(crate::proofs::Padded::four_at_least))]
fn put_mode(alloc: Global, out: &mut Block, mode: Option<u32>) -> Result<(), Memory>
    ensures { OnOk result (out.new ≡ out.old ++ mode_line mode) }
{
    let Some(mode) = mode else { return Ok(()) };
    let digits = format!(in alloc; "{mode:04o}")?;
    put_line(out, b"Mode: ", digits.as_bytes())
}

// Puts the line of an mtime after the text, where there is one.
fn put_mtime(alloc: Global, out: &mut Block, mtime: Option<Mtime>) -> Result<(), Memory>
    ensures { OnOk result (out.new ≡ out.old ++ mtime_line mtime) }
{
    let Some(time) = mtime else { return Ok(()) };
    let text = text_of_time(alloc, time)?;
    put_line(out, b"Mtime: ", text.as_bytes())
}

// An mtime as text: its seconds, and a point and nine digits where there are nanoseconds.
#[tactic(auto, using(crate::proofs::Padded::nine_at_least))]
fn text_of_time(alloc: Global, time: Mtime) -> Result<String, Memory>
    ensures { IfOk result (λ text. string_bytes text ≡ mtime_text time) }
{
    let seconds = time.seconds;
    match time.nanos {
        None => Ok(format!(in alloc; "{seconds}")?),
        Some(nanos) => Ok(format!(in alloc; "{seconds}.{nanos:09}")?),
    }
}

/// Puts a line with a number after the text.
pub fn put_number(alloc: Global, out: &mut Block, word: &[u8], number: u64) -> Result<(), Memory>
    ensures { OnOk result (out.new ≡ out.old ++ line word.now (decimal number)) }
{
    let digits = format!(in alloc; "{number}")?;
    put_line(out, word, digits.as_bytes())?;
    Ok(())
}

/// Puts a line after the text: a word, what stands after it, and a line feed.
pub fn put_line(out: &mut Block, word: &[u8], rest: &[u8]) -> Result<(), Memory>
    ensures { OnOk result (out.new ≡ out.old ++ line word.now rest.now) }
{
    out.extend(word)?;
    out.extend(rest)?;
    out.extend(b"\n")?;
    Ok(())
}

fn word_of_type(is_folder: bool) -> &'static [u8]
    ensures { result.now ≡ type_word is_folder }
{
    match is_folder {
        true => b"directory",
        false => b"file",
    }
}
