//! A program that plays a transcript.
ghost use Rattle.std.specs.Prelude.{◌≡◌, ◌<◌};

use crate::parts::{Parts, play_parts};
use crate::sheet::Sheet;
use std::alloc::Global;
use std::io;
use std::io::{Input, Print};
use std::marker::Brand;
use std::process::ExitCode;
use std::sync::ledger::{Blank, Ledger};
use uf_cid::Memory;
use uf_store::Steps;

/// Plays the transcript that is the input, and prints it again. The status is 0 where each row came as it is wanted.
pub fn play_input<P: Parts, R: Input + Print + AllocGlobal>(rt: &R) -> io::Result<ExitCode> {
    let mut script = String::new(rt.alloc());
    for line in rt.lines(rt.alloc()) {
        script.push_str(line?.as_str())?;
        script.push_str("\n")?;
    }
    let Ok(sheet) = sheet_of::<P>(rt.alloc(), script) else {
        return Ok(ExitCode::from(1));
    };
    print!(rt; "{}", str::from_utf8(sheet.text()).unwrap_or("no text"))?;
    Ok(ExitCode::from(if sheet.is_as_wanted() { 0 } else { 1 }))
}

// What comes of a transcript.
fn sheet_of<P: Parts>(alloc: Global, script: String) -> Result<Sheet, Memory> {
    sheet_by::<P, Brand>(alloc, script, Blank::new(1))
}

fn sheet_by<P: Parts, L: Ledger>(
    alloc: Global,
    script: String,
    blank: Blank,
) -> Result<Sheet, Memory>
    requires name { blank.name ≡ L.name }
    requires parts { blank.parts ≡ L.parts }
    requires some { 0 < blank.parts }
{
    let mut touches = Steps::<L>::new(blank);
    let mut sheet = Sheet::new(alloc);
    play_parts::<P, L>(alloc, script.as_str(), &mut sheet, &mut touches)?;
    Ok(sheet)
}
