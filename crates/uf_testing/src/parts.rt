//! The parts of a transcript, and their lines.

use crate::sheet::{Sheet, begins_row, ends_part};
use std::alloc::Global;
use std::sync::ledger::Ledger;
use uf_cid::{Block, Memory};
use uf_store::Steps;

/// What lines are played over, and how.
pub trait Stage<How> {
    /// Does what a line that begins a row asks for, and reports what comes of it.
    fn step<L: Ledger>(
        &mut self,
        line: &str,
        told: &mut Block,
        touches: &mut Steps<L>,
    ) -> Result<(), Memory>;
}

/// How a program plays the parts of a transcript.
pub trait Parts {
    /// Plays a part, of which this is the first line.
    fn play<L: Ledger>(
        alloc: Global,
        title: &str,
        part: &str,
        sheet: &mut Sheet,
        touches: &mut Steps<L>,
    ) -> Result<(), Memory>;
}

/// Plays these lines of a part, each over what the one before left.
pub fn play_lines<How, S: Stage<How>, L: Ledger>(
    stage: &mut S,
    title: &str,
    lines: &str,
    sheet: &mut Sheet,
    touches: &mut Steps<L>,
) -> Result<(), Memory> {
    for line in lines.lines() {
        if begins_row(title, line, sheet)? {
            stage.step::<L>(line, &mut sheet.came, touches)?;
        }
    }
    sheet.settle(title)
}

/// Plays all parts of a transcript, between which there are empty lines.
pub fn play_parts<P: Parts, L: Ledger>(
    alloc: Global,
    script: &str,
    sheet: &mut Sheet,
    touches: &mut Steps<L>,
) -> Result<(), Memory> {
    let mut is_first = true;
    for part in script.split("\n\n") {
        if !is_first {
            ends_part(sheet)?;
        }
        is_first = false;
        let title = part.lines().next().unwrap_or("");
        P::play::<L>(alloc, title, part, sheet, touches)?;
    }
    Ok(())
}
