//! What is printed: the transcript as far as it was played, and at each row that came otherwise what came.

use std::alloc::Global;
use uf_cid::{Block, Memory};

/// The text that is printed, and the row that is played: its number, what is wanted of it, and what came of it.
#[derive(Drop)]
pub struct Sheet {
    alloc: Global,
    text: Block,
    pub came: Block,
    wanted: Block,
    number: u64,
    row: u64,
    is_as_wanted: bool,
}

impl Sheet {
    /// Nothing yet.
    pub fn new(alloc: Global) -> Self {
        Sheet {
            alloc,
            text: Block::new(alloc),
            came: Block::new(alloc),
            wanted: Block::new(alloc),
            number: 0,
            row: 0,
            is_as_wanted: true,
        }
    }

    pub fn text(&self) -> &[u8] {
        self.text.as_slice()
    }

    /// Whether what is wanted came of each row.
    pub fn is_as_wanted(&self) -> bool {
        self.is_as_wanted
    }

    /// Goes on to the next line.
    pub fn count_line(&mut self) {
        self.number = self.number.saturating_add(1);
    }

    /// A line of what is wanted of the row.
    pub fn want(&mut self, line: &str) -> Result<(), Memory> {
        self.wanted.extend(line.as_bytes())?;
        self.wanted.extend(b"\n")
    }

    /// A line that is printed as it is. It begins a row.
    pub fn tell(&mut self, line: &str) -> Result<(), Memory> {
        self.row = self.number;
        self.text.extend(line.as_bytes())?;
        self.text.extend(b"\n")
    }

    /// Ends a row of this part: reports what came of it, and what was wanted where that is something else.
    pub fn settle(&mut self, part: &str) -> Result<(), Memory> {
        if self.came.as_slice() == self.wanted.as_slice() {
            self.text.extend(self.came.as_slice())?;
        } else {
            self.is_as_wanted = false;
            self.tell_difference(part)?;
        }
        self.came = Block::new(self.alloc);
        self.wanted = Block::new(self.alloc);
        Ok(())
    }

    fn tell_difference(&mut self, part: &str) -> Result<(), Memory> {
        let head = format!(in self.alloc; "! LINE {} DIFFERS, {part}\n! WANTED\n", self.row)?;
        self.text.extend(head.as_bytes())?;
        self.text.extend(self.wanted.as_slice())?;
        self.text.extend(b"! CAME\n")?;
        self.text.extend(self.came.as_slice())
    }
}

/// Reads a line of what is wanted, or ends the row before this line and reports it: whether it begins a row.
pub fn begins_row(part: &str, line: &str, sheet: &mut Sheet) -> Result<bool, Memory> {
    sheet.count_line();
    if line.starts_with('>') || line.starts_with('?') || line.starts_with('=') {
        sheet.want(line)?;
        return Ok(false);
    }
    sheet.settle(part)?;
    sheet.tell(line)?;
    Ok(true)
}

/// Ends a part: an empty line parts it from the next one.
pub fn ends_part(sheet: &mut Sheet) -> Result<(), Memory> {
    sheet.count_line();
    sheet.tell("")
}
