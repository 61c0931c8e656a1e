//! What is printed of pins.
ghost use Rattle.std.specs.Prelude.{◌≡◌, ◌++◌, IfOk, OnOk};
ghost use Rattle.std.specs.List.{flat_map};
ghost use Rattle.uf_command.specs.Pins.{cid_line, removed_line};

use crate::rows::put_number;
use std::alloc::Global;
use uf_cid::{Block, Cid, Cids, Memory};

/// CIDs, each in a line.
pub fn cid_lines(alloc: Global, cids: &Cids) -> Result<Block, Memory>
    ensures { IfOk result (λ out. out ≡ flat_map cid_line cids.now) }
{
    let mut out = Block::new(alloc);
    for cid in cids.as_slice() {
        put_cid(&mut out, cid)?;
    }
    Ok(out)
}

fn put_cid(out: &mut Block, cid: &Cid) -> Result<(), Memory>
    ensures { OnOk result (out.new ≡ out.old ++ cid_line cid.now) }
{
    out.extend(&cid.text())?;
    out.extend(b"\n")?;
    Ok(())
}

/// How many blocks a collection let go, in a line.
pub fn removed_row(alloc: Global, count: u64) -> Result<Block, Memory>
    ensures { IfOk result (λ row. row ≡ removed_line count) }
{
    let mut row = Block::new(alloc);
    put_number(alloc, &mut row, b"removed ", count)?;
    Ok(row)
}
