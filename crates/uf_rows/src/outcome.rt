//! How commands ended.

use std::alloc::Global;
use uf_cid::{Block, Memory};

/// How a command ended, and whether it wrote to the store. That isn't reported where the store failed, which may have
/// taken some blocks then.
pub fn tell_status(told: &mut Block, alloc: Global, status: u8, wrote: bool) -> Result<(), Memory> {
    let line = format!(in alloc;
        "= {status}{}\n",
        if wrote && status != 3 { " wrote" } else { "" }
    )?;
    told.extend(line.as_bytes())
}
