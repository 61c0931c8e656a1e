//! What is said of CARs.
ghost use Rattle.std.specs.Prelude.{◌≡◌, ◌++◌, IfOk, OnOk};
ghost use Rattle.std.specs.List.{flat_map};
ghost use Rattle.uf_command.specs.Cars.{root_line, section_refusal as refusal_of_section};
ghost use Rattle.uf_command.specs.Statuses.{own_refusal as refusal_of_own};

use crate::Refusal;
use std::alloc::Global;
use uf_cid::{Block, Cid, Cids, Memory};
use uf_store::StoreFault;

/// A fault of the store into which a CAR was read, as a refusal: its sections lack a block, or two of them clash. Such
/// a store is made for the CAR, and fails only out of memory.
pub fn section_refusal(fault: StoreFault) -> Refusal
    ensures { result ≡ refusal_of_section fault }
{
    match fault {
        StoreFault::Missing(cid) => Refusal::CarLacks(cid),
        fault => own_refusal(fault),
    }
}

/// A fault of a store of a command's own, as a refusal. Such a store holds what it was given and doesn't fail: what is
/// no clash is out of memory.
pub fn own_refusal(fault: StoreFault) -> Refusal
    ensures { result ≡ refusal_of_own fault }
{
    match fault {
        StoreFault::Clash(cid, first, second) => Refusal::OwnClash(cid, first, second),
        StoreFault::Failed
        | StoreFault::Damaged(_)
        | StoreFault::Missing(_)
        | StoreFault::BadBlock(_, _)
        | StoreFault::Memory => Refusal::Store(StoreFault::Memory),
    }
}

/// The roots of a CAR, each in a line.
pub fn root_lines(alloc: Global, roots: &Cids) -> Result<Block, Memory>
    ensures { IfOk result (λ out. out ≡ flat_map root_line roots.now) }
{
    let mut out = Block::new(alloc);
    for root in roots.as_slice() {
        put_root(&mut out, root)?;
    }
    Ok(out)
}

fn put_root(out: &mut Block, root: &Cid) -> Result<(), Memory>
    ensures { OnOk result (out.new ≡ out.old ++ root_line root.now) }
{
    out.extend(b"root ")?;
    out.extend(&root.text())?;
    out.extend(b"\n")?;
    Ok(())
}
