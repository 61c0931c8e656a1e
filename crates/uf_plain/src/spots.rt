//! Names on the way to where something is put.
ghost use Rattle.std.specs.Prelude.{◌≡◌, ◌++◌, ◌∷◌, [], IfOk};

use crate::Spot;
use std::alloc::Global;
use uf_cid::Memory;
use uf_tree::{Name, Names};

/// The names of something under a name in a folder.
pub fn joined_names(alloc: Global, folder: &[Name], name: &Name) -> Result<Names, Memory>
    ensures { IfOk result (λ names. names ≡ folder.now ++ name.now ∷ []) }
{
    let mut names = copied(alloc, folder)?;
    names.push(name.copy()?)?;
    Ok(names)
}

// These names in a list.
fn copied(alloc: Global, names: &[Name]) -> Result<Names, Memory>
    ensures { IfOk result (λ list. list ≡ names.now) }
{
    let mut list = Names::new(alloc);
    for name in names {
        list.push(name.copy()?)?;
    }
    Ok(list)
}

/// The spot of a name in a folder.
pub fn spot_of(alloc: Global, folder: &[Name], name: &Name) -> Result<Spot, Memory>
    ensures { IfOk result (λ spot. spot ≡ record { folder = folder.now; name = name.now }) }
{
    Ok(Spot {
        folder: copied(alloc, folder)?,
        name: name.copy()?,
    })
}
