//! Where a walk is.
ghost use Rattle.std.specs.Prelude.{◌≡◌, ◌∷◌, ◌++◌, IfOk};
ghost use Rattle.uf_edge.specs.Host.{front};

use std::alloc::Global;
use uf_cid::{Memory, Text};

// Where a walk is: the path in the host, and the path of the row.
#[derive(Drop)]
pub struct Site {
    pub path: Text,
    pub row: Text,
}

impl Site {
    // The site of a member of the folder at this one.
    pub fn member(&self, alloc: Global, name: &str) -> Result<Site, Memory>
        ensures path { IfOk result (λ s. s.path ≡ front self.now.path ++ name.now) }
        ensures row { IfOk result (λ s. s.row ≡ self.now.row ++ 47 ∷ name.now) }
    {
        let path = path_of(alloc, self.path.as_str(), name)?;
        let row = joined(alloc, self.row.as_str(), "/", name)?;
        Ok(Site { path, row })
    }
}

// The path of a member of a folder.
pub fn path_of(alloc: Global, folder: &str, name: &str) -> Result<Text, Memory>
    ensures { IfOk result (λ text. text ≡ front folder.now ++ name.now) }
{
    if folder == "/" {
        joined(alloc, folder, "", name)
    } else {
        joined(alloc, folder, "/", name)
    }
}

// Three texts in a row.
fn joined(alloc: Global, first: &str, second: &str, third: &str) -> Result<Text, Memory>
    ensures { IfOk result (λ text. text ≡ first.now ++ second.now ++ third.now) }
{
    let mut text = Text::new(alloc);
    text.push_str(first)?;
    text.push_str(second)?;
    text.push_str(third)?;
    Ok(text)
}

// A text of its own.
pub fn text_of(alloc: Global, text: &str) -> Result<Text, Memory>
    ensures { IfOk result (λ own. own ≡ text.now) }
{
    let mut own = Text::new(alloc);
    own.push_str(text)?;
    Ok(own)
}
