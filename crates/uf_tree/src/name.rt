//! The name of a member of a directory.
ghost use Rattle.std.specs.Prelude.{◌≡◌, ◌⊎◌, ◌==◌, ◌||◌, false, IfOk, IsTrue, MatchResult};
ghost use Rattle.std.specs.List.{list_any};
ghost use Rattle.uf_tree.specs.Names.{is_dots, is_good, is_name};
ghost use Rattle.uf_tree.specs.declared.name.NameFault.TheVariants as name_faults;

use std::alloc::Global;
use std::marker::Model;
use uf_cid::{Copied, Memory, Seq, StrictFault, Text};

/// A good name: 1 to 255 bytes of UTF-8 without `/` and NUL, and neither `.` nor `..`. Contracts see its bytes.
#[derive(Drop)]
pub struct Name {
    text: Text,
}

impl Model for Name {
    ghost use Rattle.std.specs.Prelude.{List, ℕ, IsTrue};
    ghost use Rattle.uf_tree.specs.Names.{is_good};

    ghost Value = { List ℕ };

    ghost view = { λ n. n.text };

    ghost invariant = { λ n. IsTrue (is_good n.text) };
}

/// A list of names.
pub type Names = Seq<Name>;

/// Why a text is no name.
#[derive(Clone, Copy, Debug, PartialEq, Eq)]
pub enum NameFault {
    /// It is empty or longer than 255 bytes, has a `/` or a NUL, or is `.` or `..`.
    Bad,
    Memory,
}

impl From<Memory> for NameFault {
    ghost from_gives = { λ _ fault. fault ≡ name_faults.Memory };

    fn from(_: Memory) -> Self {
        NameFault::Memory
    }
}

impl From<NameFault> for StrictFault {
    ghost use Rattle.std.specs.Prelude.{◌≡◌};
    ghost use Rattle.uf_tree.specs.Names.{name_refusal};

    ghost from_gives = { λ why fault. fault ≡ name_refusal why };

    fn from(why: NameFault) -> Self {
        match why {
            NameFault::Bad => StrictFault::NotCanonical,
            NameFault::Memory => StrictFault::Memory,
        }
    }
}

impl Name {
    /// The name that a text is.
    pub fn parse(alloc: Global, text: &str) -> Result<Name, NameFault>
        ensures { MatchResult result
            (λ n. (n ≡ text.now) × IsTrue (is_name text.now))
            (λ f. (f ≡ name_faults.Memory) ⊎ ((f ≡ name_faults.Bad) × (is_name text.now ≡ false))) }
    {
        if !is_good_text(text.as_bytes()) {
            return Err(NameFault::Bad);
        }
        let mut own = Text::new(alloc);
        own.push_str(text)?;
        Ok(Name { text: own })
    }

    /// The text of the name.
    pub fn as_str(&self) -> &str
        ensures value { result.now ≡ self.now }
        ensures good { IsTrue (is_name self.now) }
    {
        self.text.as_str()
    }

    /// The same name again.
    pub fn copy(&self) -> Result<Self, Memory>
        ensures { IfOk result (λ n. n ≡ self.now) }
    {
        let text = self.text.copy()?;
        Ok(Name { text })
    }
}

impl Copied for Name {
    fn copied(&self) -> Result<Self, Memory> {
        self.copy()
    }
}

// Whether the bytes are a good name.
fn is_good_text(bytes: &[u8]) -> bool
    ensures { result ≡ is_good bytes.now }
{
    if bytes.is_empty() || bytes.len() > 255 {
        return false;
    }
    !has_separator(bytes) && !is_dots_text(bytes)
}

// Whether a byte is `/` or NUL.
fn has_separator(bytes: &[u8]) -> bool
    ensures { result ≡ list_any (λ b. (b == 47) || (b == 0)) bytes.now }
{
    bytes.iter().any(|byte| *byte == b'/' || *byte == 0)
}

// Whether the bytes are `.` or `..`.
fn is_dots_text(bytes: &[u8]) -> bool
    ensures { result ≡ is_dots bytes.now }
{
    match bytes {
        [a] => *a == b'.',
        [a, b] => *a == b'.' && *b == b'.',
        _ => false,
    }
}
