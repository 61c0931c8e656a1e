//! Bytes and text that a caller hands on, with their own allocator.
ghost use Rattle.std.specs.Prelude.{◌≡◌, [], ◌++◌, IfOk, OnOk, OnErr, vec_len};

use std::alloc::{AllocError, AllocFailed, Global};
use std::marker::Model;

/// There was no memory. Nothing has changed.
#[derive(Clone, Copy, Debug, PartialEq, Eq)]
pub struct Memory;

impl From<AllocError> for Memory {
    fn from(_: AllocError) -> Self {
        Memory
    }
}

impl<T: Drop> From<AllocFailed<T>> for Memory {
    fn from(_: AllocFailed<T>) -> Self {
        Memory
    }
}

/// Why a strict decoder refuses bytes: no value has this spelling, or there was no memory for the value.
#[derive(Clone, Copy, Debug, PartialEq, Eq)]
pub enum StrictFault {
    NotCanonical,
    Memory,
}

impl From<Memory> for StrictFault {
    ghost use Rattle.uf_cid.specs.declared.bytes.StrictFault.TheVariants as faults;

    ghost from_gives = { λ _ fault. fault ≡ faults.Memory };

    fn from(_: Memory) -> Self {
        StrictFault::Memory
    }
}

/// Bytes with their own allocator. Contracts see them as a list of numbers below 256.
#[derive(Drop)]
pub struct Block {
    alloc: Global,
    bytes: Vec<u8>,
}

impl Model for Block {
    ghost use Rattle.std.specs.Prelude.{List, ℕ};

    ghost Value = { List ℕ };

    ghost view = { λ b. b.bytes.items };
}

impl Block {
    /// No bytes.
    pub fn new(alloc: Global) -> Self
        ensures { result ≡ [] }
    {
        Block {
            alloc,
            bytes: Vec::new(alloc),
        }
    }

    /// No bytes, with memory for `capacity` bytes taken at once.
    pub fn with_capacity(alloc: Global, capacity: usize) -> Result<Self, Memory>
        ensures { IfOk result (λ b. b ≡ []) }
    {
        let bytes = Vec::with_capacity(alloc, capacity)?;
        Ok(Block { alloc, bytes })
    }

    /// These bytes in a block of their own.
    pub fn from_slice(alloc: Global, bytes: &[u8]) -> Result<Self, Memory>
        ensures { IfOk result (λ b. b ≡ bytes.now) }
    {
        let bytes = Vec::from_slice(alloc, bytes)?;
        Ok(Block { alloc, bytes })
    }

    /// The same bytes again.
    pub fn copy(&self) -> Result<Self, Memory>
        ensures { IfOk result (λ b. b ≡ self.now) }
    {
        let bytes = Vec::from_slice(self.alloc, &self.bytes)?;
        Ok(Block {
            alloc: self.alloc,
            bytes,
        })
    }

    /// Puts bytes after those that are there; out of memory, they stay as they were.
    pub fn extend(&mut self, bytes: &[u8]) -> Result<(), Memory>
        ensures ok { OnOk result (self.new ≡ self.old ++ bytes.now) }
        ensures err { OnErr result (self.new ≡ self.old) }
    {
        self.bytes.extend_from_slice(bytes)?;
        Ok(())
    }

    /// The bytes.
    pub fn as_slice(&self) -> &[u8]
        ensures { result.now ≡ self.now }
    {
        self.bytes.as_slice()
    }
}

/// n zeros, to be read or written over.
pub fn zeros(alloc: Global, count: usize) -> Result<Vec<u8>, Memory>
    ensures { IfOk result (λ v. vec_len v ≡ count) }
{
    Ok(vec![in alloc; 0u8; count]?)
}

/// UTF-8 text with its own allocator. Contracts see the list of its bytes.
#[derive(Drop)]
pub struct Text {
    alloc: Global,
    text: String,
}

impl Model for Text {
    ghost use Rattle.std.specs.Prelude.{List, ℕ, string_bytes};

    ghost Value = { List ℕ };

    ghost view = { λ t. string_bytes t.text };
}

impl Text {
    /// The empty text.
    pub fn new(alloc: Global) -> Self
        ensures { result ≡ [] }
    {
        Text {
            alloc,
            text: String::new(alloc),
        }
    }

    /// The same text again.
    pub fn copy(&self) -> Result<Self, Memory>
        ensures { IfOk result (λ t. t ≡ self.now) }
    {
        let text = String::from_str(self.alloc, self.text.as_str())?;
        Ok(Text {
            alloc: self.alloc,
            text,
        })
    }

    /// Puts a text after what is there; out of memory, it stays as it was.
    pub fn push_str(&mut self, text: &str) -> Result<(), Memory>
        ensures ok { OnOk result (self.new ≡ self.old ++ text.now) }
        ensures err { OnErr result (self.new ≡ self.old) }
    {
        self.text.push_str(text)?;
        Ok(())
    }

    /// The text.
    pub fn as_str(&self) -> &str
        ensures { result.now ≡ self.now }
    {
        self.text.as_str()
    }
}
