//! The prefix of a field: its key and a number.
ghost use Rattle.std.specs.Prelude.{◌≡◌};

use crate::varint::put;
use std::marker::Model;

/// The key of a field and the shortest spelling of a number: a whole field of wire type 0, and what stands before
/// the bytes of a field of wire type 2. Contracts see the list of these bytes.
#[derive(Drop)]
pub struct NumberField {
    bytes: [u8; 11],
    len: usize,
}

impl Model for NumberField {
    ghost use Rattle.std.specs.Prelude.{◌≤◌, List, ℕ, take};

    ghost Value = { List ℕ };

    ghost view = { λ f. take f.len f.bytes };

    ghost invariant = { λ f. f.len ≤ 11 };
}

impl NumberField {
    ghost use Rattle.uf_varint.specs.Fields.{number_field};

    /// The bytes of a key below 128 and of a number.
    pub fn new(key: u8, number: u64) -> Self
        ensures { result ≡ number_field key number }
    {
        let mut bytes = [0u8; 11];
        bytes[0] = key;
        let len = put(number, &mut bytes[1..]);
        NumberField {
            bytes,
            len: len + 1,
        }
    }

    /// The bytes.
    pub fn as_slice(&self) -> &[u8]
        ensures { result.now ≡ self.now }
    {
        &self.bytes[..self.len]
    }
}
