//! The fields of a message, cut from its bytes from left to right.
ghost use Rattle.std.specs.Prelude.{◌≡◌, ◌<◌, ◌≤◌, Ok, Err, IfOk, length, MatchResult};
ghost use Rattle.uf_varint.specs.Fields.{number_at, piece_at, bytes_at, content_at, SkipsTo};

use crate::varint::{Var, read_proto};

/// Why a field can't be cut from the bytes.
#[derive(Clone, Copy, Debug, PartialEq, Eq)]
pub enum CutFault {
    /// The bytes end inside it.
    Truncated,
    /// A number is not spelled as a varint.
    Varint,
    /// It has a wire type other than 0, 1, 2 and 5.
    Wire,
}

/// The number at the start, and the bytes after it.
#[tactic(auto, unfolding(crate::specs::Fields::number_at))]
pub fn read_number(bytes: &[u8]) -> Result<(u64, &[u8]), CutFault>
    ensures exact { MatchResult result (λ x. number_at bytes.now ≡ Ok (x.0, x.1.now))
        (λ f. number_at bytes.now ≡ Err f) }
    ensures shorter { IfOk result (λ x. length x.1.now < length bytes.now) }
{
    match read_proto(bytes) {
        Var::Value(number, used) => Ok((number, bytes.split_at(used).1)),
        Var::Short => Err(CutFault::Truncated),
        Var::Bad => Err(CutFault::Varint),
    }
}

/// The first n bytes, and the bytes after them.
#[tactic(auto, unfolding(crate::specs::Fields::piece_at))]
pub fn read_piece(count: usize, bytes: &[u8]) -> Result<(&[u8], &[u8]), CutFault>
    ensures exact { MatchResult result (λ x. piece_at count bytes.now ≡ Ok (x.0.now, x.1.now))
        (λ f. piece_at count bytes.now ≡ Err f) }
    ensures shorter { IfOk result (λ x. length x.1.now ≤ length bytes.now) }
{
    if bytes.len() < count {
        return Err(CutFault::Truncated);
    }
    Ok(bytes.split_at(count))
}

/// The bytes whose number stands before them, and the bytes after them.
#[tactic(auto, unfolding(crate::specs::Fields::bytes_at))]
pub fn read_bytes(bytes: &[u8]) -> Result<(&[u8], &[u8]), CutFault>
    ensures exact { MatchResult result (λ x. bytes_at bytes.now ≡ Ok (x.0.now, x.1.now))
        (λ f. bytes_at bytes.now ≡ Err f) }
    ensures shorter { IfOk result (λ x. length x.1.now < length bytes.now) }
{
    let (count, rest) = read_number(bytes)?;
    read_piece(count as usize, rest)
}

/// The bytes after the content of a field of a wire type, whatever that content is.
#[tactic(auto, unfolding(crate::specs::Fields::content_at))]
pub fn skip_content(wire: u64, bytes: &[u8]) -> Result<&[u8], CutFault>
    ensures exact { MatchResult result (λ x. SkipsTo (content_at wire bytes.now) x.now)
        (λ f. content_at wire bytes.now ≡ Err f) }
    ensures shorter { IfOk result (λ x. length x.now ≤ length bytes.now) }
{
    match wire {
        0 => Ok(read_number(bytes)?.1),
        1 => Ok(read_piece(8, bytes)?.1),
        2 => Ok(read_bytes(bytes)?.1),
        5 => Ok(read_piece(4, bytes)?.1),
        _ => Err(CutFault::Wire),
    }
}
