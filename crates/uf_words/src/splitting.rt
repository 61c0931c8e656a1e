//! Words of a line.
ghost use Rattle.std.specs.Prelude.{◌≡◌, ◌++◌, Err, map, string_bytes, IsUtf8, All, IfOk, MatchResult, OnOk};
ghost use Rattle.std.specs.List.{slice_split};
ghost use Rattle.uf_words.specs.Lines.{is_space, line_words, word_in};
ghost use Rattle.uf_words.specs.declared.command.WordFault.TheVariants as faults;

use crate::WordFault;
use percent_encoding::{DecodeError, percent_decode};
use std::alloc::{AllocError, Global};

/// The words of a line: it is split at runs of spaces, and each word is decoded (percent-encoding, RFC 3986 section
/// 2.1). Usage comes where the bytes of a word aren't UTF-8.
pub fn split_line(alloc: Global, line: &[u8]) -> Result<Vec<String>, WordFault>
    ensures words { IfOk result (λ words. map string_bytes words.items ≡ line_words line.now) }
    ensures text { OnOk result (All IsUtf8 (line_words line.now)) }
    ensures usage { result ≡ Err faults.Usage → ¬ All IsUtf8 (line_words line.now) }
{
    let pieces = pieces(alloc, line)?;
    let mut words = Vec::new(alloc);
    for piece in &pieces {
        put_word(alloc, &mut words, piece)?;
    }
    Ok(words)
}

// What stands between the spaces of a line.
fn pieces(alloc: Global, line: &[u8]) -> Result<Vec<&[u8]>, AllocError>
    ensures { IfOk result (λ pieces. map (λ piece. piece.now) pieces.items ≡ slice_split is_space line.now) }
{
    line.split(|byte| is_space_byte(*byte)).collect(alloc)
}

// Whether the byte is a space.
fn is_space_byte(byte: u8) -> bool
    ensures { result ≡ is_space byte }
{
    byte == b' '
}

// Puts the word that a piece of a line is after the words before it; an empty piece is none.
fn put_word(alloc: Global, words: &mut Vec<String>, piece: &[u8]) -> Result<(), WordFault>
    ensures { MatchResult result
        (λ _. (map string_bytes words.new.items ≡ map string_bytes words.old.items ++ word_in piece.now)
        × All IsUtf8 (word_in piece.now))
        (λ fault. fault ≡ faults.Usage → ¬ All IsUtf8 (word_in piece.now)) }
{
    if piece.is_empty() {
        return Ok(());
    }
    match percent_decode(piece).decode_utf8(alloc) {
        Ok(word) => {
            words.push(word.into_owned(alloc)?)?;
            Ok(())
        }
        Err(DecodeError::OutOfMemory) => Err(WordFault::Memory),
        Err(DecodeError::Utf8(_)) => Err(WordFault::Usage),
    }
}
