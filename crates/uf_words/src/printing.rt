//! Names and paths as they are printed.
ghost use Rattle.std.specs.Prelude.{◌≡◌, ◌≢◌, [], ◌∷◌, List, ℕ, IfOk};
ghost use Rattle.uf_cid.specs.Bytes.{IsBytes};
ghost use Rattle.uf_words.specs.Lines.{line_words};
ghost use Rattle.uf_words.specs.Shown.{shown_bytes};

use percent_encoding::{AsciiSet, CONTROLS, ascii_set, utf8_percent_encode};
use std::alloc::Global;
use uf_cid::{Memory, Text};

// The ASCII bytes that are escaped: those up to the space, 127 and the percent sign.
const ESCAPED: AsciiSet = ascii_set!(CONTROLS.add(b' ').add(b'%'));

/// The text as it is printed, in one word. `%` and two upper case hexadecimal digits stand for each byte up to the
/// space, for `%`, for 127 and for each byte from 128 on (percent-encoding, RFC 3986 section 2.1); a `/` stays.
pub fn shown(alloc: Global, text: &str) -> Result<Text, Memory>
    ensures { IfOk result (λ t. t ≡ shown_bytes text.now) }
{
    let encoded = utf8_percent_encode(text, ESCAPED).into_cow(alloc)?;
    let mut own = Text::new(alloc);
    own.push_str(encoded.as_str())?;
    Ok(own)
}

/// What is printed of a text that isn't empty is one word of a line: `split_line` gives the text back.
pub fn a_shown_text_is_one_word()
    ensures { (bytes : List ℕ) → IsBytes bytes → bytes ≢ [] → line_words (shown_bytes bytes) ≡ bytes ∷ [] }
{}
