//! Laws of the lines of an input.
ghost use Rattle.std.specs.Prelude.{◌≡◌, ◌≤◌, ℕ, List, [], ◌∷◌, ◌++◌, length, true};
ghost use Rattle.std.specs.List.{AllByRecursion};
ghost use Rattle.uf_lines.specs.LinesIn.{IsLine, LinesIn, lines_in, text_of, with_lines};

/// Nothing has no lines, and is whole.
pub fn lines_of_nothing()
    ensures { (most limit : ℕ) → lines_in most limit [] ≡ record { lines = []; whole = true } }
{}

/// The lines that were given so far and those of the rest stay the lines of the whole, line by line.
pub fn a_run_goes_on()
    ensures { (all ahead rest : LinesIn) (given : List (List ℕ)) (line : List ℕ)
        → all ≡ with_lines given ahead → ahead ≡ with_lines (line ∷ []) rest
        → all ≡ with_lines (given ++ line ∷ []) rest }
{}

/// Lines that were written are read, where none has LF or too many bytes.
pub fn what_was_written_is_read()
    ensures { (most limit : ℕ) (lines : List (List ℕ)) → AllByRecursion (IsLine most) lines
        → length (text_of lines) ≤ limit
        → lines_in most limit (text_of lines) ≡ record { lines = lines; whole = true } }
{}
