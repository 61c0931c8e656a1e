//! How many blocks a range needs.
ghost use Rattle.std.specs.Prelude.{ℕ, List, ◌≤◌};
ghost use Rattle.uf_tree.specs.declared.meta.Meta.{Meta};
ghost use Rattle.uf_fileread.specs.Ranges.{FewAreRead};

/// A range of a file needs the root, and at most one block in each row for each piece that it meets.
pub fn a_range_needs_few_blocks()
    ensures { (X : List ℕ → List ℕ) (c w : ℕ) (m : Meta) (height offset count : ℕ) (bytes : List ℕ) → 1 ≤ c → 1 ≤ w
        → FewAreRead X c w m height offset count bytes }
{}
