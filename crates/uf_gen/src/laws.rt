//! What the commands of the generator make.
ghost use Rattle.std.specs.Prelude.{◌≡◌, ◌≤◌, ◌^◌, ℕ, List, Ok, codes};
ghost use Rattle.uf_gen.specs.Grown.{grown, left_files};
ghost use Rattle.uf_gen.specs.Rules.{file_name, late_offset};
ghost use Rattle.uf_tree.specs.Metas.{none};
ghost use Rattle.uf_tree.specs.Tree.{Entries, entries};
ghost use Rattle.uf_tree.specs.declared.profile.Profile.{Profile};

/// The tree that the steps make, where no rule refuses one of them, is that of the files that are left, as they are in
/// the end.
pub fn a_grown_tree_is_its_files()
    ensures { (X : List ℕ → List ℕ) (N : List ℕ → ℕ) (p : Profile) (seed n : ℕ) (es : Entries) → n ≤ 10 ^ 8
        → grown X N p seed n ≡ Ok es → es ≡ entries none (left_files seed n) }
{}

/// Worked rows of the rules: the name of a file, and where the byte `x` is written into two of them later.
pub fn files_are_named_and_changed_by_the_rules()
    ensures name { file_name 20000 ≡ codes "f00020000" }
    ensures first { late_offset 1 1 ≡ 7992 }
    ensures other { late_offset 7 500 ≡ 2675 }
{}
