//! What holds of a builder between its calls, and of the plans of files.
ghost use Rattle.std.specs.Prelude.{◌≤◌, ◌++◌, List, ℕ, length};
ghost use Rattle.uf_store.specs.Contents.{Told};
ghost use Rattle.uf_store.specs.Keeping.{KeepsGood};
ghost use Rattle.uf_tree.specs.FilePlan.{file_plan};
ghost use Rattle.uf_tree.specs.declared.meta.Meta.{Meta};
ghost use Rattle.uf_tree.specs.declared.profile.Profile.{Profile};
ghost use Rattle.uf_build.specs.Building.{Building, HasFed, HoldsFed};

/// What a builder has saved stays held as long as good blocks are kept.
pub fn what_was_saved_stays_held()
    ensures held { (X : List ℕ → List ℕ) (bytes : List ℕ) (told told_now : Told) (b : Building)
        → KeepsGood X told told_now → HoldsFed X bytes told b → HoldsFed X bytes told_now b }
    ensures fed { (X : List ℕ → List ℕ) (bytes : List ℕ) (told : Told) (b : Building) → HoldsFed X bytes told b
        → HasFed X bytes b }
{}

/// A file of more bytes has no fewer blocks: what bounds the saves for a part of a file bounds them for the whole.
pub fn more_bytes_have_no_fewer_blocks()
    ensures { (X : List ℕ → List ℕ) (p : Profile) (m : Meta) (bytes more : List ℕ)
        → length (file_plan X p m bytes).blocks ≤ length (file_plan X p m (bytes ++ more)).blocks }
{}
