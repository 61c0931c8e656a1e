//! Laws of bytes that are laid over and cut.
ghost use Rattle.std.specs.Prelude.{◌≡◌, ◌∷◌, ◌++◌, ℕ, List, [], codes, length, replicate};
ghost use Rattle.uf_tree.specs.Laying.{cut_to, laid};

/// A piece after the end stands after zeros, one at the start lies over the first bytes, and of nothing nothing
/// changes.
pub fn pieces_are_laid()
    ensures behind { laid (codes "abc") 10 (codes "z") ≡ codes "abc" ++ replicate 7 0 ++ codes "z" }
    ensures over { laid (codes "abc") 0 (codes "z") ≡ codes "zbc" }
    ensures across { laid (codes "abc") 2 (codes "yz") ≡ codes "abyz" }
    ensures nothing { (bytes : List ℕ) (offset : ℕ) → laid bytes offset [] ≡ bytes }
{}

/// A file is cut, or filled with zeros.
pub fn files_are_cut()
    ensures cut { cut_to (codes "abc") 2 ≡ codes "ab" }
    ensures empty { cut_to (codes "abc") 0 ≡ [] }
    ensures filled { cut_to [] 3 ≡ replicate 3 0 }
    ensures length { (bytes : List ℕ) (size : ℕ) → length (cut_to bytes size) ≡ size }
{}
