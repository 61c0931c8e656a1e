//! Rows of files, copies and moves that the definitions decide.
ghost use Rattle.std.specs.Prelude.{◌≡◌, ◌∷◌, ◌++◌, [], ℕ, List, codes, pos, replicate, false, true, None, Some};
ghost use Rattle.std.specs.Prelude.{Err, Ok};
ghost use Rattle.uf_tree.specs.Metas.{none};
ghost use Rattle.uf_tree.specs.Tree.{Dir, Entries, File, Nothing, With};
ghost use Rattle.uf_plain.specs.Edits.{removed};
ghost use Rattle.uf_plain.specs.declared.rule.Refused.TheVariants as why;
ghost use Rattle.uf_plain.specs.declared.rule.Rule.TheVariants as rule;
ghost use Rattle.uf_plain.specs.declared.meta_edit.MetaEdit.TheVariants.{Mode, Modified, Strip};
ghost use Rattle.uf_plain.specs.Files.{read, truncated, written};
ghost use Rattle.uf_plain.specs.Metas.{meta_edited};
ghost use Rattle.uf_plain.specs.Moves.{carried, copied, spotted};

/// A piece after the end of a file stands after zeros, a missing file is created only where that is asked for, and
/// one that is cut is empty first.
pub fn pieces_are_written()
    ensures created { written (record { offset = 0; create = true; cut = false }) (codes "abc") (codes "f" ∷ [])
        (Nothing none) ≡ Ok (With (codes "f") (File none (codes "abc")) (Nothing none)) }
    ensures missing { written (record { offset = 0; create = false; cut = false }) (codes "abc")
        (codes "f" ∷ []) (Nothing none) ≡ Err (why.NotFound 1) }
    ensures behind { written (record { offset = 10; create = false; cut = false }) (codes "z") (codes "f" ∷ [])
        (With (codes "f") (File none (codes "abc")) (Nothing none))
        ≡ Ok (With (codes "f") (File none (codes "abc" ++ replicate 7 0 ++ codes "z")) (Nothing none)) }
    ensures cut { written (record { offset = 1; create = false; cut = true }) (codes "z") (codes "f" ∷ [])
        (With (codes "f") (File none (codes "abc")) (Nothing none))
        ≡ Ok (With (codes "f") (File none (0 ∷ codes "z")) (Nothing none)) }
    ensures root { written (record { offset = 0; create = true; cut = false }) [] [] (Nothing none)
        ≡ Err (why.IsADirectory 0) }
{}

/// A file is read within its bytes, cut, and filled with zeros.
pub fn files_are_read_and_cut()
    ensures range { read 9 5 (codes "f" ∷ [])
        (With (codes "f") (File none (codes "abc" ++ replicate 7 0 ++ codes "z")) (Nothing none))
        ≡ Ok (0 ∷ codes "z") }
    ensures directory { read 0 9 (codes "a" ∷ []) (With (codes "a") (Dir (Nothing none)) (Nothing none))
        ≡ Err (why.IsADirectory 1) }
    ensures cut { truncated 2 (codes "f" ∷ []) (With (codes "f") (File none (codes "abc")) (Nothing none))
        ≡ Ok (With (codes "f") (File none (codes "ab")) (Nothing none)) }
    ensures filled { truncated 3 (codes "f" ∷ []) (With (codes "f") (File none []) (Nothing none))
        ≡ Ok (With (codes "f") (File none (replicate 3 0)) (Nothing none)) }
{}

/// A directory doesn't go into itself, a move onto itself changes nothing, a file goes into a directory that is there,
/// and it takes the place of a file.
pub fn moves_go_as_told()
    ensures inside { carried (codes "d" ∷ []) (record { names = codes "d" ∷ codes "x" ∷ []; into = false })
        (With (codes "d") (Dir (Nothing none)) (Nothing none)) ≡ Err (rule.Inside (codes "/d") (codes "/d/x")) }
    ensures itself { carried (codes "d" ∷ []) (record { names = codes "d" ∷ []; into = false })
        (With (codes "d") (Dir (Nothing none)) (Nothing none)) ≡ Err (rule.Inside (codes "/d") (codes "/d/d")) }
    ensures same { carried (codes "f" ∷ []) (record { names = codes "f" ∷ []; into = false })
        (With (codes "f") (File none (codes "1")) (Nothing none))
        ≡ Ok (With (codes "f") (File none (codes "1")) (Nothing none)) }
    ensures entered { carried (codes "f" ∷ []) (record { names = codes "d" ∷ []; into = false })
        (With (codes "d") (Dir (Nothing none)) (With (codes "f") (File none (codes "1")) (Nothing none)))
        ≡ Ok (With (codes "d") (Dir (With (codes "f") (File none (codes "1")) (Nothing none))) (Nothing none)) }
    ensures replaced { carried (codes "d" ∷ codes "f" ∷ []) (record { names = codes "f" ∷ []; into = false })
        (With (codes "d") (Dir (With (codes "f") (File none (codes "2")) (Nothing none)))
        (With (codes "f") (File none (codes "1")) (Nothing none)))
        ≡ Ok (With (codes "d") (Dir (Nothing none)) (With (codes "f") (File none (codes "2")) (Nothing none))) }
    ensures exists { carried (codes "f" ∷ []) (record { names = codes "d" ∷ []; into = true })
        (With (codes "d") (Dir (With (codes "f") (Dir (Nothing none)) (Nothing none)))
        (With (codes "f") (File none (codes "1")) (Nothing none)))
        ≡ Err (rule.Exists (codes "/d/f")) }
{}

/// A copy goes where nothing is: under its own name into a destination that is entered, else under the destination's.
/// The root has no name, and may be copied into itself.
pub fn copies_go_as_told()
    ensures exists { copied (codes "d" ∷ codes "f" ∷ []) (record { names = codes "d" ∷ []; into = false })
        (With (codes "d") (Dir (With (codes "f") (File none (codes "1")) (Nothing none))) (Nothing none))
        ≡ Err (rule.Exists (codes "/d")) }
    ensures entered { copied (codes "d" ∷ codes "f" ∷ []) (record { names = []; into = true })
        (With (codes "d") (Dir (With (codes "f") (File none (codes "1")) (Nothing none))) (Nothing none))
        ≡ Ok (With (codes "d") (Dir (With (codes "f") (File none (codes "1")) (Nothing none)))
        (With (codes "f") (File none (codes "1")) (Nothing none))) }
    ensures taken { copied (codes "d" ∷ codes "f" ∷ []) (record { names = codes "d" ∷ []; into = true })
        (With (codes "d") (Dir (With (codes "f") (File none (codes "1")) (Nothing none))) (Nothing none))
        ≡ Err (rule.Exists (codes "/d/f")) }
    ensures root { copied [] (record { names = codes "n" ∷ []; into = false })
        (With (codes "f") (File none (codes "1")) (Nothing none))
        ≡ Ok (With (codes "f") (File none (codes "1"))
        (With (codes "n") (Dir (With (codes "f") (File none (codes "1")) (Nothing none))) (Nothing none))) }
    ensures nameless { spotted (record { names = codes "g" ∷ []; into = true }) None (Nothing none)
        ≡ Err (rule.NotFound (codes "/g")) }
    ensures refused { spotted (record { names = []; into = true }) None (Nothing none) ≡ Err rule.RootRefused }
{}

/// A file that is written into, cut or emptied keeps its metadata, and so does the directory that it is in; one that
/// is created has none.
pub fn metadata_is_kept()
    ensures written { written (record { offset = 1; create = true; cut = false }) (codes "z") (codes "f" ∷ [])
        (With (codes "f") (File (record { mode = Some 420; mtime = None }) (codes "abc"))
        (Nothing (record { mode = Some 493; mtime = None })))
        ≡ Ok (With (codes "f") (File (record { mode = Some 420; mtime = None }) (codes "azc"))
        (Nothing (record { mode = Some 493; mtime = None }))) }
    ensures emptied { written (record { offset = 0; create = true; cut = true }) [] (codes "f" ∷ [])
        (With (codes "f") (File (record { mode = Some 420; mtime = None }) (codes "abc")) (Nothing none))
        ≡ Ok (With (codes "f") (File (record { mode = Some 420; mtime = None }) []) (Nothing none)) }
    ensures cut { truncated 2 (codes "f" ∷ [])
        (With (codes "f") (File (record { mode = Some 420; mtime = None }) (codes "abc")) (Nothing none))
        ≡ Ok (With (codes "f") (File (record { mode = Some 420; mtime = None }) (codes "ab")) (Nothing none)) }
    ensures created { written (record { offset = 0; create = true; cut = false }) (codes "a") (codes "f" ∷ [])
        (Nothing (record { mode = Some 493; mtime = None }))
        ≡ Ok (With (codes "f") (File none (codes "a")) (Nothing (record { mode = Some 493; mtime = None }))) }
    ensures removed { removed true (codes "d" ∷ []) (With (codes "d") (Dir (Nothing none))
        (Nothing (record { mode = Some 493; mtime = None })))
        ≡ Ok (Nothing (record { mode = Some 493; mtime = None })) }
    ensures moved { carried (codes "f" ∷ []) (record { names = codes "g" ∷ []; into = false })
        (With (codes "f") (File (record { mode = Some 420; mtime = None }) []) (Nothing none))
        ≡ Ok (With (codes "g") (File (record { mode = Some 420; mtime = None }) []) (Nothing none)) }
{}

/// Permissions take the place of the low twelve bits of a mode, whose others stay; an mtime takes the place of the
/// older one; a file, a directory and the root are changed alike.
pub fn metadata_is_changed()
    ensures permitted { meta_edited (Mode 420) (codes "k" ∷ [])
        (With (codes "k") (File none (codes "hi")) (Nothing none))
        ≡ Ok (With (codes "k") (File (record { mode = Some 420; mtime = None }) (codes "hi")) (Nothing none)) }
    ensures others { meta_edited (Mode 420) (codes "k" ∷ [])
        (With (codes "k") (File (record { mode = Some 33261; mtime = None }) []) (Nothing none))
        ≡ Ok (With (codes "k") (File (record { mode = Some 33188; mtime = None }) []) (Nothing none)) }
    ensures touched { meta_edited (Modified (record { seconds = pos 5; nanos = Some 7 })) (codes "k" ∷ [])
        (With (codes "k") (File (record { mode = Some 420; mtime = None }) []) (Nothing none))
        ≡ Ok (With (codes "k")
        (File (record { mode = Some 420; mtime = Some (record { seconds = pos 5; nanos = Some 7 }) }) [])
        (Nothing none)) }
    ensures stripped { meta_edited Strip (codes "k" ∷ [])
        (With (codes "k")
        (File (record { mode = Some 420; mtime = Some (record { seconds = pos 5; nanos = None }) }) [])
        (Nothing none)) ≡ Ok (With (codes "k") (File none []) (Nothing none)) }
    ensures directory { meta_edited (Mode 493) (codes "d" ∷ [])
        (With (codes "d") (Dir (With (codes "f") (File none []) (Nothing none))) (Nothing none))
        ≡ Ok (With (codes "d") (Dir (With (codes "f") (File none [])
        (Nothing (record { mode = Some 493; mtime = None })))) (Nothing none)) }
    ensures root { meta_edited (Mode 493) [] (With (codes "f") (File none []) (Nothing none))
        ≡ Ok (With (codes "f") (File none []) (Nothing (record { mode = Some 493; mtime = None }))) }
    ensures missing { meta_edited (Mode 493) (codes "q" ∷ []) (Nothing none) ≡ Err (why.NotFound 1) }
{}
