//! Worked readings that the definitions decide.
ghost use Rattle.std.specs.Prelude.{◌≡◌, [], ◌∷◌, None, Ok, Err, Some, codes};
ghost use Rattle.uf_store.specs.declared.store.StoreFault.TheVariants.{Missing};
ghost use Rattle.uf_tree.specs.Metas.{none};
ghost use Rattle.uf_tree.specs.Tree.{Dir, File, Nothing, With};
ghost use Rattle.uf_lenient.specs.declared.fault.DagFault.TheVariants.{BadName, DuplicateName, NotADirectory};
ghost use Rattle.uf_lenient.specs.declared.fault.DagFault.TheVariants.{NotFound, NotUnixfs, Store, TooDeep, TooMany};
ghost use Rattle.uf_lenient.specs.declared.fault.DagFault.TheVariants.{Unsupported};
ghost use Rattle.uf_lenient.specs.declared.shapes.Shape.TheVariants.{Folder};
ghost use Rattle.uf_lenient.specs.Reading.{denotes};
ghost use Rattle.uf_lenient.specs.Rows.{bytes_of_file_at, denoted_at, denoted_within, directory_chain, doubled_chain};
ghost use Rattle.uf_lenient.specs.Rows.{file_ab, file_hi, led_from, nth_node, nth_raw, of_mode, of_mtime};
ghost use Rattle.uf_lenient.specs.Rows.{shape_at, some_blocks, usual_limits, with_limits};

/// A file whose bytes stand in its node, and a directory that spells its CID as a CIDv0.
pub fn bytes_in_a_node_are_read()
    ensures file { denoted_at 1 ≡ Ok file_hi }
    ensures old_cid { denoted_at 2 ≡ Ok (Dir (With (codes "x") file_hi (Nothing none))) }
    ensures raw { denotes some_blocks usual_limits (nth_raw 3) ≡ Ok file_ab }
    ensures parts { denoted_at 4 ≡ Ok (File none (codes "-abhiab")) }
    ensures same { bytes_of_file_at 4 ≡ Ok (codes "-abhiab") }
{}

/// Metadata is that of the first node: 0 nanoseconds are none, and an mtime with too many of them is dropped.
pub fn metadata_is_of_the_first_node()
    ensures file { denoted_at 30 ≡ Ok (File (of_mode 420) (codes "hi")) }
    ensures directory { denoted_at 31 ≡ Ok (Dir (Nothing (of_mode 493))) }
    ensures parts { denoted_at 32 ≡ Ok (File (of_mtime 1 None) (codes "hi")) }
    ensures dropped { denoted_at 33 ≡ Ok (File (of_mode 420) []) }
    ensures kept { denoted_at 34 ≡ Ok (File (of_mtime 1 (Some 999999999)) []) }
    ensures shards { denoted_at 35 ≡ Ok (Dir (With (codes "x") file_ab (Nothing (of_mode 493)))) }
    ensures shape { shape_at 35 ≡ Ok (Folder (of_mode 493) ((codes "x", nth_raw 3) ∷ [])) }
{}

/// What is no part of a file is refused where it is linked, and as the beginning of one.
pub fn files_are_of_files()
    ensures directory { denoted_at 8 ≡ Err (NotUnixfs (nth_node 5) 20) }
    ensures symlink { denoted_at 9 ≡ Err (NotUnixfs (nth_node 6) 20) }
    ensures shard { denoted_at 10 ≡ Err (NotUnixfs (nth_node 7) 20) }
    ensures first { denoted_at 11 ≡ Err (Store (Missing (nth_raw 99))) }
    ensures start { bytes_of_file_at 5 ≡ Err (NotUnixfs (nth_node 5) 20) }
    ensures shard_start { bytes_of_file_at 7 ≡ Err (NotUnixfs (nth_node 7) 20) }
    ensures symlink_start { bytes_of_file_at 6 ≡ Err (Unsupported (nth_node 6)) }
{}

/// The names of a directory are checked first, and then its members are read in byte order.
pub fn names_come_first()
    ensures order { denoted_at 12 ≡ Ok (Dir (With (codes "x") file_hi (With (codes "y") file_ab (Nothing none)))) }
    ensures shape { shape_at 12 ≡ Ok (Folder none ((codes "x", nth_node 1) ∷ (codes "y", nth_raw 3) ∷ [])) }
    ensures twice { denoted_at 13 ≡ Err (DuplicateName (nth_node 13) (codes "x")) }
    ensures bad { denoted_at 14 ≡ Err (BadName (nth_node 14)) }
    ensures member { denoted_at 15 ≡ Err (Unsupported (nth_node 6)) }
    ensures empty { denoted_at 5 ≡ Ok (Dir (Nothing none)) }
{}

/// A shard that a shard links is read in its place, one link deeper, and its entries one deeper still.
pub fn shards_are_read_in_place()
    ensures names { shape_at 17 ≡ Ok (Folder none ((codes "a", nth_raw 3) ∷ (codes "x", nth_raw 3)
        ∷ (codes "y", nth_node 1) ∷ (codes "z", nth_raw 3) ∷ [])) }
    ensures tree { denoted_within 2 6 17 ≡ Ok (Dir (With (codes "a") file_ab (With (codes "x") file_ab
        (With (codes "y") file_hi (With (codes "z") file_ab (Nothing none)))))) }
    ensures depth { denoted_within 1 6 17 ≡ Err (TooDeep (nth_raw 3)) }
    ensures visits { denoted_within 2 5 17 ≡ Err TooMany }
    ensures lost { denoted_at 18 ≡ Err (Store (Missing (nth_node 99))) }
    ensures twice { denoted_at 19 ≡ Err (DuplicateName (nth_node 19) (codes "x")) }
    ensures twice_below { denoted_at 20 ≡ Err (DuplicateName (nth_node 16) (codes "x")) }
    ensures digits { denoted_at 21 ≡ Err (NotUnixfs (nth_node 21) 21) }
    ensures bad { denoted_at 22 ≡ Err (BadName (nth_node 22)) }
    ensures over_raw { denoted_at 23 ≡ Err (NotUnixfs (nth_raw 3) 20) }
    ensures over_directory { denoted_at 24 ≡ Err (NotUnixfs (nth_node 5) 20) }
    ensures over_other { denoted_at 25 ≡ Err (Unsupported (nth_node 7)) }
    ensures over_symlink { denoted_at 26 ≡ Err (NotUnixfs (nth_node 6) 20) }
{}

/// Blocks that are none of UnixFS.
pub fn other_blocks_are_refused()
    ensures symlink { denoted_at 6 ≡ Err (Unsupported (nth_node 6)) }
    ensures fanout { denoted_at 7 ≡ Err (Unsupported (nth_node 7)) }
    ensures content { denoted_at 27 ≡ Err (NotUnixfs (nth_node 27) 9) }
    ensures kind { denoted_at 28 ≡ Err (NotUnixfs (nth_node 28) 14) }
    ensures field { denoted_at 29 ≡ Err (NotUnixfs (nth_node 29) 3) }
    ensures lost { denoted_at 99 ≡ Err (Store (Missing (nth_node 99))) }
{}

/// Names along a path.
pub fn paths_are_followed()
    ensures here { led_from 99 [] ≡ Ok (nth_node 99) }
    ensures there { led_from 12 (codes "x" ∷ []) ≡ Ok (nth_node 1) }
    ensures absent { led_from 12 (codes "z" ∷ codes "x" ∷ []) ≡ Err (NotFound 0) }
    ensures behind_a_file { led_from 12 (codes "x" ∷ codes "x" ∷ []) ≡ Err (NotADirectory 1) }
{}

/// 300 directories, each of which links the next one: the 257th link is too deep.
pub fn deep_chains_are_refused()
    ensures { denotes (directory_chain 299) usual_limits (nth_node 0) ≡ Err (TooDeep (nth_node 257)) }
{}

/// Blocks that are linked twice count twice.
pub fn repeats_count()
    ensures refused { denotes (doubled_chain 39) (with_limits 256 100) (nth_node 0) ≡ Err TooMany }
    ensures within { denotes (doubled_chain 1) (with_limits 1 3) (nth_node 0)
        ≡ Ok (Dir (With (codes "a") (Dir (Nothing none)) (With (codes "b") (Dir (Nothing none)) (Nothing none)))) }
{}
