//! Public vectors that the definitions decide.
ghost use Rattle.std.specs.Prelude.{◌≡◌, [], ◌∷◌, ◌++◌, codes};
ghost use Rattle.sha2.specs.Sha256.{sha256};
ghost use Rattle.uf_cid.specs.Cid.{cid_text};
ghost use Rattle.uf_cid.specs.Sums.{sum_digest};
ghost use Rattle.uf_murmur.specs.Murmur.{murmur3};
ghost use Rattle.uf_murmur.specs.Slots.{first_eight};
ghost use Rattle.uf_tree.specs.Heads.{head_text};
ghost use Rattle.uf_tree.specs.Metas.{none};
ghost use Rattle.uf_tree.specs.Tree.{File, Dir, Nothing, With};
ghost use Rattle.uf_tree.specs.TreePlan.{Collision, entry, plan, refusal};
ghost use Rattle.uf_tree.specs.Profiles.{usual};
ghost use Rattle.uf_laws.specs.Vectors.{narrow, with_mode, with_time, sharding_above, empty_files, generated, raw_cid};
ghost use Rattle.uf_laws.specs.Vectors.{node_cid, raw_plan, node_plan, empty_block, abc_plan, chain_plan, block_p};
ghost use Rattle.uf_laws.specs.Vectors.{block_hello, block_hi_0644, block_basic, block_three, block_one, block_left};
ghost use Rattle.uf_laws.specs.Vectors.{digest_nothing, digest_a, digest_b, digest_p, digest_hello_world, digest_hi};
ghost use Rattle.uf_laws.specs.Vectors.{digest_hi_0644, digest_empty_dir, digest_dir_0755, digest_hello_dir};
ghost use Rattle.uf_laws.specs.Vectors.{digest_basic, digest_shard_of_three, digest_shard_of_one, digest_shard_left};

/// The CID and the Tsize of an empty file.
pub fn the_empty_file()
    ensures { cid_text (entry sha256 murmur3 usual (File none [])).cid
        ≡ codes "bafkreihdwdcefgh4dqkjv67uzcmw7ojee6xedzdetojuzjevtenxquvyku" }
{}

/// An empty file is one empty raw block.
pub fn the_plan_of_an_empty_file()
    ensures { plan sha256 murmur3 usual (File none []) ≡ Some (raw_plan digest_nothing [] 0) }
{}

/// The CID of an empty directory.
pub fn the_empty_directory()
    ensures { cid_text (entry sha256 murmur3 usual (Dir (Nothing none))).cid
        ≡ codes "bafybeiczsscdsbs7ffqz55asqdf3smv6klcw3gofszvwlyarci47bgf354" }
{}

/// An empty directory is one block of four bytes.
pub fn the_plan_of_an_empty_directory()
    ensures { plan sha256 murmur3 usual (Dir (Nothing none))
        ≡ Some (node_plan digest_empty_dir 4 ((node_cid digest_empty_dir, 0x0a ∷ 0x02 ∷ 0x08 ∷ 0x01 ∷ []) ∷ [])) }
{}

/// The CID of the file `a`, whatever the width.
pub fn the_file_of_one_byte()
    ensures { cid_text (entry sha256 murmur3 narrow (File none (codes "a"))).cid
        ≡ codes "bafkreigks6arfsq3xxfpvqrrwonchxcnu6do76auprhhfomao6c273sixm" }
{}

/// A file of one piece is one raw block.
pub fn the_file_hello_world()
    ensures { plan sha256 murmur3 usual (File none (codes "hello world"))
        ≡ Some (raw_plan digest_hello_world (codes "hello world") 11) }
{}

/// A directory of one file is a block of 57 bytes and the file.
pub fn the_directory_of_hello_txt()
    ensures { plan sha256 murmur3 usual (Dir (With (codes "hello.txt") (File none (codes "hello world"))
        (Nothing none))) ≡ Some (node_plan digest_hello_dir 68
        ((raw_cid digest_hello_world, codes "hello world") ∷ (node_cid digest_hello_dir, block_hello) ∷ [])) }
{}

/// The file `abc` in pieces of one byte and nodes of two links has six blocks and the Tsize 251.
pub fn the_file_plan_of_abc()
    ensures { plan sha256 murmur3 narrow (File none (codes "abc")) ≡ Some abc_plan }
{}

/// The file `ab` is the node P.
pub fn the_file_of_two_pieces()
    ensures { plan sha256 murmur3 narrow (File none (codes "ab"))
        ≡ Some (node_plan digest_p 100 ((raw_cid digest_a, codes "a") ∷ (raw_cid digest_b, codes "b") ∷
        (node_cid digest_p, block_p) ∷ [])) }
{}

/// A weight that equals the threshold stays basic.
pub fn the_basic_directory_of_two()
    ensures { plan sha256 first_eight (sharding_above 74) (empty_files (codes "a" ∷ codes "b" ∷ []))
        ≡ Some (node_plan digest_basic 94 (empty_block ∷ empty_block ∷ (node_cid digest_basic, block_basic) ∷ [])) }
{}

/// A weight above the threshold is sharded.
pub fn the_shard_of_three()
    ensures { plan sha256 first_eight (sharding_above 74) (empty_files (codes "a" ∷ codes "b" ∷ codes "c" ∷ []))
        ≡ Some (node_plan digest_shard_of_three 165 (empty_block ∷ empty_block ∷ empty_block ∷
        (node_cid digest_shard_of_three, block_three) ∷ [])) }
{}

/// A shard of one name.
pub fn the_shard_of_one()
    ensures { plan sha256 first_eight (sharding_above 0) (empty_files (codes "a" ∷ []))
        ≡ Some (node_plan digest_shard_of_one 71 (empty_block ∷ (node_cid digest_shard_of_one, block_one) ∷ [])) }
{}

/// Two names that share seven slots are eight shards.
pub fn the_chain_of_eight_shards()
    ensures { plan sha256 first_eight (sharding_above 0) (empty_files (codes "abcdefgX" ∷ codes "abcdefgY" ∷ []))
        ≡ Some chain_plan }
{}

/// Of one of them alone one shard is left.
pub fn the_shard_that_is_left()
    ensures { plan sha256 first_eight (sharding_above 0) (empty_files (codes "abcdefgX" ∷ []))
        ≡ Some (node_plan digest_shard_left 78 (empty_block ∷ (node_cid digest_shard_left, block_left) ∷ [])) }
{}

/// A file of one piece with metadata is the piece and a node over it.
pub fn the_file_with_a_mode()
    ensures { plan sha256 murmur3 usual (File (with_mode 420) (codes "hi"))
        ≡ Some (node_plan digest_hi_0644 57 ((raw_cid digest_hi, codes "hi") ∷ (node_cid digest_hi_0644, block_hi_0644)
        ∷ [])) }
{}

/// So is an empty one.
pub fn the_empty_file_with_a_mode()
    ensures { (entry sha256 murmur3 usual (File (with_mode 420) [])).tsize ≡ 55 }
{}

/// An mtime of few seconds takes four bytes.
pub fn the_file_with_an_mtime()
    ensures { (entry sha256 murmur3 usual (File (with_time 420 5 None) (codes "hi"))).tsize ≡ 61 }
{}

/// Nanoseconds take five more.
pub fn the_file_with_nanoseconds()
    ensures { (entry sha256 murmur3 usual (File (with_time 420 5 (Some 7)) (codes "hi"))).tsize ≡ 66 }
{}

/// An empty directory with a mode is one block of seven bytes.
pub fn the_empty_directory_with_a_mode()
    ensures { plan sha256 murmur3 usual (Dir (Nothing (with_mode 493)))
        ≡ Some (node_plan digest_dir_0755 7 ((
          node_cid digest_dir_0755,
          0x0a ∷ 0x05 ∷ 0x08 ∷ 0x01 ∷ 0x38 ∷ 0xed ∷ 0x03 ∷ [],
        ) ∷ [])) }
{}

/// A shard of one name with a mode has three bytes more.
pub fn the_shard_with_a_mode()
    ensures { (entry sha256 first_eight (sharding_above 0) (Dir
        (With (codes "a") (File none []) (Nothing (with_mode 493))))).tsize ≡ 74 }
{}

/// Two names of one hash in a sharded directory.
pub fn names_that_collide()
    ensures { refusal sum_digest first_eight (sharding_above 100)
        (empty_files (codes "abcdefgh1" ∷ codes "abcdefgh2" ∷ codes "c" ∷ []))
        ≡ Some (Collision (codes "abcdefgh1") (codes "abcdefgh2")) }
{}

/// In a basic directory they are no reason.
pub fn names_that_collide_in_a_basic_directory()
    ensures { refusal sum_digest first_eight (sharding_above 100)
        (empty_files (codes "abcdefgh1" ∷ codes "abcdefgh2" ∷ [])) ≡ None }
{}

/// The text of the Head.
pub fn the_head_of_an_empty_tree()
    ensures { head_text usual (node_cid digest_empty_dir) ≡ codes "unixfs-head 2" ++ 10 ∷ codes "chunk 262144"
        ++ 10 ∷ codes "width 174" ++ 10 ∷ codes "threshold 262144"
        ++ 10 ∷ codes "root bafybeiczsscdsbs7ffqz55asqdf3smv6klcw3gofszvwlyarci47bgf354" ++ 10 ∷ [] }
{}

/// Two files of 7993 and 3439 bytes in pieces of 4096 have the Tsize 11647.
pub fn a_generated_directory()
    ensures { (entry sum_digest murmur3 (record { chunk = 4096; width = 174; threshold = 4096 }) generated).tsize
        ≡ 11647 }
{}
