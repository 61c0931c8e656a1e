//! Laws of the definitions.
ghost use Rattle.std.specs.Prelude.{◌≡◌, Bool, true, false, ◌≤◌, ◌<◌, ◌*◌, ◌^◌, ◌↔◌, ◌==◌, Option, None, Some, ℕ};
ghost use Rattle.std.specs.Prelude.{List, [], ◌∷◌, ◌+◌, ◌++◌, length, map, IsTrue, if◌then◌else◌};
ghost use Rattle.std.specs.FinMap.Entries.{is_sorted, find};
ghost use Rattle.std.specs.List.{AllByRecursion, range_with_len};
ghost use Rattle.uf_cid.specs.Blocks.{Held, Lookup, Holds, Agrees};
ghost use Rattle.uf_murmur.specs.Slots.{slot};
ghost use Rattle.uf_tree.specs.declared.meta.Meta.{Meta};
ghost use Rattle.uf_tree.specs.declared.nodes.Entry.{Entry};
ghost use Rattle.uf_tree.specs.declared.nodes.FileNode.{FileNode};
ghost use Rattle.uf_tree.specs.declared.nodes.Part.{Part};
ghost use Rattle.uf_tree.specs.declared.profile.Profile.{Profile};
ghost use Rattle.uf_tree.specs.Changes.{with_name, without, set_at};
ghost use Rattle.uf_tree.specs.Cutting.{joined, room_after, glue};
ghost use Rattle.uf_tree.specs.DirPlan.{own_plan, dir_plan, trail, is_sharded};
ghost use Rattle.uf_tree.specs.FilePlan.{Plan, split_from, chunks, groups, node_over, root_node, top_part, top_held};
ghost use Rattle.uf_tree.specs.FilePlan.{climb, file_plan};
ghost use Rattle.uf_tree.specs.FileSub.{IsTop, IsRooted, IsFileHeight, IsHeight, span, part_over};
ghost use Rattle.uf_laws.specs.FirstRows.{IsFirst};
ghost use Rattle.uf_laws.specs.Least.{Least};
ghost use Rattle.uf_tree.specs.Metas.{is_meta, none};
ghost use Rattle.uf_tree.specs.Names.{names_cmp};
ghost use Rattle.uf_tree.specs.Profiles.{is_profile, most_bytes};
ghost use Rattle.uf_tree.specs.Roles.{IsCanonicalDirectory, IsCanonicalShard, IsCanonicalFileNode, IsSpanned};
ghost use Rattle.uf_tree.specs.Roles.{MayCarry, Root, Below};
ghost use Rattle.uf_tree.specs.Nodes.{Named, InSlot, file_block, dir_block, shard_block};
ghost use Rattle.uf_tree.specs.Shardable.{HasShard};
ghost use Rattle.uf_tree.specs.ShardPlan.{shard, bucket, shard_items, slot_item, twins, same_slots, same_hash};
ghost use Rattle.uf_tree.specs.Tree.{Tree, Dir, Entries, own_meta, pairs, entries, is_tree};
ghost use Rattle.uf_tree.specs.TreePlan.{entry, blocks, named_entries};
ghost use Rattle.uf_tree.specs.Validity.{IsHash, IsEntry, IsNamed, IsDirectory, IsShard, IsFileNode};

/// Nothing of a file is lost or turned round when it is cut.
pub fn the_pieces_are_the_file()
    ensures { (p : Profile) (bytes : List ℕ) → joined (chunks p bytes) ≡ bytes }
{}

/// Cutting goes on where it stopped, so the pieces don't depend on how the bytes came.
pub fn cutting_goes_on()
    ensures { (w r : ℕ) (front behind : List ℕ) → split_from w r (front ++ behind)
        ≡ glue (split_from w r front).0 (split_from w r front).1 (split_from w (room_after w r front) behind) }
{}

/// The rows of a file end before the fuel, so the fuel doesn't matter.
pub fn the_rows_end_before_the_fuel()
    ensures { (X : List ℕ → List ℕ) (width fuel other : ℕ) (row : List Part) → 2 ≤ width → length row ≤ fuel
        → length row ≤ other
        → climb X width fuel row ≡ climb X width other row }
{}

/// A put of a name changes one slot of a shard, to what its pairs then give.
pub fn a_put_changes_one_slot()
    ensures { (N : List ℕ → ℕ) (deeper : List Named → Plan) (k : ℕ) (name : List ℕ) (e : Entry) (l : List Named)
        → IsTrue (is_sorted names_cmp l)
        → shard_items N deeper k (with_name name e l)
        ≡ set_at (slot (N name) k) (slot_item deeper (with_name name e (bucket N k (slot (N name) k) l)))
        (shard_items N deeper k l) }
{}

/// A removal of a name changes one slot of a shard, to what its pairs then give.
pub fn a_removal_changes_one_slot()
    ensures { (N : List ℕ → ℕ) (deeper : List Named → Plan) (k : ℕ) (name : List ℕ) (l : List Named)
        → IsTrue (is_sorted names_cmp l)
        → shard_items N deeper k (without name l)
        ≡ set_at (slot (N name) k) (slot_item deeper (without name (bucket N k (slot (N name) k) l)))
        (shard_items N deeper k l) }
{}

/// A directory's entry is that of its metadata and of its members' names and entries.
pub fn a_directory_stands_on_its_members()
    ensures { (X : List ℕ → List ℕ) (N : List ℕ → ℕ) (p : Profile) (es : Entries)
        → entry X N p (Dir es) ≡ (own_plan X N p (own_meta es) (named_entries X N p es)).entry }
{}

/// A member that is put is one put in the list of names and entries.
pub fn a_member_put_is_one_put()
    ensures { (X : List ℕ → List ℕ) (N : List ℕ → ℕ) (p : Profile) (m : Meta) (name : List ℕ) (t : Tree) (es : Entries)
        → named_entries X N p (entries m (with_name name t (pairs es)))
        ≡ with_name name (entry X N p t) (named_entries X N p es) }
{}

/// A member that is taken away is one removal from the list of names and entries.
pub fn a_member_removed_is_one_removal()
    ensures { (X : List ℕ → List ℕ) (N : List ℕ → ℕ) (p : Profile) (m : Meta) (name : List ℕ) (es : Entries)
        → named_entries X N p (entries m (without name (pairs es))) ≡ without name (named_entries X N p es) }
{}

/// A file read from the root down is the one that the rows give, and its height is the least at which the bytes fit.
pub fn a_file_from_the_root_down_is_its_plan()
    ensures { (X : List ℕ → List ℕ) (p : Profile) (m : Meta) (bytes : List ℕ) → IsTrue (is_profile p) → (height : ℕ)
        × IsRooted X p m bytes (file_plan X p m bytes) height }
{}

/// A file's plan is what stands over its first row of one group: the root over that row, or a single piece without
/// metadata alone; with the blocks of all rows up to it.
pub fn a_file_plan_stands_on_its_first_row_of_one_group()
    ensures { (X : List ℕ → List ℕ) (p : Profile) (m : Meta) (bytes : List ℕ) → IsTrue (is_profile p) → (last : ℕ)
        × IsTop X p m bytes (file_plan X p m bytes) last }
{}

/// Without metadata it is the first row that has one part: its entry, and the blocks of all rows up to it.
pub fn a_file_plan_without_metadata_is_its_first_row_of_one_part()
    ensures { (X : List ℕ → List ℕ) (p : Profile) (bytes : List ℕ) → IsTrue (is_profile p) → (top : ℕ)
        × IsFirst X p bytes (file_plan X p none bytes) top }
{}

/// Files of the same bytes have the same blocks below their roots: metadata changes the root alone.
pub fn a_file_plan_has_its_metadata_in_the_root_alone()
    ensures { (X : List ℕ → List ℕ) (p : Profile) (bytes : List ℕ) → (under : List Held) × (parts : List Part)
        × ((m : Meta) →
        ((file_plan X p m bytes).entry ≡ (top_part X m parts).entry)
        × ((file_plan X p m bytes).blocks ≡ under ++ top_held X m parts)) }
{}

/// Level by level a shard has a plan exactly where no two names share all slots from its level on.
pub fn a_shard_has_a_plan_where_no_names_are_twins()
    ensures { (N : List ℕ → ℕ) (left : ℕ) (l : List Named) → HasShard N left l ↔ (twins (same_slots N left) l ≡ None) }
{}

/// From level 0 on two names share all slots exactly where they have one hash.
pub fn twins_at_level_0_have_one_hash()
    ensures { (N : List ℕ → ℕ) (l : List Named) → ((name : List ℕ) → N name < 2 ^ 64)
        → twins (same_slots N 7) l ≡ twins (same_hash N) l }
{}

/// A directory's plan depends only on what its names name, and not on how its list came about.
pub fn a_directory_depends_on_its_names_alone()
    ensures { (X : List ℕ → List ℕ) (N : List ℕ → ℕ) (p : Profile) (meta : Meta) (l m : List Named)
        → IsTrue (is_sorted names_cmp l) → IsTrue (is_sorted names_cmp m)
        → ((name : List ℕ) → find names_cmp name l ≡ find names_cmp name m)
        → dir_plan X N p meta l ≡ dir_plan X N p meta m }
{}

/// A directory has a plan unless it is sharded and two of its names have one hash.
pub fn a_directory_has_a_plan_unless_names_collide()
    ensures { (X : List ℕ → List ℕ) (N : List ℕ → ℕ) (p : Profile) (m : Meta) (l : List Named)
        → ((name : List ℕ) → N name < 2 ^ 64)
        → dir_plan X N p m l ≡ elim (if is_sharded p l then twins (same_hash N) l
        else None) [ None ↦ Some (own_plan X N p m l) | Some names ↦ None ] }
{}

/// In byte order the twins are the least name that has a twin, and the least of its twins.
pub fn twins_are_the_least()
    ensures { (same : List ℕ → List ℕ → Bool) (l : List Named) (a b : List ℕ) → IsTrue (is_sorted names_cmp l)
        → twins same l ≡ Some (a, b) → Least same a b l }
{}

/// The blocks that decide a name are blocks of the directory.
pub fn a_trail_is_among_the_blocks()
    ensures holds { (X : List ℕ → List ℕ) (N : List ℕ → ℕ) (p : Profile) (m : Meta) (l : List Named) (name : List ℕ)
        (held : Lookup) → Holds held (own_plan X N p m l).blocks → Holds held (trail X N p m l name) }
    ensures agrees { (X : List ℕ → List ℕ) (N : List ℕ → ℕ) (p : Profile) (m : Meta) (l : List Named) (name : List ℕ)
        (held : Lookup) → Agrees held (own_plan X N p m l).blocks → Agrees held (trail X N p m l name) }
{}

/// Each block of a tree is under the CID of its digest.
pub fn blocks_are_under_their_digests()
    ensures { (X : List ℕ → List ℕ) (N : List ℕ → ℕ) (p : Profile) (t : Tree)
        → AllByRecursion (λ (b : Held). b.0.digest ≡ X b.1) (blocks X N p t) }
{}

/// The entry of every tree is valid.
pub fn the_entry_of_a_tree_is_valid()
    ensures { (X : List ℕ → List ℕ) (N : List ℕ → ℕ) (p : Profile) (t : Tree) → IsHash X → IsTrue (is_profile p)
        → IsEntry (entry X N p t) }
{}

/// The names and entries of every directory are valid.
pub fn the_pairs_of_a_directory_are_valid()
    ensures { (X : List ℕ → List ℕ) (N : List ℕ → ℕ) (p : Profile) (es : Entries) → IsHash X → IsTrue (is_profile p)
        → IsTrue (is_tree (Dir es)) → IsDirectory (named_entries X N p es) }
{}

/// The slots of every shard of valid pairs are valid.
pub fn the_slots_of_a_shard_are_valid()
    ensures { (N : List ℕ → ℕ) (deeper : List Named → Plan) (k : ℕ) (l : List Named)
        → ((m : List Named) → IsEntry (deeper m).entry)
        → AllByRecursion IsNamed l → 1 ≤ length l → IsShard (shard_items N deeper k l) }
{}

/// The nodes of every file are valid, its root with its metadata.
pub fn the_nodes_of_a_file_are_valid()
    ensures { (X : List ℕ → List ℕ) (p : Profile) (m : Meta) (k : ℕ) (bytes : List ℕ) → IsHash X
        → IsTrue (is_profile p) → IsTrue (is_meta m)
        → length bytes ≤ span p.chunk p.width (k + 1) → length bytes < 2 ^ 63
        → IsFileNode (root_node m (map (part_over X p.chunk p.width k) (groups (span p.chunk p.width k) bytes))) }
{}

/// The one block of a basic directory is canonical where a directory is looked for, also with its profile.
pub fn a_basic_block_is_canonical()
    ensures { (p : Profile) (m : Meta) (l : List Named) → IsTrue (is_meta m) → IsDirectory l → is_sharded p l ≡ false
        → IsCanonicalDirectory (Some p) true (dir_block m l) }
{}

/// The root of a sharded directory is canonical where a directory is looked for.
pub fn a_root_shard_is_canonical()
    ensures { (X : List ℕ → List ℕ) (N : List ℕ → ℕ) (p : Profile) (m : Meta) (l : List Named) → IsHash X
        → IsTrue (is_meta m) → IsDirectory l → is_sharded p l ≡ true
        → IsCanonicalDirectory (Some p) true (shard_block m (shard_items N (shard X N 6 none) 0 l)) }
{}

/// The block of a shard is canonical after the slots that its names share; it has metadata at level 0 alone.
pub fn a_shard_is_canonical()
    ensures { (N : List ℕ → ℕ) (deeper : List Named → Plan) (left : ℕ) (way : List ℕ) (meta : Meta) (l : List Named)
        → ((m : List Named) → IsEntry (deeper m).entry) → length way + left ≡ 7
        → IsTrue (is_meta meta) → MayCarry way meta → AllByRecursion IsNamed l → 1 ≤ length l
        → AllByRecursion (λ (e : Named). map (slot (N e.0)) (range_with_len 0 (length way)) ≡ way) l
        → HasShard N left l
        → IsCanonicalShard N way (shard_block meta (shard_items N deeper (length way) l)) }
{}

/// The nodes of a file's plan are canonical at their places.
pub fn the_nodes_of_a_file_are_canonical()
    ensures root { (X : List ℕ → List ℕ) (p : Profile) (m : Meta) (k : ℕ) (bytes : List ℕ) → IsHash X
        → IsTrue (is_profile p) → IsTrue (is_meta m)
        → IsFileHeight p.chunk p.width m (length bytes) (k + 1) → length bytes < 2 ^ 63
        → IsCanonicalFileNode (Some p) Root
        (file_block (root_node m (map (part_over X p.chunk p.width k) (groups (span p.chunk p.width k) bytes)))) }
    ensures below { (X : List ℕ → List ℕ) (p : Profile) (above k whole : ℕ) (bytes : List ℕ) → IsHash X
        → IsTrue (is_profile p) → IsHeight p.chunk p.width whole (above + (k + 1)) → above < 22
        → IsSpanned p (k + 1) whole (length bytes) → length bytes < 2 ^ 63
        → IsCanonicalFileNode (Some p) (Below above (length bytes) whole)
        (file_block (node_over (map (part_over X p.chunk p.width k) (groups (span p.chunk p.width k) bytes)))) }
{}

/// A file that stands has at most 22 rows of nodes.
pub fn a_file_has_few_rows()
    ensures { (p : Profile) (m : Meta) (n height : ℕ) → IsTrue (is_profile p) → n ≤ most_bytes p
        → IsFileHeight p.chunk p.width m n height → height ≤ 22 }
{}

/// No canonical block has more than 2097152 bytes.
pub fn canonical_blocks_are_short()
    ensures directory { (p : Profile) (m : Meta) (l : List Named) → IsTrue (is_profile p) → AllByRecursion IsNamed l
        → is_sharded p l ≡ false → length (dir_block m l) ≤ 2097152 }
    ensures shard { (m : Meta) (items : List InSlot) → IsShard items → length (shard_block m items) ≤ 2097152 }
    ensures file { (node : FileNode) → IsFileNode node → length (file_block node) ≤ 2097152 }
{}
