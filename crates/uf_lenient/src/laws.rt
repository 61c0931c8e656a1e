//! What holds of readings.
ghost use Rattle.std.specs.Prelude.{◌≡◌, ◌+◌, ◌<◌, ◌^◌, ◌↔◌, ℕ, Contains, List, [], IsTrue, Ok, Some, length, map};
ghost use Rattle.std.specs.List.{AllByRecursion};
ghost use Rattle.std.specs.declared.option.Option.{Option};
ghost use Rattle.std.specs.declared.result.Result.{Result};
ghost use Rattle.uf_cid.specs.Blocks.{Holds, Lookup as Held};
ghost use Rattle.uf_cid.specs.declared.cid.Cid.{Cid};
ghost use Rattle.uf_store.specs.Contents.{Contents, held_at};
ghost use Rattle.uf_store.specs.Keeping.{KeepsGood};
ghost use Rattle.uf_tree.specs.declared.nodes.FileNode.{FileNode};
ghost use Rattle.uf_tree.specs.declared.meta.Meta.{Meta};
ghost use Rattle.uf_tree.specs.Metas.{is_meta};
ghost use Rattle.uf_tree.specs.Nodes.{InSlot, Named, dir_block, file_block, link_of, shard_block, slot_link};
ghost use Rattle.uf_tree.specs.Tree.{Tree};
ghost use Rattle.uf_tree.specs.TreePlan.{blocks, entry};
ghost use Rattle.uf_tree.specs.Validity.{IsFileNode, IsNamed, IsShard};
ghost use Rattle.uf_lenient.specs.declared.due.Due.{Due};
ghost use Rattle.uf_lenient.specs.declared.fault.DagFault.{DagFault};
ghost use Rattle.uf_lenient.specs.declared.shapes.Limits.{Limits};
ghost use Rattle.uf_lenient.specs.declared.unixfs.Unixfs.TheVariants.{Directory, File, Shard};
ghost use Rattle.uf_lenient.specs.Denoted.{IsStep, denotes_within};
ghost use Rattle.uf_lenient.specs.Leading.{AgreeAmong, LeadsInto, block_cids};
ghost use Rattle.uf_lenient.specs.Reading.{denotes, file_of, resolve_from, shallow_of};
ghost use Rattle.uf_lenient.specs.Steps.{IsNextPiece, Rest, to_come};
ghost use Rattle.uf_lenient.specs.Streams.{IsFileFront};
ghost use Rattle.uf_lenient.specs.Visited.{AgreeUnder, EndsPieces, GaveOfFile, file_visits, pieces_of};
ghost use Rattle.uf_lenient.specs.Within.{AnswersSame, GivesWithinLimits, HoldsAllOf, HoldsGoodOf, good_blocks};
ghost use Rattle.uf_lenient.specs.Laws.{FollowsLinks, OfHeldPlan, StaysByGood, StaysInGreater, node_read};

/// The canonical blocks of files, directories and shards are what they were written as: a file's node has no bytes of
/// its own.
pub fn canonical_nodes_are_read()
    ensures file { (digest : List ℕ) (node : FileNode) → IsFileNode node → node_read digest (file_block node)
        ≡ Ok (File node.meta [] node.parts) }
    ensures directory { (digest : List ℕ) (m : Meta) (l : List Named) → IsTrue (is_meta m) → AllByRecursion IsNamed l
        → length (dir_block m l) < 2 ^ 64 → node_read digest (dir_block m l)
        ≡ Ok (Directory m (map (λ (e : Named). link_of e.0 e.1) l)) }
    ensures shard { (digest : List ℕ) (m : Meta) (items : List InSlot) → IsTrue (is_meta m) → IsShard items
        → node_read digest (shard_block m items) ≡ Ok (Shard m (map slot_link items)) }
{}

/// Where the blocks of a tree's plan are held, its root denotes the tree, unless a limit ends the reading.
pub fn a_plan_denotes_its_tree()
    ensures denotes { OfHeldPlan (λ X N p t held. (limits : Limits)
        → GivesWithinLimits t (denotes held limits (entry X N p t).cid)) }
{}

/// What is read of a map of blocks, value or fault, is read of each map that holds all of them and more, but that a
/// block that was missing may be there.
pub fn a_reading_stays_in_a_greater_map()
    ensures tree { StaysInGreater denotes }
    ensures shape { StaysInGreater shallow_of }
    ensures file { StaysInGreater file_of }
    ensures rest { (held more : Held) (rest : Rest) → HoldsAllOf held more
        → AnswersSame more (to_come held rest) (to_come more rest) }
    ensures path { (place : ℕ) (names : List (List ℕ)) → StaysInGreater
        (λ held limits c. resolve_from held limits place names c) }
{}

/// What is read of the good blocks of a map, each of which has its CID's digest, is read of those of each map that
/// holds all of them, but that a good block that was missing may be there. Calls that save keep such blocks.
pub fn a_reading_of_good_blocks_stays()
    ensures saves { (X : List ℕ → List ℕ) (before now : Contents) → KeepsGood X (Some before) (Some now)
        → HoldsGoodOf X (held_at before) (held_at now) }
    ensures good { (X : List ℕ → List ℕ) (held : Held) (c : Cid) (block : List ℕ)
        → (good_blocks X held c ≡ Some block ↔ ((held c ≡ Some block) × (X block ≡ c.digest))) }
    ensures tree { StaysByGood denotes }
    ensures file { StaysByGood file_of }
{}

/// A tree can be read directory by directory, with depth and visits counted anew for each: what a CID denotes is the
/// file under it, or the directory of what its ways denote, where these nest one level less deep.
pub fn a_tree_is_read_step_by_step()
    ensures { (held : Held) (limits : Limits) (room : ℕ) (c : Cid) (t : Tree)
        → denotes_within held limits (room + 1) c ≡ Ok t → IsStep held limits room c t }
{}

/// Calls of `Pieces::next` give one file, where each of their stores holds the same under each CID that the reading of
/// the file visits. Their pieces are a prefix of it, and the next such call ends it or says its fault. Where the file
/// has bytes, a store that holds all that the first one held is such a store.
pub fn pieces_are_of_one_file()
    ensures front { (held : Held) (limits : Limits) (c : Cid) (calls : List (Held × List ℕ)) (now : Rest)
        → GaveOfFile held limits c calls now → IsFileFront (pieces_of calls) (file_of held limits c) }
    ensures next { (held more : Held) (limits : Limits) (c : Cid) (calls : List (Held × List ℕ)) (now after : Rest)
        (answer : Result (Option (List ℕ)) DagFault) → GaveOfFile held limits c calls now
        → AgreeUnder held more (file_visits held limits c) → IsNextPiece more now after answer
        → EndsPieces (file_of held limits c) (pieces_of calls) answer }
    ensures file { (held more : Held) (limits : Limits) (c : Cid) → AgreeUnder held more (file_visits held limits c)
        → file_of more limits c ≡ file_of held limits c }
    ensures greater { (held more : Held) (limits : Limits) (c : Cid) (bytes : List ℕ)
        → file_of held limits c ≡ Ok bytes → HoldsAllOf held more → AgreeUnder held more (file_visits held limits c) }
{}

/// What is read below a CID depends on nothing but the blocks to which links lead from it. Where two maps hold the
/// same under a list of CIDs that no link leaves, each reading that begins in the list answers the same of both, value
/// or fault.
pub fn a_reading_follows_links_alone()
    ensures tree { FollowsLinks denotes }
    ensures shape { FollowsLinks shallow_of }
    ensures file { FollowsLinks file_of }
    ensures rest { (left right : Held) (cids : List Cid) (rest : Rest) → AgreeAmong left right cids
        → AllByRecursion (λ (d : Due). Contains cids d.cid) rest.0 → to_come left rest ≡ to_come right rest }
    ensures path { (place : ℕ) (names : List (List ℕ)) → FollowsLinks
        (λ held limits c. resolve_from held limits place names c) }
{}

/// A plan's blocks are just those to which links lead from its root. Its root is one of them, each link of each leads
/// to one of them again, and all of them are held wherever the same is held under all to which links lead.
pub fn a_plan_is_where_links_lead()
    ensures rooted { OfHeldPlan (λ X N p t held. Contains (block_cids (blocks X N p t)) (entry X N p t).cid) }
    ensures closed { OfHeldPlan (λ X N p t held. AllByRecursion (LeadsInto (block_cids (blocks X N p t)))
        (blocks X N p t)) }
    ensures reached { OfHeldPlan (λ X N p t held. (more : Held) (cids : List Cid) → AgreeAmong held more cids
        → Contains cids (entry X N p t).cid → Holds more (blocks X N p t)) }
{}
