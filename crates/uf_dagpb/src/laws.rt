//! What holds of the spellings of nodes, whoever writes or reads them.
ghost use Rattle.std.specs.Prelude.{◌≡◌, ◌<◌, ◌^◌, Ok, length};
ghost use Rattle.uf_dagpb.specs.declared.node.Node.{Node as TheNode};
ghost use Rattle.uf_dagpb.specs.Reading.{node_reads};
ghost use Rattle.uf_dagpb.specs.Spelling.{node_bytes, AreLinks, IsNode};

/// A canonical spelling is that of one node.
pub fn spellings_are_of_one_node()
    ensures { (a b : TheNode) → IsNode a → IsNode b → length (node_bytes a) < 2 ^ 64 → node_bytes a ≡ node_bytes b
        → a ≡ b }
{}

/// What was written is read again leniently, in whatever order its links stand.
pub fn what_was_written_is_read()
    ensures { (n : TheNode) → AreLinks n.links → length (node_bytes n) < 2 ^ 64 → node_reads (node_bytes n) ≡ Ok n }
{}
