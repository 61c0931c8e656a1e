//! What files, directories and shards are made of.
use crate::{Meta, Name};
use std::marker::Model;
use uf_cid::{Cid, Seq, Sizes};
use uf_dagpb::Links;

/// What stands for a file or a directory in the node above it: its CID, and the number of bytes of its blocks, each
/// counted where it is linked (the `Tsize` of IPLD DAG-PB).
#[derive(Clone, Copy, Debug, PartialEq, Eq)]
pub struct Entry {
    pub cid: Cid,
    pub tsize: u64,
}

/// A name and what it names. Contracts see the pair of both.
#[derive(Drop)]
pub struct Pair {
    pub name: Name,
    pub entry: Entry,
}

impl Model for Pair {
    ghost use Rattle.std.specs.Prelude.{List, ℕ};
    ghost use Rattle.uf_tree.specs.declared.nodes.Entry.{Entry};

    ghost Value = { List ℕ × Entry };

    ghost view = { λ p. (p.name, p.entry) };
}

/// A list of pairs: of a directory, in byte order of the names.
pub type Pairs = Seq<Pair>;

/// A leaf or a node of a file: its entry, and how many bytes of the file are below it.
#[derive(Clone, Copy, Debug, PartialEq, Eq)]
pub struct Part {
    pub entry: Entry,
    pub size: u64,
}

/// A list of parts: one row of a file, or what one node links.
pub type Parts = Seq<Part>;

/// A node of a file: its links, how many bytes of the file are below each, and at the file's root its metadata.
#[derive(Drop)]
pub struct FileNode {
    pub parts: Links,
    pub sizes: Sizes,
    pub meta: Meta,
}

/// A directory in one block: its pairs, and its metadata.
#[derive(Drop)]
pub struct DirNode {
    pub pairs: Pairs,
    pub meta: Meta,
}

/// What a slot of a shard has: an entry under its name, or the shard of the entries that share the slots so far.
#[derive(Drop)]
pub enum Item {
    Leaf(Name, Entry),
    Sub(Entry),
}

/// A slot of a shard and what it has. Contracts see the pair of both.
#[derive(Drop)]
pub struct Placed {
    pub slot: u8,
    pub item: Item,
}

impl Model for Placed {
    ghost use Rattle.std.specs.Prelude.{ℕ};
    ghost use Rattle.uf_tree.specs.declared.nodes.Item.{Item};

    ghost Value = { ℕ × Item };

    ghost view = { λ p. (p.slot, p.item) };
}

/// A list of slots: of a shard, in ascending order.
pub type Items = Seq<Placed>;

/// A shard: its slots, and at level 0 the directory's metadata.
#[derive(Drop)]
pub struct ShardNode {
    pub items: Items,
    pub meta: Meta,
}
