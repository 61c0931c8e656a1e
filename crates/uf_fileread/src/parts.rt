//! What the node of a file links.
ghost use Rattle.std.specs.Prelude.{◌≡◌, IfOk};
ghost use Rattle.uf_tree.specs.Codecs.{Reads};
ghost use Rattle.uf_tree.specs.FilePlan.{root_node};
ghost use Rattle.uf_tree.specs.Validity.{IsFileNode};
ghost use Rattle.uf_fileread.specs.Parts.{AreParts, parts_block};

use crate::NodeParts;
use std::alloc::Global;
use uf_cid::{Memory, StrictFault};
use uf_dagpb::Link;
use uf_tree::{Entry, FileNode, Part, Parts, read_file_node};

/// The parts that the node of a file links, of which the bytes are the block (UnixFS v1, "File"), and its metadata.
pub fn read_parts(alloc: Global, bytes: &[u8]) -> Result<NodeParts, StrictFault>
    ensures { Reads AreParts parts_block bytes.now result }
{
    let node = read_file_node(alloc, bytes)?;
    let parts = parts_of(alloc, &node)?;
    Ok(NodeParts {
        parts,
        meta: node.meta,
    })
}

// The links of a node, each with its size.
fn parts_of(alloc: Global, node: &FileNode) -> Result<Parts, Memory>
    requires { IsFileNode node.now }
    ensures { IfOk result (λ parts. root_node node.now.meta parts ≡ node.now) }
{
    let links = node.parts.as_slice();
    let sizes = node.sizes.as_slice();
    let mut parts = Parts::new(alloc);
    for i in 0..links.len() {
        parts.push(part_of(&links[i], sizes[i]))?;
    }
    Ok(parts)
}

// The part that a link and its size are.
fn part_of(link: &Link, size: u64) -> Part
    ensures { result ≡ record { entry = record { cid = link.now.cid; tsize = link.now.tsize }; size = size } }
{
    Part {
        entry: Entry {
            cid: link.cid,
            tsize: link.tsize,
        },
        size,
    }
}
