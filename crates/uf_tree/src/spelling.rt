//! The parts of a node, spelled straight from what they are made of.
ghost use Rattle.std.specs.Prelude.{◌≡◌, ◌+◌, ◌≤◌, ◌++◌, OnOk, length};
ghost use Rattle.uf_dagpb.specs.Spelling.{link_bytes};
ghost use Rattle.uf_tree.specs.Nodes.{link_of};
ghost use Rattle.uf_varint.specs.Fields.{content_field};

use crate::Entry;
use uf_cid::{Block, Memory};
use uf_varint::{NumberField, width};

// A link under a name of two pieces, with its key and its length.
pub fn put_link(out: &mut Block, front: &[u8], name: &[u8], entry: &Entry) -> Result<(), Memory>
    requires { length front.now + length name.now ≤ 257 }
    ensures { OnOk result (out.new ≡ out.old
        ++ content_field 0x12 (link_bytes (link_of (front.now ++ name.now) entry.now))) }
{
    out.extend(NumberField::new(0x12, link_len(front, name, entry) as u64).as_slice())?;
    put_bytes(out, 0x0a, &entry.cid.to_binary())?;
    put_name(out, front, name)?;
    out.extend(NumberField::new(0x18, entry.tsize).as_slice())?;
    Ok(())
}

// The length of a link under a name of two pieces.
fn link_len(front: &[u8], name: &[u8], entry: &Entry) -> usize
    requires { length front.now + length name.now ≤ 257 }
    ensures { result ≡ length (link_bytes (link_of (front.now ++ name.now) entry.now)) }
{
    let hash = entry.cid.to_binary().len();
    let long = front.len() + name.len();
    2 + hash + 1 + width(long as u64) + long + 1 + width(entry.tsize)
}

// A name of two pieces, with its key and its length.
fn put_name(out: &mut Block, front: &[u8], name: &[u8]) -> Result<(), Memory>
    requires { length front.now + length name.now ≤ 257 }
    ensures { OnOk result (out.new ≡ out.old ++ content_field 0x12 (front.now ++ name.now)) }
{
    out.extend(NumberField::new(0x12, (front.len() + name.len()) as u64).as_slice())?;
    out.extend(front)?;
    out.extend(name)?;
    Ok(())
}

// A field with bytes, with its key and its length.
pub fn put_bytes(out: &mut Block, key: u8, bytes: &[u8]) -> Result<(), Memory>
    ensures { OnOk result (out.new ≡ out.old ++ content_field key bytes.now) }
{
    out.extend(NumberField::new(key, bytes.len() as u64).as_slice())?;
    out.extend(bytes)?;
    Ok(())
}
