//! Blocks read leniently.
ghost use Rattle.std.specs.Prelude.{◌≡◌, [], IfErr, IfOk, IsTrue};
ghost use Rattle.std.specs.Option.{unwrap_or};
ghost use Rattle.uf_message.specs.Reading.{message_reads};
ghost use Rattle.uf_tree.specs.Metas.{is_meta, is_mode, is_mtime, none};
ghost use Rattle.uf_lenient.specs.declared.unixfs.Unixfs.TheVariants.{File};
ghost use Rattle.uf_lenient.specs.Answers.{FollowsReading, IsBare};
ghost use Rattle.uf_lenient.specs.Metas.{IsGoodUnixfs, meta_read, mtime_read, time_read};
ghost use Rattle.uf_lenient.specs.Unixfs.{as_file, as_part, as_shard, content_says, is_hamt, message_says};
ghost use Rattle.uf_lenient.specs.Unixfs.{msg_refusal, of_kind, pb_refusal, unixfs_of};

use crate::DagFault;
use crate::unixfs::Unixfs;
use std::alloc::Global;
use uf_cid::{Block, Cid, Codec, Memory};
use uf_dagpb::{Links, Node, PbFault};
use uf_message::{Message, MsgFault, MsgKind, Mtime};
use uf_store::StoreFault;
use uf_tree::Meta;

/// What the block under a CID is, in any spelling (UnixFS v1, "Data Format").
#[tactic(auto, unfolding(crate::specs::Unixfs::unixfs_of))]
pub fn read_unixfs(alloc: Global, cid: &Cid, bytes: &[u8]) -> Result<Unixfs, DagFault>
    ensures says { FollowsReading (λ u. u) (unixfs_of cid.now bytes.now) result }
    ensures bare { IfErr result IsBare }
    ensures good { IfOk result IsGoodUnixfs }
{
    match cid.codec {
        Codec::Raw => Ok(read_raw(alloc, bytes)?),
        Codec::DagPb => match uf_dagpb::decode_lenient(alloc, bytes) {
            Err(fault) => Err(node_refusal(cid, fault)),
            Ok(node) => read_content(alloc, cid, node),
        },
    }
}

// A raw block: a file of its bytes.
fn read_raw(alloc: Global, bytes: &[u8]) -> Result<Unixfs, Memory>
    ensures { IfOk result (λ u. u ≡ File none bytes.now []) }
{
    Ok(Unixfs::File(
        Meta::none(),
        Block::from_slice(alloc, bytes)?,
        Links::new(alloc),
    ))
}

// What a node is by its content.
fn read_content(alloc: Global, cid: &Cid, node: Node) -> Result<Unixfs, DagFault>
    ensures says { FollowsReading (λ u. u) (content_says cid.now node.links node.content) result }
    ensures bare { IfErr result IsBare }
    ensures good { IfOk result IsGoodUnixfs }
{
    let Node { links, content } = node;
    match content {
        None => Err(DagFault::NotUnixfs(*cid, 9)),
        Some(block) => read_message(alloc, cid, links, block.as_slice()),
    }
}

// What a node is by the bytes of its content.
fn read_message(alloc: Global, cid: &Cid, links: Links, bytes: &[u8]) -> Result<Unixfs, DagFault>
    ensures says { FollowsReading (λ u. u) (message_says cid.now links (message_reads bytes.now)) result }
    ensures bare { IfErr result IsBare }
    ensures good { IfOk result IsGoodUnixfs }
{
    match uf_message::decode_lenient(alloc, bytes) {
        Err(fault) => Err(message_refusal(cid, fault)),
        Ok(message) => Ok(kind_of(alloc, message, links)),
    }
}

// What a node is by its message.
fn kind_of(alloc: Global, message: Message, links: Links) -> Unixfs
    ensures is { result ≡ of_kind message.kind message links }
    ensures good { IsGoodUnixfs result }
{
    let meta = meta_of(&message);
    match message.kind {
        MsgKind::Raw => file_of(alloc, meta, message, links),
        MsgKind::File => file_of(alloc, meta, message, links),
        MsgKind::Directory => Unixfs::Directory(meta, links),
        MsgKind::Shard => {
            if is_murmur_shard(&message) {
                Unixfs::Shard(meta, links)
            } else {
                Unixfs::OtherShard
            }
        }
        MsgKind::Metadata => Unixfs::Other,
        MsgKind::Symlink => Unixfs::Other,
    }
}

// A file of a message's own bytes, with this metadata.
fn file_of(alloc: Global, meta: Meta, message: Message, links: Links) -> Unixfs
    ensures { result ≡ File meta (unwrap_or message.content []) links }
{
    let bytes = message.content.unwrap_or(Block::new(alloc));
    Unixfs::File(meta, bytes, links)
}

// The metadata of a message.
fn meta_of(message: &Message) -> Meta
    ensures is { result ≡ meta_read message.now }
    ensures good { IsTrue (is_meta result) }
{
    Meta {
        mode: mode_of(message.mode),
        mtime: mtime_of(message.mtime),
    }
}

// The mode of a message, which has 32 bits.
fn mode_of(mode: Option<u32>) -> Option<u32>
    ensures is { result ≡ mode }
    ensures good { IsTrue (is_mode result) }
{
    match mode {
        None => None,
        Some(mode) => Some(mode),
    }
}

// The mtime of a message, where it has one that a tree may have.
fn mtime_of(mtime: Option<Mtime>) -> Option<Mtime>
    ensures is { result ≡ mtime_read mtime }
    ensures good { IsTrue (is_mtime result) }
{
    match mtime {
        None => None,
        Some(Mtime { seconds, nanos }) => time_of(seconds, nanos),
    }
}

// The mtime of these seconds and nanoseconds: 0 nanoseconds are none, and more than a second has are no mtime.
fn time_of(seconds: i64, nanos: Option<u32>) -> Option<Mtime>
    ensures is { result ≡ time_read seconds nanos }
    ensures good { IsTrue (is_mtime result) }
{
    match nanos {
        None => Some(Mtime {
            seconds,
            nanos: None,
        }),
        Some(nanos) => {
            if nanos == 0 {
                Some(Mtime {
                    seconds,
                    nanos: None,
                })
            } else if nanos <= 999999999 {
                Some(Mtime {
                    seconds,
                    nanos: Some(nanos),
                })
            } else {
                None
            }
        }
    }
}

// Whether a shard has 256 slots that MurmurHash3 gives.
fn is_murmur_shard(message: &Message) -> bool
    ensures { result ≡ is_hamt message.now }
{
    message.fanout == Some(256) && message.hash_type == Some(0x22)
}

fn node_refusal(cid: &Cid, fault: PbFault) -> DagFault
    ensures says { result ≡ pb_refusal cid.now fault }
    ensures bare { IsBare result }
{
    match fault {
        PbFault::Truncated => DagFault::NotUnixfs(*cid, 1),
        PbFault::Varint => DagFault::NotUnixfs(*cid, 2),
        PbFault::Field => DagFault::NotUnixfs(*cid, 3),
        PbFault::Twice => DagFault::NotUnixfs(*cid, 4),
        PbFault::NoHash => DagFault::NotUnixfs(*cid, 5),
        PbFault::BadCid => DagFault::NotUnixfs(*cid, 6),
        PbFault::NotText => DagFault::NotUnixfs(*cid, 7),
        PbFault::Memory => DagFault::Store(StoreFault::Memory),
    }
}

fn message_refusal(cid: &Cid, fault: MsgFault) -> DagFault
    ensures says { result ≡ msg_refusal cid.now fault }
    ensures bare { IsBare result }
{
    match fault {
        MsgFault::Truncated => DagFault::NotUnixfs(*cid, 11),
        MsgFault::Varint => DagFault::NotUnixfs(*cid, 12),
        MsgFault::Wire => DagFault::NotUnixfs(*cid, 13),
        MsgFault::NoType => DagFault::NotUnixfs(*cid, 14),
        MsgFault::UnknownType => DagFault::NotUnixfs(*cid, 15),
        MsgFault::BadTime => DagFault::NotUnixfs(*cid, 16),
        MsgFault::Memory => DagFault::Store(StoreFault::Memory),
    }
}

/// The own bytes and the links of a node that a file links.
pub fn part_of(cid: &Cid, node: Unixfs) -> Result<(Block, Links), DagFault>
    ensures says { FollowsReading (λ x. x) (as_part cid.now node) result }
    ensures bare { IfErr result IsBare }
{
    match node {
        Unixfs::File(_, bytes, links) => Ok((bytes, links)),
        _ => Err(DagFault::NotUnixfs(*cid, 20)),
    }
}

/// The same of the node with which a file begins.
pub fn first_of(cid: &Cid, node: Unixfs) -> Result<(Block, Links), DagFault>
    ensures says { FollowsReading (λ x. x) (as_file cid.now node) result }
    ensures bare { IfErr result IsBare }
{
    match node {
        Unixfs::File(_, bytes, links) => Ok((bytes, links)),
        Unixfs::Directory(_, _) => Err(DagFault::NotUnixfs(*cid, 20)),
        Unixfs::Shard(_, _) => Err(DagFault::NotUnixfs(*cid, 20)),
        Unixfs::OtherShard => Err(DagFault::NotUnixfs(*cid, 20)),
        Unixfs::Other => Err(DagFault::Unsupported(*cid)),
    }
}

/// The links of a shard that a shard links.
pub fn shard_of(cid: &Cid, node: Unixfs) -> Result<Links, DagFault>
    ensures says { FollowsReading (λ x. x) (as_shard cid.now node) result }
    ensures bare { IfErr result IsBare }
{
    match node {
        Unixfs::Shard(_, links) => Ok(links),
        Unixfs::OtherShard => Err(DagFault::Unsupported(*cid)),
        _ => Err(DagFault::NotUnixfs(*cid, 20)),
    }
}
