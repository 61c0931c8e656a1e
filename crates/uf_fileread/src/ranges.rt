//! Ranges of a file.
ghost use Rattle.std.specs.Prelude.{◌≡◌, ◌+◌, ◌-◌, ◌<◌, ◌≤◌, ◌^◌, ◌↔◌, ℕ, List, [], ◌∷◌, length, sum, sum_by, IfErr};
ghost use Rattle.std.specs.Prelude.{IfOk, IsTrue, None, Some, if◌then◌else◌};
ghost use Rattle.uf_cid.specs.Cid.{cid_of};
ghost use Rattle.uf_cid.specs.declared.cid.Codec.TheVariants.{Raw};
ghost use Rattle.uf_edge.specs.Counts.{Stood};
ghost use Rattle.uf_edge.specs.Streams.{AppendsPrefix};
ghost use Rattle.uf_store.specs.Faults.{Answers};
ghost use Rattle.uf_store.specs.Keeping.{Agrees};
ghost use Rattle.uf_tree.specs.Codecs.{Reads};
ghost use Rattle.uf_tree.specs.Cutting.{joined};
ghost use Rattle.uf_tree.specs.FilePlan.{file_plan, leaf_held, node_over};
ghost use Rattle.uf_tree.specs.FileSub.{blocks_over, whole_blocks};
ghost use Rattle.uf_tree.specs.Metas.{none};
ghost use Rattle.uf_tree.specs.declared.meta.Meta.{Meta as TheMeta};
ghost use Rattle.uf_tree.specs.declared.profile.Profile.{Profile};
ghost use Rattle.uf_tree.specs.Roles.{WithSome};
ghost use Rattle.uf_tree.specs.Profiles.{is_profile};
ghost use Rattle.std.specs.List.{flat_map};
ghost use Rattle.uf_fileread.specs.Bad.{IsBadAmong, IsBadBelow, IsBadInFile};
ghost use Rattle.uf_fileread.specs.Parts.{parts_block};
ghost use Rattle.uf_fileread.specs.Ranges.{IsFile, SendsAtMost, ShowsRange, WritesOver, blocks_met, blocks_read};
ghost use Rattle.uf_fileread.specs.Ranges.{meets, range_of};
ghost use Rattle.uf_fileread.specs.Sending.{ArePartsOver, CarriesHere, Fits, IsFilePart, LoadsParts, MayStand};
ghost use Rattle.uf_fileread.specs.Sending.{ReadsPart};

use crate::parts::read_parts;
use crate::{NodeParts, RangeFault};
use std::alloc::Global;
use std::sync::ledger::Ledger;
use uf_cid::{Cid, Codec, StrictFault};
use uf_edge::{Sent, Sink, write_all};
use uf_store::{Role, Steps, Store, StoreFault, need};
use uf_tree::{Entry, Meta, Part};

// How many nodes of a file may stand one above the other.
const MOST_ROWS: u8 = 22;

// How many leaves a store is told of at most, the next one among them.
const MOST_AHEAD: usize = 8;

// What stands where there is none.
const NO_CID: Cid = Cid {
    codec: Codec::Raw,
    digest: [0u8; 32],
};

// The bytes from an offset on, at most n.
#[derive(Clone, Copy)]
struct Reach {
    offset: u64,
    count: u64,
}

// Where a part stands: how many nodes may stand one above the other there, its CID, and the size that is declared for
// it.
#[derive(Clone, Copy)]
struct PartPlace {
    rows: u8,
    cid: Cid,
    declared: Option<u64>,
}

/// Writes the bytes of a file from `offset` on, at most `count`, and answers how many. An offset at or after the end
/// writes nothing. It loads the root and the blocks of the parts that the range meets, each once, and keeps one node
/// at a time for each row; a leaf goes to the sink from where the store lends it. After a fault the sink has a prefix
/// of the range.
pub fn read_range<S: Store, O: Sink, L: Ledger>(
    alloc: Global,
    store: &mut S,
    entry: &Entry,
    offset: u64,
    count: u64,
    out: &mut O,
    touches: &mut Steps<L>,
) -> Result<u64, RangeFault>
    ensures value { (p : Profile) (m : TheMeta) (bytes : List ℕ) (height : ℕ)
        → IsFile S.X.block32 p m bytes entry.now.cid height
        → Agrees (S.seen store.old).told (file_plan S.X.block32 p m bytes).blocks
        → Stood (S.seen store.old).faults (S.seen store.new).faults
        → WritesOver (S.seen store.old).told (blocks_read S.X.block32 p.chunk p.width m height offset count bytes)
        (range_of offset count bytes) (O.holds out.old) (O.holds out.new) result }
    ensures fault { (p : Profile) (m : TheMeta) (bytes : List ℕ) (height : ℕ)
        → IsFile S.X.block32 p m bytes entry.now.cid height
        → Agrees (S.seen store.old).told (file_plan S.X.block32 p m bytes).blocks
        → IfErr result (λ _. AppendsPrefix (range_of offset count bytes) (O.holds out.old) (O.holds out.new)) }
    ensures touches { (p : Profile) (m : TheMeta) (bytes : List ℕ) (height : ℕ)
        → IsFile S.X.block32 p m bytes entry.now.cid height
        → Agrees (S.seen store.old).told (file_plan S.X.block32 p m bytes).blocks
        → touches.new ≤ touches.old + length (blocks_read S.X.block32 p.chunk p.width m height offset count bytes) }
    ensures touched { touches.old < touches.new }
    ensures sends { SendsAtMost count (O.holds out.old) (O.holds out.new) result }
    ensures cause { ShowsRange S.X.block32 (IsBadInFile (S.seen store.old).told entry.now.cid) result
        (S.seen store.old) (S.seen store.new) (O.faults out.old) (O.faults out.new) }
    ensures told { (S.seen store.new).told ≡ (S.seen store.old).told }
{
    let root = PartPlace {
        rows: MOST_ROWS,
        cid: entry.cid,
        declared: None,
    };
    send_part(alloc, store, root, Reach { offset, count }, out, touches)
}

// Writes a range of the part at a place.
#[cycle(sending)]
fn send_part<S: Store, O: Sink, L: Ledger>(
    alloc: Global,
    store: &mut S,
    spot: PartPlace,
    reach: Reach,
    out: &mut O,
    touches: &mut Steps<L>,
) -> Result<u64, RangeFault>
    requires few { spot.rows ≤ 22 }
    requires root { spot.declared ≡ None → spot.rows ≡ 22 }
    ensures reads { (p : Profile) (m : TheMeta) (k : ℕ) (bytes : List ℕ) → IsFilePart S.X.block32 p spot.rows m k
        spot.cid spot.declared bytes
        → Agrees (S.seen store.old).told (whole_blocks S.X.block32 p.chunk p.width m k bytes)
        → ReadsPart (S.seen store.old).told (blocks_read S.X.block32 p.chunk p.width m k reach.offset reach.count
        bytes) (range_of reach.offset reach.count bytes) (O.holds out.old) (O.holds out.new)
        (S.seen store.old).faults (S.seen store.new).faults touches.old touches.new result }
    ensures touched { touches.old < touches.new }
    ensures sends { SendsAtMost reach.count (O.holds out.old) (O.holds out.new) result }
    ensures cause { ShowsRange S.X.block32 (IsBadBelow (S.seen store.old).told (22 - spot.rows) spot.declared spot.cid)
        result (S.seen store.old) (S.seen store.new) (O.faults out.old) (O.faults out.new) }
    ensures told { (S.seen store.new).told ≡ (S.seen store.old).told }
{
    match spot.cid.codec {
        Codec::Raw => send_leaf(store, &spot.cid, spot.declared, reach, out, touches),
        Codec::DagPb => {
            let node = load_parts(alloc, store, &spot, touches)?;
            send_parts(
                alloc,
                store,
                spot.rows - 1,
                node.parts.as_slice(),
                reach,
                out,
                touches,
            )
        }
    }
}

// Writes a range of parts that stand one after the other.
#[cycle(sending)]
fn send_parts<S: Store, O: Sink, L: Ledger>(
    alloc: Global,
    store: &mut S,
    rows: u8,
    parts: &[Part],
    reach: Reach,
    out: &mut O,
    touches: &mut Steps<L>,
) -> Result<u64, RangeFault>
    requires few { rows ≤ 22 }
    ensures reads { (p : Profile) (k : ℕ) (gs : List (List ℕ)) → ArePartsOver S.X.block32 p rows k parts.now gs
        → Agrees (S.seen store.old).told (flat_map (blocks_over S.X.block32 p.chunk p.width k) gs)
        → ReadsPart (S.seen store.old).told (blocks_met (λ o n g. blocks_read S.X.block32 p.chunk p.width none k o n g)
        reach.offset reach.count gs) (range_of reach.offset reach.count (joined gs)) (O.holds out.old)
        (O.holds out.new) (S.seen store.old).faults (S.seen store.new).faults touches.old touches.new result }
    ensures touched { touches.old ≤ touches.new }
    ensures sends { SendsAtMost reach.count (O.holds out.old) (O.holds out.new) result }
    ensures cause { ShowsRange S.X.block32 (IsBadAmong (S.seen store.old).told (22 - rows) parts.now) result
        (S.seen store.old) (S.seen store.new) (O.faults out.old) (O.faults out.new) }
    ensures told { (S.seen store.new).told ≡ (S.seen store.old).told }
{
    let mut place = reach.offset;
    let mut rest = reach.count;
    let mut at = 0usize;
    for part in parts {
        let left = Reach {
            offset: place,
            count: rest,
        };
        foresee_leaves(store, parts, at, left);
        let sent = send_met(alloc, store, rows, part, left, out, touches)?;
        rest -= sent;
        place = place.saturating_sub(part.size);
        at = at.saturating_add(1);
    }
    Ok(reach.count - rest)
}

// Tells a store of the leaf at a place of these parts, where the range meets it, and of those right after it that the
// range meets too.
fn foresee_leaves<S: Store>(store: &mut S, parts: &[Part], at: usize, reach: Reach)
    ensures { S.seen store.new ≡ S.seen store.old }
{
    let mut cids = [NO_CID; MOST_AHEAD];
    let mut count = 0;
    let mut offset = reach.offset;
    let mut left = reach.count;
    for part in parts.iter().skip(at) {
        let is_leaf = part.entry.cid.codec == Codec::Raw;
        if count == MOST_AHEAD || left == 0 || offset >= part.size || !is_leaf {
            break;
        }
        cids[count] = part.entry.cid;
        count += 1;
        left = left.saturating_sub(part.size - offset);
        offset = 0;
    }
    if count > 1 {
        store.foresee(&cids[..count]);
    }
}

// Writes a range of a part, and leaves the part alone where the range doesn't meet it.
#[cycle(sending)]
fn send_met<S: Store, O: Sink, L: Ledger>(
    alloc: Global,
    store: &mut S,
    rows: u8,
    part: &Part,
    reach: Reach,
    out: &mut O,
    touches: &mut Steps<L>,
) -> Result<u64, RangeFault>
    requires few { rows ≤ 22 }
    ensures reads { (p : Profile) (k : ℕ) (g : List ℕ) → ArePartsOver S.X.block32 p rows k (part.now ∷ []) (g ∷ [])
        → Agrees (S.seen store.old).told (blocks_over S.X.block32 p.chunk p.width k g)
        → ReadsPart (S.seen store.old).told (if meets reach.offset reach.count g then blocks_read S.X.block32 p.chunk
        p.width none k reach.offset reach.count g else []) (range_of reach.offset reach.count g) (O.holds out.old)
        (O.holds out.new)
        (S.seen store.old).faults (S.seen store.new).faults touches.old touches.new result }
    ensures touched { touches.old ≤ touches.new }
    ensures sends { SendsAtMost reach.count (O.holds out.old) (O.holds out.new) result }
    ensures cause { ShowsRange S.X.block32 (IsBadBelow (S.seen store.old).told (22 - rows) (Some part.now.size)
        part.now.entry.cid) result (S.seen store.old) (S.seen store.new) (O.faults out.old) (O.faults out.new) }
    ensures told { (S.seen store.new).told ≡ (S.seen store.old).told }
{
    if reach.offset >= part.size || reach.count == 0 {
        return Ok(0);
    }
    let spot = PartPlace {
        rows,
        cid: part.entry.cid,
        declared: Some(part.size),
    };
    send_part(alloc, store, spot, reach, out, touches)
}

// Loads the node at a place. One touch.
fn load_parts<S: Store, L: Ledger>(
    alloc: Global,
    store: &mut S,
    spot: &PartPlace,
    touches: &mut Steps<L>,
) -> Result<NodeParts, StoreFault>
    requires few { spot.now.rows ≤ 22 }
    requires root { spot.now.declared ≡ None → spot.now.rows ≡ 22 }
    ensures loads { LoadsParts spot.now.rows spot.now.declared spot.now.cid (S.seen store.old) (S.seen store.new)
        result }
    ensures rows { IfOk result (λ _. 1 ≤ spot.now.rows) }
    ensures cause { Answers S.X.block32 (IsBadBelow (S.seen store.old).told (22 - spot.now.rows) spot.now.declared
        spot.now.cid) result (S.seen store.old) (S.seen store.new) }
    ensures told { (S.seen store.new).told ≡ (S.seen store.old).told }
    ensures touches { touches.new ≡ touches.old + 1 }
{
    need(store, &spot.cid, touches)?;
    match read_node(alloc, store.block(), spot.rows, spot.declared) {
        Ok(node) => Ok(node),
        Err(StrictFault::NotCanonical) => Err(StoreFault::BadBlock(spot.cid, Role::FileNode)),
        Err(StrictFault::Memory) => Err(StoreFault::Memory),
    }
}

// The parts of a node that may stand here, with the declared size.
fn read_node(
    alloc: Global,
    bytes: &[u8],
    rows: u8,
    declared: Option<u64>,
) -> Result<NodeParts, StrictFault>
    ensures { Reads (MayStand rows declared) parts_block bytes.now result }
{
    let node = read_parts(alloc, bytes)?;
    if rows == 0 {
        return Err(StrictFault::NotCanonical);
    }
    if !may_carry(rows, &node.meta) {
        return Err(StrictFault::NotCanonical);
    }
    if is_declared(declared, size_over(node.parts.as_slice())) {
        Ok(node)
    } else {
        Err(StrictFault::NotCanonical)
    }
}

// Whether a node may carry this metadata where n rows of nodes may stand: any at the root, where most may.
fn may_carry(rows: u8, meta: &Meta) -> bool
    ensures { IsTrue result ↔ CarriesHere rows meta.now }
{
    if rows < MOST_ROWS {
        return *meta == Meta::none();
    }
    true
}

// How many bytes are below these parts.
fn size_over(parts: &[Part]) -> u64
    requires { sum (node_over parts.now).sizes < 2 ^ 63 }
    ensures { result ≡ sum (node_over parts.now).sizes }
{
    parts.iter().map(|part| part.size).sum()
}

// Whether a size is the one that was declared, where one was.
fn is_declared(declared: Option<u64>, size: u64) -> bool
    ensures { IsTrue result ↔ WithSome declared (λ n. size ≡ n) }
{
    match declared {
        Some(other) => size == other,
        None => true,
    }
}

// Writes a range of the raw block under a CID.
fn send_leaf<S: Store, O: Sink, L: Ledger>(
    store: &mut S,
    cid: &Cid,
    declared: Option<u64>,
    reach: Reach,
    out: &mut O,
    touches: &mut Steps<L>,
) -> Result<u64, RangeFault>
    ensures reads { (bytes : List ℕ) → cid.now ≡ cid_of S.X.block32 Raw bytes
        → WithSome declared (λ n. length bytes ≡ n) → Agrees (S.seen store.old).told (leaf_held S.X.block32 bytes ∷ [])
        → ReadsPart (S.seen store.old).told (leaf_held S.X.block32 bytes ∷ [])
        (range_of reach.offset reach.count bytes) (O.holds out.old) (O.holds out.new)
        (S.seen store.old).faults (S.seen store.new).faults touches.old touches.new result }
    ensures touched { touches.old < touches.new }
    ensures sends { SendsAtMost reach.count (O.holds out.old) (O.holds out.new) result }
    ensures cause { (above : ℕ) → ShowsRange S.X.block32 (IsBadBelow (S.seen store.old).told above declared cid.now)
        result (S.seen store.old) (S.seen store.new) (O.faults out.old) (O.faults out.new) }
    ensures declared { IfOk result (λ _. WithSome declared (λ n. length (S.seen store.new).lent ≡ n)) }
    ensures told { (S.seen store.new).told ≡ (S.seen store.old).told }
{
    need(store, cid, touches)?;
    let block = store.block();
    if !is_declared(declared, block.len() as u64) {
        return Err(RangeFault::Store(StoreFault::BadBlock(*cid, Role::Leaf)));
    }
    let piece = piece_of(block, reach);
    match write_all(out, piece) {
        Sent::Done => Ok(piece.len() as u64),
        Sent::Failed => Err(RangeFault::Sink),
    }
}

// The bytes that a reach has of a block.
fn piece_of(bytes: &[u8], reach: Reach) -> &[u8]
    ensures { result.now ≡ range_of reach.offset reach.count bytes.now }
{
    let from = (bytes.len() as u64).min(reach.offset) as usize;
    let rest = &bytes[from..];
    let most = (rest.len() as u64).min(reach.count) as usize;
    &rest[..most]
}
