//! Pieces of a file changed.
ghost use Rattle.std.specs.Prelude.{◌≡◌, ◌+◌, ◌-◌, ◌*◌, ◌<◌, ◌≤◌, ◌^◌, ◌++◌, [], ◌∷◌, length, take, drop, IfOk, OnOk};
ghost use Rattle.std.specs.Prelude.{Some};
ghost use Rattle.uf_store.specs.Among.{SavesAmong};
ghost use Rattle.uf_store.specs.Keeping.{Holds};
ghost use Rattle.uf_tree.specs.FilePlan.{leaf_held, leaf_part};
ghost use Rattle.uf_tree.specs.declared.profile.Profile.{Profile};
ghost use Rattle.uf_fileedit.specs.Edits.{cut_to};
ghost use Rattle.uf_fileedit.specs.Touches.{Climbs};
ghost use Rattle.uf_fileedit.specs.Changes.{IsBlank, LiesWithin, overlaid};
ghost use Rattle.uf_fileedit.specs.Layers.{LosesOneOld, LosesPiece, OfOldPiece, OfOneOld, ReadsPiece, RemakesPiece};
ghost use Rattle.uf_fileedit.specs.Layers.{SavesBlocks, SavesPiece};
ghost use Rattle.uf_fileedit.specs.Saving.{SavesOfPiece};

use std::alloc::Global;
use std::sync::ledger::Ledger;
use uf_cid::{Cid, Codec, Memory};
use uf_store::{Role, Steps, Store, StoreFault, need, save_under};
use uf_tree::{Entry, Part};

// Saves a piece of n bytes: those of the old piece, where there is one, cut or filled with zeros, and a part of
// what is written laid over them.
pub fn change_leaf<S: Store, L: Ledger>(
    alloc: Global,
    store: &mut S,
    old: Option<Part>,
    size: usize,
    offset: usize,
    piece: &[u8],
    touches: &mut Steps<L>,
) -> Result<Part, StoreFault>
    requires size { size ≤ 2097152 }
    requires within { LiesWithin size offset piece.now }
    ensures size { IfOk result (λ m. m.size ≡ size) }
    ensures gives { RemakesPiece S.X.block32 old size offset piece.now (S.seen store.old) (S.seen store.new) result }
    ensures saves { SavesPiece S.X.block32 old (S.seen store.old) (S.seen store.new) result }
    ensures no_other { SavesOfPiece S.X.block32 old size offset piece.now (S.seen store.old) (S.seen store.new) }
    ensures rises { Climbs result touches.old touches.new }
    ensures touches { touches.new ≤ touches.old + 2 }
{
    let bytes = leaf_bytes(alloc, store, old, size, offset, piece, touches)?;
    save_leaf(alloc, store, bytes.as_slice(), touches)
}

// Saves a whole piece of zeros, where a gap from a place up to another has as many bytes as two: then it has one at
// least. At most one touch.
pub fn save_zeros<S: Store, L: Ledger>(
    alloc: Global,
    store: &mut S,
    chunk: u32,
    from: u64,
    to: u64,
    touches: &mut Steps<L>,
) -> Result<Option<Part>, StoreFault>
    requires some { 1 ≤ chunk }
    requires few { chunk ≤ 1048576 }
    requires from { from < 2 ^ 63 }
    ensures blank { (p : Profile) → IfOk result (IsBlank S.X.block32 p (S.seen store.new).told 0) }
    ensures none { to < from + 2 * chunk → (S.seen store.new).told ≡ (S.seen store.old).told }
    ensures saves { SavesBlocks S.X.block32 (S.seen store.old) (S.seen store.new) result }
    ensures no_other { SavesAmong S.X.block32 (leaf_held S.X.block32 (overlaid chunk [] 0 []) ∷ [])
        (S.seen store.old).told (S.seen store.new).told }
    ensures rises { touches.old ≤ touches.new }
    ensures touches { touches.new ≤ touches.old + 1 }
{
    let two = 2 * u64::from(chunk);
    if to < from.max(1).saturating_add(two) {
        return Ok(None);
    }
    let bytes = laid_over(alloc, &[], chunk as usize, 0, &[])?;
    Ok(Some(save_leaf(alloc, store, bytes.as_slice(), touches)?))
}

// Saves a piece as a raw block. One touch.
fn save_leaf<S: Store, L: Ledger>(
    alloc: Global,
    store: &mut S,
    bytes: &[u8],
    touches: &mut Steps<L>,
) -> Result<Part, StoreFault>
    requires size { length bytes.now ≤ 2097152 }
    ensures part { IfOk result (λ m. m ≡ leaf_part S.X.block32 bytes.now) }
    ensures held { OnOk result (Holds (S.seen store.new).told (leaf_held S.X.block32 bytes.now ∷ [])) }
    ensures saves { SavesBlocks S.X.block32 (S.seen store.old) (S.seen store.new) result }
    ensures no_other { SavesAmong S.X.block32 (leaf_held S.X.block32 bytes.now ∷ []) (S.seen store.old).told
        (S.seen store.new).told }
    ensures touches { touches.new ≡ touches.old + 1 }
{
    let size = bytes.len() as u64;
    let cid = Cid::of::<S::X>(Codec::Raw, bytes);
    save_under(alloc, store, &cid, bytes, touches)?;
    Ok(Part {
        entry: Entry { cid, tsize: size },
        size,
    })
}

// The bytes of the changed piece. The old block is loaded unless what is written covers it.
fn leaf_bytes<S: Store, L: Ledger>(
    alloc: Global,
    store: &mut S,
    old: Option<Part>,
    size: usize,
    offset: usize,
    piece: &[u8],
    touches: &mut Steps<L>,
) -> Result<Vec<u8>, StoreFault>
    requires within { LiesWithin size offset piece.now }
    ensures bytes { OfOldPiece S.X.block32 old (S.seen store.old) (S.seen store.new) (λ p b. IfOk result
        (λ v. v.items ≡ overlaid size b offset piece.now)) }
    ensures size { IfOk result (λ v. length v.items ≡ size) }
    ensures lost { LosesPiece S.X.block32 old (S.seen store.old) (S.seen store.new) result }
    ensures reads { ReadsPiece S.X.block32 old (S.seen store.old) (S.seen store.new) result }
    ensures rises { Climbs result touches.old touches.new }
    ensures touches { touches.new ≤ touches.old + 1 }
{
    match old {
        Some(part) if piece.len() < size => {
            over_block(alloc, store, &part, size, offset, piece, touches)
        }
        _ => Ok(laid_over(alloc, &[], size, offset, piece)?),
    }
}

// The bytes of an old piece changed. One touch.
fn over_block<S: Store, L: Ledger>(
    alloc: Global,
    store: &mut S,
    part: &Part,
    size: usize,
    offset: usize,
    piece: &[u8],
    touches: &mut Steps<L>,
) -> Result<Vec<u8>, StoreFault>
    requires within { LiesWithin size offset piece.now }
    ensures bytes { OfOneOld S.X.block32 part.now (S.seen store.old) (S.seen store.new) (λ b. IfOk result
        (λ v. v.items ≡ overlaid size b offset piece.now)) }
    ensures size { IfOk result (λ v. length v.items ≡ size) }
    ensures lost { LosesOneOld S.X.block32 part.now (S.seen store.old) (S.seen store.new) result }
    ensures reads { ReadsPiece S.X.block32 (Some part.now) (S.seen store.old) (S.seen store.new) result }
    ensures touches { touches.new ≡ touches.old + 1 }
{
    let cid = part.entry.cid;
    need(store, &cid, touches)?;
    let block = store.block();
    if block.len() as u64 != part.size {
        return Err(StoreFault::BadBlock(cid, Role::Leaf));
    }
    Ok(laid_over(alloc, block, size, offset, piece)?)
}

// The first bytes of a block, filled with zeros up to n bytes, with a piece laid over them.
fn laid_over(
    alloc: Global,
    old: &[u8],
    size: usize,
    offset: usize,
    piece: &[u8],
) -> Result<Vec<u8>, Memory>
    requires within { LiesWithin size offset piece.now }
    ensures bytes { IfOk result (λ v. v.items ≡ overlaid size old.now offset piece.now) }
    ensures size { IfOk result (λ v. length v.items ≡ size) }
{
    let mut bytes = filled(alloc, old, size)?;
    let from = offset.min(size - piece.len());
    put(bytes.as_mut_slice(), from, piece);
    Ok(bytes)
}

// The first bytes of a block, filled with zeros up to n bytes.
fn filled(alloc: Global, old: &[u8], size: usize) -> Result<Vec<u8>, Memory>
    ensures bytes { IfOk result (λ v. v.items ≡ cut_to old.now size) }
    ensures size { IfOk result (λ v. length v.items ≡ size) }
{
    let mut bytes = Vec::with_capacity(alloc, size)?;
    bytes.extend_from_slice(&old[..old.len().min(size)])?;
    bytes.resize(size, 0)?;
    Ok(bytes)
}

// Writes a piece over the bytes from a place on.
fn put(out: &mut [u8], at: usize, piece: &[u8])
    requires { at + length piece.now ≤ length out.old }
    ensures { out.new ≡ take at out.old ++ piece.now ++ drop (at + length piece.now) out.old }
{
    out[at..at + piece.len()].copy_from_slice(piece);
}
