//! CARs read into a store.
ghost use Rattle.std.specs.Prelude.{◌≡◌, ◌<◌, ◌≤◌, ◌+◌, ◌^◌, ℕ, List, Some, false, length};
ghost use Rattle.std.specs.Prelude.{IfOk, IfErr, OnOk, OnErr, IfSome};
ghost use Rattle.uf_varint.specs.declared.varint.Var.TheVariants.{Value};
ghost use Rattle.uf_edge.specs.Counts.{Counts};
ghost use Rattle.uf_edge.specs.Streams.{IsAtEnd};
ghost use Rattle.uf_store.specs.Clashes.{IsSaving};
ghost use Rattle.uf_store.specs.Contents.{changed, with_save};
ghost use Rattle.uf_store.specs.Faults.{NoneIsBad, Shown};
ghost use Rattle.uf_store.specs.Keeping.{KeepsGood};
ghost use Rattle.uf_store.specs.Writing.{SavesOnly};
ghost use Rattle.uf_car.specs.declared.section.Opening.TheVariants.{Found};
ghost use Rattle.uf_car.specs.Importing.{ClashesWith, EndsAt, FitsSection, ImportsCar, ImportsSection};
ghost use Rattle.uf_car.specs.Importing.{ImportsSections, IsOfInput};
ghost use Rattle.uf_car.specs.Importing.{OnlyImports, SaysUnlessStopped, Uses, UsesAhead, UsesUp, as_section, begun};
ghost use Rattle.uf_car.specs.Importing.{car_fault, checked_block, cut_fault, is_source_fault};
ghost use Rattle.uf_car.specs.Reading.{car_read, header_at, header_with, opening_of, read_over, sections_of};
ghost use Rattle.uf_car.specs.Windows.{Ahead, ComesTo, KeepsAhead, ahead, is_over_at, window_bytes};

use crate::begun::Begun;
use crate::hashed::DigestsAhead;
use crate::header::roots_in;
use crate::section::{Opening, opening_at};
use crate::window::{Fill, Window};
use crate::{CarFault, Imported};
use std::alloc::Global;
use std::sync::ledger::Ledger;
use uf_cid::{BlockHash, Cids};
use uf_edge::Source;
use uf_store::{Steps, Store, save_under};
use uf_varint::{Var, read_multi};

/// Reads a CAR of at most `limit` bytes, and keeps the block of each section. After a refusal the blocks of the
/// sections before it are kept. Ok says that the source was read to its end, and not that all below a root is
/// there (CARv1). One touch for each block.
pub fn import<S: Store, I: Source, L: Ledger>(
    alloc: Global,
    store: &mut S,
    input: &mut I,
    limit: u64,
    touches: &mut Steps<L>,
) -> Result<Imported, CarFault>
    ensures reads { (bytes : List ℕ) → I.left input.old ≡ Some bytes → ImportsCar (car_read S.X.block32 limit bytes)
        result (S.seen store.old).told (S.seen store.new).told }
    ensures last { OnOk result (IsAtEnd (I.left input.new)) }

    // Each fault has its cause; blocks that were good stay, and nothing but blocks is written.
    ensures cause { Shown S.X.block32 NoneIsBad (car_fault result) (S.seen store.old) (S.seen store.new) }
    ensures fault { IfSome (car_fault result) IsSaving }
    ensures good { KeepsGood S.X.block32 (S.seen store.old).told (S.seen store.new).told }
    ensures saves { SavesOnly S.X.block32 (S.seen store.old).told (S.seen store.new).told }
    ensures counts { Counts (is_source_fault result) (I.faults input.old) (I.faults input.new) }
{
    let mut window = Window::new(alloc, limit)?;
    import_all(alloc, store, &mut window, input, touches)
}

// Reads the header and all sections, and keeps their blocks.
fn import_all<S: Store, I: Source, L: Ledger>(
    alloc: Global,
    store: &mut S,
    window: &mut Window,
    input: &mut I,
    touches: &mut Steps<L>,
) -> Result<Imported, CarFault>
    requires ended { ComesTo window.old.supply (I.left input.old) }
    requires few { length (window_bytes window.old) + window.old.room < 2 ^ 64 }
    ensures reads { (a : Ahead) → ahead window.old (I.left input.old) ≡ Some a
        → ImportsCar (read_over S.X.block32 a.1 a.0) result (S.seen store.old).told (S.seen store.new).told }
    ensures last { OnOk result (IsAtEnd (I.left input.new)) }
    ensures imports { OnlyImports S.X.block32 (car_fault result) (S.seen store.old) (S.seen store.new) }
    ensures counts { Counts (is_source_fault result) (I.faults input.old) (I.faults input.new) }
{
    let (roots, place) = read_header(alloc, window, input)?;
    let blocks = import_sections(alloc, store, window, input, place, touches)?;
    Ok(Imported { roots, blocks })
}

// Reads the header, and says how many bytes it has with its length.
fn read_header<I: Source>(
    alloc: Global,
    window: &mut Window,
    input: &mut I,
) -> Result<(Cids, u64), CarFault>
    requires ended { ComesTo window.old.supply (I.left input.old) }
    ensures says { (a : Ahead) → ahead window.old (I.left input.old) ≡ Some a
        → SaysUnlessStopped (λ x. (x.0, x.1)) result (header_at a.1 a.0) }
    ensures rest { IfOk result (λ x. UsesAhead x.1 window.old window.new (I.left input.old) (I.left input.new)) }
    ensures of_input { IfErr result IsOfInput }
    ensures ended { ComesTo window.new.supply (I.left input.new) }
    ensures counts { Counts (is_source_fault result) (I.faults input.old) (I.faults input.new) }
{
    window.look_ahead(input, 9)?;
    match read_multi(window.bytes()) {
        Var::Short => Err(cut_at(window, 0)),
        Var::Bad => Err(CarFault::BadLength(0)),
        Var::Value(length, used) => {
            if length == 0 || length > 16384 {
                return Err(CarFault::Header);
            }
            read_roots(alloc, window, input, used, length as usize)
        }
    }
}

// Reads a header of n bytes after its length.
fn read_roots<I: Source>(
    alloc: Global,
    window: &mut Window,
    input: &mut I,
    used: usize,
    length: usize,
) -> Result<(Cids, u64), CarFault>
    requires ended { ComesTo window.old.supply (I.left input.old) }
    requires some { 0 < length }
    requires front { used ≤ 9 }
    requires size { length ≤ 16384 }
    ensures says { (a : Ahead) → ahead window.old (I.left input.old) ≡ Some a
        → SaysUnlessStopped (λ x. (x.0, x.1)) result (header_with a.1 a.0 (Value length used)) }
    ensures rest { IfOk result (λ x. UsesAhead x.1 window.old window.new (I.left input.old) (I.left input.new)) }
    ensures of_input { IfErr result IsOfInput }
    ensures ended { ComesTo window.new.supply (I.left input.new) }
    ensures counts { Counts (is_source_fault result) (I.faults input.old) (I.faults input.new) }
{
    let end = used + length;
    match window.fill_to(input, end)? {
        Fill::Short => Err(cut_at(window, 0)),
        Fill::Enough => {
            let roots = roots_in(alloc, &window.bytes()[used..end])?;
            window.consume(end);
            Ok((roots, end as u64))
        }
    }
}

// Reads the sections from a place on, keeps their blocks, and says how many there are.
fn import_sections<S: Store, I: Source, L: Ledger>(
    alloc: Global,
    store: &mut S,
    window: &mut Window,
    input: &mut I,
    place: u64,
    touches: &mut Steps<L>,
) -> Result<u64, CarFault>
    requires ended { ComesTo window.old.supply (I.left input.old) }
    requires place { place + (length (window_bytes window.old) + window.old.room) < 2 ^ 64 }
    ensures reads { (a : Ahead) → ahead window.old (I.left input.old) ≡ Some a
        → ImportsSections (sections_of S.X.block32 a.1 place a.0) result
        (S.seen store.old).told (S.seen store.new).told }
    ensures last { OnOk result (IsAtEnd (I.left input.new)) }
    ensures imports { OnlyImports S.X.block32 (car_fault result) (S.seen store.old) (S.seen store.new) }
    ensures counts { Counts (is_source_fault result) (I.faults input.old) (I.faults input.new) }
{
    let mut hashed = DigestsAhead::new(alloc);
    let mut at = place;
    let mut blocks = 0;
    loop {
        match import_section(&mut hashed, store, window, input, at, touches)? {
            None => return Ok(blocks),
            Some(used) => {
                at += used as u64;
                blocks += 1;
            }
        }
    }
}

// Reads one section, keeps its block, and says how many bytes it had; None at the end.
fn import_section<S: Store, I: Source, L: Ledger>(
    hashed: &mut DigestsAhead<S::X>,
    store: &mut S,
    window: &mut Window,
    input: &mut I,
    place: u64,
    touches: &mut Steps<L>,
) -> Result<Option<usize>, CarFault>
    requires ended { ComesTo window.old.supply (I.left input.old) }
    ensures reads { (a : Ahead) → ahead window.old (I.left input.old) ≡ Some a
        → ImportsSection S.X.block32 place a (ahead window.new (I.left input.new)) result
        (S.seen store.old).told (S.seen store.new).told }
    ensures last { EndsAt result (I.left input.new) }
    ensures few { UsesUp result window.old window.new }
    ensures ended { ComesTo window.new.supply (I.left input.new) }
    ensures imports { OnlyImports S.X.block32 (car_fault result) (S.seen store.old) (S.seen store.new) }
    ensures counts { Counts (is_source_fault result) (I.faults input.old) (I.faults input.new) }
{
    match begin_section(window, input, place)? {
        None => Ok(None),
        Some(begun) => {
            let used = import_block(hashed, store, window, input, place, &begun, touches)?;
            Ok(Some(used))
        }
    }
}

// Reads how a section begins; None where nothing is left.
fn begin_section<I: Source>(
    window: &mut Window,
    input: &mut I,
    place: u64,
) -> Result<Option<Begun>, CarFault>
    requires ended { ComesTo window.old.supply (I.left input.old) }
    ensures says { (a : Ahead) → ahead window.old (I.left input.old) ≡ Some a
        → SaysUnlessStopped (λ x. x) result (begun a.1 place (opening_of place a.0)) }
    ensures last { EndsAt result (I.left input.new) }
    ensures ahead { KeepsAhead window.old window.new (I.left input.old) (I.left input.new) }
    ensures fits { IfOk result (λ b. IfSome b FitsSection) }
    ensures of_input { IfErr result IsOfInput }
    ensures ended { ComesTo window.new.supply (I.left input.new) }
    ensures counts { Counts (is_source_fault result) (I.faults input.old) (I.faults input.new) }
{
    window.look_ahead(input, 45)?;
    match opening_at(place, window.bytes()) {
        Opening::End => {
            if window.is_over() {
                Err(CarFault::TooLong)
            } else {
                Ok(None)
            }
        }
        Opening::Cut => Err(cut_at(window, place)),
        Opening::Wrong(fault) => Err(fault),
        Opening::Found(cid, front, size) => Ok(Some(Begun { cid, front, size })),
    }
}

// Reads the block of a section, and keeps it where it is that of its CID. It is hashed once.
fn import_block<S: Store, I: Source, L: Ledger>(
    hashed: &mut DigestsAhead<S::X>,
    store: &mut S,
    window: &mut Window,
    input: &mut I,
    place: u64,
    begun: &Begun,
    touches: &mut Steps<L>,
) -> Result<usize, CarFault>
    requires ended { ComesTo window.old.supply (I.left input.old) }
    requires fits { FitsSection begun.now }
    ensures reads { (a : Ahead) → ahead window.old (I.left input.old) ≡ Some a
        → opening_of place a.0 ≡ Found begun.now.cid begun.now.front begun.now.size
        → ImportsSection S.X.block32 place a (ahead window.new (I.left input.new)) (as_section result)
        (S.seen store.old).told (S.seen store.new).told }
    ensures few { IfOk result (λ used. Uses used window.old window.new) }
    ensures ended { ComesTo window.new.supply (I.left input.new) }
    ensures imports { OnlyImports S.X.block32 (car_fault result) (S.seen store.old) (S.seen store.new) }
    ensures counts { Counts (is_source_fault result) (I.faults input.old) (I.faults input.new) }
{
    let end = begun.front + begun.size;
    match window.fill_to(input, end)? {
        Fill::Short => Err(cut_at(window, place)),
        Fill::Enough => {
            let ahead = window.bytes();
            let block = &ahead[begun.front..end];
            keep_block(hashed, store, place, begun, block, ahead, touches)?;
            window.consume(end);
            Ok(end)
        }
    }
}

// Keeps a block that is that of its CID. The bytes from its section on say which blocks come next.
fn keep_block<S: Store, L: Ledger>(
    hashed: &mut DigestsAhead<S::X>,
    store: &mut S,
    place: u64,
    begun: &Begun,
    block: &[u8],
    ahead: &[u8],
    touches: &mut Steps<L>,
) -> Result<(), CarFault>
    requires size { length block.now ≤ 2097152 }
    ensures says { SaysUnlessStopped (λ x. x) result (checked_block S.X.block32 place begun.now.cid block.now) }
    ensures kept { OnOk result ((S.seen store.new).told
        ≡ changed (with_save begun.now.cid block.now) (S.seen store.old).told) }
    ensures err { OnErr result ((S.seen store.new).told ≡ (S.seen store.old).told) }
    ensures clash { IfSome (car_fault result)
        (ClashesWith S.X.block32 place begun.now.cid block.now (S.seen store.old).told) }
    ensures no_read { is_source_fault result ≡ false }
    ensures imports { OnlyImports S.X.block32 (car_fault result) (S.seen store.old) (S.seen store.new) }
{
    if hashed.digest(block, ahead) != begun.cid.digest {
        return Err(CarFault::WrongDigest(place, begun.cid));
    }
    save_under(hashed.alloc, store, &begun.cid, block, touches)?;
    Ok(())
}

// Why bytes end in a section: there are no more, or no more may be read.
fn cut_at(window: &Window, place: u64) -> CarFault
    ensures { result ≡ cut_fault (is_over_at window.now.supply) place }
{
    if window.is_over() {
        CarFault::TooLong
    } else {
        CarFault::Truncated(place)
    }
}
