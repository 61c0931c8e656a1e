//! The names and bytes of the generated files.
ghost use Rattle.std.specs.Prelude.{◌≡◌, ◌<◌, ◌≤◌, ◌+◌, ◌-◌, ◌%◌, ◌^◌, ◌++◌, [], ℕ, false, IfErr, IfOk, OnOk, length};
ghost use Rattle.std.specs.Prelude.{replicate, take};
ghost use Rattle.uf_gen.specs.Grown.{file_path as path_of};
ghost use Rattle.uf_gen.specs.Rules.{file_name as name_of, first_bytes as bytes_first, last_bytes as bytes_last};
ghost use Rattle.uf_gen.specs.Rules.{late_offset as offset_late, late_piece as piece_late, mixed};
ghost use Rattle.uf_tree.specs.Laying.{laid};

use std::alloc::Global;
use uf_cid::{Block, Memory};
use uf_path::Path;
use uf_tree::{Name, NameFault, Names};

// The number that a file has by a seed.
fn mixed_number(seed: u64, i: u64) -> u64
    ensures is { result ≡ mixed seed i }
    ensures few { result < 65536 }
{
    (40503 * (i % 65536) + 257 * (seed % 65536)) % 65536
}

/// The name of a file: `f` and eight digits.
pub fn file_name(alloc: Global, i: u64) -> Result<Name, Memory>
    ensures { IfOk result (λ name. name ≡ name_of i) }
{
    let bytes = name_bytes(i);
    match str::from_utf8(&bytes) {
        Ok(text) => match Name::parse(alloc, text) {
            Ok(name) => Ok(name),
            Err(NameFault::Memory) => Err(Memory),
            Err(NameFault::Bad) => unreachable!(),
        },
        Err(_) => unreachable!(),
    }
}

/// The path of a file, which isn't entered.
pub fn file_path(alloc: Global, i: u64) -> Result<Path, Memory>
    ensures names { IfOk result (λ path. path.names ≡ path_of i) }
    ensures into { IfOk result (λ path. path.into ≡ false) }
{
    let name = file_name(alloc, i)?;
    let mut names = Names::new(alloc);
    names.push(name)?;
    Ok(Path { names, into: false })
}

// The bytes of that name.
fn name_bytes(i: u64) -> [u8; 9]
    ensures { result ≡ name_of i }
{
    let tens = i / 10;
    let hundreds = tens / 10;
    let thousands = hundreds / 10;
    let fifth = thousands / 10;
    let sixth = fifth / 10;
    let seventh = sixth / 10;
    [
        b'f',
        digit(seventh / 10),
        digit(seventh),
        digit(sixth),
        digit(fifth),
        digit(thousands),
        digit(hundreds),
        digit(tens),
        digit(i),
    ]
}

// The last decimal digit of a number.
fn digit(i: u64) -> u8
    ensures { result ≡ 48 + i % 10 }
{
    48 + (i % 10) as u8
}

/// How many bytes a file has as it is made.
pub fn first_length(seed: u64, i: u64) -> u64
    ensures is { result ≡ mixed seed i % 4096 }
    ensures few { result < 4096 }
{
    mixed_number(seed, i) % 4096
}

/// The bytes with which a file is made.
pub fn first_bytes(alloc: Global, seed: u64, i: u64) -> Result<Block, Memory>
    ensures { IfOk result (λ bytes. bytes ≡ bytes_first seed i) }
{
    let from = mixed_number(seed, i);
    let count = first_length(seed, i);
    let mut bytes = Block::with_capacity(alloc, count as usize)?;
    for j in 0..count {
        bytes.extend(&[((from + j) % 256) as u8])?;
    }
    Ok(bytes)
}

/// Where the byte `x` is written into a file later.
pub fn late_offset(seed: u64, i: u64) -> u64
    ensures is { result ≡ offset_late seed i }
    ensures few { result < 8192 }
{
    mixed_number(seed, i) % 8192
}

/// That byte.
pub fn late_piece(alloc: Global) -> Result<Block, Memory>
    ensures { IfOk result (λ bytes. bytes ≡ piece_late) }
{
    let mut piece = Block::new(alloc);
    piece.extend(b"x")?;
    Ok(piece)
}

/// The bytes of a file in the end.
pub fn last_bytes(alloc: Global, seed: u64, i: u64) -> Result<Block, Memory>
    ensures { IfOk result (λ bytes. bytes ≡ bytes_last seed i) }
{
    let first = first_bytes(alloc, seed, i)?;
    if i % 3 == 1 {
        written_late(alloc, &first, late_offset(seed, i) as usize)
    } else {
        Ok(first)
    }
}

// Bytes with `x` laid over the byte at an offset, after zeros where they end before it.
fn written_late(alloc: Global, bytes: &Block, offset: usize) -> Result<Block, Memory>
    requires { offset < 8192 }
    ensures { IfOk result (λ after. after ≡ laid bytes.now offset piece_late) }
{
    let bytes = bytes.as_slice();
    let mut padded = Block::new(alloc);
    padded.extend(bytes)?;
    for _ in bytes.len()..offset {
        padded.extend(&[0])?;
    }
    let mut after = Block::new(alloc);
    after.extend(&padded.as_slice()[..offset])?;
    after.extend(b"x")?;
    after.extend(&bytes[bytes.len().min(offset + 1)..])?;
    Ok(after)
}
