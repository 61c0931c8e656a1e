//! Messages written.
ghost use Rattle.std.specs.Prelude.{◌≡◌, ◌++◌, ◌≤◌, IfOk, OnOk, length};
ghost use Rattle.std.specs.Int.{w64, cast_unsigned};
ghost use Rattle.std.specs.List.{flat_map};
ghost use Rattle.uf_varint.specs.Fields.{number_field, content_field, optional};
ghost use Rattle.uf_message.specs.Spelling.{message_bytes, mtime_bytes, fixed_field, kind_number};

use crate::{Message, MsgKind, Mtime};
use std::alloc::Global;
use uf_cid::{Block, Memory};
use uf_varint::{NumberField, width};

/// The one canonical spelling of a message. Its length is known beforehand, so memory is taken once.
#[tactic(auto, unfolding(crate::specs::Spelling::message_bytes))]
pub fn encode(alloc: Global, message: &Message) -> Result<Block, Memory>
    ensures { IfOk result (λ b. b ≡ message_bytes message.now) }
{
    let mut out = Block::with_capacity(alloc, spelled_len(message))?;
    out.extend(NumberField::new(0x08, number_of(message.kind)).as_slice())?;
    put_content(&mut out, &message.content)?;
    put_number(&mut out, 0x18, message.filesize)?;
    put_sizes(&mut out, message.blocksizes.as_slice())?;
    put_number(&mut out, 0x28, message.hash_type)?;
    put_number(&mut out, 0x30, message.fanout)?;
    put_mode(&mut out, message.mode)?;
    put_mtime(&mut out, message.mtime)?;
    Ok(out)
}

// The number of a kind.
pub fn number_of(kind: MsgKind) -> u64
    ensures { result ≡ kind_number kind }
{
    match kind {
        MsgKind::Raw => 0,
        MsgKind::Directory => 1,
        MsgKind::File => 2,
        MsgKind::Metadata => 3,
        MsgKind::Symlink => 4,
        MsgKind::Shard => 5,
    }
}

// Puts the content after what is there.
fn put_content(out: &mut Block, content: &Option<Block>) -> Result<(), Memory>
    ensures { OnOk result (out.new ≡ out.old ++ optional (content_field 0x12) content.now) }
{
    match content {
        None => Ok(()),
        Some(content) => {
            let bytes = content.as_slice();
            out.extend(NumberField::new(0x12, bytes.len() as u64).as_slice())?;
            out.extend(bytes)
        }
    }
}

// Puts a number after what is there.
fn put_number(out: &mut Block, key: u8, number: Option<u64>) -> Result<(), Memory>
    ensures { OnOk result (out.new ≡ out.old ++ optional (number_field key) number) }
{
    match number {
        None => Ok(()),
        Some(number) => out.extend(NumberField::new(key, number).as_slice()),
    }
}

// Puts the sizes of the blocks after what is there.
fn put_sizes(out: &mut Block, sizes: &[u64]) -> Result<(), Memory>
    ensures { OnOk result (out.new ≡ out.old ++ flat_map (number_field 0x20) sizes.now) }
{
    for size in sizes {
        out.extend(NumberField::new(0x20, *size).as_slice())?;
    }
    Ok(())
}

// Puts the mode after what is there.
fn put_mode(out: &mut Block, mode: Option<u32>) -> Result<(), Memory>
    ensures { OnOk result (out.new ≡ out.old ++ optional (number_field 0x38) mode) }
{
    match mode {
        None => Ok(()),
        Some(mode) => out.extend(NumberField::new(0x38, u64::from(mode)).as_slice()),
    }
}

// Puts the time after what is there.
#[tactic(auto, unfolding(crate::specs::Spelling::mtime_bytes))]
fn put_mtime(out: &mut Block, mtime: Option<Mtime>) -> Result<(), Memory>
    ensures { OnOk result (out.new ≡ out.old ++ optional (λ t. content_field 0x42 (mtime_bytes t)) mtime) }
{
    match mtime {
        None => Ok(()),
        Some(mtime) => {
            let seconds = seconds_field(mtime);
            let len = seconds.as_slice().len() + nanos_len(mtime.nanos);
            out.extend(NumberField::new(0x42, len as u64).as_slice())?;
            out.extend(seconds.as_slice())?;
            put_nanos(out, mtime.nanos)
        }
    }
}

// The seconds with their key.
pub fn seconds_field(mtime: Mtime) -> NumberField
    ensures { result ≡ number_field 0x08 (cast_unsigned w64 mtime.seconds) }
{
    NumberField::new(0x08, mtime.seconds.cast_unsigned())
}

// Puts the nanoseconds after what is there.
fn put_nanos(out: &mut Block, nanos: Option<u32>) -> Result<(), Memory>
    ensures { OnOk result (out.new ≡ out.old ++ optional (fixed_field 0x15) nanos) }
{
    match nanos {
        None => Ok(()),
        Some(nanos) => {
            out.extend(&[0x15])?;
            out.extend(&nanos.to_le_bytes())
        }
    }
}

// The length of the nanoseconds with their key.
pub fn nanos_len(nanos: Option<u32>) -> usize
    ensures { result ≡ length (optional (fixed_field 0x15) nanos) }
{
    match nanos {
        None => 0,
        Some(_) => 5,
    }
}

// The length of the spelling, so that memory is taken once.
fn spelled_len(message: &Message) -> usize {
    let mut len = 2usize;
    if let Some(content) = &message.content {
        len = len.saturating_add(content_len(content.as_slice().len()));
    }
    for size in message.blocksizes.as_slice() {
        len = len.saturating_add(1 + width(*size));
    }
    if let Some(mtime) = message.mtime {
        let inside = 1 + width(mtime.seconds.cast_unsigned()) + nanos_len(mtime.nanos);
        len = len.saturating_add(content_len(inside));
    }
    len.saturating_add(number_len(message.filesize))
        .saturating_add(number_len(message.hash_type))
        .saturating_add(number_len(message.fanout))
        .saturating_add(number_len(message.mode.map(|mode| u64::from(mode))))
}

// The length of a number with its key.
fn number_len(number: Option<u64>) -> usize
    ensures { result ≤ 11 }
{
    match number {
        None => 0,
        Some(number) => 1 + width(number),
    }
}

// The length of n bytes with their key and their number.
fn content_len(bytes: usize) -> usize {
    bytes.saturating_add(1 + width(bytes as u64))
}
