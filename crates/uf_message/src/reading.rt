//! Messages read leniently.
ghost use Rattle.std.specs.Prelude.{◌≡◌, [], ◌∷◌, ◌%◌, ◌^◌, ◌≤◌, ◌<◌, IfOk, length, Ok};
ghost use Rattle.std.specs.Option.{option_map};
ghost use Rattle.uf_varint.specs.Fields.{Bytes, Keyed, Number, number_at, bytes_at, content_at, fields};
ghost use Rattle.uf_message.specs.Reading.{judged, kind_of, message_of, message_reads, packed_fault, run, selected};
ghost use Rattle.uf_message.specs.Steps.{Gives, added, cut_of, over, selection, took};

use crate::seen::Seen;
use crate::times::time;
use crate::{Message, MsgFault, MsgKind};
use std::alloc::Global;
use uf_cid::{Block, Sizes};
use uf_varint::{CutFault, read_bytes, read_number, skip_content};

impl From<CutFault> for MsgFault {
    ghost use Rattle.uf_message.specs.Reading.{msg_fault as as_msg_fault};

    ghost from_gives = { λ cut fault. fault ≡ as_msg_fault cut };

    fn from(cut: CutFault) -> Self {
        match cut {
            CutFault::Truncated => MsgFault::Truncated,
            CutFault::Varint => MsgFault::Varint,
            CutFault::Wire => MsgFault::Wire,
        }
    }
}

// The number at the start, and the bytes after it.
fn number(bytes: &[u8]) -> Result<(u64, &[u8]), MsgFault>
    ensures exact { Gives (λ x. (x.0, x.1.now)) result (cut_of (number_at bytes.now)) }
    ensures shorter { IfOk result (λ x. length x.1.now < length bytes.now) }
{
    Ok(read_number(bytes)?)
}

// The bytes at the start whose number stands before them, and the bytes after them.
fn piece(bytes: &[u8]) -> Result<(&[u8], &[u8]), MsgFault>
    ensures exact { Gives (λ x. (x.0.now, x.1.now)) result (cut_of (bytes_at bytes.now)) }
    ensures shorter { IfOk result (λ x. length x.1.now < length bytes.now) }
{
    Ok(read_bytes(bytes)?)
}

// Puts the numbers that stand one after the other to the sizes of blocks.
fn take_run(sizes: &mut Sizes, bytes: &[u8]) -> Result<(), MsgFault>
    ensures { Gives (λ _. sizes.new) result (added sizes.old (run bytes.now)) }
{
    let mut rest = bytes;
    while !rest.is_empty() {
        let (size, after) = number(rest)?;
        sizes.push(size)?;
        rest = after;
    }
    Ok(())
}

impl<'a> Seen<'a> {
    // Nothing was seen.
    fn new(alloc: Global) -> Self
        ensures { selection result ≡ selected [] }
    {
        Seen {
            kind: None,
            content: None,
            filesize: None,
            sizes: Sizes::new(alloc),
            hash_type: None,
            fanout: None,
            mode: None,
            mtime: None,
        }
    }

    // Takes a field after its key, and answers the bytes that follow it.
    #[tactic(auto, unfolding(uf_varint::specs::Fields::content_at))]
    fn take(&mut self, key: u64, rest: &'a [u8]) -> Result<&'a [u8], MsgFault>
        ensures exact { Gives (λ after. (selection self.new, after.now)) result
            (took key (selection self.old) (content_at (key % 8) rest.now)) }
        ensures shorter { IfOk result (λ after. length after.now ≤ length rest.now) }
    {
        match key {
            0x08 | 0x18 | 0x20 | 0x28 | 0x30 | 0x38 => {
                let (value, after) = number(rest)?;
                self.keep_number(key, value)?;
                Ok(after)
            }
            0x12 | 0x22 | 0x42 => {
                let (value, after) = piece(rest)?;
                self.keep_bytes(key, value)?;
                Ok(after)
            }
            0..=71 => Err(MsgFault::Wire),
            _ => Ok(skip_content(key % 8, rest)?),
        }
    }

    // Keeps a number as the last of the field of its key, or puts it to the sizes of blocks.
    fn keep_number(&mut self, key: u64, number: u64) -> Result<(), MsgFault>
        ensures { Gives (λ _. selection self.new) result
            (Ok (over (selected (Keyed key (Ok (Number number)) ∷ [])) (selection self.old))) }
    {
        match key {
            0x08 => self.kind = Some(number),
            0x18 => self.filesize = Some(number),
            0x20 => self.sizes.push(number)?,
            0x28 => self.hash_type = Some(number),
            0x30 => self.fanout = Some(number),
            0x38 => self.mode = Some(number),
            _ => {}
        }
        Ok(())
    }

    // Keeps bytes as the last of the field of their key, or puts those that are packed sizes to the sizes of blocks.
    fn keep_bytes(&mut self, key: u64, bytes: &'a [u8]) -> Result<(), MsgFault>
        ensures { Gives (λ _. selection self.new) result (judged (packed_fault key (Bytes bytes.now))
            (Ok (over (selected (Keyed key (Ok (Bytes bytes.now)) ∷ [])) (selection self.old)))) }
    {
        match key {
            0x12 => self.content = Some(bytes),
            0x22 => take_run(&mut self.sizes, bytes)?,
            0x42 => self.mtime = Some(bytes),
            _ => {}
        }
        Ok(())
    }

    // The message of what was seen.
    fn finish(self, alloc: Global) -> Result<Message, MsgFault>
        ensures { Gives (λ m. m) result (message_of (selection self.entry)) }
    {
        let Some(number) = self.kind else {
            return Err(MsgFault::NoType);
        };
        let Some(kind) = kind_from(number) else {
            return Err(MsgFault::UnknownType);
        };
        let mtime = match self.mtime {
            None => None,
            Some(bytes) => match time(bytes) {
                None => return Err(MsgFault::BadTime),
                Some(mtime) => Some(mtime),
            },
        };
        let content = match self.content {
            None => None,
            Some(bytes) => Some(Block::from_slice(alloc, bytes)?),
        };
        Ok(Message {
            kind,
            content,
            filesize: self.filesize,
            blocksizes: self.sizes,
            hash_type: self.hash_type,
            fanout: self.fanout,
            mode: low_bits(self.mode),
            mtime,
        })
    }
}

// The low 32 bits.
fn low_bits(mode: Option<u64>) -> Option<u32>
    ensures { result ≡ option_map (λ n. n % 2 ^ 32) mode }
{
    match mode {
        None => None,
        Some(mode) => Some((mode % (1 << 32)) as u32),
    }
}

// The kind of a number.
fn kind_from(number: u64) -> Option<MsgKind>
    ensures { result ≡ kind_of number }
{
    match number {
        0 => Some(MsgKind::Raw),
        1 => Some(MsgKind::Directory),
        2 => Some(MsgKind::File),
        3 => Some(MsgKind::Metadata),
        4 => Some(MsgKind::Symlink),
        5 => Some(MsgKind::Shard),
        _ => None,
    }
}

/// The message that bytes spell in any way: fields in any order, the last of a repeated one, packed sizes of blocks
/// beside plain ones, and unknown fields passed over (UnixFS v1, "Data Format"; Protocol Buffers, "Encoding"). The
/// fault is the first one from the left.
pub fn decode_lenient(alloc: Global, bytes: &[u8]) -> Result<Message, MsgFault>
    ensures { Gives (λ m. m) result (message_reads bytes.now) }
{
    let mut seen = Seen::new(alloc);
    let mut rest = bytes;
    while !rest.is_empty() {
        let (key, after) = number(rest)?;
        rest = seen.take(key, after)?;
    }
    seen.finish(alloc)
}
