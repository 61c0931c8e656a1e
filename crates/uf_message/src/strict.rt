//! Messages read strictly.
ghost use Rattle.std.specs.Bool.{MatchBool};
ghost use Rattle.std.specs.Prelude.{◌≡◌, ◌++◌, flat_map, IfOk};
ghost use Rattle.uf_message.specs.Spelling.{IsMessage, fixed_field, message_bytes, mtime_bytes};
ghost use Rattle.uf_varint.specs.Fields.{content_field, number_field, optional};
ghost use Rattle.uf_message.specs.Left.{left, message_left, seen_left};
ghost use Rattle.uf_message.specs.Strict.{GivesValue, strict_fault};
ghost use Rattle.uf_message.specs.declared.message.Message.{Message as TheMessage};

use crate::laws::messages_fit;
use crate::reading::decode_lenient;
use crate::writing::{nanos_len, number_of, seconds_field};
use crate::{Message, MsgFault, Mtime};
use std::alloc::Global;
use uf_cid::{Block, StrictFault};
use uf_varint::NumberField;

/// The message whose canonical spelling the bytes are.
pub fn decode_strict(alloc: Global, bytes: &[u8]) -> Result<Message, StrictFault>
    // What is read is spelled so.
    ensures found { IfOk result (λ m. IsMessage m × (bytes.now ≡ message_bytes m)) }
    // What is spelled so is read, unless memory runs out.
    ensures only { (m : TheMessage) → IsMessage m → bytes.now ≡ message_bytes m → GivesValue result m }
{
    let message = match decode_lenient(alloc, bytes) {
        Ok(message) => message,
        Err(why) => return Err(refused(why)),
    };
    messages_fit(&message);
    if is_canonical(&message, bytes) {
        Ok(message)
    } else {
        Err(StrictFault::NotCanonical)
    }
}

// What the strict reader says where the lenient one refuses.
fn refused(why: MsgFault) -> StrictFault
    ensures { result ≡ strict_fault why }
{
    match why {
        MsgFault::Memory => StrictFault::Memory,
        _ => StrictFault::NotCanonical,
    }
}

// Whether the bytes are the canonical spelling of the message.
fn is_canonical(message: &Message, bytes: &[u8]) -> bool
    ensures { MatchBool result (bytes.now ≡ message_bytes message.now) (bytes.now ≡ message_bytes message.now → ⊥) }
{
    match behind_message(message, bytes) {
        None => false,
        Some(rest) => rest.is_empty(),
    }
}

// The bytes after the canonical spelling of the message, where it comes first.
#[tactic(auto, unfolding(crate::specs::Left::message_left))]
fn behind_message<'a>(message: &Message, bytes: &'a [u8]) -> Option<&'a [u8]>
    ensures { seen_left result ≡ message_left message.now bytes.now }
{
    let rest = behind_number(0x08, Some(number_of(message.kind)), bytes)?;
    let rest = behind_content(&message.content, rest)?;
    let rest = behind_number(0x18, message.filesize, rest)?;
    let rest = behind_sizes(message.blocksizes.as_slice(), rest)?;
    let rest = behind_number(0x28, message.hash_type, rest)?;
    let rest = behind_number(0x30, message.fanout, rest)?;
    let rest = behind_number(0x38, wide(message.mode), rest)?;
    behind_mtime(message.mtime, rest)
}

// The mode as a number of 64 bits.
fn wide(mode: Option<u32>) -> Option<u64>
    ensures { result ≡ mode }
{
    match mode {
        None => None,
        Some(mode) => Some(u64::from(mode)),
    }
}

// The bytes after a field with a number, where it is wanted and comes first.
fn behind_number<'a>(key: u8, number: Option<u64>, bytes: &'a [u8]) -> Option<&'a [u8]>
    ensures { seen_left result ≡ left (optional (number_field key) number) bytes.now }
{
    match number {
        None => Some(bytes),
        Some(number) => behind(NumberField::new(key, number).as_slice(), bytes),
    }
}

// The bytes after the content, where it is wanted and comes first.
#[tactic(auto, using(crate::proofs::Fronts::content_left))]
fn behind_content<'a>(content: &Option<Block>, bytes: &'a [u8]) -> Option<&'a [u8]>
    ensures { seen_left result ≡ left (optional (content_field 0x12) content.now) bytes.now }
{
    match content {
        None => Some(bytes),
        Some(content) => {
            let front = NumberField::new(0x12, content.as_slice().len() as u64);
            behind_two(front.as_slice(), content.as_slice(), bytes)
        }
    }
}

// The bytes after the sizes of blocks, where these come first.
fn behind_sizes<'a>(sizes: &[u64], bytes: &'a [u8]) -> Option<&'a [u8]>
    ensures { seen_left result ≡ left (flat_map (number_field 0x20) sizes.now) bytes.now }
{
    let mut rest = bytes;
    for size in sizes {
        rest = match behind(NumberField::new(0x20, *size).as_slice(), rest) {
            None => return None,
            Some(after) => after,
        };
    }
    Some(rest)
}

// The bytes after the time, where it is wanted and comes first.
fn behind_mtime<'a>(mtime: Option<Mtime>, bytes: &'a [u8]) -> Option<&'a [u8]>
    ensures { seen_left result ≡ left (optional (λ t. content_field 0x42 (mtime_bytes t)) mtime) bytes.now }
{
    match mtime {
        None => Some(bytes),
        Some(mtime) => behind_time(mtime, bytes),
    }
}

// The bytes after a time, where it comes first.
fn behind_time<'a>(mtime: Mtime, bytes: &'a [u8]) -> Option<&'a [u8]>
    ensures { seen_left result ≡ left (content_field 0x42 (mtime_bytes mtime)) bytes.now }
{
    let seconds = seconds_field(mtime);
    let len = seconds.as_slice().len() + nanos_len(mtime.nanos);
    let front = NumberField::new(0x42, len as u64);
    match behind_two(front.as_slice(), seconds.as_slice(), bytes) {
        None => None,
        Some(rest) => behind_nanos(mtime.nanos, rest),
    }
}

// The bytes after the nanoseconds, where these are wanted and come first.
fn behind_nanos<'a>(nanos: Option<u32>, bytes: &'a [u8]) -> Option<&'a [u8]>
    ensures { seen_left result ≡ left (optional (fixed_field 0x15) nanos) bytes.now }
{
    match nanos {
        None => Some(bytes),
        Some(nanos) => {
            let [a, b, c, d] = nanos.to_le_bytes();
            behind(&[0x15, a, b, c, d], bytes)
        }
    }
}

// The bytes after two prefixes, one after the other.
#[tactic(auto, using(crate::proofs::Fronts::left_append))]
fn behind_two<'a>(one: &[u8], two: &[u8], bytes: &'a [u8]) -> Option<&'a [u8]>
    ensures { seen_left result ≡ left (one.now ++ two.now) bytes.now }
{
    match behind(one, bytes) {
        None => None,
        Some(rest) => behind(two, rest),
    }
}

// The bytes after a prefix, where it stands there.
#[tactic(auto, using(crate::proofs::Fronts::left_is))]
fn behind<'a>(front: &[u8], bytes: &'a [u8]) -> Option<&'a [u8]>
    ensures { seen_left result ≡ left front.now bytes.now }
{
    if bytes.len() < front.len() {
        return None;
    }
    let (head, rest) = bytes.split_at(front.len());
    if head == front { Some(rest) } else { None }
}
