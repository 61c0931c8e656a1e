//! The note Head, written and read (this project's own format).
ghost use Rattle.std.specs.Prelude.{◌≡◌, ℕ, List, ◌<◌, ◌≤◌, ◌^◌, ◌++◌, ◌↔◌, ◌&&◌, ◌⊎◌, IfErr, IfOk, IsTrue, OnOk};
ghost use Rattle.std.specs.Prelude.{codes, length, nat_le, if◌then◌else◌};
ghost use Rattle.std.specs.Fmt.{decimal};
ghost use Rattle.std.specs.Option.{option_copied, option_map};
ghost use Rattle.uf_cid.specs.Read.{IsCid};
ghost use Rattle.uf_cid.specs.declared.cid.Cid.{Cid as TheCid};
ghost use Rattle.uf_cid.specs.declared.cid.Codec.TheVariants.{DagPb as NodeCodec};
ghost use Rattle.uf_tree.specs.HeadReading.{GivesHead, behind as behind_word, first_line as first_line_of, head_reads};
ghost use Rattle.uf_tree.specs.HeadReading.{is_node as is_node_codec, line_at, number_in};
ghost use Rattle.uf_tree.specs.HeadReading.{number_line as number_line_of, root_in, root_line as root_line_of};
ghost use Rattle.uf_tree.specs.HeadReading.{worded_at};
ghost use Rattle.uf_tree.specs.Heads.{head_text as text_of_head, line as the_line, IsHeadOf, IsHeadText};
ghost use Rattle.uf_tree.specs.Profiles.{is_profile};
ghost use Rattle.uf_tree.specs.Standing.{IsRefusedText};
ghost use Rattle.uf_tree.specs.declared.head_fault.HeadFault.{HeadFault as TheFault};
ghost use Rattle.uf_tree.specs.declared.head_fault.HeadFault.TheVariants as head_faults;
ghost use Rattle.uf_tree.specs.declared.profile.Head.{Head as TheHead};
ghost use Rattle.uf_tree.specs.declared.profile.Profile.{Profile as TheProfile};

use crate::{Head, HeadFault, Profile};
use std::alloc::Global;
use uf_cid::{Block, Cid, Codec, Memory};

/// The text of a Head, of version 2: five lines, each ended by a line feed.
#[tactic(auto, unfolding(crate::specs::Heads::text_in))]
pub fn head_text(alloc: Global, head: &Head) -> Result<Block, Memory>
    requires { IsTrue (is_profile head.now.profile) }
    ensures { IfOk result (λ b. b ≡ text_of_head head.now.profile head.now.root) }
{
    let mut out = Block::with_capacity(alloc, 144)?;
    put_line(&mut out, b"unixfs-head ", b"2")?;
    put_number(alloc, &mut out, b"chunk ", head.profile.chunk)?;
    put_number(alloc, &mut out, b"width ", head.profile.width)?;
    put_number(alloc, &mut out, b"threshold ", head.profile.threshold)?;
    put_line(&mut out, b"root ", &head.root.text())?;
    Ok(out)
}

// A line with a number.
fn put_number(alloc: Global, out: &mut Block, word: &[u8], number: u32) -> Result<(), Memory>
    ensures { OnOk result (out.new ≡ out.old ++ the_line word.now (decimal number)) }
{
    let digits = format!(in alloc; "{number}")?;
    put_line(out, word, digits.as_bytes())?;
    Ok(())
}

// A line: a word, what stands after it, and a line feed.
fn put_line(out: &mut Block, word: &[u8], rest: &[u8]) -> Result<(), Memory>
    ensures { OnOk result (out.new ≡ out.old ++ the_line word.now rest.now) }
{
    out.extend(word)?;
    out.extend(rest)?;
    out.extend(b"\n")?;
    Ok(())
}

/// The Head that a text spells, or its first fault from left to right. The texts that are read are those that
/// `head_text` writes, the same with version 1 in their first line, and no other.
#[tactic(auto, unfolding(crate::specs::HeadReading::head_reads))]
pub fn read_head(alloc: Global, bytes: &[u8]) -> Result<Head, HeadFault>
    ensures read { GivesHead (λ h. h) result (head_reads bytes.now) }
    ensures written { IfOk result (λ head. IsHeadOf bytes.now head) }
    ensures refused { IfErr result (λ fault. (fault ≡ head_faults.Memory) ⊎ IsRefusedText bytes.now) }
{
    let rest = first_line(bytes)?;
    let (chunk, rest) = number_line(alloc, 2, b"chunk ", 1, 1048576, rest)?;
    let (width, rest) = number_line(alloc, 3, b"width ", 2, 1024, rest)?;
    let (threshold, rest) = number_line(alloc, 4, b"threshold ", 0, 1048576, rest)?;
    let (root, rest) = root_line(rest)?;
    if rest.is_empty() {
        Ok(Head {
            profile: Profile {
                chunk,
                width,
                threshold,
            },
            root,
        })
    } else {
        Err(HeadFault::Line(6))
    }
}

// What stands after the first line.
#[tactic(auto, unfolding(crate::specs::HeadReading::first_line))]
fn first_line(bytes: &[u8]) -> Result<&[u8], HeadFault>
    ensures { GivesHead (λ x. x.now) result (first_line_of bytes.now) }
{
    match behind(b"unixfs-head 2\n", bytes) {
        Some(rest) => Ok(rest),
        None => match behind(b"unixfs-head 1\n", bytes) {
            Some(rest) => Ok(rest),
            None => Err(HeadFault::Version),
        },
    }
}

// The number of a line, and what stands after the line.
#[tactic(auto, unfolding(crate::specs::HeadReading::number_line))]
fn number_line<'a>(
    alloc: Global,
    n: u8,
    word: &[u8],
    low: u32,
    high: u32,
    bytes: &'a [u8],
) -> Result<(u32, &'a [u8]), HeadFault>
    ensures { GivesHead (λ x. (x.0, x.1.now)) result (number_line_of n word.now low high bytes.now) }
{
    match worded(word, bytes) {
        None => Err(HeadFault::Line(n)),
        Some((text, rest)) => match number(alloc, low, high, text)? {
            None => Err(HeadFault::Number(n)),
            Some(number) => Ok((number, rest)),
        },
    }
}

// The root of line 5, and what stands after the line.
#[tactic(auto, unfolding(crate::specs::HeadReading::root_line))]
fn root_line(bytes: &[u8]) -> Result<(Cid, &[u8]), HeadFault>
    ensures { GivesHead (λ x. (x.0, x.1.now)) result (root_line_of bytes.now) }
{
    match worded(b"root ", bytes) {
        None => Err(HeadFault::Line(5)),
        Some((text, rest)) => match root(text) {
            None => Err(HeadFault::Root),
            Some(root) => Ok((root, rest)),
        },
    }
}

// What stands after the word of a line, and after the line.
fn worded<'a>(word: &[u8], bytes: &'a [u8]) -> Option<(&'a [u8], &'a [u8])>
    ensures { option_map (λ x. (x.0.now, x.1.now)) result ≡ worded_at word.now bytes.now }
{
    match line(bytes) {
        None => None,
        Some((text, rest)) => match behind(word, text) {
            None => None,
            Some(found) => Some((found, rest)),
        },
    }
}

// The bytes up to the first line feed, and those after it.
fn line(bytes: &[u8]) -> Option<(&[u8], &[u8])>
    ensures { option_map (λ x. (x.0.now, x.1.now)) result ≡ line_at bytes.now }
{
    for i in 0..bytes.len() {
        if bytes[i] == b'\n' {
            return Some((bytes.split_at(i).0, bytes.split_at(i + 1).1));
        }
    }
    None
}

// What stands after a first word.
fn behind<'a>(word: &[u8], bytes: &'a [u8]) -> Option<&'a [u8]>
    ensures { option_copied result ≡ behind_word word.now bytes.now }
{
    if bytes.len() < word.len() {
        return None;
    }
    let (front, rest) = bytes.split_at(word.len());
    if front == word { Some(rest) } else { None }
}

// The number of which the text is the decimal spelling, where it is in its range.
fn number(alloc: Global, low: u32, high: u32, text: &[u8]) -> Result<Option<u32>, Memory>
    ensures { IfOk result (λ n. n ≡ number_in low high text.now) }
{
    match str::from_utf8(text) {
        Err(_) => Ok(None),
        Ok(spelled) => match spelled.parse::<u32>() {
            Err(_) => Ok(None),
            Ok(number) => {
                let again = format!(in alloc; "{number}")?;
                if again.as_bytes() == text {
                    Ok(in_range(low, high, number))
                } else {
                    Ok(None)
                }
            }
        },
    }
}

// The number, where it is in its range.
fn in_range(low: u32, high: u32, number: u32) -> Option<u32>
    ensures { result ≡ (if nat_le low number && nat_le number high then Some number else None) }
{
    if low <= number && number <= high {
        Some(number)
    } else {
        None
    }
}

// The CID of a node of which the text is the spelling.
#[tactic(auto, unfolding(crate::specs::HeadReading::root_in))]
fn root(text: &[u8]) -> Option<Cid>
    ensures { result ≡ root_in text.now }
{
    match str::from_utf8(text) {
        Err(_) => None,
        Ok(spelled) => match Cid::parse(spelled) {
            Err(_) => None,
            Ok(cid) => {
                if !is_node(cid.codec) {
                    return None;
                }
                if cid.text().as_slice() == text {
                    Some(cid)
                } else {
                    None
                }
            }
        },
    }
}

// Whether the codec is that of nodes.
fn is_node(codec: Codec) -> bool
    ensures { result ≡ is_node_codec codec }
{
    match codec {
        Codec::Raw => false,
        Codec::DagPb => true,
    }
}

/// Each text of a Head is read as that Head.
pub fn heads_are_read_again()
    ensures { (text : List ℕ) (p : TheProfile) (c : TheCid) → IsTrue (is_profile p) → IsCid c → c.codec ≡ NodeCodec
        → IsHeadText text p c
        → head_reads text ≡ Ok (record { profile = p; root = c }) }
{}

/// A text that is read as a Head is a text of that Head, and a text that isn't read is that of none.
pub fn heads_are_their_texts()
    ensures read { (bytes : List ℕ) (head : TheHead) → head_reads bytes ≡ Ok head → IsHeadOf bytes head }
    ensures refused { (bytes : List ℕ) (fault : TheFault) → head_reads bytes ≡ Err fault → IsRefusedText bytes }
{}
