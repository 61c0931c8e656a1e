//! Times read from their bytes.
ghost use Rattle.std.specs.Prelude.{◌≡◌, ◌%◌, ◌≤◌, IfSome, length};
ghost use Rattle.std.specs.Option.{option_map};
ghost use Rattle.uf_varint.specs.Fields.{content_at};
ghost use Rattle.uf_message.specs.Reading.{mtime_reads, time_of};
ghost use Rattle.uf_message.specs.Times.{time_took};

use crate::Mtime;
use crate::seen::SeenTime;
use uf_varint::{read_number, skip_content};

/// The time that bytes stand for, where they have no fault, and seconds.
pub fn time(bytes: &[u8]) -> Option<Mtime>
    ensures { result ≡ mtime_reads bytes.now }
{
    let mut seen = SeenTime {
        seconds: None,
        nanos: None,
    };
    let mut rest = bytes;
    while !rest.is_empty() {
        let (key, after) = match read_number(rest) {
            Ok(found) => found,
            Err(_) => return None,
        };
        rest = match seen.take(key, after) {
            Some(after) => after,
            None => return None,
        };
    }
    finished(seen.seconds, seen.nanos)
}

// The time of these seconds, where there are any.
fn finished(seconds: Option<u64>, nanos: Option<u32>) -> Option<Mtime>
    ensures { result ≡ time_of seconds nanos }
{
    match seconds {
        None => None,
        Some(seconds) => Some(Mtime {
            seconds: seconds.cast_signed(),
            nanos,
        }),
    }
}

impl SeenTime {
    // Takes a field after its key, and answers the bytes that follow it.
    #[tactic(auto, unfolding(uf_varint::specs::Fields::content_at))]
    fn take<'a>(&mut self, key: u64, rest: &'a [u8]) -> Option<&'a [u8]>
        ensures exact { option_map (λ after. (self.new, after.now)) result
            ≡ time_took key self.old (content_at (key % 8) rest.now) }
        ensures shorter { IfSome result (λ after. length after.now ≤ length rest.now) }
    {
        match key {
            0x08 => match read_number(rest) {
                Ok((seconds, after)) => {
                    self.seconds = Some(seconds);
                    Some(after)
                }
                Err(_) => None,
            },
            0x15 => self.take_nanos(rest),
            0..=23 => None,
            _ => match skip_content(key % 8, rest) {
                Ok(after) => Some(after),
                Err(_) => None,
            },
        }
    }

    // Takes four bytes, and answers those that follow them.
    #[tactic(auto, unfolding(uf_varint::specs::Fields::content_at, uf_varint::specs::Fields::piece_at))]
    fn take_nanos<'a>(&mut self, rest: &'a [u8]) -> Option<&'a [u8]>
        ensures exact { option_map (λ after. (self.new, after.now)) result
            ≡ time_took 0x15 self.old (content_at 5 rest.now) }
        ensures shorter { IfSome result (λ after. length after.now ≤ length rest.now) }
    {
        if rest.len() < 4 {
            return None;
        }
        let (front, after) = rest.split_at(4);
        self.nanos = Some(u32::from_le_bytes([front[0], front[1], front[2], front[3]]));
        Some(after)
    }
}
