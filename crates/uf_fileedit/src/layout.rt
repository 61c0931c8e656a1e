//! The balanced layout in numbers.
ghost use Rattle.std.specs.Prelude.{◌≡◌, ◌-◌, ◌<◌, ◌^◌, ◌==◌, ◌&&◌, nat_lt, min, IsTrue};
ghost use Rattle.uf_tree.specs.FileSub.{IsHeight, span};
ghost use Rattle.uf_tree.specs.Profiles.{is_profile};
ghost use Rattle.uf_fileedit.specs.Planned.{AreHeights, are_planned as planned_of, is_of_height as height_of_codec};

use uf_cid::Codec;
use uf_tree::{Part, Profile};

// Where a part is made: the profile, how many rows of nodes the old file has, how high an old part stands at most, and
// the height of the part. Also a whole piece of zeros that is saved already, where there is one.
#[derive(Clone, Copy)]
pub struct Layer {
    pub p: Profile,
    pub rows: u8,
    pub top: u8,
    pub height: u8,
    pub zeros: Option<Part>,
}

// Where the bytes of a changed file stand: how many rows of nodes the old file has, how high an old part stands at
// most, and how high the parts below the new root are. Also how many of the old bytes a part as high as that root has
// room for.
#[derive(Clone, Copy)]
pub struct Heights {
    pub rows: u8,
    pub top: u8,
    pub height: u8,
    pub first: u64,
}

// Where the bytes stand of a file of `old` bytes that gets `size` ones.
pub fn heights_of(p: &Profile, old: u64, size: u64) -> Heights
    requires profile { IsTrue (is_profile p.now) }
    requires small { old < 2 ^ 63 }
    ensures { AreHeights p.now old size result }
{
    let rows = height_of(p, old);
    let height = height_of(p, size).saturating_sub(1);
    Heights {
        rows,
        top: rows.max(1),
        height,
        first: old.min(span_of(p, height + 1)),
    }
}

// How many bytes a part of this height has at most; a greater number counts as the greatest.
pub fn span_of(p: &Profile, height: u8) -> u64
    requires { IsTrue (is_profile p.now) }
    ensures { result ≡ min (span p.now.chunk p.now.width height) (2 ^ 64 - 1) }
{
    let width = u64::from(p.width);
    let mut size = u64::from(p.chunk);
    for row in 0..height {
        size = size.saturating_mul(width);
    }
    size
}

// The height of a file of n bytes: the least at which they fit.
pub fn height_of(p: &Profile, size: u64) -> u8
    requires { IsTrue (is_profile p.now) }
    ensures { IsHeight p.now.chunk p.now.width size result }
{
    for height in 0..64 {
        if size <= span_of(p, height) {
            return height;
        }
    }
    64
}

// Whether parts are those of a node over n bytes, each part of this height.
pub fn are_planned(p: &Profile, height: u8, size: u64, parts: &[Part]) -> bool
    requires { IsTrue (is_profile p.now) }
    ensures { result ≡ planned_of (span p.now.chunk p.now.width height) height size parts.now }
{
    let most = span_of(p, height);
    let mut rest = size;
    for part in parts {
        if !is_next(height, rest, most, part) {
            return false;
        }
        rest -= part.size;
    }
    rest == 0
}

// Whether a part of this height is the next of those over n bytes.
fn is_next(height: u8, rest: u64, most: u64, part: &Part) -> bool
    ensures { result ≡ (nat_lt 0 part.now.size && (part.now.size == min rest most) && height_of_codec height
        part.now.entry.cid.codec) }
{
    0 < part.size && part.size == rest.min(most) && is_of_height(height, part.entry.cid.codec)
}

// Whether parts of this height have this codec.
pub fn is_of_height(height: u8, codec: Codec) -> bool
    ensures { result ≡ height_of_codec height codec }
{
    match codec {
        Codec::Raw => height == 0,
        Codec::DagPb => height > 0,
    }
}
