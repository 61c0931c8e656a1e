//! Why a text is no path.
use uf_cid::{CidFault, Memory};

/// Why a text is no path.
#[derive(Clone, Copy, Debug, PartialEq, Eq)]
pub enum PathFault {
    /// It doesn't start with `/`.
    NotAbsolute,
    /// A part between slashes is no good name: it starts at this byte of the whole text, counted from 0.
    BadName(usize),
    /// It has more than 4096 bytes.
    TooLong,
    /// Where the CID stands is none.
    BadCid(CidFault),
    Memory,
}

impl From<Memory> for PathFault {
    ghost use Rattle.std.specs.Prelude.{◌≡◌};
    ghost use Rattle.uf_path.specs.declared.faults.PathFault.TheVariants as faults;

    ghost from_gives = { λ _ fault. fault ≡ faults.Memory };

    fn from(_: Memory) -> Self {
        PathFault::Memory
    }
}
