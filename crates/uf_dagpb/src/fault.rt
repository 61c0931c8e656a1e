//! Why bytes are no node.
ghost use Rattle.std.specs.Prelude.{◌≡◌};
ghost use Rattle.uf_dagpb.specs.declared.fault.PbFault.TheVariants as faults;

use uf_cid::Memory;
use uf_varint::CutFault;

/// Why bytes are no node, even leniently: the first fault from left to right, or there was no memory.
#[derive(Clone, Copy, Debug, PartialEq, Eq)]
pub enum PbFault {
    /// The bytes end inside a field.
    Truncated,
    /// A key, a length or a number is not spelled as a varint.
    Varint,
    /// A field that a node or a link doesn't have, or of another wire type.
    Field,
    /// A field that stands once stands twice.
    Twice,
    /// A link has no hash.
    NoHash,
    /// A hash is not one CID.
    BadCid,
    /// A name is not UTF-8.
    NotText,
    Memory,
}

impl From<Memory> for PbFault {
    ghost from_gives = { λ _ fault. fault ≡ faults.Memory };

    fn from(_: Memory) -> Self {
        PbFault::Memory
    }
}

impl From<CutFault> for PbFault {
    ghost use Rattle.std.specs.Prelude.{◌≡◌};
    ghost use Rattle.uf_dagpb.specs.Reading.{pb_fault};

    ghost from_gives = { λ cut fault. fault ≡ pb_fault cut };

    fn from(cut: CutFault) -> Self {
        match cut {
            CutFault::Truncated => PbFault::Truncated,
            CutFault::Varint => PbFault::Varint,
            CutFault::Wire => PbFault::Field,
        }
    }
}
