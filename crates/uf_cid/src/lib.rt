//! CIDs of blocks, their spelling as text, and the small types that the other crates hand on.
#![tactic(auto)]

mod bytes;
mod cid;
mod hash;
mod lanes;
mod laws;
mod read;
mod seq;

pub use bytes::{Block, Memory, StrictFault, Text, zeros};
pub use cid::{Cid, CidFault, Codec};
pub use hash::{BlockHash, Sha256Hash, Sum8Hash, digests_of};
pub use laws::{
    binary_is_one, binary_is_read_again, cases_are_one, cids_are_whole, slices_hold_bytes,
    text_is_read_again,
};
pub use seq::{Cids, Copied, Seq, Sizes, Texts};
