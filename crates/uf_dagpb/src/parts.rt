//! What of a link was read.
use uf_cid::{Cid, Text};

// The parts of a link that stood in the fields so far.
#[derive(Drop)]
pub struct LinkParts {
    pub cid: Option<Cid>,
    pub name: Option<Text>,
    pub tsize: Option<u64>,
}
