//! A pair with the hash of its name.
use uf_tree::Pair;

// A pair of a directory, and the hash of its name, which is computed once.
#[derive(Clone, Copy)]
pub struct Hashed<'a> {
    pub hash: u64,
    pub pair: &'a Pair,
}
