//! What is asked of a light proof.
use uf_cid::Cid;
use uf_tree::Names;

/// What a light proof is asked: what is at these names below this root, or, with `absent`, that nothing is there.
#[derive(Drop)]
pub struct Asked {
    pub root: Cid,
    pub names: Names,
    pub absent: bool,
}
