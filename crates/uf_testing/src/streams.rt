//! Blocks and streams.

use std::alloc::Global;
use uf_cid::{Block, BlockHash, Cid, Codec, Memory};
use uf_edge::{Calls, MemSink, MemSource};
use uf_store::MemStore;

/// The room of an output, and the calls that are to fail, counted from 0.
#[derive(Clone, Copy)]
pub struct Streams {
    pub room: usize,
    pub input_fails: Option<u64>,
    pub output_fails: Option<u64>,
    pub errors_fail: Option<u64>,
}

/// Room for many lines, and no call that fails.
pub const ROOMY: Streams = Streams {
    room: 65536,
    input_fails: None,
    output_fails: None,
    errors_fail: None,
};

/// A block of these bytes.
pub fn block_of(alloc: Global, bytes: &[u8]) -> Result<Block, Memory> {
    let mut block = Block::new(alloc);
    block.extend(bytes)?;
    Ok(block)
}

/// The one call that is to fail, or none.
pub fn calls(alloc: Global, call: Option<u64>) -> Result<Calls, Memory> {
    let mut calls = Calls::new(alloc);
    if let Some(call) = call {
        calls.push(call)?;
    }
    Ok(calls)
}

/// An input of these bytes, of which one call may fail.
pub fn source(alloc: Global, bytes: &[u8], fails: Option<u64>) -> Result<MemSource, Memory> {
    Ok(MemSource::new(block_of(alloc, bytes)?, 65536, calls(alloc, fails)?))
}

/// An output with n bytes of room, of which one call may fail.
pub fn sink(alloc: Global, room: usize, fails: Option<u64>) -> Result<MemSink, Memory> {
    MemSink::new(alloc, room, calls(alloc, fails)?)
}

/// Has a store hold these bytes under the CID of a node.
pub fn plant_node<X: BlockHash>(
    alloc: Global,
    store: &mut MemStore<X>,
    node: &[u8],
    bytes: &[u8],
) -> Result<(), Memory> {
    let held = block_of(alloc, bytes)?;
    store.plant(&Cid::of::<X>(Codec::DagPb, node), held)
}
