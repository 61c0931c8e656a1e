//! What calls are made over, and the lines that change it.

use crate::stores;
use crate::values::failing;
use std::alloc::Global;
use std::mem;
use std::sync::ledger::Ledger;
use uf_cid::{Block, BlockHash, Memory};
use uf_edge::{Calls, MemHost};
use uf_store::{MemStore, Steps, StoreFault};
use uf_testing::{calls, feed, number_of, word_and_rest};

/// Two stores, a host and an input. What owns several of these leaves at one place, since each way out of it has to be
/// proved.
#[derive(Drop)]
pub struct Scene<X: BlockHash> {
    pub alloc: Global,
    pub store: MemStore<X>,
    pub other: MemStore<X>,
    pub host: MemHost,
    pub input: Block,
}

impl<X: BlockHash> Scene<X> {
    /// Two stores and a host in which there is nothing, and an input of no bytes.
    pub fn new(alloc: Global) -> Self {
        Scene::<X> {
            alloc,
            store: MemStore::new(alloc),
            other: MemStore::new(alloc),
            host: MemHost::new(alloc, Calls::new(alloc)),
            input: Block::new(alloc),
        }
    }

    /// Takes the store out, and leaves one in which there is nothing.
    pub fn take_store(&mut self) -> MemStore<X> {
        mem::replace(&mut self.store, MemStore::new(self.alloc))
    }
}

/// What a call is made over, and where what comes of it is told.
#[derive(Drop)]
pub struct Call<'a, X: BlockHash, L: Ledger> {
    pub alloc: Global,
    pub store: &'a mut MemStore<X>,
    pub other: &'a mut MemStore<X>,
    pub host: &'a mut MemHost,
    pub input: &'a mut Block,
    pub told: &'a mut Block,
    pub touches: &'a mut Steps<L>,
}

/// Nothing, where what came of a call is told; and else the fault of the store, which is told in its place.
pub type Said = Result<(), StoreFault>;

/// Does what a line after a `!` asks for, as `host-fails CALL`; whether it asks for a change.
pub fn change<X: BlockHash, L: Ledger>(call: &mut Call<X, L>, line: &str) -> Result<bool, Memory> {
    let (word, rest) = word_and_rest(line);
    match word {
        "other" => mem::swap(call.store, call.other),
        "host-fails" => {
            let fails = calls(call.alloc, failing(number_of(rest)))?;
            *call.host = MemHost::new(call.alloc, fails);
        }
        _ => {
            return Ok(
                feed(call.alloc, call.input, line)?
                    || stores::set(call.alloc, call.store, word, rest)?,
            );
        }
    }
    Ok(true)
}
