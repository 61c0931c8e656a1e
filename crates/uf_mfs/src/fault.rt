//! Why a call on the tree, or a step below it, gave up.
use uf_plain::{Ready, Refused, Rule};
use uf_store::StoreFault;

/// Why a call on the tree gave up.
#[derive(Drop)]
pub enum MfsFault {
    Rule(Rule),
    Ready(Ready),
    Sink,
    Store(StoreFault),
}

/// Why a step below a command gave up.
#[derive(Drop)]
pub enum Stop {
    Refused(Refused),
    Store(StoreFault),
}
