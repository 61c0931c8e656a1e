//! Light proofs: a CAR of the blocks that decide a path, and its check against the root's CID alone.
#![tactic(auto)]

mod asked;
mod checking;
mod deciding;
mod due;
mod fault;
mod gathering;
mod key;
mod listing;
mod looking;
mod met;
mod nowhere;
mod opening;
mod order;
mod proving;
mod sending;
mod thing;
mod writing;

pub use asked::Asked;
pub use checking::check;
pub use fault::LightFault;
pub use proving::prove;
