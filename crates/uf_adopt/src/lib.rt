//! DAGs of UnixFS that others wrote, adopted: what a CID denotes is built anew by a profile.
#![tactic(auto)]

mod adopting;
mod fault;
mod files;
mod folders;
mod laws;

pub use adopting::{adopt, adopt_surveyed};
pub use fault::AdoptFault;
pub use laws::a_calm_store_lacks_memory_alone;
