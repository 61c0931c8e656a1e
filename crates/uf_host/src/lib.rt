//! Files and folders of a host, taken into a store and put out of it.
#![tactic(auto)]

mod adding;
mod apart;
mod fault;
mod foreseeing;
mod getting;
mod import;
mod intake;
mod paths;
mod putting;
mod site;
mod walking;

pub use adding::add;
pub use apart::{add_apart, hash_rows};
pub use fault::HostFault;
pub use getting::get;
pub use import::{AddedRow, AddedRows};
pub use paths::last_name;
