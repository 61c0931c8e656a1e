//! Rows of a store and of a host over the machine's own files.
#![tactic(auto)]

#[cfg(test)]
mod failing;
#[cfg(test)]
mod host_tests;
#[cfg(test)]
mod store_tests;
