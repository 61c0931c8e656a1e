//! What holds of the definitions of the model: laws, and public vectors that the definitions decide.
#![tactic(auto)]

pub mod laws;
pub mod sizes;
pub mod unique;
pub mod vectors;
