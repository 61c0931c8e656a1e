//! Two stores compared below one CID: each block that links lead to.
#![tactic(auto)]

mod answer;
mod comparing;
mod laws;

pub use answer::{Compared, SameFault};
pub use comparing::same;
pub use laws::{
    equal_means_the_same_blocks, equal_means_the_same_readings, equal_roots_compare_as_one_tree,
    the_order_of_a_plan_is_its_blocks,
};
