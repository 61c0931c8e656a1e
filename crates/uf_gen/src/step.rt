//! The steps of the generator.

/// What is done to each file of the generated tree: it is made, and once all are made it is changed.
#[derive(Clone, Copy)]
pub enum Step {
    Make,
    Change,
}
