//! Pins: CIDs whose blocks are kept with all below them, the note that lists them, and collection of what nothing
//! keeps.
#![tactic(auto)]

mod adding;
mod below;
mod collecting;
mod fault;
mod laws;
mod listing;
mod lists;
mod reading;
mod removing;
mod texts;
mod writing;

pub use adding::add_pin;
pub use collecting::collect;
pub use fault::{PinFault, PinsFault};
pub use laws::{
    a_note_lists_one_list_of_pins, a_tree_that_is_kept_stands, the_first_root_comes_first,
    the_reach_is_what_is_reached, what_a_pin_keeps_survives_stops, what_is_kept_survives_a_sweep,
};
pub use listing::list_pins;
pub use reading::read_pins;
pub use removing::remove_pin;
pub use texts::pins_text;
