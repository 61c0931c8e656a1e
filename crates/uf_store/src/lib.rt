//! The store of blocks and notes as every layer above sees it, the words for what its calls leave and show, and
//! stores.
#![tactic(auto)]

mod callers;
mod discard;
mod failing;
mod laws;
mod leaving;
mod memory;
mod outliving;
mod shelf;
mod steps;
mod store;
mod sweep;

pub use callers::{need, need_there, save_block, save_under};
pub use discard::Discard;
pub use failing::CallKind;
pub use laws::{
    agreement_lasts, calls_write_what_they_say, causes_go_back, good_blocks_stay_held,
    saves_go_on_among_blocks, what_is_told_was_written, what_is_written_goes_on,
};
pub use memory::MemStore;
pub use steps::Steps;
pub use store::{Load, MOST_BYTES, Note, NoteRead, Presence, Role, Save, Store, StoreFault, Write};
pub use sweep::{Sweep, Swept, a_swept_store_tells_what_was_written};
