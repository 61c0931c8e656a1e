//! UnixFS messages: their canonical bytes, read strictly, and any spelling of them, read leniently (UnixFS v1, "Data
//! Format").
#![tactic(auto)]

mod laws;
mod message;
mod reading;
mod seen;
mod strict;
mod times;
mod writing;

pub use laws::{messages_are_read_again, messages_fit, spellings_are_one};
pub use message::{Message, MsgFault, MsgKind, Mtime};
pub use reading::decode_lenient;
pub use strict::decode_strict;
pub use writing::encode;
