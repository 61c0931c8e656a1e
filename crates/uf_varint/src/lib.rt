//! Varints: numbers of seven bits a byte, the least significant group first (multiformats unsigned-varint, and
//! Protocol Buffers, "Base 128 Varints"), and the fields of messages that are made of them (Protocol Buffers, "Message
//! Structure").
#![tactic(auto)]

mod fields;
mod laws;
mod spelled;
mod varint;

pub use fields::{CutFault, read_bytes, read_number, read_piece, skip_content};
pub use laws::{
    fields_are_cut_in_order, more_bytes_are_wanted, multi_takes_the_shortest_alone,
    proto_takes_64_bits, spellings_end_themselves, what_was_written_is_cut,
    what_was_written_is_read,
};
pub use spelled::NumberField;
pub use varint::{Var, read_multi, read_proto, width, write};
