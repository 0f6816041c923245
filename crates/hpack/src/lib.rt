//! HPACK (RFC 7541): the dynamic table, the decoder and the encoder of field blocks.
//!
//! [`Decoder::decode`] returns the fields of a block, or an error if the octets are not a block;
//! [`Decoder::decode_into`] puts them into a list that the caller keeps, whose capacity is reused.
//! [`Encoder::encode`] appends the block of a list of fields, in the one encoding that
//! `docs/PROTOCOL.md` states.
#![tactic(auto)]

mod decode;
mod encode;
mod laws;
mod table;
mod types;

pub use decode::decoder::Decoder;
pub use encode::encoder::Encoder;
pub use laws::blocks::{longest_prefix, no_update_after_a_field, one_block};
pub use laws::encoder::{least_and_last, most_octets_of_a_block, written_block};
pub use table::dynamic_table::Table;
pub use types::entry::Entry;
pub use types::fault::Fault;
pub use types::field::{Decoded, Field, FieldRef, List};
pub use types::field_list::FieldList;
pub use types::field_refs::FieldRefs;
pub use types::list_size::list_size;
pub use types::octets::Octets;
