//! HTTP/2 frames (RFC 9113, sections 4.1 and 6): reading heads and payloads, their faults, and
//! writing.
//!
//! [`head`] reads the nine octets of a frame header, here the *head*, and [`head_fault`] checks
//! it before any octet of the payload has come. [`pad_length`] checks the payload, and
//! [`payload_frame`] returns the frame, whose payload is lent; [`read_payload`] does both. Reading
//! allocates nothing. [`write`] appends the encoding of a frame that owns its payload,
//! [`write_ref`] that of one whose payload is lent.
#![tactic(auto)]

mod appending;
mod code;
mod frame;
mod frame_parts;
mod head_faults;
mod heads;
mod kind;
mod laws;
pub mod limits;
mod owned;
mod pairs;
mod payload;
mod reading_heads;
mod writing;

pub use code::Code;
pub use frame::{FrameRef, PayloadError};
pub use head_faults::HeadFault;
pub use heads::{HEAD_LEN, Head, word_octets};
pub use kind::Kind;
pub use laws::{nine_octets, one_frame, within_limit, written_frame_is_read};
pub use owned::{Frame, Unwritable};
pub use pairs::{PairIter, Pairs};
pub use payload::{pad_length, payload_frame, read_payload};
pub use reading_heads::{head, head_fault};
pub use writing::{write, write_ref};
