//! One end of a connection by what it has read and written (RFC 9113, sections 3 to 8): the
//! definitions that its promises cite.
//!
//! There is no code of an end here. Definitions are in `specs/`; the functions of this crate are
//! laws above them.
#![tactic(auto)]

mod refusal;
mod role;
mod streams;

pub use refusal::Refusal;
pub use role::Role;
pub use streams::{block_in_its_encoding, frame_in_its_encoding, frames_of_a_log};
