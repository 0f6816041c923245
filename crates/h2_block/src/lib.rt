//! Field blocks in a stream of frames (RFC 9113, sections 4.3, 6.2 and 6.10).
//!
//! [`Gather::take`] joins HEADERS and the CONTINUATIONs after it into one block, and passes on
//! every frame outside blocks. [`spread`] writes a block in as many frames as it needs, with
//! payloads of at most a given length.
#![tactic(auto)]

mod fault;
mod gather;
mod gathered;
mod laws;
mod partial_block;
mod spreading;

pub use fault::BlockFault;
pub use gather::Gather;
pub use gathered::Gathered;
pub use laws::{no_grouping_past_a_fault, one_grouping, spread_block};
pub use spreading::spread;
