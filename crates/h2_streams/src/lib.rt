//! The streams of one end of a connection (RFC 9113, section 5.1): what is kept of the active
//! ones, and of those that this end has reset.
#![tactic(auto)]

mod entry;
mod table;

pub use entry::{Entry, Stream};
pub use table::StreamTable;
