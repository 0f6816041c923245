//! The queued output of one end of a connection: encoded frames, and at last the GOAWAY of a
//! connection that has failed (RFC 9113, sections 4.1 and 6.8).
#![tactic(auto)]

mod data_head;
mod last_frame;
mod output;
mod queue;
mod span;

pub use output::Output;
