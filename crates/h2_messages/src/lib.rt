//! Prints what a client or a server makes of its peer's octets as lines of text: a line for each
//! event, one for each part of a message that breaks a rule, the fault that ends the connection,
//! and the octets that the endpoint sends.
//!
//! [`messages_input`] reads from any reader and prints to any writer, so tests run in memory.
#![tactic(auto)]

mod end;
mod handing;
mod messages;
mod output;
mod parts;
mod rules;
mod taking;

pub use h2_ends::Why;
pub use messages::{Replayed, messages_input};
