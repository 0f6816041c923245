//! One end of an HTTP/2 connection over cleartext, without input or output of its own: octets and
//! calls go in, events and octets come out (RFC 9113, sections 3 to 8).
//!
//! A log is all that has happened at an end so far. A connection *represents* each log that could
//! have led to its state. For every such log, the contract of each call that changes the
//! connection says which answers the call may give, and that the connection then represents this
//! log with the call and its answer appended.
#![tactic(auto)]

mod advancing;
mod calls;
mod conn;
mod counts;
mod output;
mod peer;
mod peer_room;
mod readers;
mod taken;
mod taking;
mod why;
mod why_of_frame;

pub use conn::Conn;
pub use h2_core::Event;
pub use h2_flow::{BadConfig, Config};
pub use h2_frame::Code;
pub use h2_spec_log::{Refusal, Role};
pub use h2_wire::Complete;
pub use hpack::FieldList;
pub use peer::PeerSettings;
pub use taken::{ConnFault, Progress, Taken};
pub use why::Why;
