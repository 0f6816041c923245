//! Prints what one endpoint makes of its peer's octets as lines of text: a line for each event,
//! the fault that ends the connection, and the octets that the endpoint sends.
//!
//! [`replay_input`] reads from any reader and prints to any writer, so tests run in memory;
//! [`write_event`] prints the lines of one event, and [`Opening`] gives hints for an input whose
//! first octets are at fault.
#![tactic(auto)]

mod lines;
mod opening;
mod options;
mod replay;
mod replayer;

pub use h2_conn::Role;
pub use lines::write_event;
pub use opening::Opening;
pub use options::ReplayOptions;
pub use replay::replay_input;
