//! A client and a server joined by two pipes in memory, for tests, without sockets, of a program
//! that uses HTTP/2 (RFC 9113).
//!
//! [`Joined::act`] performs an act: a call of either end, or moving octets from an end's output to
//! the pipe that leads to the other end, or delivering octets from a pipe. [`run`] performs a whole
//! list of acts. What each end has accepted and handed out is kept. Laws say what holds, whatever
//! acts are performed; [`headline`] is the main one. Those about windows and header tables hold in
//! both directions: the *writer* is the end that sends, the *reader* the other end, and what the
//! writer has sent and the reader has not received is *under way*.
#![tactic(auto)]

mod act;
mod calls;
mod events;
mod joined;
mod kept;
mod laws;
mod octets;
mod parts;
mod pipe;
mod running;
mod store;

pub use act::{Acted, JointAct, Side};
pub use events::{HandedEvents, KeptFields};
pub use h2_ends::{
    BadConfig, Client, Code, Config, Conn, EndEvent, EndRefusal, Field, FieldRef, Malformed,
    Message, Refusal, Server,
};
pub use joined::Joined;
pub use kept::Accepted;
pub use laws::{
    connection_windows_are_conserved, handed_out_is_a_prefix, header_tables_are_in_step,
    held_credit, joined_ends_are_a_pair, no_fault_is_reported, quiet_ends_have_all,
    quiet_ends_hold_nothing, stream_windows_are_conserved,
};
pub use running::{headline, run};
