//! Drives two joined ends until they are quiet, for tests, without sockets, of a program that uses
//! HTTP/2 (RFC 9113).
//!
//! [`settle`] makes rounds: each end returns credit, pumps, gives out its output, and takes
//! what has come. A test makes its requests and responses ([`Joined::act`]), calls `settle(&mut
//! joined, u64::MAX)`, and reads what each end has handed out ([`Joined::handed`]).
#![tactic(auto)]

mod laws;
mod rounds;
mod settling;

pub use h2_joined::{Joined, Side};
pub use laws::settled_messages_arrive;
pub use settling::{Settled, settle};
