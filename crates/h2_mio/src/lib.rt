//! A host of many connections over `mio`, with its sockets and its clock.
//!
//! A [`Driver`] has a listener, a [`Host`](h2_host::Host) and the socket of each of its
//! connections, in one thread. It waits until sockets are ready, then gives each ready
//! connection a turn, in which at most [`MOST_TAKEN`](h2_host::MOST_TAKEN) octets are read and
//! at most [`MOST_GIVEN`](h2_host::MOST_GIVEN) written. It reports the time ten times a second.
//! Its connections are made by [`Opens`].
//!
//! All reads go into one buffer, and output is written from where it lies. A host's token is the
//! name of its socket at `mio`, so a late event for a closed connection changes nothing.
#![tactic(auto)]

mod driver;
mod moved;
mod opens;
mod sockets;
#[cfg(test)]
mod tests;
mod transport;
mod turn;
mod waiting;

pub use driver::{Driver, Place};
pub use opens::Opens;
