//! A host: many connections in one thread that take turns, without clock and socket.
//!
//! A host knows nothing of the protocol: a connection is a [`Party`], which takes octets, gives
//! octets and says how many it holds. A [`Host`] keeps many of them, names each by a [`Token`] that
//! is never given again, gives them turns in order, and refuses those that hold more than they may.
//!
//! The loop of a driver: wait for transports and time, and report both by [`Host::step`]; then, as
//! long as [`Host::next_turn`] names a connection, read what it takes ([`Host::read_size`]), give
//! it its octets and its turn, and write its output ([`Host::output`]).
#![tactic(auto)]

mod host;
mod laws;
mod limits;
mod moving;
mod opening;
mod party;
mod state;
mod table;
mod token;
mod turn;
mod turning;

pub use host::{Host, Made, Reply, Step};
pub use laws::{connections_run_alone, ready_ones_go_first, tokens_are_new, turns_are_bounded};
pub use limits::Limits;
pub use party::{Answer, Bound, Own, Party};
pub use state::HostState;
pub use token::{MOST_PLACES, Token};
pub use turn::{MOST_GIVEN, MOST_TAKEN, Turn};
