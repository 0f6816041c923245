//! The server's side of HTTP/2 connections, without input and output (RFC 9113): a handler answers
//! the requests, and deadlines and a flood budget limit the client.
//!
//! A [`Handler`] answers the requests of one connection, part by part; a [`Connection`] drives it.
//! [`Buffered`] is a handler that collects each request until it is complete, and then asks a
//! [`Service`].
//!
//! A loop that reads and writes makes these calls:
//!
//! - [`Connection::set_ready`] when the transport becomes readable or writable;
//! - [`Connection::receive`] with the octets that were read, as long as
//!   [`Connection::wants_read`], [`Connection::receive_none`] when there is nothing to read for
//!   now, and [`Connection::receive_end`] once the client has ended its side;
//! - [`Connection::advance`], the connection's turn, as long as [`Connection::wants_turn`], which
//!   may be true after each of these;
//! - a write of [`Connection::output`], and then [`Connection::written`] with the number of octets
//!   written, or [`Connection::written_none`] if none could be;
//! - [`Connection::tick`] with the time, several times a second, and [`Connection::lose`] once the
//!   transport has failed;
//! - [`Connection::respond`] with a response that its handler has deferred, once it is known,
//!   [`Connection::reset`] to give up an exchange, and [`Connection::leave`] to end in order; each
//!   of these is followed by a turn, if the connection wants one;
//!
//! until [`Connection::is_over`] is true. Then the loop writes the output once more, and closes
//! the transport.
#![tactic(auto)]

mod acting;
mod buffered;
mod connection;
mod deadlines;
mod deferring;
mod ending;
mod exchange;
mod exchanges;
mod floods;
mod giving;
mod handler;
mod laws;
mod limits;
mod parts;
mod party;
mod queries;
mod reason;
mod sending;
mod stop;
mod taking;
mod telling;
mod turning;
mod watch;
mod watching;

pub use buffered::{Buffered, BufferedRequest, Echo, Request, Service};
pub use connection::Connection;
pub use deadlines::{Activity, Deadlines, Timeout};
pub use deferring::ExchangeRefusal;
pub use floods::{Flood, FloodBudget, FloodCounts};
pub use h2_ends::{Code, Config, Conn, Field, FieldList, Message};
pub use h2_host::Bound;
pub use handler::{Cause, Handler, HandlerFault, Part, Reply, ResponseFault};
pub use laws::handlers_alone_hold_clients_back;
pub use limits::{ConnectionLimits, FloodLimits, TimeLimits};
pub use reason::CloseReason;
pub use stop::Stop;
