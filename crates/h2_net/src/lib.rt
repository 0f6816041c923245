//! HTTP/2 over TCP sockets, cleartext and with prior knowledge (RFC 9113, section 3.3): a server of
//! one connection at a time, a client that fetches one response, and both ends in one process.
//!
//! [`StreamLink`] is a link over a TCP stream that collects writes and sends them before it
//! reads. [`target`] reads a URL of the scheme `http` (RFC 9110, section 4.2.1).
//!
//! Calls that open sockets take the network as a [`std::net::Net`], and calls that print take the
//! writer.
#![tactic(auto)]

mod ending;
mod get;
mod location;
mod loopback;
mod parts;
mod sending;
mod serving;
mod stream_link;

pub use ending::{Ending, client_hint, report, status_of};
pub use get::{
    fetch_location, get_location, get_over, head_to, phrase, print_response, status_value,
    write_status,
};
pub use h2_cli::Hint;
pub use h2_engines::{Fetched, LinkError, Why};
pub use location::{Location, TargetFault, target};
pub use loopback::{exchange, print_exchange};
pub use parts::WriteParts;
pub use serving::{serve_connections, serve_port};
pub use stream_link::StreamLink;
