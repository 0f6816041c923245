//! A complete HTTP/2 connection over any link (RFC 9113): a server that answers each request
//! with the request itself, and a client that fetches one response.
//!
//! [`serve_link`] and [`fetch_link`] read and write a [`Link`]. [`Responder`] and [`Fetcher`] are
//! the same server and client without a link, for a caller that carries the octets.
//!
//! For a loop of one's own over a link: [`send_waiting`] and [`write_out`] send what a client or a
//! server has, and [`unless_failed`], [`unless_refused`] and the functions that these call say how
//! the loop ends. [`write_waiting`] writes the output of any connection.
#![tactic(auto)]

mod errors;
mod fetch;
mod fetcher;
mod machine;
mod request;
mod responder;
mod room;
mod sending;
mod serve;

pub use errors::{error_of_code, error_of_refusal, unless_failed, unless_refused};
pub use fetch::{fetch_link, fetch_link_why};
pub use fetcher::{Fetched, Fetcher};
pub use h2_ends::{Config, Field, Message, Why};
pub use h2_link::{Link, LinkError, LinkFault, MemoryLink};
pub use responder::Responder;
pub use sending::{Credit, send_waiting, write_out, write_waiting};
pub use serve::{serve_link, serve_link_why};
