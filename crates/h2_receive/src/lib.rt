//! Makes a request over any link (RFC 9113); a handler receives the response part by part.
//!
//! [`fetch_handler`] makes the request, reads, and calls the handler with each part until the
//! response is complete; [`receive`] does the same for a [`PartFetch`] that the caller has made. A
//! caller that wants to ask for each part itself uses [`PartFetch::next`].
#![tactic(auto)]

mod errors;
mod fetch;
mod handler;

pub use errors::FetchError;
pub use fetch::{fetch_handler, receive};
pub use h2_ends::{Config, Field, Message};
pub use h2_fetch::{PartFetch, ResponsePart};
pub use h2_link::{Link, LinkError};
pub use h2_server::HandlerFault;
pub use handler::ResponseHandler;
