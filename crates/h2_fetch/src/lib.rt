//! Clients over any link (RFC 9113), which return each response part by part as it comes:
//! [`PartFetch`] makes one request, [`ClientConnection`] any number of them on one connection.
//! They read the input in pieces of at most 131,072 octets. Credit is returned to the server just
//! before a piece is read, and at no other time.
#![tactic(auto)]

mod coming;
mod connection;
mod errors;
mod fetch;
mod kept;
mod part;
mod reading;
mod sending;

pub use connection::{Came, ClientConnection};
pub use fetch::PartFetch;
pub use part::ResponsePart;
