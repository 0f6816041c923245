//! Serves a connection over any link (RFC 9113); a handler answers its requests.
//!
//! [`serve_handler`] reads, passes requests to the handler, and writes its responses, complete or
//! in parts, until the input ends. Apart from the calls of the handler, it blocks only in those of
//! the link. For many connections use `h2_hosting`.
#![tactic(auto)]

mod ending;
mod serve;

pub use h2_link::{Link, LinkError};
pub use h2_server::{
    Buffered, Cause, Code, Config, Field, FieldList, Handler, HandlerFault, Message, Part, Reply,
    Request, ResponseFault, Service,
};
pub use serve::serve_handler;
