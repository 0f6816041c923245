//! HTTP messages over HTTP/2: requests and responses, and when one is malformed (RFC 9113,
//! section 8).
//!
//! [`check_request`] and [`check_response`] check a complete message before it is sent;
//! [`check_request_head`] and [`check_response_head`] check the head of one that is sent in
//! parts. [`Reading`] takes a received message part by part, and refuses a part that would make the
//! message malformed. Only making a [`Message`] takes memory.
#![tactic(auto)]

mod checks;
mod classes;
mod kind;
mod lanes;
mod laws;
mod malformed;
mod message;
mod octets;
mod parts;
mod reading;
mod scan;
mod verdict;

pub use checks::{check_request, check_response};
pub use hpack::{Field, FieldList, FieldRef, Octets};
pub use laws::{refused_parts_break_a_rule, sent_messages_are_well_read};
pub use malformed::Malformed;
pub use message::{Message, asks_head, list_asks_head};
pub use octets::names_user;
pub use parts::{BodyLength, check_request_head, check_response_head};
pub use reading::{Place, Reading, Reads};
