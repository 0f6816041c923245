//! A client and a server of HTTP/2 over cleartext, without input or output (RFC 9113, section 8).
//!
//! [`Client::request`] and [`Server::respond`] take a complete message, and its body is sent as
//! windows allow. [`Client::begin`] and [`Server::begin`] send a head alone; `send_body` and
//! `send_trailers` send the rest as it becomes available. What the peer sends is handed out part by
//! part, and only as long as the parts so far can begin a message that breaks no rule.
//!
//! A loop that reads and writes makes these calls:
//!
//! - `take` with the octets that were read, until all are used and no event is returned;
//! - `respond` to the requests that were handed out;
//! - `release_all`, without which the peer stops once its window is used up;
//! - `pump`, `put_out` and a write, repeated until `put_out` returns 0, since `pump` stops once
//!   65,536 octets of output wait.
//!
//! If a call was refused with [`Refusal::OutputFull`] (C7), write output, and then make the call
//! again.
#![tactic(auto)]

mod body;
mod calls;
mod control;
mod end;
mod event;
mod laws;
mod lending;
mod outgoing;
mod parts;
mod passing;
mod quiet;
mod readers;
mod refusal;
mod roles;
mod sending;
mod span;
mod taking;

pub use event::{EndEvent, EndTaken};
pub use h2_conn::{BadConfig, Config, Conn, ConnFault, Refusal, Why};
pub use h2_frame::Code;
pub use h2_message::{
    BodyLength, Field, FieldList, FieldRef, Malformed, Message, Octets, check_request,
    check_request_head, check_response, check_response_head,
};
pub use laws::{parts_are_sent_at_once, sent_parts_are_readable, shares_are_given_in_turn};
pub use refusal::EndRefusal;
pub use roles::{Client, ClientRole, EndAs, Server, ServerRole};
