//! A server and a client over any reader and writer, a POST over any link, and the callers that
//! the `CALLING.md` of each crate quotes.
#![tactic(auto)]

mod calling_calls;
mod calling_conn;
mod calling_ends;
mod calling_frame;
mod calling_hpack;
mod calling_message;
mod client;
mod files;
mod hello;
mod poster;
mod relays;
mod server;
mod uploads;

pub use calling_calls::{
    Failure, Opened, Sent, accept_data, advance, cancel, change_config, chosen_config, keep_alive,
    leave, open_stream, send_response,
};
pub use calling_conn::{Next, after_refusal, discard_bodies, send_part};
pub use calling_ends::{
    Asked, answer_late, ask, give_up, release_used, send_from_place, wind_down,
};
pub use calling_frame::{pass_on, read_back, read_frame, read_on, write_for_user};
pub use calling_hpack::{carry_list, fields_into, fields_of};
pub use calling_message::{check_forwarded, checked_response, is_request};
pub use client::{Response, get};
pub use files::{Opener, serve_files};
pub use hello::Hello;
pub use poster::post;
pub use relays::{Relay, Wire, relay_step};
pub use server::{Handler, serve};
pub use uploads::{Uploaded, upload};
