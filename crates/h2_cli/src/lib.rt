//! What the commands share that read an input, print lines and end with a status.
//!
//! A [`Hint`] is the likely cause of a failure, printed on standard error after the failure's line;
//! it changes neither that line nor the status. A [`Status`] is how a command ends, a [`Failure`]
//! why it fails. [`read_hex`] reads hexadecimal, and [`read_next`] the next piece of an input.
#![tactic(auto)]

mod failure;
mod hexadecimal;
mod hint;
mod input;
mod opening;
mod status;

pub use failure::Failure;
pub use hexadecimal::{HexError, from_hex, is_blank};
pub use hint::{
    Hint, hint_at_client, hint_at_server, hint_of_connecting, hint_of_device, write_hint,
};
pub use input::{PIECE, new_buffer, read_hex, read_next};
pub use opening::{answers_http1, asks_http1, is_capture};
pub use status::Status;
