//! Prints a stream of HTTP/2 as lines of text: one line for each frame, the fields of each
//! block, and the fault that ends the stream.
//!
//! [`show_input`] reads from any reader and prints to any writer, so tests run in memory. A
//! [`Viewer`] shows one stream, piece by piece, in a [`Style`]. [`write_field`] and
//! [`write_text`] print a field, a name or a value for other commands; [`hexadecimal_of`] gives
//! the digits of a PING. `h2_cli` has what commands share.
#![tactic(auto)]

mod blocks;
mod hint;
mod json_lines;
mod lines;
mod naming;
mod options;
mod printer;
mod show;
mod styled_lines;
mod viewer;

pub use blocks::BlockError;
pub use h2_cli::{Failure, Status};
pub use hint::Hint;
pub use lines::{hexadecimal_of, write_field, write_text};
pub use naming::{code_name, setting_name};
pub use options::{ShowOptions, Side, Style, TextStyle};
pub use show::{Lent, Shown, show_input};
pub use viewer::{ShowError, Viewer};
