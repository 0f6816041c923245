//! Serves the files of a folder over HTTP, of any size (RFC 9110).
//!
//! [`Folder::answer`] returns the answer to a request: the head of a file and a [`Sending`] that
//! gives its octets part by part, or a complete message, such as 404. Which file a path names,
//! its validators, and the choice among 200, 206, 304, 412 and 416 are those of [`h2_files`].
//! [`log_line`] is a request's line in the common log format.
#![tactic(auto)]

mod answer;
mod find;
mod lines;
mod log;
mod messages;
mod recent;
mod sending;

pub use answer::{Answered, Folder, value_in};
pub use find::Missing;
pub use log::{LogEntry, log_line};
pub use messages::{About, file_head, short_message};
pub use recent::{Recent, RecentFile};
pub use sending::Sending;
