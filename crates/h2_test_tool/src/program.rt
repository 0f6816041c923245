//! The commands over sockets, words that can't be had, and statuses.
//!
//! Tests are proved as well: small functions return whether a case holds.

mod serving;
mod sockets;
mod statuses;
mod words;
