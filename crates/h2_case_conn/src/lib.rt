//! Drivers of the cases of messages and of one end of a connection, and what the cases of
//! `h2_case_ends` have in common with these. `h2_cases` checks them.
#![tactic(auto)]

pub mod acts;
pub mod answers;
pub mod conn;
pub mod conn_events;
pub mod cuts;
mod each_octet;
pub mod message;
pub mod notes;
mod numbers;
mod replayed;
