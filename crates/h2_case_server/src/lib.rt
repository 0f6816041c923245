//! The driver of the cases of served connections: a host in memory, whose clients are octets.
//! `h2_cases` checks them.
#![tactic(auto)]

mod client;
mod connections;
mod handler;
mod path;
mod requests;
mod served;
pub mod server;
mod told;
mod turn;
