//! Drivers of the cases of a client and a server, alone or joined, and of connections over links.
//! `h2_cases` checks them.
#![tactic(auto)]

mod crowds;
pub mod end;
mod end_events;
pub mod engine;
mod joined;
pub mod pair;
mod side;
