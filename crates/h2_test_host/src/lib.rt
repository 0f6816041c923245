//! Tests of hosts, handlers and responses that a handler hears.
//!
//! - `host`: a host and its times, with a party that counts octets. `hosting`: what a host serves,
//!   without sockets.
//! - `serve`: handlers that serve over a link in memory. `receive`: responses that a handler hears.
//! - `asked`: what a client sends, and links that give it.
#![tactic(auto)]

#[cfg(test)]
mod asked;
#[cfg(test)]
mod host;
#[cfg(test)]
mod hosting;
#[cfg(test)]
mod receive;
#[cfg(test)]
mod serve;
