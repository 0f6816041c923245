//! Tests of the programs of `h2_uses` whose messages go in parts: a file server, an upload and a
//! relay, each with bodies of 8 MiB that are made as they are read, and with little kept at once.
//!
//! Each program has a table of rows, and a function that plays a row. The peer of all of them is
//! one: a connection that sends and takes bodies, in the manner that the row says.
//!
//! - `body`: the octets of all bodies. `peer`: the peer. `pipe`: a reader and a writer over it.
//! - `files`, `uploads`, `relays`: the rows.

mod body;
mod files;
mod peer;
mod pipe;
mod relays;
mod uploads;
