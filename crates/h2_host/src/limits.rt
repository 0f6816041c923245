//! The limits of a host.

/// The maximum number of connections of a host, and of octets that they hold.
#[derive(Clone, Copy, Debug, PartialEq, Eq)]
pub struct Limits {
    /// The maximum number of connections, never above 1,048,576.
    pub connections: usize,
    /// How many octets a connection may hold: one that holds more is closed. Not counted, and so
    /// held in addition: header tables, field blocks and lists, entries of streams, the spare capacity
    /// of buffers, and what a handler keeps of requests beyond what its `held` says.
    pub held: usize,
    /// How many octets all connections may hold: if they hold more, the one that holds most is
    /// closed.
    pub held_in_all: usize,
}

impl Default for Limits {
    /// 10,000 connections, 16 MiB for one of them and 256 MiB for all.
    fn default() -> Limits {
        Limits {
            connections: 10_000,
            held: 16_777_216,
            held_in_all: 268_435_456,
        }
    }
}
