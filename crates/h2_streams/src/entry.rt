//! What is kept of a stream.

use h2_flow::StreamState;

/// An active stream: neither closed by both sides nor reset.
#[derive(Clone, Copy, Debug, PartialEq, Eq)]
pub struct Stream {
    /// The send window: the octets that this end may send on it (RFC 9113, section 6.9.1).
    /// SETTINGS can make it negative.
    pub send_window: i64,
    /// The receive window: the octets that the peer may send on it. SETTINGS can make it
    /// negative.
    pub recv_window: i64,
    /// The number of octets that were reported and are not released yet.
    pub owed: u32,
    /// Which sides have sent END_STREAM.
    pub state: StreamState,
}

/// What is kept of a stream's number.
#[derive(Clone, Copy, Debug, PartialEq, Eq)]
pub enum Entry {
    /// The stream is active.
    Active(Stream),
    /// This end has reset it.
    Reset,
}
