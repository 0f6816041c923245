//! What an end keeps of a stream: what was read, and what is still to be sent.

use crate::body::Body;
use h2_message::{BodyLength, Reading};
use hpack::Field;

/// The rest of a message whose head was sent: octets of its body, its trailers, or both.
#[derive(Debug, Drop)]
pub(crate) struct Waiting {
    /// The body.
    pub(crate) body: Body,
    /// How many octets of the body were sent.
    pub(crate) sent: usize,
    /// The trailers.
    pub(crate) trailers: Option<Vec<Field>>,
}

/// The state of the message that this end sends on a stream.
#[derive(Debug, Drop)]
pub(crate) enum Outgoing {
    /// Not given yet.
    NotGiven,
    /// Begun, and what was given of it was sent; the value is the length that its body still
    /// needs.
    Open(BodyLength),
    /// Its head was sent, and the rest waits.
    Waiting(Waiting),
    /// Sent completely.
    Sent,
}

/// What an end keeps of a stream.
#[derive(Debug, Drop)]
pub(crate) struct Stream {
    /// What was read of it.
    pub(crate) reading: Reading,
    /// What is sent on it.
    pub(crate) outgoing: Outgoing,
}
