//! Events that an end reports.

ghost use Rattle.std.specs.Prelude.{◌≡◌};
ghost use Rattle.h2_core.specs.Events.{with_parts};

/// An event that an end reports (RFC 9113). `F` holds the fields of a block and `B` the octets
/// of a body: as a loan, a copy or a place, or as `()` where the end keeps them.
#[derive(Clone, Copy, Debug, PartialEq, Eq)]
pub enum Event<F, B> {
    /// A field section was received (section 8.1).
    Fields {
        /// The stream.
        id: u32,
        /// The fields, in order.
        list: F,
        /// Whether END_STREAM is set: no fields or DATA follow; a reset may.
        end: bool,
    },
    /// Octets of a body were received (section 6.1).
    Data {
        /// The stream.
        id: u32,
        /// The octets, without padding.
        bytes: B,
        /// The octets that the frame took from the windows, padding included; they are owed on the
        /// stream if it is still active.
        flow: u32,
        /// Whether END_STREAM is set: no fields or DATA follow; a reset may.
        end: bool,
    },
    /// A stream was reset (section 6.4).
    Reset {
        /// The stream.
        id: u32,
        /// The error code (section 7).
        code: u32,
        /// Whether this end has reset it: for a fault of the peer, or for a limit of its own.
        ours: bool,
    },
    /// GOAWAY was received: the peer takes no streams above `last` (section 6.8).
    GoAway {
        /// The lowest of the last-stream numbers in the peer's GOAWAY frames so far.
        last: u32,
        /// The error code (section 7).
        code: u32,
    },
    /// The peer has not processed this stream of this end, which is closed now (section 6.8).
    Unprocessed {
        /// The stream.
        id: u32,
    },
    /// The peer has applied this end's settings (section 6.5.3).
    Acked,
    /// The peer has answered this end's PING (section 6.7).
    Pong {
        /// The octets of the PING.
        octets: [u8; 8],
    },
}

impl<F, B> Event<F, B> {
    // rule: calls (own) An event has the octets, the fields and the numbers of its frame
    /// Returns the same event with `list` in place of its fields or `bytes` in place of its octets.
    /// Of `list` and `bytes`, what the event has no place for is dropped.
    pub fn with_parts<G, C>(self, list: G, bytes: C) -> Event<G, C>
    where
        F: Drop,
        B: Drop,
        G: Drop,
        C: Drop,
        ensures { result ≡ with_parts list bytes self }
    {
        match self {
            Event::Fields { id, end, .. } => Event::Fields { id, list, end },
            Event::Data { id, flow, end, .. } => Event::Data {
                id,
                bytes,
                flow,
                end,
            },
            Event::Reset { id, code, ours } => Event::Reset { id, code, ours },
            Event::GoAway { last, code } => Event::GoAway { last, code },
            Event::Unprocessed { id } => Event::Unprocessed { id },
            Event::Acked => Event::Acked,
            Event::Pong { octets } => Event::Pong { octets },
        }
    }
}
