//! What a call of `take` hands out.

ghost use Rattle.std.specs.Prelude.{◌≡◌};
ghost use Rattle.h2_ends.specs.EndEvents.{end_event_with_parts};

use hpack::FieldList;

/// An event of an end: a part of a message (RFC 9113, section 8.1), or an event of its connection.
/// `F` holds the fields of a part and `B` the octets of a body: borrowed, copied, or as the place
/// where they lie in what was kept, or as `()` where the end keeps them.
#[derive(Clone, Copy, Debug, PartialEq, Eq)]
pub enum EndEvent<F, B> {
    /// The head of an interim response has come (1xx; RFC 9113, section 8.1).
    Interim {
        /// The stream.
        id: u32,
        /// Its fields, in order.
        list: F,
    },
    /// The head of a message has come.
    Head {
        /// The stream.
        id: u32,
        /// Its fields, in order.
        list: F,
        /// Whether END_STREAM came with it: the message is complete.
        end: bool,
    },
    /// Octets of a body have come.
    Body {
        /// The stream.
        id: u32,
        /// The octets; there may be none.
        bytes: B,
        /// Whether END_STREAM came with it: the message is complete.
        end: bool,
    },
    /// Trailers have come: the message is complete.
    Trailers {
        /// The stream.
        id: u32,
        /// Its fields, in order.
        list: F,
    },
    /// A stream was closed before its request and its response were both complete (section 6.4). It
    /// may be the first event of the stream: its first field block may have been malformed, too
    /// large, or refused.
    Reset {
        /// The stream.
        id: u32,
        /// The error code (section 7).
        code: u32,
        /// Whether this end reset the stream: for a fault of the peer (such as a malformed
        /// message), because a field list was too large, or because this end takes no more
        /// streams. No RST_STREAM is sent where the part that is refused has closed the stream.
        ours: bool,
    },
    /// The peer has not processed this request and will not (section 6.8): it may be sent
    /// again.
    Unprocessed {
        /// The stream.
        id: u32,
    },
    /// GOAWAY was received: the peer takes no streams above `last` (section 6.8).
    GoAway {
        /// The lowest of the last-stream numbers in the peer's GOAWAY frames so far.
        last: u32,
        /// The error code (section 7).
        code: u32,
    },
    /// The peer has applied this end's settings (section 6.5.3).
    Acked,
    /// The peer has answered this end's PING (section 6.7).
    Pong {
        /// The octets of the PING.
        octets: [u8; 8],
    },
}

impl<F, B> EndEvent<F, B> {
    // rule: 8.1 (own) What is handed out of a stream is what was reported, in order
    /// Returns the same event with `list` in place of its fields or `bytes` in place of its
    /// octets. Of `list` and `bytes`, what the event has no place for is dropped.
    pub fn with_parts<G, C>(self, list: G, bytes: C) -> EndEvent<G, C>
    where
        F: Drop,
        B: Drop,
        G: Drop,
        C: Drop,
        ensures { result ≡ end_event_with_parts list bytes self }
    {
        match self {
            EndEvent::Interim { id, .. } => EndEvent::Interim { id, list },
            EndEvent::Head { id, end, .. } => EndEvent::Head { id, list, end },
            EndEvent::Body { id, end, .. } => EndEvent::Body { id, bytes, end },
            EndEvent::Trailers { id, .. } => EndEvent::Trailers { id, list },
            EndEvent::Reset { id, code, ours } => EndEvent::Reset { id, code, ours },
            EndEvent::Unprocessed { id } => EndEvent::Unprocessed { id },
            EndEvent::GoAway { last, code } => EndEvent::GoAway { last, code },
            EndEvent::Acked => EndEvent::Acked,
            EndEvent::Pong { octets } => EndEvent::Pong { octets },
        }
    }
}

/// The result of a call of `take`.
#[derive(Clone, Copy, Debug)]
pub struct EndTaken<'a> {
    /// How many octets of the piece were used: up to the end of one frame, or else all; none, if
    /// a stream is reported as unprocessed.
    pub used: usize,
    /// The event, if any. Its fields and octets are lent until the next call: octets of a body
    /// from the piece, or from the connection where their frame was cut in two.
    pub event: Option<EndEvent<&'a FieldList, &'a [u8]>>,
}
