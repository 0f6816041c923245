//! Frames that are written, which own their payload.

use thiserror::Error;

/// A frame that owns its payload; [`FrameRef`](crate::FrameRef) is a frame whose payload is
/// lent.
#[derive(Debug, PartialEq, Eq, Drop)]
pub enum Frame {
    /// DATA: octets of a message's body (RFC 9113, section 6.1).
    Data {
        /// The stream, not 0.
        stream: u32,
        /// Whether END_STREAM is set: the sender sends no more fields or DATA on the stream.
        end: bool,
        /// The octets.
        octets: Vec<u8>,
        /// The pad length to write, if any (PADDED).
        pad: Option<u8>,
    },
    /// HEADERS: the beginning of a field block (section 6.2).
    Headers {
        /// The stream, not 0.
        stream: u32,
        /// Whether END_STREAM is set: after the block the sender sends no more fields or DATA on
        /// the stream.
        end: bool,
        /// Whether END_HEADERS is set: the block ends with this frame.
        whole: bool,
        /// The block's octets in this frame.
        fragment: Vec<u8>,
        /// The pad length to write, if any (PADDED).
        pad: Option<u8>,
        /// The five octets of a priority, if there is one (PRIORITY).
        priority: Option<[u8; 5]>,
    },
    /// PRIORITY (section 6.3).
    Priority {
        /// The stream, not 0.
        stream: u32,
        /// The five octets of the priority.
        octets: [u8; 5],
    },
    /// RST_STREAM: the stream ends at once (section 6.4).
    Reset {
        /// The stream, not 0.
        stream: u32,
        /// The error code (section 7).
        code: u32,
    },
    /// SETTINGS: values, or the acknowledgment of the peer's values (section 6.5).
    Settings {
        /// Whether ACK is set: the sender has applied its peer's values. Then there are no pairs.
        ack: bool,
        /// Identifiers and values, in order.
        pairs: Vec<(u16, u32)>,
    },
    /// PING: eight octets to be sent back, or the answer with them (section 6.7).
    Ping {
        /// Whether ACK is set: the frame is the answer.
        ack: bool,
        /// The octets.
        octets: [u8; 8],
    },
    /// GOAWAY: the sender accepts no further streams (section 6.8).
    GoAway {
        /// The greatest number of a stream that the sender has processed or may still process,
        /// less than 2<sup>31</sup>; 0 if there is none.
        last: u32,
        /// The error code (section 7).
        code: u32,
        /// Additional debug data.
        debug: Vec<u8>,
    },
    /// WINDOW_UPDATE: more octets may be sent (section 6.9).
    WindowUpdate {
        /// The stream, or 0 for the connection.
        stream: u32,
        /// The number of further octets, less than 2<sup>31</sup>.
        increment: u32,
    },
    /// CONTINUATION: the next part of a field block (section 6.10).
    Continuation {
        /// The stream, not 0.
        stream: u32,
        /// Whether END_HEADERS is set: the block ends with this frame.
        whole: bool,
        /// The block's octets in this frame.
        fragment: Vec<u8>,
    },
    /// A frame of an unknown type (section 5.5).
    Unknown {
        /// Its type, 10 or above.
        kind: u8,
        /// Its flags, all of which are written.
        flags: u8,
        /// Its stream.
        stream: u32,
        /// Its payload.
        payload: Vec<u8>,
    },
}

/// Why a frame is not written: the first of these that holds.
#[derive(Clone, Copy, Debug, PartialEq, Eq, Hash, Error)]
pub enum Unwritable {
    /// F1: the payload has more than 16,777,215 octets, which no head can encode (RFC 9113,
    /// section 4.1).
    #[error("F1 TooLong: the payload is longer than 16777215 octets")]
    TooLong,
    /// F2: a frame of this type may not be on the stream, or the stream's number is above
    /// 2<sup>31</sup> - 1.
    #[error("F2 BadStream: a frame of this type is not allowed on the stream")]
    BadStream,
    /// F3: a last stream or an increment is above 2<sup>31</sup> - 1, SETTINGS with ACK has
    /// pairs, or [`Frame::Unknown`] has a known type, 0 to 9.
    #[error("F3 BadValue: a value of the frame is out of range")]
    BadValue,
    /// F4: an allocation was refused.
    #[error("F4 Memory: out of memory")]
    Memory,
}
