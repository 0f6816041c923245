//! Frames that are read, whose payload is lent.

ghost use Rattle.std.specs.Prelude.{◌≡◌, ◌≤◌, [], length};
ghost use Rattle.h2_frame.specs.Frames.{frame_of};
ghost use Rattle.h2_frame.specs.Encoding.{kind_of_frame, stream_of, payload_of, padded};
ghost use Rattle.h2_frame.specs.Encoding.{prioritized};

use crate::code::Code;
use crate::kind::Kind;
use crate::limits::PAIR;
use crate::pairs::Pairs;
use thiserror::Error;

/// A frame whose payload is lent.
#[derive(Clone, Copy, Debug, PartialEq, Eq)]
pub enum FrameRef<'a> {
    /// DATA: octets of a message's body (RFC 9113, section 6.1).
    Data {
        /// The stream, not 0.
        stream: u32,
        /// Whether END_STREAM is set: the sender sends no more fields or DATA on the stream.
        end: bool,
        /// The octets, without padding.
        octets: &'a [u8],
        /// The pad length, if there was one (PADDED).
        pad: Option<u8>,
    },
    /// HEADERS: the beginning of a field block (section 6.2).
    Headers {
        /// The stream, not 0.
        stream: u32,
        /// Whether END_STREAM is set: after the block the sender sends no more fields or DATA on
        /// the stream.
        end: bool,
        /// Whether END_HEADERS is set: the block ends with this frame.
        whole: bool,
        /// The block's octets in this frame.
        fragment: &'a [u8],
        /// The pad length, if there was one (PADDED).
        pad: Option<u8>,
        /// The five octets of the priority, if there was one (PRIORITY); an end ignores them.
        priority: Option<[u8; 5]>,
    },
    /// PRIORITY, which an end ignores (section 6.3).
    Priority {
        /// The stream, not 0.
        stream: u32,
        /// The five octets of the priority.
        octets: [u8; 5],
    },
    /// RST_STREAM: the stream ends at once (section 6.4).
    Reset {
        /// The stream, not 0.
        stream: u32,
        /// The error code (section 7); any is allowed.
        code: u32,
    },
    /// SETTINGS: values, or the acknowledgment of the peer's values (section 6.5).
    Settings {
        /// Whether ACK is set: the sender has applied its peer's values. Then there are no pairs.
        ack: bool,
        /// Identifiers and values, in order.
        pairs: Pairs<'a>,
    },
    /// PING: eight octets to be sent back, or the answer with them (section 6.7).
    Ping {
        /// Whether ACK is set: the frame is the answer.
        ack: bool,
        /// The octets.
        octets: [u8; 8],
    },
    /// GOAWAY: the sender accepts no further streams (section 6.8).
    GoAway {
        /// The greatest number of a stream that the sender has processed or may still process,
        /// less than 2<sup>31</sup>; 0 if there is none.
        last: u32,
        /// The error code (section 7); any is allowed.
        code: u32,
        /// Additional debug data.
        debug: &'a [u8],
    },
    /// WINDOW_UPDATE: more octets may be sent (section 6.9).
    WindowUpdate {
        /// The stream, or 0 for the connection.
        stream: u32,
        /// The number of further octets, less than 2<sup>31</sup>; 0 is a fault, which is not
        /// checked here.
        increment: u32,
    },
    /// CONTINUATION: the next part of a field block (section 6.10).
    Continuation {
        /// The stream, not 0.
        stream: u32,
        /// Whether END_HEADERS is set: the block ends with this frame.
        whole: bool,
        /// The block's octets in this frame.
        fragment: &'a [u8],
    },
    /// A frame of an unknown type, as it was received (section 5.5).
    Unknown {
        /// Its type, 10 or above.
        kind: u8,
        /// Its flags.
        flags: u8,
        /// Its stream.
        stream: u32,
        /// Its payload.
        payload: &'a [u8],
    },
}

#[tactic(auto, unfolding(crate::proofs::Rules::parts_of_frames))]
impl FrameRef<'_> {
    // contract: 6 (own) A frame says its type and its stream, 0 for the connection
    // rule: 6 (own) A frame says its type and its stream, 0 for the connection
    /// Returns the frame's type.
    pub fn kind(self) -> Kind
        ensures { result ≡ kind_of_frame (frame_of self.entry) }
    {
        match self {
            FrameRef::Data { .. } => Kind::Data,
            FrameRef::Headers { .. } => Kind::Headers,
            FrameRef::Priority { .. } => Kind::Priority,
            FrameRef::Reset { .. } => Kind::RstStream,
            FrameRef::Settings { .. } => Kind::Settings,
            FrameRef::Ping { .. } => Kind::Ping,
            FrameRef::GoAway { .. } => Kind::GoAway,
            FrameRef::WindowUpdate { .. } => Kind::WindowUpdate,
            FrameRef::Continuation { .. } => Kind::Continuation,
            FrameRef::Unknown { kind, .. } => Kind::Unknown(kind),
        }
    }

    // contract: 6 (own) A frame says its type and its stream, 0 for the connection
    // rule: 6 (own) A frame says its type and its stream, 0 for the connection
    /// Returns the frame's stream, 0 for the connection.
    pub fn stream(self) -> u32
        ensures { result ≡ stream_of (frame_of self.entry) }
    {
        match self {
            FrameRef::Data { stream, .. }
            | FrameRef::Headers { stream, .. }
            | FrameRef::Priority { stream, .. }
            | FrameRef::Reset { stream, .. }
            | FrameRef::WindowUpdate { stream, .. }
            | FrameRef::Continuation { stream, .. }
            | FrameRef::Unknown { stream, .. } => stream,
            FrameRef::Settings { .. } | FrameRef::Ping { .. } | FrameRef::GoAway { .. } => 0,
        }
    }

    // contract: 6 (own) A frame says how many octets its payload has, padding included
    // rule: 6 (own) A frame says how many octets its payload has, padding included
    /// Returns the number of octets of the frame's payload, pad length and padding included
    /// (RFC 9113, section 4.1).
    pub fn payload_len(self) -> usize
        ensures { result ≡ length (payload_of (frame_of self.entry)) }
    {
        match self {
            FrameRef::Data { octets, pad, .. } => padding_len(pad) + octets.len(),
            FrameRef::Headers {
                fragment,
                pad,
                priority,
                ..
            } => padding_len(pad) + priority_len(priority) + fragment.len(),
            FrameRef::Priority { octets, .. } => octets.len(),
            FrameRef::Reset { .. } | FrameRef::WindowUpdate { .. } => 4,
            FrameRef::Settings { pairs, .. } => pairs.octets.len() / PAIR * PAIR,
            FrameRef::Ping { octets, .. } => octets.len(),
            FrameRef::GoAway { debug, .. } => 8 + debug.len(),
            FrameRef::Continuation { fragment, .. } => fragment.len(),
            FrameRef::Unknown { payload, .. } => payload.len(),
        }
    }
}

// The number of octets of the pad length and the padding.
pub(crate) fn padding_len(pad: Option<u8>) -> usize
    ensures value { result ≡ length (padded [] pad) }
    ensures small { result ≤ 256 }
{
    match pad {
        Some(count) => 1 + usize::from(count),
        None => 0,
    }
}

// The number of octets of the priority.
fn priority_len(priority: Option<[u8; 5]>) -> usize
    ensures value { result ≡ length (prioritized [] priority) }
    ensures small { result ≤ 5 }
{
    match priority {
        Some(octets) => octets.len(),
        None => 0,
    }
}

/// Why a payload cannot be read.
#[derive(Clone, Copy, Debug, PartialEq, Eq, Hash, Error)]
pub enum PayloadError {
    /// The payload breaks a rule of its frame type; the connection ends with this code.
    #[error("invalid payload: {0}")]
    Code(Code),
}

impl From<Code> for PayloadError {
    ghost use Rattle.h2_frame.specs.declared.frame.PayloadError.TheVariants as errors;

    ghost from_gives = { λ code error. error ≡ errors.Code code };

    fn from(code: Code) -> PayloadError {
        PayloadError::Code(code)
    }
}
