//! Why a connection has failed.

ghost use Rattle.std.specs.Prelude.{◌≡◌};
ghost use Rattle.h2_core.specs.Endpoint.{end_of};
ghost use Rattle.h2_conn.specs.Why.{code_of_why, limit_reached, rule_of_head, rule_of_octets};
ghost use Rattle.h2_conn.specs.Why.{rule_of_refusal};

use h2_core::Endpoint;
use h2_frame::limits::MAX_RESETS;
use h2_frame::{Code, HeadFault};
use h2_wire::WireFault;
use thiserror::Error;

/// Why a connection has failed (RFC 9113, section 5.4.1): the rule that the peer has broken,
/// the limit that was reached, or what else has ended it. "Own" marks a choice of this library
/// where the RFC leaves one.
#[derive(Clone, Copy, Debug, PartialEq, Eq, Hash, Error)]
pub enum Why {
    /// The input differs from the preface (section 3.4): PROTOCOL_ERROR.
    #[error("the connection preface is wrong (PROTOCOL_ERROR)")]
    BadPreface,
    /// A frame's payload is longer than this end's limit (section 4.2; own: always a connection
    /// error): FRAME_SIZE_ERROR.
    #[error("a frame is longer than the limit (FRAME_SIZE_ERROR)")]
    FrameTooLong,
    /// PUSH_PROMISE was received, and this library never enables push (section 6.6):
    /// PROTOCOL_ERROR.
    #[error("PUSH_PROMISE, though push is disabled (PROTOCOL_ERROR)")]
    PushPromise,
    /// A frame whose type belongs to a stream came on stream 0, or one whose type belongs to
    /// the connection on another stream (sections 6.1 to 6.10): PROTOCOL_ERROR.
    #[error("a frame on a stream that its type does not allow (PROTOCOL_ERROR)")]
    WrongStream,
    /// The length of a frame is not one that its type and flags allow (sections 6.1 to 6.10; own:
    /// a connection error for PRIORITY too, where section 6.3 has a stream error):
    /// FRAME_SIZE_ERROR.
    #[error("a frame of a length that its type and flags do not allow (FRAME_SIZE_ERROR)")]
    WrongLength,
    /// The padding of DATA is as long as its payload, or longer (section 6.1), or that of
    /// HEADERS is longer than what follows the pad length and the priority (section 6.2):
    /// PROTOCOL_ERROR.
    #[error("padding longer than the payload leaves room for (PROTOCOL_ERROR)")]
    PaddingTooLong,
    /// The first frame is not SETTINGS, or is SETTINGS with ACK (section 3.4): PROTOCOL_ERROR.
    #[error("the first frame is not SETTINGS (PROTOCOL_ERROR)")]
    FirstFrameNotSettings,
    /// A frame other than a CONTINUATION of the same stream came inside a field block (section
    /// 6.10): PROTOCOL_ERROR.
    #[error("another frame interrupts a field block (PROTOCOL_ERROR)")]
    BlockInterrupted,
    /// CONTINUATION came outside a field block (section 6.10): PROTOCOL_ERROR.
    #[error("CONTINUATION outside a field block (PROTOCOL_ERROR)")]
    StrayContinuation,
    /// A field block has more than 65,552 octets (own; section 10.5.1): ENHANCE_YOUR_CALM.
    #[error("a field block of more than 65,552 octets (ENHANCE_YOUR_CALM)")]
    BlockTooLong,
    /// A field block does not decode (section 4.3): COMPRESSION_ERROR.
    #[error("a field block cannot be decoded (COMPRESSION_ERROR)")]
    BlockNotDecoded,
    /// DATA, RST_STREAM or WINDOW_UPDATE came on an idle stream, where only HEADERS and
    /// PRIORITY may come (section 5.1): PROTOCOL_ERROR. Frames of unknown types are ignored
    /// there.
    #[error("a frame other than HEADERS or PRIORITY on an idle stream (PROTOCOL_ERROR)")]
    FrameOnIdleStream,
    /// DATA came on a closed stream that this end has closed neither by RST_STREAM nor by GOAWAY
    /// (section 5.1; own: a connection error): STREAM_CLOSED.
    #[error("DATA on a closed stream (STREAM_CLOSED)")]
    DataOnClosedStream,
    /// A field block came on a closed stream that this end has closed neither by RST_STREAM nor by
    /// GOAWAY (section 5.1; own), or on a stream whose number the peer has skipped (section
    /// 5.1.1): PROTOCOL_ERROR.
    #[error("HEADERS on a closed stream (PROTOCOL_ERROR)")]
    BlockOnClosedStream,
    /// A field block came on an idle stream that the peer may not open: any at a client, an
    /// even number at a server (sections 5.1 and 5.1.1): PROTOCOL_ERROR.
    #[error("HEADERS on an idle stream that the peer may not open (PROTOCOL_ERROR)")]
    BlockOnIdleNumber,
    /// DATA has more octets than the connection's window (section 6.9.1): FLOW_CONTROL_ERROR.
    #[error("DATA exceeds the connection's window (FLOW_CONTROL_ERROR)")]
    DataAboveConnectionWindow,
    /// DATA has more octets than its stream's window (section 6.9.1; own: a connection error):
    /// FLOW_CONTROL_ERROR.
    #[error("DATA exceeds the stream's window (FLOW_CONTROL_ERROR)")]
    DataAboveStreamWindow,
    /// WINDOW_UPDATE on the connection has an increment of 0 (section 6.9): PROTOCOL_ERROR.
    #[error("WINDOW_UPDATE of 0 on the connection (PROTOCOL_ERROR)")]
    ZeroConnectionIncrement,
    /// WINDOW_UPDATE brings the connection's window above 2<sup>31</sup> - 1 (section 6.9.1):
    /// FLOW_CONTROL_ERROR.
    #[error("the connection's window exceeds 2^31-1 (FLOW_CONTROL_ERROR)")]
    ConnectionWindowTooLarge,
    /// ENABLE_PUSH is above 1, or 1 from a server (section 6.5.2): PROTOCOL_ERROR.
    #[error("ENABLE_PUSH is above 1, or 1 from a server (PROTOCOL_ERROR)")]
    BadEnablePush,
    /// INITIAL_WINDOW_SIZE is above 2<sup>31</sup> - 1 (section 6.5.2): FLOW_CONTROL_ERROR.
    #[error("INITIAL_WINDOW_SIZE is above 2^31-1 (FLOW_CONTROL_ERROR)")]
    BadInitialWindow,
    /// MAX_FRAME_SIZE is below 16,384 or above 2<sup>24</sup> - 1 (section 6.5.2): PROTOCOL_ERROR.
    #[error("MAX_FRAME_SIZE is not from 16,384 to 2^24-1 (PROTOCOL_ERROR)")]
    BadMaxFrameSize,
    /// INITIAL_WINDOW_SIZE brings a stream's window above 2<sup>31</sup> - 1 (section 6.9.2):
    /// FLOW_CONTROL_ERROR.
    #[error("INITIAL_WINDOW_SIZE brings a stream's window above 2^31-1 (FLOW_CONTROL_ERROR)")]
    ShiftTooLarge,
    /// This end would have reset its 1,001st stream (own; section 10.5): ENHANCE_YOUR_CALM.
    #[error("1,001 streams would have been reset (ENHANCE_YOUR_CALM)")]
    TooManyResets,
    /// A reply, or the reset of a stream, would bring the queued output above 262,144 octets (own;
    /// section 10.5): ENHANCE_YOUR_CALM.
    #[error("replies exceed 262,144 octets of waiting output (ENHANCE_YOUR_CALM)")]
    TooMuchOutput,
    /// An allocation was refused, here or in the layer above, which then calls
    /// [`Conn::refuse`](crate::Conn::refuse) with INTERNAL_ERROR (own; section 5.4):
    /// INTERNAL_ERROR.
    #[error("out of memory (INTERNAL_ERROR)")]
    OutOfMemory,
    /// The layer above has ended the connection with this code
    /// ([`Conn::fail`](crate::Conn::fail)).
    #[error("the layer above ended the connection: {0}")]
    EndedAbove(Code),
}

impl Why {
    /// Returns the code with which the connection has failed.
    pub fn code(self) -> Code
        ensures { result ≡ code_of_why self }
    {
        match self {
            Why::BadPreface
            | Why::PushPromise
            | Why::WrongStream
            | Why::PaddingTooLong
            | Why::FirstFrameNotSettings
            | Why::BlockInterrupted
            | Why::StrayContinuation
            | Why::FrameOnIdleStream
            | Why::BlockOnClosedStream
            | Why::BlockOnIdleNumber
            | Why::ZeroConnectionIncrement
            | Why::BadEnablePush
            | Why::BadMaxFrameSize => Code::ProtocolError,
            Why::BlockNotDecoded => Code::CompressionError,
            Why::DataOnClosedStream => Code::StreamClosed,
            Why::DataAboveConnectionWindow
            | Why::DataAboveStreamWindow
            | Why::ConnectionWindowTooLarge
            | Why::BadInitialWindow
            | Why::ShiftTooLarge => Code::FlowControlError,
            Why::BlockTooLong | Why::TooManyResets | Why::TooMuchOutput => Code::EnhanceYourCalm,
            Why::OutOfMemory => Code::InternalError,
            Why::FrameTooLong | Why::WrongLength => Code::FrameSizeError,
            Why::EndedAbove(code) => code,
        }
    }

    /// The reason for a fault of the cutter.
    pub(crate) fn of_octets(fault: WireFault) -> Why
        ensures { result ≡ rule_of_octets fault }
    {
        match fault {
            WireFault::BadPreface => Why::BadPreface,
            WireFault::HeadFault(fault) => Why::of_head(fault),
            WireFault::PayloadFault(_) => Why::PaddingTooLong,
            WireFault::Memory => Why::OutOfMemory,
        }
    }

    /// The rule that a frame's head breaks.
    fn of_head(fault: HeadFault) -> Why
        ensures { result ≡ rule_of_head fault }
    {
        match fault {
            HeadFault::TooLong => Why::FrameTooLong,
            HeadFault::IsPushPromise => Why::PushPromise,
            HeadFault::WrongStream => Why::WrongStream,
            HeadFault::WrongLength => Why::WrongLength,
        }
    }

    /// The reason where the layer above refused a stream, and the connection failed with this
    /// code.
    pub(crate) fn of_refusal(failed: Code, end: &Endpoint) -> Why
        ensures { result ≡ rule_of_refusal (end_of end.now).streams.resets failed }
    {
        match failed {
            Code::EnhanceYourCalm => Why::of_limits(end),
            _ => Why::OutOfMemory,
        }
    }

    /// The limit that was reached: that of resets, or else that of queued output.
    pub(crate) fn of_limits(end: &Endpoint) -> Why
        ensures { result ≡ limit_reached (end_of end.now).streams.resets }
    {
        if end.resets() >= MAX_RESETS {
            Why::TooManyResets
        } else {
            Why::TooMuchOutput
        }
    }
}
