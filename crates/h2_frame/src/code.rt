//! Error codes (RFC 9113, section 7).

ghost use Rattle.std.specs.Prelude.{◌≡◌, ◌<◌, Some, IfSome, IfNone};
ghost use Rattle.h2_frame.specs.Codes.{code_number, name_of};

use std::fmt;

/// An error code of RST_STREAM and GOAWAY: why a stream is reset or a connection ends (RFC
/// 9113, section 7).
#[derive(Clone, Copy, Debug, PartialEq, Eq, Hash)]
pub enum Code {
    /// 0: no error.
    NoError,
    /// 1: the peer broke a rule that has no more specific code.
    ProtocolError,
    /// 2: a fault of the end itself, such as a refused allocation.
    InternalError,
    /// 3: the peer exceeded a flow-control window.
    FlowControlError,
    /// 4: the peer didn't acknowledge SETTINGS in time.
    SettingsTimeout,
    /// 5: a frame came after its stream was half-closed.
    StreamClosed,
    /// 6: a frame's length is not one that its type, or the limit, allows.
    FrameSizeError,
    /// 7: a stream was refused before any of it was processed.
    RefusedStream,
    /// 8: a stream is no longer needed.
    Cancel,
    /// 9: a field block cannot be decoded.
    CompressionError,
    /// 10: the connection made for a CONNECT request was reset or closed abnormally.
    ConnectError,
    /// 11: the peer causes too much load.
    EnhanceYourCalm,
    /// 12: the transport is not secure enough.
    InadequateSecurity,
    /// 13: HTTP/1.1 is required instead of HTTP/2.
    Http11Required,
}

impl Code {
    // rule: 7 Each error code has its number
    /// Returns the code's number (RFC 9113, section 7), from 0 to 13.
    pub fn number(self) -> u32
        ensures { result ≡ code_number self }
    {
        match self {
            Code::NoError => 0,
            Code::ProtocolError => 1,
            Code::InternalError => 2,
            Code::FlowControlError => 3,
            Code::SettingsTimeout => 4,
            Code::StreamClosed => 5,
            Code::FrameSizeError => 6,
            Code::RefusedStream => 7,
            Code::Cancel => 8,
            Code::CompressionError => 9,
            Code::ConnectError => 10,
            Code::EnhanceYourCalm => 11,
            Code::InadequateSecurity => 12,
            Code::Http11Required => 13,
        }
    }

    // rule: 7 Each error code has its number
    /// Returns the code with this number; `None` above 13, where RFC 9113, section 7, has no
    /// codes.
    pub fn from_number(number: u32) -> Option<Code>
        ensures some { IfSome result (λ code. code_number code ≡ number) }
        ensures none { IfNone result (13 < number) }
    {
        Some(match number {
            0 => Code::NoError,
            1 => Code::ProtocolError,
            2 => Code::InternalError,
            3 => Code::FlowControlError,
            4 => Code::SettingsTimeout,
            5 => Code::StreamClosed,
            6 => Code::FrameSizeError,
            7 => Code::RefusedStream,
            8 => Code::Cancel,
            9 => Code::CompressionError,
            10 => Code::ConnectError,
            11 => Code::EnhanceYourCalm,
            12 => Code::InadequateSecurity,
            13 => Code::Http11Required,
            _ => return None,
        })
    }

    // rule: 7 Each error code has its name
    /// Returns the code's name (RFC 9113, section 7), such as `PROTOCOL_ERROR`.
    pub fn name(self) -> &'static str
        ensures { result.now ≡ name_of self }
    {
        match self {
            Code::NoError => "NO_ERROR",
            Code::ProtocolError => "PROTOCOL_ERROR",
            Code::InternalError => "INTERNAL_ERROR",
            Code::FlowControlError => "FLOW_CONTROL_ERROR",
            Code::SettingsTimeout => "SETTINGS_TIMEOUT",
            Code::StreamClosed => "STREAM_CLOSED",
            Code::FrameSizeError => "FRAME_SIZE_ERROR",
            Code::RefusedStream => "REFUSED_STREAM",
            Code::Cancel => "CANCEL",
            Code::CompressionError => "COMPRESSION_ERROR",
            Code::ConnectError => "CONNECT_ERROR",
            Code::EnhanceYourCalm => "ENHANCE_YOUR_CALM",
            Code::InadequateSecurity => "INADEQUATE_SECURITY",
            Code::Http11Required => "HTTP_1_1_REQUIRED",
        }
    }
}

impl fmt::Display for Code {
    ghost output = { λ code. Some (name_of code) };

    // rule: 7 Each error code has its name
    fn fmt<W: fmt::Write>(&self, f: &mut fmt::Formatter<W>) -> fmt::Result {
        f.write_str(self.name())
    }
}
