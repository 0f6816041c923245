//! Faults of a frame's head (RFC 9113, sections 4.2 and 6).

ghost use Rattle.std.specs.Prelude.{◌≡◌};
ghost use Rattle.h2_frame.specs.Heads.{head_fault_code};

use crate::code::Code;

/// A fault of a frame's head, known at its ninth octet.
#[derive(Clone, Copy, Debug, PartialEq, Eq, Hash)]
pub enum HeadFault {
    /// The length is above the limit (RFC 9113, section 4.2): FRAME_SIZE_ERROR.
    TooLong,
    /// The frame is PUSH_PROMISE, and push is never enabled here (section 6.6): PROTOCOL_ERROR.
    IsPushPromise,
    /// A frame of this type may not be on this stream (sections 6.1 to 6.10): PROTOCOL_ERROR.
    WrongStream,
    /// A frame of this type, with these flags, may not have this length (sections 6.1 to 6.10):
    /// FRAME_SIZE_ERROR.
    WrongLength,
}

impl HeadFault {
    /// Returns the code with which the connection ends for this fault (sections 4.2, 5.4.1 and
    /// 7).
    pub fn code(self) -> Code
        ensures { result ≡ head_fault_code self }
    {
        match self {
            HeadFault::IsPushPromise | HeadFault::WrongStream => Code::ProtocolError,
            HeadFault::TooLong | HeadFault::WrongLength => Code::FrameSizeError,
        }
    }
}
