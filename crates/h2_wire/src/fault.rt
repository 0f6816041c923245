//! The faults of a stream of frames.

ghost use Rattle.std.specs.Prelude.{◌≡◌};
ghost use Rattle.h2_wire.specs.Faults.{wire_fault_code};

use h2_frame::{Code, HeadFault};
use std::alloc::AllocError;
use thiserror::Error;

/// Why [`Cutter::advance`](crate::Cutter::advance) or [`Cutter::cut`](crate::Cutter::cut) failed:
/// a fault of the stream, or a refused allocation.
#[derive(Clone, Copy, Debug, PartialEq, Eq, Hash, Error)]
pub enum WireFault {
    /// V1: the input differs from the client's preface (RFC 9113, section 3.4).
    #[error("V1 BadPreface: the input does not begin with the connection preface")]
    BadPreface,
    /// V2: a head is at fault, known at its ninth octet.
    #[error("V2 HeadFault: {code}", code = .0.code())]
    HeadFault(HeadFault),
    /// V3: a payload is at fault, known at its last octet.
    #[error("V3 PayloadFault: {0}")]
    PayloadFault(Code),
    /// V4: an allocation was refused; the call may be repeated.
    #[error("V4 Memory: out of memory")]
    Memory,
}

impl From<AllocError> for WireFault {
    ghost use Rattle.h2_wire.specs.declared.fault.WireFault.TheVariants.{Memory};

    ghost from_gives = { λ _ fault. fault ≡ Memory };

    fn from(_error: AllocError) -> WireFault {
        WireFault::Memory
    }
}

impl WireFault {
    // contract: 5.4 (own) Out of memory is INTERNAL_ERROR
    // rule: 5.4 (own) Out of memory is INTERNAL_ERROR
    /// Returns the code with which the connection ends: that of the head or the payload,
    /// PROTOCOL_ERROR for a wrong preface, and INTERNAL_ERROR for a refused allocation.
    pub fn code(self) -> Code
        ensures { result ≡ wire_fault_code self }
    {
        match self {
            WireFault::BadPreface => Code::ProtocolError,
            WireFault::HeadFault(fault) => fault.code(),
            WireFault::PayloadFault(code) => code,
            WireFault::Memory => Code::InternalError,
        }
    }
}
