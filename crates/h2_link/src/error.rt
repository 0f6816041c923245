//! Why a connection over a link ended early.

ghost use Rattle.std.specs.Prelude.{◌≡◌};
ghost use Rattle.h2_link.specs.declared.error.LinkError.TheVariants.{Device, Memory};

use crate::link::LinkFault;
use std::alloc::AllocError;
use std::io;
use thiserror::Error;

// rule (text): links (own) N1 to N7 are printed with their names and codes
/// Why a connection over a link ended before its work was done.
#[derive(Clone, Copy, Debug, PartialEq, Eq, Hash, Error)]
pub enum LinkError {
    /// N1: a read or a write of the link failed; or another I/O call did, such as one that makes a
    /// TCP connection.
    #[error("N1 Device")]
    Device,
    /// N2: the connection failed with this code (RFC 9113, section 7); or, with
    /// ENHANCE_YOUR_CALM, one more stream had to be reset after 1,000 others.
    #[error("N2 Stream {0}")]
    Stream(u32),
    /// N3: out of memory.
    #[error("N3 Memory")]
    Memory,
    /// N4: the input ended inside the preface or a frame, or while a stream was active.
    #[error("N4 CutOff")]
    CutOff,
    /// N5: a write took nothing; or the end refused a call for a reason that is neither N3 nor N7;
    /// or 2^64 - 1 rounds or 2^32 - 1 responses were counted; or `Fetcher::into_fetched` was
    /// called before the response was complete.
    #[error("N5 NoProgress")]
    NoProgress,
    /// N6: the stream of the request was reset with this code (RFC 9113, section 6.4). The code is
    /// REFUSED_STREAM also where a GOAWAY says that the server did not process the request
    /// (section 6.8).
    #[error("N6 Reset {0}")]
    Reset(u32),
    /// N7: the request breaks a rule of messages (E1), or its head or its trailers are larger than
    /// 65,536 octets, with 32 counted for each field (C10).
    #[error("N7 Refused")]
    Refused,
}

impl From<LinkFault> for LinkError {
    ghost from_gives = { λ fault error. error ≡ Device };

    fn from(_fault: LinkFault) -> LinkError {
        LinkError::Device
    }
}

impl From<io::Error> for LinkError {
    ghost from_gives = { λ fault error. error ≡ Device };

    fn from(_error: io::Error) -> LinkError {
        LinkError::Device
    }
}

impl From<AllocError> for LinkError {
    ghost from_gives = { λ fault error. error ≡ Memory };

    fn from(_error: AllocError) -> LinkError {
        LinkError::Memory
    }
}
