//! Faults of the frames of field blocks.

ghost use Rattle.std.specs.Prelude.{◌≡◌};
ghost use Rattle.h2_block.specs.Gather.{block_fault_code};

use h2_frame::Code;
use std::alloc::AllocError;
use thiserror::Error;

/// Why [`Gather::take`](crate::Gather::take) or [`spread`](crate::spread) failed: a fault of the
/// frames, or a refused allocation.
#[derive(Clone, Copy, Debug, PartialEq, Eq, Hash, Error)]
pub enum BlockFault {
    /// B1: a frame other than a CONTINUATION of the same stream comes inside a block (RFC 9113,
    /// section 6.10).
    #[error("B1 Interrupted: another frame interrupts a field block")]
    Interrupted,
    /// B2: a CONTINUATION comes outside a block (section 6.10).
    #[error("B2 Stray: CONTINUATION outside a field block")]
    Stray,
    /// B3: the fragments of a field block have more than 65,552 octets in all (own: a limit
    /// of this library; section 10.5.1).
    #[error("B3 TooLong: a field block is longer than 65552 octets")]
    TooLong,
    /// B4: an allocation was refused; the call may be repeated.
    #[error("B4 Memory: out of memory")]
    Memory,
}

impl From<AllocError> for BlockFault {
    ghost use Rattle.h2_block.specs.declared.fault.BlockFault.TheVariants.{Memory};

    ghost from_gives = { λ _ fault. fault ≡ Memory };

    fn from(_error: AllocError) -> BlockFault {
        BlockFault::Memory
    }
}

impl BlockFault {
    // contract: 5.4 (own) Out of memory is INTERNAL_ERROR
    // rule: 5.4 (own) Out of memory is INTERNAL_ERROR
    /// Returns the code with which the connection ends: PROTOCOL_ERROR for B1 and B2,
    /// ENHANCE_YOUR_CALM for B3, and INTERNAL_ERROR for B4.
    pub fn code(self) -> Code
        ensures { result ≡ block_fault_code self }
    {
        match self {
            BlockFault::Interrupted | BlockFault::Stray => Code::ProtocolError,
            BlockFault::TooLong => Code::EnhanceYourCalm,
            BlockFault::Memory => Code::InternalError,
        }
    }
}
