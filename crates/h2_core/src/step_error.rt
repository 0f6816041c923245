//! Why a step stops.

ghost use Rattle.std.specs.Prelude.{◌≡◌};
ghost use Rattle.h2_core.specs.declared.step_error.StepError.TheVariants.{OutOfMemory};

use h2_frame::Code;
use std::alloc::AllocError;

/// Why a step stops. It has changed nothing.
#[derive(Clone, Copy, Debug, PartialEq, Eq)]
pub(crate) enum StepError {
    /// The connection fails with this code. The frame opens this stream, or none (0).
    Fault { code: Code, opened: u32 },
    /// An allocation was refused.
    OutOfMemory,
}

impl From<AllocError> for StepError {
    ghost from_gives = { λ _ stop. stop ≡ OutOfMemory };

    fn from(_error: AllocError) -> StepError {
        StepError::OutOfMemory
    }
}

impl StepError {
    /// A fault of a frame that opens no stream.
    pub(crate) fn fault(code: Code) -> StepError
        ensures { result ≡ StepError.Fault code 0 }
    {
        StepError::Fault { code, opened: 0 }
    }
}
