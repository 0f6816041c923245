//! Why a command fails.

ghost use Rattle.std.specs.Prelude.{◌≡◌, ◌≢◌};
ghost use Rattle.h2_cli.specs.declared.failure.Failure.TheVariants.{BadHex, Memory};
ghost use Rattle.h2_cli.specs.Hexadecimal.{failure_of_text};
ghost use Rattle.h2_cli.specs.Status.{failure_status};

use crate::hexadecimal::HexError;
use crate::status::Status;
use std::alloc::AllocError;
use std::io;
use thiserror::Error;

/// Why a command fails. Its text is the line for standard error.
#[derive(Clone, Copy, Debug, PartialEq, Eq, Hash, Error)]
pub enum Failure {
    /// A read or a write failed.
    #[error("N1 Device")]
    Device,
    /// Out of memory.
    #[error("N3 Memory")]
    Memory,
    /// The input is not hexadecimal.
    #[error("bad hex")]
    BadHex,
}

impl Failure {
    // rule: show (own) Hexadecimal is read without its blanks; other text is refused
    /// Returns the exit status for this failure.
    pub fn status(self) -> Status
        ensures { result ≡ failure_status self }
    {
        match self {
            Failure::Device => Status::Device,
            Failure::Memory => Status::Memory,
            Failure::BadHex => Status::Usage,
        }
    }
}

impl From<io::Error> for Failure {
    ghost from_gives = { λ error failure. failure ≢ BadHex };

    fn from(error: io::Error) -> Failure {
        match error.kind() {
            io::ErrorKind::OutOfMemory => Failure::Memory,
            _ => Failure::Device,
        }
    }
}

impl From<AllocError> for Failure {
    ghost from_gives = { λ error failure. failure ≡ Memory };

    fn from(_error: AllocError) -> Failure {
        Failure::Memory
    }
}

impl From<HexError> for Failure {
    ghost from_gives = { λ error failure. failure ≡ failure_of_text error };

    fn from(error: HexError) -> Failure {
        match error {
            HexError::BadHex => Failure::BadHex,
            HexError::Memory => Failure::Memory,
        }
    }
}
