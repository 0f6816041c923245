//! Why a path names no file that is served.

ghost use Rattle.std.specs.Prelude.{◌≡◌};
ghost use Rattle.h2_files.specs.Faults.{status_of_fault};

use std::alloc::{AllocError, AllocFailed};
use thiserror::Error;

/// Why a path names no file that is served. Its text is for a log.
#[derive(Clone, Copy, Debug, PartialEq, Eq, Hash, Error)]
pub enum PathFault {
    /// It is longer than [`MAX_PATH`](crate::MAX_PATH): 414.
    #[error("the path is too long")]
    TooLong,
    /// It does not begin with a slash: 400.
    #[error("the path is not absolute")]
    NotAbsolute,
    /// A `%` without two hexadecimal digits after it: 400.
    #[error("a percent-encoding is incomplete")]
    BadEscape,
    /// A name has a control character, such as NUL: 400.
    #[error("a name has a control character")]
    Control,
    /// A name isn't UTF-8: 400.
    #[error("a name is not UTF-8")]
    NotText,
    /// A name before the last is empty: 404.
    #[error("a name is empty")]
    Empty,
    /// A name begins with a dot, as `.`, `..` and hidden files do: 404.
    #[error("a name begins with a dot")]
    Dot,
    /// A name has a slash, from an escape, or a backslash: 404.
    #[error("a name has a slash or a backslash")]
    Separator,
    /// A name is longer than [`MAX_NAME`](crate::MAX_NAME): 404.
    #[error("a name is too long")]
    LongName,
    /// Out of memory: 503.
    #[error("out of memory")]
    Memory,
}

impl PathFault {
    /// The status of the answer (RFC 9110, sections 15.5.1, 15.5.5, 15.5.15 and 15.6.4).
    pub fn status(self) -> u16
        ensures { result ≡ status_of_fault self }
    {
        match self {
            PathFault::NotAbsolute
            | PathFault::BadEscape
            | PathFault::Control
            | PathFault::NotText => 400,
            PathFault::Empty | PathFault::Dot | PathFault::Separator | PathFault::LongName => 404,
            PathFault::TooLong => 414,
            PathFault::Memory => 503,
        }
    }
}

impl From<AllocError> for PathFault {
    ghost use Rattle.h2_files.specs.declared.fault.PathFault.TheVariants.{Memory};

    ghost from_gives = { λ _ fault. fault ≡ Memory };

    fn from(_error: AllocError) -> PathFault {
        PathFault::Memory
    }
}

impl<T: Drop> From<AllocFailed<T>> for PathFault {
    ghost use Rattle.h2_files.specs.declared.fault.PathFault.TheVariants.{Memory};

    ghost from_gives = { λ _ fault. fault ≡ Memory };

    fn from(_error: AllocFailed<T>) -> PathFault {
        PathFault::Memory
    }
}
