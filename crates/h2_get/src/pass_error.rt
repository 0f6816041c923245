//! The results of a response that is printed as it arrives.

ghost use Rattle.std.specs.Prelude.{◌≡◌};

use h2_message::Field;
use h2_net::{Ending, Fetched, Hint, LinkError, Why};

/// Why the body of a response was not passed on completely.
#[derive(Clone, Copy, Debug, PartialEq, Eq)]
pub enum PassError {
    /// The fetch ended early.
    Link(LinkError),
    /// A write failed, or accepted nothing.
    Output,
}

impl From<LinkError> for PassError {
    ghost use Rattle.h2_get.specs.declared.pass_error.PassError.TheVariants.{Link};

    ghost from_gives = { λ error fault. fault ≡ Link error };

    fn from(error: LinkError) -> PassError {
        PassError::Link(error)
    }
}

/// Why a response was not printed completely.
#[derive(Clone, Copy, Debug, PartialEq, Eq)]
pub enum StreamError {
    /// The fetch ended early.
    Link(LinkError),
    /// A write to standard output failed.
    Output,
    /// The file cannot be created, or a write to it failed.
    File,
}

/// Why a response was not printed completely, and the likely cause.
#[derive(Clone, Copy, Debug, PartialEq, Eq)]
pub struct StreamEnding {
    /// The error.
    pub error: StreamError,
    /// The likely cause, if it is known.
    pub hint: Option<Hint>,
    /// Why the connection failed, if it did.
    pub why: Option<Why>,
}

impl StreamEnding {
    ghost use Rattle.h2_get.specs.declared.pass_error.StreamError.TheVariants.{Link};

    /// Creates one for this end of a fetch.
    pub(crate) fn of_link(ending: Ending) -> StreamEnding
        ensures error { result.error ≡ Link ending.error }
        ensures why { result.why ≡ ending.why }
    {
        StreamEnding {
            error: StreamError::Link(ending.error),
            hint: ending.hint,
            why: ending.why,
        }
    }

    /// Creates one for this error, without a hint.
    pub(crate) fn of_error(error: StreamError) -> StreamEnding
        ensures error { result.error ≡ error }
        ensures why { result.why ≡ None }
    {
        StreamEnding {
            error,
            hint: None,
            why: None,
        }
    }
}

/// The results of several requests made at once over one connection.
#[derive(Debug, Drop)]
pub struct SeveralStreamed {
    /// The results in the order of the requests, up to one that ended all.
    pub results: Vec<Result<Fetched, StreamError>>,
    /// The likely cause of the last result, if that ended all and the cause is known.
    pub hint: Option<Hint>,
    /// Why the connection failed, if it did.
    pub why: Option<Why>,
}

/// The head of a response.
#[derive(Debug, Drop)]
pub struct ResponseHead {
    /// The fields, in order.
    pub list: Vec<Field>,
    /// Whether it completes the response.
    pub end: bool,
}

/// What follows a part of a response.
#[derive(Debug, Drop)]
pub(crate) enum Passed {
    /// More parts.
    GoesOn,
    /// Nothing: the response is complete, with these trailers, if any.
    Whole(Option<Vec<Field>>),
}

/// The end of a response whose body was passed on.
#[derive(Debug, Drop)]
pub(crate) struct LastPart {
    /// The trailers, if any.
    pub(crate) trailers: Option<Vec<Field>>,
}
