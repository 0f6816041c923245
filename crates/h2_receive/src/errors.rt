//! Why a response was not received completely.

ghost use Rattle.std.specs.Prelude.{◌≡◌};
ghost use Rattle.h2_receive.specs.declared.errors.FetchError.TheVariants.{Handler, Link};

use h2_link::LinkError;
use h2_server::HandlerFault;
use thiserror::Error;

/// Why a response was not received completely.
#[derive(Clone, Copy, Debug, PartialEq, Eq, Hash, Error)]
pub enum FetchError {
    /// The connection or the request ended early.
    #[error("{0}")]
    Link(LinkError),
    /// The handler returned this fault for a part, the last one that it got.
    #[error("{0}")]
    Handler(HandlerFault),
}

impl From<LinkError> for FetchError {
    ghost from_gives = { λ error fault. fault ≡ Link error };

    fn from(error: LinkError) -> FetchError {
        FetchError::Link(error)
    }
}

impl From<HandlerFault> for FetchError {
    ghost from_gives = { λ error fault. fault ≡ Handler error };

    fn from(error: HandlerFault) -> FetchError {
        FetchError::Handler(error)
    }
}
