//! The trait that an application implements: a handler of the response to one request.

ghost use Rattle.std.specs.Prelude.{⊤, Result};
ghost use Rattle.h2_fetch.specs.declared.part.ResponsePart.{ResponsePart};
ghost use Rattle.h2_server.specs.declared.handler.HandlerFault.{HandlerFault};
ghost use Rattle.h2_receive.specs.declared.errors.FetchError.{FetchError};

use crate::errors::FetchError;
use h2_fetch::ResponsePart;
use h2_server::HandlerFault;
use std::alloc::Global;

/// Receives the response to one request part by part, as it arrives. Credit for octets of the
/// body is returned only after the call (RFC 9113, section 6.9), so a slow handler slows the
/// server down.
///
/// An implementor may state its behaviour by two `ghost` relations, `hears` and `ends`, between the
/// state before a call, the arguments, the result, and the state after it. The defaults always
/// hold.
pub trait ResponseHandler {
    /// Relates the next part to the results of [`ResponseHandler::part`].
    ghost hears: { Self → ResponsePart → Result (Unit {0}) HandlerFault → Self → Type 0 } = { λ _ _ _ _. ⊤ };

    /// Relates the end of the fetch to the state after [`ResponseHandler::over`].
    ghost ends: { Self → Result (Unit {0}) FetchError → Self → Type 0 } = { λ _ _ _. ⊤ };

    /// Called with the next part of the response: an interim head, the head, octets of the body,
    /// or the trailers, in the order of RFC 9113, section 8.1.
    ///
    /// # Errors
    ///
    /// On an error the fetch ends with this fault: nothing more is received or sent, not even
    /// RST_STREAM. The server learns of it only when the caller closes the connection.
    fn part(&mut self, alloc: Global, part: ResponsePart) -> Result<(), HandlerFault>
        ensures { hears self.old part result self.new };

    /// Called once, last: the response is complete, or the fetch ended with this error.
    fn over(&mut self, outcome: Result<(), FetchError>)
        ensures { ends self.old outcome self.new };
}
