//! The trait that an application implements: a handler answers the requests of one connection.

ghost use Rattle.std.specs.Prelude.{◌≡◌, ⊤, Bool, List, Result, ℕ, length};
ghost use Rattle.hpack.specs.declared.types.field.Field.{Field};
ghost use Rattle.h2_server.specs.declared.handler.Cause.{Cause};
ghost use Rattle.h2_server.specs.declared.handler.HandlerFault.{HandlerFault};
ghost use Rattle.h2_server.specs.declared.handler.HandlerFault.TheVariants.{Memory, Failed};
ghost use Rattle.h2_server.specs.declared.handler.Part.{Part};
ghost use Rattle.h2_server.specs.declared.handler.Reply.{Reply};
ghost use Rattle.h2_server.specs.Parts.{FitsPart};

use h2_ends::{Code, Field, FieldList, Malformed, Message};
use std::alloc::{AllocError, AllocFailed, Global};
use std::io;
use thiserror::Error;

/// Why a handler cannot go on with an exchange. If it has returned no response, the client gets
/// status 500. If all of the response was passed to the connection, nothing changes, and what is
/// left of it is still sent. Otherwise (for example, parts of the response are still to come, or it
/// waits because the output is full) the stream is reset with INTERNAL_ERROR.
#[derive(Clone, Copy, Debug, PartialEq, Eq, Hash, Error)]
pub enum HandlerFault {
    /// An allocation was refused.
    #[error("out of memory")]
    Memory,
    /// Something else failed, such as a read of a file.
    #[error("the handler failed")]
    Failed,
}

impl From<AllocError> for HandlerFault {
    ghost from_gives = { λ error fault. fault ≡ Memory };

    fn from(_error: AllocError) -> HandlerFault {
        HandlerFault::Memory
    }
}

impl<T: Drop> From<AllocFailed<T>> for HandlerFault {
    ghost from_gives = { λ error fault. fault ≡ Memory };

    fn from(_error: AllocFailed<T>) -> HandlerFault {
        HandlerFault::Memory
    }
}

impl From<io::Error> for HandlerFault {
    ghost from_gives = { λ error fault. fault ≡ Failed };

    fn from(_error: io::Error) -> HandlerFault {
        HandlerFault::Failed
    }
}

/// The reply of a handler to a part of a request.
#[derive(Debug, Drop)]
pub enum Reply {
    /// Nothing now: the response comes with a later call of the handler, or was given before. If
    /// the request is complete and no response was given, status 500 is sent.
    Later,
    /// Nothing now, even if the request is complete: whoever drives the connection gives the
    /// response, by [`Connection::respond`](crate::Connection::respond). Until then return it for
    /// each part of the request. Once a response was given, it is the same as [`Reply::Later`]. If
    /// no response is given in time ([`TimeLimits::deferred`](crate::TimeLimits::deferred)), status
    /// 504 is sent. `serve_handler` has no such call: there the exchange stays open until the
    /// client resets its stream or ends its side of the connection.
    Deferred,
    /// The complete response. A body to HEAD is not sent.
    Whole(Message),
    /// The complete response, such as status 413, to a request whose rest is not wanted. The
    /// response's trailers are not sent; to HEAD, neither is its body. The rest of the request is
    /// dropped as it comes, and the handler is not called with it. If the request is incomplete
    /// once all of the response is in the output, RST_STREAM with NO_ERROR follows, which asks the
    /// client to stop (RFC 9113, section 8.1). After 1,000 resets on the connection none follows.
    Refuse(Message),
    /// The head of a response; the body and the trailers are then asked for with [`Handler::part`].
    /// To HEAD it is the complete response.
    Parts(Vec<Field>),
    /// Resets the stream with this code (RFC 9113, section 7). After 1,000 resets on the
    /// connection, the connection is ended instead; but with NO_ERROR nothing happens then, and the
    /// request gets no response.
    Reset(Code),
}

/// What went wrong with a response.
#[derive(Clone, Copy, Debug, PartialEq, Eq, Error)]
pub enum ResponseFault {
    /// The handler returned an error.
    #[error("{0}")]
    Handler(HandlerFault),
    /// The response breaks this rule of messages (RFC 9113, section 8).
    #[error("{0}")]
    BadMessage(Malformed),
    /// The fields of a head or of trailers exceed 65,536 octets, counting 32 extra for each field.
    #[error("a list of fields is above 65,536 octets")]
    ListTooLarge,
    /// A second response was given before all of the first was passed to the connection. (A later
    /// one is ignored, and is no fault.)
    #[error("a second response was given")]
    SecondResponse,
    /// The request is complete, and no response was given.
    #[error("no response was given")]
    NoResponse,
    /// The response was deferred ([`Reply::Deferred`]), and was not given in time.
    #[error("no response was given in time")]
    TooLate,
}

/// The next part of a response.
#[derive(Debug, Drop)]
pub enum Part {
    /// This many octets of the body are at the start of `room`; more may follow. 0 is the same as
    /// [`Part::Later`].
    Octets(usize),
    /// This many octets of the body are at the start of `room`; they end the response.
    Last(usize),
    /// The trailers, which end the response.
    Trailers(Vec<Field>),
    /// Nothing now. `serve_handler` asks again after its next read; a `Connection` after
    /// `set_ready` and `tick`, so a host when the socket becomes readable or writable, and ten
    /// times a second, also if the client has shut down its side of the connection. (Then
    /// `serve_handler` returns `LinkError::CutOff`, N4.)
    Later,
}

/// Why an exchange is over.
#[derive(Clone, Copy, Debug, PartialEq, Eq, Hash)]
pub enum Cause {
    /// The request was received and the response sent, both complete.
    Done,
    /// The stream was reset by either end. If the response of a [`Reply::Refuse`] was sent and the
    /// client was then asked to stop, `code` is 0 (NO_ERROR) and `ours` is true.
    Reset {
        /// The error code (RFC 9113, section 7).
        code: u32,
        /// Whether this end reset the stream.
        ours: bool,
    },
    /// The connection is over.
    Closed,
}

/// Answers the requests of one connection. `Work` is what it keeps of one exchange (a request and
/// its response). On a host no method should block, since that stops all connections of the host.
/// Where one connection is served (by `serve_handler`, for example), `part` may block, but no
/// other method should.
///
/// An implementor may state its behaviour by five `ghost` relations, `heads`, `bodies`, `trails`,
/// `gives` and `ends`, between the state before a call, the arguments, the result, and the state
/// after it. The default of each relation holds for any call.
pub trait Handler: Drop {
    /// What the handler keeps of one exchange.
    type Work: Drop;

    /// Relates the head of a request to the results of [`Handler::head`].
    ghost heads: { Self → (id : ℕ) → (head : List Field) → (end : Bool)
        → Result (Self.Work × Reply) HandlerFault → Self → Type 0 } = { λ _ _ _ _ _ _. ⊤ };

    /// Relates octets of a body to the results of [`Handler::body`].
    ghost bodies: { Self → Self.Work → (octets : List ℕ) → (end : Bool)
        → Result Reply HandlerFault → Self.Work → Self → Type 0 } = { λ _ _ _ _ _ _ _. ⊤ };

    /// Relates trailers to the results of [`Handler::trailers`].
    ghost trails: { Self → Self.Work → (list : List Field) → Result Reply HandlerFault
        → Self.Work → Self → Type 0 } = { λ _ _ _ _ _ _. ⊤ };

    /// Relates what [`Handler::part`] may return to the octets at the start of `room`.
    ghost gives: { Self → Self.Work → Result Part HandlerFault → (room : List ℕ) → Self.Work
        → Self → Type 0 } = { λ _ _ _ _ _ _. ⊤ };

    /// Relates the end of an exchange to the state after [`Handler::over`].
    ghost ends: { Self → Self.Work → Cause → Self → Type 0 } = { λ _ _ _ _. ⊤ };

    /// Called with the head of a request on stream `id`, unless its `:authority` names a user
    /// (userinfo; RFC 9113, section 8.3.1): then the response is status 400. `end` says whether the
    /// request is complete. A deferred response is given later for this stream.
    ///
    /// # Errors
    ///
    /// On an error the response is status 500.
    fn head(
        &mut self,
        alloc: Global,
        id: u32,
        list: &FieldList,
        end: bool,
    ) -> Result<(Self::Work, Reply), HandlerFault>
        ensures { heads self.old id list.now end result self.new };

    /// Called with octets of a request's body, possibly none. `end` says whether the request is
    /// complete. If you have given a response already, return [`Reply::Later`]. A second response
    /// resets the stream with INTERNAL_ERROR, or is ignored if all of the first was already passed
    /// to the connection.
    ///
    /// # Errors
    ///
    /// [`HandlerFault`] says what the client gets after an error.
    fn body(
        &mut self,
        alloc: Global,
        work: &mut Self::Work,
        octets: &[u8],
        end: bool,
    ) -> Result<Reply, HandlerFault>
        ensures { bodies self.old work.old octets.now end result work.new self.new };

    /// Called with the trailers of a request, which is then complete.
    ///
    /// # Errors
    ///
    /// Those of [`Handler::body`].
    fn trailers(
        &mut self,
        alloc: Global,
        work: &mut Self::Work,
        list: &FieldList,
    ) -> Result<Reply, HandlerFault>
        ensures { trails self.old work.old list.now result work.new self.new };

    /// Writes the next octets of the body to the start of `room`, which has space for at least
    /// one, and for no more than the windows allow. Called only after [`Reply::Parts`].
    ///
    /// # Errors
    ///
    /// On an error the stream is reset with INTERNAL_ERROR.
    fn part(
        &mut self,
        alloc: Global,
        work: &mut Self::Work,
        room: &mut [u8],
    ) -> Result<Part, HandlerFault>
        ensures gives { gives self.old work.old result room.new work.new self.new }
        ensures length { length room.new ≡ length room.old }
        ensures fits { FitsPart (length room.old) result };

    /// Returns how many octets are kept of an exchange: by default none. Called after each call
    /// with this work.
    fn held(&self, _work: &Self::Work) -> usize {
        0
    }

    /// Returns how many octets of the received body are not used yet: by default none. No credit
    /// is returned for these, so the client stops once they fill its window. Called after each call
    /// with this work.
    fn unused(&self, _work: &Self::Work) -> u32 {
        0
    }

    /// Called, for a log, when the handler has returned an error for stream `id`, or its response
    /// cannot be sent: by default it does nothing. In place of a response that breaks a rule of
    /// messages, or whose fields are too large, the client gets status 500, or, once a head was
    /// sent, a reset with INTERNAL_ERROR. A complete request without a response is answered with
    /// status 500, and one whose response was deferred for too long with status 504. A second
    /// response, given before all of the first was passed to the connection, resets the stream with
    /// INTERNAL_ERROR, whether or not the request is complete. [`HandlerFault`] says what the
    /// client gets after an error of the handler.
    fn fault(&self, _id: u32, _fault: ResponseFault) {}

    /// Called once for each `work` that [`Handler::head`] has returned, when its exchange is over.
    /// A connection that is dropped before it is over drops `work`.
    fn over(&mut self, work: Self::Work, cause: Cause)
        ensures { ends self.old work cause self.new };
}
