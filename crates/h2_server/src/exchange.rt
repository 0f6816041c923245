//! The state of one exchange, a request and its response.

ghost use Rattle.std.specs.Prelude.{◌≡◌};
ghost use Rattle.h2_server.specs.Activity.{has_answer};
ghost use Rattle.h2_server.specs.Deferring.{is_deferred, is_expired, is_pending, kept_in_time};
ghost use Rattle.h2_server.specs.Deferring.{kept_reset};
ghost use Rattle.h2_server.specs.Exchanges.{awake, exchange_kept};
ghost use Rattle.h2_server.specs.Stages.{second_answer, stage_after, stage_once_later};
ghost use Rattle.h2_server.specs.Stages.{refused_after, stage_of_fault, stage_reset};
ghost use Rattle.h2_server.specs.Telling.{kept_new};

use crate::deadlines::is_late;
use crate::handler::{HandlerFault, Reply, ResponseFault};
use h2_ends::{Code, Field, Message};
use std::mem;

/// The status of the response to a request whose authority names a user (RFC 9113, section 8.3.1).
pub(crate) const BAD_REQUEST: u16 = 400;

/// The status of the response to a request at which the handler has failed.
pub(crate) const SERVER_ERROR: u16 = 500;

/// The status of the response to a request whose response was deferred for too long (RFC 9110,
/// section 15.6.5).
const GATEWAY_TIMEOUT: u16 = 504;

/// How far the response of an exchange is.
#[derive(Debug, Drop)]
pub(crate) enum Stage {
    /// No reply was given.
    Asked,
    /// A complete response, which waits until the output is not full.
    Answers(Message),
    /// A response with this status and no body waits.
    Fails {
        /// The status.
        status: u16,
    },
    /// The head of a response in parts waits.
    Begins(Vec<Field>),
    /// Trailers wait.
    Trails(Vec<Field>),
    /// A reset waits.
    Resets(Code),
    /// The head was sent, and the handler is asked for parts of the body.
    Parts {
        /// Whether the handler had no part; then it is asked again only after [`Exchange::wake`].
        later: bool,
    },
    /// All of the response was given to the server.
    Given,
    /// This end has reset the stream with this code.
    Gone {
        /// The error code.
        code: u32,
    },
}

/// An exchange.
#[derive(Drop)]
pub(crate) struct Exchange<W> {
    /// What the handler keeps; none if the handler was not called or failed at once.
    pub(crate) work: Option<W>,
    /// Whether the request is complete.
    pub(crate) whole: bool,
    /// Whether the method is HEAD.
    pub(crate) to_head: bool,
    /// Whether the handler has refused the request: the rest is not passed to it.
    pub(crate) refused: bool,
    /// How far the response is.
    pub(crate) stage: Stage,
    /// The length of the response's body, if that was given complete.
    pub(crate) given: usize,
    /// The octets that the handler and the response hold.
    pub(crate) held: usize,
    /// The octets of the request's body that the handler has not used.
    pub(crate) unused: u32,
    /// The time, in milliseconds, at which it was first noted that its response is deferred.
    pub(crate) since: Option<u64>,
}

impl<W> Exchange<W> {
    /// A new exchange, without a reply and without work of its handler.
    pub(crate) fn new(whole: bool, to_head: bool) -> Exchange<W>
        ensures { exchange_kept result ≡ kept_new whole to_head }
    {
        Exchange {
            work: None,
            whole,
            to_head,
            refused: false,
            stage: Stage::Asked,
            given: 0,
            held: 0,
            unused: 0,
            since: None,
        }
    }

    /// Whether a response was given.
    pub(crate) fn has_response(&self) -> bool
        ensures { result ≡ has_answer self.now.stage }
    {
        !matches!(&self.stage, Stage::Asked)
    }

    /// Whether the request is complete, and its response is still to be given.
    pub(crate) fn is_deferred(&self) -> bool
        ensures { result ≡ is_deferred (exchange_kept self.now) }
    {
        self.whole && !self.has_response()
    }

    /// Whether its response is deferred, or a part of it for which the handler returned
    /// [`Part::Later`](crate::Part::Later).
    pub(crate) fn is_pending(&self) -> bool
        ensures { result ≡ is_pending (exchange_kept self.now) }
    {
        self.is_deferred() || matches!(&self.stage, Stage::Parts { later: true })
    }

    // rule: handlers (own) An answer that was deferred for too long is status 504
    /// Notes that it is `now`: a deferred response that has been waited for `limit` milliseconds or
    /// more (0 is no limit) is replaced by status 504. Returns whether it was.
    pub(crate) fn expire(&mut self, limit: u64, now: u64) -> bool
        ensures kept { exchange_kept self.new ≡ kept_in_time limit now (exchange_kept self.old) }
        ensures expired { result ≡ is_expired limit now (exchange_kept self.old) }
        ensures unused { self.new.unused ≡ self.old.unused }
    {
        if !self.is_deferred() {
            return false;
        }
        if self.since.is_none() {
            self.since = Some(now);
            return false;
        }
        if !is_late(self.since, limit, now) {
            return false;
        }
        self.stage = Stage::Fails {
            status: GATEWAY_TIMEOUT,
        };
        true
    }

    /// Lets a reset with this code wait, unless the stream was reset already.
    pub(crate) fn reset(&mut self, code: Code)
        ensures kept { exchange_kept self.new ≡ kept_reset (exchange_kept self.old) code }
        ensures unused { self.new.unused ≡ self.old.unused }
    {
        let stage = mem::replace(&mut self.stage, Stage::Given);
        self.stage = reset(stage, code);
        self.given = 0;
    }

    /// Lets a handler that had no part be asked again.
    pub(crate) fn wake(&mut self)
        ensures { exchange_kept self.new ≡ awake (exchange_kept self.old) }
    {
        if matches!(&self.stage, Stage::Parts { .. }) {
            self.stage = Stage::Parts { later: false };
        }
    }

    /// What is wrong with a reply of the handler, if anything is.
    pub(crate) fn fault_of(&self, reply: &Result<Reply, HandlerFault>) -> Option<ResponseFault> {
        let is_asked = matches!(&self.stage, Stage::Asked);
        let is_over = matches!(&self.stage, Stage::Given | Stage::Gone { .. });
        match reply {
            Err(fault) => Some(ResponseFault::Handler(*fault)),
            Ok(Reply::Later) if is_asked && self.whole => Some(ResponseFault::NoResponse),
            Ok(Reply::Later | Reply::Deferred | Reply::Reset(_)) => None,
            Ok(_) if is_asked || is_over => None,
            Ok(_) => Some(ResponseFault::SecondResponse),
        }
    }

    /// Stores a handler's reply.
    pub(crate) fn take(&mut self, reply: Result<Reply, HandlerFault>)
        ensures { exchange_kept self.new ≡ record (exchange_kept self.old) {
          refused = refused_after self.old.refused self.old.stage reply;
          stage = stage_after self.old.whole self.old.stage reply;
        } }
    {
        let stage = mem::replace(&mut self.stage, Stage::Given);
        self.refused = refused_after(self.refused, &stage, &reply);
        self.stage = stage_after(self.whole, stage, reply);
        if let Stage::Answers(message) = &self.stage {
            self.given = message.body.len();
        }
    }
}

// rule: handlers (own) A fault of a handler is a 500 before its answer, and a reset in it
/// The stage after this reply of a handler.
pub(crate) fn stage_after(whole: bool, stage: Stage, reply: Result<Reply, HandlerFault>) -> Stage
    ensures { result ≡ stage_after whole stage reply }
{
    match reply {
        Ok(Reply::Later) => later(whole, stage),
        Ok(Reply::Deferred) => stage,
        Ok(Reply::Reset(code)) => reset(stage, code),
        Ok(Reply::Whole(message) | Reply::Refuse(message)) => match stage {
            Stage::Asked => Stage::Answers(message),
            other => second(other),
        },
        Ok(Reply::Parts(head)) => match stage {
            Stage::Asked => Stage::Begins(head),
            other => second(other),
        },
        Err(_) => fault(stage),
    }
}

// rule: 8.1 (own) What comes of a request that was refused is dropped
/// Whether the rest of a request is not wanted after this reply of a handler.
fn refused_after(refused: bool, stage: &Stage, reply: &Result<Reply, HandlerFault>) -> bool
    ensures { result ≡ refused_after refused stage.now reply.now }
{
    refused || matches!((stage, reply), (Stage::Asked, Ok(Reply::Refuse(_))))
}

/// The stage after a handler has asked for a reset.
fn reset(stage: Stage, code: Code) -> Stage
    ensures { result ≡ stage_reset stage code }
{
    match stage {
        Stage::Gone { code } => Stage::Gone { code },
        _ => Stage::Resets(code),
    }
}

/// The stage after a reply `Later`: status 500 if the request is complete and has no response.
fn later(whole: bool, stage: Stage) -> Stage
    ensures { result ≡ stage_once_later whole stage }
{
    match stage {
        Stage::Asked if whole => Stage::Fails {
            status: SERVER_ERROR,
        },
        other => other,
    }
}

/// The stage after a handler has failed.
fn fault(stage: Stage) -> Stage
    ensures { result ≡ stage_of_fault stage }
{
    match stage {
        Stage::Asked => Stage::Fails {
            status: SERVER_ERROR,
        },
        other => second(other),
    }
}

/// The stage after a second reply.
fn second(stage: Stage) -> Stage
    ensures { result ≡ second_answer stage }
{
    match stage {
        Stage::Given => Stage::Given,
        Stage::Gone { code } => Stage::Gone { code },
        _ => Stage::Resets(Code::InternalError),
    }
}
