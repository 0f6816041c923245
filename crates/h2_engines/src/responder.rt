//! A server that answers each complete request with the request itself.

ghost use Rattle.std.specs.Prelude.{◌≡◌, ◌≤◌, ◌<◌, ◌^◌, [], IfOk, IfErr, length, true};
ghost use Rattle.h2_flow.specs.ConfigValues.{values_of};
ghost use Rattle.h2_spec_log.specs.declared.role.Role.TheVariants as roles;
ghost use Rattle.h2_numbers.specs.Tables.{all_of};
ghost use Rattle.h2_ends.specs.Represents.{EndRepresents, new_end_log};
ghost use Rattle.h2_engines.specs.Answers.{answer_with};
ghost use Rattle.h2_engines.specs.Failures.{IsOfCall, IsOfServer};
ghost use Rattle.h2_engines.specs.Machines.{Serving};
ghost use Rattle.h2_engines.specs.ServerSteps.{ServerAnswers, ServerFinishes, ServerHears};
ghost use Rattle.h2_engines.specs.ServerSteps.{ServerResets, counted_answer};
ghost use Rattle.h2_engines.specs.WithoutLink.{IsServingAlone, ServerPutsOut, ServerTakesIn};

use crate::errors::{error_of_refusal, unless_failed, unless_refused};
use crate::machine::{Heard, Machine, put_out, take_all};
use crate::request::{Next, Request, Requests};
use crate::room::no_link;
use crate::sending::{Credit, send_waiting, write_out};
use h2_conn::Conn;
use h2_ends::{Code, Config, Refusal, Server};
use h2_link::{Link, LinkError};
use std::alloc::Global;

/// A server that answers each complete request with its method, a space, its path, a newline and
/// its body. It does no input or output. A response to HEAD has neither body nor `content-length`.
/// A stream whose request has a body of more than 1,048,576 octets is reset with
/// ENHANCE_YOUR_CALM.
#[derive(Drop)]
pub struct Responder {
    pub(crate) alloc: Global,
    pub(crate) server: Server,
    pub(crate) requests: Requests,
    /// How many requests were answered.
    pub(crate) answered: u32,
}

impl Responder {
    /// Returns a server whose connection preface (RFC 9113, section 3.4) is queued.
    ///
    /// # Errors
    ///
    /// [`LinkError::Memory`] (N3) where an allocation was refused.
    pub fn new(alloc: Global, config: Config) -> Result<Responder, LinkError>
        ensures ok { IfOk result (λ responder. EndRepresents (values_of config)
            responder.server.end (new_end_log roles.Server (values_of config))) }
        ensures requests { IfOk result (λ responder. all_of responder.requests.kept ≡ []) }
        ensures answered { IfOk result (λ responder. responder.answered ≡ 0) }
        ensures alone { IfOk result (λ responder. IsServingAlone (values_of config) responder
            (new_end_log roles.Server (values_of config))) }
        ensures err { IfErr result (λ error. error ≡ LinkError.Memory) }
    {
        let Ok(server) = Server::new(alloc, config) else {
            return Err(LinkError::Memory);
        };
        Ok(Responder {
            alloc,
            server,
            requests: Requests::new(alloc),
            answered: 0,
        })
    }

    /// Hands octets to `take` once, and keeps the parts of requests that are handed out.
    pub(crate) fn hear(&mut self, piece: &[u8]) -> Result<Heard, LinkError>
        ensures hears { ServerHears self.old.server.end self.new.server.end self.old.requests
            self.new.requests piece.now result }
        ensures within { IfOk result (λ heard. heard.used ≤ length piece.now) }
        ensures answered { self.new.answered ≡ self.old.answered }
        ensures err { IfErr result IsOfServer }
    {
        let taken = unless_failed(self.server.take(piece))?;
        let used = taken.used;
        match taken.event {
            None => {
                let next = if used < piece.len() {
                    Next::Again
                } else {
                    Next::Done
                };
                Ok(Heard { used, next })
            }
            Some(event) => {
                let next = self.requests.note(event)?;
                Ok(Heard { used, next })
            }
        }
    }

    // rule: engines (own) A request that is whole is answered once, by method, path and body
    // rule: engines (own) N5 comes only where a write has taken nothing
    /// Answers a complete request.
    pub(crate) fn answer(&mut self, id: u32, request: Request) -> Result<(), LinkError>
        ensures answers { ServerAnswers self.old.server.end self.new.server.end id
            (answer_with request.text.items request.to_head) self.old.answered result }
        ensures count { self.new.answered ≡ counted_answer self.old.answered result }
        ensures requests { self.new.requests ≡ self.old.requests }
        ensures err { IfErr result IsOfCall }
    {
        let Some(answered) = self.answered.checked_add(1) else {
            return Err(LinkError::NoProgress);
        };
        let message = request.into_answer(self.alloc)?;
        match self.server.respond(id, message) {
            Ok(()) => {
                self.answered = answered;
                Ok(())
            }
            Err((_, refusal)) => Err(error_of_refusal(refusal)),
        }
    }

    // rule: engines (own) A request of more than 1,048,576 octets is ENHANCE_YOUR_CALM
    /// Resets a stream whose request is too large.
    pub(crate) fn reset(&mut self, id: u32) -> Result<(), LinkError>
        ensures resets { ServerResets self.old.server.end self.new.server.end id result }
        ensures fits { id < 2 ^ 32 }
        ensures answered { self.new.answered ≡ self.old.answered }
        ensures requests { self.new.requests ≡ self.old.requests }
        ensures err { IfErr result IsOfServer }
    {
        let code = Code::EnhanceYourCalm.number();
        let answer = self.server.reset(id, code);
        match answer {
            Err(Refusal::TooManyResets) => Err(LinkError::Stream(code)),
            _ => unless_refused(answer),
        }
    }

    // rule: engines (own) Without a link a server answers whole requests, a client reads one
    /// Takes all octets of a piece, and answers the requests that they complete.
    ///
    /// # Errors
    ///
    /// - [`LinkError::Stream`] (N2) where the connection failed, and its GOAWAY is queued; or,
    ///   with ENHANCE_YOUR_CALM, where one more stream had to be reset after 1,000 others.
    /// - [`LinkError::Memory`] (N3) where an allocation was refused.
    /// - [`LinkError::NoProgress`] (N5) where so much output waits that a request can't be
    ///   answered or a stream can't be reset. Three more causes are not expected: 2^64 - 1 rounds
    ///   of a loop, 2^32 - 1 responses, and a refusal of a response or a reset for a reason other
    ///   than this one and those of N2 and N3.
    pub fn take_in(&mut self, piece: &[u8]) -> Result<(), LinkError>
        ensures takes { ServerTakesIn self.old self.new piece.now result }
        ensures err { IfErr result IsOfServer }
    {
        let mut link = no_link(self.alloc);
        take_all(self, &mut link, false, piece)?;
        Ok(())
    }

    // rule: engines (own) Without a link a server answers whole requests, a client reads one
    /// Queues WINDOW_UPDATE for all credit that is owed, and as much of the unsent responses as
    /// the windows allow, but no more once 65,536 octets of output wait: the rest is left to the
    /// next call. Then appends at most `count` octets of the output to `out`, fewer only where no
    /// more wait. Returns how many were appended; call it until that is 0. Once the connection has
    /// failed, it still puts out what waits, GOAWAY last.
    ///
    /// # Errors
    ///
    /// [`LinkError::Memory`] (N3) where an allocation was refused; nothing is appended.
    pub fn put_out(&mut self, count: usize, out: &mut Vec<u8>) -> Result<usize, LinkError>
        ensures puts { ServerPutsOut self.old self.new count out.old.items out.new.items result }
        ensures answered { self.new.answered ≡ self.old.answered }
        ensures requests { self.new.requests ≡ self.old.requests }
        ensures err { IfErr result IsOfServer }
    {
        put_out(self, count, out)
    }

    // rule: engines (own) N4 comes only where the input ended early
    /// Returns how many requests were answered, once the input has ended.
    ///
    /// # Errors
    ///
    /// [`LinkError::CutOff`] (N4) where it ended inside the preface or a frame, or while a
    /// stream was active.
    pub(crate) fn finish(&self) -> Result<u32, LinkError>
        ensures finishes { ServerFinishes self.now.server.end self.now.answered result }
        ensures err { IfErr result (λ error. error ≡ LinkError.CutOff) }
    {
        let conn = self.server.conn();
        if conn.held() > 0 || conn.next_live(0).is_some() {
            return Err(LinkError::CutOff);
        }
        Ok(self.answered)
    }
}

impl Machine for Responder {
    ghost held = { λ responder. record {
      end = responder.server.end;
      kept = Serving responder.requests responder.answered;
    } };

    ghost serves = { true };

    fn alloc(&self) -> Global {
        self.alloc
    }

    fn conn(&self) -> &Conn {
        self.server.conn()
    }

    fn take(&mut self, piece: &[u8]) -> Result<Heard, LinkError> {
        self.hear(piece)
    }

    fn act(&mut self, due: Next) -> Result<(), LinkError> {
        match due {
            Next::Answer { id, request } => self.answer(id, request),
            Next::Reset { id } => self.reset(id),
            _ => Ok(()),
        }
    }

    fn send(&mut self) -> Result<(), LinkError> {
        send_waiting(&mut self.server, Credit::All)
    }

    fn give_out(&mut self, count: usize, out: &mut Vec<u8>) -> Result<usize, Refusal> {
        self.server.put_out(count, out)
    }

    fn write_all<L: Link>(&mut self, link: &mut L) -> Result<(), LinkError> {
        write_out(&mut self.server, link)
    }
}
