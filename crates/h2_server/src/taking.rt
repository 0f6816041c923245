//! What a server's exchanges make of input: requests are passed to the handler, and its replies to
//! the server.

ghost use Rattle.std.specs.Prelude.{◌≡◌, ◌≤◌, [], Err, IfErr, IfOk, Ok, length, true};
ghost use Rattle.h2_server.specs.Exchanges.{handling_of};
ghost use Rattle.h2_server.specs.Steps.{CanStopReading, Handles, HandlesPiece, IsSentOn};

use crate::exchange::Stage;
use crate::exchanges::{Due, Exchanges};
use crate::giving::{Given, give};
use crate::handler::{Cause, Handler, ResponseFault};
use crate::stop::Stop;
use h2_ends::{Code, Server};
use std::mem;

/// The result of one call of `take`.
#[derive(Clone, Copy, Debug)]
pub(crate) struct Heard {
    /// The number of octets used.
    used: usize,
    /// What is due.
    due: Due,
}

impl<H: Handler> Exchanges<H> {
    // contract: handlers (own) A handler is told of each stream what was handed out of it, in order
    // contract: handlers (own) What is given as an answer is what its handler gave
    // contract: handlers (own) Of each exchange a handler learns once that it is over, and why
    // contract: handlers (own) A fault of a handler is a 500 before its answer, and a reset in it
    // contract: handlers (own) An answer that breaks a rule is a 500, or a reset once a head went
    // contract: handlers (own) An authority that names a user is a 400 of which no handler is told
    // contract: 8.1 (own) What comes of a request that was refused is dropped
    // contract: HTTP 9.3.2 (own) The body of an answer to HEAD is not sent
    /// Takes octets of input, passes what they contain to the handler, and queues its replies.
    /// Stops when all octets are used, 65,536 octets of output or more wait, or `most` parts of
    /// requests were taken (passed to the handler or dropped). Returns how many octets were used.
    ///
    /// # Errors
    ///
    /// [`Stop`] says why the connection cannot go on.
    pub(crate) fn take_some(
        &mut self,
        server: &mut Server,
        piece: &[u8],
        most: usize,
    ) -> Result<usize, Stop>
        ensures handles { HandlesPiece H.Handler piece.now server.old.end (handling_of self.old)
            server.new.end (handling_of self.new) result }
        ensures within { IfOk result (λ used. used ≤ length piece.now) }
    {
        let mut used = 0usize;
        let mut told = 0usize;
        self.more = true;
        for _ in 0..u64::MAX {
            if server.is_full() || told >= most {
                return Ok(used);
            }
            let heard = self.hear(server, &piece[used..])?;
            used += heard.used;
            if heard.due.is_done() {
                return Ok(used);
            }
            told += self.do_due(server, heard.due)?;
        }
        Ok(used)
    }

    /// Sends the reply that is due, and returns how many were due: 0 or 1.
    fn do_due(&mut self, server: &mut Server, due: Due) -> Result<usize, Stop>
        ensures handles { Handles H.Handler [] server.old.end (handling_of self.old)
            server.new.end (handling_of self.new) }
        ensures one { IfOk result (λ count. count ≤ 1) }
    {
        let Due::Answer { id } = due else {
            return Ok(0);
        };
        self.answer(server, id)?;
        Ok(1)
    }

    // rule: handlers (own) A handler is told of each stream what was handed out of it, in order
    /// Calls `take` once, and passes the event to the handler.
    fn hear(&mut self, server: &mut Server, piece: &[u8]) -> Result<Heard, Stop>
        ensures ok { IfOk result (λ heard. HandlesPiece H.Handler piece.now server.old.end
            (handling_of self.old) server.new.end (handling_of self.new) (Ok heard.used)) }
        ensures err { IfErr result (λ stop. HandlesPiece H.Handler piece.now server.old.end
            (handling_of self.old) server.new.end (handling_of self.new) (Err stop)) }
        ensures within { IfOk result (λ heard. heard.used ≤ length piece.now) }
    {
        let taken = match server.take(piece) {
            Ok(taken) => taken,
            Err(_) => return Err(Stop::Failed),
        };
        let used = taken.used;
        let due = match taken.event {
            Some(event) => self.note(event)?,
            None => due_after(used, piece.len()),
        };
        Ok(Heard { used, due })
    }

    /// Hands the response of an exchange to the server, as far as it can go now, and ends the
    /// exchange once its stream is over. In place of a response that breaks a rule, status 500 or
    /// a reset follows at once. There is nothing to hand on while the handler has not responded.
    pub(crate) fn answer(&mut self, server: &mut Server, id: u32) -> Result<(), Stop>
        ensures { Handles H.Handler [] server.old.end (handling_of self.old)
            server.new.end (handling_of self.new) }
    {
        self.more = true;
        if !self.has_answer(id) {
            return Ok(());
        }
        self.give_next(server, id)?;
        self.give_instead(server, id)?;
        self.end_if_over(server, id);
        self.note_rest(id);
        Ok(())
    }

    /// Notes what is left to do for the exchange on a stream, if there is one: a response that
    /// waits for the output, or to end it once all of the response was sent.
    pub(crate) fn note_rest(&mut self, id: u32)
        ensures same { handling_of self.new ≡ handling_of self.old }
        ensures rest { self.new ≡ record self.old {
          first_waiting = self.new.first_waiting;
          first_given = self.new.first_given;
        } }
    {
        let Some(exchange) = self.kept.get(id) else {
            return;
        };
        match &exchange.stage {
            Stage::Asked | Stage::Parts { .. } => {}
            Stage::Given | Stage::Gone { .. } => self.first_given = self.first_given.min(id),
            _ => self.first_waiting = self.first_waiting.min(id),
        }
    }

    /// Queues the status or the reset that waits on a stream in place of a response, if one does.
    fn give_instead(&mut self, server: &mut Server, id: u32) -> Result<(), Stop>
        ensures { Handles H.Handler [] server.old.end (handling_of self.old)
            server.new.end (handling_of self.new) }
    {
        if !self.has_instead(id) {
            return Ok(());
        }
        self.give_next(server, id)
    }

    // rule: handlers (own) What is given as an answer is what its handler gave
    /// Hands the next piece of a response to the server, by one call, and tells the handler what is
    /// wrong with it.
    fn give_next(&mut self, server: &mut Server, id: u32) -> Result<(), Stop>
        ensures { Handles H.Handler [] server.old.end (handling_of self.old)
            server.new.end (handling_of self.new) }
    {
        let Some(exchange) = self.kept.get_mut(id) else {
            return Ok(());
        };
        let stage = mem::replace(&mut exchange.stage, Stage::Given);
        let (to_head, refused) = (exchange.to_head, exchange.refused);
        let given = give(self.alloc, server, id, to_head, refused, stage)?;
        let Given { stage, fault } = given;
        exchange.stage = stage;
        self.tell_fault(id, fault);
        Ok(())
    }

    /// Whether a status or a reset waits on a stream in place of a response.
    fn has_instead(&self, id: u32) -> bool {
        match self.kept.get(id) {
            Some(exchange) => matches!(&exchange.stage, Stage::Fails { .. } | Stage::Resets(_)),
            None => false,
        }
    }

    /// Tells the handler what is wrong with a response, if anything is.
    pub(crate) fn tell_fault(&self, id: u32, fault: Option<ResponseFault>) {
        if let Some(fault) = fault {
            self.handler.fault(id, fault);
        }
    }

    // rule: 8.1 (own) The stream of a refused request is reset with NO_ERROR after the answer
    /// Resets the stream of a refused request with NO_ERROR, once all of the response was sent,
    /// unless the request is complete.
    pub(crate) fn stop_reading(&mut self, server: &mut Server, id: u32) -> Result<(), Stop>
        ensures { Handles H.Handler [] server.old.end (handling_of self.old)
            server.new.end (handling_of self.new) }
    {
        if !self.may_stop_reading(server, id) {
            return Ok(());
        }
        self.ask_to_stop(server, id);
        self.give_next(server, id)
    }

    /// Whether the request on a stream was refused and is incomplete, and all of its response was
    /// sent.
    fn may_stop_reading(&self, server: &Server, id: u32) -> bool
        ensures { result ≡ true → CanStopReading server.now.end id self.now.kept.entries }
    {
        let Some(exchange) = self.kept.get(id) else {
            return false;
        };
        match &exchange.stage {
            Stage::Given if exchange.refused => is_sent(server, id),
            _ => false,
        }
    }

    /// Lets a reset with NO_ERROR wait on a stream.
    fn ask_to_stop(&mut self, server: &Server, id: u32)
        requires { CanStopReading server.now.end id self.old.kept.entries }
        ensures { Handles H.Handler [] server.now.end (handling_of self.old) server.now.end
            (handling_of self.new) }
    {
        if let Some(exchange) = self.kept.get_mut(id) {
            exchange.stage = Stage::Resets(Code::NoError);
        }
    }

    // rule: handlers (own) Of each exchange a handler learns once that it is over, and why
    /// Ends an exchange whose response was sent and whose stream is over, or which was reset.
    pub(crate) fn end_if_over(&mut self, server: &Server, id: u32)
        ensures { Handles H.Handler [] server.now.end (handling_of self.old) server.now.end
            (handling_of self.new) }
    {
        let Some(exchange) = self.kept.get(id) else {
            return;
        };
        match &exchange.stage {
            Stage::Given if !server.conn().is_active(id) => {
                self.end(id, Cause::Done);
            }
            Stage::Gone { code } => {
                let code = *code;
                self.end(id, Cause::Reset { code, ours: true });
            }
            _ => {}
        }
    }
}

/// Whether a stream is active, and nothing of a complete body waits on it.
fn is_sent(server: &Server, id: u32) -> bool
    ensures { result ≡ true → IsSentOn server.now.end id }
{
    server.conn().is_active(id) && server.unsent(id) == 0
}

/// What is due if there was no event: nothing more once all octets are used.
fn due_after(used: usize, all: usize) -> Due {
    if used < all { Due::Again } else { Due::Done }
}
