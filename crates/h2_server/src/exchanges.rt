//! The exchanges of a connection: passes events to its handler, and says what is due then.

ghost use Rattle.std.specs.Prelude.{◌≡◌, [], Err, None, OnErr, OnOk, length};
ghost use Rattle.h2_spec_log.specs.Acts.{Answer, Fail};
ghost use Rattle.h2_ends.specs.Loans.{event_handed};
ghost use Rattle.h2_ends.specs.Represents.{EndAnswers};
ghost use Rattle.h2_server.specs.declared.handler.HandlerFault.TheVariants.{Failed};
ghost use Rattle.h2_server.specs.Activity.{IsBusy};
ghost use Rattle.h2_server.specs.Exchanges.{IsEmptied, IsSameHandling, handling_of, exchange_at};
ghost use Rattle.h2_server.specs.Exchanges.{exchange_kept};
ghost use Rattle.h2_server.specs.Parts.{FitsPart};
ghost use Rattle.h2_server.specs.Steps.{Handles};
ghost use Rattle.h2_server.specs.Telling.{AskedPart, BeginsAny, ChangesAny, EndsAny, EndsEach};
ghost use Rattle.h2_server.specs.Telling.{Tells, ToldBody, ToldTrailers};

use crate::exchange::Exchange;
use crate::handler::{Cause, Handler, HandlerFault, Part};
use crate::telling::{ask_part, tell_body, tell_head, tell_trailers};
use h2_ends::{Code, EndEvent, FieldList, Server};
use h2_message::list_asks_head;
use h2_numbers::NumberMap;
use std::alloc::{AllocError, Global};

/// A number above that of each stream.
pub(crate) const NO_STREAM: u32 = u32::MAX;

/// What is due after an event was passed to a handler.
#[derive(Clone, Copy, Debug)]
pub(crate) enum Due {
    /// Nothing; there may be another event.
    Again,
    /// Nothing: all octets were used, and there is no event.
    Done,
    /// The response of this exchange is to be sent, as far as it can be.
    Answer {
        /// The stream.
        id: u32,
    },
}

impl Due {
    /// Whether all octets were used, and there is no event.
    pub(crate) fn is_done(self) -> bool {
        matches!(self, Due::Done)
    }
}

/// Totals over the exchanges of a connection.
#[derive(Clone, Copy, Debug)]
pub(crate) struct Totals {
    /// The octets that the handler and the responses hold.
    pub(crate) held: usize,
    /// The number of exchanges whose request is incomplete.
    pub(crate) reading: usize,
    /// The body octets that the handler has not used.
    pub(crate) unused: u64,
    /// The number of requests received.
    pub(crate) requests: u64,
    /// The number of body octets received.
    pub(crate) body: u64,
    /// The number of streams that this end has reset for a fault of the peer.
    pub(crate) refused: u32,
    /// The number of body octets sent.
    pub(crate) sent: u64,
}

/// The open exchanges of a server, by stream, with the handler of its requests. A
/// [`Connection`](crate::Connection) is made of a server and these, and adds deadlines and budgets.
#[derive(Drop)]
pub(crate) struct Exchanges<H: Handler> {
    pub(crate) alloc: Global,
    pub(crate) handler: H,
    pub(crate) kept: NumberMap<Exchange<H::Work>>,
    pub(crate) totals: Totals,
    /// The stream whose handler was asked last for a part.
    pub(crate) asked: u32,
    /// A number below which no response waits for the output: that of the first stream on which
    /// one may, or else [`NO_STREAM`].
    pub(crate) first_waiting: u32,
    /// A number below which no exchange is open whose response the server was given whole: that of
    /// the first stream on which one may be, or else [`NO_STREAM`].
    pub(crate) first_given: u32,
    /// Whether more may be sent: of complete bodies, or credit that was held back.
    pub(crate) more: bool,
}

impl<H: Handler> Exchanges<H> {
    /// Creates the exchanges of a new server: it has none yet.
    pub(crate) fn new(alloc: Global, handler: H) -> Exchanges<H>
        ensures { handling_of result ≡ record { handler = handler; entries = [] } }
    {
        Exchanges {
            alloc,
            handler,
            kept: NumberMap::new(alloc),
            totals: Totals {
                held: 0,
                reading: 0,
                unused: 0,
                requests: 0,
                body: 0,
                refused: 0,
                sent: 0,
            },
            asked: 0,
            first_waiting: NO_STREAM,
            first_given: NO_STREAM,
            more: false,
        }
    }

    /// Passes an event to the handler, and returns what is due.
    ///
    /// # Errors
    ///
    /// [`AllocError`] if an allocation was refused: the handler was not called.
    pub(crate) fn note(&mut self, event: EndEvent<&FieldList, &[u8]>) -> Result<Due, AllocError>
        ensures ok { OnOk result (Tells H.Handler (event_handed event.entry)
            (handling_of self.old) (handling_of self.new)) }
        ensures err { OnErr result (IsSameHandling (handling_of self.old) (handling_of self.new)) }
    {
        match event {
            EndEvent::Head { id, list, end } => {
                self.begin(id, list, end)?;
                Ok(Due::Answer { id })
            }
            EndEvent::Body { id, bytes, end } => {
                self.add(id, bytes, end);
                Ok(Due::Answer { id })
            }
            EndEvent::Trailers { id, list } => {
                self.trail(id, list);
                Ok(Due::Answer { id })
            }
            EndEvent::Reset { id, code, ours } => {
                if ours {
                    self.totals.refused = self.totals.refused.saturating_add(1);
                }
                self.end(id, Cause::Reset { code, ours });
                Ok(Due::Again)
            }
            _ => Ok(Due::Again),
        }
    }

    /// Begins an exchange with the head of a request.
    fn begin(&mut self, id: u32, list: &FieldList, end: bool) -> Result<(), AllocError>
        ensures ok { OnOk result (BeginsAny H.Handler id list.now end (handling_of self.old)
            (handling_of self.new)) }
        ensures err { OnErr result (IsSameHandling (handling_of self.old) (handling_of self.new)) }
    {
        if self.kept.get(id).is_some() {
            return Ok(());
        }
        self.kept
            .insert(id, Exchange::new(end, list_asks_head(list)))?;
        self.totals.requests = self.totals.requests.saturating_add(1);
        if !end {
            self.totals.reading = self.totals.reading.saturating_add(1);
        }
        if let Some(exchange) = self.kept.get_mut(id) {
            tell_head(self.alloc, &mut self.handler, id, exchange, list, end);
            self.totals.count(&self.handler, exchange);
        }
        Ok(())
    }

    /// Passes octets of a body to the handler; they are dropped if the handler keeps nothing of
    /// the request.
    fn add(&mut self, id: u32, bytes: &[u8], end: bool)
        ensures { ChangesAny (ToldBody H.Handler bytes.now end) id (handling_of self.old)
            (handling_of self.new) }
    {
        self.totals.body = self.totals.body.saturating_add(bytes.len() as u64);
        if let Some(exchange) = self.kept.get_mut(id) {
            self.totals.note_end(exchange.whole, end);
            tell_body(self.alloc, &mut self.handler, id, exchange, bytes, end);
            self.totals.count(&self.handler, exchange);
        }
    }

    /// Passes trailers to the handler.
    fn trail(&mut self, id: u32, list: &FieldList)
        ensures { ChangesAny (ToldTrailers H.Handler list.now) id (handling_of self.old)
            (handling_of self.new) }
    {
        if let Some(exchange) = self.kept.get_mut(id) {
            self.totals.note_end(exchange.whole, true);
            tell_trailers(self.alloc, &mut self.handler, id, exchange, list);
            self.totals.count(&self.handler, exchange);
        }
    }

    /// Asks the handler for a part of a response that fits `room`.
    pub(crate) fn part(&mut self, id: u32, room: &mut [u8]) -> Result<Part, HandlerFault>
        ensures asks { ChangesAny (AskedPart H.Handler room.new result) id
            (handling_of self.old) (handling_of self.new) }
        ensures none { exchange_at id self.old.kept.entries ≡ None → result ≡ Err Failed }
        ensures length { length room.new ≡ length room.old }
        ensures fits { FitsPart (length room.old) result }
    {
        let Some(exchange) = self.kept.get_mut(id) else {
            return Err(HandlerFault::Failed);
        };
        let part = ask_part(self.alloc, &mut self.handler, exchange, room);
        self.totals.count(&self.handler, exchange);
        part
    }

    /// Ends an exchange, if there is one.
    pub(crate) fn end(&mut self, id: u32, cause: Cause)
        ensures { EndsAny H.Handler id cause (handling_of self.old) (handling_of self.new) }
    {
        let Some(exchange) = self.kept.get_mut(id) else {
            return;
        };
        self.totals.forget(exchange);
        let work = exchange.work.take();
        self.kept.remove(id);
        if let Some(work) = work {
            self.handler.over(work, cause);
        }
    }

    /// Ends all exchanges, since the connection is over.
    pub(crate) fn end_all(&mut self)
        ensures ends { EndsEach H.Handler (handling_of self.new) (handling_of self.old) }
        ensures none { IsEmptied (handling_of self.new) }
    {
        let mut above = 0u32;
        while let Some(id) = self.kept.next_above(above) {
            above = id;
            self.end(id, Cause::Closed);
        }
        self.end(0, Cause::Closed);
    }

    /// Fails the connection with this error code, unless it has failed already, and ends all
    /// exchanges.
    pub(crate) fn fail(&mut self, server: &mut Server, code: Code)
        ensures handles { Handles H.Handler [] server.old.end (handling_of self.old)
            server.new.end (handling_of self.new) }
        ensures none { IsEmptied (handling_of self.new) }
        ensures failed { (answer : Answer) × EndAnswers server.old.end (Fail code) answer
            server.new.end }
    {
        // Refused only if the connection has failed before.
        let _ = server.fail(code);
        self.end_all();
    }

    /// Returns the number of requests received, up to 2^64 - 1.
    pub(crate) fn requests(&self) -> u64
        ensures { result ≡ self.now.totals.requests }
    {
        self.totals.requests
    }

    /// Whether any exchange is open.
    pub(crate) fn is_busy(&self) -> bool
        ensures { IsBusy self.now.kept.entries result }
    {
        self.kept.next_above(0).is_some()
    }
}

impl Totals {
    /// Recounts what the handler holds of an exchange and has not used.
    pub(crate) fn count<H: Handler>(&mut self, handler: &H, exchange: &mut Exchange<H::Work>)
        ensures { exchange_kept exchange.new ≡ exchange_kept exchange.old }
    {
        let (held, unused) = match &exchange.work {
            Some(work) => (handler.held(work), handler.unused(work)),
            None => (0, 0),
        };
        let held = held.saturating_add(exchange.given);
        self.held = self.held.saturating_sub(exchange.held).saturating_add(held);
        let others = self.unused.saturating_sub(u64::from(exchange.unused));
        self.unused = others.saturating_add(u64::from(unused));
        exchange.held = held;
        exchange.unused = unused;
    }

    /// Counts a request that has become complete.
    fn note_end(&mut self, whole: bool, end: bool) {
        if end && !whole {
            self.reading = self.reading.saturating_sub(1);
        }
    }

    /// Removes an exchange from the totals.
    fn forget<W>(&mut self, exchange: &Exchange<W>) {
        self.held = self.held.saturating_sub(exchange.held);
        self.unused = self.unused.saturating_sub(u64::from(exchange.unused));
        self.note_end(exchange.whole, true);
    }
}
