//! The calls of a connection.

ghost use Rattle.std.specs.Prelude.{◌≡◌, [], OnErr, OnOk, false, length, true};
ghost use Rattle.h2_host.specs.declared.party.Own.TheVariants as owns;
ghost use Rattle.h2_server.specs.ConnectionSteps.{ChangesExchanges, Expires, Ticks};
ghost use Rattle.h2_server.specs.Connections.{Calls, ConnectionLeaves, ConnectionWidens, IsCounted};
ghost use Rattle.h2_server.specs.Deferring.{ResetsBy, RespondsBy};
ghost use Rattle.h2_server.specs.Phases.{is_phase_down, is_phase_over};
ghost use Rattle.h2_server.specs.Turns.{LosesSo, Turns, Wrote, WroteUp};

use crate::connection::Connection;
use crate::deferring::ExchangeRefusal;
use crate::handler::{Handler, Reply};
use crate::reason::CloseReason;
use h2_ends::Code;
use h2_host::Bound;

impl<H: Handler> Connection<H> {
    /// Says that the transport can be read (`reads`) or written (`writes`); an argument that is
    /// false changes nothing. From the next turn on, the handler is asked again for the parts for
    /// which it returned [`Part::Later`](crate::Part::Later).
    pub fn set_ready(&mut self, reads: bool, writes: bool)
        ensures { Calls H.Handler (owns.Ready reads writes) [] self.old self.new }
    {
        self.wake(reads, writes);
        self.note();
    }

    // contract: hosts (own) A connection uses the octets that came to it, in order
    // contract: hosts (own) A connection ends for what is above its budget
    // contract: hosts (own) A connection that ends goes on as long as bodies move
    /// Takes octets that were received; [`Connection::read_size`] says how many to read. If there
    /// are fewer than 16,384, the transport is taken to have no more for now. A call takes at most
    /// 16 parts of requests (passed to the handler or dropped): one if more than a tenth of a flood
    /// budget is spent, none while 65,536 octets of output or more wait or earlier input is still
    /// kept. Octets that it does not take are kept for the next turns. A connection that is down
    /// drops all octets.
    ///
    /// If the server fails, the connection fails with its code ([`CloseReason::Failed`]); after
    /// 1,000 resets, with ENHANCE_YOUR_CALM.
    pub fn receive(&mut self, octets: &[u8])
        ensures { Calls H.Handler owns.Came octets.now self.old self.new }
    {
        self.take_input(octets);
        self.note();
    }

    /// Says that nothing was received: the transport cannot be read now. Credit that was held back
    /// is returned in the next turn, for which the connection is ready unless 65,536 octets of
    /// output or more wait.
    pub fn receive_none(&mut self)
        ensures calls { Calls H.Handler owns.NoneCame [] self.old self.new }
        ensures turn { is_phase_down self.new.phase ≡ false → self.new.exchanges.more ≡ true }
    {
        self.readiness.reads = false;
        self.exchanges.more = true;
        self.note();
    }

    /// Says that the client has ended its side. An open connection is closed once everything that
    /// can be sent has been sent, and no response or part of one is still to be given: a deferred
    /// response, and a part for which the handler returned [`Part::Later`](crate::Part::Later), are
    /// waited for. A client that is gone may look the same: if you know better, call
    /// [`Connection::lose`].
    pub fn receive_end(&mut self)
        ensures { Calls H.Handler owns.Ended [] self.old self.new }
    {
        self.readiness.ended = true;
        self.readiness.reads = false;
        self.note();
    }

    /// The connection's turn: takes input that was kept, and queues what can be sent, in this
    /// order: credit; the responses that waited because the output was full; up to 16,384 octets of
    /// each complete body; one part of one response, for which it asks the handler; and RST_STREAM
    /// with NO_ERROR for refused requests that are incomplete and whose response is in the output.
    ///
    /// If the transport has no more input for now (the last [`Connection::receive`] got fewer than
    /// 16,384 octets, or [`Connection::receive_none`] was called), credit is returned for all that
    /// the handler has used, unless 65,536 octets or more of output wait; otherwise only if it is
    /// due.
    ///
    /// `room` is scratch space for a part of a response, of which at most the first 65,536 octets
    /// are used. If it is empty, the handler is asked for no part, and the connection stays ready
    /// while there is a part to ask for.
    ///
    /// If the server fails, the connection fails with its code ([`CloseReason::Failed`]); after
    /// 1,000 resets, with ENHANCE_YOUR_CALM.
    pub fn advance(&mut self, room: &mut [u8])
        ensures calls { Calls H.Handler owns.Turn [] self.old self.new }
        ensures turns { Turns H.Handler self.old self.new }
        ensures room { length room.new ≡ length room.old }
    {
        self.turn(room);
        self.note();
    }

    // contract: hosts (own) A connection gives out what has gone of its output, and nothing else
    /// Removes `count` octets of the output, which were written; at most as many as are queued. A
    /// closed connection keeps its output. If credit has to be queued first, and memory for it is
    /// refused, the connection is closed; after a turn that can be only if 65,536 octets or more of
    /// output waited.
    pub fn written(&mut self, count: usize)
        ensures calls { Calls H.Handler (owns.Went count) [] self.old self.new }
        ensures wrote { Wrote H.Handler count self.old self.new }
        ensures up { WroteUp count self.old self.new }
    {
        self.take_away(count);
        self.note();
    }

    /// Says that nothing was written: the transport cannot be written now.
    pub fn written_none(&mut self)
        ensures { Calls H.Handler owns.NoneWent [] self.old self.new }
    {
        self.readiness.writes = false;
        self.note();
    }

    // contract: handlers (own) Of each exchange a handler learns once that it is over, and why
    /// Says that the transport has failed: the connection is closed, and its exchanges are over. A
    /// closed connection stays as it is.
    pub fn lose(&mut self)
        ensures calls { Calls H.Handler owns.Lost [] self.old self.new }
        ensures loses { LosesSo H.Handler self.old self.new }
        ensures over { is_phase_over self.new.phase ≡ true }
    {
        self.finish_up(CloseReason::Lost);
        self.note();
    }

    // contract: hosts (own) A connection ends for what has taken too long
    /// Says which time it is, in milliseconds. A time that is earlier than the last one counts as
    /// the last one. What has taken too long ends an open connection ([`CloseReason::Late`]): an
    /// idle one begins a graceful shutdown, as in [`Connection::leave`]; any other fails, with
    /// SETTINGS_TIMEOUT if the opening took too long, and otherwise with ENHANCE_YOUR_CALM. A
    /// closing one is closed once [`closing`](crate::ConnectionLimits::closing) has passed, and
    /// keeps its reason. From the next turn on, the handler is asked again for the parts for which
    /// it returned [`Part::Later`](crate::Part::Later). A deferred response that was not given in
    /// time ([`TimeLimits::deferred`](crate::TimeLimits::deferred)) is replaced by status 504.
    pub fn tick(&mut self, now: u64)
        ensures { Ticks H.Handler now self.old self.new }
    {
        self.pass(now);
        self.note();
        self.expire();
    }

    /// Replaces the deferred responses that were not given in time.
    fn expire(&mut self)
        ensures { Expires self.old self.new }
    {
        let limit = self.watch.limits.times.deferred;
        self.exchanges.expire(limit, self.watch.time);
        self.count();
    }

    // contract: handlers (own) An answer that was deferred is given by a call, once
    /// Gives the response of the exchange on stream `id`, which has none yet (its handler returned
    /// [`Reply::Deferred`], or its request is incomplete), as if its handler had returned `reply`.
    /// It is queued in the next turn, for which the connection is ready unless 65,536 octets of
    /// output or more wait. A body in parts ([`Reply::Parts`]) is asked of the handler. If the
    /// handler gives a response too, that is a second one.
    ///
    /// # Errors
    ///
    /// A refused call drops `reply`, and changes nothing.
    ///
    /// - [`ExchangeRefusal::NoResponse`] for [`Reply::Later`] and [`Reply::Deferred`].
    /// - [`ExchangeRefusal::Over`] if there is no exchange on this stream: it never began, its
    ///   response was sent and its request was complete, its stream was reset, or the connection
    ///   has failed or is closed.
    /// - [`ExchangeRefusal::Answered`] if it has a response, or if a status (such as 504, because
    ///   the response comes too late) or a reset is about to be sent in its place.
    pub fn respond(&mut self, id: u32, reply: Reply) -> Result<(), ExchangeRefusal>
        ensures responds { ChangesExchanges (λ old new. RespondsBy id reply old result new)
            self.old self.new }
        ensures turn { OnOk result (self.new.exchanges.more ≡ true) }
        ensures refused { OnErr result (self.new.exchanges ≡ self.old.exchanges) }
    {
        let responded = self.exchanges.respond(id, reply);
        self.count();
        responded
    }

    // contract: handlers (own) An answer that was deferred is given by a call, once
    /// Resets stream `id` with this code in the next turn, for which the connection is ready unless
    /// 65,536 octets of output or more wait, whether or not its exchange has a response. What waits
    /// of a response is dropped; of two resets in one turn the later one is sent. After 1,000
    /// resets on the connection, the connection is ended instead; but with NO_ERROR nothing happens
    /// then, and no more of the response is sent.
    ///
    /// # Errors
    ///
    /// [`ExchangeRefusal::Over`] if there is no exchange on this stream. Nothing has changed then.
    pub fn reset(&mut self, id: u32, code: Code) -> Result<(), ExchangeRefusal>
        ensures resets { ChangesExchanges (λ old new. ResetsBy id code old result new)
            self.old self.new }
        ensures turn { OnOk result (self.new.exchanges.more ≡ true) }
        ensures refused { OnErr result (self.new.exchanges ≡ self.old.exchanges) }
    {
        let reset = self.exchanges.reset(id, code);
        self.count();
        reset
    }

    // contract: hosts (own) A connection that is refused is over and holds none
    /// Closes the connection at once, since it or all connections together hold too much, or an
    /// allocation was refused. GOAWAY with ENHANCE_YOUR_CALM is queued, unless the connection had
    /// failed before. A closed connection stays as it is.
    pub fn close(&mut self, bound: Bound)
        ensures calls { Calls H.Handler (owns.Refused bound) [] self.old self.new }
        ensures over { is_phase_over self.new.phase ≡ true }
    {
        self.refuse_up(bound);
        self.note();
    }

    // contract: hosts (own) A connection that is asked to end sends GOAWAY
    /// Begins a graceful shutdown: queues GOAWAY with NO_ERROR; pending requests are still
    /// answered. If 65,536 octets of output or more wait, or an allocation is refused, the
    /// connection fails at once with NO_ERROR. A connection that is not open stays as it is.
    pub fn leave(&mut self)
        ensures { ConnectionLeaves H.Handler self.old self.new }
    {
        self.go_away(CloseReason::Asked);
        self.count();
    }

    // contract: 6.9.2 (own) The window of the connection is widened by a call, for good
    /// Lets the client send `count` octets more on the connection, for good; see
    /// [`Server::widen`](h2_ends::Server::widen). Returns false if the call was refused.
    pub fn widen(&mut self, count: u32) -> bool
        ensures widens { ConnectionWidens self.old count result self.new }
        ensures counted { IsCounted self.new }
    {
        let widened = self.server.widen(count);
        self.count();
        widened.is_ok()
    }
}
