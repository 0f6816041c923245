//! The creation of a served connection, and its queries.

ghost use Rattle.std.specs.Prelude.{◌≡◌, ◌≤◌, [], IfErr, IfOk, length, nat_lt, true};
ghost use Rattle.h2_conn.specs.Conn.{octets_queued};
ghost use Rattle.h2_ends.specs.Represents.{EndRepresents, new_end_log};
ghost use Rattle.h2_flow.specs.ConfigValues.{values_of};
ghost use Rattle.h2_host.specs.Readers.{LendsFirst};
ghost use Rattle.h2_host.specs.Turns.{most_taken};
ghost use Rattle.h2_server.specs.Connections.{IsCounted, ReadsNow, TakesNow, WantsTurn};
ghost use Rattle.h2_server.specs.Connections.{input_kept, is_open_and_receiving};
ghost use Rattle.h2_server.specs.Watching.{new_readiness, new_watch};
ghost use Rattle.h2_server.specs.declared.connection.Phase.TheVariants as phases;
ghost use Rattle.h2_server.specs.declared.stop.Stop.TheVariants as stops;
ghost use Rattle.h2_server.specs.Exchanges.{handling_of};
ghost use Rattle.h2_server.specs.Phases.{is_phase_down, is_phase_over, reason_of};
ghost use Rattle.h2_spec_log.specs.declared.role.Role.TheVariants as roles;

use crate::connection::{Connection, Phase};
use crate::exchanges::Exchanges;
use crate::handler::Handler;
use crate::limits::ConnectionLimits;
use crate::reason::CloseReason;
use crate::stop::Stop;
use crate::watch::{Readiness, Watch};
use h2_ends::{Config, Conn, Server};
use h2_host::MOST_TAKEN;
use std::alloc::Global;

impl<H: Handler> Connection<H> {
    /// Creates a connection. Its connection preface (RFC 9113, section 3.4) is queued. `now` is
    /// the time in milliseconds since any fixed point.
    ///
    /// # Errors
    ///
    /// [`Stop::Memory`] if an allocation was refused.
    pub fn new(
        alloc: Global,
        config: Config,
        limits: ConnectionLimits,
        now: u64,
        handler: H,
    ) -> Result<Connection<H>, Stop>
        ensures end { IfOk result (λ connection. EndRepresents (values_of config)
            connection.server.end (new_end_log roles.Server (values_of config))) }
        ensures none { IfOk result (λ connection. handling_of connection.exchanges
            ≡ record { handler = handler; entries = [] }) }
        ensures kept { IfOk result (λ connection. input_kept connection ≡ []) }
        ensures phase { IfOk result (λ connection. connection.phase ≡ phases.Open) }
        ensures readiness { IfOk result (λ connection. connection.readiness ≡ new_readiness) }
        ensures watch { IfOk result (λ connection. connection.watch ≡ new_watch limits now) }
        ensures counted { IfOk result (λ connection. IsCounted connection) }
        ensures err { IfErr result (λ stop. stop ≡ stops.Memory) }
    {
        let Ok(server) = Server::new(alloc, config) else {
            return Err(Stop::Memory);
        };
        let mut connection = Connection {
            server,
            exchanges: Exchanges::new(alloc, handler),
            kept: Vec::new(alloc),
            used: 0,
            readiness: Readiness::new(),
            watch: Watch::new(limits, now),
            phase: Phase::Open,
            holds: 0,
            ready: true,
        };
        connection.count();
        Ok(connection)
    }

    /// Returns the [`Conn`] of the server, for its queries.
    pub fn conn(&self) -> &Conn
        ensures { result.now ≡ self.now.server.end.conn }
    {
        self.server.conn()
    }

    /// Returns why it is closing or closed, or `None` while it is open.
    pub fn why(&self) -> Option<CloseReason>
        ensures { result ≡ reason_of self.now.phase }
    {
        match self.phase {
            Phase::Open => None,
            Phase::Ending { why, .. } | Phase::Failing { why, .. } | Phase::Over(why) => Some(why),
        }
    }

    /// Whether it is closed: then its transport must be closed too.
    pub fn is_over(&self) -> bool
        ensures { result ≡ is_phase_over self.now.phase }
    {
        matches!(self.phase, Phase::Over(_))
    }

    /// Whether it has failed or is closed: then it takes no input.
    pub fn is_down(&self) -> bool
        ensures { result ≡ is_phase_down self.now.phase }
    {
        matches!(self.phase, Phase::Failing { .. } | Phase::Over(_))
    }

    // rule: hosts (own) A connection takes octets while it is up and little of its output waits
    // contract: hosts (own) A connection takes octets while it is up and little of its output waits
    /// Whether it takes input now: its client has not ended its side, no input is kept for a later
    /// turn, it has not failed and is not closed, and fewer than 65,536 octets of its output wait.
    pub fn wants_read(&self) -> bool
        ensures { TakesNow self.now result }
    {
        let may = !self.readiness.ended && self.kept.is_empty();
        let is_up = !self.is_down() && self.server.conn().failed().is_none();
        may && is_up && !self.server.is_full()
    }

    // rule: hosts (own) The frames of a long body are read whole
    // contract: hosts (own) The frames of a long body are read whole
    /// Returns how many octets to read now, at most: 0 if it takes no input
    /// ([`Connection::wants_read`]). Otherwise they are as many as two frames have whose payloads
    /// have 16,384 octets ([`MOST_TAKEN`]), less what is held of an incomplete frame, but never
    /// fewer than one such frame has. So a read that is full ends where a frame ends, if a client
    /// sends a long body in such frames; and a frame that is received whole is not copied before
    /// its handler gets it.
    pub fn read_size(&self) -> usize
        ensures reads { ReadsNow self.now result }
        ensures within { result ≤ most_taken }
    {
        if !self.wants_read() {
            return 0;
        }
        MOST_TAKEN - self.server.conn().held().min(MOST_TAKEN / 2)
    }

    /// Whether output is queued.
    pub fn wants_write(&self) -> bool
        ensures { result ≡ nat_lt 0 (length (octets_queued self.now.server.end.conn)) }
    {
        self.server.conn().waiting() > 0
    }

    /// Whether it has something to do in a turn: input that was kept, or something to send. False
    /// if it has failed or is closed, or if 65,536 octets of its output or more wait.
    pub fn wants_turn(&self) -> bool
        ensures { WantsTurn self.now result }
    {
        if self.is_down() || self.server.is_full() {
            return false;
        }
        !self.kept.is_empty() || self.exchanges.may_send(&self.server)
    }

    /// Returns the first two parts of the queued output, in order. If output is queued, the first
    /// part is not empty.
    pub fn output(&self) -> (&[u8], &[u8])
        ensures { LendsFirst (octets_queued self.now.server.end.conn) result.0.now result.1.now }
    {
        let conn = self.server.conn();
        let first = conn.waiting_from(0);
        (first, conn.waiting_from(first.len()))
    }

    // contract: hosts (own) What a connection holds is its output, input, requests and answers
    /// Returns how many octets it holds that count against the limits of a host: output and input
    /// that wait, an incomplete frame, the bodies of complete responses, and what
    /// [`Handler::held`] returns. 0 once it is closed, although its output is kept.
    pub fn held(&self) -> usize
        ensures { result ≡ self.now.holds }
    {
        self.holds
    }

    /// Returns whether it has something to do: output for a transport that can be written, room
    /// for input from one that can be read, or a turn. A closed connection is ready, so that its
    /// transport gets closed.
    pub fn is_ready(&self) -> bool
        ensures { result ≡ self.now.ready }
    {
        self.ready
    }

    /// Returns the number of requests received, up to 2^64 - 1.
    pub fn requests(&self) -> u64
        ensures { result ≡ self.now.exchanges.totals.requests }
    {
        self.exchanges.requests()
    }

    /// Whether it is open, has received octets of bodies, and some request is incomplete.
    pub fn is_receiving(&self) -> bool
        ensures { result ≡ is_open_and_receiving self.now }
    {
        let totals = &self.exchanges.totals;
        matches!(self.phase, Phase::Open) && totals.body > 0 && totals.reading > 0
    }
}
