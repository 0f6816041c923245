//! How a connection ends.

ghost use Rattle.std.specs.Prelude.{◌≡◌, [], false, true};
ghost use Rattle.h2_frame.specs.declared.code.Code.TheVariants.{EnhanceYourCalm};
ghost use Rattle.h2_server.specs.Connections.{GoesAway, KeepsExchanges, KeepsTold, MakesOwn};
ghost use Rattle.h2_server.specs.Connections.{phase_left};
ghost use Rattle.h2_server.specs.Exchanges.{handling_of};
ghost use Rattle.h2_server.specs.Failing.{FailsServerWith, KeepsUpSo, StopsAt, StopsByCode};
ghost use Rattle.h2_server.specs.Phases.{is_phase_open, is_phase_over};
ghost use Rattle.h2_server.specs.Telling.{EndsEach};
ghost use Rattle.h2_server.specs.Turns.{LosesSo};
ghost use Rattle.h2_server.specs.declared.connection.Phase.TheVariants as phases;
ghost use Rattle.h2_server.specs.declared.reason.CloseReason.TheVariants as reasons;
ghost use Rattle.h2_server.specs.declared.stop.Stop.TheVariants as stops;

use crate::connection::{Connection, Phase};
use crate::handler::Handler;
use crate::reason::CloseReason;
use crate::stop::Stop;
use h2_ends::Code;
use h2_host::Bound;

impl<H: Handler> Connection<H> {
    /// Fails the connection with a code, unless it has failed before, ends its exchanges, and drops
    /// the input that was kept.
    pub(crate) fn fail(&mut self, code: Code, why: CloseReason)
        ensures makes { MakesOwn H.Handler [] self.old self.new }
        ensures told { KeepsTold self.old self.new }
        ensures failed { FailsServerWith code self.old self.new }
        ensures phase { self.new.phase ≡ phases.Failing why self.old.watch.time }
        ensures readiness { self.new.readiness ≡ self.old.readiness }
        ensures watch { self.new.watch ≡ self.old.watch }
    {
        self.exchanges.fail(&mut self.server, code);
        self.kept.clear();
        self.used = 0;
        self.phase = Phase::Failing {
            why,
            since: self.watch.time,
        };
    }

    // rule: hosts (own) A connection that is asked to end sends GOAWAY
    /// Begins a graceful shutdown, if it is open.
    pub(crate) fn go_away(&mut self, why: CloseReason)
        ensures makes { MakesOwn H.Handler [] self.old self.new }
        ensures told { KeepsTold self.old self.new }
        ensures goes_away { GoesAway self.old self.new }
        ensures kept { KeepsExchanges self.old self.new }
        ensures rest { is_phase_open self.old.phase ≡ false → self.new ≡ self.old }
        ensures phase { phase_left self.old.phase why self.old.watch.time self.new.phase }
        ensures up { KeepsUpSo self.old self.new }
        ensures readiness { self.new.readiness ≡ self.old.readiness }
        ensures watch { self.new.watch ≡ self.old.watch }
    {
        if !matches!(self.phase, Phase::Open) {
            return;
        }
        if self.server.go_away().is_err() {
            self.fail(Code::NoError, why);
            return;
        }
        self.phase = Phase::Ending {
            why,
            since: self.watch.time,
        };
    }

    // rule: hosts (own) A connection ends for what is above its budget
    /// Ends a connection that cannot go on: with the code with which its server has failed, or with
    /// ENHANCE_YOUR_CALM after too many resets.
    pub(crate) fn stop(&mut self, stop: Stop)
        ensures makes { MakesOwn H.Handler [] self.old self.new }
        ensures told { KeepsTold self.old self.new }
        ensures phase { StopsAt stop self.old self.new.phase }
        ensures code { StopsByCode self.old self.new }
        ensures readiness { self.new.readiness ≡ self.old.readiness }
        ensures watch { self.new.watch ≡ self.old.watch }
    {
        match stop {
            Stop::Failed => self.stop_failed(),
            Stop::TooManyResets => {
                let code = Code::EnhanceYourCalm;
                self.fail(code, CloseReason::Failed(code));
            }
            Stop::Memory => self.refuse(Bound::Memory),
        }
    }

    /// Ends a connection whose server has failed, with its code; where the server has not failed,
    /// an allocation was refused.
    fn stop_failed(&mut self)
        ensures makes { MakesOwn H.Handler [] self.old self.new }
        ensures told { KeepsTold self.old self.new }
        ensures phase { StopsAt stops.Failed self.old self.new.phase }
        ensures code { StopsByCode self.old self.new }
        ensures readiness { self.new.readiness ≡ self.old.readiness }
        ensures watch { self.new.watch ≡ self.old.watch }
    {
        match self.server.conn().failed() {
            Some(code) => self.fail(code, CloseReason::Failed(code)),
            None => self.refuse(Bound::Memory),
        }
    }

    // rule (contract): hosts (own) A connection that is refused is over and holds none
    /// Refuses the connection: it is closed at once.
    pub(crate) fn refuse(&mut self, bound: Bound)
        ensures makes { MakesOwn H.Handler [] self.old self.new }
        ensures told { KeepsTold self.old self.new }
        ensures phase { self.new.phase ≡ phases.Over (reasons.Refused bound) }
        ensures readiness { self.new.readiness ≡ self.old.readiness }
        ensures watch { self.new.watch ≡ self.old.watch }
        ensures calm { FailsServerWith EnhanceYourCalm self.old self.new }
    {
        self.fail(Code::EnhanceYourCalm, CloseReason::Refused(bound));
        self.finish(CloseReason::Refused(bound));
    }

    /// Closes the connection, and tells its handler that each exchange is over.
    pub(crate) fn finish(&mut self, why: CloseReason)
        ensures makes { MakesOwn H.Handler [] self.old self.new }
        ensures told { KeepsTold self.old self.new }
        ensures server { self.new.server ≡ self.old.server }
        ensures ends { EndsEach H.Handler (handling_of self.new.exchanges)
            (handling_of self.old.exchanges) }
        ensures phase { self.new.phase ≡ phases.Over why }
        ensures readiness { self.new.readiness ≡ self.old.readiness }
        ensures watch { self.new.watch ≡ self.old.watch }
    {
        self.exchanges.end_all();
        self.kept.clear();
        self.used = 0;
        self.phase = Phase::Over(why);
    }

    /// Closes the connection, unless it is closed.
    pub(crate) fn finish_up(&mut self, why: CloseReason)
        ensures makes { MakesOwn H.Handler [] self.old self.new }
        ensures loses { LosesSo H.Handler self.old self.new }
        ensures told { KeepsTold self.old self.new }
        ensures over { is_phase_over self.old.phase ≡ true → self.new.phase ≡ self.old.phase }
        ensures phase { is_phase_over self.old.phase ≡ false → self.new.phase ≡ phases.Over why }
        ensures readiness { self.new.readiness ≡ self.old.readiness }
        ensures watch { self.new.watch ≡ self.old.watch }
    {
        if self.is_over() {
            return;
        }
        self.finish(why);
    }

    // rule (contract): hosts (own) A connection that is refused is over and holds none
    /// Refuses the connection, unless it is closed.
    pub(crate) fn refuse_up(&mut self, bound: Bound)
        ensures makes { MakesOwn H.Handler [] self.old self.new }
        ensures told { KeepsTold self.old self.new }
        ensures over { is_phase_over self.old.phase ≡ true → self.new.phase ≡ self.old.phase }
        ensures phase { is_phase_over self.old.phase ≡ false
            → self.new.phase ≡ phases.Over (reasons.Refused bound) }
        ensures calm { is_phase_over self.old.phase ≡ false
            → FailsServerWith EnhanceYourCalm self.old self.new }
        ensures readiness { self.new.readiness ≡ self.old.readiness }
        ensures watch { self.new.watch ≡ self.old.watch }
    {
        if self.is_over() {
            return;
        }
        self.refuse(bound);
    }
}
