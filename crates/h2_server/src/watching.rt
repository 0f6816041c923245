//! How a connection watches its deadlines, its flood budget and what it holds.

ghost use Rattle.std.specs.Prelude.{◌≡◌, ◌+◌, ◌*◌, [], Some, max, true};
ghost use Rattle.h2_host.specs.declared.party.Own.TheVariants as owns;
ghost use Rattle.h2_server.specs.Activity.{IsActivity};
ghost use Rattle.h2_server.specs.Connections.{AreCounts, AsksAgain, GoesAway, HasToDo};
ghost use Rattle.h2_server.specs.Connections.{IdleGoesAway, IsAllSent, IsCounted};
ghost use Rattle.h2_server.specs.Connections.{KeepsExchanges, KeepsTold, MakesOwn};
ghost use Rattle.h2_server.specs.Connections.{NotesEnding, NotesFailing, NotesPhase, NotesWatch};
ghost use Rattle.h2_server.specs.Connections.{WatchesBy, phase_late, phase_passed};
ghost use Rattle.h2_server.specs.Connections.{since_moved, watch_moved};
ghost use Rattle.h2_server.specs.Deadlines.{overdue_of};
ghost use Rattle.h2_server.specs.Failing.{IsUpSo, LateFails, LateFailsAt, NotesCode, NotesCodeIn};
ghost use Rattle.h2_server.specs.Phases.{is_phase_failing, is_phase_over};
ghost use Rattle.h2_server.specs.Turns.{KeepsDown, KeepsUp};
ghost use Rattle.h2_server.specs.declared.connection.Phase.TheVariants as phases;
ghost use Rattle.h2_server.specs.declared.deadlines.Timeout.TheVariants as timeouts;

use crate::connection::{Connection, Phase};
use crate::deadlines::{Activity, Timeout};
use crate::floods::FloodCounts;
use crate::handler::Handler;
use crate::reason::CloseReason;
use h2_ends::Code;

/// The octets of the preface and of a frame header (RFC 9113, sections 3.4 and 4.1).
const OPENING: u64 = 33;

impl<H: Handler> Connection<H> {
    /// Notes the time, in milliseconds.
    pub(crate) fn pass(&mut self, now: u64)
        ensures makes { MakesOwn H.Handler [] self.old self.new }
        ensures told { KeepsTold self.old self.new }
        ensures phase { phase_passed self.old.phase self.old.watch.deadlines self.old.watch.limits
            (max self.old.watch.time now) self.new.phase }
        ensures idle { IdleGoesAway (owns.Passed now) self.old self.new }
        ensures late { LateFails (owns.Passed now) self.old self.new }
        ensures asks { AsksAgain (owns.Passed now) self.old self.new }
        ensures readiness { self.new.readiness ≡ self.old.readiness }
        ensures watch { WatchesBy (owns.Passed now) [] self.old self.new.watch }
    {
        let counts = self.counts();
        self.watch.pass(counts, now);
        self.exchanges.ask_again();
        self.end_late();
    }

    /// Closes it if its time to close is over, or begins to if something takes too long.
    fn end_late(&mut self)
        ensures makes { MakesOwn H.Handler [] self.old self.new }
        ensures told { KeepsTold self.old self.new }
        ensures phase { phase_passed self.old.phase self.old.watch.deadlines self.old.watch.limits
            self.old.watch.time self.new.phase }
        ensures idle { overdue_of self.old.watch.deadlines self.old.watch.limits.times
            self.old.watch.time ≡ Some timeouts.Idle → GoesAway self.old self.new }
        ensures late { LateFailsAt self.old.watch.time self.old self.new }
        ensures kept { KeepsExchanges self.old self.new }
        ensures readiness { self.new.readiness ≡ self.old.readiness }
        ensures watch { self.new.watch ≡ self.old.watch }
    {
        match self.phase {
            Phase::Open => self.end_overdue(),
            Phase::Ending { why, since } | Phase::Failing { why, since } => {
                if self.watch.time.saturating_sub(since) >= self.watch.limits.closing {
                    self.finish(why);
                }
            }
            Phase::Over(_) => {}
        }
    }

    // rule: hosts (own) A connection ends for what has taken too long
    /// Ends it if something takes too long.
    fn end_overdue(&mut self)
        ensures makes { MakesOwn H.Handler [] self.old self.new }
        ensures told { KeepsTold self.old self.new }
        ensures phase { phase_late (overdue_of self.old.watch.deadlines self.old.watch.limits.times
            self.old.watch.time) self.old.phase self.old.watch.time self.new.phase }
        ensures idle { overdue_of self.old.watch.deadlines self.old.watch.limits.times
            self.old.watch.time ≡ Some timeouts.Idle → GoesAway self.old self.new }
        ensures late { LateFailsAt self.old.watch.time self.old self.new }
        ensures kept { KeepsExchanges self.old self.new }
        ensures readiness { self.new.readiness ≡ self.old.readiness }
        ensures watch { self.new.watch ≡ self.old.watch }
    {
        let Some(late) = self.watch.overdue() else {
            return;
        };
        match late {
            Timeout::Idle => self.go_away(CloseReason::Late(Timeout::Idle)),
            Timeout::Opening => {
                self.fail(Code::SettingsTimeout, CloseReason::Late(Timeout::Opening));
            }
            other => self.fail(Code::EnhanceYourCalm, CloseReason::Late(other)),
        }
    }

    /// The counts of what the peer sent that may be a flood.
    pub(crate) fn counts(&self) -> FloodCounts
        ensures { AreCounts self.now.server.end.conn self.now.exchanges.totals.refused result }
    {
        let conn = self.server.conn();
        FloodCounts {
            resets: conn.resets_received(),
            empty: conn.empty_frames_received(),
            refused: self.exchanges.totals.refused,
            replies: replies_to(conn.pings_received(), conn.settings_received()),
        }
    }

    // rule: hosts (own) A connection ends for what has taken too long
    /// The state and the progress of everything to which a time limit applies.
    fn activity(&self) -> Activity
        ensures { IsActivity self.now result }
    {
        let conn = self.server.conn();
        let totals = &self.exchanges.totals;
        let frames = conn.place().saturating_sub(conn.held() as u64);
        let opened = frames >= OPENING;
        let in_block = conn.block_stream().is_some();
        Activity {
            opened,
            in_frame: opened && (conn.held() > 0 || in_block),
            frames: if in_block { 0 } else { frames },
            reading: totals.reading > 0,
            body: totals.body,
            waits: conn.waiting() > 0,
            went: self.watch.went,
            answering: self.exchanges.is_answering(),
            sent: totals.sent,
            busy: self.exchanges.is_busy(),
            requests: totals.requests,
        }
    }

    // rule: hosts (own) A connection ends for what is above its budget
    /// What follows from each call: checks whether the server has failed, whether a flood budget is
    /// exceeded (the code is ENHANCE_YOUR_CALM), and whether a client that has ended its side has
    /// got everything, and counts what is held.
    pub(crate) fn note(&mut self)
        ensures makes { MakesOwn H.Handler [] self.old self.new }
        ensures told { KeepsTold self.old self.new }
        ensures up { KeepsUp self.old self.new }
        ensures down { KeepsDown self.old self.new }
        ensures phase { NotesPhase self.old self.new.phase }
        ensures code { NotesCode self.old self.new }
        ensures server_up { IsUpSo self.new }
        ensures readiness { self.new.readiness ≡ self.old.readiness }
        ensures watch { NotesWatch self.old.phase self.old self.new.watch }
        ensures closed { is_phase_over self.old.phase ≡ true
            → self.new.exchanges ≡ self.old.exchanges }
        ensures counted { IsCounted self.new }
    {
        self.note_phase();
        self.count();
    }

    // rule: hosts (own) A connection ends for what is above its budget
    /// Checks after a call whether the connection ends, fails or is closed.
    fn note_phase(&mut self)
        ensures makes { MakesOwn H.Handler [] self.old self.new }
        ensures told { KeepsTold self.old self.new }
        ensures up { KeepsUp self.old self.new }
        ensures down { KeepsDown self.old self.new }
        ensures phase { NotesPhase self.old self.new.phase }
        ensures code { NotesCode self.old self.new }
        ensures server_up { IsUpSo self.new }
        ensures readiness { self.new.readiness ≡ self.old.readiness }
        ensures watch { NotesWatch self.old.phase self.old self.new.watch }
        ensures closed { is_phase_over self.old.phase ≡ true → self.new ≡ self.old }
    {
        match self.phase {
            Phase::Open => self.note_open(),
            Phase::Ending { why, since } => {
                let since = self.restarted(since);
                self.note_ending(why, since);
            }
            Phase::Failing { why, since } => {
                let since = self.restarted(since);
                self.note_failing(why, since);
            }
            Phase::Over(_) => {}
        }
    }

    // rule: hosts (own) A connection ends for what is above its budget
    /// Updates the timers after a call of an open connection, and checks whether its server has
    /// failed, whether a flood budget is exceeded, and whether a client that has ended its side has
    /// got everything.
    fn note_open(&mut self)
        ensures makes { MakesOwn H.Handler [] self.old self.new }
        ensures told { KeepsTold self.old self.new }
        ensures up { KeepsUp self.old self.new }
        ensures phase { self.old.phase ≡ phases.Open → NotesPhase self.old self.new.phase }
        ensures code { self.old.phase ≡ phases.Open
            → NotesCodeIn self.new.phase self.old self.new }
        ensures server_up { IsUpSo self.new }
        ensures readiness { self.new.readiness ≡ self.old.readiness }
        ensures watch { NotesWatch phases.Open self.old self.new.watch }
    {
        let activity = self.activity();
        self.watch.note(activity);
        if let Some(code) = self.server.conn().failed() {
            self.fail(code, CloseReason::Failed(code));
            return;
        }
        if let Some(flood) = self.watch.flood(self.counts()) {
            self.fail(Code::EnhanceYourCalm, CloseReason::Flood(flood));
            return;
        }
        if self.readiness.ended && self.is_sent() {
            self.finish(CloseReason::Ended);
        }
    }

    // rule: hosts (own) A connection ends for what is above its budget
    /// Checks after a call of a connection that shuts down whether its server has failed, its
    /// output is drained, or a flood budget is exceeded.
    fn note_ending(&mut self, why: CloseReason, since: u64)
        ensures makes { MakesOwn H.Handler [] self.old self.new }
        ensures told { KeepsTold self.old self.new }
        ensures up { KeepsUp self.old self.new }
        ensures phase { NotesEnding self.old why since self.new.phase }
        ensures code { NotesCodeIn self.new.phase self.old self.new }
        ensures server_up { IsUpSo self.new }
        ensures readiness { self.new.readiness ≡ self.old.readiness }
        ensures watch { self.new.watch ≡ self.old.watch }
    {
        if let Some(failed) = self.server.conn().failed() {
            self.fail(failed, CloseReason::Failed(failed));
            return;
        }
        if self.server.is_drained() {
            self.finish(why);
            return;
        }
        match self.watch.flood(self.counts()) {
            Some(flood) => self.fail(Code::EnhanceYourCalm, CloseReason::Flood(flood)),
            None => self.phase = Phase::Ending { why, since },
        }
    }

    /// Checks after a call of a connection that has failed whether its output is drained.
    fn note_failing(&mut self, why: CloseReason, since: u64)
        requires { is_phase_failing self.old.phase ≡ true }
        ensures makes { MakesOwn H.Handler [] self.old self.new }
        ensures told { KeepsTold self.old self.new }
        ensures up { KeepsUp self.old self.new }
        ensures server { self.new.server ≡ self.old.server }
        ensures phase { NotesFailing self.old why since self.new.phase }
        ensures readiness { self.new.readiness ≡ self.old.readiness }
        ensures watch { self.new.watch ≡ self.old.watch }
    {
        if self.server.is_drained() {
            self.finish(why);
            return;
        }
        self.phase = Phase::Failing { why, since };
    }

    // rule: hosts (own) A connection that ends goes on as long as bodies move
    /// Returns the time from which `ConnectionLimits::closing` counts: `since`, or the current
    /// time if `ConnectionLimits::least_closing` octets of bodies or more were sent and received
    /// since the last restart, or else since the connection began. After a restart they are
    /// counted anew.
    fn restarted(&mut self, since: u64) -> u64
        ensures since { result ≡ since_moved self.old since }
        ensures rest { self.new ≡ record self.old { watch = watch_moved self.old } }
    {
        let totals = &self.exchanges.totals;
        let moved = totals.sent.saturating_add(totals.body);
        if moved.saturating_sub(self.watch.moved) < self.watch.limits.least_closing {
            return since;
        }
        self.watch.moved = moved;
        self.watch.time
    }

    /// Whether no output waits, no input was kept, nothing more can be sent, and neither a response
    /// nor a part of one is still to be given.
    fn is_sent(&self) -> bool
        ensures { result ≡ true → IsAllSent self.now }
    {
        let waits = self.wants_write() || !self.kept.is_empty();
        !waits && !self.exchanges.may_send(&self.server) && !self.exchanges.is_pending()
    }

    // rule: hosts (own) What a connection holds is its output, input, requests and answers
    /// Stores how many octets it holds, and whether it has something to do: a turn, or a transport
    /// to read or write. A closed connection holds nothing, and is ready.
    pub(crate) fn count(&mut self)
        ensures rest { self.new ≡ record self.old {
          holds = self.new.holds;
          ready = self.new.ready;
        } }
        ensures counted { IsCounted self.new }
    {
        if self.is_over() {
            self.holds = 0;
            self.ready = true;
            return;
        }
        let conn = self.server.conn();
        let own = conn.waiting().saturating_add(conn.held());
        let held = own.saturating_add(self.exchanges.totals.held);
        self.holds = held.saturating_add(self.kept.len());
        self.ready = self.has_to_do();
    }

    /// Whether there is something to do: in a turn, for a transport that can be written, or for
    /// one that can be read.
    fn has_to_do(&self) -> bool
        ensures { HasToDo self.now result }
    {
        let writes = self.readiness.writes && self.wants_write();
        writes || (self.readiness.reads && self.wants_read()) || self.wants_turn()
    }
}

/// The octets of the replies to these PING and SETTINGS frames, 17 and 9 each (RFC 9113,
/// sections 6.7 and 6.5).
fn replies_to(pings: u32, settings: u32) -> u64
    ensures { result ≡ pings * 17 + settings * 9 }
{
    u64::from(pings) * 17 + u64::from(settings) * 9
}
