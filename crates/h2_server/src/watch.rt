//! What is watched of a connection, and what is known of its transport.

ghost use Rattle.std.specs.Prelude.{◌≡◌, ◌+◌, ◌-◌, ◌^◌, min};
ghost use Rattle.h2_server.specs.Watching.{new_readiness, new_watch, watch_noted, watch_passed};
ghost use Rattle.h2_server.specs.Deadlines.{overdue_of};
ghost use Rattle.h2_server.specs.Floods.{flood_of, is_near_flood};

use crate::deadlines::{Activity, Deadlines, Timeout};
use crate::floods::{Flood, FloodBudget, FloodCounts};
use crate::limits::ConnectionLimits;

/// What is watched of a connection: how long things take, and what may be a flood.
#[derive(Clone, Copy, Debug)]
pub(crate) struct Watch {
    pub(crate) limits: ConnectionLimits,
    pub(crate) deadlines: Deadlines,
    pub(crate) budget: FloodBudget,
    /// The time, in milliseconds.
    pub(crate) time: u64,
    /// The octets of output that were written, up to 2^64 - 1.
    pub(crate) went: u64,
    /// The octets of bodies sent and received when the time to close was last restarted.
    pub(crate) moved: u64,
}

/// What is known of the transport of a connection.
#[derive(Clone, Copy, Debug)]
pub(crate) struct Readiness {
    /// Whether it can be read.
    pub(crate) reads: bool,
    /// Whether it can be written.
    pub(crate) writes: bool,
    /// Whether the client has ended its side.
    pub(crate) ended: bool,
    /// Whether octets were received since the connection's last turn, while none were kept.
    pub(crate) took: bool,
}

impl Watch {
    /// The watch of a new connection.
    pub(crate) fn new(limits: ConnectionLimits, now: u64) -> Watch
        ensures { result ≡ new_watch limits now }
    {
        Watch {
            limits,
            deadlines: Deadlines::new(),
            budget: FloodBudget::new(now),
            time: now,
            went: 0,
            moved: 0,
        }
    }

    /// Notes the time, in milliseconds. One that is earlier than the last one counts as the last
    /// one.
    pub(crate) fn pass(&mut self, counts: FloodCounts, now: u64)
        ensures { self.new ≡ watch_passed self.old counts now }
    {
        self.time = self.time.max(now);
        self.budget = self.budget.after(counts, &self.limits.floods, self.time);
    }

    /// Notes what goes on now.
    pub(crate) fn note(&mut self, activity: Activity)
        ensures { self.new ≡ watch_noted self.old activity }
    {
        self.deadlines = self
            .deadlines
            .after(activity, &self.limits.times, self.time);
    }

    /// Counts octets of output that were written.
    pub(crate) fn count(&mut self, written: usize)
        ensures { self.new ≡ record self.old {
          went = min (2 ^ 64 - 1) (self.old.went + written);
        } }
    {
        self.went = self.went.saturating_add(written as u64);
    }

    /// Returns what has taken too long now.
    pub(crate) fn overdue(&self) -> Option<Timeout>
        ensures { result ≡ overdue_of self.now.deadlines self.now.limits.times self.now.time }
    {
        self.deadlines.overdue(&self.limits.times, self.time)
    }

    /// Returns the kind of flood that exceeds its budget, if any does.
    pub(crate) fn flood(&self, counts: FloodCounts) -> Option<Flood>
        ensures { result ≡ flood_of self.now.budget.before counts self.now.limits.floods }
    {
        self.budget.above(counts, &self.limits.floods)
    }

    /// Whether more than a tenth of some flood limit is used up in this period.
    pub(crate) fn is_near_flood(&self, counts: FloodCounts) -> bool
        ensures { result ≡ is_near_flood self.now.budget.before counts self.now.limits.floods }
    {
        self.budget.is_near(counts, &self.limits.floods)
    }
}

impl Readiness {
    /// The readiness of a new transport: it can be written, and not yet read.
    pub(crate) fn new() -> Readiness
        ensures { result ≡ new_readiness }
    {
        Readiness {
            reads: false,
            writes: true,
            ended: false,
            took: false,
        }
    }
}
