//! The timers of a connection, and what takes too long: functions of numbers, which read no clock.

ghost use Rattle.std.specs.Prelude.{◌≡◌};
ghost use Rattle.h2_server.specs.Deadlines.{deadlines_after, is_late, new_deadlines, new_timer};
ghost use Rattle.h2_server.specs.Deadlines.{overdue_of, timer_after};

use crate::limits::TimeLimits;

/// What took too long.
#[derive(Clone, Copy, Debug, PartialEq, Eq)]
pub enum Timeout {
    /// The preface and the first frame.
    Opening,
    /// A frame that has begun, or a field block of several frames.
    Frame,
    /// The body of a request.
    Body,
    /// The peer accepted no output.
    Writing,
    /// No octet of a response's body was sent.
    Answering,
    /// No request came.
    Idle,
}

/// The state and the progress of everything on a connection to which a time limit applies.
#[derive(Clone, Copy, Debug, PartialEq, Eq)]
pub struct Activity {
    /// Whether the first frame was received.
    pub opened: bool,
    /// Whether a frame or a field block has begun and is incomplete; false until the first frame
    /// was received.
    pub in_frame: bool,
    /// The octets of the preface and of complete frames received; 0 within a field block, so that
    /// the limit holds for the block and not for each of its frames.
    pub frames: u64,
    /// Whether some request is incomplete.
    pub reading: bool,
    /// The octets of bodies received.
    pub body: u64,
    /// Whether output is queued.
    pub waits: bool,
    /// The octets of output written.
    pub went: u64,
    /// Whether an open exchange has a response, sent or not.
    pub answering: bool,
    /// The octets of bodies sent.
    pub sent: u64,
    /// Whether an exchange is open.
    pub busy: bool,
    /// The number of requests received.
    pub requests: u64,
}

/// A timer: its start, if it runs, and the progress at that time.
#[derive(Clone, Copy, Debug, PartialEq, Eq)]
pub(crate) struct Timer {
    at: Option<u64>,
    mark: u64,
}

/// The timers of everything that has a time limit.
#[derive(Clone, Copy, Debug, PartialEq, Eq)]
pub struct Deadlines {
    opening: Timer,
    frame: Timer,
    body: Timer,
    writing: Timer,
    answering: Timer,
    idle: Timer,
}

impl Timer {
    /// A timer that is not running.
    fn new() -> Timer
        ensures { result ≡ new_timer }
    {
        Timer { at: None, mark: 0 }
    }

    /// Returns the timer after a step: it starts now if it was not running, or if the progress
    /// grew by `least` or more.
    fn after(self, goes_on: bool, mark: u64, least: u64, now: u64) -> Timer
        ensures { result ≡ timer_after self goes_on mark least now }
    {
        if !goes_on {
            return Timer { at: None, mark };
        }
        if self.at.is_none() || mark.saturating_sub(self.mark) >= least {
            return Timer {
                at: Some(now),
                mark,
            };
        }
        self
    }

    /// Whether it has run for `limit` milliseconds or more; 0 is no limit.
    fn is_late(self, limit: u64, now: u64) -> bool
        ensures { result ≡ is_late self.at limit now }
    {
        is_late(self.at, limit, now)
    }
}

/// Whether `limit` milliseconds or more have passed since this time, if there is one; 0 is no
/// limit.
#[tactic(auto, unfolding(crate::specs::Deadlines::is_late))]
pub(crate) fn is_late(since: Option<u64>, limit: u64, now: u64) -> bool
    ensures { result ≡ is_late since limit now }
{
    match since {
        Some(at) => limit > 0 && now.saturating_sub(at) >= limit,
        None => false,
    }
}

impl Deadlines {
    /// Creates the timers of a new connection.
    pub fn new() -> Deadlines
        ensures { result ≡ new_deadlines }
    {
        Deadlines {
            opening: Timer::new(),
            frame: Timer::new(),
            body: Timer::new(),
            writing: Timer::new(),
            answering: Timer::new(),
            idle: Timer::new(),
        }
    }

    /// Returns the timers after a step with this activity.
    pub fn after(self, activity: Activity, limits: &TimeLimits, now: u64) -> Deadlines
        ensures { result ≡ deadlines_after self activity limits.now.least_body now }
    {
        let p = activity;
        Deadlines {
            opening: self.opening.after(!p.opened, 0, 1, now),
            frame: self.frame.after(p.in_frame, p.frames, 1, now),
            body: self.body.after(p.reading, p.body, limits.least_body, now),
            writing: self.writing.after(p.waits, p.went, 1, now),
            answering: self.answering.after(p.answering, p.sent, 1, now),
            idle: self.idle.after(!p.busy, p.requests, 1, now),
        }
    }

    // rule: hosts (own) What has taken too long is the first of what is late
    // contract: hosts (own) What has taken too long is the first of what is late
    /// Returns the first thing, in the order of [`Timeout`], that has taken too long now.
    pub fn overdue(&self, limits: &TimeLimits, now: u64) -> Option<Timeout>
        ensures { result ≡ overdue_of self.now limits.now now }
    {
        if self.opening.is_late(limits.opening, now) {
            Some(Timeout::Opening)
        } else if self.frame.is_late(limits.frame, now) {
            Some(Timeout::Frame)
        } else if self.body.is_late(limits.body, now) {
            Some(Timeout::Body)
        } else if self.writing.is_late(limits.writing, now) {
            Some(Timeout::Writing)
        } else if self.answering.is_late(limits.answering, now) {
            Some(Timeout::Answering)
        } else if self.idle.is_late(limits.idle, now) {
            Some(Timeout::Idle)
        } else {
            None
        }
    }
}
