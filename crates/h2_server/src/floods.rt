//! Counts what may be a flood, against the budget of a connection.

ghost use Rattle.std.specs.Prelude.{◌≡◌};
ghost use Rattle.h2_server.specs.Floods.{budget_after, flood_of, is_near_flood, new_budget};

use crate::limits::FloodLimits;

/// The kind of flood that exceeds its budget.
#[derive(Clone, Copy, Debug, PartialEq, Eq)]
pub enum Flood {
    /// RST_STREAM frames.
    Resets,
    /// Empty frames without effect.
    Empty,
    /// Streams that the server resets for a fault of the client: malformed requests, other stream
    /// errors, and streams above a limit.
    Refused,
    /// Replies to PING and SETTINGS.
    Replies,
}

/// What was counted since the connection began.
#[derive(Clone, Copy, Debug, PartialEq, Eq)]
pub struct FloodCounts {
    /// RST_STREAM frames.
    pub resets: u32,
    /// Empty frames without effect.
    pub empty: u32,
    /// Streams that the server has reset for a fault of the client: malformed requests, other
    /// stream errors, and streams above a limit.
    pub refused: u32,
    /// Octets of replies to PING and SETTINGS.
    pub replies: u64,
}

/// The start of the current period, and the counts at that time.
#[derive(Clone, Copy, Debug, PartialEq, Eq)]
pub struct FloodBudget {
    began: u64,
    before: FloodCounts,
}

impl FloodBudget {
    /// Creates the budget of a new connection, at the time `now`.
    pub fn new(now: u64) -> FloodBudget
        ensures { result ≡ new_budget now }
    {
        FloodBudget {
            began: now,
            before: FloodCounts {
                resets: 0,
                empty: 0,
                refused: 0,
                replies: 0,
            },
        }
    }

    /// Returns the budget at the time `now`: a new period starts once the current one is over.
    pub fn after(self, counts: FloodCounts, limits: &FloodLimits, now: u64) -> FloodBudget
        ensures { result ≡ budget_after self counts limits.now.stretch now }
    {
        if now.saturating_sub(self.began) >= limits.stretch {
            return FloodBudget {
                began: now,
                before: counts,
            };
        }
        self
    }

    // rule: hosts (own) What is above its budget in a stretch is a flood
    // contract: hosts (own) What is above its budget in a stretch is a flood
    /// Returns the first kind, in the order of [`Flood`], that exceeds its budget in this period.
    pub fn above(&self, counts: FloodCounts, limits: &FloodLimits) -> Option<Flood>
        ensures { result ≡ flood_of self.now.before counts limits.now }
    {
        if counts.resets.saturating_sub(self.before.resets) > limits.resets {
            Some(Flood::Resets)
        } else if counts.empty.saturating_sub(self.before.empty) > limits.empty {
            Some(Flood::Empty)
        } else if counts.refused.saturating_sub(self.before.refused) > limits.refused {
            Some(Flood::Refused)
        } else if counts.replies.saturating_sub(self.before.replies) > limits.replies {
            Some(Flood::Replies)
        } else {
            None
        }
    }

    /// Whether more than a tenth of some budget is spent in this period.
    pub fn is_near(&self, counts: FloodCounts, limits: &FloodLimits) -> bool
        ensures { result ≡ is_near_flood self.now.before counts limits.now }
    {
        let before = &self.before;
        counts.resets.saturating_sub(before.resets) > limits.resets / 10
            || counts.empty.saturating_sub(before.empty) > limits.empty / 10
            || counts.refused.saturating_sub(before.refused) > limits.refused / 10
            || counts.replies.saturating_sub(before.replies) > limits.replies / 10
    }
}
