//! What is late, and what a flood is.

use h2_server::{
    Activity, Deadlines, Flood, FloodBudget, FloodCounts, FloodLimits, TimeLimits, Timeout,
};

/// A connection on which nothing goes on but that it is open.
const QUIET: Activity = Activity {
    opened: true,
    in_frame: false,
    frames: 0,
    reading: false,
    body: 0,
    waits: false,
    went: 0,
    answering: false,
    sent: 0,
    busy: true,
    requests: 0,
};

// rule (best): hosts (own) What has taken too long is the first of what is late
#[test]
fn a_frame_that_does_not_end_is_late(rt: HostRuntime) {
    let limits = TimeLimits::default();
    let mut progress = QUIET;
    progress.in_frame = true;
    let times = Deadlines::new().after(progress, &limits, 1_000);
    assert!(rt; times.overdue(&limits, 30_999).is_none());
    assert!(rt; times.overdue(&limits, 31_000) == Some(Timeout::Frame));
    // Another frame has begun since.
    progress.frames = 20;
    let times = times.after(progress, &limits, 20_000);
    assert!(rt; times.overdue(&limits, 31_000).is_none());
    let times = times.after(QUIET, &limits, 20_001);
    assert!(rt; times.overdue(&limits, 90_000).is_none());
}

// rule (best): hosts (own) What is above its budget in a stretch is a flood
#[test]
fn what_is_above_its_budget_is_a_flood(rt: HostRuntime) {
    let limits = FloodLimits::default();
    let mut counts = FloodCounts {
        resets: 500,
        empty: 0,
        refused: 0,
        replies: 0,
    };
    let budget = FloodBudget::new(0);
    assert!(rt; budget.above(counts, &limits).is_none() && budget.is_near(counts, &limits));
    counts.resets = 501;
    assert!(rt; budget.above(counts, &limits) == Some(Flood::Resets));
    let budget = budget.after(counts, &limits, 10_000);
    assert!(rt; budget.above(counts, &limits).is_none() && !budget.is_near(counts, &limits));
}
