//! Spans of stream numbers.

ghost use Rattle.std.specs.Prelude.{ℕ, ◌≤◌, ◌<◌, ◌^◌, ◌↔◌};
ghost use Rattle.h2_ends.specs.Represents.{InSpan};

use h2_message::Malformed;

/// The numbers from the first to the last one; none where the first is above the last.
#[derive(Clone, Copy, Debug)]
pub(crate) struct Span {
    pub(crate) first: u32,
    pub(crate) last: u32,
}

/// Which streams `pump`, `release_all` and `pump_some` visit, and what was refused last.
#[derive(Clone, Copy, Debug)]
pub(crate) struct Spans {
    /// Contains all streams on which a message waits.
    pub(crate) waiting: Span,
    /// Contains all streams on which octets are owed to the peer.
    pub(crate) owing: Span,
    /// The stream with which the next pass of `pump_some` begins.
    pub(crate) turn: Turn,
    /// The stream of the part of a message that was refused last, and the rule that it breaks.
    pub(crate) malformed: Option<(u32, Malformed)>,
}

/// The stream with which a pass begins.
#[derive(Clone, Copy, Debug)]
pub(crate) struct Turn {
    /// Its number; where nothing waits on it, the pass begins with the next one above.
    pub(crate) id: u32,
    /// How many octets of its share are left, if that was cut short; else 0.
    pub(crate) rest: usize,
}

impl Span {
    /// Returns the empty span.
    pub(crate) fn none() -> Span
        ensures { (i : ℕ) → InSpan result i → ⊥ }
    {
        Span {
            first: u32::MAX,
            last: 0,
        }
    }

    /// Returns the least span that has these numbers and `id`.
    pub(crate) fn with(self, id: u32) -> Span
        ensures here { InSpan result id }
        ensures more { (i : ℕ) → InSpan self i → InSpan result i }
    {
        Span {
            first: self.first.min(id),
            last: self.last.max(id),
        }
    }

    /// Splits the span: the numbers from `turn` up, and those below it.
    pub(crate) fn split(self, turn: u32) -> (Span, Span)
        ensures above { (i : ℕ) → InSpan result.0 i ↔ (InSpan self i × (turn ≤ i)) }
        ensures highest { result.0.last < 2 ^ 32 }
        ensures below { (i : ℕ) → 0 < i → InSpan result.1 i ↔ (InSpan self i × (i < turn)) }
    {
        let above = Span {
            first: self.first.max(turn),
            last: self.last,
        };
        let below = Span {
            first: self.first,
            last: self.last.min(turn.saturating_sub(1)),
        };
        (above, below)
    }
}
