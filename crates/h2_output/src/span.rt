//! Octets that are shared with the caller and not copied.

ghost use Rattle.std.specs.Prelude.{◌≡◌, ◌+◌, ◌-◌, ◌<◌, ◌≤◌, ◌++◌, ◌∷◌, ℕ, List};
ghost use Rattle.std.specs.Prelude.{[], length, drop, IfSome, IfNone};
ghost use Rattle.std.specs.Io.{StartsWith};
ghost use Rattle.h2_output.specs.Woven.{weave, octets_before, octets_shared};
ghost use Rattle.h2_output.specs.Woven.{most_shared};

use bytes::Bytes;
use std::alloc::Global;
use std::collections::VecDeque;

/// Shared octets, and their place among the copied ones.
#[derive(Drop)]
pub(crate) struct Span {
    /// The number of copied octets between the span before and this one.
    pub(crate) before: usize,
    /// The octets.
    pub(crate) octets: Bytes<Global>,
}

/// The spans of a queue, in order.
#[derive(Drop)]
pub(crate) struct Spans {
    /// The spans, the first one first.
    pub(crate) all: VecDeque<Span, Global>,
    /// The number of copied octets before the last span.
    pub(crate) before: usize,
    /// The number of octets in the spans.
    pub(crate) shared: usize,
    ghost placed: { before ≡ octets_before all.items },
    ghost counted: { shared ≡ octets_shared all.items },
    ghost bounded: { shared ≤ most_shared },
}

/// The most octets that are shared at once; further ones are copied.
const MOST_SHARED: usize = 4_294_967_296;

impl Spans {
    /// No spans.
    pub(crate) fn new(alloc: Global) -> Spans
        ensures { result.all.items ≡ [] }
    {
        Spans {
            all: VecDeque::new(alloc),
            before: 0,
            shared: 0,
        }
    }

    // rule: calls (own) Frames join the output that waits, in order
    /// Adds a span after `queued` copied octets, which include those before the last span.
    /// Returns its octets where an allocation was refused, or too many are shared.
    pub(crate) fn add(&mut self, queued: usize, octets: Bytes<Global>) -> Option<Bytes<Global>>
        requires { self.old.before ≤ queued }
        ensures added { IfNone result ((self.new.all.items ≡ self.old.all.items
            ++ record { before = queued - self.old.before; octets = octets } ∷ [])
            × (self.new.before ≡ queued)
            × (self.new.shared ≡ self.old.shared + length octets)) }
        ensures refused { IfSome result (λ given. (given ≡ octets)
            × (self.new.all.items ≡ self.old.all.items)
            × (self.new.before ≡ self.old.before) × (self.new.shared ≡ self.old.shared)) }
    {
        if MOST_SHARED - self.shared < octets.len() {
            return Some(octets);
        }
        let length = octets.len();
        let before = queued - self.before;
        match self.all.push_back(Span { before, octets }) {
            Ok(()) => {
                self.before = queued;
                self.shared += length;
                None
            }
            Err(refused) => Some(refused.value.octets),
        }
    }

    // rule: calls (own) Output is given out in order and once
    /// Removes the octets of spans among the first `count` of the queue, and returns how many
    /// of these are copied ones.
    pub(crate) fn take_away(&mut self, count: usize) -> usize
        ensures woven { (queue : List ℕ) → self.old.before ≤ length queue
            → count ≤ length (weave self.old.all.items queue)
            → drop count (weave self.old.all.items queue)
            ≡ weave self.new.all.items (drop result queue) }
        ensures fits { (queue : List ℕ) → self.old.before ≤ length queue
            → count ≤ length (weave self.old.all.items queue)
            → self.new.before + result ≤ length queue }
        ensures shared { self.new.shared ≤ self.old.shared }
        ensures small { result ≤ count }
    {
        // Mostly nothing is shared; then all `count` octets are copied ones.
        if self.all.is_empty() {
            return count;
        }
        let mut left = count;
        let mut queued = 0usize;
        while let Some(mut span) = self.all.pop_front() {
            if left < span.before {
                span.before -= left;
                self.before -= left;
                self.all.push_front_reserved(span);
                return queued + left;
            }
            left -= span.before;
            queued += span.before;
            self.before -= span.before;
            if left < span.octets.len() {
                span.before = 0;
                span.octets.advance(left);
                self.shared -= left;
                self.all.push_front_reserved(span);
                return queued;
            }
            left -= span.octets.len();
            self.shared -= span.octets.len();
        }
        queued + left
    }

    // rule: calls (own) An end lends its output, and says the place of a fault
    /// The octets of copied octets and spans from an offset on, as many as lie there in one
    /// piece.
    pub(crate) fn part_from<'a>(&'a self, queue: &'a [u8], at: usize) -> &'a [u8]
        requires fits { self.now.before ≤ length queue.now }
        ensures part { StartsWith (drop at (weave self.now.all.items queue.now)) result.now }
        ensures some { at < length (weave self.now.all.items queue.now) → 0 < length result.now }
    {
        let mut left = at;
        let mut rest = queue;
        for i in 0..self.all.len() {
            let span = &self.all[i];
            let (first, others) = rest.split_at(span.before);
            if left < first.len() {
                return &first[left..];
            }
            left -= first.len();
            let octets = span.octets.as_slice();
            if left < octets.len() {
                return &octets[left..];
            }
            left -= octets.len();
            rest = others;
        }
        &rest[left.min(rest.len())..]
    }
}
