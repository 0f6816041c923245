//! A queue of octets, some copied and some shared with the caller.

ghost use Rattle.std.specs.Prelude.{◌≡◌, ◌+◌, ◌^◌, ◌<◌, ◌≤◌, ◌++◌, [], length, take};
ghost use Rattle.std.specs.Prelude.{drop, OnOk, OnErr, vec_len};
ghost use Rattle.std.specs.Vec.{vec_capacity};
ghost use Rattle.std.specs.Io.{StartsWith};

use crate::span::Spans;
use bytes::{Bytes, BytesMut};
use std::alloc::{AllocError, Global};
use std::marker::Model;

/// A queue of octets.
#[derive(Drop)]
pub(crate) struct Queue {
    /// The copied octets.
    own: BytesMut<Global>,
    /// The shared octets, in spans, each after some of the copied ones.
    spans: Spans,
}

impl Model for Queue {
    ghost use Rattle.std.specs.Prelude.{◌≤◌, length};
    ghost use Rattle.h2_output.specs.Woven.{QueueState, weave};

    ghost Value = { QueueState };

    ghost view = { λ queue. record {
      items = weave queue.spans.all.items queue.own.items;
      spare = queue.own.spare;
      shared = queue.spans.shared;
    } };

    ghost invariant = { λ queue. queue.spans.before ≤ length queue.own.items };
}

impl Queue {
    /// Makes an empty queue.
    pub(crate) fn new(alloc: Global) -> Queue
        ensures { result.items ≡ [] }
    {
        Queue {
            own: BytesMut::new(alloc),
            spans: Spans::new(alloc),
        }
    }

    // rule: calls (own) Output is given out in order and once
    /// The number of queued octets.
    pub(crate) fn len(&self) -> usize
        ensures value { result ≡ length self.now.items }
        ensures bound { result < 2 ^ 63 + 2 ^ 33 }
    {
        self.own.len() + self.spans.shared
    }

    // rule: calls (own) An end lends its output, and says the place of a fault
    /// The octets from an offset on, as many as lie there in one piece.
    pub(crate) fn part_from(&self, at: usize) -> &[u8]
        ensures part { StartsWith (drop at self.now.items) result.now }
        ensures some { at < length self.now.items → 0 < length result.now }
    {
        self.spans.part_from(self.own.as_slice(), at)
    }

    /// Reserves room for `additional` octets.
    ///
    /// # Errors
    ///
    /// [`AllocError`] where an allocation was needed and refused.
    pub(crate) fn reserve(&mut self, additional: usize) -> Result<(), AllocError>
        ensures items { self.new.items ≡ self.old.items }
        ensures shared { self.new.shared ≡ self.old.shared }
        ensures spare { self.old.spare ≤ self.new.spare }
        ensures ok { OnOk result (additional ≤ self.new.spare) }
        ensures err { OnErr result (self.old.spare < additional) }
    {
        self.own.reserve(additional)
    }

    // rule: calls (own) Frames join the output that waits, in order
    /// Copies octets into the queue, for which there is room.
    pub(crate) fn extend_reserved(&mut self, octets: &[u8])
        requires { length octets.now ≤ self.old.spare }
        ensures items { self.new.items ≡ self.old.items ++ octets.now }
        ensures spare { self.new.spare + length octets.now ≡ self.old.spare }
        ensures shared { self.new.shared ≡ self.old.shared }
    {
        self.own.extend_reserved(octets);
    }

    // rule: calls (own) Frames join the output that waits, in order
    /// Adds octets, for which there is room: shared if they are many, else copied.
    pub(crate) fn share(&mut self, octets: Bytes<Global>)
        requires { length octets ≤ self.old.spare }
        ensures items { self.new.items ≡ self.old.items ++ octets }
        ensures spare { self.old.spare ≤ self.new.spare + length octets }
        ensures shared { self.new.shared ≤ self.old.shared + length octets }
    {
        if octets.len() < LEAST_SHARED {
            return self.own.extend_reserved(octets.as_slice());
        }
        if let Some(refused) = self.spans.add(self.own.len(), octets) {
            self.own.extend_reserved(refused.as_slice());
        }
    }

    // rule: calls (own) Output is given out in order and once
    /// Appends the first `count` octets to `out`, which has the capacity, and removes them.
    pub(crate) fn put_out(&mut self, count: usize, out: &mut Vec<u8>)
        requires within { count ≤ length self.old.items }
        requires room { vec_len out.old + count ≤ vec_capacity out.old }
        ensures given { out.new.items ≡ out.old.items ++ take count self.old.items }
        ensures waiting { self.new.items ≡ drop count self.old.items }
        ensures spare { self.old.spare ≤ self.new.spare }
        ensures shared { self.new.shared ≤ self.old.shared }

        // Once nothing is queued, all that was copied is room again.
        ensures whole { self.new.items ≡ []
            → self.old.spare + length self.old.items ≤ self.new.spare + self.old.shared }
        ensures capacity { vec_capacity out.old ≤ vec_capacity out.new }
    {
        let mut given = 0;
        while given < count {
            let part = self.part_from(given);
            let some = part.len().min(count - given);
            out.extend_from_slice(&part[..some]).unwrap();
            given += some;
        }
        self.take_away(count);
    }

    // rule: calls (own) Output is given out in order and once
    /// Removes the first `count` octets.
    pub(crate) fn take_away(&mut self, count: usize)
        requires within { count ≤ length self.old.items }
        ensures waiting { self.new.items ≡ drop count self.old.items }
        ensures spare { self.old.spare ≤ self.new.spare }
        ensures shared { self.new.shared ≤ self.old.shared }

        // Once nothing is queued, all that was copied is room again.
        ensures whole { self.new.items ≡ []
            → self.old.spare + length self.old.items ≤ self.new.spare + self.old.shared }
    {
        let queued = self.spans.take_away(count);
        if queued == self.own.len() {
            self.own.clear();
        } else {
            self.own.advance(queued);
        }
    }
}

/// The least number of octets that are shared; copying fewer costs less.
const LEAST_SHARED: usize = 4_096;
