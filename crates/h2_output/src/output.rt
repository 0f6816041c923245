//! The queued output.

ghost use Rattle.std.specs.Prelude.{◌≡◌, ◌+◌, ◌==◌, ◌^◌, ◌<◌, ◌≤◌, ◌++◌, [], length, min};
ghost use Rattle.std.specs.Prelude.{take, drop, true, false, None, Some, OnOk, IfOk, OnErr, IsOk};
ghost use Rattle.std.specs.Prelude.{vec_len};
ghost use Rattle.std.specs.Vec.{vec_capacity};
ghost use Rattle.std.specs.Io.{StartsWith};
ghost use Rattle.h2_frame.specs.Frames.{frame_of, Data, GoAway, WindowUpdate};
ghost use Rattle.h2_frame.specs.Encoding.{encoding_of, refusal};
ghost use Rattle.h2_output.specs.Output.{max_control_octets};

use crate::data_head::data_head;
use crate::last_frame::LastFrame;
use crate::queue::Queue;
use bytes::Bytes;
use h2_frame::limits::LARGE_FRAME;
use h2_frame::{FrameRef, Head, Kind, word_octets, write_ref};
use std::alloc::{AllocError, Global};
use std::marker::Model;

/// The capacity for the encoding of a control frame.
const CONTROL: usize = 64;

/// The queued output. Room is reserved first, and then frames are added without taking memory.
#[derive(Drop)]
pub struct Output {
    /// The queued octets, without the last frame.
    queue: Queue,
    /// The last frame, once the connection has failed.
    last: Option<LastFrame>,
    /// The encoding of one frame, with capacity for any but DATA and those of field blocks.
    frame: Vec<u8>,
}

impl Model for Output {
    ghost use Rattle.std.specs.Prelude.{◌++◌, ◌≤◌, is_some};
    ghost use Rattle.std.specs.Vec.{vec_capacity};
    ghost use Rattle.h2_output.specs.Output.{OutputState, waiting_of_last, max_control_octets};

    ghost Value = { OutputState };

    ghost view = { λ output. record {
      waiting = output.queue.items ++ waiting_of_last output.last;
      spare = output.queue.spare;
      shared = output.queue.shared;
      ended = is_some output.last;
    } };

    ghost invariant = { λ output. max_control_octets ≤ vec_capacity output.frame };
}

impl Output {
    /// Makes an empty output.
    ///
    /// # Errors
    ///
    /// [`AllocError`] where the allocation for a frame was refused.
    pub fn new(alloc: Global) -> Result<Output, AllocError>
        ensures { IfOk result (λ output. (output.waiting ≡ []) × (output.ended ≡ false)) }
    {
        Ok(Output {
            queue: Queue::new(alloc),
            last: None,
            frame: Vec::with_capacity(alloc, CONTROL)?,
        })
    }

    // rule: calls (own) Output is given out in order and once
    /// Returns the number of queued octets. It takes no memory.
    pub fn len(&self) -> usize
        ensures { result ≡ length self.now.waiting }
    {
        let last = match &self.last {
            Some(last) => last.len(),
            None => 0,
        };
        self.queue.len() + last
    }

    // rule: calls (own) Output is given out in order and once
    /// Returns whether nothing is queued. It takes no memory.
    pub fn is_empty(&self) -> bool
        ensures { result ≡ (length self.now.waiting == 0) }
    {
        self.len() == 0
    }

    // contract: calls (own) An end lends its output, and says the place of a fault
    // rule: calls (own) An end lends its output, and says the place of a fault
    /// Lends the queued octets from an offset on, as many as lie there in one piece: of frames,
    /// of a body that was not copied, or of the GOAWAY of a failed connection. It takes no
    /// memory.
    pub fn waiting_from(&self, at: usize) -> &[u8]
        ensures part { StartsWith (drop at self.now.waiting) result.now }
        ensures some { at < length self.now.waiting → 0 < length result.now }
    {
        let queued = self.queue.len();
        if at < queued {
            return self.queue.part_from(at);
        }
        match &self.last {
            Some(last) => last.part_from(at - queued),
            None => &[],
        }
    }

    /// Reserves room for `additional` octets.
    ///
    /// # Errors
    ///
    /// [`AllocError`] where an allocation was needed and refused.
    pub fn reserve(&mut self, additional: usize) -> Result<(), AllocError>
        ensures waiting { self.new.waiting ≡ self.old.waiting }
        ensures ended { self.new.ended ≡ self.old.ended }
        ensures shared { self.new.shared ≡ self.old.shared }
        ensures spare { self.old.spare ≤ self.new.spare }
        ensures ok { OnOk result (additional ≤ self.new.spare) }
        ensures err { OnErr result (self.old.spare < additional) }
    {
        self.queue.reserve(additional)
    }

    // contract: calls (own) Frames join the output that waits, in order
    // rule: calls (own) Frames join the output that waits, in order
    /// Adds a frame of at most 64 octets, for which there is room. It takes no memory.
    #[inline(always)]
    pub fn add_frame(&mut self, frame: FrameRef<'_>)
        requires up { self.old.ended ≡ false }
        requires writable { refusal (frame_of frame) ≡ None }
        requires short { length (encoding_of (frame_of frame)) ≤ max_control_octets }
        requires room { length (encoding_of (frame_of frame)) ≤ self.old.spare }
        ensures waiting { self.new.waiting
            ≡ self.old.waiting ++ encoding_of (frame_of frame.entry) }
        ensures spare { self.new.spare + length (encoding_of (frame_of frame.entry))
            ≡ self.old.spare }
        ensures shared { self.new.shared ≡ self.old.shared }
        ensures ended { self.new.ended ≡ false }
    {
        if let FrameRef::WindowUpdate { stream, increment } = frame {
            return self.add_window_update(stream, increment);
        }
        encode(frame, &mut self.frame);
        self.queue.extend_reserved(&self.frame);
    }

    // rule: calls (own) Frames join the output that waits, in order
    /// Adds WINDOW_UPDATE, for which there is room. It takes no memory.
    fn add_window_update(&mut self, stream: u32, increment: u32)
        requires up { self.old.ended ≡ false }
        requires room { 13 ≤ self.old.spare }
        ensures waiting { self.new.waiting
            ≡ self.old.waiting ++ encoding_of (WindowUpdate stream increment) }
        ensures spare { self.new.spare + 13 ≡ self.old.spare }
        ensures shared { self.new.shared ≡ self.old.shared }
        ensures ended { self.new.ended ≡ false }
    {
        let head = Head {
            length: 4,
            kind: Kind::WindowUpdate,
            flags: 0,
            stream,
        };
        self.queue.extend_reserved(&head.octets());
        self.queue.extend_reserved(&word_octets(increment));
    }

    // contract: calls (own) Frames join the output that waits, in order
    // rule: calls (own) Frames join the output that waits, in order
    /// Adds a DATA frame without padding, for which there is room, and copies its octets. It
    /// takes no memory.
    pub fn add_data(&mut self, stream: u32, octets: &[u8], end: bool)
        requires up { self.old.ended ≡ false }
        requires short { length octets.now < 2 ^ 24 }
        requires room { 9 + length octets.now ≤ self.old.spare }
        ensures waiting { self.new.waiting
            ≡ self.old.waiting ++ encoding_of (Data stream end octets.now None) }
        ensures spare { self.new.spare + (9 + length octets.now) ≡ self.old.spare }
        ensures shared { self.new.shared ≡ self.old.shared }
        ensures ended { self.new.ended ≡ false }
    {
        let head = data_head(stream, octets.len() as u32, end);
        self.queue.extend_reserved(&head);
        self.add_octets(octets);
    }

    // contract: calls (own) Frames join the output that waits, in order
    // rule: calls (own) Frames join the output that waits, in order
    /// Adds a DATA frame without padding, for which there is room. If its octets are many they
    /// are shared and not copied.
    pub fn add_shared_data(&mut self, stream: u32, octets: Bytes<Global>, end: bool)
        requires up { self.old.ended ≡ false }
        requires short { length octets < 2 ^ 24 }
        requires room { 9 + length octets ≤ self.old.spare }
        ensures waiting { self.new.waiting
            ≡ self.old.waiting ++ encoding_of (Data stream end octets None) }
        ensures spare { self.old.spare ≤ self.new.spare + (9 + length octets) }
        ensures shared { self.new.shared ≤ self.old.shared + length octets }
        ensures ended { self.new.ended ≡ false }
    {
        let head = data_head(stream, octets.len() as u32, end);
        self.queue.extend_reserved(&head);
        self.queue.share(octets);
    }

    // contract: calls (own) Frames join the output that waits, in order
    // rule: calls (own) Frames join the output that waits, in order
    /// Adds the frames of a field block, already encoded, for which there is room. It takes no
    /// memory.
    pub fn add_octets(&mut self, octets: &[u8])
        requires up { self.old.ended ≡ false }
        requires room { length octets.now ≤ self.old.spare }
        ensures waiting { self.new.waiting ≡ self.old.waiting ++ octets.now }
        ensures spare { self.new.spare + length octets.now ≡ self.old.spare }
        ensures shared { self.new.shared ≡ self.old.shared }
        ensures ended { self.new.ended ≡ false }
    {
        self.queue.extend_reserved(octets);
    }

    // contract: 5.4.1 (own) The GOAWAY of a failed connection goes out last, once, without memory
    // rule: 5.4.1 (own) The GOAWAY of a failed connection goes out last, once, without memory
    /// Adds the GOAWAY of a connection that fails, after which nothing is added (RFC 9113,
    /// section 6.8). It takes no memory and needs no room.
    pub fn end_with_goaway(&mut self, last: u32, code: u32)
        requires up { self.old.ended ≡ false }
        requires number { last < 2 ^ 31 }
        ensures waiting { self.new.waiting ≡ self.old.waiting ++ encoding_of (GoAway last code []) }
        ensures ended { self.new.ended ≡ true }
    {
        let goaway = FrameRef::GoAway {
            last,
            code,
            debug: &[],
        };
        encode(goaway, &mut self.frame);
        let mut octets = [0; LARGE_FRAME];
        octets.copy_from_slice(&self.frame);
        self.last = Some(LastFrame { octets, given: 0 });
    }

    // rule: calls (own) Output is given out in order and once
    // contract: 5.4.1 (own) The GOAWAY of a failed connection goes out last, once, without memory
    /// Appends the first queued octets, at most `count`, to `out`, and removes them.
    ///
    /// # Errors
    ///
    /// [`AllocError`] where `out` lacks the capacity and an allocation was refused; nothing has
    /// changed.
    pub fn put_out(&mut self, count: usize, out: &mut Vec<u8>) -> Result<usize, AllocError>
        ensures ok { IfOk result (λ given. (given ≡ min count (length self.old.waiting))
            × (out.new.items ≡ out.old.items ++ take given self.old.waiting)
            × (self.new.waiting ≡ drop given self.old.waiting)) }
        ensures err { OnErr result ((out.new.items ≡ out.old.items)
            × (self.new.waiting ≡ self.old.waiting)) }

        // Capacity is enough.
        ensures room { vec_len out.old + min count (length self.old.waiting)
            ≤ vec_capacity out.old → IsOk result }
        ensures ended { self.new.ended ≡ self.old.ended }
        ensures spare { self.old.spare ≤ self.new.spare }

        ensures shared { self.new.shared ≤ self.old.shared }

        // Once nothing is queued, all that was copied is room again.
        ensures whole { self.old.ended ≡ false → self.new.waiting ≡ []
            → self.old.spare + length self.old.waiting ≤ self.new.spare + self.old.shared }
    {
        let given = count.min(self.len());
        out.reserve(given)?;
        let queued = given.min(self.queue.len());
        self.queue.put_out(queued, out);
        if let Some(last) = &mut self.last {
            last.put_out(given - queued, out);
        }
        Ok(given)
    }

    // rule: calls (own) Output is given out in order and once
    // contract: 5.4.1 (own) The GOAWAY of a failed connection goes out last, once, without memory
    /// Removes the first queued octets, at most `count`, which were read where they lie. It
    /// takes no memory.
    pub fn consume(&mut self, count: usize) -> usize
        ensures given { result ≡ min count (length self.old.waiting) }
        ensures waiting { self.new.waiting ≡ drop result self.old.waiting }
        ensures ended { self.new.ended ≡ self.old.ended }
        ensures spare { self.old.spare ≤ self.new.spare }

        ensures shared { self.new.shared ≤ self.old.shared }

        // Once nothing is queued, all that was copied is room again.
        ensures whole { self.old.ended ≡ false → self.new.waiting ≡ []
            → self.old.spare + length self.old.waiting ≤ self.new.spare + self.old.shared }
    {
        let given = count.min(self.len());
        let queued = given.min(self.queue.len());
        self.queue.take_away(queued);
        if let Some(last) = &mut self.last {
            last.take_away(given - queued);
        }
        given
    }
}

// Replaces the octets, whose capacity suffices, by the encoding of a frame.
fn encode(frame: FrameRef<'_>, octets: &mut Vec<u8>)
    requires writable { refusal (frame_of frame) ≡ None }
    requires room { length (encoding_of (frame_of frame)) ≤ vec_capacity octets.old }
    ensures items { octets.new.items ≡ encoding_of (frame_of frame.entry) }
    ensures capacity { vec_capacity octets.old ≤ vec_capacity octets.new }
{
    octets.clear();
    write_ref(frame, octets).unwrap();
}
