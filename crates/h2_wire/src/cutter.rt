//! The cutter.

ghost use Rattle.std.specs.Prelude.{◌≡◌, ◌≢◌, ◌+◌, ◌<◌, ◌≤◌, ◌++◌, [], length, not, true, false};
ghost use Rattle.std.specs.Prelude.{None, Some, IfOk};
ghost use Rattle.std.specs.Prelude.{IsSome, IfSome, MatchOption};
ghost use Rattle.std.specs.Borrow.{sem};
ghost use Rattle.std.specs.Io.BufRead.{Rests};
ghost use Rattle.h2_frame.specs.declared.head_faults.HeadFault.{HeadFault};
ghost use Rattle.h2_frame.specs.Frames.{frame_of, Encodes};
ghost use Rattle.h2_frame.specs.Encoding.{refusal};
ghost use Rattle.h2_wire.specs.Cutter.{CutterRepresents, Cuts, FaultsAtHead, BeginsWithFrame};
ghost use Rattle.h2_wire.specs.Cutter.{CutterLimited, HasFrame, Advances, octets_of};
ghost use Rattle.h2_wire.specs.Cutter.{body_at, data_of_frame};
ghost use Rattle.h2_wire.specs.Streams.{GoesPastPreface};
ghost use Rattle.h2_wire.specs.contracts.cutter.Cutter.{the_row};

use crate::buffer::Buffer;
use crate::cut::{Advance, Complete, Cut, Source};
use crate::fault::WireFault;
use h2_frame::{FrameRef, HEAD_LEN, payload_frame};
use std::alloc::Global;
use std::marker::Model;

/// Cuts a stream of octets, which comes in pieces of any length, into frames.
#[derive(Debug, Drop)]
pub struct Cutter {
    buffer: Buffer,
}

impl Model for Cutter {
    ghost use Rattle.h2_wire.specs.Cutter.{CutterState};
    ghost use Rattle.h2_wire.specs.Buffer.{state_of, BufferInvariant};

    ghost Value = { CutterState };

    ghost view = { λ cutter. state_of cutter.buffer };

    ghost invariant = { λ cutter. BufferInvariant cutter.buffer };
}

impl Cutter {
    // contract: 3.4 A server sends frames at once, without a preface
    /// Makes a cutter that has used nothing. Payloads may have at most `limit` octets, until
    /// [`Cutter::set_limit`] sets another limit. If `expect_preface` is set, the stream must
    /// begin with the client's preface (RFC 9113, section 3.4).
    pub fn new(alloc: Global, limit: u32, expect_preface: bool) -> Cutter
        ensures limit { result.limit ≡ limit }
        ensures greatest { result.greatest ≡ limit }

        // It represents the empty stream.
        ensures represents { CutterRepresents result expect_preface (λ _. limit) [] [] }
    {
        Cutter {
            buffer: Buffer::new(alloc, limit, expect_preface),
        }
    }

    // contract: 4.1 (own) A frame whole in its piece is lent from there and takes no memory
    // rule: 4.1 (own) A frame whole in its piece is lent from there and takes no memory
    // contract: 4.1 (own) A frame that is cut in two is kept until the next call
    /// Uses octets of the piece, up to the end of one frame, and says where that frame lies; if
    /// they complete no frame, it uses all of them. The octets after a frame are for the next
    /// call. [`Cutter::frame`] lends the frame, until `advance` or [`Cutter::cut`] is called
    /// again.
    ///
    /// # Errors
    ///
    /// - [`WireFault::BadPreface`] at the first octet that differs from the preface;
    /// - [`WireFault::HeadFault`] at the ninth octet of a head that is at fault;
    /// - [`WireFault::PayloadFault`] at the last octet of a payload that is at fault;
    /// - [`WireFault::Memory`] where an allocation was refused: nothing was used, and the call
    ///   may be repeated.
    ///
    /// After one of the first three, [`Cutter::place`] is the place of that octet, and every
    /// later call returns the same fault.
    #[inline(always)]
    pub fn advance(&mut self, piece: &[u8]) -> Result<Advance, WireFault>
        // A fault is returned again.
        ensures failed { IfSome self.old.fault (λ fault. result ≡ Err fault) }

        // A head at fault is reported at its ninth octet, even without memory.
        ensures checked { (fault : HeadFault) → FaultsAtHead self.old piece.now fault
            → result ≡ Err (WireFault.HeadFault fault) }

        // Inside the preface memory can be refused only if the octets go past it.
        ensures preface { self.old.in_preface ≡ true → result ≡ Err WireFault.Memory
            → GoesPastPreface (self.old.unparsed ++ piece.now) }

        // A frame that isn't cut in two needs no memory.
        ensures lent { BeginsWithFrame self.old piece.now → result ≢ Err WireFault.Memory }

        // Nor does a call without octets.
        ensures none { self.old.fault ≡ None → piece.now ≡ [] → result ≢ Err WireFault.Memory }

        // If the cutter represented a stream and its frames, it now represents that stream with
        // the octets used, and those frames with the complete one, which lies where the result
        // says; or the stream is at fault.
        ensures advances { Advances self.old piece.now result self.new }
    {
        self.buffer.take(piece)
    }

    // contract: 4.1 (own) A frame whole in its piece is lent from there and takes no memory
    // rule: 4.1 (own) A frame whole in its piece is lent from there and takes no memory
    // contract: 4.1 (own) A frame that is cut in two is kept until the next call
    /// Lends the frame that the last call of [`Cutter::advance`] returned; `piece` is the one
    /// given to that call. It allocates nothing.
    #[inline(always)]
    pub fn frame<'a>(&'a self, piece: &'a [u8], frame: Complete) -> FrameRef<'a>
        requires { HasFrame self.now piece.now frame }
        ensures value { Encodes (frame_of result) (octets_of self.now piece.now frame) }

        // The frame may be written: its numbers fit their fields, and its type allows its
        // stream and its values.
        ensures good { refusal (frame_of result) ≡ None }

        // The octets of DATA are what [`Cutter::body`] lends.
        ensures body { IfSome (data_of_frame (frame_of result))
            (λ octets. body_at self.now piece.now frame ≡ Some octets) }
    {
        let payload = self.buffer.payload(piece, frame.head, frame.source);
        payload_frame(&frame.head, frame.pad, payload)
    }

    // contract: 4.1 (own) A frame that is cut in two is kept until the next call
    // rule: 4.1 (own) A frame that is cut in two is kept until the next call
    // rule: 6.1 With PADDED, DATA has a pad length, data and padding
    /// Lends the payload of the frame that the last call of [`Cutter::advance`] returned,
    /// without pad length and padding (RFC 9113, sections 6.1 and 6.2): for DATA its data.
    /// `piece` is the one given to that call. Only where `piece` or `frame` is another one can the
    /// result be `None`. It allocates nothing.
    pub fn body<'a>(&'a self, piece: &'a [u8], frame: Complete) -> Option<&'a [u8]>
        ensures { MatchOption result (body_at self.now piece.now frame ≡ None)
            (λ body. body_at self.now piece.now frame ≡ Some body.now) }
    {
        let octets = match frame.source {
            Source::Piece(start) => &piece[start.min(piece.len())..],
            Source::Kept => &self.buffer.octets[..],
        };
        let end = HEAD_LEN + frame.head.length as usize;
        match frame.pad {
            None => octets.get(HEAD_LEN..end),
            Some(padding) => octets.get(HEAD_LEN + 1..end.saturating_sub(usize::from(padding))),
        }
    }

    // contract: 3.4 (own) No octet of the preface is stored, so memory is not refused in it
    // rule: 4.1 Each frame is answered once, in the call that uses its last octet
    // contract: 4.1 (own) A frame whole in its piece is lent from there and takes no memory
    // contract: 4.1 (own) A frame that is cut in two is kept until the next call
    // contract: 5.4.1 After a fault each layer answers that fault and changes nothing
    // contract: 5.4.1 The place of a fault counts the octets up to it, with the preface
    // contract: 6.1 A fault of a payload is known at its last octet
    /// Uses octets of the piece, up to the end of one frame, and lends that frame; if they
    /// complete no frame, it uses all of them. The octets after a frame are for the next call.
    /// It is [`Cutter::advance`] and then [`Cutter::frame`].
    ///
    /// # Errors
    ///
    /// Those of [`Cutter::advance`].
    #[inline(always)]
    pub fn cut<'a>(&'a mut self, piece: &'a [u8]) -> Result<Cut<'a>, WireFault>
        ensures used { IfOk result (λ cut. cut.used ≤ length piece.now) }
        ensures all { IfOk result (λ cut. cut.frame ≡ None → cut.used ≡ length piece.now) }
        ensures some { IfOk result (λ cut. IsSome cut.frame → 0 < cut.used) }

        // A frame that is returned may be written: its numbers fit their fields, and its type
        // allows its stream and its values.
        ensures good { IfOk result (λ cut. IfSome cut.frame (λ frame. refusal (frame_of frame)
            ≡ None)) }

        // A fault is returned again.
        ensures failed { IfSome self.old.fault (λ fault. result ≡ Err fault) }

        // A head at fault is reported at its ninth octet, even without memory.
        ensures checked { (fault : HeadFault) → FaultsAtHead self.old piece.now fault
            → result ≡ Err (WireFault.HeadFault fault) }

        // Inside the preface memory can be refused only if the octets go past it.
        ensures preface { self.old.in_preface ≡ true → result ≡ Err WireFault.Memory
            → GoesPastPreface (self.old.unparsed ++ piece.now) }

        // A frame that isn't cut in two needs no memory.
        ensures lent { BeginsWithFrame self.old piece.now → result ≢ Err WireFault.Memory }

        // Nor does a call without octets.
        ensures none { self.old.fault ≡ None → piece.now ≡ [] → result ≢ Err WireFault.Memory }

        // After the borrow ends: if the cutter represented `stream` and `frames`, it now represents
        // `stream ++ piece[..used]` and `frames` with this one appended; or `stream ++ piece` is at
        // fault at `place`, right after `frames`.
        ensures* after { sem 𝓛 (Rests the_row self.entry
            (λ new. Cuts self.old piece.now result new)) }
    {
        let advance = self.advance(piece)?;
        let frame = match advance.frame {
            None => None,
            Some(frame) => Some(self.frame(piece, frame)),
        };
        Ok(Cut {
            used: advance.used,
            frame,
        })
    }

    // contract: 4.2 (own) A cutter's limit is changed for heads that are still to come
    // rule: 4.2 (own) A cutter's limit is changed for heads that are still to come
    /// Sets the limit of payloads (RFC 9113, sections 4.2 and 6.5.2) for heads whose ninth
    /// octet is not used yet. Frames whose head was used before are not affected. It allocates
    /// nothing.
    pub fn set_limit(&mut self, limit: u32)
        // The cutter represents the same stream and frames, with this limit for the octets that
        // follow.
        ensures { CutterLimited self.old limit self.new }
    {
        self.buffer.limit = limit;
        self.buffer.greatest = self.buffer.greatest.max(limit);
    }

    // contract: 4.1 Unparsed octets hold no complete frame and no fault
    // rule: 4.1 Unparsed octets hold no complete frame and no fault
    // contract: 10.5 (own) What an end holds of a stream is bounded
    // rule: 10.5 (own) What an end holds of a stream is bounded
    /// Returns the number of unparsed octets: those of a preface or a frame that has begun and is
    /// not complete; 0 once the stream is at fault. It allocates nothing.
    pub fn held(&self) -> usize
        ensures value { result ≡ length self.now.unparsed }
        ensures preface { self.now.in_preface ≡ true → result ≤ 24 }
        ensures frame { self.now.in_preface ≡ false → result ≤ 9 + self.now.greatest }
    {
        self.buffer.unparsed_len()
    }

    // contract: 5.4.1 The place of a fault counts the octets up to it, with the preface
    // rule: 5.4.1 The place of a fault counts the octets up to it, with the preface
    /// Returns the place in the stream, counted from 1, of the octet used last, or of the octet
    /// that made the fault; 0 if none was used, and at most 2<sup>64</sup> - 1. It allocates
    /// nothing.
    pub fn place(&self) -> u64
        ensures { result ≡ self.now.place }
    {
        self.buffer.place
    }

    // contract: 3.4 (own) A cutter says whether the preface is complete or none is expected
    // rule: 3.4 (own) A cutter says whether the preface is complete or none is expected
    /// Returns whether the client's preface is complete, or none is expected (RFC 9113, section
    /// 3.4); `false` after [`WireFault::BadPreface`]. It allocates nothing.
    pub fn is_past_preface(&self) -> bool
        ensures { result ≡ not self.now.in_preface }
    {
        self.buffer.is_past_preface()
    }
}
