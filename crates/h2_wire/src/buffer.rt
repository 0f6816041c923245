//! What a cutter keeps between calls.

ghost use Rattle.std.specs.Prelude.{◌≡◌, ◌≢◌, ◌+◌, ◌<◌, ◌≤◌, ◌++◌, [], length, take, drop};
ghost use Rattle.std.specs.Prelude.{IfSome};
ghost use Rattle.std.specs.Prelude.{IfErr, OnOk, IsOk, None, Some, not, true, false};
ghost use Rattle.h2_frame.specs.declared.head_faults.HeadFault.{HeadFault as AnyFault};
ghost use Rattle.h2_frame.specs.Heads.{head_of, form_fault};
ghost use Rattle.h2_wire.specs.Cutter.{saturated, IsFaultyHead, FaultsAtHead, BeginsWithFrame};
ghost use Rattle.h2_wire.specs.Cutter.{octets_at};
ghost use Rattle.h2_wire.specs.Buffer.{state_of, fault_of, is_in_preface, unparsed_of};
ghost use Rattle.h2_wire.specs.Buffer.{BufferInvariant};
ghost use Rattle.h2_wire.specs.Step.{BufferTakes, StartsFrame, StartsPayload, EndsFrame};
ghost use Rattle.h2_wire.specs.Streams.{preface, BeginsWithPreface, GoesPastPreface};

use crate::cut::{Advance, Complete, Source};
use crate::fault::WireFault;
use crate::preface::{self, PREFACE};
use h2_frame::{HEAD_LEN, Head, head, head_fault, pad_length};
use std::alloc::Global;

/// What a cutter expects next.
#[derive(Clone, Copy, Debug)]
pub(crate) enum Phase {
    /// The rest of the preface, of which this many octets were matched.
    Preface(usize),
    /// A head, or the rest of one.
    Head,
    /// A payload after this head, or the rest of one; the head had no fault when it was read.
    Payload(Head),
    /// A head; octets that are kept are those of the frame that was returned last.
    Lent,
    /// Nothing, since the stream is at fault.
    Failed(WireFault),
}

/// What a cutter keeps between calls.
#[derive(Debug, Drop)]
pub(crate) struct Buffer {
    /// The limit of payloads, for heads to come.
    pub(crate) limit: u32,
    /// The greatest limit so far.
    pub(crate) greatest: u32,
    /// What is expected next.
    pub(crate) phase: Phase,
    /// The octets of the frame that has begun, or of the one returned last if it was cut in
    /// two.
    pub(crate) octets: Vec<u8>,
    /// The number of octets used, up to 2<sup>64</sup> - 1; after a fault its place.
    pub(crate) place: u64,
}

impl Buffer {
    /// The state before any octet.
    pub(crate) fn new(alloc: Global, limit: u32, expect_preface: bool) -> Buffer
        ensures state { state_of result ≡ record {
          limit = limit;
          greatest = limit;
          in_preface = expect_preface;
          unparsed = [];
          kept = [];
          place = 0;
          fault = None;
        } }
        ensures invariant { BufferInvariant result }
    {
        Buffer {
            limit,
            greatest: limit,
            phase: if expect_preface {
                Phase::Preface(0)
            } else {
                Phase::Head
            },
            octets: Vec::new(alloc),
            place: 0,
        }
    }

    /// Takes octets of the piece, up to the end of a frame or all of them.
    #[inline(always)]
    pub(crate) fn take(&mut self, piece: &[u8]) -> Result<Advance, WireFault>
        requires { BufferInvariant self.old }
        ensures failed { IfSome (fault_of self.old.phase) (λ fault. result ≡ Err fault) }
        ensures checked { (fault : AnyFault) → FaultsAtHead (state_of self.old) piece.now fault
            → result ≡ Err (WireFault.HeadFault fault) }
        ensures preface { is_in_preface self.old.phase ≡ true → result ≡ Err WireFault.Memory
            → GoesPastPreface (unparsed_of self.old.phase self.old.octets.items ++ piece.now) }
        ensures lent { BeginsWithFrame (state_of self.old) piece.now
            → result ≢ Err WireFault.Memory }
        ensures none { fault_of self.old.phase ≡ None → piece.now ≡ []
            → result ≢ Err WireFault.Memory }
        ensures takes { BufferTakes (state_of self.old) piece.now result self.new }
    {
        match self.phase {
            Phase::Preface(matched) => self.take_preface(matched, piece),
            Phase::Head => self.take_head(piece, 0),
            Phase::Payload(head) => self.take_payload(piece, 0, head),
            Phase::Lent => {
                // The frame returned last is kept no longer.
                self.octets.clear();
                self.phase = Phase::Head;
                self.take_head(piece, 0)
            }
            Phase::Failed(fault) => Err(fault),
        }
    }

    /// The number of octets used of a preface or a frame that is not complete.
    pub(crate) fn unparsed_len(&self) -> usize
        requires { BufferInvariant self.now }
        ensures value { result ≡ length (unparsed_of self.now.phase self.now.octets.items) }
        ensures preface { is_in_preface self.now.phase ≡ true → result ≤ 24 }
        ensures frame { is_in_preface self.now.phase ≡ false → result ≤ 9 + self.now.greatest }
    {
        match self.phase {
            Phase::Preface(matched) => matched,
            Phase::Payload(_head) => self.octets.len(),
            Phase::Head => self.octets.len(),
            Phase::Lent | Phase::Failed(_) => 0,
        }
    }

    /// Whether the preface is complete, or none is expected.
    pub(crate) fn is_past_preface(&self) -> bool
        ensures { result ≡ not (is_in_preface self.now.phase) }
    {
        match self.phase {
            Phase::Preface(_) | Phase::Failed(WireFault::BadPreface) => false,
            _ => true,
        }
    }

    // rule: 3.4 A client sends the 24 octets of the preface and then frames
    // rule: 3.4 The first octet that differs from the preface is PROTOCOL_ERROR, there
    // rule: 3.4 (own) No octet of the preface is stored, so memory is not refused in it
    // Takes octets inside the preface, of which `matched` were matched before.
    #[inline(always)]
    fn take_preface(&mut self, matched: usize, piece: &[u8]) -> Result<Advance, WireFault>
        requires phase { self.old.phase ≡ Phase.Preface matched }
        requires invariant { BufferInvariant self.old }
        ensures checked { (fault : AnyFault)
            → BeginsWithPreface (take matched preface ++ piece.now)
            → IsFaultyHead (drop (length preface) (take matched preface ++ piece.now))
            self.old.limit fault → result ≡ Err (WireFault.HeadFault fault) }
        ensures preface { result ≡ Err WireFault.Memory
            → GoesPastPreface (unparsed_of self.old.phase self.old.octets.items ++ piece.now) }
        ensures lent { BeginsWithPreface (take matched preface ++ piece.now)
            → 9 ≤ length (drop (length preface) (take matched preface ++ piece.now))
            → 9 + (head_of (drop (length preface) (take matched preface ++ piece.now))).length
            ≤ length (drop (length preface) (take matched preface ++ piece.now))
            → result ≢ Err WireFault.Memory }
        ensures none { piece.now ≡ [] → result ≢ Err WireFault.Memory }
        ensures takes { BufferTakes (state_of self.old) piece.now result self.new }
    {
        let count = preface::matching_octets(matched, piece);
        if matched + count == PREFACE.len() {
            return self.take_head(piece, count);
        }
        if count < piece.len() {
            return Err(self.fail(WireFault::BadPreface, count + 1));
        }
        self.pass(Phase::Preface(matched + count), count);
        Ok(Advance {
            used: count,
            frame: None,
        })
    }

    // rule: 4.2 A fault of a head is known at its ninth octet, whatever memory is
    // Takes a head that begins or continues at offset `start` of the piece.
    #[inline(always)]
    fn take_head(&mut self, piece: &[u8], start: usize) -> Result<Advance, WireFault>
        requires starts { StartsFrame self.old piece.now start }
        ensures checked { (fault : AnyFault)
            → IsFaultyHead (self.old.octets.items ++ drop start piece.now) self.old.limit fault
            → result ≡ Err (WireFault.HeadFault fault) }
        ensures lent { self.old.octets.items ≡ [] → 9 ≤ length (drop start piece.now)
            → 9 + (head_of (drop start piece.now)).length ≤ length (drop start piece.now)
            → result ≢ Err WireFault.Memory }
        ensures none { drop start piece.now ≡ [] → result ≢ Err WireFault.Memory }
        ensures takes { BufferTakes (state_of self.old) piece.now result self.new }
    {
        let following = &piece[start..];
        let kept = self.octets.len();
        let lacking = HEAD_LEN - kept;
        if following.len() < lacking {
            self.append(following)?;
            self.pass(Phase::Head, piece.len());
            return Ok(Advance {
                used: piece.len(),
                frame: None,
            });
        }
        let mut octets = [0; HEAD_LEN];
        octets[..kept].copy_from_slice(&self.octets);
        octets[kept..].copy_from_slice(&following[..lacking]);
        let head = head(&octets);
        if let Some(fault) = head_fault(&head, self.limit) {
            return Err(self.fail(WireFault::HeadFault(fault), start + lacking));
        }
        self.take_payload(piece, start, head)
    }

    // rule: 4.1 The frames of a stream do not depend on the pieces of its octets
    // Takes a payload whose head had no fault, and whose frame begins or continues at offset
    // `start` of the piece.
    #[inline(always)]
    fn take_payload(&mut self, piece: &[u8], start: usize, head: Head) -> Result<Advance, WireFault>
        requires starts { StartsPayload self.old piece.now start head }
        ensures lent { self.old.octets.items ≡ []
            → 9 + head.length ≤ length (drop start piece.now) → result ≢ Err WireFault.Memory }
        ensures none { drop start piece.now ≡ [] → result ≢ Err WireFault.Memory }
        ensures takes { BufferTakes (state_of self.old) piece.now result self.new }
    {
        let following = &piece[start..];
        let missing = HEAD_LEN + head.length as usize - self.octets.len();
        if following.len() < missing {
            self.append(following)?;
            self.pass(Phase::Payload(head), piece.len());
            return Ok(Advance {
                used: piece.len(),
                frame: None,
            });
        }
        let used = start + missing;
        if self.octets.is_empty() {
            return self.end_frame(piece, used, head, Source::Piece(start));
        }
        self.append(&following[..missing])?;
        self.end_frame(piece, used, head, Source::Kept)
    }

    // rule: 4.1 (own) A frame that is cut in two is kept until the next call
    // Ends the frame with this head, which the first `used` octets of the piece complete; its
    // payload may be at fault.
    #[inline(always)]
    fn end_frame(
        &mut self,
        piece: &[u8],
        used: usize,
        head: Head,
        source: Source,
    ) -> Result<Advance, WireFault>
        requires form { form_fault head ≡ None }
        requires complete { length (octets_at self.old.octets.items piece.now (9 + head.length)
            source) ≡ 9 + head.length }
        ensures { EndsFrame self.old piece.now used head source result self.new }
    {
        match pad_length(&head, self.payload(piece, head, source)) {
            Ok(pad) => {
                self.pass(Phase::Lent, used);
                Ok(Advance {
                    used,
                    frame: Some(Complete { head, pad, source }),
                })
            }
            Err(code) => Err(self.fail(WireFault::PayloadFault(code), used)),
        }
    }

    // rule: 4.1 (own) A frame that is cut in two is kept until the next call
    /// Lends the payload of the complete frame with this head.
    pub(crate) fn payload<'a>(&'a self, piece: &'a [u8], head: Head, source: Source) -> &'a [u8]
        requires { length (octets_at self.now.octets.items piece.now (9 + head.length) source)
            ≡ 9 + head.length }
        ensures { result.now ≡ drop 9 (octets_at self.entry.now.octets.items piece.entry.now
            (9 + head.length) source) }
    {
        match source {
            Source::Piece(start) => {
                let begin = start + HEAD_LEN;
                &piece[begin..begin + head.length as usize]
            }
            Source::Kept => &self.octets[HEAD_LEN..],
        }
    }

    // Appends these octets, or changes nothing.
    #[inline(always)]
    fn append(&mut self, octets: &[u8]) -> Result<(), WireFault>
        ensures ok { OnOk result (self.new.octets.items ≡ self.old.octets.items ++ octets.now) }
        ensures err { IfErr result (λ fault. (fault ≡ WireFault.Memory)
            × (self.new.octets.items ≡ self.old.octets.items)) }
        ensures none { octets.now ≡ [] → IsOk result }
        ensures same { self.new ≡ record self.old { octets = self.new.octets } }
    {
        self.octets.extend_from_slice(octets)?;
        Ok(())
    }

    // rule: 5.4.1 The place of a fault counts the octets up to it, with the preface
    // Counts `used` octets as used, and expects `phase` next.
    #[inline(always)]
    fn pass(&mut self, phase: Phase, used: usize)
        ensures { self.new ≡ record self.old {
          phase = phase;
          place = saturated (self.old.place + used);
        } }
    {
        self.phase = phase;
        self.place = self.place.saturating_add(used as u64);
    }

    // rule: 5.4.1 After a fault each layer answers that fault and changes nothing
    // Fails the stream with this fault, at the last of the first `used` octets of the piece.
    fn fail(&mut self, fault: WireFault, used: usize) -> WireFault
        ensures fault { result ≡ fault }
        ensures after { self.new ≡ record self.old {
          phase = Phase.Failed fault;
          place = saturated (self.old.place + used);
        } }
    {
        self.pass(Phase::Failed(fault), used);
        fault
    }
}
