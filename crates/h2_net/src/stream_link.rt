//! A link over a TCP stream.

ghost use Rattle.std.specs.Prelude.{◌≡◌, ◌⊎◌, ◌<◌, ◌≤◌, ◌-◌, ◌^◌, None, [], length, IfOk, IfErr};
ghost use Rattle.std.specs.Prelude.{OnOk};
ghost use Rattle.std.specs.Prelude.{true, false};
ghost use Rattle.std.specs.Io.KnownBytes.{Appends};
ghost use Rattle.std.specs.Io.Slices.{io_slices_bytes};
ghost use Rattle.h2_link.specs.Links.{failures_after, ended_after, stalled_after, Gives, Takes};
ghost use Rattle.h2_link.specs.Links.{TakesFirst};
ghost use Rattle.h2_net.specs.StreamLinks.{octets_passed, SendsThrough, ReadsThrough};
ghost use Rattle.h2_net.specs.StreamLinks.{KeepsRead};

use crate::parts::{WriteParts, are_many, part_at};
use crate::sending::{MOST_FIRST, keep_first, remove_first, send};
use h2_link::{Link, LinkError, LinkFault, first_part, read_some};
use std::alloc::Global;
use std::io::{ErrorKind, IoSlice, Read};
use std::net::{OpenStream, Shutdown};

/// The maximum number of octets held before they are sent.
const MOST_HELD: usize = 65_536;

/// From this many octets on, a write is sent at once if nothing is held.
pub(crate) const DIRECT: usize = 8_192;

/// The maximum number of octets per read while input is discarded.
const DROPPED_PIECE: usize = 4_096;

/// The maximum number of octets discarded: 16 MiB.
const MOST_DROPPED: usize = 16_777_216;

/// A link over a TCP stream. It holds up to 65,536 octets of writes. It sends them at the next
/// read, once 65,536 are held, when [`StreamLink::flush`] is called, or in one call with a write of
/// several parts that has 8,192 octets or more in all. A write of 8,192 octets or more is sent at
/// once, without a copy, if nothing is held.
///
/// If sending fails, the call fails, and the octets held that were not sent stay held: the next
/// call that sends continues with them, so octets are sent in order and none twice. A write of
/// several parts does not fail at once: if the one call for the held octets and the parts sends no
/// octet of the parts, only the first part that has octets is written, as by `write`. If this
/// succeeds (perhaps the part is only held), the write succeeds, and [`StreamLink::last_error`]
/// does not report the failed attempt. After a failed write it is unknown how many of its octets
/// were sent or are held: write nothing more.
///
/// Octets still held when the link is dropped are not sent.
#[derive(Drop)]
pub struct StreamLink<S> {
    stream: S,
    held: Vec<u8>,
    ended: bool,
    stalled: bool,
    failures: u64,
    first: Vec<u8>,
    last_error: Option<ErrorKind>,
    drained: bool,
}

impl<S: Read + WriteParts + OpenStream> StreamLink<S> {
    // rule: engines (own) A link over TCP holds 65,536 octets at most, then sends them
    // rule: engines (own) A link over TCP counts the calls that have failed
    /// Creates a link over a stream, with its buffers. Sets TCP_NODELAY.
    ///
    /// # Errors
    ///
    /// [`LinkError::Device`] (N1) if the option cannot be set, [`LinkError::Memory`] (N3) if an
    /// allocation was refused.
    pub fn new(alloc: Global, stream: S) -> Result<StreamLink<S>, LinkError>
    where
        S: Drop,
        ensures stream { IfOk result (λ link. link.stream ≡ stream) }
        ensures held { IfOk result (λ link. link.held.items ≡ []) }
        ensures first { IfOk result (λ link. link.first.items ≡ []) }
        ensures last_error { IfOk result (λ link. link.last_error ≡ None) }
        ensures failures { IfOk result (λ link. link.failures ≡ 0) }
        ensures ended { IfOk result (λ link. link.ended ≡ false) }
        ensures stalled { IfOk result (λ link. link.stalled ≡ false) }
        ensures drained { IfOk result (λ link. link.drained ≡ false) }
        ensures err { IfErr result (λ error. (error ≡ LinkError.Device)
            ⊎ (error ≡ LinkError.Memory)) }
    {
        if stream.set_nodelay(true).is_err() {
            return Err(LinkError::Device);
        }
        let Ok(held) = Vec::with_capacity(alloc, MOST_HELD) else {
            return Err(LinkError::Memory);
        };
        let Ok(first) = Vec::with_capacity(alloc, MOST_FIRST) else {
            return Err(LinkError::Memory);
        };
        Ok(StreamLink {
            stream,
            held,
            ended: false,
            stalled: false,
            failures: 0,
            first,
            last_error: None,
            drained: false,
        })
    }

    /// Returns the stream.
    pub fn get_ref(&self) -> &S
        ensures { result.now ≡ self.now.stream }
    {
        &self.stream
    }

    /// Returns the first octets that were read, at most 24: the length of the preface.
    pub fn first_octets(&self) -> &[u8]
        ensures { result.now ≡ self.now.first.items }
    {
        &self.first
    }

    /// Returns the kind of the error with which the last failed call failed. `None` if no call has
    /// failed, or if that one failed because the stream accepted no octets.
    pub fn last_error(&self) -> Option<ErrorKind>
        ensures { result ≡ self.now.last_error }
    {
        self.last_error
    }

    /// Whether [`StreamLink::drain`] was called.
    pub fn is_drained(&self) -> bool
        ensures { result ≡ self.now.drained }
    {
        self.drained
    }

    // rule: engines (own) A link over TCP holds 65,536 octets at most, then sends them
    // rule: engines (own) A link over TCP sends octets in order and once
    // rule: engines (own) A link over TCP counts the calls that have failed
    /// Sends everything held, in as many writes as it takes; a write that a signal interrupts is
    /// repeated.
    ///
    /// # Errors
    ///
    /// [`LinkFault`] if a write failed or accepted no octets: a prefix may have been sent, and
    /// the rest, at least one octet, stays held.
    pub fn flush(&mut self) -> Result<(), LinkFault>
        requires { self.old.failures < 2 ^ 64 - 1 }
        ensures sends { SendsThrough (S.contents self.old.stream)
            (S.contents self.new.stream) result
            self.old.held.items self.new.held.items }
        ensures failures { self.new.failures ≡ failures_after self.old.failures result }
        ensures ended { self.new.ended ≡ self.old.ended }
        ensures stalled { self.new.stalled ≡ self.old.stalled }
        ensures first { self.new.first ≡ self.old.first }
        ensures last_error { OnOk result (self.new.last_error ≡ self.old.last_error) }
    {
        let (count, error) = send(&mut self.stream, &self.held);
        remove_first(&mut self.held, count);
        if self.held.is_empty() {
            return Ok(());
        }
        self.last_error = error;
        self.failures += 1;
        Err(LinkFault)
    }

    // rule: engines (own) A link over TCP sends octets in order and once
    // rule: engines (own) A link over TCP counts the calls that have failed
    /// Sends one octet or more while none are held: all of them, or it fails.
    fn send_directly(&mut self, octets: &[u8]) -> Result<usize, LinkFault>
        requires failures { self.old.failures < 2 ^ 64 - 1 }
        requires none { self.old.held.items ≡ [] }
        requires some { 0 < length octets.now }
        ensures holds { Takes (octets_passed S.contents self.old)
            (octets_passed S.contents self.new) result octets.now }
        ensures takes { Takes None None result octets.now }
        ensures held { self.new.held ≡ self.old.held }
        ensures failures { self.new.failures ≡ failures_after self.old.failures result }
        ensures ended { self.new.ended ≡ self.old.ended }
        ensures stalled { self.new.stalled
            ≡ stalled_after self.old.stalled (length octets.now) result }
        ensures first { self.new.first ≡ self.old.first }
        ensures last_error { OnOk result (self.new.last_error ≡ self.old.last_error) }
    {
        let (count, error) = send(&mut self.stream, octets);
        if count == octets.len() {
            return Ok(count);
        }
        self.last_error = error;
        self.failures += 1;
        Err(LinkFault)
    }

    // rule: engines (own) A link over TCP sends octets in order and once
    /// Sends what is held and then these octets, in one write, if they are [`DIRECT`] or more.
    /// Returns how many of these were sent: 0 if they are fewer, or if the write failed or took no
    /// more than was held.
    fn send_parts(&mut self, parts: &[IoSlice<'_>]) -> usize
        ensures holds { TakesFirst (octets_passed S.contents self.old)
            (octets_passed S.contents self.new) (io_slices_bytes parts.now) result }
        ensures held { 0 < result → self.new.held.items ≡ [] }
        ensures bounded { length self.new.held.items ≤ length self.old.held.items }
        ensures failures { self.new.failures ≡ self.old.failures }
        ensures ended { self.new.ended ≡ self.old.ended }
        ensures stalled { self.new.stalled ≡ self.old.stalled }
        ensures first { self.new.first ≡ self.old.first }
        ensures last_error { self.new.last_error ≡ self.old.last_error }
    {
        if !are_many(parts) {
            return 0;
        }
        if self.held.is_empty() {
            return self.stream.write_parts(parts).unwrap_or(0);
        }
        let all = [
            IoSlice::new(&self.held),
            part_at(parts, 0),
            part_at(parts, 1),
            part_at(parts, 2),
        ];
        let sent = self.stream.write_parts(&all).unwrap_or(0);
        let of_held = sent.min(self.held.len());
        remove_first(&mut self.held, of_held);
        sent - of_held
    }

    // rule: engines (own) After N2 and N3 input is dropped up to 16 MiB
    /// Shuts down writing, and discards input until it ends, at most 16 MiB. Closing a socket with
    /// unread input resets the connection, and the peer may then lose what was sent last. What is
    /// held is not sent.
    pub fn drain(&mut self)
        ensures { self.new ≡ record self.old { stream = self.new.stream; drained = true } }
    {
        self.drained = true;
        if self.stream.shutdown(Shutdown::Write).is_err() {
            return;
        }
        let mut piece = [0u8; DROPPED_PIECE];
        let mut left = MOST_DROPPED;
        for _ in 0..MOST_DROPPED {
            let most = left.min(piece.len());
            match read_some(&mut self.stream, &mut piece[..most]) {
                Ok(0) | Err(_) => return,
                Ok(count) => left = left.saturating_sub(count),
            }
        }
    }
}

/// A read of a stream promises nothing about what was written to it, and a write nothing about
/// what is left to read; so the contracts of this link are about each call, not about all octets
/// so far.
impl<S: Read + WriteParts + OpenStream> Link for StreamLink<S> {
    ghost given = { λ link. None };

    ghost taken = { λ link. None };

    ghost ended = { λ link. link.ended };

    ghost stalled = { λ link. link.stalled };

    ghost faults = { λ link. link.failures };

    /// Sends everything held, then reads. Once the input has ended, that is remembered.
    fn read(&mut self, buffer: &mut [u8]) -> Result<usize, LinkFault>
        requires { self.old.failures < 2 ^ 64 - 1 }
        ensures length { length buffer.new ≡ length buffer.old }
        ensures gives { Gives None None result buffer.new }
        ensures takes_none { Appends None None [] }
        ensures ended { self.new.ended
            ≡ ended_after self.old.ended (length buffer.old) result }
        ensures stalled { self.new.stalled ≡ self.old.stalled }
        ensures failures { self.new.failures ≡ failures_after self.old.failures result }
        ensures reads { ReadsThrough S.contents S.remaining self.old.stream self.new.stream result
            self.old.held.items self.new.held.items buffer.new }
        ensures first { KeepsRead self.old.first.items result buffer.new self.new.first.items }
        ensures last_error { OnOk result (self.new.last_error ≡ self.old.last_error) }
    {
        self.flush()?;
        match read_some(&mut self.stream, buffer) {
            Ok(count) => {
                self.ended = (!buffer.is_empty() && count == 0) || self.ended;
                keep_first(&mut self.first, &buffer[..count]);
                Ok(count)
            }
            Err(error) => {
                self.last_error = Some(error.kind());
                self.failures += 1;
                Err(LinkFault)
            }
        }
    }

    /// Holds a prefix of these octets, as many as there is room for, and sends everything once
    /// 65,536 are held. 8,192 octets or more are sent at once if nothing is held. Only a failed
    /// send leaves no room.
    fn write(&mut self, octets: &[u8]) -> Result<usize, LinkFault>
        requires { self.old.failures < 2 ^ 64 - 1 }
        ensures takes { Takes None None result octets.now }
        ensures gives_none { Appends None None [] }
        ensures ended { self.new.ended ≡ self.old.ended }
        ensures stalled { self.new.stalled
            ≡ stalled_after self.old.stalled (length octets.now) result }
        ensures failures { self.new.failures ≡ failures_after self.old.failures result }
        ensures holds { Takes (octets_passed S.contents self.old)
            (octets_passed S.contents self.new)
            result octets.now }
        ensures bounded { length self.old.held.items ≤ 65536
            → length self.new.held.items ≤ 65536 }
        ensures full { length self.old.held.items ≤ 65536
            → OnOk result (length self.new.held.items < 65536) }
        ensures first { self.new.first ≡ self.old.first }
        ensures last_error { OnOk result (self.new.last_error ≡ self.old.last_error) }
    {
        if octets.len() >= DIRECT && self.held.is_empty() {
            return self.send_directly(octets);
        }
        let room = MOST_HELD.saturating_sub(self.held.len());
        let count = octets.len().min(room);
        if self.held.extend_from_slice(&octets[..count]).is_err() {
            self.last_error = Some(ErrorKind::OutOfMemory);
            self.failures += 1;
            return Err(LinkFault);
        }
        if self.held.len() >= MOST_HELD {
            self.flush()?;
        }
        self.stalled = (!octets.is_empty() && count == 0) || self.stalled;
        Ok(count)
    }

    /// Sends 8,192 octets or more at once, after what is held. If that sends none of them, or
    /// they are fewer, only the first part that has octets is written.
    fn write_parts(&mut self, parts: &[IoSlice<'_>]) -> Result<usize, LinkFault>
        requires { self.old.failures < 2 ^ 64 - 1 }
        ensures takes { Takes None None result (io_slices_bytes parts.now) }
        ensures gives_none { Appends None None [] }
        ensures ended { self.new.ended ≡ self.old.ended }
        ensures stalled { self.new.stalled ≡ stalled_after self.old.stalled
            (length (io_slices_bytes parts.now)) result }
        ensures failures { self.new.failures ≡ failures_after self.old.failures result }
        ensures holds { Takes (octets_passed S.contents self.old)
            (octets_passed S.contents self.new)
            result (io_slices_bytes parts.now) }
        ensures bounded { length self.old.held.items ≤ 65536
            → length self.new.held.items ≤ 65536 }
        ensures full { length self.old.held.items ≤ 65536
            → OnOk result (length self.new.held.items < 65536) }
        ensures first { self.new.first ≡ self.old.first }
        ensures last_error { OnOk result (self.new.last_error ≡ self.old.last_error) }
    {
        let count = self.send_parts(parts);
        if count > 0 {
            return Ok(count);
        }
        self.write(first_part(parts))
    }

    fn failures(&self) -> u64 {
        self.failures
    }
}
