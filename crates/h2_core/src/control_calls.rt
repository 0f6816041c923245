//! Calls that control streams and the connection: credit, resets, PING and GOAWAY (RFC 9113,
//! sections 6.4, 6.7, 6.8 and 6.9).

ghost use Rattle.std.specs.Prelude.{◌≡◌, nat_le, length, is_some, None, true, false, OnOk};
ghost use Rattle.std.specs.Prelude.{IfErr, Err, ◌≢◌};
ghost use Rattle.h2_spec_log.specs.Limits.{full_output};
ghost use Rattle.h2_spec_log.specs.Acts.{Release, ResetStream, SendPing, SendGoAway, Fail};
ghost use Rattle.h2_core.specs.Endpoint.{end_of, IsSoundEnd};
ghost use Rattle.h2_core.specs.Calls.{CallRefused, CallAccepted, CallRefuses};

use crate::endpoint::Endpoint;
use crate::step_error::StepError;
use h2_frame::limits::{FULL_OUTPUT, LARGE_FRAME, MAX_RESETS, SMALL_FRAME};
use h2_frame::{Code, FrameRef};
use h2_spec_log::Refusal;

impl Endpoint {
    // contract: 6.9 Nothing of the window of the connection is lost
    // contract: 6.9 What a stream owes is returned when it is released or over
    // rule: 6.9 What a stream owes is returned when it is released or over
    /// Returns `count` octets of flow-control window to the peer: by WINDOW_UPDATE on the
    /// connection and, unless the peer has sent END_STREAM, on the stream. They must have been
    /// reported and be owed.
    ///
    /// # Errors
    ///
    /// The first that holds of [`Refusal::Closed`] (C1), [`Refusal::NoSuchStream`] (C2),
    /// [`Refusal::OutputFull`] (C7), [`Refusal::NotOwed`] (C11) and [`Refusal::Memory`] (C12).
    /// A refused call changes nothing.
    pub fn release(&mut self, id: u32, count: u32) -> Result<(), Refusal>
        requires sound { self.old.failed ≡ None → IsSoundEnd (end_of self.old) }
        ensures ok { OnOk result (CallAccepted (end_of self.old) (Release id count)
            (end_of self.new)) }
        ensures err { IfErr result (λ refusal. CallRefused (end_of self.old) (Release id count)
            refusal (end_of self.new)) }
    {
        self.check_up()?;
        let Some(mut stream) = self.streams.stream(id) else {
            return Err(Refusal::NoSuchStream);
        };
        self.check_room()?;
        if count == 0 || count > stream.owed {
            return Err(Refusal::NotOwed);
        }
        if self.output.reserve(2 * SMALL_FRAME).is_err() {
            return Err(Refusal::Memory);
        }
        if !stream.state.ended_in {
            self.output.add_frame(FrameRef::WindowUpdate {
                stream: id,
                increment: count,
            });
            stream.recv_window += i64::from(count);
        }
        self.output.add_frame(FrameRef::WindowUpdate {
            stream: 0,
            increment: count,
        });
        stream.owed -= count;
        self.streams.set(id, stream);
        self.recv_window += count;
        Ok(())
    }

    // contract: 5.1 Each frame is sent only in states that allow it
    // contract: 6.4 (own) An end resets a stream on request, and counts it
    // rule: 6.4 (own) An end resets a stream on request, and counts it
    /// Resets an active stream: sends RST_STREAM with `code` (section 6.4).
    ///
    /// # Errors
    ///
    /// The first that holds of [`Refusal::Closed`] (C1), [`Refusal::NoSuchStream`] (C2),
    /// [`Refusal::OutputFull`] (C7), [`Refusal::TooManyResets`] (C9) and [`Refusal::Memory`]
    /// (C12). A refused call changes nothing.
    pub fn reset(&mut self, id: u32, code: u32) -> Result<(), Refusal>
        requires sound { self.old.failed ≡ None → IsSoundEnd (end_of self.old) }
        ensures ok { OnOk result (CallAccepted (end_of self.old) (ResetStream id code)
            (end_of self.new)) }
        ensures err { IfErr result (λ refusal. CallRefused (end_of self.old) (ResetStream id code)
            refusal (end_of self.new)) }
    {
        self.check_up()?;
        let Some(stream) = self.streams.stream(id) else {
            return Err(Refusal::NoSuchStream);
        };
        self.check_room()?;
        if self.resets >= MAX_RESETS {
            return Err(Refusal::TooManyResets);
        }
        if self.reset_stream(id, Some(stream), code, 0).is_err() {
            return Err(Refusal::Memory);
        }
        Ok(())
    }

    // contract: 10.5 (own) An end that resets 1,001 streams ends with ENHANCE_YOUR_CALM
    // contract: calls (own) A stream that the layer above refuses is reset
    // rule: calls (own) A stream that the layer above refuses is reset
    /// Resets an active stream for a fault of the peer that the layer above has found: sends
    /// RST_STREAM with `code`. In these cases the connection fails instead, and the call returns
    /// `Ok` all the same:
    ///
    /// - with INTERNAL_ERROR where `code` is INTERNAL_ERROR (2), by which the layer above says
    ///   that it is out of memory, or where an allocation was refused here;
    /// - with ENHANCE_YOUR_CALM where this end has already reset 1,000 streams, or RST_STREAM
    ///   would bring the queued output above 262,144 octets.
    ///
    /// # Errors
    ///
    /// The first that holds of [`Refusal::Closed`] (C1) and, unless `code` is 2,
    /// [`Refusal::NoSuchStream`] (C2). A refused call changes nothing.
    pub fn refuse(&mut self, id: u32, code: u32) -> Result<(), Refusal>
        requires sound { self.old.failed ≡ None → IsSoundEnd (end_of self.old) }
        ensures { CallRefuses (end_of self.old) id code result (end_of self.new) }
    {
        self.check_up()?;
        let stream = self.streams.stream(id);
        if code == Code::InternalError.number() {
            self.fail_by(StepError::OutOfMemory);
            return Ok(());
        }
        let Some(stream) = stream else {
            return Err(Refusal::NoSuchStream);
        };
        if self.is_over_limits() {
            self.fail_by(StepError::fault(Code::EnhanceYourCalm));
            return Ok(());
        }
        if self.reset_stream(id, Some(stream), code, 0).is_err() {
            self.fail_by(StepError::OutOfMemory);
        }
        Ok(())
    }

    // contract: 6.7 (own) One own PING at a time awaits its answer
    // rule: 6.7 (own) One own PING at a time awaits its answer
    /// Sends PING with these octets (section 6.7).
    ///
    /// # Errors
    ///
    /// The first that holds of [`Refusal::Closed`] (C1), [`Refusal::OutputFull`] (C7),
    /// [`Refusal::PingWaits`] (C8) and [`Refusal::Memory`] (C12). A refused call changes
    /// nothing.
    pub fn ping(&mut self, octets: [u8; 8]) -> Result<(), Refusal>
        ensures ok { OnOk result (CallAccepted (end_of self.old) (SendPing octets)
            (end_of self.new)) }
        ensures err { IfErr result (λ refusal. CallRefused (end_of self.old) (SendPing octets)
            refusal (end_of self.new)) }
    {
        self.check_up()?;
        self.check_room()?;
        if self.ping.is_some() {
            return Err(Refusal::PingWaits);
        }
        if self.output.reserve(LARGE_FRAME).is_err() {
            return Err(Refusal::Memory);
        }
        self.output.add_frame(FrameRef::Ping { ack: false, octets });
        self.ping = Some(octets);
        Ok(())
    }

    // contract: 6.8 An own GOAWAY is sent once, with the greatest stream processed
    // rule: 6.8 An own GOAWAY is sent once, with the greatest stream processed
    /// Sends GOAWAY (section 6.8) with NO_ERROR and the number of the last stream that this end
    /// has processed: it processes no later streams.
    ///
    /// # Errors
    ///
    /// The first that holds of [`Refusal::Closed`] (C1), [`Refusal::GoingAway`] (C6, if this
    /// end has already sent GOAWAY), [`Refusal::OutputFull`] (C7) and [`Refusal::Memory`]
    /// (C12). A refused call changes nothing.
    pub fn go_away(&mut self) -> Result<(), Refusal>
        requires sound { self.old.failed ≡ None → IsSoundEnd (end_of self.old) }
        ensures ok { OnOk result (CallAccepted (end_of self.old) SendGoAway (end_of self.new)) }
        ensures err { IfErr result (λ refusal. CallRefused (end_of self.old) SendGoAway refusal
            (end_of self.new)) }
    {
        self.check_up()?;
        if self.goaway_sent.is_some() {
            return Err(Refusal::GoingAway);
        }
        self.check_room()?;
        if self.output.reserve(LARGE_FRAME).is_err() {
            return Err(Refusal::Memory);
        }
        self.output.add_frame(FrameRef::GoAway {
            last: self.last_processed,
            code: Code::NoError.number(),
            debug: &[],
        });
        self.goaway_sent = Some(self.last_processed);
        Ok(())
    }

    // rule: calls (own) The layer above ends the connection with a code of its own
    /// Ends the connection with a code of the layer above (section 5.4.1): GOAWAY with it, and
    /// with the number of the last stream that this end has processed, is the last frame of the
    /// queued output. It takes no memory.
    ///
    /// # Errors
    ///
    /// [`Refusal::Closed`] (C1) if the connection has failed before. A refused call changes
    /// nothing.
    pub fn fail_on_request(&mut self, code: Code) -> Result<(), Refusal>
        requires sound { self.old.failed ≡ None → IsSoundEnd (end_of self.old) }
        ensures ok { OnOk result (CallAccepted (end_of self.old) (Fail code) (end_of self.new)) }
        ensures err { IfErr result (λ refusal. CallRefused (end_of self.old) (Fail code) refusal
            (end_of self.new)) }
        ensures memory { result ≢ Err Refusal.Memory }
    {
        self.check_up()?;
        self.fail(code, self.last_processed);
        Ok(())
    }

    // rule: calls (own) A call does what it says, or is refused for its first condition
    /// Checks for C1: the connection has failed.
    pub(crate) fn check_up(&self) -> Result<(), Refusal>
        ensures ok { OnOk result (self.now.failed ≡ None) }
        ensures err { IfErr result (λ refusal. (refusal ≡ Refusal.Closed)
            × (is_some self.now.failed ≡ true)) }
    {
        if self.failed.is_some() {
            return Err(Refusal::Closed);
        }
        Ok(())
    }

    // rule: calls (own) A call does what it says, or is refused for its first condition
    /// Checks for C7: 65,536 octets or more of output are queued.
    pub(crate) fn check_room(&self) -> Result<(), Refusal>
        ensures ok { OnOk result (nat_le full_output (length self.now.output.waiting) ≡ false) }
        ensures err { IfErr result (λ refusal. (refusal ≡ Refusal.OutputFull)
            × (nat_le full_output (length self.now.output.waiting) ≡ true)) }
    {
        if self.output.len() >= FULL_OUTPUT {
            return Err(Refusal::OutputFull);
        }
        Ok(())
    }
}
