//! The calls of a connection.

ghost use Rattle.std.specs.Prelude.{◌≡◌, ◌≢◌, ◌≤◌, length, true, IfOk, Err};
ghost use Rattle.std.specs.List.{AllByRecursion};
ghost use Rattle.hpack_text.specs.Bits.{IsOctet};
ghost use Rattle.hpack.specs.Written.{AreOctets};
ghost use Rattle.h2_spec_log.specs.Acts.{Open, SendFields, SendData, Release, ResetStream, Refuse};
ghost use Rattle.h2_spec_log.specs.Acts.{SendPing, SendGoAway, ChangeSettings, Values, Number, Widen};
ghost use Rattle.h2_spec_log.specs.Acts.{Count, Done, Fail};
ghost use Rattle.h2_spec_log.specs.CallRules.{sends_no_data};
ghost use Rattle.h2_spec_log.specs.Log.{Log};
ghost use Rattle.h2_spec_log.specs.LogView.{log_view};
ghost use Rattle.h2_flow.specs.ConfigValues.{values_of};
ghost use Rattle.h2_conn.specs.Conn.{ConnAnswers, ConnRepresents, ConnShows, answer_by};

use crate::conn::Conn;
use crate::why::Why;
use bytes::Bytes;
use h2_flow::Config;
use h2_frame::Code;
use h2_spec_log::Refusal;
use hpack::Field;
use std::alloc::Global;

impl Conn {
    /// Opens a stream by sending a field section on it, and returns the stream's number: 1, 3, 5
    /// and so on. `end` sets END_STREAM: this end sends no more fields or DATA on the stream.
    ///
    /// # Errors
    ///
    /// The first that holds of [`Refusal::Closed`] (C1), [`Refusal::TooManyStreams`] (C4),
    /// [`Refusal::StreamsExhausted`] (C5, at a server always), [`Refusal::GoingAway`] (C6),
    /// [`Refusal::OutputFull`] (C7), [`Refusal::ListTooLarge`] (C10) and [`Refusal::Memory`]
    /// (C12). A refused call changes nothing.
    pub fn open(&mut self, fields: &[Field], end: bool) -> Result<u32, Refusal>
        ensures answers { ConnAnswers self.old (Open fields.now end)
            (answer_by (λ id. Number id) result) self.new }
        ensures octets { AreOctets fields.now }
    {
        self.end.open(fields, end)
    }

    /// Sends a field section on an active stream: a response's head, or trailers. `end` sets
    /// END_STREAM: this end sends no more fields or DATA on the stream.
    ///
    /// # Errors
    ///
    /// The first that holds of [`Refusal::Closed`] (C1), [`Refusal::NoSuchStream`] (C2),
    /// [`Refusal::Ended`] (C3), [`Refusal::OutputFull`] (C7), [`Refusal::ListTooLarge`] (C10)
    /// and [`Refusal::Memory`] (C12). A refused call changes nothing.
    pub fn fields(&mut self, id: u32, fields: &[Field], end: bool) -> Result<(), Refusal>
        ensures answers { ConnAnswers self.old (SendFields id fields.now end)
            (answer_by (λ done. Done) result) self.new }
        ensures octets { AreOctets fields.now }
    {
        self.end.send_fields(id, fields, end)
    }

    // contract: calls (own) A call that sends nothing takes no memory
    /// Sends as many octets of a body as the windows of the stream and of the connection allow,
    /// at most 65,536, and returns their number. If all of `octets` were sent and `end` is set,
    /// the last DATA frame has END_STREAM; an empty slice with `end` sends one empty DATA
    /// frame.
    ///
    /// # Errors
    ///
    /// The first that holds of [`Refusal::Closed`] (C1), [`Refusal::NoSuchStream`] (C2),
    /// [`Refusal::Ended`] (C3), [`Refusal::OutputFull`] (C7) and [`Refusal::Memory`] (C12). A
    /// refused call changes nothing.
    pub fn data(&mut self, id: u32, octets: &[u8], end: bool) -> Result<usize, Refusal>
        ensures answers { ConnAnswers self.old (SendData id octets.now end)
            (answer_by (λ count. Count count) result) self.new }
        ensures within { IfOk result (λ count. count ≤ length octets.now) }
        ensures octets { AllByRecursion IsOctet octets.now }

        // A call that sends nothing takes no memory.
        ensures nothing { (values : Values) (log : Log) → ConnRepresents values self.old log
            → sends_no_data (log_view log) id octets.now end ≡ true
            → result ≢ Err Refusal.Memory }
    {
        self.end.send_data(id, octets, end)
    }

    // contract: calls (own) A call that sends nothing takes no memory
    /// Sends octets of a body as [`Conn::data`] does. Those of a DATA frame with 4,096 octets or
    /// more are not copied: the queue shares them until they are put out or consumed. If an
    /// allocation for that is refused, they are copied.
    ///
    /// # Errors
    ///
    /// The first that holds of [`Refusal::Closed`] (C1), [`Refusal::NoSuchStream`] (C2),
    /// [`Refusal::Ended`] (C3), [`Refusal::OutputFull`] (C7) and [`Refusal::Memory`] (C12). A
    /// refused call changes nothing.
    pub fn data_shared(
        &mut self,
        id: u32,
        octets: Bytes<Global>,
        end: bool,
    ) -> Result<usize, Refusal>
        ensures answers { ConnAnswers self.old (SendData id octets end)
            (answer_by (λ count. Count count) result) self.new }
        ensures within { IfOk result (λ count. count ≤ length octets) }
        ensures octets { AllByRecursion IsOctet octets }

        // A call that sends nothing takes no memory.
        ensures nothing { (values : Values) (log : Log) → ConnRepresents values self.old log
            → sends_no_data (log_view log) id octets end ≡ true
            → result ≢ Err Refusal.Memory }
    {
        are_octets(octets.as_slice());
        self.end.send_shared_data(id, octets, end)
    }

    /// Gives `count` octets of flow-control window back to the peer (RFC 9113, section 6.9): by
    /// WINDOW_UPDATE on the connection and, unless the peer has sent END_STREAM, on the stream.
    /// They must be owed ([`Conn::owed`]): reported by [`Event::Data`] as `flow`, and not yet
    /// released.
    ///
    /// # Errors
    ///
    /// The first that holds of [`Refusal::Closed`] (C1), [`Refusal::NoSuchStream`] (C2),
    /// [`Refusal::OutputFull`] (C7), [`Refusal::NotOwed`] (C11) and [`Refusal::Memory`] (C12).
    /// A refused call changes nothing.
    pub fn release(&mut self, id: u32, count: u32) -> Result<(), Refusal>
        ensures { ConnAnswers self.old (Release id count) (answer_by (λ done. Done) result)
            self.new }
    {
        self.end.release(id, count)
    }

    // contract: 6.9.2 (own) The window of the connection is widened by a call, for good
    /// Lets the peer send `count` octets more on the connection, for good (sections 6.9 and
    /// 6.9.2): a WINDOW_UPDATE on stream 0 is queued. The connection's window begins with 65,535
    /// octets, whatever initial window [`Config`] gives to streams. A peer can send at most one
    /// window of octets per round trip, so with a wider window it can send more.
    ///
    /// # Errors
    ///
    /// The first that holds of [`Refusal::Closed`] (C1), [`Refusal::OutputFull`] (C7),
    /// [`Refusal::WindowTooLarge`] (C14: `count` is 0, or greater than 2^31 - 1 minus
    /// [`Conn::granted`]; all calls together can add at most 2,147,418,112) and
    /// [`Refusal::Memory`] (C12). A refused call changes nothing.
    pub fn widen(&mut self, count: u32) -> Result<(), Refusal>
        ensures { ConnAnswers self.old (Widen count) (answer_by (λ done. Done) result) self.new }
    {
        self.end.widen(count)
    }

    /// Resets an active stream: sends RST_STREAM with `code` (section 6.4).
    ///
    /// # Errors
    ///
    /// The first that holds of [`Refusal::Closed`] (C1), [`Refusal::NoSuchStream`] (C2),
    /// [`Refusal::OutputFull`] (C7), [`Refusal::TooManyResets`] (C9) and [`Refusal::Memory`]
    /// (C12). A refused call changes nothing.
    pub fn reset(&mut self, id: u32, code: u32) -> Result<(), Refusal>
        ensures { ConnAnswers self.old (ResetStream id code) (answer_by (λ done. Done) result)
            self.new }
    {
        self.end.reset(id, code)
    }

    // contract: calls (own) A stream that the layer above refuses is reset
    /// Resets an active stream for a fault of the peer that the layer above has found: sends
    /// RST_STREAM with `code`. In these cases the connection fails instead, and the call returns
    /// `Ok` all the same:
    ///
    /// - with INTERNAL_ERROR where `code` is INTERNAL_ERROR (2), by which the layer above says
    ///   that it is out of memory, or where an allocation was refused here ([`Conn::why`] is
    ///   [`Why::OutOfMemory`] in both cases);
    /// - with ENHANCE_YOUR_CALM where this end has already reset 1,000 streams, or RST_STREAM
    ///   would bring the queued output above 262,144 octets.
    ///
    /// # Errors
    ///
    /// The first that holds of [`Refusal::Closed`] (C1) and, unless `code` is 2,
    /// [`Refusal::NoSuchStream`] (C2). A refused call changes nothing.
    pub fn refuse(&mut self, id: u32, code: u32) -> Result<(), Refusal>
        ensures { ConnShows self.old (Refuse id code) (answer_by (λ done. Done) result) self.new }
    {
        self.end.refuse(id, code)?;
        if let Some(failed) = self.end.failed() {
            self.why = Some(Why::of_refusal(failed, &self.end));
        }
        Ok(())
    }

    /// Sends PING with these octets (section 6.7); [`Event::Pong`] reports the answer.
    ///
    /// # Errors
    ///
    /// The first that holds of [`Refusal::Closed`] (C1), [`Refusal::OutputFull`] (C7),
    /// [`Refusal::PingWaits`] (C8) and [`Refusal::Memory`] (C12). A refused call changes
    /// nothing.
    pub fn ping(&mut self, octets: [u8; 8]) -> Result<(), Refusal>
        ensures { ConnAnswers self.old (SendPing octets) (answer_by (λ done. Done) result)
            self.new }
    {
        self.end.ping(octets)
    }

    /// Sends GOAWAY (section 6.8) with NO_ERROR and the number of the last stream that this end
    /// has processed: it processes no later streams.
    ///
    /// # Errors
    ///
    /// The first that holds of [`Refusal::Closed`] (C1), [`Refusal::GoingAway`] (C6, if this
    /// end has already sent GOAWAY), [`Refusal::OutputFull`] (C7) and [`Refusal::Memory`]
    /// (C12). A refused call changes nothing.
    pub fn go_away(&mut self) -> Result<(), Refusal>
        ensures { ConnAnswers self.old SendGoAway (answer_by (λ done. Done) result) self.new }
    {
        self.end.go_away()
    }

    // contract: calls (own) The layer above ends the connection with a code of its own
    /// Ends the connection with an error code of the caller's choice (section 5.4.1). GOAWAY with
    /// that code, and with the number of the last stream that this end has processed, becomes the
    /// last frame of the queued output. From then on [`Conn::failed`] returns the code,
    /// [`Conn::take`] and [`Conn::advance`] fail with it, and every other call is refused with C1,
    /// except the readers and the calls for output. It takes no memory.
    ///
    /// # Errors
    ///
    /// [`Refusal::Closed`] (C1) if the connection has failed before. A refused call changes
    /// nothing.
    pub fn fail(&mut self, code: Code) -> Result<(), Refusal>
        ensures { ConnAnswers self.old (Fail code) (answer_by (λ done. Done) result) self.new }
    {
        self.end.fail_on_request(code)?;
        self.why = Some(Why::EndedAbove(code));
        Ok(())
    }

    // contract: 6.5.3 (own) Own SETTINGS are changed once those before are acknowledged
    // rule: 6.5.3 (own) Own SETTINGS are changed once those before are acknowledged
    /// Changes this end's settings (section 6.5). The SETTINGS frame that it sends has the header
    /// table's limit, the initial window, at a server also the number of streams, and the maximum
    /// frame size if that differs from the one sent last. The values come into force with the
    /// peer's acknowledgment, which [`Event::Acked`] reports; a greater maximum frame size is
    /// accepted at once, since the peer may have applied it before its acknowledgment arrives.
    ///
    /// # Errors
    ///
    /// The first that holds of [`Refusal::Closed`] (C1), [`Refusal::OutputFull`] (C7),
    /// [`Refusal::SettingsWait`] (C13: this end's last SETTINGS frame, which may be its first, is
    /// not acknowledged yet) and [`Refusal::Memory`] (C12). A refused call changes nothing.
    pub fn change_settings(&mut self, config: Config) -> Result<(), Refusal>
        ensures { ConnAnswers self.old (ChangeSettings (values_of config))
            (answer_by (λ done. Done) result) self.new }
    {
        self.end.change_settings(config)?;
        self.limit_payloads();
        Ok(())
    }
}

/// Does nothing; its contract states for a proof that the items of a slice are octets.
fn are_octets(octets: &[u8])
    ensures { AllByRecursion IsOctet octets.now }
{
    let _len = octets.len();
}
