//! The calls of a client and of a server.

ghost use Rattle.std.specs.Prelude.{◌≡◌, ◌↔◌, ◌+◌, ◌≤◌, min, true, false};
ghost use Rattle.std.specs.Prelude.{IfOk, IsOk, OnOk, OnErr, None, vec_len};
ghost use Rattle.std.specs.Vec.{vec_capacity};
ghost use Rattle.h2_flow.specs.ConfigValues.{values_of};
ghost use Rattle.h2_spec_log.specs.Acts.{ResetStream, SendPing, SendGoAway, ChangeSettings};
ghost use Rattle.h2_spec_log.specs.Acts.{PutOut, Values, Count, Done, Release, Widen, Fail};
ghost use Rattle.h2_spec_log.specs.CallRules.{returns_before_put_out};
ghost use Rattle.h2_spec_log.specs.Limits.{full_output};
ghost use Rattle.h2_spec_log.specs.Log.{Log, waiting, reader_next_live};
ghost use Rattle.h2_spec_log.specs.LogView.{log_view};
ghost use Rattle.h2_conn.specs.Conn.{ConnRepresents, GivesOut, answer_by, LendsFrom};
ghost use Rattle.h2_conn.specs.Counts.{last_flow};
ghost use Rattle.h2_ends.specs.Ends.{EndLog};
ghost use Rattle.h2_ends.specs.EndCalls.{unsent_on};
ghost use Rattle.h2_ends.specs.Quiet.{IsQuietEnd};
ghost use Rattle.h2_ends.specs.Represents.{EndRepresents, EndAnswers, EndPumps, EndReleases};
ghost use Rattle.h2_ends.specs.Represents.{EndSendsBody, EndSendsTrailers, EndPumpsSome};

use crate::refusal::EndRefusal;
use crate::roles::EndAs;
use h2_conn::{Config, Conn, Refusal};
use h2_frame::Code;
use h2_frame::limits::FULL_OUTPUT;
use h2_message::{Field, Malformed};

impl<R> EndAs<R> {
    /// Returns the connection, to query its state.
    pub fn conn(&self) -> &Conn
        ensures { result.now ≡ self.now.end.conn }
    {
        &self.end.conn
    }

    // contract: 8.1 (own) A part of a message is sent where one was begun, and is checked
    /// Sends octets of the body of a message that was begun, and returns how many: as many as both
    /// windows allow, at most 65,536 a call (see [`Conn::data`]), perhaps none. With `end`, the
    /// last DATA frame has END_STREAM if all of `octets` were sent. The unsent octets are not
    /// kept, so give them again: after writing, if the output is full ([`EndAs::is_full`]); after
    /// [`EndAs::take`] has received credit, if [`Conn::room`] of `id` or of 0 (the connection) is
    /// 0 or less.
    ///
    /// # Errors
    ///
    /// Nothing has changed. E3 is checked first, then E1.
    ///
    /// - [`EndRefusal::BadMessage`] (E1) with [`Malformed::BadLength`] (M11) where the body,
    ///   with all of these octets, would be longer than its head says, or, with `end`, shorter;
    ///   or, at a server, where it has octets though the response has no content (to HEAD, 204,
    ///   304).
    /// - [`EndRefusal::Conn`] (E2) with the first of [`Refusal::Closed`] (C1),
    ///   [`Refusal::OutputFull`] (C7) and [`Refusal::Memory`] (C12).
    /// - [`EndRefusal::NotAsked`] (E3) where the stream isn't active, no message was begun on it,
    ///   or the message has ended.
    pub fn send_body(&mut self, id: u32, octets: &[u8], end: bool) -> Result<usize, EndRefusal>
        ensures { EndSendsBody self.old.end id octets.now end result self.new.end }
    {
        self.end.send_body(id, octets, end)
    }

    // contract: 8.1 (own) A part of a message is sent where one was begun, and is checked
    /// Sends trailers, which end the message that was begun on a stream.
    ///
    /// # Errors
    ///
    /// Nothing has changed. E3 is checked first, then E1.
    ///
    /// - [`EndRefusal::BadMessage`] (E1) with the first of M1, M2, M3 and M10 that the trailers
    ///   break, else with M11 where the body is shorter than its head says.
    /// - [`EndRefusal::Conn`] (E2) with the first of [`Refusal::Closed`] (C1),
    ///   [`Refusal::OutputFull`] (C7), [`Refusal::ListTooLarge`] (C10) and [`Refusal::Memory`]
    ///   (C12).
    /// - [`EndRefusal::NotAsked`] (E3) as for [`EndAs::send_body`].
    pub fn send_trailers(&mut self, id: u32, trailers: &[Field]) -> Result<(), EndRefusal>
        ensures { EndSendsTrailers self.old.end id trailers.now result self.new.end }
    {
        self.end.send_trailers(id, trailers)
    }

    // contract: 8.1 What was sent on a stream is a prefix of its message
    // contract: 8.1 (own) pump sends the lower streams first, and all that can go
    /// Sends waiting bodies and trailers, streams in rising order, each as far as its windows
    /// allow, until nothing more can go or 65,536 octets or more of output wait. Returns how many
    /// octets of bodies were sent. A long body on a stream with a lower number goes before those on
    /// streams with higher ones; [`EndAs::pump_some`] takes turns.
    ///
    /// # Errors
    ///
    /// [`EndRefusal::Conn`] (E2) with [`Refusal::Closed`] (C1) or [`Refusal::Memory`] (C12):
    /// what was sent stays sent, and the rest waits.
    pub fn pump(&mut self) -> Result<usize, EndRefusal>
        ensures { EndPumps self.old.end result self.new.end }
    {
        self.end.pump()
    }

    // contract: 8.1 (own) pump_some gives each stream a share, in turn
    /// Sends a share of what waits on each stream, in turn, and returns how many octets of
    /// bodies were sent.
    ///
    /// A call makes one pass over the streams on which something waits: in rising order from the
    /// stream with which the pass begins, then from the lowest. A share is at most `most` octets
    /// of the body (0 counts as 1, and more than 65,536 as 65,536), and no more than the windows
    /// of the stream and of the connection allow. If there are no trailers, the last DATA frame of
    /// the body has END_STREAM. If there are, they follow in the same share as the last octet,
    /// unless the output is full by then.
    ///
    /// The pass ends early if a share is cut short because the output is full (65,536 octets or
    /// more wait) or because the connection's window is used up. The next pass then begins with
    /// the rest of that share; otherwise it begins with the same stream as this one. So no long
    /// body keeps the others waiting: between two shares of one stream every other stream on which
    /// something waits gets a share. A share that was cut short and its rest in the next pass
    /// count as one.
    ///
    /// [`EndAs::pump`] sends lower streams first instead. It also goes on where the connection's
    /// window is used up, and sends trailers of later streams, which `pump_some` leaves to a later
    /// pass.
    ///
    /// # Errors
    ///
    /// [`EndRefusal::Conn`] (E2) with [`Refusal::Closed`] (C1) or [`Refusal::Memory`] (C12):
    /// what was sent stays sent, and the rest waits. After C12 the next pass begins with the
    /// stream at which memory was refused, and the rest of its share.
    pub fn pump_some(&mut self, most: usize) -> Result<usize, EndRefusal>
        ensures { EndPumpsSome self.old.end most result self.new.end }
    {
        self.end.pump_some(most)
    }

    // contract: 8.1 What was sent on a stream is a prefix of its message
    /// Returns how many octets of a stream's body still wait for [`EndAs::pump`] or
    /// [`EndAs::pump_some`]. It is 0 where the stream isn't active, where only trailers wait, and
    /// for a message sent in parts, of which nothing ever waits.
    pub fn unsent(&self, id: u32) -> usize
        ensures { (values : Values) (end : EndLog) → EndRepresents values self.now.end end
            → result ≡ unsent_on end id }
    {
        self.end.unsent(id)
    }

    // contract: 8.1.1 (own) A part that is refused breaks a rule, the least of which is named
    /// Returns the stream of the last part of a message that [`EndAs::take`] refused, and the
    /// first rule of [`Malformed`] (M1 to M12) that this part breaks, given the parts before it.
    /// `None` until a part is refused; kept after the connection has failed. A field list above the
    /// limit, and a fault of a frame, are not refused parts, and do not change the result.
    pub fn last_malformed(&self) -> Option<(u32, Malformed)>
        ensures { (values : Values) (end : EndLog) → EndRepresents values self.now.end end
            → result ≡ end.malformed }
    {
        self.end.last_malformed()
    }

    // contract: 6.1 The complete payload of DATA, padding included, counts for windows
    /// Returns the payload length of the last DATA frame received, padding included. After
    /// [`EndEvent::Body`](crate::EndEvent::Body) it is the count to give to [`EndAs::release`]
    /// once the octets are used, if it isn't 0 and the stream is still active. See
    /// [`Conn::last_flow`].
    pub fn last_flow(&self) -> u32
        ensures { (values : Values) (log : Log) → ConnRepresents values self.now.end.conn log
            → result ≡ last_flow log.frames }
    {
        self.end.conn.last_flow()
    }

    // contract: 6.9 (own) release_all releases what is owed on each active stream
    /// Gives back all flow-control credit that is owed to the peer (WINDOW_UPDATE; RFC 9113,
    /// section 6.9), streams in rising order.
    ///
    /// # Errors
    ///
    /// [`EndRefusal::Conn`] (E2) with [`Refusal::Closed`] (C1), [`Refusal::OutputFull`] (C7) or
    /// [`Refusal::Memory`] (C12): what was released stays released, and the rest is owed.
    pub fn release_all(&mut self) -> Result<(), EndRefusal>
        ensures { EndReleases self.old.end result self.new.end }
    {
        self.end.release_all()
    }

    // contract: 8.1 (own) The other calls of a client and a server are the connection's
    /// Releases `count` octets of DATA that were received on a stream, padding included
    /// ([`EndAs::last_flow`]), so that the peer may send as many more: see [`Conn::release`]. It
    /// is for a caller that uses bodies slowly; [`EndAs::release_all`] releases everything.
    /// [`Conn::owed`] returns how many octets of a stream are not released yet.
    ///
    /// # Errors
    ///
    /// [`Refusal::Closed`] (C1), [`Refusal::NoSuchStream`] (C2), [`Refusal::OutputFull`] (C7),
    /// [`Refusal::NotOwed`] (C11) and [`Refusal::Memory`] (C12), in this order. Nothing has
    /// changed.
    pub fn release(&mut self, id: u32, count: u32) -> Result<(), Refusal>
        ensures { EndAnswers self.old.end (Release id count) (answer_by (λ done. Done) result)
            self.new.end }
    {
        self.end.conn.release(id, count)
    }

    // contract: 8.1 (own) Something is kept of each active stream, and of no other
    // contract: 8.1 (own) The other calls of a client and a server are the connection's
    /// Resets a stream with a code, drops what waits on it, and gives up a message that was
    /// begun there: see [`Conn::reset`].
    ///
    /// # Errors
    ///
    /// [`Refusal::Closed`] (C1), [`Refusal::NoSuchStream`] (C2), [`Refusal::OutputFull`] (C7),
    /// [`Refusal::TooManyResets`] (C9) and [`Refusal::Memory`] (C12), in this order. Nothing
    /// has changed.
    pub fn reset(&mut self, id: u32, code: u32) -> Result<(), Refusal>
        ensures { EndAnswers self.old.end (ResetStream id code) (answer_by (λ done. Done) result)
            self.new.end }
    {
        self.end.reset(id, code)
    }

    // contract: 6.9.2 (own) The window of the connection is widened by a call, for good
    /// Lets the peer send `count` octets more on the connection, for good: see [`Conn::widen`].
    ///
    /// # Errors
    ///
    /// [`Refusal::Closed`] (C1), [`Refusal::OutputFull`] (C7), [`Refusal::WindowTooLarge`] (C14)
    /// and [`Refusal::Memory`] (C12), in this order. Nothing has changed.
    pub fn widen(&mut self, count: u32) -> Result<(), Refusal>
        ensures { EndAnswers self.old.end (Widen count) (answer_by (λ done. Done) result)
            self.new.end }
    {
        self.end.conn.widen(count)
    }

    /// Sends PING: see [`Conn::ping`].
    ///
    /// # Errors
    ///
    /// [`Refusal::Closed`] (C1), [`Refusal::OutputFull`] (C7), [`Refusal::PingWaits`] (C8) and
    /// [`Refusal::Memory`] (C12), in this order. Nothing has changed.
    pub fn ping(&mut self, octets: [u8; 8]) -> Result<(), Refusal>
        ensures { EndAnswers self.old.end (SendPing octets) (answer_by (λ done. Done) result)
            self.new.end }
    {
        self.end.conn.ping(octets)
    }

    /// Sends GOAWAY: see [`Conn::go_away`].
    ///
    /// # Errors
    ///
    /// [`Refusal::Closed`] (C1), [`Refusal::GoingAway`] (C6), [`Refusal::OutputFull`] (C7) and
    /// [`Refusal::Memory`] (C12), in this order. Nothing has changed.
    pub fn go_away(&mut self) -> Result<(), Refusal>
        ensures { EndAnswers self.old.end SendGoAway (answer_by (λ done. Done) result)
            self.new.end }
    {
        self.end.conn.go_away()
    }

    /// Fails the connection with a code that the caller chooses: see [`Conn::fail`].
    ///
    /// # Errors
    ///
    /// [`Refusal::Closed`] (C1): the connection has failed before. Nothing has changed.
    pub fn fail(&mut self, code: Code) -> Result<(), Refusal>
        ensures { EndAnswers self.old.end (Fail code) (answer_by (λ done. Done) result)
            self.new.end }
    {
        self.end.conn.fail(code)
    }

    /// Changes this end's settings: see [`Conn::change_settings`].
    ///
    /// # Errors
    ///
    /// [`Refusal::Closed`] (C1), [`Refusal::OutputFull`] (C7), [`Refusal::SettingsWait`] (C13) and
    /// [`Refusal::Memory`] (C12), in this order. Nothing has changed.
    pub fn change_settings(&mut self, config: Config) -> Result<(), Refusal>
        ensures { EndAnswers self.old.end (ChangeSettings (values_of config))
            (answer_by (λ done. Done) result) self.new.end }
    {
        self.end.conn.change_settings(config)
    }

    // contract: calls (own) An end answers of its state, and of little once it has failed
    /// Returns whether 65,536 octets or more of output wait. Then `pump` and `pump_some` send
    /// nothing, and each other call that would write a frame, except `take` and `fail`, is
    /// refused: with [`Refusal::OutputFull`] (C7), unless an earlier check refuses it.
    pub fn is_full(&self) -> bool
        ensures { (values : Values) (log : Log) → ConnRepresents values self.now.end.conn log
            → (result ≡ true) ↔ (full_output ≤ waiting log) }
    {
        self.end.conn.waiting() >= FULL_OUTPUT
    }

    // contract: calls (own) An end answers of its state, and of little once it has failed
    /// Returns whether no output waits and either no stream is active or the connection has
    /// failed. Once true after GOAWAY or a failure, the writing side can be closed (RFC 9113,
    /// section 6.8); read and drop what still comes before the transport is closed. The call may
    /// go over all active streams, as [`Conn::next_live`] does.
    pub fn is_drained(&self) -> bool
        ensures { (values : Values) (log : Log) → ConnRepresents values self.now.end.conn log
            → (result ≡ true) ↔ ((waiting log ≡ 0) × (reader_next_live log 0 ≡ None)) }
    {
        self.end.conn.waiting() == 0 && self.end.conn.next_live(0).is_none()
    }

    // contract: 8.1 (own) An end is quiet where nothing waits, is owed or could be sent
    /// Returns whether the connection is up and has nothing to do: no output waits, no credit is
    /// owed ([`Conn::owed`]) or due ([`Conn::due`]), and no waiting part of a message could be
    /// sent. An incomplete frame may be held, and `take` may still return an event that needs no
    /// octets. The cost of the call grows with the number of active streams between the lowest and
    /// the highest on which a message waits, and between the lowest and the highest on which
    /// octets may be owed.
    pub fn is_quiet(&self) -> bool
        ensures { (values : Values) (end : EndLog) → EndRepresents values self.now.end end
            → (result ≡ true) ↔ IsQuietEnd end }
    {
        self.end.is_quiet()
    }

    // rule (contract): 8.1 (own) The other calls of a client and a server are the connection's
    /// Appends at most `count` octets of the output to `out`, removes them from the queue, and
    /// returns their number: see [`Conn::put_out`].
    ///
    /// # Errors
    ///
    /// [`Refusal::Memory`] (C12), as for [`Conn::put_out`]. Nothing has changed.
    pub fn put_out(&mut self, count: usize, out: &mut Vec<u8>) -> Result<usize, Refusal>
        ensures answers { EndAnswers self.old.end (PutOut count)
            (answer_by (λ given. Count given) result) self.new.end }
        ensures ok { IfOk result (λ given. GivesOut self.old.end.conn count given out.old.items
            out.new.items) }
        ensures err { OnErr result (out.new.items ≡ out.old.items) }

        // Where no credit is returned first, the capacity of `out` is enough.
        ensures room { (values : Values) (log : Log) → ConnRepresents values self.old.end.conn log
            → returns_before_put_out (log_view log) ≡ false
            → vec_len out.old + min count (waiting log) ≤ vec_capacity out.old → IsOk result }
    {
        self.end.conn.put_out(count, out)
    }

    // contract: calls (own) An end lends its output, and says the place of a fault
    /// Lends the queued output from offset `at` on, as much as lies there in one piece: see
    /// [`Conn::waiting_from`]. After [`EndAs::ready`] the queue holds all that can be written now.
    pub fn waiting_from(&self, at: usize) -> &[u8]
        ensures { LendsFrom self.now.end.conn at result.now }
    {
        self.end.conn.waiting_from(at)
    }

    // contract: 8.1 (own) The other calls of a client and a server are the connection's
    /// Prepares the queued output to be written from where it lies: see [`Conn::ready`].
    ///
    /// # Errors
    ///
    /// [`Refusal::Memory`] (C12), as for [`Conn::ready`]. Nothing has changed.
    pub fn ready(&mut self) -> Result<(), Refusal>
        ensures answers { EndAnswers self.old.end (PutOut 0) (answer_by (λ done. Count 0) result)
            self.new.end }

        // No credit is returned first then, so consuming takes no memory.
        ensures returned { OnOk result ((values : Values) (log : Log)
            → ConnRepresents values self.new.end.conn log
            → returns_before_put_out (log_view log) ≡ false) }
        ensures room { (values : Values) (log : Log) → ConnRepresents values self.old.end.conn log
            → returns_before_put_out (log_view log) ≡ false → IsOk result }
    {
        self.end.conn.ready()
    }

    // contract: 8.1 (own) The other calls of a client and a server are the connection's
    /// Removes at most `count` octets of the queued output, which the caller has written from
    /// where they lie, and returns their number: see [`Conn::consume`]. Call [`EndAs::ready`]
    /// before each [`EndAs::waiting_from`], and give the number of octets that were written.
    ///
    /// # Errors
    ///
    /// [`Refusal::Memory`] (C12), as for [`Conn::consume`]. It does not come if only calls that
    /// read (`&self`) were made since [`EndAs::ready`]. Nothing has changed.
    pub fn consume(&mut self, count: usize) -> Result<usize, Refusal>
        ensures answers { EndAnswers self.old.end (PutOut count)
            (answer_by (λ given. Count given) result) self.new.end }
        ensures room { (values : Values) (log : Log) → ConnRepresents values self.old.end.conn log
            → returns_before_put_out (log_view log) ≡ false → IsOk result }
    {
        self.end.conn.consume(count)
    }
}
