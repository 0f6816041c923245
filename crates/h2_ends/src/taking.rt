//! Receiving octets: each part of a message is checked before it is handed out.

ghost use Rattle.std.specs.Prelude.{◌≡◌, ℕ, ◌≤◌, false, List, Some, None, IfOk, Ok, length};
ghost use Rattle.h2_spec_log.specs.Acts.{Values, Answer, Refuse};
ghost use Rattle.h2_spec_log.specs.LogCalls.{MayAnswer, with_call};
ghost use Rattle.h2_message.specs.Reading.{FieldsPart, OctetsPart};
ghost use Rattle.h2_ends.specs.Ends.{EndLog};
ghost use Rattle.h2_ends.specs.EndTakes.{end_with_log, named_on};
ghost use Rattle.h2_ends.specs.Loans.{BodyLiesIn, BodyLiesThere, IsBodyIn, IsBodyHanded};
ghost use Rattle.h2_ends.specs.Loans.{located_at};
ghost use Rattle.h2_ends.specs.Represents.{EndAdvances, kept_at};
ghost use Rattle.h2_ends.specs.Taking.{IsReadOn, MustRefuse, ReadsFields, ReadsData, code_unread};
ghost use Rattle.h2_ends.specs.Taking.{AnswersRefusal, IsResetBy, LiesHere, EndHands, with_unread};
ghost use Rattle.h2_ends.specs.Taking.{refused_last};

use crate::end::End;
use crate::event::EndEvent;
use crate::outgoing::{Outgoing, Stream};
use h2_conn::{ConnFault, Event};
use h2_frame::Code;
use h2_message::{Malformed, Place, Reading};
use h2_wire::Complete;

/// The result of one call of `advance`.
#[derive(Clone, Copy, Debug)]
pub(crate) struct EndProgress {
    /// How many octets were used.
    pub(crate) used: usize,
    /// The event, if any: the connection keeps the fields, and knows where the octets of a body
    /// lie.
    pub(crate) handed: Option<EndEvent<(), Complete>>,
}

/// Why a part of a message isn't handed out.
#[derive(Clone, Copy, Debug)]
pub(crate) enum Unread {
    /// The parts so far, with this one, begin no message that is well-formed; the value is the
    /// rule that this part breaks.
    Malformed(Option<Malformed>),
    /// An allocation was refused.
    OutOfMemory,
}

impl Unread {
    /// Returns the code with which the stream is refused.
    fn code(self) -> u32
        ensures { result ≡ code_unread self }
    {
        match self {
            Unread::Malformed(_) => Code::ProtocolError.number(),
            Unread::OutOfMemory => Code::InternalError.number(),
        }
    }

    // rule: 8.1.1 (own) A part that is refused breaks a rule, the least of which is named
    /// Returns the part of a message that was refused last, once one was refused on this
    /// stream.
    fn refused_last(self, id: u32, before: Option<(u32, Malformed)>) -> Option<(u32, Malformed)>
        ensures { result ≡ refused_last id self before }
    {
        match self {
            Unread::Malformed(rule) => named_on(id, rule),
            Unread::OutOfMemory => before,
        }
    }
}

impl End {
    /// Takes octets of the piece, up to the end of one frame or else all of them.
    pub(crate) fn advance(&mut self, piece: &[u8]) -> Result<EndProgress, ConnFault>
        ensures used { IfOk result (λ progress. progress.used ≤ length piece.now) }
        ensures lies { BodyLiesThere self.new piece.now result }
        ensures takes { (octets : List ℕ) → IsBodyHanded self.new piece.now octets result
            → EndAdvances self.old piece.now octets result self.new }
    {
        let progress = self.conn.advance(piece)?;
        let handed = match progress.happened {
            None => None,
            Some(happened) => Some(self.hand_out(piece, happened)?),
        };
        Ok(EndProgress {
            used: progress.used,
            handed,
        })
    }

    // rule: 8.1.1 A malformed message is a stream error PROTOCOL_ERROR
    // rule: 8.1 (own) What is handed out of a stream is what was reported, in order
    /// Hands out what the connection has reported, unless it is a part of a message that cannot be
    /// read.
    fn hand_out(
        &mut self,
        piece: &[u8],
        happened: Event<(), Complete>,
    ) -> Result<EndEvent<(), Complete>, ConnFault>
        requires lies { LiesHere self.old piece.now happened }
        ensures lies { IfOk result (λ handed. BodyLiesIn self.new piece.now (Some handed)) }
        ensures hands { (octets : List ℕ)
            → IfOk result (λ handed. IsBodyIn self.new piece.now octets (Some handed))
            → EndHands self.old piece.now happened octets result self.new }
    {
        match happened {
            Event::Fields { id, end, .. } => match self.read_fields(id, end) {
                Ok(place) => Ok(part_at(id, place, end)),
                Err(unread) => self.refuse(id, unread),
            },
            Event::Data { id, bytes, end, .. } => {
                self.spans.owing = self.spans.owing.with(id);
                match self.read_data(id, bytes.body_len(), end) {
                    Ok(()) => Ok(EndEvent::Body { id, bytes, end }),
                    Err(unread) => self.refuse(id, unread),
                }
            }
            Event::Reset { id, code, ours } => {
                self.forget_if_over(id);
                Ok(EndEvent::Reset { id, code, ours })
            }
            Event::Unprocessed { id } => {
                self.forget_if_over(id);
                Ok(EndEvent::Unprocessed { id })
            }
            Event::GoAway { last, code } => Ok(EndEvent::GoAway { last, code }),
            Event::Acked => Ok(EndEvent::Acked),
            Event::Pong { octets } => Ok(EndEvent::Pong { octets }),
        }
    }

    // rule: 8.1.1 A malformed message is a stream error PROTOCOL_ERROR
    /// Reads the field block that the connection has reported.
    fn read_fields(&mut self, id: u32, end: bool) -> Result<Place, Unread>
        ensures conn { self.new.conn ≡ self.old.conn }
        ensures reads { (values : Values) (happened : EndLog)
            → IsReadOn values self.old happened id
            (FieldsPart self.old.conn.end.list, end)
            → ReadsFields values happened id self.old.conn.end.list end result self.new }
    {
        let Some(stream) = self.streams.get_mut(id) else {
            return self.read_first(id, end);
        };
        let Some(place) = stream.reading.fields(self.conn.list(), end) else {
            let rule = stream.reading.broken_by_fields(self.conn.list(), end);
            return Err(Unread::Malformed(rule));
        };
        if end {
            self.forget_if_over(id);
        }
        Ok(place)
    }

    // rule: 8.1 (own) A server without memory for a first block fails with INTERNAL_ERROR
    /// Reads the first field block of a stream.
    fn read_first(&mut self, id: u32, end: bool) -> Result<Place, Unread>
        requires first { kept_at id self.old.streams.entries ≡ None }
        ensures conn { self.new.conn ≡ self.old.conn }
        ensures reads { (values : Values) (happened : EndLog)
            → IsReadOn values self.old happened id
            (FieldsPart self.old.conn.end.list, end)
            → ReadsFields values happened id self.old.conn.end.list end result self.new }
    {
        let mut reading = Reading::new(self.first_reads());
        let Some(place) = reading.fields(self.conn.list(), end) else {
            let rule = reading.broken_by_fields(self.conn.list(), end);
            return Err(Unread::Malformed(rule));
        };
        let stream = Stream {
            reading,
            outgoing: Outgoing::NotGiven,
        };
        if self.streams.insert(id, stream).is_err() {
            return Err(Unread::OutOfMemory);
        }
        Ok(place)
    }

    // rule: 8.1.1 A malformed message is a stream error PROTOCOL_ERROR
    /// Reads `count` octets of a body.
    fn read_data(&mut self, id: u32, count: usize, end: bool) -> Result<(), Unread>
        ensures conn { self.new.conn ≡ self.old.conn }
        ensures reads { (values : Values) (happened : EndLog) (octets : List ℕ)
            → length octets ≡ count
            → IsReadOn values self.old happened id (OctetsPart octets, end)
            → ReadsData values happened id octets end result self.new }
    {
        let Some(stream) = self.streams.get_mut(id) else {
            return Err(Unread::Malformed(Some(Malformed::BadOrder)));
        };
        if !stream.reading.data(count, end) {
            let rule = stream.reading.broken_by_data(count, end);
            return Err(Unread::Malformed(rule));
        }
        if end {
            self.forget_if_over(id);
        }
        Ok(())
    }

    // rule: 8.1.1 (own) How the connection takes a refusal is what is answered
    // rule: 8.1 (own) A server without memory for a first block fails with INTERNAL_ERROR
    /// Refuses the stream of a part that isn't handed out, and keeps the rule that the part
    /// breaks: this end resets the stream, or the connection fails.
    fn refuse(&mut self, id: u32, unread: Unread) -> Result<EndEvent<(), Complete>, ConnFault>
        ensures resets { IsResetBy id (code_unread unread) result }
        ensures answers { (values : Values) (end : EndLog) → MustRefuse values self.old end id
            → (refused : Answer)
            × MayAnswer end.log (Refuse id (code_unread unread)) refused
            × AnswersRefusal values (end_with_log (with_unread end id unread)
            (with_call end.log (Refuse id (code_unread unread)) refused)) result self.new }
    {
        self.spans.malformed = unread.refused_last(id, self.spans.malformed);
        let code = unread.code();
        // Refused with C2 where the part itself has closed the stream: nothing is sent then.
        let _refused = self.conn.refuse(id, code);
        self.forget_if_over(id);
        match self.conn.failed() {
            Some(code) => Err(ConnFault { code }),
            None => Ok(EndEvent::Reset {
                id,
                code,
                ours: true,
            }),
        }
    }
}

// rule: 8.1.1 (own) A part that is refused breaks a rule, the least of which is named
/// Pairs a rule with the stream on which it is broken.
fn named_on(id: u32, rule: Option<Malformed>) -> Option<(u32, Malformed)>
    ensures { result ≡ named_on id rule }
{
    match rule {
        Some(rule) => Some((id, rule)),
        None => None,
    }
}

// rule: 8.1 (own) What is handed out of a stream is what was reported, in order
/// Makes the event of a part at this place, whose fields the connection keeps.
fn part_at(id: u32, place: Place, end: bool) -> EndEvent<(), Complete>
    ensures { result ≡ located_at place id end }
{
    match place {
        Place::Interim => EndEvent::Interim { id, list: () },
        Place::Head => EndEvent::Head { id, list: (), end },
        Place::Trailers => EndEvent::Trailers { id, list: () },
    }
}
