//! Sending messages: heads at once, bodies and trailers as windows allow.

ghost use Rattle.std.specs.Prelude.{◌≡◌, ◌<◌, IfSome, IfNone, true, false};
ghost use Rattle.h2_spec_log.specs.Acts.{Values};
ghost use Rattle.h2_spec_log.specs.CallRules.{is_too_large};
ghost use Rattle.h2_spec_log.specs.Log.{Log};
ghost use Rattle.h2_conn.specs.Conn.{ConnRepresents};
ghost use Rattle.h2_message.specs.Messages.{trailer_fields};
ghost use Rattle.h2_message.specs.Values.{message_value};
ghost use Rattle.h2_ends.specs.Ends.{EndLog};
ghost use Rattle.h2_laws_pair.specs.Tokens.{Said, at_once, is_ended_by_head, is_head_alone};
ghost use Rattle.h2_ends.specs.Heads.{AnswersKept, AsksOfKept, IsGiven, OpensStream, SendsHead};
ghost use Rattle.h2_ends.specs.Heads.{outgoing_for};
ghost use Rattle.h2_ends.specs.Represents.{EndRepresents, EndPumps, EndReleases, EndRequests};
ghost use Rattle.h2_ends.specs.Represents.{EndResponds};
ghost use Rattle.h2_ends.specs.Sends.{IsNextIn, PumpsOn, Sends, StopsBy, WaitsAsBefore};

use crate::body::Body;
use crate::end::End;
use crate::outgoing::{Outgoing, Stream, Waiting};
use crate::refusal::EndRefusal;
use crate::span::Span;
use h2_conn::{Conn, Refusal};
use h2_frame::limits::MAX_LIST;
use h2_message::{Message, Reading, Reads, asks_head, check_request, check_response};
use h2_spec_log::Role;
use hpack::{Field, list_size};

/// The result of sending what waits on a stream.
pub(crate) enum SendState {
    /// Nothing waited.
    Idle,
    /// All of it was sent.
    Sent,
    /// No more can go now, or its share was given.
    Stuck,
    /// The output is full, or a pass has used up the connection's window.
    Full,
}

impl End {
    // rule: 8.1 (own) A request that is refused is handed back, and nothing has changed
    /// Sends the head of a request on a new stream, and keeps the rest of the message.
    pub(crate) fn request(&mut self, message: Message) -> Result<u32, (Message, EndRefusal)>
        ensures { EndRequests self.old (message_value message) result self.new }
    {
        if let Err(rule) = check_request(&message) {
            return Err((message, EndRefusal::BadMessage(rule)));
        }
        match self.open(&message) {
            Ok(id) => {
                self.keep(id, outgoing_of(message));
                Ok(id)
            }
            Err(refusal) => Err((message, refusal.into())),
        }
    }

    // rule: 8.1 (own) A request is refused for a rule, or as its head is, or sent
    /// Opens a stream with the head of a request.
    fn open(&mut self, message: &Message) -> Result<u32, Refusal>
        ensures { (values : Values) (end : EndLog) → EndRepresents values self.old end
            → OpensStream values end (at_once (message_value message.now)) self.old result
            self.new }
    {
        if let Some(trailers) = large_trailers(message) {
            // The connection refuses trailers that are too large; an earlier refusal (C1 to C7)
            // comes first.
            return self.conn.open(trailers, true);
        }
        self.open_with(&message.head, is_head_alone(message))
    }

    // rule: 8.1 (own) A request is refused for a rule, or as its head is, or sent
    /// Opens a stream with this head. Trailers that are known are not too large.
    pub(crate) fn open_with(&mut self, head: &[Field], ends: bool) -> Result<u32, Refusal>
        ensures { (values : Values) (end : EndLog) (said : Said)
            → EndRepresents values self.old end → said.message.head ≡ head.now
            → is_ended_by_head said.form said.message ≡ ends
            → is_too_large (trailer_fields said.message.trailers) ≡ false
            → OpensStream values end said self.old result self.new }
    {
        let Some(id) = self.conn.next_number() else {
            return self.conn.open(head, ends);
        };
        let stream = Stream {
            reading: Reading::new(Reads::Responses {
                to_head: asks_head(head),
            }),
            outgoing: Outgoing::NotGiven,
        };
        if self.streams.insert(id, stream).is_err() {
            let refusal = self.conn.refusal_to_open(head);
            return Err(refusal.unwrap_or(Refusal::Memory));
        }
        let opened = self.conn.open(head, ends);
        if opened.is_err() {
            self.streams.remove(id);
        }
        opened
    }

    // rule: 8.1 A response may come before its request is whole
    /// Sends the head of a response, and keeps the rest of the message.
    pub(crate) fn respond(&mut self, id: u32, message: Message) -> Result<(), (Message, EndRefusal)>
        ensures { EndResponds self.old id (message_value message) result self.new }
    {
        let Some(stream) = self.streams.get_mut(id) else {
            return Err((message, EndRefusal::NotAsked));
        };
        if let Err(refusal) = stream.answer(&mut self.conn, self.role, id, &message) {
            return Err((message, refusal));
        }
        let is_whole = is_head_alone(&message);
        stream.outgoing = outgoing_of(message);
        if is_whole {
            self.forget_if_over(id);
            return Ok(());
        }
        self.spans.waiting = self.spans.waiting.with(id);
        Ok(())
    }

    // rule: 8.1 (own) A request is refused for a rule, or as its head is, or sent
    /// Keeps the rest of a message whose head was sent.
    pub(crate) fn keep(&mut self, id: u32, outgoing: Outgoing)
        ensures { IsGiven self.old id outgoing self.new }
    {
        if matches!(outgoing, Outgoing::Waiting(_)) {
            self.spans.waiting = self.spans.waiting.with(id);
        }
        if let Some(stream) = self.streams.get_mut(id) {
            stream.outgoing = outgoing;
        }
    }

    // rule: 8.1 (own) pump sends the lower streams first, and all that can go
    /// Sends waiting bodies and trailers, streams in rising order, as far as windows and the
    /// output allow; returns how many octets of bodies were sent.
    pub(crate) fn pump(&mut self) -> Result<usize, EndRefusal>
        ensures { EndPumps self.old result self.new }
    {
        if self.conn.failed().is_some() {
            return Err(EndRefusal::Conn(Refusal::Closed));
        }
        let mut count = 0usize;
        let mut left = Span::none();
        let mut last = self.spans.waiting.first.saturating_sub(1);
        while let Some(id) = self.next_in(self.spans.waiting, last) {
            last = id;
            match self.pump_stream(id, &mut count)? {
                SendState::Idle => {}
                SendState::Sent => self.forget_if_over(id),
                SendState::Stuck => left = left.with(id),
                SendState::Full => return Ok(count),
            }
        }
        self.spans.waiting = left;
        Ok(count)
    }

    // rule: 8.1 What was sent on a stream is a prefix of its message
    /// Sends what waits on a stream, as far as windows and the output allow, and adds the
    /// octets to `count`.
    fn pump_stream(&mut self, id: u32, count: &mut usize) -> Result<SendState, Refusal>
        ensures waits { WaitsAsBefore self.old self.new id }
        ensures pumps { PumpsOn self.old id count.old result self.new count.new }
    {
        let Some(stream) = self.streams.get_mut(id) else {
            return Ok(SendState::Idle);
        };
        let Outgoing::Waiting(waiting) = &mut stream.outgoing else {
            return Ok(SendState::Idle);
        };
        match send(&mut self.conn, id, waiting, count)? {
            SendState::Sent => {
                stream.outgoing = Outgoing::Sent;
                Ok(SendState::Sent)
            }
            SendState::Idle => Ok(SendState::Idle),
            SendState::Stuck => Ok(SendState::Stuck),
            SendState::Full => Ok(SendState::Full),
        }
    }

    // rule: 6.9 (own) release_all releases what is owed on each active stream
    /// Releases all that is owed, streams in rising order.
    pub(crate) fn release_all(&mut self) -> Result<(), EndRefusal>
        ensures { EndReleases self.old result self.new }
    {
        if self.conn.failed().is_some() {
            return Err(EndRefusal::Conn(Refusal::Closed));
        }
        let mut last = self.spans.owing.first.saturating_sub(1);
        while let Some(id) = self.next_in(self.spans.owing, last) {
            last = id;
            let owed = self.conn.owed(id);
            if owed == 0 {
                continue;
            }
            self.conn.release(id, owed)?;
        }
        self.spans.owing = Span::none();
        Ok(())
    }

    // rule: 8.1 (own) pump sends the lower streams first, and all that can go
    // rule: 6.9 (own) release_all releases what is owed on each active stream
    /// Returns the next active stream of a span above a number. The numbers are kept in order,
    /// so the cost for each stream doesn't depend on the numbers in between.
    pub(crate) fn next_in(&self, span: Span, above: u32) -> Option<u32>
        ensures next { IsNextIn self.now span above result }
        ensures above { IfSome result (λ id. above < id) }
    {
        if above >= span.last {
            return None;
        }
        let id = self.streams.next_above(above)?;
        if id > span.last {
            return None;
        }
        Some(id)
    }
}

impl Stream {
    // rule: 8.1 (own) A response is sent only to a request, and is checked
    /// Sends the head of a response on the stream.
    fn answer(
        &self,
        conn: &mut Conn,
        role: Role,
        id: u32,
        message: &Message,
    ) -> Result<(), EndRefusal>
        ensures { AnswersKept conn.old role self.now id (message_value message.now) result
            conn.new }
    {
        let to_head = self.asks(role)?;
        if let Err(rule) = check_response(message, to_head) {
            return Err(EndRefusal::BadMessage(rule));
        }
        send_head(conn, id, message)?;
        Ok(())
    }

    // rule: 8.1 (own) A response is sent only to a request, and is checked
    // rule: 8.1 (own) A second response to a request is refused
    /// Returns whether the request on the stream, which has no response yet, has the method
    /// HEAD.
    pub(crate) fn asks(&self, role: Role) -> Result<bool, EndRefusal>
        ensures { AsksOfKept role self.now result }
    {
        if role == Role::Client {
            return Err(EndRefusal::NotAsked);
        }
        if !matches!(self.outgoing, Outgoing::NotGiven) {
            return Err(EndRefusal::Answered);
        }
        Ok(self.reading.asks_head())
    }
}

// rule: 8.1 (own) A response is sent only to a request, and is checked
/// Sends the head of a message on a stream, unless its trailers are too large to be sent.
fn send_head(conn: &mut Conn, id: u32, message: &Message) -> Result<(), Refusal>
    ensures { (values : Values) (log : Log) → ConnRepresents values conn.old log
        → SendsHead values log id (message_value message.now) result conn.new }
{
    match large_trailers(message) {
        Some(trailers) => conn.fields(id, trailers, true),
        None => conn.fields(id, &message.head, is_head_alone(message)),
    }
}

// rule: 8.1 (own) A request is refused for a rule, or as its head is, or sent
/// Returns the trailers of a message, if they are too large to be sent.
fn large_trailers(message: &Message) -> Option<&[Field]>
    ensures large { IfSome result (λ list. (list.now
        ≡ trailer_fields (message_value message.now).trailers)
        × (is_too_large list.now ≡ true)) }
    ensures fits { IfNone result (is_too_large
        (trailer_fields (message_value message.now).trailers) ≡ false) }
{
    match &message.trailers {
        Some(trailers) if list_size(trailers) > MAX_LIST as usize => Some(trailers),
        _ => None,
    }
}

// rule: 8.1 What was sent on a stream is a prefix of its message
/// Sends what waits of a message on a stream, as far as windows and the output allow.
fn send(
    conn: &mut Conn,
    id: u32,
    waiting: &mut Waiting,
    count: &mut usize,
) -> Result<SendState, Refusal>
    ensures { Sends conn.old id waiting.old count.old result conn.new waiting.new count.new }
{
    while waiting.sent < waiting.body.len() {
        let all = waiting.body.len();
        let left = all - waiting.sent;
        let ends = waiting.trailers.is_none();
        match waiting.body.send(conn, id, waiting.sent, left, ends) {
            Ok(0) => return Ok(SendState::Stuck),
            Ok(sent) => {
                waiting.sent += sent;
                // Exact: never more than what waits.
                *count = count.saturating_add(sent);
            }
            Err(refusal) => return stopped_by(refusal),
        }
    }
    let Some(trailers) = &waiting.trailers else {
        return Ok(SendState::Sent);
    };
    match conn.fields(id, trailers, true) {
        Ok(()) => Ok(SendState::Sent),
        Err(refusal) => stopped_by(refusal),
    }
}

// rule: 8.1 (own) pump sends the lower streams first, and all that can go
/// Returns how sending goes on once a call of the connection was refused.
pub(crate) fn stopped_by(refusal: Refusal) -> Result<SendState, Refusal>
    ensures { StopsBy refusal result }
{
    match refusal {
        Refusal::OutputFull => Ok(SendState::Full),
        _ => Err(refusal),
    }
}

// rule: 8.1 What was sent on a stream is a prefix of its message
/// Returns what waits of a message whose head was sent.
fn outgoing_of(message: Message) -> Outgoing
    ensures { result ≡ outgoing_for message }
{
    if is_head_alone(&message) {
        return Outgoing::Sent;
    }
    let Message { body, trailers, .. } = message;
    Outgoing::Waiting(Waiting {
        body: Body::new(body),
        sent: 0,
        trailers,
    })
}

/// Returns whether a message has neither body nor trailers.
fn is_head_alone(message: &Message) -> bool
    ensures { result ≡ is_head_alone (message_value message.now) }
{
    message.body.is_empty() && message.trailers.is_none()
}
