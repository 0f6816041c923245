//! Whole messages, and sending what waits of them.

ghost use Rattle.std.specs.Prelude.{◌≡◌, ◌≢◌, None, IfOk};
ghost use Rattle.h2_message.specs.Values.{message_value};
ghost use Rattle.h2_ends.specs.Represents.{EndPumps};
ghost use Rattle.belkjoef.specs.Calls.{OnPlace, Answers, AnswersWith};
ghost use Rattle.belkjoef.specs.Given.{message_given, Copies, AtServer, AtClient, reply_number};
ghost use Rattle.belkjoef.specs.Given.{RespondsWith, RequestsWith, PumpsPass, stream_or};
ghost use Rattle.belkjoef.specs.Numbers.{end_answer_number, count_in, ok};

use crate::fields::{BjField, copies};
use crate::held::{Held, Side};
use crate::numbers::{EMPTY, MEMORY, OK, ROLE, of_end_count, of_end_refusal, of_reply};
use crate::place::BjEnd;
use h2_ends::Message;
use std::alloc::{AllocError, Global};

// rule: c (own) What C gives is copied; without memory nothing has changed
/// Makes a message of copies of a head and a body.
fn message(alloc: Global, head: &[BjField<'_>], body: &[u8]) -> Result<Message, AllocError>
    ensures { IfOk result (λ message. message_value message ≡ message_given head.now body.now) }
{
    Ok(Message {
        head: copies(alloc, head)?,
        body: Vec::from_slice(alloc, body)?,
        trailers: None,
    })
}

// contract: c (own) What C gives is copied; without memory nothing has changed
/// Sends a response to the request on a stream.
#[unsafe(no_mangle)]
pub extern "C" fn bj_respond(
    alloc: Global,
    end: &mut BjEnd,
    stream: u32,
    head: &[BjField<'_>],
    body: &[u8],
) -> i32
    ensures { OnPlace result (AtServer result (Copies result (Answers reply_number
        (RespondsWith stream (message_given head.now body.now)) result)))
        end.old.held end.new.held }
{
    let Some(mut held) = end.open(alloc) else {
        return EMPTY;
    };
    let answer = held.respond_with(alloc, stream, head, body);
    end.keep(held);
    answer
}

// contract: c (own) What C gives is copied; without memory nothing has changed
/// Sends a request, and stores its stream.
#[unsafe(no_mangle)]
pub extern "C" fn bj_request(
    alloc: Global,
    end: &mut BjEnd,
    head: &[BjField<'_>],
    body: &[u8],
    stream: &mut u32,
) -> i32
    ensures call { OnPlace result (AtClient result (Copies result (AnswersWith reply_number
        (stream_or stream.old) (RequestsWith (message_given head.now body.now)) result
        stream.new))) end.old.held end.new.held }
    ensures refused { result ≢ ok → stream.new ≡ stream.old }
{
    let Some(mut held) = end.open(alloc) else {
        return EMPTY;
    };
    let answer = held.request_with(alloc, head, body, stream);
    end.keep(held);
    answer
}

impl Held {
    /// Sends a response, at a server.
    fn respond_with(&mut self, alloc: Global, stream: u32, head: &[BjField<'_>], body: &[u8]) -> i32
        ensures { AtServer result (Copies result (Answers reply_number
            (RespondsWith stream (message_given head.now body.now)) result)) self.old self.new }
    {
        if let Side::Client(_) = &self.side {
            return ROLE;
        }
        self.respond_copied(alloc, stream, head, body)
    }

    /// Sends a response with copies of what C gives.
    fn respond_copied(
        &mut self,
        alloc: Global,
        stream: u32,
        head: &[BjField<'_>],
        body: &[u8],
    ) -> i32
        ensures { Copies result (AtServer result (Answers reply_number
            (RespondsWith stream (message_given head.now body.now)) result)) self.old self.new }
    {
        match message(alloc, head, body) {
            Ok(message) => self.respond(stream, message),
            Err(_) => MEMORY,
        }
    }

    // rule: c (own) A call of the other role is refused, and nothing has changed
    /// Sends a response.
    fn respond(&mut self, stream: u32, message: Message) -> i32
        ensures { AtServer result (Answers reply_number
            (RespondsWith stream (message_value message)) result) self.old self.new }
    {
        match &mut self.side {
            Side::Client(_) => ROLE,
            Side::Server(server) => of_reply(server.respond(stream, message)),
        }
    }

    /// Sends a request, at a client, and stores its stream.
    fn request_with(
        &mut self,
        alloc: Global,
        head: &[BjField<'_>],
        body: &[u8],
        stream: &mut u32,
    ) -> i32
        ensures call { AtClient result (Copies result (AnswersWith reply_number
            (stream_or stream.old) (RequestsWith (message_given head.now body.now)) result
            stream.new)) self.old self.new }
        ensures refused { result ≢ ok → stream.new ≡ stream.old }
    {
        if let Side::Server(_) = &self.side {
            return ROLE;
        }
        self.request_copied(alloc, head, body, stream)
    }

    /// Sends a request with copies of what C gives, and stores its stream.
    fn request_copied(
        &mut self,
        alloc: Global,
        head: &[BjField<'_>],
        body: &[u8],
        stream: &mut u32,
    ) -> i32
        ensures call { Copies result (AtClient result (AnswersWith reply_number
            (stream_or stream.old) (RequestsWith (message_given head.now body.now)) result
            stream.new)) self.old self.new }
        ensures refused { result ≢ ok → stream.new ≡ stream.old }
    {
        match message(alloc, head, body) {
            Ok(message) => self.request(message, stream),
            Err(_) => MEMORY,
        }
    }

    // rule: c (own) A call of the other role is refused, and nothing has changed
    /// Sends a request, and stores its stream.
    fn request(&mut self, message: Message, stream: &mut u32) -> i32
        ensures call { AtClient result (AnswersWith reply_number (stream_or stream.old)
            (RequestsWith (message_value message)) result stream.new) self.old self.new }
        ensures refused { result ≢ ok → stream.new ≡ stream.old }
    {
        match &mut self.side {
            Side::Server(_) => ROLE,
            Side::Client(client) => match client.request(message) {
                Ok(id) => {
                    *stream = id;
                    OK
                }
                Err((_, refusal)) => of_end_refusal(refusal),
            },
        }
    }
}

// contract: c (own) A call of C's is that of the end in its place
/// Sends what waits of messages, as far as windows allow, and stores how many octets of bodies
/// were sent.
#[unsafe(no_mangle)]
pub extern "C" fn bj_pump(alloc: Global, end: &mut BjEnd, sent: &mut usize) -> i32
    ensures call { OnPlace result (AnswersWith end_answer_number count_in EndPumps result sent.new)
        end.old.held end.new.held }
    ensures unheld { end.old.held ≡ None → sent.new ≡ 0 }
{
    *sent = 0;
    let Some(mut held) = end.open(alloc) else {
        return EMPTY;
    };
    let answer = held.pump();
    end.keep(held);
    of_end_count(answer, sent)
}

// contract: c (own) A call of C's is that of the end in its place
/// Sends a share of what waits on each stream, in turn, and stores how many octets of bodies
/// were sent.
#[unsafe(no_mangle)]
pub extern "C" fn bj_pump_some(alloc: Global, end: &mut BjEnd, most: usize, sent: &mut usize) -> i32
    ensures call { OnPlace result (AnswersWith end_answer_number count_in (PumpsPass most) result
        sent.new) end.old.held end.new.held }
    ensures unheld { end.old.held ≡ None → sent.new ≡ 0 }
{
    *sent = 0;
    let Some(mut held) = end.open(alloc) else {
        return EMPTY;
    };
    let answer = held.pump_some(most);
    end.keep(held);
    of_end_count(answer, sent)
}
