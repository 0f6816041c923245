//! Messages in parts.

ghost use Rattle.std.specs.Prelude.{◌≡◌, ◌≢◌, None};
ghost use Rattle.belkjoef.specs.Calls.{OnPlace, Answers, AnswersWith, SendsBody};
ghost use Rattle.belkjoef.specs.Given.{fields_given, Copies, AtServer, AtClient, stream_or};
ghost use Rattle.belkjoef.specs.Given.{BeginsAnswerWith, BeginsWith, TrailsWith};
ghost use Rattle.belkjoef.specs.Helds.{held_end, KeepsAllElse};
ghost use Rattle.belkjoef.specs.Numbers.{end_answer_number, count_in, ok};

use crate::fields::BjField;
use crate::held::{Held, Side};
use crate::kept::recopy;
use crate::numbers::{EMPTY, MEMORY, OK, ROLE, of_end_answer, of_end_count, of_end_refusal};
use crate::place::BjEnd;
use h2_ends::{EndRefusal, Field};
use std::alloc::Global;

// contract: c (own) A call of the other role is refused, and nothing has changed
/// Begins a response: sends its head.
#[unsafe(no_mangle)]
pub extern "C" fn bj_begin_response(
    alloc: Global,
    end: &mut BjEnd,
    stream: u32,
    head: &[BjField<'_>],
) -> i32
    ensures { OnPlace result (AtServer result (Copies result (Answers end_answer_number
        (BeginsAnswerWith stream (fields_given head.now)) result)))
        end.old.held end.new.held }
{
    let Some(mut held) = end.open(alloc) else {
        return EMPTY;
    };
    let answer = held.begin_response_with(alloc, stream, head);
    end.keep(held);
    answer
}

// contract: c (own) A call of the other role is refused, and nothing has changed
/// Begins a request: sends its head, and stores its stream.
#[unsafe(no_mangle)]
pub extern "C" fn bj_begin_request(
    alloc: Global,
    end: &mut BjEnd,
    head: &[BjField<'_>],
    stream: &mut u32,
) -> i32
    ensures call { OnPlace result (AtClient result (Copies result (AnswersWith end_answer_number
        (stream_or stream.old) (BeginsWith (fields_given head.now)) result stream.new)))
        end.old.held end.new.held }
    ensures refused { result ≢ ok → stream.new ≡ stream.old }
{
    let Some(mut held) = end.open(alloc) else {
        return EMPTY;
    };
    let answer = held.begin_request_with(alloc, head, stream);
    end.keep(held);
    answer
}

// contract: c (own) A call of C's is that of the end in its place
/// Sends octets of the body of the message that was begun on a stream, as many as windows
/// allow, and stores how many.
#[unsafe(no_mangle)]
pub extern "C" fn bj_send_body(
    alloc: Global,
    end: &mut BjEnd,
    stream: u32,
    octets: &[u8],
    ends: bool,
    sent: &mut usize,
) -> i32
    ensures call { OnPlace result (AnswersWith end_answer_number count_in
        (SendsBody stream octets.now ends) result sent.new) end.old.held end.new.held }
    ensures unheld { end.old.held ≡ None → sent.new ≡ 0 }
{
    *sent = 0;
    let Some(mut held) = end.open(alloc) else {
        return EMPTY;
    };
    let answer = held.send_body(stream, octets, ends);
    end.keep(held);
    of_end_count(answer, sent)
}

// contract: c (own) What C gives is copied; without memory nothing has changed
/// Sends trailers, which end the message that was begun on a stream.
#[unsafe(no_mangle)]
pub extern "C" fn bj_send_trailers(
    alloc: Global,
    end: &mut BjEnd,
    stream: u32,
    trailers: &[BjField<'_>],
) -> i32
    ensures { OnPlace result (Copies result (Answers end_answer_number
        (TrailsWith stream (fields_given trailers.now)) result))
        end.old.held end.new.held }
{
    let Some(mut held) = end.open(alloc) else {
        return EMPTY;
    };
    let answer = held.send_trailers_with(alloc, stream, trailers);
    end.keep(held);
    answer
}

impl Held {
    /// Begins a response, at a server.
    fn begin_response_with(&mut self, alloc: Global, stream: u32, head: &[BjField<'_>]) -> i32
        ensures { AtServer result (Copies result (Answers end_answer_number
            (BeginsAnswerWith stream (fields_given head.now)) result)) self.old self.new }
    {
        if let Side::Client(_) = &self.side {
            return ROLE;
        }
        let mut copies = self.heads.take(alloc);
        let answer = self.begin_response_copied(alloc, stream, head, &mut copies);
        self.heads.keep(copies);
        answer
    }

    /// Begins a response with copies.
    fn begin_response_copied(
        &mut self,
        alloc: Global,
        stream: u32,
        head: &[BjField<'_>],
        copies: &mut Vec<Field>,
    ) -> i32
        ensures { Copies result (AtServer result (Answers end_answer_number
            (BeginsAnswerWith stream (fields_given head.now)) result)) self.old self.new }
    {
        match recopy(alloc, head, copies) {
            Ok(()) => self.begin_response(stream, copies),
            Err(_) => MEMORY,
        }
    }

    /// Begins a response.
    fn begin_response(&mut self, stream: u32, head: &[Field]) -> i32
        ensures { AtServer result (Answers end_answer_number
            (BeginsAnswerWith stream head.now) result) self.old self.new }
    {
        match &mut self.side {
            Side::Client(_) => ROLE,
            Side::Server(server) => of_end_answer(server.begin(stream, head)),
        }
    }

    /// Begins a request, at a client, and stores the stream.
    fn begin_request_with(&mut self, alloc: Global, head: &[BjField<'_>], stream: &mut u32) -> i32
        ensures call { AtClient result (Copies result (AnswersWith end_answer_number
            (stream_or stream.old) (BeginsWith (fields_given head.now)) result stream.new))
            self.old self.new }
        ensures refused { result ≢ ok → stream.new ≡ stream.old }
    {
        if let Side::Server(_) = &self.side {
            return ROLE;
        }
        let mut copies = self.heads.take(alloc);
        let answer = self.begin_request_copied(alloc, head, stream, &mut copies);
        self.heads.keep(copies);
        answer
    }

    /// Begins a request with copies, and stores the stream.
    fn begin_request_copied(
        &mut self,
        alloc: Global,
        head: &[BjField<'_>],
        stream: &mut u32,
        copies: &mut Vec<Field>,
    ) -> i32
        ensures call { Copies result (AtClient result (AnswersWith end_answer_number
            (stream_or stream.old) (BeginsWith (fields_given head.now)) result stream.new))
            self.old self.new }
        ensures refused { result ≢ ok → stream.new ≡ stream.old }
    {
        match recopy(alloc, head, copies) {
            Ok(()) => self.begin_request(copies, stream),
            Err(_) => MEMORY,
        }
    }

    /// Begins a request, and stores the stream.
    fn begin_request(&mut self, head: &[Field], stream: &mut u32) -> i32
        ensures call { AtClient result (AnswersWith end_answer_number (stream_or stream.old)
            (BeginsWith head.now) result stream.new) self.old self.new }
        ensures refused { result ≢ ok → stream.new ≡ stream.old }
    {
        match &mut self.side {
            Side::Server(_) => ROLE,
            Side::Client(client) => match client.begin(head) {
                Ok(id) => {
                    *stream = id;
                    OK
                }
                Err(refusal) => of_end_refusal(refusal),
            },
        }
    }

    /// Sends trailers that C gives.
    fn send_trailers_with(&mut self, alloc: Global, stream: u32, trailers: &[BjField<'_>]) -> i32
        ensures { Copies result (Answers end_answer_number
            (TrailsWith stream (fields_given trailers.now)) result) self.old self.new }
    {
        let mut copies = self.trailers.take(alloc);
        let answer = self.send_trailers_copied(alloc, stream, trailers, &mut copies);
        self.trailers.keep(copies);
        answer
    }

    /// Sends copies of trailers.
    fn send_trailers_copied(
        &mut self,
        alloc: Global,
        stream: u32,
        trailers: &[BjField<'_>],
        copies: &mut Vec<Field>,
    ) -> i32
        ensures { Copies result (Answers end_answer_number
            (TrailsWith stream (fields_given trailers.now)) result) self.old self.new }
    {
        match recopy(alloc, trailers, copies) {
            Ok(()) => of_end_answer(self.send_trailers(stream, copies)),
            Err(_) => MEMORY,
        }
    }

    /// Sends trailers.
    fn send_trailers(&mut self, stream: u32, trailers: &[Field]) -> Result<(), EndRefusal>
        ensures does { TrailsWith stream trailers.now (held_end self.old) result
            (held_end self.new) }
        ensures keeps { KeepsAllElse self.old self.new }
    {
        match &mut self.side {
            Side::Client(client) => client.send_trailers(stream, trailers),
            Side::Server(server) => server.send_trailers(stream, trailers),
        }
    }
}
