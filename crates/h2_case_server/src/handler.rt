//! The handler of each connection: it does what the path of a request says, and notes what it is
//! told.

ghost use Rattle.std.specs.Prelude.{◌≡◌, length};
ghost use Rattle.h2_server.specs.Parts.{FitsPart};

use crate::path::{Does, Then, read_path};
use crate::told::{Gives, Told};
use h2_case::fields::read_fields;
use h2_case::text::Text;
use h2_case::words::Words;
use h2_case_conn::answers::begin_line;
use h2_server::{
    Cause, ExchangeRefusal, Field, FieldList, Handler, HandlerFault, Message, Part, Reply,
    ResponseFault,
};
use std::alloc::Global;

/// The handler of a connection.
#[derive(Drop)]
pub(crate) struct Paths<'a> {
    pub(crate) alloc: Global,
    pub(crate) told: &'a Told,
    /// The number of the connection's client.
    pub(crate) number: usize,
}

/// What is kept of an exchange.
#[derive(Drop)]
pub(crate) struct Exchange {
    /// The number after the `?` of its path.
    id: u32,
    does: Does,
    /// The octets of the response's body that were given in parts.
    given: usize,
    /// The octets of the request's body that have come.
    came: u32,
}

impl Paths<'_> {
    // Notes the head or the trailers of a request.
    fn note(&self, name: &str, id: u32, end: bool) {
        let mut line = Text::new(self.alloc);
        begin_line(&mut line, name, id, end);
        self.told.add(self.number, line);
    }

    // Notes octets of a body, or a part that is asked for.
    fn note_count(&self, name: &str, id: u32, count: usize, end: bool) {
        let mut line = Text::new(self.alloc);
        begin_line(&mut line, name, id, false);
        line.push_labeled(" ", count);
        line.push_str(if end { " end" } else { "" });
        self.told.add(self.number, line);
    }

    // Notes what is said of a stream.
    fn note_stream(&self, name: &str, stream: u32) {
        let mut line = Text::new(self.alloc);
        begin_line(&mut line, name, stream, false);
        self.told.add(self.number, line);
    }

    // Notes that an exchange is over.
    fn note_over(&self, id: u32, cause: Cause) {
        let mut line = Text::new(self.alloc);
        begin_line(&mut line, "over", id, false);
        match cause {
            Cause::Done => line.push_str(" done"),
            Cause::Closed => line.push_str(" closed"),
            Cause::Reset { code, ours } => {
                line.push_labeled(" reset ", code);
                line.push_str(if ours { " ours" } else { " theirs" });
            }
        }
        self.told.add(self.number, line);
    }
}

impl Handler for Paths<'_> {
    type Work = Exchange;

    fn head(
        &mut self,
        alloc: Global,
        _stream: u32,
        list: &FieldList,
        end: bool,
    ) -> Result<(Exchange, Reply), HandlerFault> {
        let (does, id) = read_path(list.value(b":path").unwrap_or(b""));
        self.note("head", id, end);
        let reply = reply_at_head(alloc, does, end)?;
        let exchange = Exchange {
            id,
            does,
            given: 0,
            came: 0,
        };
        Ok((exchange, reply))
    }

    fn body(
        &mut self,
        alloc: Global,
        work: &mut Exchange,
        octets: &[u8],
        end: bool,
    ) -> Result<Reply, HandlerFault> {
        self.note_count("body", work.id, octets.len(), end);
        let count = u32::try_from(octets.len()).unwrap_or(u32::MAX);
        work.came = work.came.saturating_add(count);
        reply_later(alloc, work.does, end)
    }

    fn trailers(
        &mut self,
        alloc: Global,
        work: &mut Exchange,
        _list: &FieldList,
    ) -> Result<Reply, HandlerFault> {
        self.note("trailers", work.id, false);
        reply_later(alloc, work.does, true)
    }

    fn part(
        &mut self,
        alloc: Global,
        work: &mut Exchange,
        room: &mut [u8],
    ) -> Result<Part, HandlerFault> {
        self.note_count("part", work.id, room.len(), false);
        match work.does {
            Does::Parts(count, then) => give_part(alloc, work, count, then, room),
            Does::Defers(count) => give_part(alloc, work, count, Then::Ends, room),
            _ => Err(HandlerFault::Failed),
        }
    }

    fn held(&self, work: &Exchange) -> usize {
        match work.does {
            Does::Holds(count) => count,
            _ => 0,
        }
    }

    fn unused(&self, work: &Exchange) -> u32 {
        match work.does {
            Does::Keeps(count) => work.came.saturating_sub(count),
            _ => 0,
        }
    }

    fn fault(&self, id: u32, fault: ResponseFault) {
        if fault == ResponseFault::TooLate {
            self.note_stream("late", id);
        }
    }

    fn over(&mut self, work: Exchange, cause: Cause) {
        self.note_over(work.id, cause);
    }
}

// The reply to a head.
fn reply_at_head(alloc: Global, does: Does, end: bool) -> Result<Reply, HandlerFault> {
    match does {
        Does::Early(count) => answer(alloc, 200, count),
        Does::Refuses(count) => Ok(Reply::Refuse(message(alloc, 413, count)?)),
        Does::Parts(..) => Ok(Reply::Parts(Message::response(alloc, 200)?.head)),
        Does::Fails => Err(HandlerFault::Failed),
        Does::Resets(code) => Ok(Reply::Reset(code)),
        Does::Bad => Ok(Reply::Whole(Message::response(alloc, 200)?.field(alloc, b"X", b"y")?)),
        Does::Unknown => answer(alloc, 404, 0),
        _ => reply_later(alloc, does, end),
    }
}

// The reply to a part of a request after its head, or to a head that waits for those.
fn reply_later(alloc: Global, does: Does, end: bool) -> Result<Reply, HandlerFault> {
    match does {
        Does::Whole(count) if end => answer(alloc, 200, count),
        Does::Defers(_) => Ok(Reply::Deferred),
        Does::Keeps(_) | Does::Holds(_) if end => answer(alloc, 200, 0),
        _ => Ok(Reply::Later),
    }
}

/// A reply with this status.
pub(crate) fn deferred(alloc: Global, status: u16, gives: Gives) -> Result<Reply, HandlerFault> {
    match gives {
        Gives::Whole(count) => answer(alloc, status, count),
        Gives::Parts => Ok(Reply::Parts(Message::response(alloc, status)?.head)),
        Gives::Nothing => Ok(Reply::Deferred),
    }
}

/// Why a call for an exchange was refused.
pub(crate) fn name_of_refusal(refusal: ExchangeRefusal) -> &'static str {
    match refusal {
        ExchangeRefusal::NoResponse => "refused no response",
        ExchangeRefusal::Over => "refused over",
        ExchangeRefusal::Answered => "refused answered",
    }
}

// The reply of a whole response: see `message`.
fn answer(alloc: Global, status: u16, count: usize) -> Result<Reply, HandlerFault> {
    Ok(Reply::Whole(message(alloc, status, count)?))
}

// A response with this status, whose body has `count` octets that count up.
fn message(alloc: Global, status: u16, count: usize) -> Result<Message, HandlerFault> {
    let mut message = Message::response(alloc, status)?;
    message.body.resize(count, 0)?;
    fill(&mut message.body, 0);
    Ok(message)
}

// Writes octets that count up, of which so many were written before.
fn fill(room: &mut [u8], before: usize)
    ensures { length room.new ≡ length room.old }
{
    let mut next = u8::try_from(before % 251).unwrap_or(0);
    for octet in room.iter_mut() {
        *octet = next;
        next = if next >= 250 { 0 } else { next.wrapping_add(1) };
    }
}

// The next part of a body of `count` octets.
fn give_part(
    alloc: Global,
    work: &mut Exchange,
    count: usize,
    then: Then,
    room: &mut [u8],
) -> Result<Part, HandlerFault>
    ensures length { length room.new ≡ length room.old }
    ensures fits { FitsPart (length room.old) result }
{
    let given = work.given;
    let left = count.saturating_sub(given);
    work.given = given.saturating_add(left.min(room.len()));
    fill(room, given);
    next_part(alloc, left, room.len(), then)
}

// The next part, where this much is left and fits.
fn next_part(alloc: Global, left: usize, fits: usize, then: Then) -> Result<Part, HandlerFault>
    ensures { FitsPart fits result }
{
    match then {
        Then::Ends if left <= fits => Ok(Part::Last(left)),
        _ if left > 0 => Ok(Part::Octets(left.min(fits))),
        Then::Trailers => Ok(Part::Trailers(trailers(alloc)?)),
        Then::Fails => Err(HandlerFault::Failed),
        _ => Ok(Part::Later),
    }
}

// The trailers of a response.
fn trailers(alloc: Global) -> Result<Vec<Field>, HandlerFault> {
    let mut words = Words::of("x: y");
    let list = read_fields(alloc, &mut words);
    match words.fault() {
        Some(_) => Err(HandlerFault::Memory),
        None => Ok(list),
    }
}
