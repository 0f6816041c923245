//! Requests that are being received.

ghost use Rattle.std.specs.Prelude.{◌≡◌, ◌≤◌, [], IfOk, OnOk, length, true};
ghost use Rattle.std.specs.Vec.{vec_capacity};
ghost use Rattle.h2_numbers.specs.Tables.{all_of};
ghost use Rattle.h2_message.specs.Fields.{value_or_nothing};
ghost use Rattle.h2_message.specs.Messages.{plain_field};
ghost use Rattle.h2_message.specs.Values.{message_value};
ghost use Rattle.h2_ends.specs.Loans.{event_handed};
ghost use Rattle.h2_engines.specs.Answers.{IsRequest, answer_with};
ghost use Rattle.h2_engines.specs.PartialMessages.{AddsOctets, EndsKept, IsLonger, NotesHanded};
ghost use Rattle.h2_engines.specs.PartialMessages.{body_room, request_at};
ghost use Rattle.h2_engines.specs.Rooms.{most_room};

use h2_ends::{EndEvent, Field, FieldList, Message};
use h2_frame::limits::GREATEST_BODY;
use h2_numbers::NumberTable;
use hpack::Octets;
use itoa::Buffer;
use std::alloc::{AllocError, Global};

/// The most octets of a body that are reserved with its head.
const FIRST_ROOM: usize = 16_384;

/// The most that is reserved later for octets yet to come, as a multiple of what is kept.
const MORE_ROOM: usize = 9;

/// A request that is being received.
#[derive(Drop)]
pub(crate) struct Request {
    /// The response: the method, a space, the path, a newline, and the body so far.
    pub(crate) text: Vec<u8>,
    /// Where the body begins in `text`.
    pub(crate) start: usize,
    /// The `content-length` of its head, at most 1,048,576.
    pub(crate) announced: usize,
    /// Whether its method is HEAD.
    pub(crate) to_head: bool,
}

/// What is to be done next.
#[derive(Drop)]
pub(crate) enum Next {
    /// Call `take` again: more may be handed out.
    Again,
    /// Nothing: all octets were used, and nothing was handed out.
    Done,
    /// Nothing: a response is complete.
    Whole,
    /// Answer a complete request.
    Answer { id: u32, request: Request },
    /// Reset the stream of a request that is too large.
    Reset { id: u32 },
}

/// The requests that aren't complete, by stream.
#[derive(Drop)]
pub(crate) struct Requests {
    pub(crate) alloc: Global,
    pub(crate) kept: NumberTable<Request>,
}

impl Request {
    // rule: engines (own) An answer to HEAD has neither body nor content-length
    /// Begins a request with its head, with room for a short body.
    fn begin(alloc: Global, head: &FieldList, end: bool) -> Result<Request, AllocError>
        ensures { IfOk result (λ request. IsRequest head.now [] request) }
    {
        let method = value_or_nothing(head, b":method");
        let path = value_or_nothing(head, b":path");
        let announced = announced_octets(head, end);
        let line = method.len().saturating_add(path.len()).saturating_add(2);
        let room = line.saturating_add(announced.min(FIRST_ROOM));
        let mut text = Vec::with_capacity(alloc, room)?;
        text.extend_from_slice(method)?;
        text.push(b' ')?;
        text.extend_from_slice(path)?;
        text.push(b'\n')?;
        Ok(Request {
            start: text.len(),
            text,
            announced,
            to_head: method == b"HEAD".as_slice(),
        })
    }

    // rule: engines (own) A request of more than 1,048,576 octets is ENHANCE_YOUR_CALM
    /// Returns how many octets of its body may follow.
    fn room(&self) -> usize
        ensures { result ≡ body_room self.now }
    {
        let body = self.text.len().saturating_sub(self.start);
        GREATEST_BODY.saturating_sub(body)
    }

    /// Appends octets to its body.
    fn extend(&mut self, bytes: &[u8]) -> Result<(), AllocError>
        ensures { OnOk result (IsLonger self.old bytes.now self.new) }
    {
        self.make_room(bytes.len())?;
        self.text.extend_from_slice(bytes)
    }

    // rule: engines (own) What is reserved for a body is at most ten times what is kept
    /// Reserves room for what the head says will follow, up to ten times what is kept in all.
    /// Reserves none where there is room for `count` octets, where that would not be enough for
    /// them, or where the head says nothing: then the room doubles as octets are appended.
    fn make_room(&mut self, count: usize) -> Result<(), AllocError>
        ensures text { self.new.text.items ≡ self.old.text.items }
        ensures start { self.new.start ≡ self.old.start }
        ensures to_head { self.new.to_head ≡ self.old.to_head }
        ensures bound { vec_capacity self.new.text
            ≤ most_room (vec_capacity self.old.text) (length self.old.text.items) }
    {
        let length = self.text.len();
        if count <= self.text.capacity().saturating_sub(length) {
            return Ok(());
        }
        let whole = self.start.saturating_add(self.announced);
        let known = whole.saturating_sub(length);
        let more = known.min(length.saturating_mul(MORE_ROOM));
        if more < count {
            return Ok(());
        }
        self.text.reserve_exact(more)
    }

    // rule: engines (own) An answer to HEAD has neither body nor content-length
    /// Returns the message that answers it.
    ///
    /// # Errors
    ///
    /// [`AllocError`] where an allocation was refused.
    pub(crate) fn into_answer(self, alloc: Global) -> Result<Message, AllocError>
        ensures { IfOk result (λ message. message_value message
            ≡ answer_with self.text.items self.to_head) }
    {
        let mut head = Vec::with_capacity(alloc, 2)?;
        head.push(plain_field(b":status", Octets::from_static(b"200")))?;
        if self.to_head {
            return Ok(Message {
                head,
                body: Vec::new(alloc),
                trailers: None,
            });
        }
        let mut digits = Buffer::new();
        let length = Octets::copy_of(alloc, digits.format(self.text.len()).as_bytes())?;
        head.push(plain_field(b"content-length", length))?;
        Ok(Message {
            head,
            body: self.text,
            trailers: None,
        })
    }
}

/// Makes a field with a name of this program, which may be indexed.
fn plain_field(name: &'static [u8], value: Octets) -> Field
    ensures { result ≡ plain_field name.now value }
{
    Field {
        name: Octets::from_static(name),
        value,
        sensitive: false,
    }
}

impl Requests {
    /// Returns an empty table.
    pub(crate) fn new(alloc: Global) -> Requests
        ensures { all_of result.kept ≡ [] }
    {
        Requests {
            alloc,
            kept: NumberTable::new(alloc),
        }
    }

    // rule: engines (own) A request that is whole is answered once, by method, path and body
    /// Keeps a part of a request, and returns what is to be done next.
    ///
    /// # Errors
    ///
    /// [`AllocError`] where an allocation was refused.
    pub(crate) fn note(&mut self, event: EndEvent<&FieldList, &[u8]>) -> Result<Next, AllocError>
        ensures { IfOk result (λ next. NotesHanded self.old self.new (event_handed event.entry)
            next) }
    {
        match event {
            EndEvent::Head { id, list, end } => {
                let request = Request::begin(self.alloc, list, end)?;
                self.kept.remove(id);
                if end {
                    return Ok(Next::Answer { id, request });
                }
                self.kept.insert(id, request)?;
            }
            EndEvent::Body { id, bytes, end } => return self.add(id, bytes, end),
            EndEvent::Trailers { id, .. } => return Ok(self.end(id)),
            EndEvent::Reset { id, .. } => self.kept.remove(id),
            _ => {}
        }
        Ok(Next::Again)
    }

    // rule: engines (own) A request of more than 1,048,576 octets is ENHANCE_YOUR_CALM
    /// Appends octets to the body of a request.
    fn add(&mut self, id: u32, bytes: &[u8], end: bool) -> Result<Next, AllocError>
        ensures { IfOk result (λ next. AddsOctets self.old self.new id bytes.now end
            (request_at id self.old) next) }
    {
        if end {
            return self.add_last(id, bytes);
        }
        let Some(request) = self.kept.get_mut(id) else {
            return Ok(Next::Again);
        };
        if bytes.len() > request.room() {
            self.kept.remove(id);
            return Ok(Next::Reset { id });
        }
        request.extend(bytes)?;
        Ok(Next::Again)
    }

    // rule: engines (own) A request that is whole is answered once, by method, path and body
    /// Takes a request out, and appends the last octets to its body.
    fn add_last(&mut self, id: u32, bytes: &[u8]) -> Result<Next, AllocError>
        ensures { IfOk result (λ next. AddsOctets self.old self.new id bytes.now true
            (request_at id self.old) next) }
    {
        let Some(mut request) = self.kept.take(id) else {
            return Ok(Next::Again);
        };
        if bytes.len() > request.room() {
            return Ok(Next::Reset { id });
        }
        request.extend(bytes)?;
        Ok(Next::Answer { id, request })
    }

    // rule: engines (own) A request that is whole is answered once, by method, path and body
    /// Takes out a complete request.
    fn end(&mut self, id: u32) -> Next
        ensures { EndsKept self.old self.new id (request_at id self.old) result }
    {
        match self.kept.take(id) {
            Some(request) => Next::Answer { id, request },
            None => Next::Again,
        }
    }
}

/// Returns the value of the first field with this name, or no octets.
#[tactic(auto, unfolding(h2_message::specs::Fields::value_or_nothing, h2_message::specs::Fields::or_nothing))]
fn value_or_nothing<'a>(fields: &'a FieldList, name: &[u8]) -> &'a [u8]
    ensures { result.now ≡ value_or_nothing name.now fields.now }
{
    match fields.value(name) {
        Some(value) => value,
        None => &[],
    }
}

/// Returns the `content-length` of a head, at most 1,048,576; 0 where the head ends the request
/// or has none.
fn announced_octets(head: &FieldList, end: bool) -> usize
    ensures { result ≤ 1048576 }
{
    if end {
        return 0;
    }
    let mut octets = 0usize;
    for digit in value_or_nothing(head, b"content-length") {
        let units = usize::from(digit.wrapping_sub(b'0'));
        octets = octets.saturating_mul(10).saturating_add(units);
    }
    octets.min(GREATEST_BODY)
}
