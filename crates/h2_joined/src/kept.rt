//! What is kept of an end: the messages that it has accepted, the events that it has handed
//! out, and the pipe that leads to it.

ghost use Rattle.std.specs.Prelude.{◌≡◌, ◌+◌, ◌≤◌, true, [], ◌∷◌, ◌++◌, length, IfOk, None};
ghost use Rattle.std.specs.Prelude.{vec_len};
ghost use Rattle.std.specs.Vec.{vec_capacity};
ghost use Rattle.h2_spec_log.specs.Acts.{Values};
ghost use Rattle.h2_spec_log.specs.declared.role.Role.{Role};
ghost use Rattle.hpack.specs.Written.{AreOctets};
ghost use Rattle.h2_message.specs.Values.{message_value};
ghost use Rattle.h2_joined.specs.Joints.{new_joint_end};
ghost use Rattle.h2_joined.specs.Kept.{KeepsEnd, accepted_shown};
ghost use Rattle.h2_joined.specs.Parts.{IsPlaceOf, HasRoomInBody, ShowsAccepted, shown_of, grown};
ghost use Rattle.h2_joined.specs.Parts.{shown_with_octets, shown_with_trailers};

use crate::pipe::Pipe;
use crate::store::Store;
use h2_ends::{Field, Message};
use std::alloc::{AllocError, Global};

/// What is kept of an end.
#[derive(Drop)]
pub(crate) struct Kept {
    /// The pipe that leads to it.
    pub(crate) incoming: Pipe,
    /// The messages that it has accepted, in order.
    pub(crate) accepted: Vec<Accepted>,
    /// What it has handed out, in order.
    pub(crate) handed: Store,
    /// Whether the last delivery to it stopped early, so that its octets may give more events.
    pub(crate) unfinished: bool,
}

impl Kept {
    /// Returns what is kept of a new end.
    pub(crate) fn new(alloc: Global) -> Kept
        ensures { (role : Role) (values : Values)
            → KeepsEnd result (new_joint_end role values) }
    {
        Kept {
            incoming: Pipe::new(alloc),
            accepted: Vec::new(alloc),
            handed: Store::new(alloc),
            unfinished: false,
        }
    }

    // rule: joined (own) Accepted messages, what was handed out, octets on a pipe are kept
    /// Keeps a message that was accepted. There is room for it.
    pub(crate) fn accept(&mut self, accepted: Accepted)
        requires room { vec_len self.old.accepted + 1 ≤ vec_capacity self.old.accepted }
        ensures accepted { self.new.accepted.items ≡ self.old.accepted.items ++ accepted ∷ [] }
        ensures incoming { self.new.incoming ≡ self.old.incoming }
        ensures handed { self.new.handed ≡ self.old.handed }
        ensures unfinished { self.new.unfinished ≡ self.old.unfinished }
    {
        let _pushed = self.accepted.push(accepted);
    }

    /// Returns the place of the message that was accepted for a stream, if any.
    fn place_of(&self, id: u32) -> Option<usize>
        ensures { IsPlaceOf self.now.accepted.items id result }
    {
        let mut place = self.accepted.len();
        while place > 0 {
            place -= 1;
            if self.accepted[place].id == id {
                return Some(place);
            }
        }
        None
    }

    // rule: joined (own) Accepted messages, what was handed out, octets on a pipe are kept
    /// Makes room for `count` more octets of the body of the stream's message, if one was
    /// accepted, and returns whether there was memory for them.
    pub(crate) fn make_room(&mut self, id: u32, count: usize) -> bool
        ensures same { ShowsAccepted self.old (shown_of self.old.accepted.items) self.new }
        ensures room { result ≡ true → HasRoomInBody self.new.accepted.items id count }
    {
        let Some(place) = self.place_of(id) else {
            return true;
        };
        self.accepted[place].message.body.reserve(count).is_ok()
    }

    // rule: joined (own) Accepted messages, what was handed out, octets on a pipe are kept
    /// Keeps more octets of the body of the stream's message, for which there is room, and
    /// whether they end it.
    pub(crate) fn keep_octets(&mut self, id: u32, octets: &[u8], ended: bool)
        ensures { HasRoomInBody self.old.accepted.items id (length octets.now)
            → ShowsAccepted self.old (grown id (shown_with_octets octets.now ended)
            (shown_of self.old.accepted.items)) self.new }
    {
        let Some(place) = self.place_of(id) else {
            return;
        };
        let one = &mut self.accepted[place];
        let _kept = one.message.body.extend_from_slice(octets);
        if ended {
            one.begun = false;
        }
    }

    // rule: joined (own) Accepted messages, what was handed out, octets on a pipe are kept
    /// Keeps the trailers of the stream's message, which end it.
    pub(crate) fn keep_trailers(&mut self, id: u32, trailers: Vec<Field>)
        ensures { ShowsAccepted self.old (grown id (shown_with_trailers trailers.items)
            (shown_of self.old.accepted.items)) self.new }
    {
        let Some(place) = self.place_of(id) else {
            return;
        };
        let one = &mut self.accepted[place];
        one.message.trailers = Some(trailers);
        one.begun = false;
    }
}

/// A message that an end has accepted for a stream.
#[derive(Debug, Drop)]
pub struct Accepted {
    /// The stream.
    pub id: u32,
    /// The message; if it was begun, what was accepted of it so far.
    pub message: Message,
    /// Whether it was begun in parts and its end was not accepted yet. A reset of the stream or a
    /// failure of the connection does not change this.
    pub begun: bool,
}

impl Accepted {
    /// Makes the entry of a message that is begun on a stream with this head.
    pub(crate) fn with_head(alloc: Global, id: u32, head: Vec<Field>) -> Accepted
        ensures { accepted_shown result
            ≡ (id, (record { head = head.items; body = []; trailers = None }, true)) }
    {
        let message = Message {
            head,
            body: Vec::new(alloc),
            trailers: None,
        };
        Accepted {
            id,
            message,
            begun: true,
        }
    }
}

/// Copies a name and a value into a field. The items of slices are known to be octets, so its
/// contract can say it.
fn copy_field(
    alloc: Global,
    name: &[u8],
    value: &[u8],
    sensitive: bool,
) -> Result<Field, AllocError>
    ensures same { IfOk result (λ copy. copy ≡ record {
      name = name.now;
      value = value.now;
      sensitive = sensitive;
    }) }
    ensures octets { IfOk result (λ copy. AreOctets (copy ∷ [])) }
{
    Field::copy_of(alloc, name, value, sensitive)
}

/// Copies fields. Their names and values are octets.
pub(crate) fn copy_fields(alloc: Global, fields: &[Field]) -> Result<Vec<Field>, AllocError>
    ensures same { IfOk result (λ copy. copy.items ≡ fields.now) }
    ensures octets { IfOk result (λ copy. AreOctets copy.items) }
{
    let mut copy = Vec::new(alloc);
    for field in fields {
        let (name, value) = (field.name.as_slice(), field.value.as_slice());
        copy.push(copy_field(alloc, name, value, field.sensitive)?)?;
    }
    Ok(copy)
}

// rule: joined (own) Accepted messages, what was handed out, octets on a pipe are kept
/// Copies a message.
fn copy_message(alloc: Global, message: &Message) -> Result<Message, AllocError>
    ensures same { IfOk result (λ copy. message_value copy ≡ message_value message.now) }
    ensures octets { IfOk result (λ copy. AreOctets (message_value copy).head) }
{
    let trailers = match &message.trailers {
        Some(fields) => Some(copy_fields(alloc, fields)?),
        None => None,
    };
    Ok(Message {
        head: copy_fields(alloc, &message.head)?,
        body: Vec::from_slice(alloc, &message.body)?,
        trailers,
    })
}

/// Copies a message twice: once for the end, once to keep.
pub(crate) fn copy_twice(alloc: Global, message: &Message) -> Result<(Message, Message), AllocError>
    ensures given { IfOk result (λ copies. message_value copies.0 ≡ message_value message.now) }
    ensures kept { IfOk result (λ copies. message_value copies.1 ≡ message_value message.now) }
    ensures octets { IfOk result (λ copies. AreOctets (message_value message.now).head) }
{
    Ok((copy_message(alloc, message)?, copy_message(alloc, message)?))
}
