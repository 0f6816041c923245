//! Whether what a joined end has handed out of each message is a prefix of what the other has
//! accepted.

use crate::lists::trailers_of;
use h2_joined::{Accepted, EndEvent, Field, FieldRef, Joined, KeptFields, Message, Side};

/// Whether a field that was handed out is this one.
fn is_field(kept: FieldRef<'_>, field: &Field) -> bool {
    kept.name == field.name.as_slice()
        && kept.value == field.value.as_slice()
        && kept.sensitive == field.sensitive
}

/// Whether fields that were handed out are these.
fn are_fields(list: KeptFields<'_>, fields: &[Field]) -> bool {
    let mut same = list.len() == fields.len();
    for place in 0..fields.len() {
        if let (Some(kept), Some(field)) = (list.get(place), fields.get(place)) {
            same = is_field(kept, field) && same;
        }
    }
    same
}

/// The part of a message that was handed out.
#[derive(Clone, Copy)]
struct Part {
    head: bool,
    /// The number of octets of its body.
    body: usize,
    trailers: bool,
}

impl Part {
    /// Adds a head, and returns whether it is what follows.
    fn add_head(&mut self, list: KeptFields<'_>, message: &Message) -> bool {
        let is_first = !self.head;
        self.head = true;
        is_first && are_fields(list, &message.head)
    }

    /// Adds octets of a body, and returns whether they are what follows.
    fn add_body(&mut self, bytes: &[u8], message: &Message) -> bool {
        let body = message.body.as_slice();
        let others = body.get(self.body..).unwrap_or(b"");
        self.body = self.body.saturating_add(bytes.len());
        self.head && !self.trailers && others.starts_with(bytes)
    }

    /// Adds trailers, and returns whether they are what follows.
    fn add_trailers(&mut self, list: KeptFields<'_>, message: &Message) -> bool {
        let is_last = self.head && !self.trailers && self.body == message.body.len();
        self.trailers = true;
        is_last && are_fields(list, trailers_of(message))
    }

    /// Whether it is all of a message.
    fn is_all(&self, message: &Message) -> bool {
        let is_ended = self.trailers || message.trailers.is_none();
        self.head && self.body == message.body.len() && is_ended
    }

    /// Adds an event, and returns whether it is what follows of the message of a stream, or is of
    /// no message of that stream.
    fn add(
        &mut self,
        event: EndEvent<KeptFields<'_>, &[u8]>,
        stream: u32,
        message: &Message,
    ) -> bool {
        match event {
            EndEvent::Interim { id, .. } => id != stream,
            EndEvent::Head { id, list, end } if id == stream => {
                self.add_head(list, message) && (!end || self.is_all(message))
            }
            EndEvent::Body { id, bytes, end } if id == stream => {
                self.add_body(bytes, message) && (!end || self.is_all(message))
            }
            EndEvent::Trailers { id, list } if id == stream => self.add_trailers(list, message),
            _ => true,
        }
    }
}

/// Whether what an end has handed out of a message that the other has accepted is a prefix of it,
/// or all of it.
fn is_handed(joined: &Joined, to: Side, accepted: &Accepted, is_whole: bool) -> bool {
    let handed = joined.handed(to);
    let mut part = Part {
        head: false,
        body: 0,
        trailers: false,
    };
    let mut holds = true;
    for place in 0..handed.len() {
        if let Some(event) = handed.get(place) {
            holds = part.add(event, accepted.id, &accepted.message) && holds;
        }
    }
    holds && (!is_whole || part.is_all(&accepted.message))
}

/// Whether what one end has handed out of each message is a prefix of what the other has accepted;
/// of stream 3 it is complete, unless an end has failed.
pub(crate) fn are_prefixes(joined: &Joined, from: Side, to: Side, failed: bool) -> bool {
    let mut holds = true;
    for accepted in joined.accepted(from) {
        let is_whole = accepted.id == 3 && !failed;
        holds = is_handed(joined, to, accepted, is_whole) && holds;
    }
    holds
}
