//! Whether what an end has handed out on a stream is a prefix of a message, or all of it.

use h2_joined::{Accepted, EndEvent, Field, FieldRef, HandedEvents, KeptFields, Message};

/// The part of a message that was handed out.
#[derive(Clone, Copy)]
struct Heard {
    /// Whether its head was.
    has_head: bool,
    /// The number of octets of its body.
    count: usize,
    /// Whether its trailers were.
    has_trailers: bool,
    /// Whether its end was.
    ended: bool,
    /// Whether its parts came in the order of a message, and are those of this one.
    fits: bool,
}

// Whether two fields are the same.
fn is_same(field: FieldRef<'_>, other: &Field) -> bool {
    field.name == other.name.as_slice()
        && field.value == other.value.as_slice()
        && field.sensitive == other.sensitive
}

// Whether the field at a place is this one.
fn is_at(list: KeptFields<'_>, place: usize, other: &Field) -> bool {
    match list.get(place) {
        Some(field) => is_same(field, other),
        None => false,
    }
}

// Whether two lists of fields are the same.
fn are_same(list: KeptFields<'_>, other: &[Field]) -> bool {
    if list.len() != other.len() {
        return false;
    }
    for (place, other) in other.iter().enumerate() {
        if !is_at(list, place, other) {
            return false;
        }
    }
    true
}

/// The stream of whose message an event is a part.
fn stream_of(event: EndEvent<KeptFields<'_>, &[u8]>) -> Option<u32> {
    match event {
        EndEvent::Interim { id, .. }
        | EndEvent::Head { id, .. }
        | EndEvent::Body { id, .. }
        | EndEvent::Trailers { id, .. } => Some(id),
        _ => None,
    }
}

impl Heard {
    // Whether more may come.
    fn goes_on(self) -> bool {
        self.has_head && !self.ended
    }

    // Whether these octets go on with a body.
    fn is_next(self, body: &[u8], octets: &[u8]) -> bool {
        match body.get(self.count..) {
            Some(others) => others.starts_with(octets),
            None => false,
        }
    }

    // With the head of the message.
    fn with_head(self, message: &Message, list: KeptFields<'_>, end: bool) -> Heard {
        Heard {
            has_head: true,
            ended: end,
            fits: self.fits && !self.has_head && are_same(list, &message.head),
            ..self
        }
    }

    // With octets of the body.
    fn with_body(self, message: &Message, octets: &[u8], end: bool) -> Heard {
        Heard {
            count: self.count.saturating_add(octets.len()),
            ended: end,
            fits: self.fits
                && self.goes_on()
                && (end || !octets.is_empty())
                && self.is_next(&message.body, octets),
            ..self
        }
    }

    // With the trailers.
    fn with_trailers(self, message: &Message, list: KeptFields<'_>) -> Heard {
        let is_same = match &message.trailers {
            Some(trailers) => are_same(list, trailers),
            None => false,
        };
        Heard {
            has_trailers: true,
            ended: true,
            fits: self.fits && self.goes_on() && is_same,
            ..self
        }
    }

    // With a part of this message.
    fn with(self, message: &Message, event: EndEvent<KeptFields<'_>, &[u8]>) -> Heard {
        match event {
            EndEvent::Head { list, end, .. } => self.with_head(message, list, end),
            EndEvent::Body { bytes, end, .. } => self.with_body(message, bytes, end),
            EndEvent::Trailers { list, .. } => self.with_trailers(message, list),
            _ => Heard {
                fits: false,
                ..self
            },
        }
    }

    // Whether this has all parts of the message.
    fn has_all(self, message: &Message) -> bool {
        self.count == message.body.len() && self.has_trailers == message.trailers.is_some()
    }

    // Whether this is a prefix of what was accepted; its end was given where it is not open. A head
    // alone that was given in parts is ended by DATA without octets.
    fn begins(self, accepted: &Accepted) -> bool {
        self.fits && (!self.ended || (!accepted.begun && self.has_all(&accepted.message)))
    }
}

// The message with an event, if that is a part of it.
fn hear(heard: Heard, event: EndEvent<KeptFields<'_>, &[u8]>, accepted: &Accepted) -> Heard {
    if stream_of(event) == Some(accepted.id) {
        return heard.with(&accepted.message, event);
    }
    heard
}

// What was handed out of a message.
fn heard_of(events: HandedEvents<'_>, accepted: &Accepted) -> Heard {
    let mut heard = Heard {
        has_head: false,
        count: 0,
        has_trailers: false,
        ended: false,
        fits: true,
    };
    for place in 0..events.len() {
        if let Some(event) = events.get(place) {
            heard = hear(heard, event, accepted);
        }
    }
    heard
}

/// Whether a message was accepted for a stream.
fn is_accepted(accepted: &[Accepted], id: u32) -> bool {
    accepted.iter().any(|one| one.id == id)
}

// Whether an event is no part of a message, or of one that was accepted.
fn is_accepted_part(event: EndEvent<KeptFields<'_>, &[u8]>, accepted: &[Accepted]) -> bool {
    match stream_of(event) {
        Some(id) => is_accepted(accepted, id),
        None => true,
    }
}

/// Whether parts were handed out only on streams for which messages were accepted.
fn are_accepted(events: HandedEvents<'_>, accepted: &[Accepted]) -> bool {
    for place in 0..events.len() {
        if let Some(event) = events.get(place) {
            if !is_accepted_part(event, accepted) {
                return false;
            }
        }
    }
    true
}

/// Whether all of the message that was accepted for a stream was handed out there; `None` where
/// what was handed out on some stream is no prefix of the message that was accepted for it.
pub(crate) fn is_whole(events: HandedEvents<'_>, accepted: &[Accepted], id: u32) -> Option<bool> {
    let mut is_whole = false;
    for one in accepted {
        let heard = heard_of(events, one);
        if !heard.begins(one) {
            return None;
        }
        if one.id == id {
            is_whole = heard.ended;
        }
    }
    are_accepted(events, accepted).then_some(is_whole)
}
