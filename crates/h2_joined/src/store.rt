//! What an end has handed out: its events, with the places of their fields and octets.

ghost use Rattle.std.specs.Prelude.{◌≡◌, ℕ, true, length, []};
ghost use Rattle.h2_ends.specs.Loans.{event_handed};
ghost use Rattle.h2_joined.specs.Stored.{AreStored, Fits, HasRoomForEvent, KeepsItems, KeepsMore};
ghost use Rattle.h2_joined.specs.Stored.{KeepsField, KeepsList, StoresOctets, PlacesEvent};
ghost use Rattle.h2_joined.specs.Stored.{events_kept, items_in};

use h2_ends::{EndEvent, FieldList, FieldRef};
use std::alloc::Global;

/// The greatest size of a list: its octets, and 32 for each field.
const MOST_LIST_SIZE: usize = 65_536;

/// The most fields of one event: each counts at least 32 of the size of its list.
const MOST_FIELDS: usize = 2_048;

/// From `start` up to `end`, which is not included.
#[derive(Clone, Copy)]
pub(crate) struct Span {
    pub(crate) start: usize,
    pub(crate) end: usize,
}

/// Where a field lies among the octets.
#[derive(Clone, Copy)]
pub(crate) struct FieldPlace {
    pub(crate) name: Span,
    pub(crate) value: Span,
    pub(crate) sensitive: bool,
}

/// What an end has handed out, in order.
#[derive(Drop)]
pub(crate) struct Store {
    /// The events, with the spans of their fields in `fields` and of their octets in `octets`.
    pub(crate) events: Vec<EndEvent<Span, Span>>,
    /// The fields of all of them.
    pub(crate) fields: Vec<FieldPlace>,
    /// The octets of all fields and bodies.
    pub(crate) octets: Vec<u8>,
}

impl Store {
    /// Returns an empty store.
    pub(crate) fn new(alloc: Global) -> Store
        ensures none { events_kept result ≡ [] }
        ensures stored { AreStored result }
    {
        Store {
            events: Vec::new(alloc),
            fields: Vec::new(alloc),
            octets: Vec::new(alloc),
        }
    }

    // rule: joined (own) A delivery without memory stops before a call and loses nothing
    /// Makes room for the largest event that a call of `take` can return, whose body has at most
    /// `body` octets, and returns whether there was memory for it.
    pub(crate) fn make_room(&mut self, body: usize) -> bool
        ensures items { KeepsItems self.old self.new }
        ensures room { result ≡ true → HasRoomForEvent body self.new }
    {
        if self.events.reserve(1).is_err() {
            return false;
        }
        if self.fields.reserve(MOST_FIELDS).is_err() {
            return false;
        }
        self.octets.reserve(MOST_LIST_SIZE.max(body)).is_ok()
    }

    // rule: joined (own) Accepted messages, what was handed out, octets on a pipe are kept
    /// Keeps an event. There is room, so memory is never refused.
    pub(crate) fn keep(&mut self, event: EndEvent<&FieldList, &[u8]>)
        ensures { (body : ℕ) → HasRoomForEvent body self.old → Fits body (event_handed event.entry)
            → AreStored self.old → KeepsMore self.old (event_handed event.entry) self.new }
    {
        let place = self.place_of(event);
        let _pushed = self.events.push(place);
    }

    // rule: joined (own) Accepted messages, what was handed out, octets on a pipe are kept
    /// Keeps the fields and the octets of an event, and returns the event with their places.
    fn place_of(&mut self, event: EndEvent<&FieldList, &[u8]>) -> EndEvent<Span, Span>
        ensures { PlacesEvent self.old (event_handed event.entry) result self.new }
    {
        match event {
            EndEvent::Interim { id, list } => EndEvent::Interim {
                id,
                list: self.keep_list(list),
            },
            EndEvent::Head { id, list, end } => EndEvent::Head {
                id,
                list: self.keep_list(list),
                end,
            },
            EndEvent::Body { id, bytes, end } => EndEvent::Body {
                id,
                bytes: self.keep_octets(bytes),
                end,
            },
            EndEvent::Trailers { id, list } => EndEvent::Trailers {
                id,
                list: self.keep_list(list),
            },
            EndEvent::Reset { id, code, ours } => EndEvent::Reset { id, code, ours },
            EndEvent::Unprocessed { id } => EndEvent::Unprocessed { id },
            EndEvent::GoAway { last, code } => EndEvent::GoAway { last, code },
            EndEvent::Acked => EndEvent::Acked,
            EndEvent::Pong { octets } => EndEvent::Pong { octets },
        }
    }

    /// Keeps the fields of a list, and returns where they are.
    fn keep_list(&mut self, list: &FieldList) -> Span
        ensures { KeepsList self.old list.now result self.new }
    {
        let start = self.fields.len();
        for place in 0..list.len() {
            let Some(field) = list.get(place) else {
                unreachable!()
            };
            self.keep_field(field);
        }
        Span {
            start,
            end: self.fields.len(),
        }
    }

    /// Keeps a field.
    fn keep_field(&mut self, field: FieldRef<'_>)
        ensures { KeepsField self.old (record {
          name = field.entry.name.now;
          value = field.entry.value.now;
          sensitive = field.entry.sensitive;
        }) self.new }
    {
        let name = self.keep_octets(field.name);
        let value = self.keep_octets(field.value);
        let sensitive = field.sensitive;
        let _pushed = self.fields.push(FieldPlace {
            name,
            value,
            sensitive,
        });
    }

    /// Keeps octets, and returns where they are.
    fn keep_octets(&mut self, octets: &[u8]) -> Span
        ensures { StoresOctets self.old octets.now result self.new }
    {
        let start = self.octets.len();
        let _kept = self.octets.extend_from_slice(octets);
        Span {
            start,
            end: self.octets.len(),
        }
    }
}

/// Returns the octets of a span.
pub(crate) fn octets_at(octets: &[u8], span: Span) -> &[u8]
    ensures { result.now ≡ items_in octets.now span }
{
    let end = span.end.min(octets.len());
    let start = span.start.min(end);
    &octets[start..end]
}

/// Returns the fields of a span.
pub(crate) fn fields_at(fields: &[FieldPlace], span: Span) -> &[FieldPlace]
    ensures { result.now ≡ items_in fields.now span }
{
    let end = span.end.min(fields.len());
    let start = span.start.min(end);
    &fields[start..end]
}
