//! What an end has handed out, lent to the caller.

ghost use Rattle.std.specs.Prelude.{◌≡◌, ◌==◌, ◌≤◌, length, slice_get, Some, MatchOption};
ghost use Rattle.h2_joined.specs.Stored.{event_kept, joint_event_value, events_kept, fields_kept};
ghost use Rattle.h2_joined.specs.Stored.{items_in};

use crate::store::{FieldPlace, Span, Store, fields_at, octets_at};
use h2_ends::{EndEvent, FieldRef};
use std::fmt;

/// The fields of a head or of trailers that were handed out.
#[derive(Clone, Copy)]
pub struct KeptFields<'a> {
    pub(crate) octets: &'a [u8],
    pub(crate) places: &'a [FieldPlace],
}

impl<'a> KeptFields<'a> {
    /// Returns how many fields there are.
    pub fn len(&self) -> usize
        ensures { result ≡ length (fields_kept self.now) }
    {
        self.places.len()
    }

    /// Returns whether there is no field.
    pub fn is_empty(&self) -> bool
        ensures { result ≡ (length (fields_kept self.now) == 0) }
    {
        self.places.is_empty()
    }

    // contract: joined (own) Accepted messages, what was handed out, octets on a pipe are kept
    /// Returns the field at a place, from 0; `None` past the last.
    pub fn get(&self, place: usize) -> Option<FieldRef<'a>>
        ensures { MatchOption result (length (fields_kept self.now) ≤ place)
            (λ field. slice_get (fields_kept self.now) place ≡ Some (record {
              name = field.name.now;
              value = field.value.now;
              sensitive = field.sensitive;
            })) }
    {
        if place >= self.places.len() {
            return None;
        }
        let found = self.places[place];
        Some(FieldRef {
            name: octets_at(self.octets, found.name),
            value: octets_at(self.octets, found.value),
            sensitive: found.sensitive,
        })
    }
}

impl fmt::Debug for KeptFields<'_> {
    fn fmt<W: fmt::Write>(&self, f: &mut fmt::Formatter<W>) -> fmt::Result {
        let mut fields = f.debug_list();
        for place in 0..self.len() {
            if let Some(field) = self.get(place) {
                fields.entry(&field);
            }
        }
        fields.finish()
    }
}

/// The events that an end has handed out, in order, lent to the caller.
#[derive(Clone, Copy)]
pub struct HandedEvents<'a> {
    pub(crate) store: &'a Store,
}

impl<'a> HandedEvents<'a> {
    /// Returns how many events there are.
    pub fn len(&self) -> usize
        ensures { result ≡ length (events_kept self.now.store.now) }
    {
        self.store.events.len()
    }

    /// Returns whether there is no event.
    pub fn is_empty(&self) -> bool
        ensures { result ≡ (length (events_kept self.now.store.now) == 0) }
    {
        self.store.events.is_empty()
    }

    // contract: joined (own) Accepted messages, what was handed out, octets on a pipe are kept
    // rule: joined (own) Accepted messages, what was handed out, octets on a pipe are kept
    /// Returns the event at a place, from 0; `None` past the last.
    pub fn get(&self, place: usize) -> Option<EndEvent<KeptFields<'a>, &'a [u8]>>
        ensures { MatchOption result (length (events_kept self.now.store.now) ≤ place)
            (λ event. slice_get (events_kept self.now.store.now) place
            ≡ Some (joint_event_value event)) }
    {
        if place >= self.store.events.len() {
            return None;
        }
        Some(lend(self.store, self.store.events[place]))
    }
}

impl fmt::Debug for HandedEvents<'_> {
    fn fmt<W: fmt::Write>(&self, f: &mut fmt::Formatter<W>) -> fmt::Result {
        let mut events = f.debug_list();
        for place in 0..self.len() {
            if let Some(event) = self.get(place) {
                events.entry(&event);
            }
        }
        events.finish()
    }
}

// rule: joined (own) Accepted messages, what was handed out, octets on a pipe are kept
/// Lends the event at a place of a store.
fn lend(store: &Store, place: EndEvent<Span, Span>) -> EndEvent<KeptFields<'_>, &[u8]>
    ensures { joint_event_value result
        ≡ event_kept store.now.octets.items store.now.fields.items place }
{
    match place {
        EndEvent::Interim { id, list } => EndEvent::Interim {
            id,
            list: lend_fields(store, list),
        },
        EndEvent::Head { id, list, end } => EndEvent::Head {
            id,
            list: lend_fields(store, list),
            end,
        },
        EndEvent::Body { id, bytes, end } => EndEvent::Body {
            id,
            bytes: octets_at(&store.octets, bytes),
            end,
        },
        EndEvent::Trailers { id, list } => EndEvent::Trailers {
            id,
            list: lend_fields(store, list),
        },
        EndEvent::Reset { id, code, ours } => EndEvent::Reset { id, code, ours },
        EndEvent::Unprocessed { id } => EndEvent::Unprocessed { id },
        EndEvent::GoAway { last, code } => EndEvent::GoAway { last, code },
        EndEvent::Acked => EndEvent::Acked,
        EndEvent::Pong { octets } => EndEvent::Pong { octets },
    }
}

/// Lends the fields of a span.
fn lend_fields(store: &Store, span: Span) -> KeptFields<'_>
    ensures octets { result.octets.now ≡ store.now.octets.items }
    ensures places { result.places.now ≡ items_in store.now.fields.items span }
{
    KeptFields {
        octets: &store.octets,
        places: fields_at(&store.fields, span),
    }
}
