//! Events that are kept.

ghost use Rattle.std.specs.Prelude.{◌≡◌, IfOk};
ghost use Rattle.h2_conn.specs.Events.{lent_value};
ghost use Rattle.h2_replay.specs.Values.{kept_event_value};

use h2_conn::Event;
use hpack::{Field, FieldList};
use std::alloc::{AllocError, Global};

// rule: replay (own) A replay keeps each act, its answer, its octets and its events
/// A copy of an event, with what is lent.
///
/// # Errors
///
/// [`AllocError`] where an allocation was refused.
pub(crate) fn copy_event(
    alloc: Global,
    event: Event<&FieldList, &[u8]>,
) -> Result<Event<Vec<Field>, Vec<u8>>, AllocError>
    ensures { IfOk result (λ copy. kept_event_value copy ≡ lent_value event.entry) }
{
    Ok(match event {
        Event::Fields { id, list, end } => Event::Fields {
            id,
            list: list.to_vec(alloc)?,
            end,
        },
        Event::Data {
            id,
            bytes,
            flow,
            end,
        } => Event::Data {
            id,
            bytes: Vec::from_slice(alloc, bytes)?,
            flow,
            end,
        },
        Event::Reset { id, code, ours } => Event::Reset { id, code, ours },
        Event::GoAway { last, code } => Event::GoAway { last, code },
        Event::Unprocessed { id } => Event::Unprocessed { id },
        Event::Acked => Event::Acked,
        Event::Pong { octets } => Event::Pong { octets },
    })
}
