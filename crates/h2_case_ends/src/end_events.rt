//! The lines of what a client or a server hands out: `interim ID`, `head ID` and `trailers ID`, and
//! a line for each field; `body ID` and the octets; each with `end` where the message is whole; and
//! the others as `h2_case_conn::conn_events` says.

use crate::side::Side;
use h2_case::text::Text;
use h2_case_conn::answers::{add_list, begin_line, end_with_octets};
use h2_case_conn::conn_events::{
    add_acked, add_goaway, add_pong, add_reset, add_unprocessed, note_fault,
};
use h2_case_conn::notes::{Notes, Taker, Used};
use h2_ends::EndEvent;
use hpack::FieldList;
use std::alloc::Global;

/// A list of fields that is written as lines.
pub(crate) trait FieldLines {
    /// Adds a line for each field.
    fn add_lines(self, alloc: Global, text: &mut Text);
}

impl FieldLines for &FieldList {
    fn add_lines(self, alloc: Global, text: &mut Text) {
        add_list(alloc, text, self);
    }
}

// The kind of an event.
fn kind_of(event: &EndEvent<&FieldList, &[u8]>) -> &'static str {
    match event {
        EndEvent::Interim { .. } => "interim",
        EndEvent::Head { .. } => "head",
        EndEvent::Trailers { .. } => "trailers",
        EndEvent::Body { .. } => "body",
        EndEvent::Reset { .. } => "reset",
        EndEvent::GoAway { .. } => "goaway",
        EndEvent::Unprocessed { .. } => "unprocessed",
        EndEvent::Acked => "acked",
        EndEvent::Pong { .. } => "pong",
    }
}

/// Adds the lines of an event.
pub(crate) fn add_event<F>(alloc: Global, text: &mut Text, event: EndEvent<F, &[u8]>)
where
    F: FieldLines + Drop,
{
    match event {
        EndEvent::Interim { id, list } => add_part(alloc, text, "interim", (id, false), list),
        EndEvent::Head { id, list, end } => add_part(alloc, text, "head", (id, end), list),
        EndEvent::Trailers { id, list } => add_part(alloc, text, "trailers", (id, true), list),
        EndEvent::Body { id, bytes, end } => add_body(text, id, bytes, end),
        EndEvent::Reset { id, code, ours } => add_reset(text, id, code, ours),
        EndEvent::GoAway { last, code } => add_goaway(text, last, code),
        EndEvent::Unprocessed { id } => add_unprocessed(text, id),
        EndEvent::Acked => add_acked(text),
        EndEvent::Pong { octets } => add_pong(text, &octets),
    }
}

// Adds the lines of a field block.
fn add_part<F>(alloc: Global, text: &mut Text, kind: &str, stream: (u32, bool), list: F)
where
    F: FieldLines + Drop,
{
    let (id, end) = stream;
    begin_line(text, kind, id, end);
    text.push_str("\n");
    list.add_lines(alloc, text);
}

/// Adds the line of octets of a body.
pub(crate) fn add_body(text: &mut Text, id: u32, octets: &[u8], end: bool) {
    begin_line(text, "body", id, end);
    end_with_octets(text, octets);
}

// Notes an event, if there is one; whether there is.
fn note_handed(notes: &mut Notes, handed: Option<EndEvent<&FieldList, &[u8]>>) -> bool {
    match handed {
        Some(event) => {
            notes.begin(kind_of(&event));
            add_event(notes.alloc, &mut notes.lines, event);
            true
        }
        None => false,
    }
}

impl Taker<Notes> for Side {
    fn take_piece(&mut self, piece: &[u8], notes: &mut Notes) -> Option<Used> {
        match self.take(piece) {
            Ok(taken) => Some(Used {
                count: taken.used,
                comes_out: note_handed(notes, taken.event),
            }),
            Err(fault) => {
                note_fault(notes, fault);
                None
            }
        }
    }
}
