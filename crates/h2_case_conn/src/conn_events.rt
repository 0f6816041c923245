//! The lines of what one end of a connection reports.
//!
//! - `fields ID`, and `end` where the stream ends, and a line for each field.
//! - `data ID flow=N`, `end`, and the octets.
//! - `reset ID code=N ours` or `theirs`, `goaway last=N code=N`, `unprocessed ID`, `acked`, and
//!   `pong OCTETS`.

use crate::answers::{add_labeled, add_list, begin_line, end_with_octets};
use crate::notes::Notes;
use h2_case::fields::add_fields;
use h2_case::text::Text;
use h2_conn::{ConnFault, Event};
use hpack::{Field, FieldList};
use std::alloc::Global;

// The kind of what is reported.
fn kind_of(event: &Event<&FieldList, &[u8]>) -> &'static str {
    match event {
        Event::Fields { .. } => "fields",
        Event::Data { .. } => "data",
        Event::Reset { .. } => "reset",
        Event::GoAway { .. } => "goaway",
        Event::Unprocessed { .. } => "unprocessed",
        Event::Acked => "acked",
        Event::Pong { .. } => "pong",
    }
}

/// Notes what is reported, if something is; returns whether it is.
pub(crate) fn note_event(notes: &mut Notes, reported: Option<Event<&FieldList, &[u8]>>) -> bool {
    match reported {
        Some(event) => {
            notes.begin(kind_of(&event));
            add_event(notes.alloc, &mut notes.lines, event);
            true
        }
        None => false,
    }
}

/// Notes a connection error.
pub fn note_fault(notes: &mut Notes, fault: ConnFault) {
    notes.begin("fault");
    write!(notes.lines, "fault {:?}\n", fault.code);
}

// Adds the lines of what is reported.
fn add_event(alloc: Global, text: &mut Text, event: Event<&FieldList, &[u8]>) {
    match event {
        Event::Fields { id, list, end } => {
            begin_line(text, "fields", id, end);
            text.push_str("\n");
            add_list(alloc, text, list);
        }
        Event::Data {
            id,
            bytes,
            flow,
            end,
        } => add_data(text, id, bytes, (flow, end)),
        Event::Reset { id, code, ours } => add_reset(text, id, code, ours),
        Event::GoAway { last, code } => add_goaway(text, last, code),
        Event::Unprocessed { id } => add_unprocessed(text, id),
        Event::Acked => add_acked(text),
        Event::Pong { octets } => add_pong(text, &octets),
    }
}

/// Adds the lines of what a replay has kept.
pub(crate) fn add_kept(alloc: Global, text: &mut Text, event: &Event<Vec<Field>, Vec<u8>>) {
    match event {
        Event::Fields { id, list, end } => {
            begin_line(text, "fields", *id, *end);
            text.push_str("\n");
            add_fields(alloc, text, list);
        }
        Event::Data {
            id,
            bytes,
            flow,
            end,
        } => add_data(text, *id, bytes, (*flow, *end)),
        Event::Reset { id, code, ours } => add_reset(text, *id, *code, *ours),
        Event::GoAway { last, code } => add_goaway(text, *last, *code),
        Event::Unprocessed { id } => add_unprocessed(text, *id),
        Event::Acked => add_acked(text),
        Event::Pong { octets } => add_pong(text, octets),
    }
}

// Adds the line of octets of a body: what they took of the windows, and whether the stream ends.
fn add_data(text: &mut Text, id: u32, octets: &[u8], of_frame: (u32, bool)) {
    let (flow, end) = of_frame;
    text.push_labeled("data ", id);
    text.push_labeled(" flow=", flow);
    text.push_str(if end { " end" } else { "" });
    end_with_octets(text, octets);
}

/// Adds the line of a stream that was reset.
pub fn add_reset(text: &mut Text, id: u32, code: u32, ours: bool) {
    text.push_labeled("reset ", id);
    text.push_labeled(" code=", code);
    text.push_line(if ours { " ours" } else { " theirs" });
}

/// Adds the line of GOAWAY.
pub fn add_goaway(text: &mut Text, last: u32, code: u32) {
    text.push_labeled("goaway last=", last);
    add_labeled(text, " code=", code);
}

/// Adds the line of a stream that the peer has not processed.
pub fn add_unprocessed(text: &mut Text, id: u32) {
    add_labeled(text, "unprocessed ", id);
}

/// Adds the line of SETTINGS that were acknowledged.
pub fn add_acked(text: &mut Text) {
    text.push_line("acked");
}

/// Adds the line of a PING that was answered.
pub fn add_pong(text: &mut Text, octets: &[u8; 8]) {
    text.push_str("pong");
    end_with_octets(text, octets);
}
