//! Prints events, and the octets that an endpoint sends, as lines of text.

ghost use Rattle.std.specs.Prelude.{◌≢◌, Err, Some, flat_map, OnOk};
ghost use Rattle.std.specs.Io.KnownBytes.{Appends};
ghost use Rattle.h2_spec_log.specs.Events.{PongEvent};
ghost use Rattle.h2_conn.specs.Events.{lent_value};
ghost use Rattle.h2_show.specs.Lines.{field_line};
ghost use Rattle.h2_events.specs.EventLines.{event_lines, end_word};

use h2_cli::{Failure, PIECE};
use h2_conn::{Conn, Event};
use h2_show::{hexadecimal_of, write_field};
use hpack::FieldList;
use std::alloc::Global;
use std::fmt;
use std::io::{self, Write};

// rule: replay (own) The line of an event has its type, stream and more
/// Prints the line of an event, and then a line for each of its fields, as
/// [`write_field`](h2_show::write_field) does. Words are separated by one space, and numbers are
/// decimal; the octets of a PING are hexadecimal in lower case.
///
/// # Errors
///
/// Those of the writer.
#[tactic(auto, unfolding(crate::specs::EventLines::event_lines))]
pub fn write_event<W: Write>(event: Event<&FieldList, &[u8]>, out: &mut W) -> io::Result<()>
    ensures { OnOk result (Appends (W.contents out.old) (W.contents out.new)
        (event_lines (lent_value event.entry))) }
{
    match event {
        Event::Fields { id, list, end } => {
            writeln!(out, "fields {id}{}", End(end))?;
            write_fields(list, out)
        }
        Event::Data {
            id,
            bytes,
            flow,
            end,
        } => {
            let count = bytes.len();
            writeln!(out, "data {id} octets={count} flow={flow}{}", End(end))
        }
        Event::Reset { id, code, ours } => {
            let whose = if ours { "ours" } else { "theirs" };
            writeln!(out, "reset {id} code={code} {whose}")
        }
        Event::GoAway { last, code } => writeln!(out, "goaway last={last} code={code}"),
        Event::Unprocessed { id } => writeln!(out, "unprocessed {id}"),
        Event::Acked => out.write_all(b"acked\n"),
        Event::Pong { octets } => write_pong(octets, out),
    }
}

/// A space and the word for END_STREAM, if it is set.
#[derive(Clone, Copy)]
struct End(bool);

impl fmt::Display for End {
    ghost output = { λ end. Some (end_word end.0) };

    fn fmt<W: fmt::Write>(&self, f: &mut fmt::Formatter<W>) -> fmt::Result {
        match self.0 {
            true => write!(f, " end"),
            false => Ok(()),
        }
    }
}

// rule: replay (own) The line of an event has its type, stream and more
/// Prints the lines of the fields of a list.
fn write_fields<W: Write>(list: &FieldList, out: &mut W) -> io::Result<()>
    ensures { OnOk result (Appends (W.contents out.old) (W.contents out.new)
        (flat_map field_line list.now)) }
{
    for place in 0..list.len() {
        if let Some(field) = list.get(place) {
            write_field(field, out)?;
        }
    }
    Ok(())
}

// rule: replay (own) The line of an event has its type, stream and more
/// Prints the line of a PING that was answered, with its octets.
#[tactic(auto, unfolding(crate::specs::EventLines::event_lines))]
fn write_pong<W: Write>(octets: [u8; 8], out: &mut W) -> io::Result<()>
    ensures { OnOk result (Appends (W.contents out.old) (W.contents out.new)
        (event_lines (PongEvent octets))) }
{
    out.write_all(b"pong ")?;
    out.write_all(&hexadecimal_of(octets))?;
    out.write_all(b"\n")
}

// rule (contract): replay (own) Each event has a line, written with its piece
/// Prints the line of all queued output, taking it in pieces.
pub(crate) fn write_out<W: Write>(
    alloc: Global,
    conn: &mut Conn,
    out: &mut W,
) -> Result<(), Failure>
    ensures bad_hex { result ≢ Err Failure.BadHex }
{
    out.write_all(b"out ")?;
    let mut octets = Vec::new(alloc);
    for _ in 0..u64::MAX {
        match conn.put_out(PIECE, &mut octets) {
            Ok(0) => break,
            Ok(_) => {}
            Err(_) => return Err(Failure::Memory),
        }
        let text = hex::encode(alloc, octets.as_slice())?;
        out.write_all(text.as_bytes())?;
        octets.clear();
    }
    out.write_all(b"\n")?;
    Ok(())
}
