//! The lines of the events of a client or a server.

ghost use Rattle.std.specs.Prelude.{◌≡◌, Ok, OnOk, IfOk, option_map};
ghost use Rattle.std.specs.Io.KnownBytes.{Appends};
ghost use Rattle.h2_conn.specs.Events.{lent_value};
ghost use Rattle.h2_ends.specs.Loans.{event_handed};
ghost use Rattle.h2_events.specs.EventLines.{end_word, event_lines};
ghost use Rattle.h2_messages.specs.PartLines.{lent_lines, unwritten_lines, unwritten_of};

use h2_conn::Event;
use h2_ends::EndEvent;
use h2_events::write_event;
use hpack::FieldList;
use std::io::{self, Write};

/// What is still to be written of an event, once it is no longer borrowed.
#[derive(Clone, Copy, Debug)]
pub(crate) enum Unwritten {
    /// There was no event.
    Nothing,
    /// All is written.
    Written,
    /// The line of octets of a body, whose flow-controlled length must be asked for.
    Body {
        /// The stream.
        id: u32,
        /// The number of octets.
        count: usize,
        /// Whether the message is complete.
        end: bool,
    },
    /// The line of a stream that was reset, which follows the line of the cause.
    Reset {
        /// The stream.
        id: u32,
        /// The error code.
        code: u32,
        /// Whether this end reset it.
        ours: bool,
    },
}

// rule: messages (own) What is handed out has the line that replay prints of it
/// Writes the lines of an event that need its borrowed data, and returns what is still to be
/// written.
///
/// # Errors
///
/// Those of the writer.
pub(crate) fn write_lent<W: Write>(
    handed: Option<EndEvent<&FieldList, &[u8]>>,
    out: &mut W,
) -> io::Result<Unwritten>
    ensures unwritten { IfOk result
        (λ unwritten. unwritten ≡ unwritten_of (option_map event_handed handed.entry)) }
    ensures written { OnOk result (Appends (W.contents out.old) (W.contents out.new)
        (lent_lines (option_map event_handed handed.entry))) }
{
    let Some(event) = handed else {
        return Ok(Unwritten::Nothing);
    };
    match event {
        EndEvent::Body { id, bytes, end } => Ok(Unwritten::Body {
            id,
            count: bytes.len(),
            end,
        }),
        EndEvent::Reset { id, code, ours } => Ok(Unwritten::Reset { id, code, ours }),
        EndEvent::Interim { id, list } => {
            let end = false;
            written(Event::Fields { id, list, end }, out)
        }
        EndEvent::Head { id, list, end } => written(Event::Fields { id, list, end }, out),
        EndEvent::Trailers { id, list } => {
            let end = true;
            written(Event::Fields { id, list, end }, out)
        }
        EndEvent::Unprocessed { id } => written(Event::Unprocessed { id }, out),
        EndEvent::GoAway { last, code } => written(Event::GoAway { last, code }, out),
        EndEvent::Acked => written(Event::Acked, out),
        EndEvent::Pong { octets } => written(Event::Pong { octets }, out),
    }
}

// Writes all lines of an event.
fn written<W: Write>(event: Event<&FieldList, &[u8]>, out: &mut W) -> io::Result<Unwritten>
    ensures unwritten { IfOk result (λ unwritten. unwritten ≡ Unwritten.Written) }
    ensures written { OnOk result (Appends (W.contents out.old) (W.contents out.new)
        (event_lines (lent_value event.entry))) }
{
    write_event(event, out)?;
    Ok(Unwritten::Written)
}

// rule: messages (own) What is handed out has the line that replay prints of it
/// Writes the rest; `flow` is the number of flow-controlled octets of a body.
///
/// # Errors
///
/// Those of the writer.
pub(crate) fn write_unwritten<W: Write>(
    unwritten: Unwritten,
    flow: u32,
    out: &mut W,
) -> io::Result<()>
    ensures { OnOk result (Appends (W.contents out.old) (W.contents out.new)
        (unwritten_lines flow unwritten)) }
{
    match unwritten {
        Unwritten::Nothing => Ok(()),
        Unwritten::Written => Ok(()),
        Unwritten::Body { id, count, end } => {
            let last = end_word(end);
            writeln!(out, "data {id} octets={count} flow={flow}{last}")
        }
        Unwritten::Reset { id, code, ours } => write_event(Event::Reset { id, code, ours }, out),
    }
}

// A space and the word for END_STREAM, if it is set.
fn end_word(end: bool) -> &'static str
    ensures { result.now ≡ end_word end }
{
    match end {
        true => " end",
        false => "",
    }
}
