//! A server over any reader and writer.

use anyhow::Result;
use h2_ends::{Code, Config, EndEvent, EndRefusal, FieldList, Message, Refusal, Server};
use h2_frame::limits::FULL_OUTPUT;
use h2_message::names_user;
use std::alloc::Global;
use std::io::{Read, Write};

/// How requests are answered.
pub trait Handler {
    /// Returns the response to a request, by the fields of its head. A response that breaks a
    /// rule resets its stream, and an error ends the connection.
    fn answer(&mut self, alloc: Global, head: &FieldList) -> Result<Message>;
}

/// Answers each request on a connection, until its input ends; a request whose authority names
/// a user gets status 400 (RFC 9113, section 8.3.1).
///
/// # Errors
///
/// The connection failed, and its GOAWAY was written; or a read, a write, an allocation or the
/// handler failed; or the server refuses a call, such as the 1,001st reset.
pub fn serve<R: Read, W: Write, H: Handler>(
    alloc: Global,
    from: &mut R,
    to: &mut W,
    handler: &mut H,
) -> Result<()> {
    let mut input = vec![in alloc; 0u8; 16_384]?;
    let mut server = Server::new(alloc, Config::default())?;
    serve_input(alloc, &mut server, &mut input, from, to, handler)
}

// calling: h2_ends loop
/// Takes what is read, a piece at a time, and sends what can go after each.
fn serve_input<R: Read, W: Write, H: Handler>(
    alloc: Global,
    server: &mut Server,
    input: &mut [u8],
    from: &mut R,
    to: &mut W,
    handler: &mut H,
) -> Result<()> {
    send(alloc, server, to)?; // SETTINGS
    for _ in 0..u64::MAX {
        let count = from.read(input)?;
        if count == 0 {
            break;
        }
        let taken = take_piece(alloc, server, &input[..count], to, handler);
        let sent = send(alloc, server, to); // GOAWAY at last, where the connection failed
        taken?;
        sent?;
    }
    Ok(())
}
// end

// calling: h2_ends
/// Takes what was read, and answers the requests whose heads are in it.
fn take_piece<W: Write, H: Handler>(
    alloc: Global,
    server: &mut Server,
    piece: &[u8],
    to: &mut W,
    handler: &mut H,
) -> Result<()> {
    let mut unused = piece;
    for _ in 0..u64::MAX {
        let taken = server.take(unused)?;
        unused = &unused[taken.used..];
        match taken.event {
            Some(EndEvent::Head { id, list, .. }) => {
                let message = message_for(alloc, list, handler)?;
                answer(alloc, server, id, message, to)?;
            }
            None if unused.is_empty() => break, // an event need not use octets
            _ => {}
        }
    }
    release(alloc, server, to)
}
// end

/// Returns the response to a request: the handler's, unless the authority names a user (section
/// 8.3.1).
fn message_for<H: Handler>(alloc: Global, head: &FieldList, handler: &mut H) -> Result<Message> {
    if names_user(head.value(b":authority").unwrap_or(b"")) {
        return Ok(Message::response(alloc, 400)?);
    }
    handler.answer(alloc, head)
}

// calling: h2_ends refusals
/// Answers a request. A response that breaks a rule resets its stream alone.
fn answer<W: Write>(
    alloc: Global,
    server: &mut Server,
    id: u32,
    message: Message,
    to: &mut W,
) -> Result<()> {
    if server.conn().waiting() >= FULL_OUTPUT {
        send(alloc, server, to)?; // a full output takes no answer
    }
    match server.respond(id, message) {
        Ok(()) => Ok(()),
        Err((_, EndRefusal::BadMessage(_) | EndRefusal::Conn(Refusal::ListTooLarge))) => {
            Ok(server.reset(id, Code::InternalError.number())?)
        }
        Err((_, refusal)) => Err(refusal.into()),
    }
}

/// Returns all credit. A full output is sent first, so that there is room for it.
fn release<W: Write>(alloc: Global, server: &mut Server, to: &mut W) -> Result<()> {
    match server.release_all() {
        Err(EndRefusal::Conn(Refusal::OutputFull)) => {
            send(alloc, server, to)?;
            Ok(server.release_all()?)
        }
        released => Ok(released?),
    }
}
// end

// calling: h2_ends pump
/// Sends what windows allow, and writes all queued output.
fn send<W: Write>(alloc: Global, server: &mut Server, to: &mut W) -> Result<()> {
    let mut output = Vec::new(alloc);
    send_into(server, &mut output, to)
}

fn send_into<W: Write>(server: &mut Server, output: &mut Vec<u8>, to: &mut W) -> Result<()> {
    for _ in 0..u64::MAX {
        let pumped = server.pump();
        let count = write_out(server, output, to)?;
        pumped?; // after a fault of the connection, once its GOAWAY is written
        if count == 0 {
            break;
        }
    }
    Ok(())
}

/// Writes all queued output, and returns its number of octets.
fn write_out<W: Write>(server: &mut Server, output: &mut Vec<u8>, to: &mut W) -> Result<usize> {
    output.clear();
    let count = server.put_out(usize::MAX, output)?;
    to.write_all(output)?;
    to.flush()?;
    Ok(count)
}
// end
