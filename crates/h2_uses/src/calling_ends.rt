//! Callers of a client's and a server's calls, with what to do at each refusal, which the
//! `CALLING.md` of `h2_ends` quotes.

// calling: h2_ends request
ghost use Rattle.std.specs.Prelude.{◌≡◌, ◌≢◌, Ok, Err};
ghost use Rattle.h2_message.specs.Values.{message_value};

use h2_ends::{Client, Code, EndRefusal, Message, Refusal, Server};

/// The result of a request.
#[derive(Drop)]
pub enum Asked {
    /// Sent, on this stream.
    Stream(u32),
    /// Make the same call later: once the output was written, and if that is not enough, once
    /// more was read.
    Later(Message),
    /// Make it on another connection: this one takes no more requests.
    Elsewhere(Message),
}

/// Makes a request, or hands it back for another try. A request that breaks a rule, or is too
/// large, is refused by every connection.
pub fn ask(client: &mut Client, message: Message) -> Result<Asked, EndRefusal>
    ensures later { (back : Message) → result ≡ Ok (Asked.Later back)
        → message_value back ≡ message_value message }
    ensures elsewhere { (back : Message) → result ≡ Ok (Asked.Elsewhere back)
        → message_value back ≡ message_value message }
{
    match client.request(message) {
        Ok(id) => Ok(Asked::Stream(id)),
        Err((message, refusal)) => match refusal {
            EndRefusal::Conn(Refusal::TooManyStreams | Refusal::OutputFull | Refusal::Memory) => {
                Ok(Asked::Later(message))
            }
            EndRefusal::Conn(Refusal::StreamsExhausted | Refusal::GoingAway | Refusal::Closed) =>
                Ok(Asked::Elsewhere(message)),
            _ => Err(refusal),
        },
    }
}
// end

// calling: h2_ends late
/// Sends a response that took long to make. Hands it back if the output is full, which must be
/// written first, or if memory was refused. Drops it if its stream is closed, since nobody
/// waits for it. Returns any other refusal, and drops the message: if it breaks a rule or is too
/// large, reset the stream.
pub fn answer_late(
    server: &mut Server,
    id: u32,
    message: Message,
) -> Result<Option<Message>, EndRefusal>
    ensures over { result ≢ Err EndRefusal.NotAsked }
    ensures full { result ≢ Err (EndRefusal.Conn Refusal.OutputFull) }
{
    match server.respond(id, message) {
        Ok(()) | Err((_, EndRefusal::NotAsked)) => Ok(None),
        Err((message, EndRefusal::Conn(Refusal::OutputFull | Refusal::Memory))) => {
            Ok(Some(message))
        }
        Err((_, refusal)) => Err(refusal),
    }
}
// end

// calling: h2_ends release
/// Releases what was used of a response's body, all but `unused` octets, so that the server may
/// send as much more. Padding of DATA, which no event shows, is released with it. Returns
/// whether that is done: if the output is full, write it and make the call again. Nothing is
/// owed on a closed stream.
pub fn release_used(client: &mut Client, id: u32, unused: u32) -> Result<bool, Refusal>
    ensures over { result ≢ Err Refusal.NoSuchStream }
    ensures full { result ≢ Err Refusal.OutputFull }
{
    let used = client.conn().owed(id).saturating_sub(unused);
    if used == 0 {
        return Ok(true);
    }
    match client.release(id, used) {
        Ok(()) | Err(Refusal::NoSuchStream) => Ok(true),
        Err(Refusal::OutputFull) => Ok(false),
        Err(refusal) => Err(refusal),
    }
}
// end

// calling: h2_ends reset
/// Gives up a request, whose response may have come by now. Returns whether the client goes on:
/// it resets 1,000 streams in all; then make the next request on another connection.
pub fn give_up(client: &mut Client, id: u32) -> Result<bool, Refusal>
    ensures over { result ≢ Err Refusal.NoSuchStream }
    ensures most { result ≢ Err Refusal.TooManyResets }
{
    match client.reset(id, Code::Cancel.number()) {
        Ok(()) | Err(Refusal::NoSuchStream) => Ok(true),
        Err(Refusal::TooManyResets) => Ok(false),
        Err(refusal) => Err(refusal),
    }
}

/// Ends a server gracefully: call it after each round of reading and writing, until it returns
/// true, then shut down the writing side, and read and drop what comes until the peer closes.
/// GOAWAY is sent once, as soon as the output has room for it.
pub fn wind_down(server: &mut Server) -> Result<bool, Refusal>
    ensures { (result ≢ Err Refusal.GoingAway) × (result ≢ Err Refusal.OutputFull)
        × (result ≢ Err Refusal.Closed) }
{
    match server.go_away() {
        Ok(()) | Err(Refusal::GoingAway | Refusal::OutputFull | Refusal::Closed) => {
            Ok(server.is_drained())
        }
        Err(refusal) => Err(refusal),
    }
}
// end

// calling: h2_ends place
ghost use Rattle.std.specs.Prelude.{IfOk, true};
ghost use Rattle.h2_spec_log.specs.Acts.{Values};
ghost use Rattle.h2_spec_log.specs.Log.{Log, waiting};
ghost use Rattle.h2_conn.specs.Conn.{ConnRepresents};

use std::io::Write;

/// Writes the output from where it lies, without a copy, and returns whether all was written.
/// What the writer did not take still waits, also after a write that failed, such as one that
/// would block: make the call again.
pub fn send_from_place<W: Write>(client: &mut Client, to: &mut W) -> anyhow::Result<bool>
    ensures { IfOk result (λ all. all ≡ true → (values : Values) (log : Log)
        → ConnRepresents values client.new.end.conn log → waiting log ≡ 0) }
{
    for _ in 0..u64::MAX {
        client.ready()?; // credit that is owed to the server joins the output
        if client.conn().waiting() == 0 {
            to.flush()?;
            return Ok(true);
        }
        let count = to.write(client.waiting_from(0))?;
        if count == 0 {
            break;
        }
        client.consume(count)?;
    }
    Ok(false)
}
// end
