//! A connection that is driven by hand, which the `CALLING.md` of `h2_conn` quotes.

// calling: h2_conn
ghost use Rattle.std.specs.Prelude.{◌≡◌, ◌≢◌, ◌≤◌, Err, IfOk, IfSome, length};

use h2_conn::{Conn, Event, Refusal};

/// Sends the next part of a body, and returns how many octets were sent: 0 if a window is
/// closed, `None` if the output is full. Then write it, and make the call again.
pub fn send_part(
    conn: &mut Conn,
    id: u32,
    part: &[u8],
    is_last: bool,
) -> Result<Option<usize>, Refusal>
    ensures within { IfOk result (λ sent. IfSome sent (λ count. count ≤ length part.now)) }
    ensures full { result ≢ Err Refusal.OutputFull }
{
    match conn.data(id, part, is_last) {
        Ok(count) => Ok(Some(count)),
        Err(Refusal::OutputFull) => Ok(None),
        Err(refusal) => Err(refusal),
    }
}
// end

// calling: h2_conn refusals
use anyhow::Result as Answer;

/// Takes a piece that was read, and releases the octets of all bodies in it, with what was owed
/// on their streams before. If the output is full they stay owed: write it, and then release
/// [`Conn::owed`] of each stream that [`Conn::next_live`] returns. The credit of a closed
/// stream returns by itself.
pub fn discard_bodies(conn: &mut Conn, piece: &[u8]) -> Answer<()> {
    let mut unused = piece;
    for _ in 0..u64::MAX {
        let taken = conn.take(unused)?;
        unused = &unused[taken.used..];
        match taken.event {
            Some(Event::Data { id, .. }) => release_owed(conn, id)?,
            None if unused.is_empty() => break, // an event need not use octets
            _ => {}
        }
    }
    Ok(())
}

/// Releases all that is owed on a stream, unless the output is full.
fn release_owed(conn: &mut Conn, id: u32) -> Answer<()> {
    let owed = conn.owed(id);
    if owed == 0 {
        return Ok(());
    }
    match conn.release(id, owed) {
        Ok(()) | Err(Refusal::OutputFull) => Ok(()),
        Err(refusal) => Err(refusal.into()),
    }
}
// end

// calling: h2_conn next
/// What a program does after a call was refused.
#[derive(Clone, Copy, Debug, PartialEq, Eq)]
pub enum Next {
    /// Do nothing more on this stream: it is closed, or this end has ended it.
    LeaveStream,
    /// Write the output, and make the call again.
    Write,
    /// Make the call again after more was read: an `Acked`, a `Pong`, the end of a stream, or
    /// SETTINGS of the peer, which are not reported.
    ReadMore,
    /// Open another connection for it.
    Connect,
    /// Make the call again later, or give the connection up: out of memory.
    Retry,
    /// Send GOAWAY, let the streams under way end, and then close the connection.
    GoAway,
    /// Write the output, and close the connection.
    Close,
    /// Fix the program: it has made a call that it must not make.
    Mend,
}

/// Returns what to do after a refusal, whatever call was refused.
pub fn after_refusal(refusal: Refusal) -> Next {
    match refusal {
        Refusal::NoSuchStream | Refusal::Ended => Next::LeaveStream,
        Refusal::OutputFull => Next::Write,
        Refusal::TooManyStreams | Refusal::PingWaits | Refusal::SettingsWait => Next::ReadMore,
        Refusal::StreamsExhausted | Refusal::GoingAway => Next::Connect,
        Refusal::Memory => Next::Retry,
        Refusal::TooManyResets => Next::GoAway,
        Refusal::Closed => Next::Close,
        Refusal::ListTooLarge | Refusal::NotOwed | Refusal::WindowTooLarge => Next::Mend,
    }
}
// end
