//! Callers of a connection's calls, with what to do at each refusal, which the `CALLING.md` of
//! `h2_conn` quotes.

// calling: h2_conn open
ghost use Rattle.std.specs.Prelude.{◌≡◌, ◌≢◌, ℕ, true, false, Ok, Err};
ghost use Rattle.h2_spec_log.specs.Acts.{Open, Number};
ghost use Rattle.h2_conn.specs.Conn.{ConnAnswers};

use h2_conn::{Code, Conn, Refusal};
use hpack::Field;

/// The result of opening a stream.
#[derive(Clone, Copy, Debug, PartialEq, Eq)]
pub enum Opened {
    /// Opened, with this number.
    Stream(u32),
    /// Make the same call later: once the output was written, and if that is not enough, once
    /// more was read.
    Later,
    /// Open it on another connection: this one takes no more streams.
    Elsewhere,
}

/// Opens a stream with the head of a request. Fields that are too large are refused by every
/// connection. After [`Refusal::Memory`] try again or give up.
pub fn open_stream(conn: &mut Conn, head: &[Field], end: bool) -> Result<Opened, Refusal>
    ensures opened { (id : ℕ) → result ≡ Ok (Opened.Stream id)
        → ConnAnswers conn.old (Open head.now end) (Number id) conn.new }
    ensures later { (result ≢ Err Refusal.TooManyStreams) × (result ≢ Err Refusal.OutputFull) }
    ensures elsewhere { (result ≢ Err Refusal.StreamsExhausted)
        × (result ≢ Err Refusal.GoingAway) × (result ≢ Err Refusal.Closed) }
{
    match conn.open(head, end) {
        Ok(id) => Ok(Opened::Stream(id)),
        Err(Refusal::TooManyStreams | Refusal::OutputFull) => Ok(Opened::Later),
        Err(Refusal::StreamsExhausted | Refusal::GoingAway | Refusal::Closed) => {
            Ok(Opened::Elsewhere)
        }
        Err(refusal) => Err(refusal),
    }
}
// end

// calling: h2_conn fields
/// How far a response was sent.
#[derive(Clone, Copy, Debug, PartialEq, Eq)]
pub enum Sent {
    /// None of it.
    Nothing,
    /// Its head, and this many octets of its body.
    Head(usize),
    /// All of it; or its stream is closed, and nobody waits for the rest.
    All,
}

/// Sends more of a response, from where it was left, and returns how far it went. Until that is
/// [`Sent::All`] make the call again with it: at once if it went further, else once the output
/// was written, and if it goes no further then either, once more was read.
pub fn send_response(
    conn: &mut Conn,
    id: u32,
    head: &[Field],
    body: &[u8],
    sent: Sent,
) -> Result<Sent, Refusal>
    ensures full { result ≢ Err Refusal.OutputFull }
    ensures over { result ≢ Err Refusal.NoSuchStream }
{
    let went = match sent {
        Sent::Nothing => send_head(conn, id, head, body.is_empty()),
        Sent::Head(count) => send_rest(conn, id, body, count),
        Sent::All => Ok(Sent::All),
    };
    match went {
        Err(Refusal::OutputFull) => Ok(sent),
        Err(Refusal::NoSuchStream) => Ok(Sent::All),
        _ => went,
    }
}

/// Sends the head of a response.
fn send_head(conn: &mut Conn, id: u32, head: &[Field], is_all: bool) -> Result<Sent, Refusal> {
    match conn.fields(id, head, is_all) {
        Ok(()) if is_all => Ok(Sent::All),
        Ok(()) => Ok(Sent::Head(0)),
        Err(refusal) => Err(refusal),
    }
}

/// Sends what windows allow of a body of which `sent` octets were sent.
fn send_rest(conn: &mut Conn, id: u32, body: &[u8], sent: usize) -> Result<Sent, Refusal> {
    let start = sent.min(body.len());
    match conn.data(id, &body[start..], true) {
        Ok(count) if start + count == body.len() => Ok(Sent::All),
        Ok(count) => Ok(Sent::Head(start + count)),
        Err(refusal) => Err(refusal),
    }
}
// end

// calling: h2_conn refuse
use h2_message::Reading;

/// Checks octets of a body that were reported, and returns whether they may be used. If they
/// may not come here, the message is malformed, and its stream is reset (RFC 9113, section
/// 8.1.1) unless it is closed.
pub fn accept_data(
    conn: &mut Conn,
    reading: &mut Reading,
    id: u32,
    count: usize,
    end: bool,
) -> Result<bool, Refusal>
    ensures kept { result ≡ Ok true → conn.new ≡ conn.old }
    ensures over { result ≢ Err Refusal.NoSuchStream }
{
    if reading.data(count, end) {
        return Ok(true);
    }
    match conn.refuse(id, Code::ProtocolError.number()) {
        Ok(()) | Err(Refusal::NoSuchStream) => Ok(false),
        Err(refusal) => Err(refusal),
    }
}
// end

// calling: h2_conn reset
ghost use Rattle.h2_spec_log.specs.Acts.{ResetStream, SendGoAway, Refused};

/// Gives up a stream, which may be closed by now. Returns whether the connection goes on: an
/// end resets 1,000 streams in all; then call [`leave`] and open another connection.
pub fn cancel(conn: &mut Conn, id: u32) -> Result<bool, Refusal>
    ensures over { (result ≢ Err Refusal.NoSuchStream) × (result ≢ Err Refusal.TooManyResets) }
    ensures most { result ≡ Ok false
        → ConnAnswers conn.old (ResetStream id 8) (Refused Refusal.TooManyResets) conn.new }
{
    match conn.reset(id, Code::Cancel.number()) {
        Ok(()) | Err(Refusal::NoSuchStream) => Ok(true),
        Err(Refusal::TooManyResets) => Ok(false),
        Err(refusal) => Err(refusal),
    }
}

/// Announces that this end takes no further streams, and returns whether that was sent, now or
/// before. If the output is full, write it and make the call again.
pub fn leave(conn: &mut Conn) -> Result<bool, Refusal>
    ensures before { (result ≢ Err Refusal.GoingAway) × (result ≢ Err Refusal.OutputFull) }
    ensures full { result ≡ Ok false
        → ConnAnswers conn.old SendGoAway (Refused Refusal.OutputFull) conn.new }
{
    match conn.go_away() {
        Ok(()) | Err(Refusal::GoingAway) => Ok(true),
        Err(Refusal::OutputFull) => Ok(false),
        Err(refusal) => Err(refusal),
    }
}
// end

// calling: h2_conn ping
ghost use Rattle.h2_spec_log.specs.Acts.{SendPing, Done};

/// Asks the peer whether it is there, for now and then on an idle connection. Returns whether
/// it was there the last time. If not, it has not answered, or not even taken the output: give
/// the connection up.
pub fn keep_alive(conn: &mut Conn) -> Result<bool, Refusal>
    ensures asks { result ≡ Ok true → ConnAnswers conn.old (SendPing PING) Done conn.new }
    ensures absent { (result ≢ Err Refusal.PingWaits) × (result ≢ Err Refusal.OutputFull) }
{
    match conn.ping(PING) {
        Ok(()) => Ok(true),
        Err(Refusal::PingWaits | Refusal::OutputFull) => Ok(false),
        Err(refusal) => Err(refusal),
    }
}

/// The octets of a PING.
const PING: [u8; 8] = *b"are you?";
// end

// calling: h2_conn widen
ghost use Rattle.std.specs.Prelude.{IfErr};
ghost use Rattle.h2_spec_log.specs.Acts.{Widen, Done, Refused};

/// Lets the peer send `more` octets more on the connection, for good. Returns whether that is
/// done: if the output is full, write it and make the call again.
pub fn widen(conn: &mut Conn, more: u32) -> Result<bool, Refusal>
    ensures done { result ≡ Ok true → ConnAnswers conn.old (Widen more) Done conn.new }
    ensures full { result ≡ Ok false → ConnAnswers conn.old (Widen more)
        (Refused Refusal.OutputFull) conn.new }
    ensures refused { IfErr result (λ refusal. (refusal ≢ Refusal.OutputFull)
        × ConnAnswers conn.old (Widen more) (Refused refusal) conn.new) }
{
    match conn.widen(more) {
        Ok(()) => Ok(true),
        Err(Refusal::OutputFull) => Ok(false),
        Err(refusal) => Err(refusal),
    }
}
// end

// calling: h2_conn settings
ghost use Rattle.h2_spec_log.specs.Acts.{ChangeSettings};
ghost use Rattle.h2_flow.specs.ConfigValues.{values_of};

use h2_conn::{BadConfig, Config};

/// Returns the settings of a server, as its operator has chosen them, or what is wrong with the
/// choice.
pub fn chosen_config(window: u32, max_streams: u32) -> Result<Config, &'static str> {
    match Config::new(4_096, window, max_streams) {
        Ok(config) => Ok(config),
        Err(BadConfig::InitialWindow) => Err("a window has 1 to 2,147,483,647 octets"),
        Err(_) => Err("a server takes 100 to 1,000 streams at a time"),
    }
}

/// Changes the settings, and returns whether that was done. If not, make the call again: after
/// an [`Event::Acked`](h2_conn::Event), since the peer has not applied the last ones yet, or
/// after the output, which was full, was written.
pub fn change_config(conn: &mut Conn, config: Config) -> Result<bool, Refusal>
    ensures done { result ≡ Ok true
        → ConnAnswers conn.old (ChangeSettings (values_of config)) Done conn.new }
    ensures later { (result ≢ Err Refusal.SettingsWait) × (result ≢ Err Refusal.OutputFull) }
{
    match conn.change_settings(config) {
        Ok(()) => Ok(true),
        Err(Refusal::SettingsWait | Refusal::OutputFull) => Ok(false),
        Err(refusal) => Err(refusal),
    }
}
// end

// calling: h2_conn advance
ghost use Rattle.std.specs.Prelude.{◌≤◌, IfOk, length};

use h2_conn::{ConnFault, Progress};

/// Why a connection has failed. In both cases GOAWAY is the last of its output: write that
/// before the transport is closed.
#[derive(Clone, Copy, Debug, PartialEq, Eq)]
pub enum Failure {
    /// This end is out of memory.
    Memory,
    /// The peer has broken a rule, with this code.
    Peer(Code),
}

/// Takes octets, up to the end of one frame, and returns whose fault a failure is.
pub fn advance(conn: &mut Conn, piece: &[u8]) -> Result<Progress, Failure>
    ensures used { IfOk result (λ progress. progress.used ≤ length piece.now) }
    ensures ours { result ≢ Err (Failure.Peer Code.InternalError) }
{
    match conn.advance(piece) {
        Ok(progress) => Ok(progress),
        Err(
            ConnFault {
                code: Code::InternalError,
            },
        ) => Err(Failure::Memory),
        Err(ConnFault { code }) => Err(Failure::Peer(code)),
    }
}
// end
