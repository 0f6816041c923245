//! Serves a connection over a link.

ghost use Rattle.std.specs.Prelude.{◌≡◌, ◌<◌, ◌-◌, ◌^◌, [], IfErr, Ok, OnOk, length, not, true};
ghost use Rattle.std.specs.Io.KnownBytes.{Appends};
ghost use Rattle.h2_flow.specs.ConfigValues.{values_of};
ghost use Rattle.h2_engines.specs.Failures.{CutsOffAtEnd, EndsServing, EndsWriting};
ghost use Rattle.h2_engines.specs.Failures.{failures_at_end};
ghost use Rattle.h2_engines.specs.Linked.{traffic};
ghost use Rattle.h2_link.specs.Links.{Gives, failures_after};
ghost use Rattle.h2_serve.specs.Endings.{CountsServed, IsCutOffSo, IsOfDriving, IsUnfinishedSo};
ghost use Rattle.h2_serve.specs.Serving.{DrivesServing, SendsServing, ServesBy, TakesServing};
ghost use Rattle.h2_serve.specs.Serving.{TurnsServing, WritesServing};
ghost use Rattle.h2_server.specs.Phases.{is_phase_down};

use crate::ending::{end_early, error_of};
use h2_engines::write_waiting;
use h2_host::MOST_TAKEN;
use h2_link::{Link, LinkError, LinkFault};
use h2_server::{Config, Conn, Connection, ConnectionLimits, Handler};
use std::alloc::Global;

/// The maximum number of octets asked of a handler at a time.
const PART: usize = 16_384;

// contract: engines (own) A handler answers over any link
// contract: engines (own) Where serving ends well each request was answered whole or reset
// rule: engines (own) A handler answers over any link
// rule: engines (own) Where serving ends well each request was answered whole or reset
/// Serves a connection until its input ends, and returns the number of requests received.
/// [`Handler`] says what each of its calls is given, and `Connection::advance` of `h2_server` in
/// which order responses are sent. There is no limit of time, and no flood budget. When this
/// returns, [`Handler::over`] has been called for each `work` that [`Handler::head`] returned.
///
/// Before each read, all that can be sent is written; so a client's reset or next request is read
/// only once nothing more can be sent: nothing is left, a window keeps the rest back, or the
/// handler has no part now. Of what was read, at most 16 parts of requests are passed to the
/// handler in a turn; between turns, what can be sent is written. A handler that returned
/// [`h2_server::Part::Later`] is asked again after each read, and at no other time; to wait for
/// anything else it must block in `part`.
///
/// The link may still hold output. Once this returns, flush a link over a byte stream
/// (`StreamLink` of `h2_net`); after an error, call `StreamLink::drain` next, so that the client
/// gets the GOAWAY.
///
/// # Errors
///
/// - [`LinkError::Device`] (N1): a read or a write of the link failed.
/// - [`LinkError::Stream`] (N2): the connection failed, and its GOAWAY was written. The code is
///   ENHANCE_YOUR_CALM if a stream had to be reset after 1,000 others had been.
/// - [`LinkError::Memory`] (N3): an allocation of the server was refused. What could be queued,
///   and then GOAWAY with ENHANCE_YOUR_CALM, was written; if that write failed, the error is N1 or
///   N5. (If an allocation of the handler is refused, serving goes on, and its request gets what
///   `HandlerFault` says.)
/// - [`LinkError::CutOff`] (N4): the input ended inside the preface, a frame or a field block
///   (section 4.3), or while a stream was active.
/// - [`LinkError::NoProgress`] (N5): a write accepted no octet, or 2^64 - 1 rounds were made.
pub fn serve_handler<H: Handler, L: Link>(
    alloc: Global,
    link: &mut L,
    config: Config,
    handler: H,
) -> Result<u64, LinkError>
    requires { L.faults link.old < 2 ^ 64 - 1 }
    ensures serves { ServesBy H.Handler
        (values_of config) handler
        (traffic (L.given link.old) (L.taken link.old) (L.stalled link.old))
        (traffic (L.given link.new) (L.taken link.new) (L.stalled link.new)) result }
    ensures ended { OnOk result (L.ended link.new ≡ true) }
    ensures cut_off { CutsOffAtEnd result (L.ended link.new) }
    ensures failures { L.faults link.new ≡ failures_at_end (L.faults link.old) result }
    ensures err { IfErr result EndsServing }
{
    let limits = ConnectionLimits::unlimited();
    let Ok(mut connection) = Connection::new(alloc, config, limits, 0, handler) else {
        return Err(LinkError::Memory);
    };
    let mut input = vec![in alloc; 0u8; MOST_TAKEN]?;
    let mut room = vec![in alloc; 0u8; PART]?;
    let driven = drive(&mut connection, &mut input, &mut room, link);
    let served = count_of(&connection);
    connection.lose();
    driven?;
    served
}

/// The number of requests of a connection whose input has ended, or why it may not have.
fn count_of<H: Handler>(connection: &Connection<H>) -> Result<u64, LinkError>
    ensures { CountsServed connection.now result }
{
    if connection.conn().failed().is_some() {
        return Err(error_of(connection));
    }
    if is_cut_off(connection.conn()) {
        return Err(LinkError::CutOff);
    }
    Ok(connection.requests())
}

/// Whether a connection is inside the preface, a frame or a field block, or a stream is active.
fn is_cut_off(conn: &Conn) -> bool
    ensures { IsCutOffSo conn.now result }
{
    is_unfinished(conn) || conn.block_stream().is_some()
}

/// Whether a connection is inside the preface or a frame, or a stream is active.
fn is_unfinished(conn: &Conn) -> bool
    ensures { IsUnfinishedSo conn.now result }
{
    conn.held() > 0 || conn.next_live(0).is_some()
}

// rule: engines (own) A handler answers over any link
/// Serves until the input ends.
fn drive<H: Handler, L: Link>(
    connection: &mut Connection<H>,
    input: &mut [u8],
    room: &mut [u8],
    link: &mut L,
) -> Result<(), LinkError>
    requires fails { L.faults link.old < 2 ^ 64 - 1 }
    requires some { 0 < length input.old }
    ensures drives { DrivesServing H.Handler
        (traffic (L.given link.old) (L.taken link.old) (L.stalled link.old))
        (traffic (L.given link.new) (L.taken link.new) (L.stalled link.new))
        connection.old connection.new result }
    ensures ended { OnOk result (L.ended link.new ≡ true) }
    ensures failures { L.faults link.new ≡ failures_at_end (L.faults link.old) result }
    ensures err { IfErr result IsOfDriving }
{
    for _ in 0..u64::MAX {
        send_all(connection, room, link)?;
        let count = read_some(connection, input, link)?;
        if count == 0 {
            return Ok(());
        }
        take_in(connection, &input[..count]);
    }
    Err(LinkError::NoProgress)
}

/// Reads at most as many octets as the connection says ([`Connection::read_size`]), and returns how
/// many were read: 0 once the input has ended.
fn read_some<H: Handler, L: Link>(
    connection: &Connection<H>,
    input: &mut [u8],
    link: &mut L,
) -> Result<usize, LinkFault>
    requires fails { L.faults link.old < 2 ^ 64 - 1 }
    requires some { 0 < length input.old }
    ensures length { length input.new ≡ length input.old }
    ensures gives { Gives (L.given link.old) (L.given link.new) result input.new }
    ensures takes_none { Appends (L.taken link.old) (L.taken link.new) [] }
    ensures ended { result ≡ Ok 0 → L.ended link.new ≡ true }
    ensures stalled { L.stalled link.new ≡ L.stalled link.old }
    ensures failures { L.faults link.new ≡ failures_after (L.faults link.old) result }
{
    // Of one that takes input the size is not 0; a read into no room would look like the end.
    let size = input.len().min(connection.read_size().max(1));
    link.read(&mut input[..size])
}

/// Hands octets that were read to a connection. One that is down then drops them.
fn take_in<H: Handler>(connection: &mut Connection<H>, octets: &[u8])
    ensures { TakesServing H.Handler octets.now connection.old connection.new }
{
    // A link never says that there is more to read now, so a read may wait: credit goes first.
    connection.set_ready(false, true);
    if !connection.is_down() {
        connection.receive(octets);
    }
}

// rule: engines (own) A handler answers over any link
/// Gives a connection its turns, and writes its output, until it has nothing more to do.
fn send_all<H: Handler, L: Link>(
    connection: &mut Connection<H>,
    room: &mut [u8],
    link: &mut L,
) -> Result<(), LinkError>
    requires { L.faults link.old < 2 ^ 64 - 1 }
    ensures sends { SendsServing H.Handler
        (traffic (L.given link.old) (L.taken link.old) (L.stalled link.old))
        (traffic (L.given link.new) (L.taken link.new) (L.stalled link.new))
        connection.old connection.new result }
    ensures room { length room.new ≡ length room.old }
    ensures failures { L.faults link.new ≡ failures_at_end (L.faults link.old) result }
    ensures err { IfErr result IsOfDriving }
{
    for _ in 0..u64::MAX {
        if !take_turn(connection, room) {
            return Err(end_early(connection, link));
        }
        if !connection.wants_write() && !connection.wants_turn() {
            return Ok(());
        }
        write_out(connection, link)?;
    }
    Err(LinkError::NoProgress)
}

/// Gives a connection its turn, unless it is down. Returns whether it is up then.
fn take_turn<H: Handler>(connection: &mut Connection<H>, room: &mut [u8]) -> bool
    ensures up { result ≡ not (is_phase_down connection.new.phase) }
    ensures turns { TurnsServing H.Handler connection.old connection.new result }
    ensures room { length room.new ≡ length room.old }
{
    if connection.is_down() {
        return false;
    }
    connection.advance(room);
    !connection.is_down()
}

// rule: engines (own) Over a link input is used in order and all output is written
/// Writes all queued output from where it lies. If the write fails, what was not written is lost.
pub(crate) fn write_out<H: Handler, L: Link>(
    connection: &mut Connection<H>,
    link: &mut L,
) -> Result<(), LinkError>
    requires { L.faults link.old < 2 ^ 64 - 1 }
    ensures writes { WritesServing H.Handler
        (traffic (L.given link.old) (L.taken link.old) (L.stalled link.old))
        (traffic (L.given link.new) (L.taken link.new) (L.stalled link.new))
        connection.old connection.new result }
    ensures failures { L.faults link.new ≡ failures_at_end (L.faults link.old) result }
    ensures err { IfErr result EndsWriting }
{
    let written = write_waiting(link, connection.conn());
    connection.written(usize::MAX);
    written
}
