//! The callers of a connection.

use super::shown::is_shown;
use h2_ends::{Config, Conn, Field, Message, Refusal};
use h2_message::{Reading, Reads};
use h2_uses::{
    Sent, accept_data, advance, cancel, change_config, discard_bodies, keep_alive, leave,
    open_stream, send_part, send_response,
};
use std::alloc::Global;
use std::test::Fail;

/// A call, by its caller.
#[derive(Clone, Copy)]
enum Call {
    /// Octets of one frame.
    Advance(&'static [u8]),
    /// Octets whose bodies are discarded.
    Discard(&'static [u8]),
    Open,
    /// A response on a stream from there on.
    Send(u32, Sent),
    /// The last part of a body on a stream.
    Part(u32),
    /// Three octets of a body on stream 1, by a reading that has taken the head or not.
    Accept(bool),
    Cancel(u32),
    Leave,
    KeepAlive,
    Change,
    /// The output is written.
    Write,
}

/// A client's calls, and what each returns.
const CLIENT: &[(Call, &str)] = &[
    (Call::Open, "Ok(Stream(1))"),
    (Call::KeepAlive, "Ok(true)"),
    (Call::KeepAlive, "Ok(false)"),
    (Call::Change, "Ok(false)"),
    (Call::Advance(b"\x00\x00\x00\x04\x00\x00\x00\x00\x00"), "9"),
    (Call::Advance(b"\x00\x00\x00\x04\x01\x00\x00\x00\x00"), "9"),
    (Call::Change, "Ok(true)"),
    (Call::Cancel(1), "Ok(true)"),
    (Call::Cancel(1), "Ok(true)"),
    (Call::Leave, "Ok(true)"),
    (Call::Leave, "Ok(true)"),
    (Call::Open, "Ok(Elsewhere)"),
    (
        Call::Advance(b"\x00\x00\x00\x00\x00\x00\x00\x00\x00"),
        "Peer(ProtocolError)",
    ),
    (Call::Open, "Ok(Elsewhere)"),
    (Call::Cancel(1), "Err(Closed)"),
    (Call::Leave, "Err(Closed)"),
];

/// The calls of a server whose client lets it send 65,535 octets; its response has 65,540.
const SERVER: &[(Call, &str)] = &[
    (
        Call::Advance(b"PRI * HTTP/2.0\r\n\r\nSM\r\n\r\n\x00\x00\x00\x04\x00\x00\x00\x00\x00"),
        "33",
    ),
    (Call::Open, "Ok(Elsewhere)"),
    (
        Call::Advance(b"\x00\x00\x03\x01\x04\x00\x00\x00\x01\x83\x86\x84"),
        "12",
    ),
    (
        Call::Discard(b"\x00\x00\x03\x00\x00\x00\x00\x00\x01abc"),
        "true",
    ),
    (Call::Accept(true), "Ok(true)"),
    (Call::Send(9, Sent::Nothing), "Ok(All)"),
    (Call::Send(1, Sent::Nothing), "Ok(Head(0))"),
    (Call::Send(1, Sent::Head(0)), "Ok(Head(65535))"),
    (Call::Send(1, Sent::Head(65535)), "Ok(Head(65535))"),
    (Call::Part(1), "Ok(None)"),
    (Call::Leave, "Ok(false)"),
    (Call::KeepAlive, "Ok(false)"),
    (Call::Write, "true"),
    (Call::Send(1, Sent::Head(65535)), "Ok(Head(65535))"),
    (Call::Send(1, Sent::All), "Ok(All)"),
    (Call::Part(1), "Ok(Some(0))"),
    (Call::Accept(false), "Ok(false)"),
    (Call::Accept(false), "Ok(false)"),
    (Call::Part(1), "Err(NoSuchStream)"),
];

/// What calls send.
#[derive(Clone, Copy)]
struct Given<'a> {
    request: &'a [Field],
    head: &'a [Field],
    body: &'a [u8],
}

/// Whether a call returns this.
fn returns(alloc: Global, conn: &mut Conn, given: Given<'_>, call: Call, wanted: &str) -> bool {
    match call {
        Call::Advance(octets) => match advance(conn, octets) {
            Ok(progress) => is_shown(alloc, &progress.used, wanted),
            Err(failure) => is_shown(alloc, &failure, wanted),
        },
        Call::Discard(octets) => is_shown(alloc, &discard_bodies(conn, octets).is_ok(), wanted),
        Call::Open => is_shown(alloc, &open_stream(conn, given.request, true), wanted),
        Call::Send(id, sent) => {
            let went = send_response(conn, id, given.head, given.body, sent);
            is_shown(alloc, &went, wanted)
        }
        Call::Part(id) => is_shown(alloc, &send_part(conn, id, b"abc", true), wanted),
        Call::Accept(is_read) => is_shown(alloc, &accepts(conn, is_read), wanted),
        Call::Cancel(id) => is_shown(alloc, &cancel(conn, id), wanted),
        Call::Leave => is_shown(alloc, &leave(conn), wanted),
        Call::KeepAlive => is_shown(alloc, &keep_alive(conn), wanted),
        Call::Change => is_shown(alloc, &change_config(conn, Config::default()), wanted),
        Call::Write => is_shown(alloc, &conn.consume(usize::MAX).is_ok(), wanted),
    }
}

/// Three octets of a body on stream 1, by a reading that has taken the head or not.
fn accepts(conn: &mut Conn, is_read: bool) -> Result<bool, Refusal> {
    let mut reading = Reading::new(Reads::Requests);
    if is_read {
        reading.fields(conn.list(), false);
    }
    accept_data(conn, &mut reading, 1, 3, false)
}

/// The place of the first call that returns something else.
fn first_wrong(
    alloc: Global,
    conn: &mut Conn,
    given: Given<'_>,
    calls: &[(Call, &str)],
) -> Option<usize> {
    for (place, (call, wanted)) in calls.iter().enumerate() {
        if !returns(alloc, conn, given, *call, wanted) {
            return Some(place);
        }
    }
    None
}

/// Whether the calls of a new client, and those of a new server, return what they must.
fn all_hold(alloc: Global, client: &mut Conn, server: &mut Conn, given: Given<'_>) -> bool {
    first_wrong(alloc, client, given, CLIENT).is_none()
        && first_wrong(alloc, server, given, SERVER).is_none()
}

/// The same with what they send.
fn calls_hold(alloc: Global, client: &mut Conn, server: &mut Conn) -> anyhow::Result<bool> {
    let request = Message::get(alloc, b"localhost", b"/")?;
    let response = Message::response(alloc, 200)?.body(&[b'x'; 65_540])?;
    let given = Given {
        request: &request.head,
        head: &response.head,
        body: &response.body,
    };
    Ok(all_hold(alloc, client, server, given))
}

/// The same with the connections.
fn connections_hold(alloc: Global) -> anyhow::Result<bool> {
    let mut client = Conn::client(alloc, Config::default())?;
    let mut server = Conn::server(alloc, Config::default())?;
    calls_hold(alloc, &mut client, &mut server)
}

#[test]
fn calls_of_a_connection(rt: HostRuntime) -> Result<(), Fail> {
    assert!(rt; matches!(connections_hold(rt.alloc()), Ok(true)));
    Ok(())
}
