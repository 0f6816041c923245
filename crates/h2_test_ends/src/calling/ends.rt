//! The callers of a client and of a server.

use super::shown::is_shown;
use anyhow::Result;
use h2_ends::{Client, Config, Message, Server};
use h2_uses::{Asked, answer_late, ask, give_up, release_used, send_from_place, wind_down};
use std::alloc::{AllocError, Global};
use std::test::Fail;

/// A call of a client, by its caller.
#[derive(Clone, Copy)]
enum Call {
    /// Octets of one frame.
    Take(&'static [u8]),
    Ask,
    GiveUp(u32),
    /// All that is owed on a stream but so many octets.
    Release(u32, u32),
    /// The output is written, to a writer that takes all of it.
    Write,
}

/// Calls of a client, and what each returns: the requests are on streams 1 and 3, the response is
/// on 3. What is written are the preface and SETTINGS of 57 octets, two HEADERS of 20 and 13, the
/// second of indexed fields alone, and RST_STREAM of 13.
const CLIENT: &[(Call, &str)] = &[
    (Call::Ask, "stream"),
    (Call::GiveUp(1), "Ok(true)"),
    (Call::GiveUp(1), "Ok(true)"),
    (Call::Release(1, 5), "Ok(true)"),
    (Call::Ask, "stream"),
    (Call::Write, "103"),
    (Call::Write, "0"),
    (Call::Take(b"\x00\x00\x00\x04\x00\x00\x00\x00\x00"), "9"),
    (
        Call::Take(b"\x00\x00\x01\x01\x04\x00\x00\x00\x03\x88"),
        "10",
    ),
    (
        Call::Take(b"\x00\x00\x06\x00\x00\x00\x00\x00\x03hello\n"),
        "15",
    ),
    (Call::Release(3, 2), "Ok(true)"),
    (Call::Release(3, 2), "Ok(true)"),
    (
        Call::Take(b"\x00\x00\x08\x07\x00\x00\x00\x00\x00\x00\x00\x00\x03\x00\x00\x00\x00"),
        "17",
    ),
    (Call::Ask, "elsewhere"),
    (
        Call::Take(b"\x00\x00\x00\x00\x00\x00\x00\x00\x00"),
        "ProtocolError",
    ),
    (Call::Ask, "elsewhere"),
    (Call::GiveUp(3), "Err(Closed)"),
];

/// What comes of a request, in a word.
fn word_of(alloc: Global, client: &mut Client) -> &'static str {
    let Ok(request) = Message::get(alloc, b"localhost", b"/") else {
        return "memory";
    };
    match ask(client, request) {
        Ok(Asked::Stream(_)) => "stream",
        Ok(Asked::Later(_)) => "later",
        Ok(Asked::Elsewhere(_)) => "elsewhere",
        Err(_) => "refused",
    }
}

/// The number of octets that are written.
fn written(alloc: Global, client: &mut Client) -> usize {
    let mut output = Vec::new(alloc);
    match send_from_place(client, &mut output) {
        Ok(true) => output.len(),
        _ => usize::MAX,
    }
}

/// Whether a call of a client returns this.
fn client_returns(alloc: Global, client: &mut Client, call: Call, wanted: &str) -> bool {
    match call {
        Call::Take(octets) => match client.take(octets) {
            Ok(taken) => is_shown(alloc, &taken.used, wanted),
            Err(fault) => is_shown(alloc, &fault.code, wanted),
        },
        Call::Ask => word_of(alloc, client) == wanted,
        Call::GiveUp(id) => is_shown(alloc, &give_up(client, id), wanted),
        Call::Release(id, count) => is_shown(alloc, &release_used(client, id, count), wanted),
        Call::Write => is_shown(alloc, &written(alloc, client), wanted),
    }
}

/// Whether all calls of a client return what they must.
fn client_holds(alloc: Global, client: &mut Client) -> bool {
    for (call, wanted) in CLIENT {
        if !client_returns(alloc, client, *call, wanted) {
            return false;
        }
    }
    true
}

/// A call of a server, by its caller.
#[derive(Clone, Copy)]
enum Turn {
    /// Octets of one frame.
    Take(&'static [u8]),
    /// A response of 65,540 octets on a stream.
    Late(u32),
    Pump,
    WindDown,
    /// The output is written.
    Write,
}

/// Calls of a server whose client lets it send 65,535 octets, and what each returns.
const SERVER: &[(Turn, &str)] = &[
    (
        Turn::Take(b"PRI * HTTP/2.0\r\n\r\nSM\r\n\r\n\x00\x00\x00\x04\x00\x00\x00\x00\x00"),
        "33",
    ),
    (Turn::Late(1), "done"),
    (
        Turn::Take(b"\x00\x00\x03\x01\x05\x00\x00\x00\x01\x82\x86\x84"),
        "12",
    ),
    (Turn::Late(1), "done"),
    (Turn::Late(1), "refused"),
    (Turn::Pump, "Ok(65535)"),
    (
        Turn::Take(b"\x00\x00\x03\x01\x05\x00\x00\x00\x03\x82\x86\x84"),
        "12",
    ),
    (Turn::Late(3), "back"),
    (Turn::WindDown, "Ok(false)"),
    (Turn::Write, "true"),
    (Turn::Late(3), "done"),
    (Turn::WindDown, "Ok(false)"),
    (Turn::WindDown, "Ok(false)"),
    (
        Turn::Take(b"\x00\x00\x04\x03\x00\x00\x00\x00\x01\x00\x00\x00\x08"),
        "13",
    ),
    (
        Turn::Take(b"\x00\x00\x04\x03\x00\x00\x00\x00\x03\x00\x00\x00\x08"),
        "13",
    ),
    (Turn::Write, "true"),
    (Turn::WindDown, "Ok(true)"),
];

/// An answer with a body that fills the output.
fn long_answer(alloc: Global) -> Result<Message, AllocError> {
    Message::response(alloc, 200)?.body(&[b'x'; 65_540])
}

/// What comes of a late answer, in a word.
fn word_of_late(alloc: Global, server: &mut Server, id: u32) -> &'static str {
    let Ok(message) = long_answer(alloc) else {
        return "memory";
    };
    match answer_late(server, id, message) {
        Ok(None) => "done",
        Ok(Some(_)) => "back",
        Err(_) => "refused",
    }
}

/// Whether a call of a server returns this.
fn server_returns(alloc: Global, server: &mut Server, turn: Turn, wanted: &str) -> bool {
    match turn {
        Turn::Take(octets) => match server.take(octets) {
            Ok(taken) => is_shown(alloc, &taken.used, wanted),
            Err(fault) => is_shown(alloc, &fault.code, wanted),
        },
        Turn::Late(id) => word_of_late(alloc, server, id) == wanted,
        Turn::Pump => is_shown(alloc, &server.pump(), wanted),
        Turn::WindDown => is_shown(alloc, &wind_down(server), wanted),
        Turn::Write => is_shown(alloc, &server.consume(usize::MAX).is_ok(), wanted),
    }
}

/// Whether all calls of a server return what they must.
fn server_holds(alloc: Global, server: &mut Server) -> bool {
    for (turn, wanted) in SERVER {
        if !server_returns(alloc, server, *turn, wanted) {
            return false;
        }
    }
    true
}

/// Whether they do of a new client and of a new server.
fn ends_hold(alloc: Global) -> Result<bool> {
    let mut client = Client::new(alloc, Config::default())?;
    let mut server = Server::new(alloc, Config::default())?;
    Ok(client_holds(alloc, &mut client) && server_holds(alloc, &mut server))
}

#[test]
fn calls_of_ends(rt: HostRuntime) -> Result<(), Fail> {
    assert!(rt; matches!(ends_hold(rt.alloc()), Ok(true)));
    Ok(())
}
