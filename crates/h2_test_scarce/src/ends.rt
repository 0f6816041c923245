//! A connection, a client and a server, by lists of calls.

use crate::call::Call;
use crate::end::Kind;
use crate::lists::{answer, get, request};
use crate::walk::bears;
use h2_ends::Message;
use std::alloc::{AllocError, Global};

/// What a client sends first: the preface, and SETTINGS of one pair, the first windows of 65,535.
const FIRST: &[u8] = b"PRI * HTTP/2.0\r\n\r\nSM\r\n\r\n\x00\x00\x06";

const SECOND: &[u8] = b"\x04\x00\x00\x00\x00\x00\x00\x04\x00\x00\xff\xff";

const OPENING: &[u8] = b"PRI * HTTP/2.0\r\n\r\nSM\r\n\r\n\x00\x00\x00\x04\x00\x00\x00\x00\x00";

/// What a server sends first: SETTINGS, and the acknowledgment of the client's.
const ANSWERED: &[u8] = b"\x00\x00\x00\x04\x00\x00\x00\x00\x00\x00\x00\x00\x04\x01\x00\x00\x00\x00";

/// The same with SETTINGS of one pair, the first windows of 1,000.
const SMALL_OPENING: &[u8] = b"PRI * HTTP/2.0\r\n\r\nSM\r\n\r\n\
    \x00\x00\x06\x04\x00\x00\x00\x00\x00\x00\x04\x00\x00\x03\xe8";

const SMALL_ANSWERED: &[u8] = b"\x00\x00\x06\x04\x00\x00\x00\x00\x00\x00\x04\x00\x00\x03\xe8\
    \x00\x00\x00\x04\x01\x00\x00\x00\x00";

/// The acknowledgment of SETTINGS.
const ACK: &[u8] = b"\x00\x00\x00\x04\x01\x00\x00\x00\x00";

/// PING, and the acknowledgment of the end's own.
const PING: &[u8] = b"\x00\x00\x08\x06\x00\x00\x00\x00\x00abcdefgh";

const PONG: &[u8] = b"\x00\x00\x08\x06\x01\x00\x00\x00\x0012345678";

/// GET on stream 1 (RFC 7541, appendix C.4.1), and in two frames on stream 5.
const GET_1: &[u8] = b"\x00\x00\x11\x01\x05\x00\x00\x00\x01\
    \x82\x86\x84\x41\x8c\xf1\xe3\xc2\xe5\xf2\x3a\x6b\xa0\xab\x90\xf4\xff";

const GET_5: &[u8] = b"\x00\x00\x02\x01\x01\x00\x00\x00\x05\x82\x86\
    \x00\x00\x02\x09\x04\x00\x00\x00\x05\x84\xbe";

/// A request on stream 3 that has the field `connection: close`, which makes it malformed.
const CLOSE_3: &[u8] = b"\x00\x00\x16\x01\x05\x00\x00\x00\x03\
    \x82\x86\x84\xbe\x00\x0aconnection\x05close";

/// POST on streams 3, 5 and 7, whose body follows.
const POST_3: &[u8] = b"\x00\x00\x04\x01\x04\x00\x00\x00\x03\x83\x86\x84\xbe";

const POST_5: &[u8] = b"\x00\x00\x04\x01\x04\x00\x00\x00\x05\x83\x86\x84\xbe";

const POST_7: &[u8] = b"\x00\x00\x04\x01\x04\x00\x00\x00\x07\x83\x86\x84\xbe";

/// POST on stream 9 whose content-length is 5, and a body of four octets, which makes it malformed.
const LENGTH_9: &[u8] = b"\x00\x00\x07\x01\x04\x00\x00\x00\x09\x83\x86\x84\x0f\x0d\x015";

const DATA_9_END: &[u8] = b"\x00\x00\x04\x00\x01\x00\x00\x00\x09abcd";

/// Ten octets of a body, the last of them cut off, and the last of stream 5.
const DATA_3: &[u8] = b"\x00\x00\x0a\x00\x00\x00\x00\x00\x03abcdefghij";

const DATA_5: &[u8] = b"\x00\x00\x0a\x00\x00\x00\x00\x00\x05abcdefghij";

const DATA_5_CUT: &[u8] = b"\x00\x00\x0a\x00\x00\x00\x00\x00\x05abcdefghi";

const DATA_5_END: &[u8] = b"\x00\x00\x03\x00\x01\x00\x00\x00\x05abc";

const OTHER: &[u8] = b"j";

/// 70,000 octets more for the connection, for stream 1, and for streams 3 and 5.
const MORE: &[u8] = b"\x00\x00\x04\x08\x00\x00\x00\x00\x00\x00\x01\x11\x70";

const MORE_1: &[u8] = b"\x00\x00\x04\x08\x00\x00\x00\x00\x01\x00\x01\x11\x70";

const MORE_3: &[u8] = b"\x00\x00\x04\x08\x00\x00\x00\x00\x03\x00\x01\x11\x70";

/// 200 on streams 1 and 3, ten octets of each body, and trailers on stream 1.
const OK_1: &[u8] = b"\x00\x00\x01\x01\x04\x00\x00\x00\x01\x88";

const OK_3: &[u8] = b"\x00\x00\x01\x01\x04\x00\x00\x00\x03\x88";

const DATA_1: &[u8] = b"\x00\x00\x0a\x00\x00\x00\x00\x00\x01abcdefghij";

const DATA_1_CUT: &[u8] = b"\x00\x00\x0a\x00\x00\x00\x00\x00\x01abcdefghi";

const SUM_1: &[u8] = b"\x00\x00\x05\x01\x05\x00\x00\x00\x01\x40\x01x\x01y";

/// RST_STREAM on stream 3, and GOAWAY whose last stream is 1.
const RESET_3: &[u8] = b"\x00\x00\x04\x03\x00\x00\x00\x00\x03\x00\x00\x00\x08";

const GOAWAY: &[u8] = b"\x00\x00\x08\x07\x00\x00\x00\x00\x00\x00\x00\x00\x01\x00\x00\x00\x00";

/// A server's opening and PING, each cut in two.
const SERVER_OPENING: &[Call] = &[
    Call::Take(FIRST),
    Call::Take(SECOND),
    Call::Take(ACK),
    Call::Take(b"\x00\x00\x08\x06\x00\x00\x00\x00\x00abcdef"),
    Call::Take(b"gh"),
    Call::PutOut(5),
    Call::PutOut(usize::MAX),
];

/// Each own call of a server's connection.
const SERVER_CALLS: &[Call] = &[
    Call::Take(OPENING),
    Call::Take(ACK),
    Call::Take(GET_1),
    Call::Take(POST_3),
    Call::Take(DATA_3),
    Call::Take(GET_5),
    Call::Take(POST_7),
    Call::Release { id: 3, count: 4 },
    Call::Release { id: 3, count: 7 },
    Call::Fields { id: 1 },
    Call::Data {
        id: 1,
        from: 0,
        most: 100,
        end: false,
    },
    Call::Trailers { id: 1 },
    Call::Fields { id: 3 },
    Call::Data {
        id: 3,
        from: 100,
        most: 20_000,
        end: false,
    },
    Call::PutOut(20_000),
    Call::Reset { id: 5, code: 8 },
    Call::Reset { id: 5, code: 8 },
    Call::Refuse { id: 7, code: 1 },
    Call::Take(DATA_5),
    Call::Widen(100_000),
    Call::Ping,
    Call::Ping,
    Call::ChangeSettings,
    Call::ChangeSettings,
    Call::PutOut(usize::MAX),
    Call::GoAway,
    Call::Take(ACK),
    Call::Take(PONG),
    Call::Take(RESET_3),
    Call::Take(PING),
    Call::PutOut(usize::MAX),
];

/// A client's opening and request.
const CLIENT_OPENING: &[Call] = &[
    Call::Open { end: true },
    Call::PutOut(30),
    Call::Take(ANSWERED),
    Call::Take(OK_1),
    Call::Take(SUM_1),
    Call::PutOut(usize::MAX),
];

/// 70,000 octets of a body, as the windows let them through: 65,535, then none, then the others,
/// which end the stream, so that trailers are refused.
const LONG_BODY: &[Call] = &[
    Call::Open { end: false },
    Call::Take(ANSWERED),
    Call::Data {
        id: 1,
        from: 0,
        most: 70_000,
        end: true,
    },
    Call::PutOut(60_000),
    Call::PutOut(usize::MAX),
    Call::Take(MORE),
    Call::Data {
        id: 1,
        from: 65_535,
        most: 70_000,
        end: true,
    },
    Call::Take(MORE_1),
    Call::Data {
        id: 1,
        from: 65_535,
        most: 70_000,
        end: true,
    },
    Call::Trailers { id: 1 },
    Call::PutOut(usize::MAX),
];

/// Each own call of a client's connection.
const CLIENT_CALLS: &[Call] = &[
    Call::Open { end: false },
    Call::Open { end: true },
    Call::Open { end: true },
    Call::PutOut(usize::MAX),
    Call::Take(ANSWERED),
    Call::Data {
        id: 1,
        from: 0,
        most: 100,
        end: false,
    },
    Call::Take(OK_1),
    Call::Take(DATA_1_CUT),
    Call::Take(OTHER),
    Call::Release { id: 1, count: 10 },
    Call::Trailers { id: 1 },
    Call::Take(DATA_1),
    Call::Reset { id: 3, code: 8 },
    Call::Take(GOAWAY),
    Call::Widen(100_000),
    Call::Ping,
    Call::ChangeSettings,
    Call::GoAway,
    Call::Open { end: true },
    Call::Take(PONG),
    Call::Take(ACK),
    Call::Take(SUM_1),
    Call::PutOut(usize::MAX),
];

/// Two requests with bodies that are larger than the server's windows, and their responses.
const CLIENT: &[Call] = &[
    Call::Take(SMALL_ANSWERED),
    Call::Request,
    Call::Request,
    Call::Pump,
    Call::PutOut(1_000),
    Call::PutOut(usize::MAX),
    Call::Take(MORE_1),
    Call::Take(MORE_3),
    Call::PumpSome(100_000),
    Call::PutOut(usize::MAX),
    Call::Take(OK_1),
    Call::Take(OK_3),
    Call::Take(DATA_1),
    Call::Take(DATA_3),
    Call::ReleaseAll,
    Call::PutOut(usize::MAX),
    Call::Take(DATA_1_CUT),
    Call::Take(OTHER),
    Call::Take(SUM_1),
    Call::Widen(100_000),
    Call::Ping,
    Call::ChangeSettings,
    Call::Reset { id: 3, code: 8 },
    Call::Take(DATA_3),
    Call::GoAway,
    Call::Take(PONG),
    Call::Take(ACK),
    Call::PutOut(usize::MAX),
];

/// Sound requests and two malformed ones, which are reset with PROTOCOL_ERROR, the second after
/// its head was handed out, and two responses.
const SERVER: &[Call] = &[
    Call::Take(SMALL_OPENING),
    Call::Take(ACK),
    Call::Take(GET_1),
    Call::Take(CLOSE_3),
    Call::Take(POST_5),
    Call::Take(DATA_5_CUT),
    Call::Take(OTHER),
    Call::Take(POST_7),
    Call::Take(LENGTH_9),
    Call::Take(DATA_9_END),
    Call::Respond { id: 9 },
    Call::Respond { id: 1 },
    Call::Respond { id: 5 },
    Call::PumpSome(100_000),
    Call::PutOut(usize::MAX),
    Call::ReleaseAll,
    Call::Take(DATA_5_END),
    Call::Take(MORE_1),
    Call::Pump,
    Call::PutOut(usize::MAX),
    Call::Reset { id: 7, code: 8 },
    Call::Widen(100_000),
    Call::Ping,
    Call::ChangeSettings,
    Call::GoAway,
    Call::Take(PONG),
    Call::PutOut(usize::MAX),
];

/// Whether calls withstand refused memory, without messages.
fn calls_bear(
    alloc: Global,
    kind: Kind,
    calls: &'static [Call],
    refused: usize,
) -> Result<bool, AllocError> {
    let (message, none) = (get(alloc)?, Vec::new(alloc));
    bears(alloc, kind, calls, refused, &message, none, Vec::new(alloc))
}

/// Two messages.
fn two(alloc: Global, one: Message, other: Message) -> Result<Vec<Message>, AllocError> {
    let mut messages = Vec::with_capacity(alloc, 2)?;
    messages.push(one)?;
    messages.push(other)?;
    Ok(messages)
}

/// Two requests.
fn requests(alloc: Global) -> Result<Vec<Message>, AllocError> {
    two(alloc, request(alloc, 4_000)?, request(alloc, 4_000)?)
}

/// Two responses.
fn answers(alloc: Global) -> Result<Vec<Message>, AllocError> {
    two(alloc, answer(alloc, 4_000)?, answer(alloc, 4_000)?)
}

/// Whether a client withstands refused memory.
fn client_bears(alloc: Global) -> Result<bool, AllocError> {
    let message = request(alloc, 4_000)?;
    let (first, second) = (requests(alloc)?, requests(alloc)?);
    bears(alloc, Kind::Client, CLIENT, 0, &message, first, second)
}

/// Whether a server withstands refused memory.
fn server_bears(alloc: Global) -> Result<bool, AllocError> {
    let message = answer(alloc, 4_000)?;
    let (first, second) = (answers(alloc)?, answers(alloc)?);
    bears(alloc, Kind::Server, SERVER, 1, &message, first, second)
}

#[test]
fn opening_of_a_server(rt: HostRuntime) {
    let bears = calls_bear(rt.alloc(), Kind::ConnOfServer, SERVER_OPENING, 0);
    assert!(rt; bears.unwrap_or(false));
}

#[test]
fn calls_of_a_server(rt: HostRuntime) {
    let bears = calls_bear(rt.alloc(), Kind::ConnOfServer, SERVER_CALLS, 4);
    assert!(rt; bears.unwrap_or(false));
}

// rule: 5.4 (own) Out of memory is INTERNAL_ERROR
#[test]
fn opening_of_a_client(rt: HostRuntime) {
    let bears = calls_bear(rt.alloc(), Kind::ConnOfClient, CLIENT_OPENING, 0);
    assert!(rt; bears.unwrap_or(false));
}

#[test]
fn long_body_of_a_client(rt: HostRuntime) {
    let bears = calls_bear(rt.alloc(), Kind::ConnOfClient, LONG_BODY, 1);
    assert!(rt; bears.unwrap_or(false));
}

#[test]
fn calls_of_a_client(rt: HostRuntime) {
    let bears = calls_bear(rt.alloc(), Kind::ConnOfClient, CLIENT_CALLS, 1);
    assert!(rt; bears.unwrap_or(false));
}

#[test]
fn messages_of_a_client(rt: HostRuntime) {
    assert!(rt; client_bears(rt.alloc()).unwrap_or(false));
}

// rule: 8.1 (own) A server without memory for a first block fails with INTERNAL_ERROR
#[test]
fn messages_of_a_server(rt: HostRuntime) {
    assert!(rt; server_bears(rt.alloc()).unwrap_or(false));
}
