//! Connections that have written all that they write before they are served.

use h2_cli::Status;
use h2_net::{WriteParts, serve_connections};
use std::alloc::Global;
use std::io::{Read, Write};
use std::net::{
    Ipv4Addr, Net, OpenListener, OpenStream, Shutdown, SocketAddr, TcpListener, TcpStream,
};
use std::test::Fail;

/// The preface, empty SETTINGS, and GET of `/` at www.example.com (RFC 7541, appendix C.4.1).
const REQUEST: &[u8] = b"PRI * HTTP/2.0\r\n\r\nSM\r\n\r\n\
    \x00\x00\x00\x04\x00\x00\x00\x00\x00\
    \x00\x00\x11\x01\x05\x00\x00\x00\x01\x82\x86\x84\
    \x41\x8c\xf1\xe3\xc2\xe5\xf2\x3a\x6b\xa0\xab\x90\xf4\xff";

/// The octets of the response's DATA.
const ANSWER: &[u8] = b"\x00\x00\x06\x00\x01\x00\x00\x00\x01GET /\n";

/// GOAWAY with PROTOCOL_ERROR, after which no stream is processed.
const GOAWAY: &[u8] = b"\x00\x00\x08\x07\x00\x00\x00\x00\x00\x00\x00\x00\x00\x00\x00\x00\x01";

/// What a client writes, and the last octets that it then reads.
type Client<'a> = (&'a [u8], &'a [u8]);

const WHOLE: Client<'static> = (REQUEST, ANSWER);

/// No preface.
const BAD: Client<'static> = (b"GET / HTTP/1.1\r\n\r\n", GOAWAY);

/// It ends inside the head of a frame.
const CUT: Client<'static> = (
    b"PRI * HTTP/2.0\r\n\r\nSM\r\n\r\n\x00\x00\x00\x04\x00\x00",
    b"",
);

/// A client that has written these octets, and no more.
fn new_client<R: Net>(rt: &R, address: SocketAddr, octets: &[u8]) -> Result<R::Stream, Fail> {
    let mut stream = TcpStream::connect(rt, address)?;
    stream.write_all(octets)?;
    stream.shutdown(Shutdown::Write)?;
    Ok(stream)
}

/// What is reported of a client that asks in HTTP/1.1.
const ASKED: &str =
    "N2 Stream 1\nhint: the client speaks HTTP/1.1: try curl --http2-prior-knowledge\n";

/// What is reported of one whose input is cut off, and then of such a client.
const CUT_AND_ASKED: &str = "N4 CutOff\nN2 Stream 1\n\
    hint: the client speaks HTTP/1.1: try curl --http2-prior-knowledge\n";

/// Whether what is read of a stream ends with these octets.
fn ends_with<S: Read>(alloc: Global, stream: &mut S, last: &[u8]) -> Result<bool, Fail> {
    let mut octets = Vec::new(alloc);
    stream.read_to_end(&mut octets)?;
    Ok(octets.ends_with(last))
}

/// Whether clients are served one after another, with these lines on standard error, and this
/// status.
fn serves<R: Net>(
    rt: &R,
    alloc: Global,
    clients: &[Client<'_>],
    lines: &str,
    status: Status,
) -> Result<bool, Fail>
where
    R::Stream: WriteParts,
{
    let listener = TcpListener::bind(rt, SocketAddr::from((Ipv4Addr::LOCALHOST, 0)))?;
    let address = listener.local_addr()?;
    let mut streams = Vec::new(alloc);
    for (octets, _) in clients {
        streams.push(new_client(rt, address, octets)?)?;
    }
    let mut err = Vec::new(alloc);
    let count = u16::try_from(clients.len()).unwrap_or(u16::MAX);
    let ended = serve_connections(alloc, &listener, count, &mut err);
    for (stream, (_, last)) in streams.iter_mut().zip(clients) {
        if !ends_with(alloc, stream, last)? {
            return Ok(false);
        }
    }
    Ok(err.as_slice() == lines.as_bytes() && ended == status)
}

// rule: engines (own) A link over TCP counts the calls that have failed
// rule: engines (own) h2 serve serves COUNT connections, one after another
#[test]
fn connections_one_after_another(rt: HostRuntime) -> Result<(), Fail> {
    let rows: [(&[Client<'_>], &str, Status); 4] = [
        (&[WHOLE], "", Status::Good),
        (&[WHOLE, WHOLE, WHOLE], "", Status::Good),
        (&[WHOLE, BAD, WHOLE], ASKED, Status::Fault),
        (&[CUT, WHOLE, BAD], CUT_AND_ASKED, Status::Fault),
    ];
    for (clients, lines, status) in rows {
        assert!(rt; serves(&rt, rt.alloc(), clients, lines, status)?, "{lines}");
    }
    Ok(())
}

// rule: engines (own) After N2 and N3 input is dropped up to 16 MiB
// 24 octets that are no preface, and 100,000 more, all written before one is read. They are read
// too: a stream that is closed while octets are unread resets the connection.
#[test]
fn octets_after_a_bad_preface(rt: HostRuntime) -> Result<(), Fail> {
    let octets = vec![in rt.alloc(); b'x'; 100_024]?;
    let clients = [(octets.as_slice(), GOAWAY)];
    let lines = "N2 Stream 1\nhint: 1 is PROTOCOL_ERROR\n\
        hint: the connection preface is wrong (PROTOCOL_ERROR)\n";
    assert!(rt; serves(&rt, rt.alloc(), &clients, lines, Status::Fault)?);
    Ok(())
}
