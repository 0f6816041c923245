//! Hints and their texts.

ghost use Rattle.std.specs.Prelude.{◌≡◌, OnOk, Some};
ghost use Rattle.std.specs.Io.KnownBytes.{Appends};
ghost use Rattle.h2_cli.specs.Hints.{IsDueAtClient, IsDueAtServer, NamesCode, hint_text};
ghost use Rattle.h2_cli.specs.Hints.{connect_hint, device_hint, lines_of_hint};

use crate::opening::{answers_http1, asks_http1};
use h2_frame::Code;
use std::fmt;
use std::io::{self, ErrorKind, Write};

/// The likely cause of a failure. It is printed as a line: `hint: `, and then its text.
#[derive(Clone, Copy, Debug, PartialEq, Eq)]
pub enum Hint {
    /// The input is a packet capture, not octets of HTTP/2.
    Capture,
    /// The server speaks HTTP/1.1.
    Http1Server,
    /// The client speaks HTTP/1.1.
    Http1Client,
    /// The connection failed with this code.
    ErrorCode(Code),
    /// Nothing listens on the port.
    ConnectionRefused,
    /// The peer reset the TCP connection.
    ConnectionReset,
    /// There is no route to the host, or it does not respond.
    HostUnreachable,
    /// Another program listens on the port.
    PortInUse,
    /// Listening on the port needs privileges.
    PortForbidden,
    /// The host's name has no address.
    UnknownHost,
}

impl fmt::Display for Hint {
    ghost output = { λ hint. Some (hint_text hint) };

    fn fmt<W: fmt::Write>(&self, f: &mut fmt::Formatter<W>) -> fmt::Result {
        match *self {
            Hint::Capture => f.write_str(
                "the input is a packet capture: see h2 show --help for how to read it",
            ),
            Hint::Http1Server => f.write_str("the server speaks HTTP/1.1, not HTTP/2"),
            Hint::Http1Client => f.write_str(
                "the client speaks HTTP/1.1: try curl --http2-prior-knowledge",
            ),
            Hint::ErrorCode(code) => write!(f, "{} is {code}", code.number()),
            Hint::ConnectionRefused => f.write_str(
                "connection refused: nothing is listening on that port",
            ),
            Hint::ConnectionReset => f.write_str("connection reset by peer"),
            Hint::HostUnreachable => f.write_str("the host is unreachable"),
            Hint::PortInUse => f.write_str("the port is already in use"),
            Hint::PortForbidden => f.write_str("no permission to use the port"),
            Hint::UnknownHost => f.write_str("the host name could not be resolved"),
        }
    }
}

// rule: engines (own) A hint after the line names the likely cause of N1 and N2
/// Returns the hint of a client whose connection failed with this error code, by the first
/// octets received: that the server speaks HTTP/1.1, or else the code's name.
pub fn hint_at_client(number: u32, first: &[u8]) -> Option<Hint>
    ensures { IsDueAtClient number first.now result }
{
    if answers_http1(first) {
        return Some(Hint::Http1Server);
    }
    hint_of_code(number)
}

/// Returns the hint of a server whose connection failed with this error code, by the first
/// octets received: that the client speaks HTTP/1.1, or else the code's name.
pub fn hint_at_server(number: u32, first: &[u8]) -> Option<Hint>
    ensures { IsDueAtServer number first.now result }
{
    if asks_http1(first) {
        return Some(Hint::Http1Client);
    }
    hint_of_code(number)
}

// The hint that names this error code, if it has a name.
fn hint_of_code(number: u32) -> Option<Hint>
    ensures { NamesCode number result }
{
    Code::from_number(number).map(Hint::ErrorCode)
}

/// Returns the hint for a socket call that failed with this kind of error, if there is one.
pub fn hint_of_device(kind: ErrorKind) -> Option<Hint>
    ensures { result ≡ device_hint kind }
{
    match kind {
        ErrorKind::ConnectionRefused => Some(Hint::ConnectionRefused),
        ErrorKind::ConnectionReset | ErrorKind::ConnectionAborted | ErrorKind::BrokenPipe => {
            Some(Hint::ConnectionReset)
        }
        ErrorKind::HostUnreachable | ErrorKind::NetworkUnreachable | ErrorKind::TimedOut => {
            Some(Hint::HostUnreachable)
        }
        ErrorKind::AddrInUse => Some(Hint::PortInUse),
        ErrorKind::PermissionDenied => Some(Hint::PortForbidden),
        _ => None,
    }
}

/// Returns the hint for a failed connect: as [`hint_of_device`], or that the host is unknown,
/// which has no kind of its own.
pub fn hint_of_connecting(kind: ErrorKind) -> Option<Hint>
    ensures { result ≡ connect_hint kind }
{
    match kind {
        ErrorKind::Uncategorized => Some(Hint::UnknownHost),
        _ => hint_of_device(kind),
    }
}

/// Writes the line of a hint, if there is one.
///
/// # Errors
///
/// Those of the writer.
pub fn write_hint<W: Write>(hint: Option<Hint>, out: &mut W) -> io::Result<()>
    ensures { OnOk result (Appends (W.contents out.old) (W.contents out.new)
        (lines_of_hint hint)) }
{
    match hint {
        Some(hint) => writeln!(out, "hint: {hint}"),
        None => Ok(()),
    }
}
