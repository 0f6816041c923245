//! How a command over sockets ends.

ghost use Rattle.std.specs.Prelude.{◌≡◌, None};
ghost use Rattle.h2_net.specs.Endings.{IsClientHint, IsServerHint, link_hint, status_with};

use h2_cli::{Hint, Status, hint_at_client, hint_at_server, hint_of_device, write_hint};
use h2_engines::{LinkError, Why};
use std::io::{self, ErrorKind, Write};

/// How a connection ended early, and the likely cause.
#[derive(Clone, Copy, Debug, PartialEq, Eq)]
pub struct Ending {
    /// How it ended.
    pub error: LinkError,
    /// The likely cause, if it is known.
    pub hint: Option<Hint>,
    /// Why the connection failed, if it did.
    pub why: Option<Why>,
}

impl From<LinkError> for Ending {
    ghost from_gives = { λ error ending. ending
        ≡ record { error = error; hint = None; why = None } };

    /// Creates an ending without a hint.
    fn from(error: LinkError) -> Ending {
        Ending {
            error,
            hint: None,
            why: None,
        }
    }
}

// rule: engines (own) N1 to N7 end a command with their statuses
/// Returns the exit status for an error. It is [`Status::Device`] for [`LinkError::Device`] (N1)
/// and [`LinkError::NoProgress`] (N5), [`Status::Fault`] for [`LinkError::Stream`] (N2),
/// [`LinkError::CutOff`] (N4) and [`LinkError::Reset`] (N6), [`Status::Memory`] for
/// [`LinkError::Memory`] (N3), and [`Status::Usage`] for [`LinkError::Refused`] (N7).
pub fn status_of(error: LinkError) -> Status
    ensures { result ≡ status_with error }
{
    match error {
        LinkError::Device | LinkError::NoProgress => Status::Device,
        LinkError::Stream(_) | LinkError::CutOff | LinkError::Reset(_) => Status::Fault,
        LinkError::Memory => Status::Memory,
        LinkError::Refused => Status::Usage,
    }
}

// rule: engines (own) N1 to N7 end a command with their statuses
// rule (tested): engines (own) A hint says why a connection over a socket has failed
/// Prints up to three lines on `err`: how a connection ended; the hint, if there is one; and, for
/// [`LinkError::Stream`] (N2), why the connection failed, if that is known and the hint does not
/// say that the peer speaks HTTP/1.1. Returns the exit status.
pub fn report<E: Write>(ending: Ending, err: &mut E) -> Status
    ensures { result ≡ status_with ending.error }
{
    // There is no place left to report that these writes fail.
    let _ = writeln!(err, "{}", ending.error);
    let _ = write_hint(ending.hint, err);
    let _ = write_why(ending, err);
    status_of(ending.error)
}

// rule (tested): engines (own) A hint says why a connection over a socket has failed
// Writes why a connection failed, if its error is N2 and the peer does not speak HTTP/1.1.
fn write_why<E: Write>(ending: Ending, err: &mut E) -> io::Result<()> {
    match (ending.error, ending.hint, ending.why) {
        (_, Some(Hint::Http1Server | Hint::Http1Client), _) => Ok(()),
        (LinkError::Stream(_), _, Some(why)) => writeln!(err, "hint: {why}"),
        _ => Ok(()),
    }
}

// rule: engines (own) A hint after the line names the likely cause of N1 and N2
// contract: engines (own) A hint after the line names the likely cause of N1 and N2
/// Returns the hint for the error with which a client's connection ended. For N2
/// ([`LinkError::Stream`]) it is that the server speaks HTTP/1.1, if the first octets that the
/// client read say so, and otherwise the name of the code, if it has one. For N1
/// ([`LinkError::Device`]) it follows from the last error of the link. For other errors there is
/// none.
pub fn client_hint(error: LinkError, first: &[u8], last_error: Option<ErrorKind>) -> Option<Hint>
    ensures { IsClientHint error first.now last_error result }
{
    match error {
        LinkError::Stream(code) => hint_at_client(code, first),
        LinkError::Device => link_hint(last_error),
        _ => None,
    }
}

// Returns the same for a server: for N2, that the client speaks HTTP/1.1, or the name of the code.
pub(crate) fn server_hint(
    error: LinkError,
    first: &[u8],
    last_error: Option<ErrorKind>,
) -> Option<Hint>
    ensures { IsServerHint error first.now last_error result }
{
    match error {
        LinkError::Stream(code) => hint_at_server(code, first),
        LinkError::Device => link_hint(last_error),
        _ => None,
    }
}

// The hint for the last error of a link.
fn link_hint(last_error: Option<ErrorKind>) -> Option<Hint>
    ensures { result ≡ link_hint last_error }
{
    match last_error {
        Some(kind) => hint_of_device(kind),
        None => None,
    }
}
