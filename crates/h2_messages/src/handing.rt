//! One call of `take`, and what is written while its result is borrowed.

ghost use Rattle.std.specs.Prelude.{IfOk, length};
ghost use Rattle.h2_messages.specs.Taking.{HandsOut, HandsWithin};

use crate::parts::{Unwritten, write_lent};
use h2_ends::{Client, Code, Server};
use std::io::{self, Write};

/// The result of one call of `take`.
#[derive(Clone, Copy, Debug)]
pub(crate) enum Handing {
    /// The octets used, and what is still to be written of the event.
    Took {
        /// The number of octets.
        used: usize,
        /// What is still to be written.
        unwritten: Unwritten,
    },
    /// The connection failed.
    Failed {
        /// The error code.
        code: Code,
    },
}

// rule: messages (own) Each call of take has its lines, until the input is used
/// Calls `take` of a client once.
///
/// # Errors
///
/// Those of the writer.
pub(crate) fn client_hands<W: Write>(
    client: &mut Client,
    piece: &[u8],
    out: &mut W,
) -> io::Result<Handing>
    ensures within { IfOk result (λ handing. HandsWithin handing (length piece.now)) }
    ensures hands { IfOk result (λ handing. HandsOut client.old.end piece.now handing
        client.new.end (W.contents out.old) (W.contents out.new)) }
{
    match client.take(piece) {
        Ok(taken) => {
            let used = taken.used;
            let unwritten = write_lent(taken.event, out)?;
            Ok(Handing::Took { used, unwritten })
        }
        Err(fault) => Ok(Handing::Failed { code: fault.code }),
    }
}

// rule: messages (own) Each call of take has its lines, until the input is used
/// Calls `take` of a server once.
///
/// # Errors
///
/// Those of the writer.
pub(crate) fn server_hands<W: Write>(
    server: &mut Server,
    piece: &[u8],
    out: &mut W,
) -> io::Result<Handing>
    ensures within { IfOk result (λ handing. HandsWithin handing (length piece.now)) }
    ensures hands { IfOk result (λ handing. HandsOut server.old.end piece.now handing
        server.new.end (W.contents out.old) (W.contents out.new)) }
{
    match server.take(piece) {
        Ok(taken) => {
            let used = taken.used;
            let unwritten = write_lent(taken.event, out)?;
            Ok(Handing::Took { used, unwritten })
        }
        Err(fault) => Ok(Handing::Failed { code: fault.code }),
    }
}
