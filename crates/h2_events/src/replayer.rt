//! One endpoint, and the lines of its events.

ghost use Rattle.std.specs.Prelude.{◌≡◌, [], None, OnOk, IfOk, IfErr};
ghost use Rattle.h2_events.specs.Replayer.{EndReplays, HandsPiece, ReportsCode, ReplayErrorReports};
ghost use Rattle.h2_events.specs.Replayer.{IsFailed};

use crate::lines::write_event;
use h2_cli::Failure;
use h2_conn::{Config, Conn, ConnFault, Role};
use h2_frame::Code;
use std::alloc::Global;
use std::io::{self, Write};

/// Why an endpoint takes no more input.
#[derive(Clone, Copy, Debug)]
pub(crate) enum ReplayError {
    /// The connection failed with this code, for a fault of the peer.
    Fault(Code),
    /// A write failed, or out of memory.
    Failed(Failure),
}

impl From<ConnFault> for ReplayError {
    ghost from_gives = { λ fault error. ReportsCode fault.code error };

    fn from(fault: ConnFault) -> ReplayError {
        match fault.code {
            // Nothing that a peer sends causes this code.
            Code::InternalError => ReplayError::Failed(Failure::Memory),
            code => ReplayError::Fault(code),
        }
    }
}

impl From<io::Error> for ReplayError {
    ghost from_gives = { λ io_error error. IsFailed error };

    fn from(error: io::Error) -> ReplayError {
        ReplayError::Failed(Failure::from(error))
    }
}

/// Creates an endpoint with the default settings.
///
/// # Errors
///
/// [`Failure::Memory`] if out of memory.
pub(crate) fn new_end(alloc: Global, role: Role) -> Result<Conn, Failure>
    ensures ok { IfOk result (EndReplays role []) }
    ensures err { IfErr result (λ failure. failure ≡ Failure.Memory) }
{
    let made = match role {
        Role::Client => Conn::client(alloc, Config::default()),
        Role::Server => Conn::server(alloc, Config::default()),
    };
    made.map_err(|_| Failure::Memory)
}

// rule: replay (own) The status is 0 only where an end took the whole input
// contract: replay (own) The status is 1 only where that end has failed
// rule (contract): replay (own) Each event has a line, written with its piece
/// Feeds a piece to the endpoint until it is used up and there are no more events, and prints
/// the events.
///
/// # Errors
///
/// [`ReplayError::Fault`] if the connection fails, and [`ReplayError::Failed`] if a write failed
/// or memory ran out.
pub(crate) fn take_piece<W: Write>(
    conn: &mut Conn,
    piece: &[u8],
    out: &mut W,
) -> Result<(), ReplayError>
    ensures ok { OnOk result (HandsPiece conn.old piece.now None conn.new) }
    ensures err { IfErr result (λ error. ReplayErrorReports conn.old piece.now error conn.new) }
{
    let mut done = 0;
    for _ in 0..u64::MAX {
        let taken = conn.take(&piece[done..])?;
        done += taken.used;
        let Some(event) = taken.event else {
            if done == piece.len() {
                return Ok(());
            }
            continue;
        };
        write_event(event, out)?;
    }
    Err(ReplayError::Failed(Failure::Device))
}
