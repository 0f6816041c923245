//! Why a connection with a handler cannot go on.

ghost use Rattle.std.specs.Prelude.{OnOk};
ghost use Rattle.h2_server.specs.Credit.{IsDoneOrFull, IsEndDoneOrFull};

use h2_ends::{EndRefusal, Refusal, Server};
use std::alloc::AllocError;

/// Why a connection cannot go on.
#[derive(Clone, Copy, Debug, PartialEq, Eq)]
pub enum Stop {
    /// The connection has failed ([`Conn::failed`](crate::Conn::failed) returns the code); its
    /// GOAWAY is queued.
    Failed,
    /// An allocation was refused. No GOAWAY is queued, and a part of a request or of a response may
    /// be lost: close the connection.
    Memory,
    /// No stream can be reset any more (1,000 were).
    TooManyResets,
}

impl From<AllocError> for Stop {
    ghost use Rattle.std.specs.Prelude.{◌≡◌};
    ghost use Rattle.h2_server.specs.declared.stop.Stop.TheVariants.{Memory};

    ghost from_gives = { λ error stop. stop ≡ Memory };

    fn from(_error: AllocError) -> Stop {
        Stop::Memory
    }
}

/// Why a call was refused: the connection has failed, or else an allocation was refused.
pub(crate) fn stop_of(server: &Server) -> Stop {
    match server.conn().failed() {
        Some(_) => Stop::Failed,
        None => Stop::Memory,
    }
}

/// The result of a call of the connection; a full output is no reason to stop.
pub(crate) fn unless_full(server: &Server, answer: Result<(), Refusal>) -> Result<(), Stop>
    ensures { OnOk result (IsDoneOrFull answer) }
{
    match answer {
        Ok(()) | Err(Refusal::OutputFull) => Ok(()),
        Err(Refusal::Memory) => Err(Stop::Memory),
        Err(_) => Err(stop_of(server)),
    }
}

/// The same for a call of the server.
pub(crate) fn unless_end_full(server: &Server, answer: Result<(), EndRefusal>) -> Result<(), Stop>
    ensures { OnOk result (IsEndDoneOrFull answer) }
{
    match answer {
        Ok(()) | Err(EndRefusal::Conn(Refusal::OutputFull)) => Ok(()),
        Err(EndRefusal::Conn(Refusal::Memory)) => Err(Stop::Memory),
        Err(_) => Err(stop_of(server)),
    }
}
