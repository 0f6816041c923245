//! Feeds a piece to an endpoint, call by call.

ghost use Rattle.std.specs.Prelude.{◌≡◌, ◌≤◌, None, OnOk, IfOk, IfErr, length};
ghost use Rattle.h2_messages.specs.Taking.{CallsTake, IsFailure, TakesGivenPiece};
ghost use Rattle.h2_messages.specs.Taking.{TakeErrorReports};
ghost use Rattle.h2_messages.specs.Taking.{taken_of, unwritten_in};

use crate::end::MessageEnd;
use crate::handing::Handing;
use crate::parts::{Unwritten, write_unwritten};
use crate::rules::{refused_in, write_refusal};
use h2_cli::Failure;
use h2_ends::Code;
use std::io::{self, Write};

/// Why an endpoint takes no more input.
#[derive(Clone, Copy, Debug)]
pub(crate) enum TakeError {
    /// The connection failed with this code, for a fault of the peer.
    Fault(Code),
    /// A write failed, or out of memory.
    Failed(Failure),
}

impl From<io::Error> for TakeError {
    ghost from_gives = { λ io_error error. IsFailure error };

    fn from(error: io::Error) -> TakeError {
        TakeError::Failed(Failure::from(error))
    }
}

/// The result of one call of `take`, all of which is written.
#[derive(Clone, Copy, Debug)]
pub(crate) struct Taken {
    /// The number of octets used.
    pub(crate) used: usize,
    /// Whether there was an event.
    pub(crate) hands: bool,
}

impl Handing {
    // What is still to be written.
    fn unwritten(self) -> Unwritten
        ensures { result ≡ unwritten_in self }
    {
        match self {
            Handing::Took { unwritten, .. } => unwritten,
            Handing::Failed { .. } => Unwritten::Nothing,
        }
    }

    // The result of the call once all is written.
    fn taken(self) -> Result<Taken, TakeError>
        ensures { result ≡ taken_of self }
    {
        match self {
            Handing::Took { used, unwritten } => Ok(Taken {
                used,
                hands: !matches!(unwritten, Unwritten::Nothing),
            }),
            // Nothing that a peer sends causes this code.
            Handing::Failed {
                code: Code::InternalError,
            } => Err(TakeError::Failed(Failure::Memory)),
            Handing::Failed { code } => Err(TakeError::Fault(code)),
        }
    }
}

// rule: messages (own) A part that is refused has a line with its stream and its rule
// rule: messages (own) Each call of take has its lines, until the input is used
/// Calls `take` once, and writes its lines.
///
/// # Errors
///
/// [`TakeError::Fault`] if the connection fails, and [`TakeError::Failed`] if a write failed or
/// memory ran out.
pub(crate) fn take_once<W: Write>(
    end: &mut MessageEnd,
    piece: &[u8],
    out: &mut W,
) -> Result<Taken, TakeError>
    ensures within { IfOk result (λ taken. taken.used ≤ length piece.now) }
    ensures takes { CallsTake end.old piece.now result end.new (W.contents out.old)
        (W.contents out.new) }
{
    let before = end.last_malformed();
    let handing = end.hand_out(piece, out)?;
    write_refusal(refused_in(before, end.last_malformed()), out)?;
    write_unwritten(handing.unwritten(), end.last_flow(), out)?;
    handing.taken()
}

// rule: messages (own) Each call of take has its lines, until the input is used
/// Feeds the piece to the endpoint until it is used up and there are no more events, and writes
/// the lines.
///
/// # Errors
///
/// Those of [`take_once`].
pub(crate) fn take_piece<W: Write>(
    end: &mut MessageEnd,
    piece: &[u8],
    out: &mut W,
) -> Result<(), TakeError>
    ensures ok { OnOk result (TakesGivenPiece end.old piece.now None end.new (W.contents out.old)
        (W.contents out.new)) }
    ensures err { IfErr result (λ error. TakeErrorReports end.old piece.now error end.new
        (W.contents out.old) (W.contents out.new)) }
{
    let mut done = 0;
    for _ in 0..u64::MAX {
        let taken = take_once(end, &piece[done..], out)?;
        done += taken.used;
        if !taken.hands && done == piece.len() {
            return Ok(());
        }
    }
    Err(TakeError::Failed(Failure::Device))
}
