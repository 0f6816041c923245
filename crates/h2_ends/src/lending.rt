//! `take` of a client and of a server, which lends what is handed out.

ghost use Rattle.std.specs.Prelude.{◌≡◌, ◌≢◌, ◌≤◌, ℕ, List, length, IfOk, IfErr, Ok};
ghost use Rattle.std.specs.Borrow.{sem};
ghost use Rattle.std.specs.Io.BufRead.{Rests};
ghost use Rattle.h2_frame.specs.declared.code.Code.TheVariants.{InternalError};
ghost use Rattle.h2_spec_log.specs.Acts.{Values};
ghost use Rattle.h2_ends.specs.Ends.{EndLog};
ghost use Rattle.h2_ends.specs.EndTakes.{EndNeedsNoMemory};
ghost use Rattle.h2_ends.specs.Loans.{BodyLiesIn, IsBodyIn, answer_handed, answer_of_taken};
ghost use Rattle.h2_ends.specs.Represents.{EndRepresents, EndTakes};
ghost use Rattle.h2_ends.specs.contracts.roles.EndAs.{the_row as end_row};

use crate::end::End;
use crate::event::{EndEvent, EndTaken};
use crate::roles::EndAs;
use crate::taking::EndProgress;
use h2_conn::ConnFault;

impl<R> EndAs<R> {
    // contract: 5.4 (own) A frame whole in its piece that needs no memory is never refused any
    // contract: 8.1 (own) Something is kept of each active stream, and of no other
    // contract: 8.1.1 A malformed message is a stream error PROTOCOL_ERROR
    // contract: 8.1.1 (own) How the connection takes a refusal is what is answered
    // contract: 8.1 (own) What is handed out of a stream is what was reported, in order
    // contract: 8.1 (own) A server without memory for a first block fails with INTERNAL_ERROR
    /// Takes octets of the piece, up to the end of one frame or else all of them, and returns at
    /// most one event. Call it again with the octets that are left until all are used and no event
    /// is returned.
    ///
    /// A part of a message is handed out only as long as the parts so far can begin a message
    /// that breaks no rule (sections 8.1 to 8.3). Otherwise this end resets the stream with
    /// PROTOCOL_ERROR (no RST_STREAM is sent where the part has closed it) and returns
    /// `EndEvent::Reset`; or the connection fails, as [`Conn::refuse`](crate::Conn::refuse) says.
    ///
    /// # Errors
    ///
    /// [`ConnFault`] where the connection fails, and at every call from then on; with
    /// INTERNAL_ERROR where an allocation was refused, or that code was given to `fail`.
    pub fn take<'a>(&'a mut self, piece: &'a [u8]) -> Result<EndTaken<'a>, ConnFault>
        ensures used { IfOk result (λ taken. taken.used ≤ length piece.now) }
        ensures* after { sem 𝓛 (Rests (end_row R.row) self.entry
            (λ new. EndTakes self.old.end piece.now result new.end)) }

        // Taking a frame that lies whole in the piece and needs no memory doesn't fail for lack
        // of memory, unless what it reports is refused.
        ensures promised { (values : Values) (end : EndLog)
            → EndRepresents values self.old.end end → EndNeedsNoMemory end piece.now
            → IfErr result (λ fault. fault.code ≢ InternalError) }
    {
        let progress = self.end.advance(piece)?;
        Ok(lend(&self.end, piece, progress))
    }
}

// rule: 8.1 (own) What is handed out of a stream is what was reported, in order
/// Lends the fields or the octets of an event of this piece.
fn lend<'a>(end: &'a End, piece: &'a [u8], progress: EndProgress) -> EndTaken<'a>
    requires lies { BodyLiesIn end.now piece.now progress.handed }
    ensures { (octets : List ℕ) × IsBodyIn end.now piece.now octets progress.handed
        × (answer_of_taken (Ok result)
        ≡ answer_handed end.now.conn.end.list octets (Ok progress)) }
{
    let used = progress.used;
    let Some(handed) = progress.handed else {
        return EndTaken { used, event: None };
    };
    let event = match handed {
        EndEvent::Body {
            id,
            bytes,
            end: ended,
        } => match end.conn.octets(piece, bytes) {
            Some(bytes) => EndEvent::Body {
                id,
                bytes,
                end: ended,
            },
            None => unreachable!(),
        },
        other => other.with_parts(end.conn.list(), [].as_slice()),
    };
    EndTaken {
        used,
        event: Some(event),
    }
}
