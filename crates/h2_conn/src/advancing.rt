//! A new connection, and what it takes.

ghost use Rattle.std.specs.Prelude.{◌≡◌, ◌≢◌, ◌≤◌, ℕ, List, length, None, Some, IfOk, IfErr};
ghost use Rattle.std.specs.Prelude.{MatchOption, IfSome, IsSome};
ghost use Rattle.std.specs.Borrow.{sem};
ghost use Rattle.std.specs.Io.BufRead.{Rests};
ghost use Rattle.h2_frame.specs.declared.code.Code.TheVariants.{InternalError};
ghost use Rattle.h2_wire.specs.Cutter.{body_at};
ghost use Rattle.h2_flow.specs.ConfigValues.{values_of};
ghost use Rattle.h2_spec_log.specs.declared.role.Role.TheVariants.{Client, Server};
ghost use Rattle.h2_spec_log.specs.Acts.{Values};
ghost use Rattle.h2_spec_log.specs.Log.{Log};
ghost use Rattle.h2_spec_log.specs.LogCalls.{opened};
ghost use Rattle.h2_laws_end.specs.Promises.{NeedsNoMemory};
ghost use Rattle.h2_core.specs.Endpoint.{end_of};
ghost use Rattle.h2_conn.specs.Parts.{PartsRepresent};
ghost use Rattle.h2_conn.specs.Conn.{ConnRepresents, ConnTakes, ConnAdvances};
ghost use Rattle.h2_conn.specs.Events.{code_result, happened_value, lent_value};
ghost use Rattle.h2_conn.specs.Loans.{LiesThere, IsBodyOf, frame_in};
ghost use Rattle.h2_conn.specs.contracts.conn.Conn.{the_row};

use crate::conn::Conn;
use crate::counts::Counts;
use crate::taken::{ConnFault, Progress, Taken};
use crate::taking::take_piece;
use crate::why::Why;
use h2_core::{Endpoint, Event};
use h2_flow::Config;
use h2_frame::limits::LEAST_MAX_FRAME;
use h2_spec_log::{Refusal, Role};
use h2_wire::{Complete, Cutter};
use hpack::FieldList;
use std::alloc::Global;
use std::fmt;

impl Conn {
    // contract: 3.4 A server sends frames at once, without a preface
    /// Makes a client whose queued output is the preface and SETTINGS (RFC 9113, section 3.4).
    ///
    /// # Errors
    ///
    /// [`Refusal::Memory`] (C12) where an allocation was refused.
    pub fn client(alloc: Global, config: Config) -> Result<Conn, Refusal>
        ensures ok { IfOk result (λ conn. ConnRepresents (values_of config) conn
            (opened Client (values_of config))) }
        ensures err { IfErr result (λ refusal. refusal ≡ Refusal.Memory) }
    {
        new_conn(alloc, Role::Client, config)
    }

    // contract: 3.4 A server sends frames at once, without a preface
    /// Makes a server whose queued output is SETTINGS (section 3.4).
    ///
    /// # Errors
    ///
    /// [`Refusal::Memory`] (C12) where an allocation was refused.
    pub fn server(alloc: Global, config: Config) -> Result<Conn, Refusal>
        ensures ok { IfOk result (λ conn. ConnRepresents (values_of config) conn
            (opened Server (values_of config))) }
        ensures err { IfErr result (λ refusal. refusal ≡ Refusal.Memory) }
    {
        new_conn(alloc, Role::Server, config)
    }

    // contract: 5.4 (own) A frame whole in its piece that needs no memory is never refused any
    // contract: calls (own) take uses octets up to one frame's end, and answers one event at most
    // rule: calls (own) take uses octets up to one frame's end, and answers one event at most
    /// Does what [`Conn::take`] does, but lends nothing: the event comes without its fields and
    /// octets. [`Conn::list`] and [`Conn::octets`] lend these, as often as they are called, until
    /// the next call of `advance` or `take`. A loan ends at any call that changes the connection;
    /// ask for it again after that call.
    ///
    /// # Errors
    ///
    /// [`ConnFault`] where the connection fails, and at every call from then on. INTERNAL_ERROR
    /// (2) is not the peer's fault: the caller gave that code to [`Conn::fail`] or
    /// [`Conn::refuse`], or an allocation was refused. An allocation may be needed to keep
    /// a frame that comes in more than one piece, to process a frame, to return credit, or to reset
    /// a stream by [`Conn::refuse`].
    pub fn advance(&mut self, piece: &[u8]) -> Result<Progress, ConnFault>
        ensures used { IfOk result (λ progress. progress.used ≤ length piece.now) }
        ensures lies { LiesThere self.new.cutter piece.now (code_result result) }
        ensures takes { (octets : List ℕ)
            → IsBodyOf self.new.cutter piece.now octets (code_result result)
            → ConnAdvances self.old piece.now octets result self.new }

        // A frame that lies whole in the piece and needs no memory never fails for lack of it.
        ensures promised { (values : Values) (log : Log) → ConnRepresents values self.old log
            → NeedsNoMemory log piece.now → IfErr result (λ fault. fault.code ≢ InternalError) }
    {
        if let Some(code) = self.end.failed() {
            return Err(ConnFault { code });
        }
        if let Some(id) = self.end.unprocessed() {
            if let Err(code) = self.end.close_unprocessed(id) {
                self.why = Some(Why::OutOfMemory);
                return Err(ConnFault { code });
            }
            return Ok(Progress {
                used: 0,
                happened: Some(Event::Unprocessed { id }),
            });
        }
        let progress = take_piece(
            &mut self.cutter,
            &mut self.end,
            &mut self.counts,
            &mut self.why,
            piece,
        )?;
        Ok(progress)
    }

    // contract: calls (own) An event has the octets, the fields and the numbers of its frame
    /// Lends the fields of the field block that was read last: after
    /// [`Event::Fields`](crate::Event::Fields) those of the event, until the next call of
    /// `advance` or `take`. There are none before any block, and after one that could not be
    /// decoded or whose list was larger than 65,536 octets. It takes no memory.
    pub fn list(&self) -> &FieldList
        ensures { result.now ≡ self.now.end.list }
    {
        self.end.fields()
    }

    // rule: calls (own) An event has the octets, the fields and the numbers of its frame
    /// Lends the octets of the body that [`Conn::advance`] has reported for this piece; `body` is
    /// the `bytes` of that event. `None` if the piece, or what the connection keeps, is too short
    /// to hold them. Pass the piece that `advance` was given, and do so before any other call of
    /// `advance` or `take`. This is not checked: with another piece, or after another call, it
    /// lends whatever octets lie at that place. It takes no memory.
    pub fn octets<'a>(&'a self, piece: &'a [u8], body: Complete) -> Option<&'a [u8]>
        ensures { MatchOption result (body_at self.now.cutter piece.now body ≡ None)
            (λ octets. body_at self.now.cutter piece.now body ≡ Some octets.now) }
    {
        self.cutter.body(piece, body)
    }

    // contract: 5.4 (own) A frame whole in its piece that needs no memory is never refused any
    // contract: calls (own) A fault of the octets fails the connection with its code
    // contract: calls (own) An event has the octets, the fields and the numbers of its frame
    // contract: 4.2 The limit of an end is its greatest MAX_FRAME_SIZE of those in force
    // contract: calls (own) take uses octets up to one frame's end, and answers one event at most
    // rule: calls (own) take uses octets up to one frame's end, and answers one event at most
    /// Takes octets of the piece, up to the end of one frame or else all of them, and returns at
    /// most one event. Call it again with the octets that are left until all are used and no event
    /// is returned: after the peer's GOAWAY, each stream that the peer does not process is
    /// reported by a call that uses no octets.
    ///
    /// # Errors
    ///
    /// [`ConnFault`] where the connection fails, and at every call from then on. INTERNAL_ERROR
    /// (2) is not the peer's fault: the caller gave that code to [`Conn::fail`] or
    /// [`Conn::refuse`], or an allocation was refused. An allocation may be needed to keep
    /// a frame that comes in more than one piece, to process a frame, to return credit, or to reset
    /// a stream by [`Conn::refuse`].
    pub fn take<'a>(&'a mut self, piece: &'a [u8]) -> Result<Taken<'a>, ConnFault>
        ensures used { IfOk result (λ taken. taken.used ≤ length piece.now) }

        // After the borrow ends: for each log that the connection represented, it represents
        // that log with this call and this answer appended.
        ensures* after { sem 𝓛 (Rests the_row self.entry
            (λ new. ConnTakes self.old piece.now result new)) }

        // A frame that lies whole in the piece and needs no memory never fails for lack of it.
        ensures promised { (values : Values) (log : Log) → ConnRepresents values self.old log
            → NeedsNoMemory log piece.now → IfErr result (λ fault. fault.code ≢ InternalError) }
    {
        let progress = self.advance(piece)?;
        let Some(event) = progress.happened else {
            return Ok(Taken {
                used: progress.used,
                event: None,
            });
        };
        Ok(Taken {
            used: progress.used,
            event: Some(self.lent(piece, event)),
        })
    }

    // rule: calls (own) An event has the octets, the fields and the numbers of its frame
    /// The event that [`Conn::advance`] has reported for this piece, with its fields and octets
    /// lent.
    fn lent<'a>(
        &'a self,
        piece: &'a [u8],
        event: Event<(), Complete>,
    ) -> Event<&'a FieldList, &'a [u8]>
        requires { IfSome (frame_in (Some event)) (λ frame.
            IsSome (body_at self.now.cutter piece.now frame)) }
        ensures { (octets : List ℕ) → IfSome (frame_in (Some event)) (λ frame.
            body_at self.now.cutter piece.now frame ≡ Some octets)
            → lent_value result ≡ happened_value self.now.end.list octets event }
    {
        match event {
            Event::Data { bytes, .. } => match self.octets(piece, bytes) {
                Some(octets) => event.with_parts(self.list(), octets),
                None => unreachable!(),
            },
            _ => event.with_parts(self.list(), &piece[..0]),
        }
    }
}

// rule: 3.4 A server sends frames at once, without a preface
// rule: 4.2 The limit of an end is its greatest MAX_FRAME_SIZE of those in force
/// Makes a new end.
fn new_conn(alloc: Global, role: Role, config: Config) -> Result<Conn, Refusal>
    ensures ok { IfOk result (λ conn. PartsRepresent (values_of config) conn.cutter conn.counts
        conn.why (end_of conn.end) (opened role (values_of config))) }
    ensures err { IfErr result (λ refusal. refusal ≡ Refusal.Memory) }
{
    let end = Endpoint::new(alloc, role, config)?;
    let mut cutter = Cutter::new(alloc, LEAST_MAX_FRAME, role == Role::Server);
    cutter.set_limit(end.payload_limit());
    Ok(Conn {
        cutter,
        end,
        counts: Counts::new(),
        why: None,
    })
}

impl fmt::Debug for Conn {
    fn fmt<W: fmt::Write>(&self, f: &mut fmt::Formatter<W>) -> fmt::Result {
        f.debug_struct("Conn")
            .field("role", &self.end.role())
            .field("failed", &self.failed())
            .field("why", &self.why())
            .field("waiting", &self.waiting())
            .field("held", &self.held())
            .finish()
    }
}
