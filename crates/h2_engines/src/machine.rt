//! Drives a server or a client, over a link or over octets that the caller hands in.

ghost use Rattle.std.specs.Prelude.{◌≡◌, ◌≤◌, ◌<◌, ◌-◌, ◌^◌, Bool, true, length, IfOk, IfErr};
ghost use Rattle.std.specs.Prelude.{OnErr};
ghost use Rattle.h2_spec_log.specs.Acts.{PutOut, Count};
ghost use Rattle.h2_conn.specs.Conn.{GivesOut, answer_by};
ghost use Rattle.h2_ends.specs.Represents.{EndAnswers};
ghost use Rattle.h2_engines.specs.Failures.{EndsWriting, IsOfCall, failures_at_end, failures_by};
ghost use Rattle.h2_engines.specs.Linked.{traffic};
ghost use Rattle.h2_engines.specs.Machines.{MachineState, Hears, Responds, StopsWith, MayEnd};
ghost use Rattle.h2_engines.specs.Machines.{WritesAndResponds, EndsEarly, MachineTakesPiece};
ghost use Rattle.h2_engines.specs.Machines.{Drives, MeetsEnd, WritesWaiting, PutsWaiting};
ghost use Rattle.h2_engines.specs.Sending.{SendsWaiting};

use crate::errors::unless_refused;
use crate::request::Next;
use crate::room::room_for_input;
use crate::sending::Credit;
use h2_conn::Conn;
use h2_ends::Refusal;
use h2_frame::limits::FULL_OUTPUT;
use h2_link::{Link, LinkError};
use std::alloc::Global;

/// The result of handing a piece to a machine.
#[derive(Drop)]
pub(crate) struct Heard {
    /// How many octets were used.
    pub(crate) used: usize,
    /// What is to be done next.
    pub(crate) next: Next,
}

/// A server or a client that is driven: takes octets, says what is to be done next, and gives
/// out octets.
pub(crate) trait Machine {
    /// The state of its end, and what it keeps beside that.
    ghost held: { Self → MachineState };

    /// Whether it is a server.
    ghost serves: { Bool };

    /// Returns the allocator that it uses.
    fn alloc(&self) -> Global;

    /// Returns its connection.
    fn conn(&self) -> &Conn
        ensures { result.now ≡ (held self.now).end.conn };

    /// Hands octets to `take` once, and keeps what is handed out.
    fn take(&mut self, piece: &[u8]) -> Result<Heard, LinkError>
        ensures hears { Hears (held self.old) (held self.new) piece.now result }
        ensures within { IfOk result (λ heard. heard.used ≤ length piece.now) }
        ensures err { IfErr result (StopsWith serves) };

    /// Makes a response or a reset that is due.
    fn act(&mut self, due: Next) -> Result<(), LinkError>
        ensures acts { Responds (held self.old) (held self.new) due result }
        ensures err { IfErr result (StopsWith serves) };

    /// Returns all credit that is owed, and sends what waits of messages: see
    /// [`send_waiting`](crate::send_waiting).
    fn send(&mut self) -> Result<(), LinkError>
        ensures sends { SendsWaiting Credit.All (held self.old).end (held self.new).end result }
        ensures kept { (held self.new).kept ≡ (held self.old).kept }
        ensures err { IfErr result IsOfCall };

    /// Appends at most `count` octets of the output to `out`.
    fn give_out(&mut self, count: usize, out: &mut Vec<u8>) -> Result<usize, Refusal>
        ensures answers { EndAnswers (held self.old).end (PutOut count)
            (answer_by (λ given. Count given) result) (held self.new).end }
        ensures ok { IfOk result (λ given. GivesOut (held self.old).end.conn count given
            out.old.items out.new.items) }
        ensures err { OnErr result (out.new.items ≡ out.old.items) }
        ensures kept { (held self.new).kept ≡ (held self.old).kept };

    /// Writes all output that waits: see [`write_out`](crate::write_out).
    fn write_all<L: Link>(&mut self, link: &mut L) -> Result<(), LinkError>
        requires { L.faults link.old < 2 ^ 64 - 1 }
        ensures writes { WritesWaiting
            (traffic (L.given link.old) (L.taken link.old) (L.stalled link.old))
            (traffic (L.given link.new) (L.taken link.new) (L.stalled link.new))
            (held self.old) (held self.new) result }
        ensures kept { (held self.new).kept ≡ (held self.old).kept }
        ensures failures { L.faults link.new ≡ failures_at_end (L.faults link.old) result }
        ensures err { IfErr result EndsWriting };
}

/// Does what is due; if it writes to a link, once all that waits is written.
fn do_due<M: Machine, L: Link>(
    machine: &mut M,
    link: &mut L,
    writes: bool,
    due: Next,
) -> Result<(), LinkError>
    requires { L.faults link.old < 2 ^ 64 - 1 }
    ensures does { WritesAndResponds writes
        (traffic (L.given link.old) (L.taken link.old) (L.stalled link.old))
        (traffic (L.given link.new) (L.taken link.new) (L.stalled link.new))
        (M.held machine.old) (M.held machine.new) due result }
    ensures failures { L.faults link.new ≡ failures_at_end (L.faults link.old) result }
    ensures err { IfErr result (MayEnd writes M.serves) }
{
    if writes {
        machine.write_all(link)?;
        return machine.act(due);
    }
    machine.act(due)
}

/// Ends a machine with this error. Where the connection has failed, writes all that waits to
/// the link.
fn end_early<M: Machine, L: Link>(
    machine: &mut M,
    link: &mut L,
    writes: bool,
    error: LinkError,
) -> LinkError
    requires fits { L.faults link.old < 2 ^ 64 - 1 }
    requires is { StopsWith M.serves error }
    ensures ends { EndsEarly writes
        (traffic (L.given link.old) (L.taken link.old) (L.stalled link.old))
        (traffic (L.given link.new) (L.taken link.new) (L.stalled link.new))
        (M.held machine.old) (M.held machine.new) error result }
    ensures failures { L.faults link.new ≡ failures_by (L.faults link.old) result }
    ensures err { MayEnd writes M.serves result }
{
    if !writes {
        return error;
    }
    if machine.conn().failed().is_some() {
        return match machine.write_all(link) {
            Ok(()) => error,
            Err(unwritten) => unwritten,
        };
    }
    error
}

// rule: engines (own) Over a link input is used in order and all output is written
// rule: engines (own) N2 has the code with which the connection failed; memory is N3
/// Takes the octets of a piece and does what is due. Takes all of them and returns false, or
/// those up to the end of a complete response and returns true. With `writes`, all that waits
/// is written to the link before each response and each reset, and where the octets end the
/// connection.
pub(crate) fn take_all<M: Machine, L: Link>(
    machine: &mut M,
    link: &mut L,
    writes: bool,
    piece: &[u8],
) -> Result<bool, LinkError>
    requires { L.faults link.old < 2 ^ 64 - 1 }
    ensures takes { MachineTakesPiece writes
        (traffic (L.given link.old) (L.taken link.old) (L.stalled link.old))
        (traffic (L.given link.new) (L.taken link.new) (L.stalled link.new))
        (M.held machine.old) (M.held machine.new) piece.now result }
    ensures failures { L.faults link.new ≡ failures_at_end (L.faults link.old) result }
    ensures err { IfErr result (MayEnd writes M.serves) }
{
    let mut used = 0usize;
    for _ in 0..u64::MAX {
        match machine.take(&piece[used..]) {
            Ok(heard) => {
                used += heard.used;
                match heard.next {
                    Next::Again => {}
                    Next::Done => return Ok(false),
                    Next::Whole => return Ok(true),
                    due => do_due(machine, link, writes, due)?,
                }
            }
            Err(error) => return Err(end_early(machine, link, writes, error)),
        }
    }
    Err(LinkError::NoProgress)
}

// rule: engines (own) Over a link input is used in order and all output is written
// rule (tested): engines (own) Where the output was full it pumps and writes before it reads
// rule: engines (own) N5 comes only where a write has taken nothing
/// Drives a machine over a link until its response is complete or the input has ended, and
/// returns whether it is complete. Where the output was full, returns credit and sends what can
/// go before it reads.
pub(crate) fn drive<M: Machine, L: Link>(machine: &mut M, link: &mut L) -> Result<bool, LinkError>
    requires { L.faults link.old < 2 ^ 64 - 1 }
    ensures drives { Drives
        (traffic (L.given link.old) (L.taken link.old) (L.stalled link.old))
        (traffic (L.given link.new) (L.taken link.new) (L.stalled link.new))
        (M.held machine.old) (M.held machine.new) result }
    ensures ended { MeetsEnd result (L.ended link.new) }
    ensures failures { L.faults link.new ≡ failures_at_end (L.faults link.old) result }
    ensures err { IfErr result (MayEnd true M.serves) }
{
    let mut input = room_for_input(machine.alloc())?;
    for _ in 0..u64::MAX {
        let is_full = machine.conn().waiting() >= FULL_OUTPUT;
        machine.write_all(link)?;
        if is_full {
            machine.send()?;
            continue;
        }
        let count = link.read(&mut input)?;
        if count == 0 {
            return Ok(false);
        }
        let is_whole = take_all(machine, link, true, &input[..count])?;
        if is_whole {
            return Ok(true);
        }
        machine.send()?;
    }
    Err(LinkError::NoProgress)
}

/// Sends what waits, and appends at most `count` octets of the output to `out`.
pub(crate) fn put_out<M: Machine>(
    machine: &mut M,
    count: usize,
    out: &mut Vec<u8>,
) -> Result<usize, LinkError>
    ensures puts { PutsWaiting (M.held machine.old) (M.held machine.new) count out.old.items
        out.new.items result }
    ensures kept { (M.held machine.new).kept ≡ (M.held machine.old).kept }
    ensures err { IfErr result IsOfCall }
{
    machine.send()?;
    let given = unless_refused(machine.give_out(count, out))?;
    Ok(given)
}
