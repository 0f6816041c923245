//! What an end sends over a link: credit, what waits of messages, and its output.

ghost use Rattle.std.specs.Prelude.{◌≡◌, ◌<◌, ◌-◌, ◌^◌, [], IfErr, Ok, drop, length, true};
ghost use Rattle.std.specs.Io.KnownBytes.{Appends};
ghost use Rattle.h2_conn.specs.Conn.{octets_queued};
ghost use Rattle.h2_link.specs.Links.{StallsAtNoProgress, Takes, WritesAll, failures_after};
ghost use Rattle.h2_engines.specs.Failures.{EndsWriting, IsOfCall, failures_at_end};
ghost use Rattle.h2_engines.specs.Linked.{traffic};
ghost use Rattle.h2_engines.specs.Sending.{ReturnsCredit, SendsWaiting, WritesOver};
ghost use Rattle.h2_engines.specs.ServerSteps.{PumpsSome};

use crate::errors::unless_refused;
use h2_conn::Conn;
use h2_ends::{EndAs, EndRefusal, Refusal};
use h2_link::{Link, LinkError, LinkFault};
use std::io::IoSlice;

/// Which credit is returned before a read.
#[derive(Clone, Copy, Debug)]
pub enum Credit {
    /// All that is owed.
    All,
    /// What is owed on this stream.
    On(u32),
    /// None: it is kept for a later read.
    Kept,
}

// rule: engines (own) Over a link credit is returned and what could be sent is sent
/// Returns credit (RFC 9113, section 6.9) and sends what waits of messages, as the windows allow.
/// If 65,536 octets of output or more wait, credit is left to a later call. An end whose
/// connection has failed sends nothing.
///
/// # Errors
///
/// [`LinkError::Memory`] (N3), and no other error, where an allocation was refused.
pub fn send_waiting<R>(end: &mut EndAs<R>, credit: Credit) -> Result<(), LinkError>
    ensures sends { SendsWaiting credit end.old.end end.new.end result }
    ensures err { IfErr result IsOfCall }
{
    if end.conn().failed().is_some() {
        return Ok(());
    }
    let released = return_credit(end, credit);
    match released {
        Ok(()) | Err(EndRefusal::Conn(Refusal::OutputFull)) => pump(end),
        _ => unless_refused(released),
    }
}

// rule: engines (own) A response that is waited for has its window, and no other
/// Returns all credit that is owed, that of one stream, or none.
fn return_credit<R>(end: &mut EndAs<R>, credit: Credit) -> Result<(), EndRefusal>
    ensures { ReturnsCredit credit end.old.end end.new.end result }
{
    match credit {
        Credit::Kept => Ok(()),
        Credit::All => end.release_all(),
        Credit::On(id) => {
            let owed = end.conn().owed(id);
            if owed == 0 {
                return Ok(());
            }
            end.release(id, owed)?;
            Ok(())
        }
    }
}

/// Sends what waits of messages, as windows allow.
fn pump<R>(end: &mut EndAs<R>) -> Result<(), LinkError>
    ensures pumps { PumpsSome end.old.end end.new.end result }
    ensures err { IfErr result IsOfCall }
{
    unless_refused(end.pump())?;
    Ok(())
}

// contract: engines (own) Over a link input is used in order and all output is written
/// Writes all output that waits, in order, from where it lies. Output that was not written when a
/// write fails is lost.
///
/// # Errors
///
/// - [`LinkError::Device`] (N1) where a write failed.
/// - [`LinkError::Memory`] (N3) where an allocation was refused.
/// - [`LinkError::NoProgress`] (N5) where a write took no octet, or 2^64 - 1 rounds were made.
pub fn write_out<R, L: Link>(end: &mut EndAs<R>, link: &mut L) -> Result<(), LinkError>
    requires { L.faults link.old < 2 ^ 64 - 1 }
    ensures writes { WritesOver
        (traffic (L.given link.old) (L.taken link.old) (L.stalled link.old))
        (traffic (L.given link.new) (L.taken link.new) (L.stalled link.new))
        end.old.end end.new.end result }
    ensures failures { L.faults link.new ≡ failures_at_end (L.faults link.old) result }
    ensures err { IfErr result EndsWriting }
{
    for _ in 0..u64::MAX {
        unless_refused(end.ready())?;
        if end.conn().waiting() == 0 {
            return Ok(());
        }
        let written = write_waiting(link, end.conn());
        let consumed = end.consume(usize::MAX);
        written?;
        unless_refused(consumed)?;
    }
    Err(LinkError::NoProgress)
}

// rule: engines (own) Over a link input is used in order and all output is written
/// Writes to a link all queued output of a connection, in order. It copies no octets: they may lie
/// in several parts ([`Conn::waiting_from`]), and each call of the link gets up to four of these,
/// until all are written. The octets stay queued: the caller removes them ([`Conn::consume`]).
///
/// # Errors
///
/// Some of the octets, from the first on, may have been written.
///
/// - [`LinkError::Device`] (N1) where a call of the link failed.
/// - [`LinkError::NoProgress`] (N5) where a call took no octet.
pub fn write_waiting<L: Link>(link: &mut L, conn: &Conn) -> Result<(), LinkError>
    requires { L.faults link.old < 2 ^ 64 - 1 }
    ensures writes { WritesAll (L.taken link.old) (L.taken link.new) (L.faults link.old)
        (L.faults link.new) result (octets_queued conn.now) }
    ensures gives_none { Appends (L.given link.old) (L.given link.new) [] }
    ensures stalled { StallsAtNoProgress result (L.stalled link.new) }
{
    let waiting = conn.waiting();
    let mut written = 0usize;
    for _ in 0..waiting {
        if written == waiting {
            break;
        }
        let count = write_from(link, conn, written)?;
        if count == 0 {
            return Err(LinkError::NoProgress);
        }
        written += count;
    }
    Ok(())
}

/// Writes octets that wait, from the place `at`, where some do, in up to four parts. Returns
/// how many were written.
fn write_from<L: Link>(link: &mut L, conn: &Conn, at: usize) -> Result<usize, LinkFault>
    requires failures { L.faults link.old < 2 ^ 64 - 1 }
    requires fits { length (octets_queued conn.now) < 2 ^ 64 }
    requires some { at < length (octets_queued conn.now) }
    ensures takes { Takes (L.taken link.old) (L.taken link.new) result
        (drop at (octets_queued conn.now)) }
    ensures gives_none { Appends (L.given link.old) (L.given link.new) [] }
    ensures ended { L.ended link.new ≡ L.ended link.old }
    ensures failures { L.faults link.new ≡ failures_after (L.faults link.old) result }
    ensures stalled { result ≡ Ok 0 → L.stalled link.new ≡ true }
{
    let first = conn.waiting_from(at);
    let past_first = at + first.len();
    // Mostly the output lies in one part.
    if past_first == conn.waiting() {
        return link.write(first);
    }
    let second = conn.waiting_from(past_first);
    let past_second = past_first + second.len();
    let third = conn.waiting_from(past_second);
    let past_third = past_second + third.len();
    let fourth = conn.waiting_from(past_third);
    link.write_parts(&[
        IoSlice::new(first),
        IoSlice::new(second),
        IoSlice::new(third),
        IoSlice::new(fourth),
    ])
}
