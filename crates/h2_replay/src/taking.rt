//! Octets that an end receives.

ghost use Rattle.std.specs.Prelude.{map as each, ◌≡◌, ◌<◌, ◌≤◌, ◌++◌, length, take, IfOk, vec_len};
ghost use Rattle.h2_spec_log.specs.Acts.{In, Out, Happened};
ghost use Rattle.h2_replay.specs.Replay.{each_octet, all_by_octets, kept_by_octets};
ghost use Rattle.h2_replay.specs.Taking.{TakesCall, TakesPiece, ReplayTakesOctets, taken_events};
ghost use Rattle.h2_replay.specs.Taking.{next_of};
ghost use Rattle.h2_replay.specs.Taking.{IsWithinPiece};

use crate::events::copy_event;
use crate::turns::{Answer, Turn};
use crate::waiting::joined_output;
use h2_conn::{Conn, Event};
use h2_frame::Code;
use hpack::Field;
use std::alloc::{AllocError, Global};

/// The result of a call of `take`.
#[derive(Drop)]
pub(crate) struct Taking {
    /// The number of octets used.
    pub(crate) used: usize,
    /// What was reported.
    pub(crate) event: Option<Event<Vec<Field>, Vec<u8>>>,
    /// The code with which the connection has failed, if it has: then nothing was reported.
    pub(crate) fault: Option<Code>,
}

/// Calls `take` once.
///
/// # Errors
///
/// [`AllocError`] where an allocation was refused, and where 2<sup>64</sup> - 1 octets were
/// used, which no memory holds.
fn take_once(alloc: Global, conn: &mut Conn, piece: &[u8]) -> Result<Taking, AllocError>
    ensures used { IfOk result (λ taking. taking.used ≤ length piece.now) }
    ensures takes { IfOk result (λ taking. TakesCall conn.old piece.now taking conn.new) }
{
    let before = conn.place();
    let code = match conn.take(piece) {
        Ok(taken) => {
            let event = match taken.event {
                Some(event) => Some(copy_event(alloc, event)?),
                None => None,
            };
            return Ok(Taking {
                used: taken.used,
                event,
                fault: None,
            });
        }
        Err(fault) => fault.code,
    };
    let after = conn.place();
    if after == u64::MAX || after < before || after - before > piece.len() as u64 {
        return Err(AllocError);
    }
    Ok(Taking {
        used: (after - before) as usize,
        event: None,
        fault: Some(code),
    })
}

/// How a replay continues after a call of `take`: with the octets after the first ones, or not.
#[derive(Clone, Copy)]
pub(crate) enum Next {
    Again(usize),
    Done,
    Failed(Code),
}

// rule: replay (own) A replay keeps each act, its answer, its octets and its events
/// Keeps what a call of `take` made of a piece, with what has joined the output.
fn keep_taking(
    alloc: Global,
    turns: &mut Vec<Turn>,
    piece: &[u8],
    taking: Taking,
    joined: Vec<u8>,
) -> Result<Next, AllocError>
    requires { taking.used ≤ length piece.now }
    ensures next { IfOk result (λ next. next ≡ next_of taking (length piece.now)) }
    ensures longer { IfOk result (λ next. vec_len turns.old < vec_len turns.new) }
    ensures kept { IfOk result (λ next. kept_by_octets turns.new.items
        ≡ kept_by_octets turns.old.items ++ (each_octet In (take taking.used piece.now)
        ++ (each_octet Out joined.items
        ++ all_by_octets (each Happened (taken_events taking))))) }
{
    let Taking { used, event, fault } = taking;
    turns.push(Turn::In(Vec::from_slice(alloc, &piece[..used])?))?;
    turns.push(Turn::Out(joined))?;
    if let Some(code) = fault {
        return Ok(Next::Failed(code));
    }
    let Some(event) = event else {
        return Ok(if used < piece.len() {
            Next::Again(used)
        } else {
            Next::Done
        });
    };
    turns.push(Turn::Event(event))?;
    Ok(Next::Again(used))
}

/// Calls `take` once, and keeps what has happened.
fn take_piece(
    alloc: Global,
    conn: &mut Conn,
    piece: &[u8],
    turns: &mut Vec<Turn>,
) -> Result<Next, AllocError>
    ensures within { IfOk result (λ next. IsWithinPiece next (length piece.now)) }
    ensures longer { IfOk result (λ next. vec_len turns.old < vec_len turns.new) }
    ensures takes { IfOk result (λ next. TakesPiece conn.old piece.now turns.old.items next
        turns.new.items conn.new) }
{
    let waited = conn.waiting();
    let taking = take_once(alloc, conn, piece)?;
    let joined = joined_output(alloc, conn, waited, &[])?;
    let next = keep_taking(alloc, turns, piece, taking, joined)?;
    Ok(next)
}

// rule: replay (own) A replay keeps each act, its answer, its octets and its events
/// Calls `take` until the octets are used and nothing is reported, or the connection has failed,
/// and keeps what has happened.
///
/// # Errors
///
/// [`AllocError`] where an allocation was refused, and where 2<sup>64</sup> - 1 octets were
/// used, which no memory holds.
pub(crate) fn take_all(
    alloc: Global,
    conn: &mut Conn,
    octets: &[u8],
    turns: &mut Vec<Turn>,
) -> Result<Answer, AllocError>
    ensures { IfOk result (λ answer. ReplayTakesOctets conn.old octets.now turns.old.items answer
        turns.new.items conn.new) }
{
    let mut rest = octets;
    for _round in 0..u64::MAX {
        match take_piece(alloc, conn, rest, turns)? {
            Next::Again(used) => rest = &rest[used..],
            Next::Done => return Ok(Answer::Done),
            Next::Failed(code) => return Ok(Answer::Fault(code)),
        }
    }
    unreachable!()
}
