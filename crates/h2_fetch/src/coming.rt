//! What a client received of its responses.

ghost use Rattle.std.specs.Prelude.{◌≡◌, ◌≢◌, ◌≤◌, IfErr, IfOk, Some, length};
ghost use Rattle.h2_ends.specs.Loans.{event_handed};
ghost use Rattle.h2_engines.specs.Failures.{IsOfClient};
ghost use Rattle.h2_fetch.specs.SeveralTakes.{HandsCame, TakesCameOnce, stream_of_handed};
ghost use Rattle.h2_fetch.specs.SeveralTakes.{says_nothing, without_empty};

use crate::connection::Came;
use crate::part::{ResponsePart, part_of};
use h2_ends::{Client, Code, EndEvent, FieldList};
use h2_engines::unless_failed;
use h2_link::LinkError;
use std::alloc::{AllocError, Global};

/// The result of handing a piece to a client.
#[derive(Drop)]
pub(crate) struct CameTaken {
    /// How many octets were used.
    pub(crate) used: usize,
    /// What was received with them.
    pub(crate) next: CameNext,
}

/// What a client received with octets.
#[derive(Drop)]
pub(crate) enum CameNext {
    /// This, on this stream.
    On(u32, Came),
    /// Nothing, and octets may be left.
    Again,
    /// Nothing, and no octets are left.
    Done,
}

// rule: engines (own) Responses of several requests are what is handed out, each in order
/// Hands octets to `take` once, and returns what came on a stream.
pub(crate) fn take_came(
    alloc: Global,
    client: &mut Client,
    piece: &[u8],
) -> Result<CameTaken, LinkError>
    ensures takes { TakesCameOnce client.old.end client.new.end piece.now result }
    ensures within { IfOk result (λ taken. taken.used ≤ length piece.now) }
    ensures err { IfErr result IsOfClient }
    ensures goes { IfErr result (λ error. error ≢ LinkError.CutOff) }
{
    let taken = unless_failed(client.take(piece))?;
    let used = taken.used;
    match taken.event {
        None if used < piece.len() => Ok(CameTaken {
            used,
            next: CameNext::Again,
        }),
        None => Ok(CameTaken {
            used,
            next: CameNext::Done,
        }),
        Some(event) => {
            let next = came_of(alloc, event)?;
            Ok(CameTaken { used, next })
        }
    }
}

/// Replaces what says nothing by [`CameNext::Again`].
pub(crate) fn without_empty(next: CameNext) -> CameNext
    ensures { result ≡ without_empty next }
{
    if says_nothing(&next) {
        return CameNext::Again;
    }
    next
}

/// Returns whether this is an interim response, or an empty part of a body that doesn't end it.
/// No window bounds how many of these come.
fn says_nothing(next: &CameNext) -> bool
    ensures { result ≡ says_nothing next.now }
{
    match next {
        CameNext::On(_, Came::Part(ResponsePart::Interim { .. })) => true,
        CameNext::On(_, Came::Part(ResponsePart::Body { octets, end: false })) => octets.is_empty(),
        _ => false,
    }
}

// rule: engines (own) Responses of several requests are what is handed out, each in order
/// Returns what an event says of a stream.
fn came_of(alloc: Global, event: EndEvent<&FieldList, &[u8]>) -> Result<CameNext, AllocError>
    ensures hands { IfOk result (HandsCame (Some (event_handed event.entry))) }
    ensures more { IfOk result (λ next. next ≢ CameNext.Done) }
{
    let Some(id) = stream_of_handed(event) else {
        return Ok(CameNext::Again);
    };
    match event {
        EndEvent::Reset { code, .. } => Ok(CameNext::On(id, Came::Dropped(code))),
        EndEvent::Unprocessed { .. } => {
            Ok(CameNext::On(id, Came::Dropped(Code::RefusedStream.number())))
        }
        event => match part_of(alloc, id, event)? {
            Some(part) => Ok(CameNext::On(id, Came::Part(part))),
            None => Ok(CameNext::Again),
        },
    }
}

/// Returns the stream of an event that has a part of a final response, or after which no more
/// comes on the stream.
fn stream_of_handed(event: EndEvent<&FieldList, &[u8]>) -> Option<u32>
    ensures { result ≡ stream_of_handed (event_handed event.entry) }
{
    match event {
        EndEvent::Head { id, .. } => Some(id),
        EndEvent::Body { id, .. } => Some(id),
        EndEvent::Trailers { id, .. } => Some(id),
        EndEvent::Reset { id, .. } => Some(id),
        EndEvent::Unprocessed { id } => Some(id),
        _ => None,
    }
}
