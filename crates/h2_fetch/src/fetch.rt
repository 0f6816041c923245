//! Fetching a response over a link, part by part.

ghost use Rattle.std.specs.Prelude.{◌≡◌, ◌≢◌, ◌≤◌, ◌<◌, ◌-◌, ◌^◌, [], Err, IfErr, IfOk, length};
ghost use Rattle.std.specs.Io.KnownBytes.{Appends};
ghost use Rattle.h2_flow.specs.ConfigValues.{values_of};
ghost use Rattle.h2_spec_log.specs.Acts.{Done};
ghost use Rattle.h2_conn.specs.Conn.{answer_by};
ghost use Rattle.h2_message.specs.Values.{message_value};
ghost use Rattle.h2_engines.specs.Failures.{CutsOffAtEnd, IsOfClient, failures_at_end, failures_by};
ghost use Rattle.h2_engines.specs.Fetches.{IsNotAccepted};
ghost use Rattle.h2_engines.specs.Linked.{traffic};
ghost use Rattle.h2_fetch.specs.Takes.{TakesPartOnce, part_in};

use crate::part::{ResponsePart, part_of};
use crate::reading::{credit_before, read_piece};
use crate::sending::end_early;
use h2_ends::{Client, Code, Config, Conn, EndEvent, EndRefusal, Message, Refusal};
use h2_engines::{Credit, error_of_refusal, unless_failed};
use h2_link::{Link, LinkError};
use std::alloc::Global;

/// A client that makes one request over a link and returns its response part by part. From its
/// first read on it keeps a buffer of 131,072 octets for a piece of the input. It returns credit
/// to the server just before it reads the next piece: all that is owed, unless the last read
/// returned 131,072 octets. After such a read it returns credit only if that is due by one of the
/// two windows, the stream's or the connection's. It is due by a window if the octets that are
/// owed on the stream are at least as many as the server may still send within that window, or if
/// these two numbers add up to less than 65,535.
#[derive(Drop)]
pub struct PartFetch {
    pub(crate) alloc: Global,
    pub(crate) client: Client,
    /// The stream of the request.
    pub(crate) id: u32,
    /// The buffer for reads; none before the first one.
    pub(crate) buffer: Vec<u8>,
    /// How many octets of it were read last.
    pub(crate) filled: usize,
    /// How many of them were used.
    pub(crate) used: usize,
    pub(crate) ghost within: { used ≤ filled },
    pub(crate) ghost fits: { filled ≤ length buffer.items },
}

/// The result of handing a piece to a client.
#[derive(Drop)]
pub(crate) struct PartTaken {
    /// How many octets were used.
    pub(crate) used: usize,
    /// What was received with them.
    pub(crate) next: PartNext,
}

/// What a client received with octets.
#[derive(Drop)]
pub(crate) enum PartNext {
    /// This part of the response.
    Part(ResponsePart),
    /// Nothing of the response, and octets may be left.
    Again,
    /// Nothing of the response, and no octets are left.
    Done,
}

impl PartFetch {
    ghost use Rattle.h2_fetch.specs.Comings.{AnswersNext, BeginsFetch, EndsSo, Refills};
    ghost use Rattle.h2_fetch.specs.Comings.{TakesUntilPart};
    ghost use Rattle.h2_fetch.specs.Widening.{WidensFetch};

    // rule: engines (own) N7 comes only where the message breaks a rule or is too large
    /// Makes a client, and queues its connection preface (RFC 9113, section 3.4) and the head of
    /// the request.
    ///
    /// # Errors
    ///
    /// - [`LinkError::Memory`] (N3) where an allocation was refused.
    /// - [`LinkError::Refused`] (N7) where the message breaks a rule, or its head or its
    ///   trailers are larger than 65,536 octets, with 32 counted for each field.
    pub fn new(alloc: Global, config: Config, message: Message) -> Result<PartFetch, LinkError>
        ensures ok { IfOk result (BeginsFetch (values_of config) (message_value message)) }
        ensures refused { IfErr result (λ error. IsNotAccepted (values_of config)
            (message_value message) (Err error)) }
        ensures err { IfErr result IsOfClient }
    {
        let Ok(mut client) = Client::new(alloc, config) else {
            return Err(LinkError::Memory);
        };
        match client.request(message) {
            Ok(id) => Ok(PartFetch {
                alloc,
                client,
                id,
                buffer: Vec::new(alloc),
                filled: 0,
                used: 0,
            }),
            Err((_, EndRefusal::BadMessage(_))) => {
                drop(client);
                Err(LinkError::Refused)
            }
            Err((_, EndRefusal::Conn(Refusal::ListTooLarge))) => {
                drop(client);
                Err(LinkError::Refused)
            }
            Err((_, refusal)) => {
                drop(client);
                Err(error_of_refusal(refusal))
            }
        }
    }

    /// Returns the connection, to query its state, such as why it has failed ([`Conn::why`]).
    /// The call takes no memory.
    pub fn conn(&self) -> &Conn
        ensures { result.now ≡ self.now.client.end.conn }
    {
        self.client.conn()
    }

    // contract: 6.9.2 (own) The window of the connection is widened by a call, for good
    /// Lets the server send `count` octets more on the connection, for good: see [`Conn::widen`].
    /// If it is called before [`PartFetch::next`], its WINDOW_UPDATE is sent with the request.
    ///
    /// # Errors
    ///
    /// The first that holds of [`Refusal::Closed`] (C1), [`Refusal::OutputFull`] (C7),
    /// [`Refusal::WindowTooLarge`] (C14) and [`Refusal::Memory`] (C12). A refused call changes
    /// nothing.
    pub fn widen(&mut self, count: u32) -> Result<(), Refusal>
        ensures widens { WidensFetch count (answer_by (λ done. Done) result) self.old self.new }
        ensures stream { self.new.id ≡ self.old.id }
    {
        self.client.widen(count)
    }

    // contract: engines (own) A response in parts is what is handed out, in order
    // rule: engines (own) A response in parts is what is handed out, in order
    /// Returns the next part of the response. Until it has come, returns credit as [`PartFetch`]
    /// says, writes what waits, and reads the link. Don't call it after the part that ends the
    /// response, after N3, N5 or N6, nor with a link that has failed.
    ///
    /// # Errors
    ///
    /// All parts before the error were returned, except that with N3 one of them may be lost.
    ///
    /// - [`LinkError::Device`] (N1) where the link failed.
    /// - [`LinkError::Stream`] (N2) where the connection failed, once its GOAWAY was written.
    /// - [`LinkError::Memory`] (N3) where an allocation was refused.
    /// - [`LinkError::CutOff`] (N4) where the input ended before the response was complete.
    /// - [`LinkError::NoProgress`] (N5) where a write took nothing, or 2^64 - 1 rounds were made.
    /// - [`LinkError::Reset`] (N6) where either end reset the stream, or the server did not
    ///   process the request.
    pub fn next<L: Link>(&mut self, link: &mut L) -> Result<ResponsePart, LinkError>
        requires { L.faults link.old < 2 ^ 64 - 1 }
        ensures next { AnswersNext
            (traffic (L.given link.old) (L.taken link.old) (L.stalled link.old))
            (traffic (L.given link.new) (L.taken link.new) (L.stalled link.new))
            self.old self.new result }
        ensures cut_off { CutsOffAtEnd result (L.ended link.new) }
        ensures failures { L.faults link.new ≡ failures_at_end (L.faults link.old) result }
        ensures stream { self.new.id ≡ self.old.id }
    {
        for _ in 0..u64::MAX {
            match self.take_next() {
                Ok(Some(part)) => return Ok(part),
                Ok(None) => self.refill(link)?,
                Err(error) => return Err(self.end_early(link, error)),
            }
        }
        Err(LinkError::NoProgress)
    }

    /// Takes what was read until a part of the response is handed out, or all is used.
    fn take_next(&mut self) -> Result<Option<ResponsePart>, LinkError>
        ensures takes { TakesUntilPart self.old self.new result }
        ensures stream { self.new.id ≡ self.old.id }
        ensures err { IfErr result IsOfClient }
        ensures goes { IfErr result (λ error. error ≢ LinkError.CutOff) }
    {
        for _ in 0..u64::MAX {
            let piece = &self.buffer[self.used..self.filled];
            let taken = take_part(self.alloc, &mut self.client, self.id, piece)?;
            self.used += taken.used;
            match taken.next {
                PartNext::Part(part) => return Ok(Some(part)),
                PartNext::Done => return Ok(None),
                PartNext::Again => {}
            }
        }
        Err(LinkError::NoProgress)
    }

    /// Sends what can go, and reads a piece.
    fn refill<L: Link>(&mut self, link: &mut L) -> Result<(), LinkError>
        requires { L.faults link.old < 2 ^ 64 - 1 }
        ensures refills { Refills
            (traffic (L.given link.old) (L.taken link.old) (L.stalled link.old))
            (traffic (L.given link.new) (L.taken link.new) (L.stalled link.new))
            self.old self.new result }
        ensures cut_off { CutsOffAtEnd result (L.ended link.new) }
        ensures failures { L.faults link.new ≡ failures_at_end (L.faults link.old) result }
        ensures stream { self.new.id ≡ self.old.id }
    {
        let last = self.filled;
        let credit = credit_before(self.client.conn(), self.id, last, Credit::All);
        self.used = 0;
        self.filled = 0; // nothing is left of it if the read fails
        self.filled = read_piece(&mut self.client, credit, &mut self.buffer, link)?;
        Ok(())
    }

    /// Ends a fetch with this error. Where the connection has failed, writes what waits first.
    fn end_early<L: Link>(&mut self, link: &mut L, error: LinkError) -> LinkError
        requires fits { L.faults link.old < 2 ^ 64 - 1 }
        requires is { IsOfClient error }
        requires goes { error ≢ LinkError.CutOff }
        ensures ends { EndsSo
            (traffic (L.given link.old) (L.taken link.old) (L.stalled link.old))
            (traffic (L.given link.new) (L.taken link.new) (L.stalled link.new))
            self.old self.new error result }
        ensures failures { L.faults link.new ≡ failures_by (L.faults link.old) result }
        ensures stream { self.new.id ≡ self.old.id }
        ensures goes { result ≢ LinkError.CutOff }
    {
        end_early(&mut self.client, link, error)
    }
}

// rule: engines (own) A response in parts is what is handed out, in order
// rule: engines (own) N6 has the code with which the request's stream was reset
/// Hands octets to `take` once, and returns the part of the response that is handed out.
fn take_part(
    alloc: Global,
    client: &mut Client,
    stream: u32,
    piece: &[u8],
) -> Result<PartTaken, LinkError>
    ensures takes { TakesPartOnce client.old.end client.new.end stream piece.now result }
    ensures within { IfOk result (λ taken. taken.used ≤ length piece.now) }
    ensures err { IfErr result IsOfClient }
    ensures goes { IfErr result (λ error. error ≢ LinkError.CutOff) }
{
    let taken = unless_failed(client.take(piece))?;
    let used = taken.used;
    match taken.event {
        None if used < piece.len() => Ok(PartTaken {
            used,
            next: PartNext::Again,
        }),
        None => Ok(PartTaken {
            used,
            next: PartNext::Done,
        }),
        Some(EndEvent::Reset { id, code, .. }) if id == stream => Err(LinkError::Reset(code)),
        Some(EndEvent::Unprocessed { id }) if id == stream => {
            Err(LinkError::Reset(Code::RefusedStream.number()))
        }
        Some(event) => {
            let part = part_of(alloc, stream, event)?;
            let next = next_of(part);
            Ok(PartTaken { used, next })
        }
    }
}

/// Returns what was received with an event: this part of the response, or nothing.
fn next_of(part: Option<ResponsePart>) -> PartNext
    ensures part { part_in result ≡ part }
    ensures more { result ≢ PartNext.Done }
{
    match part {
        Some(part) => PartNext::Part(part),
        None => PartNext::Again,
    }
}
