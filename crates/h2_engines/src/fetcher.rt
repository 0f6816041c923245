//! A client that fetches one response.

ghost use Rattle.std.specs.Prelude.{◌≡◌, ◌≤◌, ◌⊎◌, true, false, IfOk, IfErr, OnErr, OnOk};
ghost use Rattle.std.specs.Prelude.{Ok, Err, None, length};
ghost use Rattle.h2_flow.specs.ConfigValues.{values_of};
ghost use Rattle.h2_message.specs.Values.{message_value};
ghost use Rattle.h2_ends.specs.Loans.{event_handed};
ghost use Rattle.h2_engines.specs.Failures.{IsOfClient};
ghost use Rattle.h2_engines.specs.Fetches.{IsNotAccepted};
ghost use Rattle.h2_engines.specs.ClientSteps.{ClientHears, DropsStream, HasRequested};
ghost use Rattle.h2_engines.specs.ClientSteps.{IsFetchedOf, NotesPart};
ghost use Rattle.h2_engines.specs.Machines.{Fetching};
ghost use Rattle.h2_engines.specs.WithoutLink.{ClientPutsOut, ClientTakesIn};

use crate::errors::{error_of_refusal, unless_failed};
use crate::machine::{Heard, Machine, put_out, take_all};
use crate::request::Next;
use crate::room::no_link;
use crate::sending::{Credit, send_waiting, write_out};
use h2_conn::Conn;
use h2_ends::{Client, Code, Config, EndEvent, EndRefusal, Field, FieldList, Message, Refusal};
use h2_link::{Link, LinkError};
use std::alloc::{AllocError, Global};

/// A complete response.
#[derive(Debug, Drop)]
pub struct Fetched {
    /// The heads of the interim responses before it, in order (1xx; RFC 9113, section 8.1).
    pub interims: Vec<Vec<Field>>,
    /// Its head.
    pub head: Vec<Field>,
    /// The octets of its body.
    pub body: Vec<u8>,
    /// Its trailers, if it has any.
    pub trailers: Option<Vec<Field>>,
}

/// The part of a response that has come so far.
#[derive(Drop)]
pub(crate) struct Coming {
    pub(crate) interims: Vec<Vec<Field>>,
    pub(crate) head: Option<Vec<Field>>,
    pub(crate) body: Vec<u8>,
    pub(crate) trailers: Option<Vec<Field>>,
}

/// A client that makes one request and keeps the parts of the response that have come. It does no
/// input or output.
#[derive(Drop)]
pub struct Fetcher {
    pub(crate) alloc: Global,
    pub(crate) client: Client,
    /// The stream of the request.
    pub(crate) id: u32,
    pub(crate) coming: Coming,
    /// Whether the response is complete.
    pub(crate) whole: bool,
}

impl Coming {
    // rule: engines (own) A response that is fetched is the message handed out, whole
    /// Keeps a part of the response on a stream, and returns whether the response is complete.
    /// Memory is refused only for a part of a message.
    fn note(
        &mut self,
        alloc: Global,
        stream: u32,
        event: EndEvent<&FieldList, &[u8]>,
    ) -> Result<bool, AllocError>
        ensures notes { IfOk result (λ whole. NotesPart stream self.old self.new
            (event_handed event.entry) whole) }
        ensures err { OnErr result (DropsStream (event_handed event.entry) stream → ⊥) }
    {
        match event {
            EndEvent::Interim { id, list } if id == stream => {
                let list = list.to_vec(alloc)?;
                self.interims.push(list)?;
                Ok(false)
            }
            EndEvent::Head { id, list, end } if id == stream => {
                self.head = Some(list.to_vec(alloc)?);
                self.body.clear();
                Ok(end)
            }
            EndEvent::Body { id, bytes, end } if id == stream => {
                self.body.extend_from_slice(bytes)?;
                Ok(end)
            }
            EndEvent::Trailers { id, list } if id == stream => {
                self.trailers = Some(list.to_vec(alloc)?);
                Ok(true)
            }
            _ => Ok(false),
        }
    }
}

impl Fetcher {
    // rule: engines (own) A response that is fetched is the message handed out, whole
    // rule: engines (own) N7 comes only where the message breaks a rule or is too large
    /// Makes a client, and queues its connection preface (RFC 9113, section 3.4) and the head of
    /// the request.
    ///
    /// # Errors
    ///
    /// - [`LinkError::Memory`] (N3) where an allocation was refused.
    /// - [`LinkError::NoProgress`] (N5) where the client refuses the request for a reason other
    ///   than those of N3 and N7, which is not expected.
    /// - [`LinkError::Refused`] (N7) where the message breaks a rule, or its head or its
    ///   trailers are larger than 65,536 octets, with 32 counted for each field.
    pub fn new(alloc: Global, config: Config, message: Message) -> Result<Fetcher, LinkError>
        ensures ok { IfOk result (λ fetcher. HasRequested (values_of config)
            (message_value message) fetcher) }
        ensures unfinished { IfOk result (λ fetcher. fetcher.whole ≡ false) }
        ensures refused { IfErr result (λ error. IsNotAccepted (values_of config)
            (message_value message) (Err error)) }
        ensures err { IfErr result IsOfClient }
    {
        let Ok(mut client) = Client::new(alloc, config) else {
            return Err(LinkError::Memory);
        };
        match client.request(message) {
            Ok(id) => Ok(Fetcher {
                alloc,
                client,
                id,
                coming: Coming {
                    interims: Vec::new(alloc),
                    head: None,
                    body: Vec::new(alloc),
                    trailers: None,
                },
                whole: false,
            }),
            Err((_, EndRefusal::BadMessage(_))) => {
                drop(client);
                Err(LinkError::Refused)
            }
            Err((_, EndRefusal::Conn(Refusal::ListTooLarge))) => {
                drop(client);
                Err(LinkError::Refused)
            }
            Err((_, refusal)) => {
                drop(client);
                Err(error_of_refusal(refusal))
            }
        }
    }

    // rule: engines (own) A response that is fetched is the message handed out, whole
    /// Returns the response, once it is complete.
    ///
    /// # Errors
    ///
    /// [`LinkError::NoProgress`] (N5) where it isn't complete.
    pub fn into_fetched(self) -> Result<Fetched, LinkError>
        ensures ok { IfOk result (λ fetched. IsFetchedOf self.coming fetched) }
        ensures whole { OnOk result (self.whole ≡ true) }
        ensures none { OnErr result ((self.whole ≡ false) ⊎ (self.coming.head ≡ None)) }
        ensures err { IfErr result (λ error. error ≡ LinkError.NoProgress) }
    {
        let Fetcher {
            client,
            coming,
            whole,
            ..
        } = self;
        drop(client);
        if !whole {
            drop(coming);
            return Err(LinkError::NoProgress);
        }
        let Coming {
            interims,
            head,
            body,
            trailers,
        } = coming;
        match head {
            Some(head) => Ok(Fetched {
                interims,
                head,
                body,
                trailers,
            }),
            None => Err(LinkError::NoProgress),
        }
    }

    // rule: engines (own) Without a link a server answers whole requests, a client reads one
    /// Takes the octets of a piece up to the end of the response, and returns whether the
    /// response is complete. Takes none once it is.
    ///
    /// # Errors
    ///
    /// - [`LinkError::Stream`] (N2) where the connection failed, and its GOAWAY is queued.
    /// - [`LinkError::Memory`] (N3) where an allocation was refused.
    /// - [`LinkError::NoProgress`] (N5) after 2^64 - 1 rounds of a loop, which is not expected.
    /// - [`LinkError::Reset`] (N6) where either end reset the stream, or the server did not
    ///   process the request.
    pub fn take_in(&mut self, piece: &[u8]) -> Result<bool, LinkError>
        ensures takes { ClientTakesIn self.old self.new piece.now result }
        ensures whole { self.old.whole ≡ true → (result ≡ Ok true) × (self.new ≡ self.old) }
        ensures err { IfErr result IsOfClient }
    {
        if self.whole {
            return Ok(true);
        }
        let mut link = no_link(self.alloc);
        take_all(self, &mut link, false, piece)
    }

    // rule: engines (own) Without a link a server answers whole requests, a client reads one
    /// Queues WINDOW_UPDATE for all credit that is owed, and as much of the unsent request as the
    /// windows allow, but no more once 65,536 octets of output wait: the rest is left to the next
    /// call. Then appends at most `count` octets of the output to `out`, fewer only where no more
    /// wait. Returns how many were appended; call it until that is 0. Once the connection has
    /// failed, it still puts out what waits, GOAWAY last.
    ///
    /// # Errors
    ///
    /// [`LinkError::Memory`] (N3) where an allocation was refused; nothing is appended.
    pub fn put_out(&mut self, count: usize, out: &mut Vec<u8>) -> Result<usize, LinkError>
        ensures puts { ClientPutsOut self.old self.new count out.old.items out.new.items result }
        ensures err { IfErr result IsOfClient }
    {
        put_out(self, count, out)
    }
}

impl Machine for Fetcher {
    ghost held = { λ fetcher. record {
      end = fetcher.client.end;
      kept = Fetching fetcher.id fetcher.coming fetcher.whole;
    } };

    ghost serves = { false };

    fn alloc(&self) -> Global {
        self.alloc
    }

    fn conn(&self) -> &Conn {
        self.client.conn()
    }

    fn take(&mut self, piece: &[u8]) -> Result<Heard, LinkError> {
        let heard = hear(
            self.alloc,
            &mut self.client,
            self.id,
            &mut self.coming,
            piece,
        )?;
        if let Next::Whole = heard.next {
            self.whole = true;
            return Ok(heard);
        }
        Ok(heard)
    }

    fn act(&mut self, _due: Next) -> Result<(), LinkError> {
        Ok(())
    }

    fn send(&mut self) -> Result<(), LinkError> {
        send_waiting(&mut self.client, Credit::All)
    }

    fn give_out(&mut self, count: usize, out: &mut Vec<u8>) -> Result<usize, Refusal> {
        self.client.put_out(count, out)
    }

    fn write_all<L: Link>(&mut self, link: &mut L) -> Result<(), LinkError> {
        write_out(&mut self.client, link)
    }
}

// rule: engines (own) A response that is fetched is the message handed out, whole
// rule: engines (own) N6 has the code with which the request's stream was reset
/// Hands octets to `take` of a client once, and keeps the part of the response that is handed
/// out.
pub(crate) fn hear(
    alloc: Global,
    client: &mut Client,
    stream: u32,
    coming: &mut Coming,
    piece: &[u8],
) -> Result<Heard, LinkError>
    ensures hears { ClientHears client.old.end client.new.end stream coming.old coming.new
        piece.now result }
    ensures within { IfOk result (λ heard. heard.used ≤ length piece.now) }
    ensures err { IfErr result IsOfClient }
{
    let taken = unless_failed(client.take(piece))?;
    let used = taken.used;
    match taken.event {
        None if used < piece.len() => Ok(Heard {
            used,
            next: Next::Again,
        }),
        None => Ok(Heard {
            used,
            next: Next::Done,
        }),
        Some(EndEvent::Reset { id, code, .. }) if id == stream => Err(LinkError::Reset(code)),
        Some(EndEvent::Unprocessed { id }) if id == stream => {
            Err(LinkError::Reset(Code::RefusedStream.number()))
        }
        Some(event) => {
            let is_whole = coming.note(alloc, stream, event)?;
            let next = if is_whole { Next::Whole } else { Next::Again };
            Ok(Heard { used, next })
        }
    }
}
