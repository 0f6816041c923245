//! A client that keeps its connection over a link, and returns each response part by part.

ghost use Rattle.std.specs.Prelude.{◌≡◌, ◌≢◌, ◌≤◌, ◌<◌, ◌-◌, ◌^◌, IfErr, IfOk, length};
ghost use Rattle.h2_flow.specs.ConfigValues.{values_of};
ghost use Rattle.h2_spec_log.specs.Acts.{Done};
ghost use Rattle.h2_conn.specs.Conn.{answer_by};
ghost use Rattle.h2_ends.specs.Represents.{HandsBack};
ghost use Rattle.h2_message.specs.Values.{message_value};
ghost use Rattle.h2_engines.specs.Failures.{CutsOffAtEnd, IsOfClient, failures_at_end};
ghost use Rattle.h2_engines.specs.Linked.{traffic};

use crate::coming::{CameNext, take_came, without_empty};
use crate::errors::unless_over;
use crate::kept::{Queue, keep, take_kept};
use crate::part::ResponsePart;
use crate::reading::{credit_before, read_piece};
use crate::sending::end_early;
use h2_ends::{Client, Code, Config, Conn, EndRefusal, Message, Refusal};
use h2_engines::Credit;
use h2_link::{Link, LinkError};
use h2_numbers::NumberMap;
use std::alloc::Global;

/// What came on a stream.
#[derive(Debug, Drop)]
pub enum Came {
    /// The next part of the response.
    Part(ResponsePart),
    /// The stream was reset with this code, by either end (RFC 9113, section 6.4). The code is
    /// REFUSED_STREAM also where a GOAWAY says that the server did not process the request
    /// (section 6.8). No more comes on the stream.
    Dropped(u32),
}

/// A client that makes requests over a link, as many and whenever the caller wants, all on one
/// connection, and returns each response part by part, for the stream that the caller asks for.
/// What comes on other streams meanwhile is kept until it is asked for. What is kept of a body is
/// at most the stream's window, since credit is returned only on the stream that is asked for.
/// Interim responses and empty parts of a body that don't end it are dropped, since no window
/// bounds them. Once the last part of a response was returned, or [`Came::Dropped`], nothing is
/// kept of its request. Ask for each response to its end, or give it up
/// ([`ClientConnection::give_up`]): what is kept of it takes memory and the connection's window.
/// From its first read on a client also keeps a buffer of 131,072 octets.
///
/// The connection's window is 65,535 octets plus what [`ClientConnection::widen`] adds, and bodies
/// that are kept use it up. So with `n` requests at a time give [`Config::new`] an initial window
/// of at most an `n`th of the connection's: otherwise what is kept may use up all of that window,
/// and nothing more comes.
#[derive(Drop)]
pub struct ClientConnection {
    pub(crate) alloc: Global,
    pub(crate) client: Client,
    /// What came on each stream and was not asked for yet, in order.
    pub(crate) kept: NumberMap<Queue>,
    /// The buffer for reads; none before the first one.
    pub(crate) buffer: Vec<u8>,
    /// How many octets of it were read last.
    pub(crate) filled: usize,
    /// How many of them were used.
    pub(crate) used: usize,
    pub(crate) ghost within: { used ≤ filled },
    pub(crate) ghost fits: { filled ≤ length buffer.items },
}

impl ClientConnection {
    ghost use Rattle.h2_fetch.specs.GivingUp.{GivesUpOn};
    ghost use Rattle.h2_fetch.specs.Several.{AnswersNextOn, BeginsConnection, MakesRequest};
    ghost use Rattle.h2_fetch.specs.SeveralComings.{FillsSeveral, TakesUntilCame, WaitsFor};
    ghost use Rattle.h2_fetch.specs.Widening.{WidensSeveral};

    // contract: engines (own) Responses of several requests are what is handed out, each in order
    // rule: engines (own) Responses of several requests are what is handed out, each in order
    /// Creates a client, and queues its connection preface (RFC 9113, section 3.4).
    ///
    /// # Errors
    ///
    /// [`LinkError::Memory`] (N3) where an allocation was refused.
    pub fn new(alloc: Global, config: Config) -> Result<ClientConnection, LinkError>
        ensures ok { IfOk result (BeginsConnection (values_of config)) }
        ensures err { IfErr result (λ error. error ≡ LinkError.Memory) }
    {
        let Ok(client) = Client::new(alloc, config) else {
            return Err(LinkError::Memory);
        };
        Ok(ClientConnection {
            alloc,
            client,
            kept: NumberMap::new(alloc),
            buffer: Vec::new(alloc),
            filled: 0,
            used: 0,
        })
    }

    // contract: engines (own) Responses of several requests are what is handed out, each in order
    // rule: engines (own) Responses of several requests are what is handed out, each in order
    /// Makes a request, before or after others, and returns its stream. Its head is queued; its
    /// body and trailers are kept, and sent as the windows allow. All of it is written by the next
    /// [`ClientConnection::next_on`] that has to read the link. Before the server's SETTINGS are
    /// known, at most 100 requests are accepted.
    ///
    /// After N1 to N5 make a new connection: a request may be accepted then, but is never sent.
    ///
    /// # Errors
    ///
    /// Those of [`Client::request`]: the message is handed back, and the other requests go on.
    /// After [`Refusal::TooManyStreams`] (C4) and [`Refusal::OutputFull`] (C7) ask for parts of
    /// responses, and try again; after [`Refusal::StreamsExhausted`] (C5) and
    /// [`Refusal::GoingAway`] (C6, one end has sent GOAWAY) make a new connection.
    pub fn request(&mut self, message: Message) -> Result<u32, (Message, EndRefusal)>
        ensures requests { MakesRequest (message_value message) result self.old self.new }
        ensures back { HandsBack (message_value message) result }
    {
        self.client.request(message)
    }

    /// Returns the connection, to query its state, such as why it has failed ([`Conn::why`]).
    /// The call takes no memory.
    pub fn conn(&self) -> &Conn
        ensures { result.now ≡ self.now.client.end.conn }
    {
        self.client.conn()
    }

    // contract: 6.9.2 (own) The window of the connection is widened by a call, for good
    /// Lets the server send `count` octets more on the connection, for good: see [`Conn::widen`].
    /// If it is called before [`ClientConnection::next_on`], its WINDOW_UPDATE is sent with the
    /// requests.
    ///
    /// # Errors
    ///
    /// The first that holds of [`Refusal::Closed`] (C1), [`Refusal::OutputFull`] (C7),
    /// [`Refusal::WindowTooLarge`] (C14) and [`Refusal::Memory`] (C12). A refused call changes
    /// nothing.
    pub fn widen(&mut self, count: u32) -> Result<(), Refusal>
        ensures { WidensSeveral count (answer_by (λ done. Done) result) self.old self.new }
    {
        self.client.widen(count)
    }

    // contract: engines (own) Responses of several requests are what is handed out, each in order
    // rule: engines (own) Responses of several requests are what is handed out, each in order
    /// Gives up the response on a stream: resets the stream with CANCEL (RFC 9113, section 7) if it
    /// is active, and drops what is kept of it. RST_STREAM is written by the next
    /// [`ClientConnection::next_on`] that has to read the link. Do not call that for this stream
    /// then: nothing more comes there.
    ///
    /// # Errors
    ///
    /// The first that holds of [`Refusal::Closed`] (C1), [`Refusal::OutputFull`] (C7),
    /// [`Refusal::TooManyResets`] (C9) and [`Refusal::Memory`] (C12). A refused call changes
    /// nothing.
    pub fn give_up(&mut self, id: u32) -> Result<(), Refusal>
        ensures { GivesUpOn id result self.old self.new }
    {
        match unless_over(self.client.reset(id, Code::Cancel.number())) {
            Ok(()) => {
                self.kept.remove(id);
                Ok(())
            }
            Err(refusal) => Err(refusal),
        }
    }

    // contract: engines (own) Responses of several requests are what is handed out, each in order
    // rule: engines (own) Responses of several requests are what is handed out, each in order
    /// Returns what came next on the stream of a request. Until something has come on it, returns
    /// the credit that is owed on that stream, sends what can go of all requests, writes what
    /// waits, and reads the link. After a read that returned 131,072 octets, it returns credit only
    /// if that is due, as [`crate::PartFetch`] says.
    ///
    /// Don't call it for a stream after the part that ends its response, or after
    /// [`Came::Dropped`]: nothing more comes there, and it waits. Don't call it at all after N3 or
    /// N5, nor with a link that has failed.
    ///
    /// # Errors
    ///
    /// Those of [`crate::PartFetch::next`] except N6, since a reset is [`Came::Dropped`]. What is
    /// kept can still be asked for after N2 and N4.
    pub fn next_on<L: Link>(&mut self, id: u32, link: &mut L) -> Result<Came, LinkError>
        requires { L.faults link.old < 2 ^ 64 - 1 }
        ensures next { AnswersNextOn
            (traffic (L.given link.old) (L.taken link.old) (L.stalled link.old))
            (traffic (L.given link.new) (L.taken link.new) (L.stalled link.new))
            self.old self.new id result }
        ensures cut_off { CutsOffAtEnd result (L.ended link.new) }
        ensures failures { L.faults link.new ≡ failures_at_end (L.faults link.old) result }
    {
        match take_kept(&mut self.kept, id) {
            Some(came) => Ok(came),
            None => self.wait_for(id, link),
        }
    }

    // rule: engines (own) Responses of several requests are what is handed out, each in order
    /// Returns the next on a stream of which nothing is kept.
    fn wait_for<L: Link>(&mut self, id: u32, link: &mut L) -> Result<Came, LinkError>
        requires { L.faults link.old < 2 ^ 64 - 1 }
        ensures waits { WaitsFor
            (traffic (L.given link.old) (L.taken link.old) (L.stalled link.old))
            (traffic (L.given link.new) (L.taken link.new) (L.stalled link.new))
            self.old self.new id result }
        ensures cut_off { CutsOffAtEnd result (L.ended link.new) }
        ensures failures { L.faults link.new ≡ failures_at_end (L.faults link.old) result }
    {
        for _ in 0..u64::MAX {
            match self.take_next(id) {
                Ok(Some(came)) => return Ok(came),
                Ok(None) => self.refill(id, link)?,
                Err(error) => return Err(end_early(&mut self.client, link, error)),
            }
        }
        Err(LinkError::NoProgress)
    }

    // rule: engines (own) Responses of several requests are what is handed out, each in order
    /// Takes what was read until something came on a stream, or all is used. Keeps what came on
    /// the others.
    fn take_next(&mut self, id: u32) -> Result<Option<Came>, LinkError>
        ensures takes { TakesUntilCame self.old self.new id result }
        ensures err { IfErr result IsOfClient }
        ensures goes { IfErr result (λ error. error ≢ LinkError.CutOff) }
    {
        for _ in 0..u64::MAX {
            let piece = &self.buffer[self.used..self.filled];
            let taken = take_came(self.alloc, &mut self.client, piece)?;
            self.used += taken.used;
            match without_empty(taken.next) {
                CameNext::On(stream, came) => {
                    if stream == id {
                        return Ok(Some(came));
                    }
                    keep(self.alloc, &mut self.kept, stream, came)?;
                }
                CameNext::Again => {}
                CameNext::Done => return Ok(None),
            }
        }
        Err(LinkError::NoProgress)
    }

    /// Returns the credit that is owed on a stream, sends what can go, and reads a piece.
    fn refill<L: Link>(&mut self, id: u32, link: &mut L) -> Result<(), LinkError>
        requires { L.faults link.old < 2 ^ 64 - 1 }
        ensures fills { FillsSeveral
            (traffic (L.given link.old) (L.taken link.old) (L.stalled link.old))
            (traffic (L.given link.new) (L.taken link.new) (L.stalled link.new))
            self.old self.new id result }
        ensures cut_off { CutsOffAtEnd result (L.ended link.new) }
        ensures failures { L.faults link.new ≡ failures_at_end (L.faults link.old) result }
        ensures kept { self.new.kept ≡ self.old.kept }
    {
        let last = self.filled;
        let credit = credit_before(self.client.conn(), id, last, Credit::On(id));
        self.used = 0;
        self.filled = 0; // nothing is left of it if the read fails
        self.filled = read_piece(&mut self.client, credit, &mut self.buffer, link)?;
        Ok(())
    }
}
