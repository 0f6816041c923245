//! A client and a server: one end of a connection under two names.

ghost use Rattle.std.specs.Prelude.{◌≡◌, IfOk, IfErr};
ghost use Rattle.h2_flow.specs.ConfigValues.{values_of};
ghost use Rattle.h2_spec_log.specs.declared.role.Role.TheVariants as roles;
ghost use Rattle.h2_message.specs.Values.{message_value};
ghost use Rattle.h2_ends.specs.Represents.{EndBegins, EndBeginsAnswer, EndRepresents};
ghost use Rattle.h2_ends.specs.Represents.{EndRequests, EndResponds, new_end_log};

use crate::end::End;
use crate::refusal::EndRefusal;
use h2_conn::{Config, Refusal};
use h2_message::{Field, Message};
use h2_spec_log::Role;
use std::alloc::Global;
use std::fmt;
use std::marker::PhantomData;

/// The role of a [`Client`].
pub struct ClientRole;

/// The role of a [`Server`].
pub struct ServerRole;

/// One end of a connection, in the role `R`: a [`Client`] or a [`Server`]. It does no input or
/// output.
#[derive(Drop)]
pub struct EndAs<R> {
    pub(crate) end: End,
    of: PhantomData<R>,
}

/// A client: sends requests and receives their responses, without input or output.
pub type Client = EndAs<ClientRole>;

/// A server: receives requests and sends their responses, without input or output.
pub type Server = EndAs<ServerRole>;

impl EndAs<ClientRole> {
    // contract: 8.1 (own) A new client or server is that end of a connection
    /// Returns a client whose opening is queued: the preface and SETTINGS (RFC 9113, section
    /// 3.4).
    ///
    /// # Errors
    ///
    /// [`EndRefusal::Conn`] (E2) with [`Refusal::Memory`] (C12) where an allocation was
    /// refused.
    pub fn new(alloc: Global, config: Config) -> Result<Client, EndRefusal>
        ensures ok { IfOk result (λ client. EndRepresents (values_of config) client.end
            (new_end_log roles.Client (values_of config))) }
        ensures err { IfErr result (λ refusal. refusal ≡ EndRefusal.Conn Refusal.Memory) }
    {
        let end = End::new(alloc, Role::Client, config)?;
        Ok(EndAs {
            end,
            of: PhantomData,
        })
    }

    // contract: 8.1 (own) A request is refused for a rule, or as its head is, or sent
    // contract: 8.1 (own) A request that is refused is handed back, and nothing has changed
    /// Sends the head of a request on a new stream, and keeps its body and trailers for
    /// [`Client::pump`]. Returns the stream's number: 1, 3, 5 and so on.
    ///
    /// # Errors
    ///
    /// The message is handed back, and nothing has changed. E1 is checked first.
    ///
    /// - [`EndRefusal::BadMessage`] (E1) with the first of M1 to M8, M10 and M11 that it
    ///   breaks.
    /// - [`EndRefusal::Conn`] (E2) with the first of [`Refusal::Closed`] (C1),
    ///   [`Refusal::TooManyStreams`] (C4), [`Refusal::StreamsExhausted`] (C5),
    ///   [`Refusal::GoingAway`] (C6), [`Refusal::OutputFull`] (C7), [`Refusal::ListTooLarge`]
    ///   (C10, for the trailers too) and [`Refusal::Memory`] (C12).
    pub fn request(&mut self, message: Message) -> Result<u32, (Message, EndRefusal)>
        ensures { EndRequests self.old.end (message_value message) result self.new.end }
    {
        self.end.request(message)
    }

    // contract: 8.1 (own) A part of a message is sent where one was begun, and is checked
    /// Begins a request on a new stream: sends its head without END_STREAM, and returns the
    /// stream's number. [`Client::send_body`] sends the body and may end the request;
    /// [`Client::send_trailers`] ends it with trailers; [`Client::reset`] gives it up. Use
    /// [`Client::request`] for a request that has neither body nor trailers.
    ///
    /// # Errors
    ///
    /// Nothing has changed. E1 is checked first.
    ///
    /// - [`EndRefusal::BadMessage`] (E1) with the first of M1 to M8 and M10 that the head
    ///   breaks, else with M11 where a `content-length` is not a number of 1 to 19 digits, or two
    ///   differ.
    /// - [`EndRefusal::Conn`] (E2) with the first of [`Refusal::Closed`] (C1),
    ///   [`Refusal::TooManyStreams`] (C4), [`Refusal::StreamsExhausted`] (C5),
    ///   [`Refusal::GoingAway`] (C6), [`Refusal::OutputFull`] (C7), [`Refusal::ListTooLarge`]
    ///   (C10) and [`Refusal::Memory`] (C12).
    pub fn begin(&mut self, head: &[Field]) -> Result<u32, EndRefusal>
        ensures { EndBegins self.old.end head.now result self.new.end }
    {
        self.end.begin(head)
    }
}

impl EndAs<ServerRole> {
    // contract: 8.1 (own) A new client or server is that end of a connection
    /// Returns a server whose opening is queued: SETTINGS (RFC 9113, section 3.4).
    ///
    /// # Errors
    ///
    /// [`EndRefusal::Conn`] (E2) with [`Refusal::Memory`] (C12) where an allocation was
    /// refused.
    pub fn new(alloc: Global, config: Config) -> Result<Server, EndRefusal>
        ensures ok { IfOk result (λ server. EndRepresents (values_of config) server.end
            (new_end_log roles.Server (values_of config))) }
        ensures err { IfErr result (λ refusal. refusal ≡ EndRefusal.Conn Refusal.Memory) }
    {
        let end = End::new(alloc, Role::Server, config)?;
        Ok(EndAs {
            end,
            of: PhantomData,
        })
    }

    // contract: 8.1 (own) A response is sent only to a request, and is checked
    // contract: 8.1 (own) A second response to a request is refused
    // contract: 8.1 A response may come before its request is whole
    /// Sends the head of a response on the stream of its request, and keeps its body and
    /// trailers for [`Server::pump`]. The request need not be complete.
    ///
    /// # Errors
    ///
    /// The message is handed back, and nothing has changed. E3 is checked first, then E4, then
    /// E1.
    ///
    /// - [`EndRefusal::BadMessage`] (E1) with the first of M1 to M6 and M9 to M11 that it
    ///   breaks.
    /// - [`EndRefusal::Conn`] (E2) with the first of [`Refusal::Closed`] (C1),
    ///   [`Refusal::OutputFull`] (C7), [`Refusal::ListTooLarge`] (C10, for the trailers too)
    ///   and [`Refusal::Memory`] (C12).
    /// - [`EndRefusal::NotAsked`] (E3) where the stream isn't active, or no request on it was
    ///   handed out.
    /// - [`EndRefusal::Answered`] (E4) where the stream has its response, or one was begun.
    pub fn respond(&mut self, id: u32, message: Message) -> Result<(), (Message, EndRefusal)>
        ensures { EndResponds self.old.end id (message_value message) result self.new.end }
    {
        self.end.respond(id, message)
    }

    // contract: 8.1 (own) A part of a message is sent where one was begun, and is checked
    // contract: 8.1 (own) A second response to a request is refused
    /// Begins a response on the stream of its request: sends its head without END_STREAM. The
    /// request need not be complete. [`Server::send_body`] sends the body and may end the
    /// response; [`Server::send_trailers`] ends it with trailers; [`Server::reset`] gives it up.
    /// Use [`Server::respond`] for a response that has neither body nor trailers.
    ///
    /// # Errors
    ///
    /// Nothing has changed. E3 is checked first, then E4, then E1.
    ///
    /// - [`EndRefusal::BadMessage`] (E1) with the first of M1 to M6, M9 and M10 that the head
    ///   breaks, else with M11 where a `content-length` is not a number of 1 to 19 digits, or two
    ///   differ.
    /// - [`EndRefusal::Conn`] (E2) with the first of [`Refusal::Closed`] (C1),
    ///   [`Refusal::OutputFull`] (C7), [`Refusal::ListTooLarge`] (C10) and [`Refusal::Memory`]
    ///   (C12).
    /// - [`EndRefusal::NotAsked`] (E3) where the stream isn't active, or no request on it was
    ///   handed out.
    /// - [`EndRefusal::Answered`] (E4) where the stream has its response, or one was begun.
    pub fn begin(&mut self, id: u32, head: &[Field]) -> Result<(), EndRefusal>
        ensures { EndBeginsAnswer self.old.end id head.now result self.new.end }
    {
        self.end.begin_answer(id, head)
    }
}

impl<R> fmt::Debug for EndAs<R> {
    fn fmt<W: fmt::Write>(&self, f: &mut fmt::Formatter<W>) -> fmt::Result {
        let name = match self.end.role {
            Role::Client => "Client",
            Role::Server => "Server",
        };
        f.debug_struct(name).field("conn", &self.end.conn).finish()
    }
}
