//! The endpoint that takes an input: a client or a server.

ghost use Rattle.std.specs.Prelude.{◌≡◌, IfOk, IfErr, length};
ghost use Rattle.h2_conn.specs.Counts.{last_flow};
ghost use Rattle.h2_conn.specs.Why.{IsWhy};
ghost use Rattle.h2_ends.specs.Ends.{EndLog};
ghost use Rattle.h2_ends.specs.Represents.{new_end_log};
ghost use Rattle.h2_events.specs.Replayer.{first_values};
ghost use Rattle.h2_messages.specs.Taking.{HandsOut, HandsWithin, MessageEndRepresents, inner_end};

use crate::handing::{Handing, client_hands, server_hands};
use crate::rules::RefusedPart;
use h2_cli::Failure;
use h2_conn::Role;
use h2_ends::{Client, Config, Refusal, Server, Why};
use std::alloc::Global;
use std::io::{self, Write};

/// A client or a server. Until the input ends, only `take` is called.
#[derive(Drop)]
pub(crate) enum MessageEnd {
    /// A client.
    Client(Client),
    /// A server.
    Server(Server),
}

impl MessageEnd {
    // rule: messages (own) The status is 0 only where a client or a server took it all
    /// Creates an endpoint with the default settings.
    ///
    /// # Errors
    ///
    /// [`Failure::Memory`] if out of memory.
    pub(crate) fn new(alloc: Global, role: Role) -> Result<MessageEnd, Failure>
        ensures ok { IfOk result
            (λ one. MessageEndRepresents one (new_end_log role first_values)) }
        ensures err { IfErr result (λ failure. failure ≡ Failure.Memory) }
    {
        let config = Config::default();
        match role {
            Role::Client => match Client::new(alloc, config) {
                Ok(client) => Ok(MessageEnd::Client(client)),
                Err(_) => Err(Failure::Memory),
            },
            Role::Server => match Server::new(alloc, config) {
                Ok(server) => Ok(MessageEnd::Server(server)),
                Err(_) => Err(Failure::Memory),
            },
        }
    }

    // rule: messages (own) Each call of take has its lines, until the input is used
    /// Calls `take` once.
    ///
    /// # Errors
    ///
    /// Those of the writer.
    pub(crate) fn hand_out<W: Write>(&mut self, piece: &[u8], out: &mut W) -> io::Result<Handing>
        ensures within { IfOk result (λ handing. HandsWithin handing (length piece.now)) }
        ensures hands { IfOk result (λ handing. HandsOut (inner_end self.old) piece.now handing
            (inner_end self.new) (W.contents out.old) (W.contents out.new)) }
    {
        match self {
            MessageEnd::Client(client) => client_hands(client, piece, out),
            MessageEnd::Server(server) => server_hands(server, piece, out),
        }
    }

    /// The part refused last, and the rule that it breaks.
    pub(crate) fn last_malformed(&self) -> Option<RefusedPart>
        ensures { (end : EndLog) → MessageEndRepresents self.now end → result ≡ end.malformed }
    {
        match self {
            MessageEnd::Client(client) => client.last_malformed(),
            MessageEnd::Server(server) => server.last_malformed(),
        }
    }

    /// The payload length of the last DATA frame.
    pub(crate) fn last_flow(&self) -> u32
        ensures { (end : EndLog) → MessageEndRepresents self.now end
            → result ≡ last_flow end.log.frames }
    {
        match self {
            MessageEnd::Client(client) => client.last_flow(),
            MessageEnd::Server(server) => server.last_flow(),
        }
    }

    /// Why the connection failed, if it did.
    pub(crate) fn why(&self) -> Option<Why>
        ensures { (end : EndLog) → MessageEndRepresents self.now end
            → IsWhy first_values end.log result }
    {
        match self {
            MessageEnd::Client(client) => client.conn().why(),
            MessageEnd::Server(server) => server.conn().why(),
        }
    }

    /// Moves up to `count` octets of the output to the end of `out`.
    ///
    /// # Errors
    ///
    /// [`Refusal::Memory`] if out of memory.
    pub(crate) fn put_out(&mut self, count: usize, out: &mut Vec<u8>) -> Result<usize, Refusal> {
        match self {
            MessageEnd::Client(client) => client.put_out(count, out),
            MessageEnd::Server(server) => server.put_out(count, out),
        }
    }
}
