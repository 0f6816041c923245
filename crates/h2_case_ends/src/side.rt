//! A client or a server: each call is that of the one it is.

use h2_ends::{
    Client, Code, Config, Conn, ConnFault, EndRefusal, EndTaken, Field, Malformed, Message,
    Refusal, Server,
};
use h2_spec_log::Role;
use std::alloc::Global;

/// One of the two.
pub(crate) enum Side {
    Client(Client),
    Server(Server),
}

impl Drop for Side {
    /// It is dropped by a call, so that its drop is proved once.
    fn drop(self) {
        match self {
            Side::Client(client) => drop(client),
            Side::Server(server) => drop(server),
        }
    }
}

// A new client.
fn new_client(alloc: Global, config: Config) -> Option<Side> {
    match Client::new(alloc, config) {
        Ok(client) => Some(Side::Client(client)),
        Err(_) => None,
    }
}

// A new server.
fn new_server(alloc: Global, config: Config) -> Option<Side> {
    match Server::new(alloc, config) {
        Ok(server) => Some(Side::Server(server)),
        Err(_) => None,
    }
}

/// What a message is answered with.
type Given<T> = Result<T, (Message, EndRefusal)>;

impl Side {
    /// A client or a server; nothing where memory was refused.
    pub(crate) fn new(alloc: Global, role: Role, config: Config) -> Option<Side> {
        match role {
            Role::Client => new_client(alloc, config),
            Role::Server => new_server(alloc, config),
        }
    }

    pub(crate) fn is_server(&self) -> bool {
        matches!(self, Side::Server(_))
    }

    pub(crate) fn conn(&self) -> &Conn {
        match self {
            Side::Client(client) => client.conn(),
            Side::Server(server) => server.conn(),
        }
    }

    /// Gives a request. A server has no such call.
    pub(crate) fn request(&mut self, message: Message) -> Given<u32> {
        match self {
            Side::Client(client) => client.request(message),
            Side::Server(_) => Err((message, EndRefusal::NotAsked)),
        }
    }

    /// Gives a response. A client has no such call.
    pub(crate) fn respond(&mut self, id: u32, message: Message) -> Given<()> {
        match self {
            Side::Client(_) => Err((message, EndRefusal::NotAsked)),
            Side::Server(server) => server.respond(id, message),
        }
    }

    /// Begins a request. A server has no such call.
    pub(crate) fn begin_request(&mut self, head: &[Field]) -> Result<u32, EndRefusal> {
        match self {
            Side::Client(client) => client.begin(head),
            Side::Server(_) => Err(EndRefusal::NotAsked),
        }
    }

    /// Begins a response. A client has no such call.
    pub(crate) fn begin_response(&mut self, id: u32, head: &[Field]) -> Result<(), EndRefusal> {
        match self {
            Side::Client(_) => Err(EndRefusal::NotAsked),
            Side::Server(server) => server.begin(id, head),
        }
    }

    pub(crate) fn send_body(
        &mut self,
        id: u32,
        octets: &[u8],
        ends: bool,
    ) -> Result<usize, EndRefusal> {
        match self {
            Side::Client(client) => client.send_body(id, octets, ends),
            Side::Server(server) => server.send_body(id, octets, ends),
        }
    }

    pub(crate) fn send_trailers(&mut self, id: u32, trailers: &[Field]) -> Result<(), EndRefusal> {
        match self {
            Side::Client(client) => client.send_trailers(id, trailers),
            Side::Server(server) => server.send_trailers(id, trailers),
        }
    }

    pub(crate) fn take<'a>(&'a mut self, piece: &'a [u8]) -> Result<EndTaken<'a>, ConnFault> {
        match self {
            Side::Client(client) => client.take(piece),
            Side::Server(server) => server.take(piece),
        }
    }

    pub(crate) fn is_quiet(&self) -> bool {
        match self {
            Side::Client(client) => client.is_quiet(),
            Side::Server(server) => server.is_quiet(),
        }
    }

    pub(crate) fn pump(&mut self) -> Result<usize, EndRefusal> {
        match self {
            Side::Client(client) => client.pump(),
            Side::Server(server) => server.pump(),
        }
    }

    pub(crate) fn pump_some(&mut self, most: usize) -> Result<usize, EndRefusal> {
        match self {
            Side::Client(client) => client.pump_some(most),
            Side::Server(server) => server.pump_some(most),
        }
    }

    pub(crate) fn unsent(&self, id: u32) -> usize {
        match self {
            Side::Client(client) => client.unsent(id),
            Side::Server(server) => server.unsent(id),
        }
    }

    pub(crate) fn release_all(&mut self) -> Result<(), EndRefusal> {
        match self {
            Side::Client(client) => client.release_all(),
            Side::Server(server) => server.release_all(),
        }
    }

    pub(crate) fn reset(&mut self, id: u32, code: u32) -> Result<(), Refusal> {
        match self {
            Side::Client(client) => client.reset(id, code),
            Side::Server(server) => server.reset(id, code),
        }
    }

    pub(crate) fn ping(&mut self, octets: [u8; 8]) -> Result<(), Refusal> {
        match self {
            Side::Client(client) => client.ping(octets),
            Side::Server(server) => server.ping(octets),
        }
    }

    pub(crate) fn release(&mut self, id: u32, count: u32) -> Result<(), Refusal> {
        match self {
            Side::Client(client) => client.release(id, count),
            Side::Server(server) => server.release(id, count),
        }
    }

    pub(crate) fn is_full(&self) -> bool {
        match self {
            Side::Client(client) => client.is_full(),
            Side::Server(server) => server.is_full(),
        }
    }

    pub(crate) fn is_drained(&self) -> bool {
        match self {
            Side::Client(client) => client.is_drained(),
            Side::Server(server) => server.is_drained(),
        }
    }

    pub(crate) fn go_away(&mut self) -> Result<(), Refusal> {
        match self {
            Side::Client(client) => client.go_away(),
            Side::Server(server) => server.go_away(),
        }
    }

    pub(crate) fn fail(&mut self, code: Code) -> Result<(), Refusal> {
        match self {
            Side::Client(client) => client.fail(code),
            Side::Server(server) => server.fail(code),
        }
    }

    pub(crate) fn last_malformed(&self) -> Option<(u32, Malformed)> {
        match self {
            Side::Client(client) => client.last_malformed(),
            Side::Server(server) => server.last_malformed(),
        }
    }

    pub(crate) fn last_flow(&self) -> u32 {
        match self {
            Side::Client(client) => client.last_flow(),
            Side::Server(server) => server.last_flow(),
        }
    }

    pub(crate) fn change_settings(&mut self, config: Config) -> Result<(), Refusal> {
        match self {
            Side::Client(client) => client.change_settings(config),
            Side::Server(server) => server.change_settings(config),
        }
    }

    pub(crate) fn put_out(&mut self, count: usize, out: &mut Vec<u8>) -> Result<usize, Refusal> {
        match self {
            Side::Client(client) => client.put_out(count, out),
            Side::Server(server) => server.put_out(count, out),
        }
    }
    // Copies what waits from where it lies, and takes it away.
    pub(crate) fn consume_all(&mut self, out: &mut Vec<u8>) -> Result<usize, Refusal> {
        match self {
            Side::Client(client) => {
                client.ready()?;
                append(out, client.conn())?;
                client.consume(usize::MAX)
            }
            Side::Server(server) => {
                server.ready()?;
                append(out, server.conn())?;
                server.consume(usize::MAX)
            }
        }
    }
}

// Appends the output that waits.
fn append(out: &mut Vec<u8>, conn: &Conn) -> Result<(), Refusal> {
    if conn.append_waiting(0, out).is_err() {
        return Err(Refusal::Memory);
    }
    Ok(())
}
