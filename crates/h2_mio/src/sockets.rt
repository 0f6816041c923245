//! The sockets of a host, by the places of its connections.

ghost use Rattle.std.specs.Prelude.{◌≡◌, false, None, Some, [], IfOk, OnErr, option_map};
ghost use Rattle.std.specs.Option.{option_copied_mut};
ghost use Rattle.h2_mio.specs.SocketPlaces.{KeepsOtherSockets, socket_of_token};

use h2_host::Token;
use std::alloc::{AllocError, Global};

/// A socket.
#[derive(Drop)]
pub(crate) struct Socket<S> {
    /// The generation of its connection's token.
    pub(crate) generation: u32,
    /// The socket.
    pub(crate) stream: S,
    /// Whether its peer is known to have ended its side.
    pub(crate) hung_up: bool,
}

/// The sockets, each at the place of its connection.
#[derive(Drop)]
pub(crate) struct Sockets<S> {
    slots: Vec<Option<Socket<S>>>,
}

impl<S: Drop> Sockets<S> {
    /// Creates an empty table.
    pub(crate) fn new(alloc: Global) -> Sockets<S>
        ensures { result.slots.items ≡ [] }
    {
        Sockets {
            slots: Vec::new(alloc),
        }
    }

    /// Stores the socket of a connection, in place of the one that had its place before.
    ///
    /// # Errors
    ///
    /// [`AllocError`] if an allocation was refused, or the place is not the next that a host
    /// gives: nothing is stored.
    pub(crate) fn put(&mut self, token: Token, stream: S) -> Result<(), AllocError>
        ensures kept { IfOk result (λ done. socket_of_token self.new.slots.items token
            ≡ Some (record { generation = token.generation; stream = stream; hung_up = false })) }
        ensures others { KeepsOtherSockets self.old.slots.items self.new.slots.items token }
        ensures err { OnErr result (self.new.slots.items ≡ self.old.slots.items) }
    {
        let socket = Some(Socket {
            generation: token.generation,
            stream,
            hung_up: false,
        });
        let place = token.place as usize;
        if place == self.slots.len() {
            self.slots.push(socket)?;
            return Ok(());
        }
        let Some(slot) = self.slots.get_mut(place) else {
            return Err(AllocError);
        };
        *slot = socket;
        Ok(())
    }

    // contract: hosts (own) An old token names no socket
    // rule: hosts (own) An old token names no socket
    /// The socket of a connection; none if the token is stale.
    pub(crate) fn get_mut(&mut self, token: Token) -> Option<&mut Socket<S>>
        ensures { option_copied_mut result ≡ socket_of_token self.old.slots.items token }
    {
        match self.slots.get_mut(token.place as usize) {
            Some(Some(socket)) if socket.generation == token.generation => Some(socket),
            _ => None,
        }
    }

    /// Removes and returns the socket of a connection; none if the token is stale.
    pub(crate) fn take(&mut self, token: Token) -> Option<S>
        ensures taken { result
            ≡ option_map (λ one. one.stream) (socket_of_token self.old.slots.items token) }
        ensures left { socket_of_token self.new.slots.items token ≡ None }
        ensures others { KeepsOtherSockets self.old.slots.items self.new.slots.items token }
    {
        let slot = self.slots.get_mut(token.place as usize)?;
        match slot {
            Some(socket) if socket.generation == token.generation => {}
            _ => return None,
        }
        let socket = slot.take()?;
        Some(socket.stream)
    }
}
