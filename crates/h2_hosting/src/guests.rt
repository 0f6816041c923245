//! Makes a host's connections, and writes its log.

use crate::guest::Guest;
use crate::journal::Journal;
use crate::window::Windows;
use h2_mio::Opens;
use h2_server::{Config, Connection, ConnectionLimits, Handler};
use std::alloc::Global;
use std::cell::Cell;
use std::io::{self, Write};
use std::net::SocketAddr;

/// Log lines are written in the middle of a round once this many octets wait.
const MOST_WAITING: usize = 65_536;

/// Makes the handler of each connection.
pub trait Makes<H> {
    /// Returns the handler for a new connection from this peer.
    fn make(&self, peer: SocketAddr) -> H;
}

/// Makes the connections of a host, each with its handler and limits.
#[derive(Drop)]
pub struct Guests<'a, M, W> {
    /// The allocator.
    pub alloc: Global,
    /// Makes the handlers.
    pub makes: M,
    /// The settings that each connection sends.
    pub config: Config,
    /// The limits of each connection.
    pub limits: ConnectionLimits,
    /// Whether all connections are to shut down.
    pub leaving: &'a Cell<bool>,
    /// The windows of all connections.
    pub windows: &'a Windows,
    /// The log lines of the handlers.
    pub journal: &'a Journal,
    /// Where the log is written.
    pub out: W,
}

impl<'a, H: Handler, M: Makes<H>, W: Write> Opens<Guest<'a, Connection<H>>> for Guests<'a, M, W> {
    fn open(
        &mut self,
        alloc: Global,
        now: u64,
        peer: SocketAddr,
    ) -> Option<Guest<'a, Connection<H>>> {
        let handler = self.makes.make(peer);
        // Out of memory: the peer may try again.
        let connection = Connection::new(alloc, self.config, self.limits, now, handler).ok()?;
        Guest::new(alloc, connection, self.leaving, self.windows).ok()
    }

    fn leave(&mut self) {
        self.leaving.set(true);
    }

    fn turned(&mut self, more: bool) -> io::Result<()> {
        let waiting = self.journal.waiting();
        if waiting == 0 || (more && waiting < MOST_WAITING) {
            return Ok(());
        }
        let lines = self.journal.take(self.alloc);
        self.out.write_all(&lines)?;
        self.out.flush()
    }
}
