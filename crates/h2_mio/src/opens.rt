//! Makes the connections of a host.

use std::alloc::Global;
use std::io;
use std::net::SocketAddr;

/// Makes the connections of a host. Its calls do not block.
pub trait Opens<P> {
    /// Returns the connection for an accepted peer, or `None` to refuse it, as when out of
    /// memory. `now` is the host's time in milliseconds.
    fn open(&mut self, alloc: Global, now: u64, peer: SocketAddr) -> Option<P>;

    /// Called once, when no more connections are accepted: all must begin a graceful shutdown at
    /// the next [`Own::Passed`](h2_host::Own::Passed).
    fn leave(&mut self);

    /// Called after each turn with `more` true, and before the sockets are waited for with
    /// `more` false.
    ///
    /// # Errors
    ///
    /// On an error the host ends with it.
    fn turned(&mut self, more: bool) -> io::Result<()>;
}
