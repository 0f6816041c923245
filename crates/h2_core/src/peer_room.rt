//! How much the peer may still send.

ghost use Rattle.std.specs.Prelude.{◌≡◌};
ghost use Rattle.h2_core.specs.Endpoint.{end_of};
ghost use Rattle.h2_core.specs.PeerRoom.{peer_room_of};

use crate::endpoint::Endpoint;

impl Endpoint {
    // contract: calls (own) An end answers of its state, and of little once it has failed
    // rule: calls (own) An end answers of its state, and of little once it has failed
    /// Returns the receive window in octets: the connection's where `id` is 0, else an active
    /// stream's, which may be negative after this end's SETTINGS have lowered it. `None` for
    /// other streams, and once the connection has failed. It takes no memory.
    pub fn peer_room(&self, id: u32) -> Option<i64>
        ensures { result ≡ peer_room_of (end_of self.now) id }
    {
        if self.failed.is_some() {
            return None;
        }
        if id == 0 {
            return Some(i64::from(self.recv_window));
        }
        let stream = self.streams.stream(id)?;
        Some(stream.recv_window)
    }
}
