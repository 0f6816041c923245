//! How much the peer may still send.

ghost use Rattle.std.specs.Prelude.{◌≡◌};
ghost use Rattle.h2_spec_log.specs.Acts.{Values};
ghost use Rattle.h2_spec_log.specs.Log.{Log};
ghost use Rattle.h2_spec_log.specs.LogView.{log_view};
ghost use Rattle.h2_conn.specs.Conn.{ConnRepresents};
ghost use Rattle.h2_conn.specs.PeerRoom.{reader_peer_room};

use crate::conn::Conn;

impl Conn {
    /// Returns the receive window, that is, how many octets the peer may still send: the
    /// connection's where `id` is 0, else an active stream's, which may be negative after this
    /// end's SETTINGS have lowered it (section 6.9.2). `None` for other streams, and once the
    /// connection has failed.
    pub fn peer_room(&self, id: u32) -> Option<i64>
        ensures { (values : Values) (log : Log) → ConnRepresents values self.now log
            → result ≡ reader_peer_room (log_view log) id }
    {
        self.end.peer_room(id)
    }
}
