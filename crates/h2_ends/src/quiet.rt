//! Whether an end is quiet.

ghost use Rattle.std.specs.Prelude.{◌≡◌, ◌≢◌, ◌↔◌, ℕ, true, false, None};
ghost use Rattle.h2_spec_log.specs.Acts.{Values};
ghost use Rattle.h2_spec_log.specs.CallRules.{reader_room};
ghost use Rattle.h2_spec_log.specs.Log.{Log, active, owed};
ghost use Rattle.h2_spec_log.specs.LogView.{log_view};
ghost use Rattle.h2_conn.specs.Conn.{ConnRepresents};
ghost use Rattle.h2_ends.specs.Ends.{EndLog};
ghost use Rattle.h2_ends.specs.EndCalls.{IsStuckOn};
ghost use Rattle.h2_ends.specs.Quiet.{IsQuietEnd, HasRoom};
ghost use Rattle.h2_ends.specs.Represents.{EndRepresents};

use crate::end::End;
use crate::outgoing::Outgoing;
use h2_conn::Conn;

impl End {
    // rule: 8.1 (own) An end is quiet where nothing waits, is owed or could be sent
    /// Returns whether the connection is up, no output waits, no credit is owed or to be
    /// returned, and nothing that waits of messages could be sent.
    pub(crate) fn is_quiet(&self) -> bool
        ensures { (values : Values) (end : EndLog) → EndRepresents values self.now end
            → (result ≡ true) ↔ IsQuietEnd end }
    {
        self.conn.failed().is_none()
            && self.conn.waiting() == 0
            && self.conn.due() == 0
            && !self.owes()
            && !self.could_send()
    }

    // rule: 8.1 (own) An end is quiet where nothing waits, is owed or could be sent
    /// Returns whether credit is owed on a stream.
    fn owes(&self) -> bool
        ensures some { (values : Values) (end : EndLog) → EndRepresents values self.now end
            → result ≡ true → (i : ℕ) × (owed end.log i ≢ 0) }
        ensures none { (values : Values) (end : EndLog) → EndRepresents values self.now end
            → end.log.failed ≡ None → result ≡ false → (i : ℕ) → owed end.log i ≡ 0 }
    {
        let mut last = self.spans.owing.first.saturating_sub(1);
        while let Some(id) = self.next_in(self.spans.owing, last) {
            if self.conn.owed(id) != 0 {
                return true;
            }
            last = id;
        }
        false
    }

    // rule: 8.1 (own) An end is quiet where nothing waits, is owed or could be sent
    /// Returns whether something that waits on a stream could be sent.
    fn could_send(&self) -> bool
        ensures some { (values : Values) (end : EndLog) → EndRepresents values self.now end
            → result ≡ true → (i : ℕ) × (IsStuckOn end i → ⊥) }
        ensures none { (values : Values) (end : EndLog) → EndRepresents values self.now end
            → end.log.failed ≡ None → result ≡ false → (i : ℕ) → IsStuckOn end i }
    {
        let mut last = self.spans.waiting.first.saturating_sub(1);
        while let Some(id) = self.next_in(self.spans.waiting, last) {
            if self.could_send_on(id) {
                return true;
            }
            last = id;
        }
        false
    }

    // rule: 8.1 (own) An end is quiet where nothing waits, is owed or could be sent
    /// Returns whether something that waits on this active stream could be sent.
    fn could_send_on(&self, id: u32) -> bool
        ensures some { (values : Values) (end : EndLog) → EndRepresents values self.now end
            → active end.log id ≡ true → result ≡ true → IsStuckOn end id → ⊥ }
        ensures none { (values : Values) (end : EndLog) → EndRepresents values self.now end
            → end.log.failed ≡ None → result ≡ false → IsStuckOn end id }
    {
        let Some(stream) = self.streams.get(id) else {
            return false;
        };
        let Outgoing::Waiting(waiting) = &stream.outgoing else {
            return false;
        };
        waiting.sent >= waiting.body.len() || has_room(&self.conn, 0) && has_room(&self.conn, id)
    }
}

/// Returns whether a window allows an octet: the connection's where `id` is 0, else the
/// stream's.
pub(crate) fn has_room(conn: &Conn, id: u32) -> bool
    ensures { (values : Values) (log : Log) → ConnRepresents values conn.now log
        → (result ≡ true) ↔ HasRoom (reader_room (log_view log) id) }
{
    match conn.room(id) {
        Some(room) => room > 0,
        None => false,
    }
}
