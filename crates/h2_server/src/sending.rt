//! What a server with its exchanges sends in one call.

ghost use Rattle.std.specs.Prelude.{◌≡◌, ◌≢◌, ◌<◌, ◌-◌, ℕ, [], IfSome, None, OnOk, false, length};
ghost use Rattle.std.specs.Prelude.{option_map, true};
ghost use Rattle.h2_spec_log.specs.Acts.{Values};
ghost use Rattle.h2_spec_log.specs.Limits.{full_output};
ghost use Rattle.h2_spec_log.specs.Log.{Log, waiting};
ghost use Rattle.h2_conn.specs.Conn.{ConnRepresents};
ghost use Rattle.h2_ends.specs.declared.end.End.{End};
ghost use Rattle.h2_server.specs.Activity.{IsAnswering, has_answer_at};
ghost use Rattle.h2_server.specs.Credit.{HandlesCredit, HandlesCreditOn, is_credit_due_in_all};
ghost use Rattle.h2_server.specs.Credit.{unused_at};
ghost use Rattle.h2_server.specs.Exchanges.{IsEmptied, awake, exchange_at, handling_of};
ghost use Rattle.h2_server.specs.Exchanges.{is_part_due_at};
ghost use Rattle.h2_server.specs.Sending.{HasNothing, IsAskedFor, NoneCanAsk, asked_on};
ghost use Rattle.h2_server.specs.Sending.{nat_part, window_part, windows_allow};
ghost use Rattle.h2_server.specs.Steps.{Handles};

use crate::exchange::Stage;
use crate::exchanges::{Exchanges, NO_STREAM};
use crate::giving::Given;
use crate::handler::Handler;
use crate::parts::{Sent, send_part};
use crate::stop::{Stop, stop_of, unless_end_full, unless_full};
use h2_ends::Server;
use h2_flow::is_credit_due;
use h2_frame::limits::FULL_OUTPUT;

/// The octets sent of each complete body in one call.
const SHARE: usize = 16_384;

impl<H: Handler> Exchanges<H> {
    // rule (tested): handlers (own) Whole bodies have their share before a part is asked for
    // contract: 8.1 (own) The stream of a refused request is reset with NO_ERROR after the answer
    /// Queues what can be sent, in this order: credit; the responses that waited because the
    /// output was full; up to 16,384 octets of each complete body; one part of one response, for
    /// which it asks the handler; RST_STREAM with NO_ERROR for refused requests that are
    /// incomplete and whose response is in the output; and, if `waits` is true, credit for what
    /// the handler has used since. Complete bodies go before the part: otherwise parts could fill
    /// the output and use up the connection's window in each call, and complete bodies would never
    /// be sent.
    ///
    /// `room` is scratch space for the part, of which at most the first 65,536 octets are used. If
    /// it is empty, the handler is asked for no part.
    ///
    /// If `waits` is true (the next read may wait for input), credit is returned for all that the
    /// handler has used, unless 65,536 octets or more of output wait. If it is false, credit is
    /// returned only if the used octets whose credit is still to be returned are at least as many
    /// as the client may still send on the connection, or if both together are fewer than 65,535.
    ///
    /// # Errors
    ///
    /// [`Stop`] says why the connection cannot go on.
    pub(crate) fn send_some(
        &mut self,
        server: &mut Server,
        room: &mut [u8],
        waits: bool,
    ) -> Result<(), Stop>
        ensures handles { Handles H.Handler [] server.old.end (handling_of self.old)
            server.new.end (handling_of self.new) }
        ensures returned { waits ≡ true → OnOk result (HandlesCredit H.Handler server.old.end
            (handling_of self.old) server.new.end (handling_of self.new)) }
        ensures room { length room.new ≡ length room.old }
    {
        if server.conn().failed().is_some() {
            return Err(Stop::Failed);
        }
        self.return_credit(server, waits)?;
        self.give_waiting(server)?;
        self.pump(server)?;
        self.ask(server, room)?;
        self.settle(server)?;
        if waits {
            return self.release(server); // the handler may have used more when it was asked
        }
        Ok(())
    }

    // rule: 6.9 (own) Credit is returned by half of a window
    /// Returns credit for what the handler has used, if the next read may wait or the credit is
    /// due.
    fn return_credit(&mut self, server: &mut Server, waits: bool) -> Result<(), Stop>
        ensures { Handles H.Handler [] server.old.end (handling_of self.old)
            server.new.end (handling_of self.new) }
    {
        if waits || self.is_credit_due(server) {
            return self.release(server);
        }
        Ok(())
    }

    // rule: 6.9 (own) Credit is returned by half of a window
    /// Whether credit for what the handler has used is due, by what the client may still send on
    /// the connection.
    fn is_credit_due(&self, server: &Server) -> bool
        ensures { (values : Values) (log : Log) → ConnRepresents values server.now.end.conn log
            → result ≡ is_credit_due_in_all log self.now.totals.unused }
    {
        let conn = server.conn();
        match conn.peer_room(0) {
            Some(left) => {
                let granted = conn.granted().saturating_sub(conn.due());
                let used = used_of(granted, left, self.totals.unused);
                is_credit_due(i64::from(used), left)
            }
            None => false,
        }
    }

    // rule: 6.9 (own) Before a read that may wait credit is returned for all that is used
    /// Returns the credit for all that is owed, except what the handler has not used, unless
    /// the output is full.
    fn release(&mut self, server: &mut Server) -> Result<(), Stop>
        ensures handles { Handles H.Handler [] server.old.end (handling_of self.old)
            server.new.end (handling_of self.new) }
        ensures returned { OnOk result (HandlesCredit H.Handler server.old.end
            (handling_of self.old) server.new.end (handling_of self.new)) }
    {
        if self.totals.unused == 0 {
            return self.release_all(server);
        }
        let mut above = 0u32;
        while let Some(id) = server.conn().next_live(above) {
            above = id;
            self.release_used(server, id)?;
        }
        Ok(())
    }

    /// Returns the credit for all that is owed, unless the output is full.
    fn release_all(&mut self, server: &mut Server) -> Result<(), Stop>
        ensures handles { Handles H.Handler [] server.old.end (handling_of self.old)
            server.new.end (handling_of self.new) }
        ensures returned { OnOk result (HandlesCredit H.Handler server.old.end
            (handling_of self.old) server.new.end (handling_of self.new)) }
    {
        let released = server.release_all();
        unless_end_full(server, released)
    }

    /// Returns the credit owed on a stream, except for what its handler has not used, unless
    /// the output is full.
    fn release_used(&mut self, server: &mut Server, id: u32) -> Result<(), Stop>
        ensures returns { HandlesCreditOn H.Handler id (unused_at id self.old.kept.entries)
            server.old.end (handling_of self.old) server.new.end result }
        ensures exchanges { self.new ≡ self.old }
    {
        let owed = server.conn().owed(id);
        let count = owed.saturating_sub(self.unused_on(id));
        if count == 0 {
            return Ok(());
        }
        if server.is_full() {
            return Ok(());
        }
        let released = server.release(id, count);
        unless_full(server, released)
    }

    /// How many octets of the request on a stream its handler has not used.
    fn unused_on(&self, id: u32) -> u32
        ensures { result ≡ unused_at id self.now.kept.entries }
    {
        match self.kept.get(id) {
            Some(exchange) => exchange.unused,
            None => 0,
        }
    }

    /// Sends the responses that waited because the output was full, or that were given by a call
    /// since, in the order of their streams.
    fn give_waiting(&mut self, server: &mut Server) -> Result<(), Stop>
        ensures { Handles H.Handler [] server.old.end (handling_of self.old)
            server.new.end (handling_of self.new) }
    {
        let mut above = self.first_waiting.saturating_sub(1);
        self.first_waiting = NO_STREAM;
        while let Some(id) = self.kept.next_above(above) {
            above = id;
            if server.is_full() {
                self.first_waiting = self.first_waiting.min(id);
                return Ok(());
            }
            if self.has_waiting(id) {
                self.answer(server, id)?;
            }
        }
        Ok(())
    }

    /// Whether the response on a stream waits for the output.
    fn has_waiting(&self, id: u32) -> bool {
        let Some(exchange) = self.kept.get(id) else {
            return false;
        };
        !matches!(
            &exchange.stage,
            Stage::Asked | Stage::Parts { .. } | Stage::Given | Stage::Gone { .. }
        )
    }

    /// The stream whose handler is asked next for a part, and for how many octets: the next one
    /// after the last asked, or else the first. None if the output is full or the connection's
    /// window is used up.
    fn next_asked(&self, server: &Server) -> Option<(u32, usize)>
        ensures some { IfSome result (λ next. IsAskedFor server.now.end.conn next.0 next.1
            self.now.kept.entries) }
        ensures none { result ≡ None → (values : Values) (log : Log)
            → ConnRepresents values server.now.end.conn log → waiting log < full_output
            → NoneCanAsk log 0 self.now.kept.entries }
    {
        if server.is_full() {
            return None;
        }
        if octets_of(server.conn().room(0)) == 0 {
            return None;
        }
        if let Some(next) = self.next_asked_above(server, self.asked) {
            return Some(next);
        }
        if self.asked == 0 {
            return None;
        }
        self.next_asked_above(server, 0)
    }

    /// The first stream above a number whose handler may be asked for a part, and for how many
    /// octets.
    fn next_asked_above(&self, server: &Server, above: u32) -> Option<(u32, usize)>
        ensures some { IfSome result (λ next. IsAskedFor server.now.end.conn next.0 next.1
            self.now.kept.entries) }
        ensures none { result ≡ None → (values : Values) (log : Log)
            → ConnRepresents values server.now.end.conn log
            → NoneCanAsk log above self.now.kept.entries }
    {
        let mut above = above;
        while let Some(id) = self.kept.next_above(above) {
            above = id;
            let room = self.room_to_ask(server, id);
            if room > 0 {
                return Some((id, room));
            }
        }
        None
    }

    /// The number of octets a handler may be asked for: what both windows allow; 0 if it is not
    /// asked.
    fn room_to_ask(&self, server: &Server, id: u32) -> usize
        ensures due { 0 < result → is_part_due_at (exchange_at id self.now.kept.entries) ≡ true }
        ensures asked { (values : Values) (log : Log)
            → ConnRepresents values server.now.end.conn log
            → result ≡ asked_on log id self.now.kept.entries }
    {
        if self.is_part_due(id) {
            return room_on(server, id);
        }
        0
    }

    /// Whether a part of the response on a stream is due, for which its handler can be asked.
    fn is_part_due(&self, id: u32) -> bool
        ensures { result ≡ is_part_due_at (exchange_at id self.now.kept.entries) }
    {
        match self.kept.get(id) {
            Some(exchange) => matches!(&exchange.stage, Stage::Parts { later: false }),
            None => false,
        }
    }

    /// Asks the handler for one part of one response, if some stream can send and there is room.
    fn ask(&mut self, server: &mut Server, room: &mut [u8]) -> Result<(), Stop>
        ensures handles { Handles H.Handler [] server.old.end (handling_of self.old)
            server.new.end (handling_of self.new) }
        ensures room { length room.new ≡ length room.old }
    {
        if room.is_empty() {
            return Ok(());
        }
        let Some((id, most)) = self.next_asked(server) else {
            return Ok(());
        };
        self.asked = id;
        let most = most.min(room.len()).min(FULL_OUTPUT);
        self.ask_on(server, id, &mut room[..most])?;
        self.answer(server, id)
    }

    // rule: handlers (own) What is given as an answer is what its handler gave
    /// Asks the handler for a part of the response on a stream, and sends it.
    fn ask_on(&mut self, server: &mut Server, id: u32, room: &mut [u8]) -> Result<(), Stop>
        requires { IsAskedFor server.old.end.conn id (length room.old) self.old.kept.entries }
        ensures handles { Handles H.Handler [] server.old.end (handling_of self.old)
            server.new.end (handling_of self.new) }
        ensures room { length room.new ≡ length room.old }
    {
        let part = self.part(id, room);
        let Sent { result, given } = send_part(server, &mut self.totals.sent, id, part, room);
        let Given { stage, fault } = given;
        self.tell_fault(id, fault);
        if let Some(exchange) = self.kept.get_mut(id) {
            exchange.stage = stage;
        }
        result
    }

    /// Sends up to [`SHARE`] octets of each complete body.
    fn pump(&mut self, server: &mut Server) -> Result<(), Stop>
        ensures { Handles H.Handler [] server.old.end (handling_of self.old)
            server.new.end (handling_of self.new) }
    {
        if !self.more {
            return Ok(());
        }
        match server.pump_some(SHARE) {
            Ok(count) => {
                self.totals.sent = self.totals.sent.saturating_add(count as u64);
                self.more = count > 0 || server.is_full();
                Ok(())
            }
            Err(_) => Err(stop_of(server)),
        }
    }

    /// Ends the exchanges whose requests were received and whose responses were sent, both
    /// complete, and those whose requests were refused and whose responses were sent.
    fn settle(&mut self, server: &mut Server) -> Result<(), Stop>
        ensures { Handles H.Handler [] server.old.end (handling_of self.old)
            server.new.end (handling_of self.new) }
    {
        let mut above = self.first_given.saturating_sub(1);
        self.first_given = NO_STREAM;
        while let Some(id) = self.kept.next_above(above) {
            above = id;
            self.stop_reading(server, id)?;
            self.end_if_over(server, id);
            self.note_rest(id);
        }
        Ok(())
    }

    /// Lets [`Exchanges::send_some`] ask the handler again for the parts for which it returned
    /// [`Part::Later`](crate::Part::Later).
    pub(crate) fn ask_again(&mut self)
        ensures handles { (end : End) → Handles H.Handler [] end (handling_of self.old) end
            (handling_of self.new) }
        ensures all { (id : ℕ) → id ≢ 0 → exchange_at id self.new.kept.entries
            ≡ option_map awake (exchange_at id self.old.kept.entries) }
        ensures emptied { IsEmptied (handling_of self.old) → IsEmptied (handling_of self.new) }
    {
        let mut above = 0u32;
        while let Some(id) = self.kept.next_above(above) {
            above = id;
            self.wake(id);
        }
    }

    /// Lets the handler of one exchange be asked again.
    fn wake(&mut self, id: u32)
        ensures handles { (end : End) → Handles H.Handler [] end (handling_of self.old) end
            (handling_of self.new) }
        ensures at { exchange_at id self.new.kept.entries
            ≡ option_map awake (exchange_at id self.old.kept.entries) }
        ensures others { (i : ℕ) → i ≢ id → exchange_at i self.new.kept.entries
            ≡ exchange_at i self.old.kept.entries }
    {
        if let Some(exchange) = self.kept.get_mut(id) {
            exchange.wake();
        }
    }

    /// Whether [`Exchanges::send_some`] could send more: octets of a complete body, or a part for
    /// which the handler can be asked.
    pub(crate) fn may_send(&self, server: &Server) -> bool
        ensures { result ≡ false → (values : Values) (log : Log)
            → ConnRepresents values server.now.end.conn log → HasNothing log self.now }
    {
        self.more || self.next_asked(server).is_some()
    }

    /// Whether some open exchange has a response. One that was sent in full counts too, as long as
    /// its request is incomplete.
    pub(crate) fn is_answering(&self) -> bool
        ensures { IsAnswering self.now.kept.entries result }
    {
        let mut above = 0u32;
        while let Some(id) = self.kept.next_above(above) {
            above = id;
            if self.has_answer(id) {
                return true;
            }
        }
        false
    }

    /// Whether an exchange has a response.
    pub(crate) fn has_answer(&self, id: u32) -> bool
        ensures { result ≡ has_answer_at (exchange_at id self.now.kept.entries) }
    {
        match self.kept.get(id) {
            Some(exchange) => exchange.has_response(),
            None => false,
        }
    }
}

/// How many of the granted octets are neither left to the peer nor unused.
fn used_of(granted: u32, left: i64, unused: u64) -> u32
    ensures { result ≡ (granted - nat_part left) - unused }
{
    let left = u64::try_from(left).unwrap_or(0);
    let owed = u64::from(granted).saturating_sub(left);
    owed.saturating_sub(unused) as u32
}

/// The number of octets that both windows allow on a stream.
fn room_on(server: &Server, id: u32) -> usize
    ensures { (values : Values) (log : Log)
        → ConnRepresents values server.now.end.conn log → result ≡ windows_allow log id }
{
    let conn = server.conn();
    octets_of(conn.room(id)).min(octets_of(conn.room(0)))
}

/// The number of octets that a window allows.
fn octets_of(window: Option<i64>) -> usize
    ensures { result ≡ window_part window }
{
    match window {
        Some(room) => usize::try_from(room).unwrap_or(0),
        None => 0,
    }
}
