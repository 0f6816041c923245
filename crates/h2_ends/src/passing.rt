//! Sending in turn: a pass over the streams on which something waits, with a share for each.

ghost use Rattle.std.specs.Prelude.{◌≡◌, ◌⊎◌, ◌↔◌};
ghost use Rattle.h2_spec_log.specs.Acts.{Values};
ghost use Rattle.h2_spec_log.specs.Log.{Log};
ghost use Rattle.h2_conn.specs.Conn.{ConnRepresents};
ghost use Rattle.h2_ends.specs.Passes.{IsSpent};
ghost use Rattle.h2_ends.specs.Passing.{GivesShare, PassesSpan, SendsShare, size_of};
ghost use Rattle.h2_ends.specs.Represents.{EndPumpsSome};

use crate::end::End;
use crate::outgoing::{Outgoing, Waiting};
use crate::quiet::has_room;
use crate::refusal::EndRefusal;
use crate::sending::{SendState, stopped_by};
use crate::span::{Span, Turn};
use h2_conn::{Conn, Refusal};
use h2_frame::limits::FULL_OUTPUT;

/// A pass that is under way.
#[derive(Debug, Drop)]
pub(crate) struct Pass {
    /// The largest share in octets: 1 to 65,536.
    pub(crate) most: usize,
    /// The stream with which it began, and how many octets of a share cut short that stream had
    /// left.
    pub(crate) turn: Turn,
    /// How many octets of bodies were sent.
    pub(crate) count: usize,
    /// How many octets the last share has left.
    pub(crate) rest: usize,
    /// The streams that had their share and on which something still waits.
    pub(crate) left: Span,
}

impl Pass {
    // rule: 8.1 (own) pump_some gives each stream a share, in turn
    /// Returns how many octets a stream's share has at most.
    fn share_size(&self, id: u32) -> usize
        ensures { result ≡ size_of self.now id }
    {
        if id == self.turn.id && self.turn.rest > 0 {
            return self.turn.rest.min(self.most);
        }
        self.most
    }
}

impl End {
    // rule: 8.1 (own) pump_some gives each stream a share, in turn
    /// Makes one pass over the streams, with a share of at most `most` octets of a body for
    /// each (1 to 65,536). Returns how many octets of bodies were sent.
    pub(crate) fn pump_some(&mut self, most: usize) -> Result<usize, EndRefusal>
        ensures { EndPumpsSome self.old most result self.new }
    {
        if self.conn.failed().is_some() {
            return Err(EndRefusal::Conn(Refusal::Closed));
        }
        let mut pass = Pass {
            most: most.min(FULL_OUTPUT).max(1),
            turn: self.spans.turn,
            count: 0,
            rest: 0,
            left: Span::none(),
        };
        let (above, below) = self.spans.waiting.split(self.spans.turn.id);
        if self.pass_over(above, &mut pass)? && self.pass_over(below, &mut pass)? {
            self.spans.waiting = pass.left;
            self.spans.turn.rest = 0;
        }
        Ok(pass.count)
    }

    // rule: 8.1 (own) pump_some gives each stream a share, in turn
    /// Gives the streams of a span their shares, in rising order, and returns whether the pass
    /// goes on. If not, the next pass begins with the stream at which this one ended, and the
    /// rest of its share.
    fn pass_over(&mut self, span: Span, pass: &mut Pass) -> Result<bool, Refusal>
        ensures { PassesSpan self.old span pass.old result self.new pass.new }
    {
        let mut last = span.first.saturating_sub(1);
        while let Some(id) = self.next_in(span, last) {
            last = id;
            match self.share(id, pass) {
                Ok(SendState::Idle) => {}
                Ok(SendState::Sent) => self.forget_if_over(id),
                Ok(SendState::Stuck) => pass.left = pass.left.with(id),
                Ok(SendState::Full) => {
                    self.spans.turn = Turn {
                        id,
                        rest: pass.rest,
                    };
                    return Ok(false);
                }
                Err(refusal) => {
                    self.spans.turn = Turn {
                        id,
                        rest: pass.rest,
                    };
                    return Err(refusal);
                }
            }
        }
        Ok(true)
    }

    // rule: 8.1 (own) pump_some gives each stream a share, in turn
    /// Gives a stream its share: octets of the body, and the trailers once no octets are left.
    fn share(&mut self, id: u32, pass: &mut Pass) -> Result<SendState, Refusal>
        ensures { GivesShare self.old id pass.old result self.new pass.new }
    {
        let Some(stream) = self.streams.get_mut(id) else {
            return Ok(SendState::Idle);
        };
        let Outgoing::Waiting(waiting) = &mut stream.outgoing else {
            return Ok(SendState::Idle);
        };
        match send_share(&mut self.conn, id, waiting, pass)? {
            SendState::Sent => {
                stream.outgoing = Outgoing::Sent;
                Ok(SendState::Sent)
            }
            SendState::Idle => Ok(SendState::Idle),
            SendState::Stuck => Ok(SendState::Stuck),
            SendState::Full => Ok(SendState::Full),
        }
    }
}

// rule: 8.1 (own) pump_some gives each stream a share, in turn
/// Sends a share of what waits of a message.
fn send_share(
    conn: &mut Conn,
    id: u32,
    waiting: &mut Waiting,
    pass: &mut Pass,
) -> Result<SendState, Refusal>
    ensures { SendsShare conn.old id waiting.old pass.old result conn.new waiting.new pass.new }
{
    let most = pass.share_size(id);
    pass.rest = most;
    if waiting.sent < waiting.body.len() {
        let all = waiting.body.len();
        let left = all - waiting.sent;
        let size = left.min(most);
        let ends = size == left && waiting.trailers.is_none();
        match waiting.body.send(conn, id, waiting.sent, size, ends) {
            Ok(sent) => {
                waiting.sent += sent;
                pass.rest = most.saturating_sub(sent);
                // Exact: never more than what waits.
                pass.count = pass.count.saturating_add(sent);
                if sent < size {
                    return Ok(unless_spent(conn));
                }
            }
            Err(refusal) => return stopped_by(refusal),
        }
        if waiting.sent < waiting.body.len() {
            return Ok(SendState::Stuck);
        }
    }
    pass.rest = 0;
    let Some(trailers) = &waiting.trailers else {
        return Ok(SendState::Sent);
    };
    match conn.fields(id, trailers, true) {
        Ok(()) => Ok(SendState::Sent),
        Err(refusal) => stopped_by(refusal),
    }
}

// rule: 8.1 (own) pump_some gives each stream a share, in turn
/// Returns how a pass goes on after a share of which fewer octets were sent than it has.
fn unless_spent(conn: &Conn) -> SendState
    ensures full { (values : Values) (log : Log) → ConnRepresents values conn.now log
        → (result ≡ SendState.Full) ↔ IsSpent log }
    ensures or { (result ≡ SendState.Full) ⊎ (result ≡ SendState.Stuck) }
{
    if conn.waiting() >= FULL_OUTPUT || !has_room(conn, 0) {
        return SendState::Full;
    }
    SendState::Stuck
}
