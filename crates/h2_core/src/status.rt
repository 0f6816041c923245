//! What an end knows of a stream's number.

ghost use Rattle.std.specs.Prelude.{◌≡◌, true};
ghost use Rattle.h2_spec_log.specs.Settings.{is_server};
ghost use Rattle.h2_spec_machine.specs.End.{state_at, stream_at, end_view, is_above_goaway};
ghost use Rattle.h2_spec_machine.specs.Machine.{is_fresh};
ghost use Rattle.h2_spec_log.specs.ItemRules.{is_at_capacity};
ghost use Rattle.h2_core.specs.Endpoint.{end_of};
ghost use Rattle.h2_core.specs.Statuses.{state_of_status, stream_of_status};

use crate::endpoint::Endpoint;
use h2_spec_log::Role;
use h2_streams::{Entry, Stream};

// The states of section 5.1 by this end's names. H is a field block, ES END_STREAM, R RST_STREAM. H
// is too much where as many streams are active as are allowed, or its list is too large.
//
//                           +---------------------------------+
//                           | Idle       "idle"               |  even numbers always: no push
//                           +---------------------------------+
//   server: H, and send R,    |              |             |
//   as it is too much; or H   |              |             |  server, before its GOAWAY:
//   on it or a greater number |              |             |  H on a greater number
//   after its GOAWAY          |              |             |
//             +---------------+              |             +----------------+
//             |              server: recv H, client: send H                 |
//             |                              v                              |
//             |             +---------------------------------+             |
//             |             | Active     "open"               |             |
//             |             |     recv ES |      | send ES    |             |
//             |             |             v      v            |             |
//             |             |      ended_in      ended_out    |             |
//             |             | "half-closed      "half-closed  |             |
//             |             |     (remote)"      (local)"     |             |
//             |             +---------------------------------+             |
//             |               |                            |                |
//             |        send R |   recv ES and send ES, or  |                |
//             |               |   recv R, or client: it is |                |
//             |               |   reported as unprocessed  |                |
//             v               v                            v                v
//   +-------------------------------+              +-------------------------------+
//   | ClosedByUs "closed"           | <----------- | Closed     "closed"           |
//   +-------------------------------+ server: send +-------------------------------+
//                                     GOAWAY with
//                                     a lower last
//
// "open" and both "half-closed" are one state, whose `StreamState` says which sides have ended.
// "closed" is two: where this end closed the stream, frames of the peer may still be under way.
// "reserved (local)" and "reserved (remote)" don't occur, since nothing is pushed.
/// The state of a number (RFC 9113, section 5.1), with the stream where it is active.
#[derive(Clone, Copy, Debug)]
pub(crate) enum Status {
    Idle,
    Active(Stream),
    ClosedByUs,
    Closed,
}

impl Endpoint {
    // contract: 5.1 A stream has one state, by what was received and sent
    // rule: 5.1 A stream has one state, by what was received and sent
    // rule: 5.1.1 A stream that is opened closes all lower idle ones
    /// Returns the state of a number.
    #[inline(always)]
    pub(crate) fn status(&self, id: u32) -> Status
        ensures state { state_of_status result ≡ state_at (end_of self.now) id }
        ensures stream { stream_of_status result ≡ stream_at (end_of self.now) id }
    {
        match self.streams.get(id) {
            Some(Entry::Active(stream)) => Status::Active(stream),
            Some(Entry::Reset) => Status::ClosedByUs,
            None if id % 2 == 0 || id > self.highest => Status::Idle,
            None if self.is_above_goaway(id) => Status::ClosedByUs,
            None => Status::Closed,
        }
    }

    // rule: 6.8 Streams above the last of an own GOAWAY are ignored
    /// Whether a number of the peer's streams is above the last stream of this end's GOAWAY.
    fn is_above_goaway(&self, id: u32) -> bool
        ensures { result ≡ is_above_goaway (end_of self.now) id }
    {
        match self.goaway_sent {
            Some(last) => self.role == Role::Server && id > last,
            None => false,
        }
    }

    /// Whether a number is idle and the peer may open it: at a server, if it is odd and above
    /// all numbers used (section 5.1.1).
    pub(crate) fn is_fresh(&self, id: u32) -> bool
        ensures { result ≡ is_fresh (end_of self.now) id }
    {
        self.role == Role::Server && id % 2 == 1 && id > self.highest
    }

    // rule: 5.1.2 A stream above the limit of active ones is REFUSED_STREAM
    /// Whether as many streams are active as this end allows (section 5.1.2).
    pub(crate) fn is_at_capacity(&self) -> bool
        ensures { is_server self.now.role ≡ true
            → result ≡ is_at_capacity (end_view (end_of self.now)) }
    {
        self.active_count >= self.max_streams
    }
}
