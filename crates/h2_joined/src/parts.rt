//! Acts that give a message in parts.

ghost use Rattle.std.specs.Prelude.{◌≡◌, true, length};
ghost use Rattle.h2_joined.specs.declared.act.Side.TheVariants.{Client, Server};
ghost use Rattle.h2_joined.specs.Joints.{Begins, BeginsAnswer, SendsBody, SendsTrailers};
ghost use Rattle.h2_ends.specs.Represents.{EndSendsBody, EndSendsTrailers};
ghost use Rattle.h2_joined.specs.Kept.{MakesAct, made, end_at, kept_of};
ghost use Rattle.h2_joined.specs.Parts.{HasRoomInBody, ChangesShown, shown_at, grown};
ghost use Rattle.h2_joined.specs.Parts.{shown_with_octets, shown_with_trailers, CallsEnd};

use crate::act::{Acted, Side};
use crate::joined::Joined;
use crate::kept::{Accepted, copy_fields};
use h2_ends::{EndRefusal, Field};

impl Joined {
    // rule: joined (own) An act is the call of its name at its end
    /// The client begins a request.
    pub(crate) fn begin(&mut self, head: &[Field]) -> Acted
        ensures { MakesAct self.old (made Client (Begins head.now) result) self.new }
    {
        let Ok(kept) = copy_fields(self.alloc, head) else {
            return Acted::Memory;
        };
        if self.at_client.accepted.reserve(1).is_err() {
            return Acted::Memory;
        }
        match self.client.begin(head) {
            Ok(id) => {
                let begun = Accepted::with_head(self.alloc, id, kept);
                self.at_client.accept(begun);
                Acted::Id(id)
            }
            Err(refusal) => Acted::Refused(refusal),
        }
    }

    // rule: joined (own) An act is the call of its name at its end
    /// The server begins a response.
    pub(crate) fn begin_response(&mut self, id: u32, head: &[Field]) -> Acted
        ensures { MakesAct self.old (made Server (BeginsAnswer id head.now) result) self.new }
    {
        let Ok(kept) = copy_fields(self.alloc, head) else {
            return Acted::Memory;
        };
        if self.at_server.accepted.reserve(1).is_err() {
            return Acted::Memory;
        }
        match self.server.begin(id, head) {
            Ok(()) => {
                let begun = Accepted::with_head(self.alloc, id, kept);
                self.at_server.accept(begun);
                Acted::Done
            }
            Err(refusal) => Acted::Refused(refusal),
        }
    }

    // rule: joined (own) An act is the call of its name at its end
    /// An end sends octets of the body of a message that was begun.
    pub(crate) fn send_body(&mut self, side: Side, id: u32, octets: &[u8], end: bool) -> Acted
        ensures { MakesAct self.old (made side (SendsBody id octets.now end) result) self.new }
    {
        if !self.make_room_in_body(side, id, octets.len()) {
            return Acted::Memory;
        }
        match self.end_sends_body(side, id, octets, end) {
            Ok(count) => {
                let first = &octets[..count.min(octets.len())];
                self.keep_octets(side, id, first, end && count == octets.len());
                Acted::Count(count)
            }
            Err(refusal) => Acted::Refused(refusal),
        }
    }

    // rule: joined (own) An act is the call of its name at its end
    /// An end sends trailers, which end a message that was begun.
    pub(crate) fn send_trailers(&mut self, side: Side, id: u32, trailers: &[Field]) -> Acted
        ensures { MakesAct self.old (made side (SendsTrailers id trailers.now) result) self.new }
    {
        let Ok(kept) = copy_fields(self.alloc, trailers) else {
            return Acted::Memory;
        };
        match self.end_sends_trailers(side, id, trailers) {
            Ok(()) => {
                self.keep_trailers(side, id, kept);
                Acted::Done
            }
            Err(refusal) => Acted::Refused(refusal),
        }
    }

    /// Calls `send_body` of an end.
    fn end_sends_body(
        &mut self,
        side: Side,
        id: u32,
        octets: &[u8],
        end: bool,
    ) -> Result<usize, EndRefusal>
        ensures sends { EndSendsBody (end_at side self.old) id octets.now end result
            (end_at side self.new) }
        ensures only { CallsEnd side self.old self.new }
    {
        match side {
            Side::Client => self.client.send_body(id, octets, end),
            Side::Server => self.server.send_body(id, octets, end),
        }
    }

    /// Calls `send_trailers` of an end.
    fn end_sends_trailers(
        &mut self,
        side: Side,
        id: u32,
        trailers: &[Field],
    ) -> Result<(), EndRefusal>
        ensures sends { EndSendsTrailers (end_at side self.old) id trailers.now result
            (end_at side self.new) }
        ensures only { CallsEnd side self.old self.new }
    {
        match side {
            Side::Client => self.client.send_trailers(id, trailers),
            Side::Server => self.server.send_trailers(id, trailers),
        }
    }

    /// Makes room for `count` more octets of the body that an end has begun on a stream, and
    /// returns whether there was memory for them.
    fn make_room_in_body(&mut self, side: Side, id: u32, count: usize) -> bool
        ensures same { ChangesShown side self.old (shown_at side self.old) self.new }
        ensures room { result ≡ true
            → HasRoomInBody (kept_of side self.new).accepted.items id count }
    {
        match side {
            Side::Client => self.at_client.make_room(id, count),
            Side::Server => self.at_server.make_room(id, count),
        }
    }

    // rule: joined (own) Accepted messages, what was handed out, octets on a pipe are kept
    /// Keeps more octets of the body that an end has begun on a stream, for which there is
    /// room, and whether they end it.
    fn keep_octets(&mut self, side: Side, id: u32, octets: &[u8], ended: bool)
        ensures { HasRoomInBody (kept_of side self.old).accepted.items id (length octets.now)
            → ChangesShown side self.old
            (grown id (shown_with_octets octets.now ended) (shown_at side self.old)) self.new }
    {
        match side {
            Side::Client => self.at_client.keep_octets(id, octets, ended),
            Side::Server => self.at_server.keep_octets(id, octets, ended),
        }
    }

    // rule: joined (own) Accepted messages, what was handed out, octets on a pipe are kept
    /// Keeps trailers of the message that an end has begun on a stream, which end it.
    fn keep_trailers(&mut self, side: Side, id: u32, trailers: Vec<Field>)
        ensures { ChangesShown side self.old
            (grown id (shown_with_trailers trailers.items) (shown_at side self.old)) self.new }
    {
        match side {
            Side::Client => self.at_client.keep_trailers(id, trailers),
            Side::Server => self.at_server.keep_trailers(id, trailers),
        }
    }
}
