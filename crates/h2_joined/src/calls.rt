//! Acts that are calls of an end.

ghost use Rattle.std.specs.Prelude.{◌≡◌};
ghost use Rattle.h2_flow.specs.ConfigValues.{values_of};
ghost use Rattle.h2_spec_log.specs.Acts.{ResetStream, SendPing, SendGoAway, ChangeSettings, Done};
ghost use Rattle.h2_spec_log.specs.Acts.{Fail, Release, Widen};
ghost use Rattle.h2_conn.specs.Conn.{answer_by};
ghost use Rattle.h2_message.specs.Values.{message_value};
ghost use Rattle.h2_joined.specs.declared.act.Side.TheVariants.{Client, Server};
ghost use Rattle.h2_joined.specs.declared.act.Acted.TheVariants as acted;
ghost use Rattle.h2_joined.specs.Joints.{Requests, Responds, Pumps, ReleasesAll, Calls, acted_as};
ghost use Rattle.h2_joined.specs.Joints.{acted_by, PumpsSome};
ghost use Rattle.h2_joined.specs.Kept.{MakesAct, made};

use crate::act::{Acted, Side};
use crate::joined::Joined;
use crate::kept::{Accepted, copy_twice};
use h2_ends::{Code, Config, EndRefusal, Message, Refusal};

impl Joined {
    // rule: joined (own) An act is the call of its name at its end
    /// The client sends a request.
    pub(crate) fn request(&mut self, message: &Message) -> Acted
        ensures { MakesAct self.old (made Client (Requests (message_value message.now)) result)
            self.new }
    {
        let Ok((given, kept)) = copy_twice(self.alloc, message) else {
            return Acted::Memory;
        };
        if self.at_client.accepted.reserve(1).is_err() {
            return Acted::Memory;
        }
        match self.client.request(given) {
            Ok(id) => {
                self.at_client.accept(Accepted {
                    id,
                    message: kept,
                    begun: false,
                });
                Acted::Id(id)
            }
            Err((_, refusal)) => Acted::Refused(refusal),
        }
    }

    // rule: joined (own) An act is the call of its name at its end
    /// The server sends a response.
    pub(crate) fn respond(&mut self, id: u32, message: &Message) -> Acted
        ensures { MakesAct self.old (made Server (Responds id (message_value message.now)) result)
            self.new }
    {
        let Ok((given, kept)) = copy_twice(self.alloc, message) else {
            return Acted::Memory;
        };
        if self.at_server.accepted.reserve(1).is_err() {
            return Acted::Memory;
        }
        match self.server.respond(id, given) {
            Ok(()) => {
                self.at_server.accept(Accepted {
                    id,
                    message: kept,
                    begun: false,
                });
                Acted::Done
            }
            Err((_, refusal)) => Acted::Refused(refusal),
        }
    }

    // rule: joined (own) An act is the call of its name at its end
    /// An end sends what windows allow.
    pub(crate) fn pump(&mut self, side: Side) -> Acted
        ensures { MakesAct self.old (made side Pumps result) self.new }
    {
        counted(match side {
            Side::Client => self.client.pump(),
            Side::Server => self.server.pump(),
        })
    }

    // rule: joined (own) An act is the call of its name at its end
    /// An end sends a share of each message in turn.
    pub(crate) fn pump_some(&mut self, side: Side, most: usize) -> Acted
        ensures { MakesAct self.old (made side (PumpsSome most) result) self.new }
    {
        counted(match side {
            Side::Client => self.client.pump_some(most),
            Side::Server => self.server.pump_some(most),
        })
    }

    /// An end returns all credit that it owes.
    pub(crate) fn release_all(&mut self, side: Side) -> Acted
        ensures { MakesAct self.old (made side ReleasesAll result) self.new }
    {
        released(match side {
            Side::Client => self.client.release_all(),
            Side::Server => self.server.release_all(),
        })
    }

    /// An end returns credit of one stream.
    pub(crate) fn release(&mut self, side: Side, id: u32, count: u32) -> Acted
        ensures { MakesAct self.old (made side (Calls (Release id count)) result) self.new }
    {
        done(match side {
            Side::Client => self.client.release(id, count),
            Side::Server => self.server.release(id, count),
        })
    }

    /// An end widens the connection's window.
    pub(crate) fn widen(&mut self, side: Side, count: u32) -> Acted
        ensures { MakesAct self.old (made side (Calls (Widen count)) result) self.new }
    {
        done(match side {
            Side::Client => self.client.widen(count),
            Side::Server => self.server.widen(count),
        })
    }

    /// An end resets a stream.
    pub(crate) fn reset(&mut self, side: Side, id: u32, code: u32) -> Acted
        ensures { MakesAct self.old (made side (Calls (ResetStream id code)) result) self.new }
    {
        done(match side {
            Side::Client => self.client.reset(id, code),
            Side::Server => self.server.reset(id, code),
        })
    }

    /// An end sends PING.
    pub(crate) fn ping(&mut self, side: Side, octets: [u8; 8]) -> Acted
        ensures { MakesAct self.old (made side (Calls (SendPing octets)) result) self.new }
    {
        done(match side {
            Side::Client => self.client.ping(octets),
            Side::Server => self.server.ping(octets),
        })
    }

    /// An end sends GOAWAY.
    pub(crate) fn go_away(&mut self, side: Side) -> Acted
        ensures { MakesAct self.old (made side (Calls SendGoAway) result) self.new }
    {
        done(match side {
            Side::Client => self.client.go_away(),
            Side::Server => self.server.go_away(),
        })
    }

    /// An end fails its connection with a code.
    pub(crate) fn fail(&mut self, side: Side, code: Code) -> Acted
        ensures { MakesAct self.old (made side (Calls (Fail code)) result) self.new }
    {
        done(match side {
            Side::Client => self.client.fail(code),
            Side::Server => self.server.fail(code),
        })
    }

    /// An end changes its settings.
    pub(crate) fn change_settings(&mut self, side: Side, config: Config) -> Acted
        ensures { MakesAct self.old (made side (Calls (ChangeSettings (values_of config))) result)
            self.new }
    {
        done(match side {
            Side::Client => self.client.change_settings(config),
            Side::Server => self.server.change_settings(config),
        })
    }
}

/// The result of a pump.
fn counted(outcome: Result<usize, EndRefusal>) -> Acted
    ensures { result ≡ acted_by acted.Count outcome }
{
    match outcome {
        Ok(count) => Acted::Count(count),
        Err(refusal) => Acted::Refused(refusal),
    }
}

/// The result of a `release_all`.
fn released(outcome: Result<(), EndRefusal>) -> Acted
    ensures { result ≡ acted_by (λ done. acted.Done) outcome }
{
    match outcome {
        Ok(()) => Acted::Done,
        Err(refusal) => Acted::Refused(refusal),
    }
}

/// The result of a call of the connection that returns no value.
fn done(outcome: Result<(), Refusal>) -> Acted
    ensures { result ≡ acted_as (answer_by (λ done. Done) outcome) }
{
    match outcome {
        Ok(()) => Acted::Done,
        Err(refusal) => Acted::Refused(EndRefusal::Conn(refusal)),
    }
}
