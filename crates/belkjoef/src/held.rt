//! The contents of a place of C: a client or a server, and the numbers that C keeps for its
//! streams.

ghost use Rattle.std.specs.Prelude.{◌≡◌, ◌++◌, OnOk};
ghost use Rattle.h2_spec_log.specs.Acts.{Release, Widen, ResetStream, SendPing, SendGoAway};
ghost use Rattle.h2_spec_log.specs.Acts.{ChangeSettings, Fail};
ghost use Rattle.h2_flow.specs.ConfigValues.{values_of};
ghost use Rattle.h2_ends.specs.Represents.{EndReleases, EndPumps, EndSendsBody};
ghost use Rattle.belkjoef.specs.Helds.{end_in, held_end, side_role, KeepsAllElse, user_at};
ghost use Rattle.belkjoef.specs.Calls.{ActsOnEnd, ReadiesEnd, ConsumesEnd};
ghost use Rattle.belkjoef.specs.Readers.{AnswersLog, IsFull, IsDrained, AnswersQuiet};
ghost use Rattle.belkjoef.specs.Readers.{SaysUnsent, SaysLog, SaysMalformed, failed_with};
ghost use Rattle.belkjoef.specs.Readers.{flow_of_data};
ghost use Rattle.belkjoef.specs.Given.{PumpsPass};
ghost use Rattle.belkjoef.specs.Output.{IsReadyOutput, OkIfReady};
ghost use Rattle.belkjoef.specs.WhyNumbers.{SaysWhy};

use crate::kept::KeptFields;
use crate::numbers::{of_rule, of_why};
use crate::users::Users;
use h2_conn::Conn;
use h2_ends::{Client, Code, Config, EndRefusal, Refusal, Server};

/// A client or a server.
#[derive(Drop)]
pub(crate) enum Side {
    /// A client.
    Client(Client),
    /// A server.
    Server(Server),
}

/// An end, and the numbers that C keeps for its streams.
#[derive(Drop)]
pub struct Held {
    /// The end.
    pub(crate) side: Side,
    /// The numbers that C keeps, by stream.
    pub(crate) users: Users,
    /// Copies of the head that was sent last in parts.
    pub(crate) heads: KeptFields,
    /// Copies of the trailers that were sent last.
    pub(crate) trailers: KeptFields,
}

impl Side {
    /// Returns the connection.
    pub(crate) fn conn(&self) -> &Conn
        ensures { result.now ≡ (end_in self.now).conn }
    {
        match self {
            Side::Client(client) => client.conn(),
            Side::Server(server) => server.conn(),
        }
    }
}

impl Held {
    /// Releases octets of a body that was handed out.
    pub(crate) fn release(&mut self, id: u32, count: u32) -> Result<(), Refusal>
        ensures does { ActsOnEnd (Release id count) (held_end self.old) result
            (held_end self.new) }
        ensures keeps { KeepsAllElse self.old self.new }
    {
        match &mut self.side {
            Side::Client(client) => client.release(id, count),
            Side::Server(server) => server.release(id, count),
        }
    }

    /// Releases all that is owed.
    pub(crate) fn release_all(&mut self) -> Result<(), EndRefusal>
        ensures does { EndReleases (held_end self.old) result (held_end self.new) }
        ensures keeps { KeepsAllElse self.old self.new }
    {
        match &mut self.side {
            Side::Client(client) => client.release_all(),
            Side::Server(server) => server.release_all(),
        }
    }

    // rule: c (own) A call of C's is that of the end in its place
    /// Widens the connection's window.
    pub(crate) fn widen(&mut self, count: u32) -> Result<(), Refusal>
        ensures does { ActsOnEnd (Widen count) (held_end self.old) result (held_end self.new) }
        ensures keeps { KeepsAllElse self.old self.new }
    {
        match &mut self.side {
            Side::Client(client) => client.widen(count),
            Side::Server(server) => server.widen(count),
        }
    }

    // rule: c (own) A call of C's is that of the end in its place
    /// Resets a stream.
    pub(crate) fn reset(&mut self, id: u32, code: u32) -> Result<(), Refusal>
        ensures does { ActsOnEnd (ResetStream id code) (held_end self.old) result
            (held_end self.new) }
        ensures keeps { KeepsAllElse self.old self.new }
    {
        match &mut self.side {
            Side::Client(client) => client.reset(id, code),
            Side::Server(server) => server.reset(id, code),
        }
    }

    /// Sends PING.
    pub(crate) fn ping(&mut self, octets: [u8; 8]) -> Result<(), Refusal>
        ensures does { ActsOnEnd (SendPing octets) (held_end self.old) result (held_end self.new) }
        ensures keeps { KeepsAllElse self.old self.new }
    {
        match &mut self.side {
            Side::Client(client) => client.ping(octets),
            Side::Server(server) => server.ping(octets),
        }
    }

    /// Sends GOAWAY.
    pub(crate) fn go_away(&mut self) -> Result<(), Refusal>
        ensures does { ActsOnEnd SendGoAway (held_end self.old) result (held_end self.new) }
        ensures keeps { KeepsAllElse self.old self.new }
    {
        match &mut self.side {
            Side::Client(client) => client.go_away(),
            Side::Server(server) => server.go_away(),
        }
    }

    /// Changes the settings.
    pub(crate) fn change_settings(&mut self, config: Config) -> Result<(), Refusal>
        ensures does { ActsOnEnd (ChangeSettings (values_of config)) (held_end self.old) result
            (held_end self.new) }
        ensures keeps { KeepsAllElse self.old self.new }
    {
        match &mut self.side {
            Side::Client(client) => client.change_settings(config),
            Side::Server(server) => server.change_settings(config),
        }
    }

    /// Sends what waits.
    pub(crate) fn pump(&mut self) -> Result<usize, EndRefusal>
        ensures does { EndPumps (held_end self.old) result (held_end self.new) }
        ensures keeps { KeepsAllElse self.old self.new }
    {
        match &mut self.side {
            Side::Client(client) => client.pump(),
            Side::Server(server) => server.pump(),
        }
    }

    // rule: c (own) A call of C's is that of the end in its place
    /// Sends a share of what waits on each stream.
    pub(crate) fn pump_some(&mut self, most: usize) -> Result<usize, EndRefusal>
        ensures does { PumpsPass most (held_end self.old) result (held_end self.new) }
        ensures keeps { KeepsAllElse self.old self.new }
    {
        match &mut self.side {
            Side::Client(client) => client.pump_some(most),
            Side::Server(server) => server.pump_some(most),
        }
    }

    // rule: c (own) A call of C's is that of the end in its place
    /// Fails the connection with a code.
    pub(crate) fn fail(&mut self, code: Code) -> Result<(), Refusal>
        ensures does { ActsOnEnd (Fail code) (held_end self.old) result (held_end self.new) }
        ensures keeps { KeepsAllElse self.old self.new }
    {
        match &mut self.side {
            Side::Client(client) => client.fail(code),
            Side::Server(server) => server.fail(code),
        }
    }

    /// Sends octets of a body.
    pub(crate) fn send_body(
        &mut self,
        id: u32,
        octets: &[u8],
        ends: bool,
    ) -> Result<usize, EndRefusal>
        ensures does { EndSendsBody (held_end self.old) id octets.now ends result
            (held_end self.new) }
        ensures keeps { KeepsAllElse self.old self.new }
    {
        match &mut self.side {
            Side::Client(client) => client.send_body(id, octets, ends),
            Side::Server(server) => server.send_body(id, octets, ends),
        }
    }

    /// Prepares the output to be written from where it lies.
    pub(crate) fn ready(&mut self) -> Result<(), Refusal>
        ensures does { ReadiesEnd (held_end self.old) result (held_end self.new) }
        ensures keeps { KeepsAllElse self.old self.new }
        ensures returned { OnOk result (IsReadyOutput (held_end self.new)) }
    {
        match &mut self.side {
            Side::Client(client) => client.ready(),
            Side::Server(server) => server.ready(),
        }
    }

    /// Removes octets of the output, which were written.
    pub(crate) fn consume(&mut self, count: usize) -> Result<usize, Refusal>
        ensures does { ConsumesEnd count (held_end self.old) result (held_end self.new) }
        ensures keeps { KeepsAllElse self.old self.new }
        ensures room { OkIfReady (held_end self.old) result }
    {
        match &mut self.side {
            Side::Client(client) => client.consume(count),
            Side::Server(server) => server.consume(count),
        }
    }

    /// Returns whether the output is full.
    pub(crate) fn is_full(&self) -> bool
        ensures { AnswersLog IsFull (held_end self.now) result }
    {
        match &self.side {
            Side::Client(client) => client.is_full(),
            Side::Server(server) => server.is_full(),
        }
    }

    /// Returns whether no output waits and either no stream is active or the connection has
    /// failed.
    pub(crate) fn is_drained(&self) -> bool
        ensures { AnswersLog IsDrained (held_end self.now) result }
    {
        match &self.side {
            Side::Client(client) => client.is_drained(),
            Side::Server(server) => server.is_drained(),
        }
    }

    /// Returns whether nothing waits, is owed, or could be sent.
    pub(crate) fn is_quiet(&self) -> bool
        ensures { AnswersQuiet (held_end self.now) result }
    {
        match &self.side {
            Side::Client(client) => client.is_quiet(),
            Side::Server(server) => server.is_quiet(),
        }
    }

    /// Returns the number that C keeps for a stream; 0 if none.
    pub(crate) fn user_of(&self, id: u32) -> usize
        ensures { result ≡ user_at self.now.users.entries id }
    {
        self.users.of(id)
    }

    /// Returns how many octets of the body given for a stream wait.
    pub(crate) fn unsent(&self, id: u32) -> usize
        ensures { SaysUnsent id (held_end self.now) result }
    {
        match &self.side {
            Side::Client(client) => client.unsent(id),
            Side::Server(server) => server.unsent(id),
        }
    }

    /// Returns the code with which the connection has failed, if it has.
    pub(crate) fn failed_code(&self) -> Option<u32>
        ensures { SaysLog failed_with (held_end self.now) result }
    {
        match self.side.conn().failed() {
            Some(code) => Some(code.number()),
            None => None,
        }
    }

    /// Returns the number of the reason for which the connection has failed, if it has.
    pub(crate) fn why_number(&self) -> Option<u32>
        ensures { SaysWhy (held_end self.now) result }
    {
        match self.side.conn().why() {
            Some(why) => Some(of_why(why)),
            None => None,
        }
    }

    /// Returns the payload length of the last DATA frame, padding included.
    pub(crate) fn last_flow(&self) -> u32
        ensures { SaysLog flow_of_data (held_end self.now) result }
    {
        self.side.conn().last_flow()
    }

    /// Returns the stream of the part of a message that was refused last, and the number of the
    /// rule that it breaks.
    pub(crate) fn last_malformed(&self) -> Option<(u32, i32)>
        ensures { SaysMalformed (held_end self.now) result }
    {
        let last = match &self.side {
            Side::Client(client) => client.last_malformed(),
            Side::Server(server) => server.last_malformed(),
        };
        match last {
            Some((id, rule)) => Some((id, of_rule(rule))),
            None => None,
        }
    }
}
