//! A connection as a party of a host.

use crate::connection::Connection;
use crate::handler::Handler;
use h2_host::{Answer, Own, Party};

impl<H: Handler> Party for Connection<H> {
    ghost use Rattle.h2_conn.specs.Conn.{octets_queued};
    ghost use Rattle.h2_server.specs.ConnectionSteps.{ConnectionSteps};
    ghost use Rattle.h2_server.specs.Connections.{ReadsNow};

    ghost steps = { λ old own octets answer new.
        ConnectionSteps H.Handler old own octets answer new };

    ghost held_of = { λ connection. connection.holds };

    ghost ready_of = { λ connection. connection.ready };

    ghost takes = { λ connection size. ReadsNow connection size };

    ghost output_of = { λ connection. octets_queued connection.server.end.conn };

    fn step(&mut self, own: Own, octets: &[u8], room: &mut [u8]) -> Answer {
        self.act(own, octets, room);
        if self.is_over() {
            return Answer::Over;
        }
        Answer::Goes
    }

    fn held(&self) -> usize {
        Connection::held(self)
    }

    fn is_ready(&self) -> bool {
        Connection::is_ready(self)
    }

    fn read_size(&self) -> usize {
        Connection::read_size(self)
    }

    fn output(&self) -> (&[u8], &[u8]) {
        Connection::output(self)
    }
}

impl<H: Handler> Connection<H> {
    ghost use Rattle.std.specs.Prelude.{◌≡◌, length, true};
    ghost use Rattle.h2_host.specs.Parties.{IsRefusal};
    ghost use Rattle.h2_host.specs.declared.party.Own.TheVariants as owns;
    ghost use Rattle.h2_server.specs.ConnectionSteps.{CallsThen};
    ghost use Rattle.h2_server.specs.Connections.{octets_with};
    ghost use Rattle.h2_server.specs.Phases.{is_phase_over};

    /// Makes the call that a host asks for.
    fn act(&mut self, own: Own, octets: &[u8], room: &mut [u8])
        ensures calls { CallsThen H.Handler own (octets_with own octets.now) self.old self.new }
        ensures refused { IsRefusal own → is_phase_over self.new.phase ≡ true }
        ensures lost { own ≡ owns.Lost → is_phase_over self.new.phase ≡ true }
        ensures room { length room.new ≡ length room.old }
    {
        match own {
            Own::Ready { reads, writes } => self.set_ready(reads, writes),
            Own::Came => self.receive(octets),
            Own::NoneCame => self.receive_none(),
            Own::Ended => self.receive_end(),
            Own::Turn => self.advance(room),
            Own::Went { count } => self.written(count),
            Own::NoneWent => self.written_none(),
            Own::Lost => self.lose(),
            Own::Passed { now } => self.tick(now),
            Own::Refused { bound } => self.close(bound),
        }
    }
}
