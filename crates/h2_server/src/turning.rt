//! What a connection makes of input, of its turn, and of what was written.

ghost use Rattle.std.specs.Prelude.{◌≡◌, ◌≤◌, ◌++◌, [], ℕ, List, IfErr, IfOk, drop, false, length};
ghost use Rattle.std.specs.Prelude.{take, true};
ghost use Rattle.h2_host.specs.declared.party.Own.TheVariants as owns;
ghost use Rattle.h2_server.specs.Connections.{GivesGone, IsSameOrRefused, KeepsTold, Makes};
ghost use Rattle.h2_server.specs.Connections.{MakesOwn, TakesOfKept, WakesEach, WatchesBy};
ghost use Rattle.h2_server.specs.Connections.{input_kept, keeps_none};
ghost use Rattle.h2_server.specs.Failing.{IsSameOrStopped, StaysReady, Stopped};
ghost use Rattle.h2_server.specs.Watching.{readiness_after};
ghost use Rattle.h2_server.specs.Exchanges.{handling_of};
ghost use Rattle.h2_server.specs.Steps.{HandlesPiece};
ghost use Rattle.h2_server.specs.Turns.{Turns, Wrote, WroteUp};
ghost use Rattle.h2_server.specs.Phases.{is_phase_down};

use crate::connection::Connection;
use crate::handler::Handler;
use crate::stop::Stop;
use h2_host::Bound;

/// A read of fewer octets is taken to have read all that can be read now.
const FULL_READ: usize = 16_384;

/// The maximum number of parts of requests passed to the handler in a turn: it bounds the work
/// of many small requests.
const MOST_TOLD: usize = 16;

impl<H: Handler> Connection<H> {
    /// Notes what the transport can do, and lets handlers that had no part be asked again.
    pub(crate) fn wake(&mut self, reads: bool, writes: bool)
        ensures makes { MakesOwn H.Handler [] self.old self.new }
        ensures told { KeepsTold self.old self.new }
        ensures phase { self.new.phase ≡ self.old.phase }
        ensures asks { WakesEach self.old self.new }
        ensures readiness { self.new.readiness ≡ readiness_after (owns.Ready reads writes) [] true
            self.old.readiness }
        ensures watch { self.new.watch ≡ self.old.watch }
    {
        self.readiness.reads = reads || self.readiness.reads;
        self.readiness.writes = writes || self.readiness.writes;
        self.exchanges.ask_again();
    }

    // rule: hosts (own) A connection uses the octets that came to it, in order
    /// Takes input, and keeps what is too much for this turn. If there are fewer octets than
    /// [`FULL_READ`], the transport has no more for now.
    pub(crate) fn take_input(&mut self, octets: &[u8])
        ensures makes { Makes H.Handler octets.now [] self.old self.new }
        ensures told { KeepsTold self.old self.new }
        ensures phase { IsSameOrStopped self.old.phase self.old.watch.time self.new.phase }
        ensures stopped { Stopped H.Handler self.old self.new }
        ensures readiness { self.new.readiness ≡ readiness_after owns.Came octets.now
            (keeps_none self.old) self.old.readiness }
        ensures watch { self.new.watch ≡ self.old.watch }
    {
        self.readiness.took = self.readiness.took || self.used >= self.kept.len();
        self.readiness.reads = self.readiness.reads && octets.len() >= FULL_READ;
        if self.is_down() {
            return;
        }
        let used = match self.take_first(octets) {
            Ok(used) => used,
            Err(stop) => {
                self.stop(stop);
                return;
            }
        };
        if self.kept.extend_from_slice(&octets[used..]).is_err() {
            self.refuse(Bound::Memory);
        }
    }

    /// Takes octets of input, unless some are kept that came before them. Returns how many.
    fn take_first(&mut self, octets: &[u8]) -> Result<usize, Stop>
        ensures piece { HandlesPiece H.Handler octets.now self.old.server.end
            (handling_of self.old.exchanges) self.new.server.end
            (handling_of self.new.exchanges) result }
        ensures none { IfErr result (λ stop. input_kept self.old ≡ []) }
        ensures kept { IfOk result (λ count. input_kept self.old ++ octets.now
            ≡ take count octets.now ++ (input_kept self.new ++ drop count octets.now)) }
        ensures place { self.new.used ≤ length self.new.kept.items }
        ensures within { IfOk result (λ count. count ≤ length octets.now) }
        ensures phase { self.new.phase ≡ self.old.phase }
        ensures readiness { self.new.readiness ≡ self.old.readiness }
        ensures watch { self.new.watch ≡ self.old.watch }
    {
        if self.used < self.kept.len() {
            return Ok(0);
        }
        self.kept.clear();
        self.used = 0;
        let most = self.most_told();
        self.exchanges.take_some(&mut self.server, octets, most)
    }

    /// The number of parts passed to the handler in this turn: 1 once more than a tenth of a flood
    /// budget is spent.
    fn most_told(&self) -> usize {
        if self.watch.is_near_flood(self.counts()) {
            1
        } else {
            MOST_TOLD
        }
    }

    /// Takes input that was kept, and sends what can go.
    pub(crate) fn turn(&mut self, room: &mut [u8])
        ensures makes { Makes H.Handler [] [] self.old self.new }
        ensures turns { Turns H.Handler self.old self.new }
        ensures told { KeepsTold self.old self.new }
        ensures room { length room.new ≡ length room.old }
        ensures phase { IsSameOrStopped self.old.phase self.old.watch.time self.new.phase }
        ensures stopped { Stopped H.Handler self.old self.new }
        ensures readiness { self.new.readiness ≡ readiness_after owns.Turn [] true
            self.old.readiness }
        ensures watch { self.new.watch ≡ self.old.watch }
    {
        match self.take_waiting() {
            Ok(()) => self.send(room),
            Err(stop) => self.stop(stop),
        }
    }

    /// Takes some of the kept input, unless input was already taken in this turn.
    fn take_waiting(&mut self) -> Result<(), Stop>
        ensures takes { TakesOfKept H.Handler self.old result self.new }
        ensures told { KeepsTold self.old self.new }
        ensures up { IfErr result (λ stop. is_phase_down self.old.phase ≡ false) }
        ensures same { is_phase_down self.old.phase ≡ true → self.new.server ≡ self.old.server }
        ensures phase { self.new.phase ≡ self.old.phase }
        ensures readiness { self.new.readiness ≡ readiness_after owns.Turn [] true
            self.old.readiness }
        ensures watch { self.new.watch ≡ self.old.watch }
    {
        let waits = !self.readiness.took && !self.kept.is_empty();
        self.readiness.took = false;
        if waits && !self.is_down() {
            return self.take_kept();
        }
        Ok(())
    }

    // rule: hosts (own) A connection uses the octets that came to it, in order
    /// Takes some of the kept input.
    fn take_kept(&mut self) -> Result<(), Stop>
        ensures takes { TakesOfKept H.Handler self.old result self.new }
        ensures phase { self.new.phase ≡ self.old.phase }
        ensures readiness { self.new.readiness ≡ self.old.readiness }
        ensures watch { self.new.watch ≡ self.old.watch }
    {
        let most = self.most_told();
        let from = self.used.min(self.kept.len());
        let count = self
            .exchanges
            .take_some(&mut self.server, &self.kept[from..], most)?;
        self.used = from + count;
        if self.used >= self.kept.len() {
            self.kept.clear();
            self.used = 0;
        }
        Ok(())
    }

    /// Queues what can be sent, if the connection is not down.
    fn send(&mut self, room: &mut [u8])
        ensures makes { MakesOwn H.Handler [] self.old self.new }
        ensures turns { Turns H.Handler self.old self.new }
        ensures told { KeepsTold self.old self.new }
        ensures room { length room.new ≡ length room.old }
        ensures phase { IsSameOrStopped self.old.phase self.old.watch.time self.new.phase }
        ensures stopped { Stopped H.Handler self.old self.new }
        ensures readiness { self.new.readiness ≡ self.old.readiness }
        ensures watch { self.new.watch ≡ self.old.watch }
    {
        if self.is_down() {
            return;
        }
        let waits = !self.readiness.reads;
        if let Err(stop) = self.exchanges.send_some(&mut self.server, room, waits) {
            self.stop(stop);
            return;
        }
        if self.server.ready().is_err() {
            self.refuse(Bound::Memory);
        }
    }

    // rule: hosts (own) A connection gives out what has gone of its output, and nothing else
    /// Removes the output that was written.
    pub(crate) fn take_away(&mut self, count: usize)
        ensures makes { (gone : List ℕ) × MakesOwn H.Handler gone self.old self.new
            × GivesGone (owns.Went count) self.old gone self.new
            × WatchesBy (owns.Went count) gone self.old self.new.watch }
        ensures wrote { Wrote H.Handler count self.old self.new }
        ensures up { WroteUp count self.old self.new }
        ensures told { KeepsTold self.old self.new }
        ensures phase { IsSameOrRefused self.old.phase self.new.phase }
        ensures stays { StaysReady self.old self.new.phase }
        ensures readiness { self.new.readiness ≡ self.old.readiness }
    {
        let gone = self.remove(count);
        self.watch.count(gone);
    }

    // rule: hosts (own) A connection gives out what has gone of its output, and nothing else
    /// Removes up to `count` octets of output, and returns how many: none if the connection is
    /// closed, or if the removal is refused, which closes it.
    fn remove(&mut self, count: usize) -> usize
        ensures makes { (gone : List ℕ) × MakesOwn H.Handler gone self.old self.new
            × GivesGone (owns.Went count) self.old gone self.new × (result ≡ length gone) }
        ensures wrote { Wrote H.Handler count self.old self.new }
        ensures up { WroteUp count self.old self.new }
        ensures told { KeepsTold self.old self.new }
        ensures phase { IsSameOrRefused self.old.phase self.new.phase }
        ensures stays { StaysReady self.old self.new.phase }
        ensures readiness { self.new.readiness ≡ self.old.readiness }
        ensures watch { self.new.watch ≡ self.old.watch }
    {
        if self.is_over() {
            return 0;
        }
        let gone = count.min(self.server.conn().waiting());
        if self.server.consume(gone).is_err() {
            self.refuse(Bound::Memory);
            return 0;
        }
        gone
    }
}
