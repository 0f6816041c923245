//! A host of served connections. No other file of this crate knows what a host, a connection, a
//! step and a limit are.

ghost use Rattle.std.specs.Prelude.{⊤};

use crate::handler::{Exchange, Paths, deferred, name_of_refusal};
use crate::told::{Asked, Told};
use h2_case::text::Text;
use h2_case::words::Words;
use h2_host::{Answer, Bound, Host, Limits, Own, Party, Reply, Step, Token};
pub(crate) use h2_server::CloseReason;
use h2_server::{
    Code, Config, Connection, ConnectionLimits, ExchangeRefusal, Flood, FloodLimits, Handler,
    TimeLimits, Timeout,
};
use std::alloc::Global;

/// The settings and the limits with which connections are opened.
#[derive(Clone, Copy)]
pub(crate) struct Setup {
    pub(crate) config: Config,
    host: Limits,
    limits: ConnectionLimits,
}

/// The name of a connection of a host.
#[derive(Clone, Copy)]
pub(crate) struct Place(Token);

/// Whether a connection goes on after a step.
#[derive(Clone, Copy, PartialEq, Eq)]
pub(crate) enum Fate {
    Goes,
    Over,
}

/// A connection that can be asked to do something.
trait Asks {
    /// Does it, and returns why it was refused.
    fn ask(&mut self, alloc: Global, asked: Asked) -> Option<ExchangeRefusal>;
}

/// A connection of a host, which does what it was asked to at the next time that passes.
#[derive(Drop)]
struct Guest<'a, P> {
    alloc: Global,
    party: P,
    /// The number of its client.
    number: usize,
    told: &'a Told,
}

/// A connection with its handler.
type Hosted<'a> = Guest<'a, Connection<Paths<'a>>>;

/// A host, whose handlers note what they are told.
#[derive(Drop)]
pub(crate) struct Served<'a> {
    host: Host<Hosted<'a>>,
    told: &'a Told,
}

impl Setup {
    /// The default ones.
    pub(crate) fn new() -> Setup {
        Setup {
            config: Config::default(),
            host: Limits::default(),
            limits: ConnectionLimits::default(),
        }
    }

    /// Sets the limit that the next word names to the number after it.
    pub(crate) fn set_limit(&mut self, words: &mut Words<'_>) {
        let name = words.word();
        match name {
            "held" => self.host.held = words.number(),
            "held_in_all" => self.host.held_in_all = words.number(),
            "connections" => self.host.connections = words.number(),
            "closing" => self.limits.closing = words.number(),
            "least_closing" => self.limits.least_closing = words.number(),
            _ => set_time_limit(&mut self.limits, name, words),
        }
    }
}

// Sets the limit of times of this name, or another one.
fn set_time_limit(limits: &mut ConnectionLimits, name: &str, words: &mut Words<'_>) {
    let times: &mut TimeLimits = &mut limits.times;
    match name {
        "opening" => times.opening = words.number(),
        "frame" => times.frame = words.number(),
        "body" => times.body = words.number(),
        "least_body" => times.least_body = words.number(),
        "writing" => times.writing = words.number(),
        "answering" => times.answering = words.number(),
        "idle" => times.idle = words.number(),
        "deferred" => times.deferred = words.number(),
        _ => set_flood_limit(&mut limits.floods, name, words),
    }
}

// Sets the limit of floods of this name.
fn set_flood_limit(floods: &mut FloodLimits, name: &str, words: &mut Words<'_>) {
    match name {
        "stretch" => floods.stretch = words.number(),
        "resets" => floods.resets = words.number(),
        "empty" => floods.empty = words.number(),
        "refused" => floods.refused = words.number(),
        "replies" => floods.replies = words.number(),
        _ => words.unread(),
    }
}

impl<H: Handler> Asks for Connection<H> {
    fn ask(&mut self, alloc: Global, asked: Asked) -> Option<ExchangeRefusal> {
        match asked {
            Asked::Leave => {
                self.leave();
                None
            }
            Asked::Respond {
                stream,
                status,
                gives,
            } => {
                let reply = deferred(alloc, status, gives).ok()?;
                self.respond(stream, reply).err()
            }
            Asked::Reset { stream, code } => self.reset(stream, code).err(),
        }
    }
}

impl<P: Party + Asks> Guest<'_, P> {
    // Does what the connection is asked to, and notes why that is refused.
    fn do_asked(&mut self) {
        let Some(asked) = self.told.asked_of(self.number) else {
            return;
        };
        if let Some(refusal) = self.party.ask(self.alloc, asked) {
            let mut line = Text::new(self.alloc);
            line.push_str(name_of_refusal(refusal));
            self.told.add(self.number, line);
        }
    }
}

impl<P: Party + Asks> Party for Guest<'_, P> {
    ghost steps = { λ _ _ _ _ _. ⊤ };

    ghost held_of = { λ guest. P.held_of guest.party };

    ghost ready_of = { λ guest. P.ready_of guest.party };

    ghost takes = { λ guest size. P.takes guest.party size };

    ghost output_of = { λ guest. P.output_of guest.party };

    fn step(&mut self, own: Own, octets: &[u8], room: &mut [u8]) -> Answer {
        let answer = self.party.step(own, octets, room);
        if matches!(own, Own::Passed { .. }) {
            self.do_asked();
        }
        answer
    }

    fn held(&self) -> usize {
        self.party.held()
    }

    fn is_ready(&self) -> bool {
        self.party.is_ready()
    }

    fn read_size(&self) -> usize {
        self.party.read_size()
    }

    fn output(&self) -> (&[u8], &[u8]) {
        self.party.output()
    }
}

impl<'a> Served<'a> {
    /// A host without connections; nothing where memory was refused.
    pub(crate) fn new(alloc: Global, setup: &Setup, told: &'a Told) -> Option<Served<'a>> {
        match Host::new(alloc, setup.host) {
            Ok(host) => Some(Served { host, told }),
            Err(_) => None,
        }
    }

    /// Opens a connection for the client of this number; nothing where no place is free, or the
    /// connection holds too much.
    pub(crate) fn open(&mut self, alloc: Global, setup: &Setup, number: usize) -> Option<Place> {
        let told = self.told;
        let handler = Paths {
            alloc,
            told,
            number,
        };
        let now = self.host.now();
        let Ok(party) = Connection::new(alloc, setup.config, setup.limits, now, handler) else {
            return None;
        };
        let party = Guest {
            alloc,
            party,
            number,
            told,
        };
        match self.host.step(Step::Opened { party }, &[]) {
            Reply::Opened(token) => Some(Place(token)),
            _ => None,
        }
    }

    // Makes a step other than the opening of a connection; one that is not there is over.
    fn make(&mut self, step: Step<Hosted<'a>>, octets: &[u8]) -> Fate {
        match self.host.step(step, octets) {
            Reply::Own(Answer::Goes) | Reply::NotNow => Fate::Goes,
            _ => Fate::Over,
        }
    }

    // Makes a step of a connection.
    fn step(&mut self, place: Place, own: Own, octets: &[u8]) -> Fate {
        let token = place.0;
        self.make(Step::Own { token, own }, octets)
    }

    /// The transport can be read, written, or both.
    pub(crate) fn ready(&mut self, place: Place, reads: bool, writes: bool) -> Fate {
        self.step(place, Own::Ready { reads, writes }, &[])
    }

    /// Octets have come.
    pub(crate) fn came(&mut self, place: Place, octets: &[u8]) -> Fate {
        self.step(place, Own::Came, octets)
    }

    /// No octets have come.
    pub(crate) fn none_came(&mut self, place: Place) -> Fate {
        self.step(place, Own::NoneCame, &[])
    }

    /// The client has ended its side.
    pub(crate) fn ended(&mut self, place: Place) -> Fate {
        self.step(place, Own::Ended, &[])
    }

    /// The connection acts.
    pub(crate) fn act(&mut self, place: Place) -> Fate {
        self.step(place, Own::Turn, &[])
    }

    /// This many octets of its output were written.
    pub(crate) fn went(&mut self, place: Place, count: usize) -> Fate {
        self.step(place, Own::Went { count }, &[])
    }

    /// No octets of its output were written.
    pub(crate) fn none_went(&mut self, place: Place) -> Fate {
        self.step(place, Own::NoneWent, &[])
    }

    /// Time has passed for all connections.
    pub(crate) fn pass(&mut self, now: u64) {
        let _ = self.make(Step::Passed { now }, &[]);
    }

    /// The transport of a connection is gone.
    pub(crate) fn close(&mut self, place: Place) {
        let token = place.0;
        let _ = self.step(place, Own::Lost, &[]);
        let _ = self.make(Step::Closed { token }, &[]);
    }

    /// Gives the next turn: the connection that has it, and the number of its client.
    pub(crate) fn next_turn(&mut self) -> Option<(Place, usize)> {
        let token = self.host.next_turn()?;
        let guest = self.host.party(token)?;
        Some((Place(token), guest.number))
    }

    /// How many octets a connection takes in its turn, at most.
    pub(crate) fn read_size(&self, place: Place) -> usize {
        self.host.read_size(place.0)
    }

    /// The first two parts of the output of the connection that has the turn.
    pub(crate) fn output(&self, place: Place) -> (&[u8], &[u8]) {
        self.host.output(place.0)
    }

    /// The octets that a connection holds.
    pub(crate) fn holds(&self, place: Place) -> usize {
        match self.host.party(place.0) {
            Some(guest) => guest.held(),
            None => 0,
        }
    }

    /// The octets that all connections hold.
    pub(crate) fn holds_in_all(&self) -> usize {
        self.host.held()
    }

    /// The number of connections that wait for a turn.
    pub(crate) fn waiting(&self) -> usize {
        self.host.waiting()
    }

    /// Why a connection ends, if it does.
    pub(crate) fn why(&self, place: Place) -> Option<CloseReason> {
        self.host.party(place.0)?.party.why()
    }
}

/// Adds the line of why a connection ends.
pub(crate) fn add_why(text: &mut Text, why: CloseReason) {
    match why {
        CloseReason::Ended => text.push_line("ended"),
        CloseReason::Asked => text.push_line("asked"),
        CloseReason::Late(late) => text.push_line(name_of_late(late)),
        CloseReason::Flood(flood) => text.push_line(name_of_flood(flood)),
        CloseReason::Refused(bound) => text.push_line(name_of_bound(bound)),
        CloseReason::Lost => text.push_line("lost"),
        CloseReason::Failed(code) => add_failed(text, code),
    }
}

// Adds the line of a failure with this code.
fn add_failed(text: &mut Text, code: Code) {
    text.push_labeled("failed ", code.number());
    text.push_str("\n");
}

// What took too long.
fn name_of_late(late: Timeout) -> &'static str {
    match late {
        Timeout::Opening => "opening",
        Timeout::Frame => "frame",
        Timeout::Body => "body",
        Timeout::Writing => "writing",
        Timeout::Answering => "answering",
        Timeout::Idle => "idle",
    }
}

// What was sent too often.
fn name_of_flood(flood: Flood) -> &'static str {
    match flood {
        Flood::Resets => "resets",
        Flood::Empty => "empty",
        Flood::Refused => "refused",
        Flood::Replies => "replies",
    }
}

// Which bound was exceeded.
fn name_of_bound(bound: Bound) -> &'static str {
    match bound {
        Bound::Held => "held",
        Bound::HeldInAll => "held in all",
        Bound::Memory => "memory",
    }
}
