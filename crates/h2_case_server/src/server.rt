//! Served connections: a host in memory, and clients that are octets.
//!
//! - `config TABLE WINDOW STREAMS`: the settings of the connections that are opened then; at first
//!   the default ones. `limit NAME N`: a limit of these, or of the host, before the first `open`:
//!   `opening`, `frame`, `body`, `least_body`, `writing`, `answering`, `idle` and `deferred` (times
//!   in milliseconds; octets), `stretch`, `resets`, `empty`, `refused` and `replies` (floods),
//!   `closing` and `least_closing`, `held`, `held_in_all` and `connections`.
//! - `open NAME`: a client of this name connects; the commands that follow are for it, up to the
//!   next `open` or `on NAME`. `full` where the host has no place. `start NAME`: the same; then the
//!   client sends the preface and SETTINGS without values, and the output is taken away.
//! - `send OCTETS`: the client sends octets, as `take` of one end of a connection has them
//!   (`h2_case_conn::conn`). Then the host gives turns as `h2_mio` does, until no connection is
//!   ready: a read (of two frames at most), the act, and at most 16 writes. `send slowly OCTETS`:
//!   one octet after another, with turns after each. `client`: the preface, and SETTINGS without
//!   values. `queue OCTETS`: nobody has a turn yet. `turns N`: at most N turns are given; the names
//!   of the clients that have them.
//! - `get ID PATH ID PATH ..`: the client sends HEADERS with complete requests, in one piece, whose
//!   fields are the method GET, the scheme http and the path, with `?ID` after it. `post` is the
//!   same with the method POST, and no END_STREAM.
//! - `takes N`, `takes all`: how many octets of output the client takes from now on. `ends`: it
//!   ends its side. `close`: its transport is gone.
//! - `time MS`: time passes until `MS` milliseconds after the start, in steps of at most a second,
//!   with turns after each; `time MS at once`: in one step.
//! - `leave`: the connection is asked to end in order. `respond STREAM STATUS N`: the response of
//!   the exchange on this stream is given, with a body of N octets; `respond STREAM STATUS parts`:
//!   in parts; `respond STREAM STATUS nothing`: none is. `reset STREAM CODE`: the stream is reset.
//! - `out`: the frames of what the client has taken; `drop out`, `count out`: it is taken away, and
//!   not shown, or its number of octets is.
//! - `told`: what the handler was told: `head ID`, `body ID COUNT`, `trailers ID`, the first two
//!   with `end` where the request is complete; `part ID ROOM`; and `over ID` with `done`, `closed`,
//!   `reset CODE ours` or `reset CODE theirs`. `ID` is what comes after `?` in the path, and else
//!   0. `late STREAM`: a response was deferred for too long. Of `respond` and `reset` also `refused
//!   over` or `refused answered`. The same line N times one after another has `xN`.
//! - `why`: `up`; `ending` and `over`, each with why, as [`crate::served::add_why`] says; `gone`
//!   after `close`. `holds`: the number of octets that the connection holds; `holds in all`: that
//!   of all. `waiting`: the number of connections that wait for a turn.
//!
//! A path says what the handler does. Bodies count up.
//!
//! - `/whole/N`: status 200 with a body of N octets, once the request is complete; `/early/N`: at
//!   its head. `/refuses/N`: at its head the request is refused, with status 413 and such a body.
//!   `/bad`: a response that breaks a rule, at the head.
//! - `/parts/N`: the head of a response, and then N octets in parts that are as long as may be;
//!   `/trailers/N`: then the trailers `x: y`; `/stalls/N`: then nothing; `/fails/N`: then a fault.
//! - `/defers/N`: the response is deferred; in parts it has N octets.
//! - `/later`: no response. `/fails`: a fault at the head. `/resets/CODE`: a reset.
//! - `/keeps/N`: status 200 once the request is complete, of whose body N octets are used at most.
//!   `/holds/N`: the same, where all are used, and N octets are held.
//! - Any other: status 404.

use crate::connections::Connections;
use crate::requests::{GET, OPENING, POST, read_requests};
use crate::served::Setup;
use crate::told::{Asked, Gives, Told};
use h2_case::case::Case;
use h2_case::driver::{Answer, Driver};
use h2_case::text::Text;
use h2_case::words::Words;
use h2_case_conn::acts::read_config;
use h2_case_conn::cuts::{answers_of, read_frames};
use h2_server::Code;
use std::alloc::Global;

/// The state of a case.
#[derive(Drop)]
struct State<'a> {
    alloc: Global,
    told: &'a Told,
    setup: Setup,
    /// The host and its clients, once a client has connected.
    connections: Option<Connections<'a>>,
}

// The next word, as a number of octets.
fn read_count(words: &mut Words<'_>) -> usize {
    if words.has("all") {
        usize::MAX
    } else {
        words.number()
    }
}

// Sends the octets of a command.
fn send(alloc: Global, connections: &mut Connections<'_>, words: &mut Words<'_>) {
    if words.has("slowly") {
        let octets = read_frames(alloc, words);
        connections.send_slowly(&octets, words);
    } else {
        let octets = read_frames(alloc, words);
        connections.send(&octets, words);
    }
}

// Runs a command by which octets are sent, or another one.
fn answer_octets(
    alloc: Global,
    connections: &mut Connections<'_>,
    name: &str,
    words: &mut Words<'_>,
    text: &mut Text,
) {
    match name {
        "send" => send(alloc, connections, words),
        "client" => connections.send(OPENING, words),
        "queue" => {
            let octets = read_frames(alloc, words);
            connections.queue(&octets, words);
        }
        "get" => {
            let octets = read_requests(alloc, GET, words);
            connections.send(&octets, words);
        }
        "post" => {
            let octets = read_requests(alloc, POST, words);
            connections.send(&octets, words);
        }
        _ => answer_act(connections, name, words, text),
    }
}

// Runs a command by which something else happens, or another one.
fn answer_act(
    connections: &mut Connections<'_>,
    name: &str,
    words: &mut Words<'_>,
    text: &mut Text,
) {
    match name {
        "on" => connections.choose(words.word(), words),
        "turns" => connections.add_turns(words.number(), words, text),
        "takes" => connections.take(read_count(words), words),
        "ends" => connections.end(words),
        "close" => connections.close(words),
        "time" => connections.pass(words),
        "leave" => connections.ask(Asked::Leave, words),
        "respond" => {
            let asked = read_response(words);
            connections.ask(asked, words);
        }
        "reset" => {
            if let Some(asked) = read_reset(words) {
                connections.ask(asked, words);
            }
        }
        _ => read(connections, name, words, text),
    }
}

// Reads the response of a stream: its status, and the number of its octets, or `parts`.
fn read_response(words: &mut Words<'_>) -> Asked {
    let stream = words.number();
    let status = words.number();
    let gives = if words.has("parts") {
        Gives::Parts
    } else if words.has("nothing") {
        Gives::Nothing
    } else {
        Gives::Whole(words.number())
    };
    Asked::Respond {
        stream,
        status,
        gives,
    }
}

// Reads a stream, and the code with which it is reset.
fn read_reset(words: &mut Words<'_>) -> Option<Asked> {
    let stream = words.number();
    let code = Code::from_number(words.number());
    if code.is_none() {
        words.unread();
    }
    Some(Asked::Reset {
        stream,
        code: code?,
    })
}

// Adds what has come of it.
fn read(connections: &mut Connections<'_>, name: &str, words: &mut Words<'_>, text: &mut Text) {
    match name {
        "out" => connections.add_output(words, text),
        "drop" => connections.drop_output(words, text),
        "count" => connections.count_output(words, text),
        "told" => connections.add_told(text),
        "why" => connections.add_why(words, text),
        "holds" => connections.add_held(words, text),
        "waiting" => connections.add_waiting(text),
        _ => words.unread(),
    }
}

impl State<'_> {
    // Opens a connection, of the first host where there is none.
    fn open(&mut self, words: &mut Words<'_>, text: &mut Text) {
        if self.connections.is_none() {
            self.connections = Connections::new(self.alloc, &self.setup, self.told);
        }
        let name = words.word();
        match &mut self.connections {
            Some(connections) => connections.open(&self.setup, name, words, text),
            None => text.refuse(),
        }
    }

    // Opens a connection whose client sends what comes first.
    fn start(&mut self, words: &mut Words<'_>, text: &mut Text) {
        self.open(words, text);
        if let Some(connections) = &mut self.connections {
            connections.start(words, text);
        }
    }
}

impl Driver for State<'_> {
    fn answer(&mut self, name: &str, words: &mut Words<'_>, text: &mut Text) {
        match (name, &mut self.connections) {
            ("config", _) => self.setup.config = read_config(words),
            ("limit", _) => self.setup.set_limit(words),
            ("open", _) => self.open(words, text),
            ("start", _) => self.start(words, text),
            (_, Some(connections)) => answer_octets(self.alloc, connections, name, words, text),
            _ => words.unread(),
        }
    }
}

/// The answers to a case's commands, up to the first that has none.
pub fn run_case(alloc: Global, case: &Case) -> Vec<Answer> {
    let told = Told::new(alloc);
    let state = State {
        alloc,
        told: &told,
        setup: Setup::new(),
        connections: None,
    };
    answers_of(alloc, case, state)
}
