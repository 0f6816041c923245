//! One end of a connection, of calls and octets.
//!
//! - `new client` or `new server`, and the limit of its table, its initial window and its streams,
//!   where they are not 4096, 65535 and 100; after these `frames N`, the greatest frame that it
//!   reads, where it is not 16384.
//! - `take OCTETS`: what is reported of them, as [`crate::conn_events`] says, and `fault CODE`
//!   where the connection fails. `take each N FRAMES` is the frames N times, with stream numbers
//!   that are 2 higher each time. `take quietly ..`: the number of events of each kind, and the
//!   last. `take once ..`: once the octets are used, nothing more is asked for; without octets
//!   that is one call.
//! - The calls: `open FIELDS`, `fields ID FIELDS`, `data ID OCTETS` (each with `end` before its
//!   fields or octets where it ends the stream), `release ID N`, `widen N`, `reset ID CODE`,
//!   `refuse ID CODE`, `ping OCTETS`, `go_away`, `fail CODE`, `change VALUES` (as of `new`), and
//!   `out N`: the frames of at most `N` octets of the output. Each answers its number, `done`, or
//!   the rule by which it is refused.
//! - `out`: the frames of all output; `drop out` and `drop out N`: it is taken away, and not shown.
//! - The readers: `waiting`, `lent` (the frames of the queued output), `held`, `place`, `due`,
//!   `granted`, `failed`, `why`, `next_number`, `room ID`, `owed ID`, `next_live ID`, `is_active ID`,
//!   `refusal_to_open FIELDS`, `last_flow`, `resets_received`, `empty_frames_received`,
//!   `pings_received`, `settings_received`, `block_stream`, and `peer_settings` (the initial window
//!   and the greatest frame).
//! - `changes`: which of these numbers have changed since the last such command, or, at the first
//!   one, all: `waiting N`, `held N`, `due N`, `room N`; `room ID N` and `owed ID N` of each active
//!   stream; `live N`, how many of these there are, and `sum N`, the sum of their numbers.
//! - `replay`: the calls and octets so far, by `h2_replay`: what it keeps, in order.
//!
//! Each case is run with the octets of a `take` in one piece, and then one a piece, or seven as
//! long as more than 20,000 are left; and where none is longer than 160 and no command has
//! repeated octets, or one is `take anywhere OCTETS`, in two at each place. An answer that differs
//! then is added.

use crate::acts::{made_config, make_call, read_act, read_values};
use crate::answers::{add_labeled, add_name, add_option, add_rule, add_value};
use crate::conn_events::{note_event, note_fault};
use crate::cuts::{Cut, Cutting, answers_in_cuts, read_frames};
use crate::notes::{Notes, Taker, Used, add_taken, add_taken_once};
use crate::numbers::{Number, add_changed, numbers_of};
use crate::replayed::add_replay;
use h2_case::case::{Case, CaseError};
use h2_case::driver::{Answer, Driver};
use h2_case::fields::read_fields;
use h2_case::octets::add_frames;
use h2_case::text::Text;
use h2_case::words::Words;
use h2_conn::{Config, Conn, Refusal, Role};
use h2_replay::Act;
use std::alloc::Global;

/// An end, and the acts done to it.
#[derive(Drop)]
struct State {
    alloc: Global,
    cut: Cut,
    role: Role,
    config: Config,
    conn: Option<Conn>,
    acts: Vec<Act>,
    /// The numbers of the end, as they were last said.
    numbers: Vec<Number>,
}

// A new end.
fn new_conn(alloc: Global, role: Role, config: Config) -> Result<Conn, Refusal> {
    match role {
        Role::Client => Conn::client(alloc, config),
        Role::Server => Conn::server(alloc, config),
    }
}

/// Which end a command names.
pub fn read_role(words: &mut Words<'_>) -> Role {
    match words.word() {
        "client" => Role::Client,
        "server" => Role::Server,
        _ => {
            words.unread();
            Role::Client
        }
    }
}

impl Taker<Notes> for Conn {
    fn take_piece(&mut self, piece: &[u8], notes: &mut Notes) -> Option<Used> {
        match self.take(piece) {
            Ok(taken) => Some(Used {
                count: taken.used,
                comes_out: note_event(notes, taken.event),
            }),
            Err(fault) => {
                note_fault(notes, fault);
                None
            }
        }
    }
}

// Keeps what was done.
fn keep(acts: &mut Vec<Act>, act: Act, text: &mut Text) {
    if acts.push(act).is_err() {
        text.refuse();
    }
}

// Takes all output away, from where it lies.
fn output(alloc: Global, conn: &mut Conn) -> Vec<u8> {
    let mut out = Vec::new(alloc);
    for _ in 0..u64::MAX {
        if conn.ready().is_err() {
            break;
        }
        if conn.append_waiting(0, &mut out).is_err() {
            break;
        }
        if matches!(conn.consume(usize::MAX), Ok(0) | Err(_)) {
            break;
        }
    }
    out
}

// Adds the frames of the queued output.
fn add_lent(alloc: Global, conn: &Conn, words: &mut Words<'_>, text: &mut Text) {
    let mut lent = Vec::new(alloc);
    if conn.append_waiting(0, &mut lent).is_err() {
        words.fail(CaseError::Memory);
    }
    add_frames(text, &lent);
}

// Adds why fields can't open a stream.
fn add_refusal(alloc: Global, conn: &Conn, words: &mut Words<'_>, text: &mut Text) {
    let fields = read_fields(alloc, words);
    add_rule(alloc, text, conn.refusal_to_open(&fields));
}

// Adds the code with which the connection has failed.
fn add_failed(conn: &Conn, text: &mut Text) {
    match conn.failed() {
        Some(code) => write!(text, "{code:?}\n"),
        None => text.push_line("none"),
    }
}

// Adds why the connection has failed.
fn add_why(conn: &Conn, text: &mut Text) {
    match conn.why() {
        Some(why) => write!(text, "{why:?}\n"),
        None => text.push_line("none"),
    }
}

/// Says where there is no output.
pub fn drop_out(out: &[u8], text: &mut Text) {
    if out.is_empty() {
        text.push_line("nothing waits");
    }
}

// Adds the value of the reader of this name; returns whether there is one.
fn read(alloc: Global, conn: &Conn, name: &str, words: &mut Words<'_>, text: &mut Text) -> bool {
    match name {
        "waiting" => add_value(text, conn.waiting()),
        "held" => add_value(text, conn.held()),
        "place" => add_value(text, conn.place()),
        "due" => add_value(text, conn.due()),
        "granted" => add_value(text, conn.granted()),
        "next_number" => add_option(text, conn.next_number()),
        "failed" => add_failed(conn, text),
        "why" => add_why(conn, text),
        "lent" => add_lent(alloc, conn, words, text),
        "refusal_to_open" => add_refusal(alloc, conn, words, text),
        _ => return read_stream(conn, name, words, text),
    }
    true
}

// Adds what the reader of this name says of the peer's frames; returns whether there is one.
fn read_frames_of_peer(conn: &Conn, name: &str, text: &mut Text) -> bool {
    match name {
        "last_flow" => add_value(text, conn.last_flow()),
        "resets_received" => add_value(text, conn.resets_received()),
        "empty_frames_received" => add_value(text, conn.empty_frames_received()),
        "pings_received" => add_value(text, conn.pings_received()),
        "settings_received" => add_value(text, conn.settings_received()),
        "block_stream" => add_option(text, conn.block_stream()),
        "peer_settings" => {
            let settings = conn.peer_settings();
            text.push_value(settings.initial_window_size);
            add_labeled(text, " ", settings.max_frame_size);
        }
        _ => return false,
    }
    true
}

// Adds the value of the reader of this name for a stream; returns whether there is one.
fn read_stream(conn: &Conn, name: &str, words: &mut Words<'_>, text: &mut Text) -> bool {
    match name {
        "room" => add_option(text, conn.room(words.number())),
        "owed" => add_value(text, conn.owed(words.number())),
        "next_live" => add_option(text, conn.next_live(words.number())),
        "is_active" => add_value(text, conn.is_active(words.number())),
        _ => return read_frames_of_peer(conn, name, text),
    }
    true
}

impl State {
    // Begins with a new end.
    fn begin(&mut self, words: &mut Words<'_>, text: &mut Text) {
        self.role = read_role(words);
        let values = read_values(words);
        match made_config(values, words) {
            Ok(config) => self.open(config, text),
            Err(bad) => add_name(self.alloc, text, &bad),
        }
    }

    // Begins with a new end of these settings.
    fn open(&mut self, config: Config, text: &mut Text) {
        self.config = config;
        self.acts.clear();
        self.numbers.clear();
        match new_conn(self.alloc, self.role, config) {
            Ok(conn) => self.conn = Some(conn),
            Err(_) => text.refuse(),
        }
    }

    // Takes octets.
    fn take(&mut self, words: &mut Words<'_>, text: &mut Text) {
        let is_quiet = words.has("quietly");
        let _ = words.has("anywhere");
        let is_once = words.has("once");
        let octets = read_frames(self.alloc, words);
        let notes = Notes::new(self.alloc, is_quiet);
        match &mut self.conn {
            Some(conn) if is_once => add_taken_once(conn, self.cut, &octets, notes, text),
            Some(conn) => add_taken(conn, self.cut, &octets, notes, text),
            None => {}
        }
        keep(&mut self.acts, Act::Take(octets), text);
    }

    // Takes all output away, which is an act.
    fn output(&mut self, text: &mut Text) -> Vec<u8> {
        keep(&mut self.acts, Act::PutOut(usize::MAX), text);
        match &mut self.conn {
            Some(conn) => output(self.alloc, conn),
            None => Vec::new(self.alloc),
        }
    }

    // Takes at most `count` octets of output away.
    fn part_of_output(&mut self, words: &mut Words<'_>) -> Vec<u8> {
        let count = words.number();
        let mut out = Vec::new(self.alloc);
        let is_given = match &mut self.conn {
            Some(conn) => matches!(conn.put_out(count, &mut out), Ok(given) if given == count),
            None => false,
        };
        if !is_given || out.len() != count {
            words.unread();
        }
        out
    }

    // Takes all output away, and adds its frames.
    fn add_output(&mut self, text: &mut Text) {
        let out = self.output(text);
        add_frames(text, &out);
    }

    // Takes output away.
    fn drop_output(&mut self, words: &mut Words<'_>, text: &mut Text) {
        words.expect("out");
        let out = if words.is_empty() {
            self.output(text)
        } else {
            self.part_of_output(words)
        };
        drop_out(&out, text);
    }

    // Adds the numbers that have changed.
    fn add_changes(&mut self, text: &mut Text) {
        if let Some(conn) = &self.conn {
            let now = numbers_of(self.alloc, conn, text);
            add_changed(&self.numbers, &now, text);
            self.numbers = now;
        }
    }

    // Replays what was done.
    fn replay(&mut self, text: &mut Text) {
        let acts = std::mem::replace(&mut self.acts, Vec::new(self.alloc));
        add_replay(self.alloc, self.role, self.config, acts, text);
    }

    // Makes a call, or reads.
    fn call(&mut self, name: &str, words: &mut Words<'_>, text: &mut Text) {
        match &mut self.conn {
            Some(conn) if !read(self.alloc, conn, name, words, text) => {
                let act = read_act(self.alloc, name, words);
                make_call(self.alloc, conn, &act, text);
                keep(&mut self.acts, act, text);
            }
            Some(_) => {}
            None => words.unread(),
        }
    }
}

impl Driver for State {
    fn answer(&mut self, name: &str, words: &mut Words<'_>, text: &mut Text) {
        if self.conn.is_none() && name != "new" {
            words.unread();
        }
        match name {
            "new" => self.begin(words, text),
            "take" => self.take(words, text),
            "out" if words.is_empty() => self.add_output(text),
            "drop" => self.drop_output(words, text),
            "changes" => self.add_changes(text),
            "replay" => self.replay(text),
            _ => self.call(name, words, text),
        }
    }
}

impl Cutting for State {
    fn new(alloc: Global, cut: Cut) -> State {
        State {
            alloc,
            cut,
            role: Role::Client,
            config: Config::default(),
            conn: None,
            acts: Vec::new(alloc),
            numbers: Vec::new(alloc),
        }
    }
}

/// The answers to a case's commands, however the octets are cut.
pub fn run_case(alloc: Global, case: &Case) -> Vec<Answer> {
    answers_in_cuts::<State>(alloc, case)
}
