//! A client or a server of complete messages.
//!
//! - `new client`, `new server`, `take`, `out`, `out N`, `drop out`, `ping OCTETS`, `go_away`,
//!   `fail CODE`, `reset ID CODE`, `release ID N`, `change VALUES`, `waiting`, `room ID`, `owed ID`
//!   and `next_live ID` as of one end of a connection (`h2_case_conn::conn`). What is handed out is
//!   as [`crate::end_events`] says.
//! - `start`: the peer's opening comes, with SETTINGS without values, and all output is taken away
//!   and not shown.
//! - `request MESSAGE`, `respond ID MESSAGE`: messages are written as [`h2_case::messages`] says.
//!   A refused one must be returned unchanged.
//! - `begin FIELDS`, at a server `begin ID FIELDS`: a head is sent whose body comes in parts.
//!   Fields are written as the head of a message. `body ID OCTETS` and `body ID OCTETS end`: how
//!   many of the octets are sent; there may be none. `trailers ID FIELDS`.
//! - `serve each N MESSAGE`, at a client `ask each N MESSAGE`: see [`crate::crowds`].
//! - `pump`, `pump_some N`, `release_all`, `unsent ID`, `is_quiet`, `is_full`, `is_drained`;
//!   `last_flow`; `last_malformed`: the stream and the rule, or `none`; `active`: the numbers of
//!   all active streams, and `count active`: their number; `count out`: the number of octets of
//!   output that are taken away.
//! - `other`: the commands that follow are for the other of two ends, which is new at first.
//!   `exchange N`: octets go to the other end and back, N at once at most, until none are queued
//!   ([`crate::joined`]).
//!
//! Each case is run with the octets of a `take` in one piece, and then one a piece; and where none
//! is longer than 160 and no command has repeated octets, in two at each place. An answer that
//! differs then is added. A case with `serve each` or `ask each` is run once.

use crate::crowds::{add_crowd, read_again};
use crate::joined::exchange;
use crate::side::Side;
use h2_case::case::Case;
use h2_case::driver::{Answer, Driver};
use h2_case::fields::read_fields;
use h2_case::messages::{add_message, read_message};
use h2_case::octets::{add_frames, read_part};
use h2_case::text::Text;
use h2_case::words::Words;
use h2_case_conn::acts::{read_code, read_config, read_ping};
use h2_case_conn::answers::{add_answer, add_done, add_name, add_option, add_value};
use h2_case_conn::conn::{drop_out, read_role};
use h2_case_conn::cuts::{Cut, Cutting, answers_in_cuts, read_frames};
use h2_case_conn::notes::{Notes, add_taken};
use h2_ends::{EndRefusal, Message};
use std::alloc::Global;

/// Two ends; commands are for the first.
#[derive(Drop)]
struct State {
    alloc: Global,
    cut: Cut,
    near: Option<Side>,
    far: Option<Side>,
}

// A new end.
fn new_side(alloc: Global, words: &mut Words<'_>, text: &mut Text) -> Option<Side> {
    let role = read_role(words);
    let side = Side::new(alloc, role, read_config(words));
    if side.is_none() {
        text.refuse();
    }
    side
}

// Takes all output away, from where it lies.
fn output(alloc: Global, side: &mut Side) -> Vec<u8> {
    let mut out = Vec::new(alloc);
    for _ in 0..u64::MAX {
        if matches!(side.consume_all(&mut out), Ok(0) | Err(_)) {
            break;
        }
    }
    out
}

// Takes at most `count` octets of output away.
fn part_of_output(alloc: Global, side: &mut Side, count: usize, text: &mut Text) -> Vec<u8> {
    let mut out = Vec::new(alloc);
    match side.put_out(count, &mut out) {
        Ok(given) if given == out.len() => {}
        _ => text.refuse(),
    }
    out
}

// A message as it is written.
fn text_of(alloc: Global, message: &Message) -> Text {
    let mut text = Text::new(alloc);
    add_message(alloc, &mut text, message);
    text
}

// Says where another message is returned than was given.
fn add_back(alloc: Global, text: &mut Text, given: Words<'_>, back: &Message) {
    let handed = text_of(alloc, back);
    let own = text_of(alloc, &read_again(alloc, given, text));
    if handed.as_str() != own.as_str() {
        text.push_str("another message is handed back: ");
        text.push_text(&handed);
        text.push_str("\n");
    }
}

// Adds why a message is refused, and says where another one is returned.
fn add_refused(alloc: Global, text: &mut Text, given: Words<'_>, refused: (Message, EndRefusal)) {
    let (message, refusal) = refused;
    add_back(alloc, text, given, &message);
    add_name(alloc, text, &refusal);
}

// Makes a request, and adds the answer.
fn request(alloc: Global, side: &mut Side, words: &mut Words<'_>, text: &mut Text) {
    let given = *words;
    match side.request(read_message(alloc, words)) {
        Ok(id) => add_value(text, id),
        Err(refused) => add_refused(alloc, text, given, refused),
    }
}

// Gives a response, and adds the answer.
fn respond(alloc: Global, side: &mut Side, words: &mut Words<'_>, text: &mut Text) {
    let id = words.number();
    let given = *words;
    match side.respond(id, read_message(alloc, words)) {
        Ok(()) => text.push_line("done"),
        Err(refused) => add_refused(alloc, text, given, refused),
    }
}

// Begins a message, and adds the answer.
fn begin(alloc: Global, side: &mut Side, words: &mut Words<'_>, text: &mut Text) {
    if side.is_server() {
        let id = words.number();
        let head = read_fields(alloc, words);
        add_done(alloc, text, side.begin_response(id, &head));
    } else {
        let head = read_fields(alloc, words);
        add_answer(alloc, text, side.begin_request(&head));
    }
}

// Sends a part of a body, and adds the answer.
fn send_body(alloc: Global, side: &mut Side, words: &mut Words<'_>, text: &mut Text) {
    let id = words.number();
    let (octets, ends) = read_part(alloc, words);
    add_answer(alloc, text, side.send_body(id, &octets, ends));
}

// Sends trailers, and adds the answer.
fn send_trailers(alloc: Global, side: &mut Side, words: &mut Words<'_>, text: &mut Text) {
    let id = words.number();
    let list = read_fields(alloc, words);
    add_done(alloc, text, side.send_trailers(id, &list));
}

// Adds the numbers of the active streams, or their count.
fn add_active(side: &Side, is_counted: bool, text: &mut Text) {
    let (mut count, mut last) = (0u32, 0u32);
    let mut divider = "";
    for _ in 0..u32::MAX {
        let Some(next) = side.conn().next_live(last) else {
            break;
        };
        if !is_counted {
            text.push_labeled(divider, next);
            divider = " ";
        }
        count = count.wrapping_add(1);
        last = next;
    }
    if is_counted || count == 0 {
        text.push_value(count);
    }
    text.push_str("\n");
}

/// What a client gets first: SETTINGS without values.
const TO_CLIENT: &[u8] = b"\0\0\0\x04\0\0\0\0\0";

/// What a server gets first: the preface, and SETTINGS without values.
const TO_SERVER: &[u8] = b"PRI * HTTP/2.0\r\n\r\nSM\r\n\r\n\0\0\0\x04\0\0\0\0\0";

// The peer's opening comes, and all output is taken away.
fn start(alloc: Global, cut: Cut, side: &mut Side, text: &mut Text) {
    let octets = if side.is_server() {
        TO_SERVER
    } else {
        TO_CLIENT
    };
    add_taken(side, cut, octets, Notes::new(alloc, false), text);
    drop_out(&output(alloc, side), text);
}

// Takes the octets of a command.
fn take(alloc: Global, cut: Cut, side: &mut Side, words: &mut Words<'_>, text: &mut Text) {
    let notes = Notes::new(alloc, words.has("quietly"));
    let octets = read_frames(alloc, words);
    add_taken(side, cut, &octets, notes, text);
}

// Takes output away, and adds its frames.
fn add_output(alloc: Global, side: &mut Side, words: &mut Words<'_>, text: &mut Text) {
    let out = if words.is_empty() {
        output(alloc, side)
    } else {
        part_of_output(alloc, side, words.number(), text)
    };
    add_frames(text, &out);
}

// Takes all output away.
fn drop_output(alloc: Global, side: &mut Side, words: &mut Words<'_>, text: &mut Text) {
    words.expect("out");
    drop_out(&output(alloc, side), text);
}

// Adds a count.
fn add_count(alloc: Global, side: &mut Side, words: &mut Words<'_>, text: &mut Text) {
    match words.word() {
        "active" => add_active(side, true, text),
        "out" => add_value(text, output(alloc, side).len()),
        _ => words.unread(),
    }
}

// Runs a command about octets, or another one.
fn answer_one(
    alloc: Global,
    cut: Cut,
    side: &mut Side,
    name: &str,
    words: &mut Words<'_>,
    text: &mut Text,
) {
    match name {
        "start" => start(alloc, cut, side, text),
        "take" => take(alloc, cut, side, words, text),
        "out" => add_output(alloc, side, words, text),
        "drop" => drop_output(alloc, side, words, text),
        "count" => add_count(alloc, side, words, text),
        _ => answer_message(alloc, side, name, words, text),
    }
}

// Runs a command about messages, or another one.
fn answer_message(
    alloc: Global,
    side: &mut Side,
    name: &str,
    words: &mut Words<'_>,
    text: &mut Text,
) {
    match name {
        "request" => request(alloc, side, words, text),
        "respond" => respond(alloc, side, words, text),
        "serve" | "ask" => add_crowd(alloc, side, words, text),
        "pump" => add_answer(alloc, text, side.pump()),
        "pump_some" => add_answer(alloc, text, side.pump_some(words.number())),
        "release_all" => add_done(alloc, text, side.release_all()),
        _ => answer_part(alloc, side, name, words, text),
    }
}

// Runs a command about a message that is given in parts, or another one.
fn answer_part(alloc: Global, side: &mut Side, name: &str, words: &mut Words<'_>, text: &mut Text) {
    match name {
        "begin" => begin(alloc, side, words, text),
        "body" => send_body(alloc, side, words, text),
        "trailers" => send_trailers(alloc, side, words, text),
        _ => answer_call(alloc, side, name, words, text),
    }
}

// Makes a call of the connection, or reads.
fn answer_call(alloc: Global, side: &mut Side, name: &str, words: &mut Words<'_>, text: &mut Text) {
    match name {
        "reset" => {
            let id = words.number();
            add_done(alloc, text, side.reset(id, words.number()));
        }
        "release" => {
            let id = words.number();
            add_done(alloc, text, side.release(id, words.number()));
        }
        "ping" => add_done(alloc, text, side.ping(read_ping(alloc, words))),
        "go_away" => add_done(alloc, text, side.go_away()),
        "fail" => add_done(alloc, text, side.fail(read_code(words))),
        "change" => add_done(alloc, text, side.change_settings(read_config(words))),
        "last_malformed" => add_malformed(alloc, side, text),
        _ => read(side, name, words, text),
    }
}

// Adds which part of a message was refused last.
fn add_malformed(alloc: Global, side: &Side, text: &mut Text) {
    match side.last_malformed() {
        Some((id, rule)) => {
            text.push_value(id);
            text.push_str(" ");
            add_name(alloc, text, &rule);
        }
        None => text.push_line("none"),
    }
}

// Adds the value of a reader.
fn read(side: &Side, name: &str, words: &mut Words<'_>, text: &mut Text) {
    match name {
        "waiting" => add_value(text, side.conn().waiting()),
        "is_quiet" => add_value(text, side.is_quiet()),
        "is_full" => add_value(text, side.is_full()),
        "is_drained" => add_value(text, side.is_drained()),
        "last_flow" => add_value(text, side.last_flow()),
        "active" => add_active(side, false, text),
        "room" => add_option(text, side.conn().room(words.number())),
        "owed" => add_value(text, side.conn().owed(words.number())),
        "unsent" => add_value(text, side.unsent(words.number())),
        "next_live" => add_option(text, side.conn().next_live(words.number())),
        _ => words.unread(),
    }
}

impl State {
    // Moves octets between the two ends.
    fn exchange(&mut self, words: &mut Words<'_>, text: &mut Text) {
        let most = words.number();
        match (&mut self.near, &mut self.far) {
            (Some(near), Some(far)) => exchange(self.alloc, near, far, most, text),
            _ => words.unread(),
        }
    }
}

impl Driver for State {
    fn answer(&mut self, name: &str, words: &mut Words<'_>, text: &mut Text) {
        match (name, &mut self.near) {
            ("new", near) => *near = new_side(self.alloc, words, text),
            ("other", near) => std::mem::swap(near, &mut self.far),
            ("exchange", _) => self.exchange(words, text),
            (_, Some(side)) => answer_one(self.alloc, self.cut, side, name, words, text),
            _ => words.unread(),
        }
    }
}

impl Cutting for State {
    fn new(alloc: Global, cut: Cut) -> State {
        State {
            alloc,
            cut,
            near: None,
            far: None,
        }
    }
}

/// The answers to a case's commands, however the octets are cut.
pub fn run_case(alloc: Global, case: &Case) -> Vec<Answer> {
    answers_in_cuts::<State>(alloc, case)
}
