//! Many requests of a client on one connection.

use super::runs::{Calls, Engine, SHORT, Setup, WHOLE};
use crate::side::Side;
use h2_case::case::CaseError;
use h2_case::messages::read_message;
use h2_case::octets::add_octets;
use h2_case::text::Text;
use h2_case::words::Words;
use h2_case_conn::answers::{add_list, extend, lines_of};
use h2_case_conn::cuts::WHOLE as UNCUT;
use h2_case_conn::notes::{Taker, Used, take_part};
use h2_ends::{EndEvent, FieldList, Message};
use h2_engines::Config;
use h2_spec_log::Role;
use std::alloc::Global;

/// A response, as far as it has come.
#[derive(Drop)]
struct Response {
    head: Text,
    body: Vec<u8>,
    /// Whether it is complete.
    ended: bool,
}

/// The responses that have come, in the order of their streams.
#[derive(Drop)]
struct Heard {
    alloc: Global,
    responses: Vec<Response>,
    /// Whether all that has come is as expected.
    is_good: bool,
    is_refused: bool,
}

impl Heard {
    // Keeps the head of a response.
    fn keep_head(&mut self, id: u32, list: &FieldList, ended: bool) {
        let mut head = Text::new(self.alloc);
        add_list(self.alloc, &mut head, list);
        let response = Response {
            head,
            body: Vec::new(self.alloc),
            ended,
        };
        self.is_good &= (id / 2) as usize == self.responses.len();
        if self.responses.push(response).is_err() {
            self.is_refused = true;
        }
    }

    // Keeps octets of a body.
    fn keep_body(&mut self, id: u32, octets: &[u8], ended: bool) {
        match self.responses.get_mut((id / 2) as usize) {
            Some(response) if !response.ended => {
                response.ended = ended;
                if response.body.extend_from_slice(octets).is_err() {
                    self.is_refused = true;
                }
            }
            _ => self.is_good = false,
        }
    }

    // Keeps what is handed out, if something is; returns whether it is.
    fn keep(&mut self, handed: Option<EndEvent<&FieldList, &[u8]>>) -> bool {
        match handed {
            Some(EndEvent::Head { id, list, end }) => self.keep_head(id, list, end),
            Some(EndEvent::Body { id, bytes, end }) => self.keep_body(id, bytes, end),
            Some(EndEvent::Acked) => {}
            Some(_) => self.is_good = false,
            None => return false,
        }
        true
    }

    // Adds the lines of the responses.
    fn add_to(&self, words: &mut Words<'_>, text: &mut Text) {
        if !self.is_good {
            words.unread();
        }
        if self.is_refused {
            text.refuse();
        }
        for (place, response) in self.responses.iter().enumerate() {
            add_response(text, place, response);
        }
    }
}

impl Taker<Heard> for Side {
    fn take_piece(&mut self, piece: &[u8], heard: &mut Heard) -> Option<Used> {
        match self.take(piece) {
            Ok(taken) => Some(Used {
                count: taken.used,
                comes_out: heard.keep(taken.event),
            }),
            Err(_) => {
                heard.is_good = false;
                None
            }
        }
    }
}

// Adds the lines of a response: its stream, its fields, and its body.
fn add_response(text: &mut Text, place: usize, response: &Response) {
    text.push_value(place);
    text.push_line(if response.ended { " whole" } else { " cut off" });
    text.push_text(&response.head);
    text.push_str("  ");
    add_octets(text, &response.body);
    text.push_str("\n");
}

// The words of a request whose path and body are of its place.
fn request_of(alloc: Global, place: u32, words: &mut Words<'_>) -> String {
    let mut text = Text::new(alloc);
    text.push_labeled(":method: POST | :scheme: http | :path: /", place);
    text.push_labeled(" ; body count:", place);
    lines_of(alloc, text, words)
}

// The message of these words.
fn message_of(alloc: Global, given: &str) -> Message {
    let mut words = Words::of(given);
    read_message(alloc, &mut words)
}

// Makes a request whose path and body are of its place.
fn ask(alloc: Global, client: &mut Side, place: u32, words: &mut Words<'_>) {
    let message = message_of(alloc, &request_of(alloc, place, words));
    if client.request(message).is_err() || client.pump().is_err() {
        words.unread();
    }
}

// The octets that a client writes to make `count` requests.
fn asked(alloc: Global, client: &mut Side, count: u32, words: &mut Words<'_>) -> Vec<u8> {
    let mut out = Vec::new(alloc);
    for place in 0..count {
        ask(alloc, client, place, words);
        if words.fault().is_some() {
            break;
        }
    }
    if client.put_out(usize::MAX, &mut out).is_err() {
        words.fail(CaseError::Memory);
    }
    out
}

// Adds what a server answers to these requests, and what the client hands out then.
fn add_exchange(
    alloc: Global,
    client: &mut Side,
    count: u32,
    calls: Calls,
    words: &mut Words<'_>,
    text: &mut Text,
) {
    let mut setup = Setup::new(alloc);
    setup.input = asked(alloc, client, count, words);
    let run = setup.run(Engine::Server, calls, words);
    text.push_str(&run.answer);
    let mut heard = Heard {
        alloc,
        responses: Vec::new(alloc),
        is_good: true,
        is_refused: false,
    };
    let _ = take_part(client, UNCUT, &run.output, &mut heard);
    heard.add_to(words, text);
}

// The result of `count` requests, with a server whose link has these calls.
fn exchanged(alloc: Global, count: u32, calls: Calls, words: &mut Words<'_>) -> Text {
    let mut text = Text::new(alloc);
    match Side::new(alloc, Role::Client, Config::default()) {
        Some(mut client) => add_exchange(alloc, &mut client, count, calls, words, &mut text),
        None => text.refuse(),
    }
    text
}

/// Adds the result of a number of requests, with a server whose link reads and writes all, and
/// with one whose link reads and writes little.
pub(crate) fn add_many(alloc: Global, words: &mut Words<'_>, text: &mut Text) {
    let count = words.number();
    let lines = exchanged(alloc, count, WHOLE, words);
    let others = exchanged(alloc, count, SHORT, words);
    text.push_text(&lines);
    if others.as_str() != lines.as_str() {
        text.push_line("in short pieces:");
        text.push_text(&others);
    }
}
