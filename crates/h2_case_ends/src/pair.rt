//! A client and a server that are joined by two pipes in memory.
//!
//! SIDE is `client` or `server`, COUNT a number of octets or `all`, and MESSAGE is a message. Each
//! case runs twice: with octets that are moved and delivered as its commands say, and then in
//! pieces of one octet. An answer that differs then is added.
//!
//! - `new client TABLE WINDOW STREAMS server TABLE WINDOW STREAMS`: two ends with these settings.
//!   `frames N` may follow each three, for the greatest frame that is read, and `pieces N` all, for
//!   pieces of N octets.
//! - `request MESSAGE`, `respond ID MESSAGE`, `pump SIDE`, `move SIDE COUNT`,
//!   `deliver SIDE COUNT`, `release_all SIDE`, `reset SIDE ID CODE`, `ping SIDE OCTETS`,
//!   `go_away SIDE`, `fail SIDE CODE`, `change SIDE TABLE WINDOW STREAMS`: an act, and what it
//!   answers: the stream of a request, the number of octets sent, moved or delivered, `done`, the
//!   rule by which it is refused, `fault CODE` or `memory`. Where a refused act has changed what is
//!   seen of the ends, that is said.
//! - `begin FIELDS`, `begin_response ID FIELDS`, `body SIDE ID OCTETS`, `body SIDE ID OCTETS end`
//!   and `trailers SIDE ID FIELDS`: acts of a message that is given in parts. Fields are written as
//!   the head of a message; there may be no octets.
//! - `settle`: both ends pump, release, move and deliver all, until they are quiet.
//! - `rounds MOST`: the library drives both until they are quiet, by so many rounds at most: how
//!   many it has made, what has stopped it (`without memory`, `client failed` or
//!   `server failed`), and `quiet` where both are.
//! - `quiet`: whether they are. `waits SIDE`: the number of octets of an end's queued output.
//!   `pipes SIDE`: the number of octets on its pipe, and `piped SIDE`: those octets, as frames.
//! - `room SIDE ID`: the number of octets that an end may send on a stream, or on the connection
//!   (0).
//! - `ends`: of each end the number of messages that it has accepted, of events that it has
//!   handed out, and of octets that are queued, that are on its pipe, and that it may send on the
//!   connection, where one of these has changed since the last such command; and `quiet` where
//!   both ends are.
//! - `accepted SIDE`: the messages that an end has accepted, with their streams; of one that was
//!   begun, what was accepted so far, and ` ; open` where more may follow.
//! - `handed SIDE`: what an end has handed out since the last such command: `interim ID`, `head ID`
//!   and `trailers ID`, and a line for each field; `body ID OCTETS`; each with `end` after its
//!   stream where the message is complete; `reset ID code=N ours` or `theirs`,
//!   `goaway last=N code=N`, `unprocessed ID`, `acked`, and `pong OCTETS`.
//! - `whole SIDE ID`: whether an end has handed out on a stream all of the message that the other
//!   has accepted for it, its end too; `no prefix` where what was handed out on some stream begins
//!   no message. The end of one that is open was not given.

mod acts;
mod ends;
mod events;
mod heard;

pub(crate) use acts::{read_config, read_count};
use ends::Pair;
use h2_case::case::{Case, CaseError};
use h2_case::driver::{Answer, Driver};
use h2_case::text::Text;
use h2_case::words::Words;
use h2_case_conn::cuts::answers_of;
use std::alloc::Global;

/// The ends of a case, whose octets go all at once or in pieces.
#[derive(Drop)]
struct State {
    alloc: Global,
    is_in_pieces: bool,
    pair: Option<Pair>,
}

impl State {
    // No ends yet.
    fn new(alloc: Global, is_in_pieces: bool) -> State {
        State {
            alloc,
            is_in_pieces,
            pair: None,
        }
    }
}

impl Driver for State {
    fn answer(&mut self, name: &str, words: &mut Words<'_>, text: &mut Text) {
        match &mut self.pair {
            pair if name == "new" => *pair = ends::read_pair(self.alloc, words, self.is_in_pieces),
            Some(pair) => pair.answer(name, words, text),
            None => words.unread(),
        }
    }
}

// The answers to a case's commands, up to the first that has none.
fn run_in(alloc: Global, case: &Case, is_in_pieces: bool) -> Vec<Answer> {
    answers_of(alloc, case, State::new(alloc, is_in_pieces))
}

// Adds what an answer is in pieces, if it is another one; returns whether memory was not refused.
fn add_other(lines: &mut String, other: Option<&Answer>) -> bool {
    match other {
        Some(Ok(other)) if other == lines => true,
        Some(Ok(other)) => write!(lines, "in pieces:\n{other}").is_ok(),
        _ => lines.push_str("in pieces: none\n").is_ok(),
    }
}

// Adds what an answer is in pieces, if it is another one.
fn compare(answer: &mut Answer, other: Option<&Answer>) {
    let is_added = match answer {
        Ok(lines) => add_other(lines, other),
        Err(_) => true,
    };
    if !is_added {
        *answer = Err(CaseError::Memory);
    }
}

/// The answers to a case's commands, up to the first that has none.
pub fn run_case(alloc: Global, case: &Case) -> Vec<Answer> {
    let mut answers = run_in(alloc, case, false);
    let others = run_in(alloc, case, true);
    for (place, answer) in answers.iter_mut().enumerate() {
        compare(answer, others.get(place));
    }
    answers
}
