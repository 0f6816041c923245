//! The engines, over links in memory: a server that answers what it is asked, and a client that
//! fetches one response.
//!
//! - `config TABLE WINDOW STREAMS`: the settings of the engine. At first they are the default ones.
//! - `request MESSAGE`: the request of the client.
//! - `input OCTETS`: what the peer sends. `from_client OCTETS`: the preface, SETTINGS without a
//!   value, and then the octets. `from_server OCTETS`: SETTINGS without a value, and the octets.
//!   `add OCTETS` adds octets; `data ID COUNT` and `last_data ID COUNT` add a body of `COUNT`
//!   octets that count up, in the longest frames of DATA, the last of which ends the stream in the
//!   second; `malformed COUNT` adds `COUNT` complete requests without `:scheme`, on streams 1, 3,
//!   5 and so on.
//! - `serve` and `fetch`: what the engine answers over a link that reads and writes all, and the
//!   number of calls of the link that have failed, if any. It runs in pieces of one octet too, and
//!   with reads of 7 and writes of 5 octets: where it answers something else then, it says so.
//! - `serve READ WRITE` and `fetch READ WRITE`: the same over a link that reads at most `READ` and
//!   writes at most `WRITE` octets a call, `all` for all. `fails CALLS` may follow: the call after
//!   `CALLS` others fails.
//! - `output`: what the last of these has written, as frames. `written`: the number of its octets.
//!   `body ID`: the body in its DATA on a stream. `frames TYPE` and `count TYPE`: its frames of a
//!   type, and their number.
//! - `serve prefixes` and `fetch prefixes`: what the engine answers to each number of first octets
//!   of the input, and the number of octets that it has written.
//! - `serve failing READ WRITE` and `fetch failing READ WRITE`: the number of calls of the link
//!   that a run makes. After each smaller number of calls the next one fails; then the answer is
//!   N1, one call has failed, and a prefix of the output was written.
//! - `serve turns COUNT` and `fetch turns COUNT`: the engine without a link takes `COUNT` octets
//!   at once, and puts out all after each time.
//! - `exchange`: a server answers what the client sends, and the client fetches that.
//! - `many COUNT`: a client makes `COUNT` requests, request K with POST for the path /K and a body
//!   of K octets that count up, K from 0; a server answers them in one connection; and these
//!   responses the client hands out, in the order of the requests.

mod input;
mod many;
mod output;
mod runs;
mod trials;
mod turns;

use crate::pair::{read_config, read_count};
use h2_case::case::{Case, CaseError};
use h2_case::driver::{Answer, Driver};
use h2_case::text::Text;
use h2_case::words::Words;
use h2_case_conn::answers::copy_of;
use h2_case_conn::cuts::answers_of;
use runs::{Calls, Engine, NEVER, Setup};
use std::alloc::Global;

// The next words, as how a link reads and writes.
fn read_calls(words: &mut Words<'_>) -> Calls {
    Calls {
        read: read_count(words),
        written: read_count(words),
        fails_after: if words.has("fails") {
            words.number()
        } else {
            NEVER
        },
    }
}

// Runs `serve` or `fetch`.
fn run(setup: &mut Setup, engine: Engine, words: &mut Words<'_>, text: &mut Text) {
    if words.is_empty() {
        trials::add_alike(setup, engine, words, text);
    } else if words.has("prefixes") {
        trials::add_prefixes(setup, engine, words, text);
    } else if words.has("failing") {
        let calls = read_calls(words);
        trials::add_failing(setup, engine, calls, words, text);
    } else if words.has("turns") {
        turns::add_turns(setup, engine, words, text);
    } else {
        let calls = read_calls(words);
        trials::add_run(setup, engine, calls, words, text);
    }
}

// Keeps the request of the client.
fn keep_request(setup: &mut Setup, words: &mut Words<'_>) {
    match String::from_str(setup.alloc, words.rest()) {
        Ok(request) => setup.request = request,
        Err(_) => words.fail(CaseError::Memory),
    }
}

// Begins the input with these octets, and those of a command.
fn begin_input(setup: &mut Setup, opening: &[u8], words: &mut Words<'_>) {
    setup.input = copy_of(setup.alloc, opening, words);
    input::add_rest(setup.alloc, &mut setup.input, words);
}

// Runs a command about the input, or another one.
fn answer_input(setup: &mut Setup, name: &str, words: &mut Words<'_>, text: &mut Text) {
    match name {
        "input" => begin_input(setup, &[], words),
        "from_client" => begin_input(setup, input::CLIENT, words),
        "from_server" => begin_input(setup, input::SETTINGS, words),
        "add" => input::add_rest(setup.alloc, &mut setup.input, words),
        "data" => input::add_data(setup.alloc, &mut setup.input, false, words),
        "last_data" => input::add_data(setup.alloc, &mut setup.input, true, words),
        "malformed" => input::add_malformed(&mut setup.input, words),
        _ => output::show(setup.alloc, &setup.output, name, words, text),
    }
}

impl Driver for Setup {
    fn answer(&mut self, name: &str, words: &mut Words<'_>, text: &mut Text) {
        match name {
            "config" => self.config = read_config(words),
            "request" => keep_request(self, words),
            "serve" => run(self, Engine::Server, words, text),
            "fetch" => run(self, Engine::Client, words, text),
            "exchange" => trials::add_exchange(self, words, text),
            "many" => many::add_many(self.alloc, words, text),
            _ => answer_input(self, name, words, text),
        }
    }
}

/// The answers to a case's commands, up to the first that has none.
pub fn run_case(alloc: Global, case: &Case) -> Vec<Answer> {
    answers_of(alloc, case, Setup::new(alloc))
}
