//! Engines without a link: octets are handed to them, and taken from them, in turns.

use super::runs::{Engine, Setup, add_response};
use h2_case::text::Text;
use h2_case::words::Words;
use h2_case_conn::answers::add_value;
use h2_engines::{Fetched, Fetcher, LinkError, Responder};

/// An engine that takes octets, and puts octets out.
trait Turning {
    /// Takes octets; returns whether the work is done.
    fn take_in(&mut self, piece: &[u8]) -> Result<bool, LinkError>;

    /// Puts out all octets.
    fn put_all(&mut self, output: &mut Vec<u8>) -> Result<(), LinkError>;
}

impl Turning for Responder {
    fn take_in(&mut self, piece: &[u8]) -> Result<bool, LinkError> {
        match Responder::take_in(self, piece) {
            Ok(()) => Ok(false),
            Err(error) => Err(error),
        }
    }

    fn put_all(&mut self, output: &mut Vec<u8>) -> Result<(), LinkError> {
        match Responder::put_out(self, usize::MAX, output) {
            Ok(_) => Ok(()),
            Err(error) => Err(error),
        }
    }
}

impl Turning for Fetcher {
    fn take_in(&mut self, piece: &[u8]) -> Result<bool, LinkError> {
        Fetcher::take_in(self, piece)
    }

    fn put_all(&mut self, output: &mut Vec<u8>) -> Result<(), LinkError> {
        match Fetcher::put_out(self, usize::MAX, output) {
            Ok(_) => Ok(()),
            Err(error) => Err(error),
        }
    }
}

// Hands a piece to an engine, and puts out all after that; returns whether the work is done.
fn turn<T: Turning>(engine: &mut T, piece: &[u8], output: &mut Vec<u8>) -> Result<bool, LinkError> {
    let taken = engine.take_in(piece);
    match engine.put_all(output) {
        Ok(()) => taken,
        Err(error) => Err(error),
    }
}

// Hands octets to an engine, `most` at once, and puts out all after each time; returns whether the
// work is done.
fn run<T: Turning>(
    engine: &mut T,
    input: &[u8],
    most: usize,
    output: &mut Vec<u8>,
) -> Result<bool, LinkError> {
    let mut unused = input;
    engine.put_all(output)?;
    for _ in 0..input.len() {
        let (piece, others) = unused.split_at(most.min(unused.len()));
        if turn(engine, piece, output)? {
            return Ok(true);
        }
        unused = others;
        if unused.is_empty() {
            break;
        }
    }
    Ok(false)
}

// Adds a response, if it could be made.
fn add_fetched(setup: &Setup, fetched: Result<Fetched, LinkError>, text: &mut Text) {
    match fetched {
        Ok(fetched) => add_response(setup.alloc, text, &fetched),
        Err(error) => add_value(text, error),
    }
}

// Adds the line of octets that were taken, or of an error.
fn add_taken(taken: Result<bool, LinkError>, text: &mut Text) {
    match taken {
        Ok(_) => text.push_line("taken"),
        Err(error) => add_value(text, error),
    }
}

// Adds what a server answers in turns.
fn respond(setup: &mut Setup, mut responder: Responder, most: usize, text: &mut Text) {
    let taken = run(&mut responder, &setup.input, most, &mut setup.output);
    drop(responder);
    add_taken(taken, text);
}

// Adds what a client answers in turns.
fn fetch(setup: &mut Setup, mut fetcher: Fetcher, most: usize, text: &mut Text) {
    let taken = run(&mut fetcher, &setup.input, most, &mut setup.output);
    if matches!(taken, Ok(true)) {
        add_fetched(setup, fetcher.into_fetched(), text);
    } else {
        drop(fetcher);
        add_taken(taken, text);
    }
}

// Adds what a server answers in turns, if it can be made.
fn respond_in_turns(setup: &mut Setup, most: usize, text: &mut Text) {
    match Responder::new(setup.alloc, setup.config) {
        Ok(responder) => respond(setup, responder, most, text),
        Err(error) => add_value(text, error),
    }
}

// Adds what a client answers in turns, if it can be made.
fn fetch_in_turns(setup: &mut Setup, most: usize, words: &mut Words<'_>, text: &mut Text) {
    match Fetcher::new(setup.alloc, setup.config, setup.message(words)) {
        Ok(fetcher) => fetch(setup, fetcher, most, text),
        Err(error) => add_value(text, error),
    }
}

/// Adds what the engine answers when it takes at most `COUNT` octets at once.
pub(crate) fn add_turns(setup: &mut Setup, engine: Engine, words: &mut Words<'_>, text: &mut Text) {
    let most = words.number();
    setup.output.clear();
    match engine {
        Engine::Server => respond_in_turns(setup, most, text),
        Engine::Client => fetch_in_turns(setup, most, words, text),
    }
}
