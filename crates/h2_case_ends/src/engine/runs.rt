//! Engines over links in memory.

use h2_case::fields::add_fields;
use h2_case::messages::read_message;
use h2_case::octets::add_octets;
use h2_case::text::Text;
use h2_case::words::Words;
use h2_case_conn::answers::{add_labeled, add_value, copy_of, lines_of};
use h2_engines::{Config, Fetched, Field, Link, MemoryLink, Message, fetch_link, serve_link};
use std::alloc::Global;

/// One of the engines.
#[derive(Clone, Copy, PartialEq, Eq)]
pub(crate) enum Engine {
    Server,
    Client,
}

/// How a link reads and writes.
#[derive(Clone, Copy)]
pub(crate) struct Calls {
    /// The most octets of a read.
    pub(crate) read: usize,
    /// The most octets of a write.
    pub(crate) written: usize,
    /// The number of calls after which one fails.
    pub(crate) fails_after: u64,
}

/// No call fails.
pub(crate) const NEVER: u64 = u64::MAX;

/// Each call reads and writes all that it can.
pub(crate) const WHOLE: Calls = Calls {
    read: usize::MAX,
    written: usize::MAX,
    fails_after: NEVER,
};

/// Short calls, of which none is as long as a frame's head.
pub(crate) const SHORT: Calls = Calls {
    read: 7,
    written: 5,
    fails_after: NEVER,
};

/// Each call reads and writes one octet.
pub(crate) const SINGLE: Calls = Calls {
    read: 1,
    written: 1,
    fails_after: NEVER,
};

/// The state of a case.
#[derive(Drop)]
pub(crate) struct Setup {
    pub(crate) alloc: Global,
    pub(crate) config: Config,
    /// The request of the client.
    pub(crate) request: String,
    /// The octets that the peer sends.
    pub(crate) input: Vec<u8>,
    /// The octets that were written last.
    pub(crate) output: Vec<u8>,
}

/// How a run has ended.
#[derive(Drop)]
pub(crate) struct Run {
    /// What was answered, and the number of calls of the link that have failed, if any.
    pub(crate) answer: String,
    pub(crate) output: Vec<u8>,
}

// Adds the name of a part of a response, and the lines of its fields.
fn add_named(alloc: Global, text: &mut Text, name: &str, list: &[Field]) {
    text.push_line(name);
    add_fields(alloc, text, list);
}

/// Adds the lines of a response: of its interim responses, its head, its body and its trailers.
pub(crate) fn add_response(alloc: Global, text: &mut Text, fetched: &Fetched) {
    for list in &fetched.interims {
        add_named(alloc, text, "interim", list);
    }
    add_named(alloc, text, "head", &fetched.head);
    if !fetched.body.is_empty() {
        text.push_str("body ");
        add_octets(text, &fetched.body);
        text.push_str("\n");
    }
    if let Some(list) = &fetched.trailers {
        add_named(alloc, text, "trailers", list);
    }
}

// Adds what a server answers over a link.
fn serve(alloc: Global, config: Config, link: &mut MemoryLink, text: &mut Text) {
    if link.failures() > 0 {
        return text.refuse();
    }
    match serve_link(alloc, link, config) {
        Ok(count) => add_labeled(text, "answered ", count),
        Err(error) => add_value(text, error),
    }
}

// Adds what a client answers over a link.
fn fetch(alloc: Global, config: Config, message: Message, link: &mut MemoryLink, text: &mut Text) {
    if link.failures() > 0 {
        return text.refuse();
    }
    match fetch_link(alloc, link, config, message) {
        Ok(fetched) => add_response(alloc, text, &fetched),
        Err(error) => add_value(text, error),
    }
}

impl Setup {
    /// A case that has nothing yet.
    pub(crate) fn new(alloc: Global) -> Setup {
        Setup {
            alloc,
            config: Config::default(),
            request: String::new(alloc),
            input: Vec::new(alloc),
            output: Vec::new(alloc),
        }
    }

    /// The request of the client.
    pub(crate) fn message(&self, words: &mut Words<'_>) -> Message {
        let mut given = Words::of(&self.request);
        let message = read_message(self.alloc, &mut given);
        if let Some(fault) = given.fault() {
            words.fail(fault);
        }
        message
    }

    // Adds what an engine answers over a link.
    fn add_answer(
        &self,
        engine: Engine,
        link: &mut MemoryLink,
        words: &mut Words<'_>,
        text: &mut Text,
    ) {
        match engine {
            Engine::Server => serve(self.alloc, self.config, link, text),
            Engine::Client => fetch(self.alloc, self.config, self.message(words), link, text),
        }
        if link.failures() > 0 {
            add_labeled(text, "failures ", link.failures());
        }
    }

    /// Runs an engine over a link.
    pub(crate) fn run(&self, engine: Engine, calls: Calls, words: &mut Words<'_>) -> Run {
        self.run_on(engine, &self.input, calls, words)
    }

    /// Runs an engine over a link that gives these octets.
    pub(crate) fn run_on(
        &self,
        engine: Engine,
        input: &[u8],
        calls: Calls,
        words: &mut Words<'_>,
    ) -> Run {
        let input = copy_of(self.alloc, input, words);
        let mut link = MemoryLink::new(self.alloc, input)
            .with_most(calls.read, calls.written)
            .failing_after(calls.fails_after);
        let mut text = Text::new(self.alloc);
        self.add_answer(engine, &mut link, words, &mut text);
        Run {
            answer: lines_of(self.alloc, text, words),
            output: copy_of(self.alloc, link.output(), words),
        }
    }
}
