//! Clients over a link in memory, whose responses are asked for part by part.

use super::links::{read, write_octets};
use super::memory::{Call, Setup};
use super::runs::add_response;
use h2_case::fields::{add_fields, read_text};
use h2_case::messages::{add_message, read_message};
use h2_case::octets::add_frames;
use h2_case::text::Text;
use h2_case::words::Words;
use h2_case_conn::answers::{
    add_done, add_labeled, add_name, add_value, begin_line, copy_of, end_with_octets,
};
use h2_engines::{Config, Field, Link, LinkError, MemoryLink, Message};
use h2_fetch::{Came, ClientConnection, PartFetch, ResponsePart};
use h2_net::{get_over, target};
use std::alloc::Global;

/// A client of one request, or of several, and its link.
#[derive(Drop)]
pub(crate) struct Asking {
    alloc: Global,
    client: Option<ClientConnection>,
    fetch: Option<PartFetch>,
    link: MemoryLink,
}

/// The stream of the request of a client that makes one.
const FIRST: u32 = 1;

// Adds the line of a name and of a stream, and the lines of fields.
fn add_list(alloc: Global, text: &mut Text, name: &str, id: u32, end: bool, list: &[Field]) {
    begin_line(text, name, id, end);
    text.push_str("\n");
    add_fields(alloc, text, list);
}

// Adds a part of the response on a stream.
fn add_part(alloc: Global, text: &mut Text, id: u32, part: &ResponsePart) {
    match part {
        ResponsePart::Interim { list } => add_list(alloc, text, "interim", id, false, list),
        ResponsePart::Head { list, end } => add_list(alloc, text, "head", id, *end, list),
        ResponsePart::Body { octets, end } => {
            begin_line(text, "body", id, *end);
            end_with_octets(text, octets);
        }
        ResponsePart::Trailers { list } => add_list(alloc, text, "trailers", id, true, list),
    }
}

// Adds what came next on a stream.
fn add_came(alloc: Global, text: &mut Text, id: u32, came: Result<Came, LinkError>) {
    match came {
        Ok(Came::Part(part)) => add_part(alloc, text, id, &part),
        Ok(Came::Dropped(code)) => {
            begin_line(text, "dropped", id, false);
            add_labeled(text, " ", code);
        }
        Err(error) => add_value(text, error),
    }
}

// Makes a request, and adds its stream; or why it is refused, and the message that is handed back.
fn request(alloc: Global, client: &mut ClientConnection, message: Message, text: &mut Text) {
    match client.request(message) {
        Ok(id) => add_labeled(text, "stream ", id),
        Err((back, refusal)) => {
            add_name(alloc, text, &refusal);
            text.push_str("back ");
            add_message(alloc, text, &back);
            text.push_str("\n");
        }
    }
}

// Makes a request some times, and adds what the last one is answered.
fn request_times(
    alloc: Global,
    client: &mut ClientConnection,
    words: &mut Words<'_>,
    text: &mut Text,
) {
    let times = words.times();
    let others = *words;
    for _ in 1..times {
        let mut given = others;
        let _ = client.request(read_message(alloc, &mut given));
    }
    request(alloc, client, read_message(alloc, words), text);
}

// Adds what comes next on a stream, unless the link has failed.
fn next_on(
    alloc: Global,
    client: &mut ClientConnection,
    link: &mut MemoryLink,
    id: u32,
    text: &mut Text,
) {
    if link.failures() > 0 {
        return text.push_line("the link has failed");
    }
    let came = client.next_on(id, link);
    add_came(alloc, text, id, came);
}

// Adds the next part of the response to the only request, unless the link has failed.
fn next_part(alloc: Global, fetch: &mut PartFetch, link: &mut MemoryLink, text: &mut Text) {
    if link.failures() > 0 {
        return text.push_line("the link has failed");
    }
    match fetch.next(link) {
        Ok(part) => add_part(alloc, text, FIRST, &part),
        Err(error) => add_value(text, error),
    }
}

// Adds the response to GET of a URL over a link, as it is printed.
fn get(alloc: Global, link: &mut MemoryLink, words: &mut Words<'_>, text: &mut Text) {
    let url = read_text(alloc, words);
    let Ok(location) = target(alloc, &url) else {
        return words.unread();
    };
    if link.failures() > 0 {
        return text.push_line("the link has failed");
    }
    match get_over(alloc, link, &location) {
        Ok(fetched) => add_response(alloc, &fetched, text),
        Err(error) => add_value(text, error),
    }
}

/// A link that gives the octets of the last connection.
fn link_of(setup: &Setup, words: &mut Words<'_>) -> MemoryLink {
    let octets = match setup.peers.last() {
        Some(octets) => octets.as_slice(),
        None => &[],
    };
    let link = MemoryLink::new(setup.alloc, copy_of(setup.alloc, octets, words)).with_most(
        setup.read,
        setup.written,
    );
    match setup.failing {
        Some(failing) if failing.call == Call::Link => link.failing_after(failing.after),
        _ => link,
    }
}

impl Asking {
    /// No client, and a link that gives nothing.
    pub(crate) fn new(alloc: Global) -> Asking {
        Asking {
            alloc,
            client: None,
            fetch: None,
            link: MemoryLink::new(alloc, Vec::new(alloc)),
        }
    }

    /// Takes another link, which gives the octets of the last connection.
    pub(crate) fn connect(&mut self, setup: &Setup, words: &mut Words<'_>) {
        self.link = link_of(setup, words);
    }

    // Begins a client with these settings.
    fn begin(&mut self, config: Config, text: &mut Text) {
        match ClientConnection::new(self.alloc, config) {
            Ok(client) => self.client = Some(client),
            Err(error) => add_value(text, error),
        }
    }

    // Begins a client that makes one request.
    fn begin_fetch(&mut self, words: &mut Words<'_>, text: &mut Text) {
        let message = read_message(self.alloc, words);
        match PartFetch::new(self.alloc, Config::default(), message) {
            Ok(fetch) => self.fetch = Some(fetch),
            Err(error) => add_value(text, error),
        }
    }

    // Adds the next part of the response to the only request.
    fn part(&mut self, words: &mut Words<'_>, text: &mut Text) {
        match &mut self.fetch {
            Some(fetch) => next_part(self.alloc, fetch, &mut self.link, text),
            None => words.unread(),
        }
    }

    // Runs a command of a client that makes several requests.
    fn ask(&mut self, name: &str, words: &mut Words<'_>, text: &mut Text) {
        let Some(client) = &mut self.client else {
            return words.unread();
        };
        match name {
            "request" => request_times(self.alloc, client, words, text),
            "next" => next_on(self.alloc, client, &mut self.link, words.number(), text),
            "give_up" => add_done(self.alloc, text, client.give_up(words.number())),
            "widen" => add_done(self.alloc, text, client.widen(words.number())),
            _ => words.unread(),
        }
    }

    /// Runs a command.
    pub(crate) fn answer(&mut self, name: &str, words: &mut Words<'_>, text: &mut Text) {
        match name {
            "client" => self.begin(read_config(words), text),
            "fetch" => self.begin_fetch(words, text),
            "part" => self.part(words, text),
            "over" => get(self.alloc, &mut self.link, words, text),
            "write" => write_octets(self.alloc, &mut self.link, words, text),
            "read" => read(self.alloc, &mut self.link, words.number(), text),
            "written" => add_frames(text, self.link.output()),
            "failures" => add_value(text, self.link.failures()),
            _ => self.ask(name, words, text),
        }
    }
}

// The settings of the words that are left; the default ones where there are none.
fn read_config(words: &mut Words<'_>) -> Config {
    if words.is_empty() {
        return Config::default();
    }
    let (table, window, streams) = (words.number(), words.number(), words.number());
    match Config::new(table, window, streams) {
        Ok(config) => config,
        Err(_) => {
            words.unread();
            Config::default()
        }
    }
}
