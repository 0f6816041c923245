//! The connections of a host, with their clients.

use crate::client::{Client, End};
use crate::requests::OPENING;
use crate::served::{Fate, Place, Served, Setup, add_why};
use crate::told::{Asked, Told};
use crate::turn::give_turn;
use h2_case::case::CaseError;
use h2_case::octets::add_frames;
use h2_case::text::Text;
use h2_case::words::Words;
use h2_case_conn::answers::add_value;
use h2_case_conn::conn::drop_out;
use std::alloc::Global;

/// The most turns of a command.
const MOST_TURNS: u32 = 1_000_000;

/// The most milliseconds of a step of time.
const STEP: u64 = 1_000;

/// A host, and the clients of its connections.
#[derive(Drop)]
pub(crate) struct Connections<'a> {
    alloc: Global,
    told: &'a Told,
    served: Served<'a>,
    clients: Vec<Client>,
    /// The number of the client that commands are for.
    current: usize,
    /// The time, in milliseconds since the start.
    now: u64,
}

impl<'a> Connections<'a> {
    /// A host without connections; nothing where memory was refused.
    pub(crate) fn new(alloc: Global, setup: &Setup, told: &'a Told) -> Option<Connections<'a>> {
        let served = Served::new(alloc, setup, told)?;
        Some(Connections {
            alloc,
            told,
            served,
            clients: Vec::new(alloc),
            current: 0,
            now: 0,
        })
    }

    /// Opens a connection for a client of this name, if the host has a place for it.
    pub(crate) fn open(
        &mut self,
        setup: &Setup,
        name: &str,
        words: &mut Words<'_>,
        text: &mut Text,
    ) {
        let number = self.clients.len();
        match self.served.open(self.alloc, setup, number) {
            Some(place) => self.add_client(name, place, words),
            None => text.push_line("full"),
        }
        self.give_turns(words);
    }

    // Adds the client of a connection, for which the next commands are.
    fn add_client(&mut self, name: &str, place: Place, words: &mut Words<'_>) {
        self.told.begin(self.alloc, words);
        self.current = self.clients.len();
        let is_added = match String::from_str(self.alloc, name) {
            Ok(name) => {
                let client = Client::new(self.alloc, name, place);
                self.clients.push(client).is_ok()
            }
            Err(_) => false,
        };
        if !is_added {
            words.fail(CaseError::Memory);
        }
    }

    /// The next commands are for the last client of this name.
    pub(crate) fn choose(&mut self, name: &str, words: &mut Words<'_>) {
        let mut is_found = false;
        for (number, client) in self.clients.iter().enumerate() {
            if client.name.as_str() == name {
                self.current = number;
                is_found = true;
            }
        }
        if !is_found {
            words.unread();
        }
    }

    // Gives the next turn; returns the number of the client that has it.
    fn give_next(&mut self, words: &mut Words<'_>) -> Option<usize> {
        let (place, number) = self.served.next_turn()?;
        match self.clients.get_mut(number) {
            Some(client) => {
                if give_turn(&mut self.served, place, client, words) == Fate::Over {
                    client.end = End::Over(self.served.why(place));
                    self.served.close(place);
                }
            }
            None => self.served.close(place),
        }
        Some(number)
    }

    /// Gives turns until no connection is ready.
    pub(crate) fn give_turns(&mut self, words: &mut Words<'_>) {
        for _ in 0..MOST_TURNS {
            if self.give_next(words).is_none() {
                return;
            }
        }
        words.unread();
    }

    /// Gives at most `most` turns, and adds the names of the clients that have them.
    pub(crate) fn add_turns(&mut self, most: u32, words: &mut Words<'_>, text: &mut Text) {
        let mut divider = "";
        for _ in 0..most {
            let Some(number) = self.give_next(words) else {
                break;
            };
            text.push_str(divider);
            self.add_name(number, text);
            divider = " ";
        }
        text.push_line(if divider.is_empty() { "none" } else { "" });
    }

    // Adds the name of a client.
    fn add_name(&self, number: usize, text: &mut Text) {
        if let Some(client) = self.clients.get(number) {
            text.push_str(&client.name);
        }
    }

    /// The client that commands are for sends octets, or does nothing; nobody has a turn yet.
    pub(crate) fn queue(&mut self, octets: &[u8], words: &mut Words<'_>) {
        match self.clients.get_mut(self.current) {
            Some(client) => {
                client.send(octets, words);
                let writes = client.takes > 0;
                let _ = self
                    .served
                    .ready(client.place, client.is_readable(), writes);
            }
            None => words.unread(),
        }
    }

    /// The client sends octets, and turns are given.
    pub(crate) fn send(&mut self, octets: &[u8], words: &mut Words<'_>) {
        self.queue(octets, words);
        self.give_turns(words);
    }

    /// The client sends octets, one after another; turns are given after each.
    pub(crate) fn send_slowly(&mut self, octets: &[u8], words: &mut Words<'_>) {
        for octet in octets {
            self.send(&[*octet], words);
        }
    }

    /// The client sends its preface and SETTINGS without values, and all output is taken away.
    pub(crate) fn start(&mut self, words: &mut Words<'_>, text: &mut Text) {
        self.send(OPENING, words);
        let out = self.output(words);
        drop_out(&out, text);
    }

    /// The client takes this many octets from now on.
    pub(crate) fn take(&mut self, count: usize, words: &mut Words<'_>) {
        if let Some(client) = self.clients.get_mut(self.current) {
            client.takes = count;
        }
        self.send(&[], words);
    }

    /// The client ends its side.
    pub(crate) fn end(&mut self, words: &mut Words<'_>) {
        if let Some(client) = self.clients.get_mut(self.current) {
            client.has_ended = true;
        }
        self.send(&[], words);
    }

    /// The transport of the client's connection is gone.
    pub(crate) fn close(&mut self, words: &mut Words<'_>) {
        match self.clients.get_mut(self.current) {
            Some(client) => {
                client.end = End::Gone;
                self.served.close(client.place);
            }
            None => words.unread(),
        }
        self.give_turns(words);
    }

    /// Something is asked of the client's connection.
    pub(crate) fn ask(&mut self, asked: Asked, words: &mut Words<'_>) {
        self.told.ask(self.current, asked);
        self.served.pass(self.now);
        self.told.ask_nobody();
        self.give_turns(words);
    }

    /// Time passes until the next word, in steps of at most a second, or at once; turns are given
    /// after each.
    pub(crate) fn pass(&mut self, words: &mut Words<'_>) {
        let to = words.number();
        let step = if words.has("at") {
            words.expect("once");
            u64::MAX
        } else {
            STEP
        };
        for _ in self.now..to {
            self.now = self.now.saturating_add(step).min(to);
            self.served.pass(self.now);
            self.give_turns(words);
            if self.now >= to {
                break;
            }
        }
    }

    // The octets that the client has taken, which are then taken away.
    fn output(&mut self, words: &mut Words<'_>) -> Vec<u8> {
        match self.clients.get_mut(self.current) {
            Some(client) => client.output(self.alloc),
            None => {
                words.unread();
                Vec::new(self.alloc)
            }
        }
    }

    /// Adds the frames that the client has taken.
    pub(crate) fn add_output(&mut self, words: &mut Words<'_>, text: &mut Text) {
        let out = self.output(words);
        add_frames(text, &out);
    }

    /// Adds what the handler of the client's connection was told.
    pub(crate) fn add_told(&self, text: &mut Text) {
        text.push_text(&self.told.take(self.alloc, self.current));
    }

    /// Adds whether the client's connection goes on, and why it does not.
    pub(crate) fn add_why(&self, words: &mut Words<'_>, text: &mut Text) {
        let Some(client) = self.clients.get(self.current) else {
            return words.unread();
        };
        match (client.end, self.served.why(client.place)) {
            (End::Open, None) => text.push_line("up"),
            (End::Open, Some(why)) => {
                text.push_str("ending ");
                add_why(text, why);
            }
            (End::Over(Some(why)), _) => {
                text.push_str("over ");
                add_why(text, why);
            }
            (End::Over(None), _) => text.push_line("over"),
            (End::Gone, _) => text.push_line("gone"),
        }
    }

    /// Adds the number of octets that the client's connection holds, or all.
    pub(crate) fn add_held(&self, words: &mut Words<'_>, text: &mut Text) {
        if words.has("in") {
            words.expect("all");
            return add_value(text, self.served.holds_in_all());
        }
        match self.clients.get(self.current) {
            Some(client) => add_value(text, self.served.holds(client.place)),
            None => words.unread(),
        }
    }

    /// Adds the number of connections that wait for a turn.
    pub(crate) fn add_waiting(&self, text: &mut Text) {
        add_value(text, self.served.waiting());
    }

    /// Takes away what the client has taken.
    pub(crate) fn drop_output(&mut self, words: &mut Words<'_>, text: &mut Text) {
        words.expect("out");
        let out = self.output(words);
        drop_out(&out, text);
    }

    /// Adds the number of octets that the client has taken, which are then taken away.
    pub(crate) fn count_output(&mut self, words: &mut Words<'_>, text: &mut Text) {
        words.expect("out");
        let out = self.output(words);
        add_value(text, out.len());
    }
}
