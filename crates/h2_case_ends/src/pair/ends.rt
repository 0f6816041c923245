//! Two joined ends, and what their cases see of them.

use super::acts::{add_acted, read_act, read_config, read_side};
use super::events::add_accepted;
use super::heard::is_whole;
use crate::end_events::add_event;
use h2_case::case::CaseError;
use h2_case::octets::add_frames;
use h2_case::text::Text;
use h2_case::words::Words;
use h2_case_conn::answers::{add_labeled, add_option, add_value, extend};
use h2_joined::{Acted, Code, Config, Conn, Joined, JointAct, Side};
use h2_settle::{Settled, settle};
use std::alloc::Global;

/// Two joined ends.
pub(crate) struct Pair {
    alloc: Global,
    joined: Joined,
    client: Kept,
    server: Kept,
    /// The most octets that are moved or delivered at once.
    most: usize,
}

impl Drop for Pair {
    /// Each part is dropped by a call, so that its drop is proved once.
    fn drop(self) {
        let Pair {
            alloc: _alloc,
            joined,
            client,
            server,
            most: _most,
        } = self;
        drop(joined);
        drop(client);
        drop(server);
    }
}

/// The state of an end.
#[derive(Drop)]
struct Kept {
    /// The octets of its output that were moved, and how many of them were delivered.
    moved: Vec<u8>,
    delivered: usize,
    /// The number of its events that were added to an answer.
    read: usize,
    /// What was last printed of it.
    seen: Option<Half>,
}

/// What a case sees of an end.
#[derive(Clone, Copy, PartialEq, Eq)]
struct Half {
    accepted: usize,
    handed: usize,
    waiting: usize,
    piped: usize,
    room: Option<i64>,
    failed: Option<Code>,
}

// Adds the line of what a case sees of an end.
fn add_half(name: &str, half: Half, text: &mut Text) {
    text.push_str(name);
    text.push_labeled(" ", half.accepted);
    text.push_labeled(" ", half.handed);
    text.push_labeled(" ", half.waiting);
    text.push_labeled(" ", half.piped);
    text.push_str(" ");
    add_option(text, half.room);
}

// The state of a new end.
fn new_kept(alloc: Global) -> Kept {
    Kept {
        moved: Vec::new(alloc),
        delivered: 0,
        read: 0,
        seen: None,
    }
}

// The next words, as the settings of an end.
fn read_config_of(words: &mut Words<'_>, side: &str) -> Config {
    words.expect(side);
    read_config(words)
}

/// The two ends that a command makes.
pub(crate) fn read_pair(alloc: Global, words: &mut Words<'_>, is_in_pieces: bool) -> Option<Pair> {
    let client = read_config_of(words, "client");
    let server = read_config_of(words, "server");
    let piece = if words.has("pieces") {
        words.number()
    } else {
        1
    };
    let most = if is_in_pieces { piece } else { usize::MAX };
    match Joined::new(alloc, client, server) {
        Ok(joined) => Some(new_pair(alloc, joined, most)),
        Err(_) => {
            words.fail(CaseError::Memory);
            None
        }
    }
}

// Two new ends.
fn new_pair(alloc: Global, joined: Joined, most: usize) -> Pair {
    Pair {
        alloc,
        joined,
        client: new_kept(alloc),
        server: new_kept(alloc),
        most,
    }
}

// Makes an act. It has no contract, since no case needs one.
fn make(joined: &mut Joined, act: &JointAct) -> Acted {
    joined.act(act)
}

// Drives both ends. It has no contract, since no case needs one.
fn drive(joined: &mut Joined, most: u64) -> Settled {
    settle(joined, most)
}

// How driving both ends has stopped, where they are not quiet.
fn stopped(settled: Settled) -> &'static str {
    match settled.failed {
        _ if settled.memory => " without memory",
        Some(Side::Client) => " client failed",
        Some(Side::Server) => " server failed",
        None => "",
    }
}

// The other end.
fn other(side: Side) -> Side {
    match side {
        Side::Client => Side::Server,
        Side::Server => Side::Client,
    }
}

// Whether an act with this answer changes nothing. A delivery without memory may be done in part.
fn changes_nothing(act: &JointAct, acted: Acted) -> bool {
    match acted {
        Acted::Refused(_) => true,
        Acted::Memory => !matches!(act, JointAct::Deliver { .. }),
        _ => false,
    }
}

// The act of a step in which an end sends all.
fn sending_act(step: u32, from: Side) -> JointAct {
    match step {
        0 => JointAct::Pump(from),
        1 => JointAct::ReleaseAll(from),
        2 => JointAct::Move {
            from,
            count: usize::MAX,
        },
        _ => JointAct::Deliver {
            to: other(from),
            count: usize::MAX,
        },
    }
}

impl Pair {
    // The connection of an end.
    fn conn(&self, side: Side) -> &Conn {
        match side {
            Side::Client => self.joined.client().conn(),
            Side::Server => self.joined.server().conn(),
        }
    }

    // The state of an end.
    fn kept(&mut self, side: Side) -> &mut Kept {
        match side {
            Side::Client => &mut self.client,
            Side::Server => &mut self.server,
        }
    }

    // What a case sees of an end.
    fn half(&self, side: Side) -> Half {
        let conn = self.conn(side);
        Half {
            accepted: self.joined.accepted(side).len(),
            handed: self.joined.handed(side).len(),
            waiting: conn.waiting(),
            piped: self.joined.piped(side),
            room: conn.room(0),
            failed: conn.failed(),
        }
    }

    // The first octets of an end's queued output, at most `count`.
    fn first_waiting(&self, side: Side, count: usize, words: &mut Words<'_>) -> Vec<u8> {
        let mut octets = Vec::new(self.alloc);
        if self.conn(side).append_waiting(0, &mut octets).is_err() {
            words.fail(CaseError::Memory);
        }
        octets.truncate(count);
        octets
    }

    // Moves octets at once.
    fn move_piece(&mut self, from: Side, count: usize, words: &mut Words<'_>) -> Acted {
        let octets = self.first_waiting(from, count, words);
        let acted = make(&mut self.joined, &JointAct::Move { from, count });
        if let Acted::Count(moved) = acted {
            let moved = octets.get(..moved).unwrap_or(&octets);
            extend(&mut self.kept(from).moved, moved, words);
        }
        acted
    }

    // Delivers octets at once.
    fn deliver_piece(&mut self, to: Side, count: usize) -> Acted {
        let acted = make(&mut self.joined, &JointAct::Deliver { to, count });
        if let Acted::Count(count) = acted {
            let kept = self.kept(other(to));
            kept.delivered = kept.delivered.saturating_add(count);
        }
        acted
    }

    // Moves or delivers octets, of which `done` are done already, at most `self.most` at once;
    // makes any other act.
    fn act_once(&mut self, act: &JointAct, done: usize, words: &mut Words<'_>) -> Acted {
        match act {
            JointAct::Move { from, count } => {
                let piece = self.most.min(count.saturating_sub(done));
                self.move_piece(*from, piece, words)
            }
            JointAct::Deliver { to, count } => {
                let piece = self.most.min(count.saturating_sub(done));
                self.deliver_piece(*to, piece)
            }
            _ => make(&mut self.joined, act),
        }
    }

    // Moves or delivers octets in pieces.
    fn act_in_pieces(&mut self, act: &JointAct, words: &mut Words<'_>) -> Acted {
        let mut done = 0usize;
        for _ in 0..1_000_000 {
            match self.act_once(act, done, words) {
                Acted::Count(0) => return Acted::Count(done),
                Acted::Count(count) => done = done.saturating_add(count),
                answer => return answer,
            }
        }
        words.unread();
        Acted::Memory
    }

    // Makes an act, whose octets are moved or delivered in pieces.
    fn act(&mut self, act: &JointAct, words: &mut Words<'_>) -> Acted {
        match act {
            JointAct::Move { .. } | JointAct::Deliver { .. } => self.act_in_pieces(act, words),
            _ => make(&mut self.joined, act),
        }
    }

    // What a case sees of both ends.
    fn halves(&self) -> (Half, Half) {
        (self.half(Side::Client), self.half(Side::Server))
    }

    // Makes an act, and adds what it answers, and whether a refused one has changed what is seen.
    fn add_act(&mut self, act: &JointAct, words: &mut Words<'_>, text: &mut Text) {
        let before = self.halves();
        let acted = self.act(act, words);
        add_acted(self.alloc, text, acted);
        if changes_nothing(act, acted) && before != self.halves() {
            text.push_line("it has changed the ends");
        }
    }

    // An end pumps, releases and moves all, and the other takes all; the first answer that is not
    // the expected one.
    fn send_all(&mut self, from: Side, words: &mut Words<'_>) -> Option<Acted> {
        for step in 0..4 {
            match self.act(&sending_act(step, from), words) {
                Acted::Count(_) | Acted::Done => {}
                answer => return Some(answer),
            }
        }
        None
    }

    // Both ends send all; the first answer that is not the expected one.
    fn exchange(&mut self, words: &mut Words<'_>) -> Option<Acted> {
        match self.send_all(Side::Client, words) {
            None => self.send_all(Side::Server, words),
            answer => answer,
        }
    }

    // Both go on until they are quiet.
    fn settle(&mut self, words: &mut Words<'_>, text: &mut Text) {
        for _ in 0..1_000 {
            if self.joined.quiet() {
                return text.push_line("quiet");
            }
            if let Some(answer) = self.exchange(words) {
                return add_acted(self.alloc, text, answer);
            }
        }
        text.push_line("not quiet");
    }

    // All that was moved to an end was delivered.
    fn empty_pipe(&mut self, from: Side) {
        let kept = self.kept(from);
        kept.moved.clear();
        kept.delivered = 0;
    }

    // The library drives both until they are quiet, by so many rounds at most: adds how many it has
    // made, what has stopped it, and whether both are quiet.
    fn drive(&mut self, most: u64, text: &mut Text) {
        let settled = drive(&mut self.joined, most);
        text.push_value(settled.rounds);
        text.push_str(stopped(settled));
        if !self.joined.quiet() {
            return text.push_line("");
        }
        self.empty_pipe(Side::Client);
        self.empty_pipe(Side::Server);
        text.push_line(" quiet");
    }

    // Adds what an end has handed out since the last time.
    fn add_handed(&mut self, side: Side, text: &mut Text) {
        let read = self.kept(side).read;
        let events = self.joined.handed(side);
        for place in read..events.len() {
            if let Some(event) = events.get(place) {
                add_event(self.alloc, text, event);
            }
        }
        let all = events.len();
        self.kept(side).read = all;
    }

    // Adds the line of what a case sees of an end, if that has changed.
    fn add_changed_half(&mut self, name: &str, side: Side, text: &mut Text) {
        let half = self.half(side);
        let kept = self.kept(side);
        if kept.seen != Some(half) {
            kept.seen = Some(half);
            add_half(name, half, text);
        }
    }

    // Adds what is seen of each end of which it has changed, and whether both are quiet.
    fn add_halves(&mut self, text: &mut Text) {
        self.add_changed_half("client", Side::Client, text);
        self.add_changed_half("server", Side::Server, text);
        if self.joined.quiet() {
            text.push_line("quiet");
        }
    }

    // Adds the messages that an end has accepted.
    fn add_accepted(&self, side: Side, text: &mut Text) {
        for accepted in self.joined.accepted(side) {
            add_accepted(self.alloc, text, accepted);
        }
    }

    // Adds the octets on an end's pipe.
    fn add_piped(&mut self, side: Side, text: &mut Text) {
        let alloc = self.alloc;
        let count = self.joined.piped(side);
        let kept = self.kept(side);
        let pipe = kept.moved.get(kept.delivered..).unwrap_or(&[]);
        if count == pipe.len() {
            add_frames(text, pipe);
        } else {
            add_labeled(text, "another count: ", count);
        }
    }

    // Adds whether an end has handed out all that the other has accepted for a stream.
    fn add_whole(&self, side: Side, id: u32, text: &mut Text) {
        let accepted = self.joined.accepted(other(side));
        match is_whole(self.joined.handed(side), accepted, id) {
            None => text.push_line("no prefix"),
            Some(true) => text.push_line("yes"),
            Some(false) => text.push_line("no"),
        }
    }

    /// Runs a command: an act, or another one.
    pub(crate) fn answer(&mut self, name: &str, words: &mut Words<'_>, text: &mut Text) {
        match read_act(self.alloc, name, words) {
            Some(act) => self.add_act(&act, words, text),
            None => self.show(name, words, text),
        }
    }

    // Runs a command that is no act.
    fn show(&mut self, name: &str, words: &mut Words<'_>, text: &mut Text) {
        match name {
            "settle" => self.settle(words, text),
            "rounds" => self.drive(words.number(), text),
            "quiet" if self.joined.quiet() => text.push_line("yes"),
            "quiet" => text.push_line("no"),
            "ends" => self.add_halves(text),
            _ => {
                let side = read_side(words);
                self.show_side(name, side, words, text);
            }
        }
    }

    // Runs a command on one end.
    fn show_side(&mut self, name: &str, side: Side, words: &mut Words<'_>, text: &mut Text) {
        match name {
            "waits" => add_value(text, self.conn(side).waiting()),
            "pipes" => add_value(text, self.joined.piped(side)),
            "piped" => self.add_piped(side, text),
            "accepted" => self.add_accepted(side, text),
            "handed" => self.add_handed(side, text),
            "room" => add_option(text, self.conn(side).room(words.number())),
            "whole" => self.add_whole(side, words.number(), text),
            _ => words.unread(),
        }
    }
}
