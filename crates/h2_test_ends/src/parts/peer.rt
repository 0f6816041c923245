//! The peer of the programs: a connection that sends and takes bodies on its first stream.

use crate::parts::body::{LONG, PART, Source, are_at};
use h2_conn::{Config, Conn, Event, FieldList, Role};
use h2_message::Message;
use hpack::Field;
use std::alloc::{AllocError, Global};
use std::cell::Cell;

/// The stream of all bodies.
const STREAM: u32 = 1;

/// The octets of a body that are given at once.
const GIVEN: usize = 4_096;

/// The code with which a peer resets its stream, ENHANCE_YOUR_CALM.
pub(crate) const CALM: u32 = 11;

/// When a peer resets its stream.
#[derive(Clone, Copy)]
pub(crate) enum Resets {
    Never,
    /// Once so many octets have come, with ENHANCE_YOUR_CALM.
    At(u64),
    /// Once its own message was sent whole, with NO_ERROR.
    Last,
}

/// What a peer does.
#[derive(Clone, Copy)]
pub(crate) struct Manner {
    pub(crate) role: Role,
    /// The length of the body that it sends.
    pub(crate) sends: u64,
    /// It begins its message once so many octets have come.
    pub(crate) begins_at: u64,
    /// The most octets of credit that it returns in a turn.
    pub(crate) releases: u32,
    pub(crate) resets: Resets,
    /// Whether a client makes a second request beside the first, and a server processes none.
    pub(crate) is_odd: bool,
}

/// What has come to a peer.
#[derive(Clone, Copy)]
pub(crate) struct Seen {
    has_head: bool,
    /// The number of octets of the body, and whether they are those of the body.
    count: u64,
    are_right: bool,
    is_whole: bool,
    /// The code of a reset.
    reset: Option<u32>,
    /// The number of requests that were not processed.
    unprocessed: u32,
    /// The most octets of the body that were made and had not come.
    under_way: u64,
}

/// What is to come to a peer.
#[derive(Clone, Copy)]
pub(crate) struct Wanted {
    /// The least and the greatest number of octets.
    pub(crate) count: (u64, u64),
    pub(crate) is_whole: bool,
    pub(crate) reset: Option<u32>,
    pub(crate) unprocessed: u32,
    /// The most octets that may be under way.
    pub(crate) under_way: u64,
}

/// Some octets, of which no more than a part is under way, and no end.
pub(crate) const SOME: Wanted = Wanted {
    count: (0, LONG),
    is_whole: false,
    reset: None,
    unprocessed: 0,
    under_way: PART,
};

/// A peer.
#[derive(Drop)]
pub(crate) struct Peer<'a> {
    conn: Conn,
    head: Vec<Field>,
    manner: Manner,
    /// The body that it sends.
    source: Source<'a>,
    is_begun: bool,
    is_sent: bool,
    /// How many octets were made of the body that comes.
    made: &'a Cell<u64>,
    pub(crate) seen: Seen,
}

impl Seen {
    /// Nothing.
    fn nothing() -> Seen {
        Seen {
            has_head: false,
            count: 0,
            are_right: true,
            is_whole: false,
            reset: None,
            unprocessed: 0,
            under_way: 0,
        }
    }

    /// Notes what is reported, where so many octets were made.
    fn note(&mut self, event: Event<&FieldList, &[u8]>, made: u64) {
        match event {
            Event::Fields { end, .. } => {
                self.has_head = true;
                self.is_whole = end;
            }
            Event::Data { bytes, end, .. } => {
                self.under_way = self.under_way.max(made.saturating_sub(self.count));
                self.are_right = self.are_right && are_at(self.count, bytes);
                self.count = self.count.wrapping_add(bytes.len() as u64);
                self.is_whole = end;
            }
            Event::Reset { code, .. } => self.reset = Some(code),
            Event::Unprocessed { .. } => self.unprocessed = self.unprocessed.wrapping_add(1),
            _ => {}
        }
    }

    /// Whether what was to come has come.
    pub(crate) fn is(&self, wanted: &Wanted) -> bool {
        self.are_right
            && self.count >= wanted.count.0
            && self.count <= wanted.count.1
            && self.is_whole == wanted.is_whole
            && self.reset == wanted.reset
            && self.unprocessed == wanted.unprocessed
            && self.under_way <= wanted.under_way
    }
}

/// The head of what a peer sends: GET or POST for `/`, or status 200.
fn head_of(alloc: Global, role: Role, length: u64) -> Result<Message, AllocError> {
    match role {
        Role::Client if length == 0 => Message::get(alloc, b"localhost", b"/"),
        Role::Client => Message::request(alloc, b"POST", b"localhost", b"/"),
        Role::Server => Message::response(alloc, 200),
    }
}

/// A peer with this manner. `sent` counts the octets that are made of its body, and `made` those
/// of the other body.
pub(crate) fn new_peer<'a>(
    alloc: Global,
    manner: Manner,
    sent: &'a Cell<u64>,
    made: &'a Cell<u64>,
) -> Option<Peer<'a>> {
    let head = head_of(alloc, manner.role, manner.sends).ok()?.head;
    let conn = match manner.role {
        Role::Client => Conn::client(alloc, Config::default()),
        Role::Server => Conn::server(alloc, Config::default()),
    };
    Some(Peer {
        conn: conn.ok()?,
        head,
        manner,
        source: Source {
            made: sent,
            length: manner.sends,
            fails: false,
        },
        is_begun: false,
        is_sent: false,
        made,
        seen: Seen::nothing(),
    })
}

impl Peer<'_> {
    /// Takes octets. Returns whether the connection is up.
    pub(crate) fn take(&mut self, octets: &[u8]) -> bool {
        let mut unused = octets;
        for _ in 0..u64::MAX {
            let Ok(taken) = self.conn.take(unused) else {
                return false;
            };
            unused = unused.get(taken.used..).unwrap_or(&[]);
            match taken.event {
                Some(event) => self.seen.note(event, self.made.get()),
                None if unused.is_empty() => break, // an event need not use octets
                None => {}
            }
        }
        true
    }

    /// Returns credit, sends what can go, resets the stream where that is due, and puts out `most`
    /// octets at most.
    pub(crate) fn turn(&mut self, most: usize, out: &mut Vec<u8>) {
        let owed = self.conn.owed(STREAM).min(self.manner.releases);
        if owed > 0 {
            let _ = self.conn.release(STREAM, owed);
        }
        if !self.is_sent && self.seen.count >= self.manner.begins_at {
            self.send();
        }
        self.reset();
        let _ = self.conn.put_out(most, out);
    }

    /// Sends the head, or what can go of the body.
    fn send(&mut self) {
        if !self.is_begun {
            self.begin();
            return;
        }
        let place = self.source.made.get();
        let mut part = [0u8; GIVEN];
        let count = self.source.fill(&mut part);
        let ends = self.source.made.get() == self.source.length;
        let octets = part.get(..count).unwrap_or(&[]);
        let sent = self.conn.data(STREAM, octets, ends).unwrap_or(0);
        self.source.made.set(place.wrapping_add(sent as u64));
        self.is_sent = ends && sent == count;
    }

    /// Sends the head: a server's once that of the request has come.
    fn begin(&mut self) {
        let ends = self.source.length == 0;
        self.is_begun = match self.manner.role {
            Role::Client => self.conn.open(&self.head, ends).is_ok(),
            Role::Server => {
                self.seen.has_head && self.conn.fields(STREAM, &self.head, ends).is_ok()
            }
        };
        self.is_sent = self.is_begun && ends;
        if self.manner.is_odd {
            self.be_odd();
        }
    }

    /// A client makes a second request, and a server says that it processes none.
    fn be_odd(&mut self) {
        let _ = match self.manner.role {
            Role::Client => self.conn.open(&self.head, true).is_ok(),
            Role::Server => self.conn.go_away().is_ok(),
        };
        self.manner.is_odd = false;
    }

    /// Resets the stream where that is due, and sends nothing more.
    fn reset(&mut self) {
        let code = match self.manner.resets {
            Resets::At(count) if self.seen.count >= count => CALM,
            Resets::Last if self.is_sent => 0,
            _ => return,
        };
        if self.conn.reset(STREAM, code).is_ok() {
            self.manner.resets = Resets::Never;
            self.is_sent = true;
        }
    }
}
