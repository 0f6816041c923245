//! Connections of the program in memory, and clients over links in memory.
//!
//! - `given OCTETS`: what the peer gives over the first connection, and then the end.
//!   `also OCTETS`: what it gives over one more. `more OCTETS` adds to the last of these.
//! - `input OCTETS`: standard input, or `input text TEXT`, in which `\xNN` is an octet; without it
//!   each read fails. `file OCTETS`: the octets of the file `file`, the only one.
//! - `reads N`, `writes N`: reads and writes of connections, and reads of standard input, have at
//!   most N octets.
//! - `fails CALL N KIND`: of these calls the one after N others fails, in each run. `CALL` is
//!   `lookup`, `connect`, `bind`, `accept`; `nodelay`, `shut`, `read` or `write` of a connection;
//!   `link`, a read or a write of a link in memory; `file`, a write; `in`, `out` or `err`; or
//!   `room`, an octet of standard output, which takes none from there on. `KIND` is an error of the
//!   system: `refused`, `reset`, `aborted`, `pipe`, `unreachable`, `no_network`, `timed_out`,
//!   `in_use`, `forbidden`, `unknown`, `interrupted`, `memory`, `zero` (a write of a connection
//!   takes nothing) or `other`.
//! - `clock MS`: the clock goes on by so many milliseconds each time that it is read; at first it
//!   stands. `terminal`: standard error is a terminal.
//! - `h2 WORDS`: what the program prints with these words on standard output, then on standard
//!   error (each line after `err: `), and its status. In a word `\xNN` is an octet. A carriage
//!   return is `\r`, and a last line without an end has a backslash after it. `watch WORDS`: the
//!   same, of words whose lines depend on how much a read has.
//! - `failing CALL WORDS`: the number of these calls that the program makes with these words. Each
//!   of them fails in turn: then the status is 3, and the complete output begins with what was
//!   printed. `failing room WORDS`: the same of the octets of the output.
//! - `output`: the frames that the last run has written to its connections; `sent`: the same as
//!   octets; `shown`: what `h2 show` prints of them. `unread`: how many octets of the last
//!   connection it has left. `address`: where it has connected last, or listened. `created`: what
//!   it has written to the file, or `none` where it has created none.
//! - `location URL`: the response to GET of a URL over a new connection, as it is printed.
//! - `phrase N`: the reason phrase of a status.
//! - `link ACTS`: acts on a link over a new connection: `write N`, of octets that count up;
//!   `read N`; `flush`; and `drain`, which drops the input. A line after each says how many octets
//!   were sent then, in how many writes, how many calls of the link have failed, whether writes go
//!   at once (TCP_NODELAY), and whether the connection was shut down for writes.
//! - `client`, `client TABLE WINDOW STREAMS`: a client that has made no request, with the default
//!   settings, or these. `request MESSAGE`: it makes a request: the stream, or why it is refused,
//!   and the message that is handed back; `request N times MESSAGE` does so N times, and says what
//!   the last is answered. `next ID`: what comes next on a stream. `give_up ID`: it gives up the
//!   response; `widen N`: it widens its connection.
//! - `fetch MESSAGE`: a client that makes one request; `part`: the next part of its response.
//!   `over URL`: the response to GET of a URL, as it is printed.
//! - The clients use the link that was made by the last `given`, `also` or `more`, so that one can
//!   go on over another link. `write OCTETS` writes all of the octets to it, `read N` reads at most
//!   N of it. `written`: the frames written to it; `failures`: how many of its calls have failed.
//!
//! A case is run with reads that have all, and, unless it says `reads` or more than 20,000 octets
//! are given, with reads of 1 and of 7 octets; `anywhere`: with those of each number of octets up
//! to 100. Where an answer is another one then, it follows, after a line that says so. Answers of
//! `watch`, `output`, `sent`, `shown`, `written` and `link` depend on the reads, and may differ.

mod client;
mod file;
mod links;
mod memory;
mod runs;

use client::Asking;
use h2_case::case::{Case, CaseError};
use h2_case::driver::{Answer, Driver, answers};
use h2_case::fields::read_text;
use h2_case::octets::{add_frames, add_octets, read_octets};
use h2_case::text::Text;
use h2_case::words::Words;
use h2_case_conn::answers::{add_option, add_value, extend};
use h2_net::phrase;
use links::add_acts;
use memory::{Call, Failing, Left, Setup};
use runs::{add_failing, add_location, add_run, add_shown};
use std::alloc::Global;
use std::io::ErrorKind;
use std::net::SocketAddr;

/// Where more octets are given, a case is not run with short reads.
const MOST_TRIED: usize = 20_000;

/// The driver of a case's commands.
#[derive(Drop)]
struct Session {
    setup: Setup,
    asking: Asking,
    /// What the last run has written.
    sent: Vec<u8>,
    filed: Option<Vec<u8>>,
    unread: usize,
    address: Option<SocketAddr>,
    /// Whether the case says how much a read has, and whether it may have any number of octets.
    is_fixed: bool,
    is_anywhere: bool,
}

// Adds the line of octets.
fn add_sent(octets: &[u8], text: &mut Text) {
    add_octets(text, octets);
    text.push_str("\n");
}

// A kind of calls.
fn read_call(words: &mut Words<'_>) -> Call {
    match words.word() {
        "lookup" => Call::Lookup,
        "connect" => Call::Connect,
        "bind" => Call::Bind,
        "accept" => Call::Accept,
        "nodelay" => Call::Nodelay,
        "shut" => Call::Shut,
        "read" => Call::Read,
        "write" => Call::Write,
        "link" => Call::Link,
        "file" => Call::File,
        "in" => Call::In,
        "out" => Call::Out,
        "err" => Call::Err,
        "room" => Call::Room,
        _ => {
            words.unread();
            Call::Read
        }
    }
}

// A kind of errors.
fn read_kind(words: &mut Words<'_>) -> ErrorKind {
    match words.word() {
        "refused" => ErrorKind::ConnectionRefused,
        "reset" => ErrorKind::ConnectionReset,
        "aborted" => ErrorKind::ConnectionAborted,
        "pipe" => ErrorKind::BrokenPipe,
        "unreachable" => ErrorKind::HostUnreachable,
        "no_network" => ErrorKind::NetworkUnreachable,
        "timed_out" => ErrorKind::TimedOut,
        "in_use" => ErrorKind::AddrInUse,
        "forbidden" => ErrorKind::PermissionDenied,
        "unknown" => ErrorKind::Uncategorized,
        "interrupted" => ErrorKind::Interrupted,
        "memory" => ErrorKind::OutOfMemory,
        "zero" => ErrorKind::WriteZero,
        "other" => ErrorKind::Other,
        _ => {
            words.unread();
            ErrorKind::Other
        }
    }
}

// The call that fails.
fn read_failing(words: &mut Words<'_>) -> Failing {
    Failing {
        call: read_call(words),
        after: words.number(),
        kind: read_kind(words),
    }
}

// An input: octets, or a text.
fn read_input(alloc: Global, words: &mut Words<'_>) -> Vec<u8> {
    if words.has("text") {
        read_text(alloc, words)
    } else {
        read_octets(alloc, words)
    }
}

impl Session {
    // A case that has nothing yet, whose reads have at most this many octets.
    fn new(alloc: Global, read: usize) -> Session {
        let setup = Setup {
            alloc,
            peers: Vec::new(alloc),
            input: None,
            file: None,
            read,
            written: usize::MAX,
            failing: None,
            step: 0,
            is_terminal: false,
        };
        Session {
            setup,
            asking: Asking::new(alloc),
            sent: Vec::new(alloc),
            filed: None,
            unread: 0,
            address: None,
            is_fixed: false,
            is_anywhere: false,
        }
    }

    // Has one more connection, which gives octets.
    fn add_peer(&mut self, words: &mut Words<'_>) {
        let octets = read_octets(self.setup.alloc, words);
        if self.setup.peers.push(octets).is_err() {
            words.fail(CaseError::Memory);
        }
        self.asking.connect(&self.setup, words);
    }

    // Adds octets to those of the last connection.
    fn add_octets(&mut self, words: &mut Words<'_>) {
        let octets = read_octets(self.setup.alloc, words);
        match self.setup.peers.last_mut() {
            Some(peer) => extend(peer, &octets, words),
            None => words.unread(),
        }
        self.asking.connect(&self.setup, words);
    }

    // Keeps what a run leaves.
    fn keep(&mut self, left: Left) {
        self.unread = left.unread.get();
        self.address = left.address.get();
        let Left { sent, filed, .. } = left;
        self.sent = sent.into_inner();
        self.filed = filed.into_inner();
    }

    // Runs the program.
    fn run(&mut self, words: &mut Words<'_>, text: &mut Text) {
        let left = Left::new(self.setup.alloc);
        add_run(&self.setup, &left, words, text);
        self.keep(left);
    }

    // Does acts on a link.
    fn act(&mut self, words: &mut Words<'_>, text: &mut Text) {
        let left = Left::new(self.setup.alloc);
        add_acts(&self.setup, &left, words, text);
        self.keep(left);
    }

    // Fetches a location.
    fn fetch_location(&mut self, words: &mut Words<'_>, text: &mut Text) {
        let left = Left::new(self.setup.alloc);
        let url = read_text(self.setup.alloc, words);
        add_location(&self.setup, &url, &left, words, text);
        self.keep(left);
    }

    // Runs a command about what a run is given; returns whether it is one.
    fn set(&mut self, name: &str, words: &mut Words<'_>) -> bool {
        match name {
            "given" => {
                self.setup.peers.clear();
                self.add_peer(words);
            }
            "also" => self.add_peer(words),
            "more" => self.add_octets(words),
            "input" => self.setup.input = Some(read_input(self.setup.alloc, words)),
            "file" => self.setup.file = Some(read_octets(self.setup.alloc, words)),
            "reads" => {
                self.setup.read = words.number();
                self.is_fixed = true;
            }
            "writes" => self.setup.written = words.number(),
            "fails" => self.setup.failing = Some(read_failing(words)),
            "clock" => self.setup.step = words.number(),
            "terminal" => self.setup.is_terminal = true,
            "anywhere" => self.is_anywhere = true,
            _ => return false,
        }
        true
    }

    // Adds what the last run has written to the file.
    fn add_created(&self, text: &mut Text) {
        match &self.filed {
            Some(octets) => add_sent(octets, text),
            None => text.push_line("none"),
        }
    }

    // How many octets are given.
    fn given(&self) -> usize {
        let mut count = 0usize;
        for peer in &self.setup.peers {
            count = count.saturating_add(peer.len());
        }
        match &self.setup.input {
            Some(octets) => count.saturating_add(octets.len()),
            None => count,
        }
    }

    // Whether the case is run with reads of this many octets too.
    fn is_tried(&self, read: usize) -> bool {
        if self.is_fixed || self.given() > MOST_TRIED {
            return false;
        }
        self.is_anywhere || matches!(read, 1 | 7)
    }
}

impl Driver for Session {
    fn answer(&mut self, name: &str, words: &mut Words<'_>, text: &mut Text) {
        if self.set(name, words) {
            return;
        }
        match name {
            "h2" | "watch" => self.run(words, text),
            "failing" => add_failing(&mut self.setup, read_call(words), words, text),
            "link" => self.act(words, text),
            "sent" => add_sent(&self.sent, text),
            "output" => add_frames(text, &self.sent),
            "shown" => add_shown(&self.setup, &self.sent, text),
            "unread" => add_value(text, self.unread),
            "address" => add_option(text, self.address),
            "created" => self.add_created(text),
            "location" => self.fetch_location(words, text),
            "phrase" => add_option(text, phrase(words.number())),
            _ => self.asking.answer(name, words, text),
        }
    }
}

// Whether the answer to a command depends on how much a read has.
fn depends_on_reads(command: &str) -> bool {
    command.starts_with("watch ")
        || command.starts_with("link ")
        || matches!(command, "output" | "sent" | "shown" | "written")
}

// Whether two answers are the same.
fn are_same(answer: &Answer, other: &Answer) -> bool {
    match (answer, other) {
        (Ok(answer), Ok(other)) => answer == other,
        (Err(_), Err(_)) => true,
        _ => false,
    }
}

// Adds what came with other reads.
fn add_other(answer: &mut Answer, other: &Answer, read: usize) {
    let other = match other {
        Ok(other) => other.as_str(),
        Err(_) => "no answer\n",
    };
    let is_refused = match answer {
        Ok(lines) => write!(lines, "with reads of {read} this came:\n{other}").is_err(),
        Err(_) => false,
    };
    if is_refused {
        *answer = Err(CaseError::Memory);
    }
}

// Adds to the first answer that differs with other reads what it is then.
fn add_difference(case: &Case, answers: &mut [Answer], others: &[Answer], read: usize) {
    for (place, step) in case.steps.iter().enumerate() {
        if depends_on_reads(&step.command) {
            continue;
        }
        if let (Some(answer), Some(other)) = (answers.get_mut(place), others.get(place))
            && !are_same(answer, other)
        {
            add_other(answer, other, read);
            return;
        }
    }
}

/// The answers to a case's commands, up to the first that has none.
pub(crate) fn run_case(alloc: Global, case: &Case) -> Vec<Answer> {
    let mut session = Session::new(alloc, usize::MAX);
    let mut first = answers(alloc, case, &mut session);
    for read in 1..=100usize {
        if session.is_tried(read) {
            let others = answers(alloc, case, &mut Session::new(alloc, read));
            add_difference(case, &mut first, &others, read);
        }
    }
    first
}
