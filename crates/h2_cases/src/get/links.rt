//! Links: one in memory, and one over a connection.

use super::memory::{Left, Memory, MemoryStream, Setup};
use h2_case::case::CaseError;
use h2_case::octets::{add_last, read_octets};
use h2_case::text::Text;
use h2_case::words::Words;
use h2_case_conn::answers::add_value;
use h2_engines::{Link, LinkFault};
use h2_link::write_all;
use h2_net::StreamLink;
use std::alloc::Global;

/// A link over a connection in memory.
type Streamed<'a> = StreamLink<MemoryStream<'a>>;

/// No test makes as many calls fail.
const MOST_FAILURES: u64 = 1_000;

/// Writes all octets of the words that are left, and adds `done`, or the error.
pub(crate) fn write_octets<L: Link>(
    alloc: Global,
    link: &mut L,
    words: &mut Words<'_>,
    text: &mut Text,
) {
    let octets = read_octets(alloc, words);
    if link.failures() > MOST_FAILURES {
        return words.unread();
    }
    match write_all(link, &octets) {
        Ok(()) => text.push_line("done"),
        Err(error) => add_value(text, error),
    }
}

// Adds what was read into a buffer of zeros: the number of octets, and they; nothing after them has
// changed.
fn add_read(text: &mut Text, buffer: &[u8], given: Result<usize, LinkFault>) {
    let (octets, others) = buffer.split_at(given.unwrap_or(0).min(buffer.len()));
    match given {
        Ok(count) => {
            write!(text, "read {count}");
            add_last(text, octets);
        }
        Err(LinkFault) => text.push_str("read fails"),
    }
    if others.iter().any(|octet| *octet != 0) {
        text.push_str(", and more has changed");
    }
}

/// Reads into a buffer of this length, and adds what came.
pub(crate) fn read<L: Link>(alloc: Global, link: &mut L, length: usize, text: &mut Text) {
    let mut buffer = Vec::new(alloc);
    if buffer.resize(length, 0).is_err() || link.failures() > MOST_FAILURES {
        return text.refuse();
    }
    let given = link.read(&mut buffer);
    add_read(text, &buffer, given);
    text.push_str("\n");
}

// `count` octets that count up modulo 251 from this one on.
fn counted(alloc: Global, first: usize, count: usize, words: &mut Words<'_>) -> Vec<u8> {
    let mut octets = Vec::new(alloc);
    for place in 0..count {
        let octet = u8::try_from(first.wrapping_add(place) % 251).unwrap_or(0);
        if octets.push(octet).is_err() {
            words.fail(CaseError::Memory);
            break;
        }
    }
    octets
}

// Writes octets once, and adds how many were taken.
fn write(link: &mut Streamed<'_>, octets: &[u8], text: &mut Text) -> usize {
    if link.failures() > MOST_FAILURES {
        text.refuse();
        return 0;
    }
    match link.write(octets) {
        Ok(count) => {
            write!(text, "taken {count}\n");
            count
        }
        Err(LinkFault) => {
            text.push_line("write fails");
            0
        }
    }
}

// Sends what is held.
fn flush(link: &mut Streamed<'_>, text: &mut Text) {
    if link.failures() > MOST_FAILURES {
        return text.refuse();
    }
    text.push_line(match link.flush() {
        Ok(()) => "flushed",
        Err(LinkFault) => "flush fails",
    });
}

// Drops the input.
fn drain(link: &mut Streamed<'_>, text: &mut Text) {
    link.drain();
    text.push_line(if link.is_drained() {
        "drained"
    } else {
        "not drained"
    });
}

// Does one act, where so many octets were taken, and returns how many are then.
fn act(
    alloc: Global,
    link: &mut Streamed<'_>,
    taken: usize,
    words: &mut Words<'_>,
    text: &mut Text,
) -> usize {
    match words.word() {
        "write" => {
            let octets = counted(alloc, taken, words.number(), words);
            return taken.saturating_add(write(link, &octets, text));
        }
        "read" => read(alloc, link, words.number(), text),
        "flush" => flush(link, text),
        "drain" => drain(link, text),
        _ => words.unread(),
    }
    taken
}

/// Does acts on a link over a connection, and adds after each one how many octets were sent, in how
/// many writes, and how many calls of the link have failed.
pub(crate) fn add_acts(setup: &Setup, left: &Left, words: &mut Words<'_>, text: &mut Text) {
    let mut link = match StreamLink::new(setup.alloc, Memory { setup, left }.next_stream()) {
        Ok(link) => link,
        Err(error) => return add_value(text, error),
    };
    let mut taken = 0;
    for _ in 0..1_000 {
        if words.is_empty() {
            break;
        }
        taken = act(setup.alloc, &mut link, taken, words, text);
        add_state(left, link.failures(), text);
    }
}

// Adds what has happened to a connection.
fn add_state(left: &Left, failures: u64, text: &mut Text) {
    let (sent, writes) = (left.count.get(), left.writes.get());
    write!(text, "  sent {sent} in {writes}, failures {failures}");
    if left.is_nodelay.get() {
        text.push_str(", at once");
    }
    if left.is_shut.get() {
        text.push_str(", shut down");
    }
    text.push_str("\n");
}
