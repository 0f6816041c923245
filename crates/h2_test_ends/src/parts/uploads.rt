//! The upload: a body that is made as it is read, and octets in place of an answer.

use crate::parts::body::{LONG, PART, Source, WINDOW, are_at};
use crate::parts::peer::{Manner, Peer, Resets, SOME, Wanted, new_peer};
use crate::parts::pipe::Pipe;
use anyhow::Error;
use h2_conn::Role;
use h2_uses::upload;
use std::alloc::Global;
use std::cell::{Cell, RefCell};
use std::io::Read;

/// The most octets that an answer may have.
const LIMIT: usize = 1_000;

/// A body, and the server that it is uploaded to.
#[derive(Clone, Copy)]
struct Row {
    length: u64,
    fails: bool,
    server: Manner,
    wanted: Wanted,
    /// The most octets of the body that are read.
    read: u64,
    is_answered: bool,
}

/// A server that takes all of a long body, and then answers.
const READER: Manner = Manner {
    role: Role::Server,
    sends: 1_000,
    begins_at: LONG,
    releases: u32::MAX,
    resets: Resets::Never,
    is_odd: false,
};

/// A long body comes whole, little of it is under way, and it is answered.
const WHOLE: Row = Row {
    length: LONG,
    fails: false,
    server: READER,
    wanted: Wanted {
        is_whole: true,
        count: (LONG, LONG),
        ..SOME
    },
    read: LONG,
    is_answered: true,
};

/// A body that can't go on is cancelled.
const CANCELLED: Row = Row {
    is_answered: false,
    ..WHOLE
};

const ROWS: [Row; 7] = [
    WHOLE,
    // The server returns credit slowly.
    Row {
        server: Manner {
            releases: 9_999,
            ..READER
        },
        ..WHOLE
    },
    // A server that returns none gets its window, and no more than a part is read beyond it.
    Row {
        server: Manner {
            releases: 0,
            ..READER
        },
        wanted: Wanted {
            reset: Some(8),
            count: (WINDOW, WINDOW),
            ..SOME
        },
        read: WINDOW + PART,
        ..CANCELLED
    },
    // One that answers early gets no more than its window, and then NO_ERROR.
    Row {
        server: Manner {
            begins_at: 0,
            releases: 0,
            ..READER
        },
        wanted: Wanted {
            reset: Some(0),
            count: (WINDOW, WINDOW),
            ..SOME
        },
        read: WINDOW + PART,
        ..WHOLE
    },
    // An answer that is too long is refused.
    Row {
        server: Manner {
            sends: 1_001,
            ..READER
        },
        ..CANCELLED
    },
    // A body that can't be read to its end.
    Row {
        length: 100_000,
        fails: true,
        wanted: Wanted {
            reset: Some(8),
            count: (100_000, 100_000),
            ..SOME
        },
        ..CANCELLED
    },
    // After a reset of the server no more is read.
    Row {
        server: Manner {
            resets: Resets::At(100_000),
            ..READER
        },
        wanted: Wanted {
            count: (100_000, 200_000),
            ..SOME
        },
        read: 300_000,
        ..CANCELLED
    },
];

/// A server's SETTINGS.
const START: &[u8] = b"\0\0\0\x04\0\0\0\0\0";

/// What a server sends after its SETTINGS, where it isn't a whole answer, and what the upload then
/// says.
const REFUSED: [(&[u8], &str); 5] = [
    (b"", "the input has ended before the answer"),
    (
        b"\x00\x00\x04\x03\x00\x00\x00\x00\x01\x00\x00\x00\x0b",
        "the stream was reset with code 11",
    ),
    (
        b"\x00\x00\x08\x07\x00\x00\x00\x00\x00\x00\x00\x00\x00\x00\x00\x00\x00",
        "the server has not processed the request",
    ),
    (
        b"\x00\x00\x01\x01\x04\x00\x00\x00\x01\x88\
            \x00\x00\x09\x00\x01\x00\x00\x00\x01too long!",
        "the answer is too long",
    ),
    (
        b"\x00\x00\x00\x00\x00\x00\x00\x00\x00",
        "the connection has failed: PROTOCOL_ERROR",
    ),
];

/// Uploads a row's body to a server. Returns whether that gave its answer.
fn is_answered(alloc: Global, row: &Row, made: &Cell<u64>, server: &RefCell<Peer>) -> bool {
    let mut from = Pipe {
        alloc,
        peer: server,
    };
    let mut to = from;
    let source = Source {
        made,
        length: row.length,
        fails: row.fails,
    };
    match upload(alloc, &mut from, &mut to, b"localhost", b"/", source, LIMIT) {
        Ok(answer) => answer.body.len() == LIMIT && are_at(0, &answer.body),
        Err(_) => false,
    }
}

/// Whether a row holds.
fn holds(alloc: Global, row: &Row) -> bool {
    let (sent, made) = (Cell::new(0), Cell::new(0));
    let Some(server) = new_peer(alloc, row.server, &sent, &made) else {
        return false;
    };
    let server = RefCell::new(server);
    let is_answered = is_answered(alloc, row, &made, &server);
    let seen = server.into_inner().seen;
    is_answered == row.is_answered && seen.is(&row.wanted) && made.get() <= row.read
}

/// Whether an error reads so.
fn reads(alloc: Global, error: &Error, text: &str) -> bool {
    match error.to_string(alloc) {
        Ok(said) => said.as_str() == text,
        Err(_) => false,
    }
}

/// Whether an upload says this where a server sends these octets.
fn says(alloc: Global, octets: &[u8], text: &str) -> bool {
    let made = Cell::new(0);
    let source = Source {
        made: &made,
        length: 100,
        fails: false,
    };
    let mut from = START.chain(octets);
    let mut to = Vec::new(alloc);
    match upload(alloc, &mut from, &mut to, b"localhost", b"/", source, 8) {
        Ok(_) => false,
        Err(error) => reads(alloc, &error, text),
    }
}

/// The place of the first row that doesn't hold.
fn first_wrong_body(alloc: Global) -> usize {
    for (place, row) in ROWS.iter().enumerate() {
        if !holds(alloc, row) {
            return place;
        }
    }
    ROWS.len()
}

/// The place of the first refusal that isn't said.
fn first_unsaid(alloc: Global) -> usize {
    for (place, (octets, text)) in REFUSED.iter().enumerate() {
        if !says(alloc, octets, text) {
            return place;
        }
    }
    REFUSED.len()
}

#[test]
fn bodies_are_uploaded(rt: HostRuntime) {
    assert_eq!(rt; first_wrong_body(rt.alloc()), ROWS.len());
}

#[test]
fn each_refusal_is_said(rt: HostRuntime) {
    assert_eq!(rt; first_unsaid(rt.alloc()), REFUSED.len());
}
