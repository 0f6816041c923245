//! The file server: one file that is made as it is read, and requests that get a status alone.

use crate::parts::body::{LONG, PART, Source, WINDOW};
use crate::parts::peer::{Manner, Peer, Resets, SOME, Wanted, new_peer};
use crate::parts::pipe::Pipe;
use anyhow::{Result, bail};
use h2_conn::{FieldList, Role};
use h2_uses::{Opener, serve_files};
use std::alloc::Global;
use std::cell::{Cell, RefCell};
use std::io::Read;

/// A file, and the client that asks for it.
#[derive(Clone, Copy)]
struct Row {
    length: u64,
    fails: bool,
    client: Manner,
    wanted: Wanted,
    /// The most octets of the file that are read.
    read: u64,
}

/// A client that takes all.
const READER: Manner = Manner {
    role: Role::Client,
    sends: 0,
    begins_at: 0,
    releases: u32::MAX,
    resets: Resets::Never,
    is_odd: false,
};

/// A long file comes whole, and little of it is under way.
const WHOLE: Row = Row {
    length: LONG,
    fails: false,
    client: READER,
    wanted: Wanted {
        is_whole: true,
        count: (LONG, LONG),
        ..SOME
    },
    read: LONG,
};

const ROWS: [Row; 5] = [
    WHOLE,
    // The client returns credit slowly.
    Row {
        client: Manner {
            releases: 9_999,
            ..READER
        },
        ..WHOLE
    },
    // A client that returns none gets its window, and no more than a part is read beyond it.
    Row {
        client: Manner {
            releases: 0,
            ..READER
        },
        wanted: Wanted {
            count: (WINDOW, WINDOW),
            ..SOME
        },
        read: WINDOW + PART,
        ..WHOLE
    },
    // A file that can't be read to its end is reset with INTERNAL_ERROR after what was read.
    Row {
        length: 100_000,
        fails: true,
        wanted: Wanted {
            reset: Some(2),
            count: (100_000, 100_000),
            ..SOME
        },
        ..WHOLE
    },
    // After a reset of the client no more is read.
    Row {
        client: Manner {
            resets: Resets::At(100_000),
            ..READER
        },
        wanted: Wanted {
            count: (100_000, 200_000),
            ..SOME
        },
        read: 300_000,
        ..WHOLE
    },
];

/// A client's preface and SETTINGS.
const START: &[u8] = b"PRI * HTTP/2.0\r\n\r\nSM\r\n\r\n\0\0\0\x04\0\0\0\0\0";

/// The HEADERS of a request, and the octets that answer it.
const ANSWERS: [(&[u8], &[u8]); 6] = [
    // GET /: an empty file.
    (
        b"\0\0\x03\x01\x05\0\0\0\x01\x82\x86\x84",
        b"\0\0\x01\x01\x04\0\0\0\x01\x88\0\0\0\0\x01\0\0\0\x01",
    ),
    // HEAD /
    (
        b"\0\0\x08\x01\x05\0\0\0\x01B\x04HEAD\x86\x84",
        b"\0\0\x01\x01\x05\0\0\0\x01\x88",
    ),
    // POST /: 501
    (
        b"\0\0\x03\x01\x05\0\0\0\x01\x83\x86\x84",
        b"\0\0\x04\x01\x05\0\0\0\x01H\x82l\x01",
    ),
    // GET /none: 404
    (
        b"\0\0\x09\x01\x05\0\0\0\x01\x82\x86D\x05/none",
        b"\0\0\x01\x01\x05\0\0\0\x01\x8d",
    ),
    // GET /fails: 500
    (
        b"\0\0\x0a\x01\x05\0\0\0\x01\x82\x86D\x06/fails",
        b"\0\0\x01\x01\x05\0\0\0\x01\x8e",
    ),
    // GET / of u@h: 400
    (
        b"\0\0\x08\x01\x05\0\0\0\x01\x82\x86\x84A\x03u@h",
        b"\0\0\x01\x01\x05\0\0\0\x01\x8c",
    ),
];

/// One file, but for two paths.
#[derive(Drop)]
struct Shelf<'a> {
    file: Source<'a>,
}

impl<'a> Opener for Shelf<'a> {
    type File = Source<'a>;

    fn open(&mut self, head: &FieldList) -> Result<Option<Source<'a>>> {
        match head.value(b":path") {
            Some(b"/none") => Ok(None),
            Some(b"/fails") => bail!("no such disk"),
            _ => Ok(Some(self.file)),
        }
    }
}

/// Serves a row's file to a client. Returns whether that ended without an error.
fn is_served(alloc: Global, row: &Row, made: &Cell<u64>, client: &RefCell<Peer>) -> bool {
    let mut from = Pipe {
        alloc,
        peer: client,
    };
    let mut to = from;
    let mut shelf = Shelf {
        file: Source {
            made,
            length: row.length,
            fails: row.fails,
        },
    };
    serve_files(alloc, &mut from, &mut to, &mut shelf).is_ok()
}

/// Whether a row holds.
fn holds(alloc: Global, row: &Row) -> bool {
    let (sent, made) = (Cell::new(0), Cell::new(0));
    let Some(client) = new_peer(alloc, row.client, &sent, &made) else {
        return false;
    };
    let client = RefCell::new(client);
    let is_served = is_served(alloc, row, &made, &client);
    let seen = client.into_inner().seen;
    is_served && seen.is(&row.wanted) && made.get() <= row.read
}

/// Whether a request is answered so, by an empty file where there is one.
fn is_answered(alloc: Global, request: &[u8], answer: &[u8]) -> bool {
    let made = Cell::new(0);
    let mut shelf = Shelf {
        file: Source {
            made: &made,
            length: 0,
            fails: false,
        },
    };
    let mut from = START.chain(request);
    let mut to = Vec::new(alloc);
    serve_files(alloc, &mut from, &mut to, &mut shelf).is_ok() && to.ends_with(answer)
}

/// The place of the first row that doesn't hold.
fn first_wrong_file(alloc: Global) -> usize {
    for (place, row) in ROWS.iter().enumerate() {
        if !holds(alloc, row) {
            return place;
        }
    }
    ROWS.len()
}

/// The place of the first request that isn't answered so.
fn first_wrong_answer(alloc: Global) -> usize {
    for (place, (request, answer)) in ANSWERS.iter().enumerate() {
        if !is_answered(alloc, request, answer) {
            return place;
        }
    }
    ANSWERS.len()
}

#[test]
fn files_are_served(rt: HostRuntime) {
    assert_eq!(rt; first_wrong_file(rt.alloc()), ROWS.len());
}

#[test]
fn requests_are_answered(rt: HostRuntime) {
    assert_eq!(rt; first_wrong_answer(rt.alloc()), ANSWERS.len());
}
