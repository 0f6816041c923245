//! Calls of an end, one after another, each made again where memory is refused.

use crate::call::{CLOSED, Call, Given, MEMORY, is_done_in_parts, is_refuse, make};
use crate::end::{End, Kind, new_end};
use crate::lists::Lists;
use crate::record::{Record, Scenario, holds};
use h2_ends::{Code, Conn, Message, Why};
use std::alloc::{AllocError, Global};

/// What can be read of a connection.
#[derive(Clone, Copy, PartialEq, Eq)]
pub(crate) struct Seen {
    waiting: usize,
    held: usize,
    due: u32,
    next_live: Option<u32>,
    next_number: Option<u32>,
    failed: Option<Code>,
    why: Option<Why>,
    /// Of streams 1, 3 and 5.
    room: [Option<i64>; 3],
    owed: [u32; 3],
}

/// What can be read of a connection now.
pub(crate) fn seen_of(conn: &Conn) -> Seen {
    Seen {
        waiting: conn.waiting(),
        held: conn.held(),
        due: conn.due(),
        next_live: conn.next_live(0),
        next_number: conn.next_number(),
        failed: conn.failed(),
        why: conn.why(),
        room: [conn.room(1), conn.room(3), conn.room(5)],
        owed: [conn.owed(1), conn.owed(3), conn.owed(5)],
    }
}

/// Notes what can be read of a connection.
pub(crate) fn note_seen(conn: &Conn, record: &mut Record) {
    let seen = seen_of(conn);
    record.note(u64::try_from(seen.waiting).unwrap_or(0));
    record.note(u64::try_from(seen.held).unwrap_or(0));
    record.note(u64::from(seen.due));
    record.note(u64::from(seen.next_live.unwrap_or(0)));
    record.note(u64::from(seen.next_number.unwrap_or(0)));
    for room in &seen.room {
        record.note_octets(&room.unwrap_or(-1).to_be_bytes());
    }
    for owed in &seen.owed {
        record.note(u64::from(*owed));
    }
}

/// The number of octets of GOAWAY.
const GOAWAY: usize = 17;

/// Whether octets end with GOAWAY with INTERNAL_ERROR, which is returned without it.
pub(crate) fn without_goaway(octets: &[u8]) -> Option<&[u8]> {
    if octets.len() < GOAWAY {
        return None;
    }
    let end = octets.len() - GOAWAY;
    if is_goaway(&octets[end..]) {
        Some(&octets[..end])
    } else {
        None
    }
}

/// Whether these are GOAWAY with INTERNAL_ERROR, whatever its last stream.
fn is_goaway(octets: &[u8]) -> bool {
    let head: &[u8] = b"\0\0\x08\x07\0\0\0\0\0";
    let code: &[u8] = b"\0\0\0\x02";
    octets.starts_with(head) && octets.ends_with(code)
}

/// An end has failed for refused memory where `waiting` octets were queued: GOAWAY follows them,
/// its calls are refused with C1, it takes nothing, and it puts all of that out.
fn check_failed(end: &mut End, waiting: usize, record: &mut Record) {
    record.fail();
    let all = waiting.saturating_add(GOAWAY);
    record.check(end.conn().waiting() == all);
    record.check(end.conn().why() == Some(Why::OutOfMemory));
    record.check(end.ping() == Err(CLOSED));
    record.check(end.go_away() == Err(CLOSED));
    let taken = end.take(b"", record);
    record.check(taken == Err(Code::InternalError));
    let mut out = Vec::new(record.alloc);
    record.check(end.conn().append_waiting(0, &mut out).is_ok());
    record.check(out.len() == all);
    match without_goaway(&out) {
        Some(others) => record.put_out(others),
        None => record.check(false),
    }
    out.clear();
    let given = match end {
        End::Conn(conn) => conn.put_out(usize::MAX, &mut out),
        End::Client(client) => client.put_out(usize::MAX, &mut out),
        End::Server(server) => server.put_out(usize::MAX, &mut out),
    };
    record.check(given == Ok(all) && out.len() == all && end.conn().waiting() == 0);
    record.check(without_goaway(&out).is_some());
    record.check(end.conn().why() == Some(Why::OutOfMemory));
}

/// Takes all octets of a piece.
pub(crate) fn take_all(end: &mut End, piece: &[u8], record: &mut Record) {
    let mut unused = piece;
    for _ in 0..1_000 {
        let waiting = end.conn().waiting();
        match end.take(unused, record) {
            Ok((used, is_over)) => {
                unused = unused.get(used..).unwrap_or(b"");
                if is_over && unused.is_empty() {
                    return;
                }
            }
            Err(Code::InternalError) => return check_failed(end, waiting, record),
            Err(code) => return record.note(u64::from(code.number())),
        }
    }
    record.check(false);
}

/// Makes a call, and once more where memory is refused.
fn make_twice(end: &mut End, call: Call, given: &mut Given, record: &mut Record) {
    let before = seen_of(end.conn());
    let mut answer = make(end, call, given, record);
    let is_again = answer == Err(MEMORY);
    if is_again {
        record.again();
        record.check(!is_refuse(call));
        record.check(seen_of(end.conn()) == before || is_done_in_parts(call));
        answer = make(end, call, given, record);
    }
    if end.conn().failed() == Some(Code::InternalError) {
        record.check(is_refuse(call) && answer == Ok(0));
        return check_failed(end, before.waiting, record);
    }
    match answer {
        Ok(count) if is_done_in_parts(call) => record.note_moved(count, is_again),
        Ok(number) => record.note(number),
        Err(refusal) => {
            record.check(refusal != MEMORY);
            record.refuse(refusal);
        }
    }
}

/// Makes the calls, up to a failure for refused memory.
fn walk(end: &mut End, calls: &[Call], given: &mut Given, record: &mut Record) {
    for call in calls {
        if !record.failed {
            match *call {
                Call::Take(piece) => take_all(end, piece, record),
                own => make_twice(end, own, given, record),
            }
            if !record.failed {
                note_seen(end.conn(), record);
            }
        }
    }
}

/// Calls of a new end.
#[derive(Drop)]
struct Calls<'a> {
    kind: Kind,
    calls: &'static [Call],
    /// The number of them that are refused, but for memory.
    refused: usize,
    given: Given<'a>,
}

impl Scenario for Calls<'_> {
    fn run(&mut self, record: &mut Record) {
        if let Some(mut end) = new_end(self.kind, record) {
            walk(&mut end, self.calls, &mut self.given, record);
            record.check(record.failed || end.conn().failed().is_none());
            record.check(record.failed || record.refused() == self.refused);
        }
    }
}

/// Calls of a new end, with copies of a message.
fn calls_with<'a>(
    kind: Kind,
    calls: &'static [Call],
    refused: usize,
    lists: &'a Lists,
    message: &'a Message,
    messages: Vec<Message>,
) -> Calls<'a> {
    Calls {
        kind,
        calls,
        refused,
        given: Given {
            lists,
            message,
            messages,
        },
    }
}

/// Whether calls of a new end withstand refused memory; `refused` of them are refused for other
/// causes. The messages of each run are all like the first.
pub(crate) fn bears(
    alloc: Global,
    kind: Kind,
    calls: &'static [Call],
    refused: usize,
    message: &Message,
    first: Vec<Message>,
    second: Vec<Message>,
) -> Result<bool, AllocError> {
    let lists = Lists::new(alloc)?;
    let mut one = calls_with(kind, calls, refused, &lists, message, first);
    let mut other = calls_with(kind, calls, refused, &lists, message, second);
    Ok(holds(alloc, &mut one, &mut other))
}
