//! The readers of a connection, and the fields that it has reported last.

ghost use Rattle.std.specs.Prelude.{◌≡◌, None, drop, slice_get};
ghost use Rattle.h2_conn.specs.Conn.{reader_next_number};
ghost use Rattle.h2_spec_log.specs.Log.{reader_held, waiting};
ghost use Rattle.belkjoef.specs.Calls.{OnPlace};
ghost use Rattle.belkjoef.specs.Conns.{SaysOfConn, FindsInConn, AnswersOfConn, SaysConnLog};
ghost use Rattle.belkjoef.specs.Conns.{due_of, conn_place, SaysWhyOfConn, SaysSettingsOfConn};
ghost use Rattle.belkjoef.specs.Conns.{OfReported};
ghost use Rattle.belkjoef.specs.Lent.{LendsField, LendsFields};
ghost use Rattle.belkjoef.specs.Readers.{truth, room_on, owed_at, granted_by, next_above};
ghost use Rattle.belkjoef.specs.Readers.{failed_with};
ghost use Rattle.belkjoef.specs.Readers.{active_on, flow_of_data};

use crate::conn::{BjConn, HeldConn};
use crate::fields::{BjLent, lend, lend_at};
use crate::numbers::{EMPTY, NONE, OK, of_why};
use crate::readers::{BjSettings, yes};
use std::alloc::Global;

// contract: c (own) A reader says what the end in its place answers
/// Stores how many octets of a stream were reported and not yet released.
#[unsafe(no_mangle)]
pub extern "C" fn bj_conn_owed(alloc: Global, conn: &mut BjConn, stream: u32, owed: &mut u32) -> i32
    ensures call { OnPlace result (SaysOfConn (SaysConnLog (owed_at stream)) result owed.new)
        conn.old.held conn.new.held }
    ensures unheld { conn.old.held ≡ None → owed.new ≡ owed.old }
{
    let Some(held) = conn.open(alloc) else {
        return EMPTY;
    };
    *owed = held.conn.owed(stream);
    conn.keep(held);
    OK
}

// contract: c (own) A reader says what the end in its place answers
/// Stores how many octets of the connection's window are still to be returned.
#[unsafe(no_mangle)]
pub extern "C" fn bj_conn_due(alloc: Global, conn: &mut BjConn, due: &mut u32) -> i32
    ensures call { OnPlace result (SaysOfConn (SaysConnLog due_of) result due.new)
        conn.old.held conn.new.held }
    ensures unheld { conn.old.held ≡ None → due.new ≡ due.old }
{
    let Some(held) = conn.open(alloc) else {
        return EMPTY;
    };
    *due = held.conn.due();
    conn.keep(held);
    OK
}

// contract: c (own) A reader says what the end in its place answers
/// Stores how many octets the peer may send on the connection before any of them is returned.
#[unsafe(no_mangle)]
pub extern "C" fn bj_conn_granted(alloc: Global, conn: &mut BjConn, granted: &mut u32) -> i32
    ensures call { OnPlace result (SaysOfConn (SaysConnLog granted_by) result granted.new)
        conn.old.held conn.new.held }
    ensures unheld { conn.old.held ≡ None → granted.new ≡ granted.old }
{
    let Some(held) = conn.open(alloc) else {
        return EMPTY;
    };
    *granted = held.conn.granted();
    conn.keep(held);
    OK
}

// contract: c (own) A reader says what the end in its place answers
/// Stores how many octets of an incomplete preface or frame are held.
#[unsafe(no_mangle)]
pub extern "C" fn bj_conn_held(alloc: Global, conn: &mut BjConn, count: &mut usize) -> i32
    ensures call { OnPlace result (SaysOfConn (SaysConnLog reader_held) result count.new)
        conn.old.held conn.new.held }
    ensures unheld { conn.old.held ≡ None → count.new ≡ count.old }
{
    let Some(held) = conn.open(alloc) else {
        return EMPTY;
    };
    *count = held.conn.held();
    conn.keep(held);
    OK
}

// contract: c (own) A reader says what the end in its place answers
/// Stores how many octets of output wait.
#[unsafe(no_mangle)]
pub extern "C" fn bj_conn_waiting_count(alloc: Global, conn: &mut BjConn, count: &mut usize) -> i32
    ensures call { OnPlace result (SaysOfConn (SaysConnLog waiting) result count.new)
        conn.old.held conn.new.held }
    ensures unheld { conn.old.held ≡ None → count.new ≡ count.old }
{
    let Some(held) = conn.open(alloc) else {
        return EMPTY;
    };
    *count = held.conn.waiting();
    conn.keep(held);
    OK
}

// contract: c (own) A reader says what the end in its place answers
/// Stores how many octets of input were used.
#[unsafe(no_mangle)]
pub extern "C" fn bj_conn_place(alloc: Global, conn: &mut BjConn, place: &mut u64) -> i32
    ensures call { OnPlace result (SaysOfConn (SaysConnLog conn_place) result place.new)
        conn.old.held conn.new.held }
    ensures unheld { conn.old.held ≡ None → place.new ≡ place.old }
{
    let Some(held) = conn.open(alloc) else {
        return EMPTY;
    };
    *place = held.conn.place();
    conn.keep(held);
    OK
}

// contract: c (own) A reader says what the end in its place answers
/// Stores the payload length of the last DATA frame, padding included.
#[unsafe(no_mangle)]
pub extern "C" fn bj_conn_last_flow(alloc: Global, conn: &mut BjConn, flow: &mut u32) -> i32
    ensures call { OnPlace result (SaysOfConn (SaysConnLog flow_of_data) result flow.new)
        conn.old.held conn.new.held }
    ensures unheld { conn.old.held ≡ None → flow.new ≡ flow.old }
{
    let Some(held) = conn.open(alloc) else {
        return EMPTY;
    };
    *flow = held.conn.last_flow();
    conn.keep(held);
    OK
}

// contract: c (own) A reader says what the end in its place answers
/// Stores how many octets of DATA the window of a stream allows, or with 0 that of the
/// connection.
#[unsafe(no_mangle)]
pub extern "C" fn bj_conn_room(alloc: Global, conn: &mut BjConn, stream: u32, room: &mut i64) -> i32
    ensures call { OnPlace result (FindsInConn (SaysConnLog (room_on stream)) result room.old
        room.new)
        conn.old.held conn.new.held }
    ensures unheld { conn.old.held ≡ None → room.new ≡ room.old }
{
    let Some(held) = conn.open(alloc) else {
        return EMPTY;
    };
    let answer = match held.conn.room(stream) {
        Some(found) => {
            *room = found;
            OK
        }
        None => NONE,
    };
    conn.keep(held);
    answer
}

// contract: c (own) A reader says what the end in its place answers
/// Stores the least active stream above a number.
#[unsafe(no_mangle)]
pub extern "C" fn bj_conn_next_live(
    alloc: Global,
    conn: &mut BjConn,
    above: u32,
    stream: &mut u32,
) -> i32
    ensures call { OnPlace result (FindsInConn (SaysConnLog (next_above above)) result stream.old
        stream.new)
        conn.old.held conn.new.held }
    ensures unheld { conn.old.held ≡ None → stream.new ≡ stream.old }
{
    let Some(held) = conn.open(alloc) else {
        return EMPTY;
    };
    let answer = match held.conn.next_live(above) {
        Some(found) => {
            *stream = found;
            OK
        }
        None => NONE,
    };
    conn.keep(held);
    answer
}

// contract: c (own) A reader says what the end in its place answers
/// Stores the number of the stream that a client opens next.
#[unsafe(no_mangle)]
pub extern "C" fn bj_conn_next_number(alloc: Global, conn: &mut BjConn, stream: &mut u32) -> i32
    ensures call { OnPlace result (FindsInConn (SaysConnLog reader_next_number) result stream.old
        stream.new)
        conn.old.held conn.new.held }
    ensures unheld { conn.old.held ≡ None → stream.new ≡ stream.old }
{
    let Some(held) = conn.open(alloc) else {
        return EMPTY;
    };
    let answer = match held.conn.next_number() {
        Some(found) => {
            *stream = found;
            OK
        }
        None => NONE,
    };
    conn.keep(held);
    answer
}

// contract: c (own) A reader says what the end in its place answers
/// Stores the code with which the connection has failed, if it has.
#[unsafe(no_mangle)]
pub extern "C" fn bj_conn_failed(alloc: Global, conn: &mut BjConn, code: &mut u32) -> i32
    ensures call { OnPlace result (FindsInConn (SaysConnLog failed_with) result code.old code.new)
        conn.old.held conn.new.held }
    ensures unheld { conn.old.held ≡ None → code.new ≡ code.old }
{
    let Some(held) = conn.open(alloc) else {
        return EMPTY;
    };
    let answer = match held.failed_code() {
        Some(found) => {
            *code = found;
            OK
        }
        None => NONE,
    };
    conn.keep(held);
    answer
}

// contract: c (own) A reader says what the end in its place answers
/// Stores the number of the reason for which the connection has failed, if it has.
#[unsafe(no_mangle)]
pub extern "C" fn bj_conn_why(alloc: Global, conn: &mut BjConn, why: &mut u32) -> i32
    ensures call { OnPlace result (FindsInConn (SaysWhyOfConn) result why.old why.new)
        conn.old.held conn.new.held }
    ensures unheld { conn.old.held ≡ None → why.new ≡ why.old }
{
    let Some(held) = conn.open(alloc) else {
        return EMPTY;
    };
    let answer = match held.why_number() {
        Some(found) => {
            *why = found;
            OK
        }
        None => NONE,
    };
    conn.keep(held);
    answer
}

// contract: c (own) A reader says what the end in its place answers
/// Returns whether a stream is active.
#[unsafe(no_mangle)]
pub extern "C" fn bj_conn_is_active(alloc: Global, conn: &mut BjConn, stream: u32) -> i32
    ensures { OnPlace result (AnswersOfConn truth (SaysConnLog (active_on stream)) result)
        conn.old.held conn.new.held }
{
    let Some(held) = conn.open(alloc) else {
        return EMPTY;
    };
    let answer = held.conn.is_active(stream);
    conn.keep(held);
    yes(answer)
}

// contract: c (own) A reader says what the end in its place answers
/// Stores the values of the peer's settings that are in force.
#[unsafe(no_mangle)]
pub extern "C" fn bj_conn_peer_settings(
    alloc: Global,
    conn: &mut BjConn,
    settings: &mut BjSettings,
) -> i32
    ensures call { OnPlace result (SaysOfConn SaysSettingsOfConn result settings.new)
        conn.old.held conn.new.held }
    ensures unheld { conn.old.held ≡ None → settings.new ≡ settings.old }
{
    let Some(held) = conn.open(alloc) else {
        return EMPTY;
    };
    let peer = held.conn.peer_settings();
    settings.initial_window = peer.initial_window_size;
    settings.max_frame = peer.max_frame_size;
    conn.keep(held);
    OK
}

// contract: c (own) Fields of the list that was handed out last are lent
/// Lends the field at a place of the list that was reported last.
#[unsafe(no_mangle)]
pub extern "C" fn bj_conn_field_at(
    alloc: Global,
    conn: &mut BjConn,
    place: usize,
    field: &mut BjLent,
) -> i32
    ensures call { OnPlace result
        (OfReported (λ list. LendsField (slice_get list place) result field.old field.new))
        conn.old.held conn.new.held }
    ensures unheld { conn.old.held ≡ None → field.new ≡ field.old }
{
    let Some(held) = conn.open(alloc) else {
        return EMPTY;
    };
    let answer = lend_at(held.conn.list(), place, field);
    conn.keep(held);
    answer
}

// contract: c (own) Fields of the list that was handed out last are lent
/// Lends fields of the list that was reported last, from a place on, as many as there is room for.
#[unsafe(no_mangle)]
pub extern "C" fn bj_conn_fields(
    alloc: Global,
    conn: &mut BjConn,
    from: usize,
    fields: &mut [BjLent],
    count: &mut usize,
) -> i32
    ensures call { OnPlace result
        (OfReported (λ list. LendsFields (drop from list) result fields.old fields.new count.new))
        conn.old.held conn.new.held }
    ensures unheld { conn.old.held ≡ None → (count.new ≡ 0) × (fields.new ≡ fields.old) }
{
    *count = 0;
    let Some(held) = conn.open(alloc) else {
        return EMPTY;
    };
    *count = lend(held.conn.list(), from, fields);
    conn.keep(held);
    OK
}

impl HeldConn {
    /// Returns the code with which the connection has failed, if it has.
    fn failed_code(&self) -> Option<u32>
        ensures { SaysConnLog failed_with self.now.conn result }
    {
        match self.conn.failed() {
            Some(code) => Some(code.number()),
            None => None,
        }
    }

    /// Returns the number of the reason for which the connection has failed, if it has.
    fn why_number(&self) -> Option<u32>
        ensures { SaysWhyOfConn self.now.conn result }
    {
        match self.conn.why() {
            Some(why) => Some(of_why(why)),
            None => None,
        }
    }
}
