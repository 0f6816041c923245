//! Readers of an end and of a connection: how many frames have come that cost a peer little,
//! and the field block that is incomplete.

ghost use Rattle.std.specs.Prelude.{◌≡◌, None};
ghost use Rattle.h2_spec_log.specs.Log.{reader_block_stream};
ghost use Rattle.belkjoef.specs.Calls.{OnPlace, FindsInEnd, SaysOfEnd};
ghost use Rattle.belkjoef.specs.Conns.{SaysOfConn, FindsInConn, SaysConnLog};
ghost use Rattle.belkjoef.specs.Readers.{SaysLog, resets_read, empty_frames_read, pings_read};
ghost use Rattle.belkjoef.specs.Readers.{settings_read};

use crate::conn::BjConn;
use crate::numbers::{EMPTY, NONE, OK};
use crate::place::BjEnd;
use std::alloc::Global;

// contract: c (own) A reader says what the end in its place answers
// rule: c (own) A reader says what the end in its place answers
/// Stores how many RST_STREAM frames were received.
#[unsafe(no_mangle)]
pub extern "C" fn bj_resets_received(alloc: Global, end: &mut BjEnd, count: &mut u32) -> i32
    ensures call { OnPlace result (SaysOfEnd (SaysLog resets_read) result count.new)
        end.old.held end.new.held }
    ensures unheld { end.old.held ≡ None → count.new ≡ count.old }
{
    let Some(held) = end.open(alloc) else {
        return EMPTY;
    };
    *count = held.side.conn().resets_received();
    end.keep(held);
    OK
}

// contract: c (own) A reader says what the end in its place answers
// rule: c (own) A reader says what the end in its place answers
/// Stores how many empty frames were received: DATA without END_STREAM, HEADERS and
/// CONTINUATION without END_HEADERS, with no octets besides padding.
#[unsafe(no_mangle)]
pub extern "C" fn bj_empty_frames_received(alloc: Global, end: &mut BjEnd, count: &mut u32) -> i32
    ensures call { OnPlace result (SaysOfEnd (SaysLog empty_frames_read) result count.new)
        end.old.held end.new.held }
    ensures unheld { end.old.held ≡ None → count.new ≡ count.old }
{
    let Some(held) = end.open(alloc) else {
        return EMPTY;
    };
    *count = held.side.conn().empty_frames_received();
    end.keep(held);
    OK
}

// contract: c (own) A reader says what the end in its place answers
// rule: c (own) A reader says what the end in its place answers
/// Stores how many PING frames without ACK were received.
#[unsafe(no_mangle)]
pub extern "C" fn bj_pings_received(alloc: Global, end: &mut BjEnd, count: &mut u32) -> i32
    ensures call { OnPlace result (SaysOfEnd (SaysLog pings_read) result count.new)
        end.old.held end.new.held }
    ensures unheld { end.old.held ≡ None → count.new ≡ count.old }
{
    let Some(held) = end.open(alloc) else {
        return EMPTY;
    };
    *count = held.side.conn().pings_received();
    end.keep(held);
    OK
}

// contract: c (own) A reader says what the end in its place answers
// rule: c (own) A reader says what the end in its place answers
/// Stores how many SETTINGS frames without ACK were received.
#[unsafe(no_mangle)]
pub extern "C" fn bj_settings_received(alloc: Global, end: &mut BjEnd, count: &mut u32) -> i32
    ensures call { OnPlace result (SaysOfEnd (SaysLog settings_read) result count.new)
        end.old.held end.new.held }
    ensures unheld { end.old.held ≡ None → count.new ≡ count.old }
{
    let Some(held) = end.open(alloc) else {
        return EMPTY;
    };
    *count = held.side.conn().settings_received();
    end.keep(held);
    OK
}

// contract: c (own) A reader says what the end in its place answers
/// Stores the stream of the field block that is incomplete.
#[unsafe(no_mangle)]
pub extern "C" fn bj_block_stream(alloc: Global, end: &mut BjEnd, stream: &mut u32) -> i32
    ensures call { OnPlace result
        (FindsInEnd (SaysLog reader_block_stream) result stream.old stream.new)
        end.old.held end.new.held }
    ensures unheld { end.old.held ≡ None → stream.new ≡ stream.old }
{
    let Some(held) = end.open(alloc) else {
        return EMPTY;
    };
    let answer = match held.side.conn().block_stream() {
        Some(number) => {
            *stream = number;
            OK
        }
        None => NONE,
    };
    end.keep(held);
    answer
}

// contract: c (own) A reader says what the end in its place answers
/// Stores how many RST_STREAM frames were received.
#[unsafe(no_mangle)]
pub extern "C" fn bj_conn_resets_received(alloc: Global, conn: &mut BjConn, count: &mut u32) -> i32
    ensures call { OnPlace result (SaysOfConn (SaysConnLog resets_read) result count.new)
        conn.old.held conn.new.held }
    ensures unheld { conn.old.held ≡ None → count.new ≡ count.old }
{
    let Some(held) = conn.open(alloc) else {
        return EMPTY;
    };
    *count = held.conn.resets_received();
    conn.keep(held);
    OK
}

// contract: c (own) A reader says what the end in its place answers
/// Stores how many empty frames were received: DATA without END_STREAM, HEADERS and
/// CONTINUATION without END_HEADERS, with no octets besides padding.
#[unsafe(no_mangle)]
pub extern "C" fn bj_conn_empty_frames_received(
    alloc: Global,
    conn: &mut BjConn,
    count: &mut u32,
) -> i32
    ensures call { OnPlace result (SaysOfConn (SaysConnLog empty_frames_read) result count.new)
        conn.old.held conn.new.held }
    ensures unheld { conn.old.held ≡ None → count.new ≡ count.old }
{
    let Some(held) = conn.open(alloc) else {
        return EMPTY;
    };
    *count = held.conn.empty_frames_received();
    conn.keep(held);
    OK
}

// contract: c (own) A reader says what the end in its place answers
/// Stores how many PING frames without ACK were received.
#[unsafe(no_mangle)]
pub extern "C" fn bj_conn_pings_received(alloc: Global, conn: &mut BjConn, count: &mut u32) -> i32
    ensures call { OnPlace result (SaysOfConn (SaysConnLog pings_read) result count.new)
        conn.old.held conn.new.held }
    ensures unheld { conn.old.held ≡ None → count.new ≡ count.old }
{
    let Some(held) = conn.open(alloc) else {
        return EMPTY;
    };
    *count = held.conn.pings_received();
    conn.keep(held);
    OK
}

// contract: c (own) A reader says what the end in its place answers
/// Stores how many SETTINGS frames without ACK were received.
#[unsafe(no_mangle)]
pub extern "C" fn bj_conn_settings_received(
    alloc: Global,
    conn: &mut BjConn,
    count: &mut u32,
) -> i32
    ensures call { OnPlace result (SaysOfConn (SaysConnLog settings_read) result count.new)
        conn.old.held conn.new.held }
    ensures unheld { conn.old.held ≡ None → count.new ≡ count.old }
{
    let Some(held) = conn.open(alloc) else {
        return EMPTY;
    };
    *count = held.conn.settings_received();
    conn.keep(held);
    OK
}

// contract: c (own) A reader says what the end in its place answers
/// Stores the stream of the field block that is incomplete.
#[unsafe(no_mangle)]
pub extern "C" fn bj_conn_block_stream(alloc: Global, conn: &mut BjConn, stream: &mut u32) -> i32
    ensures call { OnPlace result
        (FindsInConn (SaysConnLog reader_block_stream) result stream.old stream.new)
        conn.old.held conn.new.held }
    ensures unheld { conn.old.held ≡ None → stream.new ≡ stream.old }
{
    let Some(held) = conn.open(alloc) else {
        return EMPTY;
    };
    let answer = match held.conn.block_stream() {
        Some(number) => {
            *stream = number;
            OK
        }
        None => NONE,
    };
    conn.keep(held);
    answer
}
