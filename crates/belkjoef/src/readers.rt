//! The readers of an end.

ghost use Rattle.std.specs.Prelude.{◌≡◌, None};
ghost use Rattle.belkjoef.specs.Calls.{OnPlace, AnswersOfEnd, FindsInEnd, SaysOfEnd};
ghost use Rattle.belkjoef.specs.Readers.{truth, AnswersLog, IsFull, IsDrained, AnswersQuiet};
ghost use Rattle.belkjoef.specs.Readers.{SaysLog, room_on, owed_at, granted_by, next_above};
ghost use Rattle.belkjoef.specs.Readers.{failed_with};
ghost use Rattle.belkjoef.specs.Readers.{active_on, SaysUnsent, SaysMalformed, flow_of_data};
ghost use Rattle.belkjoef.specs.Readers.{SaysPeerSettings};
ghost use Rattle.belkjoef.specs.WhyNumbers.{SaysWhy};

use crate::numbers::{EMPTY, NONE, OK};
use crate::place::BjEnd;
use std::alloc::Global;

/// Returns 1 if it is set, else 0.
pub(crate) fn yes(set: bool) -> i32
    ensures { result ≡ truth set }
{
    if set { 1 } else { 0 }
}

// contract: c (own) A reader says what the end in its place answers
// rule: c (own) A reader says what the end in its place answers
/// Returns whether the output is full.
#[unsafe(no_mangle)]
pub extern "C" fn bj_is_full(alloc: Global, end: &mut BjEnd) -> i32
    ensures { OnPlace result (AnswersOfEnd truth (AnswersLog IsFull) result)
        end.old.held end.new.held }
{
    let Some(held) = end.open(alloc) else {
        return EMPTY;
    };
    let answer = held.is_full();
    end.keep(held);
    yes(answer)
}

// contract: c (own) A reader says what the end in its place answers
// rule: c (own) A reader says what the end in its place answers
/// Returns whether no output waits and either no stream is active or the connection has failed.
#[unsafe(no_mangle)]
pub extern "C" fn bj_is_drained(alloc: Global, end: &mut BjEnd) -> i32
    ensures { OnPlace result (AnswersOfEnd truth (AnswersLog IsDrained) result)
        end.old.held end.new.held }
{
    let Some(held) = end.open(alloc) else {
        return EMPTY;
    };
    let answer = held.is_drained();
    end.keep(held);
    yes(answer)
}

// contract: c (own) A reader says what the end in its place answers
// rule: c (own) A reader says what the end in its place answers
/// Returns whether nothing waits, nothing is owed and nothing could be sent.
#[unsafe(no_mangle)]
pub extern "C" fn bj_is_quiet(alloc: Global, end: &mut BjEnd) -> i32
    ensures { OnPlace result (AnswersOfEnd truth AnswersQuiet result) end.old.held end.new.held }
{
    let Some(held) = end.open(alloc) else {
        return EMPTY;
    };
    let answer = held.is_quiet();
    end.keep(held);
    yes(answer)
}

// contract: c (own) A reader says what the end in its place answers
// rule: c (own) A reader says what the end in its place answers
/// Returns whether a stream is active.
#[unsafe(no_mangle)]
pub extern "C" fn bj_is_active(alloc: Global, end: &mut BjEnd, stream: u32) -> i32
    ensures { OnPlace result (AnswersOfEnd truth (SaysLog (active_on stream)) result)
        end.old.held end.new.held }
{
    let Some(held) = end.open(alloc) else {
        return EMPTY;
    };
    let answer = held.side.conn().is_active(stream);
    end.keep(held);
    yes(answer)
}

// contract: c (own) A reader says what the end in its place answers
// rule: c (own) A reader says what the end in its place answers
/// Stores the code with which the connection has failed, if it has.
#[unsafe(no_mangle)]
pub extern "C" fn bj_failed(alloc: Global, end: &mut BjEnd, code: &mut u32) -> i32
    ensures call { OnPlace result (FindsInEnd (SaysLog failed_with) result code.old code.new)
        end.old.held end.new.held }
    ensures unheld { end.old.held ≡ None → code.new ≡ code.old }
{
    let Some(held) = end.open(alloc) else {
        return EMPTY;
    };
    let answer = match held.failed_code() {
        Some(number) => {
            *code = number;
            OK
        }
        None => NONE,
    };
    end.keep(held);
    answer
}

// contract: c (own) A reader says what the end in its place answers
// rule: c (own) A reader says what the end in its place answers
/// Stores how many octets of DATA the window of a stream allows, or with 0 that of the
/// connection.
#[unsafe(no_mangle)]
pub extern "C" fn bj_room(alloc: Global, end: &mut BjEnd, stream: u32, room: &mut i64) -> i32
    ensures call { OnPlace result (FindsInEnd (SaysLog (room_on stream)) result room.old room.new)
        end.old.held end.new.held }
    ensures unheld { end.old.held ≡ None → room.new ≡ room.old }
{
    let Some(held) = end.open(alloc) else {
        return EMPTY;
    };
    let answer = match held.side.conn().room(stream) {
        Some(count) => {
            *room = count;
            OK
        }
        None => NONE,
    };
    end.keep(held);
    answer
}

// contract: c (own) A reader says what the end in its place answers
// rule: c (own) A reader says what the end in its place answers
/// Stores how many octets of a stream were handed out and not yet released.
#[unsafe(no_mangle)]
pub extern "C" fn bj_owed(alloc: Global, end: &mut BjEnd, stream: u32, owed: &mut u32) -> i32
    ensures call { OnPlace result (SaysOfEnd (SaysLog (owed_at stream)) result owed.new)
        end.old.held end.new.held }
    ensures unheld { end.old.held ≡ None → owed.new ≡ owed.old }
{
    let Some(held) = end.open(alloc) else {
        return EMPTY;
    };
    *owed = held.side.conn().owed(stream);
    end.keep(held);
    OK
}

// contract: c (own) A reader says what the end in its place answers
// rule: c (own) A reader says what the end in its place answers
/// Stores how many octets the peer may send on the connection before any of them is returned.
#[unsafe(no_mangle)]
pub extern "C" fn bj_granted(alloc: Global, end: &mut BjEnd, granted: &mut u32) -> i32
    ensures call { OnPlace result (SaysOfEnd (SaysLog granted_by) result granted.new)
        end.old.held end.new.held }
    ensures unheld { end.old.held ≡ None → granted.new ≡ granted.old }
{
    let Some(held) = end.open(alloc) else {
        return EMPTY;
    };
    *granted = held.side.conn().granted();
    end.keep(held);
    OK
}

// contract: c (own) A reader says what the end in its place answers
// rule: c (own) A reader says what the end in its place answers
/// Stores how many octets of the body given for a stream wait.
#[unsafe(no_mangle)]
pub extern "C" fn bj_unsent(alloc: Global, end: &mut BjEnd, stream: u32, unsent: &mut usize) -> i32
    ensures call { OnPlace result (SaysOfEnd (SaysUnsent stream) result unsent.new)
        end.old.held end.new.held }
    ensures unheld { end.old.held ≡ None → unsent.new ≡ unsent.old }
{
    let Some(held) = end.open(alloc) else {
        return EMPTY;
    };
    *unsent = held.unsent(stream);
    end.keep(held);
    OK
}

// contract: c (own) A reader says what the end in its place answers
// rule: c (own) A reader says what the end in its place answers
/// Stores the least active stream above a number.
#[unsafe(no_mangle)]
pub extern "C" fn bj_next_live(alloc: Global, end: &mut BjEnd, above: u32, stream: &mut u32) -> i32
    ensures call { OnPlace result
        (FindsInEnd (SaysLog (next_above above)) result stream.old stream.new)
        end.old.held end.new.held }
    ensures unheld { end.old.held ≡ None → stream.new ≡ stream.old }
{
    let Some(held) = end.open(alloc) else {
        return EMPTY;
    };
    let answer = match held.side.conn().next_live(above) {
        Some(number) => {
            *stream = number;
            OK
        }
        None => NONE,
    };
    end.keep(held);
    answer
}

// contract: c (own) A reader says what the end in its place answers
// rule: c (own) A reader says what the end in its place answers
/// Stores the payload length of the last DATA frame, padding included.
#[unsafe(no_mangle)]
pub extern "C" fn bj_last_flow(alloc: Global, end: &mut BjEnd, flow: &mut u32) -> i32
    ensures call { OnPlace result (SaysOfEnd (SaysLog flow_of_data) result flow.new)
        end.old.held end.new.held }
    ensures unheld { end.old.held ≡ None → flow.new ≡ flow.old }
{
    let Some(held) = end.open(alloc) else {
        return EMPTY;
    };
    *flow = held.last_flow();
    end.keep(held);
    OK
}

// contract: c (own) A reader says what the end in its place answers
// rule: c (own) A reader says what the end in its place answers
/// Stores the number of the reason for which the connection has failed, if it has.
#[unsafe(no_mangle)]
pub extern "C" fn bj_why(alloc: Global, end: &mut BjEnd, why: &mut u32) -> i32
    ensures call { OnPlace result (FindsInEnd SaysWhy result why.old why.new)
        end.old.held end.new.held }
    ensures unheld { end.old.held ≡ None → why.new ≡ why.old }
{
    let Some(held) = end.open(alloc) else {
        return EMPTY;
    };
    let answer = match held.why_number() {
        Some(number) => {
            *why = number;
            OK
        }
        None => NONE,
    };
    end.keep(held);
    answer
}

// contract: c (own) A reader says what the end in its place answers
// rule: c (own) A reader says what the end in its place answers
/// Stores the stream and the rule of the part of a message that was refused last, if one was.
#[unsafe(no_mangle)]
pub extern "C" fn bj_last_malformed(
    alloc: Global,
    end: &mut BjEnd,
    stream: &mut u32,
    error: &mut i32,
) -> i32
    ensures call { OnPlace result (FindsInEnd SaysMalformed result (stream.old, error.old)
        (stream.new, error.new)) end.old.held end.new.held }
    ensures unheld { end.old.held ≡ None → (stream.new ≡ stream.old) × (error.new ≡ error.old) }
{
    let Some(held) = end.open(alloc) else {
        return EMPTY;
    };
    let answer = match held.last_malformed() {
        Some((id, rule)) => {
            *stream = id;
            *error = rule;
            OK
        }
        None => NONE,
    };
    end.keep(held);
    answer
}

/// `bj_settings`: the values of the peer's settings that are in force (RFC 9113, section
/// 6.5.2).
#[repr(C)]
#[derive(Drop)]
pub struct BjSettings {
    /// INITIAL_WINDOW_SIZE: the window of a new stream, in octets.
    pub initial_window: u32,
    /// MAX_FRAME_SIZE: the most octets of a payload that the peer reads.
    pub max_frame: u32,
}

// contract: c (own) A reader says what the end in its place answers
// rule: c (own) A reader says what the end in its place answers
/// Stores the values of the peer's settings that are in force.
#[unsafe(no_mangle)]
pub extern "C" fn bj_peer_settings(alloc: Global, end: &mut BjEnd, settings: &mut BjSettings) -> i32
    ensures call { OnPlace result (SaysOfEnd SaysPeerSettings result settings.new)
        end.old.held end.new.held }
    ensures unheld { end.old.held ≡ None → settings.new ≡ settings.old }
{
    let Some(held) = end.open(alloc) else {
        return EMPTY;
    };
    let peer = held.side.conn().peer_settings();
    settings.initial_window = peer.initial_window_size;
    settings.max_frame = peer.max_frame_size;
    end.keep(held);
    OK
}
