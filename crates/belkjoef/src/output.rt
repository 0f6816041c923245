//! The output.

ghost use Rattle.std.specs.Prelude.{◌≡◌, ◌++◌, None, length, take, drop, min};
ghost use Rattle.h2_conn.specs.Conn.{octets_queued};
ghost use Rattle.belkjoef.specs.Calls.{OnPlace, Answers, AnswersWith, ReadiesEnd, ConsumesEnd};
ghost use Rattle.belkjoef.specs.Helds.{held_end, KeepsAllElse};
ghost use Rattle.belkjoef.specs.Lent.{span_of};
ghost use Rattle.belkjoef.specs.Numbers.{answer_number, count_in, ok};
ghost use Rattle.belkjoef.specs.Output.{LendsOutput, EndCopiesOut, HoldsReady, FineIfReady};

use crate::held::Held;
use crate::numbers::{EMPTY, OK, of_answer, of_count};
use crate::place::{BjEnd, address};
use h2_conn::Conn;
use h2_ends::Refusal;
use std::alloc::Global;

/// `bj_span`: octets that are lent.
#[repr(C)]
#[derive(Drop)]
pub struct BjSpan {
    /// Their address.
    pub octets: *const u8,
    /// Their number.
    pub length: usize,
}

impl BjSpan {
    /// Stores where octets lie.
    pub(crate) fn say(&mut self, octets: &[u8])
        ensures { self.new ≡ span_of octets.entry }
    {
        self.octets = address(octets);
        self.length = octets.len();
    }
}

// contract: c (own) A call of C's is that of the end in its place
/// Prepares the output to be written from where it lies.
#[unsafe(no_mangle)]
pub extern "C" fn bj_ready(alloc: Global, end: &mut BjEnd) -> i32
    ensures call { OnPlace result (Answers answer_number ReadiesEnd result)
        end.old.held end.new.held }
    ensures ready { result ≡ ok → HoldsReady end.new.held }
{
    let Some(mut held) = end.open(alloc) else {
        return EMPTY;
    };
    let answer = held.ready();
    end.keep(held);
    of_answer(answer)
}

// contract: c (own) The output that waits is lent, or copied and taken away
// rule: c (own) The output that waits is lent, or copied and taken away
/// Lends the first two parts of the output that waits, in order. Both are empty only if none
/// waits.
#[unsafe(no_mangle)]
pub extern "C" fn bj_waiting(
    alloc: Global,
    end: &mut BjEnd,
    first: &mut BjSpan,
    second: &mut BjSpan,
) -> i32
    ensures call { OnPlace result (LendsOutput result first.new second.new)
        end.old.held end.new.held }
    ensures unheld { end.old.held ≡ None
        → (first.new ≡ first.old) × (second.new ≡ second.old) }
{
    let Some(held) = end.open(alloc) else {
        return EMPTY;
    };
    let one = held.side.conn().waiting_from(0);
    first.say(one);
    second.say(held.side.conn().waiting_from(one.len()));
    end.keep(held);
    OK
}

// contract: c (own) A call of C's is that of the end in its place
/// Removes octets of the output, which were written, and stores how many.
#[unsafe(no_mangle)]
pub extern "C" fn bj_consume(alloc: Global, end: &mut BjEnd, count: usize, taken: &mut usize) -> i32
    ensures call { OnPlace result (AnswersWith answer_number count_in (ConsumesEnd count) result
        taken.new) end.old.held end.new.held }
    ensures unheld { end.old.held ≡ None → taken.new ≡ 0 }
    ensures room { FineIfReady end.old.held result }
{
    *taken = 0;
    let Some(mut held) = end.open(alloc) else {
        return EMPTY;
    };
    let answer = held.consume(count);
    end.keep(held);
    of_count(answer, taken)
}

// contract: c (own) The output that waits is lent, or copied and taken away
// rule: c (own) The output that waits is lent, or copied and taken away
/// Moves octets of the output into a buffer of C, and stores how many.
#[unsafe(no_mangle)]
pub extern "C" fn bj_put_out(
    alloc: Global,
    end: &mut BjEnd,
    buffer: &mut [u8],
    count: &mut usize,
) -> i32
    ensures call { OnPlace result (AnswersWith answer_number count_in
        (EndCopiesOut buffer.old buffer.new) result count.new) end.old.held end.new.held }
    ensures unheld { end.old.held ≡ None → (count.new ≡ 0) × (buffer.new ≡ buffer.old) }
{
    *count = 0;
    let Some(mut held) = end.open(alloc) else {
        return EMPTY;
    };
    let answer = held.put_out(buffer);
    end.keep(held);
    of_count(answer, count)
}

impl Held {
    /// Prepares the output, copies as much as there is room for, and removes that.
    fn put_out(&mut self, buffer: &mut [u8]) -> Result<usize, Refusal>
        ensures does { EndCopiesOut buffer.old buffer.new (held_end self.old) result
            (held_end self.new) }
        ensures keeps { KeepsAllElse self.old self.new }
    {
        if let Err(refusal) = self.ready() {
            return Err(refusal);
        }
        let count = copy_waiting(self.side.conn(), buffer);
        self.consume(count)
    }
}

/// Copies as many octets of the output that waits as there is room for, and returns how many.
pub(crate) fn copy_waiting(conn: &Conn, buffer: &mut [u8]) -> usize
    ensures count { result ≡ min (length buffer.old) (length (octets_queued conn.now)) }
    ensures copied { buffer.new ≡ take result (octets_queued conn.now) ++ drop result buffer.old }
{
    let most = conn.waiting().min(buffer.len());
    let mut count = 0usize;
    while count < most {
        count += copy(conn.waiting_from(count), &mut buffer[count..]);
    }
    count
}

/// Copies as many octets as there is room for, and returns how many.
fn copy(octets: &[u8], buffer: &mut [u8]) -> usize
    ensures count { result ≡ min (length buffer.old) (length octets.now) }
    ensures copied { buffer.new ≡ take result octets.now ++ drop result buffer.old }
{
    let count = octets.len().min(buffer.len());
    buffer[..count].copy_from_slice(&octets[..count]);
    count
}
