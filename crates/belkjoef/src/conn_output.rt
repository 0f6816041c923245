//! The output of a connection without the rules of messages.

ghost use Rattle.std.specs.Prelude.{◌≡◌, None};
ghost use Rattle.belkjoef.specs.Calls.{OnPlace};
ghost use Rattle.belkjoef.specs.ConnOutput.{ConnCopiesOut, HoldsReadyConn, ConnFineIfReady};
ghost use Rattle.belkjoef.specs.Conns.{DoesConn, DoesConnWith, ReadiesConn, ConsumesConn};
ghost use Rattle.belkjoef.specs.Conns.{LendsConnOutput};
ghost use Rattle.belkjoef.specs.Numbers.{answer_number, count_in, ok};

use crate::conn::{BjConn, HeldConn};
use crate::numbers::{EMPTY, OK, of_answer, of_count};
use crate::output::{BjSpan, copy_waiting};
use h2_ends::Refusal;
use std::alloc::Global;

// contract: c (own) A call of C's is that of the end in its place
/// Prepares the output to be written from where it lies.
#[unsafe(no_mangle)]
pub extern "C" fn bj_conn_ready(alloc: Global, conn: &mut BjConn) -> i32
    ensures call { OnPlace result (DoesConn answer_number ReadiesConn result)
        conn.old.held conn.new.held }
    ensures ready { result ≡ ok → HoldsReadyConn conn.new.held }
{
    let Some(mut held) = conn.open(alloc) else {
        return EMPTY;
    };
    let answer = held.conn.ready();
    conn.keep(held);
    of_answer(answer)
}

// contract: c (own) The output that waits is lent, or copied and taken away
/// Lends the first two parts of the output that waits, in order. Both are empty only if none
/// waits.
#[unsafe(no_mangle)]
pub extern "C" fn bj_conn_waiting(
    alloc: Global,
    conn: &mut BjConn,
    first: &mut BjSpan,
    second: &mut BjSpan,
) -> i32
    ensures call { OnPlace result (LendsConnOutput result first.new second.new)
        conn.old.held conn.new.held }
    ensures unheld { conn.old.held ≡ None
        → (first.new ≡ first.old) × (second.new ≡ second.old) }
{
    let Some(held) = conn.open(alloc) else {
        return EMPTY;
    };
    let one = held.conn.waiting_from(0);
    first.say(one);
    second.say(held.conn.waiting_from(one.len()));
    conn.keep(held);
    OK
}

// contract: c (own) A call of C's is that of the end in its place
/// Removes octets of the output, which were written, and stores how many.
#[unsafe(no_mangle)]
pub extern "C" fn bj_conn_consume(
    alloc: Global,
    conn: &mut BjConn,
    count: usize,
    taken: &mut usize,
) -> i32
    ensures call { OnPlace result (DoesConnWith answer_number count_in (ConsumesConn count) result
        taken.new) conn.old.held conn.new.held }
    ensures unheld { conn.old.held ≡ None → taken.new ≡ 0 }
    ensures room { ConnFineIfReady conn.old.held result }
{
    *taken = 0;
    let Some(mut held) = conn.open(alloc) else {
        return EMPTY;
    };
    let answer = held.conn.consume(count);
    conn.keep(held);
    of_count(answer, taken)
}

// contract: c (own) The output that waits is lent, or copied and taken away
// rule: c (own) The output that waits is lent, or copied and taken away
/// Moves octets of the output into a buffer of C, and stores how many.
#[unsafe(no_mangle)]
pub extern "C" fn bj_conn_put_out(
    alloc: Global,
    conn: &mut BjConn,
    buffer: &mut [u8],
    count: &mut usize,
) -> i32
    ensures call { OnPlace result (DoesConnWith answer_number count_in
        (ConnCopiesOut buffer.old buffer.new) result count.new) conn.old.held conn.new.held }
    ensures unheld { conn.old.held ≡ None → (count.new ≡ 0) × (buffer.new ≡ buffer.old) }
{
    *count = 0;
    let Some(mut held) = conn.open(alloc) else {
        return EMPTY;
    };
    let answer = held.put_out(buffer);
    conn.keep(held);
    of_count(answer, count)
}

impl HeldConn {
    /// Prepares the output, copies as much as there is room for, and removes that.
    fn put_out(&mut self, buffer: &mut [u8]) -> Result<usize, Refusal>
        ensures { ConnCopiesOut buffer.old buffer.new self.old.conn result self.new.conn }
    {
        if let Err(refusal) = self.conn.ready() {
            return Err(refusal);
        }
        let count = copy_waiting(&self.conn, buffer);
        self.conn.consume(count)
    }
}
