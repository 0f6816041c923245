//! What a client reads from a link.

ghost use Rattle.std.specs.Prelude.{◌≡◌, ◌≤◌, ◌<◌, ◌-◌, ◌^◌, [], IfOk, length};
ghost use Rattle.h2_engines.specs.Failures.{CutsOffAtEnd, failures_at_end};
ghost use Rattle.h2_engines.specs.Linked.{traffic};
ghost use Rattle.h2_fetch.specs.Credits.{credit_before, is_due_in};
ghost use Rattle.h2_fetch.specs.Reads.{ReadsOver};
ghost use Rattle.h2_spec_log.specs.Acts.{Values};
ghost use Rattle.h2_spec_log.specs.Log.{Log};
ghost use Rattle.h2_conn.specs.Conn.{ConnRepresents};

use crate::sending::send_all;
use h2_ends::{Client, Conn};
use h2_engines::Credit;
use h2_flow::is_credit_due;
use h2_link::{Link, LinkError};
use std::alloc::AllocError;

/// The length of a read in octets, at most: eight payloads of the default greatest length.
const PIECE: usize = 131_072;

// rule: 6.9 (own) Credit is returned by half of a window
/// The credit that is returned before a read: `credit`; or none, if the last read filled its
/// buffer with `last` octets, so that more may be there, and what is owed on the stream is not due
/// ([`is_credit_due`]) in its window, nor in that of the connection.
pub(crate) fn credit_before(conn: &Conn, id: u32, last: usize, credit: Credit) -> Credit
    ensures { (values : Values) (log : Log) → ConnRepresents values conn.now log
        → result ≡ credit_before log id last credit }
{
    let owed = i64::from(conn.owed(id));
    if last < PIECE || is_due_in(conn.peer_room(id), owed) || is_due_in(conn.peer_room(0), owed) {
        return credit;
    }
    Credit::Kept
}

/// Whether credit for so many octets is due in a window, if there is one.
fn is_due_in(left: Option<i64>, owed: i64) -> bool
    ensures { result ≡ is_due_in left owed }
{
    match left {
        Some(left) => is_credit_due(owed, left),
        None => false,
    }
}

/// Returns this credit, sends what can go, and reads a piece into a buffer, in place of the one
/// before, which was used completely. Returns how many octets it has, at least one.
pub(crate) fn read_piece<L: Link>(
    client: &mut Client,
    credit: Credit,
    buffer: &mut Vec<u8>,
    link: &mut L,
) -> Result<usize, LinkError>
    requires { L.faults link.old < 2 ^ 64 - 1 }
    ensures reads { ReadsOver credit
        (traffic (L.given link.old) (L.taken link.old) (L.stalled link.old))
        (traffic (L.given link.new) (L.taken link.new) (L.stalled link.new))
        client.old.end client.new.end buffer.new.items result }
    ensures some { IfOk result (λ count. 0 < count) }
    ensures within { IfOk result (λ count. count ≤ length buffer.new.items) }
    ensures cut_off { CutsOffAtEnd result (L.ended link.new) }
    ensures failures { L.faults link.new ≡ failures_at_end (L.faults link.old) result }
{
    send_all(client, credit, link)?;
    make_buffer(buffer)?;
    let count = link.read(buffer)?;
    if count == 0 {
        return Err(LinkError::CutOff);
    }
    Ok(count)
}

/// Makes the buffer, unless an earlier read did.
fn make_buffer(buffer: &mut Vec<u8>) -> Result<(), AllocError>
    ensures some { IfOk result (λ done. 0 < length buffer.new.items) }
    ensures made { IfOk result (λ done. buffer.old.items ≡ []
        → length buffer.new.items ≡ 131072) }
{
    if buffer.is_empty() {
        buffer.resize(PIECE, 0)?;
    }
    Ok(())
}
