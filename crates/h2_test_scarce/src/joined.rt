//! Two joined ends, by a list of acts.

use crate::call::{CLOSED, MEMORY};
use crate::lists::{answer, request};
use crate::prefix::are_prefixes;
use crate::record::{Record, Scenario, holds};
use crate::walk::{Seen, note_seen, seen_of, without_goaway};
use h2_ends::{Code, Conn, Message, Why};
use h2_joined::{Acted, Config, EndEvent, Joined, JointAct, Side};
use std::alloc::{AllocError, Global};

/// The connection of an end.
pub(crate) fn conn_of(joined: &Joined, side: Side) -> &Conn {
    match side {
        Side::Client => joined.client().conn(),
        Side::Server => joined.server().conn(),
    }
}

/// The number of messages that an end has accepted, of events that it has handed out and of octets
/// on its pipe, and what can be read of its connection.
#[derive(Clone, Copy, PartialEq, Eq)]
struct Half {
    accepted: usize,
    handed: usize,
    piped: usize,
    conn: Seen,
}

/// An end as it can be read.
fn half_of(joined: &Joined, side: Side) -> Half {
    Half {
        accepted: joined.accepted(side).len(),
        handed: joined.handed(side).len(),
        piped: joined.piped(side),
        conn: seen_of(conn_of(joined, side)),
    }
}

/// Notes how an end can be read.
fn note_half(joined: &Joined, side: Side, record: &mut Record) {
    record.note(u64::try_from(joined.accepted(side).len()).unwrap_or(0));
    record.note(u64::try_from(joined.handed(side).len()).unwrap_or(0));
    record.note(u64::try_from(joined.piped(side)).unwrap_or(0));
    note_seen(conn_of(joined, side), record);
}

/// Whether an act that is refused memory may have done a part of what it does.
fn is_done_in_parts(act: &JointAct) -> bool {
    matches!(
        act,
        JointAct::Pump(_)
            | JointAct::PumpSome { .. }
            | JointAct::ReleaseAll(_)
            | JointAct::Deliver { .. }
    )
}

/// Whether an act was refused memory.
fn is_refused(acted: Acted) -> bool {
    matches!(acted, Acted::Memory | Acted::Refused(MEMORY))
}

/// The end that takes octets in an act, else the client.
fn taker_of(act: &JointAct) -> Side {
    match act {
        JointAct::Deliver { to, .. } => *to,
        _ => Side::Client,
    }
}

/// The other end.
fn other_of(side: Side) -> Side {
    match side {
        Side::Client => Side::Server,
        Side::Server => Side::Client,
    }
}

/// Whether an end has handed out GOAWAY with INTERNAL_ERROR.
fn is_told(joined: &Joined, side: Side) -> bool {
    let handed = joined.handed(side);
    let mut told = false;
    for place in 0..handed.len() {
        let event = handed.get(place);
        told = matches!(event, Some(EndEvent::GoAway { code, .. }) if code == 2) || told;
    }
    told
}

/// The output of an end that has failed is carried to the other, which reports its GOAWAY.
fn check_told(joined: &mut Joined, from: Side, record: &mut Record) {
    let (to, count) = (other_of(from), usize::MAX);
    let moved = joined.act(&JointAct::Move { from, count });
    let delivered = joined.act(&JointAct::Deliver { to, count });
    record.check(matches!(moved, Acted::Count(_)) && matches!(delivered, Acted::Count(_)));
    record.check(joined.piped(from) == 0 && is_told(joined, to));
}

/// A connection has failed with INTERNAL_ERROR: GOAWAY is the last of its output.
fn check_output(conn: &Conn, record: &mut Record) {
    record.check(conn.failed() == Some(Code::InternalError));
    record.check(conn.why() == Some(Why::OutOfMemory));
    let mut out = Vec::new(record.alloc);
    record.check(conn.append_waiting(0, &mut out).is_ok());
    record.check(without_goaway(&out).is_some());
}

/// An end has failed for refused memory as octets were delivered to it: GOAWAY is the last of its
/// output, and reaches the other end, the same act has the same answer again, and its calls are
/// refused with C1.
fn check_failed(joined: &mut Joined, act: &JointAct, record: &mut Record) {
    record.fail();
    let side = taker_of(act);
    let octets = *b"12345678";
    let refused = joined.act(&JointAct::Ping { side, octets });
    record.check(refused == Acted::Refused(CLOSED));
    record.check(joined.act(act) == Acted::Failed(Code::InternalError));
    check_output(conn_of(joined, side), record);
    check_told(joined, side, record);
}

/// Notes an answer; of an act that is done in parts it may be that to the rest.
fn note_acted(acted: Acted, is_rest: bool, record: &mut Record) {
    match acted {
        Acted::Id(id) => record.note(u64::from(id)),
        Acted::Count(count) => record.note_moved(u64::try_from(count).unwrap_or(0), is_rest),
        Acted::Refused(refusal) => record.refuse(refusal),
        Acted::Failed(code) => record.note(u64::from(code.number())),
        _ => {}
    }
}

/// Makes an act, and once more where memory is refused.
fn make(joined: &mut Joined, act: &JointAct, record: &mut Record) {
    let before = (half_of(joined, Side::Client), half_of(joined, Side::Server));
    let mut acted = joined.act(act);
    let is_again = is_refused(acted);
    if is_again {
        record.again();
        let after = (half_of(joined, Side::Client), half_of(joined, Side::Server));
        record.check(before == after || is_done_in_parts(act));
        acted = joined.act(act);
    }
    record.check(!is_refused(acted));
    if acted == Acted::Failed(Code::InternalError) {
        return check_failed(joined, act, record);
    }
    note_acted(acted, is_again && is_done_in_parts(act), record);
    note_half(joined, Side::Client, record);
    note_half(joined, Side::Server, record);
}

/// Two new ends, which are made again where memory is refused.
pub(crate) fn new_joined(record: &mut Record) -> Option<Joined> {
    let made = made_joined(record.alloc);
    if made.is_some() {
        return made;
    }
    record.again();
    let made = made_joined(record.alloc);
    record.check(made.is_some());
    made
}

fn made_joined(alloc: Global) -> Option<Joined> {
    Joined::new(alloc, Config::default(), Config::default()).ok()
}

/// Acts of two new ends.
#[derive(Drop)]
struct Acts<'a> {
    acts: &'a [JointAct],
}

/// Makes the acts, up to a failure for refused memory.
fn make_all(joined: &mut Joined, acts: &[JointAct], record: &mut Record) {
    for act in acts {
        if !record.failed {
            make(joined, act, record);
        }
    }
}

/// Checks what was handed out; and unless an end has failed, that one act was refused, and the two
/// ends are quiet.
fn check_handed(joined: &Joined, record: &mut Record) {
    let failed = record.failed;
    record.check(failed || (record.refused() == 1 && joined.quiet()));
    record.check(are_prefixes(joined, Side::Client, Side::Server, failed));
    record.check(are_prefixes(joined, Side::Server, Side::Client, failed));
}

impl Scenario for Acts<'_> {
    fn run(&mut self, record: &mut Record) {
        if let Some(mut joined) = new_joined(record) {
            make_all(&mut joined, self.acts, record);
            check_handed(&joined, record);
        }
    }
}

/// At most `most` octets of an end's output are put on its pipe, and all that are there then are
/// delivered.
fn carry(from: Side, to: Side, most: usize, acts: &mut Vec<JointAct>) -> Result<(), AllocError> {
    acts.push(JointAct::Move { from, count: most })?;
    acts.push(JointAct::Deliver {
        to,
        count: usize::MAX,
    })?;
    Ok(())
}

/// All output of the client, and then of the server, is carried to the other.
fn exchange(acts: &mut Vec<JointAct>) -> Result<(), AllocError> {
    carry(Side::Client, Side::Server, usize::MAX, acts)?;
    carry(Side::Server, Side::Client, usize::MAX, acts)
}

/// The server answers a request.
fn respond(id: u32, message: Message, acts: &mut Vec<JointAct>) -> Result<(), AllocError> {
    acts.push(JointAct::Respond { id, message })?;
    Ok(())
}

/// Two requests, of which the server resets the first with its DATA under way: frames of 16,384 and
/// of 3,616 octets are dropped. Of the other the first windows let 45,535 octets through.
fn reset_under_way(alloc: Global, acts: &mut Vec<JointAct>) -> Result<(), AllocError> {
    let (client, server) = (Side::Client, Side::Server);
    acts.push(JointAct::Request(request(alloc, 20_000)?))?;
    acts.push(JointAct::Request(request(alloc, 65_535)?))?;
    acts.push(JointAct::Pump(client))?;
    carry(client, server, 2_000, acts)?;
    acts.push(JointAct::Reset {
        side: server,
        id: 1,
        code: 8,
    })?;
    exchange(acts)
}

/// The response to the second request, whose other octets then take what the dropped ones have
/// returned.
fn answer_second(alloc: Global, acts: &mut Vec<JointAct>) -> Result<(), AllocError> {
    let (client, server) = (Side::Client, Side::Server);
    respond(1, answer(alloc, 10)?, acts)?;
    respond(3, answer(alloc, 3_000)?, acts)?;
    acts.push(JointAct::PumpSome {
        side: server,
        most: 16_384,
    })?;
    carry(server, client, usize::MAX, acts)?;
    acts.push(JointAct::ReleaseAll(client))?;
    acts.push(JointAct::Pump(client))?;
    acts.push(JointAct::ReleaseAll(server))?;
    exchange(acts)
}

/// A wider window, PING, other settings and GOAWAY, until all is quiet.
fn end_both(acts: &mut Vec<JointAct>) -> Result<(), AllocError> {
    let (client, server) = (Side::Client, Side::Server);
    acts.push(JointAct::Widen {
        side: client,
        count: 100_000,
    })?;
    acts.push(JointAct::Ping {
        side: client,
        octets: *b"12345678",
    })?;
    acts.push(JointAct::ChangeSettings {
        side: client,
        config: Config::default(),
    })?;
    acts.push(JointAct::GoAway(server))?;
    exchange(acts)?;
    exchange(acts)
}

/// Whether two joined ends withstand refused memory.
fn bear(alloc: Global) -> Result<bool, AllocError> {
    let mut acts = Vec::new(alloc);
    reset_under_way(alloc, &mut acts)?;
    answer_second(alloc, &mut acts)?;
    end_both(&mut acts)?;
    Ok(holds(alloc, &mut Acts { acts: &acts }, &mut Acts { acts: &acts }))
}

#[test]
fn reset_of_a_joined_pair(rt: HostRuntime) {
    assert!(rt; bear(rt.alloc()).unwrap_or(false));
}
