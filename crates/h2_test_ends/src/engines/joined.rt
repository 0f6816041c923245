//! A list of acts that is run, and laws of two joined ends.

use super::acts::acts;
use h2_joined::{
    Acted, Code, Config, EndEvent, EndRefusal, HandedEvents, Joined, JointAct, Refusal, Side,
    connection_windows_are_conserved, handed_out_is_a_prefix, header_tables_are_in_step, headline,
    held_credit, joined_ends_are_a_pair, no_fault_is_reported, quiet_ends_have_all,
    quiet_ends_hold_nothing, run, stream_windows_are_conserved,
};
use std::alloc::{AllocError, Global};

/// What can be read of an end.
type Half = (usize, usize, usize, Option<Code>);

/// The number of messages that an end has accepted, how much it has handed out, the number of
/// octets on its pipe, and the code with which it has failed.
fn half_of(joined: &Joined, side: Side) -> Half {
    let conn = match side {
        Side::Client => joined.client().conn(),
        Side::Server => joined.server().conn(),
    };
    (
        joined.accepted(side).len(),
        joined.handed(side).len(),
        joined.piped(side),
        conn.failed(),
    )
}

/// Whether this was handed out at a place: a head of stream 1, which is complete or not.
fn is_head(events: HandedEvents<'_>, place: usize, is_whole: bool) -> bool {
    match events.get(place) {
        Some(EndEvent::Head { id, list, end }) => {
            id == 1 && end == is_whole && !list.is_empty() && list.get(list.len()).is_none()
        }
        _ => false,
    }
}

/// Whether the acts have done this: the complete request was handed out, and the head of the
/// response.
fn are_done(joined: &Joined) -> bool {
    let (client, server) = (joined.handed(Side::Client), joined.handed(Side::Server));
    is_head(server, 0, true)
        && matches!(client.get(0), Some(EndEvent::Acked))
        && is_head(client, 1, false)
        && half_of(joined, Side::Client) == (1, 2, 5, None)
        && half_of(joined, Side::Server) == (1, 1, 10, None)
        && !joined.quiet()
}

/// Whether two new ends have done the acts.
fn runs(alloc: Global) -> Result<bool, AllocError> {
    let acts = acts(alloc)?;
    let joined = run(alloc, Config::default(), Config::default(), &acts)?;
    Ok(are_done(&joined))
}

/// Whether two new ends that do nothing are as new.
fn runs_nothing(alloc: Global) -> Result<bool, AllocError> {
    let joined = run(alloc, Config::default(), Config::default(), &[])?;
    Ok(
        half_of(&joined, Side::Client) == (0, 0, 0, None)
            && half_of(&joined, Side::Server) == (0, 0, 0, None),
    )
}

/// Whether an act that comes after a failure of its end is answered as it must be: octets that are
/// delivered to an end that has failed stay on the pipe, and its calls are refused.
fn is_closed(act: &JointAct, acted: Acted) -> bool {
    match act {
        JointAct::Deliver { .. } => acted == Acted::Failed(Code::InternalError),
        JointAct::Move { .. } => matches!(acted, Acted::Count(_)),
        JointAct::Respond { .. } => true,
        _ => acted == Acted::Refused(EndRefusal::Conn(Refusal::Closed)),
    }
}

/// Whether an end has failed, and an act of it is answered as it must be then; and a refused act
/// has changed nothing.
fn makes(joined: &mut Joined, act: &JointAct, side: Side) -> bool {
    let before = (half_of(joined, Side::Client), half_of(joined, Side::Server));
    let failed = half_of(joined, side).3.is_some();
    let acted = joined.act(act);
    let after = (half_of(joined, Side::Client), half_of(joined, Side::Server));
    let refused = matches!(acted, Acted::Refused(_));
    (!failed || is_closed(act, acted)) && (!refused || before == after)
}

/// Whether a delivery that has stopped, since memory was refused, goes on where it has stopped:
/// what it had not used is still on the pipe, and the two ends are not quiet before it was made
/// again.
fn goes_on(joined: &mut Joined, act: &JointAct, side: Side) -> bool {
    let other = match side {
        Side::Client => Side::Server,
        Side::Server => Side::Client,
    };
    let (piped, handed) = (joined.piped(other), joined.handed(side).len());
    if joined.act(act) != Acted::Memory || !matches!(act, JointAct::Deliver { .. }) {
        return true;
    }
    let fewer = joined.piped(other) <= piped && joined.handed(side).len() >= handed;
    let is_quiet = joined.quiet();
    let left = joined.piped(other);
    let again = joined.act(&JointAct::Deliver {
        to: side,
        count: left,
    });
    fewer && !is_quiet && (again == Acted::Count(left) || matches!(again, Acted::Failed(_)))
}

/// The end whose act this is.
fn side_of(act: &JointAct) -> Side {
    match act {
        JointAct::Request(_) | JointAct::Begin(_) => Side::Client,
        JointAct::Respond { .. } | JointAct::BeginResponse { .. } => Side::Server,
        JointAct::Move { from: side, .. }
        | JointAct::Deliver { to: side, .. }
        | JointAct::SendBody { side, .. }
        | JointAct::SendTrailers { side, .. }
        | JointAct::Pump(side)
        | JointAct::PumpSome { side, .. }
        | JointAct::ReleaseAll(side)
        | JointAct::Release { side, .. }
        | JointAct::Widen { side, .. }
        | JointAct::Reset { side, .. }
        | JointAct::Ping { side, .. }
        | JointAct::GoAway(side)
        | JointAct::Fail { side, .. }
        | JointAct::ChangeSettings { side, .. } => *side,
    }
}

/// Whether two new ends do the acts twice, each of which is answered as it must be once an end has
/// failed.
fn plays(alloc: Global) -> Result<bool, AllocError> {
    let acts = acts(alloc)?;
    let mut joined = Joined::new(alloc, Config::default(), Config::default())?;
    let mut holds = true;
    for act in acts.iter().chain(acts.iter()) {
        holds = makes(&mut joined, act, side_of(act)) && holds;
    }
    Ok(holds)
}

/// Whether two new ends do the acts, and a delivery that stops goes on.
fn stops_and_goes_on(alloc: Global) -> Result<bool, AllocError> {
    let acts = acts(alloc)?;
    let mut joined = Joined::new(alloc, Config::default(), Config::default())?;
    let mut holds = true;
    for act in &acts {
        holds = goes_on(&mut joined, act, side_of(act)) && holds;
    }
    Ok(holds)
}

// rule: joined (own) Accepted messages, what was handed out, octets on a pipe are kept
#[test]
fn a_list_of_acts(rt: HostRuntime) {
    assert!(rt; runs(rt.alloc()).unwrap_or(false));
}

// rule: joined (own) Two joined ends are a new client and a new server, pipes empty
#[test]
fn no_acts(rt: HostRuntime) {
    assert!(rt; runs_nothing(rt.alloc()).unwrap_or(false));
}

#[test]
fn a_refused_allocation_at_joined_ends(rt: HostRuntime) {
    assert!(rt; plays(rt.alloc()).unwrap_or(true));
}

// rule: joined (own) A delivery without memory stops before a call and loses nothing
#[test]
fn a_refused_allocation_at_a_delivery(rt: HostRuntime) {
    assert!(rt; stops_and_goes_on(rt.alloc()).unwrap_or(true));
}

// rule: joined (own) The header tables of joined ends agree, no window is lost
// rule: joined (own) What slow readers hold of the window is all that others lack
#[test]
fn laws_are_called() {
    connection_windows_are_conserved();
    handed_out_is_a_prefix();
    header_tables_are_in_step();
    held_credit();
    headline();
    joined_ends_are_a_pair();
    no_fault_is_reported();
    quiet_ends_have_all();
    quiet_ends_hold_nothing();
    stream_windows_are_conserved();
}
