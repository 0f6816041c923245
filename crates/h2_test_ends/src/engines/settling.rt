//! Two ends that are driven until they are quiet, or one has failed.

use super::acts::{answer, get};
use h2_joined::{Acted, Code, Config, EndRefusal, Joined, JointAct, Refusal, Side};
use h2_settle::{Settled, settle};
use std::alloc::{AllocError, Global};

/// So many rounds, and nothing else is said.
fn rounds(rounds: u64) -> Settled {
    Settled {
        rounds,
        failed: None,
        memory: false,
    }
}

/// Whether two ends of which the client asks for something get quiet in two rounds, as many as it
/// takes until the settings are acknowledged; and no more rounds are made than are asked for.
fn asks(joined: &mut Joined, act: &JointAct) -> bool {
    let asked = joined.act(act) == Acted::Id(1) && settle(joined, 0) == rounds(0);
    let first = settle(joined, 1) == rounds(1) && !joined.quiet();
    asked && first && settle(joined, 9) == rounds(1) && joined.quiet()
}

/// Whether they do so once the server responds: the credit of the body goes back in the second. Of
/// two quiet ends no round is made.
fn responds(joined: &mut Joined, act: &JointAct) -> bool {
    let responded = joined.act(act) == Acted::Done;
    let settled = settle(joined, u64::MAX) == rounds(2) && joined.quiet();
    responded && settled && settle(joined, u64::MAX) == rounds(0)
}

/// Whether this end is named where that one fails, and no round is made; nor is it named where none
/// is asked for.
fn names(joined: &mut Joined, side: Side, named: Side) -> bool {
    let failed = joined.act(&JointAct::Fail {
        side,
        code: Code::NoError,
    });
    let unasked = settle(joined, 0) == rounds(0);
    let settled = Settled {
        failed: Some(named),
        ..rounds(0)
    };
    failed == Acted::Done && unasked && settle(joined, 9) == settled
}

/// Whether two new ends do all of this. The client is named where both have failed.
fn settles(alloc: Global) -> Result<bool, AllocError> {
    let request = JointAct::Request(get(alloc)?);
    let message = answer(alloc)?;
    let response = JointAct::Respond { id: 1, message };
    let mut joined = Joined::new(alloc, Config::default(), Config::default())?;
    let answered = asks(&mut joined, &request) && responds(&mut joined, &response);
    let server = names(&mut joined, Side::Server, Side::Server);
    Ok(answered && server && names(&mut joined, Side::Client, Side::Client))
}

/// Whether the client is named where it has failed alone.
fn names_client(alloc: Global) -> Result<bool, AllocError> {
    let mut joined = Joined::new(alloc, Config::default(), Config::default())?;
    Ok(names(&mut joined, Side::Client, Side::Client))
}

/// Whether a request takes so many rounds, once the settings are acknowledged.
fn takes(joined: &mut Joined, act: &JointAct, count: u64) -> bool {
    let acknowledged = settle(joined, 9) == rounds(2);
    let asked = joined.act(act) == Acted::Id(1);
    acknowledged && asked && settle(joined, 10_000) == rounds(count) && joined.quiet()
}

/// Whether a body of so many octets takes so many rounds at this window of the server's. The bound
/// is 10, two for each window of octets, and two each for the body and its end: 614, and 54.
fn windows(alloc: Global, window: u32, octets: usize, count: u64) -> Result<bool, AllocError> {
    let Ok(config) = Config::new(4_096, window, 100) else {
        return Ok(false);
    };
    let mut message = get(alloc)?;
    message.body = vec![in alloc; b'w'; octets]?;
    let request = JointAct::Request(message);
    let mut joined = Joined::new(alloc, Config::default(), config)?;
    Ok(takes(&mut joined, &request, count))
}

/// The client asks with a body of 70,000 octets, of which the server reads a window.
fn ask_long(joined: &mut Joined, request: &JointAct) -> bool {
    let (from, to, count) = (Side::Client, Side::Server, usize::MAX);
    let asked = joined.act(request) == Acted::Id(1);
    let sent = joined.act(&JointAct::Pump(from)) == Acted::Count(65_535);
    let moved = matches!(joined.act(&JointAct::Move { from, count }), Acted::Count(_));
    let read = matches!(
        joined.act(&JointAct::Deliver { to, count }),
        Acted::Count(_)
    );
    asked && sent && moved && read
}

/// Whether a release that is refused in a round, since the output is full, stops nothing: the server
/// owes a window, and has filled its output with a window of its answer.
fn goes_on(joined: &mut Joined, request: &JointAct, response: &JointAct) -> bool {
    let full = Acted::Refused(EndRefusal::Conn(Refusal::OutputFull));
    let asked = ask_long(joined, request);
    let answered = joined.act(response) == Acted::Done;
    let filled = joined.act(&JointAct::Pump(Side::Server)) == Acted::Count(65_535);
    let refused = joined.act(&JointAct::ReleaseAll(Side::Server)) == full;
    let settled = settle(joined, 100) == rounds(4) && joined.quiet();
    asked && answered && filled && refused && settled
}

/// Whether it does so with two new ends.
fn goes_on_when_full(alloc: Global) -> Result<bool, AllocError> {
    let mut asking = get(alloc)?;
    asking.body = vec![in alloc; b'a'; 70_000]?;
    let mut message = answer(alloc)?;
    message.body = vec![in alloc; b'b'; 70_000]?;
    message.trailers = None;
    let request = JointAct::Request(asking);
    let response = JointAct::Respond { id: 1, message };
    let mut joined = Joined::new(alloc, Config::default(), Config::default())?;
    Ok(goes_on(&mut joined, &request, &response))
}

// rule: joined (own) settle makes rounds until the ends are quiet or one has failed
#[test]
fn a_full_output_stops_no_round(rt: HostRuntime) {
    assert!(rt; goes_on_when_full(rt.alloc()).unwrap_or(false));
}

// rule: joined (own) settle makes rounds until the ends are quiet or one has failed
// rule (law): joined (own) Two ends that are driven get quiet, and all that was accepted arrives
#[test]
fn a_body_takes_two_rounds_a_window(rt: HostRuntime) {
    let alloc = rt.alloc();
    for (window, octets, count) in [(1, 300, 600), (65_535, 1_310_700, 40)] {
        assert!(rt;
            windows(alloc, window, octets, count).unwrap_or(false),
            "{window}"
        );
    }
}

// rule: joined (own) settle makes rounds until the ends are quiet or one has failed
#[test]
fn two_ends_settle(rt: HostRuntime) {
    let alloc = rt.alloc();
    assert!(rt; settles(alloc).unwrap_or(false));
    assert!(rt; names_client(alloc).unwrap_or(false));
}
