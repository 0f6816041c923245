//! Calls of a host, and what it refuses.

use crate::host::till::Till;
use h2_host::{Answer, Bound, Host, Limits, MOST_TAKEN, Made, Own, Reply, Step, Token};
use std::alloc::Global;
use std::collections::VecDeque;

/// Bounds for tests: three connections, 100 octets for one and 150 for all.
const LIMITS: Limits = Limits {
    connections: 3,
    held: 100,
    held_in_all: 150,
};

/// Opens a connection that holds so many octets.
fn open(alloc: Global, host: &mut Host<Till>, kept: usize) -> Option<Token> {
    let party = Till::new(kept, Vec::new(alloc));
    match host.step(Step::Opened { party }, &[]) {
        Reply::Opened(token) => Some(token),
        _ => None,
    }
}

/// Whether a connection answers to a step that it goes on.
fn goes(host: &mut Host<Till>, token: Token, own: Own, octets: &[u8]) -> bool {
    matches!(
        host.step(Step::Own { token, own }, octets),
        Reply::Own(Answer::Goes)
    )
}

/// Whether a step is not to be made now.
fn is_not_now(host: &mut Host<Till>, token: Token, own: Own, octets: &[u8]) -> bool {
    matches!(host.step(Step::Own { token, own }, octets), Reply::NotNow)
}

/// How many octets a connection holds; none where the token isn't of now.
fn kept(host: &Host<Till>, token: Token) -> Option<usize> {
    Some(host.party(token)?.kept)
}

fn takes_and_gives(alloc: Global) -> Option<bool> {
    let mut host = Host::new(alloc, LIMITS).ok()?;
    let token = open(alloc, &mut host, 10)?;
    let is_next = host.next_turn() == Some(token) && host.read_size(token) == MOST_TAKEN;
    let came = goes(&mut host, token, Own::Came, b"12345") && host.read_size(token) == 0;
    let again = is_not_now(&mut host, token, Own::Came, b"1");
    let acts = goes(&mut host, token, Own::Turn, &[])
        && is_not_now(&mut host, token, Own::Turn, &[]);
    let went = goes(&mut host, token, Own::Went { count: 15 }, &[]);
    Some(is_next && came && again && acts && went && host.held() == 0 && host.next_turn().is_none())
}

// rule (best): hosts (own) A connection is what its own steps make of it
#[test]
fn a_turn_takes_and_gives(rt: HostRuntime) {
    assert!(rt; takes_and_gives(rt.alloc()) == Some(true));
}

fn bounded_turn(alloc: Global) -> Option<bool> {
    let limits = Limits::default();
    let mut host = Host::new(alloc, limits).ok()?;
    let put = vec![in alloc; 0u8; 50_000].ok()?;
    let party = Till::new(1, put);
    let Reply::Opened(token) = host.step(Step::Opened { party }, &[]) else {
        return None;
    };
    let none_yet = is_not_now(&mut host, token, Own::Turn, &[]);
    let _ = host.next_turn();
    let octets = [0u8; MOST_TAKEN + 1];
    let too_many = is_not_now(&mut host, token, Own::Came, &octets);
    let (first, second) = host.output(token);
    let lent = first.len() == 50_000 && second.len() == 15_536;
    let went = goes(&mut host, token, Own::Went { count: 65_000 }, &[]);
    let (first, second) = host.output(token);
    let left = first.len() == 536 && second.is_empty();
    let more = is_not_now(&mut host, token, Own::Went { count: 537 }, &[]);
    Some(none_yet && too_many && lent && went && left && more)
}

// rule (best): hosts (own) A turn takes 32,786 octets and gives 65,536 at most
#[test]
fn a_turn_is_bounded(rt: HostRuntime) {
    assert!(rt; bounded_turn(rt.alloc()) == Some(true));
}

/// Opens a connection with output that waits.
fn open_with(alloc: Global, host: &mut Host<Till>, octets: &[u8]) -> Option<Token> {
    let party = Till::new(1, Vec::from_slice(alloc, octets).ok()?);
    match host.step(Step::Opened { party }, &[]) {
        Reply::Opened(token) => Some(token),
        _ => None,
    }
}

fn own_output(alloc: Global) -> Option<bool> {
    let mut host = Host::new(alloc, LIMITS).ok()?;
    let first = open_with(alloc, &mut host, b"one")?;
    let second = open_with(alloc, &mut host, b"two")?;
    let turn = host.next_turn() == Some(first);
    let (own, more) = host.output(first);
    let is_own = own == b"one".as_slice() && more == b"one".as_slice();
    let (none, nothing) = host.output(second);
    let no_other = none.is_empty() && nothing.is_empty();
    let next = host.next_turn() == Some(second);
    let (own, _) = host.output(second);
    Some(
        turn && is_own
            && no_other
            && next
            && own == b"two".as_slice()
            && host.output(first).0.is_empty(),
    )
}

// rule (best): hosts (own) Who has the turn gives its own output, and nobody else any
#[test]
fn output_is_that_of_the_turn(rt: HostRuntime) {
    assert!(rt; own_output(rt.alloc()) == Some(true));
}

fn takes_once(alloc: Global) -> Option<bool> {
    let mut host = Host::new(alloc, LIMITS).ok()?;
    let first = open(alloc, &mut host, 1)?;
    let second = open(alloc, &mut host, 1)?;
    let before = host.read_size(first);
    let _ = host.next_turn();
    let now = host.read_size(first) == MOST_TAKEN && host.read_size(second) == 0;
    let came = goes(&mut host, first, Own::Came, b"1") && host.read_size(first) == 0;
    Some(before == 0 && now && came)
}

// rule (best): hosts (own) Who has the turn takes octets once, if it takes any
#[test]
fn octets_are_taken_once_in_a_turn(rt: HostRuntime) {
    assert!(rt; takes_once(rt.alloc()) == Some(true));
}

fn alternates(alloc: Global) -> Option<bool> {
    let mut host = Host::new(alloc, LIMITS).ok()?;
    let first = open(alloc, &mut host, 1)?;
    let second = open(alloc, &mut host, 0)?;
    let third = open(alloc, &mut host, 1)?;
    let one = host.next_turn() == Some(first) && goes(&mut host, first, Own::Turn, &[]);
    // The second is not ready: it has no turn before it is.
    let two = host.next_turn() == Some(third) && host.next_turn() == Some(first);
    let woken = goes(&mut host, second, Own::NoneCame, &[]) && host.waiting() == 1;
    Some(one && two && woken && host.next_turn() == Some(third) && host.is_full())
}

// rule (best): hosts (own) All that are ready have a turn before any has a second
#[test]
fn turns_alternate(rt: HostRuntime) {
    assert!(rt; alternates(rt.alloc()) == Some(true));
}

fn stale_token(alloc: Global) -> Option<bool> {
    let mut host = Host::new(alloc, LIMITS).ok()?;
    let old = open(alloc, &mut host, 1)?;
    let closed = matches!(host.step(Step::Closed { token: old }, &[]), Reply::Closed);
    let new = open(alloc, &mut host, 2)?;
    let is_next = new.place == old.place && new.generation == 1;
    let own = Own::Came;
    let stale = matches!(host.step(Step::Own { token: old, own }, b"x"), Reply::Stale)
        && matches!(host.step(Step::Closed { token: old }, &[]), Reply::Stale);
    let same = kept(&host, new) == Some(2) && kept(&host, old).is_none() && host.len() == 1;
    Some(closed && is_next && stale && same && Token::from_number(new.to_number()) == new)
}

// rule (best): hosts (own) No token is given twice, and an old one changes nothing
#[test]
fn an_old_token_is_stale(rt: HostRuntime) {
    assert!(rt; stale_token(rt.alloc()) == Some(true));
}

fn refusals(alloc: Global) -> Option<bool> {
    let mut host = Host::new(alloc, LIMITS).ok()?;
    let first = open(alloc, &mut host, 60)?;
    let second = open(alloc, &mut host, 60)?;
    let too_much = open(alloc, &mut host, 101).is_none() && open(alloc, &mut host, 31).is_none();
    let third = open(alloc, &mut host, 20)?;
    let full = open(alloc, &mut host, 0).is_none();
    let turn = host.next_turn() == Some(first)
        && host.next_turn() == Some(second)
        && host.next_turn() == Some(third);
    // All hold 160: of the two that hold 60 the one of the lower place is refused.
    let goes_on = goes(&mut host, third, Own::Came, &[0u8; 20]);
    let one = kept(&host, first) == Some(0) && kept(&host, second) == Some(60);
    let sum = host.held() == 100 && kept(&host, third) == Some(40);
    // One that holds more than 100 is refused itself.
    let again = host.next_turn() == Some(first) && host.next_turn() == Some(second);
    let came = goes(&mut host, second, Own::Came, &[0u8; 41]);
    Some(
        too_much
            && full
            && turn
            && goes_on
            && one
            && sum
            && again
            && came
            && kept(&host, second) == Some(0)
            && host.held() == 40,
    )
}

// rule (best): hosts (own) Who holds most is refused until all hold what they may
#[test]
fn who_holds_most_is_refused(rt: HostRuntime) {
    assert!(rt; refusals(rt.alloc()) == Some(true));
}

fn time_passes(alloc: Global) -> Option<bool> {
    let mut host = Host::new(alloc, LIMITS).ok()?;
    let token = open(alloc, &mut host, 1)?;
    let passed = matches!(host.step(Step::Passed { now: 7 }, &[]), Reply::Passed)
        && matches!(host.step(Step::Passed { now: 5 }, &[]), Reply::Passed);
    let seen = host.party(token)?.seen == 7 && host.now() == 7;
    let own = is_not_now(&mut host, token, Own::Passed { now: 9 }, &[]);
    let bound = Bound::Memory;
    let refused = host.step(
        Step::Own {
            token,
            own: Own::Refused { bound },
        },
        &[],
    );
    Some(passed && seen && own && matches!(refused, Reply::Own(Answer::Over)) && !host.is_empty())
}

// rule (best): hosts (own) Each connection sees each time that passes, once
#[test]
fn all_see_the_time(rt: HostRuntime) {
    assert!(rt; time_passes(rt.alloc()) == Some(true));
}

fn runs(alloc: Global) -> Option<bool> {
    let mut host = Host::new(alloc, LIMITS).ok()?;
    let mut steps = VecDeque::new(alloc);
    let party = Till::new(1, Vec::new(alloc));
    let opened = Step::Opened { party };
    steps
        .push_back(Made {
            step: opened,
            octets: Vec::new(alloc),
        })
        .ok()?;
    steps
        .push_back(Made {
            step: Step::NextTurn,
            octets: Vec::new(alloc),
        })
        .ok()?;
    let token = Token {
        place: 0,
        generation: 0,
    };
    let came = Step::Own {
        token,
        own: Own::Came,
    };
    let octets = Vec::from_slice(alloc, b"123").ok()?;
    steps.push_back(Made { step: came, octets }).ok()?;
    let replies = host.run(alloc, steps).ok()?;
    let is = match replies.as_slice() {
        [
            Reply::Opened(one),
            Reply::Turn(Some(two)),
            Reply::Own(Answer::Goes),
        ] => { *one == token && *two == token }
        _ => false,
    };
    Some(is && kept(&host, token) == Some(4))
}

// rule (best): hosts (own) A run makes its steps one after another
#[test]
fn a_run_is_its_steps(rt: HostRuntime) {
    assert!(rt; runs(rt.alloc()) == Some(true));
}

#[test]
fn laws_can_be_called(rt: HostRuntime) {
    h2_host::connections_run_alone::<Till>();
    h2_host::tokens_are_new::<Till>();
    h2_host::ready_ones_go_first::<Till>();
    h2_host::turns_are_bounded::<Till>();
    let _ = rt;
}
