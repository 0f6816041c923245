//! Connections of a host whose windows are widened, by what they send.

use h2_host::{Own, Party};
use h2_hosting::{ConnectionLimits, Guest, Windows};
use h2_server::{Buffered, Config, Connection, Echo};
use std::alloc::Global;
use std::cell::Cell;

/// A connection of a host whose handler echoes.
type Served<'a> = Guest<'a, Connection<Buffered<Echo>>>;

/// What a client begins with: its preface, SETTINGS, and the head of a POST, whose body follows.
const BEGINS: &[u8] = b"PRI * HTTP/2.0\r\n\r\nSM\r\n\r\n\
    \x00\x00\x00\x04\x00\x00\x00\x00\x00\
    \x00\x00\x06\x01\x04\x00\x00\x00\x01\x83\x86\x84\x01\x01h";

/// DATA with three octets of the body, which more follow.
const DATA: &[u8] = b"\x00\x00\x03\x00\x00\x00\x00\x00\x01abc";

/// WINDOW_UPDATE of the connection by 100 octets.
const WIDER: &[u8] = b"\x00\x00\x04\x08\x00\x00\x00\x00\x00\x00\x00\x00\x64";

/// A connection that is widened by what these windows have for it; none when out of memory.
fn served<'a>(alloc: Global, leaving: &'a Cell<bool>, windows: &'a Windows) -> Option<Served<'a>> {
    let handler = Buffered::new(Echo, 1_000);
    let limits = ConnectionLimits::default();
    let party = Connection::new(alloc, Config::default(), limits, 0, handler).ok()?;
    Guest::new(alloc, party, leaving, windows).ok()
}

/// How often octets have [`WIDER`] in them.
fn widenings(octets: &[u8]) -> usize {
    let mut found = 0usize;
    for place in 0..octets.len() {
        if octets[place..].starts_with(WIDER) {
            found = found.saturating_add(1);
        }
    }
    found
}

/// How often a connection says that it is widened, once these octets have come and it has acted.
fn widened_at(guest: &mut Served<'_>, octets: &[u8]) -> usize {
    let mut room = [0u8; 64];
    guest.step(Own::Came, octets, &mut room);
    guest.step(Own::Turn, &[], &mut room);
    let (first, second) = guest.output();
    let found = widenings(first).saturating_add(widenings(second));
    let count = first.len().saturating_add(second.len());
    guest.step(Own::Went { count }, &[], &mut room);
    found
}

/// The same, as three pieces come.
fn widened_by(guest: &mut Served<'_>, pieces: [&[u8]; 3]) -> [usize; 3] {
    let [first, second, third] = pieces;
    [
        widened_at(guest, first),
        widened_at(guest, second),
        widened_at(guest, third),
    ]
}

/// How often two connections are widened, if too little is left for both: the first, the second
/// beside it, and the second once the first is gone.
fn widened(alloc: Global) -> Option<[[usize; 3]; 3]> {
    let leaving = Cell::new(false);
    let windows = Windows::new(65_635, 150);
    let mut first = served(alloc, &leaving, &windows)?;
    let once = widened_by(&mut first, [BEGINS, DATA, DATA]);
    let mut second = served(alloc, &leaving, &windows)?;
    let never = widened_by(&mut second, [BEGINS, DATA, DATA]);
    drop(first);
    let later = widened_by(&mut second, [DATA, DATA, DATA]);
    Some([once, never, later])
}

// rule: hosts (own) A connection is widened once, as a body comes, by what is left
// Before octets of a body have come it is not widened, and once they have by 100 octets.
#[test]
fn seats_are_widened(rt: HostRuntime) {
    let wanted = Some([[0, 1, 0], [0, 0, 0], [1, 0, 0]]);
    assert!(rt; widened(rt.alloc()) == wanted);
}
