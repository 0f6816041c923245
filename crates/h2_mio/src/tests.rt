//! Turns over a transport in memory.
//!
//! - `memory`: the transport. `counter`: a party that stores what it receives.

mod counter;
mod memory;

use crate::sockets::{Socket, Sockets};
use crate::turn::{Fate, give_turn};
use counter::Counter;
use h2_host::{Host, Limits, MOST_TAKEN, Reply, Step, Token};
use memory::Memory;
use std::alloc::Global;
use std::io::ErrorKind;

/// Opens a connection that has this output, and takes as many octets in a read as there are.
fn open<'a>(alloc: Global, host: &mut Host<Counter<'a>>, put: &'a [u8]) -> Option<Token> {
    open_taking(alloc, host, put, MOST_TAKEN)
}

/// Opens a connection that has this output, and takes so many octets in a read.
fn open_taking<'a>(
    alloc: Global,
    host: &mut Host<Counter<'a>>,
    put: &'a [u8],
    takes: usize,
) -> Option<Token> {
    let party = Counter::new(alloc, put, takes);
    match host.step(Step::Opened { party }, &[]) {
        Reply::Opened(token) => Some(token),
        _ => None,
    }
}

/// The socket of a connection.
fn socket_over(token: Token, stream: Memory<'_>) -> Socket<Memory<'_>> {
    Socket {
        generation: token.generation,
        stream,
        hung_up: false,
    }
}

/// Gives a connection its turn; none if it is not its turn.
fn turn<'a>(
    host: &mut Host<Counter<'a>>,
    token: Token,
    socket: &mut Socket<Memory<'a>>,
) -> Option<Fate> {
    if host.next_turn() != Some(token) {
        return None;
    }
    let mut room = [0u8; 64];
    Some(give_turn(host, token, socket, &mut room))
}

fn gets_what_was_read(alloc: Global) -> Option<bool> {
    let mut host = Host::new(alloc, Limits::default()).ok()?;
    let token = open(alloc, &mut host, b"")?;
    let mut socket = socket_over(
        token,
        Memory::new(alloc, b"12345", 3, ErrorKind::WouldBlock),
    );
    socket.stream.reads = 2;
    let goes = turn(&mut host, token, &mut socket)? == Fate::Goes;
    let some = host.party(token)?.has(b"123");
    let still = turn(&mut host, token, &mut socket)? == Fate::Goes;
    Some(goes && some && still && host.party(token)?.has(b"12345"))
}

// rule (best): hosts (own) A connection gets just what its socket gave; its output alone goes there
#[test]
fn a_connection_gets_what_was_read(rt: HostRuntime) {
    assert!(rt; gets_what_was_read(rt.alloc()) == Some(true));
}

fn reads_what_is_taken(alloc: Global) -> Option<bool> {
    let mut host = Host::new(alloc, Limits::default()).ok()?;
    let token = open_taking(alloc, &mut host, b"", 5)?;
    let stream = Memory::new(alloc, b"12345678", 8, ErrorKind::WouldBlock);
    let mut socket = socket_over(token, stream);
    socket.stream.reads = 1;
    let goes = turn(&mut host, token, &mut socket)? == Fate::Goes;
    Some(goes && host.party(token)?.has(b"12345"))
}

// rule: hosts (own) The frames of a long body are read whole
#[test]
fn a_read_asks_for_what_its_connection_takes(rt: HostRuntime) {
    assert!(rt; reads_what_is_taken(rt.alloc()) == Some(true));
}

fn counts_what_was_taken(alloc: Global) -> Option<bool> {
    let mut host = Host::new(alloc, Limits::default()).ok()?;
    let token = open(alloc, &mut host, b"abcdefgh")?;
    let mut socket = socket_over(token, Memory::new(alloc, b"", 3, ErrorKind::WouldBlock));
    socket.stream.writes = 3;
    let goes = turn(&mut host, token, &mut socket)? == Fate::Goes;
    let few = host.party(token)?.went == 3 && socket.stream.has_taken(b"abc");
    let still = turn(&mut host, token, &mut socket)? == Fate::Goes;
    let more = host.party(token)?.went == 6 && socket.stream.has_taken(b"abcdef");
    let last = turn(&mut host, token, &mut socket)? == Fate::Goes;
    let all = host.party(token)?.went == 8 && socket.stream.has_taken(b"abcdefgh");
    Some(goes && few && still && more && last && all)
}

// rule: hosts (own) A connection gets just what its socket gave; its output alone goes there
#[test]
fn a_write_counts_what_was_taken(rt: HostRuntime) {
    assert!(rt; counts_what_was_taken(rt.alloc()) == Some(true));
}

fn learns_of_the_end(alloc: Global) -> Option<bool> {
    let mut host = Host::new(alloc, Limits::default()).ok()?;
    let token = open(alloc, &mut host, b"")?;
    let mut socket = socket_over(token, Memory::new(alloc, b"123", 8, ErrorKind::WouldBlock));
    socket.stream.reads = 2;
    socket.hung_up = true;
    let goes = turn(&mut host, token, &mut socket)? == Fate::Goes;
    let came = host.party(token)?.has(b"123") && !host.party(token)?.ended;
    let still = turn(&mut host, token, &mut socket)? == Fate::Goes;
    Some(goes && came && still && host.party(token)?.ended)
}

// rule: hosts (own) A connection gets just what its socket gave; its output alone goes there
#[test]
fn the_end_comes_after_the_octets(rt: HostRuntime) {
    assert!(rt; learns_of_the_end(rt.alloc()) == Some(true));
}

/// A read and a write of a connection fail so, and it goes on; it is told so often that its socket
/// would wait.
fn goes_on_after(alloc: Global, kind: ErrorKind, waits: usize) -> Option<bool> {
    let mut host = Host::new(alloc, Limits::default()).ok()?;
    let token = open(alloc, &mut host, b"abc")?;
    let mut socket = socket_over(token, Memory::new(alloc, b"123", 8, kind));
    let goes = turn(&mut host, token, &mut socket)? == Fate::Goes;
    let party = host.party(token)?;
    let moved = !party.has(b"") || party.went > 0 || !socket.stream.has_taken(b"");
    let none = !moved && party.waits == waits;
    socket.stream.reads = 1;
    socket.stream.writes = 1;
    let still = turn(&mut host, token, &mut socket)? == Fate::Goes;
    let party = host.party(token)?;
    let all = party.has(b"123") && socket.stream.has_taken(b"abc");
    Some(goes && none && still && all)
}

// rule (best): hosts (own) A socket that would wait is asked again; one that fails is closed
#[test]
fn a_socket_that_would_wait_is_asked_again(rt: HostRuntime) {
    assert!(rt; goes_on_after(rt.alloc(), ErrorKind::WouldBlock, 2) == Some(true));
}

// The socket says nothing more of what it has then: a connection that waited would sleep.
// rule: hosts (own) A socket that would wait is asked again; one that fails is closed
#[test]
fn a_connection_stays_ready_where_a_signal_interrupts(rt: HostRuntime) {
    assert!(rt; goes_on_after(rt.alloc(), ErrorKind::Interrupted, 0) == Some(true));
}

fn is_over_where_it_fails(alloc: Global) -> Option<bool> {
    let mut host = Host::new(alloc, Limits::default()).ok()?;
    let token = open(alloc, &mut host, b"abc")?;
    let mut socket = socket_over(
        token,
        Memory::new(alloc, b"123", 8, ErrorKind::ConnectionReset),
    );
    socket.stream.reads = 1;
    let writes = turn(&mut host, token, &mut socket)? == Fate::Over;
    let came = host.party(token)?.has(b"123");
    let reads = turn(&mut host, token, &mut socket)? == Fate::Over;
    Some(writes && came && reads && socket.stream.has_taken(b""))
}

// rule: hosts (own) A socket that would wait is asked again; one that fails is closed
#[test]
fn a_socket_that_fails_is_closed(rt: HostRuntime) {
    assert!(rt; is_over_where_it_fails(rt.alloc()) == Some(true));
}

fn old_has_none(alloc: Global) -> Option<bool> {
    let old = Token {
        place: 0,
        generation: 1,
    };
    let new = Token {
        place: 0,
        generation: 2,
    };
    let mut sockets = Sockets::new(alloc);
    let stream = Memory::new(alloc, b"", 1, ErrorKind::WouldBlock);
    sockets.put(new, stream).ok()?;
    Some(sockets.get_mut(old).is_none() && sockets.get_mut(new).is_some())
}

// rule (best): hosts (own) An old token names no socket
#[test]
fn an_old_token_has_no_socket(rt: HostRuntime) {
    assert!(rt; old_has_none(rt.alloc()) == Some(true));
}

fn steps_alone(alloc: Global) -> Option<bool> {
    let mut host = Host::new(alloc, Limits::default()).ok()?;
    let first = open(alloc, &mut host, b"abc")?;
    let second = open(alloc, &mut host, b"def")?;
    let turns = host.next_turn() == Some(first);
    let mut socket = socket_over(second, Memory::new(alloc, b"123", 8, ErrorKind::WouldBlock));
    socket.stream.reads = 1;
    socket.stream.writes = 1;
    let goes = turn(&mut host, second, &mut socket)? == Fate::Goes;
    let other = host.party(first)?;
    let none = other.has(b"") && other.acted == 0 && other.went == 0;
    let own = host.party(second)?;
    let all = own.has(b"123") && own.acted == 1 && own.went == 3;
    Some(turns && goes && none && all && socket.stream.has_taken(b"def"))
}

// rule (best): hosts (own) In a turn a driver makes steps of one connection alone
#[test]
fn a_turn_is_of_one_connection(rt: HostRuntime) {
    assert!(rt; steps_alone(rt.alloc()) == Some(true));
}
