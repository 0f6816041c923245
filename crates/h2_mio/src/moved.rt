//! The result of a read or a write of a socket.

ghost use Rattle.std.specs.Prelude.{◌≡◌, ◌+◌, ◌++◌, [], length, take};
ghost use Rattle.std.specs.Io.KnownBytes.{Appends};
ghost use Rattle.h2_mio.specs.Moving.{MovesWithin, count_moved, moved_at};

use crate::transport::Transport;
use std::io::ErrorKind;

/// The result of a read or a write.
#[derive(Clone, Copy, Debug, PartialEq, Eq)]
pub(crate) enum Moved {
    /// This many octets were moved, at least one.
    Octets(usize),
    /// No octet can be moved now: the socket says when some can.
    Nothing,
    /// A signal interrupted it: no octet was moved, and no event will follow.
    Interrupted,
    /// The peer has ended its side.
    Ended,
    /// No octet can be moved any more.
    Broken,
}

// rule: hosts (own) A connection gets just what its socket gave; its output alone goes there
/// Reads once.
pub(crate) fn read_once<S: Transport>(stream: &mut S, room: &mut [u8]) -> Moved
    ensures within { MovesWithin (length room.new) result }
    ensures room { length room.new ≡ length room.old }
    ensures gives { Appends (S.given stream.old) (S.given stream.new)
        (take (count_moved result) room.new) }
    ensures takes_none { Appends (S.taken stream.old) (S.taken stream.new) [] }
{
    match stream.read_some(room) {
        Ok(0) => Moved::Ended,
        Ok(count) => Moved::Octets(count),
        Err(error) => moved_at(error.kind()),
    }
}

// rule: hosts (own) A connection gets just what its socket gave; its output alone goes there
/// Writes two parts once.
pub(crate) fn write_once<S: Transport>(stream: &mut S, first: &[u8], second: &[u8]) -> Moved
    ensures within { MovesWithin (length first.now + length second.now) result }
    ensures takes { Appends (S.taken stream.old) (S.taken stream.new)
        (take (count_moved result) (first.now ++ second.now)) }
    ensures gives_none { Appends (S.given stream.old) (S.given stream.new) [] }
{
    match stream.write_both(first, second) {
        Ok(0) => Moved::Nothing,
        Ok(count) => Moved::Octets(count),
        Err(error) => moved_at(error.kind()),
    }
}

// contract: hosts (own) A socket that would wait is asked again; one that fails is closed
// rule: hosts (own) A socket that would wait is asked again; one that fails is closed
/// The result of a failed read or write.
fn moved_at(kind: ErrorKind) -> Moved
    ensures { result ≡ moved_at kind }
{
    match kind {
        ErrorKind::WouldBlock => Moved::Nothing,
        ErrorKind::Interrupted => Moved::Interrupted,
        _ => Moved::Broken,
    }
}
