//! Sends octets, and removes those that were sent.

ghost use Rattle.std.specs.Prelude.{◌≡◌, ◌≤◌, length, take, drop};
ghost use Rattle.std.specs.Io.KnownBytes.{Appends};
ghost use Rattle.h2_net.specs.StreamLinks.{KeepsFirst};

use h2_link::write_some;
use std::io::{self, ErrorKind, Write};

// rule: engines (own) A link over TCP sends octets in order and once
/// Writes until all octets are written, or a write fails or accepts none. Returns how many
/// octets were written, and the kind of the error of a failed write.
pub fn send<W: Write>(out: &mut W, octets: &[u8]) -> (usize, Option<ErrorKind>)
    ensures bound { result.0 ≤ length octets.now }
    ensures octets { Appends (W.contents out.old) (W.contents out.new) (take result.0 octets.now) }
{
    let mut sent = 0;
    while sent < octets.len() {
        match write_some(out, &octets[sent..]) {
            Ok(0) => return (sent, None),
            Ok(count) => sent += count,
            Err(error) => return (sent, Some(error.kind())),
        }
    }
    (sent, None)
}

// rule: engines (own) A link over TCP sends octets in order and once
/// Removes the first `count` octets.
pub fn remove_first(octets: &mut Vec<u8>, count: usize)
    requires { count ≤ length octets.old.items }
    ensures { octets.new.items ≡ drop count octets.old.items }
{
    let left = octets.len() - count;
    octets.rotate_left(count);
    octets.truncate(left);
}

/// How many of the first octets read are kept: the length of the preface.
pub const MOST_FIRST: usize = 24;

/// Adds the first octets of a piece to those kept, up to 24 in all. Adds none if an allocation
/// is refused.
pub fn keep_first(kept: &mut Vec<u8>, piece: &[u8])
    ensures { KeepsFirst kept.old.items piece.now kept.new.items }
{
    let room = MOST_FIRST.saturating_sub(kept.len());
    let first = if piece.len() < room {
        piece
    } else {
        &piece[..room]
    };
    // What is kept is used for a hint only.
    let _ = kept.extend_from_slice(first);
}
