//! Reads and writes that a signal may interrupt.

ghost use Rattle.std.specs.Prelude.{◌≡◌, ◌<◌, ◌≤◌, length, take, IfOk, OnErr};
ghost use Rattle.std.specs.Io.KnownBytes.{Appends, Consumes, IsAtEnd, Keeps};

use std::io::{self, ErrorKind, Read, Write};

/// Reads once, repeating a read that a signal interrupted. Returns how many octets were read. 0 is
/// the end of the input, if the buffer has room.
///
/// # Errors
///
/// Those of the reader.
pub fn read_some<R: Read>(input: &mut R, buffer: &mut [u8]) -> io::Result<usize>
    ensures bound { IfOk result (λ count. count ≤ length buffer.new) }
    ensures octets { IfOk result (λ count.
        Consumes (R.remaining input.old) (R.remaining input.new) (take count buffer.new)) }
    ensures end { IfOk result (λ count.
        count ≡ 0 → 0 < length buffer.old → IsAtEnd (R.remaining input.new)) }
{
    for _ in 0..u64::MAX {
        match input.read(buffer) {
            Err(error) if error.kind() == ErrorKind::Interrupted => {}
            other => return other,
        }
    }
    Err(io::Error::from(ErrorKind::Interrupted))
}

// rule: engines (own) A link over TCP sends octets in order and once
/// Writes once, repeating a write that a signal interrupted. Returns how many octets, from the
/// first, were written.
///
/// # Errors
///
/// Those of the writer.
pub fn write_some<W: Write>(out: &mut W, octets: &[u8]) -> io::Result<usize>
    ensures bound { IfOk result (λ count. count ≤ length octets.now) }
    ensures octets { IfOk result (λ count.
        Appends (W.contents out.old) (W.contents out.new) (take count octets.now)) }
    ensures err { OnErr result (Keeps (W.contents out.old) (W.contents out.new)) }
{
    for _ in 0..u64::MAX {
        match out.write(octets) {
            Err(error) if error.kind() == ErrorKind::Interrupted => {}
            written => return written,
        }
    }
    Err(io::Error::from(ErrorKind::Interrupted))
}
