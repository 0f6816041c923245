//! Writes octets that lie in several parts.

ghost use Rattle.std.specs.Prelude.{◌≡◌, take, drop};
ghost use Rattle.std.specs.Io.{WritesAtMost};
ghost use Rattle.std.specs.Io.KnownBytes.{WriteAppends};
ghost use Rattle.std.specs.Io.Slices.{io_slice_bytes, io_slices_bytes};

use crate::stream_link::DIRECT;
use std::io::{self, IoSlice, Write};
use std::net::TcpStream;

/// A stream that can write several parts in one call.
pub trait WriteParts: Write {
    /// Writes a prefix of the octets of these parts, in order, and returns its length.
    ///
    /// # Errors
    ///
    /// Those of [`Write::write`]: nothing was written.
    fn write_parts(&mut self, parts: &[IoSlice<'_>]) -> io::Result<usize>
        ensures bound { WritesAtMost result (io_slices_bytes parts.now) }
        ensures bytes { WriteAppends (Self.contents self.old) (Self.contents self.new) result
            (io_slices_bytes parts.now) };
}

/// Writes the first four nonempty parts in one system call.
impl WriteParts for TcpStream {
    fn write_parts(&mut self, parts: &[IoSlice<'_>]) -> io::Result<usize> {
        TcpStream::write_vectored(self, parts)
    }
}

// rule: engines (own) A link over TCP holds 65,536 octets at most, then sends them
/// Whether these parts have [`DIRECT`] octets or more, which are sent at once.
pub(crate) fn are_many(parts: &[IoSlice<'_>]) -> bool {
    let mut count = 0usize;
    for part in parts {
        count = count.saturating_add(part.as_slice().len());
    }
    count >= DIRECT
}

/// The part at this index, or an empty one.
pub(crate) fn part_at<'a>(parts: &[IoSlice<'a>], at: usize) -> IoSlice<'a>
    ensures { io_slice_bytes result ≡ io_slices_bytes (take 1 (drop at parts.now)) }
{
    if at < parts.len() {
        return parts[at];
    }
    IoSlice::new(&[])
}
