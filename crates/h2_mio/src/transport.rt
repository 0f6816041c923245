//! What a driver reads and writes.

ghost use Rattle.std.specs.Prelude.{◌≡◌, ◌++◌, [], None, List, Option, ℕ, length};
ghost use Rattle.std.specs.Io.{ReadsAtMost, WritesAtMost};
ghost use Rattle.std.specs.Io.KnownBytes.{Appends, WriteAppends};

use mio::net::TcpStream;
use std::io::{self, IoSlice, Read, Write};

/// What carries the octets of a connection, both ways: a socket. Its calls do not wait.
pub(crate) trait Transport {
    /// All octets that it has given so far, if stated; a socket does not.
    ghost given: { Self → Option (List ℕ) } = { λ _. None };

    /// All octets that it has taken so far, if stated.
    ghost taken: { Self → Option (List ℕ) } = { λ _. None };

    /// Reads octets to the start of a buffer, and returns how many; 0 is the end of the input,
    /// if the buffer has room.
    ///
    /// # Errors
    ///
    /// Those of [`Read::read`](std::io::Read::read). Nothing was read.
    fn read_some(&mut self, room: &mut [u8]) -> io::Result<usize>
        ensures room { length room.new ≡ length room.old }
        ensures within { ReadsAtMost result room.new }
        ensures gives { WriteAppends (given self.old) (given self.new) result room.new }
        ensures takes_none { Appends (taken self.old) (taken self.new) [] };

    /// Writes a prefix of two parts, the first before the second, and returns its length.
    ///
    /// # Errors
    ///
    /// Those of [`Write::write`](std::io::Write::write). Nothing was written.
    fn write_both(&mut self, first: &[u8], second: &[u8]) -> io::Result<usize>
        ensures within { WritesAtMost result (first.now ++ second.now) }
        ensures takes { WriteAppends (taken self.old) (taken self.new) result
            (first.now ++ second.now) }
        ensures gives_none { Appends (given self.old) (given self.new) [] };
}

/// Two parts are written in one system call.
impl Transport for TcpStream {
    fn read_some(&mut self, room: &mut [u8]) -> io::Result<usize> {
        self.read(room)
    }

    fn write_both(&mut self, first: &[u8], second: &[u8]) -> io::Result<usize> {
        if second.is_empty() {
            return self.write(first);
        }
        let parts = [IoSlice::new(first), IoSlice::new(second)];
        self.write_vectored(&parts)
    }
}
