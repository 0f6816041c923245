//! What a link is.

ghost use Rattle.std.specs.Prelude.{◌≡◌, ◌<◌, ◌-◌, ◌^◌, ℕ, Bool, List, [], Option, length};
ghost use Rattle.std.specs.Io.KnownBytes.{Appends};
ghost use Rattle.std.specs.Io.Slices.{io_slices_bytes};
ghost use Rattle.h2_link.specs.Links.{failures_after, ended_after, stalled_after, Gives};
ghost use Rattle.h2_link.specs.Links.{Takes};

use crate::parts::first_part;
use std::io::IoSlice;
use thiserror::Error;

/// A call of a link failed. Nothing more is known of it.
#[derive(Clone, Copy, Debug, PartialEq, Eq, Hash, Error)]
#[error("a read or a write has failed")]
pub struct LinkFault;

/// Carries the octets of a connection, both ways. Its calls wait for the peer where they have
/// to.
pub trait Link {
    /// All octets that it has given so far, where it knows them; a socket doesn't.
    ghost given: { Self → Option (List ℕ) };

    /// All octets that it has taken so far, where it knows them.
    ghost taken: { Self → Option (List ℕ) };

    /// Whether a read into a buffer with room has given nothing: the end of the input.
    ghost ended: { Self → Bool };

    /// Whether a write of some octets has taken none.
    ghost stalled: { Self → Bool };

    /// How many of its calls have failed.
    ghost faults: { Self → ℕ };

    /// Reads octets into the beginning of a buffer, and returns how many. 0 is the end of the
    /// input, if the buffer has room.
    ///
    /// # Errors
    ///
    /// [`LinkFault`] where the read failed: nothing was read.
    fn read(&mut self, buffer: &mut [u8]) -> Result<usize, LinkFault>
        requires { faults self.old < 2 ^ 64 - 1 }
        ensures length { length buffer.new ≡ length buffer.old }
        ensures gives { Gives (given self.old) (given self.new) result buffer.new }
        ensures takes_none { Appends (taken self.old) (taken self.new) [] }
        ensures ended { ended self.new
            ≡ ended_after (ended self.old) (length buffer.old) result }
        ensures stalled { stalled self.new ≡ stalled self.old }
        ensures failures { faults self.new ≡ failures_after (faults self.old) result };

    /// Writes octets, from the first, and returns how many were written.
    ///
    /// # Errors
    ///
    /// [`LinkFault`] where the write failed: some of the octets, from the first
    /// on, may have been written.
    fn write(&mut self, octets: &[u8]) -> Result<usize, LinkFault>
        requires { faults self.old < 2 ^ 64 - 1 }
        ensures takes { Takes (taken self.old) (taken self.new) result octets.now }
        ensures gives_none { Appends (given self.old) (given self.new) [] }
        ensures ended { ended self.new ≡ ended self.old }
        ensures stalled { stalled self.new
            ≡ stalled_after (stalled self.old) (length octets.now) result }
        ensures failures { faults self.new ≡ failures_after (faults self.old) result };

    /// Writes octets that lie in several parts, from the first and in order, and returns how
    /// many were written. The provided method writes the first part that has octets.
    ///
    /// # Errors
    ///
    /// [`LinkFault`] where the write failed: some of the octets, from the first
    /// on, may have been written.
    fn write_parts(&mut self, parts: &[IoSlice<'_>]) -> Result<usize, LinkFault>
        requires { faults self.old < 2 ^ 64 - 1 }
        ensures takes { Takes (taken self.old) (taken self.new) result
            (io_slices_bytes parts.now) }
        ensures gives_none { Appends (given self.old) (given self.new) [] }
        ensures ended { ended self.new ≡ ended self.old }
        ensures stalled { stalled self.new ≡ stalled_after (stalled self.old)
            (length (io_slices_bytes parts.now)) result }
        ensures failures { faults self.new ≡ failures_after (faults self.old) result }
    {
        self.write(first_part(parts))
    }

    /// Returns how many calls have failed.
    fn failures(&self) -> u64
        ensures { result ≡ faults self.now };
}
