//! Octets that lie in several parts.

ghost use Rattle.std.specs.Prelude.{◌≡◌, [], length};
ghost use Rattle.std.specs.Io.{StartsWith};
ghost use Rattle.std.specs.Io.Slices.{io_slices_bytes};

use std::io::IoSlice;

/// Returns the first part that has octets; an empty slice if none has.
pub fn first_part<'a>(parts: &[IoSlice<'a>]) -> &'a [u8]
    ensures part { StartsWith (io_slices_bytes parts.now) result.now }
    ensures none { length result.now ≡ 0 → io_slices_bytes parts.now ≡ [] }
{
    for part in parts {
        let octets = part.as_slice();
        if !octets.is_empty() {
            return octets;
        }
    }
    &[]
}
