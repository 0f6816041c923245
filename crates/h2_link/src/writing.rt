//! Writing all octets.

ghost use Rattle.std.specs.Prelude.{◌≡◌, ◌<◌, ◌-◌, ◌^◌, []};
ghost use Rattle.std.specs.Io.KnownBytes.{Appends};
ghost use Rattle.h2_link.specs.Links.{StallsAtNoProgress, WritesAll};

use crate::error::LinkError;
use crate::link::Link;

// rule: links (own) Writing all octets ends once they are taken, or with N1 or N5
/// Writes all octets, in as many calls as it takes.
///
/// # Errors
///
/// Some of the octets, from the first on, may have been written.
///
/// - [`LinkError::Device`] (N1) where a write failed.
/// - [`LinkError::NoProgress`] (N5) where a write took nothing.
pub fn write_all<L: Link>(link: &mut L, octets: &[u8]) -> Result<(), LinkError>
    requires { L.faults link.old < 2 ^ 64 - 1 }
    ensures writes { WritesAll (L.taken link.old) (L.taken link.new) (L.faults link.old)
        (L.faults link.new) result octets.now }
    ensures gives_none { Appends (L.given link.old) (L.given link.new) [] }
    ensures ended { L.ended link.new ≡ L.ended link.old }
    ensures stalled { StallsAtNoProgress result (L.stalled link.new) }
{
    let mut written = 0usize;
    for _ in 0..octets.len() {
        if written == octets.len() {
            break;
        }
        let count = link.write(&octets[written..])?;
        if count == 0 {
            return Err(LinkError::NoProgress);
        }
        written += count;
    }
    Ok(())
}
