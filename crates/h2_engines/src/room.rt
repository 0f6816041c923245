//! Memory for input, and the link that stands in where there is none.

ghost use Rattle.std.specs.Prelude.{◌≡◌, IfOk, IfErr, length};

use h2_link::{LinkError, MemoryLink};
use std::alloc::Global;

/// The length of a read in octets, at most.
const PIECE: usize = 16_384;

/// Returns a buffer for reads.
pub(crate) fn room_for_input(alloc: Global) -> Result<Vec<u8>, LinkError>
    ensures ok { IfOk result (λ room. length room.items ≡ 16384) }
    ensures err { IfErr result (λ error. error ≡ LinkError.Memory) }
{
    Ok(vec![in alloc; 0u8; PIECE]?)
}

/// Returns a link for callers that hand octets in: it is neither read nor written.
pub(crate) fn no_link(alloc: Global) -> MemoryLink
    ensures { result.failures ≡ 0 }
{
    MemoryLink::new(alloc, Vec::new(alloc))
}
