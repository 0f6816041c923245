//! The size updates at the beginning of a block (RFC 7541, sections 4.2 and 6.3).

ghost use Rattle.std.specs.Prelude.{◌≡◌, ◌↔◌, IsTrue, IfOk, IfErr, Some};
ghost use Rattle.hpack.specs.Tables.{Entries, resized, after_maxima};
ghost use Rattle.hpack.specs.Lists.{DecodeFault};
ghost use Rattle.hpack.specs.Prefixes.{BeginsUpdate, UpdatesSoFar};

use crate::decode::texts::int_at;
use crate::table::dynamic_table::Table;
use crate::types::fault::Fault;

/// The number of bits of a new maximum in its first octet.
const MAXIMUM_PREFIX: u8 = 5;

// rule: HPACK 6.3 A size update above the limit is a fault
// rule: HPACK 4.2 A block without the update that a lower limit asks for is a fault
// rule: HPACK 4.2 Size updates stand at the beginning of a block
/// Applies the size updates at the beginning of `octets`, and returns the octets after them. The
/// table is changed once, after the last update.
#[inline(always)]
pub(crate) fn apply_updates<'a>(
    table: &mut Table,
    limit: u32,
    octets: &'a [u8],
) -> Result<&'a [u8], Fault>
    ensures ok { IfOk result (λ unparsed. UpdatesSoFar table.old limit octets.now table.new
        unparsed.now) }
    ensures no_more { IfOk result (λ unparsed. BeginsUpdate unparsed.now → ⊥) }
    ensures fault { IfErr result (DecodeFault table.old limit octets.now) }
{
    let mut unparsed = octets;
    let mut maxima = None;
    while begins_update(unparsed) {
        let (maximum, count) = int_at(MAXIMUM_PREFIX, unparsed)?;
        if maximum > u64::from(limit) {
            return Err(Fault::Compression);
        }
        maxima = Some(with_maximum(maxima, maximum as u32));
        unparsed = &unparsed[count..];
    }
    if let Some((least, last)) = maxima {
        table.resize_twice(least, last)?;
    }
    Ok(unparsed)
}

// rule: HPACK 6.3 A size update sets the maximum
/// The least maximum before the last update, and the maximum of the last, after one more
/// update; of a first update both are its own.
fn with_maximum(maxima: Option<(u32, u32)>, maximum: u32) -> (u32, u32)
    ensures { (table : Entries) → after_maxima table (Some result)
        ≡ resized (after_maxima table maxima) maximum }
{
    match maxima {
        None => (maximum, maximum),
        Some((least, last)) => (least.min(last), maximum),
    }
}

/// Whether the first octet is that of an update.
fn begins_update(octets: &[u8]) -> bool
    ensures { IsTrue result ↔ BeginsUpdate octets.now }
{
    matches!(octets, [0x20..=0x3f, ..])
}
