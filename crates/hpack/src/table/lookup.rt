//! The entry that an index names (RFC 7541, section 2.3.3).

ghost use Rattle.std.specs.Prelude.{◌≡◌, ◌-◌, ◌≤◌, Some, None, MatchOption, length, take, drop};
ghost use Rattle.hpack.specs.Static.{entry};

use crate::table::dynamic_table::Table;
use crate::table::static_table::{static_entry, static_joined};

/// The number of entries of the static table.
const STATIC_COUNT: u64 = 61;

// contract: HPACK A The static table has 61 entries
// contract: HPACK 2.3.3 Indices 1 to 61 name the static table, those from 62 the dynamic
// rule: HPACK 2.3.3 Indices 1 to 61 name the static table, those from 62 the dynamic
/// The name and the value of the entry with this index: of the static table from 1 on, then of
/// the dynamic one.
#[inline(always)]
pub(crate) fn entry_at(table: &Table, index: u64) -> Option<(&[u8], &[u8])>
    ensures { MatchOption result (entry table.now.entries index ≡ None)
        (λ found. entry table.now.entries index ≡ Some
        (record { name = found.0.now; value = found.1.now })) }
{
    if index == 0 {
        return None;
    }
    if index <= STATIC_COUNT {
        return static_entry(index);
    }
    table.get((index - STATIC_COUNT) as usize)
}

// rule: HPACK 2.3.3 Indices 1 to 61 name the static table, those from 62 the dynamic
/// The name followed by the value of the entry with this index, and the length of the name.
#[inline(always)]
pub(crate) fn joined_at(table: &Table, index: u64) -> Option<(&[u8], usize)>
    ensures { MatchOption result (entry table.now.entries index ≡ None)
        (λ found. (found.1 ≤ length found.0.now) × (entry table.now.entries index ≡ Some (record {
          name = take found.1 found.0.now;
          value = drop found.1 found.0.now;
        }))) }
{
    if index == 0 {
        return None;
    }
    if index <= STATIC_COUNT {
        return static_joined(index);
    }
    table.joined((index - STATIC_COUNT) as usize)
}
