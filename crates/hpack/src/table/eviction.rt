//! The size of entries, and the eviction of the oldest (RFC 7541, sections 4.1, 4.3 and 4.4).

ghost use Rattle.std.specs.Prelude.{◌≡◌, ◌+◌, ◌-◌, ◌^◌, ◌≤◌, [], length, min};
ghost use Rattle.std.specs.List.{AllByRecursion};
ghost use Rattle.hpack_text.specs.Bits.{IsOctet};
ghost use Rattle.hpack.specs.Sizes.{entry_size, table_size, fit};

use crate::types::entry::Entry;
use circular_buffer::HeapCircularBuffer;

/// The octets that an entry's size has beside name and value.
pub(crate) const OVERHEAD: usize = 32;

// rule: HPACK 4.1 The size of an entry is that of name and value, and 32
/// The size of an entry, up to `usize::MAX`.
#[inline(always)]
pub(crate) fn size_of(entry: &Entry) -> usize
    ensures { result ≡ min (entry_size entry.now) (2 ^ 64 - 1) }
{
    size_of_octets(entry.name(), entry.value())
}

// rule: HPACK 4.1 The size of an entry is that of name and value, and 32
/// The size of an entry or a field with this name and value, up to `usize::MAX`.
pub(crate) fn size_of_octets(name: &[u8], value: &[u8]) -> usize
    ensures size { result ≡ min (length name.now + length value.now + 32) (2 ^ 64 - 1) }

    // The items of slices are octets.
    ensures name { AllByRecursion IsOctet name.now }
    ensures value { AllByRecursion IsOctet value.now }
{
    (name.len() + value.len()).saturating_add(OVERHEAD)
}

// contract: HPACK 4.4 The oldest entries leave until the size is at most the maximum
// rule: HPACK 4.4 The oldest entries leave until the size is at most the maximum
/// Removes the oldest entries until the size of the others is at most the bound, and returns
/// that size.
#[inline(always)]
pub(crate) fn evict(ring: &mut HeapCircularBuffer<Entry>, size: usize, bound: usize) -> usize
    requires { size ≡ table_size ring.old.items }
    ensures fitting { ring.new.items ≡ fit ring.old.items bound }
    ensures size { result ≡ table_size ring.new.items }
    ensures within { result ≤ bound }
    ensures capacity { ring.new.capacity ≡ ring.old.capacity }
{
    let mut remaining = size;
    while remaining > bound {
        let Some(oldest) = ring.pop_back() else {
            unreachable!();
        };
        remaining -= size_of(&oldest);
    }
    remaining
}

/// Moves the entries to an empty ring that has room for them.
pub(crate) fn move_entries(from: &mut HeapCircularBuffer<Entry>, to: &mut HeapCircularBuffer<Entry>)
    requires empty { to.old.items ≡ [] }
    requires room { length from.old.items ≤ to.old.capacity }
    ensures items { to.new.items ≡ from.old.items }
    ensures capacity { to.new.capacity ≡ to.old.capacity }
{
    while let Some(oldest) = from.pop_back() {
        to.push_front(oldest);
    }
}
