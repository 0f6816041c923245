//! Chains through the entries of the static table, by the hashes of their names.

ghost use Rattle.std.specs.Prelude.{◌≡◌, ◌+◌, ◌<◌, ◌^◌, length, drop, slice_index_or};
ghost use Rattle.hpack.specs.Entry.{Entry};
ghost use Rattle.hpack.specs.Static.{static_entries};
ghost use Rattle.hpack.specs.Hashes.{bucket_of};
ghost use Rattle.hpack.specs.Chains.{LeadsTo, name_bucket};

use crate::encode::hash::bucket_at;

/// The place of the first entry whose name is in the bucket of a hash; past the last entry if
/// there is none.
#[inline(always)]
pub(crate) fn first_place(hash: u64) -> usize
    ensures { LeadsTo name_bucket (bucket_of 128 hash) static_entries result }
{
    usize::from(FIRST_PLACES[bucket_at(128, hash)])
}

/// The number of entries between the one at a place and the next one in its bucket.
#[inline(always)]
pub(crate) fn skip_after(place: usize) -> usize
    requires { place < 61 }
    ensures small { result < 2 ^ 8 }
    ensures leads { (other : Entry)
        → LeadsTo name_bucket (name_bucket (slice_index_or static_entries place other))
        (drop (place + 1) static_entries) result }
{
    usize::from(SKIPS[place])
}

/// The number of octets of the value of the entry at a place.
#[inline(always)]
pub(crate) fn value_len(place: usize) -> usize
    requires { place < 61 }
    ensures { (other : Entry) → result
        ≡ length (slice_index_or static_entries place other).value }
{
    usize::from(VALUE_LENGTHS[place])
}

/// For each of 128 buckets, the place of the first entry whose name is in it, or 61.
static FIRST_PLACES: [u8; 128] = [
    24, 61, 61, 61, 35, 57, 51, 61, 61, 61, 61, 31, 58, 34, 61, 38, 46, 16, 61, 25, 61, 53, 61, 61,
    15, 49, 61, 44, 61, 29, 21, 61, 61, 61, 61, 61, 20, 50, 61, 61, 61, 61, 60, 61, 61, 0, 52, 61,
    61, 61, 40, 43, 45, 61, 61, 61, 61, 41, 61, 61, 39, 37, 61, 1, 23, 18, 42, 48, 61, 61, 61, 19,
    36, 61, 61, 22, 61, 61, 3, 61, 30, 61, 61, 61, 61, 56, 61, 59, 7, 61, 26, 61, 61, 61, 5, 32,
    61, 28, 61, 61, 61, 61, 61, 61, 27, 14, 61, 61, 61, 61, 61, 61, 47, 61, 61, 17, 61, 61, 61, 54,
    61, 55, 33, 61, 61, 61, 61, 61,
];

/// For each entry, the number of entries between it and the next one in its bucket, or 61.
static SKIPS: [u8; 61] = [
    61, 0, 61, 0, 61, 0, 61, 0, 0, 0, 0, 0, 0, 61, 61, 61, 61, 61, 61, 61, 61, 61, 61, 61, 61, 61,
    61, 61, 61, 61, 61, 61, 61, 61, 61, 61, 61, 61, 61, 61, 61, 61, 61, 61, 61, 61, 61, 61, 61, 61,
    61, 61, 61, 61, 61, 61, 61, 61, 61, 61, 61,
];

/// For each entry, the number of octets of its value.
static VALUE_LENGTHS: [u8; 61] = [
    0, 3, 4, 1, 11, 4, 5, 3, 3, 3, 3, 3, 3, 3, 0, 13, 0, 0, 0, 0, 0, 0, 0, 0, 0, 0, 0, 0, 0, 0, 0,
    0, 0, 0, 0, 0, 0, 0, 0, 0, 0, 0, 0, 0, 0, 0, 0, 0, 0, 0, 0, 0, 0, 0, 0, 0, 0, 0, 0, 0, 0,
];
