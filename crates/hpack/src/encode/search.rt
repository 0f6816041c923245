//! Searches the static table for the entry of a field.

ghost use Rattle.std.specs.Prelude.{◌≡◌, ◌-◌, ◌<◌, ◌≤◌, true, false, length, take, drop};
ghost use Rattle.std.specs.Prelude.{slice_index_or};
ghost use Rattle.std.specs.Int.{w32, from_le_bytes};
ghost use Rattle.hpack.specs.Entry.{Entry};
ghost use Rattle.hpack.specs.Hashes.{hash_from};
ghost use Rattle.hpack.specs.Choice.{same_octets};
ghost use Rattle.hpack.specs.Sought.{is_sought, first_index, AreOctetsByPlace};
ghost use Rattle.hpack.specs.Static.{static_entries};

use crate::encode::static_chains::{first_place, skip_after, value_len};
use crate::table::static_table::static_entry;
use crate::types::field::Field;

/// The number of entries of the static table.
const STATIC_COUNT: usize = 61;

/// What is sought.
#[derive(Clone, Copy)]
pub(crate) enum Sought {
    /// An entry with the field's name and value.
    Exact,
    /// An entry with the field's name.
    Name,
}

/// Whether an entry of this name and value is sought.
#[inline(always)]
pub(crate) fn is_match(sought: Sought, field: &Field, name: &[u8], value: &[u8]) -> bool
    ensures { result ≡ is_sought sought field.now (record { name = name.now; value = value.now }) }
{
    // Values differ more often than names.
    if matches!(sought, Sought::Exact) && !is_same(value, field.value.as_slice()) {
        return false;
    }
    is_same(name, field.name.as_slice())
}

// rule: HPACK 6.1 (own) A field with an exact entry is its least index
/// The least index of the static table's entries sought, or 0, by the hash of the field's name.
/// Only names in the bucket of the hash are compared.
#[inline(always)]
pub(crate) fn static_index(sought: Sought, hash: u64, field: &Field) -> u64
    requires { hash ≡ hash_from 0 field.now.name }
    ensures { result ≡ first_index (is_sought sought field.now) 1 static_entries }
{
    let mut place = first_place(hash);
    while place < STATIC_COUNT {
        if is_static_match(sought, field, place) {
            return place as u64 + 1;
        }
        place += 1 + skip_after(place);
    }
    0
}

/// Whether the entry of the static table at a place is one sought.
#[inline(always)]
fn is_static_match(sought: Sought, field: &Field, place: usize) -> bool
    requires { place < 61 }
    ensures { (other : Entry) → result
        ≡ is_sought sought field.now (slice_index_or static_entries place other) }
{
    if differs_in_length(sought, field, place) {
        return false;
    }
    is_entry_match(sought, field, place)
}

/// Whether the value sought differs in length from that of the entry at a place; most values
/// that differ do.
#[inline(always)]
fn differs_in_length(sought: Sought, field: &Field, place: usize) -> bool
    requires { place < 61 }
    ensures { (other : Entry) → result ≡ true → false
        ≡ is_sought sought field.now (slice_index_or static_entries place other) }
{
    match sought {
        Sought::Exact => value_len(place) != field.value.as_slice().len(),
        Sought::Name => false,
    }
}

/// Whether the entry of the static table at a place is one sought, by its octets.
#[inline(always)]
fn is_entry_match(sought: Sought, field: &Field, place: usize) -> bool
    requires { place < 61 }
    ensures { (other : Entry) → result
        ≡ is_sought sought field.now (slice_index_or static_entries place other) }
{
    match static_entry(place as u64 + 1) {
        Some((name, value)) => is_match(sought, field, name, value),
        None => false,
    }
}

/// Whether the octets are the same. Eight are compared at a time.
#[inline(always)]
fn is_same(octets: &[u8], others: &[u8]) -> bool
    ensures { result ≡ same_octets octets.now others.now }
{
    octets.len() == others.len() && have_same_words(octets, others)
}

/// Whether two slices of the same length are equal: the last eight octets are compared, and
/// then the others from the beginning on.
fn have_same_words(octets: &[u8], others: &[u8]) -> bool
    requires length { length octets.now ≡ length others.now }
    requires octets { AreOctetsByPlace octets.now }
    requires others { AreOctetsByPlace others.now }
    ensures { result ≡ same_octets octets.now others.now }
{
    let others = of_length(others, octets.len());
    let (Some(last), Some(others_last)) = (octets.last_chunk::<8>(), others.last_chunk::<8>())
    else {
        return have_same_halves(octets, others);
    };
    if u64::from_le_bytes(*last) != u64::from_le_bytes(*others_last) {
        return false;
    }
    have_same_beginnings(octets, others)
}

/// Whether two slices of the same length, below eight, are equal: the first four octets are
/// compared, and then the last four.
#[inline(always)]
fn have_same_halves(octets: &[u8], others: &[u8]) -> bool
    requires few { length octets.now < 8 }
    requires length { length octets.now ≡ length others.now }
    requires octets { AreOctetsByPlace octets.now }
    requires others { AreOctetsByPlace others.now }
    ensures { result ≡ same_octets octets.now others.now }
{
    if octets.len() < 4 {
        return octets == others;
    }
    let (first, last) = halves(octets);
    let (others_first, others_last) = halves(others);
    if first != others_first {
        return false;
    }
    last == others_last
}

/// The words of the first four octets, and of the last four.
#[inline(always)]
fn halves(octets: &[u8]) -> (u32, u32)
    requires { 4 ≤ length octets.now }
    ensures first { result.0 ≡ from_le_bytes w32 (take 4 octets.now) }
    ensures last { result.1 ≡ from_le_bytes w32 (drop (length octets.now - 4) octets.now) }
{
    let (Some(first), Some(last)) = (octets.first_chunk::<4>(), octets.last_chunk::<4>()) else {
        unreachable!();
    };
    (u32::from_le_bytes(*first), u32::from_le_bytes(*last))
}

/// The whole slice, of a length that the compiler then knows.
#[inline(always)]
fn of_length(octets: &[u8], count: usize) -> &[u8]
    requires { length octets.now ≡ count }
    ensures { result.now ≡ octets.now }
{
    &octets[..count]
}

/// Whether two slices are equal whose last eight octets are.
#[inline(always)]
fn have_same_beginnings(octets: &[u8], others: &[u8]) -> bool
    requires long { 8 ≤ length octets.now }
    requires length { length octets.now ≡ length others.now }
    requires last { drop (length octets.now - 8) octets.now
        ≡ drop (length octets.now - 8) others.now }
    requires octets { AreOctetsByPlace octets.now }
    requires others { AreOctetsByPlace others.now }
    ensures { result ≡ same_octets octets.now others.now }
{
    let mut left = octets;
    let mut others_left = others;
    while left.len() > 8 {
        let (Some((word, more)), Some((other, others_more))) = (
            left.split_first_chunk::<8>(),
            others_left.split_first_chunk::<8>(),
        ) else {
            unreachable!();
        };
        if u64::from_le_bytes(*word) != u64::from_le_bytes(*other) {
            return false;
        }
        left = more;
        others_left = others_more;
    }
    true
}
