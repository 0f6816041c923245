//! Scans of octets, up to 32 at once.
//!
//! A first scan finds, for many octets at once, whether one is unusual in a name, or low in a
//! value, as every forbidden octet is. Only then are the octets checked exactly.

ghost use Rattle.std.specs.Prelude.{◌≡◌, ◌≤◌, ◌<◌, ◌+◌, length, take};
ghost use Rattle.std.specs.List.{list_any};
ghost use Rattle.h2_message.specs.Octets.{is_bad_in_name, is_bad_after_first, is_bad_in_value};
ghost use Rattle.h2_message.specs.Octets.{is_unusual, is_low};

use std::simd::prelude::*;

/// The number of octets scanned at once.
const LANES: usize = 32;

// rule: 8.2.1 A name with an octet that it must not have breaks M1
/// Whether an octet is forbidden in names (RFC 9113, section 8.2.1).
#[inline]
#[tactic(auto, unfolding(crate::specs::Octets::is_bad_in_name))]
pub(crate) fn is_bad_in_name(octet: u8) -> bool
    ensures { result ≡ is_bad_in_name octet }
{
    octet <= 0x20 || (0x41 <= octet && octet <= 0x5a) || octet >= 0x7f
}

// rule: 8.2.1 A name with an octet that it must not have breaks M1
/// Whether an octet is forbidden in names after the first octet.
#[inline]
#[tactic(auto, unfolding(crate::specs::Octets::is_bad_after_first))]
fn is_bad_after_first(octet: u8) -> bool
    ensures { result ≡ is_bad_after_first octet }
{
    is_bad_in_name(octet) || octet == b':'
}

// rule: 8.2.1 A value with NUL, CR or LF breaks M2
/// Whether an octet is forbidden in values (section 8.2.1).
#[inline]
#[tactic(auto, unfolding(crate::specs::Octets::is_bad_in_value))]
fn is_bad_in_value(octet: u8) -> bool
    ensures { result ≡ is_bad_in_value octet }
{
    octet == 0 || octet == b'\n' || octet == b'\r'
}

// rule: 8.2.1 A name with an octet that it must not have breaks M1
// contract: 8.2.1 (own) A scan of 32 octets at once answers what each octet's condition says
// rule: 8.2.1 (own) A scan of 32 octets at once answers what each octet's condition says
/// Whether one of these octets is forbidden in names after the first octet.
#[inline(always)]
pub(crate) fn has_bad_after_first(octets: &[u8]) -> bool
    ensures { result ≡ list_any is_bad_after_first octets.now }
{
    has_unusual(octets) && scan_after_first(octets)
}

// rule: 8.2.1 A name with an octet that it must not have breaks M1
/// The same, octet by octet.
#[inline(never)]
fn scan_after_first(octets: &[u8]) -> bool
    ensures { result ≡ list_any is_bad_after_first octets.now }
{
    let mut bad = false;
    for octet in octets {
        bad |= is_bad_after_first(*octet);
    }
    bad
}

// rule: 8.2.1 (own) A scan of 32 octets at once answers what each octet's condition says
/// Whether one of these octets is unusual in names. Runs of 32 octets are scanned, and the last
/// 32, which may overlap a run.
#[inline(always)]
fn has_unusual(octets: &[u8]) -> bool
    ensures { result ≡ list_any is_unusual octets.now }
{
    if octets.len() < 16 {
        return few_have_unusual(octets);
    }
    if octets.len() < LANES {
        return ends_have_unusual::<16>(octets);
    }
    let (lanes, _) = octets.as_chunks::<LANES>();
    for lane in lanes {
        if lane_has_unusual(lane) {
            return true;
        }
    }
    run_has_unusual::<LANES>(&octets[octets.len() - LANES..])
}

/// The same for one run.
#[inline(always)]
fn lane_has_unusual(lane: &[u8; LANES]) -> bool
    ensures { result ≡ list_any is_unusual lane.now }
{
    run_has_unusual::<LANES>(lane.as_slice())
}

/// The same for fewer than 16 octets.
#[inline(always)]
fn few_have_unusual(octets: &[u8]) -> bool
    requires { length octets.now < 16 }
    ensures { result ≡ list_any is_unusual octets.now }
{
    if octets.len() >= 8 {
        return ends_have_unusual::<8>(octets);
    }
    if octets.len() >= 4 {
        return ends_have_unusual::<4>(octets);
    }
    let mut found = false;
    for octet in octets {
        found |= is_unusual(*octet);
    }
    found
}

/// The same for N to twice N octets: the first N and the last N are scanned.
#[inline(always)]
fn ends_have_unusual<const N: usize>(octets: &[u8]) -> bool
    requires lanes { N ≤ 64 }
    requires least { N ≤ length octets.now }
    requires most { length octets.now ≤ N + N }
    ensures { result ≡ list_any is_unusual octets.now }
{
    run_has_unusual::<N>(octets) | run_has_unusual::<N>(&octets[octets.len() - N..])
}

// contract: 8.2.1 (own) A scan of 32 octets at once answers what each octet's condition says
// rule: 8.2.1 (own) A scan of 32 octets at once answers what each octet's condition says
/// The same for the first N octets.
#[inline(always)]
fn run_has_unusual<const N: usize>(octets: &[u8]) -> bool
    requires lanes { N ≤ 64 }
    requires least { N ≤ length octets.now }
    ensures { result ≡ list_any is_unusual (take N octets.now) }
{
    let v = Simd::<u8, N>::from_slice(octets);
    let outside = v.simd_lt(Simd::splat(b'a')) | v.simd_ge(Simd::splat(0x7f));
    (outside & v.simd_ne(Simd::splat(b'-'))).any()
}

// rule: 8.2.1 (own) A scan of 32 octets at once answers what each octet's condition says
/// Whether an octet is neither a lowercase letter, nor a hyphen, nor one of 0x7b to 0x7e.
#[inline]
#[tactic(auto, unfolding(crate::specs::Octets::is_unusual))]
fn is_unusual(octet: u8) -> bool
    ensures { result ≡ is_unusual octet }
{
    (octet < b'a' || octet >= 0x7f) && octet != b'-'
}

// rule: 8.2.1 A value with NUL, CR or LF breaks M2
// contract: 8.2.1 (own) A scan of 32 octets at once answers what each octet's condition says
// rule: 8.2.1 (own) A scan of 32 octets at once answers what each octet's condition says
/// Whether one of these octets is forbidden in values.
#[inline(always)]
pub(crate) fn has_bad_in_value(octets: &[u8]) -> bool
    ensures { result ≡ list_any is_bad_in_value octets.now }
{
    has_low(octets) && scan_value(octets)
}

// rule: 8.2.1 A value with NUL, CR or LF breaks M2
/// The same, exactly, in runs of 32: for values with an octet up to a carriage return, such as
/// a tab.
#[inline(never)]
fn scan_value(octets: &[u8]) -> bool
    ensures { result ≡ list_any is_bad_in_value octets.now }
{
    let (lanes, rest) = octets.as_chunks::<LANES>();
    for lane in lanes {
        if lane_is_bad_in_value(lane) {
            return true;
        }
    }
    let mut bad = false;
    for octet in rest {
        bad |= is_bad_in_value(*octet);
    }
    bad
}

// contract: 8.2.1 (own) A scan of 32 octets at once answers what each octet's condition says
// rule: 8.2.1 (own) A scan of 32 octets at once answers what each octet's condition says
/// The same for 32 octets.
#[inline]
fn lane_is_bad_in_value(lane: &[u8; LANES]) -> bool
    ensures { result ≡ list_any is_bad_in_value lane.now }
{
    let v = u8x32::from_array(*lane);
    let zero = v.simd_eq(u8x32::splat(0));
    let line_feed = v.simd_eq(u8x32::splat(b'\n'));
    let carriage_return = v.simd_eq(u8x32::splat(b'\r'));
    (zero | line_feed | carriage_return).any()
}

// rule: 8.2.1 (own) A scan of 32 octets at once answers what each octet's condition says
/// Whether one of these octets is at most a carriage return. Runs of 32 octets are scanned, and
/// the last 32, which may overlap a run.
#[inline(always)]
fn has_low(octets: &[u8]) -> bool
    ensures { result ≡ list_any is_low octets.now }
{
    if octets.len() < 16 {
        return few_have_low(octets);
    }
    if octets.len() < LANES {
        return ends_have_low::<16>(octets);
    }
    let (lanes, _) = octets.as_chunks::<LANES>();
    for lane in lanes {
        if lane_has_low(lane) {
            return true;
        }
    }
    run_has_low::<LANES>(&octets[octets.len() - LANES..])
}

/// The same for one run.
#[inline(always)]
fn lane_has_low(lane: &[u8; LANES]) -> bool
    ensures { result ≡ list_any is_low lane.now }
{
    run_has_low::<LANES>(lane.as_slice())
}

/// The same for fewer than 16 octets.
#[inline(always)]
fn few_have_low(octets: &[u8]) -> bool
    requires { length octets.now < 16 }
    ensures { result ≡ list_any is_low octets.now }
{
    if octets.len() >= 8 {
        return ends_have_low::<8>(octets);
    }
    if octets.len() >= 4 {
        return ends_have_low::<4>(octets);
    }
    if octets.len() >= 2 {
        return ends_have_low::<2>(octets);
    }
    let mut found = false;
    for octet in octets {
        found |= is_low(*octet);
    }
    found
}

/// The same for N to twice N octets: the first N and the last N are scanned.
#[inline(always)]
fn ends_have_low<const N: usize>(octets: &[u8]) -> bool
    requires lanes { N ≤ 64 }
    requires least { N ≤ length octets.now }
    requires most { length octets.now ≤ N + N }
    ensures { result ≡ list_any is_low octets.now }
{
    run_has_low::<N>(octets) | run_has_low::<N>(&octets[octets.len() - N..])
}

// contract: 8.2.1 (own) A scan of 32 octets at once answers what each octet's condition says
// rule: 8.2.1 (own) A scan of 32 octets at once answers what each octet's condition says
/// The same for the first N octets.
#[inline(always)]
fn run_has_low<const N: usize>(octets: &[u8]) -> bool
    requires lanes { N ≤ 64 }
    requires least { N ≤ length octets.now }
    ensures { result ≡ list_any is_low (take N octets.now) }
{
    let v = Simd::<u8, N>::from_slice(octets);
    v.simd_le(Simd::splat(b'\r')).any()
}

// rule: 8.2.1 (own) A scan of 32 octets at once answers what each octet's condition says
/// Whether an octet is at most a carriage return.
#[inline]
#[tactic(auto, unfolding(crate::specs::Octets::is_low))]
fn is_low(octet: u8) -> bool
    ensures { result ≡ is_low octet }
{
    octet <= b'\r'
}
