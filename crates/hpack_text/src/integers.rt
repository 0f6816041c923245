//! Integers with a prefix (RFC 7541, section 5.1).

ghost use Rattle.std.specs.Prelude.{◌≡◌, ℕ, ◌+◌, ◌%◌, ◌^◌, ◌<◌, ◌≤◌, ◌++◌, length, take, IfOk};
ghost use Rattle.std.specs.Prelude.{IfErr, OnOk, OnErr, IsOk, MatchResult, vec_len};
ghost use Rattle.std.specs.Vec.{vec_capacity};
ghost use Rattle.hpack_text.specs.Integers.{Int, IntFault, integer, continuation_of};
ghost use Rattle.hpack_text.specs.Continuation.{HasContinuation, ContinuationFault};
ghost use Rattle.hpack_text.specs.Appended.{IsExtended};

use crate::fault::TextFault;
use std::alloc::AllocError;

/// The most continuation octets of an integer that are read (own; RFC 7541, section 5.1).
pub const MAX_CONTINUATION_OCTETS: usize = 5;

// contract: HPACK 5.1 A value below 2^N-1 stands in the prefix of N bits
// rule: HPACK 5.1 A value below 2^N-1 stands in the prefix of N bits
// contract: HPACK 5.1 After a prefix of ones follow at most five (own) octets
// contract: HPACK 5.1 An integer that is cut off or too long is a fault
/// Reads the integer at the start of `octets`, whose first octet has `prefix` bits of it, and
/// returns its value and the number of octets that encode it (RFC 7541, section 5.1). The bits
/// above the prefix are ignored, and octets may follow. At most five continuation octets are
/// read, superfluous zeros included. It takes no memory.
///
/// # Errors
///
/// [`TextFault::Truncated`] where the octets end inside the integer, and [`TextFault::TooLong`]
/// where the fifth continuation octet says that a sixth follows.
pub fn read_int(prefix: u8, octets: &[u8]) -> Result<(u64, usize), TextFault>
    requires at_least { 1 ≤ prefix }
    requires at_most { prefix ≤ 8 }
    ensures ok { IfOk result (λ read. (read.1 ≤ length octets.now)
        × Int prefix read.0 (take read.1 octets.now)) }

    // What is encoded at the start is read.
    ensures only { (value count : ℕ) → count ≤ length octets.now
        → Int prefix value (take count octets.now) → result ≡ Ok (value, count) }
    ensures fault { IfErr result (IntFault prefix octets.now) }
{
    leading_int(prefix, octets)
}

// contract: HPACK 5.1 (own) The shortest encoding of an integer is written
// rule: HPACK 5.1 (own) The shortest encoding of an integer is written
/// Appends the shortest encoding of `value` with a prefix of `prefix` bits. `first_bits` are the
/// bits above the prefix in the first octet (RFC 7541, section 5.1).
///
/// # Errors
///
/// [`TextFault::Memory`] where an allocation was refused; `out` is unchanged. It does not come
/// where `out` has room for the encoding.
#[inline(always)]
pub fn write_int(prefix: u8, first_bits: u8, value: u64, out: &mut Vec<u8>) -> Result<(), TextFault>
    requires at_least { 1 ≤ prefix }
    requires at_most { prefix ≤ 8 }
    requires value { value < 2 ^ 35 }
    requires first_bits { first_bits % 2 ^ prefix ≡ 0 }
    ensures ok { OnOk result (out.new.items ≡ out.old.items ++ integer prefix first_bits value) }
    ensures err { IfErr result
        (λ fault. (fault ≡ TextFault.Memory) × (out.new.items ≡ out.old.items)) }
    ensures room { vec_len out.old + length (integer prefix first_bits value) ≤ vec_capacity out.old
        → IsOk result }
    ensures capacity { vec_capacity out.old ≤ vec_capacity out.new }
{
    let start = out.len();
    if append_integer(prefix, first_bits, value, out).is_err() {
        out.truncate(start);
        return Err(TextFault::Memory);
    }
    Ok(())
}

// rule: HPACK 5.1 A value below 2^N-1 stands in the prefix of N bits
/// Reads the integer at the start of `octets`.
fn leading_int(prefix: u8, octets: &[u8]) -> Result<(u64, usize), TextFault>
    requires at_least { 1 ≤ prefix }
    requires at_most { prefix ≤ 8 }
    ensures answer { MatchResult result
        (λ read. (read.1 ≤ length octets.now) × Int prefix read.0 (take read.1 octets.now))
        (IntFault prefix octets.now) }
{
    let [first, more @ ..] = octets else {
        return Err(TextFault::Truncated);
    };
    let low = u64::from(*first) % (1 << prefix);
    let all_ones = (1 << prefix) - 1;
    if low < all_ones {
        return Ok((low, 1));
    }
    let (above, count) = read_continuation(more)?;
    Ok((all_ones + above, count + 1))
}

// rule: HPACK 5.1 After a prefix of ones follow at most five (own) octets
// rule: HPACK 5.1 An integer that is cut off or too long is a fault
/// Reads continuation octets, and returns the number that they encode and how many they are.
fn read_continuation(octets: &[u8]) -> Result<(u64, usize), TextFault>
    ensures answer { MatchResult result (λ read. HasContinuation octets.now read.0 read.1)
        (ContinuationFault octets.now) }
{
    let mut value: u64 = 0;
    for count in 0..MAX_CONTINUATION_OCTETS {
        if count >= octets.len() {
            return Err(TextFault::Truncated);
        }
        let octet = octets[count];
        value += u64::from(octet % 128) << (7 * count);
        if octet < 128 {
            return Ok((value, count + 1));
        }
    }
    Err(TextFault::TooLong)
}

/// Appends the encoding of an integer. On `Err` a prefix of it was appended.
#[inline(always)]
fn append_integer(
    prefix: u8,
    first_bits: u8,
    value: u64,
    out: &mut Vec<u8>,
) -> Result<(), AllocError>
    requires at_least { 1 ≤ prefix }
    requires at_most { prefix ≤ 8 }
    requires value { value < 2 ^ 35 }
    requires first_bits { first_bits % 2 ^ prefix ≡ 0 }
    ensures ok { OnOk result (out.new.items ≡ out.old.items ++ integer prefix first_bits value) }
    ensures extended { IsExtended out.old.items out.new.items }
    ensures full { OnErr result
        (vec_capacity out.old < vec_len out.old + length (integer prefix first_bits value)) }
    ensures capacity { vec_capacity out.old ≤ vec_capacity out.new }
{
    let all_ones = (1 << prefix) - 1;
    if value < all_ones {
        out.push(first_bits + value as u8)?;
        return Ok(());
    }
    out.push(first_bits + all_ones as u8)?;
    append_continuation(value - all_ones, out)
}

// rule: HPACK 5.1 (own) The shortest encoding of an integer is written
/// Appends the continuation octets of a number. On `Err` a prefix of them was appended.
fn append_continuation(number: u64, out: &mut Vec<u8>) -> Result<(), AllocError>
    requires { number < 2 ^ 35 }
    ensures ok { OnOk result (out.new.items ≡ out.old.items ++ continuation_of 4 number) }
    ensures extended { IsExtended out.old.items out.new.items }
    ensures full { OnErr result
        (vec_capacity out.old < vec_len out.old + length (continuation_of 4 number)) }
    ensures capacity { vec_capacity out.old ≤ vec_capacity out.new }
{
    let mut remaining = number;
    while remaining >= 128 {
        out.push((remaining % 128 + 128) as u8)?;
        remaining /= 128;
    }
    out.push(remaining as u8)?;
    Ok(())
}
