//! String literals (RFC 7541, section 5.2).

ghost use Rattle.std.specs.Prelude.{◌≡◌, ℕ, ◌+◌, ◌^◌, ◌<◌, ◌≤◌, ◌++◌, List, length, take, IfOk};
ghost use Rattle.std.specs.Prelude.{IfErr, OnOk, OnErr, IsOk, MatchResult, vec_len};
ghost use Rattle.std.specs.Vec.{vec_capacity};
ghost use Rattle.hpack_text.specs.Strings.{Str, StrFault, Holds, BodyFault, string, most_text};
ghost use Rattle.hpack_text.specs.Strings.{LacksRoom};
ghost use Rattle.hpack_text.specs.Appended.{IsExtended};

use crate::fault::TextFault;
use crate::huffman::{append_text, huff_len, huff_write};
use crate::integers::{read_int, write_int};
use std::alloc::Global;

/// The number of bits of the first octet that hold the length.
const PREFIX: u8 = 7;

/// The bit H, which says that the string is Huffman-encoded.
const BIT_H: u8 = 128;

// contract: HPACK 5.2 A string is the bit H, its length and its octets
// rule: HPACK 5.2 A string is the bit H, its length and its octets
// contract: HPACK 5.2 Octets that end inside a string are a fault
// rule (contract): HPACK 5.2 (own) A text without octets is read without memory
/// Reads the string at the start of `octets`, and returns its text and the number of octets
/// that encode it. Octets may follow.
///
/// # Errors
///
/// [`TextFault::Truncated`] where the octets end inside the string, whatever its text is;
/// [`TextFault::TooLong`] for the length, as in [`read_int`](crate::read_int); then, for a
/// Huffman-encoded string, the faults of [`huff_read`](crate::huff_read). [`TextFault::Memory`]
/// where an allocation was refused, which needs a complete string with at least one octet.
pub fn read_string(alloc: Global, octets: &[u8]) -> Result<(Vec<u8>, usize), TextFault>
    ensures ok { IfOk result (λ read. (read.1 ≤ length octets.now)
        × Str read.0.items (take read.1 octets.now)) }

    // An encoded string is read, unless memory runs out.
    ensures only { (text : List ℕ) (count : ℕ) → count ≤ length octets.now
        → Str text (take count octets.now)
        → MatchResult result (λ read. (read.0.items ≡ text) × (read.1 ≡ count))
        (λ fault. fault ≡ TextFault.Memory) }
    ensures fault { IfErr result (StrFault octets.now) }
    ensures room { IfErr result (λ fault. fault ≡ TextFault.Memory → LacksRoom octets.now 0 0) }
{
    let mut text = Vec::new(alloc);
    let count = leading_string(octets, &mut text)?;
    Ok((text, count))
}

// contract: HPACK 5.2 A string is the bit H, its length and its octets
// rule: HPACK 5.2 A string is the bit H, its length and its octets
// rule: HPACK 5.2 (own) A text is appended to what stands there, or nothing is
/// Reads the string at the start of `octets` as [`read_string`] does, appends its text to
/// `out`, and returns the number of octets that encode it.
///
/// # Errors
///
/// Those of [`read_string`]; `out` is unchanged. [`TextFault::Memory`] does not come where
/// `out` has room for as many octets as the string holds, or, if it is Huffman-encoded, for 8/5
/// of them, which no text exceeds.
pub fn read_string_into(octets: &[u8], out: &mut Vec<u8>) -> Result<usize, TextFault>
    ensures ok { IfOk result (λ count. (text : List ℕ) × (out.new.items ≡ out.old.items ++ text)
        × (count ≤ length octets.now) × Str text (take count octets.now)) }

    // An encoded string is read, unless memory runs out.
    ensures only { (text : List ℕ) (count : ℕ) → count ≤ length octets.now
        → Str text (take count octets.now)
        → MatchResult result
        (λ read. (out.new.items ≡ out.old.items ++ text) × (read ≡ count))
        (λ fault. fault ≡ TextFault.Memory) }
    ensures fault { IfErr result (StrFault octets.now) }
    ensures err { OnErr result (out.new.items ≡ out.old.items) }
    ensures room { IfErr result (λ fault. fault ≡ TextFault.Memory
        → LacksRoom octets.now (vec_len out.old) (vec_capacity out.old)) }
    ensures capacity { vec_capacity out.old ≤ vec_capacity out.new }
{
    leading_string(octets, out)
}

// contract: HPACK 5.2 (own) A string is Huffman-encoded where that is not longer
/// Appends the text as a string, Huffman-encoded where that is not longer than raw.
///
/// # Errors
///
/// [`TextFault::Memory`] where an allocation was refused; `out` is unchanged. It does not come
/// where `out` has room for the string.
pub fn write_string(text: &[u8], out: &mut Vec<u8>) -> Result<(), TextFault>
    requires { length text.now < 2 ^ 35 }
    ensures ok { OnOk result (out.new.items ≡ out.old.items ++ string text.now) }
    ensures err { IfErr result
        (λ fault. (fault ≡ TextFault.Memory) × (out.new.items ≡ out.old.items)) }
    ensures room { vec_len out.old + length (string text.now) ≤ vec_capacity out.old → IsOk result }
    ensures capacity { vec_capacity out.old ≤ vec_capacity out.new }
{
    let start = out.len();
    let written = append_string(text, out);
    if written.is_err() {
        out.truncate(start);
    }
    written
}

// rule: HPACK 5.2 A string is the bit H, its length and its octets
// rule: HPACK 5.2 Octets that end inside a string are a fault
/// Appends the text of the string at the start of `octets`, and returns how many octets encode
/// it.
fn leading_string(octets: &[u8], out: &mut Vec<u8>) -> Result<usize, TextFault>
    ensures answer { MatchResult result
        (λ count. (text : List ℕ) × (out.new.items ≡ out.old.items ++ text)
        × (count ≤ length octets.now) × Str text (take count octets.now))
        (StrFault octets.now) }
    ensures err { OnErr result (out.new.items ≡ out.old.items) }
    ensures room { IfErr result (λ fault. fault ≡ TextFault.Memory
        → LacksRoom octets.now (vec_len out.old) (vec_capacity out.old)) }
    ensures capacity { vec_capacity out.old ≤ vec_capacity out.new }
{
    let (text_len, head_len) = read_int(PREFIX, octets)?;
    let after_head = &octets[head_len..];
    if text_len > after_head.len() as u64 {
        return Err(TextFault::Truncated);
    }
    let body_len = text_len as usize;
    append_body(octets[0] >= BIT_H, &after_head[..body_len], out)?;
    Ok(head_len + body_len)
}

// rule: HPACK 5.2 Octets that end inside a string are a fault
// rule: HPACK 5.2 (own) A text is appended to what stands there, or nothing is
/// Appends a string's text, which all of `body` holds.
fn append_body(is_huffman: bool, body: &[u8], out: &mut Vec<u8>) -> Result<(), TextFault>
    ensures answer { MatchResult result
        (λ _. (text : List ℕ) × (out.new.items ≡ out.old.items ++ text)
        × Holds is_huffman text body.now)
        (BodyFault is_huffman body.now) }
    ensures err { OnErr result (out.new.items ≡ out.old.items) }
    ensures full { IfErr result (λ fault. fault ≡ TextFault.Memory
        → vec_capacity out.old < vec_len out.old + most_text is_huffman (length body.now)) }
    ensures capacity { vec_capacity out.old ≤ vec_capacity out.new }
{
    if is_huffman {
        return append_text(body, out);
    }
    out.extend_from_slice(body)?;
    Ok(())
}

// rule: HPACK 5.2 (own) A string is Huffman-encoded where that is not longer
/// Appends the text as a string. On `Err` a prefix of it was appended.
fn append_string(text: &[u8], out: &mut Vec<u8>) -> Result<(), TextFault>
    requires { length text.now < 2 ^ 35 }
    ensures ok { OnOk result (out.new.items ≡ out.old.items ++ string text.now) }
    ensures err { IfErr result (λ fault. fault ≡ TextFault.Memory) }
    ensures extended { IsExtended out.old.items out.new.items }
    ensures full { OnErr result
        (vec_capacity out.old < vec_len out.old + length (string text.now)) }
    ensures capacity { vec_capacity out.old ≤ vec_capacity out.new }
{
    let huffman_len = huff_len(text);
    if huffman_len <= text.len() {
        write_int(PREFIX, BIT_H, huffman_len as u64, out)?;
        return huff_write(text, out);
    }
    write_int(PREFIX, 0, text.len() as u64, out)?;
    out.extend_from_slice(text)?;
    Ok(())
}
