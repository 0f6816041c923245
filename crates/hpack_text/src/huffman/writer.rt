//! Writes Huffman-encoded text, four octets at a time.

ghost use Rattle.std.specs.Prelude.{◌≡◌, ◌+◌, ◌*◌, ◌^◌, ◌<◌, ◌≤◌, [], ◌++◌, length, IfOk, OnOk};
ghost use Rattle.std.specs.Prelude.{OnErr, vec_len};
ghost use Rattle.std.specs.Vec.{vec_capacity};
ghost use Rattle.hpack_text.specs.Bits.{bits_of};
ghost use Rattle.hpack_text.specs.Huffman.{huffman_bits};
ghost use Rattle.hpack_text.specs.Appended.{IsExtended, Appends, AppendsPadded};

use crate::huffman::codes::{Code, code_of};
use std::alloc::AllocError;

/// The bits that do not fill four octets yet: how many, and the number that they encode.
#[derive(Clone, Copy)]
struct Pending {
    count: u32,
    value: u64,
    ghost few: { count < 32 },
    ghost within: { value < 2 ^ count },
}

/// The bits of the last octet, if it is not full: how many, and the number that they encode.
#[derive(Clone, Copy)]
struct LastBits {
    count: u32,
    value: u64,
    ghost few: { count < 8 },
    ghost within: { value < 2 ^ count },
}

/// Appends the Huffman encoding of the text. On `Err` a prefix of it was appended.
pub fn append_huffman(text: &[u8], out: &mut Vec<u8>) -> Result<(), AllocError>
    ensures ok { OnOk result (out.new.items ≡ out.old.items ++ huffman_bits text.now) }
    ensures extended { IsExtended out.old.items out.new.items }
    ensures full { OnErr result
        (vec_capacity out.old < vec_len out.old + length (huffman_bits text.now)) }
    ensures capacity { vec_capacity out.old ≤ vec_capacity out.new }
{
    let mut pending = no_pending();
    for octet in text {
        pending = append_code(pending, code_of(*octet), out)?;
    }
    let last = append_octets(pending, out)?;
    append_padded(last, out)
}

/// Appends four octets if the code completes them, and returns the bits that are left.
#[inline]
fn append_code(pending: Pending, code: Code, out: &mut Vec<u8>) -> Result<Pending, AllocError>
    requires count { code.count ≤ 30 }
    requires within { code.value < 2 ^ code.count }
    ensures ok { IfOk result (λ next. Appends out.old.items out.new.items
        (bits_of pending.count pending.value ++ bits_of code.count code.value)
        (bits_of next.count next.value)) }
    ensures extended { IsExtended out.old.items out.new.items }
    ensures full { OnErr result
        (8 * vec_capacity out.old + 8 ≤ 8 * vec_len out.old + pending.count + code.count) }
    ensures capacity { vec_capacity out.old ≤ vec_capacity out.new }
{
    let count = pending.count + code.count;
    let value = (pending.value << code.count) + u64::from(code.value);
    if count < 32 {
        return Ok(Pending { count, value });
    }
    let left = count - 32;
    let word = (value >> left) as u32;
    out.extend_from_slice(&word.to_be_bytes())?;
    Ok(Pending {
        count: left,
        value: value % (1 << left),
    })
}

// rule: HPACK 5.2 A Huffman-encoded string is written with the codes
/// Appends the octets that are full, and returns the bits that are left.
fn append_octets(pending: Pending, out: &mut Vec<u8>) -> Result<LastBits, AllocError>
    ensures ok { IfOk result (λ last. Appends out.old.items out.new.items
        (bits_of pending.count pending.value) (bits_of last.count last.value)) }
    ensures extended { IsExtended out.old.items out.new.items }
    ensures full { OnErr result
        (8 * vec_capacity out.old + 8 ≤ 8 * vec_len out.old + pending.count) }
    ensures capacity { vec_capacity out.old ≤ vec_capacity out.new }
{
    let mut count = pending.count;
    let mut value = pending.value;
    while count >= 8 {
        count -= 8;
        out.push((value >> count) as u8)?;
        value %= 1 << count;
    }
    Ok(LastBits { count, value })
}

// rule: HPACK 5.2 A Huffman-encoded string is padded with ones
/// Appends the bits that are left, if any, and ones that pad their octet.
fn append_padded(last: LastBits, out: &mut Vec<u8>) -> Result<(), AllocError>
    ensures ok { OnOk result
        (AppendsPadded out.old.items out.new.items (bits_of last.count last.value)) }
    ensures extended { IsExtended out.old.items out.new.items }
    ensures full { OnErr result (8 * vec_capacity out.old + 1 ≤ 8 * vec_len out.old + last.count) }
    ensures capacity { vec_capacity out.old ≤ vec_capacity out.new }
{
    if last.count > 0 {
        let missing = 8 - last.count;
        out.push(((last.value << missing) + ((1 << missing) - 1)) as u8)?;
    }
    Ok(())
}

/// No bits.
fn no_pending() -> Pending
    ensures empty { bits_of result.count result.value ≡ [] }
    ensures none { result.count ≡ 0 }
{
    Pending { count: 0, value: 0 }
}
