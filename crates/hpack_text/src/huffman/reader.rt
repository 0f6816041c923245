//! Reading a Huffman-encoded string, by half octets.

ghost use Rattle.std.specs.Prelude.{◌≡◌, ◌+◌, ◌*◌, ◌<◌, ◌≤◌, ◌++◌, List, ℕ, length, true};
ghost use Rattle.std.specs.Prelude.{IfErr, OnErr, MatchOption, MatchResult, vec_len};
ghost use Rattle.std.specs.Vec.{vec_capacity};
ghost use Rattle.hpack_text.specs.Appended.{IsExtended};
ghost use Rattle.hpack_text.specs.Bits.{bits_of};
ghost use Rattle.hpack_text.specs.Huffman.{Huff, HuffFault};
ghost use Rattle.hpack_text.specs.States.{ReadsBits, ReadsEnd, prefix_of};
ghost use Rattle.hpack_text.specs.Strings.{most_text};

use crate::fault::TextFault;
use crate::huffman::huff_step;
use std::mem::replace;

/// The most ones that may pad the last octet. The state after N of them is numbered N.
const MAX_PADDING: u8 = 7;

// rule: HPACK 5.2 (own) A text is appended to what stands there, or nothing is
/// Appends the text that all of `octets` encode.
pub fn append_text(octets: &[u8], out: &mut Vec<u8>) -> Result<(), TextFault>
    ensures answer { MatchResult result
        (λ _. (text : List ℕ) × (out.new.items ≡ out.old.items ++ text) × Huff text octets.now)
        (HuffFault octets.now) }
    ensures err { OnErr result (out.new.items ≡ out.old.items) }
    ensures full { IfErr result (λ fault. fault ≡ TextFault.Memory
        → vec_capacity out.old < vec_len out.old + most_text true (length octets.now)) }
    ensures capacity { vec_capacity out.old ≤ vec_capacity out.new }
{
    // A code has five bits at least.
    let most = octets.len() / 5 * 8 + octets.len() % 5 * 8 / 5;
    if out.reserve(most).is_err() {
        return Err(TextFault::Memory);
    }
    let start = out.len();
    // A vector of this function's own stays in registers while it is appended to.
    let mut text = replace(out, Vec::new(*out.allocator()));
    let read = read_text(octets, &mut text);
    *out = text;
    if read.is_err() {
        out.truncate(start);
    }
    read
}

// rule: HPACK 5.2 Padding of more than seven bits is a fault
// rule: HPACK 5.2 Padding of others than ones is a fault
// rule: HPACK 5.2 The code of EOS inside a string is a fault
/// Reads all of `octets` as a text. On `Err` a prefix of it was appended.
#[inline(always)]
fn read_text(octets: &[u8], out: &mut Vec<u8>) -> Result<(), TextFault>
    requires room { 5 * vec_len out.old + 8 * length octets.now ≤ 5 * vec_capacity out.old + 4 }
    ensures answer { MatchResult result
        (λ _. (text : List ℕ) × (out.new.items ≡ out.old.items ++ text) × Huff text octets.now)
        (HuffFault octets.now) }
    ensures extended { IsExtended out.old.items out.new.items }
    ensures memory { IfErr result (λ fault. fault ≡ TextFault.Memory → ⊥) }
    ensures capacity { vec_capacity out.new ≡ vec_capacity out.old }
{
    let mut state = 0;
    for octet in octets {
        let Some(next) = read_octet(state, *octet, out) else {
            return Err(TextFault::EndSymbol);
        };
        state = next;
    }
    if state > MAX_PADDING {
        return Err(TextFault::BadPadding);
    }
    Ok(())
}

// rule: HPACK 5.2 With H the octets are the codes of appendix B
/// Reads the bits of an octet from a state, and appends the octets whose codes they end. `None`
/// where they end the code of EOS.
#[inline]
fn read_octet(state: u8, octet: u8, out: &mut Vec<u8>) -> Option<u8>
    requires room { 5 * vec_len out.old + length (prefix_of state) + 4
        ≤ 5 * vec_capacity out.old }
    ensures answer { MatchOption result
        (ReadsEnd out.old.items out.new.items state (bits_of 8 octet))
        (ReadsBits out.old.items out.new.items state (bits_of 8 octet)) }
    ensures capacity { vec_capacity out.new ≡ vec_capacity out.old }
{
    let between = read_half(state, octet / 16, out)?;
    read_half(between, octet % 16, out)
}

// rule: HPACK 5.2 With H the octets are the codes of appendix B
// rule: HPACK 5.2 The code of EOS inside a string is a fault
/// Reads four bits from a state, and appends the octet whose code they end. `None` where they
/// end the code of EOS.
#[inline]
fn read_half(state: u8, half: u8, out: &mut Vec<u8>) -> Option<u8>
    requires half { half < 16 }
    requires room { 5 * vec_len out.old + length (prefix_of state) ≤ 5 * vec_capacity out.old }
    ensures answer { MatchOption result
        (ReadsEnd out.old.items out.new.items state (bits_of 4 half))
        (ReadsBits out.old.items out.new.items state (bits_of 4 half)) }
    ensures capacity { vec_capacity out.new ≡ vec_capacity out.old }
{
    let (next, symbol) = huff_step(state, half)?;
    let Some(symbol) = symbol else {
        return Some(next);
    };
    out.push_reserved(symbol);
    Some(next)
}
