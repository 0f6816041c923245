//! The Huffman code (RFC 7541, section 5.2 and appendix B).

ghost use Rattle.std.specs.Prelude.{◌≡◌, ℕ, ◌+◌, ◌^◌, ◌<◌, ◌≤◌, ◌++◌, List, length, IfOk, IfErr};
ghost use Rattle.std.specs.Prelude.{OnOk, IsOk, MatchOption, MatchResult, vec_len};
ghost use Rattle.std.specs.Vec.{vec_capacity};
ghost use Rattle.hpack_text.specs.Huffman.{Huff, HuffFault, huffman_bits};
ghost use Rattle.hpack_text.specs.States.{BeginsWithEnd, code_if_some, prefix_of, stepped};

use crate::fault::TextFault;
use std::alloc::Global;

mod codes;
mod reader;
mod steps;
mod writer;

use codes::code_of;
pub use reader::append_text;
use steps::{END, HAS_SYMBOL, next_state, step_at, symbol_of};
use writer::append_huffman;

// contract: HPACK 5.2 A Huffman-encoded string is written with the codes
// contract: HPACK 5.2 A Huffman-encoded string is padded with ones
/// Returns the number of octets that [`huff_write`] appends for the text. It takes no memory.
pub fn huff_len(text: &[u8]) -> usize
    requires { length text.now < 2 ^ 35 }
    ensures { result ≡ length (huffman_bits text.now) }
{
    let mut count: usize = 0;
    for octet in text {
        count += code_of(*octet).count as usize;
    }
    count.div_ceil(8)
}

// contract: HPACK 5.2 A Huffman-encoded string is written with the codes
// rule: HPACK 5.2 A Huffman-encoded string is written with the codes
// contract: HPACK 5.2 A Huffman-encoded string is padded with ones
/// Appends the Huffman encoding of the text: the codes of its octets, and ones that pad the
/// last octet.
///
/// # Errors
///
/// [`TextFault::Memory`] where an allocation was refused; `out` is unchanged. It does not come
/// where `out` has room for [`huff_len`] octets.
pub fn huff_write(text: &[u8], out: &mut Vec<u8>) -> Result<(), TextFault>
    requires { length text.now < 2 ^ 35 }
    ensures ok { OnOk result (out.new.items ≡ out.old.items ++ huffman_bits text.now) }
    ensures err { IfErr result
        (λ fault. (fault ≡ TextFault.Memory) × (out.new.items ≡ out.old.items)) }
    ensures room { vec_len out.old + length (huffman_bits text.now) ≤ vec_capacity out.old
        → IsOk result }
    ensures capacity { vec_capacity out.old ≤ vec_capacity out.new }
{
    let start = out.len();
    if append_huffman(text, out).is_err() {
        out.truncate(start);
        return Err(TextFault::Memory);
    }
    Ok(())
}

// contract: HPACK 5.2 With H the octets are the codes of appendix B
// rule: HPACK 5.2 With H the octets are the codes of appendix B
// contract: HPACK 5.2 Padding of more than seven bits is a fault
// contract: HPACK 5.2 Padding of others than ones is a fault
// contract: HPACK 5.2 The code of EOS inside a string is a fault
// rule (contract): HPACK 5.2 (own) A text without octets is read without memory
/// Reads all of `octets` as Huffman-encoded text.
///
/// # Errors
///
/// The first from the left of [`TextFault::EndSymbol`], where the code of EOS follows the last
/// octet that can be read, and [`TextFault::BadPadding`], where anything but at most seven ones
/// follows it. [`TextFault::Memory`] where an allocation was refused, which needs at least one
/// octet.
pub fn huff_read(alloc: Global, octets: &[u8]) -> Result<Vec<u8>, TextFault>
    ensures ok { IfOk result (λ text. Huff text.items octets.now) }

    // Encoded text is read, unless memory runs out.
    ensures only { (text : List ℕ) → Huff text octets.now
        → MatchResult result (λ read. read.items ≡ text) (λ fault. fault ≡ TextFault.Memory) }
    ensures fault { IfErr result (HuffFault octets.now) }
    ensures none { IfErr result (λ fault. fault ≡ TextFault.Memory → 0 < length octets.now) }
{
    let mut text = Vec::new(alloc);
    append_text(octets, &mut text)?;
    Ok(text)
}

// rule: HPACK B The code is read by half octets, from state to state
/// Reads four more bits from a state, the most significant first, and returns the next state
/// and the octet whose code the bits end, if they end one. A state is the number of a proper
/// prefix of a code; 0 is the empty prefix. Four bits never end two codes, since each code has
/// at least five. `None` where the prefix and these bits begin with the code of EOS. It takes
/// no memory.
#[inline]
pub fn huff_step(state: u8, half: u8) -> Option<(u8, Option<u8>)>
    requires { half < 16 }
    ensures { MatchOption result (BeginsWithEnd (stepped state half))
        (λ step. (stepped state half ≡ code_if_some step.1 ++ prefix_of step.0)
        × (BeginsWithEnd (stepped state half) → ⊥)) }
{
    let step = step_at(state, half);
    let next = next_state(step);
    if step < HAS_SYMBOL {
        return Some((next, None));
    }
    if step >= END {
        return None;
    }
    Some((next, Some(symbol_of(step))))
}
