//! The integers and strings of a block (RFC 7541, section 5), with the faults of blocks.

ghost use Rattle.std.specs.Prelude.{◌≡◌, ℕ, ◌≤◌, ◌++◌, List as Items, length, take, IfOk, IfErr};
ghost use Rattle.hpack_text.specs.Integers.{Int};
ghost use Rattle.hpack_text.specs.Strings.{Str};
ghost use Rattle.hpack.specs.declared.types.fault.Fault.TheVariants as faults;
ghost use Rattle.hpack.specs.Prefixes.{PrefixFault, IsInt, IsStr, fault_of_text};

use crate::types::fault::Fault;
use hpack_text::{TextFault, read_int, read_string_into};
use std::alloc::{AllocError, AllocFailed};

impl From<TextFault> for Fault {
    ghost from_gives = { λ text fault. fault ≡ fault_of_text text };

    fn from(fault: TextFault) -> Fault {
        match fault {
            TextFault::Memory => Fault::Memory,
            TextFault::Truncated
            | TextFault::TooLong
            | TextFault::BadPadding
            | TextFault::EndSymbol => Fault::Compression,
        }
    }
}

impl From<AllocError> for Fault {
    ghost from_gives = { λ _ fault. fault ≡ faults.Memory };

    fn from(_error: AllocError) -> Fault {
        Fault::Memory
    }
}

impl<T: Drop> From<AllocFailed<T>> for Fault {
    ghost from_gives = { λ _ fault. fault ≡ faults.Memory };

    fn from(_error: AllocFailed<T>) -> Fault {
        Fault::Memory
    }
}

/// Reads the integer at the start of `octets`, and returns it and how many octets encode it.
pub(crate) fn int_at(prefix_bits: u8, octets: &[u8]) -> Result<(u64, usize), Fault>
    requires at_least { 1 ≤ prefix_bits }
    requires at_most { prefix_bits ≤ 8 }
    ensures ok { IfOk result (λ read. (read.1 ≤ length octets.now)
        × Int prefix_bits read.0 (take read.1 octets.now)) }
    ensures fault { IfErr result (PrefixFault (IsInt prefix_bits) octets.now) }
{
    let read = read_int(prefix_bits, octets)?;
    Ok(read)
}

/// Appends the text of the string at the start of `octets`, and returns how many octets encode it.
pub(crate) fn text_at(octets: &[u8], out: &mut Vec<u8>) -> Result<usize, Fault>
    ensures ok { IfOk result (λ count. (text : Items ℕ) × (out.new.items ≡ out.old.items ++ text)
        × (count ≤ length octets.now) × Str text (take count octets.now)) }
    ensures fault { IfErr result (PrefixFault IsStr octets.now) }
{
    let count = read_string_into(octets, out)?;
    Ok(count)
}
