//! Faults of HPACK's integers and strings.

ghost use Rattle.std.specs.Prelude.{◌≡◌};

use std::alloc::AllocError;
use thiserror::Error;

/// Why an integer or a string cannot be read or written.
#[derive(Clone, Copy, Debug, PartialEq, Eq, Hash, Error)]
pub enum TextFault {
    /// X1: the octets end inside an integer or a string.
    #[error("X1 Truncated: the input ends inside an integer or a string")]
    Truncated,
    /// X2: the fifth continuation octet of an integer has its top bit set.
    #[error("X2 TooLong: an integer has more than five continuation octets")]
    TooLong,
    /// X3: the last symbol of a Huffman-encoded string is followed by more than seven bits, or
    /// by bits that are not all ones.
    #[error("X3 BadPadding: a Huffman-encoded string isn't padded with at most seven ones")]
    BadPadding,
    /// X4: a Huffman-encoded string contains the code of the EOS symbol.
    #[error("X4 EndSymbol: a Huffman-encoded string contains the EOS symbol")]
    EndSymbol,
    /// X5: an allocation was refused.
    #[error("X5 Memory: out of memory")]
    Memory,
}

impl From<AllocError> for TextFault {
    ghost use Rattle.hpack_text.specs.declared.fault.TextFault.TheVariants.{Memory};

    ghost from_gives = { λ _ fault. fault ≡ Memory };

    fn from(_error: AllocError) -> TextFault {
        TextFault::Memory
    }
}
