//! Octets written in hexadecimal.

ghost use Rattle.std.specs.Prelude.{◌≡◌, IfOk, MatchResult, Ok};
ghost use Rattle.hex.specs.Hex.{decode_of};
ghost use Rattle.h2_cli.specs.Hexadecimal.{is_skipped_blank as blank, without_blanks};
ghost use Rattle.h2_cli.specs.Hexadecimal.{HexErrorReports, error_of_hex};
ghost use Rattle.h2_cli.specs.declared.hexadecimal.HexError.TheVariants.{Memory};

use hex::FromHexError;
use std::alloc::{AllocError, Global};
use thiserror::Error;

/// Why a text is not read as hexadecimal.
#[derive(Clone, Copy, Debug, PartialEq, Eq, Hash, Error)]
pub enum HexError {
    /// It has an octet that is neither a blank nor a hexadecimal digit, or an odd number of digits.
    #[error("bad hex")]
    BadHex,
    /// Out of memory.
    #[error("out of memory")]
    Memory,
}

impl From<AllocError> for HexError {
    ghost from_gives = { λ _ error. error ≡ Memory };

    fn from(_error: AllocError) -> HexError {
        HexError::Memory
    }
}

impl From<FromHexError> for HexError {
    ghost from_gives = { λ fault error. error ≡ error_of_hex fault };

    fn from(fault: FromHexError) -> HexError {
        match fault {
            FromHexError::OutOfMemory => HexError::Memory,
            _ => HexError::BadHex,
        }
    }
}

// rule: show (own) Hexadecimal is read without its blanks; other text is refused
/// Decodes hexadecimal text, two digits an octet, in upper or lower case. Blanks are ignored:
/// spaces, tabs, line feeds and carriage returns.
///
/// # Errors
///
/// [`HexError::BadHex`] if the text without blanks is not hexadecimal, and [`HexError::Memory`]
/// if out of memory.
pub fn from_hex(alloc: Global, text: &[u8]) -> Result<Vec<u8>, HexError>
    ensures { MatchResult result
        (λ octets. decode_of (without_blanks text.now) ≡ Ok octets.items)
        (HexErrorReports text.now) }
{
    let digits = digits_of(alloc, text)?;
    let octets = hex::decode(alloc, digits.as_slice())?;
    Ok(octets)
}

// The text without its blanks.
fn digits_of(alloc: Global, text: &[u8]) -> Result<Vec<u8>, AllocError>
    ensures { IfOk result (λ digits. digits.items ≡ without_blanks text.now) }
{
    text.iter()
        .copied()
        .filter(|octet| !is_blank(*octet))
        .collect(alloc)
}

// rule: show (own) Hexadecimal is read without its blanks; other text is refused
/// Whether an octet is a blank: a space, a tab, a line feed or a carriage return.
pub fn is_blank(octet: u8) -> bool
    ensures { result ≡ blank octet }
{
    matches!(octet, b' ' | b'\t' | b'\n' | b'\r')
}
