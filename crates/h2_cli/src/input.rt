//! Reads an input, in pieces or as hexadecimal text.

ghost use Rattle.std.specs.Prelude.{◌≡◌, ◌<◌, ◌≤◌, [], length, take, vec_len, Ok, Err, IfOk};
ghost use Rattle.std.specs.Prelude.{IfSome};
ghost use Rattle.std.specs.Io.Buffered.{writer_buffer};
ghost use Rattle.std.specs.Io.KnownBytes.{Consumes, IsAtEnd};
ghost use Rattle.hex.specs.Hex.{decode_of};
ghost use Rattle.h2_cli.specs.Hexadecimal.{IsBadHex, without_blanks};

use crate::failure::Failure;
use crate::hexadecimal::from_hex;
use h2_link::read_some;
use std::alloc::{AllocError, Global};
use std::io::{self, BufWriter, Read, Write};

/// The number of octets per read, and of the output buffer.
pub const PIECE: usize = 65_536;

/// Returns a buffer for a piece: [`PIECE`] zeros.
///
/// # Errors
///
/// [`AllocError`] if out of memory.
pub fn new_buffer(alloc: Global) -> Result<Vec<u8>, AllocError>
    ensures { IfOk result (λ octets. vec_len octets ≡ 65536) }
{
    vec![in alloc; 0u8; PIECE]
}

// contract: show (own) Lines are written before the next read and before the end
// rule: show (own) Lines are written before the next read and before the end
/// Reads the next piece. All lines printed so far must have been written, so that none is held
/// back while a read waits.
///
/// # Errors
///
/// Those of the reader.
pub fn read_next<R: Read, W: Write + Drop>(
    input: &mut R,
    buffer: &mut [u8],
    lines: &BufWriter<W>,
) -> io::Result<usize>
    requires written { writer_buffer lines.now ≡ [] }
    ensures bound { IfOk result (λ count. count ≤ length buffer.new) }
    ensures octets { IfOk result (λ count.
        Consumes (R.remaining input.old) (R.remaining input.new) (take count buffer.new)) }
    ensures end { IfOk result (λ count.
        count ≡ 0 → 0 < length buffer.old → IsAtEnd (R.remaining input.new)) }
{
    prove!(lines.buffer().is_empty());
    read_some(input, buffer)
}

// rule: show (own) Hexadecimal is read without its blanks; other text is refused
/// Reads hexadecimal text to its end, and returns its octets.
///
/// # Errors
///
/// [`Failure::BadHex`] if the text is not hexadecimal, [`Failure::Device`] if a read failed, and
/// [`Failure::Memory`] if out of memory.
pub fn read_hex<R: Read>(alloc: Global, input: &mut R) -> Result<Vec<u8>, Failure>
    ensures octets { IfOk result (λ octets. IfSome (R.remaining input.old)
        (λ text. decode_of (without_blanks text) ≡ Ok octets.items)) }
    ensures bad_hex { result ≡ Err Failure.BadHex → IfSome (R.remaining input.old) IsBadHex }
{
    let mut text = Vec::new(alloc);
    input.read_to_end(&mut text)?;
    let octets = from_hex(alloc, &text)?;
    Ok(octets)
}
