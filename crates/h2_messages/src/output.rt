//! Prints the output of an endpoint.

ghost use Rattle.std.specs.Prelude.{◌≢◌, ℕ, List, Err, OnOk};
ghost use Rattle.std.specs.Io.KnownBytes.{Appends};
ghost use Rattle.h2_messages.specs.Messages.{output_line};

use crate::end::MessageEnd;
use h2_cli::{Failure, PIECE};
use std::alloc::Global;
use std::io::Write;

// rule: messages (own) The last line is what the end puts out, in hexadecimal
/// Prints the line of all queued output, taking it in pieces.
///
/// # Errors
///
/// [`Failure::Device`] if a write failed, and [`Failure::Memory`] if out of memory.
pub(crate) fn write_output<W: Write>(
    alloc: Global,
    end: &mut MessageEnd,
    out: &mut W,
) -> Result<(), Failure>
    ensures line { OnOk result ((octets : List ℕ)
        × Appends (W.contents out.old) (W.contents out.new) (output_line octets)) }
    ensures bad_hex { result ≢ Err Failure.BadHex }
{
    out.write_all(b"out ")?;
    let mut octets = Vec::new(alloc);
    for _ in 0..u64::MAX {
        match end.put_out(PIECE, &mut octets) {
            Ok(0) => break,
            Ok(_) => {}
            Err(_) => return Err(Failure::Memory),
        }
        let text = hex::encode(alloc, octets.as_slice())?;
        out.write_all(text.as_bytes())?;
        octets.clear();
    }
    out.write_all(b"\n")?;
    Ok(())
}
