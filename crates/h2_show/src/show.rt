//! Shows an input to its end.

ghost use Rattle.std.specs.Prelude.{◌≡◌, ◌≢◌, ◌<◌, ℕ, List, length, [], true, Err};
ghost use Rattle.std.specs.Prelude.{◌∷◌, option_map, IfOk, OnOk, IfErr, IfSome};
ghost use Rattle.std.specs.Io.Buffered.{writer_buffer, writer_contents};
ghost use Rattle.std.specs.Io.KnownBytes.{Appends};
ghost use Rattle.h2_cli.specs.Hexadecimal.{IsBadHex};
ghost use Rattle.h2_show.specs.Printed.{ViewerPrints, ViewerFailsWith, ShowsAfter, ShowsText};
ghost use Rattle.h2_show.specs.Report.{StatusReportsOctets, StatusReportsText, StatusReportsInput};
ghost use Rattle.h2_show.specs.Shown.{ShowsOctets, ShowsInput};
ghost use Rattle.h2_show.specs.ShownLines.{ShowLine};
ghost use Rattle.h2_show.specs.Styles.{AppendsLines, text_from};
ghost use Rattle.h2_show.specs.Viewer.{ViewerContinues, ViewerFails, StatusReportsAfter};
ghost use Rattle.h2_show.specs.Viewer.{IsStreamFault};

use crate::hint::Hint;
use crate::options::ShowOptions;
use crate::viewer::{ShowError, Viewer};
use h2_cli::{Failure, PIECE, Status, new_buffer, read_hex, read_next};
use std::alloc::Global;
use std::io::{self, BufWriter, ErrorKind, Read, Write};

/// The result of showing or replaying an input.
#[derive(Clone, Copy, Debug, PartialEq, Eq)]
pub struct Shown {
    /// How the command ends: [`Status::Good`] or [`Status::Fault`].
    pub status: Status,
    /// What is likely wrong with the options or the input, if known.
    pub hint: Option<Hint>,
}

/// A borrowed writer. std does not state that a reference inside a `BufWriter` stays the same,
/// and the contract of [`show_input`] speaks of the writer's contents.
#[derive(Drop)]
pub struct Lent<'a, W> {
    /// The writer.
    pub out: &'a mut W,
}

impl<W: Write> Write for Lent<'_, W> {
    // The name of the reference precedes the octets, so what is appended says that it is the same.
    ghost contents = { λ lent. option_map (λ known. lent.out.ghost_name ∷ known)
        (W.contents lent.out.now) };

    fn write(&mut self, octets: &[u8]) -> io::Result<usize> {
        self.out.write(octets)
    }

    fn flush(&mut self) -> io::Result<()> {
        self.out.flush()
    }

    fn write_all(&mut self, octets: &[u8]) -> io::Result<()> {
        self.out.write_all(octets)
    }
}

// rule: show (own) The status is 0 only where the input is good to its end
// contract: show (own) The status is 1 only where the stream is cut off or at fault
// contract: show (own) The words choose the limit of payloads
// contract: show (own) An input has one output: preface, frames, then how it ends
// rule: show (own) An input has one output: preface, frames, then how it ends
// contract: show (own) Settings and error codes have their names where words ask for them
// contract: show (own) A frame's place is the number of its first octet, in ten digits
// contract: show (own) Colors begin and end within each line
// contract: show (own) With --json each line is a JSON object
// contract: show (own) With --json octets that are not UTF-8 are in hexadecimal under another key
/// Shows the input: a line for each frame, the fields of a block under the frame that ends it,
/// and then a line for the fault that ends the stream, or for what the end of the input leaves
/// unfinished.
///
/// Returns [`Status::Good`] only if the input is empty, or complete frames and field blocks,
/// after the preface for a client; [`Status::Fault`] only if it has a fault, or ends inside the
/// preface, a frame or a block. The pieces that the reader gives do not matter.
///
/// # Errors
///
/// [`Failure::Device`] if a read or a write failed, [`Failure::Memory`] if out of memory, and
/// [`Failure::BadHex`] if the input is not the hexadecimal text announced. What was printed
/// before is written in any case, unless a write fails; if the last write fails, the error is
/// [`Failure::Device`].
pub fn show_input<R: Read, W: Write>(
    alloc: Global,
    options: ShowOptions,
    input: &mut R,
    out: &mut W,
) -> Result<Shown, Failure>
    ensures reports { IfOk result (λ shown. IfSome (R.remaining input.old)
        (λ given. StatusReportsInput options given shown.status)) }
    ensures bad_hex { result ≡ Err Failure.BadHex
        → (options.hex ≡ true) × IfSome (R.remaining input.old) IsBadHex }
    ensures shows { IfOk result (λ shown. IfSome (R.remaining input.old) (λ given.
        (lines : List ℕ) × ShowsInput options given shown.status lines
        × Appends (W.contents out.old) (W.contents out.new) lines)) }
{
    let mut lines = BufWriter::with_capacity(alloc, PIECE, Lent { out })?;
    let shown = show_lines(alloc, options, input, &mut lines);
    // Only a failed write leaves something, and it is not written again.
    let (lent, _) = lines.into_parts();
    let Lent { out: written } = lent;
    // No effect at run time. The proof reads what `out` holds from this use of `written`.
    let _ = &*written;
    shown
}

// contract: show (own) Lines are written before the next read and before the end
// rule: show (own) Lines are written before the next read and before the end
// Shows the input, and flushes the buffer at its end.
fn show_lines<R: Read, W: Write + Drop>(
    alloc: Global,
    options: ShowOptions,
    input: &mut R,
    lines: &mut BufWriter<W>,
) -> Result<Shown, Failure>
    requires { writer_buffer lines.old ≡ [] }
    ensures reports { IfOk result (λ shown. IfSome (R.remaining input.old)
        (λ given. StatusReportsInput options given shown.status)) }
    ensures bad_hex { result ≡ Err Failure.BadHex
        → (options.hex ≡ true) × IfSome (R.remaining input.old) IsBadHex }

    // What was printed is written, unless a write failed.
    ensures written { result ≢ Err Failure.Device → writer_buffer lines.new ≡ [] }
    ensures shows { IfOk result (λ shown. IfSome (R.remaining input.old) (λ given.
        (printed : List ℕ) × ShowsInput options given shown.status printed
        × Appends (writer_contents W.contents lines.old) (writer_contents W.contents lines.new)
        printed)) }
{
    let shown = show_given(alloc, options, input, lines);
    if let Err(Failure::Device) = shown {
        return shown;
    }
    if lines.flush().is_err() {
        return Err(Failure::Device);
    }
    shown
}

// rule: show (own) An input has one output: preface, frames, then how it ends
// Shows the input, into the buffer.
fn show_given<R: Read, W: Write + Drop>(
    alloc: Global,
    options: ShowOptions,
    input: &mut R,
    lines: &mut BufWriter<W>,
) -> Result<Shown, Failure>
    requires { writer_buffer lines.old ≡ [] }
    ensures reports { IfOk result (λ shown. IfSome (R.remaining input.old)
        (λ given. StatusReportsInput options given shown.status)) }
    ensures bad_hex { result ≡ Err Failure.BadHex
        → (options.hex ≡ true) × IfSome (R.remaining input.old) IsBadHex }
    ensures shows { IfOk result (λ shown. IfSome (R.remaining input.old) (λ given.
        (printed : List ℕ) × ShowsInput options given shown.status printed
        × Appends (writer_contents W.contents lines.old) (writer_contents W.contents lines.new)
        printed)) }
{
    if options.hex {
        return show_hex(alloc, options, input, lines);
    }
    Ok(show_octets(alloc, options, input, lines)?)
}

// rule: show (own) An input has one output: preface, frames, then how it ends
// Shows binary input as it arrives.
fn show_octets<R: Read, W: Write + Drop>(
    alloc: Global,
    options: ShowOptions,
    input: &mut R,
    lines: &mut BufWriter<W>,
) -> io::Result<Shown>
    requires { writer_buffer lines.old ≡ [] }
    ensures reports { IfOk result (λ shown. IfSome (R.remaining input.old)
        (λ octets. StatusReportsOctets options octets shown.status)) }
    ensures shows { IfOk result (λ shown. IfSome (R.remaining input.old) (λ octets.
        (printed : List ℕ) × ShowsOctets options octets shown.status printed
        × Appends (writer_contents W.contents lines.old) (writer_contents W.contents lines.new)
        printed)) }
{
    let mut buffer = new_buffer(alloc)?;
    let mut viewer = Viewer::new(alloc, options)?;
    show_pieces(&mut viewer, input, &mut buffer, lines)
}

// rule: show (own) An input has one output: preface, frames, then how it ends
// Shows pieces that fit the buffer, until the input ends. The lines of each are written before
// the next one is read.
fn show_pieces<R: Read, W: Write + Drop>(
    viewer: &mut Viewer,
    input: &mut R,
    buffer: &mut [u8],
    lines: &mut BufWriter<W>,
) -> io::Result<Shown>
    requires room { 0 < length buffer.old }
    requires written { writer_buffer lines.old ≡ [] }

    // The status is for all octets of the input, whatever pieces the reader gave.
    ensures reports { IfOk result (λ shown. IfSome (R.remaining input.old)
        (λ octets. StatusReportsAfter viewer.old.cutter viewer.old.blocks octets shown.status)) }
    ensures shows { IfOk result (λ shown. IfSome (R.remaining input.old) (λ octets.
        (printed : List ShowLine) × ShowsAfter viewer.old.cutter viewer.old.blocks
        viewer.old.printer.is_due octets shown.status printed
        × Appends (writer_contents W.contents lines.old) (writer_contents W.contents lines.new)
        (text_from viewer.old.printer.style viewer.old.printer.next printed))) }
{
    for _ in 0..u64::MAX {
        let count = read_next(input, buffer, lines)?;
        if count == 0 {
            let status = viewer.show_end(lines)?;
            return Ok(Shown { status, hint: None });
        }
        let piece = &buffer[..count];
        match write_piece(viewer, piece, lines) {
            Ok(()) => {}
            Err(error) => {
                let hint = Hint::for_octets(&error, piece, viewer.place());
                let status = viewer.show_error(error, lines)?;
                return Ok(Shown { status, hint });
            }
        }
    }
    Err(io::Error::from(ErrorKind::Other))
}

// contract: show (own) Lines are written before the next read and before the end
// rule: show (own) Lines are written before the next read and before the end
// Shows a piece, and writes its lines.
fn write_piece<W: Write + Drop>(
    viewer: &mut Viewer,
    piece: &[u8],
    lines: &mut BufWriter<W>,
) -> Result<(), ShowError>
    ensures ok { OnOk result (ViewerContinues viewer.old.cutter viewer.old.blocks piece.now
        viewer.new.cutter viewer.new.blocks) }
    ensures err { IfErr result (λ error. ViewerFails viewer.old.cutter viewer.old.blocks piece.now
        error viewer.new.cutter) }
    ensures written { OnOk result (writer_buffer lines.new ≡ []) }
    ensures shown { OnOk result ((printed : List ShowLine)
        × AppendsLines viewer.old.printer.style viewer.old.printer.next viewer.new.printer.next
        (writer_contents W.contents lines.old) (writer_contents W.contents lines.new) printed
        × ViewerPrints viewer.old.cutter viewer.old.blocks viewer.old.printer.is_due piece.now
        viewer.new.cutter viewer.new.blocks viewer.new.printer.is_due printed) }
    ensures fault { IfErr result (λ error. IsStreamFault error → (printed : List ShowLine)
        × AppendsLines viewer.old.printer.style viewer.old.printer.next viewer.new.printer.next
        (writer_contents W.contents lines.old) (writer_contents W.contents lines.new) printed
        × ViewerFailsWith viewer.old.cutter viewer.old.blocks viewer.old.printer.is_due piece.now
        error viewer.new.cutter viewer.new.printer.is_due printed) }
    ensures style { viewer.new.printer.style ≡ viewer.old.printer.style }
{
    viewer.show_piece(piece, lines)?;
    Ok(lines.flush()?)
}

// Shows hexadecimal input, after its text was read to the end.
fn show_hex<R: Read, W: Write>(
    alloc: Global,
    options: ShowOptions,
    input: &mut R,
    out: &mut W,
) -> Result<Shown, Failure>
    ensures reports { IfOk result (λ shown. IfSome (R.remaining input.old)
        (λ text. StatusReportsText options text shown.status)) }
    ensures shows { IfOk result (λ shown. IfSome (R.remaining input.old) (λ text.
        (printed : List ℕ) × ShowsText options text shown.status printed
        × Appends (W.contents out.old) (W.contents out.new) printed)) }
    ensures bad_hex { result ≡ Err Failure.BadHex → IfSome (R.remaining input.old) IsBadHex }
{
    let octets = read_hex(alloc, input)?;
    let shown = show_all(alloc, options, &octets, out)?;
    Ok(shown)
}

// Shows the octets of an input all at once.
fn show_all<W: Write>(
    alloc: Global,
    options: ShowOptions,
    octets: &[u8],
    out: &mut W,
) -> io::Result<Shown>
    ensures reports { IfOk result (λ shown. StatusReportsOctets options octets.now shown.status) }
    ensures shows { IfOk result (λ shown. (printed : List ℕ)
        × ShowsOctets options octets.now shown.status printed
        × Appends (W.contents out.old) (W.contents out.new) printed) }
{
    let mut viewer = Viewer::new(alloc, options)?;
    match viewer.show_piece(octets, out) {
        Ok(()) => {
            let status = viewer.show_end(out)?;
            Ok(Shown { status, hint: None })
        }
        Err(error) => {
            let hint = Hint::for_octets(&error, octets, viewer.place()).map(Hint::of_decoded);
            let status = viewer.show_error(error, out)?;
            Ok(Shown { status, hint })
        }
    }
}
