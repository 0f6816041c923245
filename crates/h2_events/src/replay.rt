//! Replays an input to its end.

ghost use Rattle.std.specs.Prelude.{◌≡◌, ◌≢◌, ◌<◌, ◌++◌, length, [], None, true, Err, codes};
ghost use Rattle.std.specs.Prelude.{IfOk, OnOk, IfErr, IfSome};
ghost use Rattle.std.specs.Io.Buffered.{writer_buffer};
ghost use Rattle.std.specs.Io.KnownBytes.{Appends};
ghost use Rattle.h2_frame.specs.Codes.{name_of};
ghost use Rattle.h2_cli.specs.Hexadecimal.{IsBadHex};
ghost use Rattle.h2_events.specs.Replayer.{EndReplays, HandsPiece, ReplayErrorReports};
ghost use Rattle.h2_events.specs.Report.{ReplayReports, ReplayReportsInput, ReplayReportsOctets};
ghost use Rattle.h2_events.specs.Report.{ReplayReportsText, replay_status};

use crate::lines::write_out;
use crate::opening::Opening;
use crate::options::ReplayOptions;
use crate::replayer::{ReplayError, new_end, take_piece};
use h2_cli::{Failure, PIECE, Status, new_buffer, read_hex, read_next};
use h2_conn::{Conn, Role};
use h2_frame::Code;
use h2_show::{Hint, Shown};
use std::alloc::Global;
use std::io::{BufWriter, Read, Write};

/// How an input ended.
#[derive(Clone, Copy, Debug)]
struct Ended {
    /// The error code of a fault of the peer.
    fault: Option<Code>,
    /// What is likely wrong with the options or the input, if known.
    hint: Option<Hint>,
}

// contract: replay (own) The status is 0 only where an end took the whole input
// rule: replay (own) The status is 0 only where an end took the whole input
// contract: replay (own) The status is 1 only where that end has failed
/// Feeds the input to one endpoint of a new connection with the default configuration. Prints a
/// line for each event, with the fields of a block under its line, then a line for the fault
/// with which the connection fails, if it does, and then the output of the endpoint.
///
/// Returns [`Status::Good`] only if the endpoint took the whole input and has not failed, and
/// [`Status::Fault`] only if it failed with a code other than INTERNAL_ERROR, which means out of
/// memory. The pieces that the reader gives do not matter.
///
/// # Errors
///
/// [`Failure::Device`] if a read or a write failed, [`Failure::Memory`] if out of memory, and
/// [`Failure::BadHex`] if the input is not the hexadecimal text announced. What was printed
/// before is written in any case, unless a write fails; if the last write fails, the error is
/// [`Failure::Device`].
pub fn replay_input<R: Read, W: Write>(
    alloc: Global,
    options: ReplayOptions,
    input: &mut R,
    out: &mut W,
) -> Result<Shown, Failure>
    ensures reports { IfOk result (λ shown. IfSome (R.remaining input.old)
        (λ given. ReplayReportsInput options given shown.status)) }
    ensures bad_hex { result ≡ Err Failure.BadHex
        → (options.hex ≡ true) × IfSome (R.remaining input.old) IsBadHex }
{
    let mut lines = BufWriter::with_capacity(alloc, PIECE, out)?;
    let shown = replay_lines(alloc, options, input, &mut lines);
    // Only a failed write leaves something, and it is not written again.
    let _ = lines.into_parts();
    shown
}

// Replays the input, and flushes the buffer at its end.
fn replay_lines<R: Read, W: Write + Drop>(
    alloc: Global,
    options: ReplayOptions,
    input: &mut R,
    lines: &mut BufWriter<W>,
) -> Result<Shown, Failure>
    requires { writer_buffer lines.old ≡ [] }
    ensures reports { IfOk result (λ shown. IfSome (R.remaining input.old)
        (λ given. ReplayReportsInput options given shown.status)) }
    ensures bad_hex { result ≡ Err Failure.BadHex
        → (options.hex ≡ true) × IfSome (R.remaining input.old) IsBadHex }

    // What was printed is written, unless a write failed.
    ensures written { result ≢ Err Failure.Device → writer_buffer lines.new ≡ [] }
{
    let shown = if options.hex {
        replay_hex(alloc, options.role, input, lines)
    } else {
        replay_octets(alloc, options.role, input, lines)
    };
    if let Err(Failure::Device) = shown {
        return shown;
    }
    if lines.flush().is_err() {
        return Err(Failure::Device);
    }
    shown
}

// Replays binary input as it arrives.
fn replay_octets<R: Read, W: Write + Drop>(
    alloc: Global,
    role: Role,
    input: &mut R,
    lines: &mut BufWriter<W>,
) -> Result<Shown, Failure>
    requires { writer_buffer lines.old ≡ [] }
    ensures reports { IfOk result (λ shown. IfSome (R.remaining input.old)
        (λ octets. ReplayReportsOctets role octets shown.status)) }
    ensures bad_hex { result ≢ Err Failure.BadHex }
{
    let mut buffer = new_buffer(alloc)?;
    let mut conn = new_end(alloc, role)?;
    let ended = replay_pieces(role, &mut conn, input, &mut buffer, lines)?;
    finish(alloc, &mut conn, ended, lines)
}

// rule: replay (own) The status is 0 only where an end took the whole input
// rule: replay (own) The status is 1 only where that end has failed
// Replays pieces that fit the buffer, until the input ends or the connection fails. The lines of
// each are written before the next one is read.
fn replay_pieces<R: Read, W: Write + Drop>(
    role: Role,
    conn: &mut Conn,
    input: &mut R,
    buffer: &mut [u8],
    lines: &mut BufWriter<W>,
) -> Result<Ended, Failure>
    requires room { 0 < length buffer.old }
    requires written { writer_buffer lines.old ≡ [] }
    requires starts { EndReplays role [] conn.old }
    ensures reports { IfOk result (λ ended. IfSome (R.remaining input.old)
        (λ octets. ReplayReports role octets ended.fault)) }
    ensures bad_hex { result ≢ Err Failure.BadHex }
{
    let mut opening = Opening::new(role);
    for _ in 0..u64::MAX {
        let count = read_next(input, buffer, lines)?;
        if count == 0 {
            return Ok(Ended {
                fault: None,
                hint: None,
            });
        }
        let piece = &buffer[..count];
        match write_piece(conn, piece, lines) {
            Ok(()) => opening.advance(piece),
            Err(ReplayError::Fault(code)) => {
                return Ok(Ended {
                    fault: Some(code),
                    hint: opening.hint(piece),
                });
            }
            Err(ReplayError::Failed(failure)) => return Err(failure),
        }
    }
    Err(Failure::Device)
}

// rule (contract): replay (own) Each event has a line, written with its piece
// Replays a piece, and writes its lines.
fn write_piece<W: Write + Drop>(
    conn: &mut Conn,
    piece: &[u8],
    lines: &mut BufWriter<W>,
) -> Result<(), ReplayError>
    ensures ok { OnOk result (HandsPiece conn.old piece.now None conn.new) }
    ensures err { IfErr result (λ error. ReplayErrorReports conn.old piece.now error conn.new) }
    ensures written { OnOk result (writer_buffer lines.new ≡ []) }
{
    take_piece(conn, piece, lines)?;
    Ok(lines.flush()?)
}

// Replays hexadecimal input, after its text was read to the end.
fn replay_hex<R: Read, W: Write>(
    alloc: Global,
    role: Role,
    input: &mut R,
    out: &mut W,
) -> Result<Shown, Failure>
    ensures reports { IfOk result (λ shown. IfSome (R.remaining input.old)
        (λ text. ReplayReportsText role text shown.status)) }
    ensures bad_hex { result ≡ Err Failure.BadHex → IfSome (R.remaining input.old) IsBadHex }
{
    let octets = read_hex(alloc, input)?;
    replay_all(alloc, role, &octets, out)
}

// Replays the octets of an input all at once.
fn replay_all<W: Write>(
    alloc: Global,
    role: Role,
    octets: &[u8],
    out: &mut W,
) -> Result<Shown, Failure>
    ensures reports { IfOk result (λ shown. ReplayReportsOctets role octets.now shown.status) }
    ensures bad_hex { result ≢ Err Failure.BadHex }
{
    let mut conn = new_end(alloc, role)?;
    let ended = match take_piece(&mut conn, octets, out) {
        Ok(()) => Ended {
            fault: None,
            hint: None,
        },
        Err(ReplayError::Fault(code)) => Ended {
            fault: Some(code),
            hint: Opening::new(role).hint(octets).map(Hint::of_decoded),
        },
        Err(ReplayError::Failed(failure)) => return Err(failure),
    };
    finish(alloc, &mut conn, ended, out)
}

// rule: replay (own) The status is 1 only where that end has failed
// Prints the line of the fault, and then that of the output.
fn finish<W: Write>(
    alloc: Global,
    conn: &mut Conn,
    ended: Ended,
    out: &mut W,
) -> Result<Shown, Failure>
    ensures status { IfOk result (λ shown. shown.status ≡ replay_status ended.fault) }
    ensures bad_hex { result ≢ Err Failure.BadHex }
{
    let status = match ended.fault {
        Some(code) => write_fault(code, out)?,
        None => Status::Good,
    };
    write_out(alloc, conn, out)?;
    Ok(Shown {
        status,
        hint: ended.hint,
    })
}

// rule: replay (own) A fault of an end is printed with the name of its code
// Prints the line of a fault with this code.
fn write_fault<W: Write>(code: Code, out: &mut W) -> Result<Status, Failure>
    ensures status { IfOk result (λ status. status ≡ Status.Fault) }
    ensures line { IfOk result (λ status. Appends (W.contents out.old) (W.contents out.new)
        (codes "fault " ++ name_of code ++ codes "\n")) }
    ensures bad_hex { result ≢ Err Failure.BadHex }
{
    writeln!(out, "fault {code}")?;
    Ok(Status::Fault)
}
