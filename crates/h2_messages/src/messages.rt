//! Feeds an input to a client or a server to its end.

ghost use Rattle.std.specs.Prelude.{◌≡◌, ◌≢◌, ◌<◌, ◌++◌, ℕ, List, length, [], None, true, Err};
ghost use Rattle.std.specs.Prelude.{IfOk, OnOk, IfErr, IfSome};
ghost use Rattle.std.specs.Io.Buffered.{writer_buffer, writer_contents};
ghost use Rattle.std.specs.Io.KnownBytes.{Appends};
ghost use Rattle.h2_cli.specs.Hexadecimal.{IsBadHex};
ghost use Rattle.h2_ends.specs.Represents.{new_end_log};
ghost use Rattle.h2_events.specs.Replayer.{first_values};
ghost use Rattle.h2_events.specs.Report.{replay_status};
ghost use Rattle.h2_messages.specs.Messages.{MessagesReport, MessagesOfInput, MessagesOfOctets};
ghost use Rattle.h2_messages.specs.Messages.{MessagesOfText, fault_lines, output_line};
ghost use Rattle.h2_messages.specs.Taking.{MessageEndRepresents, TakesGivenPiece};
ghost use Rattle.h2_messages.specs.Taking.{TakeErrorReports};

use crate::end::MessageEnd;
use crate::output::write_output;
use crate::taking::{TakeError, take_piece};
use h2_cli::{Failure, PIECE, Status, new_buffer, read_hex, read_next};
use h2_conn::Role;
use h2_ends::{Code, Why};
use h2_events::{Opening, ReplayOptions};
use h2_show::{Hint, Lent};
use std::alloc::Global;
use std::io::{BufWriter, Read, Write};

/// The result of feeding an input to a client or a server.
#[derive(Clone, Copy, Debug, PartialEq, Eq)]
pub struct Replayed {
    /// How the command ends: [`Status::Good`] or [`Status::Fault`].
    pub status: Status,
    /// What is likely wrong with the options or the input, if known.
    pub hint: Option<Hint>,
    /// Why the connection failed, if the status is [`Status::Fault`].
    pub why: Option<Why>,
}

/// How an input ended.
#[derive(Clone, Copy, Debug)]
struct Ended {
    /// The error code of a fault of the peer.
    fault: Option<Code>,
    /// What is likely wrong with the options or the input, if known.
    hint: Option<Hint>,
    /// Why the connection failed.
    why: Option<Why>,
}

// contract: messages (own) What is handed out has the line that replay prints of it
// contract: messages (own) A part that is refused has a line with its stream and its rule
// contract: messages (own) Each call of take has its lines, until the input is used
// contract: messages (own) The status is 0 only where a client or a server took it all
// rule: messages (own) The status is 0 only where a client or a server took it all
// contract: messages (own) The status is 1 only where its connection has failed
// contract: messages (own) The last line is what the end puts out, in hexadecimal
/// Feeds the input to a new client or server with the default configuration. Prints a line for
/// each event and for each part of a message that breaks a rule, with the stream and the rule;
/// then a line for the fault with which the connection fails, if it does; and then the output of
/// the endpoint.
///
/// Returns [`Status::Good`] only if the endpoint took the whole input and has not failed,
/// whatever parts it refused, and [`Status::Fault`] only if it failed with a code other than
/// INTERNAL_ERROR, which means out of memory. The pieces that the reader gives do not matter.
///
/// # Errors
///
/// [`Failure::Device`] if a read or a write failed, [`Failure::Memory`] if out of memory, and
/// [`Failure::BadHex`] if the input is not the hexadecimal text announced. What was printed
/// before is written in any case, unless a write fails; if the last write fails, the error is
/// [`Failure::Device`].
pub fn messages_input<R: Read, W: Write>(
    alloc: Global,
    options: ReplayOptions,
    input: &mut R,
    out: &mut W,
) -> Result<Replayed, Failure>
    ensures prints { IfOk result (λ one. IfSome (R.remaining input.old) (λ given.
        (output : List ℕ) × MessagesOfInput options given one.status one.why output
        × Appends (W.contents out.old) (W.contents out.new) output)) }
    ensures bad_hex { result ≡ Err Failure.BadHex
        → (options.hex ≡ true) × IfSome (R.remaining input.old) IsBadHex }
{
    let mut lines = BufWriter::with_capacity(alloc, PIECE, Lent { out })?;
    let replayed = replay_lines(alloc, options, input, &mut lines);
    // Only a failed write leaves something, and it is not written again.
    let (lent, _) = lines.into_parts();
    let Lent { out: written } = lent;
    // No effect at run time. The proof reads what `out` holds from this use of `written`.
    let _ = &*written;
    replayed
}

// Feeds the input to an endpoint, and flushes the buffer at the end.
fn replay_lines<R: Read, W: Write + Drop>(
    alloc: Global,
    options: ReplayOptions,
    input: &mut R,
    lines: &mut BufWriter<W>,
) -> Result<Replayed, Failure>
    requires { writer_buffer lines.old ≡ [] }
    ensures prints { IfOk result (λ one. IfSome (R.remaining input.old) (λ given.
        (output : List ℕ) × MessagesOfInput options given one.status one.why output
        × Appends (writer_contents W.contents lines.old) (writer_contents W.contents lines.new)
        output)) }
    ensures bad_hex { result ≡ Err Failure.BadHex
        → (options.hex ≡ true) × IfSome (R.remaining input.old) IsBadHex }

    // What was printed is written, unless a write failed.
    ensures written { result ≢ Err Failure.Device → writer_buffer lines.new ≡ [] }
{
    let replayed = replay_given(alloc, options, input, lines);
    if let Err(Failure::Device) = replayed {
        return replayed;
    }
    if lines.flush().is_err() {
        return Err(Failure::Device);
    }
    replayed
}

// Feeds the input to an endpoint, with its lines into the buffer.
fn replay_given<R: Read, W: Write + Drop>(
    alloc: Global,
    options: ReplayOptions,
    input: &mut R,
    lines: &mut BufWriter<W>,
) -> Result<Replayed, Failure>
    requires { writer_buffer lines.old ≡ [] }
    ensures prints { IfOk result (λ one. IfSome (R.remaining input.old) (λ given.
        (output : List ℕ) × MessagesOfInput options given one.status one.why output
        × Appends (writer_contents W.contents lines.old) (writer_contents W.contents lines.new)
        output)) }
    ensures bad_hex { result ≡ Err Failure.BadHex
        → (options.hex ≡ true) × IfSome (R.remaining input.old) IsBadHex }
{
    if options.hex {
        return replay_hex(alloc, options.role, input, lines);
    }
    replay_octets(alloc, options.role, input, lines)
}

// Feeds binary input to an endpoint as it arrives.
fn replay_octets<R: Read, W: Write + Drop>(
    alloc: Global,
    role: Role,
    input: &mut R,
    lines: &mut BufWriter<W>,
) -> Result<Replayed, Failure>
    requires { writer_buffer lines.old ≡ [] }
    ensures prints { IfOk result (λ one. IfSome (R.remaining input.old) (λ octets.
        (output : List ℕ) × MessagesOfOctets role octets one.status one.why output
        × Appends (writer_contents W.contents lines.old) (writer_contents W.contents lines.new)
        output)) }
    ensures bad_hex { result ≢ Err Failure.BadHex }
{
    let mut buffer = new_buffer(alloc)?;
    let mut end = MessageEnd::new(alloc, role)?;
    let replayed = hand_pieces(alloc, role, &mut end, input, &mut buffer, lines);
    drop(end);
    replayed
}

// Feeds pieces that fit the buffer to a new endpoint, and then finishes.
fn hand_pieces<R: Read, W: Write + Drop>(
    alloc: Global,
    role: Role,
    end: &mut MessageEnd,
    input: &mut R,
    buffer: &mut [u8],
    lines: &mut BufWriter<W>,
) -> Result<Replayed, Failure>
    requires room { 0 < length buffer.old }
    requires written { writer_buffer lines.old ≡ [] }
    requires starts { MessageEndRepresents end.old (new_end_log role first_values) }
    ensures prints { IfOk result (λ one. IfSome (R.remaining input.old) (λ octets.
        (output : List ℕ) × MessagesOfOctets role octets one.status one.why output
        × Appends (writer_contents W.contents lines.old) (writer_contents W.contents lines.new)
        output)) }
    ensures bad_hex { result ≢ Err Failure.BadHex }
{
    let ended = replay_pieces(role, end, input, buffer, lines)?;
    finish(alloc, end, ended, lines)
}

// rule: messages (own) The status is 1 only where its connection has failed
// Feeds pieces that fit the buffer to an endpoint, until the input ends or the connection fails.
// The lines of each are written before the next one is read.
fn replay_pieces<R: Read, W: Write + Drop>(
    role: Role,
    end: &mut MessageEnd,
    input: &mut R,
    buffer: &mut [u8],
    lines: &mut BufWriter<W>,
) -> Result<Ended, Failure>
    requires room { 0 < length buffer.old }
    requires written { writer_buffer lines.old ≡ [] }
    requires starts { MessageEndRepresents end.old (new_end_log role first_values) }
    ensures prints { IfOk result (λ ended. IfSome (R.remaining input.old) (λ octets.
        (printed : List ℕ) × MessagesReport role octets ended.fault ended.why printed
        × Appends (writer_contents W.contents lines.old) (writer_contents W.contents lines.new)
        printed)) }
    ensures bad_hex { result ≢ Err Failure.BadHex }
{
    let mut opening = Opening::new(role);
    for _ in 0..u64::MAX {
        let count = read_next(input, buffer, lines)?;
        if count == 0 {
            return Ok(Ended {
                fault: None,
                hint: None,
                why: None,
            });
        }
        let piece = &buffer[..count];
        match write_piece(end, piece, lines) {
            Ok(()) => opening.advance(piece),
            Err(TakeError::Fault(code)) => {
                return Ok(Ended {
                    fault: Some(code),
                    hint: opening.hint(piece),
                    why: end.why(),
                });
            }
            Err(TakeError::Failed(failure)) => return Err(failure),
        }
    }
    Err(Failure::Device)
}

// Feeds a piece to an endpoint, and writes its lines.
fn write_piece<W: Write + Drop>(
    end: &mut MessageEnd,
    piece: &[u8],
    lines: &mut BufWriter<W>,
) -> Result<(), TakeError>
    ensures ok { OnOk result (TakesGivenPiece end.old piece.now None end.new
        (writer_contents W.contents lines.old) (writer_contents W.contents lines.new)) }
    ensures err { IfErr result (λ error. TakeErrorReports end.old piece.now error end.new
        (writer_contents W.contents lines.old) (writer_contents W.contents lines.new)) }
    ensures written { OnOk result (writer_buffer lines.new ≡ []) }
{
    take_piece(end, piece, lines)?;
    lines.flush()?;
    Ok(())
}

// Feeds hexadecimal input to an endpoint, after its text was read to the end.
fn replay_hex<R: Read, W: Write>(
    alloc: Global,
    role: Role,
    input: &mut R,
    out: &mut W,
) -> Result<Replayed, Failure>
    ensures prints { IfOk result (λ one. IfSome (R.remaining input.old) (λ text.
        (output : List ℕ) × MessagesOfText role text one.status one.why output
        × Appends (W.contents out.old) (W.contents out.new) output)) }
    ensures bad_hex { result ≡ Err Failure.BadHex → IfSome (R.remaining input.old) IsBadHex }
{
    let octets = read_hex(alloc, input)?;
    replay_all(alloc, role, &octets, out)
}

// Feeds octets to an endpoint all at once.
fn replay_all<W: Write>(
    alloc: Global,
    role: Role,
    octets: &[u8],
    out: &mut W,
) -> Result<Replayed, Failure>
    ensures prints { IfOk result (λ one. (output : List ℕ)
        × MessagesOfOctets role octets.now one.status one.why output
        × Appends (W.contents out.old) (W.contents out.new) output) }
    ensures bad_hex { result ≢ Err Failure.BadHex }
{
    let mut end = MessageEnd::new(alloc, role)?;
    let replayed = hand_all(alloc, role, &mut end, octets, out);
    drop(end);
    replayed
}

// Feeds octets to a new endpoint all at once, and then finishes.
fn hand_all<W: Write>(
    alloc: Global,
    role: Role,
    end: &mut MessageEnd,
    octets: &[u8],
    out: &mut W,
) -> Result<Replayed, Failure>
    requires { MessageEndRepresents end.old (new_end_log role first_values) }
    ensures prints { IfOk result (λ one. (output : List ℕ)
        × MessagesOfOctets role octets.now one.status one.why output
        × Appends (W.contents out.old) (W.contents out.new) output) }
    ensures bad_hex { result ≢ Err Failure.BadHex }
{
    let ended = match take_piece(end, octets, out) {
        Ok(()) => Ended {
            fault: None,
            hint: None,
            why: None,
        },
        Err(TakeError::Fault(code)) => Ended {
            fault: Some(code),
            hint: Opening::new(role).hint(octets).map(Hint::of_decoded),
            why: end.why(),
        },
        Err(TakeError::Failed(failure)) => return Err(failure),
    };
    finish(alloc, end, ended, out)
}

// rule: messages (own) The last line is what the end puts out, in hexadecimal
// Prints the line of the fault, and then that of the output.
fn finish<W: Write>(
    alloc: Global,
    end: &mut MessageEnd,
    ended: Ended,
    out: &mut W,
) -> Result<Replayed, Failure>
    ensures status { IfOk result (λ one. one.status ≡ replay_status ended.fault) }
    ensures why { IfOk result (λ one. one.why ≡ ended.why) }
    ensures written { IfOk result (λ one. (put_out : List ℕ)
        × Appends (W.contents out.old) (W.contents out.new)
        (fault_lines ended.fault ++ output_line put_out)) }
    ensures bad_hex { result ≢ Err Failure.BadHex }
{
    let status = write_fault(ended.fault, out)?;
    write_output(alloc, end, out)?;
    Ok(Replayed {
        status,
        hint: ended.hint,
        why: ended.why,
    })
}

// rule: messages (own) The status is 1 only where its connection has failed
// Prints the line of a fault with this code, if there is one.
fn write_fault<W: Write>(fault: Option<Code>, out: &mut W) -> Result<Status, Failure>
    ensures status { IfOk result (λ status. status ≡ replay_status fault) }
    ensures line { OnOk result (Appends (W.contents out.old) (W.contents out.new)
        (fault_lines fault)) }
    ensures bad_hex { result ≢ Err Failure.BadHex }
{
    match fault {
        Some(code) => {
            writeln!(out, "fault {code}")?;
            Ok(Status::Fault)
        }
        None => Ok(Status::Good),
    }
}
