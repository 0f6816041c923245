//! Prints a response, as the options of `get` ask.

ghost use Rattle.std.specs.Prelude.{◌≡◌, IfErr, OnOk, Some};
ghost use Rattle.std.specs.Io.KnownBytes.{Appends};
ghost use Rattle.h2_message.specs.Fields.{status_of};
ghost use Rattle.h2_args.specs.Words.{asked_by};
ghost use Rattle.h2_get.specs.Responses.{PrintsAsked, body_printed, fails_as_asked};
ghost use Rattle.h2_get.specs.Responses.{failure_line, fields_printed, is_failure};
ghost use Rattle.h2_get.specs.Responses.{response_lines, response_part, rest_printed};
ghost use Rattle.h2_get.specs.Receives.{fields_in_trailers};
ghost use Rattle.h2_get.specs.Responses.{trailer_lines, trailers_shown};

use h2_args::GetOptions;
use h2_message::Field;
use h2_net::{Fetched, LinkError, status_value, write_status};
use h2_show::write_text;
use std::io::{self, Write};

// contract: engines (own) With --fail a status of 400 or above ends get with status 1
// rule: engines (own) With --fail a status of 400 or above ends get with status 1
/// Whether `--fail` is given and the status is 400 or above.
pub fn is_failure(options: &GetOptions<'_>, fetched: &Fetched) -> bool
    ensures { result ≡ fails_as_asked (asked_by options.now) fetched.now }
{
    options.fail && is_error(status_value(&fetched.head))
}

// rule: engines (own) With --fail a status of 400 or above ends get with status 1
// Whether the status with these digits is 400 or above.
fn is_error(value: &[u8]) -> bool
    ensures { result ≡ is_failure value.now }
{
    match value {
        [digit, ..] => *digit >= b'4',
        [] => false,
    }
}

// contract: engines (own) The words of get make its request and say what is printed
// rule: engines (own) The words of get make its request and say what is printed
/// Prints a response: its status and reason phrase on a line; with `--include` its fields, one
/// per line, and an empty line; then, unless `--fail` makes it a failure, the octets of the body
/// as they are, and with `--include` the trailers.
///
/// # Errors
///
/// [`LinkError::Device`] (N1) if a write failed.
pub fn print_asked<W: Write>(
    options: &GetOptions<'_>,
    fetched: &Fetched,
    out: &mut W,
) -> Result<(), LinkError>
    ensures prints { OnOk result (PrintsAsked (asked_by options.now) (W.contents out.old)
        (W.contents out.new) fetched.now) }
    ensures err { IfErr result (λ error. error ≡ LinkError.Device) }
{
    write_asked(options, fetched, out)?;
    Ok(())
}

// Prints a response.
fn write_asked<W: Write>(options: &GetOptions<'_>, fetched: &Fetched, out: &mut W) -> io::Result<()>
    ensures { OnOk result (PrintsAsked (asked_by options.now) (W.contents out.old)
        (W.contents out.new) fetched.now) }
{
    write_status(status_value(&fetched.head), out)?;
    write_fields(options.include, fetched, out)?;
    write_rest(options, fetched, out)?;
    out.flush()
}

// rule: engines (own) With --fail a status of 400 or above ends get with status 1
// Prints the body, unless the options make the response a failure.
fn write_rest<W: Write>(options: &GetOptions<'_>, fetched: &Fetched, out: &mut W) -> io::Result<()>
    ensures { OnOk result (Appends (W.contents out.old) (W.contents out.new)
        (rest_printed (asked_by options.now) fetched.now)) }
{
    if is_failure(options, fetched) {
        return Ok(());
    }
    write_body(options.include, fetched, out)
}

// Prints what is between the line of the status and the body.
fn write_fields<W: Write>(include: bool, fetched: &Fetched, out: &mut W) -> io::Result<()>
    ensures { OnOk result (Appends (W.contents out.old) (W.contents out.new)
        (fields_printed include fetched.now)) }
{
    if !include {
        return Ok(());
    }
    write_lines(&fetched.head, out)?;
    out.write_all(b"\n")
}

// Prints the body, and the trailers if fields are printed.
fn write_body<W: Write>(include: bool, fetched: &Fetched, out: &mut W) -> io::Result<()>
    ensures { OnOk result (Appends (W.contents out.old) (W.contents out.new)
        (body_printed include fetched.now)) }
{
    out.write_all(&fetched.body)?;
    match &fetched.trailers {
        Some(fields) if include => write_trailers(fields, out),
        _ => Ok(()),
    }
}

// rule: engines (own) get -o and --stream write the body as it comes, in order
/// Prints the trailers of a body that was passed on, if there are any and the options ask for
/// fields.
pub(crate) fn print_trailers<W: Write>(
    include: bool,
    trailers: &Option<Vec<Field>>,
    out: &mut W,
) -> io::Result<()>
    ensures { OnOk result (Appends (W.contents out.old) (W.contents out.new)
        (trailers_shown include (fields_in_trailers trailers.now))) }
{
    match trailers {
        Some(fields) if include => write_trailers(fields, out)?,
        _ => {}
    }
    out.flush()
}

// Prints trailers: a newline, and then their lines.
fn write_trailers<W: Write>(fields: &[Field], out: &mut W) -> io::Result<()>
    ensures { OnOk result (Appends (W.contents out.old) (W.contents out.new)
        (trailer_lines (Some fields.now))) }
{
    out.write_all(b"\n")?;
    write_lines(fields, out)
}

// Prints the lines of the fields of a head, except `:status`.
fn write_lines<W: Write>(fields: &[Field], out: &mut W) -> io::Result<()>
    ensures { OnOk result (Appends (W.contents out.old) (W.contents out.new)
        (response_lines fields.now)) }
{
    for field in fields {
        write_line(field, out)?;
    }
    Ok(())
}

// Prints the line of a field, except `:status`.
fn write_line<W: Write>(field: &Field, out: &mut W) -> io::Result<()>
    ensures { OnOk result (Appends (W.contents out.old) (W.contents out.new)
        (response_part field.now)) }
{
    if field.name.as_slice() == b":status".as_slice() {
        return Ok(());
    }
    write_text(field.name.as_slice(), out)?;
    out.write_all(b": ")?;
    write_text(field.value.as_slice(), out)?;
    out.write_all(b"\n")
}

// contract: engines (own) With --fail a status of 400 or above ends get with status 1
// rule: engines (own) With --fail a status of 400 or above ends get with status 1
/// Prints the line of a response that is a failure.
///
/// # Errors
///
/// Those of the writer.
pub fn write_failure<E: Write>(fetched: &Fetched, err: &mut E) -> io::Result<()>
    ensures { OnOk result (Appends (E.contents err.old) (E.contents err.new)
        (failure_line (status_of fetched.now.head.items))) }
{
    err.write_all(b"error: status ")?;
    err.write_all(status_value(&fetched.head))?;
    err.write_all(b"\n")
}
