//! The line of `h2 loop --each-way`.

ghost use Rattle.std.specs.Prelude.{OnOk};
ghost use Rattle.std.specs.Io.KnownBytes.{Appends};
ghost use Rattle.h2_tool.specs.Rates.{rates_line, six_digits, units_and};
ghost use Rattle.h2_tool.specs.Rates.{units_of_millionths};

use std::io::{self, Write};
use std::time::{Clock, Duration, Instant};

/// The octets of a megabyte, and the microseconds of a second.
const MILLION: u64 = 1_000_000;

/// The microseconds since this time; none if the clock cannot be read.
pub(crate) fn micros_since<C: Clock>(clock: &C, start: io::Result<Instant>) -> Option<u64> {
    let took = start.and_then(|start| start.elapsed(clock)).ok()?;
    Some(whole_micros(took))
}

// The microseconds of a time.
fn whole_micros(took: Duration) -> u64 {
    u64::try_from(took.as_micros()).unwrap_or(u64::MAX)
}

// contract: engines (own) With --each-way loop says how many megabytes went, and in what time
// rule: engines (own) With --each-way loop says how many megabytes went, and in what time
/// Prints the megabytes posted and received, and the seconds taken.
///
/// # Errors
///
/// Those of the writer.
pub(crate) fn write_rates<E: Write>(
    posted: u64,
    got: u64,
    micros: u64,
    err: &mut E,
) -> io::Result<()>
    ensures { OnOk result (Appends (E.contents err.old) (E.contents err.new)
        (rates_line posted got micros)) }
{
    write_units_and(posted, b" MB posted, ", err)?;
    write_units_and(got, b" MB got, ", err)?;
    write_units_and(micros, b" s\n", err)
}

// Prints a number of millionths as a decimal number, and what follows.
fn write_units_and<E: Write>(number: u64, unit: &[u8], err: &mut E) -> io::Result<()>
    ensures { OnOk result (Appends (E.contents err.old) (E.contents err.new)
        (units_and number unit.now)) }
{
    write_units(number, err)?;
    err.write_all(unit)
}

// Prints a number of millionths as a decimal number.
fn write_units<E: Write>(number: u64, err: &mut E) -> io::Result<()>
    ensures { OnOk result (Appends (E.contents err.old) (E.contents err.new)
        (units_of_millionths number)) }
{
    let whole = number / MILLION;
    let rest = number % MILLION;
    write!(err, "{whole}.")?;
    write_six(rest, err)
}

// rule: engines (own) With --each-way loop says how many megabytes went, and in what time
// Prints a number in six digits.
fn write_six<E: Write>(number: u64, err: &mut E) -> io::Result<()>
    ensures { OnOk result (Appends (E.contents err.old) (E.contents err.new) (six_digits number)) }
{
    write!(err, "{number:06}")
}
