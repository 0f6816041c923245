//! The common log format: one line for each request.

ghost use Rattle.std.specs.Prelude.{◌≡◌, ◌<◌, ◌++◌, IfOk, OnOk};
ghost use Rattle.h2_folder.specs.LogLines.{IsLogLine, IsLogTime, is_log_plain, log_answer};
ghost use Rattle.h2_folder.specs.LogLines.{log_digit, log_octet, log_octets, log_request, log_time};
ghost use Rattle.h2_folder.specs.LogLines.{status_or_dash};

use httpdate::HttpDate;
use std::alloc::{AllocError, Global};

/// What a request's line says.
#[derive(Clone, Copy, Debug)]
pub struct LogEntry<'a> {
    /// The peer's address.
    pub peer: &'a str,
    /// The end of the request, in seconds since 1970.
    pub time: u64,
    /// Its method.
    pub method: &'a [u8],
    /// Its path.
    pub path: &'a [u8],
    /// The status of the response, if there was one.
    pub status: Option<u16>,
    /// The octets of the response's body that were given to the connection.
    pub octets: u64,
}

// contract: hosts (own) What a request says can't end its quotes in a log, nor its line
// contract: hosts (own) A line of the log has the peer, the time, the request and its answer
// rule: hosts (own) A line of the log has the peer, the time, the request and its answer
/// Returns the line of a request: the peer, two dashes, the time, the request in quotes, the
/// status, and the number of octets of the body.
///
/// # Errors
///
/// [`AllocError`] if an allocation was refused.
pub fn log_line(alloc: Global, entry: LogEntry<'_>) -> Result<Vec<u8>, AllocError>
    ensures { IfOk result (λ line. IsLogLine entry.entry line.items) }
{
    let time = time_text(alloc, entry.time)?;
    let request = request_text(alloc, entry.method, entry.path)?;
    let answer = answer_text(alloc, entry.status, entry.octets)?;
    let mut line = Vec::from_slice(alloc, entry.peer.as_bytes())?;
    line.extend_from_slice(b" - - [")?;
    line.extend_from_slice(&time)?;
    line.extend_from_slice(b"] ")?;
    line.extend_from_slice(&request)?;
    line.extend_from_slice(b" ")?;
    line.extend_from_slice(&answer)?;
    Ok(line)
}

/// A time, as `28/Nov/2026:04:20:00 +0000`; a dash from the year 10000 on.
fn time_text(alloc: Global, time: u64) -> Result<Vec<u8>, AllocError>
    ensures { IfOk result (λ text. IsLogTime time text.items) }
{
    match HttpDate::from_unix_secs(time) {
        Ok(date) => stamp_of(alloc, &date.to_bytes()),
        Err(_) => Vec::from_slice(alloc, b"-"),
    }
}

/// A time, made of the text of its date, such as `Sun, 06 Nov 1994 08:49:37 GMT`.
fn stamp_of(alloc: Global, date: &[u8; 29]) -> Result<Vec<u8>, AllocError>
    ensures { IfOk result (λ text. text.items ≡ log_time date.now) }
{
    let mut text = Vec::from_slice(alloc, &date[5..7])?;
    text.extend_from_slice(b"/")?;
    text.extend_from_slice(&date[8..11])?;
    text.extend_from_slice(b"/")?;
    text.extend_from_slice(&date[12..16])?;
    text.extend_from_slice(b":")?;
    text.extend_from_slice(&date[17..25])?;
    text.extend_from_slice(b" +0000")?;
    Ok(text)
}

/// A request, in its quotes.
fn request_text(alloc: Global, method: &[u8], path: &[u8]) -> Result<Vec<u8>, AllocError>
    ensures { IfOk result (λ text. text.items ≡ log_request method.now path.now) }
{
    let mut text = Vec::from_slice(alloc, b"\"")?;
    add_escaped(&mut text, method)?;
    text.extend_from_slice(b" ")?;
    add_escaped(&mut text, path)?;
    text.extend_from_slice(b" HTTP/2.0\"")?;
    Ok(text)
}

/// A status and a number of octets, and the end of a line.
fn answer_text(alloc: Global, status: Option<u16>, octets: u64) -> Result<Vec<u8>, AllocError>
    ensures { IfOk result (λ text. text.items ≡ log_answer status octets) }
{
    let mut text = status_text(alloc, status)?;
    text.extend_from_slice(b" ")?;
    text.extend_from_slice(octets.to_string(alloc)?.as_bytes())?;
    text.extend_from_slice(b"\n")?;
    Ok(text)
}

/// A status, or a dash if there was no response.
fn status_text(alloc: Global, status: Option<u16>) -> Result<Vec<u8>, AllocError>
    ensures { IfOk result (λ text. text.items ≡ status_or_dash status) }
{
    match status {
        Some(status) => Ok(status.to_string(alloc)?.into_bytes()),
        None => Vec::from_slice(alloc, b"-"),
    }
}

/// Adds octets, with quotes, backslashes and octets outside printable ASCII escaped, so that
/// nothing in a request ends its quotes or its line.
fn add_escaped(line: &mut Vec<u8>, octets: &[u8]) -> Result<(), AllocError>
    ensures { OnOk result (line.new.items ≡ line.old.items ++ log_octets octets.now) }
{
    for octet in octets {
        add_one(line, *octet)?;
    }
    Ok(())
}

// rule: hosts (own) What a request says can't end its quotes in a log, nor its line
/// Adds an octet, escaped as `\x` and two digits if needed.
fn add_one(line: &mut Vec<u8>, octet: u8) -> Result<(), AllocError>
    ensures { OnOk result (line.new.items ≡ line.old.items ++ log_octet octet) }
{
    if is_plain(octet) {
        line.push(octet)?;
        return Ok(());
    }
    line.extend_from_slice(b"\\x")?;
    line.push(digit_of(octet / 16))?;
    line.push(digit_of(octet % 16))?;
    Ok(())
}

/// Whether an octet is not escaped in quotes.
fn is_plain(octet: u8) -> bool
    ensures { result ≡ is_log_plain octet }
{
    octet >= 32 && octet < 127 && octet != b'"' && octet != b'\\'
}

/// The hexadecimal digit of a number below 16.
fn digit_of(number: u8) -> u8
    requires { number < 16 }
    ensures { result ≡ log_digit number }
{
    if number < 10 {
        number + 48
    } else {
        number + 87
    }
}
