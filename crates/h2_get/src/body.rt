//! The body of the request of `get`.

ghost use Rattle.std.specs.Prelude.{◌≡◌, IfErr, IfOk, IfSome, codes, false, true};
ghost use Rattle.std.specs.Str.{bytes_eq};
ghost use Rattle.h2_args.specs.Words.{asked_by};
ghost use Rattle.h2_get.specs.Requests.{IsBodyAsked, IsUnread, begins_with_at, body_word};
ghost use Rattle.h2_get.specs.Requests.{reads_input};

use h2_args::GetOptions;
use std::alloc::Global;
use std::fs::{File, Files};
use std::io::{ErrorKind, Read};

/// Why the body of a request is not available.
#[derive(Clone, Copy, Debug, PartialEq, Eq)]
pub enum BodyFault {
    /// Standard input cannot be read.
    Input,
    /// The file cannot be read, with this kind of error.
    File(ErrorKind),
    /// Out of memory.
    Memory,
}

// contract: engines (own) The words of get make its request and say what is printed
// rule: engines (own) The words of get make its request and say what is printed
/// Returns the body that the options give: standard input for `@-`, a file for `@` and its name,
/// or else the word itself. Nothing else is read.
///
/// # Errors
///
/// [`BodyFault`] says why there is none.
pub fn body_of<F: Files, R: Read>(
    files: &F,
    alloc: Global,
    options: &GetOptions<'_>,
    input: &mut R,
) -> Result<Vec<u8>, BodyFault>
    ensures body { IfOk result (λ body.
        IsBodyAsked (asked_by options.now) (R.remaining input.old) body.items) }
    ensures err { IfErr result (IsUnread (asked_by options.now)) }
    ensures unread { reads_input (asked_by options.now) ≡ false
        → R.remaining input.new ≡ R.remaining input.old }
{
    if reads_input(options) {
        return read_input(alloc, input);
    }
    let word = body_word(options);
    if begins_with_at(word.as_bytes()) {
        return read_file(files, alloc, word.strip_prefix('@').unwrap_or(""));
    }
    match Vec::from_slice(alloc, word.as_bytes()) {
        Ok(body) => Ok(body),
        Err(_) => Err(BodyFault::Memory),
    }
}

/// The word that gives the body, or an empty one.
fn body_word<'a>(options: &GetOptions<'a>) -> &'a str
    ensures { result.now ≡ body_word (asked_by options.now) }
{
    match options.body {
        Some(body) => body,
        None => "",
    }
}

/// Whether the body is standard input.
fn reads_input(options: &GetOptions<'_>) -> bool
    ensures { result ≡ reads_input (asked_by options.now) }
{
    body_word(options).as_bytes() == b"@-".as_slice()
}

/// Whether octets begin with `@`.
fn begins_with_at(octets: &[u8]) -> bool
    ensures { result ≡ begins_with_at octets.now }
{
    match octets {
        [octet, ..] => *octet == b'@',
        [] => false,
    }
}

/// Reads standard input to its end.
fn read_input<R: Read>(alloc: Global, input: &mut R) -> Result<Vec<u8>, BodyFault>
    ensures { IfOk result (λ body.
        IfSome (R.remaining input.old) (λ given. body.items ≡ given)) }
{
    let mut body = Vec::new(alloc);
    match input.read_to_end(&mut body) {
        Ok(_) => Ok(body),
        Err(error) => match error.kind() {
            ErrorKind::OutOfMemory => Err(BodyFault::Memory),
            _ => Err(BodyFault::Input),
        },
    }
}

/// Reads this file to its end.
fn read_file<F: Files>(files: &F, alloc: Global, path: &str) -> Result<Vec<u8>, BodyFault> {
    let mut file = match File::open(files, path) {
        Ok(file) => file,
        Err(error) => return Err(BodyFault::File(error.kind())),
    };
    let mut body = Vec::new(alloc);
    match file.read_to_end(&mut body) {
        Ok(_) => Ok(body),
        Err(error) => match error.kind() {
            ErrorKind::OutOfMemory => Err(BodyFault::Memory),
            kind => Err(BodyFault::File(kind)),
        },
    }
}
