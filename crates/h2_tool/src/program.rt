//! The program.

ghost use Rattle.std.specs.Prelude.{◌≡◌, ◌≢◌, List, ℕ, ◌∷◌, MatchResult, codes, map, string_bytes};
ghost use Rattle.clap.specs.Words.{kind_of};
ghost use Rattle.h2_cli.specs.Status.{failure_status};
ghost use Rattle.h2_tool.specs.Commands.{AnswersWords, EndsShow, EndsReplay, EndsServe, EndsLoop};
ghost use Rattle.h2_tool.specs.Commands.{EndsHost, EndsProgram, NamesNoCommand, NamesNoReader};
ghost use Rattle.h2_tool.specs.GetsSeveral.{EndsGet};

use crate::get::cmd_get;
use crate::host::cmd_host;
use crate::replay::cmd_replay;
use crate::show::cmd_show;
use crate::sockets::{cmd_loop, cmd_serve};
use clap::Error;
use clap::error::ErrorKind;
use h2_args::no_command;
use h2_cli::{Failure, Status, write_hint};
use h2_net::WriteParts;
use h2_show::{Hint, Shown};
use std::alloc::Global;
use std::fs::Files;
use std::io::{self, Read, Write};
use std::net::Net;
use std::time::Clock;

/// What is printed for terminals alone.
#[derive(Clone, Copy, Debug, PartialEq, Eq)]
pub struct Terminals {
    /// Whether `--color auto` has colors: standard output is a terminal, and NO_COLOR is unset
    /// or empty.
    pub colored: bool,
    /// Whether `get -o` shows its progress: standard error is a terminal.
    pub has_progress: bool,
}

// rule: show (own) The words choose the end and hexadecimal
// contract: replay (own) The status is 0 only where an end took the whole input
// contract: replay (own) The words of replay choose the end and hexadecimal
/// Runs the program with the words after its name, and returns its exit status: that of the
/// command, or, without one, [`Status::Good`] for help and the version and [`Status::Usage`]
/// otherwise. Sockets, files and the clock are those of `net`. `terminals` says what is printed
/// for terminals only.
pub fn run<N: Net + Files + Clock + Copy, R: Read, W: Write, E: Write>(
    net: &N,
    alloc: Global,
    words: &[String],
    terminals: Terminals,
    input: &mut R,
    out: &mut W,
    err: &mut E,
) -> Status
where
    N::Stream: WriteParts,
    ensures show { (others : List (List ℕ)) → map string_bytes words.now ≡ codes "show" ∷ others
        → EndsShow terminals.colored others (R.remaining input.old) (R.remaining input.new)
        (W.contents out.old) (W.contents out.new) result }
    ensures replay { (others : List (List ℕ)) → map string_bytes words.now ≡ codes "replay" ∷ others
        → EndsReplay others (R.remaining input.old) (R.remaining input.new) (W.contents out.old)
        (W.contents out.new) result }
    ensures serve { (others : List (List ℕ)) → map string_bytes words.now ≡ codes "serve" ∷ others
        → EndsServe others (W.contents out.old) (W.contents out.new) result }
    ensures get { (others : List (List ℕ)) → map string_bytes words.now ≡ codes "get" ∷ others
        → EndsGet others (R.remaining input.old) (W.contents out.old) (W.contents out.new) result }
    ensures post { (others : List (List ℕ)) → map string_bytes words.now ≡ codes "loop" ∷ others
        → EndsLoop others (W.contents out.old) (W.contents out.new) result }
    ensures host { (others : List (List ℕ)) → map string_bytes words.now ≡ codes "host" ∷ others
        → EndsHost others (W.contents out.old) (W.contents out.new) result }
    ensures none { NamesNoCommand (map string_bytes words.now)
        → EndsProgram (map string_bytes words.now) (W.contents out.old) (W.contents out.new)
        result }
    ensures unread { NamesNoReader (map string_bytes words.now)
        → R.remaining input.new ≡ R.remaining input.old }
{
    if let Some((name, others)) = words.split_first() {
        match name.as_str() {
            "show" => return cmd_show(net, alloc, others, terminals.colored, input, out, err),
            "replay" => return cmd_replay(alloc, others, input, out, err),
            "serve" => return cmd_serve(net, alloc, others, out, err),
            "get" => {
                let has_progress = terminals.has_progress;
                return cmd_get(net, alloc, others, has_progress, input, out, err);
            }
            "loop" => return cmd_loop(net, alloc, others, out, err),
            "host" => return cmd_host(net, alloc, others, out, err),
            _ => {}
        }
    }
    match no_command(alloc, words) {
        // Unreachable: without a command's name, words are help, the version, or wrong.
        Ok(()) => Status::Usage,
        Err(error) => answer(&error, out, err),
    }
}

/// Ends the program if its arguments are not available: out of memory, or one is not UTF-8.
pub fn no_words<E: Write>(error: &io::Error, err: &mut E) -> Status
    ensures { result ≢ Status.Good }
{
    if let io::ErrorKind::OutOfMemory = error.kind() {
        return give_up(Failure::Memory, err);
    }
    match writeln!(err, "error: an argument is not UTF-8") {
        Ok(()) => Status::Usage,
        Err(_) => Status::Device,
    }
}

/// Handles words that give no options: prints the help or the version that they ask for, or what
/// is wrong.
pub(crate) fn answer<W: Write, E: Write>(error: &Error, out: &mut W, err: &mut E) -> Status
    ensures { AnswersWords (kind_of error.now) (W.contents out.old) (W.contents out.new) result }
{
    if let ErrorKind::OutOfMemory = error.kind() {
        return give_up(Failure::Memory, err);
    }
    if error.use_stderr() {
        return match write!(err, "{error}") {
            Ok(()) => Status::Usage,
            Err(_) => Status::Device,
        };
    }
    let written = write!(out, "{error}").and_then(|()| out.flush());
    match written {
        Ok(()) => Status::Good,
        Err(_) => give_up(Failure::Device, err),
    }
}

/// Prints on standard error why the command fails.
pub(crate) fn give_up<E: Write>(failure: Failure, err: &mut E) -> Status
    ensures { result ≡ failure_status failure }
{
    // There is no place left to report that this write fails.
    let _ = writeln!(err, "{failure}");
    failure.status()
}

// rule: show (own) The status is 0 only where the input is good to its end
// rule: replay (own) The status is 0 only where an end took the whole input
/// Ends a command that reads an input: prints the hint, if there is one, or why the command
/// fails. `from_server` is the option for a server's octets.
pub(crate) fn end_input<E: Write>(
    shown: Result<Shown, Failure>,
    from_server: &str,
    err: &mut E,
) -> Status
    ensures { MatchResult shown (λ shown. result ≡ shown.status)
        (λ failure. result ≡ failure_status failure) }
{
    match shown {
        Ok(shown) => {
            give_hint(shown.hint, from_server, err);
            shown.status
        }
        Err(failure) => give_up(failure, err),
    }
}

// rule (tested): show (own) A hint names a capture, or the option that is likely missing
/// Prints on standard error what is likely wrong with the input or the options; `from_server` is
/// the option for a server's octets.
fn give_hint<E: Write>(hint: Option<Hint>, from_server: &str, err: &mut E) {
    // The status is that of the stream, whether or not these writes fail.
    let _ = match hint {
        None => Ok(()),
        Some(Hint::Capture) => write_hint(Some(h2_cli::Hint::Capture), err),
        Some(Hint::Http1) => writeln!(err, "hint: the input is HTTP/1.1, not HTTP/2"),
        Some(Hint::ClientPreface) => writeln!(
            err,
            "hint: the input begins with the client preface: omit {from_server}"
        ),
        Some(Hint::Hexadecimal) => {
            writeln!(
                err,
                "hint: the input looks like hexadecimal text: try --hex"
            )
        }
        Some(Hint::FromServer) => writeln!(
            err,
            "hint: the input does not begin with the client preface: try {from_server}"
        ),
    };
}
