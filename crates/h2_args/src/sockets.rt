//! The options of `serve` and of `loop`.

ghost use Rattle.std.specs.Prelude.{◌≡◌, ◌≤◌, IfErr, IfOk, Some, false, map, pos, string_bytes};
ghost use Rattle.clap.specs.Words.{HasKind, app_of, rule_of};
ghost use Rattle.h2_args.specs.Commands.{loop_app, required_rule, serve_app};
ghost use Rattle.h2_args.specs.Commands.{with_numbers};
ghost use Rattle.h2_args.specs.Words.{loop_faults, loop_options_of, serve_faults};
ghost use Rattle.h2_args.specs.Words.{serve_options_of};

use crate::options::{CommandText, flag_arg, is_set, named_command};
use clap::builder::ValueParser;
use clap::{Arg, ArgAction, Command, Error, value_parser};
use h2_frame::limits::GREATEST_BODY;
use std::alloc::{AllocError, Global};

/// The maximum number of octets that `loop` posts.
pub const MOST_POSTED: u32 = GREATEST_BODY as u32;

/// The options of `serve`.
#[derive(Clone, Copy, Debug, PartialEq, Eq)]
pub struct ServeOptions {
    /// The port on 127.0.0.1, from 1 to 65,535.
    pub port: u16,
    /// The number of connections to serve, from 1 to 65,535.
    pub count: u16,
}

/// The options of `loop`.
#[derive(Clone, Copy, Debug, PartialEq, Eq)]
pub struct LoopOptions {
    /// The number of octets to post, from 0 to [`MOST_POSTED`].
    pub count: u32,
    /// Whether megabytes and seconds are printed.
    pub each_way: bool,
}

// contract: engines (own) serve, get and loop have their words
// rule: engines (own) serve, get and loop have their words
/// Reads the words after `serve`.
///
/// # Errors
///
/// Those of [`crate::show_args`].
pub fn serve_args(alloc: Global, words: &[String]) -> Result<ServeOptions, Error>
    ensures ok { IfOk result (λ options.
        serve_options_of (map string_bytes words.now) ≡ Some options) }
    ensures port { IfOk result (λ options. (1 ≤ options.port) × (options.port ≤ 65535)) }
    ensures count { IfOk result (λ options. (1 ≤ options.count) × (options.count ≤ 65535)) }
    ensures err { IfErr result (HasKind (serve_faults (map string_bytes words.now))) }
{
    let command = serve_command(alloc)?;
    let matches = command.try_get_matches_from(words)?;
    // Both are required.
    let Some(port) = matches.get_one::<u16>(PORT) else {
        unreachable!();
    };
    let Some(count) = matches.get_one::<u16>(COUNT) else {
        unreachable!();
    };
    Ok(ServeOptions { port, count })
}

// contract: engines (own) serve, get and loop have their words
// rule: engines (own) serve, get and loop have their words
/// Reads the words after `loop`.
///
/// # Errors
///
/// Those of [`crate::show_args`].
pub fn loop_args(alloc: Global, words: &[String]) -> Result<LoopOptions, Error>
    ensures ok { IfOk result (λ options.
        loop_options_of (map string_bytes words.now) ≡ Some options) }
    ensures most { IfOk result (λ options. options.count ≤ MOST_POSTED) }
    ensures err { IfErr result (HasKind (loop_faults (map string_bytes words.now))) }
{
    let command = loop_command(alloc)?;
    let matches = command.try_get_matches_from(words)?;
    // It is required.
    let Some(count) = matches.get_one::<u32>(OCTETS) else {
        unreachable!();
    };
    let each_way = is_set(&matches, EACH_WAY);
    Ok(LoopOptions { count, each_way })
}

const PORT: &str = "PORT";

const PORT_HELP: &str = "Port on 127.0.0.1, 1 to 65535";

const COUNT: &str = "COUNT";

const COUNT_HELP: &str = "Number of connections to serve, 1 to 65535";

const OCTETS: &str = "N";

const OCTETS_HELP: &str = "Number of octets to post, 0 to 1048576";

const EACH_WAY: &str = "each-way";

const EACH_WAY_HELP: &str = r"Print on standard error the megabytes sent each way and
the seconds taken";

/// How `serve` responds, how it ends, and an example.
const SERVED_AND_STATUSES: &str =
    r"Each request is answered with status 200 and a body: the method, a space, the
path, a newline, and the body of the request. The response to HEAD has no body.
A stream whose request body exceeds 1048576 octets is reset with code 11.

Clients need prior knowledge of HTTP/2 (RFC 9113, section 3.3). Connections are
served one at a time and without timeouts: a client that stays idle keeps others
waiting, and so does one that leaves a failed connection open. The command exits
after COUNT connections, and prints nothing on standard output.

If a connection ends early, its line is printed on standard error and the next
one is served. The exit status is that of the first such connection.

Exit status (lines in backquotes go to standard error):
  0  every connection was served until its client ended it
  1  `N2 Stream CODE`: the connection failed with this code (RFC 9113,
     section 7); or, with CODE 11, it was given up because one more stream
     had to be reset after 1000 others
     `N4 CutOff`: the connection ended inside the preface or a frame, or while a
     stream was active
  2  invalid arguments
  3  `N1 Device`: the port is not available, or a read or a write failed
     `N5 NoProgress`: a write accepted no octets
  4  `N3 Memory`: out of memory

A hint may follow that line. It is meant for people; the exit status does not
depend on it.

Example:
  $ h2 serve 9001 1 &
  $ curl --http2-prior-knowledge --data hello http://127.0.0.1:9001/a
  POST /a
  hello";

/// What `loop` prints, how it ends, and an example.
const LOOPED_AND_STATUSES: &str =
    r"A client and a server in this process are joined by one TCP connection on
127.0.0.1. The client posts N octets to `/`; octet k, counted from 0, is k mod
251. The server answers as `h2 serve` does. The two take turns: each writes at
most 4096 octets, which the other then reads.

Exit status (lines in backquotes go to standard error, except `sent`):
  0  the response is complete: `sent N got M status 200` on standard output,
     with M = N + 7; with --each-way, also a line such as
     `0.070000 MB posted, 0.070007 MB got, S s` (1 MB is 10^6 octets; S is the
     seconds taken)
  1  `N4 CutOff`: the response is incomplete, and neither side writes any more
     `N2 Stream CODE` and `N6 Reset CODE`: as for `h2 get`
  2  invalid arguments
  3  `N1 Device`: the connection cannot be made, or a read or a write failed
     `N5 NoProgress`: 2^64 - 1 rounds were made, or h2 itself is at fault
  4  `N3 Memory`: out of memory

Example:
  $ h2 loop 70000
  sent 70000 got 70007 status 200";

/// A required argument.
pub(super) fn required_arg<'a>(alloc: Global, name: &'a str, help: &'a str) -> Arg<'a>
    ensures rule { rule_of result ≡ required_rule name.entry.now }
    ensures local { result.global ≡ false }
{
    Arg::new(alloc, name)
        .value_name(name)
        .required(true)
        .action(ArgAction::Set)
        .help(help)
}

// A required number.
pub(super) fn number_arg<'a>(
    alloc: Global,
    name: &'a str,
    numbers: ValueParser<'a>,
    help: &'a str,
) -> Arg<'a>
    ensures rule { rule_of result ≡ with_numbers (required_rule name.entry.now) numbers.entry }
    ensures local { result.global ≡ false }
{
    required_arg(alloc, name, help).value_parser(numbers)
}

// The numbers of ports, and of connections.
pub(super) fn counts<'a>() -> ValueParser<'a>
    ensures { result ≡ ValueParser.Signed (pos 1) (pos 65535) }
{
    value_parser!(u16).range(1..=65_535)
}

// The numbers of octets.
fn lengths<'a>() -> ValueParser<'a>
    ensures { result ≡ ValueParser.Signed (pos 0) (pos 1048576) }
{
    value_parser!(u32).range(0..=i64::from(MOST_POSTED))
}

/// The command as clap has it.
pub(super) fn serve_command<'a>(alloc: Global) -> Result<Command<'a>, AllocError>
    ensures { IfOk result (λ command. app_of command ≡ serve_app) }
{
    let text = CommandText {
        called: "h2 serve",
        about: "Echo requests on a port, one connection at a time",
        usage: "h2 serve PORT COUNT",
        more: SERVED_AND_STATUSES,
    };
    named_command(alloc, "serve", text)?
        .arg(number_arg(alloc, PORT, counts(), PORT_HELP))?
        .arg(number_arg(alloc, COUNT, counts(), COUNT_HELP))
}

/// The command as clap has it.
pub(super) fn loop_command<'a>(alloc: Global) -> Result<Command<'a>, AllocError>
    ensures { IfOk result (λ command. app_of command ≡ loop_app) }
{
    let text = CommandText {
        called: "h2 loop",
        about: "Post octets from a client to a server in one process",
        usage: "h2 loop N [--each-way]",
        more: LOOPED_AND_STATUSES,
    };
    named_command(alloc, "loop", text)?
        .arg(number_arg(alloc, OCTETS, lengths(), OCTETS_HELP))?
        .arg(flag_arg(alloc, EACH_WAY, EACH_WAY_HELP))
}
