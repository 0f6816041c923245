//! The options of `host`.

ghost use Rattle.std.specs.Prelude.{◌≡◌, ◌≤◌, IfErr, IfOk, IfSome, Some, codes, false, map, pos};
ghost use Rattle.std.specs.Prelude.{string_bytes};
ghost use Rattle.clap.specs.Words.{HasKind, app_of, rule_of};
ghost use Rattle.h2_args.specs.Commands.{host_app, limited_app, number_option_rule, path_rule};
ghost use Rattle.h2_args.specs.Commands.{served_app};
ghost use Rattle.h2_args.specs.Words.{host_asked_by, host_faults, host_words_of};

use crate::options::{CommandText, flag_arg, is_set, named_command, valued_arg};
use crate::sockets::{counts, number_arg};
use clap::builder::ValueParser;
use clap::{Arg, Command, Error, value_parser};
use std::alloc::{AllocError, Global};

/// The options of `host`.
#[derive(Clone, Copy, Debug)]
pub struct HostWords<'a> {
    /// The port, from 1 to 65,535.
    pub port: u16,
    /// The folder to serve, if given.
    pub root: Option<&'a str>,
    /// The address, if given, not yet parsed.
    pub address: Option<&'a str>,
    /// The maximum number of connections, from 1 to 1,048,576, if given.
    pub connections: Option<u32>,
    /// The seconds without a request after which a connection is closed, from 0 to 86,400, if
    /// given.
    pub idle: Option<u32>,
    /// Whether a line is printed for each request.
    pub log: bool,
    /// Whether the host shuts down once standard input is closed.
    pub until_closed: bool,
    /// The size of a window, if given, not yet parsed: see [`crate::window_or`].
    pub window: Option<&'a str>,
}

// contract: hosts (own) The words of host say what is served, where, and for how long
// rule: hosts (own) The words of host say what is served, where, and for how long
/// Reads the words after `host`.
///
/// # Errors
///
/// Those of [`crate::show_args`].
pub fn host_args<'a>(alloc: Global, words: &'a [String]) -> Result<HostWords<'a>, Error>
    ensures ok { IfOk result (λ options.
        host_words_of (map string_bytes words.entry.now) ≡ Some (host_asked_by options)) }
    ensures port { IfOk result (λ options. (1 ≤ options.port) × (options.port ≤ 65535)) }
    ensures connections { IfOk result (λ options.
        IfSome options.connections (λ count. (1 ≤ count) × (count ≤ 1048576))) }
    ensures idle { IfOk result (λ options. IfSome options.idle (λ seconds. seconds ≤ 86400)) }
    ensures err { IfErr result (HasKind (host_faults (map string_bytes words.entry.now))) }
{
    let command = host_command(alloc)?;
    let matches = command.try_get_matches_from(words)?;
    // It is required.
    let Some(port) = matches.get_one::<u16>(HOST_PORT) else {
        unreachable!();
    };
    Ok(HostWords {
        port,
        root: matches.get_str(ROOT),
        address: matches.get_str(ADDRESS),
        connections: matches.get_one::<u32>(CONNECTIONS),
        idle: matches.get_one::<u32>(IDLE),
        log: is_set(&matches, LOG),
        until_closed: is_set(&matches, UNTIL_CLOSED),
        window: matches.get_str(HOST_WINDOW),
    })
}

const HOST_PORT: &str = "PORT";

const HOST_PORT_HELP: &str = "Port to listen on, 1 to 65535";

const ROOT: &str = "root";

const ROOT_HELP: &str = "Serve the files below this folder instead of echoing";

const ADDRESS: &str = "address";

const ADDRESS_HELP: &str = "IP address to listen on [default: 127.0.0.1]";

const CONNECTIONS: &str = "connections";

const CONNECTIONS_HELP: &str = r"Maximum number of connections at once, 1 to 1048576
[default: 10000]";

const IDLE: &str = "idle";

const IDLE_HELP: &str = r"Close a connection after this many seconds without an
open request, 0 to 86400; 0 means never [default: 75]";

const LOG: &str = "log";

const LOG_HELP: &str = "Print a line for each request in the common log format";

const UNTIL_CLOSED: &str = "until-closed";

const UNTIL_CLOSED_HELP: &str = r"Shut down gracefully once standard input, a pipe, is
closed";

const HOST_WINDOW: &str = "window";

const HOST_WINDOW_HELP: &str = r"Octets of bodies that may be sent before they are used,
in all requests of a connection; k and m multiply by
1024 and 1048576 [default: 1m]";

/// What `host` serves, how it ends, and an example.
const HOSTED_AND_STATUSES: &str =
    r"Many connections are served at once, in one thread. Without --root, a request is
answered as by `h2 serve`: with its method, a space, its path, a newline and its
body. But one whose body has more than 1048576 octets gets status 413, and one
whose authority names a user gets status 400.

With --root, GET and HEAD are answered with a file below that folder, of any
size, with its type, length, `etag`, `last-modified` and `date`. Conditional
requests and single ranges are supported (RFC 9110, sections 13 and 14). A path
that ends with a slash names a folder: its `index.html` is sent. The body of an
error is its status and phrase. A response to HEAD has no body, nor has a 400
that is sent because the authority names a user, nor a 500 that is sent because
memory for the answer ran out. Errors:
  400       the path cannot be decoded or has a control character, or the
            authority names a user
  403       a symbolic link or anything below one, a file that is not regular,
            or one that may not be read
  404       the file does not exist, the path is a folder without a trailing
            slash, or a name is empty, begins with a dot, has a slash or a
            backslash, or is longer than 255 octets
  405       a method other than GET or HEAD
  412       `if-match` or `if-unmodified-since` is false (`if-none-match` and
            `if-modified-since` give 304, without a body)
  414       the path, without its query, has more than 4096 octets
  416       the range is beyond the file
  500       the file system failed, or memory for the answer ran out
  503       file descriptors, or memory to find or read the file, ran out
Symbolic links are not followed: the file and the folders on its path are
checked before and after it is opened. Someone who can write below the folder
could still swap a link in and out again between the two checks. If a file
shrinks while it is sent, the stream is reset with code 2.

A client that still sends a request's body when all of the answer has gone is
asked to stop: the stream is reset with code 0, unless the host has reset 1000
streams of the connection before. It is not asked after a file above 16384
octets, nor where 400 is sent because the authority names a user, or 500 because
memory ran out.

A connection that has no open request for --idle seconds is closed gracefully.
A connection is closed with code 4 if the preface and the first frame take more
than 10 seconds, and with code 11 in these cases:
- if a later frame or a field block of several frames takes more than 30
  seconds, or if, while a request is incomplete, 1024 octets of request bodies
  (of all streams together) take more than 30 seconds;
- if output is queued and none of it is written for 60 seconds, or if no octet
  of any response body is sent for 60 seconds while there is an open exchange
  that has a response, even if it was sent in full (an exchange is open until
  its request and its response are both complete, or its stream is reset);
- if, within one of consecutive periods of 10 seconds,
  - the client sends more than 500 RST_STREAM frames, or more than 500 empty
    frames without effect: DATA without END_STREAM, or HEADERS or CONTINUATION
    without END_HEADERS;
  - the host resets more than 50 streams for stream errors (malformed requests,
    for example) or because of its limits of streams and fields; or
  - the replies to PING and SETTINGS are more than 32768 octets;
- if a field block has more than 65552 octets, or the host has to reset a stream
  with a code other than 0 after it has reset 1000 streams of the connection;
- if the connection holds more than 16 MiB (or twice --window, if that is more),
  or if all connections together hold more than 256 MiB and this one holds most.
  Then little more output is written, so the code may not be sent.
  Header tables, field blocks and lists, entries of streams and the spare
  capacity of buffers are not counted.

A client may send as many octets of bodies as --window says before they are
used, in one request, and in all requests of a connection together. A
connection's window is 65535 octets at first. Once octets of some body have come
and some request is incomplete, it is widened to that size, unless all
connections together would then be widened by more than 128 MiB; if they would,
the host tries again each time octets come. So a size above 134283263 widens
none. A size below 65535 limits only each request.

With --until-closed, GOAWAY is sent on all connections once standard input is
closed, and pending requests are answered. A connection that takes longer than 5
seconds is cut off unless 65536 octets of bodies, both ways together, move in
each 5 seconds. One that has 65536 octets or more of output waiting when the
shutdown begins is cut off once they are sent. After a shutdown the exit status
is 0.

A --log line has the address of the client, `- -`, the time, the request line in
double quotes, the status, and the number of octets of the body. In the request
line, quotes, backslashes and octets outside printable ASCII are escaped, a
quote as `\x22`. These requests have no line: those that are reset before they
are handled (a head that is malformed or too large, or a stream above the
limit), those whose authority names a user, and those for which memory was
refused (for the head or for the line).

Exit status (lines in backquotes go to standard error):
  0  with --until-closed, standard input was closed, and all connections have
     ended
  2  invalid arguments, `error: not an IP address: ADDR`, or an `error:` line
     for --window
  3  `N1 Device`: the port or the folder is not available, standard input
     cannot be polled (a file, for example), or the clock, the wait for sockets
     or a write of the log failed
  4  `N3 Memory`: out of memory

A hint may follow that line. It is meant for people; the exit status does not
depend on it.

Example:
  $ h2 host 9001 --root examples &
  $ curl --http2-prior-knowledge http://127.0.0.1:9001/client-reset.hex";

// The option of a number.
fn count_arg<'a>(
    alloc: Global,
    name: &'a str,
    value: &'a str,
    numbers: ValueParser<'a>,
    help: &'a str,
) -> Arg<'a>
    ensures rule { rule_of result ≡ record (path_rule name.entry.now) {
      parser = Some numbers.entry;
    } }
    ensures local { result.global ≡ false }
{
    valued_arg(alloc, name, value, help).value_parser(numbers)
}

// The numbers of connections.
fn numbers_of_connections<'a>() -> ValueParser<'a>
    ensures { result ≡ ValueParser.Signed (pos 1) (pos 1048576) }
{
    value_parser!(u32).range(1..=1_048_576)
}

// The seconds without a request.
fn idle_seconds<'a>() -> ValueParser<'a>
    ensures { result ≡ ValueParser.Signed (pos 0) (pos 86400) }
{
    value_parser!(u32).range(0..=86_400)
}

// The command with its first arguments.
fn served_command<'a>(alloc: Global) -> Result<Command<'a>, AllocError>
    ensures { IfOk result (λ command. app_of command ≡ served_app) }
{
    let text = CommandText {
        called: "h2 host",
        about: "Serve files or echo requests on many connections at once",
        usage: "h2 host [OPTIONS] PORT",
        more: HOSTED_AND_STATUSES,
    };
    named_command(alloc, "host", text)?
        .arg(number_arg(alloc, HOST_PORT, counts(), HOST_PORT_HELP))?
        .arg(valued_arg(alloc, ROOT, "DIR", ROOT_HELP))?
        .arg(valued_arg(alloc, ADDRESS, "ADDR", ADDRESS_HELP))
}

// The command with its limits and its log.
fn limited_command<'a>(alloc: Global) -> Result<Command<'a>, AllocError>
    ensures { IfOk result (λ command. app_of command ≡ limited_app) }
{
    served_command(alloc)?
        .arg(count_arg(
            alloc,
            CONNECTIONS,
            "N",
            numbers_of_connections(),
            CONNECTIONS_HELP,
        ))?
        .arg(count_arg(alloc, IDLE, "SECONDS", idle_seconds(), IDLE_HELP))?
        .arg(flag_arg(alloc, LOG, LOG_HELP))
}

/// The command as clap has it.
pub(super) fn host_command<'a>(alloc: Global) -> Result<Command<'a>, AllocError>
    ensures { IfOk result (λ command. app_of command ≡ host_app) }
{
    limited_command(alloc)?
        .arg(flag_arg(alloc, UNTIL_CLOSED, UNTIL_CLOSED_HELP))?
        .arg(valued_arg(alloc, HOST_WINDOW, "SIZE", HOST_WINDOW_HELP))
}
