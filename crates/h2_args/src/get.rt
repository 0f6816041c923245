//! The options of `get`.

ghost use Rattle.std.specs.Prelude.{◌≡◌, ◌≤◌, IfErr, IfOk, IfSome, codes, false, map, pos, Some};
ghost use Rattle.std.specs.Prelude.{[], string_bytes, unwrap_or};
ghost use Rattle.clap.specs.Words.{HasKind, IsParsedFrom, all_of, app_of, found_of, rows_of};
ghost use Rattle.clap.specs.Words.{rule_of};
ghost use Rattle.h2_args.specs.Commands.{asking_app, flag_rule, get_app, header_rule, include_rule};
ghost use Rattle.h2_args.specs.Commands.{number_option_rule, streaming_app, text_option_rule};
ghost use Rattle.h2_args.specs.Commands.{others_rule, url_and_print_app, verbose_rule};
ghost use Rattle.h2_args.specs.Words.{asked_by, get_faults, get_words_in, get_words_of};

use crate::options::{CommandText, flag_arg, is_set, named_command, valued_arg};
use crate::sockets::required_arg;
use clap::builder::ValueParser;
use clap::{Arg, ArgAction, ArgMatches, Command, Error, value_parser};
use std::alloc::{AllocError, Global};

/// The options of `get`.
#[derive(Debug, Drop)]
pub struct GetOptions<'a> {
    /// The URL, not yet parsed.
    pub url: &'a str,
    /// Whether the fields of the response are printed.
    pub include: bool,
    /// The fields of the request, each NAME:VALUE, not yet parsed.
    pub fields: Vec<&'a str>,
    /// The method, if given.
    pub method: Option<&'a str>,
    /// The body of the request, if given.
    pub body: Option<&'a str>,
    /// Whether a response of status 400 or above is a failure.
    pub fail: bool,
    /// The port to use if the URL has none, from 1 to 65,535.
    pub port: Option<u16>,
    /// The file to which the body is written as it arrives, if given.
    pub output: Option<&'a str>,
    /// Whether the body is printed as it arrives.
    pub stream: bool,
    /// The seconds after which the command gives up, from 1 to 65,535, if given.
    pub timeout: Option<u16>,
    /// Whether the frames of both sides are printed on standard error.
    pub verbose: bool,
    /// More URLs after the first one.
    pub others: Vec<&'a str>,
    /// The size of the window, if given, not yet parsed: see [`crate::window_or`].
    pub window: Option<&'a str>,
}

// contract: engines (own) serve, get and loop have their words
// rule: engines (own) serve, get and loop have their words
/// Reads the words after `get`.
///
/// # Errors
///
/// Those of [`crate::show_args`].
pub fn get_args<'a>(alloc: Global, words: &'a [String]) -> Result<GetOptions<'a>, Error>
    ensures ok { IfOk result (λ options.
        get_words_of (map string_bytes words.entry.now) ≡ Some (asked_by options)) }
    ensures port { IfOk result (λ options.
        IfSome options.port (λ port. (1 ≤ port) × (port ≤ 65535))) }
    ensures timeout { IfOk result (λ options.
        IfSome options.timeout (λ seconds. (1 ≤ seconds) × (seconds ≤ 65535))) }
    ensures err { IfErr result (HasKind (get_faults (map string_bytes words.entry.now))) }
{
    let command = get_command(alloc)?;
    let matches = command.try_get_matches_from(words)?;
    options_of(alloc, &matches)
}

// rule: engines (own) serve, get and loop have their words
// The options that the matches of `get` give.
fn options_of<'a>(alloc: Global, matches: &ArgMatches<'a>) -> Result<GetOptions<'a>, Error>
    requires { (command : Command) × (app_of command ≡ get_app) × IsParsedFrom command matches.now }
    ensures ok { IfOk result (λ options.
        get_words_in (rows_of (found_of matches.now)) ≡ asked_by options) }
    ensures port { IfOk result (λ options.
        IfSome options.port (λ port. (1 ≤ port) × (port ≤ 65535))) }
    ensures timeout { IfOk result (λ options.
        IfSome options.timeout (λ seconds. (1 ≤ seconds) × (seconds ≤ 65535))) }
    ensures err { IfErr result (HasKind []) }
{
    // It is required.
    let Some(url) = matches.get_str(URL) else {
        unreachable!();
    };
    let fields = texts_of(alloc, matches, HEADER)?;
    let others = texts_of(alloc, matches, OTHERS)?;
    Ok(GetOptions {
        url,
        include: is_set(matches, INCLUDE),
        fields,
        method: matches.get_str(REQUEST),
        body: matches.get_str(DATA),
        fail: is_set(matches, FAIL),
        port: matches.get_one::<u16>(AT_PORT),
        output: matches.get_str(OUTPUT),
        stream: is_set(matches, STREAM),
        timeout: matches.get_one::<u16>(TIMEOUT),
        verbose: is_set(matches, VERBOSE),
        others,
        window: matches.get_str(GET_WINDOW),
    })
}

// The values of all uses of an option.
fn texts_of<'a>(
    alloc: Global,
    matches: &ArgMatches<'a>,
    option: &str,
) -> Result<Vec<&'a str>, AllocError>
    ensures { IfOk result (λ texts. map (λ text. text.now) texts.items
        ≡ unwrap_or (all_of option.now (rows_of (found_of matches.now))) []) }
{
    match matches.get_strs(option) {
        Some(texts) => Vec::from_slice(alloc, texts),
        None => Ok(Vec::new(alloc)),
    }
}

const URL: &str = "URL";

const URL_HELP: &str = "http://HOST:PORT/PATH?QUERY";

const OTHERS: &str = "URLS";

const OTHERS_HELP: &str = r"More URLs of the same host and port, fetched at once over
the same connection";

const INCLUDE: &str = "include";

const INCLUDE_HELP: &str = r"Print the fields of the response too: one per line
after the status, then an empty line; trailers
follow the body";

const HEADER: &str = "header";

const HEADER_HELP: &str = r"Add a field to the request; its name is sent in
lower case and must not be host; may be repeated";

const REQUEST: &str = "request";

const REQUEST_HELP: &str = "Request method [default: GET, or POST with --data]";

const DATA: &str = "data";

const DATA_HELP: &str = r"Request body: UTF-8 text as it is, @FILE for the
contents of a file, or @- for standard input; text
that begins with - or = needs --data=DATA";

const FAIL: &str = "fail";

const FAIL_HELP: &str = r"Exit with status 1 and print no body if the status
of the response is 400 or above";

const AT_PORT: &str = "port";

const AT_PORT_HELP: &str = "Port to use if the URL has none, 1 to 65535";

const OUTPUT: &str = "output";

const OUTPUT_HELP: &str = r"Write the body to this file as it arrives, instead
of to standard output";

const STREAM: &str = "stream";

const STREAM_HELP: &str = "Print the body as it arrives";

const TIMEOUT: &str = "timeout";

const TIMEOUT_HELP: &str = "Give up after this many seconds, 1 to 65535";

const VERBOSE: &str = "verbose";

const VERBOSE_HELP: &str = r"Print the frames of both sides on standard error,
in the format of show --follow, but check neither
against the other's SETTINGS; the body is printed,
or with --output written, as it arrives";

const GET_WINDOW: &str = "window";

const GET_WINDOW_HELP: &str = r"Octets of bodies that may be sent before they are
read, of all responses together; k and m multiply
by 1024 and 1048576 [default: 4m]";

/// What `get` prints, how it ends, and an example.
const FETCHED_AND_STATUSES: &str =
    r"The URL is fetched over a new connection, with prior knowledge of HTTP/2
(RFC 9113, section 3.3). The status is printed with its reason phrase, as in
`200 OK`, or alone if it has none, followed by the body as it is. Interim
responses (1xx) are not printed, nor are trailers without --include. Redirects
are not followed. A server that stays idle is waited for without limit, unless
--timeout is given: the command then gives up that many seconds after it began
to connect (name resolution, and a write to a pipe, are not interrupted).

Several URLs are requested at once, each with the same fields and the same body.
The responses are printed in the order of the URLs, with a newline between them.
The current one is printed as it arrives, as with --stream; what arrives of
later ones in the meantime is kept. That is at most the size of --window, once
the server has acknowledged the windows: each of N responses has a window of
that size divided by N, which opens again only for the current one, so a long
body takes N times the round trips. A response that is reset, or fails by
--fail, does not end the others, and a hint names its URL; the exit status is
that of the first failure. At most 100 URLs are accepted, all of the same host
and port.

The server may send as many octets of bodies as --window says before they are
read: so a window divided by the round-trip time is the most that arrives per
second. A size below 65535 limits only the responses, not the connection, which
has a window of 65535 octets at least.

With one URL and none of --output, --stream and --verbose, the body is kept
until the response is complete, and nothing is printed of an incomplete one.
Otherwise the body (with several URLs, that of the current response) is printed,
or written to the --output file, as it arrives, and little of it is kept: if the
response is reset or cut off, what arrived before is already there. The file is
created or truncated once the head of the response has arrived. If --fail makes
the response a failure, the file is left alone, and no more of the response is
fetched; with several URLs, no more of its body arrives than its window allows.
`--output -` writes a file named `-`. --output cannot be used with several URLs.

With --verbose, each frame is printed on standard error when it is sent
(prefixed with `> `) or received (prefixed with `< `), in the format of
h2 show --follow. With --output and without --verbose, a line on standard error
shows how much of the body has arrived, if standard error is a terminal.

The URL must have the scheme http, a host, and a port from 1 to 65535 unless
--port gives one. A user name is refused, and a fragment is dropped.

Fields are sent in the order given, after the pseudo-header fields. No others
are added, not even content-length: the end of the stream ends the body. A host
field is refused, since the URL names the host. Spaces and tabs around a value
are removed. With --include, an octet of a field that is not printable ASCII, or
is a backslash, is printed in hexadecimal, such as `\x1b`, so a server cannot
send control characters to the terminal in its fields. Trailers follow the body
and a newline.

Exit status (lines in backquotes go to standard error):
  0  a response was received, whatever its status unless --fail is given
  1  `N2 Stream CODE`: the connection failed with this code (RFC 9113,
     section 7)
     `N4 CutOff`: the connection ended before the response was complete
     `N6 Reset CODE`: the request was reset with this code; CODE is 7 also if it
     was not processed
     `error: status NUMBER`: with --fail, the status of the response is 400 or
     above
  2  invalid arguments, or a URL that cannot be fetched
     `N7 Refused`: the request is malformed, or its fields are too large
  3  `N1 Device`: the connection cannot be made, a read or a write failed (also
     of the files of --data and --output, which a hint names), or the time is
     over (`hint: timed out`)
     `N5 NoProgress`: a write accepted no octets, or the preface, SETTINGS and
     the heads of all URLs (of all but the last if --window is at most 65535)
     are 65536 octets or more
  4  `N3 Memory`: out of memory

A hint may follow that line. It is meant for people; the exit status does not
depend on it.

Example, with `h2 serve 9001 2` running:
  $ h2 get http://127.0.0.1:9001/a
  200 OK
  GET /a
  $ h2 get -d hello --port 9001 http://127.0.0.1/a
  200 OK
  POST /a
  hello";

// An option whose value is any text.
fn text_arg<'a>(
    alloc: Global,
    name: &'a str,
    letter: char,
    value: &'a str,
    help: &'a str,
) -> Arg<'a>
    ensures rule { rule_of result ≡ text_option_rule name.entry.now letter }
    ensures local { result.global ≡ false }
{
    Arg::new(alloc, name)
        .long(name)
        .short(letter)
        .value_name(value)
        .help(help)
}

// The argument of more URLs.
fn others_arg<'a>(alloc: Global) -> Arg<'a>
    ensures rule { rule_of result ≡ others_rule }
    ensures local { result.global ≡ false }
{
    Arg::new(alloc, OTHERS)
        .value_name("URL")
        .help(OTHERS_HELP)
        .action(ArgAction::Append)
}

// The flag for the frames of both sides.
fn verbose_arg<'a>(alloc: Global) -> Arg<'a>
    ensures rule { rule_of result ≡ verbose_rule }
    ensures local { result.global ≡ false }
{
    flag_arg(alloc, VERBOSE, VERBOSE_HELP).short('v')
}

// The flag for the fields of the response.
fn include_arg<'a>(alloc: Global) -> Arg<'a>
    ensures rule { rule_of result ≡ include_rule }
    ensures local { result.global ≡ false }
{
    flag_arg(alloc, INCLUDE, INCLUDE_HELP).short('i')
}

// The option of the fields of the request.
fn header_arg<'a>(alloc: Global) -> Arg<'a>
    ensures rule { rule_of result ≡ header_rule }
    ensures local { result.global ≡ false }
{
    text_arg(alloc, HEADER, 'H', "NAME:VALUE", HEADER_HELP).action(ArgAction::Append)
}

// The numbers from 1 to 65,535.
fn numbers<'a>() -> ValueParser<'a>
    ensures { result ≡ ValueParser.Signed (pos 1) (pos 65535) }
{
    value_parser!(u16).range(1..=65_535)
}

// An option whose value is a number from 1 to 65,535.
fn number_option<'a>(alloc: Global, name: &'a str, value: &'a str, help: &'a str) -> Arg<'a>
    ensures rule { rule_of result ≡ number_option_rule name.entry.now 1 65535 }
    ensures local { result.global ≡ false }
{
    Arg::new(alloc, name)
        .long(name)
        .value_name(value)
        .value_parser(numbers())
        .help(help)
}

// The command with its first arguments.
fn fetching_command<'a>(alloc: Global) -> Result<Command<'a>, AllocError>
    ensures { IfOk result (λ command. app_of command ≡ url_and_print_app) }
{
    let text = CommandText {
        called: "h2 get",
        about: "Fetch URLs and print the status and the body of each",
        usage: "h2 get [OPTIONS] URL [URL]...",
        more: FETCHED_AND_STATUSES,
    };
    named_command(alloc, "get", text)?
        .arg(required_arg(alloc, URL, URL_HELP))?
        .arg(include_arg(alloc))?
        .arg(header_arg(alloc))
}

// The command with the options of the request.
fn asking_command<'a>(alloc: Global) -> Result<Command<'a>, AllocError>
    ensures { IfOk result (λ command. app_of command ≡ asking_app) }
{
    fetching_command(alloc)?
        .arg(text_arg(alloc, REQUEST, 'X', "METHOD", REQUEST_HELP))?
        .arg(text_arg(alloc, DATA, 'd', "DATA", DATA_HELP))?
        .arg(flag_arg(alloc, FAIL, FAIL_HELP))?
        .arg(number_option(alloc, AT_PORT, "N", AT_PORT_HELP))
}

// The command with the options of the output.
fn streaming_command<'a>(alloc: Global) -> Result<Command<'a>, AllocError>
    ensures { IfOk result (λ command. app_of command ≡ streaming_app) }
{
    asking_command(alloc)?
        .arg(text_arg(alloc, OUTPUT, 'o', "FILE", OUTPUT_HELP))?
        .arg(flag_arg(alloc, STREAM, STREAM_HELP))
}

/// The command as clap has it.
pub(super) fn get_command<'a>(alloc: Global) -> Result<Command<'a>, AllocError>
    ensures { IfOk result (λ command. app_of command ≡ get_app) }
{
    streaming_command(alloc)?
        .arg(number_option(alloc, TIMEOUT, "SECONDS", TIMEOUT_HELP))?
        .arg(verbose_arg(alloc))?
        .arg(others_arg(alloc))?
        .arg(valued_arg(alloc, GET_WINDOW, "SIZE", GET_WINDOW_HELP))
}
