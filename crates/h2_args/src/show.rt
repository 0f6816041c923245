//! The options of `show`.

ghost use Rattle.std.specs.Prelude.{◌≡◌, ◌≤◌, IfErr, IfOk, codes, false, map, pos, string_bytes};
ghost use Rattle.std.specs.Prelude.{Some, option_map};
ghost use Rattle.clap.specs.Words.{app_of, first_of, found_of, rows_of, rule_of};
ghost use Rattle.h2_args.specs.Commands.{IsColorRule, IsShowCommand, IsShownInputCommand};
ghost use Rattle.h2_args.specs.Commands.{IsStyledCommand, number_option_rule};
ghost use Rattle.h2_args.specs.Words.{ShowWordsAsk, ShowWordsFail, colors_of, file_of};
ghost use Rattle.h2_args.specs.Words.{show_asked_by, show_options_in, style_in, style_of};

use crate::follow::follow_arg;
use crate::options::{
    CommandText, HEX, flag_arg, hex_arg, is_named, is_set, named_command, side_arg, valued_arg,
};
use clap::builder::ValueParser;
use clap::{Arg, ArgMatches, Command, Error, value_parser};
use h2_frame::limits::{LEAST_MAX_FRAME, MOST_MAX_FRAME};
use h2_show::{ShowOptions, Side, Style, TextStyle};
use std::alloc::{AllocError, Global};

/// The options of `show`.
#[derive(Clone, Copy, Debug, PartialEq, Eq)]
pub struct ShowWords<'a> {
    /// How the input is shown.
    pub options: ShowOptions,
    /// The file to read; `None` for standard input.
    pub file: Option<&'a str>,
    /// The file with the client's octets, if both sides are shown.
    pub client: Option<&'a str>,
    /// The file with the server's octets.
    pub server: Option<&'a str>,
}

// contract: show (own) The words choose the end and hexadecimal
// rule: show (own) The words choose the end and hexadecimal
// contract: show (own) The words choose the limit of payloads
// rule: show (own) The words choose the limit of payloads
// contract: show (own) The words choose names, places, colors and JSON
// contract: show (own) With --file the input is that of a file
// contract: show (own) With --color auto there are colors where the output is a terminal
// contract: sides (own) --client and --server go together, and without --file
/// Reads the words after `show`; `colored` says whether `--color auto` has colors.
///
/// # Errors
///
/// The kind is `DisplayHelp` if help is asked for, `OutOfMemory` if out of memory, and another
/// one if a word is wrong. The error's text is for the user.
pub fn show_args<'a>(
    alloc: Global,
    words: &'a [String],
    colored: bool,
) -> Result<ShowWords<'a>, Error>
    ensures ok { IfOk result (λ asked.
        ShowWordsAsk colored (map string_bytes words.entry.now) (show_asked_by asked)) }
    ensures least { IfOk result (λ asked. 16384 ≤ asked.options.max_frame) }
    ensures most { IfOk result (λ asked. asked.options.max_frame ≤ 1048576) }
    ensures err { IfErr result (ShowWordsFail (map string_bytes words.entry.now)) }
{
    let command = show_command(alloc)?;
    let matches = command.try_get_matches_from(words)?;
    let max_frame = matches.get_one::<u32>(MAX_FRAME).unwrap_or(LEAST_MAX_FRAME);
    let options = options_of(&matches, max_frame, colored);
    let file = file_of(&matches);
    let client = matches.get_str(CLIENT);
    let server = matches.get_str(SERVER);
    Ok(ShowWords {
        options,
        file,
        client,
        server,
    })
}

// The options that the matches of `show` give, with this limit of payloads.
fn options_of(matches: &ArgMatches<'_>, max_frame: u32, colored: bool) -> ShowOptions
    ensures { result ≡ record (show_options_in colored (rows_of (found_of matches.now))) {
      max_frame = max_frame;
    } }
{
    let from = if is_named(matches, FROM, "server") {
        Side::Server
    } else {
        Side::Client
    };
    ShowOptions {
        hex: is_set(matches, HEX),
        from,
        max_frame,
        style: style_in(matches, colored),
    }
}

// rule: show (own) The words choose names, places, colors and JSON
// How lines are printed, by the matches of `show`.
fn style_in(matches: &ArgMatches<'_>, colored: bool) -> Style
    ensures { result ≡ style_in colored (rows_of (found_of matches.now)) }
{
    let json = is_set(matches, JSON);
    let names = is_set(matches, NAMES);
    let places = is_set(matches, OFFSETS);
    style_of(json, names, places, colors_in(matches, colored))
}

// contract: show (own) With --color auto there are colors where the output is a terminal
// rule: show (own) With --color auto there are colors where the output is a terminal
// Whether there are colors, by the matches of `show`.
fn colors_in(matches: &ArgMatches<'_>, colored: bool) -> bool
    ensures { result ≡ colors_of colored
        (first_of (codes "color") (rows_of (found_of matches.now))) }
{
    is_named(matches, COLOR, "always") || colored && is_named(matches, COLOR, "auto")
}

// How lines are printed.
fn style_of(json: bool, names: bool, places: bool, colors: bool) -> Style
    ensures { result ≡ style_of json names places colors }
{
    if json {
        Style::Json
    } else if names || places || colors {
        Style::Text(TextStyle {
            names,
            places,
            colors,
        })
    } else {
        Style::Plain
    }
}

// rule: show (own) With --file the input is that of a file
// The file to read, if the matches of `show` name one.
fn file_of<'a>(matches: &ArgMatches<'a>) -> Option<&'a str>
    ensures { option_map (λ file. file.now) result
        ≡ file_of (first_of (codes "file") (rows_of (found_of matches.now))) }
{
    match matches.get_str(FILE) {
        Some(file) => named_file(file),
        None => None,
    }
}

// The file that this value names.
fn named_file(file: &str) -> Option<&str>
    ensures { option_map (λ file. file.now) result ≡ file_of (Some file.entry.now) }
{
    if file == "-" { None } else { Some(file) }
}

const FILE: &str = "file";

const FILE_HELP: &str = r"Read this file instead of standard input; - is standard
input";

const CLIENT: &str = "client";

const CLIENT_HELP: &str = r"With --server: read the client's octets from this file
and show both sides, the client's first";

const SERVER: &str = "server";

const SERVER_HELP: &str = "With --client: read the server's octets from this file";

const NAMES: &str = "names";

const NAMES_HELP: &str = r"Print settings by name, and the names of error codes
(RFC 9113, sections 6.5.2 and 7)";

const OFFSETS: &str = "offsets";

const OFFSETS_HELP: &str = r"Prefix the preface and each frame with the position of
its first octet, counted from 1, in ten digits or more";

const COLOR: &str = "color";

const COLOR_HELP: &str = r"Print types bold, fields faint and faults red: always,
never, or auto (if standard output is a terminal and
NO_COLOR is unset or empty) [default: never]";

const JSON: &str = "json";

const JSON_HELP: &str = r"Print one JSON object per line, always with names and
offsets and without colors (docs/SHOW-JSON.md)";

const FROM: &str = "from";

/// The lines that `show` prints, how it ends, and an example.
const LINES_AND_STATUSES: &str =
    r"Each frame is printed on one line: its type, its stream, its payload length, and
what the type adds, in this order:
  end, whole, ack    the flag END_STREAM, END_HEADERS or ACK is set
  pad=N              N octets of padding
  priority           HEADERS with priority fields
  code=N             an error code (RFC 9113, section 7)
  ID=VALUE           a setting: 1 HEADER_TABLE_SIZE, 2 ENABLE_PUSH,
                     3 MAX_CONCURRENT_STREAMS, 4 INITIAL_WINDOW_SIZE,
                     5 MAX_FRAME_SIZE, 6 MAX_HEADER_LIST_SIZE
  last=N code=N debug=COUNT
                     GOAWAY: the last stream, the error code, and the number of
                     octets of debug data
  add=N              the window size increment
  flags=N            the flags of a frame whose type RFC 9113 does not define;
                     its type is printed as KIND and a number, such as KIND66
PING adds its eight octets in hexadecimal, and PRIORITY adds nothing. The fields
of a block follow the frame that ends it. Other lines:
  preface            the client connection preface
    name: value      a header field; `!` before the name marks it as never
                     indexed; an octet outside printable ASCII, or a backslash,
                     is printed in hexadecimal, such as `\x1b`
    list too large   the field section exceeds 65536 octets, counting 32 extra
                     for each field
  fault CODE at N    a connection error with this code (RFC 9113, section 7) at
                     octet N, counted from 1; nothing after it is shown
  rest N             the input ends N octets into the preface or a frame
  unfinished block   the input ends inside a field block

With --names, a known setting is printed by name instead of by number, and an
error code is followed by its name: code=8 CANCEL. With --offsets, the preface
and each frame are preceded by the position of their first octet (ten digits or
more, counted from 1) and a space; other lines have none.
With --color always, frame types are bold, fields are faint, and `fault`, `rest`
and `unfinished block` lines are red. With --json, each line is a JSON object,
and --names, --offsets and --color have no effect. With --follow, only
--max-frame and --page are accepted.

--client FILE --server FILE shows both sides of a connection, each from a file
of its own: first all lines of the client, prefixed with `> `, then those of the
server, prefixed with `< `. With --json, each object begins with its side. How
the two sides interleaved is not known, so neither is checked against the
SETTINGS of the other, and --max-frame limits both. --from has no effect, and
--file is refused.

The rules of connections, which `h2 replay` checks, and those of messages
(RFC 9113, section 8) are not checked.

Exit status (lines in backquotes go to standard error):
  0  the input is complete frames and field blocks, or empty
  1  a fault, or the input ends inside the preface, a frame or a field block
  2  invalid arguments
     `bad hex`: the input is not hexadecimal text, and none of it is shown
     `bad hex`, with --follow: a line is not tshark's, and nothing after it is
     shown
  3  `N1 Device`: a read or a write failed, or the file cannot be opened
  4  `N3 Memory`: out of memory

A hint may follow on standard error. It is meant for people; the exit status
does not depend on it.

A packet capture is not a stream of octets. tshark extracts both sides of the
first connection in it (if that is inside TLS, use follow,tls,raw,0, and give
tshark the keys):
  $ tshark -r FILE -q -z follow,tcp,raw,0 | h2 show --follow
Lines of the client are prefixed with `> `, those of the server with `< `, and
each is printed where the last octet of its frame arrived. A fault ends its
side, and the other side goes on; at the end, each side reports what is
unfinished, the client first. The client is the node that sent first, if it
began with the preface, and otherwise the other node. The exit status is 0 only
if both sides are valid and complete. A line that is not tshark's ends the
command with `bad hex`; a hint says which line it is, or that the input is a
packet capture.

With --follow and --page FILE, no lines are printed; instead, an HTML page for a
browser is written to FILE: two lifelines, one row per frame, one color per
stream, the windows of the connection and of its streams, and faults in red.
Clicking a frame folds its stream.

With --follow, frame sizes and header tables are checked against the SETTINGS of
the other side: a higher value applies from the SETTINGS on, a lower one from
the ACK on. Frames of up to --max-frame octets are always accepted.
`> not checked` (for the client) or `< not checked` (for the server) is printed
once if the SETTINGS of the other side allow this side a table above 65536
octets or frames above 1048576. This side is then checked against 65536 or
1048576 instead, so a fault reported later may be wrong.

Example:
  $ echo 000004 08 00 00000000 0000000f | h2 show --hex --from server
  WINDOW_UPDATE 0 4 add=15";

const FROM_HELP: &str = r"Endpoint that sent the input: client (which begins with
the preface) or server [default: client]";

pub(super) const MAX_FRAME: &str = "max-frame";

const MAX_FRAME_HELP: &str = r"Maximum length of a frame's payload, 16384 to 1048576
[default: 16384]";

// The range of `--max-frame`.
fn max_frames<'a>() -> ValueParser<'a>
    ensures { result ≡ ValueParser.Signed (pos 16384) (pos 1048576) }
{
    value_parser!(u32).range(i64::from(LEAST_MAX_FRAME)..=i64::from(MOST_MAX_FRAME))
}

/// The option as clap has it.
pub(super) fn max_frame_arg<'a>(alloc: Global) -> Arg<'a>
    ensures rule { rule_of result ≡ number_option_rule (codes "max-frame") 16384 1048576 }
    ensures local { result.global ≡ false }
{
    Arg::new(alloc, MAX_FRAME)
        .long(MAX_FRAME)
        .value_name("N")
        .value_parser(max_frames())
        .help(MAX_FRAME_HELP)
}

// The option of colors as clap has it.
fn color_arg<'a>(alloc: Global) -> Arg<'a>
    ensures rule { IsColorRule (rule_of result) }
    ensures local { result.global ≡ false }
{
    Arg::new(alloc, COLOR)
        .long(COLOR)
        .value_name("WHEN")
        .value_parser(["always", "never", "auto"].as_slice())
        // The help says the words, within 80 columns.
        .hide_possible_values(true)
        .help(COLOR_HELP)
}

// The command with its first options.
fn shown_input_command<'a>(alloc: Global) -> Result<Command<'a>, AllocError>
    ensures { IfOk result (λ command. IsShownInputCommand (app_of command)) }
{
    let text = CommandText {
        called: "h2 show",
        about: "Print the frames and header fields that one endpoint sends",
        usage: "h2 show [OPTIONS] < FILE",
        more: LINES_AND_STATUSES,
    };
    named_command(alloc, "show", text)?
        .arg(hex_arg(alloc))?
        .arg(side_arg(alloc, FROM, "client", FROM_HELP))?
        .arg(max_frame_arg(alloc))?
        .arg(follow_arg(alloc))
}

// The command without the files of both sides.
fn styled_command<'a>(alloc: Global) -> Result<Command<'a>, AllocError>
    ensures { IfOk result (λ command. IsStyledCommand (app_of command)) }
{
    shown_input_command(alloc)?
        .arg(valued_arg(alloc, FILE, "FILE", FILE_HELP))?
        .arg(flag_arg(alloc, NAMES, NAMES_HELP))?
        .arg(flag_arg(alloc, OFFSETS, OFFSETS_HELP))?
        .arg(color_arg(alloc))?
        .arg(flag_arg(alloc, JSON, JSON_HELP))
}

/// The command as clap has it.
pub(super) fn show_command<'a>(alloc: Global) -> Result<Command<'a>, AllocError>
    ensures { IfOk result (λ command. IsShowCommand (app_of command)) }
{
    styled_command(alloc)?
        .arg(valued_arg(alloc, CLIENT, "FILE", CLIENT_HELP))?
        .arg(valued_arg(alloc, SERVER, "FILE", SERVER_HELP))
}
